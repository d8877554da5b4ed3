ghost use Rattle.own_chain.specs.Laws.{OwnChainsAreRead, OwnChainsAreWalked};

use canonical_feed::canonical_text_is_read;
use foreign_mirror::walks_end_in_one_way;

// The function and the laws that it calls do nothing. It exists for its contract, which is a law over the definitions of
// specs/.

/// There is a foreign walk over the documents of one of this project's feeds. Each such walk reads them all, and shows the
/// live entries of the feed's history: their identifiers, titles and dates.
pub fn own_chains_are_read()
    ensures read { OwnChainsAreRead }
    ensures walked { OwnChainsAreWalked }
{
    canonical_text_is_read();
    walks_end_in_one_way();
}
