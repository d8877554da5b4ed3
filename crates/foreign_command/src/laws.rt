ghost use Rattle.foreign_command.specs.Answer.{ForeignHasOneAnswer};

use foreign_entries::documents_have_one_live_list;
use foreign_mirror::walks_end_in_one_way;

// The function does nothing. It exists for its contract, which is a law over the definitions of specs/.

/// What a source has at each address determines the answer of `foreign`.
pub fn foreign_has_one_answer()
    ensures { ForeignHasOneAnswer }
{
    // Their contracts are laws that the proof uses.
    walks_end_in_one_way();
    documents_have_one_live_list();
}
