ghost use Rattle.discover_command.specs.Answer.{DiscoverHasOneAnswer};

use service_reader::bytes_are_read_as_a_service_in_one_way;

// The function does nothing. It exists for its contract, which is a law over the definitions of specs/.

/// What a source has at an address determines the answer of `discover`.
pub fn discover_has_one_answer()
    ensures { DiscoverHasOneAnswer }
{
    // Its contract is a law that the proof uses.
    bytes_are_read_as_a_service_in_one_way();
}
