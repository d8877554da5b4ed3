ghost use Rattle.feed_commands.specs.Run.{OneAnswer};

use discover_command::discover_has_one_answer;
use feed_recovery::stores_open_in_one_way;
use foreign_command::foreign_has_one_answer;
use scrub_command::{repairs_have_one_end, sound_stores_have_one_answer};

/// A command has one answer to an input at the moments that the clock gives.
pub fn commands_have_one_answer()
    ensures { OneAnswer }
{
    // Their contracts are laws that the proof uses.
    stores_open_in_one_way();
    foreign_has_one_answer();
    discover_has_one_answer();
    sound_stores_have_one_answer();
    repairs_have_one_end();
}
