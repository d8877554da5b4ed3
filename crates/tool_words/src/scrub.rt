ghost use Rattle.std.specs.Prelude.{◌≡◌, Bool, map, string_bytes, Ok, IfOk};
ghost use Rattle.tool_words.specs.Words.{IsScrub};

use crate::command::Command;
use crate::fault::WordsFault;

/// Reads the words after `scrub`.
pub(crate) fn scrub(words: &[String]) -> Result<Command, WordsFault>
    ensures found { IfOk result (λ command. (repair : Bool) × (command ≡ Command.Scrub repair)
        × IsScrub (map string_bytes words.now) repair) }
    ensures only { (repair : Bool) → IsScrub (map string_bytes words.now) repair
        → result ≡ Ok (Command.Scrub repair) }
{
    let Some((flag, rest)) = words.split_first() else {
        return Ok(Command::Scrub { repair: false });
    };
    if flag.as_str() == "--repair" && rest.is_empty() {
        Ok(Command::Scrub { repair: true })
    } else {
        Err(WordsFault::Usage)
    }
}
