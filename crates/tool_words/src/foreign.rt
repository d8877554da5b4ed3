ghost use Rattle.std.specs.Prelude.{◌≡◌, ◌⊎◌, ℕ, List, map, string_bytes, Ok, Err, IfOk};
ghost use Rattle.tool_words.specs.Words.{IsForeign};

use crate::command::Command;
use crate::fault::WordsFault;
use crate::http_text::http_text;
use crate::parse::parsed;
use std::alloc::Global;

/// The names of the options of `foreign`.
static FOREIGN_OPTIONS: [&str; 1] = ["from"];

/// Reads the words after `foreign`.
pub(crate) fn foreign(alloc: Global, words: &[String]) -> Result<Command, WordsFault>
    ensures found { IfOk result (λ command. (from : List ℕ) × (command ≡ Command.Foreign from)
        × IsForeign (map string_bytes words.now) from) }
    ensures only { (from : List ℕ) → IsForeign (map string_bytes words.now) from
        → (result ≡ Ok (Command.Foreign from)) ⊎ (result ≡ Err WordsFault.NoMemory) }
{
    let matches = parsed(alloc, &FOREIGN_OPTIONS, &[], words)?;
    let from = http_text(alloc, &matches, "from")?;
    Ok(Command::Foreign { from })
}
