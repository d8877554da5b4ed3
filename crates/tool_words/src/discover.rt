ghost use Rattle.std.specs.Prelude.{◌≡◌, ◌⊎◌, ℕ, List, map, string_bytes, Ok, Err, IfOk};
ghost use Rattle.tool_words.specs.Words.{IsDiscover};

use crate::command::Command;
use crate::fault::WordsFault;
use crate::http_text::http_text;
use crate::parse::placed;
use std::alloc::Global;

/// The name of the positional word of `discover`.
static DISCOVER_PLACES: [&str; 1] = ["address"];

/// Reads the words after `discover`.
pub(crate) fn discover(alloc: Global, words: &[String]) -> Result<Command, WordsFault>
    ensures found { IfOk result (λ command. (address : List ℕ) × (command ≡ Command.Discover address)
        × IsDiscover (map string_bytes words.now) address) }
    ensures only { (address : List ℕ) → IsDiscover (map string_bytes words.now) address
        → (result ≡ Ok (Command.Discover address)) ⊎ (result ≡ Err WordsFault.NoMemory) }
{
    let matches = placed(alloc, &DISCOVER_PLACES, words)?;
    let address = http_text(alloc, &matches, "address")?;
    Ok(Command::Discover { address })
}
