ghost use Rattle.std.specs.Prelude.{◌≡◌, ◌⊎◌, ℕ, List, map, string_bytes, Ok, Err, IfOk};
ghost use Rattle.tool_words.specs.Words.{IsRelay};

use crate::base::base;
use crate::capacity::capacity;
use crate::command::Command;
use crate::fault::WordsFault;
use crate::listen::{listen, requests};
use crate::parse::parsed;
use std::alloc::Global;

/// The names of the options of `relay`.
static RELAY_OPTIONS: [&str; 4] = ["base", "listen", "requests", "capacity"];

/// Reads the words after `relay`.
pub(crate) fn relay(alloc: Global, words: &[String]) -> Result<Command, WordsFault>
    ensures found { IfOk result (λ command. (base listen : List ℕ) × (requests capacity : ℕ)
        × (command ≡ Command.Relay base listen requests capacity)
        × IsRelay (map string_bytes words.now) base listen requests capacity) }
    ensures only { (base listen : List ℕ) (requests capacity : ℕ)
        → IsRelay (map string_bytes words.now) base listen requests capacity
        → (result ≡ Ok (Command.Relay base listen requests capacity)) ⊎ (result ≡ Err WordsFault.NoMemory) }
{
    let matches = parsed(alloc, &RELAY_OPTIONS, &[], words)?;
    let requests = requests(&matches)?;
    let capacity = capacity(&matches)?;
    let base = base(alloc, &matches)?;
    let listen = listen(alloc, &matches)?;
    Ok(Command::Relay {
        base,
        listen,
        requests,
        capacity,
    })
}
