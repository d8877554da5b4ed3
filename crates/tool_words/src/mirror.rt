ghost use Rattle.std.specs.Prelude.{◌≡◌, ◌⊎◌, ℕ, List, Bool, map, string_bytes, Ok, Err, IfOk};
ghost use Rattle.tool_words.specs.Words.{IsMirror};

use crate::base::base;
use crate::capacity::capacity;
use crate::command::Command;
use crate::fault::WordsFault;
use crate::parse::parsed;
use std::alloc::Global;

/// The names of the options of `mirror`.
static MIRROR_OPTIONS: [&str; 2] = ["base", "capacity"];

/// The names of the flags of `mirror`.
static MIRROR_FLAGS: [&str; 2] = ["fetch", "report"];

/// Reads the words after `mirror`.
pub(crate) fn mirror(alloc: Global, words: &[String]) -> Result<Command, WordsFault>
    ensures found { IfOk result (λ command. (base : List ℕ) × (fetch report : Bool) × (capacity : ℕ)
        × (command ≡ Command.Mirror base fetch report capacity)
        × IsMirror (map string_bytes words.now) base fetch report capacity) }
    ensures only { (base : List ℕ) (fetch report : Bool) (capacity : ℕ)
        → IsMirror (map string_bytes words.now) base fetch report capacity
        → (result ≡ Ok (Command.Mirror base fetch report capacity)) ⊎ (result ≡ Err WordsFault.NoMemory) }
{
    let matches = parsed(alloc, &MIRROR_OPTIONS, &MIRROR_FLAGS, words)?;
    let base = base(alloc, &matches)?;
    let capacity = capacity(&matches)?;
    Ok(Command::Mirror {
        base,
        fetch: matches.get_flag("fetch"),
        report: matches.get_flag("report"),
        capacity,
    })
}
