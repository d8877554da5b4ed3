ghost use Rattle.std.specs.Prelude.{◌≡◌, ◌⊎◌, ℕ, List, Some, codes, map, string_bytes, Ok, Err, IfOk};
ghost use Rattle.tool_words.specs.Numbers.{IsNumber};
ghost use Rattle.tool_words.specs.Parse.{value_in};
ghost use Rattle.tool_words.specs.Words.{IsDrill};
ghost use Rattle.tool_words.specs.declared.command.Command.{Command as CommandValue};

use crate::command::Command;
use crate::fault::WordsFault;
use crate::number::number;
use crate::parse::{placed, required};
use clap::ArgMatches;
use std::alloc::Global;

/// The names of the positional words of `drill`.
static DRILL_PLACES: [&str; 2] = ["seed", "count"];

/// The most requests of a drill.
const COUNT_LIMIT: u64 = 2_000;

/// Reads the words after `drill`.
pub(crate) fn drill(alloc: Global, words: &[String]) -> Result<Command, WordsFault>
    ensures found { IfOk result (λ command. (seed : ℕ) × (count : ℕ)
        × (command ≡ Command.Drill seed count) × IsDrill (map string_bytes words.now) seed count) }
    ensures only { (seed count : ℕ) → IsDrill (map string_bytes words.now) seed count
        → (result ≡ Ok (Command.Drill seed count)) ⊎ (result ≡ Err WordsFault.NoMemory) }
{
    let matches = placed(alloc, &DRILL_PLACES, words)?;
    let seed = number_of(&matches, "seed", 0, u64::MAX)?;
    let count = number_of(&matches, "count", 1, COUNT_LIMIT)?;
    Ok(Command::Drill {
        seed,
        count: count as u32,
    })
}

/// The number at the place of this name. `Usage` if there is no word, or it is no number in the range.
fn number_of(matches: &ArgMatches<'_>, name: &str, least: u64, most: u64) -> Result<u64, WordsFault>
    ensures found { IfOk result (λ n. (word : List ℕ)
        × (value_in matches.now name.now ≡ Some word) × IsNumber least most word n) }
    ensures only { (word : List ℕ) (n : ℕ) → value_in matches.now name.now ≡ Some word
        → IsNumber least most word n → result ≡ Ok n }
{
    let word = required(matches, name)?;
    number(word.as_bytes(), least, most).ok_or(WordsFault::Usage)
}
