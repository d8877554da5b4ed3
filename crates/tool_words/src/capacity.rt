ghost use Rattle.std.specs.Prelude.{◌≡◌, ℕ, codes, Ok, IfOk};
ghost use Rattle.tool_words.specs.Parse.{value_in};
ghost use Rattle.tool_words.specs.Words.{IsNumberOr, capacity_floor, capacity_limit, default_capacity};

use crate::fault::WordsFault;
use crate::number::number;
use clap::ArgMatches;

/// The least capacity of an area, in bytes.
const CAPACITY_FLOOR: u64 = 4_096;

/// The greatest capacity of an area, in bytes.
const CAPACITY_LIMIT: u64 = 68_719_476_736;

/// The capacity if `--capacity` is left out.
const DEFAULT_CAPACITY: u64 = 1_073_741_824;

/// The value of `--capacity`, or the default.
///
/// `Usage` if the value is no number in the range.
pub(crate) fn capacity(matches: &ArgMatches<'_>) -> Result<u64, WordsFault>
    ensures found { IfOk result (IsNumberOr default_capacity capacity_floor capacity_limit
        (value_in matches.now (codes "capacity"))) }
    ensures only { (n : ℕ) → IsNumberOr default_capacity capacity_floor capacity_limit
        (value_in matches.now (codes "capacity")) n → result ≡ Ok n }
{
    match matches.get_str("capacity") {
        None => Ok(DEFAULT_CAPACITY),
        Some(word) => number(word.as_bytes(), CAPACITY_FLOOR, CAPACITY_LIMIT).ok_or(
            WordsFault::Usage,
        ),
    }
}
