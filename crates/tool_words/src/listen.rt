ghost use Rattle.std.specs.Prelude.{◌≡◌, ◌⊎◌, ℕ, List, codes, Ok, Err, IfOk};
ghost use Rattle.tool_words.specs.Parse.{value_in};
ghost use Rattle.tool_words.specs.Words.{IsListen, IsRequests};

use crate::fault::WordsFault;
use crate::number::number;
use crate::parse::required;
use atom_values::Bytes;
use clap::ArgMatches;
use std::alloc::Global;

/// The most bytes of an address to listen at.
const LISTEN_LIMIT: usize = 255;

/// The most requests that a run of `serve` or `relay` answers.
const REQUEST_LIMIT: u64 = 1_000_000;

/// The value of `--listen`. `Usage` if it is left out or too long.
pub(crate) fn listen(alloc: Global, matches: &ArgMatches<'_>) -> Result<Bytes, WordsFault>
    ensures found { IfOk result (IsListen (value_in matches.now (codes "listen"))) }
    ensures only { (listen : List ℕ) → IsListen (value_in matches.now (codes "listen")) listen
        → (result ≡ Ok listen) ⊎ (result ≡ Err WordsFault.NoMemory) }
{
    let text = required(matches, "listen")?;
    if text.is_empty() || text.len() > LISTEN_LIMIT {
        return Err(WordsFault::Usage);
    }
    Ok(Bytes::of(alloc, text.as_bytes())?)
}

/// The value of `--requests`. `Usage` if it is left out, or is no number in the range.
pub(crate) fn requests(matches: &ArgMatches<'_>) -> Result<u32, WordsFault>
    ensures found { IfOk result (IsRequests (value_in matches.now (codes "requests"))) }
    ensures only { (n : ℕ) → IsRequests (value_in matches.now (codes "requests")) n
        → result ≡ Ok n }
{
    let word = required(matches, "requests")?;
    let requests = number(word.as_bytes(), 1, REQUEST_LIMIT).ok_or(WordsFault::Usage)?;
    Ok(requests as u32)
}
