ghost use Rattle.std.specs.Prelude.{◌≡◌, ◌⊎◌, ◌↔◌, ℕ, List, Ok, Err, IfOk, IsTrue};
ghost use Rattle.chain_links.specs.Checked.{IsUrlText};
ghost use Rattle.tool_words.specs.Parse.{value_in};
ghost use Rattle.tool_words.specs.Words.{IsHttpText};

use crate::fault::WordsFault;
use crate::parse::required;
use atom_values::{Bytes, NoMemory};
use clap::ArgMatches;
use std::alloc::Global;
use url::{ParseError, Url};

/// The scheme of the addresses that documents are fetched from.
const SCHEME: &[u8] = b"http:";

/// The value of this name. `Usage` if it is left out, isn't an `http` URL, or is one that the parser of the URL Standard
/// prints in another way.
pub(crate) fn http_text(
    alloc: Global,
    matches: &ArgMatches<'_>,
    name: &str,
) -> Result<Bytes, WordsFault>
    ensures found { IfOk result (IsHttpText (value_in matches.now name.now)) }
    ensures only { (address : List ℕ) → IsHttpText (value_in matches.now name.now) address
        → (result ≡ Ok address) ⊎ (result ≡ Err WordsFault.NoMemory) }
{
    let text = required(matches, name)?;
    if !text.as_bytes().starts_with(SCHEME) || !is_url_text(alloc, text)? {
        return Err(WordsFault::Usage);
    }
    Ok(Bytes::of(alloc, text.as_bytes())?)
}

/// Whether the parser of the URL Standard (section 4.4) reads the text as a URL and prints the same text.
fn is_url_text(alloc: Global, text: &str) -> Result<bool, NoMemory>
    ensures { IfOk result (λ answer. IsTrue answer ↔ IsUrlText text.now) }
{
    match Url::parse(alloc, text) {
        Ok(url) => Ok(url.as_str() == text),
        Err(ParseError::OutOfMemory | ParseError::Overflow) => Err(NoMemory),
        Err(_) => Ok(false),
    }
}
