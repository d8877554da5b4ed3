ghost use Rattle.std.specs.Prelude.{◌≡◌, ◌⊎◌, List, ℕ, codes, Ok, Err, IfOk};
ghost use Rattle.chain_links.specs.Base.{IsBase};
ghost use Rattle.chain_links.specs.Checked.{IsUrlText};
ghost use Rattle.tool_words.specs.Parse.{value_in};
ghost use Rattle.tool_words.specs.Words.{IsBaseText};

use crate::fault::WordsFault;
use crate::parse::required;
use chain_links::{Base, BaseFault};
use clap::ArgMatches;
use std::alloc::Global;

/// The value of `--base`.
///
/// `Usage` if there is none, or it isn't a base address.
pub(crate) fn base(alloc: Global, matches: &ArgMatches<'_>) -> Result<Base, WordsFault>
    ensures found { IfOk result (IsBaseText (value_in matches.now (codes "base"))) }
    ensures only { (base : List ℕ) → IsBaseText (value_in matches.now (codes "base")) base
        → (result ≡ Ok base) ⊎ (result ≡ Err WordsFault.NoMemory) }
{
    base_of(alloc, required(matches, "base")?)
}

/// The base address with this text.
///
/// `Usage` if the text is outside the grammar, or if the parser of the URL Standard prints another text for it.
fn base_of(alloc: Global, text: &str) -> Result<Base, WordsFault>
    ensures found { IfOk result (λ base. (base ≡ text.now) × IsBase text.now × IsUrlText text.now) }
    ensures refused { result ≡ Err WordsFault.Usage → IsBase text.now → ¬ IsUrlText text.now }
{
    let base = match Base::parse(alloc, text.as_bytes()) {
        Ok(base) => base,
        Err(BaseFault::BadBase) => return Err(WordsFault::Usage),
        Err(BaseFault::NoMemory) => return Err(WordsFault::NoMemory),
    };
    if base.checked(alloc)? {
        Ok(base)
    } else {
        Err(WordsFault::Usage)
    }
}
