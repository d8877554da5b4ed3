ghost use Rattle.std.specs.Prelude.{◌≡◌, IfOk, None, option_map};
ghost use Rattle.url.specs.Parser.{parse_url};
ghost use Rattle.url.specs.Parts.{serialize};
ghost use Rattle.xml_tokens.specs.Tree.{Element as TreeElement};
ghost use Rattle.xml_tokens.specs.Progress.{IsElementOf};
ghost use Rattle.feed_reader.specs.Feed.{based, joined_to};
ghost use Rattle.feed_reader.specs.FeedReading.{IsUrlOf, target_of};

use atom_values::{Bytes, NoMemory};
use std::alloc::Global;
use url::{ParseError, ParseResult, Url};
use xml_tokens::Element;

/// The URL that was parsed. `None` if the text is refused, `NoMemory` if there is no room for the URL.
fn read_url(parsed: ParseResult<Url>) -> Result<Option<Url>, NoMemory>
    ensures { IfOk result (IsUrlOf parsed) }
{
    match parsed {
        Ok(url) => Ok(Some(url)),
        Err(ParseError::OutOfMemory | ParseError::Overflow) => Err(NoMemory),
        Err(_) => Ok(None),
    }
}

/// The URL that a reference leads to from a base (URL Standard section 4.4). `None` if either is refused.
fn joined(alloc: Global, address: &str, reference: &str) -> Result<Option<Url>, NoMemory>
    ensures { IfOk result (λ url.
        option_map serialize url ≡ based (parse_url None address.now) reference.now) }
{
    let Some(base) = read_url(Url::parse(alloc, address))? else {
        return Ok(None);
    };
    read_url(base.join(reference))
}

/// The address that a reference leads to from the document at `address`. `None` if they make no URL.
fn joined_text(alloc: Global, address: &[u8], reference: &[u8]) -> Result<Option<Bytes>, NoMemory>
    ensures { IfOk result (λ found. found ≡ joined_to address.now reference.now) }
{
    let Ok(address) = str::from_utf8(address) else {
        return Ok(None);
    };
    let Ok(reference) = str::from_utf8(reference) else {
        // The values of a document's attributes are UTF-8.
        return Err(NoMemory);
    };
    match joined(alloc, address, reference)? {
        Some(url) => Ok(Some(Bytes::of(alloc, url.as_str().as_bytes())?)),
        None => Ok(None),
    }
}

/// The address that an element's `href` leads to from the document at `address`. `None` if there is no `href`, or if
/// it and the address make no URL.
pub(crate) fn target(
    alloc: Global,
    address: &[u8],
    element: &Element<'_>,
) -> Result<Option<Bytes>, NoMemory>
    ensures { IfOk result (λ found. (e : TreeElement) → IsElementOf e element.now
        → found ≡ target_of address.now e) }
{
    match element.attribute(alloc, b"href")? {
        Some(href) => joined_text(alloc, address, href.as_slice()),
        None => Ok(None),
    }
}
