ghost use Rattle.std.specs.Prelude.{◌≡◌, List, IfOk, codes, option_map};
ghost use Rattle.xml_tokens.specs.Characters.{IsName};
ghost use Rattle.xml_tokens.specs.Tokens.{Attribute as Read};
ghost use Rattle.xml_tokens.specs.Children.{attribute_in};
ghost use Rattle.xml_tokens.specs.Progress.{AreAttributesOf, IsAttributeFound};
ghost use Rattle.entry_reader.specs.Parts.{IsKindRead};

use crate::fault::Why;
use atom_values::{AtomText, NoMemory, TextKind};
use std::alloc::Global;
use xml_tokens::{Content, Element};

/// The types of a text construct (RFC 4287 section 3.1.1).
const TEXT: &[u8] = b"text";

const HTML: &[u8] = b"html";

const XHTML: &[u8] = b"xhtml";

/// A text of `bytes`, which are part of a document of at most `MAX_TEXT` bytes.
pub(crate) fn text(bytes: Vec<u8>) -> Result<AtomText, NoMemory>
    ensures { IfOk result (λ text. text ≡ bytes.items) }
{
    // The text of a document has XML characters only, and no more bytes than it.
    match AtomText::from_vec(bytes) {
        Some(text) => Ok(text),
        None => Err(NoMemory),
    }
}

/// A text that copies `bytes`.
pub(crate) fn copied_text(alloc: Global, bytes: &[u8]) -> Result<AtomText, NoMemory>
    ensures { IfOk result (λ text. text ≡ bytes.now) }
{
    text(Vec::from_slice(alloc, bytes)?)
}

/// The text of an optional attribute.
pub(crate) fn attribute_text(
    alloc: Global,
    element: &Element<'_>,
    name: &[u8],
) -> Result<Option<AtomText>, NoMemory>
    requires { IsName name.now }
    ensures { IfOk result (λ found. IsAttributeFound name.now element.now found) }
{
    match element.attribute(alloc, name)? {
        Some(value) => Ok(Some(text(value)?)),
        None => Ok(None),
    }
}

/// The texts of two optional attributes. The caller has one exit for both if memory runs out.
pub(crate) fn two_texts(
    alloc: Global,
    element: &Element<'_>,
    first: &[u8],
    second: &[u8],
) -> Result<(Option<AtomText>, Option<AtomText>), NoMemory>
    requires first { IsName first.now }
    requires second { IsName second.now }
    ensures { IfOk result (λ both. IsAttributeFound first.now element.now both.0
        × IsAttributeFound second.now element.now both.1) }
{
    Ok((
        attribute_text(alloc, element, first)?,
        attribute_text(alloc, element, second)?,
    ))
}

/// The kind that a text construct's `type` states (RFC 4287 section 3.1.1), or why the element is refused.
/// `unknown` is the reason for a type that isn't listed there.
pub(crate) fn kind(
    alloc: Global,
    element: &Element<'_>,
    unknown: Why,
) -> Result<Result<TextKind, Why>, NoMemory>
    ensures { IfOk result (λ kind. (attributes : List Read)
        → AreAttributesOf attributes element.now
        → IsKindRead (attribute_in (codes "type") attributes) unknown kind) }
{
    match element.attribute(alloc, b"type")? {
        Some(kind) => Ok(stated_kind(kind.as_slice(), unknown)),
        None => Ok(Ok(TextKind::Plain)),
    }
}

/// The kind that a `type` states.
fn stated_kind(kind: &[u8], unknown: Why) -> Result<TextKind, Why>
    ensures { IsKindRead (Some kind.now) unknown result }
{
    if kind == TEXT {
        Ok(TextKind::Plain)
    } else if kind == HTML {
        Ok(TextKind::Html)
    } else if kind == XHTML {
        Err(Why::Xhtml)
    } else {
        Err(unknown)
    }
}

/// The refusal of an element whose content should be a text: the first element in it.
pub(crate) fn inner_fault(content: &Content) -> Option<(usize, Why)>
    ensures { result ≡ option_map (λ at. (at, Why.NotAnEntry)) content.now.inner }
{
    content.inner.map(|at| (at, Why::NotAnEntry))
}
