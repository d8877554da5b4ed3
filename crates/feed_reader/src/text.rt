ghost use Rattle.std.specs.Prelude.{◌≡◌, ◌+◌, ◌<◌, ◌≤◌, ◌&&◌, false, OnOk, IfOk, option_map};
ghost use Rattle.atom_values.specs.Space.{trimmed};
ghost use Rattle.xml_tokens.specs.Tree.{Element as TreeElement, Content as Inner};
ghost use Rattle.xml_tokens.specs.Children.{whole_text_of, with_child};
ghost use Rattle.xml_tokens.specs.Progress.{Point, IsAt, IsElementOf, IsReading, depth_of, left_of, pending, total_of};
ghost use Rattle.feed_reader.specs.Rest.{IsRestRead};
ghost use Rattle.feed_reader.specs.FeedReading.{AreNoted, IsDated, IsFilled, IsKept};

use crate::fault::FeedWhy;
use atom_values::{AtomText, NoMemory, Stamp, TextFault};
use std::alloc::Global;
use xml_tokens::{Element, Elements, TokenFault};

/// Why an element is refused, after the offset of its `<`.
pub(crate) type Refusal = (usize, FeedWhy);

/// The refusal of an element, if there is a reason for it.
pub(crate) fn refusal(element: &Element<'_>, why: Option<FeedWhy>) -> Option<Refusal>
    ensures { result ≡ option_map (λ cause. (element.now.at, cause)) why }
{
    match why {
        Some(why) => Some((element.at, why)),
        None => None,
    }
}

/// Which of the children that a feed or an entry must have are read.
#[derive(Clone, Copy)]
pub(crate) struct Required {
    id: bool,
    updated: bool,
}

impl Required {
    /// No child is read.
    pub(crate) fn none() -> Required
        ensures { result ≡ record { id = false; updated = false } }
    {
        Required {
            id: false,
            updated: false,
        }
    }

    /// Notes a child.
    pub(crate) fn note(&mut self, child: &Element<'_>)
        ensures { (b inner : Inner) (e : TreeElement) → IsElementOf e child.now → AreNoted b self.old
            → AreNoted (with_child b e inner) self.new }
    {
        self.id |= child.is_atom(b"id");
        self.updated |= child.is_atom(b"updated");
    }

    /// Whether both are read.
    pub(crate) fn all(&self) -> bool
        ensures { result ≡ (self.now.id && self.now.updated) }
    {
        self.id && self.updated
    }
}

/// A text that copies `bytes`. The inner error is `TooLong`.
pub(crate) fn kept_text(alloc: Global, bytes: &[u8]) -> Result<Result<AtomText, FeedWhy>, NoMemory>
    ensures { IfOk result (IsKept bytes.now) }
{
    match AtomText::of(alloc, bytes) {
        Ok(text) => Ok(Ok(text)),
        Err(TextFault::TooLong { length: _ }) => Ok(Err(FeedWhy::TooLong)),
        // The text of a document has XML characters only.
        Err(TextFault::NotXmlChar { at: _ }) => Err(NoMemory),
        Err(TextFault::NoMemory) => Err(NoMemory),
    }
}

/// Puts a text into a slot. Returns why it is refused, if it is: `Twice` or `TooLong`.
fn fill(
    alloc: Global,
    slot: &mut Option<AtomText>,
    bytes: &[u8],
) -> Result<Option<FeedWhy>, NoMemory>
    ensures { IfOk result (IsFilled slot.old slot.new bytes.now) }
{
    if slot.is_some() {
        return Ok(Some(FeedWhy::Twice));
    }
    match kept_text(alloc, bytes)? {
        Ok(text) => {
            *slot = Some(text);
            Ok(None)
        }
        Err(why) => Ok(Some(why)),
    }
}

/// Reads an identifier (RFC 4287 section 4.2.6) into a slot. Returns why it is refused, if it is.
pub(crate) fn identifier(
    alloc: Global,
    elements: &mut Elements<'_>,
    slot: &mut Option<AtomText>,
) -> Result<Option<FeedWhy>, TokenFault>
    requires reading { IsReading elements.old }
    requires inside { 1 ≤ depth_of elements.old }
    ensures read { (from : Point) → IsAt elements.old from
        → IsRestRead (λ inner why. IsFilled slot.old slot.new (trimmed (whole_text_of inner)) why)
        (total_of elements.old) (pending elements.old) from result elements.new }
    ensures depth { OnOk result (depth_of elements.new + 1 ≡ depth_of elements.old) }
    ensures shorter { OnOk result (left_of elements.new < left_of elements.old) }
{
    let content = elements.whole_content()?;
    let why = fill(alloc, slot, content.trimmed())?;
    Ok(why)
}

/// Reads a title (RFC 4287 section 4.2.14) into a slot. Returns why it is refused, if it is.
pub(crate) fn title(
    alloc: Global,
    elements: &mut Elements<'_>,
    slot: &mut Option<AtomText>,
) -> Result<Option<FeedWhy>, TokenFault>
    requires reading { IsReading elements.old }
    requires inside { 1 ≤ depth_of elements.old }
    ensures read { (from : Point) → IsAt elements.old from
        → IsRestRead (λ inner why. IsFilled slot.old slot.new (whole_text_of inner) why)
        (total_of elements.old) (pending elements.old) from result elements.new }
    ensures depth { OnOk result (depth_of elements.new + 1 ≡ depth_of elements.old) }
    ensures shorter { OnOk result (left_of elements.new < left_of elements.old) }
{
    let content = elements.whole_content()?;
    let why = fill(alloc, slot, content.text.as_slice())?;
    Ok(why)
}

/// Reads a date (RFC 4287 section 3.3) into a slot. Returns why it is refused, if it is: `Twice` or `BadDate`.
pub(crate) fn date(
    elements: &mut Elements<'_>,
    slot: &mut Option<Stamp>,
) -> Result<Option<FeedWhy>, TokenFault>
    requires reading { IsReading elements.old }
    requires inside { 1 ≤ depth_of elements.old }
    ensures read { (from : Point) → IsAt elements.old from
        → IsRestRead (λ inner why. IsDated slot.old slot.new (trimmed (whole_text_of inner)) why)
        (total_of elements.old) (pending elements.old) from result elements.new }
    ensures depth { OnOk result (depth_of elements.new + 1 ≡ depth_of elements.old) }
    ensures shorter { OnOk result (left_of elements.new < left_of elements.old) }
{
    let content = elements.whole_content()?;
    if slot.is_some() {
        return Ok(Some(FeedWhy::Twice));
    }
    let Some(moment) = Stamp::parse(content.trimmed()) else {
        return Ok(Some(FeedWhy::BadDate));
    };
    *slot = Some(moment);
    Ok(None)
}
