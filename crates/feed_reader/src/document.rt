ghost use Rattle.std.specs.Prelude.{◌≡◌, ◌⊎◌, ℕ, ◌≤◌, length, Ok, Err, IfOk, OnOk};
ghost use Rattle.feed_reader.specs.Feed.{DocumentValue, IsForeignDocument};
ghost use Rattle.feed_reader.specs.FeedDocument.{SpellsFeed, IsFeedRefusedAt, feed_limit};
ghost use Rattle.xml_tokens.specs.Tree.{Element as TreeElement};
ghost use Rattle.xml_tokens.specs.Tree.Content.{nothing};
ghost use Rattle.xml_tokens.specs.Progress.{Point, IsAt, IsElementOf, IsOver, IsReading, depth_of, pending, total_of};
ghost use Rattle.feed_reader.specs.Rest.{IsDocumentFrom};
ghost use Rattle.feed_reader.specs.FeedReading.{IsDocumentMade, IsFeedSoFar};
ghost use Rattle.feed_reader.specs.declared.fault.ForeignRead.{ForeignRead};
ghost use Rattle.feed_reader.specs.declared.fault.FeedWhy.{FeedWhy};

use crate::children::read_children;
use crate::fault::{FeedWhy, ForeignRead};
use crate::parts::FeedParts;
use crate::text::Refusal;
use crate::values::ForeignDoc;
use std::alloc::Global;
use xml_tokens::{Element, Elements, Event, TokenFault, TokenWhy};

/// The greatest length of a feed document, in bytes.
pub const MAX_FEED: usize = 67_108_864;

/// The greatest depth of an element in a feed document. The root has depth 1.
pub const MAX_FEED_DEPTH: usize = 256;

/// Reads a feed document of at most [`MAX_FEED`] bytes (RFC 4287 section 4.1.1), and returns what a mirror keeps of
/// it. `address` is that of the document, to which the `href` of the link to the archive before is joined (RFC 5005
/// section 4, URL Standard section 4.4).
///
/// Of the feed's children, `id`, `updated`, `link`, `entry` and the `deleted-entry` of RFC 6721 are read, and of an
/// entry's children `id`, `title` and `updated`. All other elements are skipped, whatever they hold. Elements inside
/// a text aren't refused.
///
/// `NotRead` has the first of these reasons that holds:
///
/// - `Token`: the bytes aren't UTF-8, or else a token isn't allowed where it is. The first such token counts.
/// - The reason of the first element in document order that has one. The root is the first element. [`FeedWhy`]
///   lists the reasons in the order in which those of one element are tried.
///
/// `NoMemory` if memory runs out or an address would have 4 GB, also where the bytes would be refused. One pass checks
/// the characters, and a second one reads the tokens.
pub fn read_feed(alloc: Global, bytes: &[u8], address: &[u8]) -> Result<ForeignDoc, ForeignRead>
    requires { length bytes.now ≤ feed_limit }
    // The bytes spell the document that is returned.
    ensures found { IfOk result
        (λ doc. IsForeignDocument doc × SpellsFeed bytes.now address.now doc) }
    // Each document that the bytes spell is returned, unless memory runs out.
    ensures only { (doc : DocumentValue) → SpellsFeed bytes.now address.now doc
        → (result ≡ Ok doc) ⊎ (result ≡ Err ForeignRead.NoMemory) }
    // A refusal states why and where.
    ensures refused { (at : ℕ) (why : FeedWhy) → result ≡ Err (ForeignRead.NotRead at why)
        → IsFeedRefusedAt bytes.now address.now at why }
{
    let mut elements = Elements::new(alloc, MAX_FEED_DEPTH, bytes)?;
    let root = match elements.next()? {
        Some(Event::Begin(root)) => root,
        // The first part of a document's tree is its root.
        Some(Event::End) => return Err(broken(bytes.len())),
        Some(Event::Said(_)) => return Err(broken(bytes.len())),
        None => return Err(broken(bytes.len())),
    };
    match document(alloc, &mut elements, &root, address)? {
        Ok(document) => Ok(document),
        Err((at, why)) => Err(ForeignRead::NotRead { at, why }),
    }
}

/// The fault of an input that ends too early.
fn broken(at: usize) -> ForeignRead {
    ForeignRead::NotRead {
        at,
        why: FeedWhy::Token(TokenWhy::NotWellFormed),
    }
}

/// Reads the document with this root to its end. The inner error is the refusal of its first element that has one.
fn document<'a>(
    alloc: Global,
    elements: &mut Elements<'a>,
    root: &Element<'a>,
    address: &[u8],
) -> Result<Result<ForeignDoc, Refusal>, TokenFault>
    requires reading { IsReading elements.old }
    requires inside { 1 ≤ depth_of elements.old }
    ensures read { (from : Point) (e : TreeElement) → IsAt elements.old from → IsElementOf e root.now
        → IsDocumentFrom (λ inner made. IsDocumentMade address.now e inner made)
        (total_of elements.old) (pending elements.old) from result elements.new }
    ensures over { OnOk result (IsOver elements.new) }
{
    if !root.is_atom(b"feed") {
        elements.skip()?;
        elements.drain()?;
        return Ok(Err((root.at, FeedWhy::NotAFeed)));
    }
    let mut parts = FeedParts::new(alloc, address);
    if let Err(fault) = read_feed_parts(elements, &mut parts) {
        drop(parts);
        return Err(fault);
    }
    Ok(parts.document(root.at))
}

/// Reads the content of a feed, and the rest of its document.
fn read_feed_parts(elements: &mut Elements<'_>, parts: &mut FeedParts<'_>) -> Result<(), TokenFault>
    requires reading { IsReading elements.old }
    requires inside { 1 ≤ depth_of elements.old }
    requires start { IsFeedSoFar nothing parts.old }
    ensures read { (from : Point) → IsAt elements.old from
        → IsDocumentFrom (λ inner _. IsFeedSoFar inner parts.new)
        (total_of elements.old) (pending elements.old) from result elements.new }
    ensures over { OnOk result (IsOver elements.new) }
    ensures address { parts.new.address.now ≡ parts.old.address.now }
{
    read_children(elements, parts)?;
    elements.drain()
}
