ghost use Rattle.std.specs.Prelude.{◌≡◌, ℕ, List, ℤ, ◌≤◌, ◌++◌, All, IfOk, IsTrue, drop, length, map};
ghost use Rattle.chain_links.specs.Base.{IsBase};
ghost use Rattle.atom_writer.specs.declared.doc.FeedName.{FeedName};
ghost use Rattle.atom_writer.specs.Doc.{is_placed};
ghost use Rattle.atom_writer.specs.Pieces.{item_piece, joined, text};
ghost use Rattle.atom_grammar.specs.Cutting.{IsCut};
ghost use Rattle.atom_grammar.specs.FeedParts.{IsSpan};
ghost use Rattle.atom_grammar.specs.Places.{AreItemOffsets, first_pieces};

use crate::cutting::piece_len;
use crate::read::MAX_DOCUMENT;
use atom_values::NoMemory;
use atom_writer::{Doc, Kind};
use chain_links::Span;
use deleted_entries::Item;
use std::alloc::Global;

/// Where the piece of an item is in the text of a document: `length` bytes from offset `at` on.
#[derive(Clone, Copy, Debug, PartialEq, Eq)]
pub struct PiecePlace {
    pub at: u32,
    pub length: u32,
}

/// Returns the offsets of the pieces of the document's items in its text, in order, and the offset after the last
/// piece. The pieces follow one another. `written` is the document's text.
///
/// The only error is out of memory. The text is cut once, from its start to the end of the last item, and no item is
/// read. The list is allocated once.
pub fn item_offsets(alloc: Global, document: &Doc, written: &[u8]) -> Result<Vec<u32>, NoMemory>
    requires text { written.now ≡ text document.now }
    requires limit { length written.now ≤ MAX_DOCUMENT }
    ensures { IfOk result (λ offsets.
        AreItemOffsets written.now document.now.name document.now.items offsets.items) }
{
    let place = document.place();
    let from = after_pieces(written, first_count(document.kind, place.span, place.prev));
    // The call states the rules of a base: no address in an item has an end tag.
    let _ = document.name.base.text();
    offsets_from(alloc, document.items.as_slice(), written, from)
}

/// The number of pieces before the first item of a document.
fn first_count(kind: Kind, span: Span, prev: u32) -> u32
    requires placed { IsTrue (is_placed kind span prev) }
    requires bounds { IsSpan span }
    ensures count { (name : FeedName) (updated : ℤ)
        → length (first_pieces name updated kind span prev) ≡ result }
    ensures cut { (name : FeedName) (updated : ℤ) → IsBase name.base
        → All IsCut (first_pieces name updated kind span prev) }
{
    let prev_links = if prev == 0 { 0 } else { 1 };
    match kind {
        Kind::Subscription => 8 + prev_links,
        Kind::Archive(_) => 11 + prev_links,
    }
}

/// The offset after the first `count` pieces of a text.
fn after_pieces(written: &[u8], count: u32) -> usize
    ensures within { result ≤ length written.now }
    ensures rest { (pieces : List (List ℕ)) (rest : List ℕ) → All IsCut pieces → length pieces ≡ count
        → written.now ≡ joined pieces ++ rest → drop result written.now ≡ rest }
{
    let mut at = 0;
    let mut left = count;
    while left > 0 {
        at += piece_len(&written[at..]);
        left -= 1;
    }
    at
}

/// The offsets of the pieces of these items, which follow one another in the text from the offset `from` on, and the
/// offset after the last one.
fn offsets_from(
    alloc: Global,
    items: &[Item],
    written: &[u8],
    from: usize,
) -> Result<Vec<u32>, NoMemory>
    requires within { from ≤ length written.now }
    requires limit { length written.now ≤ MAX_DOCUMENT }
    ensures { IfOk result (λ offsets. (name : FeedName) (rest : List ℕ) → IsBase name.base
        → drop from written.now ≡ joined (map (item_piece name) items.now) ++ rest
        → AreItemOffsets written.now name items.now offsets.items) }
{
    let mut offsets = Vec::with_capacity(alloc, items.len() + 1)?;
    offsets.push(from as u32)?;
    let mut at = from;
    for item in items {
        // The call states the range of the number: no address in the item has an end tag.
        let _ = item.number();
        at += piece_len(&written[at..]);
        offsets.push(at as u32)?;
    }
    Ok(offsets)
}
