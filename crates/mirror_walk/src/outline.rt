ghost use Rattle.std.specs.Prelude.{◌≡◌, ◌⊎◌, ℕ, ◌≤◌, ◌<◌, length, slice_get, Err, IfOk, IfSome, IsOkAnd};
ghost use Rattle.atom_grammar.specs.Places.{HasPiece};
ghost use Rattle.atom_grammar.specs.Refusal.{IsNoDocument, IsPlaceOfRefusal};
ghost use Rattle.atom_writer.specs.Doc.{DocValue, IsDoc, KeepsRules};
ghost use Rattle.atom_writer.specs.Pieces.{text};
ghost use Rattle.member_rules.specs.Chain.{place_of};
ghost use Rattle.mirror_walk.specs.Marks.{AreFromOne, marks_of};

use crate::mark::{ItemMark, marks};
use crate::origin::Origin;
use atom_grammar::{MAX_DOCUMENT, PiecePlace, ReadFault, item_offsets, read_doc};
use atom_values::NoMemory;
use atom_writer::{Doc, FeedName, Kind};
use chain_links::{Place, Span};
use std::alloc::Global;
use std::marker::Model;

/// A document without its texts: its place in the chain, and of each item its member's number, whether it is an
/// entry, and where its piece is in the document's text. It takes 12 bytes for each item.
///
/// Contracts see the whole document.
#[derive(Drop)]
pub struct Outline {
    kind: Kind,
    span: Span,
    prev: u32,
    marks: Vec<ItemMark>,
    /// The offset of each item's piece in the document's text, and the offset after the last one.
    offsets: Vec<u32>,
    origin: Origin,
}

impl Model for Outline {
    ghost use Rattle.atom_writer.specs.Doc.{DocValue};
    ghost use Rattle.mirror_walk.specs.Marks.{IsOutlineOf};

    ghost Value = { DocValue };

    ghost view = { λ o. o.origin.document };

    ghost invariant = { λ o. IsOutlineOf o.origin.document o.kind o.span o.prev o.marks.items o.offsets.items };
}

/// A document that was read: its outline, and the feed's name as it states it.
#[derive(Drop)]
pub struct Outlined {
    pub name: FeedName,
    pub outline: Outline,
}

impl Outline {
    /// Reads bytes as a document, and keeps its outline. Reads the bytes once, and passes over them once more for
    /// the places of the items.
    ///
    /// `NotADocument` exactly if the bytes are the text of no document, as [`read_doc`] says. `NoMemory` if there
    /// is no memory.
    pub fn read(alloc: Global, bytes: &[u8]) -> Result<Outlined, ReadFault>
        requires { length bytes.now ≤ MAX_DOCUMENT }
        // The bytes are the text of the document that is returned.
        ensures found { IfOk result (λ read. IsDoc read.outline × (bytes.now ≡ text read.outline)) }
        ensures name { IfOk result (λ read. read.name ≡ read.outline.name) }
        // Each document's text is read as that document, unless memory runs out.
        ensures only { (document : DocValue) → IsDoc document → bytes.now ≡ text document
            → IsOkAnd result (λ read. read.outline ≡ document) ⊎ (result ≡ Err ReadFault.NoMemory) }
        // A refusal states why and where.
        ensures refused { (at : ℕ) → result ≡ Err (ReadFault.NotADocument at)
            → IsNoDocument bytes.now × IsPlaceOfRefusal bytes.now at }
    {
        let document = read_doc(alloc, bytes)?;
        outline_of(alloc, document, bytes).map_err(|_| ReadFault::NoMemory)
    }

    /// The document's kind.
    pub fn kind(&self) -> Kind
        ensures kind { result ≡ self.now.kind }
        ensures rules { KeepsRules self.now }
    {
        self.kind
    }

    /// The operations that the document covers.
    pub fn span(&self) -> Span
        ensures { result ≡ self.now.span }
    {
        self.span
    }

    /// The number of the archive before the document, or 0 if there is none.
    pub fn prev(&self) -> u32
        ensures { result ≡ self.now.prev }
    {
        self.prev
    }

    /// The document's place in the chain.
    pub fn place(&self) -> Place
        ensures { result ≡ place_of self.now }
    {
        Place {
            address: self.kind.address(),
            span: self.span,
            prev: self.prev,
        }
    }

    /// The marks of the document's items, newest operation first.
    pub fn items(&self) -> &[ItemMark]
        ensures marks { result.now ≡ marks_of self.now }
        ensures from_one { AreFromOne result.now }
        ensures rules { KeepsRules self.now }
    {
        self.marks.as_slice()
    }

    /// Where the piece of the item with this index is in the document's text.
    pub fn piece(&self, index: usize) -> PiecePlace
        requires { index < length self.now.items }
        ensures { IfSome (slice_get self.now.items index) (λ item.
            HasPiece (text self.now) self.now.name item result) }
    {
        let at = self.offsets[index];
        PiecePlace {
            at,
            length: self.offsets[index + 1] - at,
        }
    }
}

/// Keeps the outline of a document, and the name. `written` is the document's text. `NoMemory` if there is no
/// memory for the marks and offsets of the items.
fn outline_of(alloc: Global, document: Doc, written: &[u8]) -> Result<Outlined, NoMemory>
    requires text { written.now ≡ text document }
    requires limit { length written.now ≤ MAX_DOCUMENT }
    ensures name { IfOk result (λ read. read.name ≡ document.name) }
    ensures outline { IfOk result (λ read. read.outline ≡ document) }
{
    let marks = marks(alloc, document.items.as_slice())?;
    let offsets = item_offsets(alloc, &document, written)?;
    let origin = Origin::of(&document);
    let Doc {
        name,
        kind,
        span,
        prev,
        updated: _,
        items: _,
    } = document;
    let outline = Outline {
        kind,
        span,
        prev,
        marks,
        offsets,
        origin,
    };
    Ok(Outlined { name, outline })
}
