ghost use Rattle.std.specs.Prelude.{◌≡◌, ◌⊎◌, ℕ, ◌≤◌, ◌<◌, length, slice_get, Err, IfOk, IfSome, IsOkAnd};
ghost use Rattle.atom_grammar.specs.Places.{HasPiece};
ghost use Rattle.atom_grammar.specs.Refusal.{IsNoDocument, IsPlaceOfRefusal};
ghost use Rattle.atom_writer.specs.Doc.{KeepsRules};
ghost use Rattle.atom_writer.specs.Pieces.{text};
ghost use Rattle.member_rules.specs.Chain.{place_of};
ghost use Rattle.mirror_walk.specs.Accept.{IsKeptOf};
ghost use Rattle.mirror_walk.specs.Holding.{KeptValue};
ghost use Rattle.mirror_walk.specs.Marks.{AreFromOne, marks_of};

use crate::mark::ItemMark;
use crate::outline::{Outline, Outlined};
use atom_grammar::{MAX_DOCUMENT, PiecePlace, ReadFault};
use atom_writer::{FeedName, Kind};
use chain_links::{Place, Span};
use sha2::{Digest, Sha256};
use std::alloc::Global;
use std::marker::Model;

/// A document that a mirror took, and the SHA-256 digest of its bytes.
#[derive(Drop)]
pub(crate) struct Kept {
    pub(crate) outline: Outline,
    pub(crate) digest: [u8; 32],
}

impl Model for Kept {
    ghost use Rattle.mirror_walk.specs.Holding.{KeptValue};

    ghost Value = { KeptValue };

    ghost view = { λ k. record { document = k.outline; digest = k.digest } };
}

/// A document that was read, with the feed's name as it states it.
#[derive(Drop)]
pub(crate) struct Given {
    pub(crate) name: FeedName,
    pub(crate) kept: Kept,
}

impl Kept {
    /// The document's kind.
    pub(crate) fn kind(&self) -> Kind
        ensures kind { result ≡ self.now.document.kind }
        ensures rules { KeepsRules self.now.document }
    {
        self.outline.kind()
    }

    /// The operations that the document covers.
    pub(crate) fn span(&self) -> Span
        ensures { result ≡ self.now.document.span }
    {
        self.outline.span()
    }

    /// The number of the archive before the document, or 0 if there is none.
    pub(crate) fn prev(&self) -> u32
        ensures { result ≡ self.now.document.prev }
    {
        self.outline.prev()
    }

    /// The document's place in the chain.
    pub(crate) fn place(&self) -> Place
        ensures { result ≡ place_of self.now.document }
    {
        self.outline.place()
    }

    /// The marks of the document's items, newest operation first.
    pub(crate) fn items(&self) -> &[ItemMark]
        ensures marks { result.now ≡ marks_of self.now.document }
        ensures from_one { AreFromOne result.now }
        ensures rules { KeepsRules self.now.document }
    {
        self.outline.items()
    }

    /// Where the piece of the item with this index is in the document's text.
    pub(crate) fn piece(&self, index: usize) -> PiecePlace
        requires { index < length self.now.document.items }
        ensures { IfSome (slice_get self.now.document.items index) (λ item.
            HasPiece (text self.now.document) self.now.document.name item result) }
    {
        self.outline.piece(index)
    }

    /// The SHA-256 digest of the document's bytes.
    pub(crate) fn digest(&self) -> [u8; 32]
        ensures { result ≡ self.now.digest }
    {
        self.digest
    }
}

/// Reads bytes as a document, as [`Outline::read`] does, and digests them once.
pub(crate) fn read_given(alloc: Global, bytes: &[u8]) -> Result<Given, ReadFault>
    requires { length bytes.now ≤ MAX_DOCUMENT }
    // The bytes are the text of the document that is returned.
    ensures found { IfOk result (λ given. IsKeptOf bytes.now given.kept) }
    ensures name { IfOk result (λ given. given.name ≡ given.kept.document.name) }
    // Each document's text is read as that document, unless memory runs out.
    ensures only { (given : KeptValue) → IsKeptOf bytes.now given
        → IsOkAnd result (λ read. read.kept ≡ given) ⊎ (result ≡ Err ReadFault.NoMemory) }
    // A refusal states why and where.
    ensures refused { (at : ℕ) → result ≡ Err (ReadFault.NotADocument at)
        → IsNoDocument bytes.now × IsPlaceOfRefusal bytes.now at }
{
    let Outlined { name, outline } = Outline::read(alloc, bytes)?;
    let digest = Sha256::digest(bytes);
    let kept = Kept { outline, digest };
    Ok(Given { name, kept })
}
