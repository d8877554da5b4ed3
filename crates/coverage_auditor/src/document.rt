ghost use Rattle.std.specs.Prelude.{◌≡◌, IfOk, Some, slice_get};
ghost use Rattle.atom_values.specs.Entry.{EntryValue};
ghost use Rattle.atom_writer.specs.Doc.{IsDoc, KeepsRules};
ghost use Rattle.atom_writer.specs.Pieces.{text};
ghost use Rattle.deleted_entries.specs.declared.item.Item.TheVariants.{Kept};
ghost use Rattle.member_rules.specs.Chain.{place_of};
ghost use Rattle.mirror_walk.specs.Marks.{AreFromOne, marks_of};
ghost use Rattle.coverage_auditor.specs.Chain.{IsOfFeed};

use atom_grammar::read_entry;
use atom_values::{Entry, NoMemory};
use atom_writer::FeedName;
use chain_links::{Place, Span};
use mirror_walk::{ItemMark, Outline};
use std::alloc::Global;
use std::marker::Model;

/// A document of a pile: its outline, and its text, which stays in the pile.
///
/// Contracts see the whole document.
#[derive(Drop)]
pub(crate) struct Document<'p> {
    outline: Outline,
    text: &'p [u8],
}

impl<'p> Model for Document<'p> {
    ghost use Rattle.atom_writer.specs.Doc.{DocValue};
    ghost use Rattle.coverage_auditor.specs.Chain.{IsTextOf};

    ghost Value = { DocValue };

    ghost view = { λ d. d.outline };

    ghost invariant = { λ d. IsTextOf d.outline d.text.now };
}

impl<'p> Document<'p> {
    /// The document with this outline and this text.
    pub(crate) fn new(outline: Outline, written: &'p [u8]) -> Document<'p>
        requires document { IsDoc outline }
        requires text { written.now ≡ text outline }
        ensures { result ≡ outline }
    {
        Document {
            outline,
            text: written,
        }
    }

    /// The operations that the document covers.
    pub(crate) fn span(&self) -> Span
        ensures { result ≡ self.now.span }
    {
        self.outline.span()
    }

    /// The document's place in the chain.
    pub(crate) fn place(&self) -> Place
        ensures place { result ≡ place_of self.now }
        ensures rules { KeepsRules self.now }
    {
        self.outline.place()
    }

    /// The marks of the document's items, newest operation first.
    pub(crate) fn items(&self) -> &[ItemMark]
        ensures marks { result.now ≡ marks_of self.now }
        ensures from_one { AreFromOne result.now }
        ensures rules { KeepsRules self.now }
    {
        self.outline.items()
    }

    /// The entry with this index among the document's items, read from its piece of the text. `name` states the
    /// document's base and feed. `NoMemory` if there is no memory for the entry.
    pub(crate) fn entry(
        &self,
        alloc: Global,
        name: &FeedName,
        index: usize,
    ) -> Result<Entry, NoMemory>
        requires feed { IsOfFeed name.now self.now }
        requires there { (entry : EntryValue) × (slice_get self.now.items index ≡ Some (Kept entry)) }
        ensures { IfOk result (λ entry. slice_get self.now.items index ≡ Some (Kept entry)) }
    {
        let place = self.outline.piece(index);
        let at = place.at as usize;
        let piece = &self.text[at..at + place.length as usize];
        // The piece is that of an entry, so it is read as one.
        Ok(read_entry(alloc, name, piece)?.unwrap())
    }
}
