ghost use Rattle.std.specs.Prelude.{◌≡◌, ◌≢◌, [], ◌++◌, Err, OnOk, Some, true};
ghost use Rattle.atom_grammar.specs.Cutting.{AreWhole};
ghost use Rattle.atom_grammar.specs.Progress.{KeepsBody, HasTaken, IsReadWhole, IsStuck, IsRefusedBehind, body_text, document_of};
ghost use Rattle.atom_grammar.specs.Stages.{IsRefused};

use crate::part_fault::PartFault;
use crate::pieces::{END, Pieces, operations};
use atom_values::{Many, Stamp};
use atom_writer::{Doc, FeedName, Kind, MAX_ITEMS};
use chain_links::Span;
use deleted_entries::Item;
use std::alloc::Global;

/// A document of which the pieces up to the span were read, and perhaps some items.
#[derive(Debug, Drop)]
pub(crate) struct Body {
    pub name: FeedName,
    pub kind: Kind,
    pub updated: Stamp,
    pub prev: u32,
    pub span: Span,
    pub items: Many<Item, MAX_ITEMS>,
    /// Whether the last piece was read.
    pub ended: bool,
}

impl Body {
    /// Reads the next piece: an item, or the last piece. On `Mismatch` it reads nothing.
    pub(crate) fn read_next(&mut self, alloc: Global, pieces: &mut Pieces) -> Result<(), PartFault>
        requires keeps { KeepsBody self.old }
        requires more { self.old.ended ≡ true → pieces.old.rest.now ≢ [] }
        ensures read { OnOk result (HasTaken self.old self.new pieces.old.rest.now pieces.new.rest.now) }
        ensures stuck { result ≡ Err PartFault.Mismatch → IsStuck self.old pieces.old.rest.now }
        ensures unread { result ≡ Err PartFault.Mismatch
            → (self.new ≡ self.old) × (pieces.new.rest.now ≡ pieces.old.rest.now) }
    {
        if self.ended {
            return Err(PartFault::Mismatch);
        }
        if pieces.at_end() {
            pieces.fixed(END)?;
            self.ended = true;
            return Ok(());
        }
        if self.items.len() as u64 == operations(self.span) {
            return Err(PartFault::Mismatch);
        }
        let item = pieces.item(alloc, &self.name, self.items.as_slice())?;
        // The list has room for each operation of the span, so only memory can be missing.
        if self.items.push(item).is_err() {
            return Err(PartFault::NoMemory);
        }
        Ok(())
    }

    /// Reads these pieces, which are all whole.
    pub(crate) fn read_all(&mut self, alloc: Global, pieces: &mut Pieces) -> Result<(), PartFault>
        requires keeps { KeepsBody self.old }
        requires whole { AreWhole pieces.old.rest.now }
        ensures keeps { OnOk result (KeepsBody self.new) }
        ensures read { OnOk result (body_text self.new ≡ body_text self.old ++ pieces.old.rest.now) }
        ensures refused { result ≡ Err PartFault.Mismatch
            → IsRefusedBehind (body_text self.old) pieces.old.rest.now pieces.new.rest.now }
    {
        while !pieces.rest.is_empty() {
            self.read_next(alloc, pieces)?;
        }
        Ok(())
    }

    /// Reads the pieces that are left, up to the end of the input.
    pub(crate) fn read_to_end(
        &mut self,
        alloc: Global,
        pieces: &mut Pieces,
    ) -> Result<(), PartFault>
        requires keeps { KeepsBody self.old }
        ensures read { OnOk result (IsReadWhole self.old self.new pieces.old.rest.now) }
        ensures refused { result ≡ Err PartFault.Mismatch
            → IsRefused [] (body_text self.old ++ pieces.old.rest.now) pieces.new.rest.now }
    {
        while !self.ended {
            self.read_next(alloc, pieces)?;
        }
        if pieces.rest.is_empty() {
            Ok(())
        } else {
            Err(PartFault::Mismatch)
        }
    }

    /// The document, of which all pieces were read. It keeps the rules of a document, so it is always `Some`.
    pub(crate) fn finish(self) -> Option<Doc>
        requires keeps { KeepsBody self }
        ensures { result ≡ Some (document_of self) }
    {
        Doc::new(
            self.name,
            self.kind,
            self.span,
            self.prev,
            self.updated,
            self.items,
        )
    }
}
