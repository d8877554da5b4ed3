ghost use Rattle.std.specs.Prelude.{◌≡◌, ◌⊎◌, ℕ, List, ◌+◌, ◌≤◌, ◌++◌, [], length, Ok, Err, None, Some, IfOk, IfErr, OnOk};
ghost use Rattle.atom_writer.specs.Doc.{DocValue, IsDoc};
ghost use Rattle.atom_writer.specs.Pieces.{text};
ghost use Rattle.atom_grammar.specs.declared.read.ReadFault.{ReadFault as ReadFaultValue};
ghost use Rattle.atom_grammar.specs.Progress.{HasRead};
ghost use Rattle.atom_grammar.specs.Refusal.{IsPlaceOfRefusal, IsNoDocument};

use crate::progress::Progress;
use crate::read::{MAX_DOCUMENT, ReadFault};
use atom_writer::Doc;
use std::alloc::Global;
use std::marker::Model;

/// A reader of a document's text that comes in parts, however it is cut. It keeps the document so far and one piece
/// that isn't whole yet. The pieces before the first item are kept until they are all there.
#[derive(Debug, Drop)]
pub struct DocReader {
    progress: Progress,
    /// The number of bytes that came.
    length: usize,
    refusal: Option<ReadFault>,
}

impl Model for DocReader {
    ghost use Rattle.atom_grammar.specs.Progress.{ReaderValue, KeepsReader, fed_text};

    ghost Value = { ReaderValue };

    ghost view = { λ r. record {
      length = r.length;
      refusal = r.refusal;
      fed = fed_text r.progress;
    } };

    ghost invariant = { λ r. KeepsReader r.progress r.length r.refusal };
}

impl DocReader {
    /// A reader before the first byte. Takes no memory.
    pub fn new(alloc: Global) -> DocReader
        ensures { HasRead result [] }
    {
        DocReader {
            progress: Progress::new(alloc),
            length: 0,
            refusal: None,
        }
    }

    /// The number of bytes that came.
    pub fn len(&self) -> usize
        ensures length { result ≡ self.now.length }
        ensures limit { result ≤ MAX_DOCUMENT }
    {
        self.length
    }

    /// Takes the next bytes of the text. It may have `MAX_DOCUMENT` bytes in all.
    ///
    /// `NotADocument` only if no text goes on from these bytes, with the offset that [`read_doc`](crate::read_doc)
    /// returns for each of them. `NoMemory` if there is no memory for a piece or for the document. After an error, each
    /// further call, and `finish`, returns the same error.
    pub fn feed(&mut self, bytes: &[u8]) -> Result<(), ReadFault>
        requires { self.old.length + length bytes.now ≤ MAX_DOCUMENT }
        ensures read { (before : List ℕ) → HasRead self.old before → HasRead self.new (before ++ bytes.now) }
        ensures fed { OnOk result (self.new.refusal ≡ None) }
        ensures refused { IfErr result (λ fault. self.new.refusal ≡ Some fault) }
        // A refusal stays.
        ensures again { (fault : ReadFaultValue) → self.old.refusal ≡ Some fault → result ≡ Err fault }
    {
        self.length += bytes.len();
        if let Some(fault) = self.refusal {
            return Err(fault);
        }
        let taken = self.progress.take(bytes);
        if let Err(fault) = taken {
            self.refusal = Some(fault);
        }
        taken
    }

    /// The document whose text the bytes are that came. The result is that of [`read_doc`](crate::read_doc) for all of
    /// them together, with its errors.
    pub fn finish(self) -> Result<Doc, ReadFault>
        ensures found { (bytes : List ℕ) → HasRead self bytes
            → IfOk result (λ d. IsDoc d × (bytes ≡ text d)) }
        ensures only { (bytes : List ℕ) → HasRead self bytes → (d : DocValue) → IsDoc d → bytes ≡ text d
            → (result ≡ Ok d) ⊎ (result ≡ Err ReadFault.NoMemory) }
        ensures refused { (bytes : List ℕ) → HasRead self bytes
            → (at : ℕ) → result ≡ Err (ReadFault.NotADocument at)
            → IsNoDocument bytes × IsPlaceOfRefusal bytes at }
        ensures again { (fault : ReadFaultValue) → self.refusal ≡ Some fault → result ≡ Err fault }
    {
        match self.refusal {
            Some(fault) => {
                drop(self);
                Err(fault)
            }
            None => self.progress.finish(),
        }
    }
}
