ghost use Rattle.std.specs.Prelude.{◌≡◌, ◌⊎◌, ℕ, ◌+◌, ◌≤◌, ◌++◌, [], length, Ok, Err, None, IfOk, IfErr, OnOk, IfSome, true, false};
ghost use Rattle.atom_writer.specs.Doc.{DocValue, IsDoc};
ghost use Rattle.atom_writer.specs.Pieces.{text};
ghost use Rattle.atom_grammar.specs.Cutting.{AreWhole, IsLine};
ghost use Rattle.atom_grammar.specs.Progress.{IsGoing, IsRefusalOf, IsRefusedBehind, KeepsBody, ReadsWhole, body_text, document_limit, fed_text, has_ended, read_text};
ghost use Rattle.atom_grammar.specs.Refusal.{IsPlaceOfRefusal, IsNoDocument};

use crate::body::Body;
use crate::cutting::is_whole;
use crate::part_fault::PartFault;
use crate::pieces::Pieces;
use crate::read::{ReadFault, document, head};
use atom_writer::Doc;
use memchr::memchr;
use std::alloc::Global;

/// The bytes with which the last piece before the items begins.
const SPAN: &[u8] = b"<sp:span ";

/// The greatest number of pieces of a document before its items.
const MAX_HEAD: u32 = 12;

/// How far a document was read that isn't refused.
#[derive(Debug, Drop)]
pub(crate) struct Progress {
    pub alloc: Global,
    /// What was read. `None` until all pieces before the items have come.
    pub body: Option<Body>,
    /// The bytes after those: whole pieces, and from `start` on one that isn't whole.
    pub text: Vec<u8>,
    pub start: usize,
    /// The number of whole pieces in `text`.
    pub count: u32,
    /// The number of bytes that were read: those before `text`.
    pub used: usize,
}

impl Progress {
    /// Before the first byte.
    pub(crate) fn new(alloc: Global) -> Progress
        ensures going { IsGoing result }
        ensures fed { fed_text result ≡ [] }
    {
        Progress {
            alloc,
            body: None,
            text: Vec::new(alloc),
            start: 0,
            count: 0,
            used: 0,
        }
    }

    /// Takes more bytes, and reads each piece that they make whole.
    pub(crate) fn take(&mut self, bytes: &[u8]) -> Result<(), ReadFault>
        requires going { IsGoing self.old }
        requires room { length (fed_text self.old) + length bytes.now ≤ document_limit }
        ensures going { OnOk result (IsGoing self.new) }
        ensures fed { OnOk result (fed_text self.new ≡ fed_text self.old ++ bytes.now) }
        ensures refused { IfErr result (IsRefusalOf (fed_text self.old ++ bytes.now)) }
    {
        let mut rest = bytes;
        while let Some(at) = memchr(b'\n', rest) {
            let (line, behind) = rest.split_at(at + 1);
            self.take_line(line)?;
            rest = behind;
        }
        self.text.extend_from_slice(rest)?;
        if self.is_ended() && !self.text.is_empty() {
            return Err(ReadFault::NotADocument { at: self.used });
        }
        Ok(())
    }

    /// Takes bytes of which the last one is the only line end.
    fn take_line(&mut self, line: &[u8]) -> Result<(), ReadFault>
        requires line { IsLine line.now }
        requires going { IsGoing self.old }
        requires room { length (fed_text self.old) + length line.now ≤ document_limit }
        ensures going { OnOk result (IsGoing self.new) }
        ensures fed { OnOk result (fed_text self.new ≡ fed_text self.old ++ line.now) }
        ensures refused { IfErr result (IsRefusalOf (fed_text self.old ++ line.now)) }
    {
        self.text.extend_from_slice(line)?;
        let piece = &self.text[self.start..];
        if !is_whole(piece) {
            return Ok(());
        }
        let is_span = piece.starts_with(SPAN);
        self.start = self.text.len();
        self.count = self.count.saturating_add(1);
        if self.body.is_some() || is_span || self.count >= MAX_HEAD {
            self.read_pieces()
        } else {
            Ok(())
        }
    }

    /// Reads the pieces in `text`, which are all whole.
    fn read_pieces(&mut self) -> Result<(), ReadFault>
        requires going { IsGoing self.old }
        requires whole { self.old.start ≡ length self.old.text.items }
        requires room { length (fed_text self.old) ≤ document_limit }
        ensures going { OnOk result (IsGoing self.new) }
        ensures fed { OnOk result (fed_text self.new ≡ fed_text self.old) }
        ensures refused { IfErr result (IsRefusalOf (fed_text self.old)) }
    {
        let mut pieces = Pieces {
            rest: self.text.as_slice(),
        };
        let read = read_whole(self.alloc, &mut self.body, &mut pieces);
        let left = pieces.rest.len();
        match read {
            Ok(true) => {
                self.used += self.text.len();
                self.text.clear();
                self.start = 0;
                self.count = 0;
                Ok(())
            }
            Ok(false) => Ok(()),
            Err(PartFault::Mismatch) => Err(ReadFault::NotADocument {
                at: self.used + self.text.len() - left,
            }),
            Err(PartFault::NoMemory) => Err(ReadFault::NoMemory),
        }
    }

    /// Whether the last piece was read.
    fn is_ended(&self) -> bool
        ensures { result ≡ has_ended self.now.body }
    {
        match &self.body {
            Some(body) => body.ended,
            None => false,
        }
    }

    /// Reads what is left, and returns the document if it ends here.
    pub(crate) fn finish(self) -> Result<Doc, ReadFault>
        requires going { IsGoing self }
        requires room { length (fed_text self) ≤ document_limit }
        ensures found { IfOk result (λ d. IsDoc d × (fed_text self ≡ text d)) }
        ensures only { (d : DocValue) → IsDoc d → fed_text self ≡ text d
            → (result ≡ Ok d) ⊎ (result ≡ Err ReadFault.NoMemory) }
        ensures refused { (at : ℕ) → result ≡ Err (ReadFault.NotADocument at)
            → IsNoDocument (fed_text self) × IsPlaceOfRefusal (fed_text self) at }
    {
        let Progress {
            alloc,
            body,
            text,
            used,
            ..
        } = self;
        let mut pieces = Pieces {
            rest: text.as_slice(),
        };
        let read = document(alloc, body, &mut pieces);
        let left = pieces.rest.len();
        match read {
            Ok(doc) => Ok(doc),
            Err(PartFault::Mismatch) => Err(ReadFault::NotADocument {
                at: used + text.len() - left,
            }),
            Err(PartFault::NoMemory) => Err(ReadFault::NoMemory),
        }
    }
}

/// Reads pieces that are all whole. Returns whether it did: they may not have come up to the span yet.
fn read_whole(
    alloc: Global,
    body: &mut Option<Body>,
    pieces: &mut Pieces,
) -> Result<bool, PartFault>
    requires keeps { IfSome body.old KeepsBody }
    requires whole { AreWhole pieces.old.rest.now }
    ensures read { result ≡ Ok true → ReadsWhole body.old body.new pieces.old.rest.now }
    ensures waits { result ≡ Ok false → (body.old ≡ None) × (body.new ≡ None) }
    ensures refused { result ≡ Err PartFault.Mismatch
        → IsRefusedBehind (read_text body.old) pieces.old.rest.now pieces.new.rest.now }
{
    if let Some(body) = body {
        body.read_all(alloc, pieces)?;
        return Ok(true);
    }
    *body = begin(alloc, pieces)?;
    Ok(body.is_some())
}

/// Begins a document from pieces that are all whole. `None` if they begin a document, but not up to its span.
fn begin(alloc: Global, pieces: &mut Pieces) -> Result<Option<Body>, PartFault>
    requires whole { AreWhole pieces.old.rest.now }
    ensures read { IfOk result (λ begun. IfSome begun (λ body.
        KeepsBody body × (body_text body ≡ pieces.old.rest.now))) }
    ensures refused { result ≡ Err PartFault.Mismatch
        → IsRefusedBehind [] pieces.old.rest.now pieces.new.rest.now }
{
    match head(alloc, pieces) {
        Ok(mut body) => match body.read_all(alloc, pieces) {
            Ok(()) => Ok(Some(body)),
            Err(fault) => {
                drop(body);
                Err(fault)
            }
        },
        Err(PartFault::Mismatch) => {
            if pieces.rest.is_empty() {
                Ok(None)
            } else {
                Err(PartFault::Mismatch)
            }
        }
        Err(PartFault::NoMemory) => Err(PartFault::NoMemory),
    }
}
