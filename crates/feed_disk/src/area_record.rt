ghost use Rattle.std.specs.Prelude.{◌≡◌, ℕ, ◌≤◌, [], ◌∷◌, length, IfOk, OnOk, OnErr, Some};
ghost use Rattle.feed_disk.specs.Disk.{written};
ghost use Rattle.feed_disk.specs.AreaRecord.{content_of, working_copy, ComesAfter, IsRecorded};
ghost use Rattle.feed_disk.specs.ImageOf.{until, image_of, giving, uses};

use crate::change::Change;
use crate::choice::Choice;
use crate::image::{count_until, image_by};
use crate::overwrite::overwrite;
use atom_values::{Bytes, NoMemory};
use std::alloc::Global;
use std::marker::Model;

/// The record of one area: the content that it began with, and each change since.
#[derive(Debug, Drop)]
pub struct AreaRecord {
    first: Bytes,
    /// The content, copied at the first write, so that a disk without writes takes no memory.
    copy: Option<Vec<u8>>,
    changes: Vec<Change>,
}

impl Model for AreaRecord {
    ghost use Rattle.std.specs.Prelude.{reverse};
    ghost use Rattle.feed_disk.specs.AreaRecord.{AreaRecordValue, IsAreaRecord};

    ghost Value = { AreaRecordValue };

    ghost view = { λ h. record { first = h.first; changes = reverse h.changes.items } };

    ghost invariant = { λ h. IsAreaRecord h.first h.copy (reverse h.changes.items) };
}

impl AreaRecord {
    ghost use Rattle.feed_disk.specs.declared.change.Change.TheVariants.{Write, FailedWrite, Sync};

    /// Returns the record of an area with these synced bytes. Takes no memory.
    pub fn new(alloc: Global, first: Bytes) -> AreaRecord
        ensures { result ≡ record { first = first; changes = [] } }
    {
        AreaRecord {
            first,
            copy: None,
            changes: Vec::new(alloc),
        }
    }

    /// Returns the bytes that a read gives.
    pub fn content(&self) -> &[u8]
        ensures { result.now ≡ content_of self.now.first self.now.changes }
    {
        match &self.copy {
            Some(copy) => copy.as_slice(),
            None => self.first.slice(),
        }
    }

    /// Records a write from offset `at` on.
    pub fn write(
        &mut self,
        alloc: Global,
        call: u64,
        at: usize,
        from: &[u8],
    ) -> Result<(), NoMemory>
        requires offset { at ≤ length (content_of self.old.first self.old.changes) }
        requires later { ComesAfter call self.old.changes }
        ensures ok { OnOk result
            (self.new ≡ record self.old { changes = Write call at from.now ∷ self.old.changes }) }
        ensures err { OnErr result (self.new ≡ self.old) }
    {
        let offset = at as u64;
        let bytes = Bytes::of(alloc, from)?;
        let change = Change::Write {
            call,
            at: offset,
            bytes,
        };
        self.changes.push(change)?;
        if overwrite_copy(alloc, &self.first, &mut self.copy, at, from).is_err() {
            drop(self.changes.pop());
            return Err(NoMemory);
        }
        Ok(())
    }

    /// Records a failed write from offset `at` on.
    pub fn fail_write(
        &mut self,
        alloc: Global,
        call: u64,
        at: usize,
        from: &[u8],
    ) -> Result<(), NoMemory>
        requires offset { at ≤ length (content_of self.old.first self.old.changes) }
        requires later { ComesAfter call self.old.changes }
        ensures ok { OnOk result
            (self.new ≡ record self.old { changes = FailedWrite call at from.now ∷ self.old.changes }) }
        ensures err { OnErr result (self.new ≡ self.old) }
    {
        let offset = at as u64;
        let bytes = Bytes::of(alloc, from)?;
        let failed = Change::FailedWrite {
            call,
            at: offset,
            bytes,
        };
        self.changes.push(failed)?;
        Ok(())
    }

    /// Returns the image that a crash within a call leaves by the choice, with `given` as the given bytes,
    /// and the number of given bytes that it takes. Takes memory for the image and its marks.
    pub fn image(
        &self,
        alloc: Global,
        call: u64,
        choice: &Choice,
        given: &[u8],
    ) -> Result<(Bytes, usize), NoMemory>
        ensures image { IfOk result (λ made. made.0
            ≡ image_of self.now.first (until call self.now.changes) (giving choice.now given.now)) }
        ensures used { IfOk result (λ made. made.1
            ≡ uses self.now.first (until call self.now.changes) choice.now) }
        // The caller's law on images needs the rule of the record.
        ensures recorded { IsRecorded self.now.first self.now.changes }
    {
        let changes = &self.changes[..count_until(&self.changes, call)];
        let (bytes, used) = image_by(alloc, self.first.slice(), changes, choice, given)?;
        Ok((Bytes::from_vec(bytes), used))
    }

    /// Records a sync.
    pub fn sync(&mut self, call: u64) -> Result<(), NoMemory>
        requires { ComesAfter call self.old.changes }
        ensures ok { OnOk result (self.new ≡ record self.old { changes = Sync call ∷ self.old.changes }) }
        ensures err { OnErr result (self.new ≡ self.old) }
    {
        self.changes.push(Change::Sync { call })?;
        Ok(())
    }
}

/// Writes `from` into the working copy from offset `at` on. The copy is made if there is none.
fn overwrite_copy(
    alloc: Global,
    first: &Bytes,
    copy: &mut Option<Vec<u8>>,
    at: usize,
    from: &[u8],
) -> Result<(), NoMemory>
    requires { at ≤ length (working_copy copy.old first.now) }
    ensures ok { OnOk result
        (working_copy copy.new first.now ≡ written (working_copy copy.old first.now) at from.now) }
    ensures err { OnErr result (working_copy copy.new first.now ≡ working_copy copy.old first.now) }
{
    let mut bytes = match copy.take() {
        Some(bytes) => bytes,
        None => Vec::from_slice(alloc, first.slice())?,
    };
    let outcome = overwrite(&mut bytes, at, from);
    *copy = Some(bytes);
    outcome
}
