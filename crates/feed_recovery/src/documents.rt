ghost use Rattle.std.specs.Prelude.{◌≡◌, ◌≢◌, ◌↔◌, ◌-◌, ◌≤◌, ℕ, true, false, length, slice_get, IfOk, IfErr, OnOk, IsTrue};
ghost use Rattle.atom_values.specs.Counts.{CountsFault};
ghost use Rattle.atom_values.specs.Entry.{EntryValue, IsEntry};
ghost use Rattle.atom_writer.specs.Pieces.{text};
ghost use Rattle.feed_disk.specs.Moments.{LeavesAlone};
ghost use Rattle.feed_disk.specs.Raised.{raised};
ghost use Rattle.feed_disk.specs.declared.area.Area.{Area as AreaValue};
ghost use Rattle.feed_disk.specs.declared.area.Area.TheVariants.{Journal};
ghost use Rattle.feed_journal.specs.Log.{MakesCalls, MakesSome, payload_lengths};
ghost use Rattle.feed_journal.specs.Records.{records};
ghost use Rattle.feed_recovery.specs.Documents.{IsArchiveFault, IsDocumentOf, IsEntryFault, IsLiveDocument};
ghost use Rattle.feed_recovery.specs.Documents.{IsLiveSince, IsMemberDocument, IsMemberFault, IsSealed, IsVersion};
ghost use Rattle.feed_recovery.specs.Documents.{ReadsMember, Sets};
ghost use Rattle.feed_recovery.specs.Opening.{seal_of};
ghost use Rattle.feed_recovery.specs.Store.{HasReadOperation, HasReadSeal, StandsFor, call_count, is_spent};
ghost use Rattle.member_rules.specs.Documents as documents;

use crate::fault::{ArchiveFault, MemberFault};
use crate::store::Store;
use atom_values::{Bytes, Entry, NoMemory, Stamp};
use atom_writer::{FeedName, write_doc, write_member};
use feed_disk::Disk;
use feed_journal::{Extent, LogFault};
use member_rules::{CodecFault, Op, State, read_op};
use std::alloc::Global;

impl Store {
    /// Returns the text of the subscription document. It makes no device call.
    ///
    /// The first call after an operation makes the text, and each further one copies it.
    pub fn subscription(&mut self) -> Result<Vec<u8>, NoMemory>
        requires { is_spent self.old ≡ false }
        ensures document { IfOk result (λ written.
            written.items ≡ text (documents.subscription self.old.head self.old.history)) }
        ensures same { self.new ≡ self.old }
    {
        if let Some(written) = &self.newest {
            return Ok(Vec::from_slice(self.alloc, written.slice())?);
        }
        let document = self.window.subscription(&self.head)?;
        let text = write_doc(self.alloc, &document);
        drop(document);
        let written = text?;
        // Without memory for the copy, the next call makes the text again.
        self.newest = Bytes::of(self.alloc, written.as_slice()).ok();
        Ok(written)
    }

    /// Returns the text of a sealed archive, as it was sealed, in one device call.
    ///
    /// Errors:
    ///
    /// - `NotSealed` exactly if the number is 0 or past [`Store::sealed`].
    /// - `DiskFault` if the disk's count of faults rose. Then the store is spent.
    /// - `Changed` if the disk gave less of the seal than the store has for it. Never on a disk whose content
    ///   contracts see.
    /// - `NoMemory`.
    pub fn archive<D: Disk>(&mut self, disk: &mut D, number: u32) -> Result<Vec<u8>, ArchiveFault>
        requires unspent { is_spent self.old ≡ false }
        requires stands { D.observable → StandsFor (D.state disk.old) self.old }
        ensures document { IfOk result (λ written.
            D.observable → written.items ≡ seal_of self.old.head self.old.history number) }
        ensures sealed { OnOk result (IsSealed self.old number) }
        ensures refused { IfErr result (IsArchiveFault self.old number) }
        ensures never { D.observable → (index : ℕ) → result ≢ Err (ArchiveFault.Changed index) }

        // With any disk, the text has the length that the store has for the seal, and a read gave all its bytes.
        ensures length { IfOk result (λ written. slice_get (payload_lengths self.old.seals.extents) (number - 1)
            ≡ Some (length written.items)) }
        ensures read { IfOk result (λ written. (D.state disk.new).bytes_read
            ≡ raised (D.state disk.old).bytes_read (length written.items)) }

        // No area changes, and of the store only the count of calls. After `DiskFault` it is spent.
        ensures areas { (a : AreaValue) → LeavesAlone (D.state disk.old) (D.state disk.new) a }
        ensures store { HasReadSeal D.observable (D.state disk.new) self.old self.new
            (result ≡ Err ArchiveFault.DiskFault) }

        ensures one { OnOk result (MakesCalls (D.state disk.old) (D.state disk.new)
            (call_count self.old) (call_count self.new) 1) }
        ensures calls { MakesSome (D.state disk.old) (D.state disk.new)
            (call_count self.old) (call_count self.new) }
        ensures faults { CountsFault (D.state disk.old).faults (D.state disk.new).faults
            (result ≡ Err ArchiveFault.DiskFault) }
    {
        let sealed = self.sealed();
        if number == 0 || number > sealed {
            return Err(ArchiveFault::NotSealed { number, sealed });
        }
        match self.seals.read(disk, number - 1) {
            Ok(text) => Ok(text),
            Err(LogFault::DiskFault) => {
                self.spent = true;
                Err(ArchiveFault::DiskFault)
            }
            Err(LogFault::Changed { index }) => Err(ArchiveFault::Changed { index }),
            Err(LogFault::NoMemory) => Err(ArchiveFault::NoMemory),
        }
    }

    /// Returns the member document of a live member. It reads the entry from the journal, in one device call.
    ///
    /// Errors:
    ///
    /// - `NotFound` exactly if no member with this number was ever made.
    /// - `Deleted` exactly if the member was deleted.
    /// - `DiskFault` if the disk's count of faults rose. Then the store is spent.
    /// - `Changed` if the disk gave less of the operation than the store has for it, or an operation that
    ///   doesn't set the member's entry. Never on a disk whose content contracts see.
    /// - `NoMemory`.
    pub fn member<D: Disk>(&mut self, disk: &mut D, number: u32) -> Result<Vec<u8>, MemberFault>
        requires unspent { is_spent self.old ≡ false }
        requires stands { D.observable → StandsFor (D.state disk.old) self.old }
        ensures document { IfOk result (λ written. D.observable → IsLiveDocument self.old number written.items) }
        // With any disk, its entry has the number, the `edited` and the `updated` of the member's entry. A read gave
        // as many bytes as the store has for the operation that set that one.
        ensures entry { IfOk result (λ written. IsMemberDocument self.old number written.items) }
        ensures read { OnOk result (ReadsMember self.old number
            (D.state disk.old).bytes_read (D.state disk.new).bytes_read) }
        ensures live { OnOk result ((version : ℕ) × IsLiveSince self.old.history number version) }
        ensures refused { IfErr result (IsMemberFault self.old number) }
        ensures never { D.observable → (index : ℕ) → result ≢ Err (MemberFault.Changed index) }

        // No area changes, and of the store only the count of calls. After `DiskFault` it is spent.
        ensures areas { (a : AreaValue) → LeavesAlone (D.state disk.old) (D.state disk.new) a }
        ensures store { HasReadOperation D.observable (D.state disk.new) self.old self.new
            (result ≡ Err MemberFault.DiskFault) }

        ensures one { OnOk result (MakesCalls (D.state disk.old) (D.state disk.new)
            (call_count self.old) (call_count self.new) 1) }
        ensures calls { MakesSome (D.state disk.old) (D.state disk.new)
            (call_count self.old) (call_count self.new) }
        ensures faults { CountsFault (D.state disk.old).faults (D.state disk.new).faults
            (result ≡ Err MemberFault.DiskFault) }
    {
        let (updated, version) = match self.state(number) {
            State::Never => return Err(MemberFault::NotFound { number }),
            State::Gone { when } => return Err(MemberFault::Deleted { number, when }),
            State::Live { updated, version } => (updated, version),
        };
        let Some(edited) = self.members.edited(number) else {
            // A live member has an entry.
            unreachable!();
        };
        let Some(place) = self.places.get(number) else {
            // It has a place too.
            unreachable!();
        };
        let payload = self.read_operation(disk, place, version)?;
        document_of(
            self.alloc,
            &self.head.name,
            payload.as_slice(),
            number,
            edited,
            updated,
            version,
        )
    }

    /// Reads the bytes of operation `version`, counted from 1, from its place in the journal.
    fn read_operation<D: Disk>(
        &mut self,
        disk: &mut D,
        place: Extent,
        version: u32,
    ) -> Result<Vec<u8>, MemberFault>
        requires unspent { is_spent self.old ≡ false }
        requires place { slice_get self.old.journal.extents version ≡ Some place }
        requires stands { D.observable → StandsFor (D.state disk.old) self.old }
        ensures payload { IfOk result (λ payload. D.observable
            → slice_get (records ((D.state disk.old).content Journal)) version ≡ Some payload.items) }
        ensures length { IfOk result (λ payload. slice_get (payload_lengths self.old.journal.extents) version
            ≡ Some (length payload.items)) }
        ensures read { IfOk result (λ payload. (D.state disk.new).bytes_read
            ≡ raised (D.state disk.old).bytes_read (length payload.items)) }
        ensures refused { IfErr result (IsEntryFault version) }
        ensures never { D.observable → (index : ℕ) → result ≢ Err (MemberFault.Changed index) }
        ensures areas { (a : AreaValue) → LeavesAlone (D.state disk.old) (D.state disk.new) a }
        ensures store { HasReadOperation D.observable (D.state disk.new) self.old self.new
            (result ≡ Err MemberFault.DiskFault) }
        ensures one { OnOk result (MakesCalls (D.state disk.old) (D.state disk.new)
            (call_count self.old) (call_count self.new) 1) }
        ensures calls { MakesSome (D.state disk.old) (D.state disk.new)
            (call_count self.old) (call_count self.new) }
        ensures faults { CountsFault (D.state disk.old).faults (D.state disk.new).faults
            (result ≡ Err MemberFault.DiskFault) }
    {
        match self.journal.read(disk, place, version) {
            Ok(payload) => Ok(payload),
            Err(LogFault::DiskFault) => {
                self.spent = true;
                Err(MemberFault::DiskFault)
            }
            Err(LogFault::Changed { index }) => Err(MemberFault::Changed { index }),
            Err(LogFault::NoMemory) => Err(MemberFault::NoMemory),
        }
    }
}

/// Returns the member document of the entry that the bytes of operation `version` set. Any other bytes are
/// `Changed`, and so is an entry of another member, or with another `edited` or `updated`: a disk whose content
/// contracts don't see may give them.
fn document_of(
    alloc: Global,
    name: &FeedName,
    payload: &[u8],
    number: u32,
    edited: Stamp,
    updated: Stamp,
    version: u32,
) -> Result<Vec<u8>, MemberFault>
    ensures document { IfOk result (λ written.
        IsDocumentOf name.now payload.now number edited updated written.items) }
    ensures refused { IfErr result (IsEntryFault version) }
    ensures no_fault { result ≢ Err MemberFault.DiskFault }
    ensures never { (entry : EntryValue) → IsEntry entry → Sets payload.now entry
        → IsVersion entry number edited updated → (index : ℕ) → result ≢ Err (MemberFault.Changed index) }
{
    let entry = entry_of(alloc, payload, version)?;
    if !is_version(&entry, number, edited, updated) {
        drop(entry);
        return Err(MemberFault::Changed { index: version });
    }
    let written = write_member(alloc, name, &entry);
    drop(entry);
    Ok(written?)
}

/// Whether the entry is of this member, and has these timestamps.
fn is_version(entry: &Entry, number: u32, edited: Stamp, updated: Stamp) -> bool
    ensures { IsTrue result ↔ IsVersion entry.now number edited updated }
{
    entry.number == number && entry.edited == edited && entry.updated == updated
}

/// Returns the entry that the bytes of operation `version` set.
fn entry_of(alloc: Global, payload: &[u8], version: u32) -> Result<Entry, MemberFault>
    ensures entry { IfOk result (λ entry. IsEntry entry × Sets payload.now entry) }
    ensures refused { IfErr result (IsEntryFault version) }
    ensures no_fault { result ≢ Err MemberFault.DiskFault }
    ensures never { (entry : EntryValue) → IsEntry entry → Sets payload.now entry
        → (index : ℕ) → result ≢ Err (MemberFault.Changed index) }
{
    match read_op(alloc, payload) {
        Ok(Op::Add(entry) | Op::Change(entry)) => Ok(entry),
        Ok(Op::Remove(_)) => Err(MemberFault::Changed { index: version }),
        Ok(Op::Set { .. }) => Err(MemberFault::Changed { index: version }),
        Err(CodecFault::BadField { .. }) => Err(MemberFault::Changed { index: version }),
        Err(CodecFault::NoMemory) => Err(MemberFault::NoMemory),
    }
}
