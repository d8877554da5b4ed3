ghost use Rattle.std.specs.Prelude.{◌≡◌, ◌↔◌, ◌+◌, ◌<◌, ◌++◌, ◌∷◌, ℤ, true, false};
ghost use Rattle.std.specs.Prelude.{List, [], length, slice_get, take, Some, None, IfOk, IfSome, IfErr, OnOk, IsTrue};
ghost use Rattle.archive_sealer.specs.Window.{IsFull, IsOfFeed};
ghost use Rattle.atom_writer.specs.Pieced.{text_of};
ghost use Rattle.feed_disk.specs.declared.area.Area.TheVariants.{Journal, Sealed};
ghost use Rattle.feed_journal.specs.Log.{IsLog};
ghost use Rattle.feed_journal.specs.Reading.{HasRead};
ghost use Rattle.feed_journal.specs.Records.{records};
ghost use Rattle.feed_journal.specs.declared.extent.Extent.{Extent as ExtentValue};
ghost use Rattle.feed_recovery.specs.Faults.{IsBadOperation};
ghost use Rattle.feed_recovery.specs.Loading.{AreCompared, FailsBy, HasGrown, HasReadAll, HasReplayed, IsAtFirst};
ghost use Rattle.feed_recovery.specs.Loading.{IsNoCause, IsReadable, IsReader, IsSameSeal, IsSealOf, IsTaken};
ghost use Rattle.feed_recovery.specs.Loading.{ListsAll, LogsHistory, OnlyReads, ReadsOn, Worked, WorkedBoth, fault_of};
ghost use Rattle.feed_recovery.specs.Opening.{journal_of};
ghost use Rattle.feed_recovery.specs.Places.{ArePlaces};
ghost use Rattle.feed_recovery.specs.Refused.{IsJournalRefusal, RefusesNext, RefusesRecord};
ghost use Rattle.member_rules.specs.Coding.{heads, operations};
ghost use Rattle.member_rules.specs.Fold.{made};
ghost use Rattle.member_rules.specs.Head.{IsHead};
ghost use Rattle.member_rules.specs.History.{IsSmall, MayFollow, history_limit};
ghost use Rattle.member_rules.specs.Operation.{IsOperation};
ghost use Rattle.member_rules.specs.Table.{IsTableOf};
ghost use Rattle.member_rules.specs.Windows.{windows_of};
ghost use Rattle.member_rules.specs.declared.operation.Op.{Op as Operation};

use crate::fault::LoadFault;
use crate::places::Places;
use archive_sealer::Window;
use atom_values::Copies;
use atom_writer::{entry_len, write_doc};
use feed_disk::{Area, Disk};
use feed_journal::{Frame, FrameReader, Log, LogFault};
use member_rules::{CodecFault, ENTRY_LIMIT, Head, Members, Op, read_head, read_op};
use std::alloc::Global;

/// What the first operations of a journal made, and what their seals came to.
#[derive(Drop)]
pub(crate) struct Progress {
    pub(crate) members: Members,
    pub(crate) window: Window,
    pub(crate) places: Places,
    /// The first seal, counted from 1, that isn't the text of its archive.
    pub(crate) wrong: Option<u32>,
}

impl Progress {
    /// Reads the next operation, which has to be able to follow those before it. Returns whether there was one.
    fn read_next<D: Disk>(
        &mut self,
        alloc: Global,
        disk: &mut D,
        reader: &mut FrameReader,
        head: &Head,
    ) -> Result<bool, LoadFault>
        requires reader { IsReader D.observable (D.state disk.old) reader.old }
        requires replayed { HasReplayed head.now self.old.members self.old.window }
        requires logs { LogsHistory reader.old.log self.old.window.history self.old.places.extents }
        requires payloads { D.observable → take (length reader.old.log.extents)
            (records ((D.state disk.old).content Journal)) ≡ journal_of head.now self.old.window.history }
        ensures reader { OnOk result (IsReader D.observable (D.state disk.new) reader.new) }
        ensures replayed { OnOk result (HasReplayed head.now self.new.members self.new.window) }
        ensures logs { OnOk result (LogsHistory reader.new.log self.new.window.history self.new.places.extents) }
        ensures payloads { OnOk result (D.observable → take (length reader.new.log.extents)
            (records ((D.state disk.old).content Journal)) ≡ journal_of head.now self.new.window.history) }
        ensures more { result ≡ Ok true
            → HasGrown self.old.window.history self.new.window.history reader.old.log reader.new.log }
        ensures last { result ≡ Ok false
            → HasReadAll D.observable ((D.state disk.old).content Journal) reader.old.log reader.new.log }
        ensures same { result ≡ Ok false → self.new ≡ self.old }
        ensures wrong { self.new.wrong ≡ self.old.wrong }
        ensures worked { OnOk result (ReadsOn (D.state disk.old) (D.state disk.new) reader.old reader.new) }
        ensures reads { OnlyReads (D.state disk.old) (D.state disk.new) }
        ensures fault { IfErr result (FailsBy D.observable (D.state disk.old) (D.state disk.new)) }
        ensures refused { IfErr result IsJournalRefusal }
    {
        let Some(frame) = next_frame(disk, reader)? else {
            return Ok(false);
        };
        self.take(alloc, head, &frame)?;
        Ok(true)
    }

    /// Takes over the operation of a frame, which has to be able to follow those before it.
    fn take(&mut self, alloc: Global, head: &Head, frame: &Frame) -> Result<(), LoadFault>
        requires replayed { HasReplayed head.now self.old.members self.old.window }
        requires few { length self.old.window.history < history_limit }
        requires placed { length self.old.places.extents ≡ made self.old.window.history }
        ensures replayed { OnOk result (HasReplayed head.now self.new.members self.new.window) }
        ensures taken { OnOk result
            (IsTaken frame.now.payload.items self.old.window.history self.new.window.history) }
        ensures places { OnOk result ((journal : List ExtentValue)
            → ArePlaces self.old.places.extents self.old.window.history journal
            → length journal ≡ length self.old.window.history + 1
            → ArePlaces self.new.places.extents self.new.window.history (journal ++ frame.now.extent ∷ [])) }
        ensures wrong { self.new.wrong ≡ self.old.wrong }
        ensures refused { IfErr result
            (RefusesRecord (IsBadOperation head.now self.old.window.history frame.now.payload.items)
            (length self.old.window.history + 1)) }
    {
        self.members.prepare()?;
        self.window.prepare()?;
        self.places.prepare()?;
        let index = self.window.operations() + 1;
        let operation = operation_of(alloc, head, &self.members, frame.payload.as_slice(), index)?;
        self.places.commit(&operation, frame.extent);
        self.members.commit(&operation);
        self.window.commit(operation);
        Ok(())
    }

    /// Compares the seal of the open window, if that is full and its seal is there. Keeps the number of the first wrong
    /// seal.
    fn compare_seal<D: Disk>(
        &mut self,
        alloc: Global,
        disk: &mut D,
        seals: &mut Log,
        head: &Head,
    ) -> Result<(), LoadFault>
        requires seals { IsReadable D.observable (D.state disk.old) Sealed seals.old }
        requires replayed { HasReplayed head.now self.old.members self.old.window }
        requires wrong { IfSome self.old.wrong (IsSealOf seals.old.extents) }
        ensures same { self.new ≡ record self.old { wrong = self.new.wrong } }
        ensures compared { OnOk result (D.observable → (before : List Operation) (operation : Operation)
            → self.old.window.history ≡ before ++ operation ∷ []
            → AreCompared head.now before (records ((D.state disk.old).content Sealed)) self.old.wrong
            → AreCompared head.now self.new.window.history (records ((D.state disk.old).content Sealed))
            self.new.wrong) }
        ensures wrong { OnOk result (IfSome self.new.wrong (IsSealOf seals.old.extents)) }
        ensures worked { OnOk result (Worked (D.state disk.old) (D.state disk.new) seals.old seals.new) }
        ensures reads { OnlyReads (D.state disk.old) (D.state disk.new) }
        ensures fault { IfErr result (FailsBy D.observable (D.state disk.old) (D.state disk.new)) }
        ensures refused { IfErr result IsNoCause }
    {
        let sealed = self.window.sealed();
        if self.wrong.is_some() || !self.window.is_full() || sealed >= seals.len() {
            return Ok(());
        }
        if !is_sealed(alloc, disk, head, &self.window, seals)? {
            self.wrong = Some(sealed + 1);
        }
        Ok(())
    }
}

/// Reads the journal's next frame. A payload that is read short is a bad record at 0.
fn next_frame<D: Disk>(disk: &mut D, reader: &mut FrameReader) -> Result<Option<Frame>, LoadFault>
    requires { IsReader D.observable (D.state disk.old) reader.old }
    ensures frame { IfOk result (λ found. IfSome found (λ frame.
        HasRead frame.extent frame.payload.items reader.old.log reader.new.log)) }
    ensures payload { IfOk result (λ found. IfSome found (λ frame. D.observable
        → slice_get (records ((D.state disk.old).content Journal)) (length reader.old.log.extents)
        ≡ Some frame.payload.items)) }
    ensures last { result ≡ Ok None
        → HasReadAll D.observable ((D.state disk.old).content Journal) reader.old.log reader.new.log }
    ensures reader { OnOk result (IsReader D.observable (D.state disk.new) reader.new) }
    ensures worked { OnOk result (ReadsOn (D.state disk.old) (D.state disk.new) reader.old reader.new) }
    ensures reads { OnlyReads (D.state disk.old) (D.state disk.new) }
    ensures fault { IfErr result (FailsBy D.observable (D.state disk.old) (D.state disk.new)) }
    ensures refused { IfErr result (RefusesNext reader.old.log) }
{
    match reader.next(disk) {
        Ok(frame) => Ok(frame),
        Err(LogFault::DiskFault) => Err(LoadFault::DiskFault),
        Err(LogFault::Changed { index }) => Err(LoadFault::BadRecord {
            area: Area::Journal,
            index,
            at: 0,
        }),
        Err(LogFault::NoMemory) => Err(LoadFault::NoMemory),
    }
}

/// Reads the head, the journal's first payload.
pub(crate) fn head_of<D: Disk>(
    alloc: Global,
    disk: &mut D,
    reader: &mut FrameReader,
) -> Result<Head, LoadFault>
    requires { IsAtFirst D.observable (D.state disk.old) reader.old }
    ensures rules { IfOk result IsHead }
    ensures payload { IfOk result (λ head. D.observable
        → slice_get (records ((D.state disk.old).content Journal)) 0 ≡ Some (text_of heads head)) }
    ensures one { OnOk result (length reader.new.log.extents ≡ 1) }
    ensures reader { OnOk result (IsReader D.observable (D.state disk.new) reader.new) }
    ensures worked { OnOk result (ReadsOn (D.state disk.old) (D.state disk.new) reader.old reader.new) }
    ensures reads { OnlyReads (D.state disk.old) (D.state disk.new) }
    ensures fault { IfErr result (FailsBy D.observable (D.state disk.old) (D.state disk.new)) }
    ensures refused { IfErr result IsJournalRefusal }
{
    let Some(frame) = next_frame(disk, reader)? else {
        return Err(LoadFault::NotInit);
    };
    match read_head(alloc, frame.payload.as_slice()) {
        Ok(head) => Ok(head),
        Err(fault) => Err(bad_record(0, fault)),
    }
}

/// Reads the operations, the payloads after the head, in order, and compares the seal of each window that fills.
pub(crate) fn replay<D: Disk>(
    alloc: Global,
    disk: &mut D,
    reader: &mut FrameReader,
    seals: &mut Log,
    head: &Head,
) -> Result<Progress, LoadFault>
    requires reader { IsReader D.observable (D.state disk.old) reader.old }
    requires seals { IsReadable D.observable (D.state disk.old) Sealed seals.old }
    requires rules { IsLog reader.old.log }
    requires one { length reader.old.log.extents ≡ 1 }
    requires head { IsHead head.now }
    requires payload { D.observable
        → slice_get (records ((D.state disk.old).content Journal)) 0 ≡ Some (text_of heads head.now) }
    ensures replayed { IfOk result (λ progress. HasReplayed head.now progress.members progress.window) }
    ensures logs { IfOk result (λ progress.
        LogsHistory reader.new.log progress.window.history progress.places.extents) }
    ensures payloads { IfOk result (λ progress. D.observable
        → records ((D.state disk.old).content Journal) ≡ journal_of head.now progress.window.history) }
    ensures lists { OnOk result (D.observable → ListsAll reader.new.log ((D.state disk.new).content Journal)) }
    ensures compared { IfOk result (λ progress. D.observable → AreCompared head.now progress.window.history
        (records ((D.state disk.old).content Sealed)) progress.wrong) }
    ensures wrong { IfOk result (λ progress. IfSome progress.wrong (IsSealOf seals.old.extents)) }
    ensures reader { OnOk result (IsReader D.observable (D.state disk.new) reader.new) }
    ensures worked { OnOk result (WorkedBoth (D.state disk.old) (D.state disk.new)
        reader.old reader.new seals.old seals.new) }
    ensures reads { OnlyReads (D.state disk.old) (D.state disk.new) }
    ensures fault { IfErr result (FailsBy D.observable (D.state disk.old) (D.state disk.new)) }
    ensures refused { IfErr result IsJournalRefusal }
{
    let title = head.name.title.copy(alloc)?;
    let window = Window::new(alloc, head.window, title)?;
    let mut progress = Progress {
        members: Members::new(alloc, head.created),
        window,
        places: Places::new(alloc),
        wrong: None,
    };
    'frames: loop {
        match progress.read_next(alloc, disk, reader, head) {
            Ok(true) => {}
            Ok(false) => return Ok(progress),
            Err(fault) => {
                drop(progress);
                return Err(fault);
            }
        }
        if let Err(fault) = progress.compare_seal(alloc, disk, seals, head) {
            drop(progress);
            return Err(fault);
        }
    }
}

/// Reads an operation from its bytes. It has to be able to follow those of the table.
fn operation_of(
    alloc: Global,
    head: &Head,
    members: &Members,
    payload: &[u8],
    index: u32,
) -> Result<Op, LoadFault>
    ensures rules { IfOk result (λ operation. IsOperation operation × IsSmall head.now.name operation) }
    ensures follows { IfOk result (λ operation. (created : ℤ) (history : List Operation)
        → IsTableOf members.now created history → MayFollow created history operation) }
    ensures bytes { IfOk result (λ operation. payload.now ≡ text_of operations operation) }
    ensures refused { (history : List Operation) → IsTableOf members.now head.now.created history
        → IfErr result (RefusesRecord (IsBadOperation head.now history payload.now) index) }
{
    match read_op(alloc, payload) {
        Ok(operation) => {
            if members.may_follow(&operation) && is_small(head, &operation) {
                Ok(operation)
            } else {
                drop(operation);
                Err(LoadFault::BadRecord {
                    area: Area::Journal,
                    index,
                    at: payload.len(),
                })
            }
        }
        Err(fault) => Err(bad_record(index, fault)),
    }
}

/// Whether the operation's entry, if it has one, keeps the limit.
fn is_small(head: &Head, operation: &Op) -> bool
    ensures { IsTrue result ↔ IsSmall head.now.name operation.now }
{
    match operation {
        Op::Add(entry) | Op::Change(entry) => entry_len(&head.name, entry) <= ENTRY_LIMIT,
        Op::Remove(_) | Op::Set { .. } => true,
    }
}

/// The fault of a payload of the journal that isn't the bytes of a value.
fn bad_record(index: u32, fault: CodecFault) -> LoadFault
    ensures { result ≡ fault_of index fault }
{
    match fault {
        CodecFault::BadField { at } => LoadFault::BadRecord {
            area: Area::Journal,
            index,
            at,
        },
        CodecFault::NoMemory => LoadFault::NoMemory,
    }
}

/// Whether the seal of the window, which is full, is the text of its archive. A seal that is read short isn't.
fn is_sealed<D: Disk>(
    alloc: Global,
    disk: &mut D,
    head: &Head,
    window: &Window,
    seals: &mut Log,
) -> Result<bool, LoadFault>
    requires seals { IsReadable D.observable (D.state disk.old) Sealed seals.old }
    requires feed { IsOfFeed window.now head.now }
    requires full { IsFull head.now window.now.history }
    requires within { (windows_of head.now window.now.history).sealed < length seals.old.extents }
    ensures same { IfOk result (λ same. D.observable
        → IsSameSeal head.now window.now.history (records ((D.state disk.old).content Sealed))
        ((windows_of head.now window.now.history).sealed + 1) same) }
    ensures worked { OnOk result (Worked (D.state disk.old) (D.state disk.new) seals.old seals.new) }
    ensures reads { OnlyReads (D.state disk.old) (D.state disk.new) }
    ensures fault { IfErr result (FailsBy D.observable (D.state disk.old) (D.state disk.new)) }
    ensures refused { IfErr result IsNoCause }
{
    let payload = match seals.read(disk, window.sealed()) {
        Ok(payload) => payload,
        Err(LogFault::DiskFault) => return Err(LoadFault::DiskFault),
        Err(LogFault::Changed { .. }) => return Ok(false),
        Err(LogFault::NoMemory) => return Err(LoadFault::NoMemory),
    };
    let document = window.archive(head)?;
    let written = write_doc(alloc, &document);
    drop(document);
    let text = written?;
    Ok(payload == text)
}
