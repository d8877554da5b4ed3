ghost use Rattle.std.specs.Prelude.{◌≡◌, ◌≢◌, ◌↔◌, ◌+◌, ◌<◌, ◌≤◌, ℕ, List, [], length, slice_get, Some, None, true, false};
ghost use Rattle.std.specs.Prelude.{IfOk, IfErr, IfSome, OnOk, IsTrue};
ghost use Rattle.archive_sealer.specs.Window.{IsFull, IsOfFeed};
ghost use Rattle.atom_values.specs.Counts.{CountsFault};
ghost use Rattle.feed_disk.specs.Moments.{LeavesAlone};
ghost use Rattle.feed_disk.specs.declared.area.Area.{Area as AreaValue};
ghost use Rattle.feed_disk.specs.declared.area.Area.TheVariants.{Journal, Sealed, Mirror};
ghost use Rattle.feed_journal.specs.Limits.{area_limit, payload_count_limit};
ghost use Rattle.feed_journal.specs.Log.{IsListed, IsLog};
ghost use Rattle.feed_journal.specs.Reading.{HasRead};
ghost use Rattle.feed_journal.specs.Records.{records};
ghost use Rattle.feed_recovery.specs.Loading.{IsAtFirst, IsReadable, IsReader, IsTaken, OnlyReads, ReadsOn};
ghost use Rattle.member_rules.specs.Coding.{operations};
ghost use Rattle.member_rules.specs.Head.{HeadValue, IsHead};
ghost use Rattle.member_rules.specs.History.{history_limit};
ghost use Rattle.store_scrub.specs.Making.{IsNoHistory, KeepsSeals, MakesAll, StopsWithoutRoom};
ghost use Rattle.store_scrub.specs.Steps.{HasAppended, HasMadeLast, HasMadeOne, HasSealed, IsAppendFault};
ghost use Rattle.store_scrub.specs.Steps.{IsAppendable, IsBegun, IsMaking, IsMakingFault, IsNext, IsReadFault};
ghost use Rattle.store_scrub.specs.Steps.{IsSealFault, IsStepFault, IsTakeFault, IsWindowFault, KeepsRecords, last_seal};

use crate::fault::RepairFault;
use archive_sealer::Window;
use atom_values::{Copies, NoMemory};
use atom_writer::write_doc;
use feed_disk::{Area, Disk};
use feed_journal::{Frame, FrameReader, Framed, Log, LogFault};
use member_rules::{CodecFault, Head, read_head, read_op};
use std::alloc::Global;

/// The most bytes of a payload. The seal of an archive of a history has no more.
const PAYLOAD_LIMIT: usize = 67_108_864;

/// Reads the journal and appends the seals of the sealed archives that the log doesn't have.
///
/// Errors: as [`crate::repair`] has them. A journal that is a history's gives no `NotInit` and no `BadRecord`.
pub(crate) fn make_seals<D: Disk>(
    alloc: Global,
    disk: &mut D,
    seals: &mut Log,
) -> Result<(), RepairFault>
    requires seals { IsReadable D.observable (D.state disk.old) Sealed seals.old }
    requires listed { D.observable → IsListed seals.old ((D.state disk.old).content Sealed) }
    ensures made { OnOk result (D.observable → MakesAll (D.state disk.old) (D.state disk.new)) }
    ensures full { (size needed capacity : ℕ) → result ≡ Err (RepairFault.Full size needed capacity) → D.observable
        → StopsWithoutRoom (D.state disk.old) (D.state disk.new) size needed capacity }
    ensures no_history { (result ≡ Err RepairFault.NotInit → D.observable → IsNoHistory (D.state disk.old))
        × ((area : AreaValue) (index at : ℕ) → result ≡ Err (RepairFault.BadRecord area index at)
        → D.observable → IsNoHistory (D.state disk.old)) }
    ensures moments { D.observable → KeepsSeals (D.state disk.old) (D.state disk.new) }
    ensures journal { LeavesAlone (D.state disk.old) (D.state disk.new) Journal }
    ensures mirror { LeavesAlone (D.state disk.old) (D.state disk.new) Mirror }
    ensures faults { CountsFault (D.state disk.old).faults (D.state disk.new).faults
        (result ≡ Err RepairFault.DiskFault) }
{
    let Some(mut reader) = FrameReader::look(alloc, disk, Area::Journal)? else {
        return Err(RepairFault::NotInit);
    };
    let outcome = make_read(alloc, disk, &mut reader, seals);
    drop(reader);
    outcome
}

/// Reads the journal from its head on, and appends the seals that are missing.
fn make_read<D: Disk>(
    alloc: Global,
    disk: &mut D,
    reader: &mut FrameReader,
    seals: &mut Log,
) -> Result<(), RepairFault>
    requires reader { IsAtFirst D.observable (D.state disk.old) reader.old }
    requires seals { IsAppendable D.observable (D.state disk.old) seals.old }
    ensures made { OnOk result (D.observable → MakesAll (D.state disk.old) (D.state disk.new)) }
    ensures refused { IfErr result (λ fault. D.observable
        → IsMakingFault (D.state disk.old) (D.state disk.new) fault) }
    ensures moments { D.observable → KeepsSeals (D.state disk.old) (D.state disk.new) }
    ensures others { (a : AreaValue) → a ≢ Sealed → LeavesAlone (D.state disk.old) (D.state disk.new) a }
    ensures faults { CountsFault (D.state disk.old).faults (D.state disk.new).faults
        (result ≡ Err RepairFault.DiskFault) }
{
    let head = head_of(alloc, disk, reader)?;
    let mut window = match window_of(alloc, &head) {
        Ok(window) => window,
        Err(fault) => {
            drop(head);
            return Err(RepairFault::from(fault));
        }
    };
    let outcome = make_each(alloc, disk, reader, seals, &head, &mut window);
    drop(window);
    drop(head);
    outcome
}

/// Returns the window of a feed before its first operation.
fn window_of(alloc: Global, head: &Head) -> Result<Window, NoMemory>
    ensures feed { IfOk result (λ window. IsOfFeed window head.now) }
    ensures none { IfOk result (λ window. window.history ≡ []) }
{
    let title = head.name.title.copy(alloc)?;
    Window::new(alloc, head.window, title)
}

/// Reads the operations, the payloads after the head, and appends the missing seal of each window before the operation
/// that seals it.
fn make_each<D: Disk>(
    alloc: Global,
    disk: &mut D,
    reader: &mut FrameReader,
    seals: &mut Log,
    head: &Head,
    window: &mut Window,
) -> Result<(), RepairFault>
    requires making { IsMaking D.observable (D.state disk.old) reader.old seals.old head.now window.old }
    requires none { window.old.history ≡ [] }
    ensures made { OnOk result (D.observable → MakesAll (D.state disk.old) (D.state disk.new)) }
    ensures refused { IfErr result (λ fault. D.observable
        → IsMakingFault (D.state disk.old) (D.state disk.new) fault) }
    ensures moments { D.observable → KeepsSeals (D.state disk.old) (D.state disk.new) }
    ensures others { (a : AreaValue) → a ≢ Sealed → LeavesAlone (D.state disk.old) (D.state disk.new) a }
    ensures faults { CountsFault (D.state disk.old).faults (D.state disk.new).faults
        (result ≡ Err RepairFault.DiskFault) }
{
    'frames: loop {
        match make_next(alloc, disk, reader, seals, head, window) {
            Ok(true) => {}
            Ok(false) => return Ok(()),
            Err(fault) => return Err(fault),
        }
    }
}

/// Reads the next operation, and appends the seal that is missing before it. Returns whether there was one.
fn make_next<D: Disk>(
    alloc: Global,
    disk: &mut D,
    reader: &mut FrameReader,
    seals: &mut Log,
    head: &Head,
    window: &mut Window,
) -> Result<bool, RepairFault>
    requires making { IsMaking D.observable (D.state disk.old) reader.old seals.old head.now window.old }
    ensures making { OnOk result
        (IsMaking D.observable (D.state disk.new) reader.new seals.new head.now window.new) }
    ensures more { result ≡ Ok true → HasMadeOne D.observable (D.state disk.old) (D.state disk.new)
        reader.old reader.new head.now window.old.history window.new.history }
    ensures last { result ≡ Ok false
        → HasMadeLast D.observable (D.state disk.old) (D.state disk.new) window.old.history }
    ensures limit { OnOk result ((reader.new.log.size ≤ reader.new.limit) × (reader.new.limit ≡ reader.old.limit)) }
    ensures refused { IfErr result (λ fault. D.observable
        → IsStepFault (D.state disk.old) (D.state disk.new) head.now window.old.history fault) }
    ensures keeps { D.observable → KeepsRecords (D.state disk.old) (D.state disk.new) }
    ensures others { (a : AreaValue) → a ≢ Sealed → LeavesAlone (D.state disk.old) (D.state disk.new) a }
    ensures faults { CountsFault (D.state disk.old).faults (D.state disk.new).faults
        (result ≡ Err RepairFault.DiskFault) }
{
    let Some(frame) = next_frame(disk, reader)? else {
        return Ok(false);
    };
    if let Err(fault) = append_seal(alloc, disk, seals, head, window) {
        drop(frame);
        return Err(fault);
    }
    let taken = take(alloc, window, &frame);
    drop(frame);
    taken?;
    Ok(true)
}

/// Reads the journal's next frame. A payload that is read short is a bad record at 0.
fn next_frame<D: Disk>(disk: &mut D, reader: &mut FrameReader) -> Result<Option<Frame>, RepairFault>
    requires { IsReader D.observable (D.state disk.old) reader.old }
    ensures frame { IfOk result (λ found. IfSome found (λ frame.
        HasRead frame.extent frame.payload.items reader.old.log reader.new.log)) }
    ensures payload { IfOk result (λ found. IfSome found (λ frame. D.observable
        → slice_get (records ((D.state disk.old).content Journal)) (length reader.old.log.extents)
        ≡ Some frame.payload.items)) }
    ensures last { result ≡ Ok None → (reader.new.log.extents ≡ reader.old.log.extents)
        × (D.observable
        → length (records ((D.state disk.old).content Journal)) ≡ length reader.old.log.extents) }
    ensures reader { OnOk result (IsReader D.observable (D.state disk.new) reader.new) }
    ensures worked { OnOk result (ReadsOn (D.state disk.old) (D.state disk.new) reader.old reader.new) }
    ensures reads { OnlyReads (D.state disk.old) (D.state disk.new) }
    ensures refused { IfErr result (λ fault. D.observable → IsReadFault (D.state disk.old) fault) }
    ensures faults { CountsFault (D.state disk.old).faults (D.state disk.new).faults
        (result ≡ Err RepairFault.DiskFault) }
{
    match reader.next(disk) {
        Ok(frame) => Ok(frame),
        Err(LogFault::DiskFault) => Err(RepairFault::DiskFault),
        Err(LogFault::Changed { index }) => Err(RepairFault::BadRecord {
            area: Area::Journal,
            index,
            at: 0,
        }),
        Err(LogFault::NoMemory) => Err(RepairFault::NoMemory),
    }
}

/// Reads the head, the journal's first payload.
fn head_of<D: Disk>(
    alloc: Global,
    disk: &mut D,
    reader: &mut FrameReader,
) -> Result<Head, RepairFault>
    requires { IsAtFirst D.observable (D.state disk.old) reader.old }
    ensures rules { IfOk result IsHead }
    ensures begun { IfOk result (λ head. D.observable
        → IsBegun (records ((D.state disk.old).content Journal)) head []) }
    ensures one { OnOk result (length reader.new.log.extents ≡ 1) }
    ensures reader { OnOk result (IsReader D.observable (D.state disk.new) reader.new) }
    ensures log { OnOk result (IsLog reader.new.log) }
    ensures reads { OnlyReads (D.state disk.old) (D.state disk.new) }
    ensures refused { IfErr result (λ fault. D.observable → IsReadFault (D.state disk.old) fault) }
    ensures faults { CountsFault (D.state disk.old).faults (D.state disk.new).faults
        (result ≡ Err RepairFault.DiskFault) }
{
    let Some(frame) = next_frame(disk, reader)? else {
        return Err(RepairFault::NotInit);
    };
    match read_head(alloc, frame.payload.as_slice()) {
        Ok(head) => Ok(head),
        Err(fault) => Err(bad_record(0, fault)),
    }
}

/// The fault of a payload of the journal that isn't the bytes of a value.
fn bad_record(index: u32, fault: CodecFault) -> RepairFault
    ensures bad { (at : ℕ) → fault ≡ CodecFault.BadField at → result ≡ RepairFault.BadRecord Journal index at }
    ensures memory { fault ≡ CodecFault.NoMemory → result ≡ RepairFault.NoMemory }
{
    match fault {
        CodecFault::BadField { at } => RepairFault::BadRecord {
            area: Area::Journal,
            index,
            at,
        },
        CodecFault::NoMemory => RepairFault::NoMemory,
    }
}

/// Takes over the operation of a frame.
fn take(alloc: Global, window: &mut Window, frame: &Frame) -> Result<(), RepairFault>
    requires few { length window.old.history < history_limit }
    ensures taken { OnOk result
        (IsTaken frame.now.payload.items window.old.history window.new.history) }
    ensures feed { (head : HeadValue) → IsOfFeed window.old head → IsOfFeed window.new head }
    ensures refused { IfErr result (IsTakeFault frame.now.payload.items) }
{
    window.prepare()?;
    match read_op(alloc, frame.payload.as_slice()) {
        Ok(operation) => {
            window.commit(operation);
            Ok(())
        }
        Err(fault) => Err(bad_record(window.operations() + 1, fault)),
    }
}

/// Appends the seal of the open window, if that is full and the seal is the next one.
fn append_seal<D: Disk>(
    alloc: Global,
    disk: &mut D,
    seals: &mut Log,
    head: &Head,
    window: &Window,
) -> Result<(), RepairFault>
    requires seals { IsAppendable D.observable (D.state disk.old) seals.old }
    requires head { IsHead head.now }
    requires feed { IsOfFeed window.now head.now }
    requires few { length window.now.history < payload_count_limit }
    ensures seals { OnOk result (IsAppendable D.observable (D.state disk.new) seals.new) }
    ensures sealed { OnOk result (D.observable
        → HasSealed (D.state disk.old) (D.state disk.new) head.now window.now.history) }
    ensures refused { IfErr result (λ fault. D.observable
        → IsWindowFault (D.state disk.old) (D.state disk.new) head.now window.now.history fault) }
    ensures keeps { D.observable → KeepsRecords (D.state disk.old) (D.state disk.new) }
    ensures others { (a : AreaValue) → a ≢ Sealed → LeavesAlone (D.state disk.old) (D.state disk.new) a }
    ensures faults { CountsFault (D.state disk.old).faults (D.state disk.new).faults
        (result ≡ Err RepairFault.DiskFault) }
{
    if !is_next(window, seals) {
        return Ok(());
    }
    let seal = seal_of(alloc, head, window)?;
    append_fitting(disk, seals, &seal, head.capacity)
}

/// Whether the open window is full, and its seal is the next one of the log.
fn is_next(window: &Window, seals: &Log) -> bool
    requires { seals.now.spent ≡ false }
    ensures { (head : HeadValue) → IsOfFeed window.now head
        → (IsTrue result ↔ IsNext head window.now.history (length seals.now.extents)) }
{
    window.is_full() && seals.len() == window.sealed()
}

/// Makes the seal of the open window, which is full. If it has no place in a payload, the journal isn't a history's: the
/// last operation is taken for the bad record.
fn seal_of(alloc: Global, head: &Head, window: &Window) -> Result<Framed, RepairFault>
    requires head { IsHead head.now }
    requires feed { IsOfFeed window.now head.now }
    requires full { IsFull head.now window.now.history }
    ensures seal { IfOk result (λ seal. seal ≡ last_seal head.now window.now.history) }
    ensures refused { IfErr result (IsSealFault head.now window.now.history) }
{
    let document = window.archive(head)?;
    let written = write_doc(alloc, &document);
    drop(document);
    let text = written?;
    if text.len() > PAYLOAD_LIMIT {
        return Err(RepairFault::BadRecord {
            area: Area::Journal,
            index: window.operations(),
            at: 0,
        });
    }
    Ok(Framed::of(alloc, text.as_slice())?)
}

/// Appends a payload, if it fits into the capacity.
fn append_fitting<D: Disk>(
    disk: &mut D,
    seals: &mut Log,
    payload: &Framed,
    capacity: u64,
) -> Result<(), RepairFault>
    requires seals { IsAppendable D.observable (D.state disk.old) seals.old }
    requires few { length seals.old.extents < payload_count_limit }
    requires within { capacity ≤ area_limit }
    ensures seals { OnOk result (IsAppendable D.observable (D.state disk.new) seals.new) }
    ensures appended { OnOk result (D.observable
        → HasAppended (D.state disk.old) (D.state disk.new) payload.now capacity) }
    ensures refused { IfErr result (λ fault. D.observable
        → IsAppendFault (D.state disk.old) (D.state disk.new) payload.now capacity fault) }
    ensures keeps { D.observable → KeepsRecords (D.state disk.old) (D.state disk.new) }
    ensures others { (a : AreaValue) → a ≢ Sealed → LeavesAlone (D.state disk.old) (D.state disk.new) a }
    ensures faults { CountsFault (D.state disk.old).faults (D.state disk.new).faults
        (result ≡ Err RepairFault.DiskFault) }
{
    seals.reserve()?;
    if !seals.fits(payload, capacity) {
        return Err(RepairFault::Full {
            size: seals.size(),
            needed: payload.needed(),
            capacity,
        });
    }
    seals.append(disk, payload)?;
    Ok(())
}
