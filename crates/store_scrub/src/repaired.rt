ghost use Rattle.std.specs.Prelude.{◌≡◌, ◌≢◌, ◌-◌, ◌≤◌, ℕ, true, false, length, List, take, IfOk, IfErr, IfSome, OnOk};
ghost use Rattle.atom_values.specs.Counts.{CountsFault, HasCause};
ghost use Rattle.feed_disk.specs.Moments.{AlwaysLeaves, LeavesAlone};
ghost use Rattle.feed_disk.specs.declared.area.Area.{Area as AreaValue};
ghost use Rattle.feed_disk.specs.declared.area.Area.TheVariants.{Journal, Sealed, Mirror};
ghost use Rattle.feed_journal.specs.Limits.{least_size};
ghost use Rattle.feed_journal.specs.Log.{IsListed};
ghost use Rattle.feed_journal.specs.Records.{records};
ghost use Rattle.feed_recovery.specs.Loading.{IsAtFirst, IsReadable, OnlyReads};
ghost use Rattle.feed_recovery.specs.Opening.{IsJournal};
ghost use Rattle.member_rules.specs.Head.{HeadValue};
ghost use Rattle.member_rules.specs.declared.operation.Op.{Op as Operation};
ghost use Rattle.store_scrub.specs.Rebuild.{ClosesArea, CutsArea, KeepsArea, KeepsFirstOf, Rebuilds, RebuildsSafely};
ghost use Rattle.store_scrub.specs.Rebuild.{StopsBy};
ghost use Rattle.store_scrub.specs.Repair.{IsRepaired, IsRepairFault, LeavesUnwritten, RepairsSafely, SettlesStore};
ghost use Rattle.store_scrub.specs.Repair.{StopsFull};
ghost use Rattle.store_scrub.specs.Survey.{CountsKept, HasSurvey, HasSynced, IsFoundSeal, IsSurveyFault, IsSurveyed};

use crate::fault::RepairFault;
use crate::making::make_seals;
use atom_values::Failed;
use feed_disk::{Area, Disk};
use feed_journal::{DiskFault, FrameReader, Frames, Log, begun_images_are_whole};
use feed_recovery::Replayed;
use std::alloc::Global;

/// The size of the smallest area with a payload. A shorter area may have no gate.
const LEAST_SIZE: u64 = 6;

/// How many of the first seals a repair kept, and how many it made after them.
#[derive(Clone, Copy, Debug, PartialEq, Eq)]
pub struct Repaired {
    pub kept: u32,
    pub made: u32,
}

/// Makes the archives of a store again from its journal. It syncs both areas and reads them. Then it closes an open gate
/// after the journal, cuts the sealed area after the last of its first seals that are right, and appends those that are
/// missing.
///
/// At each moment a crash leaves the journal's payloads, and the first seals that were right. So a repair after the crash
/// ends with the same history.
///
/// Errors: the first of [`RepairFault`] that fits. `NotInit` and `BadRecord` as a load has them; then nothing was written.
/// `Full` at the first missing seal that doesn't fit into the capacity; the seals before it stay. `DiskFault` if the
/// disk's count of faults rose. `NoMemory`, which hides no failed device call.
///
/// Cost: the journal is read twice, and each seal once. Each missing seal is one append. Beside the memory of a loaded
/// store it takes that of one archive.
pub fn repair<D: Disk>(alloc: Global, disk: &mut D) -> Result<Repaired, RepairFault>
    ensures repaired { IfOk result (λ found. D.observable
        → IsRepaired (records ((D.state disk.old).content Journal)) (records ((D.state disk.old).content Sealed))
        found.kept found.made) }
    ensures settles { OnOk result (D.observable → SettlesStore (D.state disk.old) (D.state disk.new)) }
    ensures refused { IfErr result (λ fault. D.observable
        → IsRepairFault (records ((D.state disk.old).content Journal))
        (records ((D.state disk.old).content Sealed)) fault) }
    // A journal of a history isn't refused.
    ensures only { D.observable → (head : HeadValue) (history : List Operation)
        → IsJournal (records ((D.state disk.old).content Journal)) head history
        → (result ≢ Err RepairFault.NotInit)
        × ((area : AreaValue) (index at : ℕ) → result ≢ Err (RepairFault.BadRecord area index at)) }
    ensures full { (size needed capacity : ℕ) → result ≡ Err (RepairFault.Full size needed capacity) → D.observable
        → StopsFull (records ((D.state disk.old).content Journal)) (records ((D.state disk.old).content Sealed))
        (records ((D.state disk.new).content Sealed)) size needed capacity }
    ensures unwritten { D.observable
        → (result ≡ Err RepairFault.NotInit → LeavesUnwritten (D.state disk.old) (D.state disk.new))
        × ((area : AreaValue) (index at : ℕ) → result ≡ Err (RepairFault.BadRecord area index at)
        → LeavesUnwritten (D.state disk.old) (D.state disk.new)) }
    ensures moments { D.observable → RepairsSafely (D.state disk.old) (D.state disk.new) }
    ensures mirror { LeavesAlone (D.state disk.old) (D.state disk.new) Mirror }
    ensures faults { CountsFault (D.state disk.old).faults (D.state disk.new).faults
        (result ≡ Err RepairFault.DiskFault) }
{
    begun_images_are_whole();
    sync_areas(disk)?;
    let survey = survey_areas(alloc, disk)?;
    rebuild(alloc, disk, survey)
}

/// What the first pass of a repair found.
#[derive(Drop)]
struct Survey {
    /// How many of the first seals are right.
    kept: u32,
    /// How many windows are sealed.
    sealed: u32,
    journal: Frames,
    seals: Log,
}

/// Syncs the journal and the sealed area, so that a crash can't change what a repair reads.
fn sync_areas<D: Disk>(disk: &mut D) -> Result<(), Failed>
    ensures synced { OnOk result (D.observable → HasSynced (D.state disk.old) (D.state disk.new)) }
    ensures journal { AlwaysLeaves (D.state disk.old) (D.state disk.new) Journal
        ((D.state disk.old).image_now Journal) }
    ensures sealed { AlwaysLeaves (D.state disk.old) (D.state disk.new) Sealed
        ((D.state disk.old).image_now Sealed) }
    ensures mirror { LeavesAlone (D.state disk.old) (D.state disk.new) Mirror }
    ensures cause { HasCause (D.state disk.old).faults (D.state disk.new).faults result }
{
    disk.sync(Area::Journal)?;
    disk.sync(Area::Sealed)?;
    Ok(())
}

/// Reads both areas, and finds how many of the seals are right.
///
/// Errors: those of a load, but for a wrong number of seals and a wrong seal.
fn survey_areas<D: Disk>(alloc: Global, disk: &mut D) -> Result<Survey, RepairFault>
    ensures journal { IfOk result (λ survey.
        IsSurveyed D.observable (D.state disk.new) Journal survey.journal) }
    ensures seals { IfOk result (λ survey. IsSurveyed D.observable (D.state disk.new) Sealed survey.seals) }
    ensures kept { IfOk result (λ survey. survey.kept ≤ length survey.seals.extents) }
    ensures found { IfOk result (λ survey.
        D.observable → HasSurvey (D.state disk.new) survey.kept survey.sealed) }
    ensures refused { IfErr result (λ fault.
        D.observable → IsSurveyFault (records ((D.state disk.old).content Journal)) fault) }
    ensures reads { OnlyReads (D.state disk.old) (D.state disk.new) }
    ensures faults { CountsFault (D.state disk.old).faults (D.state disk.new).faults
        (result ≡ Err RepairFault.DiskFault) }
{
    let Some(reader) = FrameReader::look(alloc, disk, Area::Journal)? else {
        return Err(RepairFault::NotInit);
    };
    match Log::look(alloc, disk, Area::Sealed) {
        Ok(seals) => survey_logs(alloc, disk, reader, seals),
        Err(fault) => {
            drop(reader);
            Err(RepairFault::from(fault))
        }
    }
}

/// Reads the journal of the reader to its end, and compares the seals with their archives.
fn survey_logs<D: Disk>(
    alloc: Global,
    disk: &mut D,
    mut reader: FrameReader,
    mut seals: Log,
) -> Result<Survey, RepairFault>
    requires journal { IsAtFirst D.observable (D.state disk.old) reader }
    requires seals { IsSurveyed D.observable (D.state disk.old) Sealed seals }
    ensures journal { IfOk result (λ survey.
        IsSurveyed D.observable (D.state disk.new) Journal survey.journal) }
    ensures seals { IfOk result (λ survey. IsSurveyed D.observable (D.state disk.new) Sealed survey.seals) }
    ensures kept { IfOk result (λ survey. survey.kept ≤ length survey.seals.extents) }
    ensures found { IfOk result (λ survey.
        D.observable → HasSurvey (D.state disk.new) survey.kept survey.sealed) }
    ensures refused { IfErr result (λ fault.
        D.observable → IsSurveyFault (records ((D.state disk.old).content Journal)) fault) }
    ensures reads { OnlyReads (D.state disk.old) (D.state disk.new) }
    ensures faults { CountsFault (D.state disk.old).faults (D.state disk.new).faults
        (result ≡ Err RepairFault.DiskFault) }
{
    let replayed = match Replayed::read(alloc, disk, &mut reader, &mut seals) {
        Ok(replayed) => replayed,
        Err(fault) => {
            drop(reader);
            drop(seals);
            return Err(RepairFault::from(fault));
        }
    };
    let kept = kept_count(&replayed, seals.len());
    let sealed = replayed.sealed();
    drop(replayed);
    Ok(Survey {
        kept,
        sealed,
        journal: reader.finish(),
        seals,
    })
}

/// Returns how many of the seals that were found are kept: those before the first wrong one, or those that have an archive.
fn kept_count(replayed: &Replayed, found: u32) -> u32
    requires { IfSome replayed.now.wrong (IsFoundSeal found) }
    ensures within { result ≤ found }
    ensures kept { CountsKept replayed.now.head replayed.now.history replayed.now.wrong found result }
{
    match replayed.wrong_seal() {
        Some(index) => index - 1,
        None => found.min(replayed.full()),
    }
}

/// Makes both areas whole, keeps the seals that are right, and appends those that are missing.
fn rebuild<D: Disk>(alloc: Global, disk: &mut D, survey: Survey) -> Result<Repaired, RepairFault>
    requires journal { IsSurveyed D.observable (D.state disk.old) Journal survey.journal }
    requires seals { IsSurveyed D.observable (D.state disk.old) Sealed survey.seals }
    requires within { survey.kept ≤ length survey.seals.extents }
    ensures numbers { IfOk result (λ found.
        (found.kept ≡ survey.kept) × (found.made ≡ survey.sealed - survey.kept)) }
    ensures rebuilt { OnOk result (D.observable → Rebuilds (D.state disk.old) (D.state disk.new) survey.kept) }
    ensures refused { IfErr result (λ fault.
        D.observable → StopsBy (D.state disk.old) (D.state disk.new) survey.kept fault) }
    ensures moments { D.observable → RebuildsSafely (D.state disk.old) (D.state disk.new) survey.kept }
    ensures mirror { LeavesAlone (D.state disk.old) (D.state disk.new) Mirror }
    ensures faults { CountsFault (D.state disk.old).faults (D.state disk.new).faults
        (result ≡ Err RepairFault.DiskFault) }
{
    let Survey {
        kept,
        sealed,
        journal,
        mut seals,
    } = survey;
    if let Err(fault) = close_areas(disk, journal, &mut seals, kept) {
        drop(seals);
        return Err(RepairFault::from(fault));
    }
    let made = make_seals(alloc, disk, &mut seals);
    drop(seals);
    made?;
    Ok(Repaired {
        kept,
        made: sealed.saturating_sub(kept),
    })
}

/// Closes an open gate of the journal, and keeps the first seals of the sealed area.
fn close_areas<D: Disk>(
    disk: &mut D,
    journal: Frames,
    seals: &mut Log,
    kept: u32,
) -> Result<(), DiskFault>
    requires journal { IsSurveyed D.observable (D.state disk.old) Journal journal }
    requires seals { IsSurveyed D.observable (D.state disk.old) Sealed seals.old }
    requires within { kept ≤ length seals.old.extents }
    ensures readable { OnOk result (IsReadable D.observable (D.state disk.new) Sealed seals.new) }
    ensures listed { OnOk result (D.observable → IsListed seals.new ((D.state disk.new).content Sealed)) }
    ensures closes { OnOk result (D.observable → ClosesArea (D.state disk.old) (D.state disk.new) Journal) }
    ensures cuts { OnOk result (D.observable → CutsArea (D.state disk.old) (D.state disk.new) Sealed kept) }
    ensures journal { D.observable → KeepsArea (D.state disk.old) (D.state disk.new) Journal }
    ensures sealed { D.observable → KeepsFirstOf (D.state disk.old) (D.state disk.new) Sealed kept }
    ensures mirror { LeavesAlone (D.state disk.old) (D.state disk.new) Mirror }
    ensures cause { HasCause (D.state disk.old).faults (D.state disk.new).faults result }
{
    close_journal(disk, journal)?;
    cut_seals(disk, seals, kept)?;
    Ok(())
}

/// Closes the gate after the journal's payloads, if it is open.
fn close_journal<D: Disk>(disk: &mut D, mut journal: Frames) -> Result<(), DiskFault>
    requires { IsSurveyed D.observable (D.state disk.old) Journal journal }
    ensures closes { OnOk result (D.observable → ClosesArea (D.state disk.old) (D.state disk.new) Journal) }
    ensures moments { D.observable → KeepsArea (D.state disk.old) (D.state disk.new) Journal }
    ensures others { (a : AreaValue) → a ≢ Journal → LeavesAlone (D.state disk.old) (D.state disk.new) a }
    ensures cause { HasCause (D.state disk.old).faults (D.state disk.new).faults result }
{
    if journal.is_whole() {
        return Ok(());
    }
    journal.close(disk)?;
    Ok(())
}

/// Keeps the first seals, and closes the gate after them.
fn cut_seals<D: Disk>(disk: &mut D, seals: &mut Log, kept: u32) -> Result<(), DiskFault>
    requires seals { IsSurveyed D.observable (D.state disk.old) Sealed seals.old }
    requires within { kept ≤ length seals.old.extents }
    ensures readable { OnOk result (IsReadable D.observable (D.state disk.new) Sealed seals.new) }
    ensures listed { OnOk result (D.observable → IsListed seals.new ((D.state disk.new).content Sealed)) }
    ensures cuts { OnOk result (D.observable → CutsArea (D.state disk.old) (D.state disk.new) Sealed kept) }
    ensures moments { D.observable → KeepsFirstOf (D.state disk.old) (D.state disk.new) Sealed kept }
    ensures others { (a : AreaValue) → a ≢ Sealed → LeavesAlone (D.state disk.old) (D.state disk.new) a }
    ensures cause { HasCause (D.state disk.old).faults (D.state disk.new).faults result }
{
    if has_only(disk, seals, kept)? {
        return Ok(());
    }
    seals.cut(disk, kept)?;
    Ok(())
}

/// Returns whether the log has this number of seals, and a closed gate after them.
fn has_only<D: Disk>(disk: &mut D, seals: &Log, kept: u32) -> Result<bool, DiskFault>
    requires { seals.now.spent ≡ false }
    ensures only { result ≡ Ok true → (kept ≡ length seals.now.extents) × (seals.now.whole ≡ true)
        × (D.observable → least_size ≤ length ((D.state disk.old).content Sealed)) }
    ensures areas { (a : AreaValue) → LeavesAlone (D.state disk.old) (D.state disk.new) a }
    ensures cause { HasCause (D.state disk.old).faults (D.state disk.new).faults result }
{
    if seals.len() != kept || !seals.is_whole() {
        return Ok(false);
    }
    let size = disk.size(Area::Sealed)?;
    Ok(size >= LEAST_SIZE)
}
