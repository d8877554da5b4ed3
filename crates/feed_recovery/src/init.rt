ghost use Rattle.std.specs.Prelude.{◌≡◌, ◌↔◌, ◌⊎◌, ◌<◌, ◌≤◌, ℕ, List, [], false, length, IfOk, OnOk, IsTrue};
ghost use Rattle.atom_values.specs.Counts.{CountsFault};
ghost use Rattle.atom_writer.specs.Pieced.{text_of};
ghost use Rattle.feed_disk.specs.Moments.{AlwaysLeaves, LeavesAlone};
ghost use Rattle.feed_disk.specs.declared.area.Area.TheVariants.{Journal, Sealed, Mirror};
ghost use Rattle.feed_journal.specs.Log.{IsListed};
ghost use Rattle.feed_journal.specs.Records.{StandsFor};
ghost use Rattle.feed_recovery.specs.Init.{HasNoPayload, IsFirstLog};
ghost use Rattle.feed_recovery.specs.Opening.{Opens};
ghost use Rattle.feed_recovery.specs.Settled.{AlwaysLeavesBoth, AreWhole, HasPayload, IsAtRest, IsInit, OpensPast};
ghost use Rattle.feed_recovery.specs.Settled.{Settled, Unused};
ghost use Rattle.member_rules.specs.Coding.{heads, payload_limit};
ghost use Rattle.member_rules.specs.Head.{HeadValue, IsHead};
ghost use Rattle.member_rules.specs.declared.operation.Op.{Op as Operation};

use crate::fault::InitFault;
use crate::store::Store;
use atom_values::NoMemory;
use feed_disk::{Area, Disk};
use feed_journal::{Framed, Log, begun_images_are_whole};
use member_rules::{Head, head_bytes, sealed_windows_are_full};
use std::alloc::Global;

impl Store {
    /// Makes a store with this head and no operation on an unused disk. The head becomes the journal's first
    /// payload.
    ///
    /// Errors: `AlreadyInit` exactly if the journal or the sealed area has a payload. `DiskFault` if the disk's
    /// count of faults rose. `NoMemory`, which hides no failed device call.
    pub fn init<D: Disk>(alloc: Global, disk: &mut D, head: &Head) -> Result<(), InitFault>
        ensures opens { OnOk result (D.observable
            → Opens ((D.state disk.new).content Journal) ((D.state disk.new).content Sealed) head.now [] 0) }
        ensures already { result ≡ Err InitFault.AlreadyInit → D.observable → HasPayload (D.state disk.old) }
        ensures refused { D.observable → HasPayload (D.state disk.old) → (result ≡ Err InitFault.AlreadyInit)
            ⊎ (result ≡ Err InitFault.DiskFault) ⊎ (result ≡ Err InitFault.NoMemory) }

        // On an unused disk a crash leaves no payload, or the head alone. After `Ok` it leaves the head.
        ensures moments { D.observable → Unused (D.state disk.old)
            → AlwaysLeavesBoth (D.state disk.old) (D.state disk.new) (IsInit head.now) }
        ensures settled { OnOk result (D.observable → Unused (D.state disk.old)
            → Settled (D.state disk.new) head.now [] 0) }
        // A store that is there already is refused, and a crash leaves of it what it could leave before.
        ensures kept { D.observable → (other : HeadValue) (operations : List Operation) (least : ℕ)
            → Settled (D.state disk.old) other operations least
            → AlwaysLeavesBoth (D.state disk.old) (D.state disk.new) (OpensPast other operations least) }
        ensures mirror { LeavesAlone (D.state disk.old) (D.state disk.new) Mirror }
        ensures faults { CountsFault (D.state disk.old).faults (D.state disk.new).faults
            (result ≡ Err InitFault.DiskFault) }
    {
        begun_images_are_whole();
        sealed_windows_are_full();
        let framed = framed_head(alloc, head)?;
        let mut journal = unused_journal(alloc, disk)?;
        journal.append(disk, &framed)?;
        Ok(())
    }
}

/// Returns the head in the form in which it is appended to the journal.
fn framed_head(alloc: Global, head: &Head) -> Result<Framed, NoMemory>
    ensures bytes { IfOk result (λ framed. framed ≡ text_of heads head.now) }
    ensures bound { length (text_of heads head.now) ≤ payload_limit }
    ensures rules { IsHead head.now }
{
    let bytes = head_bytes(alloc, head)?;
    Framed::of(alloc, bytes.as_slice())
}

/// Loads both areas, and returns the log of the journal with room for a payload. It refuses a disk that has a
/// payload.
fn unused_journal<D: Disk>(alloc: Global, disk: &mut D) -> Result<Log, InitFault>
    ensures log { IfOk result IsFirstLog }
    ensures listed { IfOk result (λ log. D.observable → IsListed log ((D.state disk.new).content Journal)) }
    ensures unused { OnOk result (D.observable → HasNoPayload (D.state disk.old)) }
    ensures already { result ≡ Err InitFault.AlreadyInit → D.observable → HasPayload (D.state disk.old) }
    ensures same { OnOk result (D.observable → HasNoPayload (D.state disk.new)) }
    ensures journal { D.observable → AlwaysLeaves (D.state disk.old) (D.state disk.new) Journal
        (StandsFor ((D.state disk.old).image_now Journal)) }
    ensures seals { D.observable → AlwaysLeaves (D.state disk.old) (D.state disk.new) Sealed
        (StandsFor ((D.state disk.old).image_now Sealed)) }
    ensures rests { OnOk result (D.observable → AreWhole (D.state disk.old) → IsAtRest (D.state disk.new)) }
    ensures mirror { LeavesAlone (D.state disk.old) (D.state disk.new) Mirror }
    ensures faults { CountsFault (D.state disk.old).faults (D.state disk.new).faults
        (result ≡ Err InitFault.DiskFault) }
{
    let mut journal = Log::load(alloc, disk, Area::Journal)?;
    let seals = Log::load(alloc, disk, Area::Sealed)?;
    if has_payload(&journal, &seals) {
        return Err(InitFault::AlreadyInit);
    }
    journal.reserve()?;
    Ok(journal)
}

/// Whether one of the logs has a payload.
fn has_payload(journal: &Log, seals: &Log) -> bool
    requires { (journal.now.spent ≡ false) × (seals.now.spent ≡ false) }
    ensures { IsTrue result
        ↔ ((0 < length journal.now.extents) ⊎ (0 < length seals.now.extents)) }
{
    journal.len() > 0 || seals.len() > 0
}
