ghost use Rattle.std.specs.Prelude.{◌≡◌, ◌≢◌, ◌≤◌, false, Err, IfOk, List, None, OnOk, Some, map};
ghost use Rattle.feed_disk.specs.Memory.{state_of};
ghost use Rattle.feed_disk.specs.Moments.{NowOnly};
ghost use Rattle.feed_disk.specs.declared.area.Area.TheVariants.{Mirror as MirrorArea};
ghost use Rattle.feed_life.specs.Crashes.{HasPayloadsOf};
ghost use Rattle.feed_life.specs.Life.{IsMirrorOf, IsSentBy};
ghost use Rattle.feed_life.specs.Mirrors.{IsCertified, IsOpenedMirror, IsShown, LeavesGiven, RunsGift};
ghost use Rattle.member_rules.specs.Head.{HeadValue};
ghost use Rattle.member_rules.specs.declared.operation.Op.{Op as Operation};
ghost use Rattle.mirror_walk.specs.Holding.{KeptValue};
ghost use Rattle.mirror_walk.specs.Loaded.{own_offer};
ghost use Rattle.mirror_walk.specs.Mirror.{LoadsTo, StandsFor, is_spent};
ghost use Rattle.mirror_walk.specs.Offers.{AreServed};

use crate::crash::{crash_after, crash_from};
use crate::event::Stop;
use crate::sent::SentDoc;
use atom_values::{Copies, NoMemory};
use coverage_certificate::Certificate;
use feed_disk::{Disk, MemoryDisk};
use feed_journal::begun_images_are_whole;
use http_face::MAX_ANSWER;
use member_rules::Head;
use mirror_walk::{Accepted, Mirror, Offered, Outcome};
use std::alloc::Global;

/// Loads the mirror of a disk, with the capacity of the feed's head.
pub(crate) fn open_mirror(
    alloc: Global,
    head: &Head,
    disk: &mut MemoryDisk,
) -> Result<Mirror, NoMemory>
    ensures fresh { IfOk result (λ mirror. is_spent mirror ≡ false) }
    ensures stands { IfOk result (λ mirror. StandsFor (state_of disk.new) mirror) }
    ensures opened { IfOk result (λ mirror. (kept : List KeptValue)
        → NowOnly (state_of disk.old) MirrorArea (LoadsTo head.now.name.base kept)
        → IsOpenedMirror head.now kept disk.new mirror) }
    ensures same { OnOk result (HasPayloadsOf disk.old disk.new) }
{
    let base = head.name.base.copy(alloc)?;
    match Mirror::load(alloc, disk, base, head.capacity) {
        Ok(mirror) => Ok(mirror),
        // A disk without listed calls fails only if memory runs out.
        Err(_) => Err(NoMemory),
    }
}

/// Offers a document that was sent to a mirror.
fn offer(mirror: &mut Mirror, disk: &mut MemoryDisk, doc: &SentDoc) -> Result<(), NoMemory>
    requires unspent { is_spent mirror.old ≡ false }
    requires stands { StandsFor (state_of disk.old) mirror.old }
    ensures runs { OnOk result ((head : HeadValue) (history : List Operation) (kept : List KeptValue)
        → IsSentBy head history doc.now → AreServed head history (map own_offer kept)
        → IsOpenedMirror head kept disk.old mirror.old
        → RunsGift head history doc.now kept disk.old disk.new) }
    ensures later { (state_of disk.old).clock ≤ (state_of disk.new).clock }
{
    // A law, which does nothing.
    begun_images_are_whole();
    let bytes = doc.bytes.slice();
    // No document that a feed serves is longer.
    if bytes.len() > MAX_ANSWER {
        return Err(NoMemory);
    }
    let answer = mirror.offer(disk, doc.address.slice(), bytes);
    answered(answer)
}

/// Whether an offer got an answer.
fn answered(answer: Result<Accepted, Offered>) -> Result<(), NoMemory>
    ensures { OnOk result ((answer ≢ Err Offered.NoMemory) × (answer ≢ Err Offered.DiskFault)) }
{
    match answer {
        // A call of a disk without listed calls fails only if memory runs out.
        Err(Offered::NoMemory) | Err(Offered::DiskFault) => Err(NoMemory),
        _ => Ok(()),
    }
}

/// Offers a document that was sent to the mirror of a disk.
pub(crate) fn give(
    alloc: Global,
    head: &Head,
    disk: &mut MemoryDisk,
    doc: &SentDoc,
) -> Result<(), NoMemory>
    ensures { OnOk result ((history : List Operation) (kept : List KeptValue)
        → IsSentBy head.now history doc.now
        → IsMirrorOf head.now history disk.old kept
        → LeavesGiven head.now history doc.now None kept disk.old disk.new) }
{
    let mut mirror = open_mirror(alloc, head, disk)?;
    let offered = offer(&mut mirror, disk, doc);
    drop(mirror);
    offered
}

/// Offers a document that was sent to the mirror of a disk, and crashes within one of its device calls.
pub(crate) fn give_into(
    alloc: Global,
    head: &Head,
    disk: &mut MemoryDisk,
    doc: &SentDoc,
    stop: &Stop,
) -> Result<MemoryDisk, NoMemory>
    ensures { IfOk result (λ left. (history : List Operation) (kept : List KeptValue)
        → IsSentBy head.now history doc.now
        → IsMirrorOf head.now history disk.old kept
        → LeavesGiven head.now history doc.now (Some stop.now) kept disk.old left) }
{
    let mut mirror = open_mirror(alloc, head, disk)?;
    if stop.call == 0 {
        drop(mirror);
        return crash_after(disk, &stop.choice);
    }
    let begun = disk.calls();
    let offered = offer(&mut mirror, disk, doc);
    drop(mirror);
    offered?;
    crash_from(disk, begun, stop)
}

/// The entries that the mirror of a disk shows.
pub(crate) fn show(alloc: Global, head: &Head, disk: &mut MemoryDisk) -> Result<Outcome, NoMemory>
    ensures { IfOk result (λ outcome. (history : List Operation) (kept : List KeptValue)
        → IsMirrorOf head.now history disk.old kept
        → IsShown head.now history kept outcome × IsMirrorOf head.now history disk.new kept) }
{
    let mut mirror = open_mirror(alloc, head, disk)?;
    let outcome = mirror.outcome();
    drop(mirror);
    outcome
}

/// The certificate of the mirror of a disk, if no document is missing.
pub(crate) fn certify(
    alloc: Global,
    head: &Head,
    disk: &mut MemoryDisk,
) -> Result<Option<Certificate>, NoMemory>
    ensures { IfOk result (λ made. (history : List Operation) (kept : List KeptValue)
        → IsMirrorOf head.now history disk.old kept
        → IsCertified head.now history kept made × IsMirrorOf head.now history disk.new kept) }
{
    let mut mirror = open_mirror(alloc, head, disk)?;
    let Ok(outcome) = mirror.outcome() else {
        drop(mirror);
        return Err(NoMemory);
    };
    match outcome {
        Outcome::Missing { .. } => {
            drop(mirror);
            Ok(None)
        }
        Outcome::Complete { .. } => {
            let made = Certificate::of(alloc, &mut mirror, disk);
            drop(mirror);
            match made {
                Ok(certificate) => Ok(Some(certificate)),
                Err(_) => Err(NoMemory),
            }
        }
    }
}
