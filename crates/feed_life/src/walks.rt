ghost use Rattle.std.specs.Prelude.{◌≡◌, ◌≤◌, false, IfOk, List, None, OnOk, Some};
ghost use Rattle.feed_disk.specs.Disk.{PassesBy};
ghost use Rattle.feed_disk.specs.Memory.{MemoryValue, state_of};
ghost use Rattle.feed_disk.specs.declared.area.Area.{Area as AreaValue};
ghost use Rattle.feed_life.specs.Crashes.{HasPayloadsOf, IsCrash};
ghost use Rattle.feed_life.specs.Life.{IsMirrorOf, IsStoreOf};
ghost use Rattle.feed_life.specs.Mirrors.{LeavesWalked};
ghost use Rattle.feed_life.specs.Walks.{HasDocuments, IsOver, IsReady, RunsWalk};
ghost use Rattle.member_rules.specs.Head.{HeadValue};
ghost use Rattle.member_rules.specs.declared.operation.Op.{Op as Operation};
ghost use Rattle.mirror_walk.specs.Holding.{KeptValue};
ghost use Rattle.mirror_walk.specs.Mirror.{StandsFor, is_spent};

use crate::ask::open;
use crate::crash::{crash_after, crash_from};
use crate::event::Stop;
use crate::laws::stores_answer_what_is_served;
use crate::mirrors::open_mirror;
use crate::store_fetch::StoreFetch;
use atom_values::NoMemory;
use feed_disk::{Area, Choice, Disk, MemoryDisk};
use feed_journal::begun_images_are_whole;
use member_rules::Head;
use mirror_walk::{Mirror, WalkFault, Walked};
use std::alloc::Global;

/// A copy of a disk, made within a device call that changes nothing.
fn copy_of(disk: &mut MemoryDisk) -> Result<MemoryDisk, NoMemory>
    ensures copy { IfOk result (IsCrash (state_of disk.old).image_now) }
    ensures same { OnOk result ((a : AreaValue) → PassesBy (state_of disk.old) (state_of disk.new) a) }
{
    let before = disk.calls();
    if before == u64::MAX {
        return Err(NoMemory);
    }
    match disk.size(Area::Journal) {
        Ok(_) => disk.image(before + 1, &Choice::New),
        Err(_) => Err(NoMemory),
    }
}

/// The documents of the store of a disk. They are read from a copy of it, since a walk's contract knows its source as a
/// `Fetch` alone and so says nothing of the source's disk.
fn documents_of(
    alloc: Global,
    store_disk: &mut MemoryDisk,
) -> Result<StoreFetch<MemoryDisk>, NoMemory>
    ensures documents { IfOk result (λ documents. (head : HeadValue) (history : List Operation)
        → IsStoreOf head history store_disk.old → HasDocuments head history documents) }
    ensures store { OnOk result ((head : HeadValue) (history : List Operation)
        → IsStoreOf head history store_disk.old → IsStoreOf head history store_disk.new) }
{
    let mut copy = copy_of(store_disk)?;
    let Ok(store) = open(alloc, &mut copy) else {
        drop(copy);
        return Err(NoMemory);
    };
    Ok(StoreFetch::new(alloc, store, copy))
}

/// The end of a walk, where nothing is missing or the mirror's area is full. The disks and the documents have no listed
/// calls, so another fault means that memory ran out.
fn end_of(walked: Result<Walked, WalkFault>) -> Result<(), NoMemory>
    ensures { OnOk result (IsOver walked) }
{
    match walked {
        Ok(_) => Ok(()),
        Err(WalkFault::Full { .. }) => Ok(()),
        Err(_) => Err(NoMemory),
    }
}

/// A mirror walks over documents until nothing is missing, or its area is full.
fn walk_over(
    mirror: &mut Mirror,
    disk: &mut MemoryDisk,
    documents: &mut StoreFetch<MemoryDisk>,
) -> Result<(), NoMemory>
    requires unspent { is_spent mirror.old ≡ false }
    requires stands { StandsFor (state_of disk.old) mirror.old }
    ensures runs { OnOk result ((head : HeadValue) (history : List Operation) (kept : List KeptValue)
        → IsReady head history kept disk.old mirror.old documents.old
        → RunsWalk head history kept disk.old disk.new) }
    ensures later { OnOk result ((state_of disk.old).clock ≤ (state_of disk.new).clock) }
{
    // Laws, which do nothing.
    begun_images_are_whole();
    stores_answer_what_is_served();
    let walked = mirror.walk(disk, documents);
    end_of(walked)
}

/// A mirror walks over documents, and crashes within one of the device calls of its disk.
fn walk_amid(
    mirror: &mut Mirror,
    disk: &mut MemoryDisk,
    documents: &mut StoreFetch<MemoryDisk>,
    stop: &Stop,
) -> Result<MemoryDisk, NoMemory>
    requires unspent { is_spent mirror.old ≡ false }
    requires stands { StandsFor (state_of disk.old) mirror.old }
    ensures { IfOk result (λ left. (head : HeadValue) (history : List Operation) (kept : List KeptValue)
        (before : MemoryValue) → HasPayloadsOf before disk.old
        → IsReady head history kept disk.old mirror.old documents.old
        → LeavesWalked head history (Some stop.now) kept before left) }
{
    // Laws, which do nothing.
    begun_images_are_whole();
    stores_answer_what_is_served();
    if stop.call == 0 {
        return crash_after(disk, &stop.choice);
    }
    let begun = disk.calls();
    walk_over(mirror, disk, documents)?;
    crash_from(disk, begun, stop)
}

// A value that goes out of scope is proved to be dropped field by field, at each exit. So each of the next four
// functions owns one large value, and drops it by a call.

/// Loads the mirror of a disk, which walks over documents.
fn walk_by(
    alloc: Global,
    head: &Head,
    disk: &mut MemoryDisk,
    documents: &mut StoreFetch<MemoryDisk>,
) -> Result<(), NoMemory>
    ensures { OnOk result ((history : List Operation) (kept : List KeptValue)
        → HasDocuments head.now history documents.old
        → IsMirrorOf head.now history disk.old kept
        → LeavesWalked head.now history None kept disk.old disk.new) }
{
    let mut mirror = open_mirror(alloc, head, disk)?;
    let walked = walk_over(&mut mirror, disk, documents);
    drop(mirror);
    walked
}

/// The same with a crash within one of the device calls of the mirror's disk.
fn walk_into_by(
    alloc: Global,
    head: &Head,
    disk: &mut MemoryDisk,
    documents: &mut StoreFetch<MemoryDisk>,
    stop: &Stop,
) -> Result<MemoryDisk, NoMemory>
    ensures { IfOk result (λ left. (history : List Operation) (kept : List KeptValue)
        → HasDocuments head.now history documents.old
        → IsMirrorOf head.now history disk.old kept
        → LeavesWalked head.now history (Some stop.now) kept disk.old left) }
{
    let mut mirror = open_mirror(alloc, head, disk)?;
    let left = walk_amid(&mut mirror, disk, documents, stop);
    drop(mirror);
    left
}

/// The mirror of a disk walks over the documents of a store.
pub(crate) fn walk(
    alloc: Global,
    head: &Head,
    store_disk: &mut MemoryDisk,
    disk: &mut MemoryDisk,
) -> Result<(), NoMemory>
    ensures walked { OnOk result ((history : List Operation) (kept : List KeptValue)
        → IsStoreOf head.now history store_disk.old
        → IsMirrorOf head.now history disk.old kept
        → LeavesWalked head.now history None kept disk.old disk.new) }
    ensures store { OnOk result ((history : List Operation)
        → IsStoreOf head.now history store_disk.old → IsStoreOf head.now history store_disk.new) }
{
    let mut documents = documents_of(alloc, store_disk)?;
    let walked = walk_by(alloc, head, disk, &mut documents);
    drop(documents);
    walked
}

/// The same with a crash within one of the device calls of the mirror's disk.
pub(crate) fn walk_into(
    alloc: Global,
    head: &Head,
    store_disk: &mut MemoryDisk,
    disk: &mut MemoryDisk,
    stop: &Stop,
) -> Result<MemoryDisk, NoMemory>
    ensures walked { IfOk result (λ left. (history : List Operation) (kept : List KeptValue)
        → IsStoreOf head.now history store_disk.old
        → IsMirrorOf head.now history disk.old kept
        → LeavesWalked head.now history (Some stop.now) kept disk.old left) }
    ensures store { OnOk result ((history : List Operation)
        → IsStoreOf head.now history store_disk.old → IsStoreOf head.now history store_disk.new) }
{
    let mut documents = documents_of(alloc, store_disk)?;
    let left = walk_into_by(alloc, head, disk, &mut documents, stop);
    drop(documents);
    left
}
