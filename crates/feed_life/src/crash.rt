ghost use Rattle.std.specs.Prelude.{◌≡◌, ◌≤◌, ◌<◌, false, IfOk, List, OnOk};
ghost use Rattle.feed_disk.specs.Image.{crashed_disk};
ghost use Rattle.feed_disk.specs.Memory.{MemoryValue, state_of};
ghost use Rattle.feed_life.specs.Life.{IsStoreOf};
ghost use Rattle.feed_life.specs.Asks.{IsLeft, IsOpened, LeavesStopped, Runs};
ghost use Rattle.feed_life.specs.Crashes.{HasPayloadsOf, IsCrash, IsCrashFrom, IsImageAfter, IsImageBy};
ghost use Rattle.feed_recovery.specs.Store.{StandsFor, is_spent};
ghost use Rattle.member_rules.specs.Head.{HeadValue};
ghost use Rattle.member_rules.specs.declared.operation.Op.{Op as Operation};

use crate::ask::{NO_MEMORY, open};
use crate::event::Stop;
use crate::turn::Turn;
use atom_values::NoMemory;
use feed_disk::{Area, Choice, Disk, MemoryDisk};
use feed_journal::begun_images_are_whole;
use feed_recovery::Store;
use std::alloc::Global;

/// The number of operations of a store and that of its sealed archives.
#[derive(Drop)]
pub(crate) struct Numbers {
    pub(crate) version: u32,
    pub(crate) sealed: u32,
}

/// Crashes within a device call that was made. The disk left is the image by the choice.
fn crash_at(disk: &MemoryDisk, call: u64, choice: &Choice) -> Result<MemoryDisk, NoMemory>
    requires { call ≤ (state_of disk.now).clock }
    ensures image { IfOk result (λ left. left ≡ crashed_disk disk.now call choice.now) }
    ensures among { IfOk result (IsCrash (λ a. (state_of disk.now).image_at a call)) }
{
    disk.image(call, choice)
}

/// Crashes after the last device call that was made, within one that changes nothing. The disk left is the image by the
/// choice.
pub(crate) fn crash_after(disk: &mut MemoryDisk, choice: &Choice) -> Result<MemoryDisk, NoMemory>
    ensures image { IfOk result (IsImageAfter disk.old choice.now) }
    ensures among { IfOk result (IsCrash (state_of disk.old).image_now) }
{
    let before = disk.calls();
    if before == u64::MAX {
        return Err(NoMemory);
    }
    match disk.size(Area::Journal) {
        Ok(_) => crash_at(disk, before + 1, choice),
        Err(_) => Err(NoMemory),
    }
}

/// Crashes within the call of the stop, of those since `begun`, or after the last one.
pub(crate) fn crash_from(
    disk: &mut MemoryDisk,
    begun: u64,
    stop: &Stop,
) -> Result<MemoryDisk, NoMemory>
    requires begun { begun ≤ (state_of disk.old).clock }
    requires some { 0 < stop.now.call }
    ensures image { IfOk result (IsImageBy stop.now begun disk.old) }
    ensures among { IfOk result (IsCrashFrom begun stop.now.call disk.old) }
{
    let ended = disk.calls();
    if ended == u64::MAX {
        return Err(NoMemory);
    }
    if stop.call > ended - begun {
        return crash_after(disk, &stop.choice);
    }
    crash_at(disk, begun + stop.call, &stop.choice)
}

/// Makes a turn, without the reply. Returns the number of device calls before it.
fn run<T: Turn>(
    alloc: Global,
    store: &mut Store,
    disk: &mut MemoryDisk,
    turn: &T,
    now: u64,
) -> Result<u64, NoMemory>
    requires unspent { is_spent store.old ≡ false }
    requires stands { StandsFor (state_of disk.old) store.old }
    ensures runs { OnOk result ((head : HeadValue) (history : List Operation) (before : MemoryValue)
        → IsOpened head history before disk.old store.old
        → Runs head (T.outcomes turn.now now) history before disk.old disk.new) }
    ensures begun { IfOk result (λ begun. begun ≡ (state_of disk.old).clock) }
    ensures later { (state_of disk.old).clock ≤ (state_of disk.new).clock }
{
    let begun = disk.calls();
    if begun == u64::MAX {
        return Err(NoMemory);
    }
    let reply = turn.make(alloc, store, disk, now)?;
    let status = reply.status;
    drop(reply);
    if status == NO_MEMORY || store.is_spent() {
        return Err(NoMemory);
    }
    Ok(begun)
}

/// Makes a turn on the store of a disk, and crashes within one of its device calls.
pub(crate) fn ask_into<T: Turn>(
    alloc: Global,
    disk: &mut MemoryDisk,
    turn: &T,
    now: u64,
    stop: &Stop,
) -> Result<MemoryDisk, NoMemory>
    ensures stopped { IfOk result (λ left. (head : HeadValue) (history : List Operation)
        → IsStoreOf head history disk.old
        → LeavesStopped head (T.outcomes turn.now now) stop.now history disk.old left) }
{
    // A law, which does nothing.
    begun_images_are_whole();
    let mut store = open(alloc, disk)?;
    if stop.call == 0 {
        drop(store);
        return crash_after(disk, &stop.choice);
    }
    let begun = run(alloc, &mut store, disk, turn, now);
    drop(store);
    crash_from(disk, begun?, stop)
}

/// Loads the store of a disk, for its numbers.
pub(crate) fn load_numbers(alloc: Global, disk: &mut MemoryDisk) -> Result<Numbers, NoMemory>
    ensures left { IfOk result (λ given. (head : HeadValue) (history : List Operation)
        → IsStoreOf head history disk.old
        → IsLeft head history disk.new given.version given.sealed) }
    ensures same { OnOk result (HasPayloadsOf disk.old disk.new) }
{
    let store = open(alloc, disk)?;
    let numbers = Numbers {
        version: store.version(),
        sealed: store.sealed(),
    };
    drop(store);
    Ok(numbers)
}
