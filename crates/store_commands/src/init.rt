ghost use Rattle.std.specs.Prelude.{◌≡◌, ◌≢◌, ◌≤◌, length, min, pos, Err, IfOk, IfErr, IsOk};
ghost use Rattle.atom_values.specs.Counts.{CountsFault};
ghost use Rattle.feed_disk.specs.Moments.{LeavesAlone};
ghost use Rattle.feed_disk.specs.declared.area.Area.TheVariants.{Mirror};
ghost use Rattle.command_ends.specs.declared.status.Status.TheVariants as status;
ghost use Rattle.member_rules.specs.Head.{capacity_floor, capacity_limit, title_limit, window_limit};
ghost use Rattle.store_commands.specs.Crash.{MakesStoreAt};
ghost use Rattle.command_ends.specs.Fault.{fault_answer, IsRefusal};
ghost use Rattle.store_commands.specs.Stored.{IsInitAnswer};

use atom_values::Stamp;
use atom_writer::FeedName;
use command_ends::Fault;
use document_server::Clock;
use feed_disk::Disk;
use feed_recovery::Store;
use member_rules::{Head, NEWEST_FORMAT};
use std::alloc::Global;

/// The greatest moment of a stamp: 9999-12-31T23:59:59.999Z.
const LAST_STAMP: u64 = 253_402_300_799_999;

/// `init`: makes a store of the feed with this name, and returns what is printed then. A window has `window`
/// operations, and each of the store's two files at most `capacity` bytes. The feed is made at the moment of the clock.
///
/// Errors: `BadStore` if the disk has the records of a store already; `Disk` if a device call failed; `NoMemory`.
pub fn init<D: Disk, C: Clock>(
    alloc: Global,
    name: FeedName,
    window: u32,
    capacity: u64,
    disk: &mut D,
    clock: &mut C,
) -> Result<Vec<u8>, Fault>
    requires window { (1 ≤ window) × (window ≤ window_limit) }
    requires capacity { (capacity_floor ≤ capacity) × (capacity ≤ capacity_limit) }
    requires title { length name.title ≤ title_limit }
    requires author { length name.author ≤ title_limit }
    ensures answer { IfOk result (λ written. D.observable → IsInitAnswer (D.state disk.old).content
        record { status = status.Done; printed = written.items }) }
    ensures refused { IfErr result (λ fault. IsRefusal fault → D.observable
        → IsInitAnswer (D.state disk.old).content (fault_answer fault)) }
    ensures makes { D.observable → MakesStoreAt (D.state disk.old) (D.state disk.new) name window capacity C.observable
        (C.coming clock.old 0) (IsOk result) }
    ensures mirror { LeavesAlone (D.state disk.old) (D.state disk.new) Mirror }
    ensures disk_faults { CountsFault (D.state disk.old).faults (D.state disk.new).faults
        (result ≡ Err Fault.Disk) }
    ensures only_errors { result ≢ Err Fault.Input }
{
    let printed = Vec::from_slice(alloc, b"ready\n")?;
    let head = Head {
        format: NEWEST_FORMAT,
        name,
        window,
        capacity,
        created: stamp_of(clock.now()),
    };
    let made = Store::init(alloc, disk, &head);
    drop(head);
    made?;
    Ok(printed)
}

/// The stamp of a moment of the clock, or the greatest one.
fn stamp_of(now: u64) -> Stamp
    ensures { result ≡ pos (min now 253_402_300_799_999) }
{
    // The moment is at most that of the greatest stamp, so it has a stamp.
    Stamp::new(now.min(LAST_STAMP) as i64).unwrap()
}
