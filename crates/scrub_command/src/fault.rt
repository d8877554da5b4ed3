ghost use Rattle.std.specs.Prelude.{◌≡◌};
ghost use Rattle.scrub_command.specs.Answer.{repair_fault, unsound_fault};

use command_ends::{BadStore, Fault};
use feed_disk::Area;
use store_scrub::{RepairFault, Unsound};

/// The fault of a store that isn't sound.
pub fn of_unsound(fault: Unsound) -> Fault
    ensures { result ≡ unsound_fault fault }
{
    let bad = match fault {
        Unsound::NotInit => BadStore::NotInit,
        Unsound::BadRecord { area, index, at } => BadStore::BadRecord {
            area,
            index,
            at: at as u64,
        },
        Unsound::SealCount { records, seals } => BadStore::SealCount { records, seals },
        Unsound::BadSeal { index } => BadStore::BadSeal { index },
        Unsound::OpenGate { area, at } => BadStore::OpenGate { area, at },
        Unsound::DiskFault => return Fault::Disk,
        Unsound::NoMemory => return Fault::NoMemory,
    };
    Fault::BadStore(bad)
}

/// The fault of a repair that stopped.
pub fn of_repair(fault: RepairFault) -> Fault
    ensures { result ≡ repair_fault fault }
{
    match fault {
        RepairFault::NotInit => Fault::BadStore(BadStore::NotInit),
        RepairFault::BadRecord { area, index, at } => Fault::BadStore(BadStore::BadRecord {
            area,
            index,
            at: at as u64,
        }),
        RepairFault::Full {
            size,
            needed,
            capacity,
        } => Fault::Full {
            area: Area::Sealed,
            size,
            needed,
            capacity,
        },
        RepairFault::DiskFault => Fault::Disk,
        RepairFault::NoMemory => Fault::NoMemory,
    }
}
