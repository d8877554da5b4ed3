use atom_values::NoMemory;
use chain_links::Base;
use feed_journal::LogFault;
use std::error::Error;
use std::fmt;

/// Why [`crate::Mirror::load`] returns no mirror. The payloads are looked at in order, and the first fault
/// decides.
#[derive(Debug, Drop)]
pub enum MirrorFault {
    /// The first document of the area has the base `kept`, which isn't the mirror's.
    OtherBase { kept: Base },
    /// The mirror refuses the payload `index`, counted from 0. If it is no document, `at` is the offset of the first
    /// piece that is refused. If it is a document that isn't taken after those before it, `at` is its length.
    /// If the disk gave less of it than there was, `at` is 0. That is so on any disk.
    BadRecord { index: u32, at: usize },
    /// A device call failed.
    DiskFault,
    /// Out of memory.
    NoMemory,
}

impl fmt::Display for MirrorFault {
    fn fmt<W: fmt::Write>(&self, f: &mut fmt::Formatter<W>) -> fmt::Result {
        match self {
            MirrorFault::OtherBase { .. } => write!(f, "the area is of another mirror"),
            MirrorFault::BadRecord { index, at } => {
                write!(f, "record {index} of the mirror is bad at byte {at}")
            }
            MirrorFault::DiskFault => write!(f, "disk fault"),
            MirrorFault::NoMemory => write!(f, "out of memory"),
        }
    }
}

impl Error for MirrorFault {}

impl From<NoMemory> for MirrorFault {
    ghost use Rattle.std.specs.Prelude.{◌≡◌};
    ghost use Rattle.mirror_walk.specs.declared.mirror_fault.MirrorFault.TheVariants.{NoMemory};

    ghost from_gives = { λ _ fault. fault ≡ NoMemory };

    fn from(_error: NoMemory) -> MirrorFault {
        MirrorFault::NoMemory
    }
}

impl From<LogFault> for MirrorFault {
    ghost use Rattle.std.specs.Prelude.{◌≡◌};
    ghost use Rattle.mirror_walk.specs.Loading.{fault_of};

    ghost from_gives = { λ log fault. fault ≡ fault_of log };

    fn from(fault: LogFault) -> MirrorFault {
        match fault {
            LogFault::DiskFault => MirrorFault::DiskFault,
            LogFault::Changed { index } => MirrorFault::BadRecord { index, at: 0 },
            LogFault::NoMemory => MirrorFault::NoMemory,
        }
    }
}
