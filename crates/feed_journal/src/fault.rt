ghost use Rattle.std.specs.Prelude.{◌≡◌};
ghost use Rattle.feed_journal.specs.declared.fault.LogFault.TheVariants.{DiskFault as LogDiskFault};
ghost use Rattle.feed_journal.specs.declared.fault.LogFault.TheVariants.{NoMemory as LogNoMemory};

use atom_values::{Failed, NoMemory};
use std::alloc::{AllocError, AllocFailed};
use std::error::Error;
use std::fmt;

/// A device call failed. The log that made it is spent: drop it and load it again.
#[derive(Clone, Copy, Debug, PartialEq, Eq, Hash)]
pub struct DiskFault;

impl fmt::Display for DiskFault {
    fn fmt<W: fmt::Write>(&self, f: &mut fmt::Formatter<W>) -> fmt::Result {
        write!(f, "disk fault")
    }
}

impl Error for DiskFault {}

impl From<Failed> for DiskFault {
    fn from(_failed: Failed) -> DiskFault {
        DiskFault
    }
}

/// Why a call of `Log`, `Frames` or `FrameReader` returned no value.
#[derive(Clone, Copy, Debug, PartialEq, Eq, Hash)]
pub enum LogFault {
    /// A device call failed.
    DiskFault,
    /// The area has fewer bytes of the payload of this index, counted from 0, than the log has for it.
    Changed { index: u32 },
    /// Memory ran out.
    NoMemory,
}

impl fmt::Display for LogFault {
    fn fmt<W: fmt::Write>(&self, f: &mut fmt::Formatter<W>) -> fmt::Result {
        match self {
            LogFault::DiskFault => write!(f, "disk fault"),
            LogFault::Changed { index } => write!(f, "changed {index}"),
            LogFault::NoMemory => write!(f, "out of memory"),
        }
    }
}

impl Error for LogFault {}

impl From<Failed> for LogFault {
    ghost from_gives = { λ _ fault. fault ≡ LogDiskFault };

    fn from(_failed: Failed) -> LogFault {
        LogFault::DiskFault
    }
}

impl From<NoMemory> for LogFault {
    ghost from_gives = { λ _ fault. fault ≡ LogNoMemory };

    fn from(_error: NoMemory) -> LogFault {
        LogFault::NoMemory
    }
}

impl From<AllocError> for LogFault {
    ghost from_gives = { λ _ fault. fault ≡ LogNoMemory };

    fn from(_error: AllocError) -> LogFault {
        LogFault::NoMemory
    }
}

impl<T: Drop> From<AllocFailed<T>> for LogFault {
    ghost from_gives = { λ _ fault. fault ≡ LogNoMemory };

    fn from(_error: AllocFailed<T>) -> LogFault {
        LogFault::NoMemory
    }
}
