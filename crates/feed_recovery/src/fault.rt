use atom_values::{NoMemory, Stamp};
use feed_disk::Area;
use feed_journal::{DiskFault, LogFault};
use member_rules::RuleFault;
use std::alloc::{AllocError, AllocFailed};
use std::error::Error;
use std::fmt;

/// Why [`crate::Store::init`] makes no store.
#[derive(Clone, Copy, Debug, PartialEq, Eq)]
pub enum InitFault {
    /// The journal or the sealed area already has a payload.
    AlreadyInit,
    /// A device call failed.
    DiskFault,
    /// Out of memory.
    NoMemory,
}

/// Why [`crate::Store::load`] returns no store. The journal's payloads are looked at in order, then the number of
/// seals, and then the seals in order. The first fault decides.
#[derive(Clone, Copy, Debug, PartialEq, Eq)]
pub enum LoadFault {
    /// The journal has no payload.
    NotInit,
    /// The journal's payload `index`, counted from 0, can't be there. If it isn't the bytes of a head (payload 0)
    /// or of an operation, `at` is the offset of its first bad field. If it is an operation that can't follow
    /// those before it, or whose entry is too large, `at` is its length. If it is read short, `at` is 0.
    BadRecord { area: Area, index: u32, at: usize },
    /// A journal of `records` operations can't have `seals` seals.
    SealCount { records: u32, seals: u32 },
    /// The seal `index`, counted from 1, isn't the text of that archive, or is read short.
    BadSeal { index: u32 },
    /// A device call failed.
    DiskFault,
    /// Out of memory.
    NoMemory,
}

/// Why [`crate::Store::prepare`] refuses a request.
#[derive(Debug, Drop)]
pub enum PrepareFault {
    /// The rules of the feed refuse it.
    Rule(RuleFault),
    /// An area of `size` bytes has no room for `needed` more within `capacity`. The sealed area is looked at
    /// first.
    Full {
        area: Area,
        size: u64,
        needed: u64,
        capacity: u64,
    },
    /// Out of memory.
    NoMemory,
}

/// Why [`crate::Store::archive`] returns no document.
#[derive(Clone, Copy, Debug, PartialEq, Eq)]
pub enum ArchiveFault {
    /// Only the archives 1 to `sealed` are sealed.
    NotSealed { number: u32, sealed: u32 },
    /// A device call failed.
    DiskFault,
    /// The seal's payload, counted from 0, is shorter than it was.
    Changed { index: u32 },
    /// Out of memory.
    NoMemory,
}

/// Why [`crate::Store::member`] returns no document.
#[derive(Clone, Copy, Debug, PartialEq, Eq)]
pub enum MemberFault {
    /// No member with this number was ever made.
    NotFound { number: u32 },
    /// The member was deleted at this moment.
    Deleted { number: u32, when: Stamp },
    /// A device call failed.
    DiskFault,
    /// The journal's payload, counted from 0, is shorter than it was, or isn't the operation that set the
    /// member's entry.
    Changed { index: u32 },
    /// Out of memory.
    NoMemory,
}

impl fmt::Display for InitFault {
    fn fmt<W: fmt::Write>(&self, f: &mut fmt::Formatter<W>) -> fmt::Result {
        match self {
            InitFault::AlreadyInit => write!(f, "the disk has a store already"),
            InitFault::DiskFault => write!(f, "disk fault"),
            InitFault::NoMemory => write!(f, "out of memory"),
        }
    }
}

impl Error for InitFault {}

impl fmt::Display for LoadFault {
    fn fmt<W: fmt::Write>(&self, f: &mut fmt::Formatter<W>) -> fmt::Result {
        match self {
            LoadFault::NotInit => write!(f, "the disk has no store"),
            LoadFault::BadRecord { index, at, .. } => {
                write!(f, "record {index} of the journal is bad at byte {at}")
            }
            LoadFault::SealCount { records, seals } => {
                write!(f, "{seals} seals after {records} operations")
            }
            LoadFault::BadSeal { index } => write!(f, "seal {index} is bad"),
            LoadFault::DiskFault => write!(f, "disk fault"),
            LoadFault::NoMemory => write!(f, "out of memory"),
        }
    }
}

impl Error for LoadFault {}

impl fmt::Display for PrepareFault {
    fn fmt<W: fmt::Write>(&self, f: &mut fmt::Formatter<W>) -> fmt::Result {
        match self {
            PrepareFault::Rule(fault) => write!(f, "{fault}"),
            PrepareFault::Full {
                area,
                size,
                needed,
                capacity,
            } => write!(
                f,
                "the {area} area has {size} bytes, and no room for {needed} more within {capacity}"
            ),
            PrepareFault::NoMemory => write!(f, "out of memory"),
        }
    }
}

impl Error for PrepareFault {}

impl fmt::Display for ArchiveFault {
    fn fmt<W: fmt::Write>(&self, f: &mut fmt::Formatter<W>) -> fmt::Result {
        match self {
            ArchiveFault::NotSealed { number, sealed } => {
                write!(f, "archive {number} is none of the {sealed} sealed ones")
            }
            ArchiveFault::DiskFault => write!(f, "disk fault"),
            ArchiveFault::Changed { index } => {
                write!(f, "payload {index} of the sealed area has changed")
            }
            ArchiveFault::NoMemory => write!(f, "out of memory"),
        }
    }
}

impl Error for ArchiveFault {}

impl fmt::Display for MemberFault {
    fn fmt<W: fmt::Write>(&self, f: &mut fmt::Formatter<W>) -> fmt::Result {
        match self {
            MemberFault::NotFound { number } => write!(f, "there is no member {number}"),
            MemberFault::Deleted { number, .. } => write!(f, "member {number} was deleted"),
            MemberFault::DiskFault => write!(f, "disk fault"),
            MemberFault::Changed { index } => write!(f, "record {index} has changed"),
            MemberFault::NoMemory => write!(f, "out of memory"),
        }
    }
}

impl Error for MemberFault {}

impl From<NoMemory> for InitFault {
    ghost use Rattle.std.specs.Prelude.{◌≡◌};
    ghost use Rattle.feed_recovery.specs.declared.fault.InitFault.TheVariants.{NoMemory};

    ghost from_gives = { λ _ fault. fault ≡ NoMemory };

    fn from(_error: NoMemory) -> InitFault {
        InitFault::NoMemory
    }
}

impl From<NoMemory> for LoadFault {
    ghost use Rattle.std.specs.Prelude.{◌≡◌};
    ghost use Rattle.feed_recovery.specs.declared.fault.LoadFault.TheVariants.{NoMemory};

    ghost from_gives = { λ _ fault. fault ≡ NoMemory };

    fn from(_error: NoMemory) -> LoadFault {
        LoadFault::NoMemory
    }
}

impl From<NoMemory> for PrepareFault {
    ghost use Rattle.std.specs.Prelude.{◌≡◌};
    ghost use Rattle.feed_recovery.specs.declared.fault.PrepareFault.TheVariants.{NoMemory};

    ghost from_gives = { λ _ fault. fault ≡ NoMemory };

    fn from(_error: NoMemory) -> PrepareFault {
        PrepareFault::NoMemory
    }
}

impl From<NoMemory> for MemberFault {
    ghost use Rattle.std.specs.Prelude.{◌≡◌};
    ghost use Rattle.feed_recovery.specs.declared.fault.MemberFault.TheVariants.{NoMemory};

    ghost from_gives = { λ _ fault. fault ≡ NoMemory };

    fn from(_error: NoMemory) -> MemberFault {
        MemberFault::NoMemory
    }
}

impl From<RuleFault> for PrepareFault {
    ghost use Rattle.std.specs.Prelude.{◌≡◌};
    ghost use Rattle.feed_recovery.specs.declared.fault.PrepareFault.TheVariants.{Rule};

    ghost from_gives = { λ rule fault. fault ≡ Rule rule };

    fn from(rule: RuleFault) -> PrepareFault {
        PrepareFault::Rule(rule)
    }
}

impl From<DiskFault> for InitFault {
    ghost use Rattle.std.specs.Prelude.{◌≡◌};
    ghost use Rattle.feed_recovery.specs.declared.fault.InitFault.TheVariants.{DiskFault};

    ghost from_gives = { λ _ fault. fault ≡ DiskFault };

    fn from(_error: DiskFault) -> InitFault {
        InitFault::DiskFault
    }
}

impl From<AllocError> for LoadFault {
    ghost use Rattle.std.specs.Prelude.{◌≡◌};
    ghost use Rattle.feed_recovery.specs.declared.fault.LoadFault.TheVariants.{NoMemory};

    ghost from_gives = { λ _ fault. fault ≡ NoMemory };

    fn from(_error: AllocError) -> LoadFault {
        LoadFault::NoMemory
    }
}

impl<T: Drop> From<AllocFailed<T>> for LoadFault {
    ghost use Rattle.std.specs.Prelude.{◌≡◌};
    ghost use Rattle.feed_recovery.specs.declared.fault.LoadFault.TheVariants.{NoMemory};

    ghost from_gives = { λ _ fault. fault ≡ NoMemory };

    fn from(_error: AllocFailed<T>) -> LoadFault {
        LoadFault::NoMemory
    }
}

impl From<LogFault> for InitFault {
    ghost use Rattle.std.specs.Prelude.{◌≡◌};
    ghost use Rattle.feed_journal.specs.declared.fault.LogFault.TheVariants.{DiskFault as LogDiskFault};
    ghost use Rattle.feed_journal.specs.declared.fault.LogFault.TheVariants.{NoMemory as LogNoMemory};
    ghost use Rattle.feed_recovery.specs.declared.fault.InitFault.TheVariants.{DiskFault, NoMemory};

    ghost from_gives = { λ log fault.
        (log ≡ LogDiskFault → fault ≡ DiskFault) × (log ≡ LogNoMemory → fault ≡ NoMemory) };

    fn from(fault: LogFault) -> InitFault {
        match fault {
            LogFault::DiskFault => InitFault::DiskFault,
            // A load of a log never returns `Changed`.
            LogFault::Changed { .. } | LogFault::NoMemory => InitFault::NoMemory,
        }
    }
}

impl From<LogFault> for LoadFault {
    ghost use Rattle.std.specs.Prelude.{◌≡◌};
    ghost use Rattle.feed_journal.specs.declared.fault.LogFault.TheVariants.{DiskFault as LogDiskFault};
    ghost use Rattle.feed_journal.specs.declared.fault.LogFault.TheVariants.{NoMemory as LogNoMemory};
    ghost use Rattle.feed_recovery.specs.declared.fault.LoadFault.TheVariants.{DiskFault, NoMemory};

    ghost from_gives = { λ log fault.
        (log ≡ LogDiskFault → fault ≡ DiskFault) × (log ≡ LogNoMemory → fault ≡ NoMemory) };

    fn from(fault: LogFault) -> LoadFault {
        match fault {
            LogFault::DiskFault => LoadFault::DiskFault,
            // A load of a log never returns `Changed`.
            LogFault::Changed { .. } | LogFault::NoMemory => LoadFault::NoMemory,
        }
    }
}
