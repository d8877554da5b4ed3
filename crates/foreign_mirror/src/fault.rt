use atom_values::NoMemory;
use doc_source::GetFault;
use std::error::Error;
use std::fmt;

/// Why a walk has no result.
#[derive(Clone, Copy, Debug, PartialEq, Eq)]
pub enum ForeignFault {
    /// A call of the source failed.
    FetchFault,
    /// Out of memory.
    NoMemory,
}

impl fmt::Display for ForeignFault {
    fn fmt<W: fmt::Write>(&self, f: &mut fmt::Formatter<W>) -> fmt::Result {
        match self {
            ForeignFault::FetchFault => write!(f, "fetch fault"),
            ForeignFault::NoMemory => write!(f, "out of memory"),
        }
    }
}

impl Error for ForeignFault {}

impl From<NoMemory> for ForeignFault {
    ghost use Rattle.std.specs.Prelude.{◌≡◌};
    ghost use Rattle.foreign_mirror.specs.declared.fault.ForeignFault.TheVariants.{NoMemory as LackOfMemory};

    ghost from_gives = { λ _ fault. fault ≡ LackOfMemory };

    fn from(_error: NoMemory) -> ForeignFault {
        ForeignFault::NoMemory
    }
}

impl From<GetFault> for ForeignFault {
    ghost use Rattle.std.specs.Prelude.{◌≡◌};
    ghost use Rattle.foreign_mirror.specs.Walk.{get_fault};

    ghost from_gives = { λ fault given. given ≡ get_fault fault };

    fn from(fault: GetFault) -> ForeignFault {
        match fault {
            GetFault::Failed => ForeignFault::FetchFault,
            GetFault::NoMemory => ForeignFault::NoMemory,
        }
    }
}
