ghost use Rattle.std.specs.Prelude.{◌≡◌, Err};
ghost use Rattle.doc_source.specs.Pile.{refusal_after};
ghost use Rattle.doc_source.specs.declared.fault.PileFault.TheVariants.{SourceFault as FailedCall, NoMemory as LackOfMemory};

use atom_values::{Failed, NoMemory};
use std::alloc::AllocError;
use std::error::Error;
use std::fmt;

/// Why a pile has no next offer.
#[derive(Clone, Copy, Debug, PartialEq, Eq)]
pub enum PileFault {
    /// The bytes aren't a pile. `at` is the offset at which the line or the offer begins that can't be read.
    BadPile { at: u64 },
    /// The pile goes on past its first `limit` bytes, and the next offer doesn't lie within them.
    TooLong { limit: u64 },
    /// A call of the source failed.
    SourceFault,
    /// Memory ran out.
    NoMemory,
}

impl PileFault {
    /// The refusal that a reader gives from now on. `None` for a call of the source that failed, since the reader goes
    /// on after it.
    pub(crate) fn lasting(self) -> Option<PileFault>
        ensures { result ≡ refusal_after (Err self) }
    {
        match self {
            PileFault::SourceFault => None,
            PileFault::BadPile { .. } | PileFault::TooLong { .. } | PileFault::NoMemory => Some(
                self,
            ),
        }
    }
}

impl fmt::Display for PileFault {
    fn fmt<W: fmt::Write>(&self, f: &mut fmt::Formatter<W>) -> fmt::Result {
        match self {
            PileFault::BadPile { at } => write!(f, "bad pile at offset {at}"),
            PileFault::TooLong { limit } => write!(f, "the pile has more than {limit} bytes"),
            PileFault::SourceFault => write!(f, "source fault"),
            PileFault::NoMemory => write!(f, "out of memory"),
        }
    }
}

impl Error for PileFault {}

impl From<Failed> for PileFault {
    ghost from_gives = { λ _ fault. fault ≡ FailedCall };

    fn from(_error: Failed) -> PileFault {
        PileFault::SourceFault
    }
}

impl From<AllocError> for PileFault {
    ghost from_gives = { λ _ fault. fault ≡ LackOfMemory };

    fn from(_error: AllocError) -> PileFault {
        PileFault::NoMemory
    }
}

impl From<NoMemory> for PileFault {
    ghost from_gives = { λ _ fault. fault ≡ LackOfMemory };

    fn from(_error: NoMemory) -> PileFault {
        PileFault::NoMemory
    }
}
