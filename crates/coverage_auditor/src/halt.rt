use crate::verdict::Verdict;
use atom_values::NoMemory;
use std::alloc::AllocFailed;

/// Why a check of a certificate ends before the others.
#[derive(Clone, Copy, Debug, PartialEq, Eq)]
pub(crate) enum Halt {
    /// The certificate is refused.
    Refused(Verdict),
    /// Out of memory.
    NoMemory,
}

impl From<Verdict> for Halt {
    ghost use Rattle.std.specs.Prelude.{◌≡◌};
    ghost use Rattle.coverage_auditor.specs.declared.halt.Halt.TheVariants.{Refused};

    ghost from_gives = { λ verdict halt. halt ≡ Refused verdict };

    fn from(verdict: Verdict) -> Halt {
        Halt::Refused(verdict)
    }
}

impl From<NoMemory> for Halt {
    ghost use Rattle.std.specs.Prelude.{◌≡◌};
    ghost use Rattle.coverage_auditor.specs.declared.halt.Halt.TheVariants.{NoMemory as LackOfMemory};

    ghost from_gives = { λ _ halt. halt ≡ LackOfMemory };

    fn from(_error: NoMemory) -> Halt {
        Halt::NoMemory
    }
}

impl<T: Drop> From<AllocFailed<T>> for Halt {
    ghost use Rattle.std.specs.Prelude.{◌≡◌};
    ghost use Rattle.coverage_auditor.specs.declared.halt.Halt.TheVariants.{NoMemory as LackOfMemory};

    ghost from_gives = { λ _ halt. halt ≡ LackOfMemory };

    fn from(_error: AllocFailed<T>) -> Halt {
        Halt::NoMemory
    }
}
