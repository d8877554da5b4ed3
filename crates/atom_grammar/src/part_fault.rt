use atom_values::{ListFault, NoMemory};

/// Why a part is not read.
#[derive(Clone, Copy, Debug, PartialEq, Eq)]
pub(crate) enum PartFault {
    /// The input doesn't begin with the part.
    Mismatch,
    /// Out of memory.
    NoMemory,
}

impl From<NoMemory> for PartFault {
    ghost use Rattle.std.specs.Prelude.{◌≡◌};
    ghost use Rattle.atom_grammar.specs.declared.part_fault.PartFault.TheVariants.{NoMemory};

    ghost from_gives = { λ _ stop. stop ≡ NoMemory };

    fn from(_error: NoMemory) -> PartFault {
        PartFault::NoMemory
    }
}

impl From<ListFault> for PartFault {
    ghost use Rattle.atom_grammar.specs.ListFaults.{IsFaultOf};

    ghost from_gives = { IsFaultOf };

    fn from(fault: ListFault) -> PartFault {
        match fault {
            ListFault::TooMany { count: _ } => PartFault::Mismatch,
            ListFault::NoMemory => PartFault::NoMemory,
        }
    }
}
