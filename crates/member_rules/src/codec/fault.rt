use atom_values::{NoMemory, TextFault};
use chain_links::BaseFault;

/// Why a field is not read.
#[derive(Clone, Copy, Debug, PartialEq, Eq)]
pub(crate) enum FieldFault {
    /// The unread bytes don't begin with such a field.
    Mismatch,
    /// Out of memory.
    NoMemory,
}

impl From<NoMemory> for FieldFault {
    ghost use Rattle.std.specs.Prelude.{◌≡◌};
    ghost use Rattle.member_rules.specs.declared.codec.fault.FieldFault.TheVariants.{NoMemory};

    ghost from_gives = { λ _ fault. fault ≡ NoMemory };

    fn from(_error: NoMemory) -> FieldFault {
        FieldFault::NoMemory
    }
}

impl From<TextFault> for FieldFault {
    ghost use Rattle.member_rules.specs.FieldFaults.{IsOfText};

    ghost from_gives = { IsOfText };

    fn from(fault: TextFault) -> FieldFault {
        match fault {
            TextFault::TooLong { length: _ } => FieldFault::Mismatch,
            TextFault::NotXmlChar { at: _ } => FieldFault::Mismatch,
            TextFault::NoMemory => FieldFault::NoMemory,
        }
    }
}

impl From<BaseFault> for FieldFault {
    ghost use Rattle.member_rules.specs.FieldFaults.{IsOfBase};

    ghost from_gives = { IsOfBase };

    fn from(fault: BaseFault) -> FieldFault {
        match fault {
            BaseFault::BadBase => FieldFault::Mismatch,
            BaseFault::NoMemory => FieldFault::NoMemory,
        }
    }
}
