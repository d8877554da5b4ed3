use atom_values::NoMemory;
use doc_source::GetFault;
use service_reader::ServiceRead;

/// Why the document of an address has no defined end.
#[derive(Clone, Copy, Debug, PartialEq, Eq)]
pub(crate) enum DiscoverFault {
    /// The call of the source failed.
    FetchFault,
    /// The document is refused at this offset.
    BadService { at: usize },
    /// Memory ran out.
    NoMemory,
}

impl From<GetFault> for DiscoverFault {
    ghost use Rattle.std.specs.Prelude.{◌≡◌};
    ghost use Rattle.discover_command.specs.Ends.{get_fault};

    ghost from_gives = { λ fault given. given ≡ get_fault fault };

    fn from(fault: GetFault) -> DiscoverFault {
        match fault {
            GetFault::Failed => DiscoverFault::FetchFault,
            GetFault::NoMemory => DiscoverFault::NoMemory,
        }
    }
}

impl From<ServiceRead> for DiscoverFault {
    ghost use Rattle.std.specs.Prelude.{◌≡◌};
    ghost use Rattle.discover_command.specs.Ends.{read_fault};

    ghost from_gives = { λ fault given. given ≡ read_fault fault };

    fn from(fault: ServiceRead) -> DiscoverFault {
        match fault {
            ServiceRead::NotRead { at, .. } => DiscoverFault::BadService { at },
            ServiceRead::NoMemory => DiscoverFault::NoMemory,
        }
    }
}

impl From<NoMemory> for DiscoverFault {
    ghost use Rattle.std.specs.Prelude.{◌≡◌};
    ghost use Rattle.discover_command.specs.declared.fault.DiscoverFault.TheVariants.{NoMemory as OutOfMemory};

    ghost from_gives = { λ _ given. given ≡ OutOfMemory };

    fn from(_error: NoMemory) -> DiscoverFault {
        DiscoverFault::NoMemory
    }
}
