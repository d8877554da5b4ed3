use atom_values::NoMemory;
use feed_journal::DiskFault;

/// Why a request isn't answered by its content: the disk or the memory failed.
#[derive(Clone, Copy, Debug, PartialEq, Eq)]
pub(crate) enum Failure {
    /// A device call failed. The store is spent.
    Disk,
    /// The disk gave something else than what the store has on it.
    Changed,
    /// Out of memory.
    NoMemory,
}

impl From<NoMemory> for Failure {
    ghost use Rattle.std.specs.Prelude.{◌≡◌};
    ghost use Rattle.document_server.specs.declared.failure.Failure.TheVariants.{NoMemory as OutOfMemory};

    ghost from_gives = { λ _ failure. failure ≡ OutOfMemory };

    fn from(_error: NoMemory) -> Failure {
        Failure::NoMemory
    }
}

impl From<DiskFault> for Failure {
    ghost use Rattle.std.specs.Prelude.{◌≡◌};
    ghost use Rattle.document_server.specs.declared.failure.Failure.TheVariants.{Disk};

    ghost from_gives = { λ _ failure. failure ≡ Disk };

    fn from(_error: DiskFault) -> Failure {
        Failure::Disk
    }
}
