//! A fetch of documents, as a trait.

ghost use Rattle.std.specs.Prelude.{◌≡◌, ◌≢◌, ◌≤◌, ◌∷◌, ◌++◌, [], Err, IfOk, IfSome, option_map, vec_len};
ghost use Rattle.atom_values.specs.Counts.{HasRisen};
ghost use Rattle.doc_source.specs.Fetch.{FetchState};
ghost use Rattle.doc_source.specs.Pile.{offer_limit};

use atom_values::NoMemory;
use std::alloc::{AllocError, Global};
use std::error::Error;
use std::fmt;

/// Why a fetch has no answer.
#[derive(Clone, Copy, Debug, PartialEq, Eq)]
pub enum GetFault {
    /// The call failed.
    Failed,
    /// Memory ran out.
    NoMemory,
}

impl fmt::Display for GetFault {
    fn fmt<W: fmt::Write>(&self, f: &mut fmt::Formatter<W>) -> fmt::Result {
        match self {
            GetFault::Failed => write!(f, "fetch fault"),
            GetFault::NoMemory => write!(f, "out of memory"),
        }
    }
}

impl Error for GetFault {}

impl From<AllocError> for GetFault {
    ghost use Rattle.std.specs.Prelude.{◌≡◌};
    ghost use Rattle.doc_source.specs.declared.fetch.GetFault.TheVariants.{NoMemory as LackOfMemory};

    ghost from_gives = { λ _ fault. fault ≡ LackOfMemory };

    fn from(_error: AllocError) -> GetFault {
        GetFault::NoMemory
    }
}

impl From<NoMemory> for GetFault {
    ghost use Rattle.std.specs.Prelude.{◌≡◌};
    ghost use Rattle.doc_source.specs.declared.fetch.GetFault.TheVariants.{NoMemory as LackOfMemory};

    ghost from_gives = { λ _ fault. fault ≡ LackOfMemory };

    fn from(_error: NoMemory) -> GetFault {
        GetFault::NoMemory
    }
}

/// The documents of a server, which are asked for by their addresses.
pub trait Fetch {
    /// Whether contracts can see the addresses that were asked and the answers.
    ghost observable: { Type 0 };

    /// The addresses that were asked, the answers, and the count of faults.
    ghost state: { Self → FetchState };

    /// Asks for the document of an address, and returns its bytes, at most 67,108,864, or `None` if the
    /// server has none. A longer document counts as a failure.
    ///
    /// - `Failed`: the call failed. It is counted as a fault.
    /// - `NoMemory`: memory ran out. Contracts don't count the address as asked.
    fn get(&mut self, alloc: Global, address: &[u8]) -> Result<Option<Vec<u8>>, GetFault>
        ensures asked { result ≢ Err GetFault.NoMemory → observable
            → (state self.new).asked ≡ (state self.old).asked ++ address.now ∷ [] }
        ensures unasked { result ≡ Err GetFault.NoMemory → observable
            → (state self.new).asked ≡ (state self.old).asked }
        ensures answers { (state self.new).answers ≡ (state self.old).answers }
        ensures answer { IfOk result (λ found. observable
            → option_map (λ bytes. bytes.items) found ≡ (state self.old).answers address.now) }
        ensures limit { IfOk result (λ found. IfSome found (λ bytes. vec_len bytes ≤ offer_limit)) }
        ensures later { (state self.old).faults ≤ (state self.new).faults }
        ensures failed { result ≡ Err GetFault.Failed → HasRisen (state self.old).faults (state self.new).faults }
        ensures worked { result ≢ Err GetFault.Failed → (state self.new).faults ≡ (state self.old).faults };
}
