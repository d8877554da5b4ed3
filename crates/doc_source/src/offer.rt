ghost use Rattle.std.specs.Prelude.{◌≡◌};

use atom_values::{Bytes, Copies, NoMemory};
use std::alloc::Global;

/// The bytes that are offered as the document of an address.
#[derive(Debug, Drop, PartialEq, Eq)]
pub struct Offer {
    pub address: Bytes,
    pub bytes: Bytes,
}

impl Copies for Offer {
    ghost rules = { λ offer. Unit {0} };

    fn copy(&self, alloc: Global) -> Result<Offer, NoMemory> {
        let address = self.address.copy(alloc)?;
        let bytes = self.bytes.copy(alloc)?;
        Ok(Offer { address, bytes })
    }
}
