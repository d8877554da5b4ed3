ghost use Rattle.std.specs.Prelude.{◌≡◌};
ghost use Rattle.coverage_certificate.specs.Digest.{IsDigest};

use atom_values::{Copies, NoMemory};
use chain_links::Address;
use std::alloc::Global;

/// A document that a certificate covers.
#[derive(Clone, Copy, Debug, PartialEq, Eq)]
pub struct CoverLine {
    /// The document's address below the certificate's base.
    pub address: Address,
    /// The SHA-256 digest of the document's bytes (FIPS 180-4).
    pub digest: [u8; 32],
}

impl Copies for CoverLine {
    ghost rules = { λ line. IsDigest line.digest };

    fn copy(&self, _alloc: Global) -> Result<CoverLine, NoMemory> {
        digest_fits(&self.digest);
        Ok(*self)
    }
}

// For the proof alone: no clause can say that the bytes of an array fit, and a loop that reads them can. It is
// compiled away.
pub(crate) fn digest_fits(digest: &[u8; 32])
    ensures { IsDigest digest.now }
{
    'bytes: for i in 0..32 {
        // By the read the proof knows that the byte is below 256.
        let _ = digest[i];
    }
}
