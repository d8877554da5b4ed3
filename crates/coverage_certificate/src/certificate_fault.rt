use atom_values::NoMemory;
use std::error::Error;
use std::fmt;

/// Why a text was not read as a certificate.
#[derive(Clone, Copy, Debug, PartialEq, Eq)]
pub enum CertificateFault {
    /// The text isn't that of a certificate. `line` is the first line that is refused, counted from 1.
    BadCertificate { line: u32 },
    /// Memory ran out.
    NoMemory,
}

impl fmt::Display for CertificateFault {
    fn fmt<W: fmt::Write>(&self, f: &mut fmt::Formatter<W>) -> fmt::Result {
        match self {
            CertificateFault::BadCertificate { line } => {
                write!(f, "not a certificate: bad line {line}")
            }
            CertificateFault::NoMemory => write!(f, "out of memory"),
        }
    }
}

impl Error for CertificateFault {}

impl From<NoMemory> for CertificateFault {
    ghost use Rattle.std.specs.Prelude.{◌≡◌};
    ghost use Rattle.coverage_certificate.specs.declared.certificate_fault.CertificateFault.TheVariants.{NoMemory as LackOfMemory};

    ghost from_gives = { λ _ fault. fault ≡ LackOfMemory };

    fn from(_error: NoMemory) -> CertificateFault {
        CertificateFault::NoMemory
    }
}
