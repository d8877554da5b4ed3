use atom_values::NoMemory;
use std::error::Error;
use std::fmt;
use xml_tokens::{TokenFault, TokenWhy};

/// Why bytes aren't read as a service document. The offset beside the reason is that of the element's `<`, unless the
/// variant says otherwise. Of one collection the first reason in this order counts.
#[derive(Clone, Copy, Debug, PartialEq, Eq)]
pub enum ServiceWhy {
    /// The bytes aren't UTF-8, or a token isn't allowed where it is. [`TokenWhy`] describes the reasons and their
    /// offsets. The greatest depth is [`MAX_SERVICE_DEPTH`](crate::MAX_SERVICE_DEPTH).
    Token(TokenWhy),
    /// The root isn't the `service` of the Atom Publishing Protocol.
    NotAService,
    /// A collection has no `href`, or one that makes no URL with the document's address.
    BadLink,
    /// One collection more than [`MAX_COLLECTIONS`](crate::MAX_COLLECTIONS).
    TooMany,
}

/// Why [`read_service`](crate::read_service) refused bytes.
#[derive(Clone, Copy, Debug, PartialEq, Eq)]
pub enum ServiceRead {
    /// The bytes are refused. `at` is an offset in the input.
    NotRead { at: usize, why: ServiceWhy },
    /// Out of memory.
    NoMemory,
}

impl fmt::Display for ServiceRead {
    fn fmt<W: fmt::Write>(&self, f: &mut fmt::Formatter<W>) -> fmt::Result {
        match self {
            ServiceRead::NotRead { at, why } => {
                write!(f, "not read as a service document: {why:?} at byte {at}")
            }
            ServiceRead::NoMemory => write!(f, "out of memory"),
        }
    }
}

impl Error for ServiceRead {}

impl From<TokenFault> for ServiceRead {
    ghost use Rattle.std.specs.Prelude.{◌≡◌};
    ghost use Rattle.service_reader.specs.ServiceReading.{service_fault};

    ghost from_gives = { λ fault read. read ≡ service_fault fault };

    fn from(fault: TokenFault) -> ServiceRead {
        match fault {
            TokenFault::NotRead { at, why } => ServiceRead::NotRead {
                at,
                why: ServiceWhy::Token(why),
            },
            TokenFault::NoMemory => ServiceRead::NoMemory,
        }
    }
}
