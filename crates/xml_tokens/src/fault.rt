use atom_values::NoMemory;
use std::error::Error;
use std::fmt;

/// Why the tokens of bytes aren't read. The offset beside the reason is that of the token, unless the variant says
/// otherwise.
#[derive(Clone, Copy, Debug, PartialEq, Eq)]
pub enum TokenWhy {
    /// The bytes aren't UTF-8 (RFC 3629). The offset is that of the first sequence that isn't.
    ///
    /// Or the declaration names another encoding. The offset is that of the declaration.
    NotUtf8,
    /// There is a document type declaration. The offset is that of the declaration.
    Doctype,
    /// The bytes aren't a well-formed document (XML 1.0, Namespaces in XML 1.0). The offset is that of the first
    /// token that isn't allowed where it is, or the length of the input if the input ends too early.
    NotWellFormed,
    /// An element is nested deeper than the caller allows. The offset is that of its `<`.
    TooDeep,
}

/// Why [`Elements`](crate::Elements) reads no further.
#[derive(Clone, Copy, Debug, PartialEq, Eq)]
pub enum TokenFault {
    /// The bytes are refused. `at` is an offset in the input.
    NotRead { at: usize, why: TokenWhy },
    /// Out of memory.
    NoMemory,
}

impl fmt::Display for TokenFault {
    fn fmt<W: fmt::Write>(&self, f: &mut fmt::Formatter<W>) -> fmt::Result {
        match self {
            TokenFault::NotRead { at, why } => write!(f, "not read: {why:?} at byte {at}"),
            TokenFault::NoMemory => write!(f, "out of memory"),
        }
    }
}

impl Error for TokenFault {}

impl From<NoMemory> for TokenFault {
    ghost use Rattle.std.specs.Prelude.{◌≡◌};
    ghost use Rattle.xml_tokens.specs.declared.fault.TokenFault.TheVariants.{NoMemory as OutOfMemory};

    ghost from_gives = { λ _ fault. fault ≡ OutOfMemory };

    fn from(_error: NoMemory) -> TokenFault {
        TokenFault::NoMemory
    }
}
