use atom_values::NoMemory;
use std::error::Error;
use std::fmt;
use xml_tokens::{TokenFault, TokenWhy};

/// Why bytes aren't read as an entry. The offset beside the reason is that of the element's `<`, unless the
/// variant says otherwise.
#[derive(Clone, Copy, Debug, PartialEq, Eq)]
pub enum Why {
    /// The bytes aren't UTF-8 (RFC 3629). The offset is that of the first sequence that isn't.
    ///
    /// Or the declaration names another encoding. The offset is that of the declaration.
    NotUtf8,
    /// There is a document type declaration. The offset is that of the declaration.
    Doctype,
    /// The bytes aren't a well-formed document (XML 1.0, Namespaces in XML 1.0). The offset is that of the first
    /// token that isn't allowed where it is, or the length of the input if the input ends too early.
    NotWellFormed,
    /// An element is nested deeper than [`MAX_DEPTH`](crate::MAX_DEPTH).
    TooDeep,
    /// The root isn't Atom's `entry`, an element is inside a text, or a text construct has an unknown `type`.
    NotAnEntry,
    /// A text construct has the type `xhtml`.
    Xhtml,
    /// The content is elsewhere (`src`), or has a media type.
    OutOfLine,
    /// The entry is a draft (RFC 5023 section 13.1.1). The offset is that of `app:control`.
    Draft,
    /// The entry has no `title`, a person no `name`, a link no `href`, or a category no `term`.
    Missing,
    /// A second element of a name that may stand once.
    Twice,
    /// The text of a date states no timestamp.
    BadDate,
    /// One author, contributor, link or category more than an entry may have.
    TooMany,
}

impl From<TokenWhy> for Why {
    ghost use Rattle.std.specs.Prelude.{◌≡◌};
    ghost use Rattle.entry_reader.specs.Refusal.{why_of};

    ghost from_gives = { λ cause why. why ≡ why_of cause };

    fn from(cause: TokenWhy) -> Why {
        match cause {
            TokenWhy::NotUtf8 => Why::NotUtf8,
            TokenWhy::Doctype => Why::Doctype,
            TokenWhy::NotWellFormed => Why::NotWellFormed,
            TokenWhy::TooDeep => Why::TooDeep,
        }
    }
}

/// Why [`read_entry`](crate::read_entry) refused bytes.
#[derive(Clone, Copy, Debug, PartialEq, Eq)]
pub enum EntryFault {
    /// The bytes are refused. `at` is an offset in the input.
    NotRead { at: usize, why: Why },
    /// Out of memory.
    NoMemory,
}

impl fmt::Display for EntryFault {
    fn fmt<W: fmt::Write>(&self, f: &mut fmt::Formatter<W>) -> fmt::Result {
        match self {
            EntryFault::NotRead { at, why } => write!(
                f,
                "not read as an entry: {why:?} at byte {at}"
            ),
            EntryFault::NoMemory => write!(f, "out of memory"),
        }
    }
}

impl Error for EntryFault {}

impl From<TokenFault> for EntryFault {
    ghost use Rattle.std.specs.Prelude.{◌≡◌};
    ghost use Rattle.entry_reader.specs.Refusal.{entry_fault};

    ghost from_gives = { λ fault entry. entry ≡ entry_fault fault };

    fn from(fault: TokenFault) -> EntryFault {
        match fault {
            TokenFault::NotRead { at, why } => EntryFault::NotRead {
                at,
                why: Why::from(why),
            },
            TokenFault::NoMemory => EntryFault::NoMemory,
        }
    }
}

impl From<NoMemory> for EntryFault {
    ghost use Rattle.std.specs.Prelude.{◌≡◌};
    ghost use Rattle.entry_reader.specs.declared.fault.EntryFault.TheVariants.{NoMemory as OutOfMemory};

    ghost from_gives = { λ _ fault. fault ≡ OutOfMemory };

    fn from(_error: NoMemory) -> EntryFault {
        EntryFault::NoMemory
    }
}

/// Why the reading of a part ends early.
#[derive(Clone, Copy)]
pub(crate) enum EarlyEnd {
    /// An element is refused. A fault of a later token comes before it, so the tokens are read on.
    Refused { at: usize, why: Why },
    /// A token isn't allowed where it is, or memory ran out.
    Fault(TokenFault),
}

impl From<TokenFault> for EarlyEnd {
    ghost use Rattle.std.specs.Prelude.{◌≡◌};
    ghost use Rattle.entry_reader.specs.declared.fault.EarlyEnd.TheVariants.{Fault};

    ghost from_gives = { λ fault stop. stop ≡ Fault fault };

    fn from(fault: TokenFault) -> EarlyEnd {
        EarlyEnd::Fault(fault)
    }
}

impl From<NoMemory> for EarlyEnd {
    ghost use Rattle.std.specs.Prelude.{◌≡◌};
    ghost use Rattle.xml_tokens.specs.declared.fault.TokenFault.TheVariants.{NoMemory as OutOfMemory};
    ghost use Rattle.entry_reader.specs.declared.fault.EarlyEnd.TheVariants.{Fault};

    ghost from_gives = { λ _ stop. stop ≡ Fault OutOfMemory };

    fn from(_error: NoMemory) -> EarlyEnd {
        EarlyEnd::Fault(TokenFault::NoMemory)
    }
}
