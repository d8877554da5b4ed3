use atom_values::NoMemory;
use std::error::Error;
use std::fmt;
use xml_tokens::{TokenFault, TokenWhy};

/// Why bytes aren't read as a feed document. The offset beside the reason is that of the element's `<`, unless the
/// variant says otherwise. Of one element the first reason in this order counts.
#[derive(Clone, Copy, Debug, PartialEq, Eq)]
pub enum FeedWhy {
    /// The bytes aren't UTF-8, or a token isn't allowed where it is. [`TokenWhy`] describes the reasons and their
    /// offsets. The greatest depth is [`MAX_FEED_DEPTH`](crate::MAX_FEED_DEPTH).
    Token(TokenWhy),
    /// The root isn't Atom's `feed`.
    NotAFeed,
    /// The feed or an entry has no `id` or no `updated`, or a deleted entry no `ref` or no `when`.
    Missing,
    /// A second `id` or `updated` of the feed, or a second `id`, `updated` or `title` of an entry.
    Twice,
    /// The text of a date states no timestamp.
    BadDate,
    /// An identifier or a title has more than [`MAX_TEXT`](atom_values::MAX_TEXT) bytes.
    TooLong,
    /// The first link to the archive before has no `href`, or one that makes no URL with the document's address.
    BadLink,
    /// One entry or deleted entry more than [`MAX_ITEMS`](crate::MAX_ITEMS).
    TooMany,
}

/// Why [`read_feed`](crate::read_feed) refused bytes.
#[derive(Clone, Copy, Debug, PartialEq, Eq)]
pub enum ForeignRead {
    /// The bytes are refused. `at` is an offset in the input.
    NotRead { at: usize, why: FeedWhy },
    /// Out of memory.
    NoMemory,
}

impl fmt::Display for ForeignRead {
    fn fmt<W: fmt::Write>(&self, f: &mut fmt::Formatter<W>) -> fmt::Result {
        match self {
            ForeignRead::NotRead { at, why } => {
                write!(f, "not read as a feed: {why:?} at byte {at}")
            }
            ForeignRead::NoMemory => write!(f, "out of memory"),
        }
    }
}

impl Error for ForeignRead {}

impl From<TokenFault> for ForeignRead {
    ghost use Rattle.std.specs.Prelude.{◌≡◌};
    ghost use Rattle.feed_reader.specs.FeedReading.{foreign_fault};

    ghost from_gives = { λ fault read. read ≡ foreign_fault fault };

    fn from(fault: TokenFault) -> ForeignRead {
        match fault {
            TokenFault::NotRead { at, why } => ForeignRead::NotRead {
                at,
                why: FeedWhy::Token(why),
            },
            TokenFault::NoMemory => ForeignRead::NoMemory,
        }
    }
}

impl From<NoMemory> for ForeignRead {
    ghost use Rattle.std.specs.Prelude.{◌≡◌};
    ghost use Rattle.feed_reader.specs.declared.fault.ForeignRead.TheVariants.{NoMemory as OutOfMemory};

    ghost from_gives = { λ _ read. read ≡ OutOfMemory };

    fn from(_error: NoMemory) -> ForeignRead {
        ForeignRead::NoMemory
    }
}
