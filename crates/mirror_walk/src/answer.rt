use atom_grammar::ReadFault;
use atom_values::{Bytes, NoMemory};
use chain_links::Address;
use deleted_entries::FeedId;
use feed_journal::DiskFault;
use std::error::Error;
use std::fmt;

/// The result of an offer that the mirror didn't refuse.
#[derive(Clone, Copy, Debug, PartialEq, Eq)]
pub enum Accepted {
    /// The document was new. The mirror holds it from now on.
    Taken,
    /// The mirror held the document already. Nothing changed.
    Known,
    /// The best subscription document held is newer than this one. Nothing changed.
    Stale,
}

/// Why a mirror didn't take an offered document. Any variant but `DiskFault` leaves the mirror as it was.
#[derive(Debug, PartialEq, Eq, Drop)]
pub enum Offered {
    /// The bytes are the text of no document. The first wrong piece begins at offset `at`.
    NotADocument {
        at: usize,
    },
    /// The document states another address than the one it was offered under, or an address outside the
    /// mirror's base. `says` is the address that it states.
    WrongAddress {
        says: Bytes,
    },
    /// The document belongs to the feed `given`, and the documents held belong to the feed `kept`.
    WrongFeed {
        kept: FeedId,
        given: FeedId,
    },
    /// The mirror holds other bytes of the archive with this number, or of the subscription document with the
    /// same `last`. `kept` and `given` are the SHA-256 digests of the bytes held and of those offered.
    Conflict {
        address: Address,
        kept: [u8; 32],
        given: [u8; 32],
    },
    /// The spans of the document and of a held neighbour in the chain don't adjoin: the older one ends at
    /// `older_last`, and the newer one begins at `newer_first`.
    Break {
        older_last: u32,
        newer_first: u32,
    },
    /// The mirror's area has `size` bytes, and no room for the document's `needed` bytes within its
    /// `capacity`.
    Full {
        size: u64,
        needed: u64,
        capacity: u64,
    },
    /// A device call failed. The mirror is spent: drop it and load it again.
    DiskFault,
    /// Out of memory.
    NoMemory,
}

impl fmt::Display for Offered {
    fn fmt<W: fmt::Write>(&self, f: &mut fmt::Formatter<W>) -> fmt::Result {
        match self {
            Offered::NotADocument { at } => {
                write!(
                    f,
                    "not a feed document: no piece of one begins at byte {at}"
                )
            }
            Offered::WrongAddress { .. } => write!(f, "the document has another address"),
            Offered::WrongFeed { .. } => write!(f, "the document is of another feed"),
            Offered::Conflict { .. } => write!(f, "another document is held at this address"),
            Offered::Break {
                older_last,
                newer_first,
            } => write!(
                f,
                "operation {newer_first} doesn't come right after operation {older_last}"
            ),
            Offered::Full {
                size,
                needed,
                capacity,
            } => write!(
                f,
                "{size} bytes have no room for {needed} within {capacity}"
            ),
            Offered::DiskFault => write!(f, "disk fault"),
            Offered::NoMemory => write!(f, "out of memory"),
        }
    }
}

impl Error for Offered {}

impl From<NoMemory> for Offered {
    ghost use Rattle.std.specs.Prelude.{◌≡◌};
    ghost use Rattle.mirror_walk.specs.declared.answer.Offered.TheVariants.{NoMemory};

    ghost from_gives = { λ _ refusal. refusal ≡ NoMemory };

    fn from(_error: NoMemory) -> Offered {
        Offered::NoMemory
    }
}

impl From<DiskFault> for Offered {
    ghost use Rattle.std.specs.Prelude.{◌≡◌};
    ghost use Rattle.mirror_walk.specs.declared.answer.Offered.TheVariants.{DiskFault as OfferFailed};

    ghost from_gives = { λ _ refusal. refusal ≡ OfferFailed };

    fn from(_fault: DiskFault) -> Offered {
        Offered::DiskFault
    }
}

impl From<ReadFault> for Offered {
    ghost use Rattle.mirror_walk.specs.Accept.{IsOfRead};

    ghost from_gives = { IsOfRead };

    fn from(fault: ReadFault) -> Offered {
        match fault {
            ReadFault::NotADocument { at } => Offered::NotADocument { at },
            ReadFault::NoMemory => Offered::NoMemory,
        }
    }
}

/// The state of a mirror: whether a document is missing, and what the documents show if none is.
#[derive(Clone, Copy, Debug, PartialEq, Eq)]
pub enum Outcome {
    /// No document is missing. `version` is the number of operations that the best subscription document ends
    /// with, and `live` the number of live members.
    Complete { version: u32, live: u32 },
    /// The first document that is missing.
    Missing { address: Address },
}
