use crate::decision::ENTRY_LIMIT;
use atom_values::{AtomText, Stamp};
use std::error::Error;
use std::fmt;

/// Why [`crate::decide`] refuses an ask.
#[derive(Debug, Drop)]
pub enum RuleFault {
    /// No member with this number was ever made.
    NotFound { number: u32 },
    /// The member was deleted at this moment.
    Deleted { number: u32, when: Stamp },
    /// The draft that replaces the member's entry has another identifier than the member.
    OtherId { number: u32, given: AtomText },
    /// The operation's moment would be past the greatest stamp. It has to be later than `last`, the moment of the last
    /// operation, and the clock is at `now` milliseconds since 1970.
    ClockSpent { last: Stamp, now: u64 },
    /// The entry's piece of a document would have this length in bytes, which is more than [`crate::ENTRY_LIMIT`].
    TooLarge { length: u64 },
    /// Memory ran out. `decide` never answers this; it is for calls that pass its refusals on.
    NoMemory,
}

impl fmt::Display for RuleFault {
    fn fmt<W: fmt::Write>(&self, f: &mut fmt::Formatter<W>) -> fmt::Result {
        match self {
            RuleFault::NotFound { number } => write!(f, "there is no member {number}"),
            RuleFault::Deleted { number, .. } => write!(f, "member {number} was deleted"),
            RuleFault::OtherId { number, .. } => {
                write!(f, "the entry has another identifier than member {number}")
            }
            RuleFault::ClockSpent { .. } => write!(f, "no later timestamp is left"),
            RuleFault::TooLarge { length } => write!(
                f,
                "the entry takes {length} bytes, and at most {ENTRY_LIMIT} are allowed"
            ),
            RuleFault::NoMemory => write!(f, "out of memory"),
        }
    }
}

impl Error for RuleFault {}
