use crate::setting::Setting;
use atom_values::{Copies, Draft, NoMemory};
use std::alloc::Global;

/// A request to change the feed: of a client (RFC 5023 section 9), or of the operator. [`crate::decide`] turns it into
/// an operation.
#[derive(Debug, Drop)]
pub enum Ask {
    /// Make a member of this draft.
    Create(Draft),
    /// Replace the entry of the member with this number.
    Replace { number: u32, draft: Draft },
    /// Remove the member with this number.
    Delete { number: u32 },
    /// Change this setting of the feed.
    Change(Setting),
}

impl Copies for Ask {
    ghost use Rattle.member_rules.specs.Ask.{IsAsk};

    ghost rules = { IsAsk };

    fn copy(&self, alloc: Global) -> Result<Ask, NoMemory> {
        match self {
            Ask::Create(draft) => Ok(Ask::Create(draft.copy(alloc)?)),
            Ask::Replace { number, draft } => Ok(Ask::Replace {
                number: number.copy(alloc)?,
                draft: draft.copy(alloc)?,
            }),
            Ask::Delete { number } => Ok(Ask::Delete {
                number: number.copy(alloc)?,
            }),
            Ask::Change(setting) => Ok(Ask::Change(setting.copy(alloc)?)),
        }
    }
}
