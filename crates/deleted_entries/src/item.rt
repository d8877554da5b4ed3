use atom_values::{Copies, Entry, NoMemory, Stamp};
use std::alloc::Global;
use std::marker::Model;

/// The record of a deleted member (RFC 6721 section 3). Keeps the member's number, from 1, and the time of the
/// deletion.
#[derive(Clone, Copy, Debug, PartialEq, Eq)]
pub struct Tombstone {
    pub number: u32,
    pub when: Stamp,
}

impl Model for Tombstone {
    ghost use Rattle.std.specs.Prelude.{◌≤◌};
    ghost use Rattle.deleted_entries.specs.Tombstone.{TombstoneValue};

    ghost Value = { TombstoneValue };

    ghost view = { λ t. record { number = t.number; when = t.when } };

    ghost invariant = { λ t. 1 ≤ t.number };

    ghost inverse = { λ v. record { number = v.number; when = v.when } };
}

impl Copies for Tombstone {
    ghost use Rattle.deleted_entries.specs.Tombstone.{IsTombstone};

    ghost rules = { IsTombstone };

    fn copy(&self, alloc: Global) -> Result<Tombstone, NoMemory> {
        Ok(Tombstone {
            number: self.number.copy(alloc)?,
            when: self.when.copy(alloc)?,
        })
    }
}

/// A document's item for one member.
#[derive(Debug, Drop)]
pub enum Item {
    /// The entry of a member that exists.
    Kept(Entry),
    /// The tombstone of a deleted member.
    Gone(Tombstone),
}

impl Item {
    ghost use Rattle.std.specs.Prelude.{◌≡◌, ◌≤◌};
    ghost use Rattle.deleted_entries.specs.Item.{item_number};

    /// The member's number, from 1.
    pub fn number(&self) -> u32
        ensures number { result ≡ item_number self.now }
        ensures from_one { 1 ≤ result }
    {
        match self {
            Item::Kept(entry) => entry.number,
            Item::Gone(tombstone) => tombstone.number,
        }
    }
}

impl Copies for Item {
    ghost use Rattle.deleted_entries.specs.Item.{IsItem};

    ghost rules = { IsItem };

    fn copy(&self, alloc: Global) -> Result<Item, NoMemory> {
        match self {
            Item::Kept(entry) => Ok(Item::Kept(entry.copy(alloc)?)),
            Item::Gone(tombstone) => Ok(Item::Gone(tombstone.copy(alloc)?)),
        }
    }
}
