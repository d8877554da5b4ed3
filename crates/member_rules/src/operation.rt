use crate::setting::Setting;
use atom_values::{Copies, Entry, NoMemory, Stamp};
use deleted_entries::Tombstone;
use std::alloc::Global;
use std::marker::Model;

/// The removal of a member: the member's tombstone, and the moment when the removal was accepted. The tombstone's
/// `when` isn't before that moment.
#[derive(Clone, Copy, Debug, PartialEq, Eq)]
pub struct Removal {
    pub tombstone: Tombstone,
    pub moment: Stamp,
}

impl Model for Removal {
    ghost use Rattle.std.specs.Prelude.{◌≤ℤ◌};
    ghost use Rattle.member_rules.specs.Removal.{RemovalValue};

    ghost Value = { RemovalValue };

    ghost view = { λ r. record { tombstone = r.tombstone; moment = r.moment } };

    ghost invariant = { λ r. r.moment ≤ℤ r.tombstone.when };

    ghost inverse = { λ v. record { tombstone = v.tombstone; moment = v.moment } };
}

impl Copies for Removal {
    ghost use Rattle.member_rules.specs.Removal.{IsRemoval};

    ghost rules = { IsRemoval };

    fn copy(&self, alloc: Global) -> Result<Removal, NoMemory> {
        Ok(Removal {
            tombstone: self.tombstone.copy(alloc)?,
            moment: self.moment.copy(alloc)?,
        })
    }
}

/// An accepted operation: on a member (RFC 5023 sections 9.2 to 9.4), or on a setting of the feed. A history is a list
/// of operations.
#[derive(Debug, Drop)]
pub enum Op {
    /// Makes a member with this entry.
    Add(Entry),
    /// Replaces a member's entry by this one.
    Change(Entry),
    /// Removes a member.
    Remove(Removal),
    /// Changes a setting, and names no member.
    Set { setting: Setting, moment: Stamp },
}

impl Op {
    ghost use Rattle.std.specs.Prelude.{◌≡◌};
    ghost use Rattle.member_rules.specs.Operation.{member_of, moment_of, number_of};

    /// The number of the member that the operation names, or 0 if it changes a setting.
    pub fn number(&self) -> u32
        ensures { result ≡ number_of self.now }
    {
        self.member().unwrap_or(0)
    }

    /// The number of the member that the operation names, or `None` if it changes a setting.
    pub fn member(&self) -> Option<u32>
        ensures { result ≡ member_of self.now }
    {
        match self {
            Op::Add(entry) | Op::Change(entry) => Some(entry.number),
            Op::Remove(removal) => Some(removal.tombstone.number),
            Op::Set { .. } => None,
        }
    }

    /// The moment when the operation was accepted.
    pub fn moment(&self) -> Stamp
        ensures { result ≡ moment_of self.now }
    {
        match self {
            Op::Add(entry) | Op::Change(entry) => entry.edited,
            Op::Remove(removal) => removal.moment,
            Op::Set { moment, .. } => *moment,
        }
    }
}

impl Copies for Op {
    ghost use Rattle.member_rules.specs.Operation.{IsOperation};

    ghost rules = { IsOperation };

    fn copy(&self, alloc: Global) -> Result<Op, NoMemory> {
        match self {
            Op::Add(entry) => Ok(Op::Add(entry.copy(alloc)?)),
            Op::Change(entry) => Ok(Op::Change(entry.copy(alloc)?)),
            Op::Remove(removal) => Ok(Op::Remove(removal.copy(alloc)?)),
            Op::Set { setting, moment } => Ok(Op::Set {
                setting: setting.copy(alloc)?,
                moment: moment.copy(alloc)?,
            }),
        }
    }
}
