ghost use Rattle.std.specs.Prelude.{◌≡◌, ◌+◌, ◌-◌, ◌≤◌, ◌++◌, ◌∷◌, [], List, ℤ, length, OnOk, slice_get};
ghost use Rattle.feed_journal.specs.declared.extent.Extent.{Extent as ExtentValue};
ghost use Rattle.feed_recovery.specs.Places.{ArePlaces, MayPlace};
ghost use Rattle.member_rules.specs.History.{AreFollowing, MayFollow};
ghost use Rattle.member_rules.specs.declared.operation.Op.{Op as Operation};

use atom_values::NoMemory;
use feed_journal::Extent;
use member_rules::Op;
use std::alloc::Global;
use std::marker::Model;

/// Where the journal has the entry of each live member. It takes 16 bytes for each member that was ever made, and nothing
/// for any other operation.
#[derive(Debug, Drop)]
pub(crate) struct Places {
    /// By the members' numbers, from 1. A member that was deleted keeps the place of its last entry.
    extents: Vec<Extent>,
}

impl Model for Places {
    ghost use Rattle.std.specs.Prelude.{◌-◌, vec_len, vec_capacity};
    ghost use Rattle.feed_recovery.specs.Places.{PlacesValue};

    ghost Value = { PlacesValue };

    ghost view = { λ p. record {
      extents = p.extents.items;
      spare = vec_capacity p.extents - vec_len p.extents;
    } };
}

impl Places {
    /// The places of no members. Takes no memory.
    pub(crate) fn new(alloc: Global) -> Places
        ensures { result.extents ≡ [] }
    {
        Places {
            extents: Vec::new(alloc),
        }
    }

    /// Makes room for one more operation.
    pub(crate) fn prepare(&mut self) -> Result<(), NoMemory>
        ensures room { OnOk result (1 ≤ self.new.spare) }
        ensures same { self.new ≡ record self.old { spare = self.new.spare } }
        ensures spare { self.old.spare ≤ self.new.spare }
    {
        self.extents.reserve(1)?;
        Ok(())
    }

    /// Takes over the place of an operation's payload, in the room that `prepare` made.
    pub(crate) fn commit(&mut self, operation: &Op, extent: Extent)
        requires room { 1 ≤ self.old.spare }
        requires follows { MayPlace self.old.extents operation.now }
        ensures places { (created : ℤ) (history : List Operation) (journal : List ExtentValue)
            → ArePlaces self.old.extents history journal
            → AreFollowing created history → MayFollow created history operation.now
            → length journal ≡ length history + 1
            → ArePlaces self.new.extents (history ++ operation.now ∷ []) (journal ++ extent ∷ []) }
    {
        match operation {
            Op::Add(_) => self.extents.push(extent).unwrap(),
            Op::Change(entry) => self.extents[entry.number as usize - 1] = extent,
            Op::Remove(_) => {}
            Op::Set { .. } => {}
        }
    }

    /// The place of the last entry of the member with this number.
    pub(crate) fn get(&self, number: u32) -> Option<Extent>
        requires { 1 ≤ number }
        ensures { result ≡ slice_get self.now.extents (number - 1) }
    {
        self.extents.get(number as usize - 1).copied()
    }
}
