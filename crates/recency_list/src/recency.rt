ghost use Rattle.std.specs.Prelude.{◌≡◌, ◌<◌, ◌∷◌, [], max, Contains, IfSome, OnOk, OnErr};
ghost use Rattle.recency_list.specs.Recency.{HasNoDoubles, TakesSteps, first_of, older_than, touched, without};

use crate::links::{link_first, unlink};
use crate::slots::Slots;
use crate::steps::Steps;
use atom_values::NoMemory;
use std::alloc::Global;
use std::marker::Model;
use std::sync::ledger::Ledger;

/// A list of slots without doubles, the newest first, and the number of slots that exist.
#[derive(Debug, Drop)]
pub struct Recency {
    slots: Slots,
    first: Option<u32>,
}

impl Model for Recency {
    ghost use Rattle.std.specs.Prelude.{length};
    ghost use Rattle.recency_list.specs.Links.{IsOrder, listed};
    ghost use Rattle.recency_list.specs.Recency.{RecencyValue};

    ghost Value = { RecencyValue };

    ghost view = { λ r. record { list = listed r.slots r.first; slots = length r.slots } };

    ghost invariant = { λ r. IsOrder r.slots r.first (listed r.slots r.first) };
}

impl Recency {
    /// The empty list, over no slots. Takes no memory.
    pub fn new(alloc: Global) -> Recency
        ensures { result ≡ record { list = []; slots = 0 } }
    {
        Recency {
            slots: Slots::new(alloc),
            first: None,
        }
    }

    /// Makes at least this number of slots exist. The list stays.
    ///
    /// Error: `NoMemory`, with the slots as before.
    pub fn reserve(&mut self, slots: u32) -> Result<(), NoMemory>
        ensures ok { OnOk result
            (self.new ≡ record self.old { slots = max self.old.slots slots }) }
        ensures err { OnErr result (self.new ≡ self.old) }
    {
        self.slots.grow(slots)
    }

    /// Moves a slot to the front of the list, or adds it there. The others keep their order. Takes no memory, and at most
    /// six writes to slots.
    pub fn touch<L: Ledger>(&mut self, slot: u32, steps: &mut Steps<L>)
        requires { slot < self.old.slots }
        ensures list { self.new ≡ record self.old { list = touched slot self.old.list } }
        ensures rules { HasNoDoubles self.new }
        ensures cost { TakesSteps steps.old steps.new 6 }
    {
        let first = unlink(&mut self.slots, self.first, slot, steps);
        link_first(&mut self.slots, first, slot, steps);
        self.first = Some(slot);
    }

    /// Takes a slot out of the list, if it is there. The others keep their order. Takes no memory, and at most six writes
    /// to slots.
    pub fn remove<L: Ledger>(&mut self, slot: u32, steps: &mut Steps<L>)
        requires { slot < self.old.slots }
        ensures list { self.new ≡ record self.old { list = without slot self.old.list } }
        ensures rules { HasNoDoubles self.new }
        ensures cost { TakesSteps steps.old steps.new 6 }
    {
        self.first = unlink(&mut self.slots, self.first, slot, steps);
    }

    /// Empties the list. The slots stay. Takes no memory, and time in the number of slots.
    pub fn clear(&mut self)
        ensures { self.new ≡ record self.old { list = [] } }
    {
        self.slots.clear();
        self.first = None;
    }

    /// The newest slot in the list, or `None` if the list is empty.
    pub fn front(&self) -> Option<u32>
        ensures front { result ≡ first_of self.now.list }
        ensures listed { IfSome result (Contains self.now.list) }
        ensures rules { HasNoDoubles self.now }
    {
        self.first
    }

    /// The slot after this one in the list, or `None` after the last.
    pub fn older(&self, slot: u32) -> Option<u32>
        requires { Contains self.now.list slot }
        ensures next { result ≡ older_than slot self.now.list }
        ensures listed { IfSome result (Contains self.now.list) }
        ensures rules { HasNoDoubles self.now }
    {
        self.slots.get(slot).older
    }
}
