ghost use Rattle.std.specs.Prelude.{◌≡◌, ◌+◌, ◌-◌, ◌<◌, [], ◌++◌, length, set, replicate, OnOk, OnErr};
ghost use Rattle.recency_list.specs.Links.{slot_at, unlisted};

use crate::steps::Steps;
use atom_values::NoMemory;
use std::alloc::Global;
use std::marker::Model;
use std::sync::ledger::Ledger;

/// A slot's neighbours in the list. `None` is an end of the list. A slot that isn't in the list has no neighbours.
#[derive(Clone, Copy, Debug, PartialEq, Eq)]
pub struct Slot {
    pub newer: Option<u32>,
    pub older: Option<u32>,
}

/// A slot that isn't in the list.
pub(crate) const UNLISTED: Slot = Slot {
    newer: None,
    older: None,
};

/// The slots. A write to one of them is a step.
#[derive(Debug, Drop)]
pub struct Slots {
    slots: Vec<Slot>,
}

impl Model for Slots {
    ghost use Rattle.std.specs.Prelude.{List};
    ghost use Rattle.recency_list.specs.declared.slots.Slot.{Slot};

    ghost Value = { List Slot };

    ghost view = { λ s. s.slots.items };
}

impl Slots {
    /// No slots. Takes no memory.
    pub fn new(alloc: Global) -> Slots
        ensures { result ≡ [] }
    {
        Slots {
            slots: Vec::new(alloc),
        }
    }

    /// The slot at an index.
    pub fn get(&self, at: u32) -> Slot
        requires { at < length self.now }
        ensures { result ≡ slot_at self.now at }
    {
        self.slots[at as usize]
    }

    /// Writes one slot, in one step.
    pub fn write<L: Ledger>(&mut self, at: u32, slot: Slot, steps: &mut Steps<L>)
        requires { at < length self.old }
        ensures slots { self.new ≡ set self.old at slot }
        ensures one { steps.new ≡ steps.old + 1 }
    {
        self.slots[at as usize] = slot;
        steps.tick();
    }

    /// Adds slots that aren't in the list, up to this number of them.
    ///
    /// Error: `NoMemory`, with the slots as before.
    pub fn grow(&mut self, count: u32) -> Result<(), NoMemory>
        ensures ok { OnOk result
            (self.new ≡ self.old ++ replicate (count - length self.old) unlisted) }
        ensures err { OnErr result (self.new ≡ self.old) }
    {
        let count = count as usize;
        if self.slots.len() < count {
            self.slots.resize(count, UNLISTED)?;
        }
        Ok(())
    }

    /// Takes every slot out of the list. The number of slots stays.
    pub fn clear(&mut self)
        ensures { self.new ≡ replicate (length self.old) unlisted }
    {
        self.slots.as_mut_slice().fill(UNLISTED);
    }
}
