//! Changes of an order and of a plain list.

ghost use Rattle.std.specs.Prelude.{◌≡◌, ◌≤◌};

use recency_list::{Recency, Steps};
use std::alloc::Global;
use std::marker::Brand;
use std::process::Abort;

/// The number of slots.
pub const SLOTS: u32 = 6;

/// The number of random changes.
const RANDOM: u32 = 200;

/// A change of an order. A slot counts modulo `SLOTS`.
#[derive(Clone, Copy, Debug, PartialEq, Eq)]
pub enum Change {
    Touch(u32),
    Remove(u32),
    Clear,
}

/// Makes a change, with a counter of its own.
pub fn make(order: &mut Recency, change: Change)
    requires { SLOTS ≤ order.old.slots }
    ensures { order.new.slots ≡ order.old.slots }
{
    let mut steps = Steps::<Brand>::new();
    match change {
        Change::Touch(slot) => order.touch(slot % SLOTS, &mut steps),
        Change::Remove(slot) => order.remove(slot % SLOTS, &mut steps),
        Change::Clear => order.clear(),
    }
}

/// Makes the same change of a plain list.
pub fn change_plain(rt: &impl Abort, list: &mut Vec<u32>, change: Change) {
    match change {
        Change::Touch(slot) => {
            list.retain(|other| *other != slot % SLOTS);
            list.insert(0, slot % SLOTS).expect(rt, "memory");
        }
        Change::Remove(slot) => list.retain(|other| *other != slot % SLOTS),
        Change::Clear => list.clear(),
    }
}

/// The list of an order, walked from the front.
pub fn walked(rt: &impl Abort, alloc: Global, order: &Recency) -> Vec<u32> {
    let mut list = Vec::new(alloc);
    let mut next = order.front();
    'walk: for _index in 0..SLOTS {
        match next {
            Some(slot) => {
                list.push(slot).expect(rt, "memory");
                next = order.older(slot);
            }
            None => return list,
        }
    }
    assert!(rt; next.is_none(), "the list has a double");
    list
}

/// Touches and removes of slots by a linear congruential generator, with twice as many touches.
pub fn random(rt: &impl Abort, alloc: Global) -> Vec<Change> {
    let mut changes = Vec::new(alloc);
    let mut seed: u32 = 20_261_130;
    for _index in 0..RANDOM {
        seed = seed.wrapping_mul(1_664_525).wrapping_add(1_013_904_223);
        let slot = seed >> 16;
        let made = if (seed >> 8) % 3 == 0 {
            Change::Remove(slot)
        } else {
            Change::Touch(slot)
        };
        changes.push(made).expect(rt, "memory");
    }
    changes
}
