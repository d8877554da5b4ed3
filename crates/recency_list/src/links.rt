//! Changes of the links between slots. These functions take the fields of a `Recency`, since its invariant doesn't hold
//! between two writes.

ghost use Rattle.std.specs.Prelude.{◌≡◌, ◌≤◌, ◌+◌, ◌<◌, ◌∷◌, length, Some, false, ◌==◌};
ghost use Rattle.std.specs.List.{list_any};
ghost use Rattle.std.specs.Option.{ForSome};
ghost use Rattle.recency_list.specs.Links.{facing_newer_at, facing_older_at, IsOrder, listed};
ghost use Rattle.recency_list.specs.Recency.{without, TakesSteps};

use crate::slots::{Slot, Slots, UNLISTED};
use crate::steps::Steps;
use std::sync::ledger::Ledger;

/// Makes `newer` the newer neighbour of a slot, if there is one.
fn set_newer<L: Ledger>(
    slots: &mut Slots,
    at: Option<u32>,
    newer: Option<u32>,
    steps: &mut Steps<L>,
)
    requires { ForSome at (λ i. i < length slots.old) }
    ensures slots { slots.new ≡ facing_newer_at at newer slots.old }
    ensures cost { TakesSteps steps.old steps.new 1 }
{
    if let Some(at) = at {
        let slot = Slot {
            newer,
            older: slots.get(at).older,
        };
        slots.write(at, slot, steps);
    }
}

/// Makes `older` the older neighbour of a slot, if there is one.
fn set_older<L: Ledger>(
    slots: &mut Slots,
    at: Option<u32>,
    older: Option<u32>,
    steps: &mut Steps<L>,
)
    requires { ForSome at (λ i. i < length slots.old) }
    ensures slots { slots.new ≡ facing_older_at at older slots.old }
    ensures cost { TakesSteps steps.old steps.new 1 }
{
    if let Some(at) = at {
        let slot = Slot {
            newer: slots.get(at).newer,
            older,
        };
        slots.write(at, slot, steps);
    }
}

/// Whether a slot is in the list. One that is has a newer neighbour, unless it is the first.
fn is_listed(slots: &Slots, first: Option<u32>, slot: u32) -> bool
    requires exists { slot < length slots.now }
    requires order { IsOrder slots.now first (listed slots.now first) }
    ensures { result ≡ list_any (λ other. slot == other) (listed slots.now first) }
{
    first == Some(slot) || slots.get(slot).newer.is_some()
}

/// Takes a slot out of the list and returns the first slot of what is left.
pub fn unlink<L: Ledger>(
    slots: &mut Slots,
    first: Option<u32>,
    slot: u32,
    steps: &mut Steps<L>,
) -> Option<u32>
    requires exists { slot < length slots.old }
    requires order { IsOrder slots.old first (listed slots.old first) }
    ensures order { IsOrder slots.new result (without slot (listed slots.old first)) }
    ensures count { length slots.new ≡ length slots.old }
    ensures cost { TakesSteps steps.old steps.new 3 }
{
    if !is_listed(slots, first, slot) {
        return first;
    }
    let Slot { newer, older } = slots.get(slot);
    set_older(slots, newer, older, steps);
    set_newer(slots, older, newer, steps);
    slots.write(slot, UNLISTED, steps);
    match newer {
        None => older,
        Some(_) => first,
    }
}

/// Puts a slot that isn't in the list before the first one.
pub fn link_first<L: Ledger>(slots: &mut Slots, first: Option<u32>, slot: u32, steps: &mut Steps<L>)
    requires exists { slot < length slots.old }
    requires order { IsOrder slots.old first (listed slots.old first) }
    requires unlisted { list_any (λ other. slot == other) (listed slots.old first) ≡ false }
    ensures order { IsOrder slots.new (Some slot) (slot ∷ listed slots.old first) }
    ensures count { length slots.new ≡ length slots.old }
    ensures cost { TakesSteps steps.old steps.new 2 }
{
    set_newer(slots, first, Some(slot), steps);
    slots.write(
        slot,
        Slot {
            newer: None,
            older: first,
        },
        steps,
    );
}
