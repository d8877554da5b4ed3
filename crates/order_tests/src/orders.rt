//! Orders after changes.

ghost use Rattle.std.specs.Prelude.{◌≡◌, ◌≤◌};

use crate::changes::{Change, SLOTS, change_plain, make, random, walked};
use recency_list::Recency;
use std::alloc::Global;
use std::process::Abort;

/// An order over `SLOTS` slots.
fn order_of(rt: &impl Abort, alloc: Global) -> Recency
    ensures { SLOTS ≤ result.slots }
{
    let mut order = Recency::new(alloc);
    order.reserve(SLOTS).expect(rt, "memory");
    order
}

/// The list after each change in turn.
fn list_after(rt: &impl Abort, alloc: Global, changes: &[Change]) -> Vec<u32> {
    let mut order = order_of(rt, alloc);
    for &made in changes {
        make(&mut order, made);
    }
    walked(rt, alloc, &order)
}

/// Changes, and the list after them.
static EDGES: [(&[Change], &[u32]); 12] = [
    (&[], &[]),
    (&[Change::Touch(0)], &[0]),
    (&[Change::Touch(0), Change::Touch(0)], &[0]),
    (&[Change::Touch(0), Change::Remove(0)], &[]),
    (&[Change::Remove(0)], &[]),
    (&[Change::Touch(0), Change::Remove(1)], &[0]),
    (
        &[
            Change::Touch(2),
            Change::Touch(1),
            Change::Touch(0),
            Change::Touch(0),
        ],
        &[0, 1, 2],
    ),
    (
        &[
            Change::Touch(2),
            Change::Touch(1),
            Change::Touch(0),
            Change::Touch(1),
        ],
        &[1, 0, 2],
    ),
    (
        &[
            Change::Touch(2),
            Change::Touch(1),
            Change::Touch(0),
            Change::Touch(2),
        ],
        &[2, 0, 1],
    ),
    (
        &[
            Change::Touch(2),
            Change::Touch(1),
            Change::Touch(0),
            Change::Remove(1),
        ],
        &[0, 2],
    ),
    (&[Change::Touch(1), Change::Touch(0), Change::Clear], &[]),
    (
        &[
            Change::Touch(1),
            Change::Touch(0),
            Change::Clear,
            Change::Touch(1),
        ],
        &[1],
    ),
];

#[test]
fn moves_and_takes_out_slots(rt: HostRuntime) {
    for &(changes, list) in &EDGES {
        let found = list_after(&rt, rt.alloc(), changes);
        assert!(rt; found.as_slice() == list);
    }
}

#[test]
fn follows_a_plain_list(rt: HostRuntime) {
    let mut order = order_of(&rt, rt.alloc());
    let mut plain = Vec::new(rt.alloc());
    for &made in &random(&rt, rt.alloc()) {
        make(&mut order, made);
        change_plain(&rt, &mut plain, made);
        let found = walked(&rt, rt.alloc(), &order);
        assert!(rt; found == plain);
    }
}

#[test]
fn keeps_its_list_as_it_grows(rt: HostRuntime) {
    let mut order = order_of(&rt, rt.alloc());
    make(&mut order, Change::Touch(3));
    make(&mut order, Change::Touch(1));
    for slots in [0, SLOTS, 4 * SLOTS] {
        assert!(rt; order.reserve(slots) == Ok(()));
        assert!(rt; walked(&rt, rt.alloc(), &order).as_slice() == [1, 3].as_slice());
    }
}
