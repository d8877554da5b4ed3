//! Listed calls that fail.

use atom_values::{ListedCalls, Many};

/// Whether a call fails, and the numbers of calls and of failures after it.
static CALLS: [(bool, u64, u64); 5] = [
    (false, 1, 0),
    (true, 2, 1),
    (false, 3, 1),
    (true, 4, 2),
    (false, 5, 2),
];

#[test]
fn fails_by_the_list(rt: HostRuntime) {
    // The numbers of calls are from 1, so the 0 in the list fails none.
    let mut failing = Many::new(rt.alloc());
    for number in [2, 0, 4, 2] {
        failing.push(number).expect(&rt, "a number");
    }
    let mut calls = ListedCalls::new(failing);
    assert!(rt; (calls.made(), calls.faults()) == (0, 0));
    for &(fails, made, faults) in &CALLS {
        let found = calls.next_fails();
        assert!(rt; (found, calls.made(), calls.faults()) == (fails, made, faults));
    }
    calls.count_failure();
    assert!(rt; (calls.made(), calls.faults()) == (5, 3));
    drop(calls);
}
