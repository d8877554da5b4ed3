ghost use Rattle.std.specs.Prelude.{◌≡◌, ◌<◌, ◌≤◌, ◌^◌, ◌↔◌, IsTrue, Contains};
ghost use Rattle.atom_values.specs.Counts.{counted};
ghost use Rattle.atom_values.specs.ListedCalls.{next_call_fails, after_call};

use crate::many::Many;
use std::marker::Model;

/// The greatest number of calls in a list of those that fail.
pub const MAX_FAILING: u32 = 64;

/// Decides which calls of an object in memory fail, for tests of the code that calls it.
///
/// Keeps the numbers of the calls that fail, counted from 1, and counts the calls and the failures. A counter stays at
/// the greatest u64.
#[derive(Debug, Drop)]
pub struct ListedCalls {
    failing: Many<u64, MAX_FAILING>,
    made: u64,
    faults: u64,
}

impl Model for ListedCalls {
    ghost use Rattle.atom_values.specs.ListedCalls.{ListedCallsValue};

    ghost Value = { ListedCallsValue };

    ghost view = { λ c. record { failing = c.failing.items; made = c.made; faults = c.faults } };
}

impl ListedCalls {
    /// The state before the first call. The calls with the numbers in `failing`, counted from 1, will fail.
    pub fn new(failing: Many<u64, MAX_FAILING>) -> ListedCalls
        ensures { result ≡ record { failing = failing.items; made = 0; faults = 0 } }
    {
        ListedCalls {
            failing,
            made: 0,
            faults: 0,
        }
    }

    /// Counts one more call and returns whether it fails, which it does exactly if its number is in the list.
    pub fn next_fails(&mut self) -> bool
        ensures state { self.new ≡ after_call self.old }
        ensures fails { result ≡ next_call_fails self.old }
        ensures listed { IsTrue result ↔ Contains self.old.failing (counted self.old.made) }
        ensures later { self.old.faults ≤ self.new.faults }
    {
        self.made = self.made.saturating_add(1);
        let fails = self.failing.as_slice().contains(&self.made);
        if fails {
            self.count_failure();
        }
        fails
    }

    /// Counts a failure with another cause, as an object that can't grow since memory ran out.
    pub fn count_failure(&mut self)
        ensures state { self.new ≡ record self.old { faults = counted self.old.faults } }
        ensures later { self.old.faults ≤ self.new.faults }
    {
        self.faults = self.faults.saturating_add(1);
    }

    /// The number of calls that were made.
    pub fn made(&self) -> u64
        ensures calls { result ≡ self.now.made }
        ensures bound { self.now.made < 2 ^ 64 }
    {
        self.made
    }

    /// The number of failures.
    pub fn faults(&self) -> u64
        ensures failures { result ≡ self.now.faults }
        ensures bound { self.now.faults < 2 ^ 64 }
    {
        self.faults
    }
}
