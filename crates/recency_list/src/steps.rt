ghost use Rattle.std.specs.Prelude.{◌≡◌, ◌+◌};

use crate::ticks::Ticks;
use std::marker::{Model, PhantomData};
use std::sync::ledger::Ledger;

/// The number of writes to slots. It takes no bytes, and only contracts see it. `L` names whose count it is.
#[derive(Drop)]
pub struct Steps<L: Ledger> {
    owner: PhantomData<L>,
    ticks: Ticks,
}

impl<L: Ledger> Model for Steps<L> {
    ghost use Rattle.std.specs.Prelude.{ℕ};

    ghost Value = { ℕ };

    ghost view = { λ s. s.ticks.count };
}

impl<L: Ledger> Steps<L> {
    /// A counter at 0. Takes no memory.
    ///
    /// A caller that doesn't count makes one of its own, as a `Steps::<Brand>`.
    pub fn new() -> Steps<L>
        ensures { result ≡ 0 }
    {
        Steps {
            owner: PhantomData,
            ticks: Ticks::new(),
        }
    }

    /// Counts one write.
    pub(crate) fn tick(&mut self)
        ensures { self.new ≡ self.old + 1 }
    {
        self.ticks = Ticks::after(&self.ticks);
    }
}
