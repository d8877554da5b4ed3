ghost use Rattle.std.specs.Prelude.{◌≡◌, ℕ, ◌+◌};
ghost use Rattle.std.specs.Borrow.{ftrue};

use std::marker::Model;

/// A number that only contracts see. It takes no bytes.
#[derive(Drop)]
pub(crate) struct Ticks {
    pub(crate) ghost count: { ℕ },
}

impl Model for Ticks {
    // A number owns nothing. The member is here because only a type with it may have a ghost field that is data.
    ghost also_owns = { λ _. ftrue };
}

impl Ticks {
    /// The number 0.
    pub(crate) fn new() -> Ticks
        ensures { result.count ≡ 0 }
    {
        Ticks {}
    }

    /// The next number.
    pub(crate) fn after(_before: &Ticks) -> Ticks
        ensures { result.count ≡ _before.now.count + 1 }
    {
        Ticks {}
    }
}
