ghost use Rattle.std.specs.Prelude.{◌≡◌, ℕ, ◌+◌};

/// A clock, in milliseconds since 1970-01-01T00:00:00Z. It may go back, and never fails.
pub trait Clock {
    /// Whether contracts can see the moments of the clock.
    ghost observable: { Type 0 };

    /// The moments that the coming calls return, in order.
    ghost coming: { Self → ℕ → ℕ };

    /// Returns the moment.
    fn now(&mut self) -> u64
        ensures moment { observable → result ≡ coming self.old 0 }
        ensures later { observable → (k : ℕ) → coming self.new k ≡ coming self.old (k + 1) };
}
