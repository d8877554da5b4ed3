ghost use Rattle.std.specs.Prelude.{◌≡◌};
ghost use Rattle.feed_drill.specs.Draws.{drawn, number_of};

use std::marker::Model;

/// The multiplier of the generator.
const MULTIPLIER: u64 = 6_364_136_223_846_793_005;

/// The increment of the generator.
const INCREMENT: u64 = 1_442_695_040_888_963_407;

/// The generator of a drill's numbers: a linear congruential generator modulo 2^64.
#[derive(Debug, Drop)]
pub struct Draws {
    state: u64,
}

impl Model for Draws {
    ghost use Rattle.std.specs.Prelude.{ℕ};

    ghost Value = { ℕ };

    ghost view = { λ d. d.state };
}

impl Draws {
    /// The generator whose first state is the seed.
    pub fn new(seed: u64) -> Draws
        ensures { result ≡ seed }
    {
        Draws { state: seed }
    }

    /// Draws a number: the high half of the next state.
    pub fn draw(&mut self) -> u32
        ensures next { self.new ≡ drawn self.old }
        ensures number { result ≡ number_of self.new }
    {
        self.state = self.state.wrapping_mul(MULTIPLIER).wrapping_add(INCREMENT);
        (self.state >> 32) as u32
    }
}
