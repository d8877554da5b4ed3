ghost use Rattle.std.specs.Prelude.{◌≡◌, OnOk, []};
ghost use Rattle.feed_drill.specs.Effects.{noted};

use crate::draws::Draws;
use crate::wish::Wish;
use atom_values::NoMemory;
use std::alloc::Global;
use std::marker::Model;

/// The generator of a drill, and the members that it has made.
#[derive(Debug, Drop)]
pub(crate) struct Course {
    pub(crate) draws: Draws,
    /// The numbers of the live members, in order.
    pub(crate) live: Vec<u32>,
    /// How many members were made.
    pub(crate) made: u32,
}

impl Model for Course {
    ghost use Rattle.feed_drill.specs.Effects.{CourseValue};

    ghost Value = { CourseValue };

    ghost view = { λ c. record { state = c.draws; live = c.live.items; made = c.made } };
}

impl Course {
    /// Before the first turn.
    pub(crate) fn new(alloc: Global, seed: u64) -> Course
        ensures { result ≡ record { state = seed; live = []; made = 0 } }
    {
        Course {
            draws: Draws::new(seed),
            live: Vec::new(alloc),
            made: 0,
        }
    }

    /// Notes a change that was made.
    pub(crate) fn note(&mut self, wish: Wish) -> Result<(), NoMemory>
        ensures { OnOk result (self.new ≡ noted self.old wish) }
    {
        match wish {
            Wish::Create => {
                // There are fewer members than operations.
                let Some(made) = self.made.checked_add(1) else {
                    return Err(NoMemory);
                };
                self.live.push(made)?;
                self.made = made;
            }
            Wish::Replace(_) => {}
            Wish::Delete(number) => self.live.retain(|other| *other != number),
        }
        Ok(())
    }
}
