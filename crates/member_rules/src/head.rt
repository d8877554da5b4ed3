use atom_values::{Copies, NoMemory, Stamp};
use atom_writer::FeedName;
use std::alloc::Global;
use std::marker::Model;

/// The newest format of a head's bytes, which a new feed has. Heads of the formats 1 and 2 have the same fields. Earlier
/// builds of the program wrote them, and knew no settings (1) or the title alone (2).
pub const NEWEST_FORMAT: u8 = 3;

/// The most operations of a window.
pub const WINDOW_LIMIT: u32 = 100;

/// The most bytes of a feed's title, and of its author.
pub const TITLE_LIMIT: usize = 1_024;

/// The fewest bytes that an area of a store may be limited to.
pub const CAPACITY_FLOOR: u64 = 4_096;

/// The most bytes that an area of a store may be limited to.
pub const CAPACITY_LIMIT: u64 = 1 << 36;

/// The head of a feed, which is chosen when the feed is made. It keeps
///
/// - the format of its bytes, 1 to `NEWEST_FORMAT`,
/// - the feed's name, whose title and author have at most `TITLE_LIMIT` bytes each,
/// - the number of operations of the first window, 1 to `WINDOW_LIMIT`,
/// - the number of bytes that an area of the feed's store may have, `CAPACITY_FLOOR` to `CAPACITY_LIMIT`, and
/// - the moment when the feed was made, which isn't before 1970.
///
/// Operations may change the title and the size of later windows ([`crate::Setting`]).
#[derive(Debug, Drop)]
pub struct Head {
    pub format: u8,
    pub name: FeedName,
    pub window: u32,
    pub capacity: u64,
    pub created: Stamp,
}

impl Model for Head {
    ghost use Rattle.member_rules.specs.Head.{HeadValue, KeepsLimits};

    ghost Value = { HeadValue };

    ghost view = { λ h. record {
      format = h.format;
      name = h.name;
      window = h.window;
      capacity = h.capacity;
      created = h.created;
    } };

    ghost invariant = { λ h. KeepsLimits record {
      format = h.format;
      name = h.name;
      window = h.window;
      capacity = h.capacity;
      created = h.created;
    } };
}

impl Copies for Head {
    ghost use Rattle.member_rules.specs.Head.{IsHead};

    ghost rules = { λ head. IsHead head };

    fn copy(&self, alloc: Global) -> Result<Head, NoMemory> {
        Ok(Head {
            format: self.format,
            name: self.name.copy(alloc)?,
            window: self.window,
            capacity: self.capacity,
            created: self.created.copy(alloc)?,
        })
    }
}
