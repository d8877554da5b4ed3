//! The command `scrub`, which says whether the store of a disk is sound, and `scrub --repair`, which makes its archives
//! again.
//!
//! Begin with [`scrub`], which writes nothing:
//!
//! ```
//! let line = scrub(alloc, &mut disk)?;
//! assert_eq!(rt; line.as_slice(), b"sound 13 3\n".as_slice());
//! ```
//!
//! [`repair`] makes the archives again from the journal. A crash within it loses no operation, and none of the first
//! archives that were right. `specs/Answer.antt` says which answers a disk has, and what a repair leaves. The laws in
//! `laws.rt` state that the disk determines the answer of a sound store and the end of a repair.
//!
//! Stands on `store_scrub` for the look at the store and for the repair, and on `command_ends` for faults and their
//! lines.
#![tactic(auto)]

mod fault;
mod laws;
mod line;
mod repaired;
mod sound;

pub use laws::{repairs_have_one_end, sound_stores_have_one_answer};
pub use repaired::repair;
pub use sound::scrub;
