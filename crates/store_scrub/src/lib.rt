//! Looks for faults in a whole store, and makes its archives again from the journal.
//!
//! Begin with [`scrub`]. It writes nothing:
//!
//! ```
//! match scrub(alloc, &mut disk) {
//!     Ok(sound) => println!(rt; "sound {} {}", sound.records, sound.seals)?,
//!     Err(unsound) => println!(rt; "{unsound}")?,
//! }
//! ```
//!
//! If the journal is a history's, [`repair`] brings the sealed archives back. A crash within it leaves the journal and the
//! first seals that were right, so a repair after the crash ends with the same history.
//!
//! Stands on `feed_recovery` for the replay of the journal, and on `archive_sealer` for the archives.
#![tactic(auto)]

mod fault;
mod laws;
mod making;
mod repaired;
mod sound;

pub use fault::{RepairFault, Unsound};
pub use laws::{repairs_end_in_one_way, stores_are_sound_in_one_way};
pub use repaired::{Repaired, repair};
pub use sound::{Sound, scrub};
