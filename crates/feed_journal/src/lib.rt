//! A log of payloads in one area of a disk, which a crash leaves whole.
//!
//! Begin with `Log::load`. Before an append, make the payload's form and the room, so that the append itself
//! takes no memory:
//!
//! ```
//! let mut log = Log::load(alloc, &mut disk, Area::Journal)?;
//! let framed = Framed::of(alloc, b"payload")?;
//! log.reserve()?;
//! if log.fits(&framed, capacity) {
//!     log.append(&mut disk, &framed)?;
//! }
//! ```
//!
//! Each payload is in a frame that begins with a gate. An append writes the frame with a closed gate, syncs
//! it, then opens the gate and syncs that. So at each moment within it a crash leaves the list before or the
//! list with the new payload. `Log::load` recovers exactly the payloads of the area, and `Log::read` returns
//! them. `Log::read_part` returns a part of a payload without reading the rest.
//!
//! A log keeps 16 bytes for each payload. A caller that needs few of the payloads again reads all of them once, by
//! [`FrameReader`], and goes on with [`Frames`], which keep none.
//!
//! After `DiskFault` a log and frames are spent: drop them and load them again.
//!
//! The crate stands on the trait `Disk` of `feed_disk` and the failures of `atom_values`.
#![tactic(auto)]

mod ahead;
mod append;
mod extent;
mod extents;
mod fault;
mod framed;
mod frames;
mod laws;
mod limits;
mod log;
mod read;
mod reader;
mod scan;
mod settle;
mod synced_write;

pub use extent::Extent;
#[doc(hidden)]
pub use extents::Extents;
pub use fault::{DiskFault, LogFault};
pub use framed::Framed;
pub use frames::Frames;
pub use laws::begun_images_are_whole;
pub use log::Log;
pub use reader::{Frame, FrameReader};
