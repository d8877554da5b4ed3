//! A disk of three areas whose contracts say what a crash leaves.
//!
//! Begin with `MemoryDisk::new`, write and sync as on any `Disk`, and ask `MemoryDisk::image` for the disk
//! that a crash leaves:
//!
//! ```
//! let mut disk = MemoryDisk::new(alloc, journal, sealed, mirror, Many::new(alloc));
//! disk.write(Area::Journal, 0, b"unsynced")?;
//! let after = disk.image(disk.calls(), &Choice::Old)?;
//! ```
//!
//! The trait `Disk` promises for each moment, within and between device calls, which images a crash may leave
//! of each area. `MemoryDisk` is proved to keep that promise. `MemoryDisk::image` makes one of those images,
//! and some choice makes each of them.
//!
//! `FileDisk` is the disk of three files in a folder. Contracts can't see their content, so of this disk the
//! counters alone are proved.
//!
//! The crate stands on the lists, the bytes and `ListedCalls` of `atom_values`.
#![tactic(auto)]

mod area;
mod area_file;
mod area_record;
mod areas;
mod change;
mod choice;
mod disk;
mod disk_counts;
mod file_disk;
mod folder;
mod image;
mod memory;
mod overwrite;

pub use area::Area;
pub use choice::Choice;
pub use disk::Disk;
pub use file_disk::FileDisk;
pub use memory::MemoryDisk;
