//! A feed's store: a journal of accepted operations and the seals of its full windows, which reopen as one
//! history.
//!
//! Begin with [`Store::load`], over a disk on which [`Store::init`] made a store:
//!
//! ```
//! let mut store = Store::load(alloc, &mut disk)?;
//! let ready = store.prepare(Ask::Create(draft), clock.now())?;
//! let version = store.commit(&mut disk, ready)?;
//! assert_eq!(rt; version, store.version());
//! ```
//!
//! After a crash at any moment the store reopens as a prefix of its operations. The prefix has each committed
//! operation, and each seal is as it was. `specs/Opening.antt` says what the two areas mean together, and
//! `specs/Settled.antt` what a crash may leave.
//!
//! After `DiskFault` the store is spent: drop it and load it again.
//!
//! Stands on `feed_journal` for the logs, and on `member_rules` and `archive_sealer` for operations and
//! documents.
#![tactic(auto)]

mod commit;
mod documents;
mod fault;
mod init;
mod laws;
mod load;
mod places;
mod prepare;
mod replay;
mod replayed;
mod store;

pub use fault::{ArchiveFault, InitFault, LoadFault, MemberFault, PrepareFault};
pub use laws::stores_open_in_one_way;
pub use prepare::Ready;
pub use replayed::Replayed;
pub use store::Store;
