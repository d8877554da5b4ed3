//! The rules on the members of a feed: the operation that an ask becomes, the members after a history, the documents of
//! a history, and the bytes of operations and heads. Stands on `atom_writer` and `recency_list`.
//!
//! - [`decide`] is exactly the decision that specs/ defines.
//! - [`Members`] answers what the fold of a history does, and keeps the members in the order of their last operations.
//! - The documents of a history show exactly its live entries: [`chain_shows_the_fold`] and the laws beside it.
//! - [`op_bytes`] and [`head_bytes`] write operations and heads as bytes, and [`read_op`] and [`read_head`] read
//!   exactly these bytes.
//!
//! Begin with [`decide`], over a table of the members:
//!
//! ```
//! let mut members = Members::new(alloc, head.created);
//! members.prepare()?;
//! let operation = decide(&members, &head.name, Ask::Create(draft), clock.now())?;
//! members.commit(&operation);
//! assert!(matches!(members.state(1), State::Live { version: 1, .. }));
//! ```
#![tactic(auto)]

mod ask;
mod codec;
mod decision;
mod fault;
mod head;
mod laws;
mod members;
mod operation;
mod plain;
mod setting;
mod state;

pub use ask::Ask;
pub use codec::{CodecFault, head_bytes, op_bytes, read_head, read_op};
pub use decision::{ENTRY_LIMIT, decide};
pub use fault::RuleFault;
pub use head::{CAPACITY_FLOOR, CAPACITY_LIMIT, Head, NEWEST_FORMAT, TITLE_LIMIT, WINDOW_LIMIT};
pub use laws::{
    archives_stay, bytes_have_one_reading, chain_shows_the_fold, documents_are_short,
    live_members_are_made, live_of_is_shown, operations_are_long, prefixes_are_lawful,
    sealed_windows_are_full, served_are_documents, served_stays_served, versions_set_the_entry,
    windows_seal_in_turn,
};
pub use members::{HISTORY_LIMIT, Members};
pub use operation::{Op, Removal};
pub use plain::{plain_count, plain_last_moment, plain_live_count, plain_state};
pub use setting::{Setting, ShortText, WindowSize};
pub use state::State;
