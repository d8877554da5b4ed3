//! The live entries of archived feeds of any server, by the rules that the standards publish.
//!
//! Begin with [`LiveEntries`]: it takes the documents of a feed, newest first, and returns the live entries in the order
//! of their identifiers.
//!
//! ```
//! let mut entries = LiveEntries::new(alloc);
//! entries.add(subscription)?;
//! entries.add(archive)?;
//! let live = entries.into_live(alloc)?;
//! ```
//!
//! Of the entries with one identifier, the one with the latest `updated` counts, and among those with the same
//! `updated` the one in the document that was updated last (RFC 5005 section 4.2). A tombstone removes the entries of its
//! identifier up to its `when` (RFC 6721 section 3). `specs/Counts.antt` states this as one rule.
//!
//! The law [`documents_have_one_live_list`] states that documents have one list of live entries.
//!
//! Stands on `feed_reader` for the documents, and on `atom_values` for texts, timestamps and lists.
#![tactic(auto)]

mod laws;
mod live;

pub use laws::documents_have_one_live_list;
pub use live::{LiveEntries, MAX_LIVE};
