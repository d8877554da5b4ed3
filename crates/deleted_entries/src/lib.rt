//! The identifiers of a feed and of its members, and the items of a document (RFC 6721).
//!
//! Begin with `FeedId::parse`: `id_of` makes the identifier of each member, and `number_of` reads it back.
//!
//! ```
//! let feed = FeedId::parse(b"6d1f0c5a-93be-4c27-8d10-2b7f9e4a5c36").ok_or("no feed identifier")?;
//! let id = id_of(&feed, 1);
//! assert_eq!(rt; id.as_slice(), b"urn:uuid:6d1f0c5a-93be-8c27-8000-000000000001".as_slice());
//! assert_eq!(rt; number_of(&feed, &id), Some(1));
//! ```
//!
//! A member's identifier is a UUID of the feed's bits and the member's number, as `specs/FeedId.antt` defines it, and
//! no other member of the feed has it.
//!
//! Stands on `atom_values` and `uuid`.
#![tactic(auto)]

mod feed_id;
mod item;

pub use feed_id::{FeedId, ID_LEN, id_of, number_of};
pub use item::{Item, Tombstone};
