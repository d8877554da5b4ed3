//! Reads feed documents as any server writes them (RFC 4287, RFC 5005, RFC 6721), as far as a mirror keeps them.
//!
//! Begin with [`read_feed`]: it returns the feed's identifier and date, the address of the archive before the document,
//! its entries and its tombstones, or the offset and the reason of the refusal.
//!
//! ```
//! match read_feed(alloc, body, b"http://a.example/feed.xml") {
//!     Ok(document) => println!(rt; "{} entries", document.entries.len())?,
//!     Err(fault) => println!(rt; "{fault}")?,
//! }
//! ```
//!
//! Any prefixes, quotes, references, CDATA sections, comments and instructions are read. All elements that a mirror
//! doesn't keep are skipped. Document types and encodings other than UTF-8 are refused.
//!
//! The law [`bytes_are_read_as_a_feed_in_one_way`] states that bytes spell one feed document at most or have one
//! refusal at most, and not both.
//!
//! Stands on `xml_tokens` for the elements of a document, on `url` for the addresses of links, and on `atom_values`
//! for texts, timestamps and lists.
#![tactic(auto)]

mod children;
mod document;
mod entry;
mod fault;
mod laws;
mod link;
mod parts;
mod text;
mod values;

pub use document::{MAX_FEED, MAX_FEED_DEPTH, read_feed};
pub use fault::{FeedWhy, ForeignRead};
pub use laws::bytes_are_read_as_a_feed_in_one_way;
pub use values::{ForeignDoc, ForeignEntry, ForeignGone, MAX_ITEMS};
