//! A mirror of archived feeds of any server (RFC 5005 section 4).
//!
//! Begin with [`foreign_walk`]: it asks for a feed's newest document and then for one archive after another, and returns
//! the live entries and the end of the chain.
//!
//! ```
//! let foreign = foreign_walk(alloc, &mut fetch, b"http://a.example/feed.xml")?;
//! if let ChainEnd::Complete = foreign.end {
//!     println!(rt; "{} live entries of {} documents", foreign.live.len(), foreign.docs)?;
//! }
//! ```
//!
//! A walk asks for each address of the chain once. It ends where a document has no archive before it, or at the first
//! address that was asked already, isn't of HTTP, has no document, or has one that can't be read or is of another feed.
//!
//! The laws in `laws.rt` state that the answers of the source determine the walk, and that no address is asked twice.
//!
//! Stands on `feed_reader` for the documents, on `foreign_entries` for the live entries, and on `doc_source` for the
//! source.
#![tactic(auto)]

mod fault;
mod laws;
mod walk;

pub use fault::ForeignFault;
pub use laws::walks_end_in_one_way;
pub use walk::{ChainEnd, Foreign, MAX_DOCUMENTS, foreign_walk};
