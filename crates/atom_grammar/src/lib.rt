//! Reads feed documents strictly (RFC 4287, RFC 5005 section 4).
//!
//! Begin with [`read_doc`]: it returns the document whose canonical text the bytes are, or the offset of the first
//! piece that isn't allowed there.
//!
//! ```
//! match read_doc(alloc, bytes) {
//!     Ok(doc) => println!(rt; "{} items", doc.items.len())?,
//!     Err(ReadFault::NotADocument { at }) => println!(rt; "refused at byte {at}")?,
//!     Err(ReadFault::NoMemory) => println!(rt; "out of memory")?,
//! }
//! ```
//!
//! Each document's text is read as that document, and nothing else is read: spellings that XML allows and
//! `atom_writer` doesn't write are refused. Two laws say that no two documents have the same text, and that no piece is
//! a proper prefix of another that could stand in its place.
//!
//! [`DocReader`] reads a text that comes in parts, and keeps no more of it than one piece.
//!
//! [`item_offsets`] finds the pieces of a document's items in its text, and [`read_entry`] reads that of an entry alone.
//!
//! Stands on `atom_writer`, whose definition of the text it cites, on `uuid` and on `memchr`.
#![tactic(auto)]

mod body;
mod category;
mod cutting;
mod doc_reader;
mod element;
mod entry;
mod entry_parts;
mod feed_parts;
mod item;
mod laws;
mod link;
mod one_entry;
mod opening;
mod part_fault;
mod person;
mod pieces;
mod places;
mod progress;
mod read;
mod reader;

pub use doc_reader::DocReader;
pub use laws::{pieces_are_prefix_free, texts_have_one_reading};
pub use one_entry::read_entry;
pub use places::{PiecePlace, item_offsets};
pub use read::{MAX_DOCUMENT, ReadFault, read_doc};
