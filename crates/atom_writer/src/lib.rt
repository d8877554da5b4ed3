//! Writes feed documents (RFC 4287, RFC 5005 section 4) and member documents (RFC 5023 section 9).
//!
//! Begin with [`Doc::new`], which takes the parts of a document, and [`write_doc`], which returns its text:
//!
//! ```
//! let span = Span { first: 1, last: 0 };
//! let doc = Doc::new(name, Kind::Subscription, span, 0, updated, Many::new(alloc)).ok_or(Broken)?;
//! let text = write_doc(alloc, &doc)?;
//! assert_eq!(rt; text.len() as u64, doc_len(&doc));
//! ```
//!
//! A [`Doc`] keeps the rules of the chain. Its text is the canonical text that `specs/Pieces.antt` defines, byte for
//! byte. [`doc_len`] and [`entry_len`] return the length of a text and take no memory. [`Out`] lets a crate above write
//! its texts in the same way: one function counts the bytes and writes them.
//!
//! Stands on `atom_values`, `chain_links` and `deleted_entries`. Prints numbers with `itoa`.
#![tactic(auto)]

mod attribute;
mod category;
mod construct;
mod doc;
mod element;
mod entry;
mod item;
mod link;
mod member;
mod name;
mod out;
mod person;
mod place;
mod write;

pub use doc::{Doc, FeedName, Kind, MAX_ARCHIVE, MAX_ITEMS, is_placed};
pub use item::entry_len;
pub use member::write_member;
pub use out::{Count, Out};
pub use write::{doc_len, write_doc};
