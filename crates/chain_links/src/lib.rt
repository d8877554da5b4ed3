//! The addresses of a feed's documents, and the order of the documents in a chain (RFC 5005 section 4).
//!
//! Begin with `Base::parse`: a `Base` prints the address of each document and reads it back.
//!
//! ```
//! let base = Base::parse(alloc, b"http://feed.example/")?;
//! let text = base.print(alloc, Address::Archive(7))?;
//! assert_eq!(rt; text.as_slice(), b"http://feed.example/archive/7".as_slice());
//! assert_eq!(rt; base.read(&text), Some(Address::Archive(7)));
//! ```
//!
//! `Base::parse` accepts exactly the base addresses of `specs/Base.antt`. Each document has one printed address, and
//! `Base::read` accepts no other text for it. `follows` says whether one document comes right before another.
//!
//! Stands on `atom_values`, on `itoa` for decimal numbers, and on the parser of `url` for `Base::checked`.
#![tactic(auto)]

mod address;
mod base;
mod front;
mod place;

pub use address::Address;
pub use base::{Base, BaseFault, MAX_BASE};
pub use front::whole_number;
pub use place::{Place, Span, follows};
