//! Reads the tokens of XML documents (XML 1.0, Namespaces in XML 1.0), and tells the elements of a document one after
//! another.
//!
//! Begin with [`Elements::new`] and [`Elements::next`]: they return the parts of the tree in document order, or the
//! offset and the reason of the first token that isn't allowed.
//!
//! ```
//! let mut elements = Elements::new(alloc, 32, b"<id xmlns='http://www.w3.org/2005/Atom'>a&amp;b</id>")?;
//! if let Some(Event::Begin(root)) = elements.next()? {
//!     assert!(rt; root.is_atom(b"id"));
//!     assert_eq!(rt; elements.content()?.text.as_slice(), b"a&b".as_slice());
//! }
//! elements.drain()?;
//! ```
//!
//! Any prefixes, quotes, references, CDATA sections, comments and instructions are read. Document types and encodings
//! other than UTF-8 are refused. A document is whole, and without a fault, only if it was read to its end.
//!
//! The law [`tokens_are_read_in_one_way`] states that bytes have one tree at most or one refusal of a token at most,
//! and not both.
//!
//! `specs/Order.antt` defines the first element that a reader refuses, by the rules of any reader.
//!
//! Stands on `atom_values`, on `memchr` for searches of bytes, and on `simdutf8` for UTF-8.
#![tactic(auto)]

mod characters;
mod cursor;
mod declaration;
mod elements;
mod fault;
mod key;
mod laws;
mod reference;
mod scopes;
mod tag;
mod token;
mod value;

pub use elements::{Content, Element, Elements, Event, Said};
pub use fault::{TokenFault, TokenWhy};
pub use laws::tokens_are_read_in_one_way;
pub use scopes::Namespace;
