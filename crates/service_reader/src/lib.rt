//! Reads service documents as any server writes them (RFC 5023 section 8), as far as a client looks for collections.
//!
//! Begin with [`read_service`]: it returns the collections of all workspaces in document order, or the offset and the
//! reason of the refusal.
//!
//! ```
//! match read_service(alloc, body, b"http://a.example/service") {
//!     Ok(collections) => println!(rt; "{} collections", collections.len())?,
//!     Err(fault) => println!(rt; "{fault}")?,
//! }
//! ```
//!
//! Any prefixes, quotes, references, CDATA sections, comments and instructions are read. Titles, categories and
//! unknown elements are skipped. Document types and encodings other than UTF-8 are refused.
//!
//! The law [`bytes_are_read_as_a_service_in_one_way`] states that bytes spell one list of collections at most or have
//! one refusal at most, and not both.
//!
//! Stands on `xml_tokens` for the elements of a document and the order of refusals, on `feed_reader` for the meaning of
//! references, on `url` for addresses, and on `atom_values` for bytes and lists.
#![tactic(auto)]

mod accept;
mod children;
mod document;
mod fault;
mod found;
mod laws;
mod link;
mod values;
mod workspace;

pub use document::{MAX_SERVICE, MAX_SERVICE_DEPTH, read_service};
pub use fault::{ServiceRead, ServiceWhy};
pub use laws::bytes_are_read_as_a_service_in_one_way;
pub use values::{Collection, MAX_COLLECTIONS};
