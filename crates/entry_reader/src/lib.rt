//! Reads entry documents as clients write them (RFC 4287, RFC 5023).
//!
//! Begin with [`read_entry`]: it returns the draft that the bytes spell, or the offset and the reason of the
//! refusal.
//!
//! ```
//! match read_entry(alloc, body) {
//!     Ok(draft) => println!(rt; "{:?}", draft.title)?,
//!     Err(fault) => println!(rt; "{fault}")?,
//! }
//! ```
//!
//! Any prefixes, quotes, references, CDATA sections, comments and instructions are read. Foreign markup is
//! skipped. Document types, encodings other than UTF-8, and content that isn't text or HTML are refused.
//!
//! The law [`bytes_are_read_in_one_way`] states that bytes spell one draft at most or have one refusal at most, and
//! not both.
//!
//! Stands on `xml_tokens` for the elements of a document, and on `atom_values` for the draft.
#![tactic(auto)]

mod entry;
mod fault;
mod laws;
mod person;
mod rules;
mod text;

pub use entry::{MAX_DEPTH, MAX_ENTRY, read_entry};
pub use fault::{EntryFault, Why};
pub use laws::bytes_are_read_in_one_way;
