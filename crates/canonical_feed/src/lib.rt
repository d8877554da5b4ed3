//! The law that the lenient reader of feeds reads the canonical text of a document as what it says.
//!
//! The crate has no code that runs. Its function does nothing, so no edit of it could turn its meaning. A caller cites
//! the contract:
//!
//! ```
//! // A law, which does nothing.
//! canonical_text_is_read();
//! ```
//!
//! Stands on `atom_writer` for the text, and on `feed_reader` for its reading.
#![tactic(auto)]

mod laws;

pub use laws::canonical_text_is_read;
