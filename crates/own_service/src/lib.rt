//! The law that the reader of service documents reads the service document of a feed as the feed's collection.
//!
//! The crate has no code that runs. Its function does nothing, so no edit of it could turn its meaning. A caller cites
//! the contract:
//!
//! ```
//! // A law, which does nothing.
//! service_doc_is_read();
//! ```
//!
//! Stands on `service_face` for the text, and on `service_reader` for its reading.
#![tactic(auto)]

mod laws;

pub use laws::service_doc_is_read;
