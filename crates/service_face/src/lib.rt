//! The service document of a feed (RFC 5023 section 8) and the listing of its members.
//!
//! Begin with [`service_answer`], which replies to a request of one of these two pages:
//!
//! ```
//! let reply = match service_answer(alloc, &store, &request)? {
//!     Some(reply) => reply,
//!     None => answer(alloc, &mut store, &mut disk, &request, now),
//! };
//! ```
//!
//! A reply is made from the store alone, so it needs no device call. [`service_doc`] and [`listing`] return the two
//! texts without a request.
//!
//! Stands on `feed_recovery` for the store and on `http_face` for requests and replies.
#![tactic(auto)]

mod answer;
mod document;
mod laws;
mod lines;
mod page;

pub use answer::service_answer;
pub use document::service_doc;
pub use laws::{listings_are_newest_first, pages_are_no_documents, targets_are_addresses};
pub use lines::listing;
pub use page::Page;
