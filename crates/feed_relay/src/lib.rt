//! A relay: it serves the documents that a mirror holds, byte for byte, so that readers may mirror from it as from
//! the origin.
//!
//! [`relay_answer`] replies to one request:
//!
//! ```
//! let mut mirror = Mirror::load(alloc, &mut disk, base.copy(alloc)?, capacity)?;
//! let reply = relay_answer(&mut mirror, &mut disk, &base, &request);
//! ```
//!
//! [`RelayFetch`] is the source of documents for a walk that asks a relay without a connection. A relay may hold the
//! documents of another relay. Each sends what the origin served, and a walk of a relay that holds a whole feed shows
//! the same entries: the laws in `laws.rt` say so.
//!
//! Stands on `mirror_walk` for the documents, on `http_face` for requests and replies, and on `doc_source` for the trait
//! of a source.
#![tactic(auto)]

mod answer;
mod fetch;
mod laws;

pub use answer::relay_answer;
pub use fetch::RelayFetch;
pub use laws::{
    relays_answer_what_is_served, walks_of_relays_keep_what_is_served,
    walks_of_relays_show_the_same,
};
