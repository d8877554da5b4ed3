//! The law that a mirror of any server's feeds agrees with this project's own mirror on this project's feeds.
//!
//! A foreign walk goes by the published rules alone: it reads identifiers, titles and dates, and knows nothing of the
//! order of a feed's operations. The law says that over the chain of one of this project's feeds it shows the same live
//! entries as the history.
//!
//! The crate has no code that runs. Its function does nothing, so no edit of it could turn its meaning. A caller cites
//! the contract:
//!
//! ```
//! // A law, which does nothing.
//! own_chains_are_read();
//! ```
//!
//! Stands on `published_rule` for the rule of the feed's own documents, on `canonical_feed` for the reading of their
//! texts, and on `foreign_mirror` for the walk.
#![tactic(auto)]

mod laws;

pub use laws::own_chains_are_read;
