//! The published rule for duplicate entries, and the law that the chain of a feed's documents keeps it. Stands on
//! `member_rules`.
//!
//! RFC 5005 tells a reader of several documents which of a member's entries counts: the one with the latest `updated`,
//! and of those with the same `updated` the one of the document that was updated last. By RFC 6721 a tombstone removes
//! the entries from before its `when`. The RFC doesn't speak of an entry whose `updated` equals the `when`. Here it is
//! removed too: if a client posts an entry with an `updated` in the future and then deletes it, the tombstone's `when`
//! is that `updated`. `specs/Counts.antt` states all of this as one rule.
//!
//! The feed goes by the order of its documents instead: the newest document that has an item of the member decides
//! (`Shows` of `member_rules`). The law says that both rules give the same entries in the documents of one chain.
//!
//! The crate has no code that runs. Its functions do nothing, so no edit of one could turn its meaning. A caller cites
//! the contract:
//!
//! ```
//! // A law, which does nothing.
//! published_rule_shows_the_chain();
//! ```
#![tactic(auto)]

mod laws;

pub use laws::{live_of_counts, published_rule_shows_the_chain};
