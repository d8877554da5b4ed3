//! A mirror of a feed: it takes the documents of a chain (RFC 5005 section 4) in any order and keeps them on
//! a disk, says which one is missing, and shows the live entries once none is.
//!
//! Begin with [`Mirror::load`], and offer each document that was found with [`Mirror::offer`]:
//!
//! ```
//! let mut mirror = Mirror::load(alloc, &mut disk, base, capacity)?;
//! for (address, bytes) in documents {
//!     mirror.offer(&mut disk, address, bytes)?;
//! }
//! match mirror.outcome()? {
//!     Outcome::Complete { version, live } => println!(rt; "{live} entries at version {version}")?,
//!     Outcome::Missing { address } => println!(rt; "no {address:?} yet")?,
//! }
//! ```
//!
//! A document is taken only if it is canonical, lies at its own address below the mirror's base, belongs to
//! the same feed as the others and adjoins its neighbours in the chain. `specs/Accept.antt` defines the
//! answer to each offer. If all documents were served by one feed, none is refused, and a complete mirror
//! shows the feed's entries as they were at the newest version offered: the law in `laws.rt` says so. In the
//! chain of the best subscription document, these are the entries that count by the published rule for
//! duplicates (RFC 5005, with the rule of `published_rule` for tombstones): the clauses `published` of
//! [`Mirror::next_live`] and [`Mirror::entry`] say so. Archives held past that chain don't count.
//!
//! The texts of the documents taken are the payloads of the mirror area, in order. A crash at any moment of
//! an offer leaves the documents held before, or those and the new one. In memory is an [`Outline`] of each
//! document: what the checks need, and where each item's piece is in the text. [`Mirror::entry`] reads the
//! piece of one entry back, and [`Mirror::document`] a whole document.
//!
//! [`Mirror::walk`] asks a source of documents for those that are missing, newest first, and for none twice.
//!
//! [`Held`] is the plain form of a mirror's documents, in memory alone: it answers offers without a disk.
//!
//! Stands on `atom_grammar`, which reads the documents, on `member_rules` for the law of the chain, on
//! `published_rule` for the law of duplicates, on `feed_journal` for the log of the area, on `doc_source` for
//! the trait of a source, and on `sha2`.
#![tactic(auto)]

mod accept;
mod answer;
mod base_map;
mod document;
mod documents;
mod entry;
mod held;
mod kept;
mod laws;
mod live;
mod load;
mod mark;
mod mirror;
mod mirror_fault;
mod offer;
mod origin;
mod outline;
mod walk;

pub use answer::{Accepted, Offered, Outcome};
pub use documents::EntryPlace;
pub use held::Held;
pub use laws::{served_documents_show_the_fold, walks_ask_for_nothing_twice};
pub use mark::ItemMark;
pub use mirror::Mirror;
pub use mirror_fault::MirrorFault;
pub use outline::{Outline, Outlined};
pub use walk::{Refusal, WalkFault, Walked};
