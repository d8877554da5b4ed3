//! Lives of a feed: a store and its mirrors on disks in memory, through requests, gifts, walks and crashes.
//!
//! Begin with [`life`] or [`Life::new`], and go on with [`Life::step`]:
//!
//! ```
//! let mut life = life(alloc, &head, 2, &events)?;
//! let stop = Some(Stop { call: 3, choice: Choice::Old });
//! let _ = life.step(Event::Ask { request, now, stop })?;
//! let _ = life.step(Event::Walk { mirror: 0, stop: None })?;
//! println!(rt; "{:?} after {} operations", life.outcome(0)?, life.version())?;
//! ```
//!
//! An event is a request to the store, a change of a setting of its feed, a gift of a document that the store sent to
//! a mirror, or a walk of a mirror over the store's documents. Each may have a [`Stop`], which is a crash within one of
//! its device calls.
//!
//! After each event, until memory runs out:
//!
//! - The store's disk has its whole history. A crash leaves the history before the request, or with its operation.
//! - Each document that a mirror holds is one that the feed served. A crash leaves the mirror what it held, or more.
//! - No mirror refuses a document that the store sent. It accepts it or its area is full.
//! - A mirror that shows a version shows the feed's entries of that version, and its certificate is the feed's own.
//!
//! `specs/Events.antt` says what each event does, and `IsLifeOf` there what several do in turn. `specs/Crashes.antt`
//! says which image of a disk a stop leaves, and `specs/Headline.antt` what a life keeps, whatever comes later.
//!
//! [`StoreFetch`] is the documents of a store as a source that a mirror can walk. Each of them is one that the feed
//! serves: the law [`stores_answer_what_is_served`] says so.
//!
//! Stands on `document_server`, which answers requests, on `feed_recovery` for the store, on `mirror_walk` and
//! `coverage_certificate` for mirrors, on `feed_disk` for disks in memory and their crashes, and on `doc_source` for
//! the trait of a fetch.
#![tactic(auto)]

mod ask;
mod crash;
mod event;
mod laws;
mod lives;
mod mirrors;
mod sent;
mod step;
mod store_fetch;
mod turn;
mod walks;

pub use event::{Event, Stop};
pub use laws::stores_answer_what_is_served;
pub use lives::Life;
pub use sent::SentDoc;
pub use step::life;
pub use store_fetch::StoreFetch;
