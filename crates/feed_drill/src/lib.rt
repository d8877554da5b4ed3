//! The generated input of the command `drill`, as a function of its seed and the number of its turns.
//!
//! ```
//! let drill = drill(alloc, &head, 7, 1_000)?;
//! let text = drill.summary.print(alloc)?;
//! ```
//!
//! [`drill`] has the turns of a drill on a life with one mirror, and makes the summary from that life. [`Draws`] draws
//! the numbers that decide what each turn asks of the feed, and within which device call it crashes.
//!
//! The definitions in `specs/` say what the turns ask, which operations they make of an empty feed, which documents are
//! sent, and which summary is printed. They also list the events of a drill: its requests, crashes, gifts and the walk.
//! It is proved that the life went through exactly these events, in order.
//!
//! Stands on `feed_life` for the life, on `member_rules` for the operations, on `http_face` for the requests, on
//! `entry_reader` for the entry documents, on `feed_disk` for the crashes, and on `coverage_certificate` for the digest
//! of the live entries.
#![tactic(auto)]

mod course;
mod draws;
mod offer;
mod request;
mod run;
mod summary;
mod turn;
mod wish;

pub use draws::Draws;
pub use run::drill;
pub use summary::{Drill, Summary};
