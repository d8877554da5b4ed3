//! The commands of `feed_tool` on a store, and those that need none: `init`, `apply`, `show feed`, `show archive J` and
//! `show member N`, and `apply W` and `show` of the input.
//!
//! Each command is a call that returns the bytes to print, or the fault by which it ends. Its contract says which bytes
//! those are, of what disk, clock and input had before. [`store::apply`] also says what a crash leaves.
//!
//! ```
//! let mut clock = SetClock::new(moments);
//! let mut input = ListSource::new(Bytes::of(alloc, b"add Hello\n")?, Many::new(alloc));
//! let document = apply::apply(alloc, 4, &mut clock, &mut input)?;
//! assert!(rt; document.ends_with(b"</feed>\n"));
//! ```
//!
//! [`show::show`] keeps no copy of its input, and [`store::apply`] keeps one line of it.
//!
//! Stands on `feed_recovery` for the store, on `archive_sealer` and `atom_grammar` for the documents, on
//! `document_server` for the clock, on `doc_source` for the input, on `command_ends` for the faults, and on the crates
//! below them.
#![tactic(auto)]

pub mod apply;
pub mod init;
mod line;
mod lines;
pub mod show;
pub mod store;
