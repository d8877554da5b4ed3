//! The commands of `feed_tool`: all that the program does, over a disk, a clock, a door, a source of documents, an
//! input and an output that the caller lends.
//!
//! Begin with [`run`], which reads the words and runs their command. For every input, clock and failure its contract
//! says which exit status the program ends with and which bytes it prints. A test calls it as the program does, with
//! objects in memory:
//!
//! ```
//! let mut disk = MemoryDisk::new(alloc, journal, sealed, mirror, Many::new(alloc));
//! let mut clock = SetClock::new(moments);
//! let mut door = ScriptDoor::new(alloc, Many::new(alloc), Many::new(alloc))?;
//! let mut fetch = PileFetch::new(alloc, Many::new(alloc), Many::new(alloc));
//! let mut input = ListSource::new(Bytes::of(alloc, b"add Hello\n")?, Many::new(alloc));
//! let mut output = ListSink::new(alloc, Many::new(alloc));
//! let ended = run(alloc, &words, &mut disk, &mut clock, &mut door, &mut fetch, &mut input, &mut output);
//! assert_eq!(rt; ended.status, 0);
//! ```
//!
//! `serve`, `show pile` and `drill` are in `commands`, and each other command is in a crate below. A command has one
//! answer to an input, and the law in `laws.rt` says so.
//!
//! Stands on `command_ends` for statuses and faults, on `store_commands`, `mirror_commands` and the other crates of
//! commands, on `document_server` for the server, on `feed_drill` for drills, on `doc_source` for the source, the input
//! and the output, and on the crates below them.
#![tactic(auto)]

mod commands;
mod dispatch;
mod laws;

pub use command_ends::{BadStore, Fault, Refusal, Status, print_fault};
pub use dispatch::{Ended, run};
pub use laws::commands_have_one_answer;
