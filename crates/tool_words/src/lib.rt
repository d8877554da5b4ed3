//! The command words of `feed_tool`, and the lines of its `apply`.
//!
//! Begin with [`read_words`], which returns the command that the words after the program's name spell:
//!
//! ```
//! match read_words(alloc, &words) {
//!     Ok(Command::Apply { window }) => ..,
//!     Ok(Command::Show(shown)) => ..,
//!     Ok(Command::Init { name, window, capacity }) => ..,
//!     Ok(Command::Serve { listen, requests, service }) => ..,
//!     Ok(Command::Mirror { base, fetch, report, capacity }) => ..,
//!     Ok(Command::Audit) => ..,
//!     Ok(Command::Drill { seed, count }) => ..,
//!     Ok(Command::Foreign { from }) => ..,
//!     Ok(Command::Discover { address }) => ..,
//!     Ok(Command::Relay { base, listen, requests, capacity }) => ..,
//!     Ok(Command::Scrub { repair }) => ..,
//!     Err(WordsFault::Usage) => println!(rt; "usage: ..")?,
//!     Err(WordsFault::NoMemory) => ..,
//! }
//! ```
//!
//! The first word is the command's name. Options are `--name value` or `--name=value`, in any order, each at most once.
//! A flag is `--name` without a value. A value isn't empty and doesn't begin with `-`. A number is decimal digits, and
//! may have leading zeros.
//!
//! Words are tested against this grammar first, and then parsed by `clap`, which gives their values. So words outside
//! the grammar are `Usage` even if `clap` takes them. A command's words are refused only if memory runs out.
//! The law [`words_spell_one_command`] states that words spell one command at most.
//!
//! [`read_line`] reads one line of the input of `apply` as a [`LineAsk`].
//!
//! Stands on `clap`, on `url` for addresses, on `atom_writer` for the name of a feed, and on the crates below it.
#![tactic(auto)]

mod base;
mod capacity;
mod command;
mod discover;
mod drill;
mod fault;
mod foreign;
mod http_text;
mod init;
mod laws;
mod line;
mod listen;
mod mirror;
mod number;
mod options;
mod parse;
mod relay;
mod scrub;
mod serve;
mod words;

pub use command::{Command, Show};
pub use fault::{LineFault, WordsFault};
pub use laws::words_spell_one_command;
pub use line::{LineAsk, read_line};
pub use words::read_words;
