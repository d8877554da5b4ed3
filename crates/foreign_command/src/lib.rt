//! The command `foreign`, which prints the live entries of the archived feed of any server.
//!
//! Begin with [`foreign`], whose caller lends it the source of documents and the output:
//!
//! ```
//! let status = foreign(alloc, b"http://a.example/feed.xml", &mut fetch, &mut output);
//! ```
//!
//! The law [`foreign_has_one_answer`] states that what the source has at each address determines the answer.
//!
//! Stands on `foreign_mirror` for the walk, on `own_chain` for the law about this project's own feeds, and on
//! `command_ends` for the exit statuses.
#![tactic(auto)]

mod command;
mod laws;
mod lines;

pub use command::foreign;
pub use laws::foreign_has_one_answer;
