//! The command `discover`, which prints the collections of the service document of any server.
//!
//! Begin with [`discover`], whose caller lends it the source of documents and the output:
//!
//! ```
//! let status = discover(alloc, b"http://a.example/service", &mut fetch, &mut output);
//! ```
//!
//! The law [`discover_has_one_answer`] states that what the source has at the address determines the answer.
//!
//! Stands on `service_reader` for the document, on `own_service` for the law about this project's own service document,
//! and on `command_ends` for the exit statuses.
#![tactic(auto)]

mod command;
mod fault;
mod laws;
mod lines;

pub use command::discover;
pub use laws::discover_has_one_answer;
