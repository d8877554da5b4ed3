//! How a command of `feed_tool` ends: its exit status, and the fault that ended it, with the fault's line.
//!
//! Begin with [`print_fault`], which prints the line of a [`Fault`] and returns its [`Status`]:
//!
//! ```
//! match made {
//!     Ok(text) => write_all(output, text.as_slice())?,
//!     Err(fault) => return print_fault(output, fault).code(),
//! }
//! ```
//!
//! Each fault has one status and one line: `specs/Fault.antt` lists them, and `specs/StoreFaults.antt` the fault that
//! each error of a store becomes. `specs/Ends.antt` says how the exit status and the output of a command stand to its
//! answer. [`end_printed`] prints the text of a defined end. [`summary`] makes the lines that `show` prints of a document.
//!
//! Stands on `doc_source` for the output, and on `feed_recovery`, `feed_journal` and `member_rules` for the errors that
//! become faults.
#![tactic(auto)]

mod base_line;
mod fault;
mod print;
mod printed;
mod status;
mod summary_lines;

pub use base_line::{BaseLine, other_base_line};
pub use fault::{BadStore, Fault, FaultLine, MAX_LINE, Refusal, connection_line, line_of};
pub use print::print_fault;
pub use printed::{Printed, end_printed, push_address};
pub use status::Status;
pub use summary_lines::{push_entry, push_numbered, summary};
