//! The objects of the system that the program lends to its commands: the clock, the input, the output, the TCP port, and
//! the words of the command line.
//!
//! Begin with [`TcpDoor`], which gives the connections of a TCP port to a session:
//!
//! ```
//! let mut clock = SystemClock { runtime: &rt };
//! let log = Log::new(&rt, rt.stderr());
//! let progress = Progress::new(&rt, rt.stderr().is_terminal());
//! let mut door = TcpDoor::new(rt.alloc(), &rt, &log, &progress);
//! let ended = serve(rt.alloc(), &mut disk, &mut clock, &mut door, b"127.0.0.1:8080", 100);
//! door.finish();
//! ```
//!
//! These are thin adapters, which implement traits of the crates below. Contracts see the counts of faults and of bytes,
//! and the mark of a reply, and nothing of the content. That the system does what it is asked is trusted.
//!
//! Stands on `document_server` for the clock and the door, on `doc_source` for the input and the output, on `http_face`
//! for connections, on `httparse` for a look at heads that are arriving, on `mio` for waiting, on `arrayvec` and `itoa`
//! for the lines of the log and of the progress, and on `os` for the number of the system's last error.
#![tactic(auto)]

mod log;
mod logged;
mod meter;
mod progress;
mod system;
mod tcp;
mod words;

pub use log::{Line, Log};
pub use logged::{LoggedDisk, LoggedFetch};
pub use progress::{Progress, input_size};
pub use system::{InputSource, OutputSink, SystemClock};
pub use tcp::{EndedConn, TcpConn, TcpDoor};
pub use words::given_words;
