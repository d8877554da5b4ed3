//! The command `relay`, which serves the documents that a mirror holds.
//!
//! Begin with [`relay`], whose caller lends it the disk, the door and the output:
//!
//! ```
//! let base = Base::parse(alloc, b"http://a.example")?;
//! let listen = b"127.0.0.1:8080";
//! let status = relay(alloc, &base, listen, 100, capacity, &mut disk, &mut door, &mut output);
//! ```
//!
//! It loads the mirror's area once, and serves what the area had then. `specs/Session.antt` says which reply each
//! connection gets, and `specs/Relay.antt` how the command ends.
//!
//! Stands on `feed_relay` for the replies, on `mirror_walk` for the mirror, on `document_server` for the door and the
//! record of a connection, and on `command_ends` for the exit statuses.
#![tactic(auto)]

mod command;
mod session;

pub use command::relay;
