//! HTTP requests, replies and responses over a connection (RFC 9110, RFC 9112).
//!
//! Begin with [`read_request`], and answer it by [`write_reply`]:
//!
//! ```
//! let request = read_request(alloc, &mut conn)?;
//! let reply = Reply {
//!     status: 404,
//!     media: Media::Plain,
//!     location: None,
//!     allow: None,
//!     body: Body::Fixed(Line7::NotFound),
//! };
//! conn.begin(&disk);
//! write_reply(&mut conn, &reply)?;
//! ```
//!
//! A client reads the answer to its request by [`read_response`].
//!
//! A connection carries one request and one reply. `read_request` returns the request that the bytes begin with, or a
//! fault that fits them. It reads at most 81,920 bytes: a head of at most 16,384 bytes and 64 fields, and a body of at
//! most 65,536 bytes. `write_reply` sends exactly the bytes of the reply. If a call of the connection fails, it returns
//! how many of them were sent. It takes no memory.
//!
//! `read_response` returns the body of a response with status 200, of at most 67,108,864 bytes, and `None`
//! for the statuses 404 and 410. The body has the stated length, or goes on up to the end of the connection.
//! Anything else is refused as `BadResponse`.
//!
//! Chunked bodies and further requests on a connection are left out. [`ScriptConn`] is a connection in memory, for
//! tests.
//!
//! The crate stands on `httparse` for the grammar of heads, on `http` for the phrases of statuses, on `itoa` for
//! numbers in decimal, on `feed_disk` for the clock that a connection keeps when its reply begins, and on `atom_values`
//! for bytes and failures.
#![tactic(auto)]

mod answer;
mod body;
mod conn;
mod fault;
mod fields;
mod fill;
mod head;
mod laws;
mod reply;
mod request;
mod response;
mod response_head;
mod script;
mod waiting;
mod write;

pub use conn::Conn;
pub use fault::{CutOff, RequestFault, ResponseFault};
pub use laws::{requests_have_one_reading, responses_have_one_reading};
pub use reply::{Allow, Body, Line7, Media, Reply};
pub use request::{MAX_BODY, Request, Verb, read_request};
pub use response::{MAX_ANSWER, read_response};
pub use script::ScriptConn;
pub use write::write_reply;
