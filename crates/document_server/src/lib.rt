//! The server of a feed: the member protocol over a store (RFC 5023, RFC 9110).
//!
//! Begin with [`answer`]: it returns the reply to a request, and changes the store where the request is accepted.
//!
//! ```
//! let request = read_request(alloc, &mut conn)?;
//! let reply = answer(alloc, &mut store, &mut disk, &request, clock.now());
//! conn.begin(&disk);
//! write_reply(&mut conn, &reply)?;
//! ```
//!
//! The reply and the store are those of `specs/Reply.antt`, unless memory ran out or the disk failed. A reply that
//! acknowledges a change is returned after the commit of the change, so no crash loses it. [`set`] changes a setting of
//! the feed in the same way, without a request. [`serve`] answers the requests of many connections, and can serve the
//! service document and the listing of members beside the documents.
//!
//! Stands on `feed_recovery` for the store, on `http_face` for requests and replies, on `entry_reader` for the entries
//! that clients write, and on `service_face` for the two pages.
#![tactic(auto)]

mod change;
mod clock;
mod dispatch;
mod document;
mod door;
mod failure;
mod laws;
mod line;
mod media;
mod paged;
mod replies;
mod script_door;
mod session;
mod setting;

pub use clock::Clock;
pub use dispatch::answer;
pub use door::Door;
pub use laws::{requests_have_one_outcome, shown_are_served};
pub use line::Line;
pub use script_door::{ScriptDoor, SetClock};
pub use session::{End, MAX_CONNECTIONS, ServeEnd, serve};
pub use setting::set;
