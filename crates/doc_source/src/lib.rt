//! Piles of documents: a reader and a writer, and the traits of the source and the sink that they work on.
//! The documents of a server, which are asked for by their addresses.
//!
//! Begin with [`PileReader::new`], and call [`PileReader::next`] until it returns `None`:
//!
//! ```
//! let mut reader = PileReader::new(alloc, 1_073_741_824)?;
//! while let Some(offer) = reader.next(&mut source)? {
//!     write_offer(&mut sink, offer.address.slice(), offer.bytes.slice())?;
//! }
//! ```
//!
//! A pile is the line `pile 1` and any number of offers, up to the end of the source. An offer is an address, a space,
//! the number of its bytes in decimal, LF, the bytes, and LF. An address has 1 to 1,024 bytes, and no space and no LF.
//! The bytes are at most 67,108,864.
//!
//! `next` returns exactly the offers of the pile, one at a time, and `None` exactly at its end. It refuses a pile that
//! is cut short or malformed with an offset, and one that is over the limit with the limit. `write_pile_head` and
//! `write_offer` send exactly the bytes of a pile, or a prefix if a call of the sink failed.
//!
//! [`Fetch::get`] asks for the document of an address. [`HttpFetch`] does so over HTTP: contracts know the
//! bytes of its request, the limit of 67,108,864 bytes and its count of failures, and nothing of the server.
//! [`read_document`] reads the response on a connection.
//!
//! [`ListSource`], [`ListSink`] and [`PileFetch`] are in memory, for tests.
//!
//! The crate stands on `itoa` and `arrayvec` for numbers in decimal, on `http_face` for the response to a
//! request, on `feed_disk` for the disk that a connection is lent, and on `atom_values` for bytes and
//! failures.
#![tactic(auto)]

mod document;
mod fault;
mod fetch;
mod http_fetch;
mod intake;
mod laws;
mod line;
mod memory;
mod offer;
mod outside;
mod part;
mod reader;
mod target;
mod write;

pub use document::read_document;
pub use fault::PileFault;
pub use fetch::{Fetch, GetFault};
pub use http_fetch::HttpFetch;
pub use laws::piles_have_one_reading;
pub use memory::{ListSink, ListSource, MAX_OFFERS, PileFetch};
pub use offer::Offer;
pub use outside::{Sink, Source};
pub use reader::PileReader;
pub use write::{write_all, write_offer, write_pile_head};
