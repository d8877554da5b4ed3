//! The values of an Atom feed: lists with a limit, timestamps, texts and entries.
//!
//! Begin with `AtomText::of` and `Draft::titled`: `Draft::normal` makes an entry of a draft.
//!
//! ```
//! let title = AtomText::of(alloc, b"News & views")?;
//! let moment = Stamp::parse(b"2003-12-13T18:30:02.25+01:00").ok_or("no date")?;
//! let entry = Draft::titled(alloc, title).normal(1, moment, None);
//! let mut out = Vec::new(alloc);
//! escape_into(&mut out, &entry.title.value, false)?;
//! assert_eq!(rt; out.as_slice(), b"News &amp; views".as_slice());
//! ```
//!
//! Each type keeps its rules, each printed or escaped form is exactly its definition in `specs/`, and `Stamp::parse`
//! and `unescape` accept exactly the texts of these definitions.
//!
//! Stands on `jiff` for the calendar.
#![tactic(auto)]

mod bytes;
mod category;
mod copies;
mod entry;
mod link;
mod listed_calls;
mod many;
mod memory;
mod person;
mod space;
mod stamp;
mod text;

pub use bytes::Bytes;
pub use category::Category;
pub use copies::Copies;
pub use entry::{Draft, Entry, MAX_CATEGORIES, MAX_LINKS, MAX_PERSONS};
pub use link::{Link, names_edit, shows_alternate};
pub use listed_calls::{ListedCalls, MAX_FAILING};
pub use many::{ListFault, Many};
pub use memory::{Failed, NoMemory};
pub use person::Person;
pub use space::{is_space, trimmed};
pub use stamp::{Stamp, printed_is_read};
pub use text::{
    AtomText, MAX_TEXT, Text, TextFault, TextKind, escape_into, escaped_len, is_xml_char, unescape,
};
