use atom_values::{AtomText, Bytes, Many, Stamp};
use std::marker::Model;

/// The greatest number of entries of a feed document, and of its tombstones.
pub const MAX_ITEMS: u32 = 10_000;

/// An entry of another server's feed (RFC 4287 section 4.1.2), as far as a mirror keeps it.
#[derive(Debug, Drop)]
pub struct ForeignEntry {
    /// The text of `id`, without the white space at both ends.
    pub id: AtomText,
    /// All characters of `title`, those of elements inside it too. Empty if there is no `title`.
    pub title: AtomText,
    pub updated: Stamp,
}

/// A tombstone of another server's feed (RFC 6721 section 3).
#[derive(Debug, Drop)]
pub struct ForeignGone {
    /// The identifier of the deleted entry, without the white space at both ends.
    pub id: AtomText,
    pub when: Stamp,
}

/// A document of another server's archived feed (RFC 5005 section 4), as far as a mirror keeps it.
#[derive(Debug, Drop)]
pub struct ForeignDoc {
    /// The text of the feed's `id`, without the white space at both ends.
    pub id: AtomText,
    pub updated: Stamp,
    /// The address of the archive before this document. `None` if there is none.
    pub prev: Option<Bytes>,
    pub entries: Many<ForeignEntry, MAX_ITEMS>,
    pub gone: Many<ForeignGone, MAX_ITEMS>,
}

impl Model for ForeignDoc {
    ghost use Rattle.feed_reader.specs.Feed.{DocumentValue};

    ghost Value = { DocumentValue };

    ghost view = { λ d. record {
      id = d.id;
      updated = d.updated;
      prev = d.prev;
      entries = d.entries.items;
      gone = d.gone.items;
    } };
}
