//! The documents of the tests: tables name them as data, and their bytes are made where a test needs them.

ghost use Rattle.std.specs.Prelude.{◌≤◌, length};
ghost use Rattle.member_rules.specs.Head.{title_limit};

use archive_sealer::{archive, full_windows, subscription};
use atom_values::{AtomText, Draft, Entry, Many, Stamp};
use atom_writer::{Doc, FeedName, Kind, write_doc};
use chain_links::{Base, Span};
use deleted_entries::{FeedId, Item, Tombstone};
use member_rules::{Head, NEWEST_FORMAT, Op, Removal};
use std::alloc::Global;
use std::process::Abort;

pub const BASE: &str = "http://feed.example/";

pub const FEED: &str = "http://feed.example/feed";

pub const ONE: &str = "http://feed.example/archive/1";

pub const TWO: &str = "http://feed.example/archive/2";

pub const THREE: &str = "http://feed.example/archive/3";

pub const FOUR: &str = "http://feed.example/archive/4";

pub const FIVE: &str = "http://feed.example/archive/5";

/// The identifier of the feeds, unless another is given.
pub const ID: &str = "6d1f0c5a-93be-4c27-8d10-2b7f9e4a5c36";

/// The identifier of another feed.
pub const OTHER_ID: &str = "7e2f0c5a-93be-4c27-8d10-2b7f9e4a5c36";

/// A document.
pub enum Given {
    /// The subscription document of a feed after this many operations.
    Version(Origin, u32),
    /// The archive of this number, of a feed.
    Archive(Origin, u32),
    /// A document of these parts.
    Made(Made),
    /// These bytes, of no document.
    Plain(&'static [u8]),
}

/// A feed with windows of four operations.
pub enum Origin {
    /// Each operation makes a member, with a letter from `a` to `u` as its title.
    Letters,
    /// The same with another fifth letter.
    Changed,
    /// The letters in a feed with another identifier.
    Stranger,
    /// Members are made, changed and removed.
    Turns,
}

/// The parts of a document, with the first and the last operation that it covers and its `prev`.
#[derive(Clone, Copy)]
pub struct Made {
    pub base: &'static str,
    pub id: &'static str,
    pub kind: Kind,
    pub first: u32,
    pub last: u32,
    pub prev: u32,
    pub moment: i64,
    /// The number and the letter of its entry, if it has one.
    pub entry: Option<(u32, u8)>,
}

/// A member's number, and the letter that becomes its title.
type Step = (u32, u8);

const LETTERS: &[Step] = &[
    (1, b'a'),
    (2, b'b'),
    (3, b'c'),
    (4, b'd'),
    (5, b'e'),
    (6, b'f'),
    (7, b'g'),
    (8, b'h'),
    (9, b'i'),
    (10, b'j'),
    (11, b'k'),
    (12, b'l'),
    (13, b'm'),
    (14, b'n'),
    (15, b'o'),
    (16, b'p'),
    (17, b'q'),
    (18, b'r'),
    (19, b's'),
    (20, b't'),
    (21, b'u'),
];

const CHANGED: &[Step] = &[
    (1, b'a'),
    (2, b'b'),
    (3, b'c'),
    (4, b'd'),
    (5, b'z'),
    (6, b'f'),
    (7, b'g'),
    (8, b'h'),
];

const TURNS: &[Step] = &[
    (1, b'a'),
    (2, b'b'),
    (3, b'c'),
    (4, b'd'),
    (2, b'-'),
    (1, b'A'),
    (5, b'e'),
    (3, b'C'),
    (1, b'-'),
    (4, b'D'),
    (6, b'f'),
    (5, b'E'),
    (7, b'g'),
    (6, b'F'),
    (3, b'-'),
];

pub fn base(rt: &impl Abort, alloc: Global, text: &str) -> Base {
    Base::parse(alloc, text.as_bytes()).expect(rt, "a base")
}

/// The name of a feed with this base and this identifier.
fn name(rt: &impl Abort, alloc: Global, base_text: &str, id: &str) -> FeedName
    ensures title { length result.title ≤ title_limit }
    ensures author { length result.author ≤ title_limit }
{
    FeedName {
        base: base(rt, alloc, base_text),
        id: FeedId::parse(id.as_bytes()).expect(rt, "an identifier"),
        title: AtomText::of(alloc, b"Feed").expect(rt, "a title"),
        author: AtomText::of(alloc, b"Editor").expect(rt, "an author"),
    }
}

/// The head of a feed with this identifier and windows of this many operations.
pub fn head(rt: &impl Abort, alloc: Global, id: &str, window: u32) -> Head {
    assert!(rt; (1..=100).contains(&window));
    Head {
        format: NEWEST_FORMAT,
        name: name(rt, alloc, BASE, id),
        window,
        capacity: 4_096,
        created: Stamp::new(0).expect(rt, "a timestamp"),
    }
}

/// The entry of a member with this letter as its title, accepted at `moment`.
fn entry(rt: &impl Abort, alloc: Global, (number, letter): (u32, u8), moment: Stamp) -> Entry {
    assert!(rt; number >= 1);
    let title = AtomText::of(alloc, &[letter]).expect(rt, "a title");
    Draft::titled(alloc, title).normal(number, moment, None)
}

/// The operation that makes a member with a small letter, changes it to a capital, or removes it at `-`.
pub fn operation(rt: &impl Abort, alloc: Global, (number, letter): (u32, u8), moment: Stamp) -> Op {
    if letter == b'-' {
        assert!(rt; number >= 1);
        return Op::Remove(Removal {
            tombstone: Tombstone {
                number,
                when: moment,
            },
            moment,
        });
    }
    let made = entry(rt, alloc, (number, letter), moment);
    if letter.is_ascii_lowercase() {
        Op::Add(made)
    } else {
        Op::Change(made)
    }
}

/// The operations of these steps.
fn history_of(rt: &impl Abort, alloc: Global, steps: &[Step]) -> Vec<Op> {
    let mut history = Vec::new(alloc);
    for step in steps {
        let before = history.len().min(1_000) as i64;
        let moment = Stamp::new(before + 1).expect(rt, "a timestamp");
        let made = operation(rt, alloc, *step, moment);
        history.push(made).expect(rt, "memory");
    }
    history
}

/// The bytes of the document that a feed serves after these operations: the archive of this number, or the
/// subscription document for 0.
pub fn served(rt: &impl Abort, alloc: Global, head: &Head, history: &[Op], number: u32) -> Vec<u8> {
    assert!(rt; history.len() <= 1_000);
    let document = if number == 0 {
        subscription(alloc, head, history)
    } else {
        assert!(rt; (1..=full_windows(head, history)).contains(&number));
        archive(alloc, head, history, number)
    };
    let document = document.expect(rt, "memory");
    let bytes = write_doc(alloc, &document).expect(rt, "memory");
    drop(document);
    bytes
}

/// The bytes of the document that a feed serves after this many operations.
fn bytes_after(
    rt: &impl Abort,
    alloc: Global,
    origin: &Origin,
    count: u32,
    number: u32,
) -> Vec<u8> {
    let id = match origin {
        Origin::Stranger => OTHER_ID,
        _ => ID,
    };
    let steps = match origin {
        Origin::Letters | Origin::Stranger => LETTERS,
        Origin::Changed => CHANGED,
        Origin::Turns => TURNS,
    };
    let steps = steps.get(..count as usize).expect(rt, "that many steps");
    let head = head(rt, alloc, id, 4);
    let history = history_of(rt, alloc, steps);
    let bytes = served(rt, alloc, &head, &history, number);
    drop(history);
    drop(head);
    bytes
}

/// The bytes of a document of these parts.
fn bytes_made(rt: &impl Abort, alloc: Global, made: &Made) -> Vec<u8> {
    let moment = Stamp::new(made.moment).expect(rt, "a timestamp");
    let mut items = Many::new(alloc);
    if let Some(step) = made.entry {
        let shown = Item::Kept(entry(rt, alloc, step, moment));
        items.push(shown).expect(rt, "memory");
    }
    let span = Span {
        first: made.first,
        last: made.last,
    };
    let name = name(rt, alloc, made.base, made.id);
    let document = Doc::new(name, made.kind, span, made.prev, moment, items);
    let document = document.expect(rt, "a document");
    let bytes = write_doc(alloc, &document).expect(rt, "memory");
    drop(document);
    bytes
}

/// The bytes of a document.
pub fn bytes_of(rt: &impl Abort, alloc: Global, given: &Given) -> Vec<u8> {
    match given {
        Given::Version(origin, count) => bytes_after(rt, alloc, origin, *count, 0),
        Given::Archive(origin, number) => {
            let count = number.saturating_mul(4);
            bytes_after(rt, alloc, origin, count, *number)
        }
        Given::Made(made) => bytes_made(rt, alloc, made),
        Given::Plain(bytes) => Vec::from_slice(alloc, bytes).expect(rt, "memory"),
    }
}
