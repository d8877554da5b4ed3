//! Lives, and their events as data, for the other modules.

use atom_values::{AtomText, Bytes, Stamp};
use atom_writer::FeedName;
use chain_links::{Address, Base};
use deleted_entries::FeedId;
use feed_disk::Choice;
use feed_life::{Event, Life, Stop};
use http_face::{Request, Verb};
use member_rules::{Head, NEWEST_FORMAT, Setting, ShortText, WindowSize};
use std::alloc::Global;
use std::process::Abort;

/// The moment of the clock: 2023-11-14T22:13:20Z.
pub const NOW: u64 = 1_700_000_000_000;

/// The content that unsynced bytes have after a crash.
#[derive(Clone, Copy)]
pub enum Left {
    Old,
    New,
    Filled,
    /// Three bytes past the old end, of which the first is given.
    Given,
}

/// A crash: the device call, and what unsynced bytes become.
pub type Crash = (u64, Left);

/// An event, without its crash.
#[derive(Clone, Copy)]
pub enum Does {
    /// A POST of an entry with the title `t` and this number.
    Make(u32),
    /// A PUT of the member with this number, to the title `t` and this number.
    Replace(u32, u32),
    /// A DELETE of the member with this number.
    Delete(u32),
    /// A GET of the feed.
    Feed,
    /// A GET of the archive with this number.
    Archive(u32),
    /// To this mirror, the sent document of this index.
    Give(u32, u32),
    /// This mirror walks.
    Walk(u32),
    /// The feed gets the title `f` and this number.
    Title(u32),
    /// Later windows get this many operations.
    Window(u32),
}

/// The head of a feed with windows of this many operations.
pub fn head(rt: &impl Abort, alloc: Global, window: u32, capacity: u64) -> Head {
    assert!(rt; (1..=100).contains(&window));
    assert!(rt; (4_096..=68_719_476_736).contains(&capacity));
    Head {
        format: NEWEST_FORMAT,
        name: FeedName {
            base: Base::parse(alloc, b"http://feed.example/").expect(rt, "a base"),
            id: FeedId::parse(b"6d1f0c5a-93be-4c27-8d10-2b7f9e4a5c36").expect(rt, "an identifier"),
            title: AtomText::of(alloc, b"Feed").expect(rt, "a title"),
            author: AtomText::of(alloc, b"Editor").expect(rt, "an author"),
        },
        window,
        capacity,
        created: Stamp::new(0).expect(rt, "a timestamp"),
    }
}

/// A life whose store has windows of this many operations, with this many mirrors.
pub fn life(rt: &impl Abort, alloc: Global, window: u32, capacity: u64, mirrors: u32) -> Life {
    assert!(rt; mirrors <= 100);
    let head = head(rt, alloc, window, capacity);
    let life = Life::new(alloc, &head, mirrors).expect(rt, "memory");
    drop(head);
    life
}

pub fn bytes(rt: &impl Abort, alloc: Global, from: &[u8]) -> Bytes {
    Bytes::of(alloc, from).expect(rt, "memory")
}

/// The path of an address.
fn path(rt: &impl Abort, alloc: Global, address: Address) -> Bytes {
    let text = match address {
        Address::Feed => format!(in alloc; "/feed"),
        Address::Archive(number) => format!(in alloc; "/archive/{number}"),
        Address::Member(number) => format!(in alloc; "/member/{number}"),
    };
    bytes(rt, alloc, text.expect(rt, "memory").as_bytes())
}

/// The request of an event that is one.
pub fn request(rt: &impl Abort, alloc: Global, does: Does) -> Request {
    let (verb, address, title) = match does {
        Does::Make(title) => (Verb::Post, Address::Feed, Some(title)),
        Does::Replace(number, title) => (Verb::Put, Address::Member(number), Some(title)),
        Does::Delete(number) => (Verb::Delete, Address::Member(number), None),
        Does::Archive(number) => (Verb::Get, Address::Archive(number), None),
        _ => (Verb::Get, Address::Feed, None),
    };
    let body = match title {
        Some(title) => format!(in alloc;
            "<entry xmlns=\"http://www.w3.org/2005/Atom\"><title>t{title}</title></entry>"
        ),
        None => format!(in alloc; ""),
    };
    let body = bytes(rt, alloc, body.expect(rt, "memory").as_bytes());
    assert!(rt; body.slice().len() <= 65_536);
    Request {
        verb,
        target: path(rt, alloc, address),
        media: None,
        body,
    }
}

/// The title `f` and this number, as a setting.
fn title(rt: &impl Abort, alloc: Global, number: u32) -> Setting {
    let text = format!(in alloc; "f{number}").expect(rt, "memory");
    let text = AtomText::of(alloc, text.as_bytes()).expect(rt, "a title");
    Setting::Title(ShortText::of(text).expect(rt, "a short title"))
}

fn stop(rt: &impl Abort, alloc: Global, crash: Option<Crash>) -> Option<Stop> {
    let (call, left) = crash?;
    let choice = match left {
        Left::Old => Choice::Old,
        Left::New => Choice::New,
        Left::Filled => Choice::Fill(165),
        Left::Given => Choice::Given {
            size: 3,
            bytes: bytes(rt, alloc, b"x"),
        },
    };
    Some(Stop { call, choice })
}

/// An event.
pub fn event(rt: &impl Abort, alloc: Global, does: Does, crash: Option<Crash>) -> Event {
    let (now, stop) = (NOW, stop(rt, alloc, crash));
    match does {
        Does::Give(mirror, sent) => Event::Give { mirror, sent, stop },
        Does::Walk(mirror) => Event::Walk { mirror, stop },
        Does::Title(number) => Event::Set {
            setting: title(rt, alloc, number),
            now,
            stop,
        },
        Does::Window(size) => Event::Set {
            setting: Setting::Window(WindowSize::new(size).expect(rt, "a size")),
            now,
            stop,
        },
        _ => Event::Ask {
            request: request(rt, alloc, does),
            now,
            stop,
        },
    }
}
