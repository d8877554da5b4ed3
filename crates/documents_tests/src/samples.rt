//! Feeds, asks and operations as data, for the other modules.
ghost use Rattle.std.specs.Prelude.{◌≡◌, ◌≤◌, pos, length};
ghost use Rattle.member_rules.specs.Head.{title_limit};
ghost use Rattle.member_rules.specs.Table.{IsTableOf};

use atom_values::{AtomText, Copies, Draft, Entry, Stamp, Text, TextKind};
use atom_writer::FeedName;
use chain_links::Base;
use deleted_entries::{FeedId, Tombstone};
use member_rules::{
    Ask, Head, Members, NEWEST_FORMAT, Op, Removal, RuleFault, Setting, ShortText, WindowSize,
    decide,
};
use std::alloc::Global;
use std::fmt::{Debug, Display};
use std::process::Abort;

/// A setting of the feed.
#[derive(Clone, Copy)]
pub enum NewSetting {
    Title(&'static [u8]),
    Window(u32),
}

/// What is asked for or done: on the member with this number, or on a setting. An ask that adds has no use of the number.
#[derive(Clone, Copy)]
pub enum Step {
    Add(u32),
    Change(u32),
    Remove(u32),
    Set(NewSetting),
}

/// The parts that a draft has beside the title `A`.
#[derive(Clone, Copy)]
pub struct Parts {
    pub id: Option<&'static [u8]>,
    pub updated: Option<i64>,
    /// Content of 65,536 ampersands, and a summary of this many ampersands and then this many letters.
    pub long: Option<(usize, usize)>,
}

pub const PLAIN: Parts = Parts {
    id: None,
    updated: None,
    long: None,
};

pub fn moment(rt: &impl Abort, millis: i64) -> Stamp {
    Stamp::new(millis).expect(rt, "a moment")
}

pub fn text(rt: &impl Abort, alloc: Global, bytes: &[u8]) -> AtomText
    ensures { result ≡ bytes.now }
{
    AtomText::of(alloc, bytes).expect(rt, "a text")
}

/// Ampersands, each of which takes five bytes in a document, and then letters.
pub fn filled(rt: &impl Abort, alloc: Global, ampersands: usize, letters: usize) -> AtomText {
    let mut bytes = Vec::new(alloc);
    bytes.resize(ampersands, b'&').expect(rt, "memory");
    let length = ampersands.saturating_add(letters);
    bytes.resize(length, b'a').expect(rt, "memory");
    text(rt, alloc, bytes.as_slice())
}

pub fn feed_name(rt: &impl Abort, alloc: Global) -> FeedName
    ensures title { length result.title ≤ title_limit }
    ensures author { length result.author ≤ title_limit }
{
    FeedName {
        base: Base::parse(alloc, b"http://feed.example/").expect(rt, "a base"),
        id: FeedId::parse(b"6d1f0c5a-93be-4c27-8d10-2b7f9e4a5c36").expect(rt, "a feed identifier"),
        title: text(rt, alloc, b"Feed"),
        author: text(rt, alloc, b"Editor"),
    }
}

/// A head with this size of windows.
pub fn head(rt: &impl Abort, alloc: Global, window: u8) -> Head {
    assert!(rt; (1..=100).contains(&window));
    Head {
        format: NEWEST_FORMAT,
        name: feed_name(rt, alloc),
        window: u32::from(window),
        capacity: 65_536,
        created: Stamp::new(0).unwrap(),
    }
}

pub fn draft(rt: &impl Abort, alloc: Global, parts: &Parts) -> Draft {
    let mut draft = Draft::titled(alloc, text(rt, alloc, b"A"));
    if let Some(id) = parts.id {
        draft.id = Some(text(rt, alloc, id));
    }
    if let Some(updated) = parts.updated {
        draft.updated = Stamp::new(updated);
    }
    if let Some((ampersands, letters)) = parts.long {
        draft.content = plain(filled(rt, alloc, 65_536, 0));
        draft.summary = plain(filled(rt, alloc, ampersands, letters));
    }
    draft
}

fn plain(value: AtomText) -> Option<Text> {
    let kind = TextKind::Plain;
    Some(Text { kind, value })
}

pub fn setting(rt: &impl Abort, alloc: Global, new: NewSetting) -> Setting {
    match new {
        NewSetting::Title(title) => {
            let title = text(rt, alloc, title);
            Setting::Title(ShortText::of(title).expect(rt, "a short text"))
        }
        NewSetting::Window(size) => Setting::Window(WindowSize::new(size).expect(rt, "a size")),
    }
}

/// The ask of a step. Its draft has these parts.
pub fn ask(rt: &impl Abort, alloc: Global, parts: &Parts, step: Step) -> Ask {
    match step {
        Step::Add(_) => Ask::Create(draft(rt, alloc, parts)),
        Step::Change(number) => Ask::Replace {
            number,
            draft: draft(rt, alloc, parts),
        },
        Step::Remove(number) => Ask::Delete { number },
        Step::Set(new) => Ask::Change(setting(rt, alloc, new)),
    }
}

/// A member's entry, accepted at the moment `edited`.
fn entry(rt: &impl Abort, alloc: Global, number: u32, edited: Stamp, updated: i64) -> Entry {
    let mut draft = draft(rt, alloc, &PLAIN);
    draft.updated = Some(moment(rt, updated));
    draft.normal(number.max(1), edited, None)
}

/// The operation of a step, at this moment. Its entry or its tombstone has this stamp.
pub fn operation(rt: &impl Abort, alloc: Global, step: Step, at: i64, stamp: i64) -> Op {
    let accepted = moment(rt, at);
    match step {
        Step::Add(number) => Op::Add(entry(rt, alloc, number, accepted, stamp)),
        Step::Change(number) => Op::Change(entry(rt, alloc, number, accepted, stamp)),
        Step::Remove(number) => Op::Remove(Removal {
            tombstone: Tombstone {
                number: number.max(1),
                when: moment(rt, stamp).max(accepted),
            },
            moment: accepted,
        }),
        Step::Set(new) => Op::Set {
            setting: setting(rt, alloc, new),
            moment: accepted,
        },
    }
}

/// A feed with its history, and the table of the members after that history.
#[derive(Drop)]
pub struct Feed {
    pub name: FeedName,
    pub members: Members,
    pub history: Vec<Op>,
}

/// A feed that was made at the start of 1970.
pub fn empty(rt: &impl Abort, alloc: Global) -> Feed
    ensures table { IsTableOf result.members (pos 0) result.history.items }
    ensures empty { result.members.operations ≡ 0 }
{
    let created = Stamp::new(0).expect(rt, "a moment");
    Feed {
        name: feed_name(rt, alloc),
        members: Members::new(alloc, created),
        history: Vec::new(alloc),
    }
}

/// Decides the ask, and commits the operation that it becomes.
pub fn apply(rt: &impl Abort, feed: &mut Feed, ask: Ask, now: u64) -> Option<RuleFault>
    requires { IsTableOf feed.old.members (pos 0) feed.old.history.items }
    ensures { IsTableOf feed.new.members (pos 0) feed.new.history.items }
{
    assert!(rt; feed.history.len() < 10_000);
    feed.members.prepare().expect(rt, "memory");
    match decide(&feed.members, &feed.name, ask, now) {
        Ok(operation) => {
            feed.members.commit(&operation);
            feed.history.push(operation).expect(rt, "memory");
            None
        }
        Err(fault) => Some(fault),
    }
}

/// Compares all that a copy has with all that its original has.
pub fn expect_equal_copy<T: Copies + Debug + Drop>(rt: &impl Abort, alloc: Global, value: &T) {
    let copy = value.copy(alloc).expect(rt, "memory");
    let copied = format!(in alloc; "{copy:?}").expect(rt, "memory");
    let original = format!(in alloc; "{value:?}").expect(rt, "memory");
    assert!(rt; copied.as_str() == original.as_str());
    drop(copy);
}

/// Compares the sentence of a fault.
pub fn expect_sentence<E: Display + Drop>(rt: &impl Abort, alloc: Global, fault: E, want: &str) {
    let sentence = format!(in alloc; "{fault}").expect(rt, "memory");
    drop(fault);
    assert!(rt; sentence.as_str() == want, "{sentence}");
}
