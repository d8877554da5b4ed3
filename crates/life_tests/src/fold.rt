//! A feed and its mirrors as the tests keep them by themselves: the list of operations, the documents that each mirror
//! holds, and the texts of the documents.

use crate::events::{Crash, Does, Left};
use chain_links::Address;
use mirror_walk::Outcome;
use std::alloc::Global;
use std::process::Abort;

/// An operation.
#[derive(Clone, Copy)]
pub enum Change {
    /// On the member with this number: its new title is `t` and the other number, or it is deleted.
    Member(u32, Option<u32>),
    /// The feed's title is `f` and this number.
    Title(u32),
    /// Later windows have this many operations.
    Window(u32),
}

/// A document of the feed: the subscription document of a version, or an archive.
#[derive(Clone, Copy, PartialEq, Eq)]
pub enum Doc {
    Feed(u32),
    Archive(u32),
}

/// A feed, what was sent of it, and its mirrors.
#[derive(Drop)]
pub struct Fold {
    /// Names the course in messages.
    pub name: &'static str,
    window: u32,
    /// The number of mirrors, at most two.
    pub mirrors: u32,
    /// How many documents a mirror has room for.
    pub room: usize,
    changes: Vec<Change>,
    /// How many archives are in the sealed area. The last one may have been written for an operation that a crash lost.
    seals: u32,
    /// The documents that were sent, each with the version then.
    pub sent: Vec<(Doc, u32)>,
    /// The documents that each mirror holds.
    held: [Vec<Doc>; 2],
    pub stops: u64,
    pub mirror_stops: u64,
}

/// How many payloads of an area are there after a crash within this call of appends of four calls each. Until the third
/// call of an append the new payload is lost, and then it is there if unsynced bytes are as they were written.
pub fn appended((call, left): Crash) -> u64 {
    let whole = call.saturating_sub(1) / 4;
    let amid = call.saturating_sub(1) % 4;
    if call > 0 && amid >= 2 && matches!(left, Left::New) {
        whole + 1
    } else {
        whole
    }
}

/// The title that this member's last operation gave it, or `None` in its place for a deletion.
fn last_of(changes: &[Change], number: u32) -> Option<Option<u32>> {
    let mut last = None;
    for change in changes {
        if let Change::Member(named, title) = *change {
            if named == number {
                last = Some(title);
            }
        }
    }
    last
}

/// The number of members ever made, which are numbered from 1, and how many of them are live.
fn members(changes: &[Change]) -> (u32, u32) {
    let (mut made, mut deleted) = (0u32, 0u32);
    for change in changes {
        if let Change::Member(number, title) = *change {
            made = number.max(made);
            if title.is_none() {
                deleted = deleted.saturating_add(1);
            }
        }
    }
    (made, made.saturating_sub(deleted))
}

/// The version of the newest subscription document that is held.
fn best(held: &[Doc]) -> Option<u32> {
    let mut best: Option<u32> = None;
    for doc in held {
        if let Doc::Feed(version) = *doc {
            best = Some(match best {
                Some(newest) => version.max(newest),
                None => version,
            });
        }
    }
    best
}

/// Gives a document to a mirror that has room for this many and appends at most `left` more payloads. It takes the
/// document if it holds neither it nor a newer one.
fn give(rt: &impl Abort, held: &mut Vec<Doc>, doc: Doc, room: usize, left: &mut u64) {
    let is_new = match (doc, best(held.as_slice())) {
        (Doc::Feed(version), Some(newest)) => newest < version,
        (Doc::Feed(_), None) => true,
        (Doc::Archive(_), _) => !held.as_slice().contains(&doc),
    };
    if is_new && *left > 0 && held.len() < room {
        held.push(doc).expect(rt, "memory");
        *left = left.saturating_sub(1);
    }
}

impl Fold {
    /// A feed without operations, and two mirrors with room for each document.
    pub fn new(alloc: Global, name: &'static str, window: u32) -> Fold {
        Fold {
            name,
            window,
            mirrors: 2,
            room: usize::MAX,
            changes: Vec::new(alloc),
            seals: 0,
            sent: Vec::new(alloc),
            held: [Vec::new(alloc), Vec::new(alloc)],
            stops: 0,
            mirror_stops: 0,
        }
    }

    /// The number of operations.
    pub fn version(&self) -> u32 {
        u32::try_from(self.changes.len()).unwrap_or(u32::MAX)
    }

    /// The size of a window that begins after this many operations.
    fn size_after(&self, operations: u32) -> u32 {
        let mut size = self.window;
        for change in self.changes.iter().take(operations as usize) {
            if let Change::Window(new) = *change {
                size = new;
            }
        }
        size
    }

    /// The last window, of at most this many, that ends before this operation, and its last operation. Windows and
    /// operations are counted from 1, and 0 is none.
    pub fn windows(&self, most: u32, operation: u32) -> (u32, u32) {
        let (mut last, mut end) = (0, 0u32);
        for number in 1..=most {
            let next = end.saturating_add(self.size_after(end));
            if next >= operation {
                break;
            }
            last = number;
            end = next;
        }
        (last, end)
    }

    /// The newest archive that the subscription document of a version names, or 0.
    pub fn prev(&self, version: u32) -> u32 {
        self.windows(version, version).0
    }

    /// The operation of a request if it has one, and the status of the reply.
    fn effect(&self, does: Does) -> (Option<Change>, u16) {
        let changes = self.changes.as_slice();
        let (number, title) = match does {
            Does::Make(title) => {
                let number = members(changes).0.saturating_add(1);
                return (Some(Change::Member(number, Some(title))), 201);
            }
            Does::Title(number) => return (Some(Change::Title(number)), 200),
            Does::Window(size) => return (Some(Change::Window(size)), 200),
            Does::Replace(number, title) => (number, Some(title)),
            Does::Delete(number) => (number, None),
            Does::Archive(number) if number == 0 || number > self.prev(self.version()) => {
                return (None, 404);
            }
            _ => return (None, 200),
        };
        match last_of(changes, number) {
            None => (None, 404),
            Some(None) => (None, 410),
            Some(Some(_)) => (Some(Change::Member(number, title)), 200),
        }
    }

    /// Adds an operation. Appends at most `payloads` payloads: its seal, if one is due and missing, and the operation.
    fn add(&mut self, rt: &impl Abort, change: Change, payloads: u64) {
        let due = self.prev(self.version().saturating_add(1));
        let seals = if due > self.seals { 1 } else { 0 };
        if payloads >= seals {
            self.seals = due;
        }
        if payloads > seals {
            self.changes.push(change).expect(rt, "memory");
        }
    }

    /// A gift or a walk, of which at most this many payloads are appended. Returns whether its mirror and its document
    /// exist.
    fn offer(&mut self, rt: &impl Abort, does: Does, payloads: u64) -> bool {
        let version = self.version();
        let (prev, room) = (self.prev(version), self.room);
        let (mirror, doc) = match does {
            Does::Give(mirror, sent) => match self.sent.get(sent as usize) {
                Some(&(doc, _)) => (mirror, doc),
                None => return false,
            },
            Does::Walk(mirror) => (mirror, Doc::Feed(version)),
            _ => return false,
        };
        if mirror >= self.mirrors {
            return false;
        }
        let Some(held) = self.held.get_mut(mirror as usize) else {
            return false;
        };
        let mut left = payloads;
        give(rt, held, doc, room, &mut left);
        if matches!(does, Does::Walk(_)) {
            for number in (1..=prev).rev() {
                give(rt, held, Doc::Archive(number), room, &mut left);
            }
        }
        true
    }

    /// Takes an event. Returns the status of the reply if there is one.
    pub fn take(&mut self, rt: &impl Abort, does: Does, crash: Option<Crash>) -> Option<u16> {
        let payloads = match crash {
            Some(crash) => appended(crash),
            None => u64::MAX,
        };
        if matches!(does, Does::Give(..) | Does::Walk(_)) {
            if self.offer(rt, does, payloads) && crash.is_some() {
                self.mirror_stops = self.mirror_stops.saturating_add(1);
            }
            return None;
        }
        let (change, status) = self.effect(does);
        if let Some(change) = change {
            self.add(rt, change, payloads);
        }
        if crash.is_some() {
            self.stops = self.stops.saturating_add(1);
            return None;
        }
        let version = self.version();
        let sent = match does {
            Does::Title(_) | Does::Window(_) => return None,
            Does::Feed => Doc::Feed(version),
            Does::Archive(number) if status == 200 => Doc::Archive(number),
            _ => return Some(status),
        };
        self.sent.push((sent, version)).expect(rt, "memory");
        Some(status)
    }

    /// The entries that a mirror shows.
    pub fn outcome(&self, mirror: u32) -> Outcome {
        let held: &[Doc] = match self.held.get(mirror as usize) {
            Some(held) => held.as_slice(),
            None => &[],
        };
        let Some(version) = best(held) else {
            return Outcome::Missing {
                address: Address::Feed,
            };
        };
        for number in (1..=self.prev(version)).rev() {
            if !held.contains(&Doc::Archive(number)) {
                return Outcome::Missing {
                    address: Address::Archive(number),
                };
            }
        }
        let changes = self.changes.as_slice().get(..version as usize);
        let (_, live) = members(changes.unwrap_or(&[]));
        Outcome::Complete { version, live }
    }

    /// The feed's title after this many operations.
    fn title(&self, rt: &impl Abort, alloc: Global, operations: u32) -> String {
        let mut title = format!(in alloc; "Feed").expect(rt, "memory");
        for change in self.changes.iter().take(operations as usize) {
            if let Change::Title(number) = *change {
                title = format!(in alloc; "f{number}").expect(rt, "memory");
            }
        }
        title
    }

    /// The text of a document.
    pub fn text(&self, rt: &impl Abort, alloc: Global, doc: Doc) -> String {
        let (prev, before, last) = match doc {
            Doc::Feed(version) => {
                let (prev, before) = self.windows(version, version);
                (prev, before, version)
            }
            Doc::Archive(number) => {
                let (prev, before) = self.windows(number.saturating_sub(1), u32::MAX);
                (prev, before, self.windows(number, u32::MAX).1)
            }
        };
        let first = before.saturating_add(1);
        let title = self.title(rt, alloc, last);
        let updated = moment(rt, alloc, last);
        let links = links(rt, alloc, doc, prev);
        let items = items(rt, alloc, self.changes.as_slice(), before, last);
        format!(in alloc;
            "{OPENING}<title>{title}</title>\n<updated>{updated}</updated>\n<author><name>Editor</name></author>\n{links}<sp:span first=\"{first}\" last=\"{last}\"/>\n{items}</feed>\n"
        ).expect(rt, "memory")
    }
}

/// The first lines of each document.
const OPENING: &str =
    "<?xml version=\"1.0\" encoding=\"utf-8\"?>\n<feed xmlns=\"http://www.w3.org/2005/Atom\" xmlns:fh=\"http://purl.org/syndication/history/1.0\" xmlns:at=\"http://purl.org/atompub/tombstones/1.0\" xmlns:app=\"http://www.w3.org/2007/app\" xmlns:sp=\"urn:archived-feed:span:1\">\n<id>urn:uuid:6d1f0c5a-93be-4c27-8d10-2b7f9e4a5c36</id>\n";

/// The timestamp of an operation, or of a feed without operations. The clock stands still, so each is a millisecond
/// after the one before.
fn moment(rt: &impl Abort, alloc: Global, operation: u32) -> String {
    let text = match operation {
        0 => format!(in alloc; "1970-01-01T00:00:00Z"),
        1 => format!(in alloc; "2023-11-14T22:13:20Z"),
        _ => format!(in alloc; "2023-11-14T22:13:20.{:03}Z", operation.saturating_sub(1)),
    };
    text.expect(rt, "memory")
}

/// The address of a document.
pub fn address(rt: &impl Abort, alloc: Global, doc: Doc) -> String {
    let text = match doc {
        Doc::Feed(_) => format!(in alloc; "http://feed.example/feed"),
        Doc::Archive(number) => format!(in alloc; "http://feed.example/archive/{number}"),
    };
    text.expect(rt, "memory")
}

/// The lines of a document's links, and the mark of an archive. There is no link to archive 0.
fn links(rt: &impl Abort, alloc: Global, doc: Doc, prev: u32) -> String {
    let own = address(rt, alloc, doc);
    let older = if prev == 0 {
        String::new(alloc)
    } else {
        format!(in alloc;
            "<link rel=\"prev-archive\" href=\"http://feed.example/archive/{prev}\"/>\n"
        ).expect(rt, "memory")
    };
    let text = match doc {
        Doc::Feed(_) => format!(in alloc; "<link rel=\"self\" href=\"{own}\"/>\n{older}"),
        Doc::Archive(number) => format!(in alloc;
            "<link rel=\"self\" href=\"{own}\"/>\n<link rel=\"current\" href=\"http://feed.example/feed\"/>\n{older}<link rel=\"next-archive\" href=\"http://feed.example/archive/{}\"/>\n<fh:archive/>\n",
            number.saturating_add(1)
        ),
    };
    text.expect(rt, "memory")
}

/// The line of the item of an operation.
fn item(
    rt: &impl Abort,
    alloc: Global,
    (number, title): (u32, Option<u32>),
    operation: u32,
) -> String {
    let moment = moment(rt, alloc, operation);
    let text = match title {
        Some(title) => format!(in alloc;
            "<entry><id>urn:uuid:6d1f0c5a-93be-8c27-8000-{number:012x}</id><title>t{title}</title><updated>{moment}</updated><app:edited>{moment}</app:edited><link rel=\"edit\" href=\"http://feed.example/member/{number}\"/><content></content></entry>\n"
        ),
        None => format!(in alloc;
            "<at:deleted-entry ref=\"urn:uuid:6d1f0c5a-93be-8c27-8000-{number:012x}\" when=\"{moment}\"/>\n"
        ),
    };
    text.expect(rt, "memory")
}

/// The items of the operations after the first `before`, up to the last: one for each member, newest first.
fn items(rt: &impl Abort, alloc: Global, changes: &[Change], before: u32, last: u32) -> String {
    let mut text = String::new(alloc);
    let mut shown: Vec<u32> = Vec::new(alloc);
    for index in (before..last).rev() {
        let Some(&Change::Member(number, title)) = changes.get(index as usize) else {
            continue;
        };
        if !shown.contains(&number) {
            shown.push(number).expect(rt, "memory");
            let line = item(rt, alloc, (number, title), index.saturating_add(1));
            text.push_str(line.as_str()).expect(rt, "memory");
        }
    }
    text
}
