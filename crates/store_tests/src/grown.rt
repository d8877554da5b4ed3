//! Stores of 1,000 operations. Their documents are those that the plain functions make of a list of all operations.

ghost use Rattle.std.specs.Prelude.{◌≡◌, false};
ghost use Rattle.feed_recovery.specs.Store.{StandsFor, is_spent};
ghost use Rattle.member_rules.specs.Table.{IsTableOf};

use crate::disks::disk_of;
use crate::stores::{Document, NOW, Request, ask_of, commit, head, refusal, show_document};
use archive_sealer::{archive, full_windows, sealed_windows, subscription};
use atom_writer::{write_doc, write_member};
use feed_disk::Disk;
use feed_recovery::Store;
use member_rules::{Ask, Head, Members, Op, State, decide};
use std::alloc::Global;
use std::process::Abort;

/// How many operations a store has.
const COUNT: usize = 1_000;

static LETTERS: [&str; 26] = [
    "a", "b", "c", "d", "e", "f", "g", "h", "i", "j", "k", "l", "m", "n", "o", "p", "q", "r", "s",
    "t", "u", "v", "w", "x", "y", "z",
];

/// A feed whose operations are all kept.
#[derive(Drop)]
struct Feed {
    head: Head,
    members: Members,
    history: Vec<Op>,
}

/// A request that the rules allow: to change or to delete a live member, to make one, or to set the title or the size of
/// windows, of which most are small. The high bits of a linear congruential generator are random enough.
fn some_request(seed: u64, members: &Members) -> Request {
    let number = ((seed >> 33) % (u64::from(members.count()) + 1)) as u32;
    let letter = ((seed >> 50) % 26) as usize;
    let title = LETTERS[letter];
    let is_fourth = (seed >> 60) % 4 == 0;
    match (seed >> 24) % 16 {
        0 => return Request::Title(title),
        1 => {
            let most = if is_fourth { 100 } else { 6 };
            return Request::Size(((seed >> 40) % most) as u32 + 1);
        }
        _ => {}
    }
    let State::Live { .. } = members.state(number) else {
        return Request::Add(title);
    };
    if is_fourth {
        return Request::Delete(number);
    }
    Request::Replace(number, title)
}

/// Adds the operation of an ask to the list.
fn apply(rt: &impl Abort, feed: &mut Feed, ask: Ask)
    requires { IsTableOf feed.old.members feed.old.head.created feed.old.history.items }
    ensures { IsTableOf feed.new.members feed.new.head.created feed.new.history.items }
{
    assert!(rt; feed.history.len() < COUNT);
    feed.members.prepare().expect(rt, "memory");
    let operation = decide(&feed.members, &feed.head.name, ask, NOW).expect(rt, "an operation");
    feed.members.commit(&operation);
    feed.history.push(operation).expect(rt, "memory");
}

/// Commits an operation to the store, and adds it to the list.
fn grow<D: Disk>(
    rt: &impl Abort,
    alloc: Global,
    store: &mut Store,
    disk: &mut D,
    feed: &mut Feed,
    seed: u64,
)
    requires unspent { is_spent store.old ≡ false }
    requires stands { D.observable → StandsFor (D.state disk.old) store.old }
    requires table { IsTableOf feed.old.members feed.old.head.created feed.old.history.items }
    ensures unspent { is_spent store.new ≡ false }
    ensures stands { D.observable → StandsFor (D.state disk.new) store.new }
    ensures table { IsTableOf feed.new.members feed.new.head.created feed.new.history.items }
{
    let request = some_request(seed, &feed.members);
    commit(rt, alloc, store, disk, &request);
    apply(rt, feed, ask_of(rt, alloc, &request));
}

/// Returns the documents of the store: the subscription document, the archives, and those of `members` members.
fn documents<D: Disk>(
    rt: &impl Abort,
    alloc: Global,
    store: &mut Store,
    disk: &mut D,
    members: u32,
) -> Vec<u8>
    requires unspent { is_spent store.old ≡ false }
    requires stands { D.observable → StandsFor (D.state disk.old) store.old }
    ensures unspent { is_spent store.new ≡ false }
    ensures stands { D.observable → StandsFor (D.state disk.new) store.new }
{
    let mut all = show_document(rt, alloc, store, disk, &Document::Subscription);
    let sealed = store.sealed();
    for before in 0..sealed {
        let text = show_document(rt, alloc, store, disk, &Document::Archive(before + 1));
        all.extend_from_slice(&text).expect(rt, "memory");
    }
    for before in 0..members {
        let text = show_document(rt, alloc, store, disk, &Document::Member(before + 1));
        all.extend_from_slice(&text).expect(rt, "memory");
    }
    all
}

/// Returns the document of a member of the list, or the text of `refusal`.
fn plain_member(rt: &impl Abort, alloc: Global, feed: &Feed, number: u32) -> Vec<u8> {
    for operation in feed.history.iter().rev() {
        if operation.member() == Some(number) {
            return match operation {
                Op::Add(entry) | Op::Change(entry) => {
                    write_member(alloc, &feed.head.name, entry).expect(rt, "memory")
                }
                Op::Remove(removal) => {
                    refusal(
                        rt,
                        alloc,
                        "deleted",
                        number,
                        removal.tombstone.when.millis(),
                    )
                }
                Op::Set { .. } => refusal(rt, alloc, "a setting", number, 0),
            };
        }
    }
    refusal(rt, alloc, "not found", number, 0)
}

/// Returns the same documents of the list.
fn plain_documents(rt: &impl Abort, alloc: Global, feed: &Feed) -> Vec<u8> {
    let history = feed.history.as_slice();
    assert!(rt; history.len() <= COUNT);
    let newest = subscription(alloc, &feed.head, history).expect(rt, "memory");
    let mut all = write_doc(alloc, &newest).expect(rt, "memory");
    drop(newest);
    for number in 1..=sealed_windows(&feed.head, history) {
        assert!(rt; number <= full_windows(&feed.head, history));
        let sealed = archive(alloc, &feed.head, history, number).expect(rt, "memory");
        let text = write_doc(alloc, &sealed).expect(rt, "memory");
        drop(sealed);
        all.extend_from_slice(&text).expect(rt, "memory");
    }
    for number in 1..=feed.members.count() {
        let text = plain_member(rt, alloc, feed, number);
        all.extend_from_slice(&text).expect(rt, "memory");
    }
    all
}

/// Makes a store. Returns its documents after 1,000 commits, after a load, and those of the list.
fn grown<D: Disk>(
    rt: &impl Abort,
    alloc: Global,
    disk: &mut D,
    window: u32,
    first: u64,
) -> [Vec<u8>; 3] {
    let head = head(rt, alloc, window, 1_073_741_824);
    Store::init(alloc, disk, &head).expect(rt, "a store");
    let mut store = Store::load(alloc, disk).expect(rt, "a store");
    let mut feed = Feed {
        members: Members::new(alloc, head.created),
        head,
        history: Vec::new(alloc),
    };
    let mut seed = first;
    for _ in 0..COUNT {
        seed = seed
            .wrapping_mul(6_364_136_223_846_793_005)
            .wrapping_add(1_442_695_040_888_963_407);
        grow(rt, alloc, &mut store, disk, &mut feed, seed);
    }
    let members = feed.members.count();
    let committed = documents(rt, alloc, &mut store, disk, members);
    let mut again = Store::load(alloc, disk).expect(rt, "a store");
    let loaded = documents(rt, alloc, &mut again, disk, members);
    let plain = plain_documents(rt, alloc, &feed);
    drop((store, again, feed));
    [committed, loaded, plain]
}

#[test]
fn documents_are_those_of_all_operations(rt: HostRuntime) {
    for (window, first) in [(1, 1), (3, 2), (100, 3)] {
        let mut disk = disk_of(&rt, rt.alloc(), b"", b"", &[]);
        let [committed, loaded, plain] = grown(&rt, rt.alloc(), &mut disk, window, first);
        assert!(rt;
            committed == plain && loaded == plain,
            "windows of {window}"
        );
        drop(disk);
    }
}
