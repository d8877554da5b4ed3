//! `Store` on a disk in memory: requests to it, what it tells of itself, and its documents.

ghost use Rattle.std.specs.Prelude.{◌≡◌, ◌≢◌, false};
ghost use Rattle.feed_recovery.specs.Store.{StandsFor, is_spent};

use crate::disks::{append, disk_of};
use atom_values::{AtomText, Draft, Stamp};
use atom_writer::FeedName;
use chain_links::Base;
use deleted_entries::FeedId;
use feed_disk::Disk;
use feed_recovery::{ArchiveFault, MemberFault, Store};
use member_rules::{Ask, Head, NEWEST_FORMAT, Setting, ShortText, State, WindowSize};
use std::alloc::Global;
use std::process::Abort;

/// The clock in these tests.
pub const NOW: u64 = 1_700_000_000_000;

/// The head of a feed that is made at `NOW`.
pub fn head(rt: &impl Abort, alloc: Global, window: u32, capacity: u64) -> Head {
    assert!(rt; 1 <= window && window <= 100);
    assert!(rt; 4_096 <= capacity && capacity <= 68_719_476_736);
    Head {
        format: NEWEST_FORMAT,
        name: FeedName {
            base: Base::parse(alloc, b"http://feed.example/").expect(rt, "a base"),
            id: FeedId::parse(b"6d1f0c5a-93be-4c27-8d10-2b7f9e4a5c36").expect(rt, "an identifier"),
            title: AtomText::of(alloc, b"Feed").expect(rt, "a title"),
            author: AtomText::of(alloc, b"Editor").expect(rt, "an author"),
        },
        window,
        capacity,
        created: Stamp::new(1_700_000_000_000).expect(rt, "a timestamp"),
    }
}

/// Makes a store on an empty disk.
pub fn init<D: Disk>(rt: &impl Abort, alloc: Global, disk: &mut D, window: u32, capacity: u64) {
    let head = head(rt, alloc, window, capacity);
    Store::init(alloc, disk, &head).expect(rt, "a store");
    drop(head);
}

/// A request as a table has it.
#[derive(Clone, Copy)]
pub enum Request {
    /// Make a member with this title.
    Add(&'static str),
    Replace(u32, &'static str),
    Delete(u32),
    Title(&'static str),
    /// Set the size of windows.
    Size(u32),
}

pub fn ask_of(rt: &impl Abort, alloc: Global, request: &Request) -> Ask {
    match request {
        Request::Delete(number) => Ask::Delete { number: *number },
        Request::Size(size) => {
            Ask::Change(Setting::Window(WindowSize::new(*size).expect(rt, "a size")))
        }
        Request::Title(title) => {
            let text = AtomText::of(alloc, title.as_bytes()).expect(rt, "a title");
            Ask::Change(Setting::Title(ShortText::of(text).expect(rt, "a short title")))
        }
        Request::Add(title) => {
            let text = AtomText::of(alloc, title.as_bytes()).expect(rt, "a title");
            Ask::Create(Draft::titled(alloc, text))
        }
        Request::Replace(number, title) => {
            let text = AtomText::of(alloc, title.as_bytes()).expect(rt, "a title");
            Ask::Replace {
                number: *number,
                draft: Draft::titled(alloc, text),
            }
        }
    }
}

/// Commits the operation of a request. Returns its member's number, the version that was prepared and the new version.
pub fn commit<D: Disk>(
    rt: &impl Abort,
    alloc: Global,
    store: &mut Store,
    disk: &mut D,
    request: &Request,
) -> (u32, u32, u32)
    requires unspent { is_spent store.old ≡ false }
    requires stands { D.observable → StandsFor (D.state disk.old) store.old }
    ensures unspent { is_spent store.new ≡ false }
    ensures stands { D.observable → StandsFor (D.state disk.new) store.new }
{
    let ask = ask_of(rt, alloc, request);
    let ready = store.prepare(ask, NOW).expect(rt, "an operation");
    let (number, prepared) = (ready.number(), ready.version());
    let version = store.commit(disk, ready).expect(rt, "a commit");
    (number, prepared, version)
}

/// A document of a store.
#[derive(Clone, Copy)]
pub enum Document {
    Subscription,
    Archive(u32),
    Member(u32),
}

/// Returns a document, or the text of `refusal`.
pub fn show_document<D: Disk>(
    rt: &impl Abort,
    alloc: Global,
    store: &mut Store,
    disk: &mut D,
    document: &Document,
) -> Vec<u8>
    requires unspent { is_spent store.old ≡ false }
    requires stands { D.observable → StandsFor (D.state disk.old) store.old }
    ensures unspent { is_spent store.new ≡ false }
    ensures stands { D.observable → StandsFor (D.state disk.new) store.new }
{
    match document {
        Document::Subscription => store.subscription().expect(rt, "memory"),
        Document::Archive(number) => match store.archive(disk, *number) {
            Ok(text) => text,
            Err(ArchiveFault::NotSealed { number, sealed }) => {
                refusal(rt, alloc, "not sealed", number, i64::from(sealed))
            }
            Err(fault) => panic!(rt; "{fault}"),
        },
        Document::Member(number) => match store.member(disk, *number) {
            Ok(text) => text,
            Err(fault) => member_refusal(rt, alloc, &fault),
        },
    }
}

fn member_refusal(rt: &impl Abort, alloc: Global, fault: &MemberFault) -> Vec<u8>
    ensures { fault.now ≢ MemberFault.DiskFault }
{
    match fault {
        MemberFault::NotFound { number } => refusal(rt, alloc, "not found", *number, 0),
        MemberFault::Deleted { number, when } => {
            refusal(rt, alloc, "deleted", *number, when.millis())
        }
        other => panic!(rt; "{other}"),
    }
}

/// The text that stands for a refused document: the reason, its number, and how many archives are sealed, or when the
/// member was deleted.
pub fn refusal(rt: &impl Abort, alloc: Global, why: &str, number: u32, detail: i64) -> Vec<u8> {
    let text = format!(in alloc; "{why} {number} {detail}").expect(rt, "memory");
    let mut bytes = Vec::new(alloc);
    append(rt, &mut bytes, text.as_bytes());
    bytes
}

/// A step of a course of a store.
pub enum Step {
    /// Commits the operation of a request. Its member's number, the version that was prepared and the new version.
    Commit(Request, (u32, u32, u32)),
    /// The version, and how many archives are sealed.
    Counts(u32, u32),
    /// The size of windows in the head, the device calls since the load, and the operation that set the entry of member 1.
    State(u32, u64, Option<u32>),
    /// A feed document, after `OPENING`.
    Feed(Document, &'static [u8]),
    /// A whole document, or the text of `refusal`.
    Text(Document, &'static [u8]),
}

/// The operation that set the entry of member 1.
fn first_member(store: &Store) -> Option<u32>
    requires { is_spent store.now ≡ false }
{
    match store.state(1) {
        State::Live { version, .. } => Some(version),
        State::Never | State::Gone { .. } => None,
    }
}

/// Takes a step, and returns whether it has the values of the step. The store's load made `loaded` device calls.
fn take<D: Disk>(
    rt: &impl Abort,
    alloc: Global,
    store: &mut Store,
    disk: &mut D,
    step: &Step,
    loaded: u64,
) -> bool
    requires unspent { is_spent store.old ≡ false }
    requires stands { D.observable → StandsFor (D.state disk.old) store.old }
    ensures unspent { is_spent store.new ≡ false }
    ensures stands { D.observable → StandsFor (D.state disk.new) store.new }
{
    match step {
        Step::Commit(request, made) => commit(rt, alloc, store, disk, request) == *made,
        Step::Counts(version, sealed) => (store.version(), store.sealed()) == (*version, *sealed),
        Step::State(window, calls, first) => {
            let made = store.calls().saturating_sub(loaded);
            let found = (store.head().window, made, first_member(store));
            !store.is_spent() && found == (*window, *calls, *first)
        }
        Step::Feed(document, rest) => {
            let text = show_document(rt, alloc, store, disk, document);
            text.as_slice().strip_prefix(OPENING) == Some(*rest)
        }
        Step::Text(document, wanted) => {
            let text = show_document(rt, alloc, store, disk, document);
            text.as_slice() == *wanted
        }
    }
}

/// Loads the store and takes steps with it.
pub fn session<D: Disk>(rt: &impl Abort, alloc: Global, disk: &mut D, row: usize, steps: &[Step]) {
    let mut store = Store::load(alloc, disk).expect(rt, "a store");
    let loaded = store.calls();
    for (index, step) in steps.iter().enumerate() {
        let is_right = take(rt, alloc, &mut store, disk, step, loaded);
        assert!(rt; is_right, "row {row}, step {index}");
    }
    drop(store);
}

/// Takes the steps of some sessions.
pub fn sessions<D: Disk>(
    rt: &impl Abort,
    alloc: Global,
    disk: &mut D,
    row: usize,
    sessions: &[&[Step]],
) {
    for steps in sessions {
        session(rt, alloc, disk, row, steps);
    }
}

/// The beginning of each feed document, up to its title.
pub const OPENING: &[u8] =
    b"<?xml version=\"1.0\" encoding=\"utf-8\"?>\n<feed xmlns=\"http://www.w3.org/2005/Atom\" xmlns:fh=\"http://purl.org/syndication/history/1.0\" xmlns:at=\"http://purl.org/atompub/tombstones/1.0\" xmlns:app=\"http://www.w3.org/2007/app\" xmlns:sp=\"urn:archived-feed:span:1\">\n<id>urn:uuid:6d1f0c5a-93be-4c27-8d10-2b7f9e4a5c36</id>\n";

/// The size of windows, the capacity, and the sessions of a store.
static STORES: [(u32, u64, &[&[Step]]); 2] = [
    // A commit makes four device calls, and eight with a seal.
    (
        1,
        4_096,
        &[&[
            Step::Counts(0, 0),
            Step::State(1, 0, None),
            Step::Commit(Request::Add("a"), (1, 1, 1)),
            Step::Counts(1, 0),
            Step::State(1, 4, Some(1)),
            Step::Commit(Request::Add("b"), (2, 2, 2)),
            Step::Counts(2, 1),
            Step::State(1, 12, Some(1)),
        ]],
    ),
    (
        1,
        1_073_741_824,
        &[
            &[
                Step::Commit(Request::Add("a"), (1, 1, 1)),
                Step::Commit(Request::Add("b"), (2, 2, 2)),
                Step::Commit(Request::Delete(1), (1, 3, 3)),
            ],
            &[Step::Feed(
                Document::Subscription,
                b"<title>Feed</title>\n<updated>2023-11-14T22:13:20.003Z</updated>\n<author><name>Editor</name></author>\n<link rel=\"self\" href=\"http://feed.example/feed\"/>\n<link rel=\"prev-archive\" href=\"http://feed.example/archive/2\"/>\n<sp:span first=\"3\" last=\"3\"/>\n<at:deleted-entry ref=\"urn:uuid:6d1f0c5a-93be-8c27-8000-000000000001\" when=\"2023-11-14T22:13:20.003Z\"/>\n</feed>\n",
            )],
            &[Step::Feed(
                Document::Archive(2),
                b"<title>Feed</title>\n<updated>2023-11-14T22:13:20.002Z</updated>\n<author><name>Editor</name></author>\n<link rel=\"self\" href=\"http://feed.example/archive/2\"/>\n<link rel=\"current\" href=\"http://feed.example/feed\"/>\n<link rel=\"prev-archive\" href=\"http://feed.example/archive/1\"/>\n<link rel=\"next-archive\" href=\"http://feed.example/archive/3\"/>\n<fh:archive/>\n<sp:span first=\"2\" last=\"2\"/>\n<entry><id>urn:uuid:6d1f0c5a-93be-8c27-8000-000000000002</id><title>b</title><updated>2023-11-14T22:13:20.002Z</updated><app:edited>2023-11-14T22:13:20.002Z</app:edited><link rel=\"edit\" href=\"http://feed.example/member/2\"/><content></content></entry>\n</feed>\n",
            )],
            &[Step::Text(Document::Archive(0), b"not sealed 0 2")],
            &[Step::Text(Document::Archive(3), b"not sealed 3 2")],
            &[Step::Text(
                Document::Member(2),
                b"<?xml version=\"1.0\" encoding=\"utf-8\"?>\n<entry xmlns=\"http://www.w3.org/2005/Atom\" xmlns:app=\"http://www.w3.org/2007/app\"><id>urn:uuid:6d1f0c5a-93be-8c27-8000-000000000002</id><title>b</title><updated>2023-11-14T22:13:20.002Z</updated><app:edited>2023-11-14T22:13:20.002Z</app:edited><author><name>Editor</name></author><link rel=\"edit\" href=\"http://feed.example/member/2\"/><content></content></entry>\n",
            )],
            &[Step::Text(Document::Member(1), b"deleted 1 1700000000003")],
            &[Step::Text(Document::Member(3), b"not found 3 0")],
        ],
    ),
];

#[test]
fn a_store_tells_its_counts_and_its_documents(rt: HostRuntime) {
    let alloc = rt.alloc();
    for (row, (window, capacity, steps)) in STORES.iter().enumerate() {
        let mut disk = disk_of(&rt, alloc, b"", b"", &[]);
        init(&rt, alloc, &mut disk, *window, *capacity);
        sessions(&rt, alloc, &mut disk, row, steps);
        drop(disk);
    }
}
