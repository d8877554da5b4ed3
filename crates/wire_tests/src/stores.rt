//! Stores on disks in memory, and requests on them, for the other modules.
//!
//! A function that owns a store or a disk has few exits, since the proof drops each of its values at each exit.

ghost use Rattle.std.specs.Prelude.{◌≡◌, false};
ghost use Rattle.feed_recovery.specs.Store.{StandsFor, is_spent};

use crate::conns::{conn_of, disk_of};
use atom_values::{AtomText, Stamp};
use atom_writer::FeedName;
use chain_links::Base;
use deleted_entries::FeedId;
use document_server::answer;
use feed_disk::{Disk, MemoryDisk};
use feed_recovery::Store;
use http_face::{Conn, read_request, write_reply};
use member_rules::{Head, NEWEST_FORMAT};
use std::alloc::Global;
use std::process::Abort;

/// The moment of the clock unless a table has another: 2023-11-14T22:13:20Z.
pub const NOW: u64 = 1_700_000_000_000;

/// The capacity of a store unless a test has another.
pub const CAPACITY: u64 = 1 << 36;

/// Makes a store that has no operation. Its feed is made at `NOW`.
pub fn init<D: Disk>(rt: &impl Abort, alloc: Global, disk: &mut D, window: u32, capacity: u64) {
    assert!(rt; 1 <= window && window <= 100);
    assert!(rt; 4_096 <= capacity && capacity <= CAPACITY);
    let head = Head {
        format: NEWEST_FORMAT,
        name: FeedName {
            base: Base::parse(alloc, b"http://feed.example/").expect(rt, "a base"),
            id: FeedId::parse(b"6d1f0c5a-93be-4c27-8d10-2b7f9e4a5c36").expect(rt, "an identifier"),
            title: AtomText::of(alloc, b"Feed").expect(rt, "a title"),
            author: AtomText::of(alloc, b"Editor").expect(rt, "an author"),
        },
        window,
        capacity,
        created: Stamp::new(NOW as i64).expect(rt, "a timestamp"),
    };
    Store::init(alloc, disk, &head).expect(rt, "a store");
    drop(head);
}

/// Returns a disk with a store that has no operation, of which this device call fails. 0 is no call.
pub fn store_disk(
    rt: &impl Abort,
    alloc: Global,
    window: u32,
    capacity: u64,
    failing: u64,
) -> MemoryDisk {
    let mut disk = disk_of(rt, alloc, b"", failing);
    init(rt, alloc, &mut disk, window, capacity);
    disk
}

/// Answers a request on a store at a moment of the clock. Returns the bytes that the connection is sent.
pub fn reply_to<D: Disk>(
    rt: &impl Abort,
    alloc: Global,
    store: &mut Store,
    disk: &mut D,
    now: u64,
    bytes: &[u8],
) -> Vec<u8>
    requires unspent { is_spent store.old ≡ false }
    requires stands { D.observable → StandsFor (D.state disk.old) store.old }
{
    let mut conn = conn_of(rt, alloc, bytes, 0);
    let request = read_request(alloc, &mut conn).expect(rt, "a request");
    let reply = answer(alloc, store, disk, &request, now);
    conn.begin(disk);
    write_reply(&mut conn, &reply).expect(rt, "a whole reply");
    let sent = Vec::from_slice(alloc, conn.sent()).expect(rt, "memory");
    drop((conn, request, reply));
    sent
}

/// Loads the store and answers a request at a moment of the clock. Returns the bytes that the connection is sent.
fn exchange<D: Disk>(
    rt: &impl Abort,
    alloc: Global,
    disk: &mut D,
    now: u64,
    bytes: &[u8],
) -> Vec<u8> {
    let mut store = Store::load(alloc, disk).expect(rt, "a store");
    let sent = reply_to(rt, alloc, &mut store, disk, now, bytes);
    drop(store);
    sent
}

/// Returns a POST of an entry with a title of this many letters and a comment of this many.
fn post_of(rt: &impl Abort, alloc: Global, title: usize, comment: usize) -> Vec<u8> {
    let title = vec![in alloc; b'a'; title].expect(rt, "memory");
    let comment = vec![in alloc; b'a'; comment].expect(rt, "memory");
    let parts: [&[u8]; 5] = [
        b"<entry xmlns=\"http://www.w3.org/2005/Atom\"><title>",
        title.as_slice(),
        b"</title><!--",
        comment.as_slice(),
        b"--></entry>",
    ];
    let body = parts.concat(alloc).expect(rt, "memory");
    let start = format!(in alloc;
        "POST /feed HTTP/1.1\r\nContent-Length: {}\r\n\r\n",
        body.len()
    )
    .expect(rt, "memory");
    [start.as_bytes(), body.as_slice()]
        .concat(alloc)
        .expect(rt, "memory")
}

/// A request on a store.
#[derive(Clone, Copy)]
pub enum Ask {
    /// These bytes, at `NOW`.
    Bytes(&'static [u8]),
    /// These bytes, at this moment of the clock.
    At(u64, &'static [u8]),
    /// A POST of an entry with a title of this many letters and a comment of this many, at `NOW`.
    Post(usize, usize),
}

/// The reply to a request.
#[derive(Clone, Copy)]
pub enum Sent {
    /// These bytes.
    Whole(&'static [u8]),
    /// Bytes that begin and end so.
    Ends(&'static [u8], &'static [u8]),
}

/// A request, and its reply.
pub type Row = (Ask, Sent);

pub fn is_sent(sent: &[u8], wanted: Sent) -> bool {
    match wanted {
        Sent::Whole(bytes) => sent == bytes,
        Sent::Ends(front, back) => sent.starts_with(front) && sent.ends_with(back),
    }
}

/// Answers a request on a store. Returns the bytes that the connection is sent.
pub fn sent_for<D: Disk>(rt: &impl Abort, alloc: Global, disk: &mut D, ask: Ask) -> Vec<u8> {
    match ask {
        Ask::Bytes(bytes) => exchange(rt, alloc, disk, NOW, bytes),
        Ask::At(now, bytes) => exchange(rt, alloc, disk, now, bytes),
        Ask::Post(title, comment) => {
            let request = post_of(rt, alloc, title, comment);
            exchange(rt, alloc, disk, NOW, &request)
        }
    }
}

/// Answers requests on a store, each with the expected reply.
pub fn follow<D: Disk>(rt: &impl Abort, alloc: Global, disk: &mut D, rows: &[Row]) {
    for (index, &(ask, wanted)) in rows.iter().enumerate() {
        let sent = sent_for(rt, alloc, disk, ask);
        assert!(rt; is_sent(&sent, wanted), "row {index}");
    }
}
