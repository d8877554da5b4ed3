//! Replies where the disk gives something else than what the store has on it.

use crate::conns::disk_of;
use crate::stores::{Ask, CAPACITY, NOW, Row, Sent, follow, reply_to, store_disk};
use crate::watched::{Events, WatchedDisk};
use feed_disk::{Area, Disk};
use feed_recovery::Store;
use std::alloc::Global;
use std::process::Abort;

/// How the bytes of an area differ from those that the store was loaded from.
#[derive(Clone, Copy)]
enum Change {
    /// This many of the last bytes are missing.
    Cut(usize),
    /// The byte at this offset has another value.
    Byte(usize),
}

/// Returns the bytes of an area with a change.
fn changed<D: Disk>(
    rt: &impl Abort,
    alloc: Global,
    disk: &mut D,
    area: Area,
    how: Change,
) -> Vec<u8> {
    let size = disk.size(area).expect(rt, "a device call") as usize;
    let mut bytes = vec![in alloc; 0u8; size].expect(rt, "memory");
    disk.read(area, 0, &mut bytes).expect(rt, "a device call");
    match how {
        Change::Cut(count) => bytes.truncate(size.saturating_sub(count)),
        Change::Byte(at) => {
            if let Some(byte) = bytes.get_mut(at) {
                *byte ^= 2;
            }
        }
    }
    bytes
}

/// Loads the store, and answers a request on it over a disk whose areas all have other bytes.
fn reread<D: Disk>(
    rt: &impl Abort,
    alloc: Global,
    disk: &mut D,
    bytes: &[u8],
    request: &[u8],
) -> Vec<u8> {
    let mut store = Store::load(alloc, disk).expect(rt, "a store");
    let events = Events::new();
    let mut other = WatchedDisk::new(disk_of(rt, alloc, bytes, 0), &events);
    let sent = reply_to(rt, alloc, &mut store, &mut other, NOW, request);
    drop((store, other));
    sent
}

/// Two POSTs, on a store with windows of 1 operation.
static POSTS: [Row; 2] = [
    (Ask::Post(1, 0), Sent::Ends(b"", b"")),
    (Ask::Post(2, 0), Sent::Ends(b"", b"")),
];

const ARCHIVE: &[u8] = b"GET /archive/1 HTTP/1.1\r\n\r\n";

const MEMBER_1: &[u8] = b"GET /member/1 HTTP/1.1\r\n\r\n";

const MEMBER_2: &[u8] = b"GET /member/2 HTTP/1.1\r\n\r\n";

/// How a reply begins and ends.
type Shown = (&'static [u8], &'static [u8]);

const FEED: Shown = (b"HTTP/1.1 200 OK\r\n", b"</feed>\n");

const ENTRY: Shown = (b"HTTP/1.1 200 OK\r\n", b"</entry>\n");

const CHANGED: Shown = (
    b"HTTP/1.1 500 Internal Server Error\r\nContent-Type: text/plain;charset=utf-8\r\n",
    b"Content-Length: 8\r\nConnection: close\r\n\r\nchanged\n",
);

/// A request, the area that has its document, the change of that area, and how the reply begins and ends.
///
/// The last byte of an area is its closed gate. In the journal the bytes of the first operation begin at offset 89: the
/// head's frame has 84 bytes, and the gate and the length before the operation have 5. An operation begins with its
/// kind in 1 byte, its member's number in 4, and `edited` and `updated` in 8 each. A GET reads no gate and no length.
static ROWS: [(&[u8], Area, Change, Shown); 9] = [
    (ARCHIVE, Area::Sealed, Change::Cut(1), FEED),
    (ARCHIVE, Area::Sealed, Change::Cut(2), CHANGED),
    (ARCHIVE, Area::Sealed, Change::Cut(1_000), CHANGED),
    (MEMBER_2, Area::Journal, Change::Cut(1), ENTRY),
    (MEMBER_2, Area::Journal, Change::Cut(2), CHANGED),
    (MEMBER_1, Area::Journal, Change::Byte(88), ENTRY),
    (MEMBER_1, Area::Journal, Change::Byte(89), CHANGED),
    (MEMBER_1, Area::Journal, Change::Byte(93), CHANGED),
    (MEMBER_1, Area::Journal, Change::Byte(109), CHANGED),
];

#[test]
fn answers_where_the_disk_has_changed(rt: HostRuntime) {
    let alloc = rt.alloc();
    let mut disk = store_disk(&rt, alloc, 1, CAPACITY, 0);
    follow(&rt, alloc, &mut disk, &POSTS);
    for (row, &(request, area, how, (first, last))) in ROWS.iter().enumerate() {
        let bytes = changed(&rt, alloc, &mut disk, area, how);
        let sent = reread(&rt, alloc, &mut disk, &bytes, request);
        assert!(rt;
            sent.starts_with(first) && sent.ends_with(last),
            "row {row}"
        );
    }
    drop(disk);
}
