//! Replies where a device call fails, and stores after a crash.

use crate::conns::{Filling, crashed};
use crate::stores::{Ask, CAPACITY, Row, Sent, follow, is_sent, sent_for, store_disk};
use feed_disk::{Area, Disk, MemoryDisk};
use feed_journal::Log;
use feed_recovery::Store;
use std::alloc::Global;
use std::process::Abort;

/// The reply where a device call failed.
pub const DISK: &[u8] =
    b"HTTP/1.1 500 Internal Server Error\r\nContent-Type: text/plain;charset=utf-8\r\nContent-Length: 5\r\nConnection: close\r\n\r\ndisk\n";

/// Returns whether a POST on a store of which this device call fails has this reply, and the number of device calls.
fn posted(rt: &impl Abort, alloc: Global, failing: u64, wanted: Sent) -> (bool, u64) {
    let mut disk = store_disk(rt, alloc, 4, CAPACITY, failing);
    let sent = sent_for(rt, alloc, &mut disk, Ask::Post(1, 0));
    let calls = disk.calls();
    drop(disk);
    (is_sent(&sent, wanted), calls)
}

#[test]
fn reports_each_failed_call_of_a_commit(rt: HostRuntime) {
    let created = Sent::Ends(b"HTTP/1.1 201 Created\r\n", b"</entry>\n");
    let (is_created, last) = posted(&rt, rt.alloc(), 0, created);
    assert!(rt; is_created);
    for call in last.saturating_sub(3)..=last {
        let (is_failed, _) = posted(&rt, rt.alloc(), call, Sent::Whole(DISK));
        assert!(rt; is_failed, "call {call}");
    }
}

/// The request for the first archive.
const ARCHIVE: Ask = Ask::Bytes(b"GET /archive/1 HTTP/1.1\r\n\r\n");

/// Two POSTs on a store with windows of 1 operation. Then the archive is sealed.
static SEALED: [Row; 3] = [
    (Ask::Post(1, 0), Sent::Ends(b"", b"")),
    (Ask::Post(2, 0), Sent::Ends(b"", b"")),
    (ARCHIVE, Sent::Ends(b"HTTP/1.1 200 OK\r\n", b"</feed>\n")),
];

/// Requests after a crash in the second POST after its seal, as the operation is written.
static UNSEALED: [Row; 2] = [
    (
        ARCHIVE,
        Sent::Ends(b"HTTP/1.1 404 Not Found\r\n", b"not found\n"),
    ),
    (
        Ask::Post(3, 0),
        Sent::Ends(b"HTTP/1.1 201 Created\r\n", b"</entry>\n"),
    ),
];

#[test]
fn keeps_the_seal_that_was_made_before_a_crash(rt: HostRuntime) {
    let alloc = rt.alloc();
    let mut disk = store_disk(&rt, alloc, 1, CAPACITY, 0);
    follow(&rt, alloc, &mut disk, &SEALED[..2]);
    let mut left = crashed(&rt, &disk, disk.calls().saturating_sub(3), Filling::New);
    follow(&rt, alloc, &mut disk, &SEALED[2..]);
    follow(&rt, alloc, &mut left, &UNSEALED);
    let sealed = sent_for(&rt, alloc, &mut disk, ARCHIVE);
    let again = sent_for(&rt, alloc, &mut left, ARCHIVE);
    assert!(rt; again == sealed);
    drop((disk, left));
}

/// Answers this number of POSTs on a store with windows of 4 operations, of which a device call fails. 0 is no call.
/// The fifth POST seals an archive.
pub fn posted_disk(rt: &impl Abort, alloc: Global, posts: usize, failing: u64) -> MemoryDisk {
    let mut disk = store_disk(rt, alloc, 4, CAPACITY, failing);
    for title in 1..=posts {
        sent_for(rt, alloc, &mut disk, Ask::Post(title, 0));
    }
    disk
}

/// Returns the number of operations that a load finds, and the number of payloads in the sealed area.
pub fn counts<D: Disk>(rt: &impl Abort, alloc: Global, disk: &mut D) -> (u32, u32) {
    let store = Store::load(alloc, disk).expect(rt, "a store");
    let seals = Log::load(alloc, disk, Area::Sealed).expect(rt, "a log");
    let counts = (store.version(), seals.len());
    drop((store, seals));
    counts
}

/// Returns these numbers after a crash, and again after the fifth POST was made again if it was lost.
fn counts_left(
    rt: &impl Abort,
    alloc: Global,
    disk: &MemoryDisk,
    call: u64,
    filling: Filling,
) -> [(u32, u32); 2] {
    let mut left = crashed(rt, disk, call, filling);
    let found = counts(rt, alloc, &mut left);
    if found.0 == 4 {
        sent_for(rt, alloc, &mut left, Ask::Post(5, 0));
    }
    let again = counts(rt, alloc, &mut left);
    drop(left);
    [found, again]
}

/// How a crash fills unsynced bytes, one of the last eight calls, and the numbers of operations and of seals that are left.
/// The first four calls are the seal's write, its sync, the write of the gate and its sync. The last four are those of the
/// operation.
static CRASHES: [(Filling, u64, (u32, u32)); 24] = [
    (Filling::Old, 0, (4, 0)),
    (Filling::Old, 1, (4, 0)),
    (Filling::Old, 2, (4, 0)),
    (Filling::Old, 3, (4, 0)),
    (Filling::Old, 4, (4, 1)),
    (Filling::Old, 5, (4, 1)),
    (Filling::Old, 6, (4, 1)),
    (Filling::Old, 7, (4, 1)),
    (Filling::New, 0, (4, 0)),
    (Filling::New, 1, (4, 0)),
    (Filling::New, 2, (4, 1)),
    (Filling::New, 3, (4, 1)),
    (Filling::New, 4, (4, 1)),
    (Filling::New, 5, (4, 1)),
    (Filling::New, 6, (5, 1)),
    (Filling::New, 7, (5, 1)),
    (Filling::Fill(165), 0, (4, 0)),
    (Filling::Fill(165), 1, (4, 0)),
    (Filling::Fill(165), 2, (4, 0)),
    (Filling::Fill(165), 3, (4, 0)),
    (Filling::Fill(165), 4, (4, 1)),
    (Filling::Fill(165), 5, (4, 1)),
    (Filling::Fill(165), 6, (4, 1)),
    (Filling::Fill(165), 7, (4, 1)),
];

#[test]
fn a_crash_leaves_an_operation_behind_its_seal(rt: HostRuntime) {
    let disk = posted_disk(&rt, rt.alloc(), 5, 0);
    let before = disk.calls().saturating_sub(7);
    for (row, &(filling, index, found)) in CRASHES.iter().enumerate() {
        let call = before.saturating_add(index);
        let left = counts_left(&rt, rt.alloc(), &disk, call, filling);
        assert!(rt; left == [found, (5, 1)], "row {row}");
    }
    drop(disk);
}
