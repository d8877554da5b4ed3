//! One commit: the bytes of the journal at each of its device calls, and the stores that crashes leave. A program in
//! Python wrote the bytes from docs/FORMATS.md.

use crate::disks::{Filling, area_of, crashed, disk_of};
use crate::stores::{Request, Step, commit, init, sessions};
use feed_disk::{Area, Disk};
use feed_recovery::Store;
use std::alloc::Global;
use std::process::Abort;

/// The frame of the head of a store with windows of 4 operations and areas of 1 GiB.
const HEAD: &[u8] =
    b"\x01\x00\x00\x00O\x03\x00\x00\x00\x14http://feed.example/m\x1F\x0CZ\x93\xBEL'\x8D\x10+\x7F\x9EJ\x5C6\x00\x00\x00\x04Feed\x00\x00\x00\x06Editor\x00\x00\x00\x04\x00\x00\x00\x00@\x00\x00\x00\x00\x00:\x16>\xE9\xC8\x00";

/// The journal after the head: the closed gate.
const EMPTY: &[u8] = b"\x00";

/// The journal after the head once the operation is written: the closed gate, and the 49 bytes of its frame.
const WRITTEN: &[u8] =
    b"\x00\x00\x00\x00,\x01\x00\x00\x00\x01\x00\x00:\x16>\xE9\xC8\x01\x00\x00:\x16>\xE9\xC8\x01\x00\x00\x00\x00\x05Hello\x00\x00\x00\x00\x00\x00\x00\x01\x00\x00\x00\x00\x00\x00";

/// The same with an open gate.
const COMMITTED: &[u8] =
    b"\x01\x00\x00\x00,\x01\x00\x00\x00\x01\x00\x00:\x16>\xE9\xC8\x01\x00\x00:\x16>\xE9\xC8\x01\x00\x00\x00\x00\x05Hello\x00\x00\x00\x00\x00\x00\x00\x01\x00\x00\x00\x00\x00\x00";

/// The sessions of the store before the commit, and of that after it. Each makes a further member.
static BEFORE: [&[Step]; 2] = [
    &[
        Step::Counts(0, 0),
        Step::Commit(Request::Add("Hello"), (1, 1, 1)),
    ],
    &[Step::Counts(1, 0)],
];

static AFTER: [&[Step]; 2] = [
    &[
        Step::Counts(1, 0),
        Step::Commit(Request::Add("Hello"), (2, 2, 2)),
    ],
    &[Step::Counts(2, 0)],
];

/// Makes a store and a member with the title `Hello`. Returns the number of device calls before the commit.
fn commit_hello<D: Disk>(rt: &impl Abort, alloc: Global, disk: &mut D) -> u64 {
    init(rt, alloc, disk, 4, 1_073_741_824);
    let mut store = Store::load(alloc, disk).expect(rt, "a store");
    let before = disk.calls();
    commit(rt, alloc, &mut store, disk, &Request::Add("Hello"));
    drop(store);
    before
}

/// What a crash leaves of the journal after the head.
#[derive(Clone, Copy)]
enum Left {
    Empty,
    Written,
    Committed,
    Bytes(&'static [u8]),
    /// Bytes that no document says.
    Other,
}

/// The journal after the head, if it is known.
fn bytes_of(left: Left) -> Option<&'static [u8]> {
    match left {
        Left::Empty => Some(EMPTY),
        Left::Written => Some(WRITTEN),
        Left::Committed => Some(COMMITTED),
        Left::Bytes(bytes) => Some(bytes),
        Left::Other => None,
    }
}

/// A crash: the call of the commit, from 1, and the unsynced bytes. Then the journal after the head. The commit is made if
/// that is `Committed`.
static CRASHES: [(u64, Filling, Left); 20] = [
    (0, Filling::New, Left::Empty),
    // The write of the frame.
    (1, Filling::Old, Left::Empty),
    (1, Filling::New, Left::Written),
    (1, Filling::Fill(0), Left::Other),
    (1, Filling::Fill(1), Left::Other),
    (1, Filling::Fill(165), Left::Other),
    (1, Filling::Fill(255), Left::Other),
    (1, Filling::Given(0, 6), Left::Empty),
    (1, Filling::Given(1, 0), Left::Bytes(b"\x00\x00")),
    (1, Filling::Given(6, 6), Left::Bytes(b"\x00123456")),
    (1, Filling::Given(9, 3), Left::Other),
    (1, Filling::Given(1_000, 0), Left::Written),
    // Its sync.
    (2, Filling::Old, Left::Empty),
    (2, Filling::New, Left::Written),
    // The write of the gate.
    (3, Filling::Old, Left::Written),
    (3, Filling::New, Left::Committed),
    (3, Filling::Fill(165), Left::Other),
    // Its sync.
    (4, Filling::Old, Left::Written),
    (4, Filling::New, Left::Committed),
    (4, Filling::Fill(165), Left::Other),
];

/// Compares what a crash left, and goes on with the store.
fn go_on<D: Disk>(rt: &impl Abort, alloc: Global, disk: &mut D, row: usize, left: Left) {
    let journal = area_of(rt, alloc, disk, Area::Journal);
    let rest = journal.as_slice().strip_prefix(HEAD);
    let wanted = bytes_of(left);
    assert!(rt;
        rest.is_some() && (wanted.is_none() || rest == wanted),
        "row {row}"
    );
    match left {
        Left::Committed => sessions(rt, alloc, disk, row, &AFTER),
        _ => sessions(rt, alloc, disk, row, &BEFORE),
    }
}

#[test]
fn a_crash_within_a_commit_leaves_these_bytes(rt: HostRuntime) {
    let alloc = rt.alloc();
    let mut disk = disk_of(&rt, alloc, b"", b"", &[]);
    let before = commit_hello(&rt, alloc, &mut disk);
    assert!(rt; disk.calls() == before.saturating_add(4));
    for (row, &(call, filling, left)) in CRASHES.iter().enumerate() {
        let mut image = crashed(&rt, alloc, &disk, before.saturating_add(call), filling);
        go_on(&rt, alloc, &mut image, row, left);
        drop(image);
    }
    let journal = area_of(&rt, alloc, &mut disk, Area::Journal);
    assert!(rt; journal.as_slice().strip_prefix(HEAD) == Some(COMMITTED));
    drop(disk);
}
