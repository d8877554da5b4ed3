//! Sessions over doors in memory: the lines of the connections, and the bytes that each was sent.
//!
//! A function that owns a disk or a door has few exits, since the proof drops each of its values at each exit.

ghost use Rattle.std.specs.Prelude.{◌≡◌, None, All};

use crate::answer_faults::{DISK, counts, posted_disk};
use crate::conns::{Filling, conn_of, crashed, disk_of};
use crate::stores::{CAPACITY, NOW, init, store_disk};
use atom_values::Many;
use document_server::{Door, End, Line, MAX_CONNECTIONS, ScriptDoor, ServeEnd, SetClock, serve};
use feed_disk::{Disk, MemoryDisk};
use feed_recovery::LoadFault;
use http_face::{Conn, ScriptConn};
use std::alloc::Global;
use std::process::Abort;

/// A connection: the bytes of its client, and the number of its call that fails, or 0.
type Client = (&'static [u8], u64);

/// The status and the version of a line, and whether the whole reply was sent.
type Told = (u16, u32, bool);

/// A connection, its line, and how the bytes that it is sent begin and end.
type Row = (Client, Told, &'static [u8], &'static [u8]);

/// Returns the connections of the rows.
fn conns_of(rt: &impl Abort, alloc: Global, rows: &[Row]) -> Many<ScriptConn, MAX_CONNECTIONS>
    ensures { All (λ conn. (⟦<ScriptConn as Conn>⟧.state conn).begun ≡ None) result.items }
{
    let mut conns = Many::new(alloc);
    for ((bytes, failing), _, _, _) in rows {
        conns
            .push(conn_of(rt, alloc, bytes, *failing))
            .expect(rt, "memory");
    }
    conns
}

/// Returns a door with the connections of the rows, of which this call fails. 0 lists no call.
fn door_of(rt: &impl Abort, alloc: Global, rows: &[Row], failing: u64) -> ScriptDoor {
    let mut calls = Many::new(alloc);
    calls.push(failing).expect(rt, "memory");
    ScriptDoor::new(alloc, conns_of(rt, alloc, rows), calls).expect(rt, "memory")
}

/// Serves connections, with the clock at `first` and then at `NOW`, and with the pages of the feed if `service`.
pub fn served<D: Disk, L: Door>(
    rt: &impl Abort,
    alloc: Global,
    disk: &mut D,
    door: &mut L,
    first: u64,
    requests: u32,
    service: bool,
) -> ServeEnd {
    assert!(rt; 1 <= requests && requests <= 1_000_000);
    let mut moments = Many::new(alloc);
    moments.push(first).expect(rt, "memory");
    moments.push(NOW).expect(rt, "memory");
    let mut clock = SetClock::new(moments);
    let session = serve(alloc, disk, &mut clock, door, b"here", requests, service);
    drop(clock);
    session
}

fn told(line: &Line) -> Told {
    (line.status, line.version, line.whole)
}

/// Returns whether the line and the connection are those of the row.
fn is_served(row: &Row, line: Option<&Line>, conn: Option<&ScriptConn>) -> bool {
    let (_, wanted, first, last) = row;
    match (line, conn) {
        (Some(line), Some(conn)) => {
            let sent = conn.sent();
            told(line) == *wanted && sent.starts_with(first) && sent.ends_with(last)
        }
        _ => false,
    }
}

/// A session: the moment of the clock at the first request, after which it is `NOW`, the greatest number of connections, and
/// whether it has the pages of the feed.
struct Terms {
    first: u64,
    requests: u32,
    service: bool,
}

/// Serves connections until the door has none left or `requests` were served, and compares them with the rows.
fn follow<D: Disk>(
    rt: &impl Abort,
    alloc: Global,
    disk: &mut D,
    door: &mut ScriptDoor,
    terms: &Terms,
    rows: &[Row],
) {
    let before = door.given().len();
    let session = served(
        rt,
        alloc,
        disk,
        door,
        terms.first,
        terms.requests,
        terms.service,
    );
    let given = door.given();
    assert!(rt; session.end == End::Done && session.lines.len() == rows.len());
    assert!(rt; given.len().saturating_sub(before) == rows.len());
    for (index, row) in rows.iter().enumerate() {
        let line = session.lines.get(index);
        let conn = given.get(index.saturating_add(before));
        assert!(rt; is_served(row, line, conn), "row {index}");
    }
    drop(session);
}

/// Does so with a door of its own, of which this call fails. 0 is no call.
fn follow_with_door<D: Disk>(
    rt: &impl Abort,
    alloc: Global,
    disk: &mut D,
    failing: u64,
    terms: &Terms,
    rows: &[Row],
) {
    let mut door = door_of(rt, alloc, rows, failing);
    follow(rt, alloc, disk, &mut door, terms, rows);
    drop(door);
}

/// A request with 65 fields.
const FIELDS: &[u8] = b"GET /feed HTTP/1.1\r\n\
a:\r\na:\r\na:\r\na:\r\na:\r\na:\r\na:\r\na:\r\na:\r\na:\r\na:\r\na:\r\na:\r\n\
a:\r\na:\r\na:\r\na:\r\na:\r\na:\r\na:\r\na:\r\na:\r\na:\r\na:\r\na:\r\na:\r\n\
a:\r\na:\r\na:\r\na:\r\na:\r\na:\r\na:\r\na:\r\na:\r\na:\r\na:\r\na:\r\na:\r\n\
a:\r\na:\r\na:\r\na:\r\na:\r\na:\r\na:\r\na:\r\na:\r\na:\r\na:\r\na:\r\na:\r\n\
a:\r\na:\r\na:\r\na:\r\na:\r\na:\r\na:\r\na:\r\na:\r\na:\r\na:\r\na:\r\na:\r\n\
\r\n";

/// Connections to a store without operations.
static ROWS: [Row; 16] = [
    (
        (
            b"POST /feed HTTP/1.1\r\nContent-Length: 67\r\n\r\n<entry xmlns=\"http://www.w3.org/2005/Atom\"><title>a</title></entry>",
            0,
        ),
        (201, 1, true),
        b"HTTP/1.1 201 Created\r\n",
        b"</entry>\n",
    ),
    (
        (b"DELETE /member/1 HTTP/1.1\r\n\r\n", 0),
        (200, 2, true),
        b"HTTP/1.1 200 OK\r\n",
        b"\r\n\r\ndeleted\n",
    ),
    (
        (b"DELETE /member/1 HTTP/1.1\r\n\r\n", 0),
        (410, 2, true),
        b"HTTP/1.1 410 Gone\r\n",
        b"\r\n\r\ngone\n",
    ),
    (
        (b"GET /member/2 HTTP/1.1\r\n\r\n", 0),
        (404, 2, true),
        b"HTTP/1.1 404 Not Found\r\n",
        b"\r\n\r\nnot found\n",
    ),
    ((b"GET /feed HTTP/1.1\r\n\r\n", 1), (0, 2, false), b"", b""),
    (
        (b"GET /feed HTTP/1.1\r\n\r\n", 2),
        (200, 2, false),
        b"",
        b"",
    ),
    (
        (b"\x00", 0),
        (400, 2, true),
        b"HTTP/1.1 400 Bad Request\r\n",
        b"\r\n\r\nbad head\n",
    ),
    (
        (FIELDS, 0),
        (431, 2, true),
        b"HTTP/1.1 431 Request Header Fields Too Large\r\n",
        b"\r\n\r\nhead too large\n",
    ),
    (
        (b"GET /feed HTTP/1.1\r\n", 0),
        (400, 2, true),
        b"HTTP/1.1 400 Bad Request\r\n",
        b"\r\n\r\nended early\n",
    ),
    (
        (b"POST /feed HTTP/1.1\r\nContent-Length: 10\r\n\r\nabcd", 0),
        (400, 2, true),
        b"HTTP/1.1 400 Bad Request\r\n",
        b"\r\n\r\nended early\n",
    ),
    (
        (
            b"POST /feed HTTP/1.1\r\nTransfer-Encoding: chunked\r\n\r\n",
            0,
        ),
        (411, 2, true),
        b"HTTP/1.1 411 Length Required\r\n",
        b"\r\n\r\nno length\n",
    ),
    (
        (
            b"POST /feed HTTP/1.1\r\nContent-Length: 1\r\nContent-Length: 1\r\n\r\na",
            0,
        ),
        (400, 2, true),
        b"HTTP/1.1 400 Bad Request\r\n",
        b"\r\n\r\ntwo lengths\n",
    ),
    (
        (b"POST /feed HTTP/1.1\r\nContent-Length: 65537\r\n\r\n", 0),
        (413, 2, true),
        b"HTTP/1.1 413 Payload Too Large\r\n",
        b"\r\n\r\nbody too large\n",
    ),
    (
        (b"FOO /feed HTTP/1.1\r\n\r\n", 0),
        (501, 2, true),
        b"HTTP/1.1 501 Not Implemented\r\n",
        b"\r\n\r\nnot implemented\n",
    ),
    (
        (b"PUT /feed HTTP/1.1\r\nContent-Length: 0\r\n\r\n", 0),
        (405, 2, true),
        b"HTTP/1.1 405 Method Not Allowed\r\n",
        b"\r\n\r\nnot allowed\n",
    ),
    (
        (b"GET /feed HTTP/1.1\r\n\r\n", 0),
        (200, 2, true),
        b"HTTP/1.1 200 OK\r\n",
        b"</feed>\n",
    ),
];

/// At most two connections, and all of them.
static TWO: Terms = Terms {
    first: NOW,
    requests: 2,
    service: false,
};

static ALL: Terms = Terms {
    first: NOW,
    requests: 100,
    service: false,
};

#[test]
fn serves_one_connection_after_the_other(rt: HostRuntime) {
    let alloc = rt.alloc();
    let mut disk = store_disk(&rt, alloc, 4, CAPACITY, 0);
    let mut door = door_of(&rt, alloc, &ROWS, 0);
    // The first session leaves the other connections to the second.
    follow(&rt, alloc, &mut disk, &mut door, &TWO, &ROWS[..2]);
    follow(&rt, alloc, &mut disk, &mut door, &ALL, &ROWS[2..]);
    drop((disk, door));
}

/// Connections to a store without operations, in a session with the pages of the feed.
static PAGES: [Row; 7] = [
    (
        (b"GET /members HTTP/1.1\r\n\r\n", 0),
        (200, 0, true),
        b"HTTP/1.1 200 OK\r\nContent-Type: text/plain;charset=utf-8\r\nContent-Length: 0\r\n",
        b"\r\n\r\n",
    ),
    (
        (
            b"POST /feed HTTP/1.1\r\nContent-Length: 67\r\n\r\n<entry xmlns=\"http://www.w3.org/2005/Atom\"><title>a</title></entry>",
            0,
        ),
        (201, 1, true),
        b"HTTP/1.1 201 Created\r\n",
        b"</entry>\n",
    ),
    (
        (b"GET /members HTTP/1.1\r\n\r\n", 0),
        (200, 1, true),
        b"HTTP/1.1 200 OK\r\nContent-Type: text/plain;charset=utf-8\r\n",
        b"\r\n\r\n1 http://feed.example/member/1\n",
    ),
    (
        (b"GET /service HTTP/1.1\r\n\r\n", 0),
        (200, 1, true),
        b"HTTP/1.1 200 OK\r\nContent-Type: application/atomsvc+xml\r\n",
        b"</service>\n",
    ),
    (
        (
            b"POST /service HTTP/1.1\r\nContent-Length: 67\r\n\r\n<entry xmlns=\"http://www.w3.org/2005/Atom\"><title>b</title></entry>",
            0,
        ),
        (405, 1, true),
        b"HTTP/1.1 405 Method Not Allowed\r\n",
        b"Allow: GET\r\nConnection: close\r\n\r\nnot allowed\n",
    ),
    (
        (b"GET /services HTTP/1.1\r\n\r\n", 0),
        (404, 1, true),
        b"HTTP/1.1 404 Not Found\r\n",
        b"\r\n\r\nnot found\n",
    ),
    (
        (b"DELETE /member/1 HTTP/1.1\r\n\r\n", 0),
        (200, 2, true),
        b"HTTP/1.1 200 OK\r\n",
        b"\r\n\r\ndeleted\n",
    ),
];

/// Requests of the pages, in a session without them.
static NO_PAGES: [Row; 2] = [
    (
        (b"GET /service HTTP/1.1\r\n\r\n", 0),
        (404, 2, true),
        b"HTTP/1.1 404 Not Found\r\n",
        b"\r\n\r\nnot found\n",
    ),
    (
        (b"GET /members HTTP/1.1\r\n\r\n", 0),
        (404, 2, true),
        b"HTTP/1.1 404 Not Found\r\n",
        b"\r\n\r\nnot found\n",
    ),
];

static WITH_PAGES: Terms = Terms {
    first: NOW,
    requests: 100,
    service: true,
};

#[test]
fn serves_the_pages_of_the_feed_only_if_asked_to(rt: HostRuntime) {
    let alloc = rt.alloc();
    let mut disk = store_disk(&rt, alloc, 4, CAPACITY, 0);
    follow_with_door(&rt, alloc, &mut disk, 0, &WITH_PAGES, &PAGES);
    follow_with_door(&rt, alloc, &mut disk, 0, &ALL, &NO_PAGES);
    drop(disk);
}

/// Connections with the clock at 22:13:25 and then at 22:13:20.
static BACK: [Row; 2] = [
    (
        (
            b"POST /feed HTTP/1.1\r\nContent-Length: 67\r\n\r\n<entry xmlns=\"http://www.w3.org/2005/Atom\"><title>a</title></entry>",
            0,
        ),
        (201, 1, true),
        b"HTTP/1.1 201 Created\r\n",
        b"<updated>2023-11-14T22:13:25Z</updated><app:edited>2023-11-14T22:13:25Z</app:edited><author><name>Editor</name></author><link rel=\"edit\" href=\"http://feed.example/member/1\"/><content></content></entry>\n",
    ),
    (
        (
            b"POST /feed HTTP/1.1\r\nContent-Length: 67\r\n\r\n<entry xmlns=\"http://www.w3.org/2005/Atom\"><title>b</title></entry>",
            0,
        ),
        (201, 2, true),
        b"HTTP/1.1 201 Created\r\n",
        b"<updated>2023-11-14T22:13:25.001Z</updated><app:edited>2023-11-14T22:13:25.001Z</app:edited><author><name>Editor</name></author><link rel=\"edit\" href=\"http://feed.example/member/2\"/><content></content></entry>\n",
    ),
];

static TWO_BACK: Terms = Terms {
    first: NOW + 5_000,
    requests: 2,
    service: false,
};

#[test]
fn serves_where_the_clock_goes_back(rt: HostRuntime) {
    let alloc = rt.alloc();
    // Call 4 of the door would be the one after the second connection. It isn't made.
    for failing in [0, 4] {
        let mut disk = store_disk(&rt, alloc, 4, CAPACITY, 0);
        follow_with_door(&rt, alloc, &mut disk, failing, &TWO_BACK, &BACK);
        drop(disk);
    }
}

/// Serves connections, and returns why the session ended and the number of its lines.
fn end_of<D: Disk>(
    rt: &impl Abort,
    alloc: Global,
    disk: &mut D,
    door: &mut ScriptDoor,
) -> (End, usize) {
    let session = served(rt, alloc, disk, door, NOW, 100, false);
    let end = (session.end, session.lines.len());
    drop(session);
    end
}

/// Calls of a door with two connections that fail, and the end of the session. Call 1 is `listen`, the others `next`.
static DOOR_FAULTS: [(u64, (End, usize)); 5] = [
    (1, (End::DoorFault, 0)),
    (2, (End::DoorFault, 0)),
    (3, (End::DoorFault, 1)),
    (4, (End::DoorFault, 2)),
    (5, (End::Done, 2)),
];

#[test]
fn ends_where_a_call_of_the_door_fails(rt: HostRuntime) {
    let alloc = rt.alloc();
    let mut disk = store_disk(&rt, alloc, 4, CAPACITY, 0);
    for &(failing, end) in &DOOR_FAULTS {
        let mut door = door_of(&rt, alloc, &BACK, failing);
        let ended = end_of(&rt, alloc, &mut disk, &mut door);
        assert!(rt; ended == end, "call {failing}");
        drop(door);
    }
    drop(disk);
}

/// Serves connections on a disk without a store, and then twice with one. The first call of the door fails.
fn unopened(rt: &impl Abort, alloc: Global) -> [(End, usize); 3] {
    let mut disk = disk_of(rt, alloc, b"", 0);
    let mut door = door_of(rt, alloc, &BACK, 1);
    let missing = end_of(rt, alloc, &mut disk, &mut door);
    init(rt, alloc, &mut disk, 4, CAPACITY);
    let refused = end_of(rt, alloc, &mut disk, &mut door);
    let done = end_of(rt, alloc, &mut disk, &mut door);
    drop((disk, door));
    [missing, refused, done]
}

#[test]
fn does_not_listen_without_a_store(rt: HostRuntime) {
    let ends = unopened(&rt, rt.alloc());
    assert!(rt;
        ends == [
            (End::Load(LoadFault::NotInit), 0),
            (End::DoorFault, 0),
            (End::Done, 2)
        ]
    );
}

/// The session of a POST.
#[derive(Drop)]
struct Session {
    /// The number of device calls before the session.
    made: u64,
    /// The number of device calls after it.
    calls: u64,
    /// The bytes that the connection was sent.
    sent: Vec<u8>,
    ended: Ended,
}

/// How such a session ends: its end, its only line, the numbers of operations that a load finds after a crash that leaves the
/// old bytes, on the disk as it reads, and after a crash that leaves the new bytes, and the number of seals.
#[derive(Clone, Copy, PartialEq)]
struct Ended {
    end: End,
    line: Option<Told>,
    found: [u32; 3],
    seals: u32,
}

/// Returns the numbers of operations that a load finds on the disk and after a crash within its last call, and the number of
/// seals.
fn found_on(rt: &impl Abort, alloc: Global, disk: &mut MemoryDisk) -> ([u32; 3], u32) {
    let mut old = crashed(rt, disk, disk.calls(), Filling::Old);
    let mut new = crashed(rt, disk, disk.calls(), Filling::New);
    let (before, _) = counts(rt, alloc, &mut old);
    let (after, _) = counts(rt, alloc, &mut new);
    drop((old, new));
    let (read, seals) = counts(rt, alloc, disk);
    ([before, read, after], seals)
}

/// Returns the bytes that the first connection was sent.
fn sent_of(rt: &impl Abort, alloc: Global, door: &ScriptDoor) -> Vec<u8> {
    let sent: &[u8] = match door.given().first() {
        Some(conn) => conn.sent(),
        None => &[],
    };
    Vec::from_slice(alloc, sent).expect(rt, "memory")
}

/// Serves a POST on a store with windows of 4 operations after some others, of which this device call fails.
fn post_failing(rt: &impl Abort, alloc: Global, posts: usize, failing: u64) -> Session {
    let mut disk = posted_disk(rt, alloc, posts, failing);
    let mut door = door_of(rt, alloc, &BACK[..1], 0);
    let made = disk.calls();
    let session = served(rt, alloc, &mut disk, &mut door, NOW, 100, false);
    let calls = disk.calls();
    let (end, line) = (session.end, session.lines.get(0).map(told));
    drop(session);
    let sent = sent_of(rt, alloc, &door);
    let (found, seals) = found_on(rt, alloc, &mut disk);
    drop((disk, door));
    Session {
        made,
        calls,
        sent,
        ended: Ended {
            end,
            line,
            found,
            seals,
        },
    }
}

/// Serves a POST of which device calls fail, from a call on, and compares how the sessions end. A reply is `DISK`.
fn expect_ends(rt: &impl Abort, alloc: Global, posts: usize, first: u64, rows: &[Ended]) {
    for (index, wanted) in rows.iter().enumerate() {
        let failed = post_failing(rt, alloc, posts, first.saturating_add(index as u64));
        let sent: &[u8] = if wanted.line.is_some() { DISK } else { b"" };
        assert!(rt;
            failed.ended == *wanted && failed.sent.as_slice() == sent,
            "{posts} posts, call {index}"
        );
        drop(failed);
    }
}

/// The POST on a store without operations works.
const POSTED: Ended = Ended {
    end: End::Done,
    line: Some((201, 1, true)),
    found: [0, 1, 1],
    seals: 0,
};

/// A call of the load fails.
static UNLOADED: [Ended; 1] = [Ended {
    end: End::Load(LoadFault::DiskFault),
    line: None,
    found: [0, 0, 0],
    seals: 0,
}];

/// The line of a POST whose commit failed, on a store without operations and on one of 4.
const UNDONE: Option<Told> = Some((500, 0, true));

const UNDONE_5: Option<Told> = Some((500, 4, true));

/// A call of the commit fails: the write of the operation, its sync, the write of the gate, and its sync.
static UNCOMMITTED: [Ended; 4] = [
    Ended {
        end: End::DiskFault,
        line: UNDONE,
        found: [0, 0, 0],
        seals: 0,
    },
    Ended {
        end: End::DiskFault,
        line: UNDONE,
        found: [0, 0, 0],
        seals: 0,
    },
    Ended {
        end: End::DiskFault,
        line: UNDONE,
        found: [0, 0, 1],
        seals: 0,
    },
    Ended {
        end: End::DiskFault,
        line: UNDONE,
        found: [0, 1, 1],
        seals: 0,
    },
];

#[test]
fn ends_where_a_device_call_fails(rt: HostRuntime) {
    let alloc = rt.alloc();
    let whole = post_failing(&rt, alloc, 0, 0);
    assert!(rt; whole.ended == POSTED);
    // The commit makes the last four calls, and the load those before.
    let loaded = whole.calls.saturating_sub(4);
    for call in whole.made.saturating_add(1)..=loaded {
        expect_ends(&rt, alloc, 0, call, &UNLOADED);
    }
    expect_ends(&rt, alloc, 0, loaded.saturating_add(1), &UNCOMMITTED);
    drop(whole);
}

/// The fifth POST works, and seals an archive.
const SEALED: Ended = Ended {
    end: End::Done,
    line: Some((201, 5, true)),
    found: [4, 5, 5],
    seals: 1,
};

/// A call of the fifth POST fails. The first call is the last one of the store's load. The next eight are the commit: the
/// seal's write, its sync, the write of the gate and its sync, and the same four for the operation.
static UNSEALED: [Ended; 9] = [
    Ended {
        end: End::Load(LoadFault::DiskFault),
        line: None,
        found: [4, 4, 4],
        seals: 0,
    },
    Ended {
        end: End::DiskFault,
        line: UNDONE_5,
        found: [4, 4, 4],
        seals: 0,
    },
    Ended {
        end: End::DiskFault,
        line: UNDONE_5,
        found: [4, 4, 4],
        seals: 0,
    },
    Ended {
        end: End::DiskFault,
        line: UNDONE_5,
        found: [4, 4, 4],
        seals: 0,
    },
    Ended {
        end: End::DiskFault,
        line: UNDONE_5,
        found: [4, 4, 4],
        seals: 1,
    },
    Ended {
        end: End::DiskFault,
        line: UNDONE_5,
        found: [4, 4, 4],
        seals: 1,
    },
    Ended {
        end: End::DiskFault,
        line: UNDONE_5,
        found: [4, 4, 4],
        seals: 1,
    },
    Ended {
        end: End::DiskFault,
        line: UNDONE_5,
        found: [4, 4, 5],
        seals: 1,
    },
    Ended {
        end: End::DiskFault,
        line: UNDONE_5,
        found: [4, 5, 5],
        seals: 1,
    },
];

#[test]
fn ends_where_a_call_of_a_seal_or_of_its_operation_fails(rt: HostRuntime) {
    let whole = post_failing(&rt, rt.alloc(), 4, 0);
    assert!(rt; whole.ended == SEALED);
    expect_ends(&rt, rt.alloc(), 4, whole.calls.saturating_sub(8), &UNSEALED);
    drop(whole);
}
