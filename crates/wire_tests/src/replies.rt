//! The bytes of replies.

ghost use Rattle.std.specs.Prelude.{IsSome};
ghost use Rattle.http_face.specs.Reply.{HasPhrase};

use crate::conns::{conn_of, disk_of};
use atom_values::{Bytes, Copies};
use http_face::{Allow, Body, Conn, CutOff, Line7, Media, Reply, ScriptConn, write_reply};
use std::alloc::Global;
use std::process::Abort;

/// A reply with a fixed line.
struct Told {
    media: Media,
    location: Option<&'static [u8]>,
    allow: Option<Allow>,
    line: Line7,
}

/// Replies and their bytes.
static WRITTEN: [(Told, &[u8]); 6] = [
    (
        Told {
            media: Media::Plain,
            location: None,
            allow: None,
            line: Line7::NotFound,
        },
        b"HTTP/1.1 404 Not Found\r\nContent-Type: text/plain;charset=utf-8\r\nContent-Length: 10\r\nConnection: close\r\n\r\nnot found\n",
    ),
    (
        Told {
            media: Media::Entry,
            location: Some(b"http://a/member/1"),
            allow: None,
            line: Line7::Draft,
        },
        b"HTTP/1.1 201 Created\r\nContent-Type: application/atom+xml;type=entry\r\nContent-Length: 6\r\nLocation: http://a/member/1\r\nConnection: close\r\n\r\ndraft\n",
    ),
    (
        Told {
            media: Media::Plain,
            location: None,
            allow: Some(Allow::OfFeed),
            line: Line7::NotAllowed,
        },
        b"HTTP/1.1 405 Method Not Allowed\r\nContent-Type: text/plain;charset=utf-8\r\nContent-Length: 12\r\nAllow: GET, POST\r\nConnection: close\r\n\r\nnot allowed\n",
    ),
    (
        Told {
            media: Media::Plain,
            location: None,
            allow: Some(Allow::OfArchive),
            line: Line7::NotAllowed,
        },
        b"HTTP/1.1 405 Method Not Allowed\r\nContent-Type: text/plain;charset=utf-8\r\nContent-Length: 12\r\nAllow: GET\r\nConnection: close\r\n\r\nnot allowed\n",
    ),
    (
        Told {
            media: Media::Plain,
            location: None,
            allow: Some(Allow::OfMember),
            line: Line7::NotAllowed,
        },
        b"HTTP/1.1 405 Method Not Allowed\r\nContent-Type: text/plain;charset=utf-8\r\nContent-Length: 12\r\nAllow: GET, PUT, DELETE\r\nConnection: close\r\n\r\nnot allowed\n",
    ),
    (
        Told {
            media: Media::Plain,
            location: None,
            allow: None,
            line: Line7::NoMemory,
        },
        b"HTTP/1.1 503 Service Unavailable\r\nContent-Type: text/plain;charset=utf-8\r\nContent-Length: 10\r\nConnection: close\r\n\r\nno memory\n",
    ),
];

/// Returns the reply, with the status that it has from the server.
fn reply_of(rt: &impl Abort, alloc: Global, told: &Told) -> Reply
    ensures { HasPhrase result.status }
{
    let location = match told.location {
        Some(address) => Some(Bytes::of(alloc, address).expect(rt, "memory")),
        None => None,
    };
    let status = match told.line {
        Line7::NotFound => 404,
        Line7::Draft => 201,
        Line7::NotAllowed => 405,
        Line7::NoMemory => 503,
        _ => 500,
    };
    Reply {
        status,
        media: told.media,
        location,
        allow: told.allow,
        body: Body::Fixed(told.line),
    }
}

/// Returns a connection whose reply was begun, of which this call fails.
fn begun(rt: &impl Abort, alloc: Global, failing: u64) -> ScriptConn
    ensures { IsSome (⟦<ScriptConn as Conn>⟧.state result).begun }
{
    let mut conn = conn_of(rt, alloc, b"", failing);
    let disk = disk_of(rt, alloc, b"", 0);
    conn.begin(&disk);
    drop(disk);
    conn
}

#[test]
fn writes_a_short_reply_in_one_call(rt: HostRuntime) {
    let alloc = rt.alloc();
    for (row, (told, bytes)) in WRITTEN.iter().enumerate() {
        let mut conn = begun(&rt, alloc, 2);
        let reply = reply_of(&rt, alloc, told);
        let copy = reply.copy(alloc).expect(&rt, "memory");
        let end = write_reply(&mut conn, &copy);
        assert!(rt;
            (end, conn.sent(), conn.begun()) == (Ok(()), *bytes, Some(0)),
            "row {row}"
        );
        drop((reply, copy));
        drop(conn);
    }
}

/// The head of a reply with a body of 5,000 bytes.
const HEAD: &[u8] =
    b"HTTP/1.1 200 OK\r\nContent-Type: application/atom+xml;type=feed\r\nContent-Length: 5000\r\nConnection: close\r\n\r\n";

/// Calls that fail, the end of that reply, and how many of its bytes are sent. Call 1 writes the head, call 2 the body.
static CUTS: [(u64, Result<(), CutOff>, usize); 3] = [
    (1, Err(CutOff { sent: 0 }), 0),
    (2, Err(CutOff { sent: 106 }), 106),
    (3, Ok(()), 5_106),
];

#[test]
fn counts_the_bytes_of_a_reply_that_is_cut_off(rt: HostRuntime) {
    let alloc = rt.alloc();
    let mut bytes = Vec::from_slice(alloc, HEAD).expect(&rt, "memory");
    bytes.resize(5_106, b'a').expect(&rt, "memory");
    for &(failing, end, sent) in &CUTS {
        let mut conn = begun(&rt, alloc, failing);
        let reply = Reply {
            status: 200,
            media: Media::Feed,
            location: None,
            allow: None,
            body: Body::Made(Bytes::of(alloc, &bytes[106..]).expect(&rt, "memory")),
        };
        assert!(rt; write_reply(&mut conn, &reply) == end, "call {failing}");
        assert!(rt; conn.sent() == &bytes[..sent], "call {failing}");
        drop((conn, reply));
    }
}
