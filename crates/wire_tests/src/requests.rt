//! Requests that are read, and the faults of bytes that are none.

use crate::answers::NEWS;
use crate::conns::conn_of;
use atom_values::Copies;
use http_face::{Request, RequestFault, Verb, read_request};
use std::alloc::Global;
use std::process::Abort;

/// The fields of a request.
struct Fields {
    verb: Verb,
    target: &'static [u8],
    media: Option<&'static [u8]>,
    body: &'static [u8],
}

fn has_fields(request: &Request, wanted: &Fields) -> bool {
    let media = match &request.media {
        Some(media) => Some(media.slice()),
        None => None,
    };
    request.verb == wanted.verb
        && request.target.slice() == wanted.target
        && media == wanted.media
        && request.body.slice() == wanted.body
}

/// Reads a request from a connection of these bytes, of which this call fails. 0 is no call.
fn read(
    rt: &impl Abort,
    alloc: Global,
    bytes: &[u8],
    failing: u64,
) -> Result<Request, RequestFault> {
    let mut conn = conn_of(rt, alloc, bytes, failing);
    let request = read_request(alloc, &mut conn);
    drop(conn);
    request
}

/// Bytes, and the fields of the request that they begin with.
static REQUESTS: [(&[u8], Fields); 6] = [
    (
        b"GET /feed HTTP/1.1\r\nHost: a\r\n\r\n",
        Fields {
            verb: Verb::Get,
            target: b"/feed",
            media: None,
            body: b"",
        },
    ),
    (
        b"POST /feed HTTP/1.1\r\nCONTENT-LENGTH: 3\r\ncontent-type:  a/b \r\nContent-Type: c\r\n\r\nabcdef",
        Fields {
            verb: Verb::Post,
            target: b"/feed",
            media: Some(b"a/b"),
            body: b"abc",
        },
    ),
    (
        b"PUT /member/2 HTTP/1.0\nContent-Length: 000000000000000000000000000002\n\nab",
        Fields {
            verb: Verb::Put,
            target: b"/member/2",
            media: None,
            body: b"ab",
        },
    ),
    (
        b"DELETE /member/2 HTTP/1.1\r\nContent-Length: x\r\n\r\n",
        Fields {
            verb: Verb::Delete,
            target: b"/member/2",
            media: None,
            body: b"",
        },
    ),
    (
        b"POST http://a/feed HTTP/1.1\r\nContent-Length: 0\r\nContent-Type:\r\n\r\n",
        Fields {
            verb: Verb::Post,
            target: b"http://a/feed",
            media: Some(b""),
            body: b"",
        },
    ),
    (
        b"get / HTTP/1.1\r\n\r\n",
        Fields {
            verb: Verb::Other,
            target: b"/",
            media: None,
            body: b"",
        },
    ),
];

#[test]
fn reads_requests(rt: HostRuntime) {
    for (row, (bytes, wanted)) in REQUESTS.iter().enumerate() {
        let request = read(&rt, rt.alloc(), bytes, 0).expect(&rt, "a request");
        let copy = request.copy(rt.alloc()).expect(&rt, "memory");
        assert!(rt; has_fields(&copy, wanted), "row {row}");
        drop((request, copy));
    }
}

/// The bytes of a connection.
enum Source {
    Bytes(&'static [u8]),
    /// A start, this many times a part, and an end.
    Repeated(&'static [u8], usize, &'static [u8], &'static [u8]),
}

fn bytes_of(rt: &impl Abort, alloc: Global, source: &Source) -> Vec<u8> {
    let mut bytes = Vec::new(alloc);
    match source {
        Source::Bytes(all) => bytes.extend_from_slice(all).expect(rt, "memory"),
        Source::Repeated(start, count, part, end) => {
            bytes.extend_from_slice(start).expect(rt, "memory");
            for _ in 0..*count {
                bytes.extend_from_slice(part).expect(rt, "memory");
            }
            bytes.extend_from_slice(end).expect(rt, "memory");
        }
    }
    bytes
}

/// Returns why the bytes of a connection are no request, and how many calls read them.
fn refusal(
    rt: &impl Abort,
    alloc: Global,
    bytes: &[u8],
    failing: u64,
) -> (Option<RequestFault>, u64) {
    let mut conn = conn_of(rt, alloc, bytes, failing);
    let fault = read_request(alloc, &mut conn).err();
    let reads = conn.reads();
    drop(conn);
    (fault, reads)
}

/// The bytes of a connection, its call that fails, or 0, the fault, and how many calls read them.
static FAULTS: [(Source, u64, Option<RequestFault>, Option<u64>); 26] = [
    // The connection ends after the bytes.
    (
        Source::Bytes(b"GET\x01"),
        0,
        Some(RequestFault::BadHead),
        None,
    ),
    (
        Source::Bytes(b"GET /\x00 HTTP/1.1\r\n"),
        0,
        Some(RequestFault::BadHead),
        None,
    ),
    (
        Source::Bytes(b""),
        0,
        Some(RequestFault::EndedEarly { read: 0 }),
        None,
    ),
    (
        Source::Bytes(b"POST / HTTP/1.1\r\n\r\n"),
        0,
        Some(RequestFault::NoLength),
        None,
    ),
    (
        Source::Bytes(
            b"POST / HTTP/1.1\r\nContent-Length: 1\r\nTransfer-Encoding: chunked\r\n\r\na",
        ),
        0,
        Some(RequestFault::NoLength),
        None,
    ),
    (
        Source::Bytes(b"PUT / HTTP/1.1\r\nContent-Length: 1\r\ncontent-length: 1\r\n\r\na"),
        0,
        Some(RequestFault::TwoLengths),
        None,
    ),
    (
        Source::Bytes(b"POST / HTTP/1.1\r\nContent-Length: +1\r\n\r\na"),
        0,
        Some(RequestFault::BadHead),
        None,
    ),
    (
        Source::Bytes(b"POST / HTTP/1.1\r\nContent-Length:\r\n\r\na"),
        0,
        Some(RequestFault::BadHead),
        None,
    ),
    (
        Source::Bytes(
            b"POST / HTTP/1.1\r\nContent-Length: 0000000000000000000000000000001\r\n\r\na",
        ),
        0,
        Some(RequestFault::BadHead),
        None,
    ),
    (
        Source::Bytes(b"POST / HTTP/1.1\r\nContent-Length: 65537\r\n\r\na"),
        0,
        Some(RequestFault::BodyTooLarge { length: 65_537 }),
        None,
    ),
    (
        Source::Bytes(
            b"POST / HTTP/1.1\r\nContent-Length: 999999999999999999999999999999\r\n\r\na",
        ),
        0,
        Some(RequestFault::BodyTooLarge {
            length: 999_999_999_999_999_999_999_999_999_999,
        }),
        None,
    ),
    (
        Source::Bytes(b"POST / HTTP/1.1\r\nContent-Length: 10\r\n\r\nabcd"),
        0,
        Some(RequestFault::EndedEarly { read: 43 }),
        None,
    ),
    // Numbers of fields of 5 bytes.
    (
        Source::Repeated(b"GET / HTTP/1.1\r\n", 64, b"a:b\r\n", b"\r\n"),
        0,
        None,
        None,
    ),
    (
        Source::Repeated(b"GET / HTTP/1.1\r\n", 65, b"a:b\r\n", b"\r\n"),
        0,
        Some(RequestFault::HeadTooLarge),
        None,
    ),
    (
        Source::Repeated(b"GET / HTTP/1.1\r\n", 4_000, b"a:b\r\n", b"\r\n"),
        0,
        Some(RequestFault::HeadTooLarge),
        None,
    ),
    // Lengths of a target, with which a head has 17 bytes more.
    (
        Source::Repeated(b"GET ", 16_367, b"/", b" HTTP/1.1\r\n\r\n"),
        0,
        None,
        None,
    ),
    (
        Source::Repeated(b"GET ", 16_368, b"/", b" HTTP/1.1\r\n\r\n"),
        0,
        Some(RequestFault::HeadTooLarge),
        None,
    ),
    // The connection ends after 20 bytes. Call 1 reads all of them, and call 2 none.
    (
        Source::Bytes(b"POST / HTTP/1.1\r\nCon"),
        1,
        Some(RequestFault::ConnFault),
        None,
    ),
    (
        Source::Bytes(b"POST / HTTP/1.1\r\nCon"),
        2,
        Some(RequestFault::ConnFault),
        None,
    ),
    (
        Source::Bytes(b"POST / HTTP/1.1\r\nCon"),
        3,
        Some(RequestFault::EndedEarly { read: 20 }),
        None,
    ),
    // The bytes decide the result with the first read, although the connection is still open. Call 2 fails, so the result is
    // another one if there is a second read. A client that waits for its reply sends no byte for such a read.
    (Source::Bytes(b"GET / HTTP/1.1\r\n\r\n"), 2, None, Some(1)),
    (
        Source::Bytes(b"DELETE /a HTTP/1.1\r\nContent-Length: 9\r\n\r\n"),
        2,
        None,
        Some(1),
    ),
    (
        Source::Bytes(b"POST / HTTP/1.1\r\nContent-Length: 4\r\n\r\nabcd"),
        2,
        None,
        Some(1),
    ),
    (
        Source::Bytes(b"POST / HTTP/1.1\r\n\r\n"),
        2,
        Some(RequestFault::NoLength),
        Some(1),
    ),
    (
        Source::Bytes(b"G\x00"),
        2,
        Some(RequestFault::BadHead),
        Some(1),
    ),
    // The first read fills the buffer of the head, and the second reads the rest of the body.
    (
        Source::Repeated(
            b"PUT / HTTP/1.1\r\nContent-Length: 20000\r\n\r\n",
            20_000,
            b"a",
            b"",
        ),
        3,
        None,
        Some(2),
    ),
];

#[test]
fn reports_faults(rt: HostRuntime) {
    for (row, (source, failing, wanted, calls)) in FAULTS.iter().enumerate() {
        let bytes = bytes_of(&rt, rt.alloc(), source);
        let (fault, reads) = refusal(&rt, rt.alloc(), &bytes, *failing);
        assert!(rt;
            fault == *wanted && reads == calls.unwrap_or(reads),
            "row {row}"
        );
    }
}

/// A body of the limit, 65,536 bytes, and a byte after it.
static LONGEST: Source = Source::Repeated(
    b"PUT / HTTP/1.1\r\nContent-Length: 65536\r\n\r\n",
    65_536,
    b"a",
    b"b",
);

#[test]
fn reads_a_body_of_the_limit(rt: HostRuntime) {
    let alloc = rt.alloc();
    let bytes = bytes_of(&rt, alloc, &LONGEST);
    let body = vec![in alloc; b'a'; 65_536].expect(&rt, "memory");
    let request = read(&rt, alloc, &bytes, 0).expect(&rt, "a request");
    assert!(rt; request.body.slice() == body.as_slice());
    drop(request);
}

const WHOLE: &[u8] = b"POST / HTTP/1.1\r\nContent-Length: 4\r\n\r\nabcd";

#[test]
fn counts_the_bytes_of_an_early_end(rt: HostRuntime) {
    for whole in [WHOLE, NEWS] {
        for end in 0..whole.len() {
            let (fault, _) = refusal(&rt, rt.alloc(), &whole[..end], 0);
            assert!(rt;
                fault == Some(RequestFault::EndedEarly { read: end as u64 }),
                "{end} bytes"
            );
        }
    }
}
