//! Responses that are read, and bytes that are none.

use crate::conns::conn_of;
use http_face::{ResponseFault, read_response};
use std::alloc::Global;
use std::process::Abort;

/// An answer, or the fault.
type Answer<'a> = Result<Option<&'a [u8]>, ResponseFault>;

const BAD: Answer<'static> = Err(ResponseFault::BadResponse);

/// Whether the bytes of a connection have this answer. This call of the connection fails; 0 lists no call.
fn answers(rt: &impl Abort, alloc: Global, bytes: &[u8], failing: u64, want: Answer<'_>) -> bool {
    let mut conn = conn_of(rt, alloc, bytes, failing);
    let answer = read_response(alloc, &mut conn);
    drop(conn);
    match answer {
        Ok(Some(body)) => want == Ok(Some(body.as_slice())),
        Ok(None) => want == Ok(None),
        Err(fault) => want == Err(fault),
    }
}

/// Bytes, their answer, and how many calls of the connection read it.
static RESPONSES: [(&[u8], Answer<'static>, u64); 27] = [
    (
        b"HTTP/1.1 200 OK\r\nContent-Length: 3\r\n\r\nabc",
        Ok(Some(b"abc")),
        1,
    ),
    (
        b"HTTP/1.1 200 OK\r\nContent-Length: 3\r\n\r\nabcdef",
        Ok(Some(b"abc")),
        1,
    ),
    (
        b"HTTP/1.0 200\nCONTENT-length: \t0003 \n\nabcdef",
        Ok(Some(b"abc")),
        1,
    ),
    (
        b"HTTP/1.1 200 OK\r\nContent-Length: 000000000000000000000000000000\r\n\r\n",
        Ok(Some(b"")),
        1,
    ),
    (
        b"HTTP/1.0 200 OK\r\nServer: a\r\n\r\nabc",
        Ok(Some(b"abc")),
        2,
    ),
    (b"HTTP/1.1 200 OK\r\n\r\n", Ok(Some(b"")), 2),
    (b"HTTP/1.1 404 Not Found\r\n\r\nabc", Ok(None), 1),
    (
        b"HTTP/1.0 410 Gone\r\nContent-Length: 9\r\n\r\n",
        Ok(None),
        1,
    ),
    (
        b"HTTP/1.1 404 No\r\nContent-Length: x\r\nTransfer-Encoding: chunked\r\n\r\n",
        Ok(None),
        1,
    ),
    (b"HTTP/1.1 301 Moved\r\nLocation: http://a/\r\n\r\n", BAD, 1),
    (b"HTTP/1.1 500 Error\r\nContent-Length: 0\r\n\r\n", BAD, 1),
    (b"HTTP/1.1 204 None\r\n\r\n", BAD, 1),
    (
        b"HTTP/1.1 100 Continue\r\n\r\nHTTP/1.1 200 OK\r\n\r\n",
        BAD,
        1,
    ),
    (b"HTTP/1.1 200 OK\r\nContent-Length: 10\r\n\r\nabcd", BAD, 2),
    (
        b"HTTP/1.1 200 OK\r\nTransfer-Encoding: chunked\r\n\r\n0\r\n\r\n",
        BAD,
        1,
    ),
    (
        b"HTTP/1.1 200 OK\r\ntransfer-encoding: x\r\nContent-Length: 0\r\n\r\n",
        BAD,
        1,
    ),
    (
        b"HTTP/1.1 200 OK\r\nContent-Length: 1\r\ncontent-length: 1\r\n\r\na",
        BAD,
        1,
    ),
    (b"HTTP/1.1 200 OK\r\nContent-Length: +1\r\n\r\na", BAD, 1),
    (b"HTTP/1.1 200 OK\r\nContent-Length: 1, 1\r\n\r\na", BAD, 1),
    (b"HTTP/1.1 200 OK\r\nContent-Length:\r\n\r\na", BAD, 1),
    (
        b"HTTP/1.1 200 OK\r\nContent-Length: 0000000000000000000000000000001\r\n\r\na",
        BAD,
        1,
    ),
    (
        b"HTTP/1.1 200 OK\r\nContent-Length: 67108865\r\n\r\na",
        BAD,
        1,
    ),
    (
        b"HTTP/1.1 200 OK\r\nContent-Length: 67108864\r\n\r\na",
        BAD,
        2,
    ),
    (b"HTTP/2.0 200 OK\r\n\r\n", BAD, 1),
    (b"<html>", BAD, 1),
    (b"HTTP/1.1 200 OK\r\nContent-Le", BAD, 2),
    (b"", BAD, 1),
];

#[test]
fn reads_responses(rt: HostRuntime) {
    for (row, &(bytes, want, calls)) in RESPONSES.iter().enumerate() {
        assert!(rt; answers(&rt, rt.alloc(), bytes, 0, want), "row {row}");
        for failing in 1..4 {
            let want = if failing <= calls {
                Err(ResponseFault::ConnFault)
            } else {
                want
            };
            assert!(rt;
                answers(&rt, rt.alloc(), bytes, failing, want),
                "row {row}, call {failing} fails"
            );
        }
    }
}

/// The head of a response with status 404, which has this many fields and this many bytes in all.
fn head_of(rt: &impl Abort, alloc: Global, fields: usize, length: usize) -> Vec<u8> {
    let mut head = Vec::from_slice(alloc, b"HTTP/1.1 404 No\r\n").expect(rt, "memory");
    for _ in 1..fields {
        head.extend_from_slice(b"a: b\r\n").expect(rt, "memory");
    }
    head.extend_from_slice(b"c: ").expect(rt, "memory");
    for _ in head.len()..length.saturating_sub(4) {
        head.push(b'd').expect(rt, "memory");
    }
    head.extend_from_slice(b"\r\n\r\n").expect(rt, "memory");
    head
}

/// Numbers of fields and bytes of heads, and the answers.
static HEADS: [(usize, usize, Answer<'static>); 5] = [
    (1, 16_384, Ok(None)),
    (1, 16_385, BAD),
    (64, 16_384, Ok(None)),
    (64, 1_000, Ok(None)),
    (65, 1_000, BAD),
];

#[test]
fn limits_heads(rt: HostRuntime) {
    for &(fields, length, want) in &HEADS {
        let head = head_of(&rt, rt.alloc(), fields, length);
        let is_right = answers(&rt, rt.alloc(), &head, 0, want);
        assert!(rt;
            head.len() == length && is_right,
            "{fields} fields, {length} bytes"
        );
    }
}

/// The bytes `front`, and `length` bytes after them.
fn behind(rt: &impl Abort, alloc: Global, front: &[u8], length: u32) -> Vec<u8> {
    let mut bytes = Vec::from_slice(alloc, front).expect(rt, "memory");
    for k in 0..length {
        bytes.push((k % 251) as u8).expect(rt, "memory");
    }
    bytes
}

#[test]
fn reads_long_bodies(rt: HostRuntime) {
    for length in [16_365, 16_366, 200_000] {
        let body = behind(&rt, rt.alloc(), b"", length);
        let bytes = behind(&rt, rt.alloc(), b"HTTP/1.0 200 OK\r\n\r\n", length);
        let is_right = answers(&rt, rt.alloc(), &bytes, 0, Ok(Some(&body)));
        assert!(rt; is_right, "{length} bytes");
    }
}
