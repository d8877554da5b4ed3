//! The log: when it is on, and its lines.

ghost use Rattle.std.specs.Prelude.{◌≤◌};

use std::env::FillError;
use std::fmt::Display;
use std::io;
use std::net::{Ipv4Addr, Ipv6Addr, SocketAddr};
use std::rt::Env;
use std::time::Duration;
use system_edge::{EndedConn, Line, Log};

/// A system whose environment has `FEED_LOG` with this value, or has no such variable. Nobody reads what it prints.
#[derive(Drop)]
struct Variable {
    value: Option<&'static [u8]>,
}

impl Env for Variable {
    fn arg(&self, _at: usize, _into: &mut [u8]) -> Result<usize, FillError> {
        Err(FillError::NotPresent)
    }

    fn var(&self, name: &str, into: &mut [u8]) -> Result<usize, FillError> {
        let Some(value) = self.value else {
            return Err(FillError::NotPresent);
        };
        if name != "FEED_LOG" {
            return Err(FillError::NotPresent);
        }
        match into.get_mut(..value.len()) {
            Some(front) => front.copy_from_slice(value),
            None => return Err(FillError::TooLong),
        }
        Ok(value.len())
    }

    fn var_at(&self, _at: usize, _into: &mut [u8]) -> Result<usize, FillError> {
        Err(FillError::NotPresent)
    }
}

impl Eprint for Variable {
    fn eprint<D: Display + Drop>(&self, _value: D) -> io::Result<()> {
        Ok(())
    }

    fn eprintln<D: Display + Drop>(&self, _value: D) -> io::Result<()> {
        Ok(())
    }
}

static VALUES: [(Option<&[u8]>, bool); 7] = [
    (None, false),
    (Some(b""), false),
    (Some(b"stderr"), true),
    (Some(b"stderr "), false),
    (Some(b"stdout"), false),
    (Some(b"1"), false),
    (Some(b"stderr,stderr"), false),
];

#[test]
fn is_off_unless_asked_for(rt: HostRuntime) {
    for &(value, wanted) in &VALUES {
        let system = Variable { value };
        assert!(rt;
            Log::new(&system, rt.stderr()).is_on() == wanted,
            "{value:?}"
        );
    }
}

/// What a client has sent, the status, the bytes of the reply, the end, and the line.
static LINES: [(&[u8], Option<u16>, u64, Option<&str>, &str); 6] = [
    (
        b"GET /feed HTTP/1.1\r\nHost: a\r\n\r\n",
        Some(200),
        1_234,
        None,
        "event=connection peer=127.0.0.1:4711 method=GET target=/feed status=200 bytes=1234 ms=12.034",
    ),
    (
        b"",
        None,
        0,
        Some("late"),
        "event=connection peer=127.0.0.1:4711 method= target= bytes=0 ms=12.034 end=late",
    ),
    (
        b"PO",
        None,
        0,
        Some("cut"),
        "event=connection peer=127.0.0.1:4711 method=PO target= bytes=0 ms=12.034 end=cut",
    ),
    (
        b"GET\t/ a=b\nevent=listen",
        Some(400),
        9,
        None,
        "event=connection peer=127.0.0.1:4711 method=GET\\x09/ target=a=b status=400 bytes=9 ms=12.034",
    ),
    (
        b"GET /\xc3\xa4\\%20\"\x7f\x00 HTTP/1.1\n",
        Some(404),
        9,
        None,
        "event=connection peer=127.0.0.1:4711 method=GET target=/\\xc3\\xa4\\x5c%20\"\\x7f\\x00 status=404 bytes=9 ms=12.034",
    ),
    (
        b"\n\nGET / HTTP/1.1\n",
        Some(400),
        9,
        Some("failed"),
        "event=connection peer=127.0.0.1:4711 method= target= status=400 bytes=9 ms=12.034 end=failed",
    ),
];

#[test]
fn writes_a_line_for_a_connection(rt: HostRuntime) {
    for &(request, status, bytes, end, wanted) in &LINES {
        let ended = EndedConn {
            peer: SocketAddr::from((Ipv4Addr::LOCALHOST, 4711)),
            request,
            status,
            bytes,
            time: Duration::from_micros(12_034),
            end,
        };
        assert_eq!(rt; ended.line().as_str(), wanted);
    }
}

/// The bytes of an address, its port and its text.
static ADDRESSES: [([u8; 4], u16, &str); 4] = [
    ([127, 0, 0, 1], 80, "127.0.0.1:80"),
    ([203, 0, 113, 7], 65_535, "203.0.113.7:65535"),
    ([0, 0, 0, 0], 0, "0.0.0.0:0"),
    ([255, 99, 10, 9], 8_080, "255.99.10.9:8080"),
];

#[test]
fn writes_addresses(rt: HostRuntime) {
    for &(octets, port, wanted) in &ADDRESSES {
        let mut line = Line::new("listen");
        line.address("address", SocketAddr::from((Ipv4Addr::from(octets), port)));
        assert_eq!(rt;
            line.as_str().strip_prefix("event=listen address="),
            Some(wanted)
        );
    }
    let mut line = Line::new("listen");
    line.address("address", SocketAddr::from((Ipv6Addr::LOCALHOST, 80)));
    assert_eq!(rt; line.as_str(), "event=listen address=[::1]:80");
}

/// A time in microseconds, and its text in milliseconds.
static TIMES: [(u64, &str); 6] = [
    (0, "0.000"),
    (9, "0.009"),
    (10, "0.010"),
    (99, "0.099"),
    (100, "0.100"),
    (61_000_999, "61000.999"),
];

#[test]
fn writes_times(rt: HostRuntime) {
    for &(micros, wanted) in &TIMES {
        let mut line = Line::new("sync");
        line.millis("ms", Duration::from_micros(micros));
        assert_eq!(rt; line.as_str().strip_prefix("event=sync ms="), Some(wanted));
    }
}

/// How many times a byte is written, and how many bytes its value takes.
static CUTS: [(u8, usize, usize); 5] = [
    (b'a', 199, 199),
    (b'a', 200, 200),
    (b'a', 201, 200),
    (b' ', 50, 200),
    (b' ', 51, 200),
];

#[test]
fn cuts_a_value_at_200_bytes(rt: HostRuntime) {
    for &(byte, count, wanted) in &CUTS {
        let bytes = [byte; 300];
        let mut line = Line::new("fetch");
        line.bytes("address", &bytes[..count]);
        assert_eq!(rt; line.as_str().len(), "event=fetch address=".len() + wanted);
    }
    // An escape is written whole or not at all.
    let mut line = Line::new("fetch");
    line.bytes("address", &[b'a'; 197]);
    line.bytes(
        "other",
        &[[b'a'; 197].as_slice(), b" b"]
            .concat(rt.alloc())
            .expect(&rt, "memory"),
    );
    assert_eq!(rt;
        line.as_str().len(),
        "event=fetch address= other=".len() + 197 + 197
    );
}

#[test]
fn keeps_three_long_values_and_no_more(rt: HostRuntime) {
    let long = [b'!'; 250];
    let mut line = Line::new("connection");
    for key in ["a", "b", "c"] {
        line.bytes(key, &long);
    }
    line.number("last", u64::MAX);
    assert!(&rt;
        line.as_str().ends_with(" last=18446744073709551615"),
        "{}",
        line.as_str()
    );
    for _ in 0..3 {
        line.bytes("more", &long);
    }
    assert!(rt; line.as_str().len() <= 1_024, "{}", line.as_str());
}
