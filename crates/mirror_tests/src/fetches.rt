//! Documents that are asked for by their addresses.

use crate::courses::{Found, offers_of};
use crate::documents::Given::Plain;
use atom_values::{Bytes, Many};
use doc_source::{Fetch, GetFault, HttpFetch, PileFetch, read_document};
use http_face::ScriptConn;
use std::alloc::Global;
use std::net::TcpListener;
use std::process::Abort;

/// The document that was found, as text.
fn found_text(rt: &impl Abort, alloc: Global, found: &Result<Option<Vec<u8>>, GetFault>) -> String {
    let text = match found {
        Ok(Some(bytes)) => str::from_utf8(bytes).expect(rt, "text"),
        Ok(None) => "none",
        Err(GetFault::Failed) => "failed",
        Err(GetFault::NoMemory) => "no memory",
    };
    String::from_str(alloc, text).expect(rt, "memory")
}

/// The answer of a source to an address.
pub fn get_text<F: Fetch>(rt: &impl Abort, alloc: Global, fetch: &mut F, address: &str) -> String {
    let found = fetch.get(alloc, address.as_bytes());
    let text = found_text(rt, alloc, &found);
    drop(found);
    text
}

/// Three offers, of which two have one address.
static OFFERS: [Found; 3] = [
    ("a", Plain(b"one")),
    ("b", Plain(b"two")),
    ("a", Plain(b"six")),
];

/// Addresses that are asked for, and the bytes of the first offer of each.
static ASKED: [(&str, &str); 4] = [("a", "one"), ("c", "none"), ("b", "two"), ("a", "one")];

#[test]
fn each_get_has_the_first_offer_or_fails(rt: HostRuntime) {
    let alloc = rt.alloc();
    for failing in 0u64..5 {
        let mut calls = Many::new(alloc);
        calls.push(failing).expect(&rt, "memory");
        let mut fetch = PileFetch::new(alloc, offers_of(&rt, alloc, &OFFERS), calls);
        for (call, (address, bytes)) in (1u64..5).zip(&ASKED) {
            let wanted = if call == failing { "failed" } else { *bytes };
            let text = get_text(&rt, alloc, &mut fetch, address);
            assert!(rt;
                text.as_str() == wanted,
                "call {call}, {failing} fails: {text}"
            );
        }
        assert_eq!(rt; fetch.asked().len(), ASKED.len());
        drop(fetch);
    }
}

/// Addresses that can't be asked for, or at which nobody listens.
static REFUSED: [&str; 7] = [
    "",
    "https://127.0.0.1:1/feed",
    "http://127.0.0.1:1",
    "http:///feed",
    "http://127.0.0.1:1/feed HTTP/1.1\r\n\r\n",
    "http://127.0.0.1:none/feed",
    "http://127.0.0.1:0/feed",
];

#[test]
fn a_get_without_a_server_fails(rt: HostRuntime) {
    let alloc = rt.alloc();
    let mut fetch = HttpFetch::new(&rt);
    for address in &REFUSED {
        let text = get_text(&rt, alloc, &mut fetch, address);
        assert!(rt; text.as_str() == "failed", "{address}: {text}");
    }
    // This port was free a moment ago.
    let listener = TcpListener::bind(&rt, "127.0.0.1:0").expect(&rt, "a port");
    let port = listener.local_addr().expect(&rt, "an address").port();
    drop(listener);
    let address = format!(in alloc; "http://127.0.0.1:{port}/feed").expect(&rt, "memory");
    let text = get_text(&rt, alloc, &mut fetch, address.as_str());
    assert!(rt; text.as_str() == "failed", "{address}: {text}");
    assert_eq!(rt; fetch.faults(), 8);
    drop(fetch);
}

/// What a server sends, the call that fails (0: none), and the document.
static SENT: [(&[u8], u64, &str); 6] = [
    (b"HTTP/1.0 200 OK\r\nContent-Length: 3\r\n\r\nabc", 0, "abc"),
    (b"HTTP/1.0 404 Not Found\r\n\r\n", 0, "none"),
    (b"HTTP/1.0 410 Gone\r\n\r\n", 0, "none"),
    (b"HTTP/1.0 500 Internal Server Error\r\n\r\n", 0, "failed"),
    (b"no response", 0, "failed"),
    (b"HTTP/1.0 404 Not Found\r\n\r\n", 1, "failed"),
];

#[test]
fn only_a_server_that_says_so_has_no_document(rt: HostRuntime) {
    let alloc = rt.alloc();
    for (bytes, failing, wanted) in &SENT {
        let mut calls = Many::new(alloc);
        calls.push(*failing).expect(&rt, "memory");
        let bytes = Bytes::of(alloc, bytes).expect(&rt, "memory");
        let mut conn = ScriptConn::new(alloc, bytes, calls);
        let found = read_document(alloc, &mut conn);
        let text = found_text(&rt, alloc, &found);
        drop(found);
        drop(conn);
        assert!(rt; text.as_str() == *wanted, "{wanted}: {text}");
    }
}
