//! Requests of the service document and of the listing.
//!
//! A function that owns a store or a disk has few exits, since the proof drops each of its values at each exit.

ghost use Rattle.std.specs.Prelude.{◌≡◌, false};
ghost use Rattle.feed_recovery.specs.Store.{is_spent};

use crate::conns::conn_of;
use crate::stores::{Ask, CAPACITY, NOW, Row, Sent, follow, store_disk};
use atom_values::AtomText;
use document_server::set;
use feed_disk::Disk;
use feed_recovery::Store;
use http_face::{Conn, read_request, write_reply};
use member_rules::{Setting, ShortText};
use service_face::{listing, service_answer, service_doc};
use std::alloc::Global;
use std::process::Abort;

/// A request, and its reply, or none if its target names no page.
type PageRow = (&'static [u8], Option<&'static [u8]>);

/// Requests on a store that has no operation.
static FRESH: [PageRow; 30] = [
    (
        b"GET /service HTTP/1.1\r\n\r\n",
        Some(
            b"HTTP/1.1 200 OK\r\nContent-Type: application/atomsvc+xml\r\nContent-Length: 321\r\nConnection: close\r\n\r\n<?xml version=\"1.0\" encoding=\"utf-8\"?>\n<service xmlns=\"http://www.w3.org/2007/app\" xmlns:atom=\"http://www.w3.org/2005/Atom\"><workspace><atom:title>Feed</atom:title><collection href=\"http://feed.example/feed\"><atom:title>Feed</atom:title><accept>application/atom+xml;type=entry</accept></collection></workspace></service>\n",
        ),
    ),
    (
        b"GET http://feed.example/service HTTP/1.1\r\n\r\n",
        Some(
            b"HTTP/1.1 200 OK\r\nContent-Type: application/atomsvc+xml\r\nContent-Length: 321\r\nConnection: close\r\n\r\n<?xml version=\"1.0\" encoding=\"utf-8\"?>\n<service xmlns=\"http://www.w3.org/2007/app\" xmlns:atom=\"http://www.w3.org/2005/Atom\"><workspace><atom:title>Feed</atom:title><collection href=\"http://feed.example/feed\"><atom:title>Feed</atom:title><accept>application/atom+xml;type=entry</accept></collection></workspace></service>\n",
        ),
    ),
    (
        b"GET /members HTTP/1.1\r\n\r\n",
        Some(
            b"HTTP/1.1 200 OK\r\nContent-Type: text/plain;charset=utf-8\r\nContent-Length: 0\r\nConnection: close\r\n\r\n",
        ),
    ),
    (
        b"HEAD /service HTTP/1.1\r\n\r\n",
        Some(
            b"HTTP/1.1 405 Method Not Allowed\r\nContent-Type: text/plain;charset=utf-8\r\nContent-Length: 12\r\nAllow: GET\r\nConnection: close\r\n\r\nnot allowed\n",
        ),
    ),
    (
        b"POST /members HTTP/1.1\r\nContent-Length: 67\r\n\r\n<entry xmlns=\"http://www.w3.org/2005/Atom\"><title>a</title></entry>",
        Some(
            b"HTTP/1.1 405 Method Not Allowed\r\nContent-Type: text/plain;charset=utf-8\r\nContent-Length: 12\r\nAllow: GET\r\nConnection: close\r\n\r\nnot allowed\n",
        ),
    ),
    (
        b"PUT /service HTTP/1.1\r\nContent-Length: 67\r\n\r\n<entry xmlns=\"http://www.w3.org/2005/Atom\"><title>a</title></entry>",
        Some(
            b"HTTP/1.1 405 Method Not Allowed\r\nContent-Type: text/plain;charset=utf-8\r\nContent-Length: 12\r\nAllow: GET\r\nConnection: close\r\n\r\nnot allowed\n",
        ),
    ),
    (
        b"DELETE /members HTTP/1.1\r\n\r\n",
        Some(
            b"HTTP/1.1 405 Method Not Allowed\r\nContent-Type: text/plain;charset=utf-8\r\nContent-Length: 12\r\nAllow: GET\r\nConnection: close\r\n\r\nnot allowed\n",
        ),
    ),
    (
        b"OPTIONS http://feed.example/members HTTP/1.1\r\n\r\n",
        Some(
            b"HTTP/1.1 405 Method Not Allowed\r\nContent-Type: text/plain;charset=utf-8\r\nContent-Length: 12\r\nAllow: GET\r\nConnection: close\r\n\r\nnot allowed\n",
        ),
    ),
    (
        b"PATCH /service HTTP/1.1\r\n\r\n",
        Some(
            b"HTTP/1.1 405 Method Not Allowed\r\nContent-Type: text/plain;charset=utf-8\r\nContent-Length: 12\r\nAllow: GET\r\nConnection: close\r\n\r\nnot allowed\n",
        ),
    ),
    (
        b"FOO /service HTTP/1.1\r\n\r\n",
        Some(
            b"HTTP/1.1 501 Not Implemented\r\nContent-Type: text/plain;charset=utf-8\r\nContent-Length: 16\r\nConnection: close\r\n\r\nnot implemented\n",
        ),
    ),
    (
        b"FOO /members HTTP/1.1\r\n\r\n",
        Some(
            b"HTTP/1.1 501 Not Implemented\r\nContent-Type: text/plain;charset=utf-8\r\nContent-Length: 16\r\nConnection: close\r\n\r\nnot implemented\n",
        ),
    ),
    // Targets that name no page.
    (b"GET / HTTP/1.1\r\n\r\n", None),
    (b"GET /feed HTTP/1.1\r\n\r\n", None),
    (b"GET /archive/1 HTTP/1.1\r\n\r\n", None),
    (b"GET /member/1 HTTP/1.1\r\n\r\n", None),
    (b"GET /member HTTP/1.1\r\n\r\n", None),
    (b"GET /members/ HTTP/1.1\r\n\r\n", None),
    (b"GET /members/1 HTTP/1.1\r\n\r\n", None),
    (b"GET /service/ HTTP/1.1\r\n\r\n", None),
    (b"GET /services HTTP/1.1\r\n\r\n", None),
    (b"GET /Service HTTP/1.1\r\n\r\n", None),
    (b"GET //service HTTP/1.1\r\n\r\n", None),
    (b"GET service HTTP/1.1\r\n\r\n", None),
    (b"GET /feed/service HTTP/1.1\r\n\r\n", None),
    (b"GET http://feed.example/ HTTP/1.1\r\n\r\n", None),
    (b"GET http://feed.example//service HTTP/1.1\r\n\r\n", None),
    (b"GET http://other.example/service HTTP/1.1\r\n\r\n", None),
    (b"GET https://feed.example/service HTTP/1.1\r\n\r\n", None),
    (b"GET * HTTP/1.1\r\n\r\n", None),
    (b"FOO /feed HTTP/1.1\r\n\r\n", None),
];

/// Changes: two members, a change of the first, a third member, and its deletion.
static CHANGES: [Row; 5] = [
    (
        Ask::Bytes(
            b"POST /feed HTTP/1.1\r\nContent-Length: 67\r\n\r\n<entry xmlns=\"http://www.w3.org/2005/Atom\"><title>a</title></entry>",
        ),
        Sent::Ends(b"HTTP/1.1 20", b""),
    ),
    (
        Ask::Bytes(
            b"POST /feed HTTP/1.1\r\nContent-Length: 67\r\n\r\n<entry xmlns=\"http://www.w3.org/2005/Atom\"><title>b</title></entry>",
        ),
        Sent::Ends(b"HTTP/1.1 20", b""),
    ),
    (
        Ask::Bytes(
            b"PUT /member/1 HTTP/1.1\r\nContent-Length: 67\r\n\r\n<entry xmlns=\"http://www.w3.org/2005/Atom\"><title>c</title></entry>",
        ),
        Sent::Ends(b"HTTP/1.1 20", b""),
    ),
    (
        Ask::Bytes(
            b"POST /feed HTTP/1.1\r\nContent-Length: 67\r\n\r\n<entry xmlns=\"http://www.w3.org/2005/Atom\"><title>d</title></entry>",
        ),
        Sent::Ends(b"HTTP/1.1 20", b""),
    ),
    (
        Ask::Bytes(b"DELETE /member/3 HTTP/1.1\r\n\r\n"),
        Sent::Ends(b"HTTP/1.1 20", b""),
    ),
];

/// Requests after these changes.
static CHANGED: [PageRow; 4] = [
    (
        b"GET /members HTTP/1.1\r\n\r\n",
        Some(
            b"HTTP/1.1 200 OK\r\nContent-Type: text/plain;charset=utf-8\r\nContent-Length: 62\r\nConnection: close\r\n\r\n3 http://feed.example/member/1\n2 http://feed.example/member/2\n",
        ),
    ),
    (
        b"GET http://feed.example/members HTTP/1.1\r\n\r\n",
        Some(
            b"HTTP/1.1 200 OK\r\nContent-Type: text/plain;charset=utf-8\r\nContent-Length: 62\r\nConnection: close\r\n\r\n3 http://feed.example/member/1\n2 http://feed.example/member/2\n",
        ),
    ),
    (
        b"GET /service HTTP/1.1\r\n\r\n",
        Some(
            b"HTTP/1.1 200 OK\r\nContent-Type: application/atomsvc+xml\r\nContent-Length: 321\r\nConnection: close\r\n\r\n<?xml version=\"1.0\" encoding=\"utf-8\"?>\n<service xmlns=\"http://www.w3.org/2007/app\" xmlns:atom=\"http://www.w3.org/2005/Atom\"><workspace><atom:title>Feed</atom:title><collection href=\"http://feed.example/feed\"><atom:title>Feed</atom:title><accept>application/atom+xml;type=entry</accept></collection></workspace></service>\n",
        ),
    ),
    (
        b"POST /members HTTP/1.1\r\nContent-Length: 67\r\n\r\n<entry xmlns=\"http://www.w3.org/2005/Atom\"><title>a</title></entry>",
        Some(
            b"HTTP/1.1 405 Method Not Allowed\r\nContent-Type: text/plain;charset=utf-8\r\nContent-Length: 12\r\nAllow: GET\r\nConnection: close\r\n\r\nnot allowed\n",
        ),
    ),
];

/// Requests after a change of the title too.
static TITLED: [PageRow; 2] = [
    (
        b"GET /service HTTP/1.1\r\n\r\n",
        Some(
            b"HTTP/1.1 200 OK\r\nContent-Type: application/atomsvc+xml\r\nContent-Length: 355\r\nConnection: close\r\n\r\n<?xml version=\"1.0\" encoding=\"utf-8\"?>\n<service xmlns=\"http://www.w3.org/2007/app\" xmlns:atom=\"http://www.w3.org/2005/Atom\"><workspace><atom:title>A &amp; &lt;B&gt; \"c\"</atom:title><collection href=\"http://feed.example/feed\"><atom:title>A &amp; &lt;B&gt; \"c\"</atom:title><accept>application/atom+xml;type=entry</accept></collection></workspace></service>\n",
        ),
    ),
    (
        b"GET /members HTTP/1.1\r\n\r\n",
        Some(
            b"HTTP/1.1 200 OK\r\nContent-Type: text/plain;charset=utf-8\r\nContent-Length: 62\r\nConnection: close\r\n\r\n3 http://feed.example/member/1\n2 http://feed.example/member/2\n",
        ),
    ),
];

/// The service document of a feed with the title `Feed`.
const DOCUMENT: &[u8] =
    b"<?xml version=\"1.0\" encoding=\"utf-8\"?>\n<service xmlns=\"http://www.w3.org/2007/app\" xmlns:atom=\"http://www.w3.org/2005/Atom\"><workspace><atom:title>Feed</atom:title><collection href=\"http://feed.example/feed\"><atom:title>Feed</atom:title><accept>application/atom+xml;type=entry</accept></collection></workspace></service>\n";

/// The listing after the changes.
const LINES: &[u8] = b"3 http://feed.example/member/1\n2 http://feed.example/member/2\n";

/// Answers a request of a page. Returns the bytes that the connection is sent, or none if the target names no page.
fn page_reply<D: Disk>(
    rt: &impl Abort,
    alloc: Global,
    store: &Store,
    disk: &D,
    bytes: &[u8],
) -> Option<Vec<u8>>
    requires { is_spent store.now ≡ false }
{
    let mut conn = conn_of(rt, alloc, bytes, 0);
    let request = read_request(alloc, &mut conn).expect(rt, "a request");
    let reply = service_answer(alloc, store, &request).expect(rt, "memory");
    drop(request);
    let Some(reply) = reply else {
        drop(conn);
        return None;
    };
    conn.begin(disk);
    write_reply(&mut conn, &reply).expect(rt, "a whole reply");
    let sent = Vec::from_slice(alloc, conn.sent()).expect(rt, "memory");
    drop((conn, reply));
    Some(sent)
}

/// Loads the store and answers requests on it, each with the expected reply.
fn follow_pages<D: Disk>(rt: &impl Abort, alloc: Global, disk: &mut D, rows: &[PageRow]) {
    let store = Store::load(alloc, disk).expect(rt, "a store");
    for (index, (request, reply)) in rows.iter().enumerate() {
        let sent = page_reply(rt, alloc, &store, disk, request);
        assert!(rt; is_page(&sent, *reply), "row {index}");
    }
    drop(store);
}

fn is_page(sent: &Option<Vec<u8>>, wanted: Option<&[u8]>) -> bool {
    match (sent, wanted) {
        (Some(sent), Some(wanted)) => sent.as_slice() == wanted,
        (None, None) => true,
        _ => false,
    }
}

/// Sets the title of the feed.
fn retitle<D: Disk>(rt: &impl Abort, alloc: Global, disk: &mut D, title: &[u8]) {
    let text = AtomText::of(alloc, title).expect(rt, "a title");
    let setting = Setting::Title(ShortText::of(text).expect(rt, "a short title"));
    let mut store = Store::load(alloc, disk).expect(rt, "a store");
    let reply = set(alloc, &mut store, disk, setting, NOW);
    assert!(rt; reply.status == 200);
    drop((store, reply));
}

/// Compares the texts of the pages. The head has the title that the feed was made with.
fn expect_texts<D: Disk>(rt: &impl Abort, alloc: Global, disk: &mut D) {
    let store = Store::load(alloc, disk).expect(rt, "a store");
    let document = service_doc(alloc, &store.head().name).expect(rt, "memory");
    let lines = listing(alloc, &store.head().name.base, store.members()).expect(rt, "memory");
    assert!(rt; document.as_slice() == DOCUMENT && lines.as_slice() == LINES);
    drop(store);
}

#[test]
fn answers_pages_of_a_new_feed(rt: HostRuntime) {
    let mut disk = store_disk(&rt, rt.alloc(), 4, CAPACITY, 0);
    follow_pages(&rt, rt.alloc(), &mut disk, &FRESH);
    drop(disk);
}

#[test]
fn answers_pages_after_changes(rt: HostRuntime) {
    let alloc = rt.alloc();
    let mut disk = store_disk(&rt, alloc, 4, CAPACITY, 0);
    follow(&rt, alloc, &mut disk, &CHANGES);
    follow_pages(&rt, alloc, &mut disk, &CHANGED);
    retitle(&rt, alloc, &mut disk, b"A & <B> \"c\"");
    follow_pages(&rt, alloc, &mut disk, &TITLED);
    retitle(&rt, alloc, &mut disk, b"New");
    expect_texts(&rt, alloc, &mut disk);
    drop(disk);
}
