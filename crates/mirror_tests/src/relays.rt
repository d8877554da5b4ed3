//! Replies of a relay, and walks of mirrors over it: the feed has windows of four operations and 13 members.

ghost use Rattle.std.specs.Prelude.{◌≡◌, false};
ghost use Rattle.mirror_walk.specs.Mirror.{StandsFor, is_spent};

use crate::areas::Piece::{self, Frame};
use crate::areas::{CAPACITY, CLOSED, disk_of};
use crate::crashes::LOAD_CALLS;
use crate::documents::{BASE, FEED, FOUR, Given, ONE, Origin, THREE, TWO, base, bytes_of};
use crate::fetches::get_text;
use crate::mirrors;
use Given::{Archive, Version};
use Origin::Letters;
use Question::{Ask, Read};
use Verb::{Delete, Get, Head, Options, Other, Patch, Post, Put};
use atom_values::{Bytes, Copies};
use chain_links::{Address, Base};
use doc_source::Fetch;
use feed_disk::Disk;
use feed_journal::LogFault;
use feed_relay::{RelayFetch, relay_answer};
use http_face::{Body, Reply, Request, Verb};
use mirror_walk::Mirror;
use std::alloc::Global;
use std::process::Abort;

/// The area of the relay's mirror. The subscription document needs archive 1 alone.
const HELD: &[Piece] = &[
    Frame(Archive(Letters, 1)),
    Frame(Archive(Letters, 2)),
    Frame(Archive(Letters, 3)),
    Frame(Version(Letters, 5)),
    CLOSED,
];

/// What is asked of a relay or of its mirror.
enum Question {
    /// The reply to a request: the status, the media type, the methods that are allowed, and the line or the document.
    Ask(Verb, &'static str),
    /// The document that the mirror reads back from an address, after whether it is spent then.
    Read(Address),
}

/// A question, the answer, and the document that it ends with.
type Row = (Question, &'static str, Option<Given>);

static ANSWERS: [Row; 30] = [
    (
        Ask(Get, "/feed"),
        "200 Feed None ",
        Some(Version(Letters, 5)),
    ),
    (
        Ask(Get, "/archive/3"),
        "200 Feed None ",
        Some(Archive(Letters, 3)),
    ),
    (Ask(Get, "/archive/4"), "404 Plain None NotFound", None),
    (Ask(Get, "/member/1"), "404 Plain None NotFound", None),
    (
        Ask(Post, "/feed"),
        "405 Plain Some(OfArchive) NotAllowed",
        None,
    ),
    // A target may be the whole address.
    (Ask(Get, FEED), "200 Feed None ", Some(Version(Letters, 5))),
    (Ask(Get, ONE), "200 Feed None ", Some(Archive(Letters, 1))),
    (
        Ask(Get, "http://other.example/feed"),
        "404 Plain None NotFound",
        None,
    ),
    (
        Ask(Get, "/archive/2"),
        "200 Feed None ",
        Some(Archive(Letters, 2)),
    ),
    (Ask(Get, "/archive/0"), "404 Plain None NotFound", None),
    (Ask(Get, "/archive/01"), "404 Plain None NotFound", None),
    (Ask(Get, "/service"), "404 Plain None NotFound", None),
    (Ask(Get, "/"), "404 Plain None NotFound", None),
    // A target that names no document is refused before the method, and a document that isn't held after it.
    (Ask(Post, "/service"), "404 Plain None NotFound", None),
    (Ask(Post, "/member/1"), "404 Plain None NotFound", None),
    (Ask(Delete, "/member/1"), "404 Plain None NotFound", None),
    (
        Ask(Put, "/archive/4"),
        "405 Plain Some(OfArchive) NotAllowed",
        None,
    ),
    (
        Ask(Head, "/feed"),
        "405 Plain Some(OfArchive) NotAllowed",
        None,
    ),
    (
        Ask(Options, "/archive/1"),
        "405 Plain Some(OfArchive) NotAllowed",
        None,
    ),
    (
        Ask(Patch, "/archive/1"),
        "405 Plain Some(OfArchive) NotAllowed",
        None,
    ),
    (Ask(Other, "/feed"), "501 Plain None NotImplemented", None),
    (
        Ask(Other, "/archive/4"),
        "501 Plain None NotImplemented",
        None,
    ),
    (
        Ask(Other, "/member/1"),
        "501 Plain None NotImplemented",
        None,
    ),
    (Ask(Other, "/"), "501 Plain None NotImplemented", None),
    (Read(Address::Feed), "false ", Some(Version(Letters, 5))),
    (
        Read(Address::Archive(1)),
        "false ",
        Some(Archive(Letters, 1)),
    ),
    (
        Read(Address::Archive(3)),
        "false ",
        Some(Archive(Letters, 3)),
    ),
    (Read(Address::Archive(4)), "false none", None),
    (Read(Address::Archive(4_294_967_295)), "false none", None),
    (Read(Address::Member(1)), "false none", None),
];

/// The same on a disk of which the call after the load fails. Without a document no device call is made.
static FAILING: [Row; 11] = [
    (Ask(Get, "/feed"), "500 Plain None Disk", None),
    (Ask(Get, "/archive/3"), "500 Plain None Disk", None),
    (Ask(Get, "/archive/4"), "404 Plain None NotFound", None),
    (Ask(Get, "/member/1"), "404 Plain None NotFound", None),
    (
        Ask(Post, "/feed"),
        "405 Plain Some(OfArchive) NotAllowed",
        None,
    ),
    (Read(Address::Feed), "true disk fault", None),
    (Read(Address::Archive(1)), "true disk fault", None),
    (Read(Address::Archive(3)), "true disk fault", None),
    (Read(Address::Archive(4)), "false none", None),
    (Read(Address::Archive(4_294_967_295)), "false none", None),
    (Read(Address::Member(1)), "false none", None),
];

/// The mirror of a disk.
fn load<D: Disk>(rt: &impl Abort, alloc: Global, disk: &mut D, base: &Base) -> Mirror
    ensures unspent { is_spent result ≡ false }
    ensures stands { D.observable → StandsFor (D.state disk.new) result }
    ensures base { result.base ≡ base.now }
{
    let base = base.copy(alloc).expect(rt, "memory");
    Mirror::load(alloc, disk, base, CAPACITY).expect(rt, "a mirror")
}

/// The status of a reply, its media type, the methods that are allowed, and the body.
fn reply_text(rt: &impl Abort, alloc: Global, reply: &Reply) -> String {
    assert!(rt; reply.location.is_none());
    let (status, media, allow) = (&reply.status, &reply.media, &reply.allow);
    let text = match &reply.body {
        Body::Made(bytes) => {
            let body = str::from_utf8(bytes.slice()).expect(rt, "text");
            format!(in alloc; "{status} {media:?} {allow:?} {body}")
        }
        Body::Fixed(line) => format!(in alloc; "{status} {media:?} {allow:?} {line:?}"),
    };
    text.expect(rt, "memory")
}

/// The relay's reply to a request without a body.
fn ask<D: Disk>(rt: &impl Abort, alloc: Global, disk: &mut D, verb: Verb, target: &str) -> String {
    let base = base(rt, alloc, BASE);
    let mut mirror = load(rt, alloc, disk, &base);
    let request = Request {
        verb,
        target: Bytes::of(alloc, target.as_bytes()).expect(rt, "memory"),
        media: None,
        body: Bytes::of(alloc, b"").expect(rt, "memory"),
    };
    let reply = relay_answer(&mut mirror, disk, &base, &request);
    drop(mirror);
    drop(request);
    let text = reply_text(rt, alloc, &reply);
    drop(reply);
    text
}

/// Whether a mirror is spent once it has read the document of an address, and the document.
fn read<D: Disk>(rt: &impl Abort, alloc: Global, disk: &mut D, address: Address) -> String {
    let base = base(rt, alloc, BASE);
    let mut mirror = load(rt, alloc, disk, &base);
    drop(base);
    let found = mirror.document(disk, address);
    let spent = mirror.is_spent();
    drop(mirror);
    let text = match &found {
        Ok(Some(bytes)) => str::from_utf8(bytes).expect(rt, "text"),
        Ok(None) => "none",
        Err(LogFault::DiskFault) => "disk fault",
        Err(_) => "another fault",
    };
    format!(in alloc; "{spent} {text}").expect(rt, "memory")
}

/// A text with a document after it.
fn with_document(rt: &impl Abort, alloc: Global, text: &str, given: &Option<Given>) -> String {
    let mut all = String::from_str(alloc, text).expect(rt, "memory");
    if let Some(given) = given {
        let bytes = bytes_of(rt, alloc, given);
        let document = str::from_utf8(&bytes).expect(rt, "text");
        all.push_str(document).expect(rt, "memory");
    }
    all
}

/// Compares the answers to questions, each on a new disk of which this call fails. 0 lists no call.
fn expect(rt: &impl Abort, alloc: Global, rows: &[Row], failing: u64) {
    for (question, wanted, document) in rows {
        let mut disk = disk_of(rt, alloc, HELD, failing);
        let text = match question {
            Ask(verb, target) => ask(rt, alloc, &mut disk, *verb, target),
            Read(address) => read(rt, alloc, &mut disk, *address),
        };
        drop(disk);
        let wanted = with_document(rt, alloc, wanted, document);
        assert!(rt; text.as_str() == wanted.as_str(), "{wanted}: {text}");
    }
}

#[test]
fn a_relay_replies_with_what_its_mirror_holds(rt: HostRuntime) {
    expect(&rt, rt.alloc(), &ANSWERS, 0);
    expect(&rt, rt.alloc(), &FAILING, LOAD_CALLS + 1);
}

/// The relay of the mirror of a disk.
fn relay<D: Disk>(rt: &impl Abort, alloc: Global, mut disk: D) -> RelayFetch<D> {
    let base = base(rt, alloc, BASE);
    let mirror = load(rt, alloc, &mut disk, &base);
    RelayFetch::new(alloc, mirror, disk, base)
}

/// The walk of the mirror of a disk over a source.
fn walk<D: Disk, F: Fetch>(rt: &impl Abort, alloc: Global, disk: &mut D, fetch: &mut F) -> String {
    let base = base(rt, alloc, BASE);
    let mut mirror = load(rt, alloc, disk, &base);
    drop(base);
    let text = mirrors::walk(rt, alloc, &mut mirror, disk, fetch);
    drop(mirror);
    text
}

/// The area of a relay's mirror, and the walk of an empty mirror over the relay.
static WALKS: [(&[Piece], &str); 4] = [
    (HELD, "2 2 0 0 Complete 5 5"),
    (
        &[Frame(Version(Letters, 13)), CLOSED],
        "2 1 0 0 Missing Archive(3)",
    ),
    (
        &[
            Frame(Version(Letters, 5)),
            Frame(Archive(Letters, 3)),
            Frame(Version(Letters, 13)),
            Frame(Archive(Letters, 2)),
            Frame(Archive(Letters, 1)),
            CLOSED,
        ],
        "4 4 0 0 Complete 13 13",
    ),
    (
        &[Frame(Archive(Letters, 1)), CLOSED],
        "1 0 0 0 Missing Feed",
    ),
];

#[test]
fn a_mirror_of_a_relay_of_a_relay_shows_the_same(rt: HostRuntime) {
    let alloc = rt.alloc();
    for (held, wanted) in &WALKS {
        let mut source = relay(&rt, alloc, disk_of(&rt, alloc, held, 0));
        for _ in 0..3 {
            let mut disk = disk_of(&rt, alloc, &[], 0);
            let text = walk(&rt, alloc, &mut disk, &mut source);
            drop(source);
            assert!(rt; text.as_str() == *wanted, "{wanted}: {text}");
            source = relay(&rt, alloc, disk);
        }
        drop(source);
    }
}

/// What a source of a relay is asked, one address after the other.
struct Source {
    /// The device call that fails. 0 lists none.
    failing: u64,
    /// Addresses, the answers, and the documents that they end with.
    gets: &'static [(&'static str, &'static str, Option<Given>)],
    /// Whether the mirror is spent at the end.
    spent: bool,
}

static SOURCES: [Source; 2] = [
    Source {
        failing: 0,
        gets: &[
            (ONE, "", Some(Archive(Letters, 1))),
            (TWO, "", Some(Archive(Letters, 2))),
            (THREE, "", Some(Archive(Letters, 3))),
            (FEED, "", Some(Version(Letters, 5))),
            // Texts that are no address of a document.
            ("", "none", None),
            (BASE, "none", None),
            ("/feed", "none", None),
            ("http://other.example/feed", "none", None),
            ("http://feed.example/member/1", "none", None),
        ],
        spent: false,
    },
    // A spent mirror answers nothing.
    Source {
        failing: LOAD_CALLS + 1,
        gets: &[
            // Without a document no device call is made.
            (FOUR, "none", None),
            (FEED, "failed", None),
            (FEED, "failed", None),
            (FOUR, "failed", None),
            ("/feed", "failed", None),
        ],
        spent: true,
    },
];

#[test]
fn a_source_of_a_relay_answers_addresses_until_it_is_spent(rt: HostRuntime) {
    let alloc = rt.alloc();
    for row in &SOURCES {
        let mut source = relay(&rt, alloc, disk_of(&rt, alloc, HELD, row.failing));
        for (address, wanted, document) in row.gets {
            let text = get_text(&rt, alloc, &mut source, address);
            let wanted = with_document(&rt, alloc, wanted, document);
            assert!(rt; text.as_str() == wanted.as_str(), "{address}: {text}");
        }
        let (mirror, disk) = source.back();
        assert_eq!(rt; mirror.is_spent(), row.spent);
        drop(mirror);
        drop(disk);
    }
}
