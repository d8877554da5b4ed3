//! Documents and member documents that are written, and the rules of documents.

use crate::reading::{ARCHIVE, SUBSCRIPTION, expect_written};
use crate::samples::{feed_name, moment, text};
use atom_grammar::{MAX_DOCUMENT, read_doc};
use atom_values::{Copies, Draft, Entry, Many};
use atom_writer::{Doc, FeedName, Kind, MAX_ARCHIVE, entry_len, is_placed, write_member};
use chain_links::{Address, Place, Span};
use deleted_entries::{Item, Tombstone};
use member_rules::{Op, op_bytes};
use std::alloc::Global;
use std::process::Abort;

const MADE_BY_HAND: &str = "<?xml version=\"1.0\" encoding=\"utf-8\"?>\n\
<feed xmlns=\"http://www.w3.org/2005/Atom\" xmlns:fh=\"http://purl.org/syndication/history/1.0\" \
xmlns:at=\"http://purl.org/atompub/tombstones/1.0\" xmlns:app=\"http://www.w3.org/2007/app\" \
xmlns:sp=\"urn:archived-feed:span:1\">\n\
<id>urn:uuid:6d1f0c5a-93be-4c27-8d10-2b7f9e4a5c36</id>\n\
<title>F&amp;</title>\n\
<updated>2023-11-14T22:13:20.002Z</updated>\n\
<author><name>Editor</name></author>\n\
<link rel=\"self\" href=\"http://feed.example/feed\"/>\n\
<link rel=\"prev-archive\" href=\"http://feed.example/archive/2\"/>\n\
<sp:span first=\"9\" last=\"10\"/>\n\
<entry><id>urn:uuid:6d1f0c5a-93be-8c27-8000-000000000006</id>\
<title>a&amp;b&lt;c&gt;d\"e&#13;\u{10FFFF}</title><updated>2023-11-14T22:13:20.002Z</updated>\
<app:edited>2023-11-14T22:13:20.002Z</app:edited><link rel=\"edit\" href=\"http://feed.example/member/6\"/>\
<content></content></entry>\n\
<at:deleted-entry ref=\"urn:uuid:6d1f0c5a-93be-8c27-8000-000000000001\" when=\"2023-11-14T22:13:20.002Z\"/>\n\
</feed>\n";

/// The second subscription document of a chain: member 6 was changed, and member 1 was removed.
#[test]
fn writes_a_document_that_was_made(rt: HostRuntime) {
    let alloc = rt.alloc();
    let when = moment(&rt, 1_700_000_000_002);
    let title = text(&rt, alloc, "a&b<c>d\"e\r\u{10FFFF}".as_bytes());
    let entry = Draft::titled(alloc, title).normal(6, when, None);
    let mut items = Many::new(alloc);
    items.push(Item::Kept(entry)).expect(&rt, "memory");
    let tombstone = Tombstone { number: 1, when };
    items.push(Item::Gone(tombstone)).expect(&rt, "memory");
    let mut name = feed_name(&rt, alloc);
    name.title = text(&rt, alloc, b"F&");
    let span = Span { first: 9, last: 10 };
    let made = Doc::new(name, Kind::Subscription, span, 2, when, items);
    let doc = made.expect(&rt, "a document");
    let expected = Place {
        address: Address::Feed,
        span,
        prev: 2,
    };
    assert!(rt; doc.place() == expected);
    expect_written(&rt, alloc, &doc, MADE_BY_HAND.as_bytes());
    drop(doc);
}

/// A document that is read. The tombstone of a member is before its one entry, if it has two items.
struct Read {
    text: &'static str,
    place: Place,
    items: usize,
    /// The member document of its entry.
    member: &'static str,
    /// The bytes of the operation that adds its entry, field by field.
    added: &'static [u8],
}

static READ: [Read; 2] = [
    Read {
        text: SUBSCRIPTION,
        place: Place {
            address: Address::Feed,
            span: Span { first: 1, last: 1 },
            prev: 0,
        },
        items: 1,
        member: "<?xml version=\"1.0\" encoding=\"utf-8\"?>\n\
<entry xmlns=\"http://www.w3.org/2005/Atom\" xmlns:app=\"http://www.w3.org/2007/app\">\
<id>urn:uuid:6d1f0c5a-93be-8c27-8000-000000000001</id><title>Hello</title>\
<updated>2023-11-14T22:13:21Z</updated><app:edited>2023-11-14T22:13:20Z</app:edited>\
<author><name>Editor</name></author><link rel=\"edit\" href=\"http://feed.example/member/1\"/>\
<content></content></entry>\n",
        added: b"\x01\
\x00\x00\x00\x01\
\x00\x00\x3a\x16\x3e\xe9\xc8\x00\
\x00\x00\x3a\x16\x3e\xe9\xcb\xe8\
\x00\x00\x00\x00\x05Hello\
\x00\
\x00\
\x00\
\x00\
\x00\
\x00\
\x00\
\x01\x00\x00\x00\x00\x00",
    },
    Read {
        text: ARCHIVE,
        place: Place {
            address: Address::Archive(2),
            span: Span { first: 5, last: 8 },
            prev: 1,
        },
        items: 2,
        member: "<?xml version=\"1.0\" encoding=\"utf-8\"?>\n\
<entry xmlns=\"http://www.w3.org/2005/Atom\" xmlns:app=\"http://www.w3.org/2007/app\">\
<id>urn:uuid:6d1f0c5a-93be-8c27-8000-000000000003</id>\
<title type=\"html\">&lt;b&gt;A &amp; B&lt;/b&gt;</title><updated>1970-01-01T00:00:00Z</updated>\
<published>1969-12-31T23:59:59.999Z</published><app:edited>1970-01-01T00:00:00.001Z</app:edited>\
<author><name>N&amp;</name><uri>http://n.example/</uri><email>n@n.example</email></author>\
<author><name>M</name></author>\
<contributor><name>P</name></contributor>\
<link rel=\"edit\" href=\"http://feed.example/member/3\"/>\
<link href=\"http://a/?x=1&amp;y=&quot;2&quot;\" type=\"text/html\" hreflang=\"en\" \
title=\"a&amp;b&lt;c&gt;d&quot;e&#13;\u{10FFFF}\" length=\"12\"/><link rel=\"via\" href=\"u\"/>\
<category term=\"t\" scheme=\"s&#9;\" label=\"l&#10;\"/><category term=\"only\"/>\
<rights>r</rights><summary type=\"html\">s</summary><content>\"</content></entry>\n",
        added: b"\x01\
\x00\x00\x00\x03\
\x00\x00\x38\x8a\x6f\x04\x60\x01\
\x00\x00\x38\x8a\x6f\x04\x60\x00\
\x01\x00\x00\x00\x0c<b>A & B</b>\
\x01\x00\x00\x38\x8a\x6f\x04\x5f\xff\
\x02\x00\x00\x00\x02N&\x01\x00\x00\x00\x11http://n.example/\x01\x00\x00\x00\x0bn@n.example\
\x00\x00\x00\x01M\x00\x00\
\x01\x00\x00\x00\x01P\x00\x00\
\x02\x00\x00\x00\x13http://a/?x=1&y=\"2\"\x00\x00\x00\x09alternate\x01\x00\x00\x00\x09text/html\
\x01\x00\x00\x00\x02en\x01\x00\x00\x00\x0ea&b<c>d\"e\r\xf4\x8f\xbf\xbf\x01\x00\x00\x00\x0212\
\x00\x00\x00\x01u\x00\x00\x00\x03via\x00\x00\x00\x00\
\x02\x00\x00\x00\x01t\x01\x00\x00\x00\x02s\t\x01\x00\x00\x00\x02l\n\x00\x00\x00\x04only\x00\x00\
\x01\x00\x00\x00\x00\x01r\
\x01\x01\x00\x00\x00\x01s\
\x01\x00\x00\x00\x00\x01\"",
    },
];

/// Compares the member document of an entry, the length of its piece, and the bytes of the operation that adds it.
fn expect_entry(rt: &impl Abort, alloc: Global, name: &FeedName, entry: &Entry, read: &Read) {
    let written = write_member(alloc, name, entry).expect(rt, "memory");
    assert!(rt; written.as_slice() == read.member.as_bytes());
    let begin = read.text.find("<entry>").expect(rt, "an entry");
    let end = read.text.find("</feed>").expect(rt, "an end");
    assert!(rt; entry_len(name, entry) == end.saturating_sub(begin) as u64);
    let operation = Op::Add(entry.copy(alloc).expect(rt, "memory"));
    let added = op_bytes(alloc, &operation).expect(rt, "memory");
    drop(operation);
    assert!(rt; added.as_slice() == read.added);
}

/// Compares the document of a text.
fn expect_read(rt: &impl Abort, alloc: Global, read: &Read) {
    assert!(rt; read.text.len() <= MAX_DOCUMENT);
    let doc = read_doc(alloc, read.text.as_bytes()).expect(rt, "a document");
    assert!(rt; doc.place() == read.place && doc.items.as_slice().len() == read.items);
    for item in doc.items.as_slice() {
        match item {
            Item::Kept(entry) => expect_entry(rt, alloc, &doc.name, entry, read),
            Item::Gone(gone) => {
                assert!(rt; gone.number == 1 && gone.when.millis() == 1_700_000_000_003);
                assert!(rt; read.items == 2);
            }
        }
    }
    drop(doc);
}

#[test]
fn reads_each_part_of_a_document(rt: HostRuntime) {
    for read in &READ {
        expect_read(&rt, rt.alloc(), read);
    }
}

/// Kind, first, last, `prev`, the numbers of the items, and whether `Doc::new` takes the parts.
type Rule = (Kind, u32, u32, u32, &'static [u8], bool);

static RULES: [Rule; 32] = [
    (Kind::Subscription, 1, 0, 0, &[], true),
    (Kind::Subscription, 1, 0, 0, &[1], false),
    (Kind::Subscription, 0, 0, 1, &[], false),
    (Kind::Subscription, 2, 1, 1, &[], false),
    (Kind::Subscription, 1, 100, 0, &[], true),
    (Kind::Subscription, 1, 101, 0, &[], false),
    (Kind::Subscription, 5, 105, 1, &[], false),
    (Kind::Subscription, 2, 2, 1, &[], true),
    (Kind::Subscription, 2, 2, 0, &[], false),
    (Kind::Subscription, 1, 1, 1, &[], false),
    (Kind::Subscription, 1, 1, 0, &[1], true),
    (Kind::Subscription, 1, 1, 0, &[1, 2], false),
    (Kind::Subscription, 1, 2, 0, &[2, 1], true),
    (Kind::Subscription, 1, 2, 0, &[1, 1], false),
    (Kind::Subscription, 1, 3, 0, &[7, 3, 7], false),
    (Kind::Subscription, u32::MAX, u32::MAX, 1, &[9], true),
    (Kind::Archive(1), 1, 4, 0, &[2, 1], true),
    (Kind::Archive(1), 1, 4, 0, &[2, 2], false),
    (Kind::Archive(1), 1, 1, 0, &[2, 1], false),
    (Kind::Archive(1), 1, 0, 0, &[], false),
    (Kind::Archive(1), 2, 4, 0, &[], false),
    (Kind::Archive(0), 1, 4, 0, &[], false),
    (Kind::Archive(0), 1, 4, u32::MAX, &[], false),
    (Kind::Archive(2), 1, 4, 1, &[], false),
    (Kind::Archive(2), 5, 8, 1, &[], true),
    (Kind::Archive(2), 5, 8, 0, &[], false),
    (Kind::Archive(2), 5, 8, 2, &[], false),
    (Kind::Archive(2), 5, 4, 1, &[], false),
    (Kind::Archive(2), 5, 104, 1, &[], true),
    (Kind::Archive(2), 5, 105, 1, &[], false),
    (Kind::Archive(MAX_ARCHIVE), 7, 7, MAX_ARCHIVE - 1, &[], true),
    (Kind::Archive(u32::MAX), 7, 7, MAX_ARCHIVE, &[], false),
];

/// Compares whether `Doc::new` takes the parts.
fn expect_rule(rt: &impl Abort, alloc: Global, (kind, first, last, prev, numbers, kept): &Rule) {
    let mut items = Many::new(alloc);
    let when = moment(rt, 0);
    for number in *numbers {
        let number = u32::from(*number);
        assert!(rt; number >= 1);
        let tombstone = Tombstone { number, when };
        items.push(Item::Gone(tombstone)).expect(rt, "memory");
    }
    let (first, last) = (*first, *last);
    let span = Span { first, last };
    let doc = Doc::new(feed_name(rt, alloc), *kind, span, *prev, when, items);
    assert!(rt; doc.is_some() == *kept, "{first}-{last} after {prev}");
    drop(doc);
}

#[test]
fn documents_keep_their_rules(rt: HostRuntime) {
    for rule in &RULES {
        expect_rule(&rt, rt.alloc(), rule);
    }
    let span = Span { first: 5, last: 8 };
    assert!(rt; is_placed(Kind::Archive(2), span, 1) && !is_placed(Kind::Archive(1), span, 0));
}
