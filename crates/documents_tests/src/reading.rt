//! Texts that are read, and texts that are refused at their first piece that isn't allowed.

use atom_grammar::{DocReader, MAX_DOCUMENT, ReadFault, read_doc};
use atom_values::Copies;
use atom_writer::{Doc, doc_len, write_doc};
use std::alloc::Global;
use std::process::Abort;

/// The pieces before the links and after the items.
const FRAME: &str = "<?xml version=\"1.0\" encoding=\"utf-8\"?>\n\
<feed xmlns=\"http://www.w3.org/2005/Atom\" xmlns:fh=\"http://purl.org/syndication/history/1.0\" \
xmlns:at=\"http://purl.org/atompub/tombstones/1.0\" xmlns:app=\"http://www.w3.org/2007/app\" \
xmlns:sp=\"urn:archived-feed:span:1\">\n\
<id>urn:uuid:6d1f0c5a-93be-4c27-8d10-2b7f9e4a5c36</id>\n\
<title>Feed</title>\n\
<updated>2023-11-14T22:13:20.003Z</updated>\n\
<author><name>Editor</name></author>\n\
</feed>\n";

/// A subscription document of one entry.
pub const SUBSCRIPTION: &str = "<?xml version=\"1.0\" encoding=\"utf-8\"?>\n\
<feed xmlns=\"http://www.w3.org/2005/Atom\" xmlns:fh=\"http://purl.org/syndication/history/1.0\" \
xmlns:at=\"http://purl.org/atompub/tombstones/1.0\" xmlns:app=\"http://www.w3.org/2007/app\" \
xmlns:sp=\"urn:archived-feed:span:1\">\n\
<id>urn:uuid:6d1f0c5a-93be-4c27-8d10-2b7f9e4a5c36</id>\n\
<title>Feed</title>\n\
<updated>2023-11-14T22:13:20Z</updated>\n\
<author><name>Editor</name></author>\n\
<link rel=\"self\" href=\"http://feed.example/feed\"/>\n\
<sp:span first=\"1\" last=\"1\"/>\n\
<entry><id>urn:uuid:6d1f0c5a-93be-8c27-8000-000000000001</id><title>Hello</title>\
<updated>2023-11-14T22:13:21Z</updated><app:edited>2023-11-14T22:13:20Z</app:edited>\
<link rel=\"edit\" href=\"http://feed.example/member/1\"/><content></content></entry>\n\
</feed>\n";

/// An archive of a tombstone and of an entry that has each part.
pub const ARCHIVE: &str = "<?xml version=\"1.0\" encoding=\"utf-8\"?>\n\
<feed xmlns=\"http://www.w3.org/2005/Atom\" xmlns:fh=\"http://purl.org/syndication/history/1.0\" \
xmlns:at=\"http://purl.org/atompub/tombstones/1.0\" xmlns:app=\"http://www.w3.org/2007/app\" \
xmlns:sp=\"urn:archived-feed:span:1\">\n\
<id>urn:uuid:6d1f0c5a-93be-4c27-8d10-2b7f9e4a5c36</id>\n\
<title>Feed</title>\n\
<updated>2023-11-14T22:13:20.003Z</updated>\n\
<author><name>Editor</name></author>\n\
<link rel=\"self\" href=\"http://feed.example/archive/2\"/>\n\
<link rel=\"current\" href=\"http://feed.example/feed\"/>\n\
<link rel=\"prev-archive\" href=\"http://feed.example/archive/1\"/>\n\
<link rel=\"next-archive\" href=\"http://feed.example/archive/3\"/>\n\
<fh:archive/>\n\
<sp:span first=\"5\" last=\"8\"/>\n\
<at:deleted-entry ref=\"urn:uuid:6d1f0c5a-93be-8c27-8000-000000000001\" when=\"2023-11-14T22:13:20.003Z\"/>\n\
<entry><id>urn:uuid:6d1f0c5a-93be-8c27-8000-000000000003</id>\
<title type=\"html\">&lt;b&gt;A &amp; B&lt;/b&gt;</title><updated>1970-01-01T00:00:00Z</updated>\
<published>1969-12-31T23:59:59.999Z</published><app:edited>1970-01-01T00:00:00.001Z</app:edited>\
<author><name>N&amp;</name><uri>http://n.example/</uri><email>n@n.example</email></author>\
<author><name>M</name></author>\
<contributor><name>P</name></contributor>\
<link rel=\"edit\" href=\"http://feed.example/member/3\"/>\
<link href=\"http://a/?x=1&amp;y=&quot;2&quot;\" type=\"text/html\" hreflang=\"en\" \
title=\"a&amp;b&lt;c&gt;d&quot;e&#13;\u{10FFFF}\" length=\"12\"/><link rel=\"via\" href=\"u\"/>\
<category term=\"t\" scheme=\"s&#9;\" label=\"l&#10;\"/><category term=\"only\"/>\
<rights>r</rights><summary type=\"html\">s</summary><content>\"</content></entry>\n\
</feed>\n";

/// Compares a document and its copy, as they are written, with a text.
pub fn expect_written(rt: &impl Abort, alloc: Global, doc: &Doc, text: &[u8]) {
    let copy = doc.copy(alloc).expect(rt, "memory");
    let written = write_doc(alloc, doc).expect(rt, "memory");
    let copied = write_doc(alloc, &copy).expect(rt, "memory");
    let (length, copied_length) = (doc_len(doc), doc_len(&copy));
    drop(copy);
    assert!(rt; written.as_slice() == text && length == text.len() as u64);
    assert!(rt; copied.as_slice() == text && copied_length == text.len() as u64);
}

/// How many bytes a text's parts have in which it is read too.
static PARTS: [usize; 3] = [1, 7, 65_536];

/// The offset at which the text is refused, or `None` if it is read, and written back as it was. It is the same however
/// the text is cut.
fn refusal(rt: &impl Abort, alloc: Global, text: &[u8]) -> Option<usize> {
    assert!(rt; text.len() <= MAX_DOCUMENT);
    let read = read_doc(alloc, text);
    if let Ok(doc) = &read {
        expect_written(rt, alloc, doc, text);
    }
    let whole = offset(rt, read);
    for size in PARTS {
        let mut reader = DocReader::new(alloc);
        let fed = feed(rt, &mut reader, text, size);
        let in_parts = offset(rt, reader.finish());
        // A refusal while the text comes is that of the whole text.
        assert!(rt;
            in_parts == whole && (fed.is_none() || fed == whole),
            "{size}"
        );
    }
    whole
}

/// The offset of a refusal.
fn offset<T: Drop>(rt: &impl Abort, read: Result<T, ReadFault>) -> Option<usize> {
    match read.err() {
        None => None,
        Some(ReadFault::NotADocument { at }) => Some(at),
        Some(ReadFault::NoMemory) => panic!(rt; "out of memory"),
    }
}

/// Feeds the text in parts of this size. The offset at which it is refused meanwhile: that refusal stays.
fn feed(rt: &impl Abort, reader: &mut DocReader, text: &[u8], size: usize) -> Option<usize> {
    assert!(rt; size > 0);
    let mut refused = None;
    for part in text.chunks(size) {
        assert!(rt; part.len() <= MAX_DOCUMENT - reader.len());
        let now = offset(rt, reader.feed(part));
        assert!(rt; refused.is_none() || now == refused);
        refused = now;
    }
    refused
}

/// A text to be replaced where it is found first, its replacement, and the beginning of the piece that is then refused,
/// or nothing if the text is read.
type Row = (&'static str, &'static str, &'static str);

/// Spellings that XML or the standards read alike, and values that break a rule, outside the items. The first row is the
/// text as it is.
static HEAD_ROWS: [Row; 25] = [
    ("<feed", "<feed", ""),
    ("version=\"1.0\"", "version='1.0'", "<?xml"),
    (
        "urn:uuid:6d1f0c5a-93be-4c27",
        "urn:uuid:6D1F0C5A-93BE-4C27",
        "<id>urn:uuid:6D",
    ),
    ("<title>Feed", "<title>&apos;", "<title>&apos;"),
    ("<title>Feed", "<title>&#x26;", "<title>&#x26;"),
    ("<title>Feed", "<title>a&amp;b'\"", ""),
    (
        "<title>Feed",
        "<title>\n&lt;/title&gt;\n\n\u{E9}\u{1F600}",
        "",
    ),
    ("Editor", "\n&lt;/author&gt;\nE\n", ""),
    ("Editor", "</name>\n", "<author>"),
    (
        "Editor</name></author>\n",
        "Editor</name></author>\n\n",
        "\n<link",
    ),
    ("13:20Z</updated>", "13:20.000Z</updated>", "<updated>"),
    ("13:20Z</updated>", "13:20+00:00</updated>", "<updated>"),
    (
        "<link rel=\"self\" href=\"http://feed.example/feed\"/>",
        "<link rel='self' href='http://feed.example/feed'/>",
        "<link",
    ),
    ("feed.example/feed\"", "feed.example/feed/\"", "<link"),
    (
        "http://feed.example/feed\"",
        "https://feed.example/feed\"",
        "<link",
    ),
    ("feed.example/feed\"", "feed.example/archive/0\"", "<link"),
    (
        "feed.example/feed\"",
        "feed.example/archive/4294967295\"",
        "<link",
    ),
    ("feed.example/feed\"", "feed.example/member/1\"", "<link"),
    (
        "first=\"1\" last=\"1\"",
        "first=\"2\" last=\"2\"",
        "<sp:span",
    ),
    (
        "first=\"1\" last=\"1\"",
        "first=\"0\" last=\"0\"",
        "<sp:span",
    ),
    (
        "first=\"1\" last=\"1\"",
        "first=\"1\" last=\"101\"",
        "<sp:span",
    ),
    ("first=\"1\"", "first=\"01\"", "<sp:span"),
    ("first=\"1\"", "first=\"+1\"", "<sp:span"),
    ("last=\"1\"", "last=\"4294967296\"", "<sp:span"),
    (
        "<sp:span first",
        "<link rel=\"prev-archive\" href=\"http://other.example/archive/1\"/>\n<sp:span first",
        "<link rel=\"prev",
    ),
];

/// The same in the piece of an entry.
static ENTRY_ROWS: [Row; 22] = [
    ("<entry>", "<entry >", "<entry"),
    ("000000000001</id>", "000000000002</id>", "<entry"),
    ("6d1f0c5a-93be-8c27", "6d1f0c5b-93be-8c27", "<entry"),
    ("6d1f0c5a-93be-8c27", "6D1F0C5A-93BE-8C27", "<entry"),
    ("<title>Hello", "<title>&amp;'", ""),
    ("<title>Hello", "<title>&apos;", "<entry"),
    ("<title>Hello", "<title type=\"text\">Hello", "<entry"),
    ("13:21Z</updated>", "13:21.000Z</updated>", "<entry"),
    ("13:21Z</updated>", "13:21+00:00</updated>", "<entry"),
    ("13:21Z</updated>", "13:60Z</updated>", "<entry"),
    (
        "<link rel=\"edit\" href=\"http://feed.example/member/1\"/>",
        "<link rel='edit' href='http://feed.example/member/1'/>",
        "<entry",
    ),
    ("/member/1", "/member/2", "<entry"),
    ("/member/1", "/archive/1", "<entry"),
    ("<content>", "<link href=\"u\"/><content>", ""),
    (
        "<content>",
        "<link rel=\"alternate\" href=\"u\"/><content>",
        "<entry",
    ),
    (
        "<content>",
        "<link rel=\"edit\" href=\"u\"/><content>",
        "<entry",
    ),
    ("<content></content>", "", "<entry"),
    (
        "<content>",
        "<content>\n&lt;/entry&gt;\n/entry&gt;\n\u{E9}\u{1F600}\n",
        "",
    ),
    ("<content>", "<content></entry>\n", "<entry"),
    ("<content></content>", "<link href=\"u\"/>", ""),
    ("</entry>\n", "</entry>", "<entry"),
    (
        "</entry>\n",
        "</entry>\n<at:deleted-entry ref=\"urn:uuid:6d1f0c5a-93be-8c27-8000-000000000002\" when=\"1970-01-01T00:00:00Z\"/>\n",
        "<at:deleted-entry",
    ),
];

/// Links, spans and items of an archive. The first row is the text as it is.
static ARCHIVE_ROWS: [Row; 13] = [
    ("<feed", "<feed", ""),
    (
        "<link rel=\"current\" href=\"http://feed.example",
        "<link rel=\"current\" href=\"http://other.example",
        "<link rel=\"current",
    ),
    (
        "<link rel=\"current\" href=\"http://feed.example/feed\"/>\n",
        "",
        "<link rel=\"prev",
    ),
    (
        "<link rel=\"prev-archive\" href=\"http://feed.example/archive/1\"/>\n",
        "",
        "<link rel=\"next",
    ),
    ("/archive/1\"", "/archive/0\"", "<link rel=\"prev"),
    ("/archive/3\"", "/archive/2\"", "<link rel=\"next"),
    ("<fh:archive/>\n", "", "<sp:span"),
    (
        "first=\"5\" last=\"8\"",
        "first=\"1\" last=\"4\"",
        "<sp:span",
    ),
    (
        "first=\"5\" last=\"8\"",
        "first=\"5\" last=\"4\"",
        "<sp:span",
    ),
    ("first=\"5\" last=\"8\"", "first=\"5\" last=\"5\"", "<entry"),
    ("000000000001\" when", "000000000003\" when", "<entry"),
    ("13:20.003Z\"/>", "13:20.030Z\"/>", ""),
    ("13:20.003Z\"/>", "13:20.03Z\"/>", "<at:deleted-entry"),
];

/// Links and spans that fit the document or don't.
static FRAME_ROWS: [Row; 12] = [
    (
        "</feed>",
        "<link rel=\"self\" href=\"http://feed.example/feed\"/>\n<sp:span first=\"1\" last=\"0\"/>\n</feed>",
        "",
    ),
    (
        "</feed>",
        "<link rel=\"self\" href=\"http://feed.example/feed\"/>\n<link rel=\"prev-archive\" href=\"http://feed.example/archive/1\"/>\n<sp:span first=\"5\" last=\"8\"/>\n</feed>",
        "",
    ),
    (
        "</feed>",
        "<link rel=\"self\" href=\"http://feed.example/feed\"/>\n<link rel=\"prev-archive\" href=\"http://feed.example/archive/4294967295\"/>\n<sp:span first=\"5\" last=\"8\"/>\n</feed>",
        "",
    ),
    (
        "</feed>",
        "<link rel=\"self\" href=\"http://feed.example/feed\"/>\n<link rel=\"prev-archive\" href=\"http://feed.example/archive/1\"/>\n<sp:span first=\"1\" last=\"4\"/>\n</feed>",
        "<sp:span",
    ),
    (
        "</feed>",
        "<link rel=\"self\" href=\"http://feed.example/feed\"/>\n<link rel=\"prev-archive\" href=\"http://feed.example/archive/1\"/>\n<sp:span first=\"5\" last=\"4\"/>\n</feed>",
        "<sp:span",
    ),
    (
        "</feed>",
        "<link rel=\"self\" href=\"http://feed.example/feed\"/>\n<link rel=\"prev-archive\" href=\"http://feed.example/archive/0\"/>\n<sp:span first=\"1\" last=\"4\"/>\n</feed>",
        "<link rel=\"prev",
    ),
    (
        "</feed>",
        "<link rel=\"self\" href=\"http://feed.example/feed\"/>\n<link rel=\"current\" href=\"http://feed.example/feed\"/>\n<sp:span first=\"1\" last=\"4\"/>\n</feed>",
        "<link rel=\"current",
    ),
    (
        "</feed>",
        "<link rel=\"self\" href=\"http://feed.example/archive/1\"/>\n<link rel=\"current\" href=\"http://feed.example/feed\"/>\n<link rel=\"next-archive\" href=\"http://feed.example/archive/2\"/>\n<fh:archive/>\n<sp:span first=\"1\" last=\"4\"/>\n</feed>",
        "",
    ),
    (
        "</feed>",
        "<link rel=\"self\" href=\"http://feed.example/archive/1\"/>\n<link rel=\"current\" href=\"http://feed.example/feed\"/>\n<link rel=\"next-archive\" href=\"http://feed.example/archive/2\"/>\n<fh:archive/>\n<sp:span first=\"5\" last=\"8\"/>\n</feed>",
        "<sp:span",
    ),
    (
        "</feed>",
        "<link rel=\"self\" href=\"http://feed.example/archive/1\"/>\n<link rel=\"current\" href=\"http://feed.example/feed\"/>\n<link rel=\"prev-archive\" href=\"http://feed.example/archive/0\"/>\n<fh:archive/>\n<sp:span first=\"1\" last=\"4\"/>\n</feed>",
        "<link rel=\"prev",
    ),
    (
        "</feed>",
        "<link rel=\"self\" href=\"http://feed.example/archive/4294967294\"/>\n<link rel=\"current\" href=\"http://feed.example/feed\"/>\n<link rel=\"prev-archive\" href=\"http://feed.example/archive/4294967293\"/>\n<link rel=\"next-archive\" href=\"http://feed.example/archive/4294967295\"/>\n<fh:archive/>\n<sp:span first=\"5\" last=\"8\"/>\n</feed>",
        "",
    ),
    (
        "</feed>",
        "<link rel=\"self\" href=\"http://feed.example/archive/4294967294\"/>\n<link rel=\"current\" href=\"http://feed.example/feed\"/>\n<link rel=\"prev-archive\" href=\"http://feed.example/archive/1\"/>\n<link rel=\"next-archive\" href=\"http://feed.example/archive/4294967295\"/>\n<fh:archive/>\n<sp:span first=\"5\" last=\"8\"/>\n</feed>",
        "<link rel=\"prev",
    ),
];

/// An item of a list, the part of `SUBSCRIPTION` before which it may be repeated, and how often.
static REPEATED: [(&str, &str, usize); 4] = [
    ("<author><name></name></author>", "<link rel=\"edit\"", 16),
    (
        "<contributor><name></name></contributor>",
        "<link rel=\"edit\"",
        16,
    ),
    ("<link href=\"u\"/>", "<content>", 32),
    ("<category term=\"t\"/>", "<content>", 64),
];

/// The text with `old` replaced by this many times `part`, and then `kept`.
fn edited(
    rt: &impl Abort,
    alloc: Global,
    text: &str,
    old: &str,
    (part, times, kept): (&str, usize, &str),
) -> String {
    assert!(rt; text.find(old).is_some(), "{old}");
    let mut new = String::new(alloc);
    for _ in 0..times {
        new.push_str(part).expect(rt, "memory");
    }
    new.push_str(kept).expect(rt, "memory");
    text.replacen(alloc, old, new.as_str(), 1)
        .expect(rt, "memory")
}

/// Expects that a text is refused at the piece that begins so, or that it is read.
fn expect_refusal(rt: &impl Abort, alloc: Global, text: &str, piece: &str) {
    let expected = if piece.is_empty() {
        None
    } else {
        Some(text.find(piece).expect(rt, "the piece"))
    };
    assert!(rt; refusal(rt, alloc, text.as_bytes()) == expected, "{text}");
}

/// Compares the refusal of a text with each replacement.
fn expect_rows(rt: &impl Abort, alloc: Global, text: &str, rows: &[Row]) {
    for (old, new, refused) in rows {
        let changed = edited(rt, alloc, text, old, (*new, 1, ""));
        expect_refusal(rt, alloc, changed.as_str(), refused);
    }
}

#[test]
fn refuses_a_changed_piece(rt: HostRuntime) {
    expect_rows(&rt, rt.alloc(), SUBSCRIPTION, &HEAD_ROWS);
    expect_rows(&rt, rt.alloc(), SUBSCRIPTION, &ENTRY_ROWS);
    expect_rows(&rt, rt.alloc(), ARCHIVE, &ARCHIVE_ROWS);
    expect_rows(&rt, rt.alloc(), FRAME, &FRAME_ROWS);
}

#[test]
fn lists_end_at_their_limits(rt: HostRuntime) {
    let alloc = rt.alloc();
    for (part, before, limit) in &REPEATED {
        for (more, refused) in [(0, ""), (1, "<entry>")] {
            let times = limit.saturating_add(more);
            let text = edited(&rt, alloc, SUBSCRIPTION, before, (*part, times, *before));
            expect_refusal(&rt, alloc, text.as_str(), refused);
        }
    }
}

/// A prefix is refused at the piece that it cuts, and a byte after the document at that byte.
#[test]
fn refuses_a_text_of_another_length(rt: HostRuntime) {
    let alloc = rt.alloc();
    // In the document of a new member, both timestamps of the entry are the same.
    let made = edited(&rt, alloc, SUBSCRIPTION, "13:21Z", ("13:20Z", 1, ""));
    for text in [made.as_str(), ARCHIVE] {
        let bytes = text.as_bytes();
        let mut piece = 0;
        for end in 0..bytes.len() {
            assert!(rt; refusal(&rt, alloc, &bytes[..end]) == Some(piece));
            if bytes[end] == b'\n' {
                piece = end + 1;
            }
        }
    }
    let longer = edited(
        &rt,
        alloc,
        SUBSCRIPTION,
        "</feed>\n",
        ("</feed>\n\n", 1, ""),
    );
    assert!(rt; refusal(&rt, alloc, longer.as_bytes()) == Some(SUBSCRIPTION.len()));
}

#[test]
fn reads_a_hundred_items(rt: HostRuntime) {
    let alloc = rt.alloc();
    let mut lines = String::new(alloc);
    lines
        .push_str(
            "<link rel=\"self\" href=\"http://feed.example/feed\"/>\n<sp:span first=\"1\" last=\"100\"/>\n",
        )
        .expect(&rt, "memory");
    for number in 1..=101u32 {
        let item = format!(in alloc;
            "<at:deleted-entry ref=\"urn:uuid:6d1f0c5a-93be-8c27-8000-{number:012x}\" when=\"1970-01-01T00:00:00Z\"/>\n"
        ).expect(&rt, "memory");
        lines.push_str(item.as_str()).expect(&rt, "memory");
        let whole = edited(&rt, alloc, FRAME, "</feed>", (lines.as_str(), 1, "</feed>"));
        let refused = if number == 101 { item.as_str() } else { "" };
        expect_refusal(&rt, alloc, whole.as_str(), refused);
    }
}
