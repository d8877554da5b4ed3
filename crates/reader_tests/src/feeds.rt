//! Feed documents, and what a mirror keeps of them.

use atom_values::Stamp;
use feed_reader::{ForeignDoc, MAX_FEED, read_feed};
use std::alloc::Global;
use std::process::Abort;

/// The address of each document.
static ADDRESS: &[u8] = b"http://a.example/b/f.xml";

/// Each row has a document, and what is kept of it as [`shown`] shows it.
static FEEDS: [(&str, &str); 18] = [
    (
        "<feed xmlns=\"http://www.w3.org/2005/Atom\"><id>f</id><updated>2020-01-01T00:00:00Z</updated>\
<link rel=\"prev-archive\" href=\"old.xml\"/><entry><id>x</id><title>New</title>\
<updated>2019-01-02T00:00:00Z</updated></entry></feed>",
        "id f\nupdated 2020-01-01T00:00:00Z\nprev http://a.example/b/old.xml\n\
entry x 2019-01-02T00:00:00Z New\n",
    ),
    (
        "<feed xmlns=\"http://www.w3.org/2005/Atom\"><id>f</id><updated>2019-06-01T00:00:00Z</updated>\
<entry><id>x</id><title>Old</title><updated>2019-01-01T00:00:00Z</updated><content type=\"xhtml\">\
<div xmlns=\"http://www.w3.org/1999/xhtml\">o</div></content></entry></feed>",
        "id f\nupdated 2019-06-01T00:00:00Z\nentry x 2019-01-01T00:00:00Z Old\n",
    ),
    // A prefix, a declaration, a comment and an instruction; an offset, and a fraction past the millisecond.
    (
        "\u{FEFF}<?xml version='1.0'?><!-- a --><a:feed xmlns:a='http://www.w3.org/2005/Atom'><?p q?>\
<a:updated>2020-01-01T02:00:00.12345+02:00</a:updated><a:id>f</a:id></a:feed>",
        "id f\nupdated 2020-01-01T00:00:00.123Z\n",
    ),
    // White space is cut at both ends of an identifier and a date, and not of a title.
    (
        "<feed xmlns=\"http://www.w3.org/2005/Atom\"><id>\r\n a b&#9;</id><updated> 2020-01-01T00:00:00Z\n\
</updated><entry><id>&#32;x<!-- c --> </id><title> t </title><updated>\t2019-01-02T00:00:00Z</updated>\
</entry></feed>",
        "id a b\nupdated 2020-01-01T00:00:00Z\nentry x 2019-01-02T00:00:00Z  t \n",
    ),
    // All characters of an element count, those of inner elements too.
    (
        "<feed xmlns=\"http://www.w3.org/2005/Atom\"><id>a<x>b<y>c</y></x>d</id><updated>2020-01-01<z>T</z>\
00:00:00Z</updated><entry><id>x</id><updated>2019-01-02T00:00:00Z</updated><title type=\"xhtml\">\
<div xmlns=\"http://www.w3.org/1999/xhtml\">T<b>i<i>t</i></b>l<![CDATA[<e>]]></div>&amp;</title></entry>\
</feed>",
        "id abcd\nupdated 2020-01-01T00:00:00Z\nentry x 2019-01-02T00:00:00Z Titl<e>&\n",
    ),
    // An entry without a title has the empty title, and so has one whose title is empty.
    (
        "<feed xmlns=\"http://www.w3.org/2005/Atom\"><entry><updated>2019-01-02T00:00:00Z</updated><id/>\
</entry><entry><id>y</id><title/><updated>2019-01-02T00:00:00Z</updated></entry><id></id>\
<updated>2020-01-01T00:00:00Z</updated></feed>",
        "id \nupdated 2020-01-01T00:00:00Z\nentry  2019-01-02T00:00:00Z \nentry y 2019-01-02T00:00:00Z \n",
    ),
    // All else is skipped, whatever it holds.
    (
        "<feed xmlns=\"http://www.w3.org/2005/Atom\" xmlns:x=\"urn:x\"><id>f</id><title>t</title><title/>\
<x:id>no</x:id><updated>2020-01-01T00:00:00Z</updated><author><id>a</id><id>b</id></author>\
<x:y><entry/><updated>no</updated></x:y><entry xmlns=\"urn:x\"/><feed><id/><id/></feed>\
<deleted-entry/><x:deleted-entry/><entry><id>x</id><x:id/><source><id>s</id><id>s</id></source>\
<link rel=\"prev-archive\"/><entry/><updated>2019-01-02T00:00:00Z</updated><published>no</published>\
<category/><content type=\"image/png\" src=\"p\"/></entry></feed>",
        "id f\nupdated 2020-01-01T00:00:00Z\nentry x 2019-01-02T00:00:00Z \n",
    ),
    // The first link to the archive before counts.
    (
        "<feed xmlns=\"http://www.w3.org/2005/Atom\"><id>f</id><updated>2020-01-01T00:00:00Z</updated>\
<link href=\"self.xml\"/><link rel=\"next-archive\"/><link rel=\"prev-archive \"/>\
<link href=\"../1.xml\" rel=\"http://www.iana.org/assignments/relation/prev-archive\"/>\
<link rel=\"prev-archive\" href=\"2.xml\"/><link rel=\"prev-archive\"/></feed>",
        "id f\nupdated 2020-01-01T00:00:00Z\nprev http://a.example/1.xml\n",
    ),
    (
        "<feed xmlns=\"http://www.w3.org/2005/Atom\"><id>f</id><updated>2020-01-01T00:00:00Z</updated>\
<link rel=\"prev-archive\" href=\"HTTPS://B.example:443/%7e?q=1&amp;r=2#s\"/></feed>",
        "id f\nupdated 2020-01-01T00:00:00Z\nprev https://b.example/%7e?q=1&r=2#s\n",
    ),
    (
        "<feed xmlns=\"http://www.w3.org/2005/Atom\"><id>f</id><updated>2020-01-01T00:00:00Z</updated>\
<link rel='prev-archive' href=''/></feed>",
        "id f\nupdated 2020-01-01T00:00:00Z\nprev http://a.example/b/f.xml\n",
    ),
    (
        "<feed xmlns=\"http://www.w3.org/2005/Atom\"><id>f</id><updated>2020-01-01T00:00:00Z</updated>\
<link rel='prev&#45;archive' href='\u{E9}\n&#x20AC;'/></feed>",
        "id f\nupdated 2020-01-01T00:00:00Z\nprev http://a.example/b/%C3%A9%20%E2%82%AC\n",
    ),
    (
        "<feed xmlns=\"http://www.w3.org/2005/Atom\"><id>f</id><updated>2020-01-01T00:00:00Z</updated>\
<link rel='prev-archive' href='mailto:a@b.example'/></feed>",
        "id f\nupdated 2020-01-01T00:00:00Z\nprev mailto:a@b.example\n",
    ),
    (
        "<feed xmlns=\"http://www.w3.org/2005/Atom\" xmlns:x=\"urn:x\"><id>f</id>\
<updated>2020-01-01T00:00:00Z</updated><link x:rel='prev-archive'/><x:link rel='prev-archive'/></feed>",
        "id f\nupdated 2020-01-01T00:00:00Z\n",
    ),
    // Tombstones.
    (
        "<feed xmlns=\"http://www.w3.org/2005/Atom\" xmlns:at=\"http://purl.org/atompub/tombstones/1.0\">\
<id>f</id><at:deleted-entry ref=\"y\" when=\"2019-05-01T00:00:00.5Z\"><at:comment>c</at:comment>\
<entry/></at:deleted-entry><entry><id>x</id><updated>2019-01-02T00:00:00Z</updated></entry>\
<updated>2020-01-01T00:00:00Z</updated><at:deleted-entry when=\" 2019-05-02T00:00:00Z\t\" ref=\" z \"/>\
<at:deleted-entry ref=\"y\" when=\"2019-05-03T00:00:00Z\"/></feed>",
        "id f\nupdated 2020-01-01T00:00:00Z\nentry x 2019-01-02T00:00:00Z \n\
gone y 2019-05-01T00:00:00.500Z\ngone z 2019-05-02T00:00:00Z\ngone y 2019-05-03T00:00:00Z\n",
    ),
    (
        "<feed xmlns=\"http://www.w3.org/2005/Atom\"><id>f</id><updated>2020-01-01T00:00:00Z</updated>\
<deleted-entry xmlns=\"http://purl.org/atompub/tombstones/1.0\" ref=\"\" when=\"2019-05-01T00:00:00Z\"/>\
<deleted xmlns=\"http://purl.org/atompub/tombstones/1.0\"/><id xmlns=\"http://purl.org/atompub/tombstones/1.0\"/>\
</feed>",
        "id f\nupdated 2020-01-01T00:00:00Z\ngone  2019-05-01T00:00:00Z\n",
    ),
    // Two entries may have one identifier.
    (
        "<feed xmlns=\"http://www.w3.org/2005/Atom\"><id>f</id><updated>2020-01-01T00:00:00Z</updated>\
<entry><id>x</id><updated>2019-01-02T00:00:00Z</updated></entry>\
<entry><id>x</id><updated>2019-01-01T00:00:00Z</updated><title type='html'>&lt;b></title></entry></feed>",
        "id f\nupdated 2020-01-01T00:00:00Z\nentry x 2019-01-02T00:00:00Z \nentry x 2019-01-01T00:00:00Z <b>\n",
    ),
    // Earliest and latest timestamps.
    (
        "<feed xmlns=\"http://www.w3.org/2005/Atom\"><id>f</id><updated>0000-01-01T00:00:00Z</updated>\
<entry><id>x</id><updated>9999-12-31T23:59:60.9999Z</updated></entry></feed>",
        "id f\nupdated 0000-01-01T00:00:00Z\nentry x 9999-12-31T23:59:59.999Z \n",
    ),
    // An empty element with its namespace, and an end tag with white space.
    (
        "<feed xmlns='http://www.w3.org/2005/Atom' ><id >\u{1F600}</id\n><updated>2020-01-01T00:00:00Z</updated>\
<entry xmlns=''/></feed >\n<!-- end -->",
        "id \u{1F600}\nupdated 2020-01-01T00:00:00Z\n",
    ),
];

/// Appends the pieces.
fn push(rt: &impl Abort, out: &mut Vec<u8>, pieces: &[&[u8]]) {
    for piece in pieces {
        out.extend_from_slice(piece).expect(rt, "memory");
    }
}

/// Appends a text, a timestamp and another text.
fn push_item(rt: &impl Abort, out: &mut Vec<u8>, before: [&[u8]; 2], stamp: Stamp, behind: &[u8]) {
    let mut room = [0; 24];
    let length = stamp.print(&mut room);
    push(
        rt,
        out,
        &[before[0], before[1], b" ", &room[..length], behind, b"\n"],
    );
}

/// What is kept of a document as text, with a line for each field that is there and for each item of a list.
pub fn shown(rt: &impl Abort, alloc: Global, document: &ForeignDoc) -> Vec<u8> {
    let mut out = Vec::new(alloc);
    push(rt, &mut out, &[b"id ", document.id.bytes(), b"\n"]);
    push_item(rt, &mut out, [b"updated", b""], document.updated, b"");
    if let Some(prev) = &document.prev {
        push(rt, &mut out, &[b"prev ", prev.slice(), b"\n"]);
    }
    for entry in document.entries.as_slice() {
        push(rt, &mut out, &[b"entry "]);
        push_item(rt, &mut out, [entry.id.bytes(), b""], entry.updated, b" ");
        out.pop();
        push(rt, &mut out, &[entry.title.bytes(), b"\n"]);
    }
    for gone in document.gone.as_slice() {
        push_item(rt, &mut out, [b"gone ", gone.id.bytes()], gone.when, b"");
    }
    out
}

/// Compares what is kept of a document with `want`.
fn compare(rt: &impl Abort, alloc: Global, document: &str, want: &str) {
    assert!(rt; document.len() <= MAX_FEED);
    match read_feed(alloc, document.as_bytes(), ADDRESS) {
        Ok(read) => {
            let found = shown(rt, alloc, &read);
            let same = found.as_slice() == want.as_bytes();
            drop(read);
            assert!(rt; same, "{document}: {found:?}");
        }
        Err(fault) => panic!(rt; "{fault}: {document}"),
    }
}

#[test]
fn reads_feeds(rt: HostRuntime) {
    for (document, want) in &FEEDS {
        compare(&rt, rt.alloc(), document, want);
    }
}
