//! Bytes that are refused, with the offset and the reason.

use entry_reader::{EntryFault, MAX_ENTRY, Why, read_entry};
use std::alloc::Global;
use std::process::Abort;

/// The refusal of the bytes. `None` if they are read as a draft.
fn refusal(rt: &impl Abort, alloc: Global, bytes: &[u8]) -> Option<EntryFault> {
    assert!(rt; bytes.len() <= MAX_ENTRY);
    read_entry(alloc, bytes).err()
}

/// Compares the refusal of the bytes with an offset and a reason.
fn expect(rt: &impl Abort, alloc: Global, bytes: &[u8], at: usize, why: Why) {
    let found = refusal(rt, alloc, bytes);
    assert!(rt;
        found == Some(EntryFault::NotRead { at, why }),
        "{found:?}: {bytes:?}"
    );
}

/// Compares the refusal of each row's bytes with its offset and reason.
fn compare(rt: &impl Abort, alloc: Global, rows: &[(&[u8], usize, Why)]) {
    for (bytes, at, why) in rows {
        expect(rt, alloc, bytes, *at, *why);
    }
}

/// An opening, some copies of a part, and an ending.
#[derive(Clone, Copy)]
struct Repeated {
    opening: &'static [u8],
    part: &'static [u8],
    copies: usize,
    ending: &'static [u8],
}

/// Appends the bytes of a document, and returns the offset of its ending.
fn write(rt: &impl Abort, out: &mut Vec<u8>, document: &Repeated) -> usize {
    out.extend_from_slice(document.opening).expect(rt, "memory");
    for _ in 0..document.copies {
        out.extend_from_slice(document.part).expect(rt, "memory");
    }
    let start = out.len();
    out.extend_from_slice(document.ending).expect(rt, "memory");
    start
}

/// Compares the refusal of each row's document with its offset in the ending, and its reason.
fn compare_repeated(rt: &impl Abort, alloc: Global, rows: &[(Repeated, usize, Why)]) {
    for (document, at, why) in rows {
        let mut bytes = Vec::new(alloc);
        let start = write(rt, &mut bytes, document);
        expect(rt, alloc, bytes.as_slice(), start.saturating_add(*at), *why);
    }
}

static TOKENS: [(&[u8], usize, Why); 68] = [
    (b"", 0, Why::NotWellFormed),
    (b"<a>", 3, Why::NotWellFormed),
    (b" \n", 2, Why::NotWellFormed),
    (b"x", 0, Why::NotWellFormed),
    (b"<", 1, Why::NotWellFormed),
    (b"<!", 2, Why::NotWellFormed),
    (b"<!-", 3, Why::NotWellFormed),
    (b"<!--x--", 7, Why::NotWellFormed),
    (b"<!--x--y-->", 0, Why::NotWellFormed),
    (b"<!--x--->", 0, Why::NotWellFormed),
    (b"<!DOC", 0, Why::NotWellFormed),
    (b"<!DOCTYPE x><entry/>", 0, Why::Doctype),
    (b"<!doctype x>", 0, Why::NotWellFormed),
    (b"<a><!DOCTYPE", 3, Why::Doctype),
    (b"<a/><!DOCTYPE", 4, Why::Doctype),
    (b"<![CDATA[x]]><a/>", 0, Why::NotWellFormed),
    (b"<a><!", 5, Why::NotWellFormed),
    (b"<a><![CD", 8, Why::NotWellFormed),
    (b"<a><![CDX", 3, Why::NotWellFormed),
    (b"<a><![CDATA[x]]", 15, Why::NotWellFormed),
    (b"<a><![cdata[x]]>", 3, Why::NotWellFormed),
    (b"<a b", 4, Why::NotWellFormed),
    (b"<a b=\"1\" b=", 0, Why::NotWellFormed),
    (b"<a b=\"1\" b ", 0, Why::NotWellFormed),
    (b"<a b=\"1\" b", 10, Why::NotWellFormed),
    (b"<a b=\"1\" bc", 11, Why::NotWellFormed),
    (b"<a b=\"1\"c=\"2\">", 0, Why::NotWellFormed),
    (b"<a b=\"1\" b='1'/>", 0, Why::NotWellFormed),
    (b"<a p:b=\"1\" p:b=\"2\"/>", 0, Why::NotWellFormed),
    (b"<a b=1>", 0, Why::NotWellFormed),
    (b"<a b>", 0, Why::NotWellFormed),
    (b"<a b=\"<\">", 0, Why::NotWellFormed),
    (b"<a b=\"&am", 9, Why::NotWellFormed),
    (b"<a b=\"&amq", 0, Why::NotWellFormed),
    (b"<a b=\"&am\" c=\"", 0, Why::NotWellFormed),
    (b"<a b=\"&x;\"/>", 0, Why::NotWellFormed),
    (b"< a/>", 0, Why::NotWellFormed),
    (b"<1/>", 0, Why::NotWellFormed),
    (b"<a:/>", 0, Why::NotWellFormed),
    (b"<:a/>", 0, Why::NotWellFormed),
    (b"<a:b:c/>", 0, Why::NotWellFormed),
    (b"<a/", 3, Why::NotWellFormed),
    (b"<a/ >", 0, Why::NotWellFormed),
    (b"<a b=\"1\" / >", 0, Why::NotWellFormed),
    (b"<a></", 5, Why::NotWellFormed),
    (b"<a></b", 3, Why::NotWellFormed),
    (b"<ab></a", 7, Why::NotWellFormed),
    (b"<ab></a>", 4, Why::NotWellFormed),
    (b"<a></ab>", 3, Why::NotWellFormed),
    (b"<a></ a>", 3, Why::NotWellFormed),
    (b"<a></a ", 7, Why::NotWellFormed),
    (b"<a></a x>", 3, Why::NotWellFormed),
    (b"</a>", 0, Why::NotWellFormed),
    (b"<a/><", 5, Why::NotWellFormed),
    (b"<a/><b", 4, Why::NotWellFormed),
    (b"<a/><b:", 4, Why::NotWellFormed),
    (b"<a/><b c", 4, Why::NotWellFormed),
    (b"<a/><1", 4, Why::NotWellFormed),
    (b"<a:", 3, Why::NotWellFormed),
    (b"<a><b:", 6, Why::NotWellFormed),
    (b"<a/>x", 4, Why::NotWellFormed),
    (b"<a/></a>", 4, Why::NotWellFormed),
    (b"<a/>&amp;", 4, Why::NotWellFormed),
    (b"<a/><![CDATA[]]>", 4, Why::NotWellFormed),
    (b"<a/><?xml version=\"1.0\"?>", 4, Why::NotWellFormed),
    (b"<a>x]]>", 4, Why::NotWellFormed),
    (b"<a>]]", 5, Why::NotWellFormed),
    (b"<a>x]]&gt;]]]>", 11, Why::NotWellFormed),
];

static REFERENCES: [(&[u8], usize, Why); 31] = [
    (b"<a>&", 4, Why::NotWellFormed),
    (b"<a>&am", 6, Why::NotWellFormed),
    (b"<a>&amq", 3, Why::NotWellFormed),
    (b"<a>&amp", 7, Why::NotWellFormed),
    (b"<a>&nbsp;", 3, Why::NotWellFormed),
    (b"<a>&;", 3, Why::NotWellFormed),
    (b"<a>& ", 3, Why::NotWellFormed),
    (b"<a>&AMP;", 3, Why::NotWellFormed),
    (b"<a>&#", 5, Why::NotWellFormed),
    (b"<a>&#x", 6, Why::NotWellFormed),
    (b"<a>&#;", 3, Why::NotWellFormed),
    (b"<a>&#x;", 3, Why::NotWellFormed),
    (b"<a>&#X41;", 3, Why::NotWellFormed),
    (b"<a>&#a;", 3, Why::NotWellFormed),
    (b"<a>&#xg;", 3, Why::NotWellFormed),
    (b"<a>&#-1;", 3, Why::NotWellFormed),
    (b"<a>&#0", 6, Why::NotWellFormed),
    (b"<a>&#0;", 3, Why::NotWellFormed),
    (b"<a>&#8;", 3, Why::NotWellFormed),
    (b"<a>&#8", 6, Why::NotWellFormed),
    (b"<a>&#xD800;", 3, Why::NotWellFormed),
    (b"<a>&#xD800", 10, Why::NotWellFormed),
    (b"<a>&#xDFFF;", 3, Why::NotWellFormed),
    (b"<a>&#xFFFE;", 3, Why::NotWellFormed),
    (b"<a>&#65535;", 3, Why::NotWellFormed),
    (b"<a>&#x10FFFF", 12, Why::NotWellFormed),
    (b"<a>&#x110000", 3, Why::NotWellFormed),
    (b"<a>&#1114112", 3, Why::NotWellFormed),
    (b"<a>&#1114111", 12, Why::NotWellFormed),
    (b"<a>&#99999999999999999999", 3, Why::NotWellFormed),
    (b"<a>&#x0000000000000041", 22, Why::NotWellFormed),
];

static INSTRUCTIONS: [(&[u8], usize, Why); 48] = [
    (b"<?", 2, Why::NotWellFormed),
    (b"<?x", 3, Why::NotWellFormed),
    (b"<?xml", 5, Why::NotWellFormed),
    (b"<?xml ", 6, Why::NotWellFormed),
    (b"<?xml?>", 0, Why::NotWellFormed),
    (b"<?xml?", 0, Why::NotWellFormed),
    (b"<?XML x?><a/>", 0, Why::NotWellFormed),
    (b"<?xMl ?>", 0, Why::NotWellFormed),
    (b" <?xml version=\"1.0\"?>", 1, Why::NotWellFormed),
    (b" <?xml", 6, Why::NotWellFormed),
    (b" <?xml ", 1, Why::NotWellFormed),
    (b"<?a", 3, Why::NotWellFormed),
    (b"<?a?", 4, Why::NotWellFormed),
    (b"<?a b?", 6, Why::NotWellFormed),
    (b"<?a:b?>", 0, Why::NotWellFormed),
    (b"<?a?b?>", 0, Why::NotWellFormed),
    (b"<? a?>", 0, Why::NotWellFormed),
    (b"<?1?>", 0, Why::NotWellFormed),
    (b"<?a b??", 7, Why::NotWellFormed),
    (b"<?xml v", 7, Why::NotWellFormed),
    (b"<?xml version", 13, Why::NotWellFormed),
    (b"<?xml version = ", 16, Why::NotWellFormed),
    (b"<?xml version=\"1.", 17, Why::NotWellFormed),
    (b"<?xml version=\"1.1\"", 0, Why::NotWellFormed),
    (b"<?xml version=\"1.0'?>", 0, Why::NotWellFormed),
    (
        b"<?xml version=\"1.0\"encoding=\"utf-8\"?>",
        0,
        Why::NotWellFormed,
    ),
    (b"<?xml version=\"1.0\" ", 20, Why::NotWellFormed),
    (b"<?xml version=\"1.0\" enc", 23, Why::NotWellFormed),
    (
        b"<?xml version=\"1.0\" encoding=\"UTF",
        33,
        Why::NotWellFormed,
    ),
    (
        b"<?xml version=\"1.0\" encoding=\"us-",
        33,
        Why::NotWellFormed,
    ),
    (
        b"<?xml version=\"1.0\" encoding=\"utf-16",
        0,
        Why::NotWellFormed,
    ),
    (
        b"<?xml version=\"1.0\" encoding=\"lat",
        0,
        Why::NotWellFormed,
    ),
    (
        b"<?xml version=\"1.0\" encoding=\"latin1\"?",
        0,
        Why::NotWellFormed,
    ),
    (
        b"<?xml version=\"1.0\" encoding=\"latin1\" x?>",
        0,
        Why::NotWellFormed,
    ),
    (
        b"<?xml version=\"1.0\" encoding=\"\"?>",
        0,
        Why::NotWellFormed,
    ),
    (
        b"<?xml version=\"1.0\" encoding=\"8859-1\"?>",
        0,
        Why::NotWellFormed,
    ),
    (
        b"<?xml version=\"1.0\" encoding=\"a b\"?>",
        0,
        Why::NotWellFormed,
    ),
    (
        b"<?xml version=\"1.0\" standalone=\"no\" encoding=\"utf-8\"?>",
        0,
        Why::NotWellFormed,
    ),
    (b"<?xml encoding=\"utf-8\"?>", 0, Why::NotWellFormed),
    (
        b"<?xml version=\"1.0\" standalone=\"y",
        33,
        Why::NotWellFormed,
    ),
    (
        b"<?xml version=\"1.0\" standalone=\"",
        32,
        Why::NotWellFormed,
    ),
    (
        b"<?xml version=\"1.0\" standalone=\"maybe\"?>",
        0,
        Why::NotWellFormed,
    ),
    (
        b"<?xml version=\"1.0\" standalone=\"yes\" x?>",
        0,
        Why::NotWellFormed,
    ),
    (b"<?xml version=\"1.0\"?", 20, Why::NotWellFormed),
    (b"<?xml version=\"1.0\"?x", 0, Why::NotWellFormed),
    (
        b"<?xml version=\"1.0\" encoding=\"latin1\"?>",
        0,
        Why::NotUtf8,
    ),
    (
        b"<?xml version='1.0' encoding='ISO-8859-1' standalone='yes' ?><entry/>",
        0,
        Why::NotUtf8,
    ),
    (
        b"\xEF\xBB\xBF<?xml version=\"1.0\" encoding=\"x._-\"?>",
        3,
        Why::NotUtf8,
    ),
];

static SCOPES: [(&[u8], usize, Why); 11] = [
    (b"<p:a/>", 0, Why::NotWellFormed),
    (b"<p:a", 4, Why::NotWellFormed),
    (b"<p:a x=\"1\"", 10, Why::NotWellFormed),
    (b"<p:a/", 0, Why::NotWellFormed),
    (b"<p:a xmlns:p=\"\"/", 16, Why::NotWellFormed),
    (b"<p:a xmlns:q=\"\"/", 0, Why::NotWellFormed),
    (
        b"<a xmlns:p=\"u\"><b xmlns:q=\"v\"/><q:b/></a>",
        31,
        Why::NotWellFormed,
    ),
    (b"<xmlns:a/>", 0, Why::NotWellFormed),
    (b"<xml:a xmlns:xml=\"u\"", 20, Why::NotWellFormed),
    (b"<a><b xmlns:p=\"u\"></b><p:c/>", 22, Why::NotWellFormed),
    (
        b"<a><b xmlns:p=\"u\"><p:c/></b><p:c/>",
        28,
        Why::NotWellFormed,
    ),
];

static CHARACTERS: [(&[u8], usize, Why); 19] = [
    (b"\x01", 0, Why::NotWellFormed),
    (b"<a>xy\x0B", 5, Why::NotWellFormed),
    (b"<a>\xC3\xA9\xEF\xBF\xBE</a>", 5, Why::NotWellFormed),
    (b"<a>\xEF\xBF\xBF", 3, Why::NotWellFormed),
    (b"<a><!-- \x01 -->", 3, Why::NotWellFormed),
    (b"<a><![CDATA[\x01]]>", 3, Why::NotWellFormed),
    (b"<?a \x01?>", 0, Why::NotWellFormed),
    (b"<a b=\"\x01\"/>", 0, Why::NotWellFormed),
    (b"<a\x01", 0, Why::NotWellFormed),
    (b"<a></a\x01", 3, Why::NotWellFormed),
    (b"<a><\x01", 3, Why::NotWellFormed),
    (b"<a>&#\x01", 3, Why::NotWellFormed),
    (b"<a/>\x00", 4, Why::NotWellFormed),
    (b"<a b=\"\"\x01", 0, Why::NotWellFormed),
    (b"<a><!DOCTYPE \x01", 3, Why::Doctype),
    (b"\xEF\xBB\xBF\xEF\xBB\xBF<a/>", 3, Why::NotWellFormed),
    (b"\xEF\xBB\xBFx", 3, Why::NotWellFormed),
    (b"\xEF\xBB\xBF", 3, Why::NotWellFormed),
    (b"<?xml version=\"1.0\" \x01", 0, Why::NotWellFormed),
];

static ELEMENTS: [(&[u8], usize, Why); 56] = [
    (b"<entry/>", 0, Why::NotAnEntry),
    (
        b"<a:entry xmlns:a=\"http://www.w3.org/2005/atom\"/>",
        0,
        Why::NotAnEntry,
    ),
    (
        b"<!--x-->\n<feed xmlns=\"http://www.w3.org/2005/Atom\"><title/></feed>",
        9,
        Why::NotAnEntry,
    ),
    (
        b"<Entry xmlns=\"http://www.w3.org/2005/Atom\"/>",
        0,
        Why::NotAnEntry,
    ),
    (
        b"<entry xmlns=\"http://www.w3.org/2005/Atom\"></entry>",
        0,
        Why::Missing,
    ),
    (
        b"<!----><entry xmlns=\"http://www.w3.org/2005/Atom\"><id/></entry>",
        7,
        Why::Missing,
    ),
    (
        b"<a:entry xmlns:a=\"http://www.w3.org/2005/Atom\"><title/></a:entry>",
        0,
        Why::Missing,
    ),
    (
        b"<entry xmlns=\"http://www.w3.org/2005/Atom\"><title type=\"xhtml\"/></entry>",
        43,
        Why::Xhtml,
    ),
    (
        b"<entry xmlns=\"http://www.w3.org/2005/Atom\"><content type=\"xhtml\" src=\"u\"/></entry>",
        43,
        Why::Xhtml,
    ),
    (
        b"<entry xmlns=\"http://www.w3.org/2005/Atom\"><title/><title type=\"xhtml\"/></entry>",
        51,
        Why::Xhtml,
    ),
    (
        b"<entry xmlns=\"http://www.w3.org/2005/Atom\"><title/><title/></entry>",
        51,
        Why::Twice,
    ),
    (
        b"<entry xmlns=\"http://www.w3.org/2005/Atom\"><id/><id/></entry>",
        48,
        Why::Twice,
    ),
    (
        b"<entry xmlns=\"http://www.w3.org/2005/Atom\"><rights/><rights/></entry>",
        52,
        Why::Twice,
    ),
    (
        b"<entry xmlns=\"http://www.w3.org/2005/Atom\"><summary/><summary/></entry>",
        53,
        Why::Twice,
    ),
    (
        b"<entry xmlns=\"http://www.w3.org/2005/Atom\"><content/><content/></entry>",
        53,
        Why::Twice,
    ),
    (
        b"<entry xmlns=\"http://www.w3.org/2005/Atom\"><updated>2003-12-13T18:30:02Z</updated>\
<updated>x</updated></entry>",
        82,
        Why::Twice,
    ),
    (
        b"<entry xmlns=\"http://www.w3.org/2005/Atom\"><published>2003-12-13T18:30:02Z</published>\
<published/></entry>",
        86,
        Why::Twice,
    ),
    (
        b"<entry xmlns=\"http://www.w3.org/2005/Atom\"><title/><updated>x</updated></entry>",
        51,
        Why::BadDate,
    ),
    (
        b"<entry xmlns=\"http://www.w3.org/2005/Atom\"><published/></entry>",
        43,
        Why::BadDate,
    ),
    (
        b"<entry xmlns=\"http://www.w3.org/2005/Atom\"><updated>2003-12-13t18:30:02Z</updated></entry>",
        43,
        Why::BadDate,
    ),
    (
        b"<entry xmlns=\"http://www.w3.org/2005/Atom\"><updated>2003-12-13T18:30:02 Z</updated>\
</entry>",
        43,
        Why::BadDate,
    ),
    (
        b"<entry xmlns=\"http://www.w3.org/2005/Atom\"><updated>2003<b/></updated></entry>",
        43,
        Why::BadDate,
    ),
    (
        b"<entry xmlns=\"http://www.w3.org/2005/Atom\"><updated>2003-12-13T18:30:02Z<b/></updated>\
</entry>",
        72,
        Why::NotAnEntry,
    ),
    (
        b"<entry xmlns=\"http://www.w3.org/2005/Atom\"><title/><content src=\"u\"/></entry>",
        51,
        Why::OutOfLine,
    ),
    (
        b"<entry xmlns=\"http://www.w3.org/2005/Atom\"><content type=\"text/plain\"/></entry>",
        43,
        Why::OutOfLine,
    ),
    (
        b"<entry xmlns=\"http://www.w3.org/2005/Atom\"><content/><content src=\"\"/></entry>",
        53,
        Why::OutOfLine,
    ),
    (
        b"<entry xmlns=\"http://www.w3.org/2005/Atom\"><content type=\"\"/></entry>",
        43,
        Why::OutOfLine,
    ),
    (
        b"<entry xmlns=\"http://www.w3.org/2005/Atom\"><content type=\"html\" src=\"\"/></entry>",
        43,
        Why::OutOfLine,
    ),
    (
        b"<entry xmlns=\"http://www.w3.org/2005/Atom\"><content type=\"HTML\"/></entry>",
        43,
        Why::OutOfLine,
    ),
    (
        b"<entry xmlns=\"http://www.w3.org/2005/Atom\"><title type=\"text/plain\"/></entry>",
        43,
        Why::NotAnEntry,
    ),
    (
        b"<entry xmlns=\"http://www.w3.org/2005/Atom\"><summary type=\"\"/></entry>",
        43,
        Why::NotAnEntry,
    ),
    (
        b"<entry xmlns=\"http://www.w3.org/2005/Atom\"><rights type=\"Text\"/></entry>",
        43,
        Why::NotAnEntry,
    ),
    (
        b"<entry xmlns=\"http://www.w3.org/2005/Atom\"><title>a<b>c</b></title></entry>",
        51,
        Why::NotAnEntry,
    ),
    (
        b"<entry xmlns=\"http://www.w3.org/2005/Atom\"><id><id/></id></entry>",
        47,
        Why::NotAnEntry,
    ),
    (
        b"<entry xmlns=\"http://www.w3.org/2005/Atom\"><content type=\"html\"><x:b xmlns:x=\"u\"/>\
</content></entry>",
        64,
        Why::NotAnEntry,
    ),
    (
        b"<entry xmlns=\"http://www.w3.org/2005/Atom\"><title/>\
<control xmlns=\"http://www.w3.org/2007/app\"><draft>yes</draft></control></entry>",
        51,
        Why::Draft,
    ),
    (
        b"<entry xmlns=\"http://www.w3.org/2005/Atom\"><control xmlns=\"http://www.w3.org/2007/app\">\
<draft/></control></entry>",
        43,
        Why::Draft,
    ),
    (
        b"<entry xmlns=\"http://www.w3.org/2005/Atom\"><control xmlns=\"http://www.w3.org/2007/app\">\
<draft>no</draft><draft>No</draft></control></entry>",
        43,
        Why::Draft,
    ),
    (
        b"<entry xmlns=\"http://www.w3.org/2005/Atom\"><control xmlns=\"http://www.w3.org/2007/app\">\
<draft>n<b>o</b></draft></control></entry>",
        43,
        Why::Draft,
    ),
    (
        b"<entry xmlns=\"http://www.w3.org/2005/Atom\"><author/></entry>",
        43,
        Why::Missing,
    ),
    (
        b"<entry xmlns=\"http://www.w3.org/2005/Atom\"><contributor><uri>u</uri></contributor></entry>",
        43,
        Why::Missing,
    ),
    (
        b"<entry xmlns=\"http://www.w3.org/2005/Atom\"><author><uri><b/></uri></author></entry>",
        43,
        Why::Missing,
    ),
    (
        b"<entry xmlns=\"http://www.w3.org/2005/Atom\"><author><uri><b/></uri><name/></author></entry>",
        56,
        Why::NotAnEntry,
    ),
    (
        b"<entry xmlns=\"http://www.w3.org/2005/Atom\"><author><x:name xmlns:x=\"u\"/></author>\
</entry>",
        43,
        Why::Missing,
    ),
    (
        b"<entry xmlns=\"http://www.w3.org/2005/Atom\"><author><name/><name/></author></entry>",
        58,
        Why::Twice,
    ),
    (
        b"<entry xmlns=\"http://www.w3.org/2005/Atom\"><author><name/><uri/><uri><b/></uri></author>\
</entry>",
        64,
        Why::Twice,
    ),
    (
        b"<entry xmlns=\"http://www.w3.org/2005/Atom\"><author><email/><email/><name><b/></name>\
</author></entry>",
        59,
        Why::Twice,
    ),
    (
        b"<entry xmlns=\"http://www.w3.org/2005/Atom\"><link/></entry>",
        43,
        Why::Missing,
    ),
    (
        b"<entry xmlns=\"http://www.w3.org/2005/Atom\"><link rel=\"self\" x:href=\"u\"/></entry>",
        43,
        Why::Missing,
    ),
    (
        b"<entry xmlns=\"http://www.w3.org/2005/Atom\"><category label=\"l\"/></entry>",
        43,
        Why::Missing,
    ),
    (
        b"<entry xmlns=\"http://www.w3.org/2005/Atom\"><title type=\"xhtml\"/></entry>x",
        72,
        Why::NotWellFormed,
    ),
    (
        b"<entry xmlns=\"http://www.w3.org/2005/Atom\"><title/><title/></x>",
        59,
        Why::NotWellFormed,
    ),
    (b"<a/><b/>", 4, Why::NotWellFormed),
    (b"<entry>", 7, Why::NotWellFormed),
    (
        b"<entry xmlns=\"http://www.w3.org/2005/Atom\"><title type=\"xhtml\"/><!DOCTYPE",
        64,
        Why::Doctype,
    ),
    (
        b"<entry xmlns=\"http://www.w3.org/2005/Atom\"><x><title/><title/></x><id>x<b/></id></entry>",
        71,
        Why::NotAnEntry,
    ),
];

// Elements of depth 32 and 33.
static DEPTH: [(Repeated, usize, Why); 15] = [
    (
        Repeated {
            opening: b"",
            part: b"<a>",
            copies: 32,
            ending: b"<a>",
        },
        0,
        Why::TooDeep,
    ),
    (
        Repeated {
            opening: b"",
            part: b"<a>",
            copies: 32,
            ending: b"<a",
        },
        0,
        Why::TooDeep,
    ),
    (
        Repeated {
            opening: b"",
            part: b"<a>",
            copies: 32,
            ending: b"<a/>",
        },
        0,
        Why::TooDeep,
    ),
    (
        Repeated {
            opening: b"",
            part: b"<a>",
            copies: 32,
            ending: b"<p:a/>",
        },
        0,
        Why::TooDeep,
    ),
    (
        Repeated {
            opening: b"",
            part: b"<a>",
            copies: 32,
            ending: b"<a b",
        },
        0,
        Why::TooDeep,
    ),
    (
        Repeated {
            opening: b"",
            part: b"<a>",
            copies: 32,
            ending: b"<",
        },
        1,
        Why::NotWellFormed,
    ),
    (
        Repeated {
            opening: b"",
            part: b"<a>",
            copies: 32,
            ending: b"<a b=\"1\" b=",
        },
        0,
        Why::NotWellFormed,
    ),
    (
        Repeated {
            opening: b"",
            part: b"<a>",
            copies: 32,
            ending: b"<a b=1>",
        },
        0,
        Why::NotWellFormed,
    ),
    (
        Repeated {
            opening: b"",
            part: b"<a>",
            copies: 32,
            ending: b"<a \x01>",
        },
        0,
        Why::NotWellFormed,
    ),
    (
        Repeated {
            opening: b"",
            part: b"<a>",
            copies: 31,
            ending: b"<a/>",
        },
        4,
        Why::NotWellFormed,
    ),
    (
        Repeated {
            opening: b"",
            part: b"<a>",
            copies: 32,
            ending: b"x",
        },
        1,
        Why::NotWellFormed,
    ),
    (
        Repeated {
            opening: b"",
            part: b"<a>",
            copies: 32,
            ending: b"<a/",
        },
        0,
        Why::TooDeep,
    ),
    (
        Repeated {
            opening: b"",
            part: b"<a>",
            copies: 32,
            ending: b"<a:",
        },
        0,
        Why::TooDeep,
    ),
    (
        Repeated {
            opening: b"",
            part: b"<a>",
            copies: 32,
            ending: b"<a:1",
        },
        0,
        Why::NotWellFormed,
    ),
    (
        Repeated {
            opening: b"",
            part: b"<a>",
            copies: 32,
            ending: b"<!--x-->",
        },
        8,
        Why::NotWellFormed,
    ),
];

// One person, link or category more than an entry may have.
static LIMITS: [(Repeated, usize, Why); 7] = [
    (
        Repeated {
            opening: b"<entry xmlns=\"http://www.w3.org/2005/Atom\">",
            part: b"<author><name/></author>",
            copies: 16,
            ending: b"<author><name/></author></entry>",
        },
        0,
        Why::TooMany,
    ),
    (
        Repeated {
            opening: b"<entry xmlns=\"http://www.w3.org/2005/Atom\">",
            part: b"<contributor><name/></contributor>",
            copies: 16,
            ending: b"<contributor><name><b/></name></contributor></entry>",
        },
        0,
        Why::TooMany,
    ),
    (
        Repeated {
            opening: b"<entry xmlns=\"http://www.w3.org/2005/Atom\">",
            part: b"<author><name/></author>",
            copies: 16,
            ending: b"<author/></entry>",
        },
        0,
        Why::Missing,
    ),
    (
        Repeated {
            opening: b"<entry xmlns=\"http://www.w3.org/2005/Atom\">",
            part: b"<link href=\"\"/>",
            copies: 32,
            ending: b"<link href=\"\"/></entry>",
        },
        0,
        Why::TooMany,
    ),
    (
        Repeated {
            opening: b"<entry xmlns=\"http://www.w3.org/2005/Atom\">",
            part: b"<link href=\"\" rel=\"edit\"/>",
            copies: 32,
            ending: b"<link href=\"\"/></entry>",
        },
        0,
        Why::TooMany,
    ),
    (
        Repeated {
            opening: b"<entry xmlns=\"http://www.w3.org/2005/Atom\">",
            part: b"<link href=\"\"/>",
            copies: 32,
            ending: b"<link/></entry>",
        },
        0,
        Why::Missing,
    ),
    (
        Repeated {
            opening: b"<entry xmlns=\"http://www.w3.org/2005/Atom\">",
            part: b"<category term=\"\"/>",
            copies: 64,
            ending: b"<category term=\"\"/></entry>",
        },
        0,
        Why::TooMany,
    ),
];

#[test]
fn refuses_tokens(rt: HostRuntime) {
    compare(&rt, rt.alloc(), &TOKENS);
}

#[test]
fn refuses_references(rt: HostRuntime) {
    compare(&rt, rt.alloc(), &REFERENCES);
}

#[test]
fn refuses_instructions(rt: HostRuntime) {
    compare(&rt, rt.alloc(), &INSTRUCTIONS);
}

#[test]
fn refuses_scopes(rt: HostRuntime) {
    compare(&rt, rt.alloc(), &SCOPES);
}

#[test]
fn refuses_characters(rt: HostRuntime) {
    compare(&rt, rt.alloc(), &CHARACTERS);
}

#[test]
fn refuses_elements(rt: HostRuntime) {
    compare(&rt, rt.alloc(), &ELEMENTS);
}

#[test]
fn refuses_depth(rt: HostRuntime) {
    compare_repeated(&rt, rt.alloc(), &DEPTH);
}

#[test]
fn refuses_past_limits(rt: HostRuntime) {
    compare_repeated(&rt, rt.alloc(), &LIMITS);
}

/// Entries, none of whose proper prefixes is a whole document.
static CUT: [&str; 3] = [
    "<?xml version='1.0'?><atom:entry xmlns:atom='http://www.w3.org/2005/Atom' xmlns:x='urn:x'>\
<atom:id>tag:me</atom:id><atom:title>News</atom:title><atom:content type='html'><![CDATA[<b>A & B</b>]]>\
</atom:content><x:mood>ok</x:mood></atom:entry>",
    "\u{FEFF}<?xml version=\"1.0\" encoding=\"utf-8\" standalone='yes' ?>\r\n<?p a?b?><!-- a - b -->\
<entry\txmlns=\"http://www.w3.org/2005/Atom\" xml:lang = 'fr'>\r\n<title type=\"html\">\u{E9}t\u{E9} \u{1F600} &lt;b&gt;\
&#233;&#xE9;&#x1F600;</title>\r\n<link href='a?b&amp;c'/>]] <updated>2003-12-13T18:30:02Z</updated ></entry>",
    "<entry xmlns=\"http://www.w3.org/2005/Atom\">\n  <title>Atom-Powered Robots Run Amok</title>\n\
  <id>urn:uuid:1225c695-cfb8-4ebb-aaaa-80da344efa6a</id>\n  <author><name>John Doe</name></author>\n\
  <p:control xmlns:p=\"http://www.w3.org/2007/app\"><p:draft>no</p:draft></p:control>\n  <content/>\n</entry>",
];

/// The last offset up to `end` that is between two characters.
fn boundary(text: &str, end: usize) -> usize {
    for more in 0..4 {
        let at = end.saturating_sub(more);
        if text.is_char_boundary(at) {
            return at;
        }
    }
    end
}

/// Compares the refusal of a prefix of a document.
fn expect_cut(rt: &impl Abort, alloc: Global, document: &str, end: usize) {
    let Some(prefix) = document.as_bytes().get(..end) else {
        panic!(rt; "no prefix of {end} bytes");
    };
    let at = boundary(document, end);
    let why = if at == end {
        Why::NotWellFormed
    } else {
        Why::NotUtf8
    };
    expect(rt, alloc, prefix, at, why);
}

#[test]
fn refuses_each_prefix(rt: HostRuntime) {
    for document in &CUT {
        for end in 0..document.len() {
            expect_cut(&rt, rt.alloc(), document, end);
        }
        let found = refusal(&rt, rt.alloc(), document.as_bytes());
        assert!(rt; found.is_none(), "{document}");
    }
}

#[test]
fn refuses_bytes_that_are_not_utf8(rt: HostRuntime) {
    compare(&rt, rt.alloc(), &UTF8);
}

static UTF8: [(&[u8], usize, Why); 8] = [
    (b"\xFF", 0, Why::NotUtf8),
    (b"\xEF\xBB", 0, Why::NotUtf8),
    (b"<!DOCTYPE x>\x80", 12, Why::NotUtf8),
    (b"<a>\xC3\xA9\xC3", 5, Why::NotUtf8),
    (b"<a>\xED\xA0\x80</a>", 3, Why::NotUtf8),
    (b"<a>\xC0\x80</a>", 3, Why::NotUtf8),
    (b"<a>\xF4\x90\x80\x80</a>", 3, Why::NotUtf8),
    (
        b"<?xml version='1.0' encoding='latin1'?><a>\xE9</a>",
        42,
        Why::NotUtf8,
    ),
];

/// Compares the sentence of a fault.
fn expect_sentence(rt: &impl Abort, alloc: Global, fault: EntryFault, want: &str) {
    let sentence = format!(in alloc; "{fault}").expect(rt, "memory");
    assert!(rt; sentence.as_str() == want, "{sentence}");
}

#[test]
fn says_where_and_why(rt: HostRuntime) {
    let fault = EntryFault::NotRead {
        at: 7,
        why: Why::TooDeep,
    };
    let want = "not read as an entry: TooDeep at byte 7";
    expect_sentence(&rt, rt.alloc(), fault, want);
    expect_sentence(&rt, rt.alloc(), EntryFault::NoMemory, "out of memory");
}
