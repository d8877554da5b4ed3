//! Bytes that aren't read as a feed document, with the offset and the reason.

use feed_reader::{FeedWhy, ForeignRead, MAX_FEED, read_feed};
use std::alloc::Global;
use std::process::Abort;
use xml_tokens::TokenWhy;

static ADDRESS: &[u8] = b"http://a.example/f.xml";

/// The beginning of a feed document that lacks nothing.
static OPENING: &[u8] =
    b"<feed xmlns=\"http://www.w3.org/2005/Atom\" xmlns:at=\"http://purl.org/atompub/\
tombstones/1.0\"><id>f</id><updated>2020-01-01T00:00:00Z</updated>";

/// The refusal of the bytes in the document of an address. `None` if they are read.
fn refusal(rt: &impl Abort, alloc: Global, bytes: &[u8], address: &[u8]) -> Option<ForeignRead> {
    assert!(rt; bytes.len() <= MAX_FEED);
    read_feed(alloc, bytes, address).err()
}

/// Compares the refusal of the bytes with an offset and a reason.
fn expect(rt: &impl Abort, alloc: Global, bytes: &[u8], at: usize, why: FeedWhy) {
    let found = refusal(rt, alloc, bytes, ADDRESS);
    assert!(rt;
        found == Some(ForeignRead::NotRead { at, why }),
        "{found:?}: {at} {why:?} {:?}",
        bytes.get(..bytes.len().min(300))
    );
}

/// Appends copies of a text.
fn push(rt: &impl Abort, out: &mut Vec<u8>, text: &[u8], copies: usize) {
    for _ in 0..copies {
        out.extend_from_slice(text).expect(rt, "memory");
    }
}

/// Documents by their parts before the element that is refused and from it on.
static DOCUMENTS: [(&[u8], &[u8], FeedWhy); 27] = [
    (
        b"",
        b"<entry xmlns=\"http://www.w3.org/2005/Atom\"/>",
        FeedWhy::NotAFeed,
    ),
    (b"", b"<feed/>", FeedWhy::NotAFeed),
    (
        b"",
        b"<feed xmlns=\"http://www.w3.org/2007/app\"/>",
        FeedWhy::NotAFeed,
    ),
    (
        b"",
        b"<Feed xmlns=\"http://www.w3.org/2005/Atom\"/>",
        FeedWhy::NotAFeed,
    ),
    (
        b"\xEF\xBB\xBF<?xml version=\"1.0\"?>\n<!-- c -->",
        b"<x><feed xmlns=\"http://www.w3.org/2005/Atom\"/></x>",
        FeedWhy::NotAFeed,
    ),
    (
        b"",
        b"<feed xmlns=\"http://www.w3.org/2005/Atom\"/>",
        FeedWhy::Missing,
    ),
    (
        b"\xEF\xBB\xBF",
        b"<feed xmlns=\"http://www.w3.org/2005/Atom\"><id/></feed>",
        FeedWhy::Missing,
    ),
    (
        b" ",
        b"<feed xmlns=\"http://www.w3.org/2005/Atom\"><updated>2020-01-01T00:00:00Z</updated></feed>",
        FeedWhy::Missing,
    ),
    // A feed that lacks a part is refused for that, before any of its children.
    (
        b"",
        b"<feed xmlns=\"http://www.w3.org/2005/Atom\"><entry/><id/><id/><link rel=\"prev-archive\"/></feed>",
        FeedWhy::Missing,
    ),
    (
        b"",
        b"<feed xmlns=\"http://www.w3.org/2005/Atom\"><updated>x</updated></feed>",
        FeedWhy::Missing,
    ),
    (
        b"",
        b"<feed xmlns=\"http://www.w3.org/2005/Atom\"><entry><id/><updated>2020-01-01T00:00:00Z</updated>\
</entry></feed>",
        FeedWhy::Missing,
    ),
    (
        b"",
        b"<feed xmlns=\"http://www.w3.org/2005/Atom\" xmlns:x=\"urn:x\"><x:id/><updated>\
2020-01-01T00:00:00Z</updated></feed>",
        FeedWhy::Missing,
    ),
    // The required children may stand after the refusal.
    (
        b"<feed xmlns=\"http://www.w3.org/2005/Atom\">",
        b"<entry/><id/><updated>2020-01-01T00:00:00Z</updated></feed>",
        FeedWhy::Missing,
    ),
    (
        b"<feed xmlns=\"http://www.w3.org/2005/Atom\"><id/>",
        b"<id/><updated>2020-01-01T00:00:00Z</updated></feed>",
        FeedWhy::Twice,
    ),
    (
        b"<feed xmlns=\"http://www.w3.org/2005/Atom\">",
        b"<updated>x</updated><id/></feed>",
        FeedWhy::BadDate,
    ),
    // A token that isn't allowed comes before all that elements are refused for.
    (b"<feed", b"", FeedWhy::Token(TokenWhy::NotWellFormed)),
    (b"", b"", FeedWhy::Token(TokenWhy::NotWellFormed)),
    (b"<x>", b"</y></x>", FeedWhy::Token(TokenWhy::NotWellFormed)),
    (
        b"<feed xmlns=\"http://www.w3.org/2005/Atom\"><entry/>",
        b"</entry></feed>",
        FeedWhy::Token(TokenWhy::NotWellFormed),
    ),
    (
        b"<feed xmlns=\"http://www.w3.org/2005/Atom\"><entry/>",
        b"",
        FeedWhy::Token(TokenWhy::NotWellFormed),
    ),
    (
        b"<feed xmlns=\"http://www.w3.org/2005/Atom\"><entry><id/>",
        b"<x:y/></entry></feed>",
        FeedWhy::Token(TokenWhy::NotWellFormed),
    ),
    (b"<x/>", b"<y/>", FeedWhy::Token(TokenWhy::NotWellFormed)),
    (
        b"",
        b"<!DOCTYPE feed><feed/>",
        FeedWhy::Token(TokenWhy::Doctype),
    ),
    (b"<feed>", b"<!DOCTYPE", FeedWhy::Token(TokenWhy::Doctype)),
    (
        b"<feed>\xC3\xA9",
        b"\xE9</feed>",
        FeedWhy::Token(TokenWhy::NotUtf8),
    ),
    (
        b"<feed><!DOCTYPE>",
        b"\xFF",
        FeedWhy::Token(TokenWhy::NotUtf8),
    ),
    (
        b"\xEF\xBB\xBF",
        b"<?xml version='1.0' encoding='latin1'?><feed/>",
        FeedWhy::Token(TokenWhy::NotUtf8),
    ),
];

/// The contents of a feed by their parts before the element that is refused and from it on, after `OPENING`.
static CONTENTS: [(&[u8], &[u8], FeedWhy); 44] = [
    (b"", b"<entry/>", FeedWhy::Missing),
    (b"", b"<entry><id>a</id></entry>", FeedWhy::Missing),
    (
        b"",
        b"<entry><updated>2020-01-01T00:00:00Z</updated></entry>",
        FeedWhy::Missing,
    ),
    (
        b"<title/>",
        b"<entry><title/><x><id/></x></entry>",
        FeedWhy::Missing,
    ),
    // An entry that lacks a part is refused for that, before any of its children.
    (
        b"",
        b"<entry><id>a</id><id>b</id></entry>",
        FeedWhy::Missing,
    ),
    (
        b"",
        b"<entry><updated>x</updated></entry>",
        FeedWhy::Missing,
    ),
    (
        b"",
        b"<entry><updated>x</updated><title/><title/></entry>",
        FeedWhy::Missing,
    ),
    (
        b"<entry><id>a</id>",
        b"<id>b</id><updated>2020-01-01T00:00:00Z</updated></entry>",
        FeedWhy::Twice,
    ),
    (
        b"<entry><id>a</id><updated>2020-01-01T00:00:00Z</updated>",
        b"<updated>2020-01-01T00:00:00Z</updated></entry>",
        FeedWhy::Twice,
    ),
    (
        b"<entry><id>a</id><title/>",
        b"<title/><updated>2020-01-01T00:00:00Z</updated></entry>",
        FeedWhy::Twice,
    ),
    // A second date that is no date is refused as the second one.
    (
        b"<entry><id>a</id><updated>2020-01-01T00:00:00Z</updated>",
        b"<updated>x</updated></entry>",
        FeedWhy::Twice,
    ),
    (b"", b"<updated>x</updated>", FeedWhy::Twice),
    (
        b"",
        b"<updated>2020-01-01T00:00:00Z</updated>",
        FeedWhy::Twice,
    ),
    (b"<entry xmlns=''/>", b"<id/><entry/>", FeedWhy::Twice),
    (
        b"<entry><id>a</id>",
        b"<updated>2020-13-01T00:00:00Z</updated></entry>",
        FeedWhy::BadDate,
    ),
    (
        b"<entry><id>a</id>",
        b"<updated/></entry>",
        FeedWhy::BadDate,
    ),
    (
        b"<entry><id>a</id>",
        b"<updated>2020-01-01T00:00:00z</updated></entry>",
        FeedWhy::BadDate,
    ),
    (
        b"<entry><id>a</id>",
        b"<updated>2020-01-01T00:00:00Z<x>.</x></updated></entry>",
        FeedWhy::BadDate,
    ),
    // The first refusal in an entry, and in the feed.
    (
        b"<entry><id>a</id>",
        b"<updated>x</updated><id>b</id><title/><title/></entry><entry/><id/>",
        FeedWhy::BadDate,
    ),
    (
        b"<entry><id>a</id>",
        b"<id>b</id><id>b</id><updated>x</updated></entry><entry/><id/>",
        FeedWhy::Twice,
    ),
    (
        b"<link/>",
        b"<id/><entry/><link rel=\"prev-archive\"/>",
        FeedWhy::Twice,
    ),
    (b"", b"<entry/><id/>", FeedWhy::Missing),
    (
        b"",
        b"<link rel=\"prev-archive\"/><entry/>",
        FeedWhy::BadLink,
    ),
    // Tombstones.
    (b"", b"<at:deleted-entry/>", FeedWhy::Missing),
    (b"", b"<at:deleted-entry ref=\"a\"/>", FeedWhy::Missing),
    (
        b"",
        b"<at:deleted-entry when=\"2020-01-01T00:00:00Z\"/>",
        FeedWhy::Missing,
    ),
    (b"", b"<at:deleted-entry when=\"x\"/>", FeedWhy::Missing),
    (
        b"",
        b"<at:deleted-entry at:ref=\"a\" when=\"2020-01-01T00:00:00Z\"/>",
        FeedWhy::Missing,
    ),
    (
        b"",
        b"<at:deleted-entry><ref>a</ref><when>2020-01-01T00:00:00Z</when></at:deleted-entry>",
        FeedWhy::Missing,
    ),
    (
        b"",
        b"<at:deleted-entry ref=\"a\" when=\"2020-01-01\"/>",
        FeedWhy::BadDate,
    ),
    (
        b"",
        b"<at:deleted-entry ref=\"\" when=\"\"></at:deleted-entry>",
        FeedWhy::BadDate,
    ),
    (
        b"<at:deleted-entry ref=\"a\" when=\"2020-01-01T00:00:00Z\"/>",
        b"<at:deleted-entry ref=\"a\" when=\"2020-00-01T00:00:00Z\"/><entry/>",
        FeedWhy::BadDate,
    ),
    (
        b"",
        b"<deleted-entry xmlns=\"http://purl.org/atompub/tombstones/1.0\"/>",
        FeedWhy::Missing,
    ),
    // Links.
    (
        b"<link/>",
        b"<link rel=\"prev-archive\"/>",
        FeedWhy::BadLink,
    ),
    (
        b"<link rel='self' href='http://['/>",
        b"<link rel='prev-archive' href='http://['/>",
        FeedWhy::BadLink,
    ),
    (
        b"",
        b"<link rel='http://www.iana.org/assignments/relation/prev-archive'>a</link>",
        FeedWhy::BadLink,
    ),
    (
        b"",
        b"<link rel='prev-archive' at:href='a'/><link rel='prev-archive' href='a'/>",
        FeedWhy::BadLink,
    ),
    (
        b"",
        b"<link rel='prev-archive' href='//'/>",
        FeedWhy::BadLink,
    ),
    (
        b"",
        b"<link rel='prev-archive' href='http://a:99999/'/>",
        FeedWhy::BadLink,
    ),
    (
        b"<link rel='Prev-archive'/>",
        b"<link rel='&#112;rev-archive'/>",
        FeedWhy::BadLink,
    ),
    // A refusal inside an entry that is skipped doesn't count.
    (b"<x><entry/></x>", b"<entry/>", FeedWhy::Missing),
    (b"<entry xmlns='urn:x'/>", b"<entry/>", FeedWhy::Missing),
    (
        b"<entry><id>a</id><updated>2020-01-01T00:00:00Z</updated><entry/><id xmlns='urn:x'/></entry>",
        b"<entry/>",
        FeedWhy::Missing,
    ),
    (b"<at:entry/><at:id/>", b"<id/>", FeedWhy::Twice),
];

#[test]
fn refuses_documents(rt: HostRuntime) {
    for (before, behind, why) in &DOCUMENTS {
        let mut bytes = Vec::new(rt.alloc());
        push(&rt, &mut bytes, before, 1);
        push(&rt, &mut bytes, behind, 1);
        expect(&rt, rt.alloc(), bytes.as_slice(), before.len(), *why);
    }
}

#[test]
fn refuses_contents(rt: HostRuntime) {
    for (before, behind, why) in &CONTENTS {
        let mut bytes = Vec::new(rt.alloc());
        push(&rt, &mut bytes, OPENING, 1);
        push(&rt, &mut bytes, before, 1);
        let at = bytes.len();
        push(&rt, &mut bytes, behind, 1);
        push(&rt, &mut bytes, b"</feed>", 1);
        expect(&rt, rt.alloc(), bytes.as_slice(), at, *why);
    }
}

/// A content of a feed: an opening, some copies of a part, an ending, and its refusal if it is refused: the offset in
/// the opening or in the ending, and the reason.
struct Repeated {
    opening: &'static [u8],
    part: &'static [u8],
    copies: usize,
    ending: &'static [u8],
    refused: Option<(Place, usize, FeedWhy)>,
}

/// The part of a document from which an offset is counted.
#[derive(Clone, Copy, PartialEq, Eq)]
enum Place {
    Opening,
    Ending,
}

static REPEATED: [Repeated; 23] = [
    // Texts of 65,536 bytes and one more.
    Repeated {
        opening: b"<entry><id>",
        part: b"a",
        copies: 65_536,
        ending: b"</id><updated>2020-01-01T00:00:00Z</updated></entry>",
        refused: None,
    },
    Repeated {
        opening: b"<entry><id>",
        part: b"a",
        copies: 65_537,
        ending: b"</id><updated>2020-01-01T00:00:00Z</updated></entry>",
        refused: Some((Place::Opening, 7, FeedWhy::TooLong)),
    },
    Repeated {
        opening: b"<entry><id>",
        part: b"a",
        copies: 65_537,
        ending: b"</id></entry>",
        refused: Some((Place::Opening, 0, FeedWhy::Missing)),
    },
    // White space at both ends of an identifier isn't counted, and that of a title is.
    Repeated {
        opening: b"<entry><id>\n a",
        part: b" ",
        copies: 65_537,
        ending: b"</id><updated>2020-01-01T00:00:00Z</updated></entry>",
        refused: None,
    },
    Repeated {
        opening: b"<entry><title>",
        part: b" ",
        copies: 65_537,
        ending: b"</title><id/><updated>2020-01-01T00:00:00Z</updated></entry>",
        refused: Some((Place::Opening, 7, FeedWhy::TooLong)),
    },
    Repeated {
        opening: b"<entry><title>",
        part: b"&#xE9;",
        copies: 32_768,
        ending: b"</title><id/><updated>2020-01-01T00:00:00Z</updated></entry>",
        refused: None,
    },
    Repeated {
        opening: b"<entry><title><b>",
        part: b"<i>a</i>",
        copies: 65_537,
        ending: b"</b></title><id/><updated>2020-01-01T00:00:00Z</updated></entry>",
        refused: Some((Place::Opening, 7, FeedWhy::TooLong)),
    },
    // A second title is refused as the second one, whatever its length.
    Repeated {
        opening: b"<entry><title>",
        part: b"a",
        copies: 65_536,
        ending: b"</title><title/><id/><updated>2020-01-01T00:00:00Z</updated></entry>",
        refused: Some((Place::Ending, 8, FeedWhy::Twice)),
    },
    Repeated {
        opening: b"<entry><title/><title>",
        part: b"a",
        copies: 65_537,
        ending: b"</title><id/><updated>2020-01-01T00:00:00Z</updated></entry>",
        refused: Some((Place::Opening, 15, FeedWhy::Twice)),
    },
    // A date may have any number of digits.
    Repeated {
        opening: b"<entry><id/><updated>2020-01-01T00:00:00.",
        part: b"1",
        copies: 70_000,
        ending: b"Z</updated></entry>",
        refused: None,
    },
    Repeated {
        opening: b"<entry><id/><updated>2020-01-01T00:00:00.",
        part: b"1",
        copies: 70_000,
        ending: b"</updated></entry>",
        refused: Some((Place::Opening, 12, FeedWhy::BadDate)),
    },
    Repeated {
        opening: b"<at:deleted-entry when='2020-01-01T00:00:00Z' ref='",
        part: b"a",
        copies: 65_536,
        ending: b"'/>",
        refused: None,
    },
    Repeated {
        opening: b"<at:deleted-entry when='2020-01-01T00:00:00Z' ref='",
        part: b"a",
        copies: 65_537,
        ending: b"'/>",
        refused: Some((Place::Opening, 0, FeedWhy::TooLong)),
    },
    Repeated {
        opening: b"<at:deleted-entry when='2020-01-01T00:00:00Y' ref='",
        part: b"a",
        copies: 65_537,
        ending: b"'/>",
        refused: Some((Place::Opening, 0, FeedWhy::BadDate)),
    },
    Repeated {
        opening: b"<at:deleted-entry when='2020-01-01T00:00:00Z' ref='a\n",
        part: b"\t",
        copies: 65_537,
        ending: b"'/>",
        refused: None,
    },
    // 10,000 entries and tombstones, and one more.
    Repeated {
        opening: b"",
        part: b"<entry><id>a</id><updated>2020-01-01T00:00:00Z</updated></entry>",
        copies: 10_000,
        ending: b"<entry xmlns=''/>",
        refused: None,
    },
    Repeated {
        opening: b"",
        part: b"<entry><id>a</id><updated>2020-01-01T00:00:00Z</updated></entry>",
        copies: 10_000,
        ending: b"<entry><id>a</id><updated>2020-01-01T00:00:00Z</updated></entry>",
        refused: Some((Place::Ending, 0, FeedWhy::TooMany)),
    },
    Repeated {
        opening: b"",
        part: b"<entry><id>a</id><updated>2020-01-01T00:00:00Z</updated></entry>",
        copies: 10_000,
        ending: b"<entry/>",
        refused: Some((Place::Ending, 0, FeedWhy::Missing)),
    },
    Repeated {
        opening: b"",
        part: b"<entry><id>a</id><updated>2020-01-01T00:00:00Z</updated></entry>",
        copies: 10_000,
        ending: b"<entry><id/><id/><updated>x</updated></entry>",
        refused: Some((Place::Ending, 0, FeedWhy::TooMany)),
    },
    Repeated {
        opening: b"",
        part: b"<at:deleted-entry ref='a' when='2020-01-01T00:00:00Z'/>",
        copies: 10_000,
        ending: b"",
        refused: None,
    },
    Repeated {
        opening: b"",
        part: b"<at:deleted-entry ref='a' when='2020-01-01T00:00:00Z'/>",
        copies: 10_000,
        ending: b"<at:deleted-entry ref='b' when='2020-01-01T00:00:00Z'></at:deleted-entry>",
        refused: Some((Place::Ending, 0, FeedWhy::TooMany)),
    },
    Repeated {
        opening: b"",
        part: b"<at:deleted-entry ref='a' when='2020-01-01T00:00:00Z'/>",
        copies: 10_000,
        ending: b"<at:deleted-entry ref='b' when='x'/>",
        refused: Some((Place::Ending, 0, FeedWhy::BadDate)),
    },
    Repeated {
        opening: b"",
        part: b"<at:deleted-entry ref='a' when='2020-01-01T00:00:00Z'/>",
        copies: 10_000,
        ending: b"<at:deleted-entry/>",
        refused: Some((Place::Ending, 0, FeedWhy::Missing)),
    },
];

/// Compares the refusal of a content.
fn compare(rt: &impl Abort, alloc: Global, content: &Repeated) {
    let mut bytes = Vec::new(alloc);
    push(rt, &mut bytes, OPENING, 1);
    let opening = bytes.len();
    push(rt, &mut bytes, content.opening, 1);
    push(rt, &mut bytes, content.part, content.copies);
    let ending = bytes.len();
    push(rt, &mut bytes, content.ending, 1);
    push(rt, &mut bytes, b"</feed>", 1);
    let want = content.refused.map(|(place, more, why)| {
        let start = if place == Place::Opening {
            opening
        } else {
            ending
        };
        let at = start.saturating_add(more);
        ForeignRead::NotRead { at, why }
    });
    let found = refusal(rt, alloc, bytes.as_slice(), ADDRESS);
    assert!(rt; found == want, "{found:?} {want:?}");
}

#[test]
fn refuses_past_limits(rt: HostRuntime) {
    for content in &REPEATED {
        compare(&rt, rt.alloc(), content);
    }
}

/// Compares the refusal of a link in the documents of addresses that are no URLs.
#[test]
fn joins_to_urls_alone(rt: HostRuntime) {
    let mut bytes = Vec::new(rt.alloc());
    push(&rt, &mut bytes, OPENING, 1);
    let at = bytes.len();
    push(
        &rt,
        &mut bytes,
        b"<link rel='prev-archive' href='http://a.example/'/></feed>",
        1,
    );
    let why = FeedWhy::BadLink;
    let addresses: [&[u8]; 4] = [b"", b"f.xml", b"http://a.example/\xFF", b"http://"];
    for address in addresses {
        let found = refusal(&rt, rt.alloc(), bytes.as_slice(), address);
        assert!(rt;
            found == Some(ForeignRead::NotRead { at, why }),
            "{found:?}"
        );
    }
    let found = refusal(&rt, rt.alloc(), bytes.as_slice(), ADDRESS);
    assert!(rt; found.is_none(), "{found:?}");
}

/// Compares the refusal of elements inside one another.
fn nested(rt: &impl Abort, alloc: Global, depth: usize) -> Option<ForeignRead> {
    let mut bytes = Vec::new(alloc);
    push(rt, &mut bytes, OPENING, 1);
    push(rt, &mut bytes, b"<x>", depth);
    push(rt, &mut bytes, b"</x>", depth);
    push(rt, &mut bytes, b"</feed>", 1);
    refusal(rt, alloc, bytes.as_slice(), ADDRESS)
}

#[test]
fn refuses_depth(rt: HostRuntime) {
    let at = OPENING.len().saturating_add(3 * 255);
    let why = FeedWhy::Token(TokenWhy::TooDeep);
    assert!(rt; nested(&rt, rt.alloc(), 32).is_none());
    assert!(rt; nested(&rt, rt.alloc(), 255).is_none());
    let found = nested(&rt, rt.alloc(), 256);
    assert!(rt;
        found == Some(ForeignRead::NotRead { at, why }),
        "{found:?}"
    );
}

#[test]
fn says_where_and_why(rt: HostRuntime) {
    let fault = ForeignRead::NotRead {
        at: 7,
        why: FeedWhy::Token(TokenWhy::TooDeep),
    };
    let sentence = format!(in rt.alloc(); "{fault}").expect(&rt, "memory");
    assert!(rt;
        sentence.as_str() == "not read as a feed: Token(TooDeep) at byte 7",
        "{sentence}"
    );
}
