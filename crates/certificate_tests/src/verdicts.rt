//! Verdicts on certificates over piles.

ghost use Rattle.coverage_auditor.specs.Verdict.{AreShort};

use crate::texts::{EMPTY, EMPTY_DOCUMENT, FEED, THREE, read};
use atom_grammar::MAX_DOCUMENT;
use atom_values::Bytes;
use chain_links::Address;
use coverage_auditor::{Verdict, audit};
use doc_source::Offer;
use std::alloc::Global;
use std::process::Abort;

/// A certificate of bytes that are no document.
const NO_DOCUMENT: &str = "\
coverage 1\n\
feed 6d1f0c5a-93be-4c27-8d10-2b7f9e4a5c36 http://feed.example/\n\
version 0\n\
document http://feed.example/feed 2d711642b726b04401627ca9fbac32f5c8530fb1903cc4db02258717921a4881\n\
live 0 e3b0c44298fc1c149afbf4c8996fb92427ae41e4649b934ca495991b7852b855\n\
end\n\
";

/// A certificate that names another base than its document.
const OTHER_BASE: &str = "\
coverage 1\n\
feed 6d1f0c5a-93be-4c27-8d10-2b7f9e4a5c36 http://other.example/\n\
version 0\n\
document http://other.example/feed 15274cd480d4f5912b72a9e367cfa0787b65186678523d0760146c2140c99d58\n\
live 0 e3b0c44298fc1c149afbf4c8996fb92427ae41e4649b934ca495991b7852b855\n\
end\n\
";

/// A certificate with another version than its document.
const OTHER_VERSION: &str = "\
coverage 1\n\
feed 6d1f0c5a-93be-4c27-8d10-2b7f9e4a5c36 http://feed.example/\n\
version 1\n\
document http://feed.example/feed 15274cd480d4f5912b72a9e367cfa0787b65186678523d0760146c2140c99d58\n\
live 0 e3b0c44298fc1c149afbf4c8996fb92427ae41e4649b934ca495991b7852b855\n\
end\n\
";

/// A certificate with another number of live entries than its document.
const OTHER_LIVE: &str = "\
coverage 1\n\
feed 6d1f0c5a-93be-4c27-8d10-2b7f9e4a5c36 http://feed.example/\n\
version 0\n\
document http://feed.example/feed 15274cd480d4f5912b72a9e367cfa0787b65186678523d0760146c2140c99d58\n\
live 1 e3b0c44298fc1c149afbf4c8996fb92427ae41e4649b934ca495991b7852b855\n\
end\n\
";

/// A certificate that leaves out archive 2.
const GAP: &str = "\
coverage 1\n\
feed 6d1f0c5a-93be-4c27-8d10-2b7f9e4a5c36 http://feed.example/\n\
version 3\n\
document http://feed.example/feed 6627bbe313c43794c335bcba46a3365cebfe28a91bdde22d824c65a223680ac7\n\
document http://feed.example/archive/1 1283c13f07594da0184fbb40c975a7e0711c5af269e2e475aadaaaf7b74e53f3\n\
live 3 97e340a34e473a06d3e588433364a3860f42e1cd81f6077a8ce22051c2704d5c\n\
end\n\
";

/// A certificate that leaves out archive 1.
const NO_FIRST: &str = "\
coverage 1\n\
feed 6d1f0c5a-93be-4c27-8d10-2b7f9e4a5c36 http://feed.example/\n\
version 3\n\
document http://feed.example/feed 6627bbe313c43794c335bcba46a3365cebfe28a91bdde22d824c65a223680ac7\n\
document http://feed.example/archive/2 cb2352b163a23171140590fbf71e5c229b3dc1ab644b598b75de857c2ed8c82e\n\
live 3 97e340a34e473a06d3e588433364a3860f42e1cd81f6077a8ce22051c2704d5c\n\
end\n\
";

/// The subscription document of the feed of three operations.
const NEWEST_DOCUMENT: &str = r#"<?xml version="1.0" encoding="utf-8"?>
<feed xmlns="http://www.w3.org/2005/Atom" xmlns:fh="http://purl.org/syndication/history/1.0" xmlns:at="http://purl.org/atompub/tombstones/1.0" xmlns:app="http://www.w3.org/2007/app" xmlns:sp="urn:archived-feed:span:1">
<id>urn:uuid:6d1f0c5a-93be-4c27-8d10-2b7f9e4a5c36</id>
<title>Feed</title>
<updated>2026-11-28T11:17:35.869Z</updated>
<author><name>Editor</name></author>
<link rel="self" href="http://feed.example/feed"/>
<link rel="prev-archive" href="http://feed.example/archive/2"/>
<sp:span first="3" last="3"/>
<entry><id>urn:uuid:6d1f0c5a-93be-8c27-8000-000000000003</id><title>c</title><updated>2026-11-28T11:17:35.869Z</updated><app:edited>2026-11-28T11:17:35.869Z</app:edited><link rel="edit" href="http://feed.example/member/3"/><content></content></entry>
</feed>
"#;

const ARCHIVE_1: &str = r#"<?xml version="1.0" encoding="utf-8"?>
<feed xmlns="http://www.w3.org/2005/Atom" xmlns:fh="http://purl.org/syndication/history/1.0" xmlns:at="http://purl.org/atompub/tombstones/1.0" xmlns:app="http://www.w3.org/2007/app" xmlns:sp="urn:archived-feed:span:1">
<id>urn:uuid:6d1f0c5a-93be-4c27-8d10-2b7f9e4a5c36</id>
<title>Feed</title>
<updated>2026-11-28T11:17:35.867Z</updated>
<author><name>Editor</name></author>
<link rel="self" href="http://feed.example/archive/1"/>
<link rel="current" href="http://feed.example/feed"/>
<link rel="next-archive" href="http://feed.example/archive/2"/>
<fh:archive/>
<sp:span first="1" last="1"/>
<entry><id>urn:uuid:6d1f0c5a-93be-8c27-8000-000000000001</id><title>a</title><updated>2026-11-28T11:17:35.867Z</updated><app:edited>2026-11-28T11:17:35.867Z</app:edited><link rel="edit" href="http://feed.example/member/1"/><content></content></entry>
</feed>
"#;

const ARCHIVE_2: &str = r#"<?xml version="1.0" encoding="utf-8"?>
<feed xmlns="http://www.w3.org/2005/Atom" xmlns:fh="http://purl.org/syndication/history/1.0" xmlns:at="http://purl.org/atompub/tombstones/1.0" xmlns:app="http://www.w3.org/2007/app" xmlns:sp="urn:archived-feed:span:1">
<id>urn:uuid:6d1f0c5a-93be-4c27-8d10-2b7f9e4a5c36</id>
<title>Feed</title>
<updated>2026-11-28T11:17:35.868Z</updated>
<author><name>Editor</name></author>
<link rel="self" href="http://feed.example/archive/2"/>
<link rel="current" href="http://feed.example/feed"/>
<link rel="prev-archive" href="http://feed.example/archive/1"/>
<link rel="next-archive" href="http://feed.example/archive/3"/>
<fh:archive/>
<sp:span first="2" last="2"/>
<entry><id>urn:uuid:6d1f0c5a-93be-8c27-8000-000000000002</id><title>b</title><updated>2026-11-28T11:17:35.868Z</updated><app:edited>2026-11-28T11:17:35.868Z</app:edited><link rel="edit" href="http://feed.example/member/2"/><content></content></entry>
</feed>
"#;

/// The digest of no bytes.
const NOTHING: [u8; 32] = [
    0xe3, 0xb0, 0xc4, 0x42, 0x98, 0xfc, 0x1c, 0x14, 0x9a, 0xfb, 0xf4, 0xc8, 0x99, 0x6f, 0xb9, 0x24,
    0x27, 0xae, 0x41, 0xe4, 0x64, 0x9b, 0x93, 0x4c, 0xa4, 0x95, 0x99, 0x1b, 0x78, 0x52, 0xb8, 0x55,
];

/// The digest of `x`.
const LETTER: [u8; 32] = [
    0x2d, 0x71, 0x16, 0x42, 0xb7, 0x26, 0xb0, 0x44, 0x01, 0x62, 0x7c, 0xa9, 0xfb, 0xac, 0x32, 0xf5,
    0xc8, 0x53, 0x0f, 0xb1, 0x90, 0x3c, 0xc4, 0xdb, 0x02, 0x25, 0x87, 0x17, 0x92, 0x1a, 0x48, 0x81,
];

/// The offers of a pile: addresses and bytes.
type Pile = &'static [(&'static str, &'static str)];

const EMPTY_PILE: Pile = &[(FEED, EMPTY_DOCUMENT)];

const LETTER_PILE: Pile = &[(FEED, "x")];

const TWICE_PILE: Pile = &[(FEED, "x"), (FEED, EMPTY_DOCUMENT)];

const OTHER_PILE: Pile = &[("http://other.example/feed", EMPTY_DOCUMENT)];

const THREE_PILE: Pile = &[
    ("http://feed.example/archive/1", ARCHIVE_1),
    ("http://feed.example/archive/2", ARCHIVE_2),
    (FEED, NEWEST_DOCUMENT),
];

/// Certificates, piles and verdicts.
static VERDICTS: [(&str, Pile, Verdict); 11] = [
    (
        EMPTY,
        EMPTY_PILE,
        Verdict::Accepted {
            version: 0,
            live: 0,
        },
    ),
    (
        EMPTY,
        TWICE_PILE,
        Verdict::Accepted {
            version: 0,
            live: 0,
        },
    ),
    (
        THREE,
        THREE_PILE,
        Verdict::Accepted {
            version: 3,
            live: 3,
        },
    ),
    (
        EMPTY,
        &[],
        Verdict::NoDocument {
            address: Address::Feed,
        },
    ),
    (
        EMPTY,
        LETTER_PILE,
        Verdict::DigestDiffers {
            address: Address::Feed,
            found: LETTER,
        },
    ),
    (
        NO_DOCUMENT,
        LETTER_PILE,
        Verdict::NotADocument {
            address: Address::Feed,
        },
    ),
    (
        OTHER_BASE,
        OTHER_PILE,
        Verdict::WrongDocument {
            address: Address::Feed,
        },
    ),
    (
        OTHER_VERSION,
        EMPTY_PILE,
        Verdict::VersionDiffers { found: 0 },
    ),
    (
        GAP,
        THREE_PILE,
        Verdict::BrokenChain {
            address: Address::Archive(1),
        },
    ),
    (NO_FIRST, THREE_PILE, Verdict::NotTheFirst { first: 2 }),
    (
        OTHER_LIVE,
        EMPTY_PILE,
        Verdict::LiveDiffers {
            count: 0,
            found: NOTHING,
        },
    ),
];

/// The offers of a pile.
fn pile_of(rt: &impl Abort, alloc: Global, given: &[(&str, &str)]) -> Vec<Offer>
    ensures { AreShort result.items }
{
    let mut pile = Vec::new(alloc);
    for (address, bytes) in given {
        assert!(rt; bytes.len() <= MAX_DOCUMENT);
        let offer = Offer {
            address: Bytes::of(alloc, address.as_bytes()).expect(rt, "memory"),
            bytes: Bytes::of(alloc, bytes.as_bytes()).expect(rt, "memory"),
        };
        pile.push(offer).expect(rt, "memory");
    }
    pile
}

/// Audits a certificate, and compares the verdict.
fn expect(rt: &impl Abort, alloc: Global, text: &str, given: &[(&str, &str)], wanted: Verdict) {
    let certificate = read(rt, alloc, text).expect(rt, "a certificate");
    let pile = pile_of(rt, alloc, given);
    let verdict = audit(alloc, &certificate, &pile).expect(rt, "memory");
    drop(certificate);
    drop(pile);
    assert_eq!(rt; verdict, wanted);
}

#[test]
fn each_verdict_comes(rt: HostRuntime) {
    for (text, given, wanted) in &VERDICTS {
        expect(&rt, rt.alloc(), text, given, *wanted);
    }
}
