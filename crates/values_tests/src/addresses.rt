//! Base addresses, the addresses below them, and the order of documents.

use chain_links::{Address, Base, BaseFault, Place, Span, follows, whole_number};
use std::alloc::Global;
use std::process::Abort;

/// Texts, and whether they are base addresses.
static BASES: [(&[u8], bool); 26] = [
    (b"http://feed.example/", true),
    (b"http://feed.example", false),
    (b"http://feed.example:80/", true),
    (b"http://feed.example:1/", true),
    (b"http://feed.example:0/", false),
    (b"http://feed.example:65535/", true),
    (b"http://feed.example:65536/", false),
    (b"http://feed.example:4294967376/", false),
    (b"http://feed.example:080/", false),
    (b"http://feed.example:/", false),
    (b"http://feed.example:80", false),
    (b"http://Feed.example/", false),
    (b"http://a..b/", false),
    (b"http://.a/", false),
    (b"http://a./", false),
    (b"http://-/", true),
    (b"http:///", false),
    (b"http://a/b/", true),
    (b"http://a/B-._~9/c/", true),
    (b"http://a/b", false),
    (b"http://a//", false),
    (b"http://a/%41/", false),
    (b"http://a/b?c/", false),
    (b"https://a/", false),
    (b"HTTP://a/", false),
    (b"", false),
];

#[test]
fn takes_the_grammar_alone(rt: HostRuntime) {
    for &(text, is_base) in &BASES {
        let base = Base::parse(rt.alloc(), text);
        let want = if is_base {
            Ok(text)
        } else {
            Err(BaseFault::BadBase)
        };
        assert!(rt;
            base.as_ref()
                .map(|base| base.text())
                .map_err(|fault| *fault)
                == want,
            "{text:?}"
        );
        drop(base);
    }
}

#[test]
fn takes_at_most_200_bytes(rt: HostRuntime) {
    let mut text = vec![in rt.alloc(); b'b'; 200].expect(&rt, "memory");
    text[..9].copy_from_slice(b"http://a/");
    text[199] = b'/';
    let longest = Base::parse(rt.alloc(), &text).expect(&rt, "a base");
    assert!(rt; longest.text() == text.as_slice());
    text[199] = b'b';
    text.push(b'/').expect(&rt, "memory");
    let fault = Base::parse(rt.alloc(), &text).err();
    assert!(rt; fault == Some(BaseFault::BadBase));
    drop((text, longest));
}

/// A base address and its parts.
#[derive(Clone, Copy)]
struct Parts {
    text: &'static [u8],
    host: &'static [u8],
    port: u16,
    path: &'static [u8],
}

/// Base addresses and their parts.
static PARTS: [Parts; 3] = [
    Parts {
        text: b"http://a/",
        host: b"a",
        port: 80,
        path: b"/",
    },
    Parts {
        text: b"http://feed.example:80/x/",
        host: b"feed.example",
        port: 80,
        path: b"/x/",
    },
    Parts {
        text: b"http://feed.example:65535/a.b/c/",
        host: b"feed.example",
        port: 65535,
        path: b"/a.b/c/",
    },
];

#[test]
fn tells_the_parts(rt: HostRuntime) {
    for parts in &PARTS {
        let base = Base::parse(rt.alloc(), parts.text).expect(&rt, "a base");
        assert!(rt; (base.text(), base.host()) == (parts.text, parts.host));
        assert!(rt; (base.port(), base.path()) == (parts.port, parts.path));
        drop(base);
    }
}

/// Base addresses, and whether the URL parser prints the same text.
static URL_TEXTS: [(&[u8], bool); 9] = [
    (b"http://feed.example/", true),
    (b"http://feed.example:80/", false),
    (b"http://feed.example:8080/", true),
    (b"http://a/b/-._~/", true),
    (b"http://a/./", false),
    (b"http://a/b/../", false),
    (b"http://127.0.0.1/", true),
    (b"http://127.1/", false),
    (b"http://1.2.3.4.5/", false),
];

#[test]
fn asks_the_url_parser(rt: HostRuntime) {
    for (text, answer) in URL_TEXTS {
        let base = Base::parse(rt.alloc(), text).expect(&rt, "a base");
        assert!(rt; base.checked(rt.alloc()) == Ok(answer), "{text:?}");
        drop(base);
    }
}

/// Texts, and the addresses that they are below the base.
static READ: [(&[u8], Option<Address>); 16] = [
    (b"http://feed.example/feed", Some(Address::Feed)),
    (b"http://feed.example/archive/7", Some(Address::Archive(7))),
    (
        b"http://feed.example/archive/4294967295",
        Some(Address::Archive(4_294_967_295)),
    ),
    (b"http://feed.example/member/1", Some(Address::Member(1))),
    (b"http://feed.example/archive/07", None),
    (b"http://feed.example/archive/0", None),
    (b"http://feed.example/archive/4294967296", None),
    (b"http://feed.example/archive/", None),
    (b"http://feed.example/archive/7/", None),
    (b"http://feed.example/archive/7a", None),
    (b"http://feed.example/member/01", None),
    (b"http://feed.example/feeds", None),
    (b"http://feed.example/", None),
    (b"http://other.example/feed", None),
    (b"feed", None),
    (b"", None),
];

fn compare_address(
    rt: &impl Abort,
    alloc: Global,
    base: &Base,
    text: &[u8],
    address: Option<Address>,
) {
    let found = base.read(text);
    assert!(rt; found == address, "{text:?}");
    if let Some(address) = found {
        let printed = base.print(alloc, address).expect(rt, "memory");
        assert!(rt; printed.as_slice() == text);
        assert!(rt; base.printed_len(address) == text.len());
        let mut out = vec![in alloc; b'#'].expect(rt, "memory");
        assert!(rt; base.print_into(&mut out, address) == Ok(()));
        assert!(rt; out.as_slice().strip_prefix(b"#") == Some(text));
    }
}

#[test]
fn reads_and_prints_addresses(rt: HostRuntime) {
    let base = Base::parse(rt.alloc(), b"http://feed.example/").expect(&rt, "a base");
    for &(text, address) in &READ {
        compare_address(&rt, rt.alloc(), &base, text, address);
    }
    drop(base);
}

/// Targets of requests, and the addresses that they name below `http://feed.example:8080/a/`.
static TARGETS: [(&[u8], Option<Address>); 13] = [
    (b"http://feed.example:8080/a/feed", Some(Address::Feed)),
    (b"/a/feed", Some(Address::Feed)),
    (b"/a/archive/7", Some(Address::Archive(7))),
    (
        b"/a/member/4294967295",
        Some(Address::Member(4_294_967_295)),
    ),
    (b"/feed", None),
    (b"a/feed", None),
    (b"/a/", None),
    (b"/a/archive/07", None),
    (b"/a/feed?x", None),
    (b"//feed.example:8080/a/feed", None),
    (b"http://feed.example/a/feed", None),
    (b"*", None),
    (b"", None),
];

#[test]
fn reads_the_targets_of_requests(rt: HostRuntime) {
    let base = Base::parse(rt.alloc(), b"http://feed.example:8080/a/").expect(&rt, "a base");
    for &(target, address) in &TARGETS {
        assert!(rt; base.read_target(target) == address, "{target:?}");
    }
    drop(base);
}

/// Texts, and the whole numbers that they are.
static NUMBERS: [(&[u8], Option<u32>); 9] = [
    (b"1", Some(1)),
    (b"10", Some(10)),
    (b"4294967295", Some(4_294_967_295)),
    (b"4294967296", None),
    (b"0", None),
    (b"01", None),
    (b"1 ", None),
    (b"+1", None),
    (b"", None),
];

#[test]
fn reads_whole_numbers(rt: HostRuntime) {
    for &(text, number) in &NUMBERS {
        assert!(rt; whole_number(text) == number, "{text:?}");
    }
}

/// Two documents, by the fields that decide whether one follows the other.
#[derive(Clone, Copy)]
struct Pair {
    address: Address,
    last: u32,
    prev: u32,
    first: u32,
    follows: bool,
}

const SEVEN: Address = Address::Archive(7);

static PAIRS: [Pair; 8] = [
    Pair {
        address: SEVEN,
        last: 512,
        prev: 7,
        first: 513,
        follows: true,
    },
    Pair {
        address: SEVEN,
        last: 512,
        prev: 8,
        first: 513,
        follows: false,
    },
    Pair {
        address: Address::Member(7),
        last: 512,
        prev: 7,
        first: 513,
        follows: false,
    },
    Pair {
        address: Address::Feed,
        last: 512,
        prev: 7,
        first: 513,
        follows: false,
    },
    Pair {
        address: SEVEN,
        last: 512,
        prev: 7,
        first: 512,
        follows: false,
    },
    Pair {
        address: SEVEN,
        last: 512,
        prev: 7,
        first: 514,
        follows: false,
    },
    Pair {
        address: SEVEN,
        last: 0,
        prev: 7,
        first: 1,
        follows: true,
    },
    Pair {
        address: SEVEN,
        last: 4_294_967_295,
        prev: 7,
        first: 0,
        follows: false,
    },
];

#[test]
fn tells_what_follows(rt: HostRuntime) {
    for pair in &PAIRS {
        let older = Place {
            address: pair.address,
            span: Span {
                first: 1,
                last: pair.last,
            },
            prev: 6,
        };
        let newer = Place {
            address: Address::Feed,
            span: Span {
                first: pair.first,
                last: 600,
            },
            prev: pair.prev,
        };
        assert!(rt; follows(&older, &newer) == pair.follows);
    }
}
