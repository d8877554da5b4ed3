//! Identifiers of feeds and members, and the numbers of items.

use crate::samples::{full_draft, stamp};
use deleted_entries::{FeedId, Item, Tombstone, id_of, number_of};
use std::process::Abort;

const FEED: &[u8] = b"6d1f0c5a-93be-4c27-8d10-2b7f9e4a5c36";

/// Texts, and whether they are a feed's identifier.
static FEEDS: [(&[u8], bool); 11] = [
    (FEED, true),
    (b"6D1F0C5A-93BE-4C27-8D10-2B7F9E4A5C36", true),
    (b"urn:uuid:6d1f0c5a-93be-4c27-8d10-2b7f9e4a5c36", true),
    (b"{6d1f0c5a-93be-4c27-8d10-2b7f9e4a5c36}", true),
    (b"6d1f0c5a93be4c278d102b7f9e4a5c36", true),
    (b"6d1f0c5a-93be-8c27-8d10-2b7f9e4a5c36", false),
    (b"6d1f0c5a-93be-4c27-8d10-2b7f9e4a5c3", false),
    (b"6d1f0c5a-93be-4c27-8d10-2b7f9e4a5c360", false),
    (b"6d1f0c5a-93be-4c27-8d10-2b7f9e4a5c3g", false),
    (b"6d1f0c5a-93be4-c27-8d10-2b7f9e4a5c36", false),
    (b"", false),
];

#[test]
fn reads_feed_identifiers(rt: HostRuntime) {
    for &(text, taken) in &FEEDS {
        compare_feed(&rt, text, taken);
    }
}

fn compare_feed(rt: &impl Abort, text: &[u8], taken: bool) {
    let feed = FeedId::parse(text);
    assert!(rt; feed.is_some() == taken, "{text:?}");
    if let Some(feed) = feed {
        assert!(rt; feed.print().as_slice() == FEED, "{text:?}");
    }
}

/// Numbers of members, and their identifiers.
static MEMBERS: [(u32, &[u8]); 3] = [
    (1, b"urn:uuid:6d1f0c5a-93be-8c27-8000-000000000001"),
    (16_909_060, b"urn:uuid:6d1f0c5a-93be-8c27-8000-000001020304"),
    (
        4_294_967_295,
        b"urn:uuid:6d1f0c5a-93be-8c27-8000-0000ffffffff",
    ),
];

#[test]
fn makes_member_identifiers(rt: HostRuntime) {
    let feed = FeedId::parse(FEED).expect(&rt, "a feed identifier");
    for &(number, id) in &MEMBERS {
        assert!(rt; id_of(&feed, number).as_slice() == id);
        assert!(rt; number_of(&feed, id) == Some(number));
    }
}

/// Texts, and the members of the feed that they name.
static READ: [(&[u8], Option<u32>); 10] = [
    (b"urn:uuid:6d1f0c5a-93be-8c27-8000-000000000100", Some(256)),
    (b"urn:uuid:6d1f0c5a-93be-8c27-8000-000000000000", None),
    (b"urn:uuid:6d1f0c5a-93be-8c27-8000-000100000001", None),
    (b"urn:uuid:6d1f0c5a-93be-8c27-8001-000000000001", None),
    (b"urn:uuid:6d1f0c5a-93be-4c27-8000-000000000001", None),
    (b"urn:uuid:6d1f0c5b-93be-8c27-8000-000000000001", None),
    (b"URN:UUID:6d1f0c5a-93be-8c27-8000-000000000001", None),
    (b"urn:uuid:6D1F0C5A-93BE-8C27-8000-000000000001", None),
    (b"6d1f0c5a-93be-8c27-8000-000000000001", None),
    (b"tag:me", None),
];

#[test]
fn reads_member_identifiers_of_the_feed_alone(rt: HostRuntime) {
    let feed = FeedId::parse(FEED).expect(&rt, "a feed identifier");
    for &(id, number) in &READ {
        assert!(rt; number_of(&feed, id) == number, "{id:?}");
    }
}

fn compare_number(rt: &impl Abort, item: Item, number: u32) {
    assert!(rt; item.number() == number);
    drop(item);
}

#[test]
fn numbers_items(rt: HostRuntime) {
    let when = stamp(&rt, 0);
    compare_number(&rt, Item::Gone(Tombstone { number: 7, when }), 7);
    let entry = full_draft(&rt, rt.alloc()).normal(8, when, None);
    compare_number(&rt, Item::Kept(entry), 8);
}
