//! Copies, each compared with its original by all that their types show for debugging.

use crate::samples::{category, full_draft, full_link, html, person, stamp, text};
use atom_values::{AtomText, Bytes, Copies, Many};
use chain_links::Base;
use deleted_entries::{FeedId, Item, Tombstone};
use std::alloc::Global;
use std::fmt::Debug;
use std::process::Abort;

/// Compares a copy of the value with the value, and drops both.
fn compare<T: Copies + Debug + Drop>(rt: &impl Abort, alloc: Global, value: T) {
    let copy = value.copy(alloc).expect(rt, "a copy");
    let copied = format!(in alloc; "{copy:?}").expect(rt, "memory");
    let original = format!(in alloc; "{value:?}").expect(rt, "memory");
    assert!(rt; copied.as_str() == original.as_str());
    drop((copy, value));
}

#[test]
fn copies_constructs(rt: HostRuntime) {
    let alloc = rt.alloc();
    let bytes = Bytes::of(alloc, b"a\x00\xff").expect(&rt, "bytes");
    compare(&rt, alloc, bytes);
    compare(&rt, alloc, text(&rt, alloc, b"a\xC3\xA9"));
    compare(&rt, alloc, html(&rt, alloc, b"T"));
    compare(&rt, alloc, person(&rt, alloc));
    compare(&rt, alloc, full_link(&rt, alloc));
    compare(&rt, alloc, category(&rt, alloc));
}

#[test]
fn copies_plain_values(rt: HostRuntime) {
    let alloc = rt.alloc();
    let when = stamp(&rt, 6);
    let feed = FeedId::parse(b"6d1f0c5a-93be-4c27-8d10-2b7f9e4a5c36").expect(&rt, "a feed");
    compare(&rt, alloc, 7u32);
    compare(&rt, alloc, when);
    compare(&rt, alloc, feed);
    compare(&rt, alloc, Tombstone { number: 7, when });
}

#[test]
fn copies_options_and_lists(rt: HostRuntime) {
    let alloc = rt.alloc();
    compare(&rt, alloc, None::<AtomText>);
    compare(&rt, alloc, Some(text(&rt, alloc, b"O")));
    let mut texts = Many::<_, 2>::new(alloc);
    for bytes in [b"1", b"2"] {
        texts.push(text(&rt, alloc, bytes)).expect(&rt, "a text");
    }
    compare(&rt, alloc, texts);
}

#[test]
fn copies_a_draft(rt: HostRuntime) {
    compare(&rt, rt.alloc(), full_draft(&rt, rt.alloc()));
}

#[test]
fn copies_an_entry(rt: HostRuntime) {
    let entry = full_draft(&rt, rt.alloc()).normal(3, stamp(&rt, 5), None);
    compare(&rt, rt.alloc(), entry);
}

#[test]
fn copies_an_item_of_an_entry(rt: HostRuntime) {
    let entry = full_draft(&rt, rt.alloc()).normal(3, stamp(&rt, 5), None);
    compare(&rt, rt.alloc(), Item::Kept(entry));
}

#[test]
fn copies_an_item_of_a_tombstone(rt: HostRuntime) {
    let when = stamp(&rt, 6);
    compare(&rt, rt.alloc(), Item::Gone(Tombstone { number: 7, when }));
}

#[test]
fn copies_a_base(rt: HostRuntime) {
    let base = Base::parse(rt.alloc(), b"http://feed.example:8080/a/").expect(&rt, "a base");
    compare(&rt, rt.alloc(), base);
}
