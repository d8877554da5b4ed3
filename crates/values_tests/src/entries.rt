//! Entries that are made of drafts.

use crate::samples::{full_draft, full_link, link, same, stamp, text};
use atom_values::{Draft, Entry, Link, MAX_LINKS, Many, Stamp, Text, TextKind};
use std::alloc::Global;
use std::process::Abort;

fn compare_titled(rt: &impl Abort, draft: &Draft, title: &Text) {
    same(rt, "title", &draft.title, title);
    same(rt, "id", &draft.id, &None);
    same(rt, "updated", &draft.updated, &None);
    same(rt, "published", &draft.published, &None);
    same(rt, "authors", &draft.authors.len(), &0);
    same(rt, "contributors", &draft.contributors.len(), &0);
    same(rt, "links", &draft.links.len(), &0);
    same(rt, "categories", &draft.categories.len(), &0);
    same(rt, "rights", &draft.rights, &None);
    same(rt, "summary", &draft.summary, &None);
    same(rt, "content", &draft.content, &None);
}

#[test]
fn makes_a_draft_of_a_title(rt: HostRuntime) {
    let draft = Draft::titled(rt.alloc(), text(&rt, rt.alloc(), b"A"));
    let title = Text {
        kind: TextKind::Plain,
        value: text(&rt, rt.alloc(), b"A"),
    };
    compare_titled(&rt, &draft, &title);
    drop((draft, title));
}

/// The draft's `updated`, the stored one, and that of the new entry, which is made at 1,000.
static UPDATES: [(Option<i64>, Option<i64>, i64); 6] = [
    (None, None, 1_000),
    (None, Some(999), 1_000),
    (None, Some(1_001), 1_001),
    (Some(999), None, 999),
    (Some(999), Some(1_000), 1_000),
    (Some(1_001), Some(1_000), 1_001),
];

/// The entry that is made at `moment` of a draft with this `updated`.
fn updated_entry(
    rt: &impl Abort,
    alloc: Global,
    asked: Option<i64>,
    stored: Option<i64>,
    moment: Stamp,
) -> Entry {
    let mut draft = Draft::titled(alloc, text(rt, alloc, b"A"));
    draft.updated = asked.and_then(Stamp::new);
    draft.normal(7, moment, stored.and_then(Stamp::new))
}

fn compare_moments(rt: &impl Abort, entry: &Entry, edited: Stamp, updated: i64) {
    assert!(rt; (entry.number, entry.edited) == (7, edited));
    assert!(rt; entry.updated.millis() == updated);
}

#[test]
fn updates_not_before_the_stored_entry(rt: HostRuntime) {
    let moment = stamp(&rt, 1_000);
    for &(asked, stored, updated) in &UPDATES {
        let entry = updated_entry(&rt, rt.alloc(), asked, stored, moment);
        compare_moments(&rt, &entry, moment, updated);
        drop(entry);
    }
}

fn compare_kept(rt: &impl Abort, entry: &Entry, want: &Draft) {
    same(rt, "title", &entry.title, &want.title);
    same(rt, "published", &entry.published, &want.published);
    same(rt, "authors", &entry.authors, &want.authors);
    same(rt, "contributors", &entry.contributors, &want.contributors);
    same(rt, "categories", &entry.categories, &want.categories);
    same(rt, "rights", &entry.rights, &want.rights);
    same(rt, "summary", &entry.summary, &want.summary);
    same(rt, "content", &entry.content, &want.content);
}

fn compare_link(rt: &impl Abort, entry: &Entry, want: &Link) {
    assert!(rt; (entry.links.len(), entry.links.get(0)) == (1, Some(want)));
}

#[test]
fn keeps_the_other_fields(rt: HostRuntime) {
    let (draft, link) = (full_draft(&rt, rt.alloc()), full_link(&rt, rt.alloc()));
    let entry = full_draft(&rt, rt.alloc()).normal(7, stamp(&rt, 0), None);
    compare_kept(&rt, &entry, &draft);
    compare_link(&rt, &entry, &link);
    drop((draft, link, entry));
}

fn links(rt: &impl Abort, alloc: Global, relations: &[&[u8]]) -> Many<Link, MAX_LINKS> {
    let mut links = Many::new(alloc);
    for relation in relations {
        links.push(link(rt, alloc, relation)).expect(rt, "a link");
    }
    links
}

/// The entry that is made of a draft with these links.
fn linked_entry(rt: &impl Abort, alloc: Global, relations: &[&[u8]]) -> Entry {
    let mut draft = Draft::titled(alloc, text(rt, alloc, b"A"));
    draft.links = links(rt, alloc, relations);
    draft.normal(1, stamp(rt, 0), None)
}

fn compare_content(rt: &impl Abort, entry: &Entry, content: Option<&[u8]>) {
    let found = entry.content.as_ref().map(|content| content.value.bytes());
    assert!(rt; found == content);
}

/// Compares the entry that is made of a draft with `given` links.
fn compare_links(
    rt: &impl Abort,
    alloc: Global,
    given: &[&[u8]],
    left: &[&[u8]],
    content: Option<&[u8]>,
) {
    let (entry, left) = (linked_entry(rt, alloc, given), links(rt, alloc, left));
    compare_content(rt, &entry, content);
    same(rt, "links", &entry.links, &left);
    drop((entry, left));
}

#[test]
fn drops_links_for_editing(rt: HostRuntime) {
    let alloc = rt.alloc();
    // Content is filled in where no link has the relation `alternate`.
    compare_links(
        &rt,
        alloc,
        &[b"edit", b"self", b"edit", b"Edit"],
        &[b"self", b"Edit"],
        Some(b""),
    );
    compare_links(&rt, alloc, &[b"alternate", b"edit"], &[b"alternate"], None);
    compare_links(
        &rt,
        alloc,
        &[b"edit-media", b"Alternate"],
        &[b"edit-media", b"Alternate"],
        Some(b""),
    );
}
