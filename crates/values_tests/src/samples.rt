//! The values that several tests use. They end the test where memory runs out, which is cheaper to prove than `?`.

use atom_values::{
    AtomText, Category, Draft, Link, MAX_CATEGORIES, MAX_LINKS, MAX_PERSONS, Many, Person, Stamp,
    Text, TextKind,
};
use std::alloc::Global;
use std::process::Abort;

/// Asserts that two fields of this name are equal. An assertion in a function of its own is cheaper to prove.
pub fn same<T: PartialEq>(rt: &impl Abort, name: &str, one: &T, other: &T) {
    assert!(rt; one == other, "{name}");
}

/// A timestamp.
pub fn stamp(rt: &impl Abort, millis: i64) -> Stamp {
    Stamp::new(millis).expect(rt, "a timestamp")
}

/// A text of these bytes.
pub fn text(rt: &impl Abort, alloc: Global, bytes: &[u8]) -> AtomText {
    AtomText::of(alloc, bytes).expect(rt, "a text")
}

/// A text construct of HTML.
pub fn html(rt: &impl Abort, alloc: Global, bytes: &[u8]) -> Text {
    Text {
        kind: TextKind::Html,
        value: text(rt, alloc, bytes),
    }
}

/// A person with all fields, each different.
pub fn person(rt: &impl Abort, alloc: Global) -> Person {
    Person {
        name: text(rt, alloc, b"N"),
        uri: Some(text(rt, alloc, b"U")),
        email: Some(text(rt, alloc, b"E")),
    }
}

/// A link with this relation and no optional field.
pub fn link(rt: &impl Abort, alloc: Global, relation: &[u8]) -> Link {
    Link {
        href: text(rt, alloc, b"http://a/"),
        rel: text(rt, alloc, relation),
        media: None,
        hreflang: None,
        title: None,
        length: None,
    }
}

/// A link with all fields, each different.
pub fn full_link(rt: &impl Abort, alloc: Global) -> Link {
    Link {
        href: text(rt, alloc, b"http://b/"),
        rel: text(rt, alloc, b"via"),
        media: Some(text(rt, alloc, b"text/plain")),
        hreflang: Some(text(rt, alloc, b"fr")),
        title: Some(text(rt, alloc, b"T")),
        length: Some(text(rt, alloc, b"7")),
    }
}

/// A category with all fields, each different.
pub fn category(rt: &impl Abort, alloc: Global) -> Category {
    Category {
        term: text(rt, alloc, b"C"),
        scheme: Some(text(rt, alloc, b"S")),
        label: Some(text(rt, alloc, b"L")),
    }
}

fn persons(rt: &impl Abort, alloc: Global) -> Many<Person, MAX_PERSONS> {
    let mut persons = Many::new(alloc);
    persons.push(person(rt, alloc)).expect(rt, "a person");
    persons
}

fn links(rt: &impl Abort, alloc: Global) -> Many<Link, MAX_LINKS> {
    let mut links = Many::new(alloc);
    links.push(link(rt, alloc, b"edit")).expect(rt, "a link");
    links.push(full_link(rt, alloc)).expect(rt, "a link");
    links
}

fn categories(rt: &impl Abort, alloc: Global) -> Many<Category, MAX_CATEGORIES> {
    let mut categories = Many::new(alloc);
    categories
        .push(category(rt, alloc))
        .expect(rt, "a category");
    categories
}

/// A draft with all fields, each different, whose first link has the relation `edit`.
pub fn full_draft(rt: &impl Abort, alloc: Global) -> Draft {
    Draft {
        id: Some(text(rt, alloc, b"tag:id")),
        title: html(rt, alloc, b"title"),
        updated: Stamp::new(1),
        published: Stamp::new(2),
        authors: persons(rt, alloc),
        contributors: persons(rt, alloc),
        links: links(rt, alloc),
        categories: categories(rt, alloc),
        rights: Some(html(rt, alloc, b"rights")),
        summary: Some(html(rt, alloc, b"summary")),
        content: Some(html(rt, alloc, b"content")),
    }
}
