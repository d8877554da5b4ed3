//! A draft as text, so that a test compares it at once.

use atom_values::{AtomText, Draft, Person, Stamp, Text, TextKind};
use std::alloc::Global;
use std::process::Abort;

/// Appends the pieces.
fn push(rt: &impl Abort, out: &mut Vec<u8>, pieces: &[&[u8]]) {
    for piece in pieces {
        out.extend_from_slice(piece).expect(rt, "memory");
    }
}

/// Appends an optional text between two others.
fn push_optional(
    rt: &impl Abort,
    out: &mut Vec<u8>,
    before: &[u8],
    text: &Option<AtomText>,
    behind: &[u8],
) {
    if let Some(text) = text {
        push(rt, out, &[before, text.bytes(), behind]);
    }
}

/// Appends a text construct, if it is there.
fn push_construct(rt: &impl Abort, out: &mut Vec<u8>, name: &[u8], text: Option<&Text>) {
    if let Some(text) = text {
        let kind: &[u8] = match text.kind {
            TextKind::Plain => b" text ",
            TextKind::Html => b" html ",
        };
        push(rt, out, &[name, kind, text.value.bytes(), b"\n"]);
    }
}

/// Appends a timestamp, if it is there.
fn push_stamp(rt: &impl Abort, out: &mut Vec<u8>, name: &[u8], stamp: Option<Stamp>) {
    if let Some(stamp) = stamp {
        let mut room = [0; 24];
        let length = stamp.print(&mut room);
        push(rt, out, &[name, &room[..length], b"\n"]);
    }
}

/// Appends persons.
fn push_persons(rt: &impl Abort, out: &mut Vec<u8>, name: &[u8], persons: &[Person]) {
    for person in persons {
        push(rt, out, &[name, person.name.bytes()]);
        push_optional(rt, out, b" (", &person.uri, b")");
        push_optional(rt, out, b" [", &person.email, b"]");
        push(rt, out, &[b"\n"]);
    }
}

/// Appends the links.
fn push_links(rt: &impl Abort, out: &mut Vec<u8>, draft: &Draft) {
    for link in draft.links.as_slice() {
        push(
            rt,
            out,
            &[b"link ", link.href.bytes(), b" ", link.rel.bytes()],
        );
        push_optional(rt, out, b" type=", &link.media, b"");
        push_optional(rt, out, b" hreflang=", &link.hreflang, b"");
        push_optional(rt, out, b" title=", &link.title, b"");
        push_optional(rt, out, b" length=", &link.length, b"");
        push(rt, out, &[b"\n"]);
    }
}

/// Appends the categories.
fn push_categories(rt: &impl Abort, out: &mut Vec<u8>, draft: &Draft) {
    for category in draft.categories.as_slice() {
        push(rt, out, &[b"category ", category.term.bytes()]);
        push_optional(rt, out, b" scheme=", &category.scheme, b"");
        push_optional(rt, out, b" label=", &category.label, b"");
        push(rt, out, &[b"\n"]);
    }
}

/// The draft as text, with a line for each field that is there and for each item of a list.
pub fn shown(rt: &impl Abort, alloc: Global, draft: &Draft) -> Vec<u8> {
    let mut out = Vec::new(alloc);
    push_optional(rt, &mut out, b"id ", &draft.id, b"\n");
    push_construct(rt, &mut out, b"title", Some(&draft.title));
    push_stamp(rt, &mut out, b"updated ", draft.updated);
    push_stamp(rt, &mut out, b"published ", draft.published);
    push_persons(rt, &mut out, b"author ", draft.authors.as_slice());
    push_persons(rt, &mut out, b"contributor ", draft.contributors.as_slice());
    push_links(rt, &mut out, draft);
    push_categories(rt, &mut out, draft);
    push_construct(rt, &mut out, b"rights", draft.rights.as_ref());
    push_construct(rt, &mut out, b"summary", draft.summary.as_ref());
    push_construct(rt, &mut out, b"content", draft.content.as_ref());
    out
}
