//! Tests of `archive_sealer` on histories whose documents come from RFC 5005 section 4 and RFC 6721.

use crate::samples::NewSetting::{Title, Window};
use crate::samples::Step::{self, Add, Change, Remove, Set};
use crate::samples::{expect_equal_copy, head, operation};
use archive_sealer::{archive, full_windows, subscription};
use atom_writer::{Doc, Kind};
use deleted_entries::Item;
use member_rules::{Head, Op};
use std::alloc::Global;
use std::process::Abort;

/// A document: its archive's number or 0 for the subscription document, its title, its span, its `prev` and `updated`, and
/// its items: the number and the moment of each. The number of a tombstone is negative.
type Shown = (
    u32,
    &'static [u8],
    (u32, u32),
    u32,
    i64,
    &'static [(i64, i64)],
);

/// The size of the first window, the operations at the moments 1, 2 and so on, and documents of that history.
type Case = (u8, &'static [Step], &'static [Shown]);

static CASES: [Case; 14] = [
    (4, &[], &[(0, b"Feed", (1, 0), 0, 0, &[])]),
    // Only the last version of a member that was changed twice counts.
    (
        100,
        &[Add(1), Add(2), Change(1), Change(2), Change(1)],
        &[(0, b"Feed", (1, 5), 0, 5, &[(1, 5), (2, 4)])],
    ),
    (
        100,
        &[Add(1), Change(1), Change(1), Remove(1)],
        &[(0, b"Feed", (1, 4), 0, 4, &[(-1, 4)])],
    ),
    // A full window stays open until the next operation.
    (
        4,
        &[Add(1), Add(2), Add(3), Add(4)],
        &[(0, b"Feed", (1, 4), 0, 4, &[(4, 4), (3, 3), (2, 2), (1, 1)])],
    ),
    (
        4,
        &[Add(1), Add(2), Add(3), Add(4), Add(5)],
        &[
            (0, b"Feed", (5, 5), 1, 5, &[(5, 5)]),
            (1, b"Feed", (1, 4), 0, 4, &[(4, 4), (3, 3), (2, 2), (1, 1)]),
        ],
    ),
    (
        1,
        &[Add(1), Add(2), Add(3)],
        &[(2, b"Feed", (2, 2), 1, 2, &[(2, 2)])],
    ),
    // A title holds from its operation on. It has no item.
    (
        4,
        &[Add(1), Add(2), Set(Title(b"New")), Add(3), Add(4)],
        &[
            (0, b"New", (5, 5), 1, 5, &[(4, 5)]),
            (1, b"New", (1, 4), 0, 4, &[(3, 4), (2, 2), (1, 1)]),
        ],
    ),
    (
        4,
        &[
            Add(1),
            Add(2),
            Set(Title(b"New")),
            Add(3),
            Add(4),
            Set(Title(b"Next")),
        ],
        &[
            (0, b"Next", (5, 6), 1, 6, &[(4, 5)]),
            (1, b"New", (1, 4), 0, 4, &[(3, 4), (2, 2), (1, 1)]),
        ],
    ),
    (
        1,
        &[Set(Title(b"x")), Set(Title(b"y"))],
        &[(0, b"y", (2, 2), 1, 2, &[]), (1, b"x", (1, 1), 0, 1, &[])],
    ),
    // The title that seals a window isn't in the window's archive.
    (
        2,
        &[Add(1), Add(2), Set(Title(b"New"))],
        &[
            (0, b"New", (3, 3), 1, 3, &[]),
            (1, b"Feed", (1, 2), 0, 2, &[(2, 2), (1, 1)]),
        ],
    ),
    // A size holds from the next window on.
    (
        2,
        &[Add(1), Set(Window(3)), Add(2), Add(3), Add(4), Add(5)],
        &[
            (0, b"Feed", (6, 6), 2, 6, &[(5, 6)]),
            (1, b"Feed", (1, 2), 0, 2, &[(1, 1)]),
            (2, b"Feed", (3, 5), 1, 5, &[(4, 5), (3, 4), (2, 3)]),
        ],
    ),
    (
        4,
        &[Add(1), Set(Window(1)), Add(2)],
        &[(0, b"Feed", (1, 3), 0, 3, &[(2, 3), (1, 1)])],
    ),
    (
        4,
        &[Add(1), Set(Window(1)), Add(2), Add(3), Add(4), Add(5)],
        &[
            (0, b"Feed", (6, 6), 2, 6, &[(5, 6)]),
            (1, b"Feed", (1, 4), 0, 4, &[(3, 4), (2, 3), (1, 1)]),
            (2, b"Feed", (5, 5), 1, 5, &[(4, 5)]),
        ],
    ),
    // The last of two sizes in a window counts. A size that seals a window is in the next one.
    (
        1,
        &[
            Add(1),
            Set(Window(3)),
            Add(2),
            Set(Window(2)),
            Set(Window(1)),
            Remove(2),
        ],
        &[
            (0, b"Feed", (6, 6), 3, 6, &[(-2, 6)]),
            (1, b"Feed", (1, 1), 0, 1, &[(1, 1)]),
            (2, b"Feed", (2, 2), 1, 2, &[]),
            (3, b"Feed", (3, 5), 2, 5, &[(2, 3)]),
        ],
    ),
];

/// The operations of the steps, at the moments 1, 2 and so on.
fn history(rt: &impl Abort, alloc: Global, steps: &[Step]) -> Vec<Op> {
    let mut operations = Vec::new(alloc);
    let mut at = 0i64;
    for step in steps {
        at = at.saturating_add(1);
        let operation = operation(rt, alloc, *step, at, at);
        operations.push(operation).expect(rt, "memory");
    }
    operations
}

/// The document with this number, or the subscription document if it is 0.
fn document(rt: &impl Abort, alloc: Global, head: &Head, history: &[Op], number: u32) -> Doc {
    assert!(rt; history.len() <= 256);
    let made = if number == 0 {
        subscription(alloc, head, history)
    } else {
        assert!(rt; number <= full_windows(head, history));
        archive(alloc, head, history, number)
    };
    made.expect(rt, "memory")
}

/// Compares a document.
fn expect_doc(rt: &impl Abort, doc: &Doc, (number, title, span, prev, updated, items): &Shown) {
    let kind = match *number {
        0 => Kind::Subscription,
        number => Kind::Archive(number),
    };
    assert!(rt; doc.kind == kind && doc.name.title.bytes() == *title && doc.prev == *prev);
    assert!(rt;
        doc.span.first == span.0 && doc.span.last == span.1,
        "{}",
        span.1
    );
    let shown = doc.items.as_slice();
    assert!(rt;
        doc.updated.millis() == *updated && shown.len() == items.len(),
        "{}",
        span.1
    );
    for (item, (number, moment)) in shown.iter().zip(items.iter()) {
        let (named, changed) = match item {
            Item::Kept(entry) => (i64::from(entry.number), entry.edited.millis()),
            Item::Gone(gone) => (-i64::from(gone.number), gone.when.millis()),
        };
        assert!(rt;
            named == *number && changed == *moment,
            "{number} at {moment}"
        );
    }
}

/// Compares the documents of a history.
fn expect_case(rt: &impl Abort, alloc: Global, (window, steps, documents): &Case) {
    let head = head(rt, alloc, *window);
    expect_equal_copy(rt, alloc, &head);
    let history = history(rt, alloc, steps);
    for shown in *documents {
        let doc = document(rt, alloc, &head, history.as_slice(), shown.0);
        expect_doc(rt, &doc, shown);
        drop(doc);
    }
    drop((head, history));
}

#[test]
fn documents_of_histories(rt: HostRuntime) {
    for case in &CASES {
        expect_case(&rt, rt.alloc(), case);
    }
}
