//! What a mirror shows doesn't depend on the order in which the documents came, nor on the best documents before.

ghost use Rattle.std.specs.Prelude.{◌≡◌, false};
ghost use Rattle.mirror_walk.specs.Mirror.{StandsFor, is_spent};

use crate::areas::{CAPACITY, disk_of};
use crate::courses::Act::{Show, Titles};
use crate::courses::{Course, EMPTY, Found, follow};
use crate::documents::{BASE, FEED, Given, ID, Made, ONE, Origin, THREE, TWO, base, bytes_of};
use crate::mirrors::{entries, offer, outcome};
use Given::{Archive, Version};
use Origin::{Letters, Turns};
use atom_writer::Kind;
use feed_disk::Disk;
use mirror_walk::Mirror;
use std::alloc::Global;
use std::process::Abort;

/// Four documents of a feed, which are offered in each order.
struct Case {
    documents: &'static [Found],
    /// The index of a document, and what a mirror without it shows: whether it wants a document, whether it has a
    /// subscription document, the outcome and the titles. The first that is missing counts.
    lacking: &'static [(usize, &'static str)],
    /// What a mirror shows that lacks none of these.
    complete: &'static str,
}

static CASES: [Case; 3] = [
    Case {
        documents: &[
            (FEED, Version(Letters, 5)),
            (ONE, Archive(Letters, 1)),
            (TWO, Archive(Letters, 2)),
            (THREE, Archive(Letters, 3)),
        ],
        lacking: &[
            (0, "Taken, Some(Feed) false, Missing Feed, "),
            (1, "Taken, Some(Archive(1)) true, Missing Archive(1), "),
        ],
        complete: "Taken, None true, Complete 5 5, abcde",
    },
    Case {
        documents: &[
            (FEED, Version(Letters, 13)),
            (ONE, Archive(Letters, 1)),
            (TWO, Archive(Letters, 2)),
            (THREE, Archive(Letters, 3)),
        ],
        lacking: LACKING,
        complete: "Taken, None true, Complete 13 13, abcdefghijklm",
    },
    Case {
        documents: &[
            (FEED, Version(Turns, 13)),
            (ONE, Archive(Turns, 1)),
            (TWO, Archive(Turns, 2)),
            (THREE, Archive(Turns, 3)),
        ],
        lacking: LACKING,
        complete: "Taken, None true, Complete 13 5, CDEfg",
    },
];

/// A subscription document needs the three archives.
const LACKING: &[(usize, &str)] = &[
    (0, "Taken, Some(Feed) false, Missing Feed, "),
    (3, "Taken, Some(Archive(3)) true, Missing Archive(3), "),
    (2, "Taken, Some(Archive(2)) true, Missing Archive(2), "),
    (1, "Taken, Some(Archive(1)) true, Missing Archive(1), "),
];

static ORDERS: [[usize; 4]; 24] = [
    [0, 1, 2, 3],
    [0, 1, 3, 2],
    [0, 2, 1, 3],
    [0, 2, 3, 1],
    [0, 3, 1, 2],
    [0, 3, 2, 1],
    [1, 0, 2, 3],
    [1, 0, 3, 2],
    [1, 2, 0, 3],
    [1, 2, 3, 0],
    [1, 3, 0, 2],
    [1, 3, 2, 0],
    [2, 0, 1, 3],
    [2, 0, 3, 1],
    [2, 1, 0, 3],
    [2, 1, 3, 0],
    [2, 3, 0, 1],
    [2, 3, 1, 0],
    [3, 0, 1, 2],
    [3, 0, 2, 1],
    [3, 1, 0, 2],
    [3, 1, 2, 0],
    [3, 2, 0, 1],
    [3, 2, 1, 0],
];

/// What a mirror shows that was offered these documents.
fn shown_after(case: &Case, offered: &[usize]) -> &'static str {
    for (index, shown) in case.lacking {
        if !offered.contains(index) {
            return shown;
        }
    }
    case.complete
}

/// Offers the documents of a case in an order to the mirror of an empty disk, and compares what it shows after each.
fn expect_order<D: Disk>(
    rt: &impl Abort,
    alloc: Global,
    disk: &mut D,
    case: &Case,
    order: &[usize; 4],
) {
    let base = base(rt, alloc, BASE);
    let mut mirror = Mirror::load(alloc, disk, base, CAPACITY).expect(rt, "a mirror");
    let mut offered = Vec::new(alloc);
    for index in order {
        let (address, given) = case.documents.get(*index).expect(rt, "a document");
        let bytes = bytes_of(rt, alloc, given);
        assert!(rt; !mirror.is_spent());
        let answer = offer(rt, alloc, &mut mirror, disk, address, &bytes);
        assert!(rt; !mirror.is_spent());
        let (wanted, has_best) = (mirror.wanted(), mirror.best().is_some());
        let outcome = outcome(rt, alloc, &mut mirror);
        let titles = entries(rt, alloc, &mut mirror, disk, None);
        let shown = format!(in alloc; "{answer}, {wanted:?} {has_best}, {outcome}, {titles}");
        offered.push(*index).expect(rt, "memory");
        assert!(rt;
            shown.expect(rt, "memory").as_str() == shown_after(case, &offered),
            "{order:?}"
        );
    }
    drop(mirror);
}

#[test]
fn the_order_of_the_documents_does_not_matter(rt: HostRuntime) {
    for case in &CASES {
        for order in &ORDERS {
            let mut disk = disk_of(&rt, rt.alloc(), &[], 0);
            expect_order(&rt, rt.alloc(), &mut disk, case, order);
            drop(disk);
        }
    }
}

/// A subscription document that covers operations 5 to 14, comes after archive 1 and shows the third member alone.
const SHORT: Made = Made {
    base: BASE,
    id: ID,
    kind: Kind::Subscription,
    first: 5,
    last: 14,
    prev: 1,
    moment: 99,
    entry: Some((3, b'X')),
};

static FEWER: [Course; 1] = [Course {
    steps: &[
        (Show(ONE, Archive(Turns, 1)), "Taken, Missing Feed"),
        (Titles, ""),
        (Show(TWO, Archive(Turns, 2)), "Taken, Missing Feed"),
        (Titles, ""),
        (Show(THREE, Archive(Turns, 3)), "Taken, Missing Feed"),
        (Titles, ""),
        (Show(FEED, Version(Turns, 13)), "Taken, Complete 13 5"),
        (Titles, "CDEfg"),
        // The chain of this document has archive 1 alone. The members that archives 2 and 3 removed are live again.
        (Show(FEED, Given::Made(SHORT)), "Taken, Complete 14 4"),
        (Titles, "abXd"),
        (Show(FEED, Version(Turns, 15)), "Taken, Complete 15 4"),
        (Titles, "DEFg"),
    ],
    ..EMPTY
}];

#[test]
fn a_new_best_document_may_need_fewer_archives(rt: HostRuntime) {
    follow(&rt, rt.alloc(), &FEWER);
}
