//! Documents without items: those that a mirror refuses, and those that lead there.

use crate::courses::Act::{Offer, Show};
use crate::courses::{Course, EMPTY, follow};
use crate::documents::Given::{Made as Of, Plain};
use crate::documents::{BASE, FEED, ID, Made, ONE, OTHER_ID, THREE, TWO};
use Kind::{Archive, Subscription};
use atom_writer::Kind;

const ARCHIVE: Made = Made {
    base: BASE,
    id: ID,
    kind: Archive(1),
    first: 1,
    last: 4,
    prev: 0,
    moment: 0,
    entry: None,
};

const SUBSCRIPTION: Made = Made {
    kind: Subscription,
    ..ARCHIVE
};

const SECOND: Made = Made {
    kind: Archive(2),
    first: 5,
    last: 8,
    prev: 1,
    ..ARCHIVE
};

const OTHER_ADDRESS: &str = "http://other.example/archive/1";

static REFUSED: [Course; 3] = [
    // Documents with another address or of another feed.
    Course {
        steps: &[
            (
                Show(FEED, Of(ARCHIVE)),
                "WrongAddress http://feed.example/archive/1, Missing Feed",
            ),
            (
                Show(
                    OTHER_ADDRESS,
                    Of(Made {
                        base: "http://other.example/",
                        ..ARCHIVE
                    }),
                ),
                "WrongAddress http://other.example/archive/1, Missing Feed",
            ),
            (Show(ONE, Of(ARCHIVE)), "Taken, Missing Feed"),
            // The feed is compared before the digest.
            (
                Show(
                    ONE,
                    Of(Made {
                        id: OTHER_ID,
                        ..ARCHIVE
                    }),
                ),
                "WrongFeed 6d 7e, Missing Feed",
            ),
            (
                Show(
                    FEED,
                    Of(Made {
                        id: OTHER_ID,
                        ..SUBSCRIPTION
                    }),
                ),
                "WrongFeed 6d 7e, Missing Feed",
            ),
        ],
        ..EMPTY
    },
    // Documents that don't adjoin their neighbours, and others in the place of a held one.
    Course {
        steps: &[
            (Show(ONE, Of(ARCHIVE)), "Taken, Missing Feed"),
            (
                Show(TWO, Of(Made { first: 6, ..SECOND })),
                "Break 4 6, Missing Feed",
            ),
            (
                Show(
                    FEED,
                    Of(Made {
                        first: 10,
                        last: 11,
                        prev: 2,
                        ..SUBSCRIPTION
                    }),
                ),
                "Taken, Missing Archive(2)",
            ),
            // The best document doesn't need archive 3.
            (
                Show(
                    THREE,
                    Of(Made {
                        kind: Archive(3),
                        first: 9,
                        last: 9,
                        prev: 2,
                        ..ARCHIVE
                    }),
                ),
                "Taken, Missing Archive(2)",
            ),
            (
                Show(TWO, Of(Made { last: 9, ..SECOND })),
                "Break 9 9, Missing Archive(2)",
            ),
            (Show(TWO, Of(SECOND)), "Break 8 10, Missing Archive(2)"),
            (
                Show(
                    FEED,
                    Of(Made {
                        first: 9,
                        last: 11,
                        prev: 1,
                        ..SUBSCRIPTION
                    }),
                ),
                "Conflict Feed 0d2c4c6c 1f1d17ba, Missing Archive(2)",
            ),
            (
                Show(
                    FEED,
                    Of(Made {
                        first: 9,
                        last: 12,
                        prev: 1,
                        ..SUBSCRIPTION
                    }),
                ),
                "Break 4 9, Missing Archive(2)",
            ),
            (
                Show(
                    FEED,
                    Of(Made {
                        first: 5,
                        last: 12,
                        prev: 1,
                        ..SUBSCRIPTION
                    }),
                ),
                "Taken, Complete 12 0",
            ),
            (
                Show(
                    FEED,
                    Of(Made {
                        first: 10,
                        last: 13,
                        prev: 3,
                        ..SUBSCRIPTION
                    }),
                ),
                "Taken, Missing Archive(2)",
            ),
            (Show(TWO, Of(SECOND)), "Taken, Complete 13 0"),
            (
                Show(TWO, Of(Made { last: 7, ..SECOND })),
                "Conflict Archive(2) 1888305f 7bf9752e, Complete 13 0",
            ),
            (
                Show(
                    FEED,
                    Of(Made {
                        first: 10,
                        last: 11,
                        prev: 2,
                        ..SUBSCRIPTION
                    }),
                ),
                "Stale, Complete 13 0",
            ),
        ],
        ..EMPTY
    },
    // Other bytes.
    Course {
        steps: &[(Offer(FEED, Plain(b"<?xml")), "NotADocument 0")],
        ..EMPTY
    },
];

#[test]
fn a_mirror_refuses_documents_that_contradict_its_own(rt: HostRuntime) {
    follow(&rt, rt.alloc(), &REFUSED);
}
