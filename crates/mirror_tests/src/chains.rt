//! Offers of the chain of a feed with thirteen members, one for each letter from `a` to `m`.

use crate::courses::Act::{Offer, Show, Told};
use crate::courses::{Course, EMPTY, follow};
use crate::documents::{FEED, Given, ONE, Origin, THREE, TWO};
use Given::{Archive, Version};
use Origin::{Changed, Letters};

/// Documents come in any order, and some of them twice.
pub const MIXED: Course = Course {
    steps: &[
        (
            Show(FEED, Version(Letters, 13)),
            "Taken, Missing Archive(3)",
        ),
        (
            Show(THREE, Archive(Letters, 3)),
            "Taken, Missing Archive(2)",
        ),
        (Show(ONE, Archive(Letters, 1)), "Taken, Missing Archive(2)"),
        (Show(ONE, Archive(Letters, 1)), "Known, Missing Archive(2)"),
        (
            Show(THREE, Archive(Letters, 3)),
            "Known, Missing Archive(2)",
        ),
        (
            Show(FEED, Version(Letters, 13)),
            "Known, Missing Archive(2)",
        ),
        (Show(FEED, Version(Letters, 0)), "Stale, Missing Archive(2)"),
        (Show(TWO, Archive(Letters, 2)), "Taken, Complete 13 13"),
    ],
    ..EMPTY
};

/// Chains of documents, which are all taken or known, or contradict another one.
pub static CHAINS: [Course; 3] = [
    MIXED,
    // The feed has no operations at first.
    Course {
        steps: &[
            (Show(FEED, Version(Letters, 0)), "Taken, Complete 0 0"),
            (Show(FEED, Version(Letters, 4)), "Taken, Complete 4 4"),
            (Show(FEED, Version(Letters, 9)), "Taken, Missing Archive(2)"),
        ],
        ..EMPTY
    },
    // The archives come before any subscription document. The first of two documents is kept.
    Course {
        steps: &[
            (Show(ONE, Archive(Letters, 1)), "Taken, Missing Feed"),
            (Show(TWO, Archive(Letters, 2)), "Taken, Missing Feed"),
            (Show(THREE, Archive(Letters, 3)), "Taken, Missing Feed"),
            // The first five operations need archive 1 alone.
            (Show(FEED, Version(Letters, 5)), "Taken, Complete 5 5"),
            (Show(ONE, Archive(Changed, 1)), "Known, Complete 5 5"),
            (
                Show(TWO, Archive(Changed, 2)),
                "Conflict Archive(2) 51ebf121 638a8e81, Complete 5 5",
            ),
            (
                Show(FEED, Version(Changed, 5)),
                "Conflict Feed 6cd82d65 00d38a9a, Complete 5 5",
            ),
            (Show(TWO, Archive(Letters, 2)), "Known, Complete 5 5"),
            (Show(FEED, Version(Letters, 5)), "Known, Complete 5 5"),
            (Show(FEED, Version(Letters, 4)), "Stale, Complete 5 5"),
            (Show(FEED, Version(Letters, 13)), "Taken, Complete 13 13"),
        ],
        ..EMPTY
    },
];

#[test]
fn a_mirror_is_complete_once_no_document_is_missing(rt: HostRuntime) {
    follow(&rt, rt.alloc(), &CHAINS);
}

static TOLD: [Course; 1] = [Course {
    steps: &[
        (Offer(ONE, Archive(Letters, 1)), "Taken"),
        (Told, "Some(Feed) None - - ddd3d803 - -"),
        (Offer(FEED, Version(Letters, 5)), "Taken"),
        (Told, "None Some((5, 5, 1)) Feed 6cd82d65 ddd3d803 - -"),
        (Offer(FEED, Version(Letters, 13)), "Taken"),
        (
            Told,
            "Some(Archive(3)) Some((13, 13, 3)) Feed e205f39f ddd3d803 - -",
        ),
    ],
    ..EMPTY
}];

#[test]
fn a_mirror_tells_what_it_holds(rt: HostRuntime) {
    follow(&rt, rt.alloc(), &TOLD);
}
