//! Walks of a mirror over a source in memory: the feed has windows of four operations and 21 members.

use crate::areas::CLOSED;
use crate::areas::Piece::Frame;
use crate::courses::Act::Walk;
use crate::courses::{Course, EMPTY, Found, follow};
use crate::documents::{FEED, FIVE, FOUR, Given, ONE, Origin, THREE, TWO};
use Given::{Archive, Plain, Version};
use Origin::{Letters, Stranger};

/// All documents of the feed.
pub const ALL: &[Found] = &[
    (FEED, Version(Letters, 21)),
    (ONE, Archive(Letters, 1)),
    (TWO, Archive(Letters, 2)),
    (THREE, Archive(Letters, 3)),
    (FOUR, Archive(Letters, 4)),
    (FIVE, Archive(Letters, 5)),
];

/// A mirror that holds nothing. Its area has a closed gate.
const NEW: Course = Course {
    area: &[CLOSED],
    ..EMPTY
};

/// Each get fails in turn, and a second walk goes on.
static FAILING: [Course; 7] = [
    Course {
        steps: &[
            (
                Walk(ALL, 0),
                "feed archive/5 archive/4 archive/3 archive/2 archive/1: 6 6 0 0 Complete 21 21",
            ),
            (Walk(ALL, 0), "feed: 1 0 1 0 Complete 21 21"),
        ],
        ..NEW
    },
    Course {
        steps: &[
            (Walk(ALL, 1), "feed: fetch fault"),
            (
                Walk(ALL, 0),
                "feed archive/5 archive/4 archive/3 archive/2 archive/1: 6 6 0 0 Complete 21 21",
            ),
        ],
        ..NEW
    },
    Course {
        steps: &[
            (Walk(ALL, 2), "feed archive/5: fetch fault"),
            (
                Walk(ALL, 0),
                "feed archive/5 archive/4 archive/3 archive/2 archive/1: 6 5 1 0 Complete 21 21",
            ),
        ],
        ..NEW
    },
    Course {
        steps: &[
            (Walk(ALL, 3), "feed archive/5 archive/4: fetch fault"),
            (
                Walk(ALL, 0),
                "feed archive/4 archive/3 archive/2 archive/1: 5 4 1 0 Complete 21 21",
            ),
        ],
        ..NEW
    },
    Course {
        steps: &[
            (
                Walk(ALL, 4),
                "feed archive/5 archive/4 archive/3: fetch fault",
            ),
            (
                Walk(ALL, 0),
                "feed archive/3 archive/2 archive/1: 4 3 1 0 Complete 21 21",
            ),
        ],
        ..NEW
    },
    Course {
        steps: &[
            (
                Walk(ALL, 5),
                "feed archive/5 archive/4 archive/3 archive/2: fetch fault",
            ),
            (
                Walk(ALL, 0),
                "feed archive/2 archive/1: 3 2 1 0 Complete 21 21",
            ),
        ],
        ..NEW
    },
    Course {
        steps: &[
            (
                Walk(ALL, 6),
                "feed archive/5 archive/4 archive/3 archive/2 archive/1: fetch fault",
            ),
            (Walk(ALL, 0), "feed archive/1: 2 1 1 0 Complete 21 21"),
        ],
        ..NEW
    },
];

const LACKING: &[Found] = &[
    (FEED, Version(Letters, 21)),
    (FIVE, Archive(Letters, 5)),
    (FOUR, Archive(Letters, 4)),
    (TWO, Archive(Letters, 2)),
];

const STRANGE_ARCHIVE: &[Found] = &[
    (FEED, Version(Letters, 21)),
    (FIVE, Archive(Letters, 5)),
    (FOUR, Archive(Stranger, 4)),
    (THREE, Archive(Letters, 3)),
];

const STRANGE_FEED: &[Found] = &[(FEED, Version(Stranger, 21)), (FIVE, Archive(Letters, 5))];

const BROKEN: &[Found] = &[(FEED, Version(Letters, 21)), (FIVE, Plain(b"<?xml"))];

const OLDER: &[Found] = &[
    (FEED, Version(Letters, 20)),
    (ONE, Archive(Letters, 1)),
    (TWO, Archive(Letters, 2)),
    (THREE, Archive(Letters, 3)),
    (FOUR, Archive(Letters, 4)),
];

const OLD: &[Found] = &[(FEED, Version(Letters, 9)), (THREE, Archive(Letters, 3))];

const NEEDED: &[Found] = &[(FEED, Version(Letters, 9)), (TWO, Archive(Letters, 2))];

/// Walks that end early, or over a mirror that holds documents.
static ENDING: [Course; 10] = [
    // The source lacks a document.
    Course {
        steps: &[
            (Walk(&[], 0), "feed: 1 0 0 0 Missing Feed"),
            (Walk(&[], 0), "feed: 1 0 0 0 Missing Feed"),
        ],
        ..NEW
    },
    Course {
        steps: &[
            (
                Walk(LACKING, 0),
                "feed archive/5 archive/4 archive/3: 4 3 0 0 Missing Archive(3)",
            ),
            (
                Walk(LACKING, 0),
                "feed archive/3: 2 0 1 0 Missing Archive(3)",
            ),
        ],
        ..NEW
    },
    // The mirror refuses a document.
    Course {
        steps: &[
            (
                Walk(STRANGE_ARCHIVE, 0),
                "feed archive/5 archive/4: 3 2 0 0 Archive(4) WrongFeed 6d 7e Missing Archive(4)",
            ),
            (
                Walk(STRANGE_ARCHIVE, 0),
                "feed archive/4: 2 0 1 0 Archive(4) WrongFeed 6d 7e Missing Archive(4)",
            ),
        ],
        ..NEW
    },
    Course {
        area: &[Frame(Archive(Letters, 1)), CLOSED],
        steps: &[
            (
                Walk(STRANGE_FEED, 0),
                "feed: 1 0 0 0 Feed WrongFeed 6d 7e Missing Feed",
            ),
            (
                Walk(STRANGE_FEED, 0),
                "feed: 1 0 0 0 Feed WrongFeed 6d 7e Missing Feed",
            ),
        ],
        ..NEW
    },
    Course {
        steps: &[
            (
                Walk(BROKEN, 0),
                "feed archive/5: 2 1 0 0 Archive(5) NotADocument 0 Missing Archive(5)",
            ),
            (
                Walk(BROKEN, 0),
                "feed archive/5: 2 0 1 0 Archive(5) NotADocument 0 Missing Archive(5)",
            ),
        ],
        ..NEW
    },
    // The feed's document is older than the one that is held.
    Course {
        area: &[Frame(Version(Letters, 21)), CLOSED],
        steps: &[
            (Walk(OLDER, 0), "feed archive/5: 2 0 0 1 Missing Archive(5)"),
            (Walk(OLDER, 0), "feed archive/5: 2 0 0 1 Missing Archive(5)"),
        ],
        ..NEW
    },
    Course {
        area: &[
            Frame(Version(Letters, 21)),
            Frame(Archive(Letters, 5)),
            Frame(Archive(Letters, 4)),
            Frame(Archive(Letters, 2)),
            Frame(Archive(Letters, 1)),
            CLOSED,
        ],
        steps: &[
            (Walk(OLD, 0), "feed archive/3: 2 1 0 1 Complete 21 21"),
            (Walk(OLD, 0), "feed: 1 0 0 1 Complete 21 21"),
        ],
        ..NEW
    },
    // The feed's document is newer, and needs archives that aren't held.
    Course {
        area: &[
            Frame(Version(Letters, 9)),
            Frame(Archive(Letters, 2)),
            Frame(Archive(Letters, 1)),
            CLOSED,
        ],
        steps: &[
            (
                Walk(ALL, 0),
                "feed archive/5 archive/4 archive/3: 4 4 0 0 Complete 21 21",
            ),
            (Walk(ALL, 0), "feed: 1 0 1 0 Complete 21 21"),
        ],
        ..NEW
    },
    // It needs fewer archives than are held.
    Course {
        area: &[
            Frame(Archive(Letters, 5)),
            Frame(Archive(Letters, 1)),
            CLOSED,
        ],
        steps: &[
            (Walk(NEEDED, 0), "feed archive/2: 2 2 0 0 Complete 9 9"),
            (Walk(NEEDED, 0), "feed: 1 0 1 0 Complete 9 9"),
        ],
        ..NEW
    },
    // The subscription document has 821 bytes, and archives 4 and 5 have 1,714 each.
    Course {
        capacity: 4_096,
        steps: &[
            (
                Walk(ALL, 0),
                "feed archive/5 archive/4: no room for 1719 bytes after the 2546 of the mirror area, of 4096",
            ),
            (
                Walk(ALL, 0),
                "feed archive/4: no room for 1719 bytes after the 2546 of the mirror area, of 4096",
            ),
        ],
        ..NEW
    },
];

#[test]
fn after_a_failed_get_a_second_walk_goes_on(rt: HostRuntime) {
    follow(&rt, rt.alloc(), &FAILING);
}

#[test]
fn a_walk_ends_where_the_source_has_no_document_to_take(rt: HostRuntime) {
    follow(&rt, rt.alloc(), &ENDING);
}
