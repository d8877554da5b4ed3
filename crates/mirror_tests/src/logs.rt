//! The area of a mirror: the frames of the documents that were taken, in order, and which areas load.

use crate::areas::CLOSED;
use crate::areas::Piece::{Cut, Frame, Raw};
use crate::courses::Act::{Offer, Outcome};
use crate::courses::{Course, EMPTY, follow};
use crate::documents::{FEED, Given, ONE, Origin, THREE, TWO};
use Given::{Archive, Plain, Version};
use Origin::{Changed, Letters};

/// Documents that are offered to a mirror whose area has a capacity. The subscription document after thirteen
/// operations has 821 bytes, archive 3 has 1,712 and archive 1 has 1,644. A frame has 5 bytes more, and after the last
/// one there is a closed gate.
static TAKEN: [Course; 7] = [
    Course {
        steps: &[(Outcome, "Missing Feed")],
        left: &[CLOSED],
        ..EMPTY
    },
    Course {
        steps: &[
            (Offer(TWO, Archive(Letters, 2)), "Taken"),
            (Offer(TWO, Archive(Letters, 2)), "Known"),
            (Offer(FEED, Version(Letters, 5)), "Taken"),
            (Offer(FEED, Version(Letters, 13)), "Taken"),
            (Offer(FEED, Version(Letters, 5)), "Stale"),
            (Offer(ONE, Archive(Letters, 1)), "Taken"),
            (Offer(FEED, Version(Letters, 13)), "Known"),
            (Offer(THREE, Archive(Letters, 3)), "Taken"),
            (Outcome, "Complete 13 13"),
        ],
        left: &[
            Frame(Archive(Letters, 2)),
            Frame(Version(Letters, 5)),
            Frame(Version(Letters, 13)),
            Frame(Archive(Letters, 1)),
            Frame(Archive(Letters, 3)),
            CLOSED,
        ],
        ..EMPTY
    },
    // After a document that doesn't fit, a smaller one does. Known and stale documents need no room.
    Course {
        capacity: 4_096,
        steps: &[
            (Offer(FEED, Version(Letters, 13)), "Taken"),
            (Offer(THREE, Archive(Letters, 3)), "Taken"),
            (Offer(ONE, Archive(Letters, 1)), "Full 2544 1649 4096"),
            (Offer(THREE, Archive(Letters, 3)), "Known"),
            (Offer(FEED, Version(Letters, 5)), "Stale"),
            (Offer(FEED, Version(Letters, 13)), "Known"),
            (Offer(FEED, Version(Letters, 14)), "Taken"),
            (Offer(FEED, Version(Letters, 13)), "Stale"),
            (Outcome, "Missing Archive(2)"),
        ],
        left: &[
            Frame(Version(Letters, 13)),
            Frame(Archive(Letters, 3)),
            Frame(Version(Letters, 14)),
            CLOSED,
        ],
        ..EMPTY
    },
    Course {
        capacity: 4_192,
        steps: &[
            (Offer(FEED, Version(Letters, 13)), "Taken"),
            (Offer(THREE, Archive(Letters, 3)), "Taken"),
            (Offer(ONE, Archive(Letters, 1)), "Full 2544 1649 4192"),
            (Outcome, "Missing Archive(2)"),
        ],
        left: &[
            Frame(Version(Letters, 13)),
            Frame(Archive(Letters, 3)),
            CLOSED,
        ],
        ..EMPTY
    },
    Course {
        capacity: 4_193,
        steps: &[
            (Offer(FEED, Version(Letters, 13)), "Taken"),
            (Offer(THREE, Archive(Letters, 3)), "Taken"),
            (Offer(ONE, Archive(Letters, 1)), "Taken"),
            (Outcome, "Missing Archive(2)"),
        ],
        left: &[
            Frame(Version(Letters, 13)),
            Frame(Archive(Letters, 3)),
            Frame(Archive(Letters, 1)),
            CLOSED,
        ],
        ..EMPTY
    },
    Course {
        capacity: 0,
        steps: &[
            (Offer(FEED, Version(Letters, 13)), "Full 1 826 0"),
            (Outcome, "Missing Feed"),
        ],
        left: &[CLOSED],
        ..EMPTY
    },
    Course {
        capacity: 827,
        steps: &[
            (Offer(FEED, Version(Letters, 13)), "Taken"),
            (Offer(THREE, Archive(Letters, 3)), "Full 827 1717 827"),
            (Outcome, "Missing Archive(3)"),
        ],
        left: &[Frame(Version(Letters, 13)), CLOSED],
        ..EMPTY
    },
];

#[test]
fn the_area_has_the_documents_that_were_taken(rt: HostRuntime) {
    follow(&rt, rt.alloc(), &TAKEN);
}

const OTHER_BASE: &str = "http://other.example/";

/// Areas, and the outcome of the mirror that is loaded from them or the fault of the load.
static LOADED: [Course; 25] = [
    // A load doesn't look at the capacity.
    Course {
        capacity: 0,
        area: &[CLOSED],
        steps: &[(Outcome, "Missing Feed")],
        ..EMPTY
    },
    Course {
        capacity: 0,
        area: &[
            Frame(Archive(Letters, 2)),
            Frame(Version(Letters, 5)),
            Frame(Version(Letters, 13)),
            Frame(Archive(Letters, 1)),
            Frame(Archive(Letters, 3)),
            CLOSED,
        ],
        steps: &[(Outcome, "Complete 13 13")],
        ..EMPTY
    },
    Course {
        capacity: 0,
        area: &[
            Frame(Version(Letters, 13)),
            Frame(Archive(Letters, 3)),
            Frame(Version(Letters, 14)),
            CLOSED,
        ],
        steps: &[(Outcome, "Missing Archive(2)")],
        ..EMPTY
    },
    Course {
        capacity: 0,
        area: &[
            Frame(Version(Letters, 13)),
            Frame(Archive(Letters, 3)),
            CLOSED,
        ],
        steps: &[(Outcome, "Missing Archive(2)")],
        ..EMPTY
    },
    Course {
        capacity: 0,
        area: &[
            Frame(Version(Letters, 13)),
            Frame(Archive(Letters, 3)),
            Frame(Archive(Letters, 1)),
            CLOSED,
        ],
        steps: &[(Outcome, "Missing Archive(2)")],
        ..EMPTY
    },
    Course {
        capacity: 0,
        area: &[Frame(Version(Letters, 13)), CLOSED],
        steps: &[(Outcome, "Missing Archive(3)")],
        ..EMPTY
    },
    Course {
        area: &[],
        steps: &[(Outcome, "Missing Feed")],
        ..EMPTY
    },
    // An area that is too short for a payload has none.
    Course {
        area: &[Raw(b"\x01")],
        steps: &[(Outcome, "Missing Feed")],
        ..EMPTY
    },
    Course {
        area: &[Raw(b"\x01\x00\x00\x00\x00")],
        steps: &[(Outcome, "Missing Feed")],
        ..EMPTY
    },
    Course {
        area: &[Raw(b"abcde")],
        steps: &[(Outcome, "Missing Feed")],
        ..EMPTY
    },
    Course {
        area: &[
            Frame(Version(Letters, 13)),
            Frame(Archive(Letters, 3)),
            CLOSED,
        ],
        steps: &[(Outcome, "Missing Archive(2)")],
        ..EMPTY
    },
    // A payload is there once its last byte has a byte after it.
    Course {
        area: &[Frame(Version(Letters, 13)), Frame(Archive(Letters, 3))],
        steps: &[(Outcome, "Missing Archive(3)")],
        ..EMPTY
    },
    // The bytes after a closed gate don't matter.
    Course {
        area: &[
            Frame(Version(Letters, 13)),
            CLOSED,
            Frame(Archive(Letters, 3)),
            CLOSED,
        ],
        steps: &[(Outcome, "Missing Archive(3)")],
        ..EMPTY
    },
    Course {
        area: &[Frame(Version(Letters, 13)), Raw(b"\xa5\x00\x00\x00\x02abc")],
        steps: &[(Outcome, "Missing Archive(3)")],
        ..EMPTY
    },
    // A payload that is longer than the area isn't there.
    Course {
        area: &[Frame(Version(Letters, 13)), Raw(b"\x01\x00\x00\x00\x02ab")],
        steps: &[(Outcome, "Missing Archive(3)")],
        ..EMPTY
    },
    Course {
        area: &[Frame(Plain(b"")), CLOSED],
        steps: &[(Outcome, "load: record 0 of the mirror is bad at byte 0")],
        ..EMPTY
    },
    Course {
        area: &[Frame(Version(Letters, 13)), Frame(Plain(b"<?xml")), CLOSED],
        steps: &[(Outcome, "load: record 1 of the mirror is bad at byte 0")],
        ..EMPTY
    },
    // The last line of a document has 8 bytes.
    Course {
        area: &[
            Frame(Version(Letters, 13)),
            Cut(Archive(Letters, 3)),
            CLOSED,
        ],
        steps: &[(Outcome, "load: record 1 of the mirror is bad at byte 1704")],
        ..EMPTY
    },
    // The place of a document that isn't taken is its length.
    Course {
        area: &[
            Frame(Archive(Letters, 1)),
            Frame(Archive(Letters, 1)),
            CLOSED,
        ],
        steps: &[(Outcome, "load: record 1 of the mirror is bad at byte 1644")],
        ..EMPTY
    },
    Course {
        area: &[
            Frame(Archive(Letters, 3)),
            Frame(Version(Letters, 13)),
            Frame(Version(Letters, 13)),
            CLOSED,
        ],
        steps: &[(Outcome, "load: record 2 of the mirror is bad at byte 821")],
        ..EMPTY
    },
    // The document of version 5 has three digits less than that of version 13.
    Course {
        area: &[
            Frame(Version(Letters, 13)),
            Frame(Version(Letters, 5)),
            CLOSED,
        ],
        steps: &[(Outcome, "load: record 1 of the mirror is bad at byte 818")],
        ..EMPTY
    },
    // Archive 2 has four digits less than archive 3.
    Course {
        area: &[
            Frame(Archive(Letters, 2)),
            Frame(Archive(Changed, 2)),
            CLOSED,
        ],
        steps: &[(Outcome, "load: record 1 of the mirror is bad at byte 1708")],
        ..EMPTY
    },
    // The first fault counts.
    Course {
        area: &[
            Frame(Archive(Letters, 1)),
            Frame(Archive(Letters, 1)),
            Frame(Plain(b"")),
            CLOSED,
        ],
        steps: &[(Outcome, "load: record 1 of the mirror is bad at byte 1644")],
        ..EMPTY
    },
    Course {
        base: OTHER_BASE,
        area: &[
            Frame(Archive(Letters, 1)),
            Frame(Version(Letters, 13)),
            CLOSED,
        ],
        steps: &[(Outcome, "load: OtherBase http://feed.example/")],
        ..EMPTY
    },
    Course {
        base: OTHER_BASE,
        area: &[Frame(Plain(b"<?xml")), Frame(Archive(Letters, 1)), CLOSED],
        steps: &[(Outcome, "load: record 0 of the mirror is bad at byte 0")],
        ..EMPTY
    },
];

#[test]
fn an_area_loads_or_has_a_first_bad_record(rt: HostRuntime) {
    follow(&rt, rt.alloc(), &LOADED);
}
