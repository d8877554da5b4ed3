//! Failed device calls and crashes. A mirror holds the documents before the call, or one more, and takes the others
//! afterwards.
//!
//! The load of an empty area makes the calls 1 to 4. Then each document that is taken makes four: it writes the document,
//! syncs, writes the gate and syncs. If the last of these fails, the document is in the area nevertheless. Each entry is
//! read in one call.

use crate::areas::Piece::Frame;
use crate::areas::{CLOSED, Filling, crashed, disk_of};
use crate::courses::Act::{Offer, Titles, Walk};
use crate::courses::{Course, EMPTY, run};
use crate::documents::{FEED, Given, ONE, Origin, THREE, TWO};
use crate::walks::ALL;
use Given::{Archive, Version};
use Origin::Letters;

/// A mirror is offered the chain of a feed with thirteen members, and shows its entries.
const OFFERS: Course = Course {
    steps: &[
        (Offer(FEED, Version(Letters, 13)), "Taken"),
        (Offer(THREE, Archive(Letters, 3)), "Taken"),
        (Offer(ONE, Archive(Letters, 1)), "Taken"),
        (Offer(TWO, Archive(Letters, 2)), "Taken"),
        (Titles, "abcdefghijklm"),
    ],
    ..EMPTY
};

/// The same over an area that has these documents.
const HELD: Course = Course {
    area: &[
        Frame(Version(Letters, 13)),
        Frame(Archive(Letters, 3)),
        Frame(Archive(Letters, 1)),
        Frame(Archive(Letters, 2)),
        CLOSED,
    ],
    ..OFFERS
};

/// The device calls of the load of four documents.
pub const LOAD_CALLS: u64 = 8;

/// A mirror walks over a feed with 21 members.
const WALK: Course = Course {
    steps: &[(Walk(ALL, 0), "")],
    ..EMPTY
};

// What the offers show if this many documents are held before.

const NONE_OFFERED: &str = "Taken;Taken;Taken;Taken;abcdefghijklm;";

const ONE_OFFERED: &str = "Known;Taken;Taken;Taken;abcdefghijklm;";

const TWO_OFFERED: &str = "Known;Known;Taken;Taken;abcdefghijklm;";

const THREE_OFFERED: &str = "Known;Known;Known;Taken;abcdefghijklm;";

const ALL_OFFERED: &str = "Known;Known;Known;Known;abcdefghijklm;";

// What the walk shows if this many documents are held before.

const NONE_WALKED: &str =
    "feed archive/5 archive/4 archive/3 archive/2 archive/1: 6 6 0 0 Complete 21 21;";

const ONE_WALKED: &str =
    "feed archive/5 archive/4 archive/3 archive/2 archive/1: 6 5 1 0 Complete 21 21;";

const TWO_WALKED: &str = "feed archive/4 archive/3 archive/2 archive/1: 5 4 1 0 Complete 21 21;";

const THREE_WALKED: &str = "feed archive/3 archive/2 archive/1: 4 3 1 0 Complete 21 21;";

const FOUR_WALKED: &str = "feed archive/2 archive/1: 3 2 1 0 Complete 21 21;";

const FIVE_WALKED: &str = "feed archive/1: 2 1 1 0 Complete 21 21;";

const ALL_WALKED: &str = "feed: 1 0 1 0 Complete 21 21;";

/// A course of which each device call fails in turn.
struct Failing {
    course: Course,
    /// The number of calls that show the same, what the course shows then, and what it shows on the same disk afterwards.
    calls: &'static [(u64, &'static str, &'static str)],
}

static FAILING: [Failing; 3] = [
    Failing {
        course: OFFERS,
        calls: &[
            (4, "load: disk fault;", NONE_OFFERED),
            (3, "DiskFault;", NONE_OFFERED),
            (1, "DiskFault;", ONE_OFFERED),
            (3, "Taken;DiskFault;", ONE_OFFERED),
            (1, "Taken;DiskFault;", TWO_OFFERED),
            (3, "Taken;Taken;DiskFault;", TWO_OFFERED),
            (1, "Taken;Taken;DiskFault;", THREE_OFFERED),
            (3, "Taken;Taken;Taken;DiskFault;", THREE_OFFERED),
            (1, "Taken;Taken;Taken;DiskFault;", ALL_OFFERED),
            (1, "Taken;Taken;Taken;Taken;|disk fault;", ALL_OFFERED),
            (1, "Taken;Taken;Taken;Taken;a|disk fault;", ALL_OFFERED),
            (1, "Taken;Taken;Taken;Taken;ab|disk fault;", ALL_OFFERED),
            (1, "Taken;Taken;Taken;Taken;abc|disk fault;", ALL_OFFERED),
            (1, "Taken;Taken;Taken;Taken;abcd|disk fault;", ALL_OFFERED),
            (1, "Taken;Taken;Taken;Taken;abcde|disk fault;", ALL_OFFERED),
            (1, "Taken;Taken;Taken;Taken;abcdef|disk fault;", ALL_OFFERED),
            (
                1,
                "Taken;Taken;Taken;Taken;abcdefg|disk fault;",
                ALL_OFFERED,
            ),
            (
                1,
                "Taken;Taken;Taken;Taken;abcdefgh|disk fault;",
                ALL_OFFERED,
            ),
            (
                1,
                "Taken;Taken;Taken;Taken;abcdefghi|disk fault;",
                ALL_OFFERED,
            ),
            (
                1,
                "Taken;Taken;Taken;Taken;abcdefghij|disk fault;",
                ALL_OFFERED,
            ),
            (
                1,
                "Taken;Taken;Taken;Taken;abcdefghijk|disk fault;",
                ALL_OFFERED,
            ),
            (
                1,
                "Taken;Taken;Taken;Taken;abcdefghijkl|disk fault;",
                ALL_OFFERED,
            ),
        ],
    },
    Failing {
        course: HELD,
        calls: &[
            (LOAD_CALLS, "load: disk fault;", ALL_OFFERED),
            (1, "Known;Known;Known;Known;|disk fault;", ALL_OFFERED),
            (1, "Known;Known;Known;Known;a|disk fault;", ALL_OFFERED),
            (1, "Known;Known;Known;Known;ab|disk fault;", ALL_OFFERED),
            (1, "Known;Known;Known;Known;abc|disk fault;", ALL_OFFERED),
            (1, "Known;Known;Known;Known;abcd|disk fault;", ALL_OFFERED),
            (1, "Known;Known;Known;Known;abcde|disk fault;", ALL_OFFERED),
            (1, "Known;Known;Known;Known;abcdef|disk fault;", ALL_OFFERED),
            (
                1,
                "Known;Known;Known;Known;abcdefg|disk fault;",
                ALL_OFFERED,
            ),
            (
                1,
                "Known;Known;Known;Known;abcdefgh|disk fault;",
                ALL_OFFERED,
            ),
            (
                1,
                "Known;Known;Known;Known;abcdefghi|disk fault;",
                ALL_OFFERED,
            ),
            (
                1,
                "Known;Known;Known;Known;abcdefghij|disk fault;",
                ALL_OFFERED,
            ),
            (
                1,
                "Known;Known;Known;Known;abcdefghijk|disk fault;",
                ALL_OFFERED,
            ),
            (
                1,
                "Known;Known;Known;Known;abcdefghijkl|disk fault;",
                ALL_OFFERED,
            ),
        ],
    },
    Failing {
        course: Course {
            area: &[CLOSED],
            ..WALK
        },
        calls: &[
            (4, "load: disk fault;", NONE_WALKED),
            (3, "feed: disk fault;", NONE_WALKED),
            (1, "feed: disk fault;", ONE_WALKED),
            (3, "feed archive/5: disk fault;", ONE_WALKED),
            (1, "feed archive/5: disk fault;", TWO_WALKED),
            (3, "feed archive/5 archive/4: disk fault;", TWO_WALKED),
            (1, "feed archive/5 archive/4: disk fault;", THREE_WALKED),
            (
                3,
                "feed archive/5 archive/4 archive/3: disk fault;",
                THREE_WALKED,
            ),
            (
                1,
                "feed archive/5 archive/4 archive/3: disk fault;",
                FOUR_WALKED,
            ),
            (
                3,
                "feed archive/5 archive/4 archive/3 archive/2: disk fault;",
                FOUR_WALKED,
            ),
            (
                1,
                "feed archive/5 archive/4 archive/3 archive/2: disk fault;",
                FIVE_WALKED,
            ),
            (
                3,
                "feed archive/5 archive/4 archive/3 archive/2 archive/1: disk fault;",
                FIVE_WALKED,
            ),
            (
                1,
                "feed archive/5 archive/4 archive/3 archive/2 archive/1: disk fault;",
                ALL_WALKED,
            ),
        ],
    },
];

#[test]
fn after_a_failed_device_call_a_new_mirror_goes_on(rt: HostRuntime) {
    let alloc = rt.alloc();
    for failing in &FAILING {
        let course = &failing.course;
        let mut call: u64 = 0;
        for (count, first, second) in failing.calls {
            for _ in 0..*count {
                call = call.saturating_add(1);
                let mut disk = disk_of(&rt, alloc, course.area, call);
                let cut = run(&rt, alloc, &mut disk, course, 100);
                let whole = run(&rt, alloc, &mut disk, course, 100);
                drop(disk);
                assert!(rt;
                    (cut.as_str(), whole.as_str()) == (*first, *second),
                    "call {call}: {cut} {whole}"
                );
            }
        }
    }
}

/// A course in which a crash comes within each device call in turn, from call 0, before the first one.
struct Crash {
    course: Course,
    filling: Filling,
    /// The number of calls after which the same is shown, and what the course shows on the disk that the crash leaves.
    calls: &'static [(u64, &'static str)],
}

/// The gate's byte is on the disk after the third call of a document if new bytes are, and otherwise after the fourth.
static CRASHES: [Crash; 6] = [
    Crash {
        course: OFFERS,
        filling: Filling::Old,
        calls: &[
            (9, NONE_OFFERED),
            (4, ONE_OFFERED),
            (4, TWO_OFFERED),
            (4, THREE_OFFERED),
            (13, ALL_OFFERED),
        ],
    },
    Crash {
        course: OFFERS,
        filling: Filling::New,
        calls: &[
            (7, NONE_OFFERED),
            (4, ONE_OFFERED),
            (4, TWO_OFFERED),
            (4, THREE_OFFERED),
            (15, ALL_OFFERED),
        ],
    },
    Crash {
        course: OFFERS,
        filling: Filling::Fill(165),
        calls: &[
            (9, NONE_OFFERED),
            (4, ONE_OFFERED),
            (4, TWO_OFFERED),
            (4, THREE_OFFERED),
            (13, ALL_OFFERED),
        ],
    },
    Crash {
        course: WALK,
        filling: Filling::Old,
        calls: &[
            (9, NONE_WALKED),
            (4, ONE_WALKED),
            (4, TWO_WALKED),
            (4, THREE_WALKED),
            (4, FOUR_WALKED),
            (4, FIVE_WALKED),
        ],
    },
    Crash {
        course: WALK,
        filling: Filling::New,
        calls: &[
            (7, NONE_WALKED),
            (4, ONE_WALKED),
            (4, TWO_WALKED),
            (4, THREE_WALKED),
            (4, FOUR_WALKED),
            (4, FIVE_WALKED),
            (2, ALL_WALKED),
        ],
    },
    Crash {
        course: WALK,
        filling: Filling::Fill(165),
        calls: &[
            (9, NONE_WALKED),
            (4, ONE_WALKED),
            (4, TWO_WALKED),
            (4, THREE_WALKED),
            (4, FOUR_WALKED),
            (4, FIVE_WALKED),
        ],
    },
];

#[test]
fn a_crash_leaves_the_documents_before_or_one_more(rt: HostRuntime) {
    let alloc = rt.alloc();
    for crash in &CRASHES {
        let course = &crash.course;
        let mut disk = disk_of(&rt, alloc, course.area, 0);
        run(&rt, alloc, &mut disk, course, 100);
        let mut call: u64 = 0;
        for (count, wanted) in crash.calls {
            for _ in 0..*count {
                let mut left = crashed(&rt, &disk, call, &crash.filling);
                let text = run(&rt, alloc, &mut left, course, 100);
                drop(left);
                assert!(rt; text.as_str() == *wanted, "call {call}: {text}");
                call = call.saturating_add(1);
            }
        }
        drop(disk);
    }
}
