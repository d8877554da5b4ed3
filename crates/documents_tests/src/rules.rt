//! Tests of `member_rules`. Expected answers come from RFC 5023 sections 9.2 to 9.4 and from the plain functions.
ghost use Rattle.std.specs.Prelude.{pos};
ghost use Rattle.member_rules.specs.Table.{IsTableOf};

use crate::samples::NewSetting::{Title, Window};
use crate::samples::Step::{Add, Change, Remove, Set};
use crate::samples::{
    NewSetting, PLAIN, Parts, Step, apply, ask, empty, expect_equal_copy, expect_sentence, filled,
    moment, operation, setting, text,
};
use atom_grammar::ReadFault;
use member_rules::{CodecFault, Members, Op, RuleFault, Setting, ShortText, State, WindowSize};
use std::alloc::Global;
use std::process::Abort;

/// The greatest moment: 9999-12-31T23:59:59.999Z.
const LAST: u64 = 253_402_300_799_999;

const END: i64 = 253_402_300_799_999;

const DATED: Parts = Parts {
    id: None,
    updated: Some(1_000),
    long: None,
};

const OTHER: Parts = Parts {
    id: Some(b"tag:me"),
    updated: None,
    long: None,
};

const OWN: Parts = Parts {
    id: Some(b"urn:uuid:6d1f0c5a-93be-8c27-8000-000000000001"),
    updated: None,
    long: None,
};

/// What an ask became.
///
/// An operation: its kind, the number of its member, its moment, and the stamp that it carries, or the size or the number
/// of bytes of the title that it sets. A refusal: its kind, the number of the member, the clock or the length, then a
/// moment or the number of bytes of an identifier, and 0.
type Answer = (&'static str, u64, i64, i64);

/// The parts of the drafts, the asks with the clock in milliseconds, and what the last of them becomes.
type Course = (Parts, &'static [(Step, u64)], Answer);

static COURSES: [Course; 37] = [
    (PLAIN, &[(Add(0), LAST)], ("Add", 1, END, END)),
    (PLAIN, &[(Add(0), 5), (Add(0), 5)], ("Add", 2, 6, 6)),
    (PLAIN, &[(Add(0), 5), (Add(0), 3)], ("Add", 2, 6, 6)),
    (PLAIN, &[(Add(0), 5), (Change(1), 9)], ("Change", 1, 9, 9)),
    (PLAIN, &[(Add(0), 5), (Remove(1), 9)], ("Remove", 1, 9, 9)),
    (
        PLAIN,
        &[(Add(0), 5), (Remove(1), 9), (Add(0), 10)],
        ("Add", 2, 10, 10),
    ),
    // A setting names no member, so its number is 0. It is accepted whatever the members' states are.
    (PLAIN, &[(Set(Title(b"aaa")), 5)], ("Title", 0, 5, 3)),
    (
        PLAIN,
        &[(Add(0), 5), (Remove(1), 9), (Set(Window(1)), 9)],
        ("Window", 0, 10, 1),
    ),
    (
        PLAIN,
        &[
            (Set(Window(100)), 5),
            (Set(Title(b"")), 3),
            (Set(Window(2)), LAST),
        ],
        ("Window", 0, END, 2),
    ),
    (
        PLAIN,
        &[(Set(Title(b"a")), 5), (Set(Window(2)), 5), (Add(0), 5)],
        ("Add", 1, 7, 7),
    ),
    (
        PLAIN,
        &[(Add(0), 5), (Set(Title(b"aa")), 6), (Change(1), 7)],
        ("Change", 1, 7, 7),
    ),
    (
        PLAIN,
        &[(Add(0), 5), (Set(Window(2)), 6), (Remove(1), 6)],
        ("Remove", 1, 7, 7),
    ),
    // A tombstone isn't before the entry's `updated`.
    (
        DATED,
        &[(Add(0), 5), (Remove(1), 9)],
        ("Remove", 1, 9, 1_000),
    ),
    (
        DATED,
        &[(Add(0), 5), (Remove(1), 2_000)],
        ("Remove", 1, 2_000, 2_000),
    ),
    (
        DATED,
        &[(Add(0), 5), (Remove(1), 9), (Remove(1), 10)],
        ("Deleted", 1, 1_000, 0),
    ),
    // The identifier is that of another member.
    (OTHER, &[(Remove(0), 5)], ("NotFound", 0, 0, 0)),
    (OTHER, &[(Remove(1), u64::MAX)], ("NotFound", 1, 0, 0)),
    (OTHER, &[(Add(0), 5), (Change(0), 6)], ("NotFound", 0, 0, 0)),
    (OTHER, &[(Add(0), 5), (Change(2), 6)], ("NotFound", 2, 0, 0)),
    (
        OTHER,
        &[(Add(0), 5), (Remove(1), 9), (Remove(1), 10)],
        ("Deleted", 1, 9, 0),
    ),
    (
        OTHER,
        &[(Add(0), 5), (Remove(1), 9), (Change(1), u64::MAX)],
        ("Deleted", 1, 9, 0),
    ),
    (OTHER, &[(Add(0), 5), (Change(1), 9)], ("OtherId", 1, 6, 0)),
    (
        OTHER,
        &[(Add(0), 5), (Change(1), u64::MAX)],
        ("OtherId", 1, 6, 0),
    ),
    (
        OTHER,
        &[(Add(0), LAST), (Add(0), LAST)],
        ("ClockSpent", LAST, END, 0),
    ),
    (
        OTHER,
        &[(Add(0), LAST), (Remove(1), 0)],
        ("ClockSpent", 0, END, 0),
    ),
    (OTHER, &[(Add(0), u64::MAX)], ("ClockSpent", u64::MAX, 0, 0)),
    (
        OTHER,
        &[(Add(0), LAST), (Set(Title(b"a")), 5)],
        ("ClockSpent", 5, END, 0),
    ),
    (
        OTHER,
        &[(Set(Title(b"a")), LAST), (Set(Window(1)), 0)],
        ("ClockSpent", 0, END, 0),
    ),
    (
        OTHER,
        &[(Set(Window(1)), 9), (Set(Title(b"a")), u64::MAX)],
        ("ClockSpent", u64::MAX, 9, 0),
    ),
    (
        OTHER,
        &[(Set(Title(b"a")), 5), (Remove(1), 6)],
        ("NotFound", 1, 0, 0),
    ),
    // The member's own identifier isn't refused.
    (OWN, &[(Add(0), 5), (Change(1), 9)], ("Change", 1, 9, 9)),
    (
        OWN,
        &[(Add(0), 5), (Change(1), u64::MAX)],
        ("ClockSpent", u64::MAX, 5, 0),
    ),
    // Each ask with the identifier.
    (
        OWN,
        &[
            (Add(0), 5),
            (Change(3), 6),
            (Remove(3), 7),
            (Set(Title(b"aaa")), 8),
            (Set(Window(3)), 9),
        ],
        ("Window", 0, 9, 3),
    ),
    // An entry has a greatest length.
    (
        Parts {
            id: None,
            updated: None,
            long: Some((0, 0)),
        },
        &[(Add(0), 1_000)],
        ("Add", 1, 1_000, 1_000),
    ),
    (
        Parts {
            id: None,
            updated: None,
            long: Some((10_000, 16_298)),
        },
        &[(Add(0), 1_000)],
        ("Add", 1, 1_000, 1_000),
    ),
    (
        Parts {
            id: None,
            updated: None,
            long: Some((10_000, 16_299)),
        },
        &[(Add(0), 1_000)],
        ("TooLarge", 394_241, 0, 0),
    ),
    (
        Parts {
            id: None,
            updated: None,
            long: Some((65_536, 0)),
        },
        &[(Add(0), 1_000)],
        ("TooLarge", 655_622, 0, 0),
    ),
];

fn refused(fault: &RuleFault) -> Answer {
    match fault {
        RuleFault::NotFound { number } => ("NotFound", u64::from(*number), 0, 0),
        RuleFault::Deleted { number, when } => ("Deleted", u64::from(*number), when.millis(), 0),
        RuleFault::OtherId { number, given } => {
            ("OtherId", u64::from(*number), given.bytes().len() as i64, 0)
        }
        RuleFault::ClockSpent { last, now } => ("ClockSpent", *now, last.millis(), 0),
        RuleFault::TooLarge { length } => ("TooLarge", *length, 0, 0),
        RuleFault::NoMemory => ("NoMemory", 0, 0, 0),
    }
}

fn accepted(operation: &Op) -> Answer {
    let (kind, carried) = match operation {
        Op::Add(entry) => ("Add", entry.updated.millis()),
        Op::Change(entry) => ("Change", entry.updated.millis()),
        Op::Remove(removal) => ("Remove", removal.tombstone.when.millis()),
        Op::Set { setting, .. } => match setting {
            Setting::Title(title) => ("Title", title.text().bytes().len() as i64),
            Setting::Window(size) => ("Window", i64::from(size.get())),
        },
    };
    let (number, moment) = (operation.number(), operation.moment().millis());
    (kind, u64::from(number), moment, carried)
}

/// Compares what the last ask becomes. Each ask is compared with its copy.
fn expect_answer(rt: &impl Abort, alloc: Global, (parts, steps, expected): &Course) {
    let mut feed = empty(rt, alloc);
    let mut fault = None;
    for (step, now) in *steps {
        let ask = ask(rt, alloc, parts, *step);
        expect_equal_copy(rt, alloc, &ask);
        fault = apply(rt, &mut feed, ask, *now);
    }
    let answer = match (&fault, feed.history.last()) {
        (Some(fault), _) => refused(fault),
        (None, Some(operation)) => accepted(operation),
        (None, None) => panic!(rt; "no step"),
    };
    drop((feed, fault));
    assert!(rt;
        answer.0 == expected.0 && answer.1 == expected.1,
        "{}",
        answer.0
    );
    assert!(rt;
        answer.2 == expected.2 && answer.3 == expected.3,
        "{}",
        answer.0
    );
}

#[test]
fn answers_the_last_ask(rt: HostRuntime) {
    for course in &COURSES {
        expect_answer(&rt, rt.alloc(), course);
    }
}

/// An operation, its moment and its stamp, and whether it may follow a member that was made at moment 5 with the
/// `updated` 1,000. Then the member that the operation names, and its number.
type Following = (Step, i64, i64, bool, Option<u32>, u32);

static FOLLOWING: [Following; 21] = [
    (Add(2), 6, 0, true, Some(2), 2),
    (Add(2), 5, 0, false, Some(2), 2),
    (Add(1), 6, 0, false, Some(1), 1),
    (Add(3), 6, 0, false, Some(3), 3),
    (Change(1), 6, 1_000, true, Some(1), 1),
    (Change(1), 6, 999, false, Some(1), 1),
    (Change(2), 6, 1_000, false, Some(2), 2),
    (Remove(1), 6, 1_000, true, Some(1), 1),
    (Remove(1), 6, 999, false, Some(1), 1),
    (Remove(1), 6, 1_001, false, Some(1), 1),
    (Remove(2), 6, 1_000, false, Some(2), 2),
    (Set(Title(b"aaa")), 6, 0, true, None, 0),
    (Set(Title(b"aaa")), 5, 0, false, None, 0),
    (Set(Title(b"aaa")), 4, 0, false, None, 0),
    (Set(Window(1)), 6, 0, true, None, 0),
    (Set(Window(1)), 5, 0, false, None, 0),
    (Add(3), 5, 7, false, Some(3), 3),
    (Change(3), 5, 7, false, Some(3), 3),
    (Remove(3), 5, 7, false, Some(3), 3),
    (Set(Title(b"aaa")), 5, 7, false, None, 0),
    (Set(Window(3)), 5, 7, false, None, 0),
];

#[test]
fn tells_which_operations_may_follow(rt: HostRuntime) {
    let alloc = rt.alloc();
    let mut feed = empty(&rt, alloc);
    let ask = ask(&rt, alloc, &DATED, Add(0));
    drop(apply(&rt, &mut feed, ask, 5));
    for &(step, at, stamp, follows, member, number) in &FOLLOWING {
        let operation = operation(&rt, alloc, step, at, stamp);
        let told = feed.members.may_follow(&operation);
        assert!(rt; told == follows, "{number} at {at} with {stamp}");
        assert!(rt; operation.member() == member && operation.number() == number);
        expect_equal_copy(&rt, alloc, &operation);
        drop(operation);
    }
    drop(feed);
}

/// Steps with the clock. After each, the newest member, how many were made, and how many are live.
static NEWEST: [(Step, u64, Option<u32>, u32, u32); 9] = [
    (Set(Title(b"aaa")), 4, None, 0, 0),
    (Add(0), 5, Some(1), 1, 1),
    (Add(0), 6, Some(2), 2, 2),
    (Set(Window(4)), 7, Some(2), 2, 2),
    (Add(0), 8, Some(3), 3, 3),
    (Change(2), 9, Some(2), 3, 3),
    (Remove(1), 10, Some(1), 3, 2),
    (Set(Title(b"")), 11, Some(1), 3, 2),
    (Set(Window(1)), 12, Some(1), 3, 2),
];

/// A member: its number, the member before it, the `edited` of its entry and the operation that set the entry.
type Listed = (u32, Option<u32>, Option<i64>, Option<u32>);

/// The members after those steps. None has the number 0 or 4.
static MEMBERS: [Listed; 5] = [
    (0, None, None, None),
    (1, Some(2), None, None),
    (2, Some(3), Some(9), Some(6)),
    (3, None, Some(8), Some(5)),
    (4, None, None, None),
];

fn expect_member(rt: &impl Abort, members: &Members, (number, before, edited, version): &Listed) {
    let stamp = match members.edited(*number) {
        Some(stamp) => Some(stamp.millis()),
        None => None,
    };
    let found = match members.state(*number) {
        State::Live { version, .. } => Some(version),
        State::Never | State::Gone { .. } => None,
    };
    assert!(rt;
        members.before(*number) == *before && stamp == *edited,
        "{number}"
    );
    assert!(rt; found == *version, "{number}");
}

#[test]
fn members_come_by_their_last_operations(rt: HostRuntime) {
    let mut feed = empty(&rt, rt.alloc());
    assert!(rt; feed.members.newest() == None);
    for &(step, now, newest, count, live) in &NEWEST {
        // The entry's `updated` is 1,000.
        let ask = ask(&rt, rt.alloc(), &DATED, step);
        drop(apply(&rt, &mut feed, ask, now));
        assert!(rt;
            feed.members.newest() == newest && feed.members.count() == count,
            "{now}"
        );
        let last = u64::try_from(feed.members.last_moment().millis()).ok();
        assert!(rt;
            feed.members.live_count() == live && last == Some(now),
            "{now}"
        );
    }
    for member in &MEMBERS {
        expect_member(&rt, &feed.members, member);
    }
    drop(feed);
}

/// How many letters a text has, and whether it may be a feed's title.
static TEXTS: [(usize, bool); 4] = [(0, true), (3, true), (1_024, true), (1_025, false)];

/// Numbers of operations, and whether a window may have so many.
static SIZES: [(u32, bool); 6] = [
    (0, false),
    (1, true),
    (4, true),
    (100, true),
    (101, false),
    (u32::MAX, false),
];

static SETTINGS: [NewSetting; 2] = [Title(b"aaa"), Window(3)];

#[test]
fn settings_have_limits_and_equal_copies(rt: HostRuntime) {
    let alloc = rt.alloc();
    for &(length, taken) in &TEXTS {
        let short = ShortText::of(filled(&rt, alloc, 0, length));
        assert!(rt; short.is_some() == taken, "{length}");
        if let Some(short) = short {
            expect_equal_copy(&rt, alloc, &short);
            assert!(rt;
                short.into_text() == filled(&rt, alloc, 0, length),
                "{length}"
            );
        }
    }
    for &(operations, taken) in &SIZES {
        let size = WindowSize::new(operations);
        assert!(rt; size.is_some() == taken, "{operations}");
        if let Some(size) = size {
            expect_equal_copy(&rt, alloc, &size);
            assert!(rt; size.get() == operations);
        }
    }
    for new in &SETTINGS {
        let setting = setting(&rt, alloc, *new);
        expect_equal_copy(&rt, alloc, &setting);
        drop(setting);
    }
}

#[test]
fn refusals_have_sentences(rt: HostRuntime) {
    let alloc = rt.alloc();
    let (when, last, number) = (moment(&rt, 0), moment(&rt, 0), 3);
    let given = text(&rt, alloc, b"tag:a");
    let fault = RuleFault::NotFound { number };
    expect_sentence(&rt, alloc, fault, "there is no member 3");
    let fault = RuleFault::Deleted { number, when };
    expect_sentence(&rt, alloc, fault, "member 3 was deleted");
    let fault = RuleFault::OtherId { number, given };
    let want = "the entry has another identifier than member 3";
    expect_sentence(&rt, alloc, fault, want);
    let fault = RuleFault::ClockSpent { last, now: 7 };
    expect_sentence(&rt, alloc, fault, "no later timestamp is left");
    let fault = RuleFault::TooLarge { length: 394_241 };
    let want = "the entry takes 394241 bytes, and at most 394240 are allowed";
    expect_sentence(&rt, alloc, fault, want);
    expect_sentence(&rt, alloc, RuleFault::NoMemory, "out of memory");
    let fault = ReadFault::NotADocument { at: 7 };
    let want = "not a feed document: no piece of one begins at byte 7";
    expect_sentence(&rt, alloc, fault, want);
    expect_sentence(&rt, alloc, ReadFault::NoMemory, "out of memory");
    let fault = CodecFault::BadField { at: 21 };
    expect_sentence(&rt, alloc, fault, "the field at byte 21 is bad");
    expect_sentence(&rt, alloc, CodecFault::NoMemory, "out of memory");
}
