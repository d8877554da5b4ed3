//! The sentences of the errors.

use atom_values::Stamp;
use feed_disk::Area;
use feed_journal::{DiskFault, LogFault};
use feed_recovery::{ArchiveFault, InitFault, LoadFault, MemberFault, PrepareFault};
use member_rules::RuleFault;
use std::alloc::Global;
use std::fmt::Display;
use std::process::Abort;
use store_scrub::{RepairFault, Unsound};

/// Compares the sentence of an error.
fn compare<E: Display>(rt: &impl Abort, alloc: Global, fault: &E, want: &str) {
    let sentence = format!(in alloc; "{fault}").expect(rt, "memory");
    assert!(rt; sentence.as_str() == want, "{sentence}");
}

static LOG: [(LogFault, &str); 3] = [
    (LogFault::DiskFault, "disk fault"),
    (LogFault::Changed { index: 7 }, "changed 7"),
    (LogFault::NoMemory, "out of memory"),
];

static INIT: [(InitFault, &str); 3] = [
    (InitFault::AlreadyInit, "the disk has a store already"),
    (InitFault::DiskFault, "disk fault"),
    (InitFault::NoMemory, "out of memory"),
];

static LOAD: [(LoadFault, &str); 6] = [
    (LoadFault::NotInit, "the disk has no store"),
    (
        LoadFault::BadRecord {
            area: Area::Journal,
            index: 3,
            at: 21,
        },
        "record 3 of the journal is bad at byte 21",
    ),
    (
        LoadFault::SealCount {
            records: 9,
            seals: 4,
        },
        "4 seals after 9 operations",
    ),
    (LoadFault::BadSeal { index: 2 }, "seal 2 is bad"),
    (LoadFault::DiskFault, "disk fault"),
    (LoadFault::NoMemory, "out of memory"),
];

static UNSOUND: [(Unsound, &str); 7] = [
    (Unsound::NotInit, "the disk has no store"),
    (
        Unsound::BadRecord {
            area: Area::Journal,
            index: 3,
            at: 21,
        },
        "record 3 of the journal is bad at byte 21",
    ),
    (
        Unsound::SealCount {
            records: 9,
            seals: 4,
        },
        "4 seals after 9 operations",
    ),
    (Unsound::BadSeal { index: 2 }, "seal 2 is bad"),
    (
        Unsound::OpenGate {
            area: Area::Sealed,
            at: 669,
        },
        "the sealed area has an open gate at byte 669",
    ),
    (Unsound::DiskFault, "disk fault"),
    (Unsound::NoMemory, "out of memory"),
];

static REPAIR: [(RepairFault, &str); 5] = [
    (RepairFault::NotInit, "the disk has no store"),
    (
        RepairFault::BadRecord {
            area: Area::Journal,
            index: 3,
            at: 21,
        },
        "record 3 of the journal is bad at byte 21",
    ),
    (
        RepairFault::Full {
            size: 2_544,
            needed: 1_649,
            capacity: 4_096,
        },
        "the sealed area has 2544 bytes, and no room for 1649 more within 4096",
    ),
    (RepairFault::DiskFault, "disk fault"),
    (RepairFault::NoMemory, "out of memory"),
];

static ARCHIVE: [(ArchiveFault, &str); 4] = [
    (
        ArchiveFault::NotSealed {
            number: 5,
            sealed: 4,
        },
        "archive 5 is none of the 4 sealed ones",
    ),
    (ArchiveFault::DiskFault, "disk fault"),
    (
        ArchiveFault::Changed { index: 2 },
        "payload 2 of the sealed area has changed",
    ),
    (ArchiveFault::NoMemory, "out of memory"),
];

static AREAS: [(Area, &str); 3] = [
    (Area::Journal, "journal"),
    (Area::Sealed, "sealed"),
    (Area::Mirror, "mirror"),
];

#[test]
fn a_fault_of_a_log_or_a_store_is_one_sentence(rt: HostRuntime) {
    compare(&rt, rt.alloc(), &DiskFault, "disk fault");
    for (fault, want) in &LOG {
        compare(&rt, rt.alloc(), fault, want);
    }
    for (fault, want) in &INIT {
        compare(&rt, rt.alloc(), fault, want);
    }
    for (fault, want) in &LOAD {
        compare(&rt, rt.alloc(), fault, want);
    }
}

#[test]
fn a_fault_of_a_scrub_or_a_document_is_one_sentence(rt: HostRuntime) {
    for (fault, want) in &UNSOUND {
        compare(&rt, rt.alloc(), fault, want);
    }
    for (fault, want) in &REPAIR {
        compare(&rt, rt.alloc(), fault, want);
    }
    for (fault, want) in &ARCHIVE {
        compare(&rt, rt.alloc(), fault, want);
    }
    for (area, want) in &AREAS {
        compare(&rt, rt.alloc(), area, want);
    }
}

#[test]
fn a_refused_request_or_a_missing_member_is_one_sentence(rt: HostRuntime) {
    for (fault, want) in [
        (
            PrepareFault::Rule(RuleFault::NotFound { number: 3 }),
            "there is no member 3",
        ),
        (
            PrepareFault::Full {
                area: Area::Sealed,
                size: 2_544,
                needed: 1_649,
                capacity: 4_096,
            },
            "the sealed area has 2544 bytes, and no room for 1649 more within 4096",
        ),
        (PrepareFault::NoMemory, "out of memory"),
    ] {
        compare(&rt, rt.alloc(), &fault, want);
        drop(fault);
    }
    let when = Stamp::new(0).expect(&rt, "a timestamp");
    for (fault, want) in [
        (MemberFault::NotFound { number: 7 }, "there is no member 7"),
        (
            MemberFault::Deleted { number: 7, when },
            "member 7 was deleted",
        ),
        (MemberFault::DiskFault, "disk fault"),
        (MemberFault::Changed { index: 2 }, "record 2 has changed"),
        (MemberFault::NoMemory, "out of memory"),
    ] {
        compare(&rt, rt.alloc(), &fault, want);
    }
}
