//! The sentences of the refusals and the faults.

use crate::documents::{BASE, ID, base};
use atom_values::Bytes;
use chain_links::Address;
use deleted_entries::FeedId;
use doc_source::{GetFault, PileFault};
use mirror_walk::{MirrorFault, Offered, WalkFault};
use std::alloc::Global;
use std::fmt::Display;
use std::process::Abort;

/// Compares the sentence of a refusal or a fault.
fn expect(rt: &impl Abort, alloc: Global, answer: &impl Display, sentence: &str) {
    let text = format!(in alloc; "{answer}").expect(rt, "memory");
    assert!(rt; text.as_str() == sentence, "{sentence}: {text}");
}

static REFUSALS: [&str; 8] = [
    "not a feed document: no piece of one begins at byte 7",
    "the document has another address",
    "the document is of another feed",
    "another document is held at this address",
    "operation 6 doesn't come right after operation 4",
    "2544 bytes have no room for 1649 within 4096",
    "disk fault",
    "out of memory",
];

#[test]
fn a_refusal_is_one_sentence(rt: HostRuntime) {
    let id = FeedId::parse(ID.as_bytes()).expect(&rt, "an identifier");
    let refusals = [
        Offered::NotADocument { at: 7 },
        Offered::WrongAddress {
            says: Bytes::from_vec(Vec::new(rt.alloc())),
        },
        Offered::WrongFeed {
            kept: id,
            given: id,
        },
        Offered::Conflict {
            address: Address::Feed,
            kept: [0; 32],
            given: [1; 32],
        },
        Offered::Break {
            older_last: 4,
            newer_first: 6,
        },
        Offered::Full {
            size: 2_544,
            needed: 1_649,
            capacity: 4_096,
        },
        Offered::DiskFault,
        Offered::NoMemory,
    ];
    for (refusal, sentence) in refusals.iter().zip(REFUSALS) {
        expect(&rt, rt.alloc(), refusal, sentence);
    }
    drop(refusals);
}

static LOADS: [&str; 4] = [
    "the area is of another mirror",
    "record 1 of the mirror is bad at byte 7",
    "disk fault",
    "out of memory",
];

static WALKS: [(WalkFault, &str); 4] = [
    (WalkFault::FetchFault, "fetch fault"),
    (
        WalkFault::Full {
            size: 2_544,
            needed: 1_649,
            capacity: 4_096,
        },
        "no room for 1649 bytes after the 2544 of the mirror area, of 4096",
    ),
    (WalkFault::DiskFault, "disk fault"),
    (WalkFault::NoMemory, "out of memory"),
];

static GETS: [(GetFault, &str); 2] = [
    (GetFault::Failed, "fetch fault"),
    (GetFault::NoMemory, "out of memory"),
];

static PILES: [(PileFault, &str); 2] = [
    (PileFault::SourceFault, "source fault"),
    (PileFault::NoMemory, "out of memory"),
];

#[test]
fn a_fault_is_one_sentence(rt: HostRuntime) {
    let loads = [
        MirrorFault::OtherBase {
            kept: base(&rt, rt.alloc(), BASE),
        },
        MirrorFault::BadRecord { index: 1, at: 7 },
        MirrorFault::DiskFault,
        MirrorFault::NoMemory,
    ];
    for (fault, sentence) in loads.iter().zip(LOADS) {
        expect(&rt, rt.alloc(), fault, sentence);
    }
    drop(loads);
    for (fault, sentence) in &WALKS {
        expect(&rt, rt.alloc(), fault, sentence);
    }
    for (fault, sentence) in &GETS {
        expect(&rt, rt.alloc(), fault, sentence);
    }
    for (fault, sentence) in &PILES {
        expect(&rt, rt.alloc(), fault, sentence);
    }
}
