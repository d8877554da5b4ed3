//! The sentences of the errors.

use atom_values::{Failed, ListFault, NoMemory, TextFault};
use chain_links::BaseFault;
use std::alloc::Global;
use std::fmt::Display;
use std::process::Abort;

#[test]
fn says_what_failed(rt: HostRuntime) {
    compare(&rt, rt.alloc(), &NoMemory, "out of memory");
    compare(
        &rt,
        rt.alloc(),
        &Failed,
        "a call on an outside object failed",
    );
    for (fault, want) in [
        (
            ListFault::TooMany { count: 16 },
            "the list is full with 16 items",
        ),
        (ListFault::NoMemory, "out of memory"),
    ] {
        compare(&rt, rt.alloc(), &fault, want);
    }
    for (fault, want) in [
        (
            TextFault::TooLong { length: 65_537 },
            "the text has 65537 bytes, and the limit is 65536",
        ),
        (
            TextFault::NotXmlChar { at: 7 },
            "no XML character begins at byte 7",
        ),
        (TextFault::NoMemory, "out of memory"),
    ] {
        compare(&rt, rt.alloc(), &fault, want);
    }
    for (fault, want) in [
        (BaseFault::BadBase, "not a base address"),
        (BaseFault::NoMemory, "out of memory"),
    ] {
        compare(&rt, rt.alloc(), &fault, want);
    }
}

fn compare<E: Display>(rt: &impl Abort, alloc: Global, fault: &E, want: &str) {
    let sentence = format!(in alloc; "{fault}").expect(rt, "a sentence");
    assert!(rt; sentence.as_str() == want);
}
