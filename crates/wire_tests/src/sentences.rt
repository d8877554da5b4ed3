//! The sentences of the errors.

use http_face::{CutOff, RequestFault, ResponseFault};
use std::alloc::Global;
use std::fmt::Display;
use std::process::Abort;

/// Compares the sentence of an error.
fn compare<E: Display>(rt: &impl Abort, alloc: Global, fault: &E, want: &str) {
    let sentence = format!(in alloc; "{fault}").expect(rt, "memory");
    assert!(rt; sentence.as_str() == want, "{sentence}");
}

static SENTENCES: [(RequestFault, &str); 8] = [
    (RequestFault::ConnFault, "connection fault"),
    (RequestFault::BadHead, "bad head"),
    (RequestFault::HeadTooLarge, "head too large"),
    (
        RequestFault::EndedEarly { read: 20 },
        "ended early after 20 bytes",
    ),
    (RequestFault::NoLength, "no length"),
    (RequestFault::TwoLengths, "two lengths"),
    (
        RequestFault::BodyTooLarge { length: 65_537 },
        "body too large: 65537 bytes",
    ),
    (RequestFault::NoMemory, "out of memory"),
];

static RESPONSES: [(ResponseFault, &str); 3] = [
    (ResponseFault::ConnFault, "connection fault"),
    (ResponseFault::BadResponse, "bad response"),
    (ResponseFault::NoMemory, "out of memory"),
];

#[test]
fn says_what_failed(rt: HostRuntime) {
    for (fault, want) in &SENTENCES {
        compare(&rt, rt.alloc(), fault, want);
    }
    for (fault, want) in &RESPONSES {
        compare(&rt, rt.alloc(), fault, want);
    }
    compare(
        &rt,
        rt.alloc(),
        &CutOff { sent: 106 },
        "cut off after 106 bytes",
    );
}
