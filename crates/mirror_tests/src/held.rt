//! Offers to the documents of a mirror without a disk: they are answered as those to a mirror.

use crate::chains::{CHAINS, MIXED};
use crate::courses::{Act, Course};
use crate::documents::{BASE, base, bytes_of};
use crate::mirrors::{answer_text, outcome_text};
use atom_grammar::MAX_DOCUMENT;
use mirror_walk::{Held, Outcome};
use std::alloc::Global;
use std::process::Abort;

/// Takes the steps of a course, and compares what each shows.
fn expect(rt: &impl Abort, alloc: Global, held: &mut Held, course: &Course) {
    for (act, wanted) in course.steps {
        let Act::Show(address, given) = act else {
            assert!(rt; false, "a step needs a disk");
            return;
        };
        let bytes = bytes_of(rt, alloc, given);
        assert!(rt; bytes.len() <= MAX_DOCUMENT);
        let answered = held.offer(address.as_bytes(), &bytes);
        let answer = answer_text(rt, alloc, &answered);
        drop(answered);
        let outcome = held.outcome().expect(rt, "memory");
        let outcome = outcome_text(rt, alloc, outcome);
        let text = format!(in alloc; "{answer}, {outcome}").expect(rt, "memory");
        assert!(rt; text.as_str() == *wanted, "{wanted}: {text}");
    }
}

#[test]
fn documents_without_a_disk_are_answered_as_a_mirror_answers(rt: HostRuntime) {
    let alloc = rt.alloc();
    for course in &CHAINS {
        let mut held = Held::new(alloc, base(&rt, alloc, BASE));
        expect(&rt, alloc, &mut held, course);
        drop(held);
    }
}

/// A member, the index of the document that shows it in the order of `MIXED`, and that of its entry there. Each
/// document has its newest item first.
static PLACES: [(u32, u32, u32); 4] = [(1, 2, 3), (4, 2, 0), (5, 3, 3), (13, 0, 0)];

#[test]
fn documents_without_a_disk_tell_where_entries_are(rt: HostRuntime) {
    let alloc = rt.alloc();
    let mut held = Held::new(alloc, base(&rt, alloc, BASE));
    expect(&rt, alloc, &mut held, &MIXED);
    if let Outcome::Complete { .. } = held.outcome().expect(&rt, "memory") {
        for (number, document, item) in PLACES {
            let found = held.next_live(number - 1).expect(&rt, "a member");
            let place = held.entry_place(found);
            assert!(rt; (found, place.document, place.item) == (number, document, item));
        }
    } else {
        assert!(rt; false, "a document is missing");
    }
    drop(held);
}
