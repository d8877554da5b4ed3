//! Courses of a mirror, as data: what is asked of it, step by step, and what it answers.

ghost use Rattle.std.specs.Prelude.{◌≡◌, ◌≤◌, All, false, length};
ghost use Rattle.doc_source.specs.Pile.{offer_limit};
ghost use Rattle.mirror_walk.specs.Mirror.{StandsFor, is_spent};

use crate::areas::{CAPACITY, Piece, disk_of, expect_area};
use crate::documents::{BASE, Given, base, bytes_of};
use crate::mirrors::{entries, fault_text, offer, outcome, told, walk};
use atom_grammar::MAX_DOCUMENT;
use atom_values::{Bytes, Many};
use doc_source::{MAX_OFFERS, Offer, PileFetch};
use feed_disk::Disk;
use mirror_walk::Mirror;
use std::alloc::Global;
use std::process::Abort;

/// The address that a document is found at, and the document.
pub type Found = (&'static str, Given);

/// What is asked of a mirror.
pub enum Act {
    /// The answer to the offer of a document that was found at an address.
    Offer(&'static str, Given),
    /// The same, and the outcome afterwards.
    Show(&'static str, Given),
    Outcome,
    /// The titles of the live entries.
    Titles,
    /// What the mirror tells of its documents.
    Told,
    /// A walk over a source of these documents, of which this get fails. 0 lists none.
    Walk(&'static [Found], u64),
}

/// An act, and what it shows.
pub type Step = (Act, &'static str);

/// The steps of a mirror over a disk.
#[derive(Clone, Copy)]
pub struct Course {
    pub base: &'static str,
    pub capacity: u64,
    /// The area before the first step.
    pub area: &'static [Piece],
    pub steps: &'static [Step],
    /// The area after the last step. If it is empty, it isn't compared.
    pub left: &'static [Piece],
}

/// The steps of a mirror over an empty disk.
pub const EMPTY: Course = Course {
    base: BASE,
    capacity: CAPACITY,
    area: &[],
    steps: &[],
    left: &[],
};

/// The offers of a source.
pub fn offers_of(rt: &impl Abort, alloc: Global, all: &[Found]) -> Many<Offer, MAX_OFFERS>
    ensures { All (λ offer. length offer.bytes ≤ offer_limit) result.items }
{
    let mut offers = Many::new(alloc);
    for (address, given) in all {
        let bytes = bytes_of(rt, alloc, given);
        assert!(rt; bytes.len() <= MAX_DOCUMENT);
        let offer = Offer {
            address: Bytes::of(alloc, address.as_bytes()).expect(rt, "memory"),
            bytes: Bytes::from_vec(bytes),
        };
        offers.push(offer).expect(rt, "memory");
    }
    offers
}

/// The addresses that were asked, after the base.
fn asked_text(rt: &impl Abort, alloc: Global, fetch: &PileFetch) -> String {
    let mut text = String::new(alloc);
    for address in fetch.asked() {
        let address = str::from_utf8(address.slice()).expect(rt, "an address");
        let address = address.strip_prefix(BASE).expect(rt, "the base");
        if !text.is_empty() {
            text.push_str(" ").expect(rt, "memory");
        }
        text.push_str(address).expect(rt, "memory");
    }
    text
}

/// The addresses that a walk over a source of these documents asks, and its result.
fn walk_over<D: Disk>(
    rt: &impl Abort,
    alloc: Global,
    mirror: &mut Mirror,
    disk: &mut D,
    found: &[Found],
    failing: u64,
) -> String
    requires unspent { is_spent mirror.old ≡ false }
    requires stands { D.observable → StandsFor (D.state disk.old) mirror.old }
    ensures { is_spent mirror.new ≡ false → D.observable → StandsFor (D.state disk.new) mirror.new }
{
    let mut calls = Many::new(alloc);
    calls.push(failing).expect(rt, "memory");
    let mut fetch = PileFetch::new(alloc, offers_of(rt, alloc, found), calls);
    let walked = walk(rt, alloc, mirror, disk, &mut fetch);
    let asked = asked_text(rt, alloc, &fetch);
    drop(fetch);
    format!(in alloc; "{asked}: {walked}").expect(rt, "memory")
}

/// Does what an act asks, and returns what it shows.
fn perform<D: Disk>(
    rt: &impl Abort,
    alloc: Global,
    mirror: &mut Mirror,
    disk: &mut D,
    act: &Act,
) -> String
    requires unspent { is_spent mirror.old ≡ false }
    requires stands { D.observable → StandsFor (D.state disk.old) mirror.old }
    ensures { is_spent mirror.new ≡ false → D.observable → StandsFor (D.state disk.new) mirror.new }
{
    match act {
        Act::Offer(address, given) => {
            let bytes = bytes_of(rt, alloc, given);
            offer(rt, alloc, mirror, disk, address, &bytes)
        }
        Act::Show(address, given) => {
            let bytes = bytes_of(rt, alloc, given);
            let answer = offer(rt, alloc, mirror, disk, address, &bytes);
            assert!(rt; !mirror.is_spent());
            let outcome = outcome(rt, alloc, mirror);
            format!(in alloc; "{answer}, {outcome}").expect(rt, "memory")
        }
        Act::Outcome => outcome(rt, alloc, mirror),
        Act::Titles => entries(rt, alloc, mirror, disk, None),
        Act::Told => told(rt, alloc, mirror),
        Act::Walk(found, failing) => walk_over(rt, alloc, mirror, disk, found, *failing),
    }
}

/// Appends a line and its end.
fn append(rt: &impl Abort, text: &mut String, line: &str) {
    text.push_str(line).expect(rt, "memory");
    text.push_str(";").expect(rt, "memory");
}

/// Appends what a mirror shows that is loaded from the disk. It ends with a load that fails, and with the step that
/// spends the mirror.
fn run_part<D: Disk>(
    rt: &impl Abort,
    alloc: Global,
    disk: &mut D,
    course: &Course,
    (steps, text): (&[Step], &mut String),
) {
    assert!(rt; course.capacity <= CAPACITY);
    let base = base(rt, alloc, course.base);
    match Mirror::load(alloc, disk, base, course.capacity) {
        Ok(mut mirror) => {
            for (act, _) in steps {
                if mirror.is_spent() {
                    break;
                }
                let line = perform(rt, alloc, &mut mirror, disk, act);
                append(rt, text, line.as_str());
            }
            drop(mirror);
        }
        Err(fault) => {
            let line = fault_text(rt, alloc, &fault);
            drop(fault);
            append(rt, text, line.as_str());
        }
    }
}

/// What the steps show. The mirror is loaded from the disk before the first of each `size` steps.
pub fn run<D: Disk>(
    rt: &impl Abort,
    alloc: Global,
    disk: &mut D,
    course: &Course,
    size: usize,
) -> String {
    assert!(rt; size > 0);
    let mut text = String::new(alloc);
    for steps in course.steps.chunks(size) {
        run_part(rt, alloc, disk, course, (steps, &mut text));
    }
    text
}

/// Compares what the steps of each course show and the area that they leave: of one mirror, and of one that is loaded
/// from the disk before each step.
pub fn follow(rt: &impl Abort, alloc: Global, courses: &[Course]) {
    for course in courses {
        let mut wanted = String::new(alloc);
        for (_, line) in course.steps {
            append(rt, &mut wanted, line);
        }
        for size in [1, 100] {
            let mut disk = disk_of(rt, alloc, course.area, 0);
            let text = run(rt, alloc, &mut disk, course, size);
            assert!(rt; text.as_str() == wanted.as_str(), "{wanted} {text}");
            if !course.left.is_empty() {
                expect_area(rt, alloc, &mut disk, course.left);
            }
            drop(disk);
        }
    }
}
