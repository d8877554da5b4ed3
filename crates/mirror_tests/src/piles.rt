//! Piles of documents of a history of 200 operations, in any order, with losses and repeats: a mirror shows
//! the plain fold.

ghost use Rattle.std.specs.Prelude.{◌≡◌, ◌≤◌, false, length};
ghost use Rattle.mirror_walk.specs.Mirror.{StandsFor, is_spent};

use crate::areas::{CAPACITY, disk_of};
use crate::documents::{BASE, ID, base, head, operation, served};
use crate::mirrors::{append_entry, entries, offer, outcome, outcome_text};
use archive_sealer::sealed_windows;
use atom_values::Stamp;
use chain_links::Address;
use feed_disk::Disk;
use member_rules::{Head, Op, State, plain_count, plain_live_count, plain_state};
use mirror_walk::{Mirror, Outcome};
use std::alloc::Global;
use std::process::Abort;

/// The next number of a sequence that looks random.
fn next(seed: u64) -> u64 {
    seed.wrapping_mul(6_364_136_223_846_793_005)
        .wrapping_add(1_442_695_040_888_963_407)
}

/// A member and the letter that becomes its title in an operation that may follow these ones: it makes a member, or
/// changes or removes a live one.
fn step(history: &[Op], seed: u64) -> (u32, u8)
    requires { length history.now ≤ 1_000 }
{
    let count = plain_count(history);
    let number = ((seed >> 33) % (u64::from(count) + 1)) as u32 + 1;
    match plain_state(history, number) {
        State::Live { .. } if (seed >> 20) % 3 == 0 => (number, b'-'),
        State::Live { .. } => (number, b'C'),
        State::Never | State::Gone { .. } => (count + 1, b'm'),
    }
}

/// A history of 200 operations.
fn generated(rt: &impl Abort, alloc: Global) -> Vec<Op> {
    let mut history = Vec::new(alloc);
    let mut seed = 7;
    for moment in 0i64..200 {
        seed = next(seed);
        assert!(rt; history.len() <= 1_000);
        let step = step(history.as_slice(), seed);
        let moment = Stamp::new(moment).expect(rt, "a timestamp");
        let made = operation(rt, alloc, step, moment);
        history.push(made).expect(rt, "memory");
    }
    history
}

/// A document of the feed: an archive, or for the number 0 the subscription document after so many operations.
#[derive(Clone, Copy)]
struct Document {
    number: u32,
    version: u32,
}

/// Draws a document of a feed with this many archives.
fn draw(seed: u64, sealed: u32) -> Document {
    let number = ((seed >> 33) % (u64::from(sealed) + u64::from(sealed) / 4 + 2)) as u32;
    if (1..=sealed).contains(&number) {
        Document {
            number,
            version: 200,
        }
    } else {
        Document {
            number: 0,
            version: ((seed >> 20) % 201) as u32,
        }
    }
}

/// The documents that were drawn so far: archives by their numbers, and the greatest version.
#[derive(Clone, Copy)]
struct Drawn {
    archives: [bool; 64],
    version: Option<u32>,
}

impl Drawn {
    /// Notes a document, and returns the mirror's answer to it.
    fn note(&mut self, document: Document) -> &'static str {
        if document.number > 0 {
            return match self.archives.get_mut(document.number as usize) {
                Some(held) if !*held => {
                    *held = true;
                    "Taken"
                }
                _ => "Known",
            };
        }
        match self.version {
            Some(best) if best > document.version => "Stale",
            Some(best) if best == document.version => "Known",
            _ => {
                self.version = Some(document.version);
                "Taken"
            }
        }
    }

    /// The outcome of the drawn documents.
    fn outcome(&self, rt: &impl Abort, head: &Head, history: &[Op]) -> Outcome {
        let Some(version) = self.version else {
            return Outcome::Missing {
                address: Address::Feed,
            };
        };
        let covered = covered(rt, history, version);
        let mut outcome = Outcome::Complete {
            version,
            live: plain_live_count(covered),
        };
        // The greatest missing archive counts.
        for before in 0..sealed_windows(head, covered) {
            if self.archives.get(before as usize + 1) == Some(&false) {
                outcome = Outcome::Missing {
                    address: Address::Archive(before + 1),
                };
            }
        }
        outcome
    }
}

/// The first operations of a history.
fn covered<'a>(rt: &impl Abort, history: &'a [Op], version: u32) -> &'a [Op]
    ensures { length result.now ≤ 1_000 }
{
    let covered = history.get(..version as usize).expect(rt, "operations");
    assert!(rt; covered.len() <= 1_000);
    covered
}

/// The member documents of the live entries after the operations, by a look at each of them.
fn folded(rt: &impl Abort, alloc: Global, head: &Head, history: &[Op]) -> String
    requires { length history.now ≤ 1_000 }
{
    let mut text = String::new(alloc);
    for before in 0..plain_count(history) {
        if let State::Live { version, .. } = plain_state(history, before + 1) {
            let at = (version as usize).saturating_sub(1);
            if let Some(Op::Add(entry) | Op::Change(entry)) = history.get(at) {
                append_entry(rt, alloc, &mut text, entry, Some(&head.name));
            }
        }
    }
    text
}

/// Offers drawn documents to the mirror of a disk, and compares each answer and each outcome. Returns what was drawn.
fn offer_all<D: Disk>(
    rt: &impl Abort,
    alloc: Global,
    disk: &mut D,
    (head, history): (&Head, &[Op]),
    round: u64,
) -> Drawn {
    let base = base(rt, alloc, BASE);
    let mut mirror = Mirror::load(alloc, disk, base, CAPACITY).expect(rt, "a mirror");
    let mut drawn = Drawn {
        archives: [false; 64],
        version: None,
    };
    let sealed = sealed_windows(head, covered(rt, history, 200));
    let draws = if round % 2 == 0 {
        6 * u64::from(sealed)
    } else {
        u64::from(sealed) + 10
    };
    let mut seed = next(round);
    for _ in 0..draws {
        seed = next(seed);
        let document = draw(seed, sealed);
        let covered = covered(rt, history, document.version);
        let bytes = served(rt, alloc, head, covered, document.number);
        let address = match document.number {
            0 => format!(in alloc; "http://feed.example/feed"),
            number => format!(in alloc; "http://feed.example/archive/{number}"),
        };
        let address = address.expect(rt, "memory");
        assert!(rt; !mirror.is_spent());
        let answer = offer(rt, alloc, &mut mirror, disk, address.as_str(), &bytes);
        assert!(rt; !mirror.is_spent());
        let shown = outcome(rt, alloc, &mut mirror);
        let noted = drawn.note(document);
        let wanted = outcome_text(rt, alloc, drawn.outcome(rt, head, history));
        assert!(rt;
            (answer.as_str(), shown.as_str()) == (noted, wanted.as_str()),
            "{address} {answer} {shown}"
        );
    }
    drop(mirror);
    drawn
}

/// Compares the entries that the mirror of a disk shows. Returns whether it is complete.
fn expect_fold<D: Disk>(
    rt: &impl Abort,
    alloc: Global,
    disk: &mut D,
    (head, history): (&Head, &[Op]),
    drawn: &Drawn,
) -> bool {
    let Outcome::Complete { version, .. } = drawn.outcome(rt, head, history) else {
        return false;
    };
    let base = base(rt, alloc, BASE);
    let mut mirror = Mirror::load(alloc, disk, base, CAPACITY).expect(rt, "a mirror");
    let shown = entries(rt, alloc, &mut mirror, disk, Some(&head.name));
    drop(mirror);
    let folded = folded(rt, alloc, head, covered(rt, history, version));
    assert!(rt; shown.as_str() == folded.as_str(), "{version}");
    true
}

/// The operations of a window, the number of piles, each of which is offered to a new mirror.
static PILES: [(u32, u64); 3] = [(4, 8), (16, 6), (33, 6)];

#[test]
fn a_pile_in_any_order_shows_the_plain_fold(rt: HostRuntime) {
    let alloc = rt.alloc();
    let history = generated(&rt, alloc);
    for (window, piles) in &PILES {
        let head = head(&rt, alloc, ID, *window);
        let feed = (&head, history.as_slice());
        let mut complete: u64 = 0;
        for round in 0..*piles {
            let mut disk = disk_of(&rt, alloc, &[], 0);
            let drawn = offer_all(&rt, alloc, &mut disk, feed, round);
            // The mirror is loaded again.
            if expect_fold(&rt, alloc, &mut disk, feed, &drawn) {
                complete = complete.saturating_add(1);
            }
            drop(disk);
        }
        // Some piles lack a document, and some don't.
        assert!(rt; (1..*piles).contains(&complete), "{complete} of {piles}");
        drop(head);
    }
    drop(history);
}
