//! Courses of a life: its steps are made of the fold too that the tests keep by themselves, and after each one all that
//! the life shows is compared.

use crate::events::Left::{Filled, Given, New, Old};
use crate::events::{Crash, Does, Left, event, head, life};
use crate::fold::{Fold, address, appended};
use Does::{Archive, Delete, Feed, Give, Make, Replace, Title, Walk, Window};
use Step::{Again, Certified, Crashes, Do, Into, Is, Sent, Until};
use atom_values::Many;
use chain_links::Address;
use doc_source::ListSink;
use feed_life::{Event, Life};
use mirror_walk::Outcome;
use std::alloc::Global;
use std::process::Abort;

/// A life's version and sealed archives, the crashes of its store and of its mirrors, how many documents it sent, and what
/// mirror 0 shows.
type State = (u32, u32, u64, u64, usize, Outcome);

enum Step {
    /// An event without a crash.
    Do(Does),
    /// The course's crash falls within this event.
    Into(Does),
    /// The course's crash falls within its own event.
    Crashes,
    /// The course's own event, without a crash.
    Again,
    /// An event without a crash, if the life hasn't this version yet.
    Until(u32, Does),
    /// The state, by the number of payloads that the crash left. The last one is for all greater numbers.
    Is(&'static [State]),
    /// All documents that the life sent: each one's version, address and bytes.
    Sent(&'static [(u32, &'static str, &'static str)]),
    /// The text of mirror 0's certificate, which is empty if it has none.
    Certified(&'static str),
}

struct Course {
    name: &'static str,
    window: u32,
    capacity: u64,
    mirrors: u32,
    /// How many documents a mirror has room for.
    room: usize,
    /// The course is taken with each of these as its own event.
    own: &'static [Does],
    /// Its crash is before the first device call, and within each of the calls below this number.
    calls: u64,
    steps: &'static [Step],
}

const CAPACITY: u64 = 1_000_000;

const NO_FEED: Outcome = Outcome::Missing {
    address: Address::Feed,
};

const NO_ARCHIVE: Outcome = Outcome::Missing {
    address: Address::Archive(1),
};

/// Nothing came of an event.
const NOTHING: Step = Is(&[(2, 0, 0, 0, 1, NO_FEED)]);

static COURSES: [Course; 11] = [
    // A request that seals an archive makes eight calls, of which the last four append the operation. After a crash it is
    // made again if it was lost, and the mirror walks.
    Course {
        name: "a request",
        window: 1,
        capacity: CAPACITY,
        mirrors: 1,
        room: usize::MAX,
        own: &[Make(3)],
        calls: 11,
        steps: &[
            Do(Make(1)),
            Do(Make(2)),
            Do(Feed),
            Crashes,
            Is(&[
                (2, 1, 1, 0, 1, NO_FEED),
                (2, 1, 1, 0, 1, NO_FEED),
                (3, 2, 1, 0, 1, NO_FEED),
            ]),
            Until(3, Make(3)),
            Do(Walk(0)),
            Is(&[(
                3,
                2,
                1,
                0,
                1,
                Outcome::Complete {
                    version: 3,
                    live: 3,
                },
            )]),
        ],
    },
    // Requests of a store with two live members: a POST, a PUT and a DELETE, which append their operation with four calls,
    // and requests that append nothing. Two changes of a setting append their operation too.
    Course {
        name: "four calls",
        window: 4,
        capacity: CAPACITY,
        mirrors: 2,
        room: usize::MAX,
        own: &[
            Make(3),
            Replace(1, 3),
            Delete(2),
            Feed,
            Replace(3, 3),
            Delete(3),
            Title(3),
            Window(2),
        ],
        calls: 7,
        steps: &[
            Do(Make(1)),
            Do(Make(2)),
            Do(Feed),
            Crashes,
            Do(Feed),
            Again,
            Do(Feed),
            Do(Walk(0)),
        ],
    },
    // In windows of one operation, a title and then a size crash, each in the call that seals the archive before it or in
    // its own.
    Course {
        name: "settings",
        window: 1,
        capacity: CAPACITY,
        mirrors: 2,
        room: usize::MAX,
        own: &[Title(3)],
        calls: 11,
        steps: &[
            Do(Make(1)),
            Do(Make(2)),
            Crashes,
            Do(Feed),
            Do(Archive(2)),
            Do(Title(4)),
            Into(Window(3)),
            Do(Feed),
            Do(Archive(3)),
            Do(Window(2)),
            Do(Title(5)),
            Do(Replace(1, 6)),
            Do(Feed),
            Do(Make(7)),
            Do(Feed),
            Do(Archive(2)),
            Do(Walk(0)),
        ],
    },
    // A gift makes four calls.
    Course {
        name: "a gift",
        window: 4,
        capacity: CAPACITY,
        mirrors: 1,
        room: usize::MAX,
        own: &[Give(0, 0)],
        calls: 7,
        steps: &[
            Do(Make(1)),
            Do(Make(2)),
            Do(Feed),
            Crashes,
            Is(&[
                (2, 0, 0, 1, 1, NO_FEED),
                (
                    2,
                    0,
                    0,
                    1,
                    1,
                    Outcome::Complete {
                        version: 2,
                        live: 2,
                    },
                ),
            ]),
            Again,
            Is(&[(
                2,
                0,
                0,
                1,
                1,
                Outcome::Complete {
                    version: 2,
                    live: 2,
                },
            )]),
        ],
    },
    // A walk takes the subscription document and one archive, with four calls each.
    Course {
        name: "a walk",
        window: 1,
        capacity: CAPACITY,
        mirrors: 1,
        room: usize::MAX,
        own: &[Walk(0)],
        calls: 11,
        steps: &[
            Do(Make(1)),
            Do(Make(2)),
            Do(Feed),
            Crashes,
            Is(&[
                (2, 1, 0, 1, 1, NO_FEED),
                (2, 1, 0, 1, 1, NO_ARCHIVE),
                (
                    2,
                    1,
                    0,
                    1,
                    1,
                    Outcome::Complete {
                        version: 2,
                        live: 2,
                    },
                ),
            ]),
            Again,
            Is(&[(
                2,
                1,
                0,
                1,
                1,
                Outcome::Complete {
                    version: 2,
                    live: 2,
                },
            )]),
        ],
    },
    // Events that name no mirror or no document, and requests that change nothing.
    Course {
        name: "nothing",
        window: 4,
        capacity: CAPACITY,
        mirrors: 1,
        room: usize::MAX,
        own: &[Give(1, 0)],
        calls: 2,
        steps: &[
            Do(Make(1)),
            Do(Make(2)),
            Do(Feed),
            Crashes,
            NOTHING,
            Into(Give(0, 1)),
            NOTHING,
            Into(Walk(1)),
            NOTHING,
            Do(Give(4_294_967_295, 4_294_967_295)),
            NOTHING,
            Do(Delete(3)),
            NOTHING,
            Do(Archive(1)),
            NOTHING,
            Do(Give(0, 1)),
            NOTHING,
            Certified(""),
        ],
    },
    // The document of four short entries doesn't fit into a mirror of 4,096 bytes after the first three documents.
    Course {
        name: "a full mirror",
        window: 100,
        capacity: 4_096,
        mirrors: 1,
        room: 3,
        own: &[Walk(0)],
        calls: 1,
        steps: &[
            Do(Make(1)),
            Do(Feed),
            Do(Give(0, 0)),
            Do(Make(2)),
            Do(Feed),
            Do(Give(0, 1)),
            Do(Make(3)),
            Do(Feed),
            Do(Give(0, 2)),
            Do(Make(4)),
            Do(Feed),
            Do(Give(0, 3)),
            Do(Make(5)),
            Do(Feed),
            Do(Give(0, 4)),
            Do(Make(6)),
            Do(Feed),
            Do(Give(0, 5)),
            Do(Make(7)),
            Do(Feed),
            Do(Give(0, 6)),
            Is(&[(
                7,
                0,
                0,
                0,
                7,
                Outcome::Complete {
                    version: 3,
                    live: 3,
                },
            )]),
            Again,
            Is(&[(
                7,
                0,
                0,
                0,
                7,
                Outcome::Complete {
                    version: 3,
                    live: 3,
                },
            )]),
        ],
    },
    // Both archives lie past the subscription document that the mirror holds.
    Course {
        name: "archives past the document",
        window: 1,
        capacity: CAPACITY,
        mirrors: 2,
        room: usize::MAX,
        own: &[Give(0, 0)],
        calls: 1,
        steps: &[
            Do(Make(1)),
            Do(Feed),
            Do(Make(2)),
            Do(Make(3)),
            Do(Archive(1)),
            Do(Archive(2)),
            Do(Give(0, 1)),
            Do(Give(0, 2)),
            Again,
            Is(&[(
                3,
                2,
                0,
                0,
                3,
                Outcome::Complete {
                    version: 1,
                    live: 1,
                },
            )]),
        ],
    },
    // The newest document has the deletion of the only member. Archive 2, which has it too, lies past that document.
    Course {
        name: "a deletion in the document",
        window: 1,
        capacity: CAPACITY,
        mirrors: 2,
        room: usize::MAX,
        own: &[Give(0, 0)],
        calls: 1,
        steps: &[
            Do(Make(1)),
            Do(Delete(1)),
            Do(Feed),
            Do(Make(2)),
            Do(Archive(2)),
            Do(Archive(1)),
            Do(Give(0, 1)),
            Do(Give(0, 2)),
            Again,
            Is(&[(
                3,
                2,
                0,
                0,
                3,
                Outcome::Complete {
                    version: 2,
                    live: 0,
                },
            )]),
        ],
    },
    // An archive alone has the deletion.
    Course {
        name: "a deletion in an archive",
        window: 1,
        capacity: CAPACITY,
        mirrors: 2,
        room: usize::MAX,
        own: &[Give(0, 0)],
        calls: 1,
        steps: &[
            Do(Make(1)),
            Do(Delete(1)),
            Do(Make(2)),
            Do(Feed),
            Do(Archive(1)),
            Do(Archive(2)),
            Do(Give(0, 1)),
            Do(Give(0, 2)),
            Again,
            Is(&[(
                3,
                2,
                0,
                0,
                3,
                Outcome::Complete {
                    version: 3,
                    live: 1,
                },
            )]),
        ],
    },
    // Two documents and a certificate as literal texts.
    Course {
        name: "texts",
        window: 1,
        capacity: CAPACITY,
        mirrors: 2,
        room: usize::MAX,
        own: &[Walk(0)],
        calls: 1,
        steps: &[
            Do(Make(1)),
            Do(Make(2)),
            Do(Feed),
            Do(Archive(1)),
            Again,
            Sent(&[
                (2, "http://feed.example/feed", FEED),
                (2, "http://feed.example/archive/1", ARCHIVE),
            ]),
            Certified(CERTIFICATE),
        ],
    },
];

const FEED: &str =
    "<?xml version=\"1.0\" encoding=\"utf-8\"?>\n<feed xmlns=\"http://www.w3.org/2005/Atom\" xmlns:fh=\"http://purl.org/syndication/history/1.0\" xmlns:at=\"http://purl.org/atompub/tombstones/1.0\" xmlns:app=\"http://www.w3.org/2007/app\" xmlns:sp=\"urn:archived-feed:span:1\">\n<id>urn:uuid:6d1f0c5a-93be-4c27-8d10-2b7f9e4a5c36</id>\n<title>Feed</title>\n<updated>2023-11-14T22:13:20.001Z</updated>\n<author><name>Editor</name></author>\n<link rel=\"self\" href=\"http://feed.example/feed\"/>\n<link rel=\"prev-archive\" href=\"http://feed.example/archive/1\"/>\n<sp:span first=\"2\" last=\"2\"/>\n<entry><id>urn:uuid:6d1f0c5a-93be-8c27-8000-000000000002</id><title>t2</title><updated>2023-11-14T22:13:20.001Z</updated><app:edited>2023-11-14T22:13:20.001Z</app:edited><link rel=\"edit\" href=\"http://feed.example/member/2\"/><content></content></entry>\n</feed>\n";

const ARCHIVE: &str =
    "<?xml version=\"1.0\" encoding=\"utf-8\"?>\n<feed xmlns=\"http://www.w3.org/2005/Atom\" xmlns:fh=\"http://purl.org/syndication/history/1.0\" xmlns:at=\"http://purl.org/atompub/tombstones/1.0\" xmlns:app=\"http://www.w3.org/2007/app\" xmlns:sp=\"urn:archived-feed:span:1\">\n<id>urn:uuid:6d1f0c5a-93be-4c27-8d10-2b7f9e4a5c36</id>\n<title>Feed</title>\n<updated>2023-11-14T22:13:20Z</updated>\n<author><name>Editor</name></author>\n<link rel=\"self\" href=\"http://feed.example/archive/1\"/>\n<link rel=\"current\" href=\"http://feed.example/feed\"/>\n<link rel=\"next-archive\" href=\"http://feed.example/archive/2\"/>\n<fh:archive/>\n<sp:span first=\"1\" last=\"1\"/>\n<entry><id>urn:uuid:6d1f0c5a-93be-8c27-8000-000000000001</id><title>t1</title><updated>2023-11-14T22:13:20Z</updated><app:edited>2023-11-14T22:13:20Z</app:edited><link rel=\"edit\" href=\"http://feed.example/member/1\"/><content></content></entry>\n</feed>\n";

/// The certificate of its mirror 0. A program in Python computed the digests.
const CERTIFICATE: &str = "\
coverage 1\n\
feed 6d1f0c5a-93be-4c27-8d10-2b7f9e4a5c36 http://feed.example/\n\
version 2\n\
document http://feed.example/feed e091b864b5f109dc96b1c6b55d652a5874986b12b139a1098e5a93b9d7b16e6e\n\
document http://feed.example/archive/1 0ab4e51a031eda3a5bab1712e5c3c36ddada35567d1a1e35a7c03ec82e7aa4f5\n\
live 2 1f3945b6e25fa772471342a1af81f4ae5ef2db6a7afa248c1f152bf53110b359\n\
end\n\
";

/// Compares the counts of a life, what its mirrors show, and the newest document that it sent.
fn compare(rt: &impl Abort, alloc: Global, life: &mut Life, fold: &Fold) {
    let version = fold.version();
    let told = (life.version(), life.sealed());
    assert!(rt; told == (version, fold.prev(version)), "{}", fold.name);
    let told = (life.stops(), life.mirror_stops(), life.sent().len());
    let wanted = (fold.stops, fold.mirror_stops, fold.sent.len());
    assert!(rt;
        told == wanted && life.mirrors() == fold.mirrors as usize,
        "{}",
        fold.name
    );
    for mirror in 0..fold.mirrors {
        assert!(rt; (mirror as usize) < life.mirrors());
        let shown = life.outcome(mirror).expect(rt, "memory");
        assert!(rt; shown == fold.outcome(mirror), "{}: {shown:?}", fold.name);
    }
    let (Some(sent), Some(&(doc, version))) = (life.sent().last(), fold.sent.as_slice().last())
    else {
        return;
    };
    let (named, text) = (address(rt, alloc, doc), fold.text(rt, alloc, doc));
    assert!(rt; sent.version == version && sent.address.slice() == named.as_bytes());
    assert!(rt;
        sent.bytes.slice() == text.as_bytes(),
        "{}: {text}",
        fold.name
    );
}

/// Makes a step of a life and of the fold, and compares.
fn advance(
    rt: &impl Abort,
    alloc: Global,
    life: &mut Life,
    fold: &mut Fold,
    (does, crash): (Does, Option<Crash>),
) {
    let line = life
        .step(event(rt, alloc, does, crash))
        .expect(rt, "memory");
    let status = fold.take(rt, does, crash);
    let told = match line {
        Some(line) => (Some(line.status), line.version, line.whole),
        None => (None, life.version(), true),
    };
    assert!(rt;
        told == (status, fold.version(), true),
        "{}: {told:?}",
        fold.name
    );
    compare(rt, alloc, life, fold);
}

/// Compares a life with the state for this number of payloads.
fn expect_state(rt: &impl Abort, life: &mut Life, states: &[State], payloads: u64) {
    let last = states.len().saturating_sub(1);
    let state = states.get(last.min(payloads as usize));
    let &(version, sealed, stops, mirror_stops, sent, shown) = state.expect(rt, "a state");
    assert!(rt; life.version() == version && life.sealed() == sealed);
    assert!(rt; life.stops() == stops && life.mirror_stops() == mirror_stops);
    assert!(rt; life.mirrors() > 0);
    let outcome = life.outcome(0).expect(rt, "memory");
    assert!(rt;
        life.sent().len() == sent && outcome == shown,
        "{outcome:?}"
    );
}

/// Compares all documents that a life sent.
fn expect_sent(rt: &impl Abort, life: &Life, wanted: &[(u32, &'static str, &'static str)]) {
    assert!(rt; life.sent().len() == wanted.len());
    for (sent, (version, address, text)) in life.sent().iter().zip(wanted) {
        assert!(rt; sent.version == *version && sent.address.slice() == address.as_bytes());
        assert!(rt; sent.bytes.slice() == text.as_bytes(), "{address}");
    }
}

/// Compares the text of mirror 0's certificate.
fn expect_certified(rt: &impl Abort, alloc: Global, life: &mut Life, text: &str) {
    assert!(rt; life.mirrors() > 0);
    let made = life.certificate(0).expect(rt, "memory");
    let mut sink = ListSink::new(alloc, Many::new(alloc));
    if let Some(certificate) = &made {
        certificate.print(&mut sink).expect(rt, "a text");
    }
    assert!(rt; sink.bytes() == text.as_bytes());
    drop((made, sink));
}

/// Makes the steps of a course.
fn follow(rt: &impl Abort, alloc: Global, course: &Course, own: Does, crash: Crash) {
    let mut life = life(rt, alloc, course.window, course.capacity, course.mirrors);
    let mut fold = Fold::new(alloc, course.name, course.window);
    fold.mirrors = course.mirrors;
    fold.room = course.room;
    for step in course.steps {
        let next = match step {
            Do(does) => (*does, None),
            Into(does) => (*does, Some(crash)),
            Crashes => (own, Some(crash)),
            Again => (own, None),
            Until(version, does) if life.version() < *version => (*does, None),
            Until(..) => continue,
            Is(states) => {
                expect_state(rt, &mut life, states, appended(crash));
                continue;
            }
            Sent(wanted) => {
                expect_sent(rt, &life, wanted);
                continue;
            }
            Certified(text) => {
                expect_certified(rt, alloc, &mut life, text);
                continue;
            }
        };
        advance(rt, alloc, &mut life, &mut fold, next);
    }
    drop((life, fold));
}

static ALL: [Left; 4] = [Old, New, Filled, Given];

/// Follows a course with each of its own events and each crash.
fn expect_course(rt: &impl Abort, alloc: Global, course: &Course) {
    for own in course.own {
        for call in 0..course.calls {
            for left in ALL {
                follow(rt, alloc, course, *own, (call, left));
            }
        }
    }
}

#[test]
fn courses_equal_the_fold(rt: HostRuntime) {
    for course in &COURSES {
        expect_course(&rt, rt.alloc(), course);
    }
}

/// Returns a number below this one, by the generator of Park and Miller.
fn below(state: &mut u64, limit: u32) -> u32 {
    *state = state.wrapping_mul(48_271) % 2_147_483_647;
    let drawn = u32::try_from(*state / 8).unwrap_or(0);
    drawn.checked_rem(limit).unwrap_or(0)
}

/// An event of this number, and its crash if it has one.
fn drawn(state: &mut u64, number: u32) -> (Does, Option<Crash>) {
    let (kind, member, place) = (below(state, 12), below(state, 9), below(state, 12));
    let does = match kind {
        0..=2 => Make(number),
        3 => Replace(member, number),
        4 => Delete(member),
        5 => Feed,
        6 => Archive(member),
        7 | 8 => Give(member % 3, place),
        9 => Title(number),
        10 => Window(member % 4 + 1),
        _ => Walk(member % 3),
    };
    let left = match below(state, 4) {
        0 => Old,
        1 => New,
        2 => Filled,
        _ => Given,
    };
    let crash = (u64::from(below(state, 12)), left);
    let crashes = below(state, 3) == 0;
    (does, if crashes { Some(crash) } else { None })
}

/// A life of sixty events by this seed. At its end both mirrors walk. `feed_life::life` makes the same of all events.
fn expect_life(rt: &impl Abort, alloc: Global, seed: u64) {
    let mut stepped = life(rt, alloc, 3, CAPACITY, 2);
    let mut fold = Fold::new(alloc, "a generated life", 3);
    let mut events: Vec<Event> = Vec::new(alloc);
    let mut state = seed;
    for number in 0..62 {
        let next = if number < 60 {
            drawn(&mut state, number)
        } else {
            (Walk(number - 60), None)
        };
        advance(rt, alloc, &mut stepped, &mut fold, next);
        let event = event(rt, alloc, next.0, next.1);
        events.push(event).expect(rt, "memory");
    }
    let head = head(rt, alloc, 3, CAPACITY);
    let mut lived = feed_life::life(alloc, &head, 2, events.as_slice()).expect(rt, "memory");
    compare(rt, alloc, &mut lived, &fold);
    drop((stepped, lived, events, head, fold));
}

#[test]
fn generated_lives_equal_the_fold(rt: HostRuntime) {
    for seed in 1..14 {
        expect_life(&rt, rt.alloc(), seed);
    }
}
