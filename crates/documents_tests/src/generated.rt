//! Generated histories. The table of the members is compared with the plain functions, which read the whole history. A
//! chain of documents is walked from the subscription document back, and shows the plain fold. A `Window` is compared
//! with the functions over the list of its operations.
ghost use Rattle.std.specs.Prelude.{◌≡◌, ◌≤◌, pos, length};
ghost use Rattle.archive_sealer.specs.Window.{IsOfFeed};
ghost use Rattle.member_rules.specs.Table.{IsTableOf};

use crate::samples::{Feed, NewSetting, PLAIN, Parts, Step, apply, ask, empty, head};
use archive_sealer::{Window, archive, full_windows, sealed_windows, subscription};
use atom_values::{Copies, NoMemory, Stamp};
use atom_writer::{Doc, write_doc};
use chain_links::{Place, follows};
use deleted_entries::Item;
use member_rules::{
    Head, Op, Setting, State, plain_count, plain_last_moment, plain_live_count, plain_state,
};
use std::alloc::Global;
use std::process::Abort;

/// A generated history, and what it has to have more than for the comparisons to mean something.
struct Run {
    seed: u64,
    rounds: u16,
    /// Of sixteen draws, those below these numbers change a member, remove one, and set a setting. The others add one.
    draws: [u64; 3],
    /// Whether a member is added where an ask is refused.
    refills: bool,
    /// The sizes of windows in whose chains each prefix is walked.
    chains: &'static [u8],
    /// The sizes of windows that are given all operations.
    windows: &'static [u8],
    operations: usize,
    live: u32,
    deleted: u32,
    settings: usize,
}

static RUNS: [Run; 3] = [
    Run {
        seed: 1,
        rounds: 3_000,
        draws: [4, 8, 10],
        refills: false,
        chains: &[],
        windows: &[],
        operations: 1_000,
        live: 100,
        deleted: 100,
        settings: 20,
    },
    Run {
        seed: 7,
        rounds: 120,
        draws: [4, 8, 10],
        refills: false,
        chains: &[1, 2, 3, 7, 100],
        windows: &[],
        operations: 50,
        live: 5,
        deleted: 5,
        settings: 1,
    },
    // A window often names a member again.
    Run {
        seed: 11,
        rounds: 1_000,
        draws: [10, 12, 14],
        refills: true,
        chains: &[],
        windows: &[1, 3, 100],
        operations: 999,
        live: 20,
        deleted: 20,
        settings: 20,
    },
];

/// The titles are the beginnings of this text.
static LETTERS: &[u8] = b"abcdefghijklmnopqrstuvwxyzABCDEFGHIJKLMNOPQRSTUVWXYZ0123456789-_";

/// The step of a seed. Most sizes of windows are small.
fn drawn(seed: u64, draws: &[u64; 3], number: u32) -> Step {
    let [changes, removes, sets] = *draws;
    let drawn = (seed >> 20) % 16;
    if drawn < changes {
        Step::Change(number)
    } else if drawn < removes {
        Step::Remove(number)
    } else if drawn >= sets {
        Step::Add(number)
    } else if seed >> 63 == 0 {
        let (title, _) = LETTERS.split_at(((seed >> 50) % 64) as usize);
        Step::Set(NewSetting::Title(title))
    } else if (seed >> 60) % 4 == 0 {
        Step::Set(NewSetting::Window(((seed >> 40) % 100) as u32 + 1))
    } else {
        Step::Set(NewSetting::Window(((seed >> 40) % 6) as u32 + 1))
    }
}

/// Makes an ask on the member with this number.
fn turn(
    rt: &impl Abort,
    alloc: Global,
    feed: &mut Feed,
    run: &Run,
    seed: u64,
    number: u32,
    now: u64,
)
    requires { IsTableOf feed.old.members (pos 0) feed.old.history.items }
    ensures { IsTableOf feed.new.members (pos 0) feed.new.history.items }
{
    let parts = Parts {
        id: None,
        updated: if seed >> 60 == 0 { Some(9_000) } else { None },
        long: None,
    };
    let step = drawn(seed, &run.draws, number);
    let drawn = ask(rt, alloc, &parts, step);
    let refused = apply(rt, feed, drawn, now).is_some();
    if refused && run.refills {
        let add = ask(rt, alloc, &PLAIN, Step::Add(0));
        drop(apply(rt, feed, add, now));
    }
}

/// Compares the table with the plain functions.
fn expect_table(rt: &impl Abort, feed: &Feed, number: u32) {
    let (members, history) = (&feed.members, feed.history.as_slice());
    assert!(rt; history.len() < 10_000);
    let created = Stamp::new(0).expect(rt, "a moment");
    assert!(rt;
        members.state(number) == plain_state(history, number),
        "{number}"
    );
    assert!(rt; members.count() == plain_count(history));
    assert!(rt; members.last_moment() == plain_last_moment(created, history));
    if history.len() % 250 == 0 {
        assert!(rt; members.live_count() == plain_live_count(history));
    }
}

/// Notes the items of a document for the members that no newer document has, and returns the document's place. The
/// version of an entry is noted as 0.
fn note(newest: &mut [State], doc: Doc) -> Place {
    for item in doc.items.as_slice() {
        if let Some(place) = newest.get_mut(item.number() as usize - 1) {
            if *place == State::Never {
                *place = match item {
                    Item::Kept(entry) => State::Live {
                        version: 0,
                        updated: entry.updated,
                    },
                    Item::Gone(gone) => State::Gone { when: gone.when },
                };
            }
        }
    }
    let place = doc.place();
    drop(doc);
    place
}

/// Walks the chain of the history, and returns what it says of each member.
fn walked(rt: &impl Abort, alloc: Global, head: &Head, history: &[Op]) -> Vec<State>
    requires { length history.now ≤ 1_000 }
{
    let count = plain_count(history) as usize;
    let mut newest = vec![in alloc; State::Never; count].expect(rt, "memory");
    let full = full_windows(head, history);
    let doc = subscription(alloc, head, history).expect(rt, "memory");
    let mut newer = note(&mut newest, doc);
    for _ in history {
        if newer.prev == 0 {
            break;
        }
        assert!(rt; newer.prev <= full);
        let doc = archive(alloc, head, history, newer.prev).expect(rt, "memory");
        let older = note(&mut newest, doc);
        assert!(rt; follows(&older, &newer));
        newer = older;
    }
    assert!(rt; newer.span.first == 1);
    newest
}

/// Compares what the chain says of each member with the fold's answer, by a look at each operation.
fn expect_chain(rt: &impl Abort, alloc: Global, window: u8, history: &[Op]) {
    assert!(rt; history.len() <= 1_000);
    let head = head(rt, alloc, window);
    let newest = walked(rt, alloc, &head, history);
    drop(head);
    for before in 0..plain_count(history) {
        let folded = match plain_state(history, before + 1) {
            State::Live { updated, .. } => State::Live {
                version: 0,
                updated,
            },
            other => other,
        };
        let shown = newest.get(before as usize);
        assert!(rt; shown == Some(&folded), "{before} in windows of {window}");
    }
}

fn text(rt: &impl Abort, alloc: Global, made: Result<Doc, NoMemory>) -> Vec<u8> {
    let doc = made.expect(rt, "memory");
    let text = write_doc(alloc, &doc);
    drop(doc);
    text.expect(rt, "memory")
}

/// Compares a window with the list of its operations: their number, the number of sealed windows, the text of the
/// subscription document, and that of the open window's archive if it is full.
fn expect_window(rt: &impl Abort, alloc: Global, head: &Head, window: &Window, history: &[Op])
    requires feed { IsOfFeed window.now head.now }
    requires few { length history.now ≤ 1_000 }
{
    let (sealed, full) = (sealed_windows(head, history), full_windows(head, history));
    assert!(rt; window.operations() as usize == history.len() && window.sealed() == sealed);
    let told = text(rt, alloc, window.subscription(head));
    let listed = text(rt, alloc, subscription(alloc, head, history));
    assert!(rt; told.as_slice() == listed.as_slice(), "{sealed}");
    assert!(rt; window.is_full() == (sealed < full));
    if window.is_full() {
        assert!(rt; sealed < full);
        let told = text(rt, alloc, window.archive(head));
        let listed = text(rt, alloc, archive(alloc, head, history, sealed + 1));
        assert!(rt; told.as_slice() == listed.as_slice(), "{sealed}");
    }
}

/// Gives a window the operations of the history. Before each, compares it with the list of those that it has.
fn expect_windows(rt: &impl Abort, alloc: Global, head: &Head, history: &[Op])
    requires { length history.now ≤ 1_000 }
{
    let title = head.name.title.copy(alloc).expect(rt, "memory");
    let mut window = Window::new(alloc, head.window, title).expect(rt, "memory");
    for (count, operation) in history.iter().enumerate() {
        let (given, _) = history.split_at(count);
        expect_window(rt, alloc, head, &window, given);
        window.prepare().expect(rt, "memory");
        window.commit(operation.copy(alloc).expect(rt, "memory"));
    }
    drop(window);
}

/// How many operations set a title, and how many a size.
fn settings(history: &[Op]) -> (usize, usize) {
    let (mut titles, mut sizes) = (0usize, 0usize);
    for operation in history {
        match operation {
            Op::Set {
                setting: Setting::Title(_),
                ..
            } => titles = titles.saturating_add(1),
            Op::Set {
                setting: Setting::Window(_),
                ..
            } => sizes = sizes.saturating_add(1),
            Op::Add(_) | Op::Change(_) | Op::Remove(_) => {}
        }
    }
    (titles, sizes)
}

/// The next number of a fixed sequence.
fn next(seed: u64) -> u64 {
    seed.wrapping_mul(6_364_136_223_846_793_005)
        .wrapping_add(1_442_695_040_888_963_407)
}

/// Makes the history of a run. The table, and the chains, are compared after each ask.
fn expect_run(rt: &impl Abort, alloc: Global, run: &Run) {
    let mut feed = empty(rt, alloc);
    let mut seed = run.seed;
    for round in 0..run.rounds {
        seed = next(seed);
        // The number of a live member, of a deleted one, the next one or 0.
        let number = ((seed >> 33) % (u64::from(feed.members.count()) + 2)) as u32;
        let now = (seed >> 40) % (10 * u64::from(round) + 1);
        turn(rt, alloc, &mut feed, run, seed, number, now);
        expect_table(rt, &feed, number);
        for window in run.chains {
            expect_chain(rt, alloc, *window, feed.history.as_slice());
        }
    }
    let (live, count) = (feed.members.live_count(), feed.members.count());
    assert!(rt; live > run.live && count > live.saturating_add(run.deleted));
    let history = feed.history.as_slice();
    let (titles, sizes) = settings(history);
    assert!(rt; titles > run.settings && sizes > run.settings);
    assert!(rt; history.len() > run.operations);
    for size in run.windows {
        assert!(rt; history.len() <= 1_000);
        let head = head(rt, alloc, *size);
        expect_windows(rt, alloc, &head, history);
        drop(head);
    }
    drop(feed);
}

#[test]
fn generated_histories_keep_the_fold(rt: HostRuntime) {
    for run in &RUNS {
        expect_run(&rt, rt.alloc(), run);
    }
}
