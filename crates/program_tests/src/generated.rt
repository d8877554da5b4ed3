//! `apply` over lines that are generated, with and without a store. A second fold of the lines, which keeps no
//! operations, gives the expected documents.

use crate::runs::{fresh, ran};
use crate::text::{Heading, entry_line, gone_line, heading_text, moment};
use std::alloc::Global;
use std::process::Abort;

/// How many lines there are.
const LINES: u32 = 2_000;

/// The last item of a member in the open window. A line gives its own number to the title of what it makes.
#[derive(Clone, Copy)]
struct Last {
    number: u32,
    line: u32,
    is_gone: bool,
}

/// The lines so far, and the feed after them.
#[derive(Drop)]
pub struct Fold {
    pub lines: String,
    /// How many lines there are, and how many of them come before the open window.
    count: u32,
    before: u32,
    /// The size of the open window, and that of the next one.
    size: u32,
    next_size: u32,
    /// How many windows are sealed.
    pub sealed: u32,
    /// The line that last set the title.
    title: Option<u32>,
    made: u32,
    pub live: Vec<u32>,
    /// The items of the open window, the newest last.
    items: Vec<Last>,
}

/// No lines yet, with windows of 4 operations.
pub fn empty(alloc: Global) -> Fold {
    Fold {
        lines: String::new(alloc),
        count: 0,
        before: 0,
        size: 4,
        next_size: 4,
        sealed: 0,
        title: None,
        made: 0,
        live: Vec::new(alloc),
        items: Vec::new(alloc),
    }
}

/// Counts one more line, which seals the open window if that is full.
fn count_line(fold: &mut Fold) {
    if fold.count.saturating_sub(fold.before) == fold.size {
        fold.sealed = fold.sealed.saturating_add(1);
        fold.before = fold.count;
        fold.size = fold.next_size;
        fold.items.clear();
    }
    fold.count = fold.count.saturating_add(1);
}

/// Makes this the newest item, and the only one of its member.
fn name(rt: &impl Abort, items: &mut Vec<Last>, item: Last) {
    let found = items.iter().position(|other| other.number == item.number);
    if let Some(at) = found {
        items.remove(at);
    }
    items.push(item).expect(rt, "memory");
}

/// Makes a member, or changes or removes a live one. Returns the line.
fn member_line(rt: &impl Abort, alloc: Global, fold: &mut Fold, draw: u64) -> String {
    let place = (draw / 16 % 64) as usize;
    let line = fold.count;
    let (number, is_gone) = match fold.live.get(place) {
        Some(number) => (*number, draw % 4 == 0),
        None => (fold.made.saturating_add(1), false),
    };
    let text = if is_gone {
        fold.live.remove(place);
        format!(in alloc; "remove {number}\n")
    } else if number > fold.made {
        fold.made = number;
        fold.live.push(number).expect(rt, "memory");
        format!(in alloc; "add t{line}\n")
    } else {
        format!(in alloc; "change {number} t{line}\n")
    };
    let item = Last {
        number,
        line,
        is_gone,
    };
    name(rt, &mut fold.items, item);
    text.expect(rt, "memory")
}

/// Sets the title or the size of windows. Returns the line.
fn setting_line(rt: &impl Abort, alloc: Global, fold: &mut Fold, draw: u64) -> String {
    let line = fold.count;
    let text = if draw % 32 < 16 {
        fold.title = Some(line);
        format!(in alloc; "title f{line}\n")
    } else {
        let size = (draw / 32 % 12) as u32 + 1;
        fold.next_size = size;
        format!(in alloc; "window {size}\n")
    };
    text.expect(rt, "memory")
}

/// The subscription document, where the first line had the moment `first`. There are lines.
fn document_of(rt: &impl Abort, alloc: Global, fold: &Fold, first: u32) -> String {
    let title = match fold.title {
        Some(line) => format!(in alloc; "f{line}"),
        None => format!(in alloc; "Feed"),
    };
    let title = title.expect(rt, "memory");
    let updated = moment_of(rt, alloc, first, fold.count);
    let heading = Heading {
        archive: 0,
        prev: fold.sealed,
        title: title.as_str(),
        updated: updated.as_str(),
        first: fold.before.saturating_add(1),
        last: fold.count,
    };
    let mut text = heading_text(rt, alloc, &heading);
    for last in fold.items.iter().rev() {
        let moment = moment_of(rt, alloc, first, last.line);
        let line = if last.is_gone {
            gone_line(rt, alloc, last.number, moment.as_str())
        } else {
            let title = format!(in alloc; "t{}", last.line).expect(rt, "memory");
            entry_line(rt, alloc, last.number, title.as_str(), moment.as_str())
        };
        text.push_str(line.as_str()).expect(rt, "memory");
    }
    text.push_str("</feed>\n").expect(rt, "memory");
    text
}

/// The moment of a line, where the first one had the moment `first`.
fn moment_of(rt: &impl Abort, alloc: Global, first: u32, line: u32) -> String {
    moment(rt, alloc, line.saturating_add(first).saturating_sub(1))
}

/// Appends this number of lines. Returns the next seed of a sequence that looks random.
pub fn push_lines(rt: &impl Abort, alloc: Global, fold: &mut Fold, seed: u64, count: u32) -> u64 {
    let mut seed = seed;
    for _ in 0..count {
        seed = seed
            .wrapping_mul(6_364_136_223_846_793_005)
            .wrapping_add(1_442_695_040_888_963_407);
        count_line(fold);
        let draw = seed >> 33;
        let line = if draw % 16 == 1 {
            setting_line(rt, alloc, fold, draw)
        } else {
            member_line(rt, alloc, fold, draw)
        };
        fold.lines.push_str(line.as_str()).expect(rt, "memory");
    }
    seed
}

#[test]
fn lines_without_a_store_are_folded(rt: HostRuntime) {
    let alloc = rt.alloc();
    let mut disk = fresh(&rt, alloc, 0);
    let mut fold = empty(alloc);
    let mut seed = 11;
    for _ in 0..LINES / 50 {
        seed = push_lines(&rt, alloc, &mut fold, seed, 50);
        let document = document_of(&rt, alloc, &fold, 0);
        let end = ran(&rt, alloc, &mut disk, "apply 4", fold.lines.as_bytes());
        assert!(rt; end.is(0, document.as_bytes()), "{}", fold.count);
    }
    // Enough happened for the comparison to mean something.
    assert!(rt; fold.sealed > 200 && fold.made > 70);
    drop((disk, fold));
}

#[test]
fn lines_with_a_store_are_folded(rt: HostRuntime) {
    let alloc = rt.alloc();
    let mut disk = fresh(&rt, alloc, 0);
    ran(&rt, alloc, &mut disk, "init * --window 4", b"");
    let mut fold = empty(alloc);
    let (mut seed, mut applied) = (12, 0);
    for _ in 0..LINES / 100 {
        seed = push_lines(&rt, alloc, &mut fold, seed, 100);
        // The store was made at the moment 0, so the first line has the next one.
        let document = document_of(&rt, alloc, &fold, 1);
        let lines = fold.lines.as_bytes().get(applied..).expect(&rt, "lines");
        let end = ran(&rt, alloc, &mut disk, "apply", lines);
        assert!(rt; end.is(0, document.as_bytes()), "{}", fold.count);
        applied = fold.lines.len();
    }
    assert!(rt; fold.sealed > 200 && fold.made > 70);
    drop((disk, fold));
}
