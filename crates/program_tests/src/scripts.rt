//! Scripts of runs, and how they are followed.
//!
//! A script has courses, each on an empty disk of its own, and a course has steps, one after another:
//!
//! ```text
//! ~ a member is made
//! $ init * > 0 ready|
//! $ apply < add a| > 0 {letters,1}
//! $ apply < subtract| > 10
//! ! output 1
//! ```
//!
//! The line after `~` is the course's title. After it, lines without a mark are comments. A title may end with `: FROM TO`:
//! then the course begins anew for each device call from the first number up to before the second, and that call fails.
//! If it ends with `: unused`, no device call may be made.
//!
//! The line after `$` has the words of a command as `spelled` reads them, its input after ` < `, and after ` > ` its exit
//! status and what it prints. `{any}` at the end stands for any rest. `text` says how inputs and outputs are written. The
//! pseudo command `write AREA OFFSET < BYTES` writes over bytes of the disk and syncs the area. Marked lines say more about a
//! step, in any order. Those after a title hold for each step of the course.
//!
//! | Line | Meaning |
//! |---|---|
//! | `@ BYTES` | a client at the door |
//! | `+ ADDRESS TEXT` | a document of the source |
//! | `! OBJECT NUMBER` | a call that fails, of the `input`, the `output`, each `client`, the `door` or the `source` |
//! | `! clock FIRST LATER` | the first moment of the clock, and all later ones |
//! | `? ADDRESS` | the next address that the source is asked for |
//! | `= BYTES` | how the bytes end that the next client is sent |
//! | `: STATUS VERSION` | the next line that `run` returns, with ` cut` after it if the reply wasn't sent whole |

use crate::runs::{SETTING, Setting, door_of, fresh, ran, source_of, whole_end};
use crate::text::{expanded, push};
use atom_values::Bytes;
use document_server::Line;
use feed_disk::{Area, Choice, Disk, MemoryDisk};
use http_face::ScriptConn;
use std::alloc::Global;
use std::process::Abort;

/// Sets the failing call of an object.
fn set(rt: &impl Abort, setting: &mut Setting, object: &str, call: u64) {
    match object {
        "input" => setting.input = call,
        "output" => setting.output = call,
        "client" => setting.client = call,
        "door" => setting.door = call,
        "source" => setting.source = call,
        _ => assert!(rt; false, "{object}"),
    }
}

/// The number that a text has.
fn number_of(rt: &impl Abort, text: &str) -> u64 {
    text.parse::<u64>().expect(rt, "a number")
}

/// The setting of a step.
fn setting_of(rt: &impl Abort, step: &str) -> Setting {
    let mut setting = SETTING;
    for line in step.split('\n') {
        let Some(text) = line.strip_prefix("! ") else {
            continue;
        };
        let (name, rest) = text.split_once(' ').expect(rt, "a number");
        if name == "clock" {
            let (first, later) = rest.split_once(' ').expect(rt, "a moment");
            setting.moments = (number_of(rt, first), number_of(rt, later));
        } else if name != "each" {
            set(rt, &mut setting, name, number_of(rt, rest));
        }
    }
    setting
}

/// The lines of a step with this mark, without it.
fn marked(rt: &impl Abort, alloc: Global, step: &str, mark: &str) -> Vec<u8> {
    let mut text = Vec::new(alloc);
    for line in step.split('\n') {
        if let Some(rest) = line.strip_prefix(mark) {
            push(rt, &mut text, rest.as_bytes());
            push(rt, &mut text, b"\n");
        }
    }
    text
}

/// The lines that `run` returned, as a script has them.
fn lines_text(rt: &impl Abort, alloc: Global, lines: &[Line]) -> Vec<u8> {
    let mut text = Vec::new(alloc);
    for line in lines {
        let (status, version) = (line.status, line.version);
        let cut = if line.whole { "" } else { " cut" };
        let line = format!(in alloc; "{status} {version}{cut}\n").expect(rt, "memory");
        push(rt, &mut text, line.as_bytes());
    }
    text
}

/// The addresses that were asked, a line each.
fn asked_text(rt: &impl Abort, alloc: Global, asked: &[Bytes]) -> Vec<u8> {
    let mut text = Vec::new(alloc);
    for address in asked {
        push(rt, &mut text, address.slice());
        push(rt, &mut text, b"\n");
    }
    text
}

/// Whether the bytes that the clients are sent end as the step says.
fn are_replies(rt: &impl Abort, alloc: Global, step: &str, conns: &[ScriptConn]) -> bool {
    let mut conns = conns.iter();
    let mut alike = true;
    for line in step.split('\n') {
        if let Some(part) = line.strip_prefix("= ") {
            let ending = expanded(rt, alloc, part);
            let conn = conns.next().expect(rt, "a client");
            alike = alike && conn.sent().ends_with(ending.as_slice());
        }
    }
    alike
}

/// How a step ends.
#[derive(Drop)]
struct Outcome {
    /// The status, and after a space what is printed.
    text: Vec<u8>,
    /// The lines that `run` returns.
    lines: Vec<u8>,
    /// Whether the source was asked for the addresses of the step, the replies end so, and only a drill returns a life.
    is_right: bool,
}

/// The command of a step, and how it should end.
fn parts_of<'a>(rt: &impl Abort, step: &'a str) -> (&'a str, &'a str) {
    let (line, _) = step.split_once('\n').expect(rt, "a line");
    line.split_once(" > ").expect(rt, "an end")
}

/// Runs the command of a step.
fn outcome_of<D: Disk>(
    rt: &impl Abort,
    alloc: Global,
    disk: &mut D,
    step: &str,
    setting: &Setting,
) -> Outcome {
    let (command, _) = parts_of(rt, step);
    let (words, input) = match command.split_once(" < ") {
        Some((words, input)) => (words, input),
        None => (command, ""),
    };
    let words = words.strip_prefix(' ').unwrap_or(words);
    let input = expanded(rt, alloc, input);
    let mut door = door_of(rt, alloc, step, setting);
    let mut fetch = source_of(rt, alloc, step, setting);
    let given = (words, input.as_slice());
    let (ended, printed) = whole_end(rt, alloc, disk, &mut door, &mut fetch, given, setting);
    let asked = asked_text(rt, alloc, fetch.asked());
    let wanted = marked(rt, alloc, step, "? ");
    let is_drill = ended.status == 0 && words.starts_with("drill ");
    let replied = are_replies(rt, alloc, step, door.given());
    let is_right = replied
        && asked.as_slice() == wanted.as_slice()
        && ended.life.is_some() == is_drill;
    let text = status_text(rt, alloc, ended.status, printed.as_slice());
    let lines = lines_text(rt, alloc, ended.lines.as_slice());
    drop((input, door, fetch, ended, printed));
    drop((asked, wanted));
    Outcome {
        text,
        lines,
        is_right,
    }
}

/// A status, and after a space what is printed.
fn status_text(rt: &impl Abort, alloc: Global, status: u8, printed: &[u8]) -> Vec<u8> {
    let space = if printed.is_empty() { "" } else { " " };
    let text = format!(in alloc; "{status}{space}").expect(rt, "memory");
    let mut text = text.into_bytes();
    push(rt, &mut text, printed);
    text
}

/// Writes over bytes of an area. The text has its name, the offset and the bytes.
fn put<D: Disk>(rt: &impl Abort, alloc: Global, disk: &mut D, text: &str) {
    let (line, _) = text.split_once('\n').expect(rt, "a line");
    let (place, part) = line.split_once(" < ").expect(rt, "bytes");
    let (name, offset) = place.split_once(' ').expect(rt, "an offset");
    let area = match name {
        "journal" => Area::Journal,
        "sealed" => Area::Sealed,
        _ => Area::Mirror,
    };
    let at = number_of(rt, offset);
    let bytes = expanded(rt, alloc, part);
    let size = disk.size(area).expect(rt, "a size");
    assert!(rt; at <= size, "{line}");
    disk.write(area, at, bytes.as_slice()).expect(rt, "a write");
    disk.sync(area).expect(rt, "a sync");
}

/// Takes a step, and returns whether it ends as it should.
fn is_taken<D: Disk>(rt: &impl Abort, alloc: Global, disk: &mut D, step: &str) -> bool {
    if let Some(text) = step.strip_prefix(" write ") {
        put(rt, alloc, disk, text);
        return true;
    }
    let setting = setting_of(rt, step);
    let outcome = outcome_of(rt, alloc, disk, step, &setting);
    let lines = marked(rt, alloc, step, ": ");
    let (_, wanted) = parts_of(rt, step);
    let text = outcome.text.as_slice();
    let ends = match wanted.strip_suffix("{any}") {
        Some(start) => text.starts_with(expanded(rt, alloc, start).as_slice()),
        None => text == expanded(rt, alloc, wanted).as_slice(),
    };
    let taken = ends && outcome.is_right && outcome.lines.as_slice() == lines.as_slice();
    drop((outcome, lines));
    taken
}

/// Takes the steps of a text on a disk, one after another, each with the marked lines of `preface`.
fn follow<D: Disk>(
    rt: &impl Abort,
    alloc: Global,
    disk: &mut D,
    (preface, steps): (&str, &str),
    call: u64,
) {
    let (_, steps) = steps.split_once('$').expect(rt, "a step");
    for step in steps.split('$') {
        let step = format!(in alloc; "{step}\n{preface}").expect(rt, "memory");
        assert!(rt;
            is_taken(rt, alloc, disk, step.as_str()),
            "call {call}: {step}"
        );
    }
}

/// The device calls that fail in a course, one in each pass: from the first number up to before the second. 0 means none.
fn calls_of(rt: &impl Abort, title: &str) -> (u64, u64) {
    let Some((_, calls)) = title.split_once(": ") else {
        return (0, 1);
    };
    match calls.split_once(' ') {
        Some((from, to)) => (number_of(rt, from), number_of(rt, to)),
        None => (1, 2),
    }
}

/// Follows a course.
fn expect_course(rt: &impl Abort, alloc: Global, course: &str) {
    let (preface, _) = course.split_once('$').expect(rt, "a step");
    let (title, _) = preface.split_once('\n').expect(rt, "a title");
    let (from, to) = calls_of(rt, title);
    for call in from..to {
        let mut disk = fresh(rt, alloc, call);
        follow(rt, alloc, &mut disk, (preface, course), call);
        let is_unused = disk.calls() == 0;
        drop(disk);
        assert!(rt; is_unused || !title.ends_with(": unused"), "{title}");
    }
}

/// Follows each course of a script.
pub fn expect_script(rt: &impl Abort, alloc: Global, script: &str) {
    let (_, courses) = script.split_once('~').expect(rt, "a course");
    for course in courses.split('~') {
        expect_course(rt, alloc, course);
    }
}

/// Runs the command of a step on a store without operations, where this call of an object fails. Returns the status, what
/// is printed, and after a colon the lines.
fn turn_text(rt: &impl Abort, alloc: Global, step: &str, object: &str, call: u64) -> Vec<u8> {
    let mut setting = setting_of(rt, step);
    set(rt, &mut setting, object, call);
    let mut disk = fresh(rt, alloc, 0);
    ran(rt, alloc, &mut disk, "init *", b"");
    let Outcome {
        mut text,
        lines,
        ..
    } = outcome_of(rt, alloc, &mut disk, step, &setting);
    drop(disk);
    push(rt, &mut text, b":");
    push(rt, &mut text, lines.as_slice());
    text
}

/// Lets the calls of an object fail in turn from this one on, while the runs begin so, and returns the first call whose run
/// doesn't.
fn next_call(
    rt: &impl Abort,
    alloc: Global,
    step: &str,
    (object, call): (&str, u64),
    beginning: &[u8],
) -> u64 {
    for call in call..1_000 {
        let text = turn_text(rt, alloc, step, object, call);
        if !text.as_slice().starts_with(beginning) {
            return call;
        }
    }
    1_000
}

/// Runs the command of a step, whose calls of an object fail in turn from the first one on. The line `! each OBJECT LEAST`
/// names the object, and how many of the calls fail at least. The runs begin as the ends of the step say that are between
/// ` then `, in order, and each end comes at least once. With the last one no call fails.
fn expect_turn(rt: &impl Abort, alloc: Global, step: &str) {
    let (_, each) = step.split_once("! each ").expect(rt, "an object");
    let (each, _) = each.split_once('\n').expect(rt, "a line");
    let (object, least) = each.split_once(' ').expect(rt, "a number");
    let (_, wanted) = parts_of(rt, step);
    let (ends, last) = wanted.rsplit_once(" then ").expect(rt, "two ends");
    let mut call = 1;
    for end in ends.split(" then ") {
        let first = call;
        let beginning = expanded(rt, alloc, end);
        call = next_call(rt, alloc, step, (object, call), beginning.as_slice());
        assert!(rt; call > first, "{end}: {step}");
    }
    let beginning = expanded(rt, alloc, last);
    let text = turn_text(rt, alloc, step, object, call);
    let is_last = text.as_slice().starts_with(beginning.as_slice());
    assert!(rt;
        is_last && call > number_of(rt, least),
        "call {call}: {step}"
    );
}

/// Lets the calls of each step of a script fail in turn.
pub fn expect_turns(rt: &impl Abort, alloc: Global, script: &str) {
    let (_, steps) = script.split_once('$').expect(rt, "a step");
    for step in steps.split('$') {
        expect_turn(rt, alloc, step);
    }
}

/// How a crash fills the bytes that aren't synced.
#[derive(Clone, Copy)]
pub enum Filling {
    Old,
    New,
    Byte,
}

/// Steps in which the machine crashes.
pub struct Crash {
    pub before: &'static str,
    /// The steps in each device call of which it crashes.
    pub within: &'static str,
    /// They make more device calls than this.
    pub least: u64,
    /// A filling, the steps on what a crash within one of the last two calls leaves, and those after an earlier one.
    pub left: &'static [(Filling, &'static str, &'static str)],
}

/// Follows the steps on what a crash within a device call leaves.
fn expect_left(
    rt: &impl Abort,
    alloc: Global,
    disk: &MemoryDisk,
    filling: Filling,
    steps: &str,
    call: u64,
) {
    let choice = match filling {
        Filling::Old => Choice::Old,
        Filling::New => Choice::New,
        Filling::Byte => Choice::Fill(165),
    };
    let within = call.min(disk.calls());
    let mut image = disk.image(within, &choice).expect(rt, "memory");
    follow(rt, alloc, &mut image, ("", steps), call);
    drop((image, choice));
}

/// Crashes within each device call.
pub fn expect_crashes(rt: &impl Abort, alloc: Global, crash: &Crash) {
    let mut disk = fresh(rt, alloc, 0);
    follow(rt, alloc, &mut disk, ("", crash.before), 0);
    let began = disk.calls();
    follow(rt, alloc, &mut disk, ("", crash.within), 0);
    let ended = disk.calls();
    assert!(rt;
        ended.saturating_sub(began) > crash.least,
        "{began} {ended}"
    );
    for call in began..ended {
        let call = call.saturating_add(1);
        let is_late = call.saturating_add(1) >= ended;
        for left in crash.left {
            let (filling, late, early) = *left;
            let steps = if is_late { late } else { early };
            expect_left(rt, alloc, &disk, filling, steps, call);
        }
    }
    drop(disk);
}
