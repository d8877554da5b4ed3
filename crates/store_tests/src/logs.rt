//! `Log` and `FrameReader` over a disk in memory: the bytes of an area, recovery, cuts, crashes, and failed device calls.

use crate::disks::{Filling, append, area_of, crashed, disk_of};
use feed_disk::{Area, Disk};
use feed_journal::{FrameReader, Framed, Log, LogFault};
use std::alloc::Global;
use std::process::Abort;

/// The greatest size of an area.
const CAPACITY: u64 = 68_719_476_736;

/// Loads the journal and appends a payload to it. Returns `+`, or `~` if the append failed, or `!` if the load did.
pub fn append_payload<D: Disk>(
    rt: &impl Abort,
    alloc: Global,
    disk: &mut D,
    payload: &[u8],
) -> &'static [u8] {
    let Ok(mut log) = Log::load(alloc, disk, Area::Journal) else {
        return b"!";
    };
    log.reserve().expect(rt, "memory");
    assert!(rt; log.len() <= 100 && payload.len() <= 100);
    let framed = Framed::of(alloc, payload).expect(rt, "memory");
    assert!(rt; log.fits(&framed, CAPACITY));
    let is_appended = log.append(disk, &framed).is_ok();
    drop((log, framed));
    if is_appended { b"+" } else { b"~" }
}

/// A log as its calls show it.
#[derive(Drop)]
pub struct Shown {
    /// The payloads, each followed by `/`.
    pub payloads: Vec<u8>,
    size: u64,
    /// The device calls of the load and of a read for each payload.
    calls: u64,
}

/// Loads the journal and reads each payload.
pub fn show_log<D: Disk>(alloc: Global, disk: &mut D) -> Result<Shown, LogFault> {
    let mut log = Log::load(alloc, disk, Area::Journal)?;
    let mut payloads = Vec::new(alloc);
    for index in 0..log.len() {
        let payload = log.read(disk, index)?;
        payloads.extend_from_slice(&payload)?;
        payloads.push(b'/')?;
    }
    Ok(Shown {
        payloads,
        size: log.size(),
        calls: log.calls(),
    })
}

/// Reads the frames of the journal, which are two at most. Closes the gate after them if `closes`. Returns whether the
/// area is whole.
fn read_frames<D: Disk>(rt: &impl Abort, alloc: Global, disk: &mut D, closes: bool) -> bool {
    let Some(mut reader) = FrameReader::look(alloc, disk, Area::Journal).expect(rt, "a reader")
    else {
        return true;
    };
    drop(reader.next(disk).expect(rt, "a frame"));
    drop(reader.next(disk).expect(rt, "a frame"));
    let None = reader.next(disk).expect(rt, "the end") else {
        panic!(rt; "a third frame");
    };
    let is_whole = reader.is_whole();
    let mut frames = reader.finish();
    if closes {
        frames.close(disk).expect(rt, "a device call");
    }
    drop(frames);
    is_whole
}

/// Looks at the journal. Appends the number of payloads, the log's calls and the disk's.
fn append_look<D: Disk>(rt: &impl Abort, alloc: Global, all: &mut Vec<u8>, disk: &mut D) {
    let log = Log::look(alloc, disk, Area::Journal).expect(rt, "a log");
    let shown = format!(in alloc; "{} {} {} ", log.len(), log.calls(), disk.calls());
    drop(log);
    append(rt, all, shown.expect(rt, "memory").as_bytes());
}

/// Appends whether the journal is whole, by a look, by a reader and by a load.
fn append_wholes<D: Disk>(rt: &impl Abort, alloc: Global, all: &mut Vec<u8>, disk: &mut D) {
    let log = Log::look(alloc, disk, Area::Journal).expect(rt, "a log");
    let looked = log.is_whole();
    drop(log);
    let read = read_frames(rt, alloc, disk, false);
    let log = Log::load(alloc, disk, Area::Journal).expect(rt, "a log");
    let loaded = log.is_whole();
    drop(log);
    let shown = format!(in alloc; "{looked} {read} {loaded}").expect(rt, "memory");
    append(rt, all, shown.as_bytes());
}

/// Keeps the first payloads of the journal.
fn cut<D: Disk>(rt: &impl Abort, alloc: Global, disk: &mut D, len: u32) {
    let mut log = Log::load(alloc, disk, Area::Journal).expect(rt, "a log");
    assert!(rt; len <= log.len());
    log.cut(disk, len).expect(rt, "a cut");
    drop(log);
}

/// A device call on the journal.
enum Call {
    Size,
    Read,
    /// Writes `X` at the journal's start.
    Write,
    /// Writes `VWXYZ` there.
    WriteLong,
    Sync,
}

/// Makes a device call. Returns `.`, or `!` if it failed.
fn make<D: Disk>(disk: &mut D, call: &Call) -> &'static [u8] {
    let mut bytes = [0u8; 4];
    let works = match call {
        Call::Size => disk.size(Area::Journal).is_ok(),
        Call::Read => disk.read(Area::Journal, 0, &mut bytes).is_ok(),
        Call::Write => disk.write(Area::Journal, 0, b"X").is_ok(),
        Call::WriteLong => disk.write(Area::Journal, 0, b"VWXYZ").is_ok(),
        Call::Sync => disk.sync(Area::Journal).is_ok(),
    };
    if works { b"." } else { b"!" }
}

/// A payload: `ab`, `c` or `d`.
enum Payload {
    Ab,
    C,
    D,
}

/// A step of a course over the journal of a disk. It shows some bytes.
enum Step {
    /// Shows `.`, or `!` if the call failed.
    Make(Call),
    /// Shows `+`, or `~` if the append failed, or `!` if the load before it did.
    Append(Payload),
    /// Shows each payload that a load finds, followed by `/`, or `!` if the load or a read failed.
    Payloads,
    /// Shows the area, and `/`.
    Area,
    /// Looks, and shows the number of payloads, the log's calls and the disk's.
    Look,
    /// Shows whether the area is whole, by a look, by a reader and by a load.
    Whole,
    /// Keeps the first payloads. Shows nothing.
    Cut(u32),
    /// Closes the gate after the frames. Shows nothing.
    Close,
}

/// Appends the payloads that a load of the journal finds, or `!` if a device call failed.
fn append_payloads<D: Disk>(rt: &impl Abort, alloc: Global, all: &mut Vec<u8>, disk: &mut D) {
    match show_log(alloc, disk) {
        Ok(shown) => append(rt, all, &shown.payloads),
        Err(LogFault::DiskFault) => append(rt, all, b"!"),
        Err(fault) => panic!(rt; "{fault}"),
    }
}

/// Takes a step, and appends what it shows.
fn take<D: Disk>(rt: &impl Abort, alloc: Global, all: &mut Vec<u8>, disk: &mut D, step: &Step) {
    match step {
        Step::Make(call) => append(rt, all, make(disk, call)),
        Step::Append(payload) => {
            let bytes: &[u8] = match payload {
                Payload::Ab => b"ab",
                Payload::C => b"c",
                Payload::D => b"d",
            };
            let mark = append_payload(rt, alloc, disk, bytes);
            append(rt, all, mark);
        }
        Step::Payloads => append_payloads(rt, alloc, all, disk),
        Step::Area => {
            append(rt, all, &area_of(rt, alloc, disk, Area::Journal));
            append(rt, all, b"/");
        }
        Step::Look => append_look(rt, alloc, all, disk),
        Step::Whole => append_wholes(rt, alloc, all, disk),
        Step::Cut(len) => cut(rt, alloc, disk, *len),
        Step::Close => {
            read_frames(rt, alloc, disk, true);
        }
    }
}

/// The steps of a course.
#[derive(Clone, Copy)]
enum Steps {
    Payloads,
    Area,
    Whole,
    Look,
    Cut,
    /// Cuts to a number of payloads, and an append.
    CutTo0,
    CutTo1,
    CutTo2,
    Close,
    AppendAlone,
    Append,
    TwoAppends,
    /// What a load finds before and after an append.
    GoOn,
    /// The size, a read, a write and a sync.
    Calls,
    /// A write, a sync and the size, whatever they return.
    Write,
}

fn steps_of(steps: Steps) -> &'static [Step] {
    match steps {
        Steps::Payloads => &[Step::Payloads],
        Steps::Area => &[Step::Area],
        Steps::Whole => &[Step::Whole],
        Steps::Look => &[Step::Look, Step::Area],
        Steps::Cut => &[Step::Cut(1)],
        Steps::CutTo0 => &[
            Step::Cut(0),
            Step::Area,
            Step::Append(Payload::D),
            Step::Payloads,
        ],
        Steps::CutTo1 => &[
            Step::Cut(1),
            Step::Area,
            Step::Append(Payload::D),
            Step::Payloads,
        ],
        Steps::CutTo2 => &[
            Step::Cut(2),
            Step::Area,
            Step::Append(Payload::D),
            Step::Payloads,
        ],
        Steps::Close => &[Step::Close, Step::Area],
        Steps::AppendAlone => &[Step::Append(Payload::Ab)],
        Steps::Append => &[Step::Append(Payload::Ab), Step::Payloads],
        Steps::TwoAppends => &[
            Step::Append(Payload::Ab),
            Step::Append(Payload::C),
            Step::Area,
        ],
        Steps::GoOn => &[Step::Payloads, Step::Append(Payload::C), Step::Payloads],
        Steps::Calls => &[
            Step::Make(Call::Size),
            Step::Make(Call::Read),
            Step::Make(Call::Write),
            Step::Make(Call::Sync),
        ],
        Steps::Write => &[
            Step::Make(Call::WriteLong),
            Step::Make(Call::Sync),
            Step::Make(Call::Size),
            Step::Area,
        ],
    }
}

/// Journals, two device calls that fail, the steps of a course over each, and what they show. Call 0 is none.
static COURSES: [(&str, (u64, u64), Steps, &str); 58] = [
    // A payload is found once its last byte has a byte after it.
    ("", (0, 0), Steps::Payloads, ""),
    ("\x01", (0, 0), Steps::Payloads, ""),
    ("\x01\x00", (0, 0), Steps::Payloads, ""),
    ("\x01\x00\x00", (0, 0), Steps::Payloads, ""),
    ("\x01\x00\x00\x00", (0, 0), Steps::Payloads, ""),
    ("\x01\x00\x00\x00\x02", (0, 0), Steps::Payloads, ""),
    ("\x01\x00\x00\x00\x02a", (0, 0), Steps::Payloads, ""),
    ("\x01\x00\x00\x00\x02ab", (0, 0), Steps::Payloads, ""),
    ("\x01\x00\x00\x00\x02ab\x01", (0, 0), Steps::Payloads, "ab/"),
    (
        "\x01\x00\x00\x00\x02ab\x01\x00",
        (0, 0),
        Steps::Payloads,
        "ab/",
    ),
    (
        "\x01\x00\x00\x00\x02ab\x01\x00\x00",
        (0, 0),
        Steps::Payloads,
        "ab/",
    ),
    (
        "\x01\x00\x00\x00\x02ab\x01\x00\x00\x00",
        (0, 0),
        Steps::Payloads,
        "ab/",
    ),
    (
        "\x01\x00\x00\x00\x02ab\x01\x00\x00\x00\x01",
        (0, 0),
        Steps::Payloads,
        "ab/",
    ),
    (
        "\x01\x00\x00\x00\x02ab\x01\x00\x00\x00\x01c",
        (0, 0),
        Steps::Payloads,
        "ab/",
    ),
    (
        "\x01\x00\x00\x00\x02ab\x01\x00\x00\x00\x01c\x00",
        (0, 0),
        Steps::Payloads,
        "ab/c/",
    ),
    // The two gates become 0 and 2. Then the second length becomes 2, past the area's end, and 67,108,865.
    (
        "\x00\x00\x00\x00\x02ab\x01\x00\x00\x00\x01c\x00",
        (0, 0),
        Steps::Payloads,
        "",
    ),
    (
        "\x02\x00\x00\x00\x02ab\x01\x00\x00\x00\x01c\x00",
        (0, 0),
        Steps::Payloads,
        "",
    ),
    (
        "\x01\x00\x00\x00\x02ab\x00\x00\x00\x00\x01c\x00",
        (0, 0),
        Steps::Payloads,
        "ab/",
    ),
    (
        "\x01\x00\x00\x00\x02ab\x02\x00\x00\x00\x01c\x00",
        (0, 0),
        Steps::Payloads,
        "ab/",
    ),
    (
        "\x01\x00\x00\x00\x02ab\x01\x00\x00\x00\x02c\x00",
        (0, 0),
        Steps::Payloads,
        "ab/",
    ),
    (
        "\x01\x00\x00\x00\x02ab\x01\x04\x00\x00\x01c\x00",
        (0, 0),
        Steps::Payloads,
        "ab/",
    ),
    // The area is whole.
    ("", (0, 0), Steps::Whole, "true true true"),
    (
        "\x01\x00\x00\x00\x00",
        (0, 0),
        Steps::Whole,
        "true true true",
    ),
    (
        "\x00\x00\x00\x00\x00\x00",
        (0, 0),
        Steps::Whole,
        "true true true",
    ),
    (
        "\x02\x00\x00\x00\x00\x00",
        (0, 0),
        Steps::Whole,
        "true true true",
    ),
    (
        "\x01\x00\x00\x00\x01x\x00",
        (0, 0),
        Steps::Whole,
        "true true true",
    ),
    // It isn't: no byte is after the payload, the gate after it is open, or the payload is too long.
    (
        "\x01\x00\x00\x00\x01x",
        (0, 0),
        Steps::Whole,
        "false false false",
    ),
    (
        "\x01\x00\x00\x00\x01x\x01",
        (0, 0),
        Steps::Whole,
        "false false false",
    ),
    (
        "\x01\x04\x00\x00\x01x\x00",
        (0, 0),
        Steps::Whole,
        "false false false",
    ),
    // A look only reads.
    ("", (0, 0), Steps::Look, "0 1 1 /"),
    ("\x01\x00\x00", (0, 0), Steps::Look, "0 1 1 \x01\x00\x00/"),
    (
        "\x01\x00\x00\x00\x02ab\x01\x00",
        (0, 0),
        Steps::Look,
        "1 2 2 \x01\x00\x00\x00\x02ab\x01\x00/",
    ),
    (
        "\x01\x00\x00\x00\x02ab\x01\x00\x00\x00\x01c\x01",
        (0, 0),
        Steps::Look,
        "2 2 2 \x01\x00\x00\x00\x02ab\x01\x00\x00\x00\x01c\x01/",
    ),
    // A cut closes the gate after the first payloads.
    (
        "\x01\x00\x00\x00\x02ab\x01\x00\x00\x00\x01c\x01",
        (0, 0),
        Steps::CutTo2,
        "\x01\x00\x00\x00\x02ab\x01\x00\x00\x00\x01c\x00/+ab/c/d/",
    ),
    (
        "\x01\x00\x00\x00\x02ab\x01\x00\x00\x00\x01c\x01",
        (0, 0),
        Steps::CutTo1,
        "\x01\x00\x00\x00\x02ab\x00\x00\x00\x00\x01c\x01/+ab/d/",
    ),
    (
        "\x01\x00\x00\x00\x02ab\x01\x00\x00\x00\x01c\x01",
        (0, 0),
        Steps::CutTo0,
        "\x00\x00\x00\x00\x02ab\x01\x00\x00\x00\x01c\x01/+d/",
    ),
    // A close, and two appends.
    (
        "\x01\x00\x00\x00\x02ab\x01\x00\x00\x00\x01c\x01",
        (0, 0),
        Steps::Close,
        "\x01\x00\x00\x00\x02ab\x01\x00\x00\x00\x01c\x00/",
    ),
    (
        "",
        (0, 0),
        Steps::TwoAppends,
        "++\x01\x00\x00\x00\x02ab\x01\x00\x00\x00\x01c\x00/",
    ),
    // The load makes the device calls 1 to 4, and the append 5 to 8. Call 7 writes the gate, and call 8 syncs it.
    ("", (1, 0), Steps::Append, "!"),
    ("", (2, 0), Steps::Append, "!"),
    ("", (3, 0), Steps::Append, "!"),
    ("", (4, 0), Steps::Append, "!"),
    ("", (5, 0), Steps::Append, "~"),
    ("", (6, 0), Steps::Append, "~"),
    ("", (7, 0), Steps::Append, "~"),
    ("", (8, 0), Steps::Append, "~ab/"),
    // The load makes the device calls 1 to 3, and the reads 4 and 5.
    (
        "\x01\x00\x00\x00\x02ab\x01\x00\x00\x00\x01c\x00",
        (1, 0),
        Steps::Payloads,
        "!",
    ),
    (
        "\x01\x00\x00\x00\x02ab\x01\x00\x00\x00\x01c\x00",
        (2, 0),
        Steps::Payloads,
        "!",
    ),
    (
        "\x01\x00\x00\x00\x02ab\x01\x00\x00\x00\x01c\x00",
        (3, 0),
        Steps::Payloads,
        "!",
    ),
    (
        "\x01\x00\x00\x00\x02ab\x01\x00\x00\x00\x01c\x00",
        (4, 0),
        Steps::Payloads,
        "!",
    ),
    (
        "\x01\x00\x00\x00\x02ab\x01\x00\x00\x00\x01c\x00",
        (5, 0),
        Steps::Payloads,
        "!",
    ),
    // Exactly the listed calls fail.
    ("abcd", (0, 0), Steps::Calls, "...."),
    ("abcd", (1, 0), Steps::Calls, "!..."),
    ("abcd", (2, 0), Steps::Calls, ".!.."),
    ("abcd", (3, 0), Steps::Calls, "..!."),
    ("abcd", (4, 0), Steps::Calls, "...!"),
    ("abcd", (5, 0), Steps::Calls, "...."),
    ("abcd", (4, 2), Steps::Calls, ".!.!"),
];

/// Takes some steps.
fn go<D: Disk>(rt: &impl Abort, alloc: Global, disk: &mut D, steps: Steps) -> Vec<u8> {
    let mut shown = Vec::new(alloc);
    for step in steps_of(steps) {
        take(rt, alloc, &mut shown, disk, step);
    }
    shown
}

#[test]
fn a_journal_goes_through_each_course(rt: HostRuntime) {
    let alloc = rt.alloc();
    for (row, (area, (first, second), steps, wanted)) in COURSES.iter().enumerate() {
        let mut disk = disk_of(&rt, alloc, area.as_bytes(), b"", &[*first, *second]);
        let shown = go(&rt, alloc, &mut disk, *steps);
        drop(disk);
        assert!(rt; shown.as_slice() == wanted.as_bytes(), "row {row}");
    }
}

/// A journal, a device call that fails, or 0, and a course. Then crashes within some calls, by the first choices of
/// `FILLINGS`, what is done with each journal that is left, and all that is shown, with a space after each part.
struct Crashes {
    area: &'static str,
    failing: u64,
    steps: Steps,
    /// The first call and the last one.
    calls: (u64, u64),
    choices: usize,
    then: Steps,
    shown: &'static str,
}

static FILLINGS: [Filling; 3] = [Filling::Old, Filling::New, Filling::Fill(165)];

static CRASHES: [Crashes; 5] = [
    // The load makes the device calls 1 to 4, and the append 5 to 8.
    Crashes {
        area: "",
        failing: 0,
        steps: Steps::AppendAlone,
        calls: (5, 8),
        choices: 3,
        then: Steps::GoOn,
        shown: "+ +c/ +c/ +c/ +c/ +c/ +c/ +c/ ab/+ab/c/ +c/ +c/ ab/+ab/c/ +c/ ",
    },
    // The load makes the device calls 1 to 3, and the cut 4 and 5.
    Crashes {
        area: "\x01\x00\x00\x00\x02ab\x01\x00\x00\x00\x01c\x01",
        failing: 0,
        steps: Steps::Cut,
        calls: (4, 5),
        choices: 3,
        then: Steps::Payloads,
        shown: " ab/c/ ab/ ab/ ab/c/ ab/ ab/ ",
    },
    // A write and its sync.
    Crashes {
        area: "abcd",
        failing: 0,
        steps: Steps::Write,
        calls: (3, 3),
        choices: 2,
        then: Steps::Area,
        shown: "...VWXYZ/ VWXYZ/ VWXYZ/ ",
    },
    // The write fails. Its bytes may be on the disk until the sync.
    Crashes {
        area: "abcd",
        failing: 1,
        steps: Steps::Write,
        calls: (2, 3),
        choices: 2,
        then: Steps::Area,
        shown: "!..abcd/ abcd/ VWXYZ/ abcd/ abcd/ ",
    },
    // The sync fails.
    Crashes {
        area: "abcd",
        failing: 2,
        steps: Steps::Write,
        calls: (2, 3),
        choices: 2,
        then: Steps::Area,
        shown: ".!.VWXYZ/ abcd/ VWXYZ/ abcd/ VWXYZ/ ",
    },
];

#[test]
fn a_crash_leaves_one_of_these_journals(rt: HostRuntime) {
    let alloc = rt.alloc();
    for (row, course) in CRASHES.iter().enumerate() {
        let mut disk = disk_of(&rt, alloc, course.area.as_bytes(), b"", &[course.failing]);
        let mut shown = go(&rt, alloc, &mut disk, course.steps);
        append(&rt, &mut shown, b" ");
        let (first, last) = course.calls;
        for call in first..=last {
            for filling in FILLINGS.iter().take(course.choices) {
                let mut left = crashed(&rt, alloc, &disk, call, *filling);
                append(&rt, &mut shown, &go(&rt, alloc, &mut left, course.then));
                append(&rt, &mut shown, b" ");
                drop(left);
            }
        }
        let is_right = shown.as_slice() == course.shown.as_bytes() && disk.starved() == 0;
        drop(disk);
        assert!(rt; is_right, "row {row}");
    }
}

#[test]
fn a_log_counts_its_bytes_and_its_calls(rt: HostRuntime) {
    let area = b"\x01\x00\x00\x00\x02ab\x01\x00\x00\x00\x01c\x00";
    let mut disk = disk_of(&rt, rt.alloc(), area, b"", &[]);
    let log = show_log(rt.alloc(), &mut disk).expect(&rt, "a log");
    drop(disk);
    let framed = Framed::of(rt.alloc(), b"de").expect(&rt, "memory");
    assert!(rt; (log.size, log.calls) == (14, 5));
    assert!(rt; (framed.needed(), framed.length()) == (7, 2));
    assert!(rt; framed.tail() == b"\x00\x00\x00\x02de\x00".as_slice());
    drop((log, framed));
}
