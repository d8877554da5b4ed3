//! `scrub` and `repair`: each fault of a store, stores that differ from a sound one in one byte or in their length, and
//! repairs that a crash or a failed device call stopped.
//!
//! The expected areas are made of those of the sound store and of the changed ones, by docs/FORMATS.md.

use crate::disks::{Filling, append, area_of, crashed, disk_of};
use crate::formats::{five_operations, refusal};
use crate::stores::{Request, Step, init, session};
use feed_disk::{Area, Disk, MemoryDisk};
use feed_recovery::LoadFault;
use std::alloc::Global;
use std::process::Abort;
use store_scrub::{RepairFault, Unsound, repair, scrub};

/// How many operations and seals a store has, or why it isn't sound.
type Found = Result<(u32, u32), Unsound>;

/// What a scrub finds in a store, what a repair then returns, as the numbers of seals that it kept and made, and what a
/// scrub finds after that.
#[derive(Clone, Copy, PartialEq)]
struct Answers {
    before: Found,
    returned: Result<(u32, u32), RepairFault>,
    after: Found,
}

/// The answers, and the areas that the repair left.
#[derive(Drop)]
struct Outcome {
    answers: Answers,
    journal: Vec<u8>,
    sealed: Vec<u8>,
}

fn found_in<D: Disk>(alloc: Global, disk: &mut D) -> Found {
    match scrub(alloc, disk) {
        Ok(sound) => Ok((sound.records, sound.seals)),
        Err(unsound) => Err(unsound),
    }
}

fn repaired<D: Disk>(alloc: Global, disk: &mut D) -> Result<(u32, u32), RepairFault> {
    match repair(alloc, disk) {
        Ok(repaired) => Ok((repaired.kept, repaired.made)),
        Err(fault) => Err(fault),
    }
}

fn outcome_of<D: Disk>(rt: &impl Abort, alloc: Global, disk: &mut D) -> Outcome {
    let before = found_in(alloc, disk);
    let returned = repaired(alloc, disk);
    let journal = area_of(rt, alloc, disk, Area::Journal);
    let sealed = area_of(rt, alloc, disk, Area::Sealed);
    let after = found_in(alloc, disk);
    Outcome {
        answers: Answers {
            before,
            returned,
            after,
        },
        journal,
        sealed,
    }
}

/// The outcome for a store with these areas.
fn outcome_with(rt: &impl Abort, alloc: Global, journal: &[u8], sealed: &[u8]) -> Outcome {
    let mut disk = disk_of(rt, alloc, journal, sealed, &[]);
    let outcome = outcome_of(rt, alloc, &mut disk);
    drop(disk);
    outcome
}

/// How an area differs from that of a sound store.
#[derive(Clone, Copy)]
enum Change {
    Same,
    /// The byte at this offset has its last bit turned over.
    Byte(usize),
    /// Only this many bytes are left.
    Cut(usize),
    /// The head of the journal has this capacity.
    Capacity(u64),
}

fn changed(rt: &impl Abort, alloc: Global, area: &[u8], change: Change) -> Vec<u8> {
    let mut bytes = Vec::new(alloc);
    append(rt, &mut bytes, area);
    match change {
        Change::Same => {}
        Change::Byte(at) => {
            if let Some(byte) = bytes.get_mut(at) {
                *byte ^= 1;
            }
        }
        Change::Cut(count) => bytes.truncate(count),
        Change::Capacity(capacity) => {
            bytes.truncate(68);
            append(rt, &mut bytes, &capacity.to_be_bytes());
            let rest = area.get(76..).unwrap_or(b"");
            append(rt, &mut bytes, rest);
        }
    }
    bytes
}

/// The end of the frame at an offset, if one is there.
fn end_of_frame(area: &[u8], at: usize) -> Option<usize> {
    let frame = area.get(at..)?;
    let (Some(1), Some(header)) = (frame.first(), frame.get(1..5)) else {
        return None;
    };
    let length = header.iter().fold(0usize, |length, byte| {
        length
            .saturating_mul(256)
            .saturating_add(usize::from(*byte))
    });
    let end = length.saturating_add(5).saturating_add(at);
    (end < area.len()).then_some(end)
}

/// How many of the first frames of an area are those of a sound one, `most` at most, and the offset after them.
fn same_frames(sound: &[u8], area: &[u8], most: u32) -> (u32, usize) {
    let mut end = 0usize;
    for count in 0..most {
        match (end_of_frame(sound, end), end_of_frame(area, end)) {
            (Some(next), Some(other)) if sound.get(end..next) == area.get(end..other) => end = next,
            _ => return (count, end),
        }
    }
    (most, end)
}

/// The number of frames of an area, 20 at most, and the offset of the gate after them. Then whether that gate is open, in an
/// area that has room for a frame.
fn frames_of(area: &[u8]) -> (u32, usize, bool) {
    let (count, gate) = same_frames(area, area, 20);
    (count, gate, area.len() >= 6 && area.get(gate) == Some(&1))
}

/// Closes the open gate after the frames of a journal, as a repair does.
fn close(journal: &mut Vec<u8>) {
    let (_, gate, is_open) = frames_of(journal.as_slice());
    if is_open {
        if let Some(byte) = journal.get_mut(gate) {
            *byte = 0;
        }
    }
}

/// The sealed area after a repair: the first seals of the sound one, a closed gate, and the bytes after it as they were.
fn resealed(rt: &impl Abort, alloc: Global, sound: &[u8], area: &[u8], count: u32) -> Vec<u8> {
    let (_, end) = same_frames(sound, sound, count);
    let mut bytes = Vec::new(alloc);
    let seals = &sound[..end.min(sound.len())];
    append(rt, &mut bytes, seals);
    append(rt, &mut bytes, b"\x00");
    let rest = &area[bytes.len().min(area.len())..];
    append(rt, &mut bytes, rest);
    bytes
}

/// Whether a repair of a store with these areas has the answers, and leaves the right areas. A repair that is refused writes
/// nothing. `sound` is the sealed area of the sound store.
fn is_repaired(
    rt: &impl Abort,
    alloc: Global,
    sound: &[u8],
    (mut journal, mut sealed): (Vec<u8>, Vec<u8>),
    answers: &Answers,
) -> bool {
    let outcome = outcome_with(rt, alloc, &journal, &sealed);
    if let Ok((_, seals)) | Err(Unsound::SealCount { seals, .. }) = answers.after {
        close(&mut journal);
        sealed = resealed(rt, alloc, sound, &sealed, seals);
    }
    let is_right = outcome.answers == *answers
        && outcome.journal == journal
        && outcome.sealed == sealed;
    drop((outcome, journal, sealed));
    is_right
}

/// 13 members.
static THIRTEEN: [Step; 13] = [
    Step::Commit(Request::Add("a"), (1, 1, 1)),
    Step::Commit(Request::Add("a"), (2, 2, 2)),
    Step::Commit(Request::Add("a"), (3, 3, 3)),
    Step::Commit(Request::Add("a"), (4, 4, 4)),
    Step::Commit(Request::Add("a"), (5, 5, 5)),
    Step::Commit(Request::Add("a"), (6, 6, 6)),
    Step::Commit(Request::Add("a"), (7, 7, 7)),
    Step::Commit(Request::Add("a"), (8, 8, 8)),
    Step::Commit(Request::Add("a"), (9, 9, 9)),
    Step::Commit(Request::Add("a"), (10, 10, 10)),
    Step::Commit(Request::Add("a"), (11, 11, 11)),
    Step::Commit(Request::Add("a"), (12, 12, 12)),
    Step::Commit(Request::Add("a"), (13, 13, 13)),
];

/// Makes a store with windows of 4 operations and 13 members. Returns its journal and its sealed area.
fn thirteen(rt: &impl Abort, alloc: Global) -> (Vec<u8>, Vec<u8>) {
    let mut disk = disk_of(rt, alloc, b"", b"", &[]);
    init(rt, alloc, &mut disk, 4, 1_073_741_824);
    session(rt, alloc, &mut disk, 0, &THIRTEEN);
    let journal = area_of(rt, alloc, &mut disk, Area::Journal);
    let sealed = area_of(rt, alloc, &mut disk, Area::Sealed);
    drop(disk);
    (journal, sealed)
}

/// How the journal and the sealed area of the store of `thirteen` differ, and the answers. The frame of the head has 84
/// bytes, that of each operation 45, and those of the seals 1,649, 1,713 and 1,717. The title of seal 1 is at offset 325, and
/// that of seal 2 at 1,974.
static CHANGES: [(Change, Change, Answers); 30] = [
    (
        Change::Same,
        Change::Same,
        Answers {
            before: Ok((13, 3)),
            returned: Ok((3, 0)),
            after: Ok((13, 3)),
        },
    ),
    (
        Change::Same,
        Change::Byte(1_974),
        Answers {
            before: Err(Unsound::BadSeal { index: 2 }),
            returned: Ok((1, 2)),
            after: Ok((13, 3)),
        },
    ),
    (
        Change::Same,
        Change::Cut(0),
        Answers {
            before: Err(Unsound::SealCount {
                records: 13,
                seals: 0,
            }),
            returned: Ok((0, 3)),
            after: Ok((13, 3)),
        },
    ),
    // The gate at the end of an area is opened.
    (
        Change::Byte(669),
        Change::Same,
        Answers {
            before: Err(Unsound::OpenGate {
                area: Area::Journal,
                at: 669,
            }),
            returned: Ok((3, 0)),
            after: Ok((13, 3)),
        },
    ),
    (
        Change::Same,
        Change::Byte(5_079),
        Answers {
            before: Err(Unsound::OpenGate {
                area: Area::Sealed,
                at: 5_079,
            }),
            returned: Ok((3, 0)),
            after: Ok((13, 3)),
        },
    ),
    (
        Change::Byte(669),
        Change::Byte(5_079),
        Answers {
            before: Err(Unsound::OpenGate {
                area: Area::Journal,
                at: 669,
            }),
            returned: Ok((3, 0)),
            after: Ok((13, 3)),
        },
    ),
    (
        Change::Byte(669),
        Change::Byte(1_974),
        Answers {
            before: Err(Unsound::BadSeal { index: 2 }),
            returned: Ok((1, 2)),
            after: Ok((13, 3)),
        },
    ),
    (
        Change::Byte(669),
        Change::Cut(0),
        Answers {
            before: Err(Unsound::SealCount {
                records: 13,
                seals: 0,
            }),
            returned: Ok((0, 3)),
            after: Ok((13, 3)),
        },
    ),
    // No head, a head without operations, and an operation that is none: the second, and the last.
    (
        Change::Cut(0),
        Change::Same,
        Answers {
            before: Err(Unsound::NotInit),
            returned: Err(RepairFault::NotInit),
            after: Err(Unsound::NotInit),
        },
    ),
    (
        Change::Byte(0),
        Change::Same,
        Answers {
            before: Err(Unsound::NotInit),
            returned: Err(RepairFault::NotInit),
            after: Err(Unsound::NotInit),
        },
    ),
    (
        Change::Byte(0),
        Change::Cut(0),
        Answers {
            before: Err(Unsound::NotInit),
            returned: Err(RepairFault::NotInit),
            after: Err(Unsound::NotInit),
        },
    ),
    (
        Change::Byte(84),
        Change::Cut(0),
        Answers {
            before: Ok((0, 0)),
            returned: Ok((0, 0)),
            after: Ok((0, 0)),
        },
    ),
    (
        Change::Byte(84),
        Change::Same,
        Answers {
            before: Err(Unsound::SealCount {
                records: 0,
                seals: 3,
            }),
            returned: Ok((0, 0)),
            after: Ok((0, 0)),
        },
    ),
    (
        Change::Byte(89),
        Change::Byte(1_974),
        Answers {
            before: Err(Unsound::BadRecord {
                area: Area::Journal,
                index: 1,
                at: 0,
            }),
            returned: Err(RepairFault::BadRecord {
                area: Area::Journal,
                index: 1,
                at: 0,
            }),
            after: Err(Unsound::BadRecord {
                area: Area::Journal,
                index: 1,
                at: 0,
            }),
        },
    ),
    (
        Change::Byte(629),
        Change::Cut(0),
        Answers {
            before: Err(Unsound::BadRecord {
                area: Area::Journal,
                index: 13,
                at: 0,
            }),
            returned: Err(RepairFault::BadRecord {
                area: Area::Journal,
                index: 13,
                at: 0,
            }),
            after: Err(Unsound::BadRecord {
                area: Area::Journal,
                index: 13,
                at: 0,
            }),
        },
    ),
    // The gate of a frame is closed: 5 operations with archive 1.
    (
        Change::Byte(309),
        Change::Same,
        Answers {
            before: Err(Unsound::SealCount {
                records: 5,
                seals: 3,
            }),
            returned: Ok((1, 0)),
            after: Ok((5, 1)),
        },
    ),
    (
        Change::Byte(309),
        Change::Byte(1_974),
        Answers {
            before: Err(Unsound::SealCount {
                records: 5,
                seals: 3,
            }),
            returned: Ok((1, 0)),
            after: Ok((5, 1)),
        },
    ),
    (
        Change::Byte(309),
        Change::Byte(325),
        Answers {
            before: Err(Unsound::BadSeal { index: 1 }),
            returned: Ok((0, 1)),
            after: Ok((5, 1)),
        },
    ),
    (
        Change::Byte(309),
        Change::Byte(1_649),
        Answers {
            before: Ok((5, 1)),
            returned: Ok((1, 0)),
            after: Ok((5, 1)),
        },
    ),
    // 12 operations with archive 3, which is kept if it is there, and isn't made.
    (
        Change::Byte(624),
        Change::Same,
        Answers {
            before: Ok((12, 3)),
            returned: Ok((3, 0)),
            after: Ok((12, 3)),
        },
    ),
    (
        Change::Byte(624),
        Change::Byte(1_974),
        Answers {
            before: Err(Unsound::BadSeal { index: 2 }),
            returned: Ok((1, 1)),
            after: Ok((12, 2)),
        },
    ),
    (
        Change::Byte(624),
        Change::Byte(3_362),
        Answers {
            before: Ok((12, 2)),
            returned: Ok((2, 0)),
            after: Ok((12, 2)),
        },
    ),
    // An open gate that no frame can begin with, and one that could.
    (
        Change::Byte(219),
        Change::Cut(5),
        Answers {
            before: Ok((3, 0)),
            returned: Ok((0, 0)),
            after: Ok((3, 0)),
        },
    ),
    (
        Change::Byte(219),
        Change::Cut(6),
        Answers {
            before: Err(Unsound::OpenGate {
                area: Area::Sealed,
                at: 0,
            }),
            returned: Ok((0, 0)),
            after: Ok((3, 0)),
        },
    ),
    // The three seals take 1,650, 3,363 and 5,080 bytes. A seal without room ends a repair.
    (
        Change::Capacity(4_096),
        Change::Same,
        Answers {
            before: Ok((13, 3)),
            returned: Ok((3, 0)),
            after: Ok((13, 3)),
        },
    ),
    (
        Change::Capacity(4_096),
        Change::Cut(0),
        Answers {
            before: Err(Unsound::SealCount {
                records: 13,
                seals: 0,
            }),
            returned: Err(RepairFault::Full {
                size: 3_363,
                needed: 1_717,
                capacity: 4_096,
            }),
            after: Err(Unsound::SealCount {
                records: 13,
                seals: 2,
            }),
        },
    ),
    (
        Change::Capacity(4_096),
        Change::Byte(1_974),
        Answers {
            before: Err(Unsound::BadSeal { index: 2 }),
            returned: Err(RepairFault::Full {
                size: 3_363,
                needed: 1_717,
                capacity: 4_096,
            }),
            after: Err(Unsound::SealCount {
                records: 13,
                seals: 2,
            }),
        },
    ),
    (
        Change::Capacity(5_079),
        Change::Cut(0),
        Answers {
            before: Err(Unsound::SealCount {
                records: 13,
                seals: 0,
            }),
            returned: Err(RepairFault::Full {
                size: 3_363,
                needed: 1_717,
                capacity: 5_079,
            }),
            after: Err(Unsound::SealCount {
                records: 13,
                seals: 2,
            }),
        },
    ),
    (
        Change::Capacity(5_079),
        Change::Byte(3_362),
        Answers {
            before: Err(Unsound::SealCount {
                records: 13,
                seals: 2,
            }),
            returned: Err(RepairFault::Full {
                size: 3_363,
                needed: 1_717,
                capacity: 5_079,
            }),
            after: Err(Unsound::SealCount {
                records: 13,
                seals: 2,
            }),
        },
    ),
    (
        Change::Capacity(5_080),
        Change::Cut(0),
        Answers {
            before: Err(Unsound::SealCount {
                records: 13,
                seals: 0,
            }),
            returned: Ok((0, 3)),
            after: Ok((13, 3)),
        },
    ),
];

#[test]
fn a_store_of_13_operations_has_these_faults_and_is_repaired(rt: HostRuntime) {
    let alloc = rt.alloc();
    let (journal, sealed) = thirteen(&rt, alloc);
    for (row, (first, second, answers)) in CHANGES.iter().enumerate() {
        let left = changed(&rt, alloc, &journal, *first);
        let right = changed(&rt, alloc, &sealed, *second);
        assert!(rt;
            is_repaired(&rt, alloc, &sealed, (left, right), answers),
            "row {row}"
        );
    }
    drop((journal, sealed));
}

/// The answers of the store of 5 operations of format 2, if its areas are these: a beginning of its journal, and a sealed
/// area with one changed byte or a beginning of it. `sound` is the sound sealed area, which has one seal, of 4 operations.
fn wanted_of(journal: &[u8], sealed: &[u8], sound: &[u8]) -> Answers {
    let (payloads, gate, is_open) = frames_of(journal);
    let (seals, end, is_seal_open) = frames_of(sealed);
    let (right, _) = same_frames(sound, sealed, 20);
    if payloads == 0 {
        return Answers {
            before: Err(Unsound::NotInit),
            returned: Err(RepairFault::NotInit),
            after: Err(Unsound::NotInit),
        };
    }
    let records = payloads.saturating_sub(1);
    let due = if records < 4 { 0 } else { 1 };
    let before = if due > 0 && seals > 0 && right == 0 {
        Err(Unsound::BadSeal { index: 1 })
    } else if seals != due {
        Err(Unsound::SealCount { records, seals })
    } else if is_open {
        Err(Unsound::OpenGate {
            area: Area::Journal,
            at: gate as u64,
        })
    } else if is_seal_open {
        Err(Unsound::OpenGate {
            area: Area::Sealed,
            at: end as u64,
        })
    } else {
        Ok((records, seals))
    };
    let kept = right.min(due);
    Answers {
        before,
        returned: Ok((kept, due.saturating_sub(kept))),
        after: Ok((records, due)),
    }
}

/// Whether that store counts as it has to, and is brought back, if its areas differ so.
fn comes_right(
    rt: &impl Abort,
    alloc: Global,
    (journal, sealed): (&[u8], &[u8]),
    first: Change,
    second: Change,
) -> bool {
    let left = changed(rt, alloc, journal, first);
    let right = changed(rt, alloc, sealed, second);
    let wanted = wanted_of(&left, &right, sealed);
    is_repaired(rt, alloc, sealed, (left, right), &wanted)
}

#[test]
fn each_byte_of_a_sealed_area_counts_and_comes_back(rt: HostRuntime) {
    let (journal, sealed) = five_operations(&rt, rt.alloc());
    let areas = (journal.as_slice(), sealed.as_slice());
    for at in 0..sealed.len() {
        let is_right = comes_right(&rt, rt.alloc(), areas, Change::Same, Change::Byte(at));
        assert!(rt; is_right, "byte {at}");
    }
    drop((journal, sealed));
}

#[test]
fn each_length_of_an_area_counts_and_comes_back(rt: HostRuntime) {
    let (journal, sealed) = five_operations(&rt, rt.alloc());
    let areas = (journal.as_slice(), sealed.as_slice());
    for count in 0..sealed.len() {
        let is_right = comes_right(&rt, rt.alloc(), areas, Change::Same, Change::Cut(count));
        assert!(rt; is_right, "{count} bytes of the sealed area");
    }
    for count in 0..journal.len() {
        let is_right = comes_right(&rt, rt.alloc(), areas, Change::Cut(count), Change::Same);
        assert!(rt; is_right, "{count} bytes of the journal");
    }
    drop((journal, sealed));
}

/// Whether a load and a scrub return the same of a journal. A load counts the seals before it compares them.
fn agree(load: Option<LoadFault>, found: Found, journal: &[u8]) -> bool {
    let (_, gate, is_open) = frames_of(journal);
    match (load, found) {
        (Some(LoadFault::NotInit), Err(Unsound::NotInit)) => true,
        (
            Some(LoadFault::BadRecord { index, at, .. }),
            Err(
                Unsound::BadRecord {
                    area: Area::Journal,
                    index: other,
                    at: place,
                },
            ),
        ) => index == other && at == place,
        (
            Some(LoadFault::SealCount { .. } | LoadFault::BadSeal { .. }),
            Err(Unsound::SealCount { .. } | Unsound::BadSeal { .. }),
        ) => true,
        (
            None,
            Err(
                Unsound::OpenGate {
                    area: Area::Journal,
                    at,
                },
            ),
        ) => { is_open && at == gate as u64 }
        (None, Ok(_)) => !is_open,
        _ => false,
    }
}

/// The answers that have to follow from what a scrub found in the store of 5 operations, which has one seal. How many seals
/// are made isn't said.
fn answers_after(answers: &Answers, records: u32) -> Answers {
    let before = answers.before;
    let kept = match before {
        Err(Unsound::NotInit) => Err(RepairFault::NotInit),
        Err(Unsound::BadRecord { area, index, at }) => Err(RepairFault::BadRecord {
            area,
            index,
            at,
        }),
        Err(Unsound::BadSeal { index }) => Ok(index.saturating_sub(1)),
        // No archive has less than 4 operations.
        Err(Unsound::SealCount { records: 0..=3, .. }) => Ok(0),
        Ok(_) | Err(Unsound::OpenGate { .. }) => Ok(1),
        Err(_) => Err(RepairFault::DiskFault),
    };
    let made = match answers.returned {
        Ok((_, made)) => made,
        Err(_) => 0,
    };
    match kept {
        Ok(kept) => Answers {
            before,
            returned: Ok((kept, made)),
            after: Ok((records, kept.saturating_add(made))),
        },
        Err(fault) => Answers {
            before,
            returned: Err(fault),
            after: before,
        },
    }
}

/// Why a load refuses a store with these areas.
fn load_with(rt: &impl Abort, alloc: Global, journal: &[u8], sealed: &[u8]) -> Option<LoadFault> {
    let mut disk = disk_of(rt, alloc, journal, sealed, &[]);
    let refused = refusal(alloc, &mut disk);
    drop(disk);
    refused
}

/// Whether a load, a scrub and a repair agree on a store with this journal, and the repair leaves what it has to. A repair
/// that is refused writes nothing.
fn is_consistent(rt: &impl Abort, alloc: Global, mut journal: Vec<u8>, sealed: &[u8]) -> bool {
    let load = load_with(rt, alloc, &journal, sealed);
    let outcome = outcome_with(rt, alloc, &journal, sealed);
    let agrees = agree(load, outcome.answers.before, &journal);
    let (payloads, ..) = frames_of(&journal);
    let wanted = answers_after(&outcome.answers, payloads.saturating_sub(1));
    let is_kept = if wanted.returned.is_ok() {
        close(&mut journal);
        true
    } else {
        outcome.sealed.as_slice() == sealed
    };
    let is_right = outcome.answers == wanted && outcome.journal == journal;
    drop((outcome, journal));
    agrees && is_kept && is_right
}

#[test]
fn each_byte_of_a_journal_counts_as_in_a_load(rt: HostRuntime) {
    let alloc = rt.alloc();
    let (journal, sealed) = five_operations(&rt, alloc);
    for at in 0..journal.len() {
        let left = changed(&rt, alloc, &journal, Change::Byte(at));
        let is_right = is_consistent(&rt, alloc, left, &sealed);
        assert!(rt; is_right, "byte {at}");
    }
    drop((journal, sealed));
}

/// Repairs the store of 13 operations after a repair that was stopped, and returns whether it is brought back.
fn comes_back<D: Disk>(
    rt: &impl Abort,
    alloc: Global,
    disk: &mut D,
    (journal, sealed): (&[u8], &[u8]),
) -> bool {
    let left = area_of(rt, alloc, disk, Area::Sealed);
    let (kept, _) = same_frames(sealed, &left, 20);
    let outcome = outcome_of(rt, alloc, disk);
    // A torn write leaves a gate that isn't open, and that stays.
    let gate = journal.len().saturating_sub(1);
    let is_back = outcome.journal.get(..gate) == journal.get(..gate)
        && outcome.sealed.as_slice() == sealed
        && outcome.answers.returned == Ok((kept, 3u32.saturating_sub(kept)))
        && outcome.answers.after == Ok((13, 3));
    drop((left, outcome));
    is_back
}

static FILLINGS: [Filling; 3] = [Filling::Old, Filling::New, Filling::Fill(165)];

/// Whether the store is brought back after a crash within a call of its repair.
fn comes_back_after_crash(
    rt: &impl Abort,
    alloc: Global,
    disk: &MemoryDisk,
    call: u64,
    areas: (&[u8], &[u8]),
) -> bool {
    let mut is_back = true;
    for filling in &FILLINGS {
        let mut left = crashed(rt, alloc, disk, call, *filling);
        is_back = is_back && comes_back(rt, alloc, &mut left, areas);
        drop(left);
    }
    is_back
}

/// Whether the store is brought back after a repair of which this call failed.
fn comes_back_after_fault(
    rt: &impl Abort,
    alloc: Global,
    (left, right): (&[u8], &[u8]),
    call: u64,
    areas: (&[u8], &[u8]),
) -> bool {
    let mut disk = disk_of(rt, alloc, left, right, &[call]);
    let stopped = repaired(alloc, &mut disk);
    let is_back = comes_back(rt, alloc, &mut disk, areas);
    drop(disk);
    stopped == Err(RepairFault::DiskFault) && is_back
}

/// Repairs the store of 13 operations, whose journal differs so and whose seal 2 has another title, and stops the repair in
/// each of its calls. Returns the first call after which the store isn't brought back, or 0.
fn lost_after(rt: &impl Abort, alloc: Global, areas: (&[u8], &[u8]), change: Change) -> u64 {
    let (journal, sealed) = areas;
    let left = changed(rt, alloc, journal, change);
    let right = changed(rt, alloc, sealed, Change::Byte(1_974));
    let mut disk = disk_of(rt, alloc, &left, &right, &[]);
    let first = repaired(alloc, &mut disk);
    assert!(rt; first == Ok((1, 2)));
    let mut lost = 0;
    for call in 1..=disk.calls() {
        let is_back = comes_back_after_crash(rt, alloc, &disk, call, areas)
            && comes_back_after_fault(rt, alloc, (&left, &right), call, areas);
        if !is_back && lost == 0 {
            lost = call;
        }
    }
    drop(disk);
    drop((left, right));
    lost
}

#[test]
fn a_repair_goes_on_after_a_crash_and_after_a_failed_call(rt: HostRuntime) {
    let (journal, sealed) = thirteen(&rt, rt.alloc());
    let areas = (journal.as_slice(), sealed.as_slice());
    let whole = lost_after(&rt, rt.alloc(), areas, Change::Same);
    let open = lost_after(&rt, rt.alloc(), areas, Change::Byte(669));
    assert!(rt; (whole, open) == (0, 0), "calls {whole} and {open}");
    drop((journal, sealed));
}

/// A device call that fails, and what a scrub finds in a store whose head has no bytes. It makes three calls: the sizes of
/// both areas and the journal's bytes.
static FAILING: [(u64, Found); 4] = [
    (1, Err(Unsound::DiskFault)),
    (2, Err(Unsound::DiskFault)),
    (3, Err(Unsound::DiskFault)),
    (
        4,
        Err(Unsound::BadRecord {
            area: Area::Journal,
            index: 0,
            at: 0,
        }),
    ),
];

#[test]
fn a_failed_call_of_a_scrub_is_a_disk_fault(rt: HostRuntime) {
    for (call, wanted) in &FAILING {
        let mut disk = disk_of(&rt, rt.alloc(), b"\x01\x00\x00\x00\x00\x00", b"", &[*call]);
        let found = found_in(rt.alloc(), &mut disk);
        drop(disk);
        assert!(rt; found == *wanted, "call {call}");
    }
}
