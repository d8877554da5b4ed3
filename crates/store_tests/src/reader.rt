//! `FrameReader` over a disk in memory: its payloads are those of `Log`, and a failed device call is a fault.

use crate::disks::{append, disk_of};
use feed_disk::{Area, Disk};
use feed_journal::{FrameReader, Log, LogFault};
use std::alloc::Global;
use std::process::Abort;

/// The lengths of the payloads: short ones, and those around the limits of the buffers.
const LENGTHS: [u32; 7] = [0, 1, 5, 300, 65_535, 65_536, 70_000];

/// Returns an area with payloads of these lengths. Their bytes differ, so that a wrong offset shows.
fn long_area(rt: &impl Abort, alloc: Global) -> Vec<u8> {
    let mut area = Vec::new(alloc);
    for length in LENGTHS {
        append(rt, &mut area, b"\x01");
        append(rt, &mut area, &length.to_be_bytes());
        for index in 0..length {
            area.push((index % 251) as u8).expect(rt, "memory");
        }
    }
    append(rt, &mut area, b"\x00");
    area
}

/// Reads the journal by a reader. Returns how many of its payloads are those of the log, or `None` if the reader finds
/// fewer frames than the log, more frames, or another end.
fn count_same<D: Disk>(alloc: Global, disk: &mut D) -> Result<Option<u32>, LogFault> {
    let mut log = Log::load(alloc, disk, Area::Journal)?;
    let mut reader = FrameReader::open(alloc, disk, Area::Journal)?;
    let mut same = 0u32;
    for index in 0..log.len() {
        let Some(frame) = reader.next(disk)? else {
            return Ok(None);
        };
        if frame.payload == log.read(disk, index)? {
            same = same.saturating_add(1);
        }
    }
    let None = reader.next(disk)? else {
        return Ok(None);
    };
    let ends = reader.finish().size() == log.size();
    Ok(ends.then_some(same))
}

/// The number of bytes that are cut from the area's end, the device calls that fail, each in a run of its own, from the
/// first to the one before the second, and what is read. 0 is no call.
static READS: [(usize, u64, u64, Result<Option<u32>, LogFault>); 7] = [
    (0, 0, 1, Ok(Some(7))),
    // The area ends before the gate that follows the last payload, within that payload, and within its header.
    (1, 0, 1, Ok(Some(6))),
    (60_000, 0, 1, Ok(Some(6))),
    (70_003, 0, 1, Ok(Some(6))),
    (1_000_000, 0, 1, Ok(Some(0))),
    // The load makes the device calls 1 to 6, and the reader's opening 7 and 8. The log reads each of 7 payloads in one
    // call. The reader makes one call for the four short frames, one for the payload of 65,535 bytes, two for each of
    // the frames behind it, and one for the gate after them.
    (0, 1, 23, Err(LogFault::DiskFault)),
    (0, 23, 24, Ok(Some(7))),
];

#[test]
fn a_reader_finds_the_payloads_of_the_log(rt: HostRuntime) {
    let alloc = rt.alloc();
    let whole = long_area(&rt, alloc);
    for &(cut, first, end, wanted) in &READS {
        let kept = whole.len().saturating_sub(cut);
        for call in first..end {
            let mut disk = disk_of(&rt, alloc, &whole[..kept], b"", &[call]);
            let found = count_same(alloc, &mut disk);
            drop(disk);
            assert!(rt; found == wanted, "cut {cut}, call {call}");
        }
    }
    drop(whole);
}
