//! Disks in memory and choices, for the other modules.
//!
//! Calls on a disk are in functions over any `Disk`, since their proofs are shorter than over `MemoryDisk`. A
//! function that owns a disk has few exits, since the proof drops the disk at each.

use atom_values::{Bytes, Many};
use feed_disk::{Area, Choice, Disk, MemoryDisk};
use std::alloc::Global;
use std::process::Abort;

/// Returns a disk with these areas, of which these device calls fail. 0 is no call.
pub fn disk_of(
    rt: &impl Abort,
    alloc: Global,
    journal: &[u8],
    sealed: &[u8],
    failing: &[u64],
) -> MemoryDisk {
    let mut calls = Many::new(alloc);
    for call in failing {
        calls.push(*call).expect(rt, "memory");
    }
    MemoryDisk::new(
        alloc,
        Bytes::of(alloc, journal).expect(rt, "memory"),
        Bytes::of(alloc, sealed).expect(rt, "memory"),
        Bytes::of(alloc, b"").expect(rt, "memory"),
        calls,
    )
}

/// Appends some bytes.
pub fn append(rt: &impl Abort, all: &mut Vec<u8>, bytes: &[u8]) {
    all.extend_from_slice(bytes).expect(rt, "memory");
}

/// Returns the bytes of an area, in two device calls.
pub fn area_of<D: Disk>(rt: &impl Abort, alloc: Global, disk: &mut D, area: Area) -> Vec<u8> {
    let size = disk.size(area).expect(rt, "a device call");
    let mut bytes = vec![in alloc; 0u8; size.min(65_536) as usize].expect(rt, "memory");
    disk.read(area, 0, &mut bytes).expect(rt, "a device call");
    bytes
}

/// A `Choice` as a table has it.
#[derive(Clone, Copy)]
pub enum Filling {
    Old,
    New,
    Fill(u8),
    /// The size, and how many of the bytes `123456` are given.
    Given(u64, usize),
}

/// Returns the disk that a crash within a call leaves.
pub fn crashed(
    rt: &impl Abort,
    alloc: Global,
    disk: &MemoryDisk,
    call: u64,
    filling: Filling,
) -> MemoryDisk {
    let choice = match filling {
        Filling::Old => Choice::Old,
        Filling::New => Choice::New,
        Filling::Fill(byte) => Choice::Fill(byte),
        Filling::Given(size, count) => Choice::Given {
            size,
            bytes: Bytes::of(alloc, &b"123456"[..count.min(6)]).expect(rt, "memory"),
        },
    };
    let left = disk
        .image(call.min(disk.calls()), &choice)
        .expect(rt, "memory");
    drop(choice);
    left
}
