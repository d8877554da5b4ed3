//! Mirror areas, as data, and disks in memory with them.
//!
//! Calls on a disk are in functions over any `Disk`, since their proofs are shorter than over `MemoryDisk`.

use crate::documents::{Given, bytes_of};
use atom_grammar::MAX_DOCUMENT;
use atom_values::{Bytes, Many};
use feed_disk::{Area, Choice, Disk, MemoryDisk};
use std::alloc::Global;
use std::process::Abort;

/// The greatest capacity of an area.
pub const CAPACITY: u64 = 68_719_476_736;

/// A piece of an area.
pub enum Piece {
    /// The frame of a document.
    Frame(Given),
    /// The frame of a document without its last byte.
    Cut(Given),
    /// Bytes without a frame.
    Raw(&'static [u8]),
}

/// A closed gate, as it is after the last frame.
pub const CLOSED: Piece = Piece::Raw(b"\x00");

/// Appends the frame of a payload: an open gate, the length in four bytes, and the payload.
fn append_frame(rt: &impl Abort, area: &mut Vec<u8>, payload: &[u8]) {
    assert!(rt; payload.len() <= MAX_DOCUMENT);
    let length = (payload.len() as u32).to_be_bytes();
    area.push(1).expect(rt, "memory");
    area.extend_from_slice(&length).expect(rt, "memory");
    area.extend_from_slice(payload).expect(rt, "memory");
}

/// The bytes of an area of these pieces.
pub fn area_of(rt: &impl Abort, alloc: Global, pieces: &[Piece]) -> Vec<u8> {
    let mut area = Vec::new(alloc);
    for piece in pieces {
        match piece {
            Piece::Frame(given) => append_frame(rt, &mut area, &bytes_of(rt, alloc, given)),
            Piece::Cut(given) => {
                let mut bytes = bytes_of(rt, alloc, given);
                bytes.pop();
                append_frame(rt, &mut area, &bytes);
            }
            Piece::Raw(bytes) => area.extend_from_slice(bytes).expect(rt, "memory"),
        }
    }
    area
}

/// A disk with this mirror area and empty other areas. The device call `failing` fails. 0 lists no call.
pub fn disk_of(rt: &impl Abort, alloc: Global, pieces: &[Piece], failing: u64) -> MemoryDisk {
    let mut calls = Many::new(alloc);
    calls.push(failing).expect(rt, "memory");
    MemoryDisk::new(
        alloc,
        Bytes::from_vec(Vec::new(alloc)),
        Bytes::from_vec(Vec::new(alloc)),
        Bytes::from_vec(area_of(rt, alloc, pieces)),
        calls,
    )
}

/// The bytes that are not synced after a crash, as `Choice` has them.
pub enum Filling {
    Old,
    New,
    Fill(u8),
}

/// The disk that a crash within a call leaves.
pub fn crashed(rt: &impl Abort, disk: &MemoryDisk, call: u64, filling: &Filling) -> MemoryDisk {
    assert!(rt; call <= disk.calls());
    let choice = match filling {
        Filling::Old => Choice::Old,
        Filling::New => Choice::New,
        Filling::Fill(byte) => Choice::Fill(*byte),
    };
    let left = disk.image(call, &choice).expect(rt, "memory");
    drop(choice);
    left
}

/// Compares the bytes of the mirror area.
pub fn expect_area<D: Disk>(rt: &impl Abort, alloc: Global, disk: &mut D, pieces: &[Piece]) {
    let wanted = area_of(rt, alloc, pieces);
    let size = disk.size(Area::Mirror).expect(rt, "a device call") as usize;
    let mut bytes = vec![in alloc; 0u8; size].expect(rt, "memory");
    disk.read(Area::Mirror, 0, &mut bytes)
        .expect(rt, "a device call");
    assert!(rt; bytes.as_slice() == wanted.as_slice(), "{size} bytes");
}
