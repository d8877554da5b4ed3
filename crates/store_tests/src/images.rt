//! `MemoryDisk`: what it reads back, and the disks that crashes leave.

use crate::disks::{Filling, append, area_of, crashed};
use atom_values::{Bytes, Many};
use feed_disk::{Area, Disk, MemoryDisk};
use std::alloc::Global;
use std::process::Abort;

/// Returns a disk that wrote to the journal in call 1 and to the sealed area in call 2, synced the journal in
/// call 3, and wrote to the mirror in call 4.
fn written_disk(rt: &impl Abort, alloc: Global) -> MemoryDisk {
    let journal = Bytes::of(alloc, b"abcd").expect(rt, "memory");
    let sealed = Bytes::of(alloc, b"ef").expect(rt, "memory");
    let mirror = Bytes::of(alloc, b"").expect(rt, "memory");
    let mut disk = MemoryDisk::new(alloc, journal, sealed, mirror, Many::new(alloc));
    disk.write(Area::Journal, 2, b"XYZ")
        .expect(rt, "a device call");
    disk.write(Area::Sealed, 2, b"gh")
        .expect(rt, "a device call");
    disk.sync(Area::Journal).expect(rt, "a device call");
    disk.write(Area::Mirror, 0, b"ij")
        .expect(rt, "a device call");
    disk
}

/// Appends the areas of a disk, each followed by `/`, and a space.
fn append_areas<D: Disk>(rt: &impl Abort, alloc: Global, all: &mut Vec<u8>, disk: &mut D) {
    for area in [Area::Journal, Area::Sealed, Area::Mirror] {
        append(rt, all, &area_of(rt, alloc, disk, area));
        append(rt, all, b"/");
    }
    append(rt, all, b" ");
}

static FILLINGS: [Filling; 6] = [
    Filling::Old,
    Filling::New,
    Filling::Fill(b'.'),
    Filling::Given(0, 2),
    Filling::Given(1, 6),
    Filling::Given(9, 4),
];

/// The images that a crash within each call leaves, from call 0 on: one for each choice.
static IMAGES: [&[u8]; 5] = [
    b"abcd/ef// abcd/ef// abcd/ef// abcd/ef// abcd/ef// abcd/ef// ",
    b"abcd/ef// abXYZ/ef// ab.../ef// ab12/ef// ab123/ef// ab123/ef// ",
    b"abcd/ef// abXYZ/efgh// ab.../ef..// ab12/ef// ab123/ef4// ab123/ef4h// ",
    // A sync does nothing before its end.
    b"abcd/ef// abXYZ/efgh// ab.../ef..// ab12/ef// ab123/ef4// ab123/ef4h// ",
    b"abXYZ/ef// abXYZ/efgh/ij/ abXYZ/ef../../ abXYZ/ef// abXYZ/ef1/2/ abXYZ/ef12/34/ ",
];

#[test]
fn a_crash_leaves_the_choice(rt: HostRuntime) {
    let alloc = rt.alloc();
    let disk = written_disk(&rt, alloc);
    for (call, images) in IMAGES.iter().enumerate() {
        let mut all = Vec::new(alloc);
        for filling in &FILLINGS {
            let mut left = crashed(&rt, alloc, &disk, call as u64, *filling);
            append_areas(&rt, alloc, &mut all, &mut left);
            drop(left);
        }
        assert!(rt; all.as_slice() == *images, "call {call}");
    }
    drop(disk);
}

/// Returns the size of the journal, and its first three bytes.
fn front<D: Disk>(rt: &impl Abort, disk: &mut D) -> (u64, [u8; 3]) {
    let mut bytes = [0u8; 3];
    disk.read(Area::Journal, 0, &mut bytes)
        .expect(rt, "a device call");
    (disk.size(Area::Journal).expect(rt, "a device call"), bytes)
}

#[test]
fn a_write_is_read_back(rt: HostRuntime) {
    let mut disk = written_disk(&rt, rt.alloc());
    assert!(rt; front(&rt, &mut disk) == (5, *b"abX"));
    assert!(rt; disk.calls() == 6);
    drop(disk);
}
