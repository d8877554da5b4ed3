//! Connections and disks in memory, for the other modules.

ghost use Rattle.std.specs.Prelude.{◌≡◌, None};

use atom_values::{Bytes, Many};
use feed_disk::{Choice, Disk, MemoryDisk};
use http_face::{Conn, ScriptConn};
use std::alloc::Global;
use std::process::Abort;

/// Returns a connection of these bytes, of which this call fails. 0 is no call.
pub fn conn_of(rt: &impl Abort, alloc: Global, bytes: &[u8], failing: u64) -> ScriptConn
    ensures { (⟦<ScriptConn as Conn>⟧.state result).begun ≡ None }
{
    let mut calls = Many::new(alloc);
    calls.push(failing).expect(rt, "memory");
    ScriptConn::new(alloc, Bytes::of(alloc, bytes).expect(rt, "memory"), calls)
}

/// Returns a disk whose areas all have these bytes, of which this device call fails. 0 is no call.
pub fn disk_of(rt: &impl Abort, alloc: Global, bytes: &[u8], failing: u64) -> MemoryDisk {
    let mut calls = Many::new(alloc);
    calls.push(failing).expect(rt, "memory");
    MemoryDisk::new(
        alloc,
        Bytes::of(alloc, bytes).expect(rt, "memory"),
        Bytes::of(alloc, bytes).expect(rt, "memory"),
        Bytes::of(alloc, bytes).expect(rt, "memory"),
        calls,
    )
}

/// A `Choice` as a table has it.
#[derive(Clone, Copy)]
pub enum Filling {
    Old,
    New,
    Fill(u8),
}

/// Returns the disk that a crash within a call leaves.
pub fn crashed(rt: &impl Abort, disk: &MemoryDisk, call: u64, filling: Filling) -> MemoryDisk {
    let choice = match filling {
        Filling::Old => Choice::Old,
        Filling::New => Choice::New,
        Filling::Fill(byte) => Choice::Fill(byte),
    };
    let left = disk
        .image(call.min(disk.calls()), &choice)
        .expect(rt, "memory");
    drop(choice);
    left
}
