//! A connection in memory, for tests. Contracts can see its content, and listed calls of it fail.

ghost use Rattle.std.specs.Prelude.{◌≡◌, ◌↔◌, ◌≤◌, ◌<◌, ◌++◌, [], None, Some, length, take, drop, IfOk, OnOk, OnErr, IsErr, IsTrue, IsSome};
ghost use Rattle.atom_values.specs.Counts.{HasCause, counted};
ghost use Rattle.atom_values.specs.ListedCalls.{after_call, next_call_fails};
ghost use Rattle.feed_disk.specs.Raised.{raised};
ghost use Rattle.http_face.specs.Conn.{Reads, Writes};

use crate::conn::Conn;
use atom_values::{Bytes, Failed, ListedCalls, MAX_FAILING, Many};
use feed_disk::Disk;
use std::alloc::Global;

/// A connection in memory. Its client sends given bytes, it keeps the bytes that are sent to the client, and listed
/// calls of it fail. A write that finds no memory fails too.
#[derive(Debug, Drop)]
pub struct ScriptConn {
    bytes: Bytes,
    at: usize,
    sent: Vec<u8>,
    calls: ListedCalls,
    begun: Option<u64>,
    bytes_read: u64,
    reads: u64,
    // `at` when the last read began.
    read_at: usize,
    ghost in_range: { at ≤ length bytes },
}

impl ScriptConn {
    /// The connection before its first call, whose client sends `bytes`. Reads and writes are numbered together from 1,
    /// and those in `failing` fail.
    pub fn new(alloc: Global, bytes: Bytes, failing: Many<u64, MAX_FAILING>) -> ScriptConn
        ensures { ⟦<ScriptConn as Conn>⟧.state result
            ≡ record {
              left = bytes;
              sent = [];
              faults = 0;
              begun = None;
              bytes_read = 0;
              reads = 0;
              before_read = bytes;
            } }
    {
        ScriptConn {
            bytes,
            at: 0,
            sent: Vec::new(alloc),
            calls: ListedCalls::new(failing),
            begun: None,
            bytes_read: 0,
            reads: 0,
            read_at: 0,
        }
    }

    /// The bytes that were sent to the client.
    pub fn sent(&self) -> &[u8]
        ensures { result.now ≡ (⟦<ScriptConn as Conn>⟧.state self.now).sent }
    {
        self.sent.as_slice()
    }

    /// How many device calls the disk had made when the reply was begun. `None` if it wasn't begun.
    pub fn begun(&self) -> Option<u64>
        ensures { result ≡ (⟦<ScriptConn as Conn>⟧.state self.now).begun }
    {
        self.begun
    }

    /// How many calls of `read` were made, failed ones too. The count stays at the greatest `u64`.
    pub fn reads(&self) -> u64
        ensures { result ≡ (⟦<ScriptConn as Conn>⟧.state self.now).reads }
    {
        self.reads
    }
}

impl Conn for ScriptConn {
    ghost observable = { Unit {0} };

    ghost state = { λ s. record {
      left = drop s.at s.bytes;
      sent = s.sent.items;
      faults = s.calls.faults;
      begun = s.begun;
      bytes_read = s.bytes_read;
      reads = s.reads;
      before_read = drop s.read_at s.bytes;
    } };

    fn read(&mut self, into: &mut [u8]) -> Result<usize, Failed>
        // It fails exactly the listed calls.
        ensures listed { IsErr result ↔ IsTrue (next_call_fails self.old.calls) }
        ensures calls { self.new.calls ≡ after_call self.old.calls }

        // The clauses of the trait.
        ensures within { IfOk result (λ count. count ≤ length into.old) }
        ensures bytes { IfOk result (λ count. Unit {0}
            → drop self.old.at self.old.bytes ≡ take count into.new ++ drop self.new.at self.new.bytes) }
        ensures end { IfOk result (λ count. Unit {0}
            → count ≡ 0 → 0 < length into.old → drop self.old.at self.old.bytes ≡ []) }
        ensures err { OnErr result (Unit {0}
            → drop self.new.at self.new.bytes ≡ drop self.old.at self.old.bytes) }
        ensures read { IfOk result (λ count. self.new.bytes_read ≡ raised self.old.bytes_read count) }
        ensures unread { OnErr result (self.new.bytes_read ≡ self.old.bytes_read) }
        ensures called { self.new.reads ≡ counted self.old.reads }
        ensures before { Unit {0}
            → drop self.new.read_at self.new.bytes ≡ drop self.old.at self.old.bytes }
        ensures reads { Reads (⟦<ScriptConn as Conn>⟧.state self.old)
            (⟦<ScriptConn as Conn>⟧.state self.new) }
        ensures counts { HasCause self.old.calls.faults self.new.calls.faults result }
    {
        self.reads = self.reads.saturating_add(1);
        self.read_at = self.at;
        if self.calls.next_fails() {
            return Err(Failed);
        }
        let (_, left) = self.bytes.slice().split_at(self.at);
        let count = left.len().min(into.len());
        let (given, _) = left.split_at(count);
        into[..count].copy_from_slice(given);
        self.at += count;
        self.bytes_read = self.bytes_read.saturating_add(count as u64);
        Ok(count)
    }

    fn begin<D: Disk>(&mut self, disk: &D) {
        self.begun = Some(disk.calls());
    }

    // Out of memory is counted as a failed call, since the trait has no answer for it.
    fn write(&mut self, from: &[u8]) -> Result<usize, Failed>
        requires { IsSome self.old.begun }

        // It fails the listed calls, and others only if memory ran out. Each failure counts one fault.
        ensures listed { IsTrue (next_call_fails self.old.calls) → IsErr result }
        ensures calls { OnOk result (self.new.calls ≡ after_call self.old.calls) }
        ensures failed { OnErr result (self.new.calls
            ≡ record (after_call self.old.calls) { faults = counted self.old.calls.faults }) }

        // The clauses of the trait.
        ensures within { IfOk result (λ count. count ≤ length from.now) }
        ensures some { IfOk result (λ count. 0 < length from.now → 0 < count) }
        ensures bytes { IfOk result (λ count. Unit {0}
            → self.new.sent.items ≡ self.old.sent.items ++ take count from.now) }
        ensures err { OnErr result (Unit {0} → self.new.sent.items ≡ self.old.sent.items) }
        ensures writes { Writes (⟦<ScriptConn as Conn>⟧.state self.old)
            (⟦<ScriptConn as Conn>⟧.state self.new) }
        ensures counts { HasCause self.old.calls.faults self.new.calls.faults result }
    {
        if self.calls.next_fails() {
            return Err(Failed);
        }
        match self.sent.extend_from_slice(from) {
            Ok(()) => Ok(from.len()),
            Err(_) => {
                self.calls.count_failure();
                Err(Failed)
            }
        }
    }
}
