ghost use Rattle.std.specs.Prelude.{◌≡◌, ◌+◌, ◌-◌, ◌≤◌, ◌++◌, [], length, take, drop, min, true, IfOk, IsTrue, ◌↔◌};
ghost use Rattle.atom_values.specs.Counts.{HasCause};
ghost use Rattle.feed_disk.specs.Moments.{LeavesAlone};
ghost use Rattle.feed_disk.specs.declared.area.Area.{Area as AreaValue};
ghost use Rattle.feed_journal.specs.Ahead.{Gives, HasAhead, IsAhead};
ghost use Rattle.feed_journal.specs.Log.{MakesSome};

use atom_values::{Failed, NoMemory};
use feed_disk::{Area, Disk};
use std::alloc::Global;
use std::marker::Model;

/// Bytes of one area that were read ahead of their use, so that one device call serves several payloads.
#[derive(Debug, Drop)]
pub struct Ahead {
    buffer: Vec<u8>,
    /// The number of bytes of the buffer that were read.
    len: usize,
    /// The offset in the area of the first of them.
    from: u64,
}

impl Model for Ahead {
    ghost use Rattle.std.specs.Prelude.{◌≤◌, length, take};
    ghost use Rattle.feed_journal.specs.Ahead.{AheadValue};

    ghost Value = { AheadValue };

    ghost view = { λ a. record { from = a.from; bytes = take a.len a.buffer.items } };

    ghost invariant = { λ a. a.len ≤ length a.buffer.items };
}

impl Ahead {
    /// Returns a buffer of this capacity with no bytes, in one allocation.
    pub fn new(alloc: Global, capacity: usize) -> Result<Ahead, NoMemory>
        ensures { IfOk result (λ ahead. ahead.bytes ≡ []) }
    {
        let buffer = vec![in alloc; 0u8; capacity]?;
        Ok(Ahead {
            buffer,
            len: 0,
            from: 0,
        })
    }

    /// Returns whether all of the `count` bytes from offset `at` on were read ahead.
    fn has(&self, at: u64, count: usize) -> bool
        ensures { IsTrue result ↔ HasAhead self.now at count }
    {
        self.from <= at
            && u128::from(at) + count as u128 <= u128::from(self.from) + self.len as u128
    }

    /// Reads the bytes of the area from offset `at` on into the start of `into`, and returns their number, as
    /// `Disk::read` does. If not all of them were read ahead, it fills the buffer from `at` on. If they are more
    /// than its capacity, it reads them without it. It counts its device call.
    pub(crate) fn read<D: Disk>(
        &mut self,
        disk: &mut D,
        area: Area,
        at: u64,
        into: &mut [u8],
        calls: &mut u64,
    ) -> Result<usize, Failed>
        requires offset { D.observable → at ≤ length ((D.state disk.old).content area) }
        requires ahead { D.observable → IsAhead self.old ((D.state disk.old).content area) }
        ensures most { IfOk result (λ n. n ≤ length into.old) }
        ensures bytes { IfOk result (λ n. D.observable
            → (n ≡ min (length into.old) (length ((D.state disk.old).content area) - at))
            × (into.new ≡ take n (drop at ((D.state disk.old).content area)) ++ drop n into.old)) }
        ensures ahead { D.observable → IsAhead self.new ((D.state disk.new).content area) }
        ensures areas { (a : AreaValue) → LeavesAlone (D.state disk.old) (D.state disk.new) a }
        ensures calls { MakesSome (D.state disk.old) (D.state disk.new) calls.old calls.new }
        ensures cause { HasCause (D.state disk.old).faults (D.state disk.new).faults result }
        ensures read { IfOk result (λ n. Gives (D.state disk.old) (D.state disk.new) at n self.old self.new) }
    {
        if self.has(at, into.len()) {
            let skip = (at - self.from) as usize;
            return Ok(copy_start(&self.buffer[skip..self.len], into));
        }
        *calls = calls.saturating_add(1);
        if into.len() > self.buffer.len() {
            return disk.read(area, at, into);
        }
        // A read that fails may leave any bytes in the buffer.
        self.len = 0;
        self.from = at;
        self.len = disk.read(area, at, self.buffer.as_mut_slice())?;
        Ok(copy_start(&self.buffer[..self.len], into))
    }

    /// Fills `bytes` from offset `at` of the area on, and returns whether the area has all of them. It counts its
    /// device call.
    pub(crate) fn read_exactly<D: Disk>(
        &mut self,
        disk: &mut D,
        area: Area,
        at: u64,
        bytes: &mut Vec<u8>,
        calls: &mut u64,
    ) -> Result<bool, Failed>
        requires within { D.observable
            → at + length bytes.old.items ≤ length ((D.state disk.old).content area) }
        requires ahead { D.observable → IsAhead self.old ((D.state disk.old).content area) }
        ensures bytes { D.observable → IfOk result (λ whole. IsTrue whole
            × (bytes.new.items ≡ take (length bytes.old.items) (drop at ((D.state disk.old).content area)))) }
        ensures length { length bytes.new.items ≡ length bytes.old.items }
        ensures read { IfOk result (λ whole. whole ≡ true
            → Gives (D.state disk.old) (D.state disk.new) at (length bytes.new.items) self.old self.new) }
        ensures ahead { D.observable → IsAhead self.new ((D.state disk.new).content area) }
        ensures areas { (a : AreaValue) → LeavesAlone (D.state disk.old) (D.state disk.new) a }
        ensures calls { MakesSome (D.state disk.old) (D.state disk.new) calls.old calls.new }
        ensures cause { HasCause (D.state disk.old).faults (D.state disk.new).faults result }
    {
        let wanted = bytes.len();
        let count = self.read(disk, area, at, bytes.as_mut_slice(), calls)?;
        Ok(count == wanted)
    }
}

/// Copies the bytes, or as many of them as there is room for, to the start of `into`, and returns their number.
fn copy_start(bytes: &[u8], into: &mut [u8]) -> usize
    ensures count { result ≡ min (length into.old) (length bytes.now) }
    ensures bytes { into.new ≡ take result bytes.now ++ drop result into.old }
{
    let count = into.len().min(bytes.len());
    into[..count].copy_from_slice(&bytes[..count]);
    count
}
