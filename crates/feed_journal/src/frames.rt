ghost use Rattle.std.specs.Prelude.{◌≡◌, ◌≢◌, ◌+◌, ◌<◌, ◌≤◌, ℕ, List, [], ◌∷◌, ◌++◌, length, slice_get, true, false};
ghost use Rattle.std.specs.Prelude.{take, drop, Some, OnOk, OnErr, IfOk, IsTrue, ◌↔◌};
ghost use Rattle.atom_values.specs.Counts.{CountsFault};
ghost use Rattle.feed_disk.specs.Disk.{written, TornFrom};
ghost use Rattle.feed_disk.specs.Moments.{AlwaysLeaves, LeavesAlone};
ghost use Rattle.feed_disk.specs.Raised.{raised};
ghost use Rattle.feed_disk.specs.declared.area.Area.{Area as AreaValue};
ghost use Rattle.feed_journal.specs.Limits.{payload_limit, payload_count_limit, header_length, closed_gate};
ghost use Rattle.feed_journal.specs.Log.{HasRoomFor, IsAppended, IsListed, IsLog, IsSynced, KeepsAll, KeepsAtRest};
ghost use Rattle.feed_journal.specs.Log.{KeepsFirst, KeepsLog, LeavesOneList, ListsOnly, ListsPayload, MakesCalls};
ghost use Rattle.feed_journal.specs.Log.{MakesOrFails, MakesSome, RestsAt, payload_lengths, payloads_at};
ghost use Rattle.feed_journal.specs.Records.{records};

use crate::append::write_frame;
use crate::extent::Extent;
use crate::extents::Extents;
use crate::fault::{DiskFault, LogFault};
use crate::framed::Framed;
use crate::limits::{CLOSED_GATE, HEADER_LENGTH};
use crate::read::read_exactly;
use crate::synced_write::write_and_sync;
use feed_disk::{Area, Disk};
use std::alloc::Global;
use std::marker::Model;

/// The payloads of one area of a disk, as [`crate::Log`] has them, but without their places. A caller keeps the extents
/// of those that it will read. So it takes the same memory, however many payloads there are.
///
/// Begin with [`crate::FrameReader`]. After `DiskFault` the frames are spent: drop them and load them again.
#[derive(Debug, Drop)]
pub struct Frames {
    alloc: Global,
    area: Area,
    size: u64,
    calls: u64,
    /// Whether a device call failed. Only contracts read it.
    spent: bool,
    whole: bool,
    extents: Extents,
}

impl Model for Frames {
    ghost use Rattle.feed_journal.specs.Log.{LogValue, KeepsLog};

    ghost Value = { LogValue };

    // An append takes no memory, so there is room for one at any time.
    ghost view = { λ f. record {
      area = f.area;
      extents = f.extents.list;
      size = f.size;
      calls = f.calls;
      spent = f.spent;
      whole = f.whole;
      spare = 1;
    } };

    ghost invariant = { λ f. KeepsLog f.extents.list f.size };
}

impl Frames {
    /// The frames of an area that end before the gate at `size - 1`.
    pub(crate) fn of(
        alloc: Global,
        area: Area,
        extents: Extents,
        size: u64,
        calls: u64,
        whole: bool,
    ) -> Frames
        requires { KeepsLog extents.list size }
        ensures { result ≡ record {
          area = area;
          extents = extents.list;
          size = size;
          calls = calls;
          spent = false;
          whole = whole;
          spare = 1;
        } }
    {
        Frames {
            alloc,
            area,
            size,
            calls,
            spent: false,
            whole,
            extents,
        }
    }

    /// Returns the number of device calls since the load began, failed ones included. It stays at the greatest u64.
    pub fn calls(&self) -> u64
        ensures calls { result ≡ self.now.calls }
        ensures rules { IsLog self.now }
        ensures spare { self.now.spare ≡ 1 }
    {
        self.calls
    }

    /// Returns whether the frames are spent.
    pub fn is_spent(&self) -> bool
        ensures { result ≡ self.now.spent }
    {
        self.spent
    }

    /// Returns the number of bytes up to the closed gate after the payloads, which is counted too.
    pub fn size(&self) -> u64
        requires { self.now.spent ≡ false }
        ensures size { result ≡ self.now.size }
        ensures rules { IsLog self.now }
        ensures spare { self.now.spare ≡ 1 }
    {
        self.size
    }

    /// Returns whether the area was whole as it was read, or it was appended to or cut since then.
    pub fn is_whole(&self) -> bool
        ensures { result ≡ self.now.whole }
    {
        self.whole
    }

    /// Returns whether the area's frames with this payload fit into this capacity.
    pub fn fits(&self, framed: &Framed, capacity: u64) -> bool
        requires { self.now.spent ≡ false }
        ensures { IsTrue result ↔ (self.now.size + (length framed.now + header_length) ≤ capacity) }
    {
        u128::from(self.size) + u128::from(framed.needed()) <= u128::from(capacity)
    }

    /// Appends the payload, in four device calls, and returns where it is. Takes no memory.
    ///
    /// A crash at any moment of the call leaves the list before or the list with the payload.
    ///
    /// Error: `DiskFault` where the disk's count of faults rose. Then a crash leaves one of the two lists,
    /// and the frames are spent.
    pub fn append<D: Disk>(&mut self, disk: &mut D, framed: &Framed) -> Result<Extent, DiskFault>
        requires unspent { self.old.spent ≡ false }
        requires room { HasRoomFor (length framed.now) (record self.old { spare = 1 }) }
        requires listed { D.observable → IsListed self.old ((D.state disk.old).content self.old.area) }
        ensures place { IfOk result (λ extent. self.new.extents ≡ self.old.extents ++ extent ∷ []) }
        ensures ok { OnOk result (IsAppended (length framed.now) self.old self.new) }
        ensures err { OnErr result (self.new ≡ record self.old { calls = self.new.calls; spent = true }) }
        ensures listed { OnOk result (D.observable → ListsPayload framed.now self.new
            ((D.state disk.old).content self.old.area) ((D.state disk.new).content self.old.area)) }
        ensures rules { IsLog self.new }
        ensures moments { D.observable
            → LeavesOneList (D.state disk.old) (D.state disk.new) self.old.area framed.now }
        ensures rests { OnOk result (D.observable
            → KeepsAtRest (D.state disk.old) (D.state disk.new) self.old.area) }
        ensures certain { OnOk result (D.observable → IsSynced (D.state disk.new) self.old.area) }
        ensures others { (a : AreaValue) → a ≢ self.old.area
            → LeavesAlone (D.state disk.old) (D.state disk.new) a }
        ensures calls { MakesOrFails (D.state disk.old) (D.state disk.new) self.old.calls self.new.calls 4
            result }
        ensures read { (D.state disk.new).bytes_read ≡ (D.state disk.old).bytes_read }
    {
        let size = self.size;
        let mut calls = self.calls;
        let outcome = write_frame(disk, self.area, size, framed, &mut calls);
        self.calls = calls;
        match outcome {
            Ok(()) => Ok(self.add(framed.length())),
            Err(_) => {
                self.spent = true;
                Err(DiskFault)
            }
        }
    }

    /// Closes the gate after the payloads, in two device calls: a write of one byte and a sync. Takes no memory.
    ///
    /// At any moment of the call, a crash leaves the payloads first that each image before had first. If the area was
    /// synced and not whole, it leaves exactly its payloads.
    ///
    /// Error: `DiskFault` where the disk's count of faults rose. Then the frames are spent.
    pub fn close<D: Disk>(&mut self, disk: &mut D) -> Result<(), DiskFault>
        requires unspent { self.old.spent ≡ false }
        requires listed { D.observable → payloads_at self.old.extents ((D.state disk.old).content self.old.area)
            ≡ records ((D.state disk.old).content self.old.area) }
        ensures ok { OnOk result (self.new ≡ record self.old { calls = self.new.calls; whole = true }) }
        ensures err { OnErr result (self.new ≡ record self.old { calls = self.new.calls; spent = true }) }
        ensures kept { OnOk result (D.observable
            → ListsOnly (records ((D.state disk.old).content self.old.area)) self.new
            ((D.state disk.old).content self.old.area) ((D.state disk.new).content self.old.area)) }
        ensures moments { D.observable → KeepsFirst (D.state disk.old) (D.state disk.new) self.old.area
            (records ((D.state disk.old).content self.old.area)) }
        ensures all { D.observable → KeepsAll (D.state disk.old) (D.state disk.new) self.old.area }
        ensures rests { OnOk result (D.observable → RestsAt (D.state disk.old) (D.state disk.new) self.old.area
            (records ((D.state disk.old).content self.old.area))) }
        ensures certain { OnOk result (D.observable → IsSynced (D.state disk.new) self.old.area) }
        ensures others { (a : AreaValue) → a ≢ self.old.area
            → LeavesAlone (D.state disk.old) (D.state disk.new) a }
        ensures calls { MakesOrFails (D.state disk.old) (D.state disk.new) self.old.calls self.new.calls 2
            result }
        ensures read { (D.state disk.new).bytes_read ≡ (D.state disk.old).bytes_read }
    {
        let gate = self.size - 1;
        self.write_gate(disk, gate)?;
        self.whole = true;
        Ok(())
    }

    /// Keeps the first of the payloads, whose extents are `kept`, and closes the gate at `size - 1` after them, as
    /// `crate::Log::cut` does.
    pub(crate) fn cut<D: Disk>(
        &mut self,
        disk: &mut D,
        kept: Extents,
        size: u64,
    ) -> Result<(), DiskFault>
        requires unspent { self.old.spent ≡ false }
        requires first { kept.list ≡ take (length kept.list) self.old.extents }
        requires rules { KeepsLog kept.list size }
        requires listed { D.observable → payloads_at self.old.extents ((D.state disk.old).content self.old.area)
            ≡ records ((D.state disk.old).content self.old.area) }
        ensures ok { OnOk result (self.new ≡ record self.old {
          extents = kept.list;
          size = size;
          calls = self.new.calls;
          whole = true;
        }) }
        ensures err { OnErr result (self.new ≡ record self.old { calls = self.new.calls; spent = true }) }
        ensures kept { OnOk result (D.observable
            → ListsOnly (take (length kept.list) (records ((D.state disk.old).content self.old.area))) self.new
            ((D.state disk.old).content self.old.area) ((D.state disk.new).content self.old.area)) }
        ensures moments { D.observable → KeepsFirst (D.state disk.old) (D.state disk.new) self.old.area
            (take (length kept.list) (records ((D.state disk.old).content self.old.area))) }
        ensures rests { OnOk result (D.observable → RestsAt (D.state disk.old) (D.state disk.new) self.old.area
            (take (length kept.list) (records ((D.state disk.old).content self.old.area)))) }
        ensures certain { OnOk result (D.observable → IsSynced (D.state disk.new) self.old.area) }
        ensures others { (a : AreaValue) → a ≢ self.old.area
            → LeavesAlone (D.state disk.old) (D.state disk.new) a }
        ensures calls { MakesOrFails (D.state disk.old) (D.state disk.new) self.old.calls self.new.calls 2
            result }
        ensures read { (D.state disk.new).bytes_read ≡ (D.state disk.old).bytes_read }
    {
        self.write_gate(disk, size - 1)?;
        self.extents = kept;
        self.size = size;
        self.whole = true;
        Ok(())
    }

    /// Writes a closed gate at this offset of the area and syncs it, in two device calls.
    fn write_gate<D: Disk>(&mut self, disk: &mut D, gate: u64) -> Result<(), DiskFault>
        requires within { D.observable → gate ≤ length ((D.state disk.old).content self.old.area) }
        ensures log { OnOk result (self.new ≡ record self.old { calls = self.new.calls }) }
        ensures err { OnErr result (self.new ≡ record self.old { calls = self.new.calls; spent = true }) }
        ensures content { OnOk result (D.observable → (D.state disk.new).content self.old.area
            ≡ written ((D.state disk.old).content self.old.area) gate (closed_gate ∷ [])) }
        ensures certain { OnOk result (D.observable → IsSynced (D.state disk.new) self.old.area) }
        ensures moments { AlwaysLeaves (D.state disk.old) (D.state disk.new) self.old.area
            (TornFrom gate 1 ((D.state disk.old).image_now self.old.area)) }
        ensures others { (a : AreaValue) → a ≢ self.old.area
            → LeavesAlone (D.state disk.old) (D.state disk.new) a }
        ensures calls { MakesOrFails (D.state disk.old) (D.state disk.new) self.old.calls self.new.calls 2
            result }
        ensures read { (D.state disk.new).bytes_read ≡ (D.state disk.old).bytes_read }
    {
        let mut calls = self.calls;
        let outcome = write_and_sync(disk, self.area, gate, &[CLOSED_GATE], &mut calls);
        self.calls = calls;
        match outcome {
            Ok(()) => Ok(()),
            Err(_) => {
                self.spent = true;
                Err(DiskFault)
            }
        }
    }

    /// Reads the payload at the extent of an index, counted from 0, in one device call.
    ///
    /// Errors: `DiskFault` where the disk's count of faults rose, after which the frames are spent. `Changed` if
    /// the area has fewer bytes of the payload than its extent says. `NoMemory`. No other error hides a failed
    /// device call.
    pub fn read<D: Disk>(
        &mut self,
        disk: &mut D,
        extent: Extent,
        index: u32,
    ) -> Result<Vec<u8>, LogFault>
        requires unspent { self.old.spent ≡ false }
        requires place { slice_get self.old.extents index ≡ Some extent }
        requires listed { D.observable → payloads_at self.old.extents ((D.state disk.old).content self.old.area)
            ≡ records ((D.state disk.old).content self.old.area) }
        ensures payload { IfOk result (λ payload. D.observable
            → slice_get (records ((D.state disk.old).content self.old.area)) index ≡ Some payload.items) }

        // With any disk, the payload has the length that its extent says, and a read gave all its bytes.
        ensures length { IfOk result (λ payload.
            slice_get (payload_lengths self.old.extents) index ≡ Some (length payload.items)) }
        ensures read { IfOk result (λ payload. (D.state disk.new).bytes_read
            ≡ raised (D.state disk.old).bytes_read (length payload.items)) }

        ensures never { D.observable → (n : ℕ) → result ≢ Err (LogFault.Changed n) }
        ensures changed { (n : ℕ) → result ≡ Err (LogFault.Changed n) → n ≡ index }
        ensures log { result ≢ Err LogFault.DiskFault
            → self.new ≡ record self.old { calls = self.new.calls } }
        ensures spent { result ≡ Err LogFault.DiskFault
            → self.new ≡ record self.old { calls = self.new.calls; spent = true } }
        ensures areas { (a : AreaValue) → LeavesAlone (D.state disk.old) (D.state disk.new) a }
        ensures one { OnOk result
            (MakesCalls (D.state disk.old) (D.state disk.new) self.old.calls self.new.calls 1) }
        ensures calls { MakesSome (D.state disk.old) (D.state disk.new) self.old.calls self.new.calls }
        ensures faults { CountsFault (D.state disk.old).faults (D.state disk.new).faults
            (result ≡ Err LogFault.DiskFault) }
    {
        self.read_part(disk, extent, index, 0, extent.length)
    }

    /// Reads a part of the payload at the extent of an index, counted from 0, in one device call: `count` bytes from
    /// byte `at` of the payload on.
    ///
    /// Errors: `DiskFault` where the disk's count of faults rose, after which the frames are spent. `Changed` if
    /// the area ends before the part does. `NoMemory`. No other error hides a failed device call.
    pub fn read_part<D: Disk>(
        &mut self,
        disk: &mut D,
        extent: Extent,
        index: u32,
        at: u32,
        count: u32,
    ) -> Result<Vec<u8>, LogFault>
        requires unspent { self.old.spent ≡ false }
        requires place { slice_get self.old.extents index ≡ Some extent }
        requires inside { at + count ≤ extent.length }
        requires listed { D.observable → payloads_at self.old.extents ((D.state disk.old).content self.old.area)
            ≡ records ((D.state disk.old).content self.old.area) }
        ensures part { IfOk result (λ part. D.observable → (payload : List ℕ)
            → slice_get (records ((D.state disk.old).content self.old.area)) index ≡ Some payload
            → part.items ≡ take count (drop at payload)) }

        // With any disk, the part has this length, and a read gave all its bytes.
        ensures length { IfOk result (λ part. length part.items ≡ count) }
        ensures read { IfOk result (λ part. (D.state disk.new).bytes_read
            ≡ raised (D.state disk.old).bytes_read (length part.items)) }

        ensures never { D.observable → (n : ℕ) → result ≢ Err (LogFault.Changed n) }
        ensures changed { (n : ℕ) → result ≡ Err (LogFault.Changed n) → n ≡ index }
        ensures log { result ≢ Err LogFault.DiskFault
            → self.new ≡ record self.old { calls = self.new.calls } }
        ensures spent { result ≡ Err LogFault.DiskFault
            → self.new ≡ record self.old { calls = self.new.calls; spent = true } }
        ensures areas { (a : AreaValue) → LeavesAlone (D.state disk.old) (D.state disk.new) a }
        ensures one { OnOk result
            (MakesCalls (D.state disk.old) (D.state disk.new) self.old.calls self.new.calls 1) }
        ensures calls { MakesSome (D.state disk.old) (D.state disk.new) self.old.calls self.new.calls }
        ensures faults { CountsFault (D.state disk.old).faults (D.state disk.new).faults
            (result ≡ Err LogFault.DiskFault) }
    {
        let mut bytes = vec![in self.alloc; 0u8; count as usize]?;
        self.calls = self.calls.saturating_add(1);
        match read_exactly(disk, self.area, extent.offset + u64::from(at), &mut bytes) {
            Ok(true) => Ok(bytes),
            Ok(false) => Err(LogFault::Changed { index }),
            Err(_) => {
                self.spent = true;
                Err(LogFault::DiskFault)
            }
        }
    }

    /// Returns the extents of the payloads.
    pub(crate) fn extents(&self) -> &Extents
        ensures { result.now.list ≡ self.now.extents }
    {
        &self.extents
    }

    /// Adds the frame of a payload that was appended, and returns where the payload is.
    fn add(&mut self, length: u32) -> Extent
        requires room { HasRoomFor length (record self.old { spare = 1 }) }
        requires small { length ≤ payload_limit }
        ensures extent { result ≡ record { offset = self.old.size + 4; length = length } }
        ensures log { self.new ≡ record self.old {
          extents = self.old.extents ++ result ∷ [];
          size = self.old.size + length + header_length;
          whole = true;
        } }
        ensures rules { IsLog self.new }
    {
        // The payload begins after its length in 4 bytes, which begins after the gate at `size - 1`.
        let extent = Extent {
            offset: self.size + 4,
            length,
        };
        self.extents = Extents::with(&self.extents, &extent);
        self.size += u64::from(length) + HEADER_LENGTH;
        self.whole = true;
        extent
    }
}
