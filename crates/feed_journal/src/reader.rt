ghost use Rattle.std.specs.Prelude.{◌≡◌, ◌≢◌, ◌+◌, ◌-◌, ◌≤◌, ℕ, List, [], length, take, drop, slice_get, false};
ghost use Rattle.std.specs.Prelude.{Some, None, OnOk, IfOk, IfSome};
ghost use Rattle.atom_values.specs.Counts.{CountsFault};
ghost use Rattle.feed_disk.specs.Moments.{AlwaysLeaves, LeavesAlone};
ghost use Rattle.feed_disk.specs.declared.area.Area.{Area as AreaValue};
ghost use Rattle.feed_journal.specs.Ahead.{IsAhead};
ghost use Rattle.feed_journal.specs.Log.{IsListed, IsLog, IsScanned, IsSynced, MakesCalls, MakesSome};
ghost use Rattle.feed_journal.specs.Reading.{HasRead, IsAtEnd, IsReading, LacksNext};
ghost use Rattle.feed_journal.specs.Records.{records, padded, size_of, IsClosed, IsWhole, StandsFor};

use crate::ahead::Ahead;
use crate::extent::Extent;
use crate::extents::Extents;
use crate::fault::LogFault;
use crate::frames::Frames;
use crate::limits::{HEADER_LENGTH, PAYLOAD_COUNT_LIMIT};
use crate::scan::{is_whole, next_frame};
use crate::settle::settle_area;
use feed_disk::{Area, Disk};
use std::alloc::Global;
use std::marker::Model;

/// The number of bytes that are read at a time.
const BYTES_AHEAD: usize = 65_536;

/// A payload that was read, and where it is.
#[derive(Debug, Drop)]
pub struct Frame {
    pub extent: Extent,
    pub payload: Vec<u8>,
}

/// Reads the frames of one area of a disk, one after the other. It keeps none of them: at the end
/// [`FrameReader::finish`] returns them as [`Frames`].
///
/// Most device calls read 65,536 bytes ahead, so that one serves several frames.
#[derive(Debug, Drop)]
pub struct FrameReader {
    alloc: Global,
    area: Area,
    extents: Extents,
    /// How many frames were read.
    count: u32,
    /// The number of bytes up to the gate after them, which is counted too.
    size: u64,
    /// The size of the area.
    limit: u64,
    calls: u64,
    /// Whether the area is whole, once the last frame was read.
    whole: bool,
    ahead: Ahead,
}

impl Model for FrameReader {
    ghost use Rattle.std.specs.Prelude.{◌≡◌, ◌≤◌, length, false};
    ghost use Rattle.feed_journal.specs.Log.{KeepsLog};
    ghost use Rattle.feed_journal.specs.Reading.{ReadingValue};

    ghost Value = { ReadingValue };

    ghost view = { λ r. record {
      log = record {
        area = r.area;
        extents = r.extents.list;
        size = r.size;
        calls = r.calls;
        spent = false;
        whole = r.whole;
        spare = 1;
      };
      limit = r.limit;
      ahead = r.ahead;
    } };

    ghost invariant = { λ r. KeepsLog r.extents.list r.size × (r.count ≡ length r.extents.list) × (r.size ≤ r.limit) };
}

impl FrameReader {
    /// Returns the reader of an area, before its first frame. It syncs the area, so that a crash can't change what it
    /// reads. An area of less than 6 bytes gets a closed gate at its start, and is synced again.
    ///
    /// A crash at any moment of the call, whatever it returns, leaves the payloads of an image that a crash before it
    /// could leave.
    ///
    /// Errors: `DiskFault` where the disk's count of faults rose. `NoMemory`, which hides no failed device call. Never
    /// `Changed`.
    ///
    /// Cost: four device calls at most, and one allocation.
    pub fn open<D: Disk>(alloc: Global, disk: &mut D, area: Area) -> Result<FrameReader, LogFault>
        ensures none { IfOk result (λ reader. (reader.log.area ≡ area) × (reader.log.extents ≡ [])
            × (reader.log.spent ≡ false)) }
        ensures reading { IfOk result (λ reader. D.observable
            → IsReading reader ((D.state disk.new).content area)) }

        // The payloads are those that the content had.
        ensures same { OnOk result (D.observable
            → records ((D.state disk.new).content area) ≡ records ((D.state disk.old).content area)) }
        ensures content { OnOk result (D.observable
            → (D.state disk.new).content area ≡ padded ((D.state disk.old).content area)) }

        // The content is synced. If it was whole, no open gate follows its frames.
        ensures certain { OnOk result (D.observable → IsSynced (D.state disk.new) area) }
        ensures closed { OnOk result (D.observable → IsWhole ((D.state disk.old).content area)
            → IsClosed ((D.state disk.new).content area)) }
        ensures moments { D.observable → AlwaysLeaves (D.state disk.old) (D.state disk.new) area
            (StandsFor ((D.state disk.old).image_now area)) }
        ensures others { (a : AreaValue) → a ≢ area → LeavesAlone (D.state disk.old) (D.state disk.new) a }

        ensures calls { IfOk result (λ reader.
            (n : ℕ) × MakesCalls (D.state disk.old) (D.state disk.new) 0 reader.log.calls n) }
        ensures faults { CountsFault (D.state disk.old).faults (D.state disk.new).faults
            (result ≡ Err LogFault.DiskFault) }
        ensures unchanged { (index : ℕ) → result ≢ Err (LogFault.Changed index) }
    {
        let ahead = Ahead::new(alloc, BYTES_AHEAD)?;
        let mut calls = 0;
        let limit = settle_area(disk, area, &mut calls)?;
        Ok(FrameReader {
            alloc,
            area,
            extents: Extents::new(),
            count: 0,
            size: 1,
            limit,
            calls,
            whole: false,
            ahead,
        })
    }

    /// Returns the reader of an area as [`FrameReader::open`] does, without a sync and a write, or `None` if the area
    /// has no bytes. A crash may change what it reads.
    ///
    /// Errors: `DiskFault` where the disk's count of faults rose. `NoMemory`, which hides no failed device call. Never
    /// `Changed`.
    ///
    /// Cost: a device call, and one allocation.
    pub fn look<D: Disk>(
        alloc: Global,
        disk: &mut D,
        area: Area,
    ) -> Result<Option<FrameReader>, LogFault>
        ensures none { IfOk result (λ found. IfSome found (λ reader. (reader.log.area ≡ area)
            × (reader.log.extents ≡ []) × (reader.log.spent ≡ false))) }
        ensures reading { IfOk result (λ found. IfSome found (λ reader. D.observable
            → IsReading reader ((D.state disk.new).content area))) }
        ensures empty { result ≡ Ok None → D.observable → (D.state disk.new).content area ≡ [] }
        ensures areas { (a : AreaValue) → LeavesAlone (D.state disk.old) (D.state disk.new) a }
        ensures calls { IfOk result (λ found. IfSome found (λ reader.
            (n : ℕ) × MakesCalls (D.state disk.old) (D.state disk.new) 0 reader.log.calls n)) }
        ensures faults { CountsFault (D.state disk.old).faults (D.state disk.new).faults
            (result ≡ Err LogFault.DiskFault) }
        ensures unchanged { (index : ℕ) → result ≢ Err (LogFault.Changed index) }
    {
        let limit = disk.size(area)?;
        if limit == 0 {
            return Ok(None);
        }
        let ahead = Ahead::new(alloc, BYTES_AHEAD)?;
        Ok(Some(FrameReader {
            alloc,
            area,
            extents: Extents::new(),
            count: 0,
            size: 1,
            limit,
            calls: 1,
            whole: false,
            ahead,
        }))
    }

    /// Reads the next frame, or returns `None` after the last one.
    ///
    /// Errors: `DiskFault` where the disk's count of faults rose. `Changed`, of the index of the frame, if the area has
    /// fewer bytes of the payload than its header says. Never on a disk whose content contracts see. `NoMemory`. No
    /// other error hides a failed device call. After an error, drop the reader.
    ///
    /// Cost: at most two device calls, and after the last frame at most one more.
    pub fn next<D: Disk>(&mut self, disk: &mut D) -> Result<Option<Frame>, LogFault>
        requires unspent { self.old.log.spent ≡ false }
        requires reading { D.observable → IsReading self.old ((D.state disk.old).content self.old.log.area) }
        ensures frame { IfOk result (λ found. IfSome found (λ frame.
            HasRead frame.extent frame.payload.items self.old.log self.new.log)) }
        ensures payload { IfOk result (λ found. IfSome found (λ frame. D.observable
            → slice_get (records ((D.state disk.old).content self.old.log.area)) (length self.old.log.extents)
            ≡ Some frame.payload.items)) }
        ensures last { result ≡ Ok None
            → self.new.log ≡ record self.old.log { calls = self.new.log.calls; whole = self.new.log.whole } }
        ensures listed { result ≡ Ok None → D.observable
            → IsListed self.new.log ((D.state disk.old).content self.old.log.area)
            × (self.new.log.size ≡ size_of (records ((D.state disk.old).content self.old.log.area))) }
        ensures end { result ≡ Ok None → D.observable
            → IsAtEnd self.new.log ((D.state disk.old).content self.old.log.area) }
        ensures reading { OnOk result (D.observable
            → IsReading self.new ((D.state disk.new).content self.new.log.area)) }
        ensures rules { OnOk result (IsLog self.new.log × (self.new.log.size ≤ self.new.limit)
            × (self.new.limit ≡ self.old.limit)) }
        ensures never { D.observable → (n : ℕ) → result ≢ Err (LogFault.Changed n) }
        ensures changed { (n : ℕ) → result ≡ Err (LogFault.Changed n) → LacksNext self.old.log n }
        ensures areas { (a : AreaValue) → LeavesAlone (D.state disk.old) (D.state disk.new) a }
        ensures calls { MakesSome (D.state disk.old) (D.state disk.new) self.old.log.calls self.new.log.calls }
        ensures faults { CountsFault (D.state disk.old).faults (D.state disk.new).faults
            (result ≡ Err LogFault.DiskFault) }
    {
        let end = self.size - 1;
        if self.count as usize >= PAYLOAD_COUNT_LIMIT || self.limit - end <= HEADER_LENGTH {
            return self.end(disk);
        }
        let Some(length) = next_frame(
            disk,
            self.area,
            end,
            self.limit,
            &mut self.ahead,
            &mut self.calls,
        )?
        else {
            return self.end(disk);
        };
        let extent = Extent {
            offset: end + HEADER_LENGTH,
            length,
        };
        let payload = self.payload(disk, extent)?;
        self.extents = Extents::with(&self.extents, &extent);
        self.count += 1;
        self.size += u64::from(length) + HEADER_LENGTH;
        Ok(Some(Frame { extent, payload }))
    }

    /// Reads whether the area is whole, after its last frame, and returns `None`.
    fn end<D: Disk>(&mut self, disk: &mut D) -> Result<Option<Frame>, LogFault>
        requires reading { D.observable → IsReading self.old ((D.state disk.old).content self.old.log.area) }
        requires scanned { D.observable → IsScanned self.old.log.extents (self.old.log.size - 1)
            ((D.state disk.old).content self.old.log.area) }
        ensures none { IfOk result (λ found. found ≡ None) }
        ensures rest { self.new.log
            ≡ record self.old.log { calls = self.new.log.calls; whole = self.new.log.whole } }
        ensures listed { D.observable → IsListed self.new.log ((D.state disk.old).content self.old.log.area)
            × (self.new.log.size ≡ size_of (records ((D.state disk.old).content self.old.log.area))) }
        ensures end { OnOk result (D.observable
            → IsAtEnd self.new.log ((D.state disk.old).content self.old.log.area)) }
        ensures reading { OnOk result (D.observable
            → IsReading self.new ((D.state disk.new).content self.new.log.area)) }
        ensures rules { IsLog self.new.log × (self.new.log.size ≤ self.new.limit)
            × (self.new.limit ≡ self.old.limit) }
        ensures unchanged { (n : ℕ) → result ≢ Err (LogFault.Changed n) }
        ensures areas { (a : AreaValue) → LeavesAlone (D.state disk.old) (D.state disk.new) a }
        ensures calls { MakesSome (D.state disk.old) (D.state disk.new) self.old.log.calls self.new.log.calls }
        ensures faults { CountsFault (D.state disk.old).faults (D.state disk.new).faults
            (result ≡ Err LogFault.DiskFault) }
    {
        self.whole = is_whole(
            disk,
            self.area,
            self.size - 1,
            self.limit,
            &mut self.ahead,
            &mut self.calls,
        )?;
        Ok(None)
    }

    /// Reads the payload of the next frame, which is at this extent.
    fn payload<D: Disk>(&mut self, disk: &mut D, extent: Extent) -> Result<Vec<u8>, LogFault>
        requires within { D.observable → extent.offset + extent.length
            ≤ length ((D.state disk.old).content self.old.log.area) }
        requires ahead { D.observable → IsAhead self.old.ahead ((D.state disk.old).content self.old.log.area) }
        ensures payload { IfOk result (λ payload. D.observable → payload.items
            ≡ take extent.length (drop extent.offset ((D.state disk.old).content self.old.log.area))) }
        ensures whole { IfOk result (λ payload. length payload.items ≡ extent.length) }
        ensures rest { self.new ≡ record self.old {
          log = record self.old.log { calls = self.new.log.calls };
          ahead = self.new.ahead;
        } }
        ensures ahead { D.observable → IsAhead self.new.ahead ((D.state disk.new).content self.old.log.area) }
        ensures never { D.observable → (n : ℕ) → result ≢ Err (LogFault.Changed n) }
        ensures changed { (n : ℕ) → result ≡ Err (LogFault.Changed n) → n ≡ length self.old.log.extents }
        ensures areas { (a : AreaValue) → LeavesAlone (D.state disk.old) (D.state disk.new) a }
        ensures calls { MakesSome (D.state disk.old) (D.state disk.new) self.old.log.calls self.new.log.calls }
        ensures faults { CountsFault (D.state disk.old).faults (D.state disk.new).faults
            (result ≡ Err LogFault.DiskFault) }
    {
        let mut payload = vec![in self.alloc; 0u8; extent.length as usize]?;
        let whole = self.ahead.read_exactly(
            disk,
            self.area,
            extent.offset,
            &mut payload,
            &mut self.calls,
        )?;
        if !whole {
            return Err(LogFault::Changed { index: self.count });
        }
        Ok(payload)
    }

    /// Returns whether the area is whole. It is known once [`FrameReader::next`] returned `None`.
    pub fn is_whole(&self) -> bool
        ensures { result ≡ self.now.log.whole }
    {
        self.whole
    }

    /// Returns the frames that were read, which are all of the area after [`FrameReader::next`] returned `None`.
    pub fn finish(self) -> Frames
        ensures { result ≡ self.log }
    {
        let FrameReader {
            alloc,
            area,
            extents,
            size,
            calls,
            whole,
            ..
        } = self;
        Frames::of(alloc, area, extents, size, calls, whole)
    }
}
