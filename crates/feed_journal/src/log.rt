ghost use Rattle.std.specs.Prelude.{◌≡◌, ◌≢◌, ◌+◌, ◌*◌, ◌<◌, ◌≤◌, ℕ, List, [], false, length, take, drop, slice_get};
ghost use Rattle.std.specs.Prelude.{true, OnOk, OnErr, IfOk, IfSome, Some, IsTrue, ◌↔◌};
ghost use Rattle.atom_values.specs.Counts.{CountsFault};
ghost use Rattle.feed_disk.specs.Moments.{AlwaysLeaves, LeavesAlone, NowOnly};
ghost use Rattle.feed_disk.specs.Raised.{raised};
ghost use Rattle.feed_disk.specs.declared.area.Area.{Area as AreaValue};
ghost use Rattle.feed_journal.specs.Limits.{header_length};
ghost use Rattle.feed_journal.specs.Log.{HasRoomFor, IsAppended, IsCut, IsListed, IsLog, IsLooked, IsSynced, KeepsAtRest};
ghost use Rattle.feed_journal.specs.Log.{KeepsFirst, KeepsLog, LeavesOneList, ListsOnly, ListsPayload};
ghost use Rattle.feed_journal.specs.Log.{MakesCalls, MakesOrFails, MakesSome, RestsAt, payload_lengths, payloads_at};
ghost use Rattle.feed_journal.specs.Records.{records, size_of, padded, IsWhole, Begins, StandsFor, StartsWith};

use crate::ahead::Ahead;
use crate::extent::Extent;
use crate::extents::Extents;
use crate::fault::{DiskFault, LogFault};
use crate::framed::Framed;
use crate::frames::Frames;
use crate::scan::{Scanned, is_whole, scan};
use crate::settle::settle_area;
use atom_values::NoMemory;
use feed_disk::{Area, Disk};
use std::alloc::Global;
use std::marker::Model;

/// The number of bytes that are read ahead for headers. It is small, so that an area of large payloads isn't read
/// whole.
const HEADERS_AHEAD: usize = 4_096;

/// The list of the payloads of one area of a disk. It keeps where they are in the area, and neither the
/// payloads nor the disk.
#[derive(Debug, Drop)]
pub struct Log {
    alloc: Global,
    frames: Frames,
    places: Vec<Extent>,
}

impl Model for Log {
    ghost use Rattle.std.specs.Prelude.{◌≡◌, ◌-◌, vec_len, vec_capacity};
    ghost use Rattle.feed_journal.specs.Log.{LogValue, IsLog};

    ghost Value = { LogValue };

    ghost view = { λ l. record l.frames { spare = vec_capacity l.places - vec_len l.places } };

    ghost invariant = { λ l. IsLog l.frames × (l.places.items ≡ l.frames.extents) };
}

impl Log {
    /// Returns the log of the payloads of an area. It syncs the area, so that a crash can't change what it
    /// reads. An area of less than 6 bytes gets a closed gate at its start, and is synced again.
    ///
    /// A crash at any moment of the call, whatever it returns, leaves the payloads of an image that a crash
    /// before it could leave.
    ///
    /// Errors: `DiskFault` where the disk's count of faults rose. `NoMemory`, which hides no failed device
    /// call. Never `Changed`.
    ///
    /// Cost: four device calls at most, and one for each 4,096 bytes or each header, whichever are fewer.
    pub fn load<D: Disk>(alloc: Global, disk: &mut D, area: Area) -> Result<Log, LogFault>
        ensures log { IfOk result (λ log. IsLog log × (log.area ≡ area) × (log.spent ≡ false)) }

        // The list is the payloads of the content, which are those that it had.
        ensures listed { IfOk result (λ log. D.observable → IsListed log ((D.state disk.new).content area)) }
        ensures size { IfOk result (λ log.
            D.observable → log.size ≡ size_of (records ((D.state disk.new).content area))) }
        ensures same { OnOk result (D.observable
            → records ((D.state disk.new).content area) ≡ records ((D.state disk.old).content area)) }
        ensures content { OnOk result (D.observable
            → (D.state disk.new).content area ≡ padded ((D.state disk.old).content area)) }

        // The content is synced. If it was whole, it begins with the list and a closed gate.
        ensures certain { OnOk result (D.observable → IsSynced (D.state disk.new) area) }
        ensures rests { OnOk result (D.observable → IsWhole ((D.state disk.old).content area)
            → NowOnly (D.state disk.new) area (Begins (records ((D.state disk.new).content area)))) }
        ensures moments { D.observable → AlwaysLeaves (D.state disk.old) (D.state disk.new) area
            (StandsFor ((D.state disk.old).image_now area)) }
        ensures others { (a : AreaValue) → a ≢ area → LeavesAlone (D.state disk.old) (D.state disk.new) a }

        ensures whole { IfOk result (λ log. D.observable
            → (IsTrue log.whole ↔ IsWhole ((D.state disk.old).content area))) }

        // With any disk, reads gave the whole header of each payload in the list.
        ensures read { IfOk result (λ log. raised (D.state disk.old).bytes_read
            (header_length * length log.extents) ≤ (D.state disk.new).bytes_read) }

        ensures calls { IfOk result (λ log.
            (n : ℕ) × MakesCalls (D.state disk.old) (D.state disk.new) 0 log.calls n) }
        ensures faults { CountsFault (D.state disk.old).faults (D.state disk.new).faults
            (result ≡ Err LogFault.DiskFault) }
        ensures unchanged { (index : ℕ) → result ≢ Err (LogFault.Changed index) }
    {
        let mut calls = 0;
        let size = settle_area(disk, area, &mut calls)?;
        Log::scan(alloc, disk, area, size, calls)
    }

    /// Returns the log that [`Log::load`] returns of the same content, without a sync and a write. So a crash may
    /// change what it read.
    ///
    /// Errors: `DiskFault` where the disk's count of faults rose. `NoMemory`, which hides no failed device call. Never
    /// `Changed`.
    ///
    /// Cost: a device call, and one for each 4,096 bytes or each header, whichever are fewer.
    pub fn look<D: Disk>(alloc: Global, disk: &mut D, area: Area) -> Result<Log, LogFault>
        ensures log { IfOk result (λ log. IsLog log × (log.area ≡ area) × (log.spent ≡ false)) }
        ensures list { IfOk result (λ log. D.observable
            → IsLooked log ((D.state disk.new).content area)) }
        ensures whole { IfOk result (λ log. D.observable
            → (IsTrue log.whole ↔ IsWhole ((D.state disk.new).content area))) }
        ensures starts { OnOk result (D.observable
            → StartsWith (records ((D.state disk.new).content area)) ((D.state disk.new).content area)) }
        ensures areas { (a : AreaValue) → LeavesAlone (D.state disk.old) (D.state disk.new) a }

        // With any disk, reads gave the whole header of each payload in the list.
        ensures read { IfOk result (λ log. raised (D.state disk.old).bytes_read
            (header_length * length log.extents) ≤ (D.state disk.new).bytes_read) }

        ensures calls { IfOk result (λ log.
            (n : ℕ) × MakesCalls (D.state disk.old) (D.state disk.new) 0 log.calls n) }
        ensures faults { CountsFault (D.state disk.old).faults (D.state disk.new).faults
            (result ≡ Err LogFault.DiskFault) }
        ensures unchanged { (index : ℕ) → result ≢ Err (LogFault.Changed index) }
    {
        let size = disk.size(area)?;
        if size == 0 {
            return Ok(Log::empty(alloc, area, 1));
        }
        Log::scan(alloc, disk, area, size, 1)
    }

    /// Returns the log of an area of no bytes, after this number of device calls.
    fn empty(alloc: Global, area: Area, calls: u64) -> Log
        ensures { result ≡ record {
          area = area;
          extents = [];
          size = 1;
          calls = calls;
          spent = false;
          whole = true;
          spare = result.spare;
        } }
    {
        Log {
            alloc,
            frames: Frames::of(alloc, area, Extents::new(), 1, calls, true),
            places: Vec::new(alloc),
        }
    }

    /// Returns the log of an area of this size, after this number of device calls.
    fn scan<D: Disk>(
        alloc: Global,
        disk: &mut D,
        area: Area,
        size: u64,
        calls: u64,
    ) -> Result<Log, LogFault>
        requires some { 0 < size }
        requires size { D.observable → size ≡ length ((D.state disk.old).content area) }
        ensures log { IfOk result (λ log. IsLog log × (log.area ≡ area) × (log.spent ≡ false)) }
        ensures list { IfOk result (λ log. D.observable → IsListed log ((D.state disk.new).content area)
            × (log.size ≡ size_of (records ((D.state disk.new).content area)))) }
        ensures whole { IfOk result (λ log. D.observable
            → (IsTrue log.whole ↔ IsWhole ((D.state disk.new).content area))) }
        ensures starts { OnOk result (D.observable
            → StartsWith (records ((D.state disk.new).content area)) ((D.state disk.new).content area)) }
        ensures areas { (a : AreaValue) → LeavesAlone (D.state disk.old) (D.state disk.new) a }
        ensures read { IfOk result (λ log. raised (D.state disk.old).bytes_read
            (header_length * length log.extents) ≤ (D.state disk.new).bytes_read) }
        ensures calls { IfOk result (λ log.
            MakesSome (D.state disk.old) (D.state disk.new) calls log.calls) }
        ensures faults { CountsFault (D.state disk.old).faults (D.state disk.new).faults
            (result ≡ Err LogFault.DiskFault) }
        ensures unchanged { (index : ℕ) → result ≢ Err (LogFault.Changed index) }
    {
        let mut calls = calls;
        let mut ahead = Ahead::new(alloc, HEADERS_AHEAD)?;
        let Scanned {
            places,
            extents,
            end,
        } = scan(alloc, disk, area, size, &mut ahead, &mut calls)?;
        let whole = is_whole(disk, area, end, size, &mut ahead, &mut calls)?;
        Ok(Log {
            alloc,
            frames: Frames::of(alloc, area, extents, end + 1, calls, whole),
            places,
        })
    }

    /// Returns the number of device calls that this log has made since its load began, failed ones included.
    /// It stays at the greatest u64.
    pub fn calls(&self) -> u64
        ensures calls { result ≡ self.now.calls }
        ensures rules { IsLog self.now }
    {
        self.frames.calls()
    }

    /// Returns whether the log is spent.
    pub fn is_spent(&self) -> bool
        ensures { result ≡ self.now.spent }
    {
        self.frames.is_spent()
    }

    /// Returns the number of payloads.
    pub fn len(&self) -> u32
        requires { self.now.spent ≡ false }
        ensures { result ≡ length self.now.extents }
    {
        self.places.len() as u32
    }

    /// Returns the number of bytes up to the closed gate after the payloads, which is counted too.
    pub fn size(&self) -> u64
        requires { self.now.spent ≡ false }
        ensures size { result ≡ self.now.size }
        ensures rules { IsLog self.now }
    {
        self.frames.size()
    }

    /// Returns whether the area was whole as it was read, or the log was appended to or cut since then.
    pub fn is_whole(&self) -> bool
        ensures { result ≡ self.now.whole }
    {
        self.frames.is_whole()
    }

    /// Makes room for one more payload, so that its append takes no memory.
    pub fn reserve(&mut self) -> Result<(), NoMemory>
        requires { self.old.spent ≡ false }
        ensures log { self.new ≡ record self.old { spare = self.new.spare } }
        ensures ok { OnOk result (0 < self.new.spare) }
        ensures spare { self.old.spare ≤ self.new.spare }
    {
        self.places.reserve(1)?;
        Ok(())
    }

    /// Returns whether the log with this payload fits into an area of this capacity.
    pub fn fits(&self, framed: &Framed, capacity: u64) -> bool
        requires { self.now.spent ≡ false }
        ensures { IsTrue result ↔ (self.now.size + (length framed.now + header_length) ≤ capacity) }
    {
        self.frames.fits(framed, capacity)
    }

    /// Appends the payload, in four device calls. Takes no memory.
    ///
    /// A crash at any moment of the call leaves the list before or the list with the payload.
    ///
    /// Error: `DiskFault` where the disk's count of faults rose. Then a crash leaves one of the two lists,
    /// and the log is spent.
    pub fn append<D: Disk>(&mut self, disk: &mut D, framed: &Framed) -> Result<(), DiskFault>
        requires unspent { self.old.spent ≡ false }
        requires room { HasRoomFor (length framed.now) self.old }
        requires listed { D.observable → IsListed self.old ((D.state disk.old).content self.old.area) }

        ensures ok { OnOk result (IsAppended (length framed.now) self.old self.new) }
        ensures err { OnErr result (self.new ≡ record self.old { calls = self.new.calls; spent = true }) }

        ensures listed { OnOk result (D.observable → ListsPayload framed.now self.new
            ((D.state disk.old).content self.old.area) ((D.state disk.new).content self.old.area)) }
        ensures rules { IsLog self.new }

        ensures moments { D.observable
            → LeavesOneList (D.state disk.old) (D.state disk.new) self.old.area framed.now }
        ensures rests { OnOk result (D.observable
            → KeepsAtRest (D.state disk.old) (D.state disk.new) self.old.area) }
        ensures certain { OnOk result (D.observable → IsSynced (D.state disk.new) self.old.area) }
        ensures others { (a : AreaValue) → a ≢ self.old.area
            → LeavesAlone (D.state disk.old) (D.state disk.new) a }

        ensures calls { MakesOrFails (D.state disk.old) (D.state disk.new) self.old.calls self.new.calls 4
            result }
        ensures read { (D.state disk.new).bytes_read ≡ (D.state disk.old).bytes_read }
    {
        let place = self.frames.append(disk, framed)?;
        self.places.push(place).unwrap();
        Ok(())
    }

    /// Keeps the first `len` payloads and closes the gate after them, in two device calls: a write of one byte and a
    /// sync. Takes no memory.
    ///
    /// At any moment of the call, a crash leaves these payloads first if each image before had them first.
    ///
    /// Error: `DiskFault` where the disk's count of faults rose. Then the log is spent.
    pub fn cut<D: Disk>(&mut self, disk: &mut D, len: u32) -> Result<(), DiskFault>
        requires unspent { self.old.spent ≡ false }
        requires within { len ≤ length self.old.extents }
        requires listed { D.observable → payloads_at self.old.extents ((D.state disk.old).content self.old.area)
            ≡ records ((D.state disk.old).content self.old.area) }

        ensures ok { OnOk result (IsCut len self.old self.new) }
        ensures err { OnErr result (self.new ≡ record self.old { calls = self.new.calls; spent = true }) }
        ensures rules { IsLog self.new }

        ensures kept { OnOk result (D.observable
            → ListsOnly (take len (records ((D.state disk.old).content self.old.area))) self.new
            ((D.state disk.old).content self.old.area) ((D.state disk.new).content self.old.area)) }
        ensures moments { D.observable → KeepsFirst (D.state disk.old) (D.state disk.new) self.old.area
            (take len (records ((D.state disk.old).content self.old.area))) }
        ensures rests { OnOk result (D.observable → RestsAt (D.state disk.old) (D.state disk.new) self.old.area
            (take len (records ((D.state disk.old).content self.old.area)))) }
        ensures certain { OnOk result (D.observable → IsSynced (D.state disk.new) self.old.area) }
        ensures others { (a : AreaValue) → a ≢ self.old.area
            → LeavesAlone (D.state disk.old) (D.state disk.new) a }

        ensures calls { MakesOrFails (D.state disk.old) (D.state disk.new) self.old.calls self.new.calls 2
            result }
        ensures read { (D.state disk.new).bytes_read ≡ (D.state disk.old).bytes_read }
    {
        let size = self.size_of_first(len);
        let kept = Extents::first(len, self.frames.extents());
        self.frames.cut(disk, kept, size)?;
        self.places.truncate(len as usize);
        Ok(())
    }

    /// Returns the number of bytes up to the gate after the first `len` payloads, which is counted too.
    fn size_of_first(&self, len: u32) -> u64
        requires unspent { self.now.spent ≡ false }
        requires within { len ≤ length self.now.extents }
        ensures { KeepsLog (take len self.now.extents) result }
    {
        match self.places.get(len as usize) {
            // The payload begins after its length in 4 bytes, which begins after the gate.
            Some(next) => next.offset - 4,
            None => self.frames.size(),
        }
    }

    /// Reads the payload of an index, counted from 0, in one device call.
    ///
    /// Errors: `DiskFault` where the disk's count of faults rose, after which the log is spent. `Changed` if
    /// the area has fewer bytes of the payload than the log has for it. `NoMemory`. No other error hides a
    /// failed device call, and after one the log is as it was but for `calls`.
    pub fn read<D: Disk>(&mut self, disk: &mut D, index: u32) -> Result<Vec<u8>, LogFault>
        requires unspent { self.old.spent ≡ false }
        requires within { index < length self.old.extents }
        requires listed { D.observable → payloads_at self.old.extents ((D.state disk.old).content self.old.area)
            ≡ records ((D.state disk.old).content self.old.area) }
        ensures payload { IfOk result (λ payload. D.observable
            → slice_get (records ((D.state disk.old).content self.old.area)) index ≡ Some payload.items) }

        // With any disk, the payload has the length that the log has for it, and a read gave all its bytes.
        ensures length { IfOk result (λ payload.
            slice_get (payload_lengths self.old.extents) index ≡ Some (length payload.items)) }
        ensures read { IfOk result (λ payload. (D.state disk.new).bytes_read
            ≡ raised (D.state disk.old).bytes_read (length payload.items)) }

        ensures never { D.observable → (n : ℕ) → result ≢ Err (LogFault.Changed n) }
        ensures changed { (n : ℕ) → result ≡ Err (LogFault.Changed n) → n ≡ index }
        ensures log { result ≢ Err LogFault.DiskFault
            → self.new ≡ record self.old { calls = self.new.calls } }
        ensures spent { result ≡ Err LogFault.DiskFault
            → self.new ≡ record self.old { calls = self.new.calls; spent = true } }
        ensures areas { (a : AreaValue) → LeavesAlone (D.state disk.old) (D.state disk.new) a }
        ensures one { OnOk result
            (MakesCalls (D.state disk.old) (D.state disk.new) self.old.calls self.new.calls 1) }
        ensures calls { MakesSome (D.state disk.old) (D.state disk.new) self.old.calls self.new.calls }
        ensures faults { CountsFault (D.state disk.old).faults (D.state disk.new).faults
            (result ≡ Err LogFault.DiskFault) }
    {
        let place = self.places[index as usize];
        self.frames.read(disk, place, index)
    }

    /// Reads a part of the payload of an index, counted from 0, in one device call: `count` bytes from byte `at` of
    /// the payload on.
    ///
    /// Errors: `DiskFault` where the disk's count of faults rose, after which the log is spent. `Changed` if
    /// the area ends before the part does. `NoMemory`. No other error hides a failed device call, and after one
    /// the log is as it was but for `calls`.
    pub fn read_part<D: Disk>(
        &mut self,
        disk: &mut D,
        index: u32,
        at: u32,
        count: u32,
    ) -> Result<Vec<u8>, LogFault>
        requires unspent { self.old.spent ≡ false }
        requires within { index < length self.old.extents }
        requires inside { IfSome (slice_get (payload_lengths self.old.extents) index)
            (λ whole. at + count ≤ whole) }
        requires listed { D.observable → payloads_at self.old.extents ((D.state disk.old).content self.old.area)
            ≡ records ((D.state disk.old).content self.old.area) }
        ensures part { IfOk result (λ part. D.observable → (payload : List ℕ)
            → slice_get (records ((D.state disk.old).content self.old.area)) index ≡ Some payload
            → part.items ≡ take count (drop at payload)) }

        // With any disk, the part has this length, and a read gave all its bytes.
        ensures length { IfOk result (λ part. length part.items ≡ count) }
        ensures read { IfOk result (λ part. (D.state disk.new).bytes_read
            ≡ raised (D.state disk.old).bytes_read (length part.items)) }

        ensures never { D.observable → (n : ℕ) → result ≢ Err (LogFault.Changed n) }
        ensures changed { (n : ℕ) → result ≡ Err (LogFault.Changed n) → n ≡ index }
        ensures log { result ≢ Err LogFault.DiskFault
            → self.new ≡ record self.old { calls = self.new.calls } }
        ensures spent { result ≡ Err LogFault.DiskFault
            → self.new ≡ record self.old { calls = self.new.calls; spent = true } }
        ensures areas { (a : AreaValue) → LeavesAlone (D.state disk.old) (D.state disk.new) a }
        ensures one { OnOk result
            (MakesCalls (D.state disk.old) (D.state disk.new) self.old.calls self.new.calls 1) }
        ensures calls { MakesSome (D.state disk.old) (D.state disk.new) self.old.calls self.new.calls }
        ensures faults { CountsFault (D.state disk.old).faults (D.state disk.new).faults
            (result ≡ Err LogFault.DiskFault) }
    {
        let place = self.places[index as usize];
        self.frames.read_part(disk, place, index, at, count)
    }
}
