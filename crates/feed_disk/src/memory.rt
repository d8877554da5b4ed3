ghost use Rattle.std.specs.Prelude.{◌≡◌, ◌≢◌, ◌⊎◌, ◌-◌, ◌≤◌, ◌<◌, ◌^◌, ◌++◌, List, [], ℕ, true, false};
ghost use Rattle.std.specs.Prelude.{length, take, drop, min, IfOk, OnOk, OnErr, IsErr, IsTrue, ◌↔◌};
ghost use Rattle.atom_values.specs.Counts.{counted};
ghost use Rattle.feed_disk.specs.Disk.{written, TornFrom, Passes, PassesBy, CountsCall};
ghost use Rattle.feed_disk.specs.Raised.{raised};

use crate::area::Area;
use crate::area_record::AreaRecord;
use crate::areas::Areas;
use crate::choice::Choice;
use crate::disk::Disk;
use atom_values::{Bytes, Failed, ListedCalls, MAX_FAILING, Many, NoMemory};
use std::alloc::Global;
use std::marker::Model;

/// A disk in memory, for tests and simulations of crashes.
///
/// It keeps each change, so that `image` can make the disk that a crash within any of its calls leaves. It
/// also keeps which of its calls are listed to fail.
#[derive(Debug, Drop)]
pub struct MemoryDisk {
    alloc: Global,
    areas: Areas,
    calls: ListedCalls,
    /// The bytes that reads have returned. Only contracts read it.
    bytes_read: u64,
    /// How many calls found no memory.
    starved: u64,
}

impl Model for MemoryDisk {
    ghost use Rattle.feed_disk.specs.Memory.{MemoryValue, KeepsCounts};

    ghost Value = { MemoryValue };

    ghost view = { λ m. record {
      areas = m.areas;
      calls = m.calls;
      bytes_read = m.bytes_read;
      starved = m.starved;
    } };

    ghost invariant = { λ m. KeepsCounts m.areas m.calls };
}

impl MemoryDisk {
    ghost use Rattle.feed_disk.specs.Image.{crashed_disk, IsReached};
    ghost use Rattle.feed_disk.specs.Memory.{fresh_disk, state_of, IsRecordedDisk};

    /// Returns a disk with these synced contents, which has made no call. Its device calls are numbered from
    /// 1, and those in `failing` fail. Takes no memory.
    pub fn new(
        alloc: Global,
        journal: Bytes,
        sealed: Bytes,
        mirror: Bytes,
        failing: Many<u64, MAX_FAILING>,
    ) -> MemoryDisk
        ensures { result ≡ fresh_disk journal sealed mirror failing.items }
    {
        MemoryDisk {
            alloc,
            areas: Areas {
                journal: AreaRecord::new(alloc, journal),
                sealed: AreaRecord::new(alloc, sealed),
                mirror: AreaRecord::new(alloc, mirror),
            },
            calls: ListedCalls::new(failing),
            bytes_read: 0,
            starved: 0,
        }
    }

    /// Returns how many writes and syncs found no memory. The count stays at the greatest `u64`.
    pub fn starved(&self) -> u64
        ensures { result ≡ self.now.starved }
    {
        self.starved
    }

    /// Returns the disk that a crash within a call leaves. The choice says what unsynced bytes and sizes
    /// become. Call 0 is a crash before the first call. The contents are synced, and no call is listed to
    /// fail.
    ///
    /// Takes memory for a copy of each area.
    pub fn image(&self, call: u64, choice: &Choice) -> Result<MemoryDisk, NoMemory>
        requires { call ≤ self.now.calls.made }
        ensures disk { IfOk result (λ d. d ≡ crashed_disk self.now call choice.now) }
        // Each area is one of the images of that moment.
        ensures among { IfOk result (λ d. (a : Area)
            → (state_of self.now).image_at a call ((state_of d).content a)) }
        // Some given bytes make each image of that moment.
        ensures reached { OnOk result (self.now.calls.made < 2 ^ 64 - 1 → (a : Area) (i : List ℕ)
            → (state_of self.now).image_at a call i → IsReached self.now call a i) }
    {
        self.crashed(call, choice)
    }

    /// The body of `image`, apart so that the proof of `image` has the rules of the areas' records.
    fn crashed(&self, call: u64, choice: &Choice) -> Result<MemoryDisk, NoMemory>
        ensures disk { IfOk result (λ d. d ≡ crashed_disk self.now call choice.now) }
        ensures recorded { OnOk result (IsRecordedDisk self.now) }
    {
        let given: &[u8] = match choice {
            Choice::Given { bytes, .. } => bytes.slice(),
            _ => &[],
        };
        let alloc = self.alloc;
        let (journal, used) = self.areas.journal.image(alloc, call, choice, given)?;
        let given = without(given, used);
        let (sealed, used) = self.areas.sealed.image(alloc, call, choice, given)?;
        let given = without(given, used);
        let (mirror, _used) = self.areas.mirror.image(alloc, call, choice, given)?;
        Ok(MemoryDisk::new(alloc, journal, sealed, mirror, Many::new(alloc)))
    }
}

impl Disk for MemoryDisk {
    ghost use Rattle.std.specs.Prelude.{◌∷◌};
    ghost use Rattle.feed_disk.specs.DiskLaw.{memory_is_disk};
    ghost use Rattle.feed_disk.specs.Memory.{MemoryValue, state_of, FailsNext, worked, failed, starving, changed};
    ghost use Rattle.feed_disk.specs.declared.change.Change.TheVariants.{Write, FailedWrite, Sync};

    ghost observable = { Unit {0} };

    ghost state = { state_of };

    /// Returns the number of bytes of an area. It fails exactly if the call is listed. Takes no memory.
    fn size(&mut self, area: Area) -> Result<u64, Failed>
        ensures listed { IsErr result ↔ FailsNext self.old }
        ensures ok { OnOk result (self.new ≡ worked self.old self.old.areas) }
        ensures err { OnErr result (self.new ≡ failed self.old self.old.areas) }
        ensures size { IfOk result (λ n. Unit {0} → n ≡ length ((state_of self.old).content area)) }
        ensures areas { (a : Area) → PassesBy (state_of self.old) (state_of self.new) a }
        ensures counts { CountsCall (state_of self.old) (state_of self.new) result }
        ensures read { (state_of self.new).bytes_read ≡ (state_of self.old).bytes_read }
    {
        if self.count_call() {
            return Err(Failed);
        }
        Ok(self.areas.get(area).content().len() as u64)
    }

    /// Reads the bytes from offset `at` on. It fails exactly if the call is listed. Takes no memory.
    fn read(&mut self, area: Area, at: u64, into: &mut [u8]) -> Result<usize, Failed>
        requires { Unit {0} → at ≤ length ((state_of self.old).content area) }
        ensures listed { IsErr result ↔ FailsNext self.old }
        ensures ok { IfOk result (λ n. self.new
            ≡ record (worked self.old self.old.areas) { bytes_read = raised self.old.bytes_read n }) }
        ensures err { OnErr result (self.new ≡ failed self.old self.old.areas) }
        ensures most { IfOk result (λ n. n ≤ length into.old) }
        ensures bytes { IfOk result (λ n. Unit {0}
            → (n ≡ min (length into.old) (length ((state_of self.old).content area) - at))
            × (into.new ≡ take n (drop at ((state_of self.old).content area)) ++ drop n into.old)) }
        ensures areas { (a : Area) → PassesBy (state_of self.old) (state_of self.new) a }
        ensures counts { CountsCall (state_of self.old) (state_of self.new) result }
        ensures read { IfOk result (λ n. (state_of self.new).bytes_read
            ≡ raised (state_of self.old).bytes_read n) }
        ensures unread { OnErr result ((state_of self.new).bytes_read ≡ (state_of self.old).bytes_read) }
    {
        if self.count_call() {
            return Err(Failed);
        }
        let count = copy_from(self.areas.get(area).content(), at as usize, into);
        self.bytes_read = self.bytes_read.saturating_add(count as u64);
        Ok(count)
    }

    /// Writes the bytes from offset `at` on. It fails if the call is listed, and otherwise only if memory
    /// runs out.
    ///
    /// A listed call leaves the content, and its range and its new size are uncertain as if it had worked. A
    /// call that runs out of memory, listed or not, changes neither the content nor what is certain.
    /// `starved` counts it.
    fn write(&mut self, area: Area, at: u64, from: &[u8]) -> Result<(), Failed>
        requires { Unit {0} → at ≤ length ((state_of self.old).content area) }
        ensures listed { FailsNext self.old → IsErr result }
        ensures ok { OnOk result (self.new
            ≡ worked self.old
            (changed self.old.areas area (Write (counted self.old.calls.made) at from.now))) }
        ensures err { OnErr result ((self.new ≡ starving (failed self.old self.old.areas))
            ⊎ (FailsNext self.old
            × (self.new ≡ failed self.old
            (changed self.old.areas area (FailedWrite (counted self.old.calls.made) at from.now))))) }
        ensures written { OnOk result (Unit {0}
            → (state_of self.new).content area ≡ written ((state_of self.old).content area) at from.now) }
        ensures area { Passes (state_of self.old) (state_of self.new) area
            (TornFrom at (length from.now) ((state_of self.old).image_now area)) }
        ensures torn { OnOk result (Unit {0} → (i : List ℕ)
            → TornFrom at (length from.now) ((state_of self.old).image_now area) i
            → (state_of self.new).image_now area i) }
        ensures others { (a : Area) → a ≢ area → PassesBy (state_of self.old) (state_of self.new) a }
        ensures counts { CountsCall (state_of self.old) (state_of self.new) result }
        ensures read { (state_of self.new).bytes_read ≡ (state_of self.old).bytes_read }
    {
        let at = at as usize;
        if self.count_call() {
            self.record_failed_write(area, at, from);
            return Err(Failed);
        }
        match self.record_write(area, at, from) {
            Ok(()) => Ok(()),
            Err(_) => Err(self.fail()),
        }
    }

    /// Syncs an area. It fails if the call is listed, and otherwise only if memory runs out, which `starved`
    /// counts. Then nothing more is certain than before.
    fn sync(&mut self, area: Area) -> Result<(), Failed>
        ensures listed { FailsNext self.old → IsErr result }
        ensures ok { OnOk result (self.new
            ≡ worked self.old (changed self.old.areas area (Sync (counted self.old.calls.made)))) }
        ensures err { OnErr result ((self.new ≡ starving (failed self.old self.old.areas))
            ⊎ (FailsNext self.old × (self.new ≡ failed self.old self.old.areas))) }
        ensures content { OnOk result (Unit {0}
            → (state_of self.new).content area ≡ (state_of self.old).content area) }
        ensures certain { OnOk result (Unit {0} → (i : List ℕ)
            → (state_of self.new).image_now area i → i ≡ (state_of self.new).content area) }
        ensures area { Passes (state_of self.old) (state_of self.new) area
            ((state_of self.old).image_now area) }
        ensures others { (a : Area) → a ≢ area → PassesBy (state_of self.old) (state_of self.new) a }
        ensures counts { CountsCall (state_of self.old) (state_of self.new) result }
        ensures read { (state_of self.new).bytes_read ≡ (state_of self.old).bytes_read }
    {
        if self.count_call() {
            return Err(Failed);
        }
        match self.record_sync(area) {
            Ok(()) => Ok(()),
            Err(_) => Err(self.fail()),
        }
    }

    fn calls(&self) -> u64 {
        self.calls.made()
    }

    ghost is_disk = { memory_is_disk };
}

/// Returns the bytes after the first `count`.
fn without(bytes: &[u8], count: usize) -> &[u8]
    ensures { result.now ≡ drop count bytes.now }
{
    &bytes[count.min(bytes.len())..]
}

/// Copies the bytes from offset `at` on into the start of `into`, and returns their number.
fn copy_from(content: &[u8], at: usize, into: &mut [u8]) -> usize
    requires { at ≤ length content.now }
    ensures count { result ≡ min (length into.old) (length content.now - at) }
    ensures bytes { into.new ≡ take result (drop at content.now) ++ drop result into.old }
{
    let rest = &content[at..];
    let count = into.len().min(rest.len());
    into[..count].copy_from_slice(&rest[..count]);
    count
}

impl MemoryDisk {
    ghost use Rattle.std.specs.Prelude.{◌∷◌};
    ghost use Rattle.feed_disk.specs.AreaRecord.{content_of, ComesAfter};
    ghost use Rattle.feed_disk.specs.Memory.{record_of, changed, FailsNext, KeepsCounts, worked, failed, starving};
    ghost use Rattle.feed_disk.specs.declared.change.Change.TheVariants.{Write, FailedWrite, Sync};

    /// Counts a device call and returns whether it fails.
    fn count_call(&mut self) -> bool
        ensures listed { IsTrue result ↔ FailsNext self.old }
        ensures failed { result ≡ true → self.new ≡ failed self.old self.old.areas }
        ensures worked { result ≡ false → self.new ≡ worked self.old self.old.areas }
        // The proofs of the device calls need the rest.
        ensures made { self.new.calls.made ≡ counted self.old.calls.made }
        ensures areas { self.new.areas ≡ self.old.areas }
        ensures rules { KeepsCounts self.old.areas self.old.calls }
    {
        self.calls.next_fails()
    }

    /// Counts the failure of a call that ran out of memory.
    fn fail(&mut self) -> Failed
        ensures { self.new ≡ starving (record self.old {
          calls = record self.old.calls { faults = counted self.old.calls.faults };
        }) }
    {
        self.starved = self.starved.saturating_add(1);
        self.calls.count_failure();
        Failed
    }

    /// Records a write that worked.
    fn record_write(&mut self, area: Area, at: usize, from: &[u8]) -> Result<(), NoMemory>
        requires offset { let old = record_of self.old.areas area in
            at ≤ length (content_of old.first old.changes) }
        requires later { ComesAfter self.old.calls.made (record_of self.old.areas area).changes }
        ensures ok { OnOk result (self.new ≡ record self.old {
          areas = changed self.old.areas area (Write self.old.calls.made at from.now);
        }) }
        ensures err { OnErr result (self.new ≡ self.old) }
    {
        let call = self.calls.made();
        self.areas.write(self.alloc, area, call, at, from)
    }

    /// Records a sync that worked.
    fn record_sync(&mut self, area: Area) -> Result<(), NoMemory>
        requires { ComesAfter self.old.calls.made (record_of self.old.areas area).changes }
        ensures ok { OnOk result (self.new
            ≡ record self.old { areas = changed self.old.areas area (Sync self.old.calls.made) }) }
        ensures err { OnErr result (self.new ≡ self.old) }
    {
        let call = self.calls.made();
        self.areas.sync(area, call)
    }

    /// Records a listed write, or counts that there was no memory for the record.
    fn record_failed_write(&mut self, area: Area, at: usize, from: &[u8])
        requires offset { let old = record_of self.old.areas area in
            at ≤ length (content_of old.first old.changes) }
        requires later { ComesAfter self.old.calls.made (record_of self.old.areas area).changes }
        ensures { (self.new ≡ starving self.old)
            ⊎ (self.new ≡ record self.old {
              areas = changed self.old.areas area (FailedWrite self.old.calls.made at from.now);
            }) }
    {
        let call = self.calls.made();
        // A failed write that finds no memory is one that wrote nothing.
        let recorded = self.areas.fail_write(self.alloc, area, call, at, from);
        if recorded.is_err() {
            self.starved = self.starved.saturating_add(1);
        }
    }
}
