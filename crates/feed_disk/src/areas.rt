ghost use Rattle.std.specs.Prelude.{◌≡◌, ℕ, ◌≤◌, length, OnOk, OnErr};
ghost use Rattle.feed_disk.specs.AreaRecord.{content_of, ComesAfter};

use crate::area::Area;
use crate::area_record::AreaRecord;
use atom_values::NoMemory;
use std::alloc::Global;

/// The records of the three areas.
#[derive(Debug, Drop)]
pub struct Areas {
    pub journal: AreaRecord,
    pub sealed: AreaRecord,
    pub mirror: AreaRecord,
}

impl Areas {
    ghost use Rattle.feed_disk.specs.Memory.{record_of, changed};
    ghost use Rattle.feed_disk.specs.declared.change.Change.TheVariants.{Write, FailedWrite, Sync};

    /// Returns the record of an area.
    pub fn get(&self, area: Area) -> &AreaRecord
        ensures { result.now ≡ record_of self.now area }
    {
        match area {
            Area::Journal => &self.journal,
            Area::Sealed => &self.sealed,
            Area::Mirror => &self.mirror,
        }
    }

    /// Records a write from offset `at` on, by the device call of this number.
    pub fn write(
        &mut self,
        alloc: Global,
        area: Area,
        call: u64,
        at: usize,
        from: &[u8],
    ) -> Result<(), NoMemory>
        requires offset { let old = record_of self.old area in
            at ≤ length (content_of old.first old.changes) }
        requires later { ComesAfter call (record_of self.old area).changes }
        ensures ok { OnOk result (self.new ≡ changed self.old area (Write call at from.now)) }
        ensures err { OnErr result (self.new ≡ self.old) }
    {
        match area {
            Area::Journal => self.journal.write(alloc, call, at, from),
            Area::Sealed => self.sealed.write(alloc, call, at, from),
            Area::Mirror => self.mirror.write(alloc, call, at, from),
        }
    }

    /// Records a failed write from offset `at` on, by the device call of this number.
    pub fn fail_write(
        &mut self,
        alloc: Global,
        area: Area,
        call: u64,
        at: usize,
        from: &[u8],
    ) -> Result<(), NoMemory>
        requires offset { let old = record_of self.old area in
            at ≤ length (content_of old.first old.changes) }
        requires later { ComesAfter call (record_of self.old area).changes }
        ensures ok { OnOk result (self.new ≡ changed self.old area (FailedWrite call at from.now)) }
        ensures err { OnErr result (self.new ≡ self.old) }
    {
        match area {
            Area::Journal => self.journal.fail_write(alloc, call, at, from),
            Area::Sealed => self.sealed.fail_write(alloc, call, at, from),
            Area::Mirror => self.mirror.fail_write(alloc, call, at, from),
        }
    }

    /// Records a sync, by the device call of this number.
    pub fn sync(&mut self, area: Area, call: u64) -> Result<(), NoMemory>
        requires { ComesAfter call (record_of self.old area).changes }
        ensures ok { OnOk result (self.new ≡ changed self.old area (Sync call)) }
        ensures err { OnErr result (self.new ≡ self.old) }
    {
        match area {
            Area::Journal => self.journal.sync(call),
            Area::Sealed => self.sealed.sync(call),
            Area::Mirror => self.mirror.sync(call),
        }
    }
}
