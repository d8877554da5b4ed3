ghost use Rattle.std.specs.Prelude.{◌≡◌, ◌≢◌, ◌≤◌, true, false, length, IfOk, OnErr, IsErr};
ghost use Rattle.feed_disk.specs.Disk.{TornFrom, Passes, PassesBy, CountsCall};
ghost use Rattle.feed_disk.specs.Raised.{raised};

use crate::area::Area;
use crate::disk::Disk;
use crate::disk_counts::DiskCounts;
use crate::folder::Folder;
use atom_values::{Failed, NoMemory};
use std::alloc::Global;
use std::fs::File;
use std::marker::Model;
use std::rt::Files;

/// A disk of the three files `journal`, `sealed` and `mirror` in a folder.
///
/// A file is opened at the first call on its area, or made if it is missing. It stays open and locked until
/// the disk is dropped. While another disk or process has it open, the calls on its area fail. After a sync
/// that failed, all calls fail.
///
/// Contracts see the counters, and whether a sync has failed. They see no content.
#[derive(Drop)]
pub struct FileDisk<'a, R: Files<File = File>> {
    folder: Folder<'a, R>,
    counts: DiskCounts,
}

impl<'a, R: Files<File = File>> Model for FileDisk<'a, R> {
    ghost use Rattle.feed_disk.specs.declared.disk_counts.DiskCounts.{DiskCounts};

    ghost Value = { DiskCounts };

    ghost view = { λ d. d.counts };
}

impl<'a, R: Files<File = File>> FileDisk<'a, R> {
    /// Returns the disk of the files in a folder, which has made no call. It opens no file yet.
    pub fn new(alloc: Global, runtime: &'a R, folder: &str) -> Result<FileDisk<'a, R>, NoMemory>
        ensures { IfOk result
            (λ d. d ≡ record { clock = 0; faults = 0; bytes_read = 0; sync_failed = false }) }
    {
        Ok(FileDisk {
            folder: Folder::new(alloc, runtime, folder)?,
            counts: DiskCounts {
                clock: 0,
                faults: 0,
                bytes_read: 0,
                sync_failed: false,
            },
        })
    }
}

impl<R: Files<File = File>> Disk for FileDisk<'_, R> {
    ghost use Rattle.feed_disk.specs.FileState.{file_state, files_are_disk};

    ghost observable = { ⊥ };

    ghost state = { file_state };

    /// Returns the number of bytes of an area's file. Takes no memory.
    fn size(&mut self, area: Area) -> Result<u64, Failed>
        ensures refused { self.old.sync_failed ≡ true → IsErr result }
        ensures stays { self.old.sync_failed ≡ true → self.new.sync_failed ≡ true }
        ensures areas { (a : Area) → PassesBy (file_state self.old) (file_state self.new) a }
        ensures counts { CountsCall (file_state self.old) (file_state self.new) result }
        ensures read { self.new.bytes_read ≡ self.old.bytes_read }
    {
        if self.counts.count_call() {
            return Err(Failed);
        }
        let size = self.folder.size(area);
        self.counts.count_result(size)
    }

    /// Reads the bytes from offset `at` on, until `into` is full or the file ends. From past the end it reads
    /// none. Takes no memory.
    fn read(&mut self, area: Area, at: u64, into: &mut [u8]) -> Result<usize, Failed>
        ensures refused { self.old.sync_failed ≡ true → IsErr result }
        ensures stays { self.old.sync_failed ≡ true → self.new.sync_failed ≡ true }
        ensures most { IfOk result (λ n. n ≤ length into.old) }
        ensures areas { (a : Area) → PassesBy (file_state self.old) (file_state self.new) a }
        ensures counts { CountsCall (file_state self.old) (file_state self.new) result }
        ensures read { IfOk result (λ n. self.new.bytes_read ≡ raised self.old.bytes_read n) }
        ensures unread { OnErr result (self.new.bytes_read ≡ self.old.bytes_read) }
    {
        if self.counts.count_call() {
            return Err(Failed);
        }
        let count = self.folder.read(area, at, into);
        let count = self.counts.count_result(count)?;
        self.counts.bytes_read = self.counts.bytes_read.saturating_add(count as u64);
        Ok(count)
    }

    /// Writes all bytes of `from` from offset `at` on. If `at` is past the end, the bytes between are 0. A
    /// failed call may have written a part. Takes no memory.
    fn write(&mut self, area: Area, at: u64, from: &[u8]) -> Result<(), Failed>
        ensures refused { self.old.sync_failed ≡ true → IsErr result }
        ensures stays { self.old.sync_failed ≡ true → self.new.sync_failed ≡ true }
        ensures area { Passes (file_state self.old) (file_state self.new) area
            (TornFrom at (length from.now) ((file_state self.old).image_now area)) }
        ensures others { (a : Area) → a ≢ area → PassesBy (file_state self.old) (file_state self.new) a }
        ensures counts { CountsCall (file_state self.old) (file_state self.new) result }
        ensures read { self.new.bytes_read ≡ self.old.bytes_read }
    {
        if self.counts.count_call() {
            return Err(Failed);
        }
        let written = self.folder.write(area, at, from);
        self.counts.count_result(written)
    }

    /// Syncs an area's file. Takes no memory.
    fn sync(&mut self, area: Area) -> Result<(), Failed>
        ensures refused { self.old.sync_failed ≡ true → IsErr result }
        ensures stays { self.old.sync_failed ≡ true → self.new.sync_failed ≡ true }
        ensures area { Passes (file_state self.old) (file_state self.new) area
            ((file_state self.old).image_now area) }
        ensures others { (a : Area) → a ≢ area → PassesBy (file_state self.old) (file_state self.new) a }
        ensures counts { CountsCall (file_state self.old) (file_state self.new) result }
        ensures read { self.new.bytes_read ≡ self.old.bytes_read }
    {
        if self.counts.count_call() {
            return Err(Failed);
        }
        let synced = self.folder.sync(area);
        self.counts.count_result(synced)
    }

    fn calls(&self) -> u64 {
        self.counts.clock
    }

    ghost is_disk = { files_are_disk };
}
