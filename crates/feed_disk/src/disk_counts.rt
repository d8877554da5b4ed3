ghost use Rattle.std.specs.Prelude.{◌≡◌, ◌≤◌, true, false, Ok, Err, IfOk, OnErr};
ghost use Rattle.atom_values.specs.Counts.{counted};

use crate::area_file::FileFault;
use atom_values::Failed;

/// The counters of a disk of files, and whether a sync has failed. Counters stay at the greatest u64.
#[derive(Drop)]
pub struct DiskCounts {
    /// The number of device calls.
    pub clock: u64,
    /// The number of device calls that failed. Only contracts read it.
    pub faults: u64,
    /// The number of bytes that reads have returned. Only contracts read it.
    pub bytes_read: u64,
    /// Whether a sync has failed.
    pub sync_failed: bool,
}

impl DiskCounts {
    /// Counts a device call, and returns whether it fails because a sync has failed.
    pub fn count_call(&mut self) -> bool
        ensures refused { result ≡ self.old.sync_failed }
        ensures stays { self.new.sync_failed ≡ self.old.sync_failed }
        ensures clock { self.new.clock ≡ counted self.old.clock }
        ensures later { self.old.clock ≤ self.new.clock }
        ensures failed { result ≡ true → self.new.faults ≡ counted self.old.faults }
        ensures worked { result ≡ false → self.new.faults ≡ self.old.faults }
        ensures risen { self.old.faults ≤ self.new.faults }
        ensures read { self.new.bytes_read ≡ self.old.bytes_read }
    {
        self.clock = self.clock.saturating_add(1);
        if self.sync_failed {
            self.faults = self.faults.saturating_add(1);
        }
        self.sync_failed
    }

    /// Returns the result of a device call, and counts it if it failed.
    pub fn count_result<T>(&mut self, outcome: Result<T, FileFault>) -> Result<T, Failed>
        ensures ok { IfOk result (λ value. (outcome ≡ Ok value) × (self.new ≡ self.old)) }
        ensures err { OnErr result (self.new ≡ record self.old {
          faults = counted self.old.faults;
          sync_failed = self.new.sync_failed;
        }) }
        ensures sync { outcome ≡ Err FileFault.Sync → self.new.sync_failed ≡ true }
        ensures stays { self.old.sync_failed ≡ true → self.new.sync_failed ≡ true }
        ensures clock { self.new.clock ≡ self.old.clock }
        ensures later { self.old.faults ≤ self.new.faults }
    {
        match outcome {
            Ok(value) => Ok(value),
            Err(fault) => {
                self.faults = self.faults.saturating_add(1);
                // A system may drop the bytes of a sync that failed, and report the next sync as done.
                self.sync_failed = self.sync_failed || fault == FileFault::Sync;
                Err(Failed)
            }
        }
    }
}
