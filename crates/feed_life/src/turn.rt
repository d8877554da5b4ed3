ghost use Rattle.std.specs.Prelude.{◌≡◌, ◌≢◌, ◌≤◌, ◌⊎◌, ℕ, false, true, length, IfOk, OnOk};
ghost use Rattle.document_server.specs.Answer.{Grows, IsAnswer, LeavesAnswered, Steps};
ghost use Rattle.feed_disk.specs.Memory.{state_of};
ghost use Rattle.feed_life.specs.Asks.{Outcomes};
ghost use Rattle.feed_recovery.specs.Settled.{IsAtRest, Settled};
ghost use Rattle.feed_recovery.specs.Store.{StandsFor, is_spent};
ghost use Rattle.http_face.specs.Reply.{disk_fault, no_memory};

use atom_values::{Copies, NoMemory};
use document_server::{answer, set};
use feed_disk::MemoryDisk;
use feed_recovery::Store;
use http_face::{Reply, Request};
use member_rules::Setting;
use std::alloc::Global;

/// What an event asks of a store: a request of a client, or a setting of the operator.
pub(crate) trait Turn {
    /// The outcomes that it may have, with the clock at a moment.
    ghost outcomes: { Self → ℕ → Outcomes };

    /// Makes the turn on a store. The reply says what became of it.
    fn make(
        &self,
        alloc: Global,
        store: &mut Store,
        disk: &mut MemoryDisk,
        now: u64,
    ) -> Result<Reply, NoMemory>
        requires unspent { is_spent store.old ≡ false }
        requires stands { StandsFor (state_of disk.old) store.old }
        ensures answered { IfOk result (λ reply. IsAnswer (outcomes self.now now store.old) store.old store.new reply
            (reply ≡ disk_fault)) }
        ensures memory { IfOk result (λ reply. reply.status ≡ 503 → reply ≡ no_memory) }
        ensures steps { IfOk result (λ reply. Steps (Unit {0}) (state_of disk.old) (state_of disk.new)
            store.old store.new (reply ≡ disk_fault)) }
        ensures only { IfOk result (λ reply. is_spent store.new ≡ true → reply ≡ disk_fault) }
        ensures leaves { IfOk result (λ reply. LeavesAnswered (outcomes self.now now store.old)
            (state_of disk.old) (state_of disk.new) store.old store.new (reply ≡ disk_fault)) }
        ensures settled { IfOk result (λ reply. reply ≢ disk_fault → IsAtRest (state_of disk.old)
            → Settled (state_of disk.new) store.new.head store.new.history (length store.new.history)) }
        ensures either { OnOk result ((store.new.history ≡ store.old.history)
            ⊎ Grows (state_of disk.old) (state_of disk.new) store.old store.new) }
        ensures later { (state_of disk.old).clock ≤ (state_of disk.new).clock };
}

impl Turn for Request {
    ghost use Rattle.feed_life.specs.Asks.{of_request};

    ghost outcomes = { of_request };

    fn make(
        &self,
        alloc: Global,
        store: &mut Store,
        disk: &mut MemoryDisk,
        now: u64,
    ) -> Result<Reply, NoMemory> {
        Ok(answer(alloc, store, disk, self, now))
    }
}

impl Turn for Setting {
    ghost use Rattle.feed_life.specs.Asks.{of_setting};

    ghost outcomes = { of_setting };

    fn make(
        &self,
        alloc: Global,
        store: &mut Store,
        disk: &mut MemoryDisk,
        now: u64,
    ) -> Result<Reply, NoMemory> {
        let setting = self.copy(alloc)?;
        Ok(set(alloc, store, disk, setting, now))
    }
}
