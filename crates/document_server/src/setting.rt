ghost use Rattle.std.specs.Prelude.{◌≡◌, ◌≢◌, true, false, length};
ghost use Rattle.atom_values.specs.Counts.{HasRisen};
ghost use Rattle.document_server.specs.Answer.{Grows, IsAnswer, IsDone, LeavesAnswered, Steps};
ghost use Rattle.document_server.specs.Reply.{IsAsked};
ghost use Rattle.feed_recovery.specs.Settled.{IsAtRest, Settled};
ghost use Rattle.feed_recovery.specs.Store.{StandsFor, is_spent};
ghost use Rattle.http_face.specs.Reply.{disk_fault, no_memory};
ghost use Rattle.member_rules.specs.declared.ask.Ask.TheVariants.{Change};

use crate::change::change;
use crate::failure::Failure;
use feed_disk::Disk;
use feed_journal::begun_images_are_whole;
use feed_recovery::Store;
use http_face::{Line7, Reply};
use member_rules::{Ask, Setting};
use std::alloc::Global;

/// Changes a setting of the feed, with the clock at `now` milliseconds since 1970. The reply is the one that a request
/// would get: 200 if the change is committed, and else its refusal, as [`crate::answer`] has them. No request asks for a
/// setting, so it is never sent.
///
/// Cost: four device calls, or eight where a seal is due and missing.
pub fn set<D: Disk>(
    alloc: Global,
    store: &mut Store,
    disk: &mut D,
    setting: Setting,
    now: u64,
) -> Reply
    requires unspent { is_spent store.old ≡ false }
    requires stands { D.observable → StandsFor (D.state disk.old) store.old }
    ensures answered { IsAnswer (IsAsked store.old (Change setting) now) store.old store.new result
        (HasRisen (D.state disk.old).faults (D.state disk.new).faults) }
    ensures memory { result.status ≡ 503 → result ≡ no_memory }
    ensures steps { Steps D.observable (D.state disk.old) (D.state disk.new) store.old store.new
        (result ≡ disk_fault) }
    ensures only { is_spent store.new ≡ true → result ≡ disk_fault }
    ensures leaves { D.observable → LeavesAnswered (IsAsked store.old (Change setting) now)
        (D.state disk.old) (D.state disk.new) store.old store.new (result ≡ disk_fault) }
    ensures settled { result ≢ disk_fault → D.observable → IsAtRest (D.state disk.old)
        → Settled (D.state disk.new) store.new.head store.new.history (length store.new.history) }
    ensures grows { IsDone result → Grows (D.state disk.old) (D.state disk.new) store.old store.new }
    ensures same { ¬ IsDone result → store.new.history ≡ store.old.history }
{
    // Its contract is a law that the proof uses.
    begun_images_are_whole();
    match change(alloc, store, disk, Ask::Change(setting), now) {
        Ok(reply) => reply,
        Err(Failure::Disk) => Reply::line(500, Line7::Disk),
        Err(Failure::Changed) => Reply::line(500, Line7::Changed),
        Err(Failure::NoMemory) => Reply::line(503, Line7::NoMemory),
    }
}
