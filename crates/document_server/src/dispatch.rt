ghost use Rattle.std.specs.Prelude.{◌≡◌, ◌≢◌, ◌⊎◌, false, true, length, Err, IfOk};
ghost use Rattle.atom_values.specs.Counts.{HasRisen};
ghost use Rattle.document_server.specs.Answer.{Acknowledges, ComesTo, Grows, IsAnswer, IsDone, IsOwn, LeavesAnswered};
ghost use Rattle.document_server.specs.Answer.{OnlyReads, ReadsOrCommits, Steps};
ghost use Rattle.document_server.specs.Reply.{IsOfArchiveOver, IsOfFeed, IsOfMember, IsOfMemberOver, IsOutcome};
ghost use Rattle.document_server.specs.Reply.{IsOutcomeOver};
ghost use Rattle.feed_recovery.specs.Settled.{IsAtRest, Settled};
ghost use Rattle.feed_recovery.specs.Store.{StandsFor, is_spent};
ghost use Rattle.http_face.specs.Reply.{HasPhrase, disk_changed, disk_fault, no_memory};
ghost use Rattle.http_face.specs.declared.request.Verb.TheVariants.{Get};

use crate::change::{create, delete, replace};
use crate::document::{show_archive, show_feed, show_member};
use crate::failure::Failure;
use crate::replies::refused_method;
use chain_links::Address;
use feed_disk::Disk;
use feed_journal::begun_images_are_whole;
use feed_recovery::Store;
use http_face::{Allow, Line7, Reply, Request, Verb};
use std::alloc::Global;

/// Answers a request on a store, with the clock at `now` milliseconds since 1970. docs/FORMATS.md has the table of
/// replies; the first row that fits gives the reply.
///
/// - 201 or 200 to POST, PUT or DELETE: the change is committed, and no crash loses it.
/// - 500 `disk`: the disk's count of faults rose, and the store is spent.
/// - 500 `changed`: the disk gave something else than what the store has on it. Never on a disk whose content contracts
///   see.
/// - 503 `no memory`: memory ran out before a commit, and the store is as it was.
///
/// Cost: a GET of the feed makes no device call, and one of an archive or a member makes one. A change makes four, or
/// eight where a seal is due and missing.
pub fn answer<D: Disk>(
    alloc: Global,
    store: &mut Store,
    disk: &mut D,
    request: &Request,
    now: u64,
) -> Reply
    requires unspent { is_spent store.old ≡ false }
    requires stands { D.observable → StandsFor (D.state disk.old) store.old }
    // The reply is that of the table, and the store gains the operation that the reply acknowledges and its seal; or
    // memory ran out, or the disk failed. With any disk, a document that was read from it has the length or the
    // timestamps that the store has for it, and only such a GET may have `changed`.
    ensures answered { D.observable → IsAnswer (IsOutcome store.old request.now now) store.old store.new result
        (HasRisen (D.state disk.old).faults (D.state disk.new).faults) }
    ensures over { IsAnswer (IsOutcomeOver D.observable store.old request.now now) store.old store.new result
        (HasRisen (D.state disk.old).faults (D.state disk.new).faults) }
    ensures changed { result ≡ disk_changed → (request.now.verb ≡ Get) × (¬ D.observable) }
    ensures memory { result.status ≡ 503 → result ≡ no_memory }
    // The status line of the reply has a phrase.
    ensures status { HasPhrase result.status }

    // The store can go on unless a device call failed.
    ensures steps { Steps D.observable (D.state disk.old) (D.state disk.new) store.old store.new
        (result ≡ disk_fault) }
    ensures only { is_spent store.new ≡ true → result ≡ disk_fault }

    // A crash leaves the history before or with the operation that was accepted. After a reply it leaves the store's.
    ensures leaves { D.observable → LeavesAnswered (IsOutcome store.old request.now now)
        (D.state disk.old) (D.state disk.new) store.old store.new (result ≡ disk_fault) }
    ensures settled { result ≢ disk_fault → D.observable → IsAtRest (D.state disk.old)
        → Settled (D.state disk.new) store.new.head store.new.history (length store.new.history) }

    // The history grows exactly if the reply acknowledges a change.
    ensures grows { request.now.verb ≢ Get → IsDone result
        → Grows (D.state disk.old) (D.state disk.new) store.old store.new }
    ensures same { (request.now.verb ≡ Get) ⊎ (¬ IsDone result) → store.new.history ≡ store.old.history }
{
    // Its contract is a law that the proof uses.
    begun_images_are_whole();
    match reply_of(alloc, store, disk, request, now) {
        Ok(reply) => reply,
        Err(Failure::Disk) => Reply::line(500, Line7::Disk),
        Err(Failure::Changed) => Reply::line(500, Line7::Changed),
        Err(Failure::NoMemory) => Reply::line(503, Line7::NoMemory),
    }
}

/// The reply to a request, unless the disk or the memory fails.
fn reply_of<D: Disk>(
    alloc: Global,
    store: &mut Store,
    disk: &mut D,
    request: &Request,
    now: u64,
) -> Result<Reply, Failure>
    requires unspent { is_spent store.old ≡ false }
    requires stands { D.observable → StandsFor (D.state disk.old) store.old }
    ensures answered { ComesTo (IsOutcomeOver D.observable store.old request.now now) store.old store.new result }
    ensures own { IfOk result IsOwn }
    ensures steps { Steps D.observable (D.state disk.old) (D.state disk.new) store.old store.new
        (result ≡ Err Failure.Disk) }
    ensures leaves { ReadsOrCommits D.observable (IsOutcome store.old request.now now)
        (D.state disk.old) (D.state disk.new) store.old store.new (result ≡ Err Failure.Disk) }
    ensures grows { request.now.verb ≢ Get → Acknowledges result
        → Grows (D.state disk.old) (D.state disk.new) store.old store.new }
    ensures same { (request.now.verb ≡ Get) ⊎ (¬ Acknowledges result)
        → store.new.history ≡ store.old.history }
{
    if let Verb::Other = request.verb {
        return Ok(Reply::line(501, Line7::NotImplemented));
    }
    let Some(address) = store.head().name.base.read_target(request.target.slice()) else {
        return Ok(Reply::line(404, Line7::NotFound));
    };
    match address {
        Address::Feed => of_feed(alloc, store, disk, request, now),
        Address::Archive(number) => of_archive(store, disk, number, request.verb),
        Address::Member(number) => of_member(alloc, store, disk, number, request, now),
    }
}

/// The reply to a request of the feed.
fn of_feed<D: Disk>(
    alloc: Global,
    store: &mut Store,
    disk: &mut D,
    request: &Request,
    now: u64,
) -> Result<Reply, Failure>
    requires unspent { is_spent store.old ≡ false }
    requires stands { D.observable → StandsFor (D.state disk.old) store.old }
    ensures answered { ComesTo (IsOfFeed store.old request.now now request.now.verb)
        store.old store.new result }
    ensures own { IfOk result IsOwn }
    ensures steps { Steps D.observable (D.state disk.old) (D.state disk.new) store.old store.new
        (result ≡ Err Failure.Disk) }
    ensures leaves { ReadsOrCommits D.observable (IsOfFeed store.old request.now now request.now.verb)
        (D.state disk.old) (D.state disk.new) store.old store.new (result ≡ Err Failure.Disk) }
    ensures grows { request.now.verb ≢ Get → Acknowledges result
        → Grows (D.state disk.old) (D.state disk.new) store.old store.new }
    ensures same { (request.now.verb ≡ Get) ⊎ (¬ Acknowledges result)
        → store.new.history ≡ store.old.history }
{
    match request.verb {
        Verb::Get => show_feed(store),
        Verb::Post => create(alloc, store, disk, request, now),
        _ => Ok(refused_method(Allow::OfFeed)),
    }
}

/// The reply to a request of an archive.
fn of_archive<D: Disk>(
    store: &mut Store,
    disk: &mut D,
    number: u32,
    verb: Verb,
) -> Result<Reply, Failure>
    requires unspent { is_spent store.old ≡ false }
    requires stands { D.observable → StandsFor (D.state disk.old) store.old }
    ensures answered { ComesTo (IsOfArchiveOver D.observable store.old number verb) store.old store.new result }
    ensures own { IfOk result IsOwn }
    ensures steps { Steps D.observable (D.state disk.old) (D.state disk.new) store.old store.new
        (result ≡ Err Failure.Disk) }
    ensures reads { OnlyReads (D.state disk.old) (D.state disk.new) store.old store.new }
    ensures undone { verb ≢ Get → ¬ Acknowledges result }
{
    match verb {
        Verb::Get => show_archive(store, disk, number),
        _ => Ok(refused_method(Allow::OfArchive)),
    }
}

/// The reply to a request of a member.
fn of_member<D: Disk>(
    alloc: Global,
    store: &mut Store,
    disk: &mut D,
    number: u32,
    request: &Request,
    now: u64,
) -> Result<Reply, Failure>
    requires unspent { is_spent store.old ≡ false }
    requires stands { D.observable → StandsFor (D.state disk.old) store.old }
    ensures answered { ComesTo (IsOfMemberOver D.observable store.old request.now now number request.now.verb)
        store.old store.new result }
    ensures own { IfOk result IsOwn }
    ensures steps { Steps D.observable (D.state disk.old) (D.state disk.new) store.old store.new
        (result ≡ Err Failure.Disk) }
    ensures leaves { ReadsOrCommits D.observable (IsOfMember store.old request.now now number request.now.verb)
        (D.state disk.old) (D.state disk.new) store.old store.new (result ≡ Err Failure.Disk) }
    ensures grows { request.now.verb ≢ Get → Acknowledges result
        → Grows (D.state disk.old) (D.state disk.new) store.old store.new }
    ensures same { (request.now.verb ≡ Get) ⊎ (¬ Acknowledges result)
        → store.new.history ≡ store.old.history }
{
    match request.verb {
        Verb::Get => show_member(store, disk, number),
        Verb::Put => replace(alloc, store, disk, number, request, now),
        Verb::Delete => delete(alloc, store, disk, number, now),
        _ => Ok(refused_method(Allow::OfMember)),
    }
}
