ghost use Rattle.std.specs.Prelude.{◌≡◌, false, Err, IfErr, IfOk, IfSome};
ghost use Rattle.document_server.specs.Answer.{Acknowledges, ComesTo, Grows, IsOwn, IsReadAs, IsRefusal};
ghost use Rattle.document_server.specs.Answer.{ReadsOrCommits, Steps, absent_reply};
ghost use Rattle.document_server.specs.Reply.{IsAsked, IsOfState, IsSent, done};
ghost use Rattle.feed_recovery.specs.Prepare.{HasRoom, MayCommit};
ghost use Rattle.feed_recovery.specs.Store.{StandsFor, is_spent};
ghost use Rattle.member_rules.specs.Fold.{state_of};
ghost use Rattle.member_rules.specs.declared.ask.Ask.TheVariants.{Create, Replace, Delete};

use crate::failure::Failure;
use crate::media::is_entry_media;
use crate::replies::{made_change, refused, refused_entry};
use atom_values::{Draft, NoMemory};
use entry_reader::{EntryFault, read_entry};
use feed_disk::Disk;
use feed_recovery::{Ready, Store};
use http_face::{Line7, Reply, Request};
use member_rules::{Ask, State, windows_seal_in_turn};
use std::alloc::Global;

/// A value that a part of a request has, or the reply that refuses that part.
type Read<T> = Result<T, Reply>;

/// The draft in the body of a request, or the reply that refuses the body.
fn draft_of(alloc: Global, request: &Request) -> Result<Read<Draft>, NoMemory>
    ensures read { IfOk result (IsReadAs request.now) }
    ensures refusal { IfOk result (λ read. IfErr read IsRefusal) }
{
    if !is_entry_media(&request.media) {
        return Ok(Err(Reply::line(415, Line7::NotEntryType)));
    }
    match read_entry(alloc, request.body.slice()) {
        Ok(draft) => Ok(Ok(draft)),
        Err(EntryFault::NotRead { at, why }) => Ok(Err(refused_entry(alloc, at, why)?)),
        Err(EntryFault::NoMemory) => Err(NoMemory),
    }
}

/// The reply to a request of a member that isn't live.
fn absent(state: State) -> Option<Reply>
    ensures reply { result ≡ absent_reply state }
    ensures refusal { IfSome result IsRefusal }
{
    match state {
        State::Never => Some(Reply::line(404, Line7::NotFound)),
        State::Gone { .. } => Some(Reply::line(410, Line7::Gone)),
        State::Live { .. } => None,
    }
}

/// Makes a member (RFC 5023 section 9.2).
pub(crate) fn create<D: Disk>(
    alloc: Global,
    store: &mut Store,
    disk: &mut D,
    request: &Request,
    now: u64,
) -> Result<Reply, Failure>
    requires unspent { is_spent store.old ≡ false }
    requires stands { D.observable → StandsFor (D.state disk.old) store.old }
    ensures answered { ComesTo
        (IsSent store.old request.now (λ draft. Create draft) now) store.old store.new result }
    ensures own { IfOk result IsOwn }
    ensures steps { Steps D.observable (D.state disk.old) (D.state disk.new) store.old store.new
        (result ≡ Err Failure.Disk) }
    ensures leaves { ReadsOrCommits D.observable
        (IsSent store.old request.now (λ draft. Create draft) now)
        (D.state disk.old) (D.state disk.new) store.old store.new (result ≡ Err Failure.Disk) }
    ensures grows { Acknowledges result → Grows (D.state disk.old) (D.state disk.new) store.old store.new }
    ensures same { ¬ Acknowledges result → store.new.history ≡ store.old.history }
{
    match draft_of(alloc, request)? {
        Ok(draft) => change(alloc, store, disk, Ask::Create(draft), now),
        Err(reply) => Ok(reply),
    }
}

/// Replaces the entry of a member (RFC 5023 section 9.3).
pub(crate) fn replace<D: Disk>(
    alloc: Global,
    store: &mut Store,
    disk: &mut D,
    number: u32,
    request: &Request,
    now: u64,
) -> Result<Reply, Failure>
    requires unspent { is_spent store.old ≡ false }
    requires stands { D.observable → StandsFor (D.state disk.old) store.old }
    ensures answered { ComesTo
        (IsOfState (state_of store.old.history number)
        (IsSent store.old request.now (λ draft. Replace number draft) now)) store.old store.new result }
    ensures own { IfOk result IsOwn }
    ensures steps { Steps D.observable (D.state disk.old) (D.state disk.new) store.old store.new
        (result ≡ Err Failure.Disk) }
    ensures leaves { ReadsOrCommits D.observable
        (IsOfState (state_of store.old.history number)
        (IsSent store.old request.now (λ draft. Replace number draft) now))
        (D.state disk.old) (D.state disk.new) store.old store.new (result ≡ Err Failure.Disk) }
    ensures grows { Acknowledges result → Grows (D.state disk.old) (D.state disk.new) store.old store.new }
    ensures same { ¬ Acknowledges result → store.new.history ≡ store.old.history }
{
    if let Some(reply) = absent(store.state(number)) {
        return Ok(reply);
    }
    match draft_of(alloc, request)? {
        Ok(draft) => change(alloc, store, disk, Ask::Replace { number, draft }, now),
        Err(reply) => Ok(reply),
    }
}

/// Deletes a member (RFC 5023 section 9.4).
pub(crate) fn delete<D: Disk>(
    alloc: Global,
    store: &mut Store,
    disk: &mut D,
    number: u32,
    now: u64,
) -> Result<Reply, Failure>
    requires unspent { is_spent store.old ≡ false }
    requires stands { D.observable → StandsFor (D.state disk.old) store.old }
    ensures answered { ComesTo
        (IsOfState (state_of store.old.history number) (IsAsked store.old (Delete number) now))
        store.old store.new result }
    ensures own { IfOk result IsOwn }
    ensures steps { Steps D.observable (D.state disk.old) (D.state disk.new) store.old store.new
        (result ≡ Err Failure.Disk) }
    ensures leaves { ReadsOrCommits D.observable
        (IsOfState (state_of store.old.history number) (IsAsked store.old (Delete number) now))
        (D.state disk.old) (D.state disk.new) store.old store.new (result ≡ Err Failure.Disk) }
    ensures grows { Acknowledges result → Grows (D.state disk.old) (D.state disk.new) store.old store.new }
    ensures same { ¬ Acknowledges result → store.new.history ≡ store.old.history }
{
    match absent(store.state(number)) {
        Some(reply) => Ok(reply),
        None => change(alloc, store, disk, Ask::Delete { number }, now),
    }
}

/// Decides what the ask becomes, and commits it if it is accepted.
pub(crate) fn change<D: Disk>(
    alloc: Global,
    store: &mut Store,
    disk: &mut D,
    ask: Ask,
    now: u64,
) -> Result<Reply, Failure>
    requires unspent { is_spent store.old ≡ false }
    requires stands { D.observable → StandsFor (D.state disk.old) store.old }
    ensures answered { ComesTo (IsAsked store.old ask now) store.old store.new result }
    ensures own { IfOk result IsOwn }
    ensures steps { Steps D.observable (D.state disk.old) (D.state disk.new) store.old store.new
        (result ≡ Err Failure.Disk) }
    ensures leaves { ReadsOrCommits D.observable (IsAsked store.old ask now)
        (D.state disk.old) (D.state disk.new) store.old store.new (result ≡ Err Failure.Disk) }
    ensures grows { Acknowledges result → Grows (D.state disk.old) (D.state disk.new) store.old store.new }
    ensures same { ¬ Acknowledges result → store.new.history ≡ store.old.history }
{
    match store.prepare(ask, now) {
        Ok(ready) => commit(alloc, store, disk, ready),
        Err(fault) => Ok(refused(alloc, fault)?),
    }
}

/// Commits an operation. The memory of the reply is taken before, so a change that is committed is acknowledged.
fn commit<D: Disk>(
    alloc: Global,
    store: &mut Store,
    disk: &mut D,
    ready: Ready,
) -> Result<Reply, Failure>
    requires unspent { is_spent store.old ≡ false }
    requires prepared { MayCommit store.old ready }
    requires room { HasRoom store.old }
    requires stands { D.observable → StandsFor (D.state disk.old) store.old }
    ensures answered { ComesTo (λ given. given ≡ done store.old.head.name ready.operation)
        store.old store.new result }
    ensures own { IfOk result IsOwn }
    ensures steps { Steps D.observable (D.state disk.old) (D.state disk.new) store.old store.new
        (result ≡ Err Failure.Disk) }
    ensures leaves { ReadsOrCommits D.observable (λ given. given ≡ done store.old.head.name ready.operation)
        (D.state disk.old) (D.state disk.new) store.old store.new (result ≡ Err Failure.Disk) }
    ensures grows { Acknowledges result → Grows (D.state disk.old) (D.state disk.new) store.old store.new }
    ensures same { ¬ Acknowledges result → store.new.history ≡ store.old.history }
{
    // Its contract is a law that the proof uses.
    windows_seal_in_turn();
    let reply = match made_change(alloc, &store.head().name, ready.op()) {
        Ok(reply) => reply,
        Err(NoMemory) => {
            drop(ready);
            return Err(Failure::NoMemory);
        }
    };
    store.commit(disk, ready)?;
    Ok(reply)
}
