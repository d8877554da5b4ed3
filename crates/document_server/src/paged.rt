ghost use Rattle.std.specs.Prelude.{◌≡◌, ◌⊎◌, false, true, IfOk, IfSome};
ghost use Rattle.atom_values.specs.Counts.{HasRisen};
ghost use Rattle.document_server.specs.Answer.{Grows, IsAnswer, LeavesAnswered, Steps};
ghost use Rattle.document_server.specs.Served.{answers_of, paged};
ghost use Rattle.feed_recovery.specs.Store.{StandsFor, is_spent};
ghost use Rattle.http_face.specs.Reply.{HasPhrase, disk_fault};

use crate::dispatch::answer;
use atom_values::NoMemory;
use feed_disk::Disk;
use feed_journal::begun_images_are_whole;
use feed_recovery::Store;
use http_face::{Line7, Reply, Request};
use service_face::service_answer;
use std::alloc::Global;

/// Answers a request as [`answer`] does, but if `service`, first the requests of the service document and of the
/// listing. Their reply is made of the store alone; 503 `no memory` if memory runs out.
pub(crate) fn answer_paged<D: Disk>(
    alloc: Global,
    service: bool,
    store: &mut Store,
    disk: &mut D,
    request: &Request,
    now: u64,
) -> Reply
    requires unspent { is_spent store.old ≡ false }
    requires stands { D.observable → StandsFor (D.state disk.old) store.old }
    ensures answered { D.observable → IsAnswer (answers_of service store.old request.now now) store.old store.new
        result (HasRisen (D.state disk.old).faults (D.state disk.new).faults) }
    ensures status { HasPhrase result.status }
    ensures steps { Steps D.observable (D.state disk.old) (D.state disk.new) store.old store.new
        (result ≡ disk_fault) }
    ensures only { is_spent store.new ≡ true → result ≡ disk_fault }
    ensures leaves { D.observable → LeavesAnswered (answers_of service store.old request.now now)
        (D.state disk.old) (D.state disk.new) store.old store.new (result ≡ disk_fault) }
    ensures grows { (store.new.history ≡ store.old.history)
        ⊎ Grows (D.state disk.old) (D.state disk.new) store.old store.new }
{
    // Its contract is a law that the proof uses.
    begun_images_are_whole();
    match page(alloc, service, store, request) {
        Ok(Some(reply)) => reply,
        Ok(None) => answer(alloc, store, disk, request, now),
        Err(NoMemory) => Reply::line(503, Line7::NoMemory),
    }
}

/// The reply of the page that the request names. `None` if it names none, or the session has no pages.
fn page(
    alloc: Global,
    service: bool,
    store: &Store,
    request: &Request,
) -> Result<Option<Reply>, NoMemory>
    requires { is_spent store.now ≡ false }
    ensures reply { IfOk result (λ given. given ≡ paged service store.now request.now) }
    ensures status { IfOk result (λ given. IfSome given (λ reply. HasPhrase reply.status)) }
{
    if service {
        service_answer(alloc, store, request)
    } else {
        Ok(None)
    }
}
