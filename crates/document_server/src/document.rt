ghost use Rattle.std.specs.Prelude.{◌≡◌, false, Err, IfErr, IfOk};
ghost use Rattle.document_server.specs.Answer.{ComesTo, IsOwn, OnlyReads, Steps};
ghost use Rattle.document_server.specs.Reply.{IsFeedShown, IsMemberShownOver, IsOfArchiveOver, IsOfState};
ghost use Rattle.feed_recovery.specs.Store.{StandsFor, is_spent};
ghost use Rattle.http_face.specs.declared.request.Verb.TheVariants.{Get};
ghost use Rattle.member_rules.specs.Fold.{state_of};

use crate::failure::Failure;
use feed_disk::Disk;
use feed_recovery::{ArchiveFault, MemberFault, Store};
use http_face::{Line7, Media, Reply};

/// Replies with the subscription document.
pub(crate) fn show_feed(store: &mut Store) -> Result<Reply, Failure>
    requires { is_spent store.old ≡ false }
    ensures answered { ComesTo (IsFeedShown store.old) store.old store.new result }
    ensures own { IfOk result IsOwn }
    ensures refused { IfErr result (λ failure. failure ≡ Failure.NoMemory) }
    ensures same { store.new ≡ store.old }
{
    Ok(Reply::document(Media::Feed, store.subscription()?))
}

/// Replies with a sealed archive.
pub(crate) fn show_archive<D: Disk>(
    store: &mut Store,
    disk: &mut D,
    number: u32,
) -> Result<Reply, Failure>
    requires unspent { is_spent store.old ≡ false }
    requires stands { D.observable → StandsFor (D.state disk.old) store.old }
    ensures answered { ComesTo (IsOfArchiveOver D.observable store.old number Get) store.old store.new result }
    ensures own { IfOk result IsOwn }
    ensures steps { Steps D.observable (D.state disk.old) (D.state disk.new) store.old store.new
        (result ≡ Err Failure.Disk) }
    ensures reads { OnlyReads (D.state disk.old) (D.state disk.new) store.old store.new }
{
    match store.archive(disk, number) {
        Ok(text) => Ok(Reply::document(Media::Feed, text)),
        Err(ArchiveFault::NotSealed { .. }) => Ok(Reply::line(404, Line7::NotFound)),
        Err(ArchiveFault::DiskFault) => Err(Failure::Disk),
        Err(ArchiveFault::Changed { .. }) => Err(Failure::Changed),
        Err(ArchiveFault::NoMemory) => Err(Failure::NoMemory),
    }
}

/// Replies with the document of a member.
pub(crate) fn show_member<D: Disk>(
    store: &mut Store,
    disk: &mut D,
    number: u32,
) -> Result<Reply, Failure>
    requires unspent { is_spent store.old ≡ false }
    requires stands { D.observable → StandsFor (D.state disk.old) store.old }
    ensures answered { ComesTo
        (IsOfState (state_of store.old.history number) (IsMemberShownOver D.observable store.old number))
        store.old store.new result }
    ensures own { IfOk result IsOwn }
    ensures steps { Steps D.observable (D.state disk.old) (D.state disk.new) store.old store.new
        (result ≡ Err Failure.Disk) }
    ensures reads { OnlyReads (D.state disk.old) (D.state disk.new) store.old store.new }
{
    match store.member(disk, number) {
        Ok(text) => Ok(Reply::document(Media::Entry, text)),
        Err(MemberFault::NotFound { .. }) => Ok(Reply::line(404, Line7::NotFound)),
        Err(MemberFault::Deleted { .. }) => Ok(Reply::line(410, Line7::Gone)),
        Err(MemberFault::DiskFault) => Err(Failure::Disk),
        Err(MemberFault::Changed { .. }) => Err(Failure::Changed),
        Err(MemberFault::NoMemory) => Err(Failure::NoMemory),
    }
}
