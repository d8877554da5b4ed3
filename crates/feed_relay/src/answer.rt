ghost use Rattle.std.specs.Prelude.{◌≡◌, ℕ, false, List};
ghost use Rattle.atom_values.specs.Counts.{CountsFault};
ghost use Rattle.chain_links.specs.Address.{printed};
ghost use Rattle.feed_disk.specs.Moments.{LeavesAlone};
ghost use Rattle.feed_disk.specs.declared.area.Area.{Area as AreaValue};
ghost use Rattle.feed_relay.specs.Reply.{IsRelayed, IsShown, SendsHeld, SendsServed, feed_reply};
ghost use Rattle.http_face.specs.Reply.{HasPhrase, disk_changed, disk_fault, no_memory};
ghost use Rattle.member_rules.specs.Head.{HeadValue};
ghost use Rattle.member_rules.specs.Served.{Served};
ghost use Rattle.member_rules.specs.declared.operation.Op.{Op};
ghost use Rattle.mirror_walk.specs.Holding.{text_at};
ghost use Rattle.mirror_walk.specs.Mirror.{StandsFor, is_spent};
ghost use Rattle.mirror_walk.specs.Published.{HoldsServed};
ghost use Rattle.mirror_walk.specs.Rereading.{HasReadBack};

use chain_links::{Address, Base};
use feed_disk::Disk;
use feed_journal::LogFault;
use http_face::{Allow, Line7, Media, Reply, Request, Verb};
use mirror_walk::Mirror;

/// Answers a request of a document that the mirror holds. The first of these that fits gives the reply:
///
/// - 501 `not implemented` to a method that HTTP doesn't name.
/// - 404 `not found` if the target isn't an address below the base, or if it is the address of a member.
/// - 405 `not allowed` with `Allow: GET` to another method than GET.
/// - 404 `not found` if no document is held at the address.
/// - 500 `disk`: the disk's count of faults rose, and the mirror is spent.
/// - 500 `changed`: the disk gave less of the document than the mirror has on it. Never on a disk whose content
///   contracts see.
/// - 503 `no memory`: memory ran out.
/// - 200: the bytes of the document.
///
/// Makes one device call for a document that is held, and none for another reply. Memory is that of the mirror.
pub fn relay_answer<D: Disk>(
    mirror: &mut Mirror,
    disk: &mut D,
    base: &Base,
    request: &Request,
) -> Reply
    requires unspent { is_spent mirror.old ≡ false }
    requires stands { D.observable → StandsFor (D.state disk.old) mirror.old }
    requires base { base.now ≡ mirror.old.base }
    ensures relayed { IsRelayed D.observable base.now mirror.old.kept request.now result }
    ensures held { D.observable → result.status ≡ 200
        → SendsHeld base.now mirror.old.kept request.now result }
    // If one feed served all documents held, it served the one that is sent.
    ensures served { D.observable → (head : HeadValue) (history : List Op)
        → HoldsServed head history mirror.old.kept → result.status ≡ 200
        → SendsServed head history base.now request.now result }
    ensures changed { result ≡ disk_changed → ¬ D.observable }
    ensures memory { result.status ≡ 503 → result ≡ no_memory }
    // The status line of the reply has a phrase.
    ensures status { HasPhrase result.status }

    // No area changes, and of the mirror only the count of calls. After a failed device call it is spent.
    ensures areas { (a : AreaValue) → LeavesAlone (D.state disk.old) (D.state disk.new) a }
    ensures mirror { HasReadBack D.observable (D.state disk.new) mirror.old mirror.new (result ≡ disk_fault) }
    ensures faults { CountsFault (D.state disk.old).faults (D.state disk.new).faults (result ≡ disk_fault) }
{
    if let Verb::Other = request.verb {
        return Reply::line(501, Line7::NotImplemented);
    }
    let Some(address) = base.read_target(request.target.slice()) else {
        return Reply::line(404, Line7::NotFound);
    };
    if let Address::Member(_) = address {
        return Reply::line(404, Line7::NotFound);
    }
    match request.verb {
        Verb::Get => show(mirror, disk, address),
        // Like an archive, each document allows GET alone.
        _ => Reply::not_allowed(Allow::OfArchive),
    }
}

/// The reply to a GET of an address.
fn show<D: Disk>(mirror: &mut Mirror, disk: &mut D, address: Address) -> Reply
    requires unspent { is_spent mirror.old ≡ false }
    requires stands { D.observable → StandsFor (D.state disk.old) mirror.old }
    ensures shown { IsShown D.observable (text_at mirror.old.kept address) result }
    ensures served { D.observable → (head : HeadValue) (history : List Op)
        → HoldsServed head history mirror.old.kept → (bytes : List ℕ) → result ≡ feed_reply bytes
        → Served head history (printed mirror.old.base address) bytes }
    ensures areas { (a : AreaValue) → LeavesAlone (D.state disk.old) (D.state disk.new) a }
    ensures mirror { HasReadBack D.observable (D.state disk.new) mirror.old mirror.new (result ≡ disk_fault) }
    ensures faults { CountsFault (D.state disk.old).faults (D.state disk.new).faults (result ≡ disk_fault) }
{
    match mirror.document(disk, address) {
        Ok(Some(text)) => Reply::document(Media::Feed, text),
        Ok(None) => Reply::line(404, Line7::NotFound),
        Err(LogFault::DiskFault) => Reply::line(500, Line7::Disk),
        Err(LogFault::Changed { .. }) => Reply::line(500, Line7::Changed),
        Err(LogFault::NoMemory) => Reply::line(503, Line7::NoMemory),
    }
}
