ghost use Rattle.std.specs.Prelude.{◌≡◌, ◌≢◌, ◌⊎◌, ◌≤◌, ℕ, List, [], false, true, IfErr, IfSome, IsSome, None, Some};
ghost use Rattle.atom_values.specs.Counts.{CountsFault, HasRisen};
ghost use Rattle.document_server.specs.Session.{connection_limit, read_limit};
ghost use Rattle.feed_disk.specs.Moments.{LeavesAlone};
ghost use Rattle.feed_disk.specs.Raised.{RisesAtMost};
ghost use Rattle.feed_disk.specs.declared.area.Area.{Area as AreaValue};
ghost use Rattle.feed_disk.specs.declared.area.Area.TheVariants.{Mirror as MirrorArea};
ghost use Rattle.feed_journal.specs.Limits.{area_limit};
ghost use Rattle.http_face.specs.Conn.{LastReadAfter, Reads};
ghost use Rattle.http_face.specs.Reply.{HasPhrase, disk_fault};
ghost use Rattle.http_face.specs.Settled.{IsUnsettled};
ghost use Rattle.mirror_walk.specs.Mirror.{StandsFor, is_spent};
ghost use Rattle.mirror_walk.specs.Rereading.{HasReadBack};
ghost use Rattle.mirror_walk.specs.declared.mirror_fault.MirrorFault.TheVariants as load;
ghost use Rattle.relay_command.specs.Session.{EndsLoading, EndsWithin, IsOpened, IsReplyTo, KeepsArea, Relays};
ghost use Rattle.relay_command.specs.Session.{RelaysLoaded, RelaysOne, SendsDocument, ServesNothing, end_of};
ghost use Rattle.relay_command.specs.Session.{version_of};

use atom_values::{Copies, Failed, Many, NoMemory};
use chain_links::Base;
use document_server::{Door, MAX_CONNECTIONS};
use feed_disk::Disk;
use feed_relay::relay_answer;
use http_face::{Conn, Reply, read_request, write_reply};
use mirror_walk::{Mirror, MirrorFault};
use std::alloc::Global;

/// Why a session ended.
#[derive(Drop)]
pub enum End {
    /// The number of connections was served, or the door has none left.
    Done,
    /// The mirror wasn't loaded.
    Load(MirrorFault),
    /// A device call failed after the mirror was loaded.
    DiskFault,
    /// A call on the door failed.
    DoorFault,
    /// Memory ran out before the door was opened.
    NoMemory,
}

/// The line of a connection that was served.
#[derive(Clone, Copy)]
pub struct Served {
    /// The status of the reply. 0 if no reply was begun, since the connection failed before.
    pub status: u16,
    /// The number of operations that the best subscription document covers. 0 if none is held.
    pub version: u32,
}

/// The connections of a session, in order, and why it ended.
#[derive(Drop)]
pub(crate) struct Session {
    pub(crate) lines: Many<Served, MAX_CONNECTIONS>,
    pub(crate) end: End,
}

/// Loads the mirror of the feed below a base address, opens the door at the address `listen`, and serves at most
/// `requests` connections, one after the other.
///
/// A connection that fails ends alone. The session ends early if a device call fails, after the reply 500 to its
/// request, or if a call on the door fails. Takes the memory for all lines before it opens the door.
pub(crate) fn serve<D: Disk, L: Door>(
    alloc: Global,
    base: &Base,
    capacity: u64,
    disk: &mut D,
    door: &mut L,
    listen: &[u8],
    requests: u32,
) -> Session
    requires some { 1 ≤ requests }
    requires few { requests ≤ connection_limit }
    requires capacity { capacity ≤ area_limit }
    ensures relays { IsOpened result.end → RelaysLoaded D.observable L.observable base.now (D.state disk.old)
        (D.state disk.new) (L.state door.old) (L.state door.new) result.lines.items (result.end ≡ End.DiskFault) }
    ensures ends { EndsWithin requests L.observable (L.state door.new) result.lines.items result.end }
    ensures unopened { ¬ IsOpened result.end
        → ServesNothing (L.state door.old) (L.state door.new) result.lines.items }
    ensures load { EndsLoading D.observable base.now (D.state disk.old) result.end }
    ensures area { D.observable → KeepsArea (D.state disk.old) (D.state disk.new) result.end }
    ensures others { (a : AreaValue) → a ≢ MirrorArea → LeavesAlone (D.state disk.old) (D.state disk.new) a }
    ensures address { L.only_at door.old listen.now → L.only_at door.new listen.now }
    ensures disk_faults { CountsFault (D.state disk.old).faults (D.state disk.new).faults
        ((result.end ≡ End.DiskFault) ⊎ (result.end ≡ End.Load load.DiskFault)) }
    ensures door_faults { CountsFault (L.state door.old).faults (L.state door.new).faults
        (result.end ≡ End.DoorFault) }
{
    let mut lines = Many::new(alloc);
    let end = match load_and_serve(
        alloc, base, capacity, disk, door, listen, requests, &mut lines,
    ) {
        Ok(()) => End::Done,
        Err(end) => end,
    };
    Session { lines, end }
}

/// Loads the mirror, opens the door and serves, and adds a line for each connection.
fn load_and_serve<D: Disk, L: Door>(
    alloc: Global,
    base: &Base,
    capacity: u64,
    disk: &mut D,
    door: &mut L,
    listen: &[u8],
    requests: u32,
    lines: &mut Many<Served, MAX_CONNECTIONS>,
) -> Result<(), End>
    requires empty { lines.old.items ≡ [] }
    requires some { 1 ≤ requests }
    requires few { requests ≤ connection_limit }
    requires capacity { capacity ≤ area_limit }
    ensures relays { IsOpened (end_of result) → RelaysLoaded D.observable L.observable base.now (D.state disk.old)
        (D.state disk.new) (L.state door.old) (L.state door.new) lines.new.items (end_of result ≡ End.DiskFault) }
    ensures ends { EndsWithin requests L.observable (L.state door.new) lines.new.items (end_of result) }
    ensures unopened { ¬ IsOpened (end_of result)
        → ServesNothing (L.state door.old) (L.state door.new) lines.new.items }
    ensures load { EndsLoading D.observable base.now (D.state disk.old) (end_of result) }
    ensures area { D.observable → KeepsArea (D.state disk.old) (D.state disk.new) (end_of result) }
    ensures others { (a : AreaValue) → a ≢ MirrorArea → LeavesAlone (D.state disk.old) (D.state disk.new) a }
    ensures address { L.only_at door.old listen.now → L.only_at door.new listen.now }
    ensures disk_faults { CountsFault (D.state disk.old).faults (D.state disk.new).faults
        ((end_of result ≡ End.DiskFault) ⊎ (end_of result ≡ End.Load load.DiskFault)) }
    ensures door_faults { CountsFault (L.state door.old).faults (L.state door.new).faults
        (end_of result ≡ End.DoorFault) }
{
    let own = base.copy(alloc)?;
    let mut mirror = Mirror::load(alloc, disk, own, capacity)?;
    let served = serve_loaded(
        alloc,
        base,
        &mut mirror,
        disk,
        door,
        listen,
        requests,
        lines,
    );
    drop(mirror);
    served
}

/// Opens the door and serves from a mirror that was loaded.
fn serve_loaded<D: Disk, L: Door>(
    alloc: Global,
    base: &Base,
    mirror: &mut Mirror,
    disk: &mut D,
    door: &mut L,
    listen: &[u8],
    requests: u32,
    lines: &mut Many<Served, MAX_CONNECTIONS>,
) -> Result<(), End>
    requires unspent { is_spent mirror.old ≡ false }
    requires stands { D.observable → StandsFor (D.state disk.old) mirror.old }
    requires base { base.now ≡ mirror.old.base }
    requires empty { lines.old.items ≡ [] }
    requires some { 1 ≤ requests }
    requires few { requests ≤ connection_limit }
    ensures relays { IsOpened (end_of result) → Relays D.observable L.observable base.now mirror.old.kept
        (D.state disk.old) (D.state disk.new) (L.state door.old) (L.state door.new) lines.new.items
        (end_of result ≡ End.DiskFault) }
    ensures ends { EndsWithin requests L.observable (L.state door.new) lines.new.items (end_of result) }
    ensures unopened { ¬ IsOpened (end_of result)
        → ServesNothing (L.state door.old) (L.state door.new) lines.new.items }
    ensures only_errors { IfErr result (λ end. (end ≡ End.DiskFault) ⊎ (end ≡ End.DoorFault)
        ⊎ (end ≡ End.NoMemory)) }
    ensures areas { (a : AreaValue) → LeavesAlone (D.state disk.old) (D.state disk.new) a }
    ensures address { L.only_at door.old listen.now → L.only_at door.new listen.now }
    ensures disk_faults { CountsFault (D.state disk.old).faults (D.state disk.new).faults
        (end_of result ≡ End.DiskFault) }
    ensures door_faults { CountsFault (L.state door.old).faults (L.state door.new).faults
        (end_of result ≡ End.DoorFault) }
{
    lines.reserve(requests as usize)?;
    door.listen(listen)?;
    serve_connections(alloc, base, mirror, disk, door, requests, lines)
}

/// Serves the connections that the door gives, at most `requests`.
fn serve_connections<D: Disk, L: Door>(
    alloc: Global,
    base: &Base,
    mirror: &mut Mirror,
    disk: &mut D,
    door: &mut L,
    requests: u32,
    lines: &mut Many<Served, MAX_CONNECTIONS>,
) -> Result<(), End>
    requires unspent { is_spent mirror.old ≡ false }
    requires stands { D.observable → StandsFor (D.state disk.old) mirror.old }
    requires base { base.now ≡ mirror.old.base }
    requires empty { lines.old.items ≡ [] }
    requires few { requests ≤ connection_limit }
    requires room { requests ≤ lines.old.spare }
    ensures relays { Relays D.observable L.observable base.now mirror.old.kept (D.state disk.old) (D.state disk.new)
        (L.state door.old) (L.state door.new) lines.new.items (end_of result ≡ End.DiskFault) }
    ensures ends { EndsWithin requests L.observable (L.state door.new) lines.new.items (end_of result) }
    ensures address { (at : List ℕ) → L.listens door.old at → L.only_at door.old at → L.only_at door.new at }
    ensures only_errors { IfErr result (λ end. (end ≡ End.DiskFault) ⊎ (end ≡ End.DoorFault)) }
    ensures areas { (a : AreaValue) → LeavesAlone (D.state disk.old) (D.state disk.new) a }
    ensures disk_faults { CountsFault (D.state disk.old).faults (D.state disk.new).faults
        (end_of result ≡ End.DiskFault) }
    ensures door_faults { CountsFault (L.state door.old).faults (L.state door.new).faults
        (end_of result ≡ End.DoorFault) }
{
    let version = version_of(mirror);
    for _count in 0..requests {
        let Some(mut link) = door.next()? else {
            return Ok(());
        };
        let status = serve_connection(alloc, base, mirror, disk, &mut link);
        door.back(link);
        match lines.push(Served { status, version }) {
            Ok(()) => {}
            // `serve_loaded` reserved room for `requests` lines, so the push doesn't fail.
            Err(_) => unreachable!(),
        }
        if mirror.is_spent() {
            return Err(End::DiskFault);
        }
    }
    Ok(())
}

/// The version that the lines state.
fn version_of(mirror: &Mirror) -> u32
    requires { is_spent mirror.now ≡ false }
    ensures { result ≡ version_of mirror.now.kept }
{
    match mirror.best() {
        Some(place) => place.span.last,
        None => 0,
    }
}

/// Serves a connection: reads its request, answers it and sends the reply. Returns the status of the reply, or 0 if none
/// was begun.
fn serve_connection<D: Disk, K: Conn>(
    alloc: Global,
    base: &Base,
    mirror: &mut Mirror,
    disk: &mut D,
    link: &mut K,
) -> u16
    requires unspent { is_spent mirror.old ≡ false }
    requires stands { D.observable → StandsFor (D.state disk.old) mirror.old }
    requires base { base.now ≡ mirror.old.base }
    requires unbegun { (K.state link.old).begun ≡ None }
    ensures relays { RelaysOne D.observable K.observable base.now mirror.old.kept (D.state disk.old)
        (D.state disk.new) (K.state link.old) (K.state link.new) (is_spent mirror.new ≡ true) result }
    ensures mirror { HasReadBack D.observable (D.state disk.new) mirror.old mirror.new
        (is_spent mirror.new ≡ true) }
    ensures areas { (a : AreaValue) → LeavesAlone (D.state disk.old) (D.state disk.new) a }
    ensures faults { CountsFault (D.state disk.old).faults (D.state disk.new).faults
        (is_spent mirror.new ≡ true) }
{
    let Some(reply) = reply_to(alloc, base, mirror, disk, link) else {
        return 0;
    };
    link.begin(disk);
    // The result isn't used: a reply that is cut off ends its connection alone.
    let _ = write_reply(link, &reply);
    reply.status
}

/// Reads the request of a connection and answers it. `None` if the connection failed.
fn reply_to<D: Disk, K: Conn>(
    alloc: Global,
    base: &Base,
    mirror: &mut Mirror,
    disk: &mut D,
    link: &mut K,
) -> Option<Reply>
    requires unspent { is_spent mirror.old ≡ false }
    requires stands { D.observable → StandsFor (D.state disk.old) mirror.old }
    requires base { base.now ≡ mirror.old.base }
    ensures replied { K.observable
        → IfSome result (IsReplyTo D.observable base.now mirror.old.kept (K.state link.old).left) }
    ensures documents { D.observable → K.observable
        → IfSome result (SendsDocument base.now mirror.old.kept (K.state link.old).left) }
    // The status line of the reply has a phrase.
    ensures status { IfSome result (λ reply. HasPhrase reply.status) }
    ensures spent { is_spent mirror.new ≡ true → result ≡ Some disk_fault }
    ensures mirror { HasReadBack D.observable (D.state disk.new) mirror.old mirror.new
        (result ≡ Some disk_fault) }
    ensures areas { (a : AreaValue) → LeavesAlone (D.state disk.old) (D.state disk.new) a }
    ensures faults { CountsFault (D.state disk.old).faults (D.state disk.new).faults
        (result ≡ Some disk_fault) }
    ensures read { RisesAtMost read_limit (K.state link.old).bytes_read (K.state link.new).bytes_read }
    ensures needed { K.observable → LastReadAfter IsUnsettled (K.state link.old) (K.state link.new) }
    ensures reads { Reads (K.state link.old) (K.state link.new) }
    ensures lost { result ≡ None → HasRisen (K.state link.old).faults (K.state link.new).faults }
    ensures unfailed { IsSome result → (K.state link.new).faults ≡ (K.state link.old).faults }
{
    match read_request(alloc, link) {
        Ok(request) => Some(relay_answer(mirror, disk, base, &request)),
        Err(fault) => fault.reply(),
    }
}

impl From<NoMemory> for End {
    ghost use Rattle.std.specs.Prelude.{◌≡◌};
    ghost use Rattle.relay_command.specs.declared.session.End.TheVariants.{NoMemory};

    ghost from_gives = { λ _ end. end ≡ NoMemory };

    fn from(_error: NoMemory) -> End {
        End::NoMemory
    }
}

impl From<MirrorFault> for End {
    ghost use Rattle.std.specs.Prelude.{◌≡◌};
    ghost use Rattle.relay_command.specs.declared.session.End.TheVariants.{Load};

    ghost from_gives = { λ fault end. end ≡ Load fault };

    fn from(fault: MirrorFault) -> End {
        End::Load(fault)
    }
}

impl From<Failed> for End {
    ghost use Rattle.std.specs.Prelude.{◌≡◌};
    ghost use Rattle.relay_command.specs.declared.session.End.TheVariants.{DoorFault};

    ghost from_gives = { λ _ end. end ≡ DoorFault };

    fn from(_error: Failed) -> End {
        End::DoorFault
    }
}
