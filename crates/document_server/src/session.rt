ghost use Rattle.std.specs.Prelude.{◌≡◌, ◌≢◌, ◌⊎◌, ◌≤◌, ℕ, List, [], length, true, false, None, Some};
ghost use Rattle.std.specs.Prelude.{Ok, Err, IfErr, IfSome, IsSome};
ghost use Rattle.atom_values.specs.Counts.{CountsFault, HasRisen};
ghost use Rattle.document_server.specs.Answer.{Grows, Steps};
ghost use Rattle.document_server.specs.Serving.{AreLogs, CountsFrom, EndsUnopened, EndsWithin, RepliesOne, Serves, ServesFrom};
ghost use Rattle.document_server.specs.Served.{answers_of};
ghost use Rattle.document_server.specs.Serving.{ServesOne, end_of};
ghost use Rattle.document_server.specs.Session.{connection_limit, read_limit};
ghost use Rattle.feed_disk.specs.Moments.{LeavesAlone};
ghost use Rattle.feed_disk.specs.Raised.{RisesAtMost};
ghost use Rattle.feed_disk.specs.declared.area.Area.TheVariants.{Mirror};
ghost use Rattle.feed_recovery.specs.Store.{StandsFor, call_count, is_spent};
ghost use Rattle.feed_recovery.specs.declared.fault.LoadFault.{LoadFault as Fault};
ghost use Rattle.http_face.specs.Conn.{LastReadAfter, Reads};
ghost use Rattle.http_face.specs.Reply.{HasPhrase, disk_fault};
ghost use Rattle.http_face.specs.Settled.{IsUnsettled};

use crate::clock::Clock;
use crate::door::Door;
use crate::laws::shown_are_served;
use crate::line::Line;
use crate::paged::answer_paged;
use atom_values::{Failed, Many, NoMemory};
use feed_disk::Disk;
use feed_journal::begun_images_are_whole;
use feed_recovery::{LoadFault, Store, stores_open_in_one_way};
use http_face::{Conn, Reply, read_request, write_reply};
use member_rules::{prefixes_are_lawful, served_stays_served};
use std::alloc::Global;

/// The greatest number of connections of a session.
pub const MAX_CONNECTIONS: u32 = 1_000_000;

/// Why a session ended.
#[derive(Clone, Copy, Debug, PartialEq, Eq)]
pub enum End {
    /// The number of connections was served, or the door has none left.
    Done,
    /// The store wasn't loaded.
    Load(LoadFault),
    /// A device call failed. The store has to be loaded again.
    DiskFault,
    /// A call on the door failed.
    DoorFault,
    /// Memory ran out before the door was opened.
    NoMemory,
}

/// The connections of a session, in order, and why it ended.
#[derive(Debug, Drop)]
pub struct ServeEnd {
    pub lines: Many<Line, MAX_CONNECTIONS>,
    pub end: End,
}

/// Loads the store of the disk, opens the door at the address `listen`, and serves at most `requests` connections, one
/// after the other.
///
/// Each request is answered by [`answer`](crate::answer) at one moment of the clock. If `service`, requests of the
/// service document and of the listing of members are answered by [`service_answer`](service_face::service_answer). A
/// connection that fails ends alone. The session ends early if a device call fails, after the reply 500 to its request,
/// or if a call on the door fails. Takes the memory for all lines before it opens the door.
pub fn serve<D: Disk, C: Clock, L: Door>(
    alloc: Global,
    disk: &mut D,
    clock: &mut C,
    door: &mut L,
    listen: &[u8],
    requests: u32,
    service: bool,
) -> ServeEnd
    requires some { 1 ≤ requests }
    requires few { requests ≤ connection_limit }
    // The session over the connections that the door gave, and what a crash leaves. Each part names the
    // objects that contracts have to see for it.
    ensures serves { ((fault : Fault) → result.end ≢ End.Load fault)
        → Serves (answers_of service) (D.state disk.old) (D.state disk.new) (C.coming clock.old) (L.state door.old)
        (L.state door.new)
        D.observable C.observable L.observable result.lines.items (result.end ≡ End.DiskFault) }
    ensures ends { EndsWithin requests L.observable (L.state door.old) (L.state door.new)
        result.lines.items result.end }

    // The door gives all connections of the session while it listens at the address.
    ensures address { L.only_at door.old listen.now → L.only_at door.new listen.now }

    // A store that isn't loaded, or lines for which memory runs out.
    ensures unopened { EndsUnopened D.observable (D.state disk.old) (D.state disk.new) door.old door.new
        result.lines.items result.end }
    ensures mirror { LeavesAlone (D.state disk.old) (D.state disk.new) Mirror }

    // The counts of faults rose exactly where a call failed.
    ensures disk_faults { CountsFault (D.state disk.old).faults (D.state disk.new).faults
        ((result.end ≡ End.DiskFault) ⊎ (result.end ≡ End.Load Fault.DiskFault)) }
    ensures door_faults { CountsFault (L.state door.old).faults (L.state door.new).faults
        (result.end ≡ End.DoorFault) }
{
    let mut lines = Many::new(alloc);
    let end = match serve_into(
        alloc, disk, clock, door, listen, requests, service, &mut lines,
    ) {
        Ok(()) => End::Done,
        Err(end) => end,
    };
    ServeEnd { lines, end }
}

/// Loads the store, opens the door and serves, and adds a line for each connection.
fn serve_into<D: Disk, C: Clock, L: Door>(
    alloc: Global,
    disk: &mut D,
    clock: &mut C,
    door: &mut L,
    listen: &[u8],
    requests: u32,
    service: bool,
    lines: &mut Many<Line, MAX_CONNECTIONS>,
) -> Result<(), End>
    requires empty { lines.old.items ≡ [] }
    requires some { 1 ≤ requests }
    requires few { requests ≤ connection_limit }
    ensures serves { ((fault : Fault) → end_of result ≢ End.Load fault)
        → Serves (answers_of service) (D.state disk.old) (D.state disk.new) (C.coming clock.old) (L.state door.old)
        (L.state door.new)
        D.observable C.observable L.observable lines.new.items (end_of result ≡ End.DiskFault) }
    ensures ends { EndsWithin requests L.observable (L.state door.old) (L.state door.new)
        lines.new.items (end_of result) }
    ensures address { L.only_at door.old listen.now → L.only_at door.new listen.now }
    ensures unopened { EndsUnopened D.observable (D.state disk.old) (D.state disk.new) door.old door.new
        lines.new.items (end_of result) }
    ensures mirror { LeavesAlone (D.state disk.old) (D.state disk.new) Mirror }
    ensures disk_faults { CountsFault (D.state disk.old).faults (D.state disk.new).faults
        ((end_of result ≡ End.DiskFault) ⊎ (end_of result ≡ End.Load Fault.DiskFault)) }
    ensures door_faults { CountsFault (L.state door.old).faults (L.state door.new).faults
        (end_of result ≡ End.DoorFault) }
{
    // Their contracts are laws that the proof uses.
    stores_open_in_one_way();
    begun_images_are_whole();
    let mut store = Store::load(alloc, disk)?;
    if let Err(NoMemory) = lines.reserve(requests as usize) {
        drop(store);
        return Err(End::NoMemory);
    }
    if let Err(Failed) = door.listen(listen) {
        drop(store);
        return Err(End::DoorFault);
    }
    let served = serve_connections(
        alloc, &mut store, disk, clock, door, requests, service, lines,
    );
    drop(store);
    served
}

/// Serves the connections that the door gives, at most `requests`.
fn serve_connections<D: Disk, C: Clock, L: Door>(
    alloc: Global,
    store: &mut Store,
    disk: &mut D,
    clock: &mut C,
    door: &mut L,
    requests: u32,
    service: bool,
    lines: &mut Many<Line, MAX_CONNECTIONS>,
) -> Result<(), End>
    requires unspent { is_spent store.old ≡ false }
    requires logs { AreLogs store.old }
    requires stands { D.observable → StandsFor (D.state disk.old) store.old }
    requires empty { lines.old.items ≡ [] }
    requires few { requests ≤ connection_limit }
    requires room { requests ≤ lines.old.spare }
    ensures serves { (start : ℕ) → CountsFrom start (D.state disk.old) (D.state disk.new) store.old
        → ServesFrom (answers_of service) start (D.state disk.old) (D.state disk.new) (C.coming clock.old) (L.state door.old)
        (L.state door.new) D.observable C.observable L.observable store.old lines.new.items (end_of result ≡ End.DiskFault) }
    ensures ends { EndsWithin requests L.observable (L.state door.old) (L.state door.new)
        lines.new.items (end_of result) }
    ensures address { (at : List ℕ) → L.listens door.old at → L.only_at door.old at → L.only_at door.new at }
    ensures only_errors { IfErr result (λ end. (end ≡ End.DiskFault) ⊎ (end ≡ End.DoorFault)) }
    ensures mirror { LeavesAlone (D.state disk.old) (D.state disk.new) Mirror }
    ensures disk_faults { CountsFault (D.state disk.old).faults (D.state disk.new).faults
        (end_of result ≡ End.DiskFault) }
    ensures door_faults { CountsFault (L.state door.old).faults (L.state door.new).faults
        (end_of result ≡ End.DoorFault) }
{
    // Their contracts are laws that the proof uses.
    begun_images_are_whole();
    shown_are_served();
    served_stays_served();
    prefixes_are_lawful();
    for _count in 0..requests {
        let Some(mut link) = door.next()? else {
            return Ok(());
        };
        let line = serve_connection(alloc, service, store, disk, clock, &mut link);
        door.back(link);
        match lines.push(line) {
            Ok(()) => {}
            // `serve` reserved room for `requests` lines, so the push doesn't fail.
            Err(_) => unreachable!(),
        }
        if store.is_spent() {
            return Err(End::DiskFault);
        }
    }
    Ok(())
}

/// Serves a connection: reads its request, answers it and sends the reply.
fn serve_connection<D: Disk, C: Clock, K: Conn>(
    alloc: Global,
    service: bool,
    store: &mut Store,
    disk: &mut D,
    clock: &mut C,
    link: &mut K,
) -> Line
    requires unspent { is_spent store.old ≡ false }
    requires logs { AreLogs store.old }
    requires stands { D.observable → StandsFor (D.state disk.old) store.old }
    requires unbegun { (K.state link.old).begun ≡ None }
    ensures serves { ServesOne (answers_of service) (D.state disk.old) (D.state disk.new) (C.coming clock.old) (C.coming clock.new)
        (K.state link.old) (K.state link.new) D.observable C.observable K.observable store.old store.new result }
    ensures steps { Steps D.observable (D.state disk.old) (D.state disk.new) store.old store.new
        (is_spent store.new ≡ true) }
    ensures logs { AreLogs store.new }
{
    let Some(reply) = reply_to(alloc, service, store, disk, clock, link) else {
        return line_of(store, 0, false);
    };
    link.begin(disk);
    let whole = write_reply(link, &reply).is_ok();
    line_of(store, reply.status, whole)
}

/// Reads the request of a connection and answers it. `None` if the connection failed.
fn reply_to<D: Disk, C: Clock, K: Conn>(
    alloc: Global,
    service: bool,
    store: &mut Store,
    disk: &mut D,
    clock: &mut C,
    link: &mut K,
) -> Option<Reply>
    requires unspent { is_spent store.old ≡ false }
    requires logs { AreLogs store.old }
    requires stands { D.observable → StandsFor (D.state disk.old) store.old }
    ensures replies { D.observable → RepliesOne (answers_of service) (D.state disk.old) (D.state disk.new)
        (C.coming clock.old) (C.coming clock.new) (K.state link.old) (K.state link.new) C.observable K.observable
        store.old store.new result }
    ensures spent { is_spent store.new ≡ true → result ≡ Some disk_fault }
    ensures steps { Steps D.observable (D.state disk.old) (D.state disk.new) store.old store.new
        (is_spent store.new ≡ true) }
    ensures grows { (store.new.history ≡ store.old.history)
        ⊎ Grows (D.state disk.old) (D.state disk.new) store.old store.new }
    // The status line of the reply has a phrase.
    ensures status { IfSome result (λ reply. HasPhrase reply.status) }
    ensures read { RisesAtMost read_limit (K.state link.old).bytes_read (K.state link.new).bytes_read }
    ensures needed { K.observable → LastReadAfter IsUnsettled (K.state link.old) (K.state link.new) }
    ensures reads { Reads (K.state link.old) (K.state link.new) }
    ensures lost { result ≡ None → HasRisen (K.state link.old).faults (K.state link.new).faults }
    ensures unfailed { IsSome result → (K.state link.new).faults ≡ (K.state link.old).faults }
{
    // Its contract is a law that the proof uses.
    begun_images_are_whole();
    match read_request(alloc, link) {
        Ok(request) => {
            let now = clock.now();
            Some(answer_paged(alloc, service, store, disk, &request, now))
        }
        Err(fault) => fault.reply(),
    }
}

/// The line of a connection, as the store is when its reply was begun.
fn line_of(store: &Store, status: u16, whole: bool) -> Line
    ensures is { result ≡ record {
      status = status;
      version = length store.now.history;
      calls = call_count store.now;
      whole = whole;
    } }
    ensures logs { AreLogs store.now }
{
    Line {
        status,
        version: store.version(),
        calls: store.calls(),
        whole,
    }
}

impl From<LoadFault> for End {
    ghost use Rattle.std.specs.Prelude.{◌≡◌};
    ghost use Rattle.document_server.specs.declared.session.End.TheVariants.{Load};

    ghost from_gives = { λ fault end. end ≡ Load fault };

    fn from(fault: LoadFault) -> End {
        End::Load(fault)
    }
}

impl From<Failed> for End {
    ghost use Rattle.std.specs.Prelude.{◌≡◌};
    ghost use Rattle.document_server.specs.declared.session.End.TheVariants.{DoorFault};

    ghost from_gives = { λ _ end. end ≡ DoorFault };

    fn from(_error: Failed) -> End {
        End::DoorFault
    }
}
