ghost use Rattle.std.specs.Prelude.{◌≡◌, ◌≢◌, ◌≤◌, ◌++◌, OnOk};
ghost use Rattle.atom_values.specs.Counts.{CountsFault, HasCause};
ghost use Rattle.command_ends.specs.Ends.{CountsOutput};
ghost use Rattle.command_ends.specs.Status.{code_of};
ghost use Rattle.command_ends.specs.declared.status.Status.TheVariants as status;
ghost use Rattle.doc_source.specs.Outside.{TakesPrefix};
ghost use Rattle.document_server.specs.Session.{connection_limit};
ghost use Rattle.feed_disk.specs.Moments.{LeavesAlone};
ghost use Rattle.feed_disk.specs.declared.area.Area.{Area as AreaValue};
ghost use Rattle.feed_disk.specs.declared.area.Area.TheVariants.{Mirror as MirrorArea};
ghost use Rattle.feed_journal.specs.Limits.{area_limit};
ghost use Rattle.relay_command.specs.Relay.{EndsRelaying, MayEndRelaying, end_answer, session_status, session_text};

use crate::session::{End, Served, Session, serve};
use atom_values::Failed;
use chain_links::Base;
use command_ends::{BadStore, Fault, Status, connection_line, other_base_line};
use doc_source::{Sink, write_all};
use document_server::Door;
use feed_disk::{Area, Disk};
use mirror_walk::MirrorFault;
use std::alloc::Global;

/// Serves the documents that the mirror of the feed below a base address holds, at the address `listen`, at most
/// `requests` connections. Then prints a line for each: the status of its reply and the version of the feed. If the
/// session ended by a fault, the fault's line comes after the others.
///
/// The mirror holds the same afterwards. `capacity` is the greatest size of its area, to which a relay adds nothing.
pub fn relay<D: Disk, L: Door, O: Sink>(
    alloc: Global,
    base: &Base,
    listen: &[u8],
    requests: u32,
    capacity: u64,
    disk: &mut D,
    door: &mut L,
    output: &mut O,
) -> Status
    requires some { 1 ≤ requests }
    requires few { requests ≤ connection_limit }
    requires capacity { capacity ≤ area_limit }
    ensures ends { EndsRelaying base.now requests (D.state disk.old) (D.state disk.new) (L.state door.old)
        (L.state door.new) D.observable L.observable O.observable (O.state output.old) (O.state output.new)
        (code_of result) }
    ensures address { L.only_at door.old listen.now → L.only_at door.new listen.now }
    ensures others { (a : AreaValue) → a ≢ MirrorArea → LeavesAlone (D.state disk.old) (D.state disk.new) a }
    ensures statuses { MayEndRelaying (code_of result) }
    ensures disk_faults { CountsFault (D.state disk.old).faults (D.state disk.new).faults
        (code_of result ≡ code_of status.DiskFault) }
    ensures door_faults { CountsFault (L.state door.old).faults (L.state door.new).faults
        (code_of result ≡ code_of status.DoorFault) }
    ensures output_faults { CountsOutput (O.state output.old).faults (O.state output.new).faults (code_of result) }
{
    let session = serve(alloc, base, capacity, disk, door, listen, requests);
    let printed = session.print(output);
    let status = session.end.status(printed);
    drop(session);
    status
}

impl Session {
    /// Prints the lines of the connections, and that of the end if it isn't the defined end.
    fn print<O: Sink>(&self, output: &mut O) -> Result<(), Failed>
        ensures prefix { O.observable → TakesPrefix (O.state output.old) (O.state output.new)
            (session_text self.now.lines.items self.now.end) }
        ensures whole { OnOk result (O.observable → (O.state output.new).taken
            ≡ (O.state output.old).taken ++ session_text self.now.lines.items self.now.end) }
        ensures counts { HasCause (O.state output.old).faults (O.state output.new).faults result }
    {
        for line in self.lines.as_slice() {
            let text = connection_line(line.status, line.version);
            write_all(output, text.as_str().as_bytes())?;
        }
        self.end.print(output)
    }
}

impl End {
    /// The status with which the program ends. It is that of the end, whether or not the end's line could be printed.
    fn status(&self, printed: Result<(), Failed>) -> Status
        ensures { result ≡ session_status self.now printed }
    {
        match self {
            End::Done => match printed {
                Ok(()) => Status::Done,
                Err(Failed) => Status::OutputFault,
            },
            End::Load(MirrorFault::OtherBase { .. }) => Status::Refused,
            End::Load(MirrorFault::BadRecord { .. }) => Status::BadStore,
            End::DiskFault | End::Load(MirrorFault::DiskFault) => Status::DiskFault,
            End::NoMemory | End::Load(MirrorFault::NoMemory) => Status::NoMemory,
            End::DoorFault => Status::DoorFault,
        }
    }

    /// Prints the line of the end. The defined end has none.
    fn print<O: Sink>(&self, output: &mut O) -> Result<(), Failed>
        ensures prefix { O.observable
            → TakesPrefix (O.state output.old) (O.state output.new) (end_answer self.now).printed }
        ensures whole { OnOk result (O.observable → (O.state output.new).taken
            ≡ (O.state output.old).taken ++ (end_answer self.now).printed) }
        ensures counts { HasCause (O.state output.old).faults (O.state output.new).faults result }
    {
        match self {
            End::Done => Ok(()),
            End::Load(MirrorFault::OtherBase { kept }) => {
                write_all(output, other_base_line(kept).as_slice())
            }
            End::Load(MirrorFault::BadRecord { index, at }) => {
                let bad = BadStore::BadRecord {
                    area: Area::Mirror,
                    index: *index,
                    at: *at as u64,
                };
                write_all(output, Fault::BadStore(bad).line().as_str().as_bytes())
            }
            End::DiskFault | End::Load(MirrorFault::DiskFault) => {
                write_all(output, Fault::Disk.line().as_str().as_bytes())
            }
            End::NoMemory | End::Load(MirrorFault::NoMemory) => {
                write_all(output, Fault::NoMemory.line().as_str().as_bytes())
            }
            End::DoorFault => write_all(output, b"door fault\n"),
        }
    }
}
