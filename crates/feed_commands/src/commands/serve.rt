ghost use Rattle.std.specs.Prelude.{◌≡◌, ◌⊎◌, ◌≤◌, ◌++◌, OnOk, None};
ghost use Rattle.atom_values.specs.Counts.{CountsFault, HasCause};
ghost use Rattle.feed_disk.specs.Moments.{LeavesAlone};
ghost use Rattle.feed_disk.specs.declared.area.Area.TheVariants.{Mirror};
ghost use Rattle.doc_source.specs.Outside.{TakesPrefix};
ghost use Rattle.document_server.specs.Session.{connection_limit};
ghost use Rattle.command_ends.specs.declared.status.Status.TheVariants as status;
ghost use Rattle.command_ends.specs.Ends.{CountsOutput};
ghost use Rattle.feed_commands.specs.Serve.{EndsServing, end_fault, session_answer};
ghost use Rattle.feed_commands.specs.Serve.{session_line, session_status, session_text};
ghost use Rattle.command_ends.specs.Status.{code_of};

use crate::dispatch::Ended;
use atom_values::Failed;
use command_ends::{Fault, FaultLine, Status, connection_line, line_of};
use doc_source::{Sink, write_all};
use document_server::{Clock, Door, End, Line};
use feed_disk::Disk;
use std::alloc::Global;

/// Why a session ended before its defined end.
#[derive(Clone, Copy)]
pub enum SessionFault {
    /// A call on the door failed.
    Door,
    /// The store or the memory ended it.
    Other(Fault),
}

impl SessionFault {
    /// The fault of a session's end. `None` if it came to its defined end.
    fn of(end: End) -> Option<SessionFault>
        ensures { result ≡ end_fault end }
    {
        match end {
            End::Done => None,
            End::Load(fault) => Some(SessionFault::Other(Fault::from(fault))),
            End::DiskFault => Some(SessionFault::Other(Fault::Disk)),
            End::DoorFault => Some(SessionFault::Door),
            End::NoMemory => Some(SessionFault::Other(Fault::NoMemory)),
        }
    }

    /// The status with which the program ends.
    fn status(self) -> Status
        ensures { result ≡ (session_answer self).status }
    {
        match self {
            SessionFault::Door => Status::DoorFault,
            SessionFault::Other(fault) => fault.status(),
        }
    }

    /// The line that is printed, with its LF.
    fn line(self) -> FaultLine
        ensures { result.bytes ≡ (session_answer self).printed }
    {
        match self {
            SessionFault::Door => line_of("door fault\n"),
            SessionFault::Other(fault) => fault.line(),
        }
    }
}

/// Serves the feed at the address `listen`, at most `requests` connections, and then prints a line for each. If
/// `service`, it also serves the service document and the listing of members. If the session ended by a fault, the
/// fault's line comes after the others.
pub fn serve<D: Disk, C: Clock, L: Door, O: Sink>(
    alloc: Global,
    listen: &[u8],
    requests: u32,
    service: bool,
    disk: &mut D,
    clock: &mut C,
    door: &mut L,
    output: &mut O,
) -> Ended
    requires some { 1 ≤ requests }
    requires few { requests ≤ connection_limit }
    ensures serves { EndsServing service requests (D.state disk.old) (D.state disk.new) (C.coming clock.old)
        (L.state door.old) (L.state door.new) D.observable C.observable L.observable O.observable
        (O.state output.old) (O.state output.new) result.lines.items result.status }
    ensures address { L.only_at door.old listen.now → L.only_at door.new listen.now }
    ensures statuses { (result.status ≡ code_of status.Done) ⊎ (result.status ≡ code_of status.DiskFault)
        ⊎ (result.status ≡ code_of status.NoMemory) ⊎ (result.status ≡ code_of status.BadStore)
        ⊎ (result.status ≡ code_of status.DoorFault) ⊎ (result.status ≡ code_of status.OutputFault) }
    ensures disk_faults { CountsFault (D.state disk.old).faults (D.state disk.new).faults
        (result.status ≡ code_of status.DiskFault) }
    ensures door_faults { CountsFault (L.state door.old).faults (L.state door.new).faults
        (result.status ≡ code_of status.DoorFault) }
    ensures output_faults { CountsOutput (O.state output.old).faults (O.state output.new).faults result.status }
    ensures mirror { LeavesAlone (D.state disk.old) (D.state disk.new) Mirror }
    ensures life { result.life ≡ None }
{
    let session = document_server::serve(alloc, disk, clock, door, listen, requests, service);
    let fault = SessionFault::of(session.end);
    let printed = print_session(output, session.lines.as_slice(), fault);
    Ended {
        status: status_of(fault, printed).code(),
        lines: session.lines,
        life: None,
    }
}

/// The status after a session. It is that of the first fault, whether or not the fault's line could be printed.
fn status_of(fault: Option<SessionFault>, printed: Result<(), Failed>) -> Status
    ensures { result ≡ session_status fault printed }
{
    match fault {
        Some(fault) => fault.status(),
        None => match printed {
            Ok(()) => Status::Done,
            Err(Failed) => Status::OutputFault,
        },
    }
}

/// Prints the lines of a session, and that of its fault.
fn print_session<O: Sink>(
    output: &mut O,
    lines: &[Line],
    fault: Option<SessionFault>,
) -> Result<(), Failed>
    ensures prefix { O.observable
        → TakesPrefix (O.state output.old) (O.state output.new) (session_text lines.now fault) }
    ensures whole { OnOk result (O.observable
        → (O.state output.new).taken ≡ (O.state output.old).taken ++ session_text lines.now fault) }
    ensures counts { HasCause (O.state output.old).faults (O.state output.new).faults result }
{
    for line in lines {
        write_all(output, line_of_session(line).as_str().as_bytes())?;
    }
    match fault {
        Some(fault) => write_all(output, fault.line().as_str().as_bytes()),
        None => Ok(()),
    }
}

/// The line of a connection.
fn line_of_session(line: &Line) -> FaultLine
    ensures { result.bytes ≡ session_line line.now }
{
    connection_line(line.status, line.version)
}
