ghost use Rattle.std.specs.Prelude.{◌≡◌, ◌⊎◌, Err, IfOk};
ghost use Rattle.atom_values.specs.Counts.{CountsFault, HasRisen};
ghost use Rattle.command_ends.specs.Answer.{Answer, Prints};
ghost use Rattle.command_ends.specs.Ends.{CountsOutput, EndsAs, IsAlone, IsAnswered, IsDone, alone_line};
ghost use Rattle.command_ends.specs.Status.{code_of};
ghost use Rattle.command_ends.specs.declared.status.Status.TheVariants as status;
ghost use Rattle.foreign_mirror.specs.Walk.{IsStart};
ghost use Rattle.command_ends.specs.Printed.{printed_answer};
ghost use Rattle.foreign_command.specs.Answer.{IsForeignAnswer};
ghost use Rattle.foreign_command.specs.Ends.{EndsForeign, GoesWalk, MayEndForeign, status_of_fault};

use crate::laws::foreign_has_one_answer;
use crate::lines::printed_of;
use command_ends::{Fault, Printed, Status, end_printed, print_fault};
use doc_source::{Fetch, Sink, write_all};
use foreign_mirror::{ForeignFault, foreign_walk};
use own_chain::own_chains_are_read;
use std::alloc::Global;

/// Walks the archived feed of any server from its newest document on, and prints its live entries and the number of its
/// documents, or else the line of the address at which the chain broke off. `from` is the address of the newest
/// document, an `http` URL that the parser of the URL Standard leaves as it is.
///
/// It uses no disk. All that is printed is in memory before the first byte is.
pub fn foreign<F: Fetch, O: Sink>(
    alloc: Global,
    from: &[u8],
    fetch: &mut F,
    output: &mut O,
) -> Status
    requires { IsStart from.now }
    ensures statuses { MayEndForeign (code_of result) }
    ensures answered { F.observable → IsAnswered (code_of result)
        → EndsAs (IsForeignAnswer (F.state fetch.old).answers from.now) O.observable
        (O.state output.old) (O.state output.new) (code_of result) }
    ensures alone { O.observable → IsAlone (code_of result)
        → Prints (O.state output.old) (O.state output.new) (alone_line (code_of result)) }
    ensures fetch_faults { CountsFault (F.state fetch.old).faults (F.state fetch.new).faults
        (code_of result ≡ code_of status.FetchFault) }
    ensures output_faults { CountsOutput (O.state output.old).faults (O.state output.new).faults (code_of result) }
    ensures complete { F.observable → (given : Answer)
        → IsForeignAnswer (F.state fetch.old).answers from.now given
        → ¬ HasRisen (F.state fetch.old).faults (F.state fetch.new).faults
        → ¬ HasRisen (O.state output.old).faults (O.state output.new).faults
        → (code_of result ≡ code_of given.status) ⊎ (code_of result ≡ code_of status.NoMemory) }
    ensures walks { F.observable → EndsForeign from.now (F.state fetch.old) (F.state fetch.new) O.observable
        (O.state output.old) (O.state output.new) (code_of result) }
{
    // Their contracts are laws that the proof uses.
    foreign_has_one_answer();
    own_chains_are_read();
    match walked(alloc, from, fetch) {
        Ok(printed) => end_printed(output, printed),
        Err(fault) => print_walk_fault(output, fault),
    }
}

/// Walks the feed, and returns what is printed.
fn walked<F: Fetch>(alloc: Global, from: &[u8], fetch: &mut F) -> Result<Printed, ForeignFault>
    requires { IsStart from.now }
    ensures given { IfOk result (λ printed. F.observable
        → IsForeignAnswer (F.state fetch.old).answers from.now (printed_answer printed)) }
    ensures ends { IfOk result (λ printed. IsDone (code_of (printed_answer printed).status)) }
    ensures faults { CountsFault (F.state fetch.old).faults (F.state fetch.new).faults
        (result ≡ Err ForeignFault.FetchFault) }
    ensures goes { F.observable → GoesWalk (F.state fetch.old) (F.state fetch.new) from.now result }
{
    let found = foreign_walk(alloc, fetch, from)?;
    let printed = printed_of(alloc, &found);
    drop(found);
    Ok(printed?)
}

/// Prints the line of a walk that has no result, and returns the status, whether or not the line could be printed.
fn print_walk_fault<O: Sink>(output: &mut O, fault: ForeignFault) -> Status
    ensures status { code_of result ≡ code_of (status_of_fault fault) }
    ensures prints { O.observable → Prints (O.state output.old) (O.state output.new) (alone_line (code_of result)) }
    ensures faults { CountsOutput (O.state output.old).faults (O.state output.new).faults (code_of result) }
{
    match fault {
        ForeignFault::FetchFault => {
            // The result isn't used: the status is that of the first fault.
            let _ = write_all(output, b"fetch fault\n");
            Status::FetchFault
        }
        ForeignFault::NoMemory => print_fault(output, Fault::NoMemory),
    }
}
