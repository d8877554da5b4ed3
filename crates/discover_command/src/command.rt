ghost use Rattle.std.specs.Prelude.{◌≡◌, ◌⊎◌, Err, IfOk, ℕ};
ghost use Rattle.atom_values.specs.Counts.{CountsFault, HasRisen};
ghost use Rattle.chain_links.specs.Checked.{IsUrlText};
ghost use Rattle.command_ends.specs.Answer.{Answer, Prints};
ghost use Rattle.command_ends.specs.Ends.{CountsOutput, EndsAs, IsAlone, IsAnswered, IsDone, alone_line};
ghost use Rattle.command_ends.specs.Printed.{printed_answer};
ghost use Rattle.command_ends.specs.Status.{code_of};
ghost use Rattle.command_ends.specs.declared.status.Status.TheVariants as status;
ghost use Rattle.discover_command.specs.Answer.{IsDiscoverAnswer};
ghost use Rattle.discover_command.specs.Ends.{AsksFor, EndsDiscover, MayEndDiscover, fault_end};
ghost use Rattle.discover_command.specs.Lines.{refused_answer};

use crate::fault::DiscoverFault;
use crate::laws::discover_has_one_answer;
use crate::lines::{missing, printed_of};
use command_ends::{Fault, Printed, Refusal, Status, end_printed, print_fault};
use doc_source::{Fetch, Sink, write_all};
use own_service::service_doc_is_read;
use service_reader::read_service;
use std::alloc::Global;

/// Reads the service document of any server, and prints its collections, each with whether it takes entries. `address`
/// is that of the document, an `http` URL that the parser of the URL Standard leaves as it is.
///
/// If the source has no document there, or none of its collections takes entries, one line says so.
///
/// It uses no disk. All that is printed is in memory before the first byte is.
pub fn discover<F: Fetch, O: Sink>(
    alloc: Global,
    address: &[u8],
    fetch: &mut F,
    output: &mut O,
) -> Status
    requires { IsUrlText address.now }
    ensures statuses { MayEndDiscover (code_of result) }
    ensures answered { F.observable → IsAnswered (code_of result)
        → EndsAs (IsDiscoverAnswer (F.state fetch.old).answers address.now) O.observable
        (O.state output.old) (O.state output.new) (code_of result) }
    ensures alone { O.observable → IsAlone (code_of result)
        → Prints (O.state output.old) (O.state output.new) (alone_line (code_of result)) }
    ensures fetch_faults { CountsFault (F.state fetch.old).faults (F.state fetch.new).faults
        (code_of result ≡ code_of status.FetchFault) }
    ensures output_faults { CountsOutput (O.state output.old).faults (O.state output.new).faults (code_of result) }
    ensures complete { F.observable → (given : Answer)
        → IsDiscoverAnswer (F.state fetch.old).answers address.now given
        → ¬ HasRisen (F.state fetch.old).faults (F.state fetch.new).faults
        → ¬ HasRisen (O.state output.old).faults (O.state output.new).faults
        → (code_of result ≡ code_of given.status) ⊎ (code_of result ≡ code_of status.NoMemory) }
    ensures asks { F.observable → EndsDiscover address.now (F.state fetch.old) (F.state fetch.new) O.observable
        (O.state output.old) (O.state output.new) (code_of result) }
{
    // Their contracts are laws that the proof uses.
    discover_has_one_answer();
    service_doc_is_read();
    match discovered(alloc, address, fetch) {
        Ok(printed) => end_printed(output, printed),
        Err(fault) => print_discover_fault(output, fault),
    }
}

/// Asks the source for the document and reads it, and returns what is printed.
fn discovered<F: Fetch>(
    alloc: Global,
    address: &[u8],
    fetch: &mut F,
) -> Result<Printed, DiscoverFault>
    ensures given { IfOk result (λ printed. F.observable
        → IsDiscoverAnswer (F.state fetch.old).answers address.now (printed_answer printed)) }
    ensures ends { IfOk result (λ printed. IsDone (code_of (printed_answer printed).status)) }
    ensures refused { (at : ℕ) → result ≡ Err (DiscoverFault.BadService at) → F.observable
        → IsDiscoverAnswer (F.state fetch.old).answers address.now (refused_answer at) }
    ensures faults { CountsFault (F.state fetch.old).faults (F.state fetch.new).faults
        (result ≡ Err DiscoverFault.FetchFault) }
    ensures asks { F.observable → AsksFor (F.state fetch.old) (F.state fetch.new) address.now
        (result ≡ Err DiscoverFault.NoMemory) }
{
    let Some(body) = fetch.get(alloc, address)? else {
        return Ok(missing(alloc, address)?);
    };
    let read = read_service(alloc, body.as_slice(), address);
    drop(body);
    let collections = read?;
    let printed = printed_of(alloc, collections.as_slice());
    drop(collections);
    Ok(printed?)
}

/// Prints the line of a document that has no defined end, and returns the status, whether or not the line could be
/// printed.
fn print_discover_fault<O: Sink>(output: &mut O, fault: DiscoverFault) -> Status
    ensures status { result ≡ (fault_end fault).status }
    ensures prints { O.observable → Prints (O.state output.old) (O.state output.new) (fault_end fault).printed }
    ensures faults { CountsOutput (O.state output.old).faults (O.state output.new).faults (code_of result) }
{
    match fault {
        DiscoverFault::FetchFault => {
            // The result isn't used: the status is that of the first fault.
            let _ = write_all(output, b"fetch fault\n");
            Status::FetchFault
        }
        DiscoverFault::BadService { at } => {
            print_fault(
                output,
                Fault::Refused(Refusal::BadService { at: at as u64 }),
            )
        }
        DiscoverFault::NoMemory => print_fault(output, Fault::NoMemory),
    }
}
