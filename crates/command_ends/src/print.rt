ghost use Rattle.std.specs.Prelude.{◌≡◌, ◌≤◌};
ghost use Rattle.command_ends.specs.Answer.{Prints};
ghost use Rattle.command_ends.specs.Fault.{fault_answer};

use crate::fault::Fault;
use crate::status::Status;
use doc_source::{Sink, write_all};

/// Prints the line of a fault, in one call of the output unless the output takes only a part of it. Returns the fault's
/// status, whether or not the line could be printed.
pub fn print_fault<O: Sink>(output: &mut O, fault: Fault) -> Status
    ensures status { result ≡ (fault_answer fault).status }
    ensures prints { O.observable → Prints (O.state output.old) (O.state output.new) (fault_answer fault).printed }
    ensures faults { (O.state output.old).faults ≤ (O.state output.new).faults }
{
    // The result isn't used: the status is that of the first fault.
    let _ = write_all(output, fault.line().as_str().as_bytes());
    fault.status()
}
