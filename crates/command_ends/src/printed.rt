ghost use Rattle.std.specs.Prelude.{◌≡◌, ◌≢◌, ◌⊎◌, ◌++◌, OnOk};
ghost use Rattle.atom_values.specs.Counts.{CountsFault};
ghost use Rattle.command_ends.specs.Answer.{Prints};
ghost use Rattle.command_ends.specs.Ends.{IsDone};
ghost use Rattle.command_ends.specs.Status.{code_of};
ghost use Rattle.command_ends.specs.declared.status.Status.TheVariants as status;
ghost use Rattle.command_ends.specs.Printed.{address_line, printed_answer};

use crate::status::Status;
use atom_values::{Failed, NoMemory};
use doc_source::{Sink, write_all};

/// The text that a command prints at a defined end, and its status then.
#[derive(Drop)]
pub struct Printed {
    pub status: Status,
    pub text: Vec<u8>,
}

/// Prints the text, in one call of the output unless the output takes only a part of it. Returns the status of the
/// text, or `OutputFault` if a call failed.
pub fn end_printed<O: Sink>(output: &mut O, printed: Printed) -> Status
    requires { IsDone (code_of printed.status) }
    ensures ends { (code_of result ≡ code_of printed.status) ⊎ (code_of result ≡ code_of status.OutputFault) }
    ensures prints { O.observable
        → Prints (O.state output.old) (O.state output.new) (printed_answer printed).printed }
    ensures whole { code_of result ≢ code_of status.OutputFault → O.observable
        → (O.state output.new).taken ≡ (O.state output.old).taken ++ (printed_answer printed).printed }
    ensures faults { CountsFault (O.state output.old).faults (O.state output.new).faults
        (code_of result ≡ code_of status.OutputFault) }
{
    let written = write_all(output, printed.text.as_slice());
    match written {
        Ok(()) => printed.status,
        Err(Failed) => Status::OutputFault,
    }
}

/// Adds words and an address, as a line.
pub fn push_address(out: &mut Vec<u8>, words: &[u8], address: &[u8]) -> Result<(), NoMemory>
    ensures { OnOk result (out.new.items ≡ out.old.items ++ address_line words.now address.now) }
{
    out.extend_from_slice(words)?;
    out.extend_from_slice(address)?;
    out.extend_from_slice(b"\n")?;
    Ok(())
}
