ghost use Rattle.std.specs.Prelude.{◌≡◌, ◌≢◌, ◌⊎◌, ◌++◌, OnOk};
ghost use Rattle.atom_values.specs.Counts.{CountsFault, HasCause};
ghost use Rattle.command_ends.specs.declared.status.Status.TheVariants as status;
ghost use Rattle.command_ends.specs.Answer.{Prints};
ghost use Rattle.mirror_commands.specs.Printed.{printed_answer};
ghost use Rattle.command_ends.specs.Ends.{IsDone};
ghost use Rattle.command_ends.specs.Status.{code_of};

use atom_values::Failed;
use command_ends::Status;
use coverage_certificate::Certificate;
use doc_source::{Sink, write_all};

/// The output of a command with two defined ends at one of them, and its status.
#[derive(Drop)]
pub(crate) enum Printed {
    /// This text.
    Text { status: Status, text: Vec<u8> },
    /// The text of this certificate, with the status `Done`.
    Certificate(Certificate),
}

impl Printed {
    /// The status with which the command ends.
    fn status(&self) -> Status
        ensures { result ≡ (printed_answer self.now).status }
    {
        match self {
            Printed::Text { status, .. } => *status,
            Printed::Certificate(_) => Status::Done,
        }
    }

    /// Writes the text to the output.
    fn write<O: Sink>(&self, output: &mut O) -> Result<(), Failed>
        ensures prints { O.observable
            → Prints (O.state output.old) (O.state output.new) (printed_answer self.now).printed }
        ensures whole { OnOk result (O.observable → (O.state output.new).taken
            ≡ (O.state output.old).taken ++ (printed_answer self.now).printed) }
        ensures counts { HasCause (O.state output.old).faults (O.state output.new).faults result }
    {
        match self {
            Printed::Text { text, .. } => write_all(output, text.as_slice()),
            Printed::Certificate(certificate) => certificate.print(output),
        }
    }
}

/// Prints the output of a command at its defined end. A text takes one call of the output unless the output takes only
/// a part of it, and a certificate one call for each document and two more.
pub(crate) fn end_printed<O: Sink>(output: &mut O, printed: Printed) -> Status
    requires { IsDone (code_of (printed_answer printed).status) }
    ensures ends { (code_of result ≡ code_of (printed_answer printed).status)
        ⊎ (code_of result ≡ code_of status.OutputFault) }
    ensures prints { O.observable
        → Prints (O.state output.old) (O.state output.new) (printed_answer printed).printed }
    ensures whole { code_of result ≢ code_of status.OutputFault → O.observable
        → (O.state output.new).taken ≡ (O.state output.old).taken ++ (printed_answer printed).printed }
    ensures faults { CountsFault (O.state output.old).faults (O.state output.new).faults
        (code_of result ≡ code_of status.OutputFault) }
{
    let status = printed.status();
    let written = printed.write(output);
    drop(printed);
    match written {
        Ok(()) => status,
        Err(Failed) => Status::OutputFault,
    }
}
