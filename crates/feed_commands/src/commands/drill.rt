ghost use Rattle.std.specs.Prelude.{◌≡◌, ◌≢◌, ◌⊎◌, ◌++◌, [], IfOk, None, Some};
ghost use Rattle.atom_values.specs.Counts.{CountsFault, HasRisen};
ghost use Rattle.command_ends.specs.declared.status.Status.TheVariants as status;
ghost use Rattle.command_ends.specs.Answer.{Prints};
ghost use Rattle.feed_commands.specs.Drill.{EndsDrilling, MayEndDrill, drill_head, drill_text};
ghost use Rattle.feed_commands.specs.Outside.{Outside};
ghost use Rattle.feed_commands.specs.Run.{EndsWith};
ghost use Rattle.command_ends.specs.Ends.{CountsOutput, IsAlone, IsAnswered, alone_line};
ghost use Rattle.command_ends.specs.Status.{code_of};
ghost use Rattle.feed_drill.specs.Drilled.{IsDrilled};
ghost use Rattle.tool_words.specs.declared.command.Command.TheVariants.{Drill as DrillOf};

use crate::dispatch::Ended;
use atom_values::{Failed, Many, NoMemory};
use command_ends::{Fault, Status, print_fault};
use doc_source::{Sink, write_all};
use feed_life::Life;
use std::alloc::Global;
use store_commands::apply::test_head;

/// How many operations a window of a drill's feed has.
const DRILL_WINDOW: u32 = 16;

/// Runs a drill of `count` turns on disks in memory, and prints the summary of its life, which it returns.
pub fn drill<O: Sink>(alloc: Global, seed: u64, count: u32, output: &mut O) -> Ended
    ensures lines { result.lines.items ≡ [] }
    ensures statuses { MayEndDrill result.status }
    ensures drills { EndsDrilling seed count result.life result.status }
    ensures answered { IsAnswered result.status → (outside : Outside)
        → EndsWith (DrillOf seed count) outside O.observable (O.state output.old) (O.state output.new)
        result.status }
    ensures alone { O.observable → IsAlone result.status
        → Prints (O.state output.old) (O.state output.new) (alone_line result.status) }
    ensures output_faults { CountsOutput (O.state output.old).faults (O.state output.new).faults result.status }
    ensures complete { ¬ HasRisen (O.state output.old).faults (O.state output.new).faults
        → (result.status ≡ code_of status.Done) ⊎ (result.status ≡ code_of status.NoMemory) }
{
    match drilled(alloc, seed, count) {
        Ok((life, text)) => end_drilled(alloc, output, life, text.as_slice()),
        Err(NoMemory) => Ended::with_status(alloc, print_fault(output, Fault::NoMemory)),
    }
}

/// The life of a drill, and the text of its summary.
fn drilled(alloc: Global, seed: u64, count: u32) -> Result<(Life, Vec<u8>), NoMemory>
    ensures life { IfOk result (λ x. IsDrilled drill_head seed count x.0) }
    ensures text { IfOk result (λ x. x.1.items ≡ drill_text seed count) }
{
    let head = test_head(alloc, DRILL_WINDOW)?;
    let drill = feed_drill::drill(alloc, &head, seed, count);
    drop(head);
    let drill = drill?;
    match drill.summary.print(alloc) {
        Ok(text) => Ok((drill.life, text)),
        Err(NoMemory) => {
            drop(drill);
            Err(NoMemory)
        }
    }
}

/// Prints the summary of a drill.
fn end_drilled<O: Sink>(alloc: Global, output: &mut O, life: Life, text: &[u8]) -> Ended
    ensures lines { result.lines.items ≡ [] }
    ensures ends { ((result.status ≡ code_of status.Done) × (result.life ≡ Some life))
        ⊎ ((result.status ≡ code_of status.OutputFault) × (result.life ≡ None)) }
    ensures prints { O.observable → Prints (O.state output.old) (O.state output.new) text.now }
    ensures whole { result.status ≢ code_of status.OutputFault → O.observable
        → (O.state output.new).taken ≡ (O.state output.old).taken ++ text.now }
    ensures output_faults { CountsFault (O.state output.old).faults (O.state output.new).faults
        (result.status ≡ code_of status.OutputFault) }
{
    match write_all(output, text) {
        Ok(()) => Ended {
            status: Status::Done.code(),
            lines: Many::new(alloc),
            life: Some(life),
        },
        Err(Failed) => {
            drop(life);
            Ended::with_status(alloc, Status::OutputFault)
        }
    }
}
