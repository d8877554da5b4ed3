ghost use Rattle.std.specs.Prelude.{◌≡◌, ◌≢◌, ℕ, ◌≤◌, ◌<◌, ◌+◌, ◌∷◌, [], ◌++◌, List, Some, None, Ok, Err, IfOk, IfErr, OnOk};
ghost use Rattle.atom_values.specs.Counts.{CountsFault};
ghost use Rattle.member_rules.specs.declared.operation.Op.{Op};
ghost use Rattle.archive_sealer.specs.Window.{IsOfFeed};
ghost use Rattle.member_rules.specs.Head.{window_limit};
ghost use Rattle.member_rules.specs.History.{IsLawful, MayFollow, history_limit};
ghost use Rattle.member_rules.specs.Table.{IsTableOf};
ghost use Rattle.command_ends.specs.declared.status.Status.TheVariants as status;
ghost use Rattle.store_commands.specs.Applied.{IsUnrefused};
ghost use Rattle.store_commands.specs.Apply.{applied_history, asked, answer, history_step, test_head};
ghost use Rattle.command_ends.specs.Fault.{fault_answer, IsRefusal};
ghost use Rattle.store_commands.specs.Line.{line_ask};
ghost use Rattle.store_commands.specs.Lines.{input_limit};
ghost use Rattle.feed_disk.specs.Raised.{RisesAtMost};

use crate::line::line_ask;
use crate::lines::{Lines, LinesFault};
use archive_sealer::Window;
use atom_values::{AtomText, Copies, NoMemory, Stamp};
use atom_writer::{FeedName, write_doc};
use chain_links::Base;
use command_ends::{Fault, Refusal};
use deleted_entries::FeedId;
use doc_source::Source;
use document_server::Clock;
use member_rules::{Head, Members, NEWEST_FORMAT, Op, decide};
use std::alloc::Global;

impl From<LinesFault> for Fault {
    ghost use Rattle.std.specs.Prelude.{◌≡◌};
    ghost use Rattle.store_commands.specs.Apply.{lines_fault};

    ghost from_gives = { λ fault e. e ≡ lines_fault fault };

    fn from(fault: LinesFault) -> Fault {
        match fault {
            LinesFault::TooLong => Fault::Refused(Refusal::TooLong),
            LinesFault::Input => Fault::Input,
            LinesFault::NoMemory => Fault::NoMemory,
        }
    }
}

/// The head of the feed that `apply W` and `drill` make in memory. It is fixed but for the window, which is the number
/// of operations that each archive has.
///
/// `NoMemory` if memory runs out.
pub fn test_head(alloc: Global, window: u32) -> Result<Head, NoMemory>
    requires { (1 ≤ window) × (window ≤ window_limit) }
    ensures { IfOk result (λ head. head ≡ test_head window) }
{
    let Ok(base) = Base::parse(alloc, b"http://feed.example/") else {
        return Err(NoMemory);
    };
    let Some(id) = FeedId::parse(b"6d1f0c5a-93be-4c27-8d10-2b7f9e4a5c36") else {
        // The text is an identifier of version 4.
        unreachable!();
    };
    let Ok(title) = AtomText::of(alloc, b"Feed") else {
        return Err(NoMemory);
    };
    let Ok(author) = AtomText::of(alloc, b"Editor") else {
        return Err(NoMemory);
    };
    let name = FeedName {
        base,
        id,
        title,
        author,
    };
    // 0 is the moment of a stamp.
    let created = Stamp::new(0).unwrap();
    Ok(Head {
        format: NEWEST_FORMAT,
        name,
        window,
        capacity: CAPACITY,
        created,
    })
}

/// The capacity of that head, in bytes. `apply W` has no store, so nothing is held against it.
const CAPACITY: u64 = 1_073_741_824;

/// Returns the window that the lines of the input make from the empty one. Each line takes one moment of the clock.
///
/// Its memory follows the members and not the lines: a slot for each member, the items of one window, and a fixed
/// buffer.
pub fn window_of<C: Clock, I: Source>(
    alloc: Global,
    head: &Head,
    clock: &mut C,
    input: &mut I,
) -> Result<Window, Fault>
    ensures history { IfOk result (λ window. I.observable → C.observable
        → applied_history head.now (C.coming clock.old) (I.state input.old).left
        ≡ record { feed = window.history; fault = None }) }
    ensures lawful { IfOk result (λ window. IsLawful head.now window.history) }
    ensures feed { IfOk result (λ window. IsOfFeed window head.now) }
    ensures refused { IfErr result (λ fault. IsRefusal fault → I.observable → C.observable
        → (applied_history head.now (C.coming clock.old) (I.state input.old).left).fault ≡ Some fault) }
    ensures input_faults { CountsFault (I.state input.old).faults (I.state input.new).faults
        (result ≡ Err Fault.Input) }
    ensures unrefused { result ≡ Err Fault.Input → I.observable → C.observable
        → IsUnrefused (history_step head.now (C.coming clock.old)) [] (I.state input.old)
        (I.state input.new) }
    ensures read { RisesAtMost (input_limit + 1) (I.state input.old).bytes_read (I.state input.new).bytes_read }
    ensures no_disk { result ≢ Err Fault.Disk }
{
    let mut lines = Lines::new(alloc)?;
    let mut members = Members::new(alloc, head.created);
    let title = head.name.title.copy(alloc)?;
    let mut window = Window::new(alloc, head.window, title)?;
    while lines.next(input)? {
        members.prepare()?;
        window.prepare()?;
        let number = window.operations() as u64 + 1;
        let operation = operation_of(alloc, head, &members, number, clock, lines.line())?;
        members.commit(&operation);
        window.commit(operation);
    }
    Ok(window)
}

/// Returns the operation that a line asks for, at the next moment of the clock. `members` is the table of the
/// operations so far. `line` may be the prefix that `Lines` keeps of a longer line.
fn operation_of<C: Clock>(
    alloc: Global,
    head: &Head,
    members: &Members,
    number: u64,
    clock: &mut C,
    line: &[u8],
) -> Result<Op, Fault>
    requires { members.now.operations < history_limit }
    ensures operation { IfOk result (λ operation. C.observable → (history : List Op)
        → IsTableOf members.now head.now.created history
        → asked head.now history number (C.coming clock.old 0) (line_ask line.now) ≡ Ok operation) }
    ensures refused { IfErr result (λ fault. IsRefusal fault → C.observable → (history : List Op)
        → IsTableOf members.now head.now.created history
        → asked head.now history number (C.coming clock.old 0) (line_ask line.now) ≡ Err fault) }
    ensures only_errors { result ≢ Err Fault.Input }
    ensures no_disk { result ≢ Err Fault.Disk }
    ensures follows { IfOk result (λ operation. (history : List Op)
        → IsTableOf members.now head.now.created history
        → MayFollow head.now.created history operation) }
    ensures lawful { IfOk result (λ operation. (history : List Op)
        → IsTableOf members.now head.now.created history
        → IsLawful head.now history → IsLawful head.now (history ++ operation ∷ [])) }
    ensures moment { OnOk result (C.observable → (k : ℕ) → C.coming clock.new k ≡ C.coming clock.old (k + 1)) }
{
    let Some(ask) = line_ask(alloc, line)? else {
        return Err(Fault::Refused(Refusal::BadLine { line: number }));
    };
    match decide(members, &head.name, ask, clock.now()) {
        Ok(operation) => Ok(operation),
        Err(fault) => Err(Fault::of_rule(number, fault)),
    }
}

/// `apply W`: applies the lines of the input to an empty feed in windows of `window` operations, and returns the text
/// of its subscription document (RFC 5005 section 3). Each line takes one moment of the clock. Its memory follows the
/// members and not the lines.
///
/// Errors: `Refused` with the first line that can't be applied, or if the input has more than 1,073,741,824 bytes;
/// `Input` if a call on the input failed; `NoMemory`.
pub fn apply<C: Clock, I: Source>(
    alloc: Global,
    window: u32,
    clock: &mut C,
    input: &mut I,
) -> Result<Vec<u8>, Fault>
    requires { (1 ≤ window) × (window ≤ window_limit) }
    ensures answer { IfOk result (λ written. I.observable → C.observable
        → answer (test_head window) (C.coming clock.old) (I.state input.old).left
        ≡ record { status = status.Done; printed = written.items }) }
    ensures refused { IfErr result (λ fault. IsRefusal fault → I.observable → C.observable
        → answer (test_head window) (C.coming clock.old) (I.state input.old).left ≡ fault_answer fault) }
    ensures input_faults { CountsFault (I.state input.old).faults (I.state input.new).faults
        (result ≡ Err Fault.Input) }
    ensures unrefused { result ≡ Err Fault.Input → I.observable → C.observable
        → IsUnrefused (history_step (test_head window) (C.coming clock.old)) [] (I.state input.old)
        (I.state input.new) }
    ensures read { RisesAtMost (input_limit + 1) (I.state input.old).bytes_read (I.state input.new).bytes_read }
    ensures no_disk { result ≢ Err Fault.Disk }
{
    let head = test_head(alloc, window)?;
    match window_of(alloc, &head, clock, input) {
        Ok(window) => {
            let doc = window.subscription(&head);
            drop(window);
            drop(head);
            let doc = doc?;
            let text = write_doc(alloc, &doc);
            drop(doc);
            Ok(text?)
        }
        Err(fault) => {
            drop(head);
            Err(fault)
        }
    }
}
