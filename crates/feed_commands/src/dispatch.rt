ghost use Rattle.std.specs.Prelude.{◌≡◌, ◌≢◌, ◌⊎◌, ℕ, List, [], Bool, None, Err, map, string_bytes, true, false, IfOk, IfErr, IsOk};
ghost use Rattle.atom_values.specs.Counts.{CountsFault};
ghost use Rattle.atom_writer.specs.declared.doc.FeedName.{FeedName};
ghost use Rattle.feed_disk.specs.Moments.{LeavesAlone};
ghost use Rattle.feed_disk.specs.Raised.{RisesAtMost};
ghost use Rattle.feed_disk.specs.declared.area.Area.{Area as AreaValue};
ghost use Rattle.feed_disk.specs.declared.area.Area.TheVariants.{Mirror};
ghost use Rattle.command_ends.specs.declared.status.Status.TheVariants as status;
ghost use Rattle.command_ends.specs.Answer.{Answer, Prints};
ghost use Rattle.doc_source.specs.Fetch.{FetchState};
ghost use Rattle.feed_recovery.specs.Settled.{KeepsPayloads};
ghost use Rattle.store_commands.specs.Crash.{AddsNoOperation, AddsNothing, EndsAfterLoad, EndsApplying};
ghost use Rattle.store_commands.specs.Crash.{MakesStoreAt};
ghost use Rattle.command_ends.specs.Fault.{fault_answer, HasAnswer, IsRefusal};
ghost use Rattle.feed_commands.specs.Run.{HasRange, IsDueAnswer, IsGiven, IsSeen, IsUnrefusedBy};
ghost use Rattle.command_ends.specs.Ends.{IsStatus, IsAnswered};
ghost use Rattle.feed_commands.specs.Outside.{outside_of};
ghost use Rattle.feed_commands.specs.Run.{CountsFaults, EndsWith, IsAtOnce, IsBare, IsComplete, IsSeenUnfetched};
ghost use Rattle.feed_commands.specs.Run.{IsTextual, IsUsageOf, LeavesUnused, PrintsAtOnce, ReadsInput};
ghost use Rattle.feed_commands.specs.Run.{UsesClock, UsesDisk, UsesNoMirror, read_limit};
ghost use Rattle.command_ends.specs.Ends.{IsAlone, alone_line};
ghost use Rattle.feed_commands.specs.Ran.{EndsOf};
ghost use Rattle.command_ends.specs.Status.{code_of};
ghost use Rattle.tool_words.specs.Words.{IsCommandOf};
ghost use Rattle.tool_words.specs.declared.command.Command.{Command as CommandValue};
ghost use Rattle.scrub_command.specs.Answer.{EndsRepairing, EndsWithStatus};
ghost use Rattle.tool_words.specs.declared.command.Command.TheVariants.{Init, Apply, Scrub};

use crate::commands::drill::drill;
use crate::commands::pile::show_pile;
use crate::commands::serve::serve;
use atom_values::{Failed, Many};
use command_ends::{Fault, Status, print_fault};
use discover_command::discover;
use doc_source::{Fetch, Sink, Source, write_all};
use document_server::{Clock, Door, Line, MAX_CONNECTIONS};
use feed_disk::Disk;
use feed_life::Life;
use foreign_command::foreign;
use mirror_commands::{audit, mirror, mirror_fetched};
use relay_command::relay;
use scrub_command::{repair, scrub};
use std::alloc::Global;
use store_commands::apply::apply;
use store_commands::init::init;
use store_commands::show::show;
use store_commands::store;
use tool_words::{Command, Show, WordsFault, read_words};

/// How the program ends.
#[derive(Debug, Drop)]
pub struct Ended {
    /// The exit status: the code of a `Status`.
    pub status: u8,
    /// The connections that `serve` served, in order. Empty for each other command.
    pub lines: Many<Line, MAX_CONNECTIONS>,
    /// The life that a `drill` ran, if its summary was printed. `None` for each other command.
    pub life: Option<Life>,
}

impl Ended {
    /// The end of a command that served nothing and ran no life.
    pub(crate) fn with_status(alloc: Global, status: Status) -> Ended
        ensures status { result.status ≡ code_of status }
        ensures alone { (result.lines.items ≡ []) × (result.life ≡ None) }
    {
        Ended {
            status: status.code(),
            lines: Many::new(alloc),
            life: None,
        }
    }
}

/// Runs the command that the words name, and returns the exit status, which docs/FORMATS.md lists with what is
/// printed.
///
/// - `init` makes a store on the disk.
/// - `apply` applies the lines of the input to the store, each with one moment of the clock, and prints the
///   subscription document. `apply W` applies them to an empty history, and uses no store.
/// - `show` reads the input as one document and prints its summary. `show feed`, `show archive J` and `show member N`
///   print a document of the store, and `show pile` the subscription document and all archives as a pile.
/// - `serve` serves the feed of the store at an address, one connection after the other, and then prints a line for
///   each. With `--service` it also serves the service document and the listing of members.
/// - `mirror` mirrors the feed below a base address into the mirror's area of the disk, and prints a certificate of
///   what it holds, or the address of the first missing document. With `--report` it prints a report instead, which has
///   a line for each refused document and each live entry. The documents come from the pile that is the input, or from
///   the source with `--fetch`.
/// - `audit` reads a certificate and a pile from the input, and prints whether the documents of the pile cover the
///   certificate.
/// - `drill` runs a store and a mirror with generated requests, crashes and gifts on disks in memory, and prints a
///   summary of their life.
/// - `foreign` walks the archived feed of any server and prints its live entries, or the line of the address at which its
///   chain breaks off.
/// - `discover` reads the service document of any server and prints its collections, each with whether it takes entries.
/// - `relay` serves the documents that the mirror's area holds at an address, one connection after the other, and then
///   prints a line for each.
/// - `scrub` says whether the store is sound, or names the first record or archive that isn't. `scrub --repair` makes
///   the archives again from the journal.
///
/// At any other end the line of that end is printed. A failure to print that line changes no status.
pub fn run<D: Disk, C: Clock, L: Door, F: Fetch, I: Source, O: Sink>(
    alloc: Global,
    words: &[String],
    disk: &mut D,
    clock: &mut C,
    door: &mut L,
    fetch: &mut F,
    input: &mut I,
    output: &mut O,
) -> Ended
    // The exit statuses, and the words that name no command.
    ensures statuses { IsStatus result.status }
    ensures words { IsUsageOf (map string_bytes words.now) result.status }

    // If contracts can see all that the command's answer depends on: status and output are those of the answer.
    ensures answered { (command : CommandValue) → IsCommandOf (map string_bytes words.now) command
        → IsSeen command D.observable C.observable I.observable F.observable → IsAnswered result.status
        → EndsWith command
        (outside_of (C.coming clock.old) (I.state input.old) (D.state disk.old) (F.state fetch.old)) O.observable
        (O.state output.old) (O.state output.new) result.status }

    // The other ends print their line, which says nothing of the input and of the store.
    ensures alone { O.observable → PrintsAtOnce (map string_bytes words.now) → IsAlone result.status
        → Prints (O.state output.old) (O.state output.new) (alone_line result.status) }

    // A fault comes only if the object's count of faults rose, and nothing that was read before it is refused. The input
    // is read up to the command's limit, and one byte past it.
    ensures faults { CountsFaults (map string_bytes words.now) (D.state disk.old) (D.state disk.new)
        (L.state door.old) (L.state door.new) (F.state fetch.old) (F.state fetch.new)
        (I.state input.old) (I.state input.new) (O.state output.old) (O.state output.new) result.status }
    ensures first_fault { (command : CommandValue) → IsCommandOf (map string_bytes words.now) command
        → IsSeen command D.observable C.observable I.observable F.observable → result.status ≡ code_of status.InputFault
        → IsUnrefusedBy command (C.coming clock.old) (D.state disk.old).content
        (I.state input.old) (I.state input.new) }

    // With a command's words and no fault, the exit status is the answer's, or memory ran out. A store that opens has
    // an answer, and so has a mirror that is loaded.
    ensures complete { (command : CommandValue) → IsCommandOf (map string_bytes words.now) command
        → IsSeen command D.observable C.observable I.observable F.observable → (given : Answer)
        → IsDueAnswer command
        (outside_of (C.coming clock.old) (I.state input.old) (D.state disk.old) (F.state fetch.old)) given
        → IsComplete (D.state disk.old) (D.state disk.new) (F.state fetch.old) (F.state fetch.new)
        (I.state input.old) (I.state input.new) (O.state output.old) (O.state output.new)
        result.status given.status }

    // A crash within the command, or after it: the commands that write nothing to a store, and words that name none, leave
    // the payloads that a crash could leave before. `mirror` and `relay` alone reach the mirror's area.
    ensures safe { AddsNoOperation (map string_bytes words.now) → D.observable
        → KeepsPayloads (D.state disk.old) (D.state disk.new) }
    ensures mirror { UsesNoMirror (map string_bytes words.now)
        → LeavesAlone (D.state disk.old) (D.state disk.new) Mirror }

    // What is said of the command beside its answer. `init` and `apply`: what a crash leaves. `show pile`: the documents
    // that were printed before a fault. `serve`: the session. `mirror`: what a crash leaves of its area, and its output
    // over documents that one feed served. `audit`: the meaning of its status. `drill`: its life. `foreign` and
    // `discover`: the addresses asked, and the output over one of this project's own feeds. `relay`: the session, and
    // what a crash leaves of the mirror's area. `scrub`: no area changes. `scrub --repair`: what a crash leaves.
    ensures ends { (command : CommandValue) → IsCommandOf (map string_bytes words.now) command → EndsOf command record {
      disk = D.state disk.old;
      left = D.state disk.new;
      moments = C.coming clock.old;
      door = L.state door.old;
      shut = L.state door.new;
      stays_at = λ listen. L.only_at door.old listen → L.only_at door.new listen;
      fetch = F.state fetch.old;
      fetched = F.state fetch.new;
      input = I.state input.old;
      rest = I.state input.new;
      output = O.state output.old;
      taken = O.state output.new;
      sees_disk = D.observable;
      sees_clock = C.observable;
      sees_door = L.observable;
      sees_fetch = F.observable;
      sees_input = I.observable;
      sees_output = O.observable;
      lines = result.lines.items;
      life = result.life;
      ended = result.status;
    } }

    // A command leaves each object that it has no use for as it is. So do words that name no command. Only `serve`
    // returns lines, and only `drill` a life.
    ensures unused { LeavesUnused (map string_bytes words.now) (disk.new ≡ disk.old) (clock.new ≡ clock.old)
        (input.new ≡ input.old) (door.new ≡ door.old) (fetch.new ≡ fetch.old) }
    ensures bare { IsBare (map string_bytes words.now) result.lines.items result.life }
{
    let command = match read_words(alloc, words) {
        Ok(command) => command,
        Err(WordsFault::Usage) => {
            // The result isn't used: the status is the same, whether or not the line could be printed.
            let _ = write_all(output, USAGE);
            return Ended::with_status(alloc, Status::Usage);
        }
        Err(WordsFault::NoMemory) => {
            return Ended::with_status(alloc, print_fault(output, Fault::NoMemory));
        }
    };
    match command {
        Command::Serve {
            listen,
            requests,
            service,
        } => serve(
            alloc,
            listen.slice(),
            requests,
            service,
            disk,
            clock,
            door,
            output,
        ),
        Command::Show(Show::Pile) => Ended::with_status(alloc, show_pile(alloc, disk, output)),
        Command::Mirror {
            base,
            fetch: false,
            report,
            capacity,
        } => {
            let status = mirror(alloc, &base, report, capacity, disk, input, output);
            Ended::with_status(alloc, status)
        }
        Command::Mirror {
            base,
            fetch: true,
            report,
            capacity,
        } => {
            let status = mirror_fetched(alloc, &base, report, capacity, disk, fetch, output);
            Ended::with_status(alloc, status)
        }
        Command::Audit => Ended::with_status(alloc, audit(alloc, input, output)),
        Command::Drill { seed, count } => drill(alloc, seed, count, output),
        Command::Foreign { from } => {
            Ended::with_status(alloc, foreign(alloc, from.slice(), fetch, output))
        }
        Command::Discover { address } => {
            Ended::with_status(alloc, discover(alloc, address.slice(), fetch, output))
        }
        Command::Relay {
            base,
            listen,
            requests,
            capacity,
        } => {
            let at = listen.slice();
            let status = relay(alloc, &base, at, requests, capacity, disk, door, output);
            Ended::with_status(alloc, status)
        }
        command => match answer(alloc, command, disk, clock, input) {
            Ok(text) => match write_all(output, text.as_slice()) {
                Ok(()) => Ended::with_status(alloc, Status::Done),
                Err(Failed) => Ended::with_status(alloc, Status::OutputFault),
            },
            Err(fault) => Ended::with_status(alloc, print_fault(output, fault)),
        },
    }
}

/// The line for words that name no command. Its names are those of the finished program.
const USAGE: &[u8] =
    b"usage: feed_tool init, apply, show, serve, mirror, audit, drill, foreign, discover, relay, scrub\n";

/// Returns what the command prints at its defined end. `serve`, `show pile`, `mirror`, `audit`, `drill`, `foreign`,
/// `discover` and `relay` print by themselves.
fn answer<D: Disk, C: Clock, I: Source>(
    alloc: Global,
    command: Command,
    disk: &mut D,
    clock: &mut C,
    input: &mut I,
) -> Result<Vec<u8>, Fault>
    requires range { HasRange command }
    requires prints { IsAtOnce command }
    requires text { IsTextual command }
    ensures kind { IsAtOnce command × IsTextual command }
    ensures answer { (source : FetchState)
        → IfOk result (λ written. IsSeenUnfetched command D.observable C.observable I.observable
        → IsGiven command (outside_of (C.coming clock.old) (I.state input.old) (D.state disk.old) source)
        record { status = status.Done; printed = written.items }) }
    ensures refused { (source : FetchState)
        → IfErr result (λ fault. IsRefusal fault → IsSeenUnfetched command D.observable C.observable I.observable
        → IsGiven command (outside_of (C.coming clock.old) (I.state input.old) (D.state disk.old) source)
        (fault_answer fault)) }
    ensures disk_faults { CountsFault (D.state disk.old).faults (D.state disk.new).faults
        (result ≡ Err Fault.Disk) }
    ensures input_faults { CountsFault (I.state input.old).faults (I.state input.new).faults
        (result ≡ Err Fault.Input) }
    ensures read { RisesAtMost (read_limit command) (I.state input.old).bytes_read (I.state input.new).bytes_read }
    ensures unrefused { result ≡ Err Fault.Input → IsSeenUnfetched command D.observable C.observable I.observable
        → IsUnrefusedBy command (C.coming clock.old) (D.state disk.old).content
        (I.state input.old) (I.state input.new) }
    ensures safe { AddsNothing command → D.observable → KeepsPayloads (D.state disk.old) (D.state disk.new) }
    ensures made { (name : FeedName) (window capacity : ℕ) → command ≡ Init name window capacity → D.observable
        → MakesStoreAt (D.state disk.old) (D.state disk.new) name window capacity C.observable
        (C.coming clock.old 0)
        (IsOk result) }
    ensures applied { command ≡ Apply None → D.observable
        → EndsApplying (D.state disk.old) (D.state disk.new) (C.coming clock.old)
        (I.state input.old) (I.state input.new) C.observable I.observable
        (result ≡ Err Fault.Disk) (result ≡ Err Fault.Input) (EndsAfterLoad result) (HasAnswer result) }
    ensures scrubbed { command ≡ Scrub false → (a : AreaValue) → LeavesAlone (D.state disk.old) (D.state disk.new) a }
    ensures repaired { command ≡ Scrub true → D.observable
        → EndsRepairing (D.state disk.old) (D.state disk.new) (IsOk result)
        (EndsWithStatus result status.Full) (EndsWithStatus result status.BadStore) }
    ensures mirror { LeavesAlone (D.state disk.old) (D.state disk.new) Mirror }
    ensures no_disk { ¬ UsesDisk command → disk.new ≡ disk.old }
    ensures no_clock { ¬ UsesClock command → clock.new ≡ clock.old }
    ensures no_input { ¬ ReadsInput command → input.new ≡ input.old }
{
    match command {
        Command::Init {
            name,
            window,
            capacity,
        } => init(alloc, name, window, capacity, disk, clock),
        Command::Apply { window } => match window {
            None => store::apply(alloc, disk, clock, input),
            Some(window) => apply(alloc, window, clock, input),
        },
        Command::Show(shown) => match shown {
            Show::Document => show(alloc, input),
            Show::Feed => store::show_feed(alloc, disk),
            Show::Archive(number) => store::show_archive(alloc, number, disk),
            Show::Member(number) => store::show_member(alloc, number, disk),
            // `run` calls `show_pile` itself.
            Show::Pile => unreachable!(),
        },
        Command::Scrub { repair: false } => scrub(alloc, disk),
        Command::Scrub { repair: true } => repair(alloc, disk),
        // `run` calls the functions of these commands itself.
        Command::Serve { .. }
        | Command::Mirror { .. }
        | Command::Audit
        | Command::Drill { .. }
        | Command::Foreign { .. }
        | Command::Discover { .. }
        | Command::Relay { .. } => unreachable!(),
    }
}
