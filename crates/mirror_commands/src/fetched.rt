ghost use Rattle.std.specs.Prelude.{◌≡◌, ◌≢◌, ◌⊎◌, ◌≤◌, List, Err, IfOk, IfErr};
ghost use Rattle.atom_values.specs.Counts.{CountsFault, HasRisen};
ghost use Rattle.command_ends.specs.declared.status.Status.TheVariants as status;
ghost use Rattle.command_ends.specs.Answer.{Answer, Prints};
ghost use Rattle.mirror_commands.specs.FetchEnds.{AsksOf, AsksOfMirror, EndsWalkBy, GoesWalk, IsWalkAnswer, IsWalkedReport};
ghost use Rattle.mirror_commands.specs.FetchEnds.{MayEndFetched, MayEndWalkReport};
ghost use Rattle.mirror_commands.specs.MirrorEnds.{IsLater};
ghost use Rattle.mirror_commands.specs.MirrorCrash.{LeavesFetched, LeavesMirror};
ghost use Rattle.mirror_commands.specs.Mirroring.{EndsFetching};
ghost use Rattle.mirror_commands.specs.MirrorFaults.{IsHeldIn, IsReportRefusal, report_answer};
ghost use Rattle.mirror_commands.specs.Printed.{printed_answer};
ghost use Rattle.mirror_commands.specs.Reporting.{IsUsable};
ghost use Rattle.command_ends.specs.Ends.{CountsOutput, EndsAs, IsAlone, IsAnswered, IsDone, alone_line};
ghost use Rattle.command_ends.specs.Status.{code_of};
ghost use Rattle.mirror_commands.specs.Walked.{IsFetched, IsWalkReport};
ghost use Rattle.feed_disk.specs.Moments.{LeavesAlone, NowOnly};
ghost use Rattle.feed_disk.specs.declared.area.Area.{Area as AreaValue};
ghost use Rattle.feed_disk.specs.declared.area.Area.TheVariants.{Mirror as MirrorArea};
ghost use Rattle.feed_journal.specs.Limits.{area_limit};
ghost use Rattle.feed_journal.specs.Records.{IsWhole};
ghost use Rattle.feed_recovery.specs.Settled.{KeepsPayloads};
ghost use Rattle.mirror_walk.specs.Holding.{KeptValue, payloads_of};
ghost use Rattle.mirror_walk.specs.Loaded.{IsLoadedOf};

use crate::printed::{Printed, end_printed};
use crate::report::Report;
use crate::report_fault::{ReportFault, print_report_fault};
use atom_values::Copies;
use chain_links::Base;
use command_ends::{Fault, Status};
use doc_source::{Fetch, Sink};
use feed_disk::Disk;
use feed_journal::begun_images_are_whole;
use mirror_walk::Mirror;
use std::alloc::Global;

/// Mirrors the feed below a base address from the documents of a source, into the mirror's area of the disk. Prints the
/// report if `report`, and else the certificate of what is held, or the line of the first missing document. It asks for
/// the feed's document, and then for the first missing one, as long as one is missing and the last one was there and
/// was taken.
pub fn mirror_fetched<D: Disk, F: Fetch, O: Sink>(
    alloc: Global,
    base: &Base,
    report: bool,
    capacity: u64,
    disk: &mut D,
    fetch: &mut F,
    output: &mut O,
) -> Status
    requires { capacity ≤ area_limit }
    ensures statuses { MayEndFetched (code_of result) }
    ensures answered { D.observable → F.observable → IsAnswered (code_of result) → EndsAs
        (IsWalkAnswer report capacity base.now (D.state disk.old).content (F.state fetch.old).answers) O.observable
        (O.state output.old) (O.state output.new) (code_of result) }
    ensures alone { O.observable → IsAlone (code_of result)
        → Prints (O.state output.old) (O.state output.new) (alone_line (code_of result)) }
    ensures disk_faults { CountsFault (D.state disk.old).faults (D.state disk.new).faults
        (code_of result ≡ code_of status.DiskFault) }
    ensures fetch_faults { CountsFault (F.state fetch.old).faults (F.state fetch.new).faults
        (code_of result ≡ code_of status.FetchFault) }
    ensures output_faults { CountsOutput (O.state output.old).faults (O.state output.new).faults (code_of result) }
    ensures complete { D.observable → F.observable → (kept : List KeptValue) (given : Answer)
        → IsHeldIn base.now (D.state disk.old).content kept
        → IsFetched report capacity base.now kept (F.state fetch.old).answers given
        → ¬ HasRisen (D.state disk.old).faults (D.state disk.new).faults
        → ¬ HasRisen (F.state fetch.old).faults (F.state fetch.new).faults
        → ¬ HasRisen (O.state output.old).faults (O.state output.new).faults
        → (code_of result ≡ code_of given.status) ⊎ (code_of result ≡ code_of status.NoMemory) }
    ensures fetches { D.observable → F.observable → EndsFetching report capacity base.now (D.state disk.old)
        (D.state disk.new) (F.state fetch.old) (F.state fetch.new) O.observable
        (O.state output.old) (O.state output.new) (code_of result) }
    ensures safe { D.observable → KeepsPayloads (D.state disk.old) (D.state disk.new) }
{
    match load_and_walk(alloc, base, report, capacity, disk, fetch) {
        Ok(printed) => end_printed(output, printed),
        Err(fault) => print_report_fault(output, &fault),
    }
}

/// Loads the mirror, walks over the documents of the source, and returns what is printed.
fn load_and_walk<D: Disk, F: Fetch>(
    alloc: Global,
    base: &Base,
    report: bool,
    capacity: u64,
    disk: &mut D,
    fetch: &mut F,
) -> Result<Printed, ReportFault>
    requires { capacity ≤ area_limit }
    ensures printed { IfOk result (λ printed. D.observable → F.observable
        → IsWalkedReport report capacity base.now (D.state disk.old).content (F.state fetch.old).answers
        (printed_answer printed)) }
    ensures refused { IfErr result (λ fault. IsReportRefusal fault → D.observable → F.observable
        → IsWalkAnswer report capacity base.now (D.state disk.old).content (F.state fetch.old).answers
        (report_answer fault)) }
    ensures ends { IfOk result (λ printed. IsDone (code_of (printed_answer printed).status)) }
    ensures only_errors { IfErr result MayEndWalkReport }
    ensures disk { CountsFault (D.state disk.old).faults (D.state disk.new).faults
        (result ≡ Err (ReportFault.Other Fault.Disk)) }
    ensures fetch { CountsFault (F.state fetch.old).faults (F.state fetch.new).faults
        (result ≡ Err ReportFault.Fetch) }
    ensures asks { D.observable → F.observable → AsksOf capacity base.now (D.state disk.old).content
        (F.state fetch.old) (F.state fetch.new) (EndsWalkBy result) }
    ensures others { (a : AreaValue) → a ≢ MirrorArea
        → LeavesAlone (D.state disk.old) (D.state disk.new) a }
    ensures kept { D.observable → F.observable → NowOnly (D.state disk.old) MirrorArea IsWhole
        → LeavesMirror (D.state disk.old) (D.state disk.new) (IsLater result)
        (LeavesFetched capacity base.now (F.state fetch.old).answers (D.state disk.old) (D.state disk.new)
        (result ≡ Err (ReportFault.Other Fault.Disk)) (EndsWalkBy result)) }
{
    let mut mirror = Mirror::load(alloc, disk, base.copy(alloc)?, capacity)?;
    let printed = report_walk(alloc, base, report, &mut mirror, disk, fetch);
    drop(mirror);
    printed
}

/// Walks over the documents of the source with a mirror that was loaded, and returns what is printed.
fn report_walk<D: Disk, F: Fetch>(
    alloc: Global,
    base: &Base,
    report: bool,
    mirror: &mut Mirror,
    disk: &mut D,
    fetch: &mut F,
) -> Result<Printed, ReportFault>
    requires base { base.now ≡ mirror.old.base }
    requires usable { IsUsable D.observable (D.state disk.old) mirror.old }
    requires loaded { IsLoadedOf mirror.old.base (payloads_of mirror.old.kept) mirror.old.kept }
    ensures printed { IfOk result (λ printed. D.observable → F.observable
        → IsWalkReport report mirror.old.capacity mirror.old.base mirror.old.kept (F.state fetch.old).answers
        (printed_answer printed)) }
    ensures refused { IfErr result (λ fault. IsReportRefusal fault → D.observable → F.observable
        → IsFetched report mirror.old.capacity mirror.old.base mirror.old.kept (F.state fetch.old).answers
        (report_answer fault)) }
    ensures ends { IfOk result (λ printed. IsDone (code_of (printed_answer printed).status)) }
    ensures only_errors { IfErr result MayEndWalkReport }
    ensures asks { F.observable → AsksOfMirror mirror.old.capacity mirror.old.base mirror.old.kept
        (F.state fetch.old) (F.state fetch.new) (EndsWalkBy result) }
    ensures walk { D.observable → F.observable → GoesWalk mirror.old.capacity mirror.old.base mirror.old.kept
        (F.state fetch.old).answers (D.state disk.old) (D.state disk.new)
        (result ≡ Err (ReportFault.Other Fault.Disk)) (EndsWalkBy result) }
    ensures others { (a : AreaValue) → a ≢ MirrorArea
        → LeavesAlone (D.state disk.old) (D.state disk.new) a }
    ensures disk { CountsFault (D.state disk.old).faults (D.state disk.new).faults
        (result ≡ Err (ReportFault.Other Fault.Disk)) }
    ensures fetch { CountsFault (F.state fetch.old).faults (F.state fetch.new).faults
        (result ≡ Err ReportFault.Fetch) }
{
    begun_images_are_whole();
    let walked = mirror.walk(disk, fetch)?;
    let outcome = walked.outcome;
    let made = Report::of_walk(alloc, base, report, &walked);
    drop(walked);
    let made = made?;
    Ok(made.end_at(alloc, base, outcome, mirror, disk)?)
}
