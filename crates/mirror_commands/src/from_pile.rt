ghost use Rattle.std.specs.Prelude.{◌≡◌, ◌≢◌, ◌⊎◌, ◌+◌, ◌≤◌, List, [], None, Err, Ok, IfOk, IfErr, IsOk, OnOk, map};
ghost use Rattle.atom_values.specs.Counts.{CountsFault, HasRisen};
ghost use Rattle.doc_source.specs.declared.offer.Offer.{Offer as OfferValue};
ghost use Rattle.command_ends.specs.declared.status.Status.TheVariants as status;
ghost use Rattle.command_ends.specs.Answer.{Answer, Prints};
ghost use Rattle.command_ends.specs.Fault.{fault_answer, IsRefusal};
ghost use Rattle.mirror_commands.specs.Mirror.{IsMirrored, IsReport, ReadsTo, ReadsWithinPile};
ghost use Rattle.mirror_commands.specs.Mirror.{offering, pile_limit};
ghost use Rattle.mirror_commands.specs.MirrorCrash.{LeavesMirror, LeavesMirrored};
ghost use Rattle.mirror_commands.specs.MirrorEnds.{GivesOf, GivesOffers, IsLater, IsPileReport, IsPileAnswer, MayEndMirror};
ghost use Rattle.mirror_commands.specs.MirrorEnds.{IsMirrorUnrefused, MayEndOffers, MayEndPileReport};
ghost use Rattle.mirror_commands.specs.Mirroring.{EndsMirroring};
ghost use Rattle.mirror_commands.specs.MirrorFaults.{IsHeldIn, IsReportRefusal, report_answer};
ghost use Rattle.mirror_commands.specs.Printed.{printed_answer};
ghost use Rattle.mirror_commands.specs.Report.{Reports, no_counts};
ghost use Rattle.mirror_commands.specs.Reporting.{IsUsable, SameMirror};
ghost use Rattle.command_ends.specs.Ends.{CountsOutput, EndsAs, IsAlone, IsAnswered, IsDone, alone_line};
ghost use Rattle.command_ends.specs.Status.{code_of};
ghost use Rattle.feed_disk.specs.Moments.{LeavesAlone, NowOnly};
ghost use Rattle.feed_disk.specs.declared.area.Area.{Area as AreaValue};
ghost use Rattle.feed_disk.specs.declared.area.Area.TheVariants.{Mirror as MirrorArea};
ghost use Rattle.feed_disk.specs.Raised.{RisesAtMost};
ghost use Rattle.feed_journal.specs.Limits.{area_limit};
ghost use Rattle.feed_journal.specs.Records.{IsWhole};
ghost use Rattle.feed_recovery.specs.Settled.{KeepsPayloads};
ghost use Rattle.mirror_walk.specs.Holding.{KeptValue, payloads_of};
ghost use Rattle.mirror_walk.specs.Loaded.{IsLoadedOf};

use crate::printed::{Printed, end_printed};
use crate::report::Report;
use crate::report_fault::{ReportFault, print_report_fault};
use atom_values::Copies;
use chain_links::Base;
use command_ends::{Fault, Status};
use doc_source::{PileReader, Sink, Source};
use feed_disk::Disk;
use feed_journal::begun_images_are_whole;
use mirror_walk::Mirror;
use std::alloc::Global;

/// How many bytes a pile may have.
const PILE_LIMIT: u64 = 1_073_741_824;

/// Mirrors the feed below a base address from the pile that is the input, into the mirror's area of the disk. Prints
/// the report if `report`, and else the certificate of what is held, or the line of the first missing document. Each
/// document of the pile is in memory until it was offered.
pub fn mirror<D: Disk, I: Source, O: Sink>(
    alloc: Global,
    base: &Base,
    report: bool,
    capacity: u64,
    disk: &mut D,
    input: &mut I,
    output: &mut O,
) -> Status
    requires { capacity ≤ area_limit }
    ensures statuses { MayEndMirror (code_of result) }
    ensures answered { D.observable → I.observable → IsAnswered (code_of result) → EndsAs
        (IsPileAnswer report capacity base.now (D.state disk.old).content (I.state input.old).left) O.observable
        (O.state output.old) (O.state output.new) (code_of result) }
    ensures alone { O.observable → IsAlone (code_of result)
        → Prints (O.state output.old) (O.state output.new) (alone_line (code_of result)) }
    ensures disk_faults { CountsFault (D.state disk.old).faults (D.state disk.new).faults
        (code_of result ≡ code_of status.DiskFault) }
    ensures input_faults { CountsFault (I.state input.old).faults (I.state input.new).faults
        (code_of result ≡ code_of status.InputFault) }
    ensures output_faults { CountsOutput (O.state output.old).faults (O.state output.new).faults (code_of result) }
    ensures first_fault { D.observable → I.observable → code_of result ≡ code_of status.InputFault
        → IsMirrorUnrefused base.now capacity (D.state disk.old).content
        (I.state input.old) (I.state input.new) }
    ensures complete { D.observable → I.observable → (kept : List KeptValue) (given : Answer)
        → IsHeldIn base.now (D.state disk.old).content kept
        → IsMirrored report capacity base.now kept (I.state input.old).left given
        → ¬ HasRisen (D.state disk.old).faults (D.state disk.new).faults
        → ¬ HasRisen (I.state input.old).faults (I.state input.new).faults
        → ¬ HasRisen (O.state output.old).faults (O.state output.new).faults
        → (code_of result ≡ code_of given.status) ⊎ (code_of result ≡ code_of status.NoMemory) }
    ensures mirrors { D.observable → I.observable → EndsMirroring report capacity base.now (D.state disk.old)
        (D.state disk.new) (I.state input.old) (I.state input.new) O.observable
        (O.state output.old) (O.state output.new) (code_of result) }
    ensures read { RisesAtMost (pile_limit + 1) (I.state input.old).bytes_read (I.state input.new).bytes_read }
    ensures safe { D.observable → KeepsPayloads (D.state disk.old) (D.state disk.new) }
{
    match load_and_offer(alloc, base, report, capacity, disk, input) {
        Ok(printed) => end_printed(output, printed),
        Err(fault) => print_report_fault(output, &fault),
    }
}

/// Loads the mirror, offers it the documents of the pile that is the input, and returns what is printed.
fn load_and_offer<D: Disk, I: Source>(
    alloc: Global,
    base: &Base,
    report: bool,
    capacity: u64,
    disk: &mut D,
    input: &mut I,
) -> Result<Printed, ReportFault>
    requires { capacity ≤ area_limit }
    ensures printed { IfOk result (λ printed. D.observable → I.observable
        → IsPileReport report capacity base.now (D.state disk.old).content (I.state input.old).left
        (printed_answer printed)) }
    ensures refused { IfErr result (λ fault. IsReportRefusal fault → D.observable → I.observable
        → IsPileAnswer report capacity base.now (D.state disk.old).content (I.state input.old).left
        (report_answer fault)) }
    ensures ends { IfOk result (λ printed. IsDone (code_of (printed_answer printed).status)) }
    ensures only_errors { IfErr result MayEndPileReport }
    ensures disk { CountsFault (D.state disk.old).faults (D.state disk.new).faults
        (result ≡ Err (ReportFault.Other Fault.Disk)) }
    ensures input { CountsFault (I.state input.old).faults (I.state input.new).faults
        (result ≡ Err (ReportFault.Other Fault.Input)) }
    ensures within { result ≡ Err (ReportFault.Other Fault.Input) → D.observable → I.observable
        → IsMirrorUnrefused base.now capacity (D.state disk.old).content
        (I.state input.old) (I.state input.new) }
    ensures read { RisesAtMost (pile_limit + 1) (I.state input.old).bytes_read (I.state input.new).bytes_read }
    ensures others { (a : AreaValue) → a ≢ MirrorArea
        → LeavesAlone (D.state disk.old) (D.state disk.new) a }
    ensures gave { D.observable → I.observable → GivesOf capacity base.now (D.state disk.old).content
        (I.state input.old) (I.state input.new) (result ≡ Err (ReportFault.Other Fault.Disk)) (IsOk result) }
    ensures kept { D.observable → I.observable → NowOnly (D.state disk.old) MirrorArea IsWhole
        → LeavesMirror (D.state disk.old) (D.state disk.new) (IsLater result)
        (LeavesMirrored capacity base.now (I.state input.old).left (D.state disk.old) (D.state disk.new)
        (result ≡ Err (ReportFault.Other Fault.Disk)) (IsOk result)) }
{
    let mut mirror = Mirror::load(alloc, disk, base.copy(alloc)?, capacity)?;
    let printed = report_offers(alloc, base, report, &mut mirror, disk, input);
    drop(mirror);
    Ok(printed?)
}

/// Offers the documents of the pile that is the input to a mirror that was loaded, and returns what is printed.
fn report_offers<D: Disk, I: Source>(
    alloc: Global,
    base: &Base,
    report: bool,
    mirror: &mut Mirror,
    disk: &mut D,
    input: &mut I,
) -> Result<Printed, Fault>
    requires base { base.now ≡ mirror.old.base }
    requires usable { IsUsable D.observable (D.state disk.old) mirror.old }
    requires loaded { IsLoadedOf mirror.old.base (payloads_of mirror.old.kept) mirror.old.kept }
    ensures printed { IfOk result (λ printed. D.observable → I.observable
        → IsReport report mirror.old.capacity mirror.old.base mirror.old.kept (I.state input.old).left
        (printed_answer printed)) }
    ensures refused { IfErr result (λ fault. IsRefusal fault → D.observable → I.observable
        → IsMirrored report mirror.old.capacity mirror.old.base mirror.old.kept (I.state input.old).left
        (fault_answer fault)) }
    ensures ends { IfOk result (λ printed. IsDone (code_of (printed_answer printed).status)) }
    ensures only_errors { IfErr result MayEndOffers }
    ensures gives { GivesOffers mirror.old.capacity mirror.old.base mirror.old.kept (I.state input.old).left
        I.observable D.observable (D.state disk.old) (D.state disk.new) (result ≡ Err Fault.Disk) (IsOk result) }
    ensures others { (a : AreaValue) → a ≢ MirrorArea
        → LeavesAlone (D.state disk.old) (D.state disk.new) a }
    ensures disk { CountsFault (D.state disk.old).faults (D.state disk.new).faults
        (result ≡ Err Fault.Disk) }
    ensures input { CountsFault (I.state input.old).faults (I.state input.new).faults
        (result ≡ Err Fault.Input) }
    ensures within { result ≡ Err Fault.Input → I.observable
        → ReadsWithinPile mirror.old.capacity mirror.old.base mirror.old.kept
        (I.state input.old) (I.state input.new) }
    ensures read { RisesAtMost (pile_limit + 1) (I.state input.old).bytes_read (I.state input.new).bytes_read }
{
    begun_images_are_whole();
    let mut reader = PileReader::new(alloc, PILE_LIMIT)?;
    let mut made = Report::new(alloc, report);
    let offered = offer_all(&mut made, mirror, disk, &mut reader, input);
    drop(reader);
    offered?;
    made.end(alloc, base, mirror, disk)
}

/// Offers the documents of the pile to the mirror, and adds the answers to the report.
fn offer_all<D: Disk, I: Source>(
    report: &mut Report,
    mirror: &mut Mirror,
    disk: &mut D,
    reader: &mut PileReader,
    input: &mut I,
) -> Result<(), Fault>
    requires report { (report.old.text.items ≡ []) × (report.old.counts ≡ no_counts) }
    requires usable { IsUsable D.observable (D.state disk.old) mirror.old }
    requires loaded { IsLoadedOf mirror.old.base (payloads_of mirror.old.kept) mirror.old.kept }
    requires reader { reader.old ≡ record { ahead = []; used = 0; limit = pile_limit; refusal = None } }
    ensures offers { OnOk result ((offers : List OfferValue)
        × (I.observable → ReadsTo (I.state input.old).left offers (Ok None))
        × Reports report.old.detailed mirror.old.capacity mirror.old.base mirror.old.kept
        (map offering offers) mirror.new.kept report.new) }
    ensures same { SameMirror mirror.old mirror.new }
    ensures usable { result ≢ Err Fault.Disk → IsUsable D.observable (D.state disk.new) mirror.new }
    ensures refused { IfErr result (λ fault. IsRefusal fault → I.observable
        → IsMirrored report.old.detailed mirror.old.capacity mirror.old.base mirror.old.kept
        (I.state input.old).left (fault_answer fault)) }
    ensures only_errors { IfErr result MayEndOffers }
    ensures gives { GivesOffers mirror.old.capacity mirror.old.base mirror.old.kept (I.state input.old).left
        I.observable D.observable (D.state disk.old) (D.state disk.new) (result ≡ Err Fault.Disk) (IsOk result) }
    ensures others { (a : AreaValue) → a ≢ MirrorArea
        → LeavesAlone (D.state disk.old) (D.state disk.new) a }
    ensures disk { CountsFault (D.state disk.old).faults (D.state disk.new).faults
        (result ≡ Err Fault.Disk) }
    ensures input { CountsFault (I.state input.old).faults (I.state input.new).faults
        (result ≡ Err Fault.Input) }
    ensures within { result ≡ Err Fault.Input → I.observable
        → ReadsWithinPile mirror.old.capacity mirror.old.base mirror.old.kept
        (I.state input.old) (I.state input.new) }
    ensures read { RisesAtMost (pile_limit + 1) (I.state input.old).bytes_read (I.state input.new).bytes_read }
{
    begun_images_are_whole();
    while let Some(offer) = reader.next(input)? {
        let added = report.offer(mirror, disk, offer.address.slice(), offer.bytes.slice());
        drop(offer);
        added?;
    }
    Ok(())
}
