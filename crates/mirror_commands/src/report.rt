ghost use Rattle.std.specs.Prelude.{◌≡◌, ◌≢◌, ◌≤◌, ◌<◌, ◌+◌, ◌-◌, ◌^◌, ◌++◌, ℕ, [], false, Err, IfErr, IfSome, IsErr, IsSome, IsTrue, OnErr, OnOk, IfOk, Some, codes, flat_map, length};
ghost use Rattle.atom_values.specs.Counts.{CountsFault};
ghost use Rattle.atom_values.specs.Entry.{EntryValue};
ghost use Rattle.chain_links.specs.Address.{IsAddress};
ghost use Rattle.coverage_certificate.specs.Held.{certificate_of};
ghost use Rattle.command_ends.specs.Fault.{IsRefusal};
ghost use Rattle.mirror_commands.specs.MirrorFaults.{full_fault, reread_fault};
ghost use Rattle.mirror_commands.specs.Printed.{printed_answer};
ghost use Rattle.mirror_commands.specs.Report as lines;
ghost use Rattle.mirror_commands.specs.Report.{EndsReport, HasAdded, IsReportable, complete_line, counts_line, missing_line};
ghost use Rattle.mirror_commands.specs.Report.{no_counts, refused_line_in, total, walk_counts, walk_line_in};
ghost use Rattle.mirror_commands.specs.Reporting.{HasOutcome, IsUsable, MayEndOffer, MayEndReading, SameMirror};
ghost use Rattle.command_ends.specs.Summary.{entry_line};
ghost use Rattle.feed_disk.specs.Moments.{AlwaysLeaves, LeavesAlone};
ghost use Rattle.feed_disk.specs.declared.area.Area.{Area as AreaValue};
ghost use Rattle.feed_disk.specs.declared.area.Area.TheVariants.{Mirror as MirrorArea};
ghost use Rattle.mirror_walk.specs.Accept.{Answer as MirrorAnswer, IsAnswerWithin, IsTakeable};
ghost use Rattle.mirror_walk.specs.Holding.{best_of, payloads_of};
ghost use Rattle.mirror_walk.specs.Listing.{live_at, live_entries, outcome_of};
ghost use Rattle.mirror_walk.specs.Loaded.{IsLoadedOf};
ghost use Rattle.mirror_walk.specs.Mirror.{IsAtRest, IsOfferStep};
ghost use Rattle.mirror_walk.specs.declared.answer.Offered.TheVariants.{Full as NoRoom};

use crate::printed::Printed;
use atom_grammar::MAX_DOCUMENT;
use atom_values::{Entry, NoMemory};
use chain_links::{Address, Base};
use command_ends::{BadStore, Fault, Status, push_entry, push_numbered};
use coverage_certificate::Certificate;
use feed_disk::{Area, Disk};
use feed_journal::LogFault;
use mirror_walk::{Accepted, Mirror, Offered, Outcome, Refusal, Walked};
use std::alloc::Global;

/// How many offers got each answer.
#[derive(Clone, Copy)]
pub struct Counts {
    pub taken: u32,
    pub known: u32,
    pub stale: u32,
    pub refused: u32,
}

/// The report of a mirror as it is made: a line for each refused offer so far, and how many offers got each answer.
#[derive(Drop)]
pub struct Report {
    /// Whether the report is printed. If not, the certificate of what is held is, and no line is kept.
    pub detailed: bool,
    pub text: Vec<u8>,
    pub counts: Counts,
}

impl Report {
    /// The report before the first offer.
    pub fn new(alloc: Global, detailed: bool) -> Report
        ensures detailed { result.detailed ≡ detailed }
        ensures text { result.text.items ≡ [] }
        ensures counts { result.counts ≡ no_counts }
    {
        Report {
            detailed,
            text: Vec::new(alloc),
            counts: Counts {
                taken: 0,
                known: 0,
                stale: 0,
                refused: 0,
            },
        }
    }

    /// The report of a walk.
    pub fn of_walk(
        alloc: Global,
        base: &Base,
        detailed: bool,
        walked: &Walked,
    ) -> Result<Report, NoMemory>
        requires { IfSome walked.now.refused (λ refusal. IsAddress refusal.address) }
        ensures detailed { IfOk result (λ report. report.detailed ≡ detailed) }
        ensures text { IfOk result (λ report.
            report.text.items ≡ walk_line_in detailed base.now walked.now.refused) }
        ensures counts { IfOk result (λ report. report.counts ≡ walk_counts walked.now) }
    {
        let mut report = Report::new(alloc, detailed);
        report.counts.taken = walked.taken;
        report.counts.known = walked.known;
        report.counts.stale = walked.stale;
        if let Some(refusal) = &walked.refused {
            report.counts.refused = 1;
            report.push_refusal(alloc, base, refusal)?;
        }
        Ok(report)
    }

    /// Adds the line of the document at which a walk ended, if the report is printed.
    fn push_refusal(
        &mut self,
        alloc: Global,
        base: &Base,
        refusal: &Refusal,
    ) -> Result<(), NoMemory>
        requires { IsAddress refusal.now.address }
        ensures text { OnOk result (self.new.text.items
            ≡ self.old.text.items ++ walk_line_in self.old.detailed base.now (Some refusal.now)) }
        ensures counts { self.new.counts ≡ self.old.counts }
        ensures detailed { self.new.detailed ≡ self.old.detailed }
    {
        if !self.detailed {
            return Ok(());
        }
        let address = base.print(alloc, refusal.address)?;
        push_refused(
            &mut self.text,
            address.as_slice(),
            refusal_name(&refusal.why),
        )
    }

    /// Offers a document to the mirror, and adds the answer. Errors: `Full`, `Disk` and `NoMemory`, by which the
    /// report ends.
    pub fn offer<D: Disk>(
        &mut self,
        mirror: &mut Mirror,
        disk: &mut D,
        address: &[u8],
        bytes: &[u8],
    ) -> Result<(), Fault>
        requires usable { IsUsable D.observable (D.state disk.old) mirror.old }
        requires short { length bytes.now ≤ MAX_DOCUMENT }
        requires few { total self.old.counts < 2 ^ 32 - 1 }
        ensures answer { OnOk result ((answer : MirrorAnswer) × IsReportable answer
            × IsAnswerWithin mirror.old.capacity mirror.old.base mirror.old.kept address.now bytes.now answer
            mirror.new.kept
            × HasAdded self.old self.new address.now answer) }
        ensures full { (size needed capacity : ℕ) → result ≡ Err (full_fault size needed capacity)
            → IsAnswerWithin mirror.old.capacity mirror.old.base mirror.old.kept address.now bytes.now
            (Err (NoRoom size needed capacity)) mirror.old.kept }
        // A device call fails only while the document is taken.
        ensures failed_taking { result ≡ Err Fault.Disk → IsTakeable mirror.old.capacity
            mirror.old.base mirror.old.kept address.now bytes.now }
        ensures only_errors { IfErr result MayEndOffer }
        ensures unmoved { IfErr result (λ fault. fault ≢ Fault.Disk
            → (mirror.new.kept ≡ mirror.old.kept) × (disk.new ≡ disk.old)) }
        ensures same { SameMirror mirror.old mirror.new }
        ensures usable { result ≢ Err Fault.Disk → IsUsable D.observable (D.state disk.new) mirror.new }
        ensures moments { D.observable → IsAtRest (D.state disk.old) mirror.old.kept
            → AlwaysLeaves (D.state disk.old) (D.state disk.new) MirrorArea
            (IsOfferStep mirror.old address.now bytes.now) }
        ensures rests { result ≢ Err Fault.Disk → D.observable → IsAtRest (D.state disk.old) mirror.old.kept
            → IsAtRest (D.state disk.new) mirror.new.kept }
        ensures others { (a : AreaValue) → a ≢ MirrorArea → LeavesAlone (D.state disk.old)
            (D.state disk.new) a }
        ensures disk { CountsFault (D.state disk.old).faults (D.state disk.new).faults
            (result ≡ Err Fault.Disk) }
    {
        let answer = mirror.offer(disk, address, bytes);
        if let Some(fault) = room_fault(&answer) {
            drop(answer);
            return Err(fault);
        }
        let added = self.add(address, &answer);
        drop(answer);
        Ok(added?)
    }

    /// Adds the answer to an offer.
    fn add(&mut self, address: &[u8], answer: &Result<Accepted, Offered>) -> Result<(), NoMemory>
        requires { total self.old.counts < 2 ^ 32 - 1 }
        ensures added { OnOk result (HasAdded self.old self.new address.now answer.now) }
        ensures memory { OnErr result (IsErr answer.now) }
    {
        match answer {
            Ok(Accepted::Taken) => self.counts.taken += 1,
            Ok(Accepted::Known) => self.counts.known += 1,
            Ok(Accepted::Stale) => self.counts.stale += 1,
            Err(refusal) => {
                self.counts.refused += 1;
                self.push_line(address, refusal)?;
            }
        }
        Ok(())
    }

    /// Adds the line of a refused offer, if the report is printed.
    fn push_line(&mut self, address: &[u8], refusal: &Offered) -> Result<(), NoMemory>
        ensures text { OnOk result (self.new.text.items
            ≡ self.old.text.items ++ refused_line_in self.old.detailed address.now (Err refusal.now)) }
        ensures counts { self.new.counts ≡ self.old.counts }
        ensures detailed { self.new.detailed ≡ self.old.detailed }
    {
        if !self.detailed {
            return Ok(());
        }
        push_refused(&mut self.text, address, refusal_name(refusal))
    }

    /// Returns what is printed of the mirror, and the status: the report, or else the certificate of what is held. A
    /// mirror that isn't complete has no certificate, so that the line of the missing document is printed alone.
    /// Reads documents back from the disk.
    pub(crate) fn end<D: Disk>(
        self,
        alloc: Global,
        base: &Base,
        mirror: &mut Mirror,
        disk: &mut D,
    ) -> Result<Printed, Fault>
        requires base { base.now ≡ mirror.old.base }
        requires usable { IsUsable D.observable (D.state disk.old) mirror.old }
        requires no_line { self.detailed ≡ false → self.text.items ≡ [] }
        ensures printed { IfOk result (λ printed. EndsReport
            (D.observable × IsLoadedOf mirror.old.base (payloads_of mirror.old.kept) mirror.old.kept)
            base.now self mirror.old.kept (printed_answer printed)) }
        ensures only_errors { IfErr result MayEndReading }
        ensures never { IfErr result (λ fault. D.observable → ¬ IsRefusal fault) }
        ensures areas { (a : AreaValue) → LeavesAlone (D.state disk.old) (D.state disk.new) a }
        ensures disk { CountsFault (D.state disk.old).faults (D.state disk.new).faults
            (result ≡ Err Fault.Disk) }
    {
        let outcome = mirror.outcome()?;
        self.end_at(alloc, base, outcome, mirror, disk)
    }

    /// The same, after the mirror's outcome was computed.
    pub(crate) fn end_at<D: Disk>(
        mut self,
        alloc: Global,
        base: &Base,
        outcome: Outcome,
        mirror: &mut Mirror,
        disk: &mut D,
    ) -> Result<Printed, Fault>
        requires base { base.now ≡ mirror.old.base }
        requires usable { IsUsable D.observable (D.state disk.old) mirror.old }
        requires outcome { HasOutcome mirror.old outcome }
        requires no_line { self.detailed ≡ false → self.text.items ≡ [] }
        ensures printed { IfOk result (λ printed. EndsReport
            (D.observable × IsLoadedOf mirror.old.base (payloads_of mirror.old.kept) mirror.old.kept)
            base.now self mirror.old.kept (printed_answer printed)) }
        ensures only_errors { IfErr result MayEndReading }
        ensures never { IfErr result (λ fault. D.observable → ¬ IsRefusal fault) }
        ensures areas { (a : AreaValue) → LeavesAlone (D.state disk.old) (D.state disk.new) a }
        ensures disk { CountsFault (D.state disk.old).faults (D.state disk.new).faults
            (result ≡ Err Fault.Disk) }
    {
        if !self.detailed {
            return certified(alloc, base, outcome, mirror, disk);
        }
        let status = self.push_ending(base, outcome, mirror, disk)?;
        Ok(Printed::Text {
            status,
            text: self.text,
        })
    }

    /// Adds the counts, and what the mirror shows: the missing document alone, or the live entries and the version.
    /// Returns the status with which `mirror` ends. It reads the entries back from the disk.
    fn push_ending<D: Disk>(
        &mut self,
        base: &Base,
        outcome: Outcome,
        mirror: &mut Mirror,
        disk: &mut D,
    ) -> Result<Status, Fault>
        requires usable { IsUsable D.observable (D.state disk.old) mirror.old }
        requires outcome { HasOutcome mirror.old outcome }
        ensures status { IfOk result (λ status. status ≡ lines.status_of (outcome_of mirror.old.kept)) }
        ensures text { OnOk result (D.observable → self.new.text.items
            ≡ self.old.text.items ++ counts_line self.old.counts
            ++ lines.ending base.now (live_entries mirror.old.kept) (outcome_of mirror.old.kept)) }
        ensures only_errors { IfErr result MayEndReading }
        ensures never { IfErr result (λ fault. D.observable → ¬ IsRefusal fault) }
        ensures areas { (a : AreaValue) → LeavesAlone (D.state disk.old) (D.state disk.new) a }
        ensures disk { CountsFault (D.state disk.old).faults (D.state disk.new).faults
            (result ≡ Err Fault.Disk) }
    {
        push_counts(&mut self.text, self.counts)?;
        match outcome {
            Outcome::Missing { address } => {
                push_missing(&mut self.text, base, address)?;
                Ok(Status::Incomplete)
            }
            Outcome::Complete { version, live } => {
                push_entries(&mut self.text, mirror, disk)?;
                push_complete(&mut self.text, version, live)?;
                Ok(Status::Done)
            }
        }
    }
}

/// The fault by which an answer ends the report, if it has its cause in the mirror's area, its disk or the memory.
fn room_fault(answer: &Result<Accepted, Offered>) -> Option<Fault>
    ensures { result ≡ lines.room_fault answer.now }
{
    match answer {
        Err(
            Offered::Full {
                size,
                needed,
                capacity,
            },
        ) => Some(Fault::Full {
            area: Area::Mirror,
            size: *size,
            needed: *needed,
            capacity: *capacity,
        }),
        Err(Offered::DiskFault) => Some(Fault::Disk),
        Err(Offered::NoMemory) => Some(Fault::NoMemory),
        _ => None,
    }
}

/// The name of a refusal in the report: that of its variant.
fn refusal_name(refusal: &Offered) -> &'static [u8]
    ensures { result.now ≡ lines.refusal_name refusal.now }
{
    match refusal {
        Offered::NotADocument { .. } => b"NotADocument",
        Offered::WrongAddress { .. } => b"WrongAddress",
        Offered::WrongFeed { .. } => b"WrongFeed",
        Offered::Conflict { .. } => b"Conflict",
        Offered::Break { .. } => b"Break",
        Offered::Full { .. } => b"Full",
        Offered::DiskFault => b"DiskFault",
        Offered::NoMemory => b"NoMemory",
    }
}

/// Adds the line of a refused offer, with the address as it was given.
fn push_refused(out: &mut Vec<u8>, address: &[u8], name: &[u8]) -> Result<(), NoMemory>
    ensures { OnOk result (out.new.items
        ≡ out.old.items ++ (codes "refused " ++ address.now ++ codes " " ++ name.now ++ codes "\n")) }
{
    out.extend_from_slice(b"refused ")?;
    out.extend_from_slice(address)?;
    out.extend_from_slice(b" ")?;
    out.extend_from_slice(name)?;
    out.extend_from_slice(b"\n")?;
    Ok(())
}

/// Adds the line of the counts.
fn push_counts(out: &mut Vec<u8>, counts: Counts) -> Result<(), NoMemory>
    ensures { OnOk result (out.new.items ≡ out.old.items ++ counts_line counts) }
{
    push_numbered(out, b"offers ", counts.taken, b" ")?;
    push_numbered(out, b"", counts.known, b" ")?;
    push_numbered(out, b"", counts.stale, b" ")?;
    push_numbered(out, b"", counts.refused, b"\n")
}

/// Adds the line of a missing document.
fn push_missing(out: &mut Vec<u8>, base: &Base, address: Address) -> Result<(), NoMemory>
    requires { IsAddress address }
    ensures { OnOk result (out.new.items ≡ out.old.items ++ missing_line base.now address) }
{
    out.extend_from_slice(b"missing ")?;
    base.print_into(out, address)?;
    out.extend_from_slice(b"\n")?;
    Ok(())
}

/// Adds a line for each live entry, in order of number.
fn push_entries<D: Disk>(out: &mut Vec<u8>, mirror: &mut Mirror, disk: &mut D) -> Result<(), Fault>
    requires listed { IsTrue mirror.old.listed }
    requires usable { IsUsable D.observable (D.state disk.old) mirror.old }
    ensures entries { OnOk result (D.observable → out.new.items
        ≡ out.old.items ++ flat_map entry_line (live_entries mirror.old.kept)) }
    ensures only_errors { IfErr result MayEndReading }
    ensures never { IfErr result (λ fault. D.observable → ¬ IsRefusal fault) }
    ensures areas { (a : AreaValue) → LeavesAlone (D.state disk.old) (D.state disk.new) a }
    ensures disk { CountsFault (D.state disk.old).faults (D.state disk.new).faults
        (result ≡ Err Fault.Disk) }
{
    let mut after = 0;
    while let Some(number) = mirror.next_live(after) {
        let entry = live_entry(mirror, disk, number)?;
        let pushed = push_entry(out, &entry);
        drop(entry);
        pushed?;
        after = number;
    }
    Ok(())
}

/// Reads a live entry back.
fn live_entry<D: Disk>(mirror: &mut Mirror, disk: &mut D, number: u32) -> Result<Entry, Fault>
    requires listed { IsTrue mirror.old.listed }
    requires live { IsSome (live_at mirror.old.kept number) }
    requires usable { IsUsable D.observable (D.state disk.old) mirror.old }
    ensures entry { IfOk result (λ entry. D.observable → live_at mirror.old.kept number ≡ Some entry) }
    ensures kept { result ≢ Err Fault.Disk → mirror.new.kept ≡ mirror.old.kept }
    ensures listed { result ≢ Err Fault.Disk → IsTrue mirror.new.listed }
    ensures usable { result ≢ Err Fault.Disk → IsUsable D.observable (D.state disk.new) mirror.new }
    ensures only_errors { IfErr result MayEndReading }
    ensures never { IfErr result (λ fault. D.observable → ¬ IsRefusal fault) }
    ensures areas { (a : AreaValue) → LeavesAlone (D.state disk.old) (D.state disk.new) a }
    ensures disk { CountsFault (D.state disk.old).faults (D.state disk.new).faults
        (result ≡ Err Fault.Disk) }
{
    match mirror.entry(disk, number) {
        Ok(entry) => Ok(entry),
        Err(LogFault::DiskFault) => Err(Fault::Disk),
        Err(LogFault::Changed { index }) => Err(changed(index)),
        Err(LogFault::NoMemory) => Err(Fault::NoMemory),
    }
}

/// The fault of a document that the disk gave other bytes of.
fn changed(index: u32) -> Fault
    ensures { result ≡ reread_fault (LogFault.Changed index) }
{
    Fault::BadStore(BadStore::Changed {
        area: Area::Mirror,
        index,
    })
}

/// The certificate of what a complete mirror holds, or the line of a missing document.
fn certified<D: Disk>(
    alloc: Global,
    base: &Base,
    outcome: Outcome,
    mirror: &mut Mirror,
    disk: &mut D,
) -> Result<Printed, Fault>
    requires base { base.now ≡ mirror.old.base }
    requires usable { IsUsable D.observable (D.state disk.old) mirror.old }
    requires outcome { HasOutcome mirror.old outcome }
    ensures status { IfOk result (λ printed.
        (printed_answer printed).status ≡ lines.status_of (outcome_of mirror.old.kept)) }
    ensures text { IfOk result (λ printed. D.observable
        → IsLoadedOf mirror.old.base (payloads_of mirror.old.kept) mirror.old.kept
        → (printed_answer printed).printed
        ≡ lines.certified_ending base.now mirror.old.kept (outcome_of mirror.old.kept)) }
    ensures only_errors { IfErr result MayEndReading }
    ensures never { IfErr result (λ fault. D.observable → ¬ IsRefusal fault) }
    ensures areas { (a : AreaValue) → LeavesAlone (D.state disk.old) (D.state disk.new) a }
    ensures disk { CountsFault (D.state disk.old).faults (D.state disk.new).faults
        (result ≡ Err Fault.Disk) }
{
    match outcome {
        Outcome::Missing { address } => {
            let mut text = Vec::new(alloc);
            push_missing(&mut text, base, address)?;
            Ok(Printed::Text {
                status: Status::Incomplete,
                text,
            })
        }
        Outcome::Complete { .. } => {
            let certificate = certificate(alloc, mirror, disk)?;
            Ok(Printed::Certificate(certificate))
        }
    }
}

/// The certificate of what a complete mirror holds.
fn certificate<D: Disk>(
    alloc: Global,
    mirror: &mut Mirror,
    disk: &mut D,
) -> Result<Certificate, Fault>
    requires listed { IsTrue mirror.old.listed }
    requires best { IsSome (best_of mirror.old.kept) }
    requires usable { IsUsable D.observable (D.state disk.old) mirror.old }
    ensures certificate { IfOk result (λ made. D.observable
        → IsLoadedOf mirror.old.base (payloads_of mirror.old.kept) mirror.old.kept
        → certificate_of mirror.old.base mirror.old.kept ≡ Some made) }
    ensures only_errors { IfErr result MayEndReading }
    ensures never { IfErr result (λ fault. D.observable → ¬ IsRefusal fault) }
    ensures areas { (a : AreaValue) → LeavesAlone (D.state disk.old) (D.state disk.new) a }
    ensures disk { CountsFault (D.state disk.old).faults (D.state disk.new).faults
        (result ≡ Err Fault.Disk) }
{
    match Certificate::of(alloc, mirror, disk) {
        Ok(certificate) => Ok(certificate),
        Err(LogFault::DiskFault) => Err(Fault::Disk),
        Err(LogFault::Changed { index }) => Err(changed(index)),
        Err(LogFault::NoMemory) => Err(Fault::NoMemory),
    }
}

/// Adds the line of a complete mirror.
fn push_complete(out: &mut Vec<u8>, version: u32, live: u32) -> Result<(), NoMemory>
    ensures { OnOk result (out.new.items ≡ out.old.items ++ complete_line version live) }
{
    push_numbered(out, b"complete ", version, b" ")?;
    push_numbered(out, b"", live, b"\n")
}
