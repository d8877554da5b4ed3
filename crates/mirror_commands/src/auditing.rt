ghost use Rattle.std.specs.Prelude.{◌≡◌, ◌⊎◌, ◌+◌, ◌-◌, ◌≤◌, Err, IfErr, IfOk};
ghost use Rattle.atom_values.specs.Counts.{CountsFault, HasRisen};
ghost use Rattle.coverage_certificate.specs.Certificate.{IsCertificate};
ghost use Rattle.command_ends.specs.declared.status.Status.TheVariants as status;
ghost use Rattle.command_ends.specs.Answer.{Answer, Prints};
ghost use Rattle.mirror_commands.specs.Audit.{BeginsCertified, EndsAuditing, IsAuditUnrefused, IsAudited};
ghost use Rattle.mirror_commands.specs.Audit.{MayEndAudit, audit_limit};
ghost use Rattle.feed_disk.specs.Raised.{RisesAtMost};
ghost use Rattle.mirror_commands.specs.Audit.{StopsInCertificate, pile_room};
ghost use Rattle.mirror_commands.specs.AuditEnds.{JudgesPile, MayStopAudit, certificate_fault};
ghost use Rattle.mirror_commands.specs.AuditedPile.{RefusesPile, StopsAmidPile};
ghost use Rattle.command_ends.specs.Fault.{IsRefusal, fault_answer};
ghost use Rattle.mirror_commands.specs.Printed.{printed_answer};
ghost use Rattle.command_ends.specs.Ends.{CountsOutput, EndsAs, IsAlone, IsAnswered, IsDone, alone_line};
ghost use Rattle.command_ends.specs.Status.{code_of};

use crate::audited_pile::read_pile;
use crate::certificate_part::{AUDIT_LIMIT, read_part};
use crate::printed::{Printed, end_printed};
use crate::verdict_line::{verdict_line, verdict_status};
use command_ends::{Fault, Refusal, Status, print_fault};
use coverage_certificate::{Certificate, CertificateFault};
use doc_source::{Sink, Source};
use std::alloc::Global;

/// Audits the certificate at the start of the input against the pile after it, and prints the verdict. The
/// certificate is read to its line `end` first. It and the pile are in memory.
pub fn audit<I: Source, O: Sink>(alloc: Global, input: &mut I, output: &mut O) -> Status
    ensures statuses { MayEndAudit (code_of result) }
    ensures answered { I.observable → IsAnswered (code_of result)
        → EndsAs (IsAudited (I.state input.old).left) O.observable (O.state output.old) (O.state output.new)
        (code_of result) }
    ensures alone { O.observable → IsAlone (code_of result)
        → Prints (O.state output.old) (O.state output.new) (alone_line (code_of result)) }
    ensures input_faults { CountsFault (I.state input.old).faults (I.state input.new).faults
        (code_of result ≡ code_of status.InputFault) }
    ensures output_faults { CountsOutput (O.state output.old).faults (O.state output.new).faults (code_of result) }
    ensures first_fault { I.observable → code_of result ≡ code_of status.InputFault
        → IsAuditUnrefused (I.state input.old) (I.state input.new) }
    ensures complete { I.observable → (given : Answer) → IsAudited (I.state input.old).left given
        → ¬ HasRisen (I.state input.old).faults (I.state input.new).faults
        → ¬ HasRisen (O.state output.old).faults (O.state output.new).faults
        → (code_of result ≡ code_of given.status) ⊎ (code_of result ≡ code_of status.NoMemory) }
    ensures audits { I.observable → EndsAuditing (I.state input.old).left (code_of result) }
    ensures read { RisesAtMost (audit_limit + 1) (I.state input.old).bytes_read (I.state input.new).bytes_read }
{
    match verdict(alloc, input) {
        Ok(printed) => end_printed(output, printed),
        Err(fault) => print_fault(output, fault),
    }
}

/// Audits the certificate at the start of the input, and returns the line of the verdict.
fn verdict<I: Source>(alloc: Global, input: &mut I) -> Result<Printed, Fault>
    ensures given { IfOk result (λ printed. I.observable
        → IsAudited (I.state input.old).left (printed_answer printed)) }
    ensures ends { IfOk result (λ printed. IsDone (code_of (printed_answer printed).status)) }
    ensures refused { IfErr result (λ fault. IsRefusal fault → I.observable
        → IsAudited (I.state input.old).left (fault_answer fault)) }
    ensures only_errors { IfErr result MayStopAudit }
    ensures input { CountsFault (I.state input.old).faults (I.state input.new).faults
        (result ≡ Err Fault.Input) }
    ensures within { result ≡ Err Fault.Input → I.observable
        → IsAuditUnrefused (I.state input.old) (I.state input.new) }
    ensures read { RisesAtMost (audit_limit + 1) (I.state input.old).bytes_read (I.state input.new).bytes_read }
{
    let (certificate, room) = read_certificate(alloc, input)?;
    let printed = judge(alloc, &certificate, room, input);
    drop(certificate);
    printed
}

/// Reads a certificate, and returns it and how many bytes the pile after it may have.
fn read_certificate<I: Source>(alloc: Global, input: &mut I) -> Result<(Certificate, u64), Fault>
    ensures begins { IfOk result (λ x. I.observable
        → BeginsCertified (I.state input.old).left x.0 (I.state input.new).left) }
    ensures rules { IfOk result (λ x. IsCertificate x.0) }
    ensures room { IfOk result (λ x. x.1 ≡ pile_room x.0) }
    ensures refused { IfErr result (λ fault. IsRefusal fault → I.observable
        → IsAudited (I.state input.old).left (fault_answer fault)) }
    ensures only_errors { IfErr result MayStopAudit }
    ensures input { CountsFault (I.state input.old).faults (I.state input.new).faults
        (result ≡ Err Fault.Input) }
    ensures within { result ≡ Err Fault.Input → I.observable
        → StopsInCertificate (I.state input.old) (I.state input.new) }
    ensures read { IfOk result (λ x. (x.1 ≤ audit_limit) × RisesAtMost (audit_limit - x.1)
        (I.state input.old).bytes_read (I.state input.new).bytes_read) }
    ensures bound { RisesAtMost (audit_limit + 1) (I.state input.old).bytes_read (I.state input.new).bytes_read }
{
    let text = read_part(alloc, input)?;
    let room = (AUDIT_LIMIT - text.len()) as u64;
    let certificate = Certificate::read(alloc, text.as_slice());
    drop(text);
    match certificate {
        Ok(certificate) => Ok((certificate, room)),
        Err(fault) => Err(fault_of(fault)),
    }
}

/// The fault of a text that isn't read as a certificate.
fn fault_of(fault: CertificateFault) -> Fault
    ensures { result ≡ certificate_fault fault }
{
    match fault {
        CertificateFault::BadCertificate { line } => {
            Fault::Refused(Refusal::BadCertificate { line })
        }
        CertificateFault::NoMemory => Fault::NoMemory,
    }
}

/// Audits a certificate against the pile that is the rest of the input, of at most `room` bytes.
fn judge<I: Source>(
    alloc: Global,
    certificate: &Certificate,
    room: u64,
    input: &mut I,
) -> Result<Printed, Fault>
    requires { IsCertificate certificate.now }
    ensures given { IfOk result (λ printed. I.observable
        → JudgesPile room certificate.now (I.state input.old).left (printed_answer printed)) }
    ensures ends { IfOk result (λ printed. IsDone (code_of (printed_answer printed).status)) }
    ensures refused { IfErr result (λ fault. IsRefusal fault → I.observable
        → RefusesPile room (I.state input.old).left fault) }
    ensures only_errors { IfErr result MayStopAudit }
    ensures input { CountsFault (I.state input.old).faults (I.state input.new).faults
        (result ≡ Err Fault.Input) }
    ensures within { result ≡ Err Fault.Input → I.observable
        → StopsAmidPile room (I.state input.old) (I.state input.new) }
    ensures read { RisesAtMost (room + 1) (I.state input.old).bytes_read (I.state input.new).bytes_read }
{
    let offers = read_pile(alloc, room, input)?;
    let verdict = coverage_auditor::audit(alloc, certificate, offers.as_slice());
    drop(offers);
    let verdict = verdict?;
    Ok(Printed::Text {
        status: verdict_status(verdict),
        text: verdict_line(alloc, &certificate.base, verdict)?,
    })
}
