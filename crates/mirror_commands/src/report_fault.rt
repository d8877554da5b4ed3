ghost use Rattle.std.specs.Prelude.{◌≡◌, ◌≤◌, length};
ghost use Rattle.command_ends.specs.Answer.{Prints};
ghost use Rattle.mirror_commands.specs.MirrorFaults.{report_answer};

use arrayvec::ArrayVec;
use atom_values::NoMemory;
use chain_links::Base;
use command_ends::{BadStore, BaseLine, Fault, MAX_LINE, Status, other_base_line};
use doc_source::{Sink, write_all};
use feed_disk::Area;
use mirror_walk::{MirrorFault, WalkFault};

/// Why `mirror` makes no report.
#[derive(Drop)]
pub enum ReportFault {
    /// A call on the source of documents failed.
    Fetch,
    /// The first document of the mirror's area has this base, which isn't the one of the words.
    OtherBase { kept: Base },
    /// The mirror's area, the input or the memory ended it.
    Other(Fault),
}

impl ReportFault {
    /// The status with which `mirror` ends at this fault.
    pub fn status(&self) -> Status
        ensures { result ≡ (report_answer self.now).status }
    {
        match self {
            ReportFault::Fetch => Status::FetchFault,
            ReportFault::OtherBase { .. } => Status::Refused,
            ReportFault::Other(fault) => fault.status(),
        }
    }

    /// The line that is printed, with its LF.
    pub fn line(&self) -> BaseLine
        ensures { result.items ≡ (report_answer self.now).printed }
    {
        match self {
            ReportFault::Fetch => line_of(b"fetch fault\n"),
            ReportFault::OtherBase { kept } => other_base_line(kept),
            ReportFault::Other(fault) => line_of(fault.line().as_str().as_bytes()),
        }
    }
}

/// Prints the line of a fault, in one call of the output unless the output takes only a part of it. Returns the fault's
/// status, whether or not the line could be printed.
pub(crate) fn print_report_fault<O: Sink>(output: &mut O, fault: &ReportFault) -> Status
    ensures status { result ≡ (report_answer fault.now).status }
    ensures prints { O.observable → Prints (O.state output.old) (O.state output.new)
        (report_answer fault.now).printed }
    ensures faults { (O.state output.old).faults ≤ (O.state output.new).faults }
{
    // The result isn't used: the status is that of the first fault.
    let _ = write_all(output, fault.line().as_slice());
    fault.status()
}

fn line_of(bytes: &[u8]) -> BaseLine
    requires { length bytes.now ≤ MAX_LINE }
    ensures { result.items ≡ bytes.now }
{
    let mut line = ArrayVec::new();
    // The bytes fit, so they are never refused.
    let _ = line.try_extend_from_slice(bytes);
    line
}

impl From<NoMemory> for ReportFault {
    ghost use Rattle.std.specs.Prelude.{◌≡◌};
    ghost use Rattle.mirror_commands.specs.declared.report_fault.ReportFault.TheVariants.{Other};
    ghost use Rattle.command_ends.specs.declared.fault.Fault.TheVariants.{NoMemory};

    ghost from_gives = { λ _ e. e ≡ Other NoMemory };

    fn from(_error: NoMemory) -> ReportFault {
        ReportFault::Other(Fault::NoMemory)
    }
}

impl From<Fault> for ReportFault {
    ghost use Rattle.std.specs.Prelude.{◌≡◌};
    ghost use Rattle.mirror_commands.specs.declared.report_fault.ReportFault.TheVariants.{Other};

    ghost from_gives = { λ fault e. e ≡ Other fault };

    fn from(fault: Fault) -> ReportFault {
        ReportFault::Other(fault)
    }
}

impl From<MirrorFault> for ReportFault {
    ghost use Rattle.std.specs.Prelude.{◌≡◌};
    ghost use Rattle.mirror_commands.specs.MirrorFaults.{mirror_fault};

    ghost from_gives = { λ fault e. e ≡ mirror_fault fault };

    fn from(fault: MirrorFault) -> ReportFault {
        match fault {
            MirrorFault::OtherBase { kept } => ReportFault::OtherBase { kept },
            MirrorFault::BadRecord { index, at } => {
                let bad = BadStore::BadRecord {
                    area: Area::Mirror,
                    index,
                    at: at as u64,
                };
                ReportFault::Other(Fault::BadStore(bad))
            }
            MirrorFault::DiskFault => ReportFault::Other(Fault::Disk),
            MirrorFault::NoMemory => ReportFault::Other(Fault::NoMemory),
        }
    }
}

impl From<WalkFault> for ReportFault {
    ghost use Rattle.std.specs.Prelude.{◌≡◌};
    ghost use Rattle.mirror_commands.specs.MirrorFaults.{walk_fault};

    ghost from_gives = { λ fault e. e ≡ walk_fault fault };

    fn from(fault: WalkFault) -> ReportFault {
        match fault {
            WalkFault::FetchFault => ReportFault::Fetch,
            WalkFault::Full {
                size,
                needed,
                capacity,
            } => ReportFault::Other(Fault::Full {
                area: Area::Mirror,
                size,
                needed,
                capacity,
            }),
            WalkFault::DiskFault => ReportFault::Other(Fault::Disk),
            WalkFault::NoMemory => ReportFault::Other(Fault::NoMemory),
        }
    }
}
