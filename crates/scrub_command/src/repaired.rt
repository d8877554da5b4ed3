ghost use Rattle.std.specs.Prelude.{◌≡◌, IfOk, IfErr, IsOk, Err};
ghost use Rattle.atom_values.specs.Counts.{CountsFault};
ghost use Rattle.command_ends.specs.Fault.{fault_answer, IsRefusal};
ghost use Rattle.command_ends.specs.declared.status.Status.TheVariants as status;
ghost use Rattle.feed_disk.specs.Moments.{LeavesAlone};
ghost use Rattle.feed_disk.specs.declared.area.Area.TheVariants.{Mirror};
ghost use Rattle.scrub_command.specs.Answer.{EndsRepairing, EndsWithStatus, IsRepairedBy, MayEndRepair};

use crate::fault::of_repair;
use crate::line::line_of;
use command_ends::Fault;
use feed_disk::Disk;
use std::alloc::Global;
use store_scrub::repairs_end_in_one_way;

/// Makes the archives of the store again from its journal, and returns the line `repaired KEPT MADE`: how many seals
/// were kept, and how many were made.
///
/// Errors: `BadStore` of a journal that isn't a history's; then nothing was written. `Full` if the sealed area has no
/// room for a seal; the seals before it stay. `Disk` where the disk's count of faults rose. `NoMemory`.
///
/// Cost: that of [`store_scrub::repair`]. The journal is read twice, and each seal once.
pub fn repair<D: Disk>(alloc: Global, disk: &mut D) -> Result<Vec<u8>, Fault>
    ensures answer { IfOk result (λ written. D.observable → IsRepairedBy (D.state disk.old).content
        record { status = status.Done; printed = written.items }) }
    ensures refused { IfErr result (λ fault. IsRefusal fault → D.observable
        → IsRepairedBy (D.state disk.old).content (fault_answer fault)) }
    ensures ends { D.observable → EndsRepairing (D.state disk.old) (D.state disk.new) (IsOk result)
        (EndsWithStatus result status.Full) (EndsWithStatus result status.BadStore) }
    ensures mirror { LeavesAlone (D.state disk.old) (D.state disk.new) Mirror }
    ensures disk_faults { CountsFault (D.state disk.old).faults (D.state disk.new).faults
        (result ≡ Err Fault.Disk) }
    ensures only_errors { IfErr result MayEndRepair }
{
    // Its contract is a law that the proof uses.
    repairs_end_in_one_way();
    match store_scrub::repair(alloc, disk) {
        Ok(repaired) => Ok(line_of(alloc, b"repaired ", repaired.kept, repaired.made)?),
        Err(fault) => Err(of_repair(fault)),
    }
}
