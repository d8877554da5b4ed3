ghost use Rattle.std.specs.Prelude.{◌≡◌, IfOk, IfErr, Err};
ghost use Rattle.atom_values.specs.Counts.{CountsFault};
ghost use Rattle.command_ends.specs.Fault.{fault_answer, IsRefusal};
ghost use Rattle.command_ends.specs.declared.status.Status.TheVariants as status;
ghost use Rattle.feed_disk.specs.Moments.{LeavesAlone};
ghost use Rattle.feed_disk.specs.declared.area.Area.{Area as AreaValue};
ghost use Rattle.scrub_command.specs.Answer.{IsScrubbed, MayEndScrub};

use crate::fault::of_unsound;
use crate::line::line_of;
use command_ends::Fault;
use feed_disk::Disk;
use std::alloc::Global;
use store_scrub::stores_are_sound_in_one_way;

/// Returns the line `sound RECORDS SEALS` of a store that is sound, with the numbers of its operations and its seals. It
/// writes nothing and syncs nothing.
///
/// Errors: `BadStore` of the first fault of the store. `Disk` where the disk's count of faults rose. `NoMemory`.
///
/// Cost: that of a load of the store, without its writes and syncs.
pub fn scrub<D: Disk>(alloc: Global, disk: &mut D) -> Result<Vec<u8>, Fault>
    ensures answer { IfOk result (λ written. D.observable → IsScrubbed (D.state disk.old).content
        record { status = status.Done; printed = written.items }) }
    ensures refused { IfErr result (λ fault. IsRefusal fault → D.observable
        → IsScrubbed (D.state disk.old).content (fault_answer fault)) }
    ensures areas { (a : AreaValue) → LeavesAlone (D.state disk.old) (D.state disk.new) a }
    ensures disk_faults { CountsFault (D.state disk.old).faults (D.state disk.new).faults
        (result ≡ Err Fault.Disk) }
    ensures only_errors { IfErr result MayEndScrub }
{
    // Its contract is a law that the proof uses.
    stores_are_sound_in_one_way();
    match store_scrub::scrub(alloc, disk) {
        Ok(sound) => Ok(line_of(alloc, b"sound ", sound.records, sound.seals)?),
        Err(fault) => Err(of_unsound(fault)),
    }
}
