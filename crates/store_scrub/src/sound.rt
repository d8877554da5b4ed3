ghost use Rattle.std.specs.Prelude.{◌≡◌, ◌⊎◌, ℕ, false, IfOk, IfErr};
ghost use Rattle.atom_values.specs.Counts.{CountsFault};
ghost use Rattle.feed_disk.specs.Moments.{LeavesAlone};
ghost use Rattle.feed_disk.specs.declared.area.Area.{Area as AreaValue};
ghost use Rattle.feed_disk.specs.declared.area.Area.TheVariants.{Journal, Sealed};
ghost use Rattle.feed_recovery.specs.Loading.{IsAtFirst, IsReadable, OnlyReads};
ghost use Rattle.store_scrub.specs.Scrub.{IsScrubRefusal, IsSound, IsUnsound};
ghost use Rattle.store_scrub.specs.Verdict.{IsClear, KnowsEnd, IsVerdict};

use crate::fault::Unsound;
use feed_disk::{Area, Disk};
use feed_journal::{FrameReader, Frames, Log};
use feed_recovery::Replayed;
use std::alloc::Global;

/// The numbers of operations and of seals of a sound store.
#[derive(Clone, Copy, Debug, PartialEq, Eq)]
pub struct Sound {
    pub records: u32,
    pub seals: u32,
}

/// Reads the whole store of a disk, and returns its numbers of operations and of seals if it is sound: a load opens it,
/// and no open gate follows the payloads of the journal or of the sealed area. It writes and syncs nothing.
///
/// Errors: the first of [`Unsound`] that fits. `DiskFault` if the disk's count of faults rose. `NoMemory`, which hides no
/// failed device call.
///
/// Cost: that of [`feed_recovery::Store::load`]. The journal is read once, and each seal once.
pub fn scrub<D: Disk>(alloc: Global, disk: &mut D) -> Result<Sound, Unsound>
    ensures sound { IfOk result (λ found. D.observable
        → IsSound ((D.state disk.old).content Journal) ((D.state disk.old).content Sealed)
        found.records found.seals) }
    // A sound store ends with `Ok`, unless a device call fails or memory runs out.
    ensures only { D.observable → (operations seals : ℕ)
        → IsSound ((D.state disk.old).content Journal) ((D.state disk.old).content Sealed) operations seals
        → IfErr result (λ fault. (fault ≡ Unsound.DiskFault) ⊎ (fault ≡ Unsound.NoMemory)) }
    ensures unsound { IfErr result (λ fault. D.observable
        → IsUnsound ((D.state disk.old).content Journal) ((D.state disk.old).content Sealed) fault) }
    // With any disk, the refusal is one of two logs.
    ensures refusal { IfErr result IsScrubRefusal }
    ensures areas { (a : AreaValue) → LeavesAlone (D.state disk.old) (D.state disk.new) a }
    ensures faults { CountsFault (D.state disk.old).faults (D.state disk.new).faults
        (result ≡ Err Unsound.DiskFault) }
{
    let Some(reader) = FrameReader::look(alloc, disk, Area::Journal)? else {
        return Err(Unsound::NotInit);
    };
    match Log::look(alloc, disk, Area::Sealed) {
        Ok(seals) => scrub_logs(alloc, disk, reader, seals),
        Err(fault) => {
            drop(reader);
            Err(Unsound::from(fault))
        }
    }
}

/// Reads the store of a journal and a log of seals, and returns its numbers if it is sound.
fn scrub_logs<D: Disk>(
    alloc: Global,
    disk: &mut D,
    mut reader: FrameReader,
    mut seals: Log,
) -> Result<Sound, Unsound>
    requires journal { IsAtFirst D.observable (D.state disk.old) reader }
    requires seals { IsReadable D.observable (D.state disk.old) Sealed seals }
    requires ends { D.observable → KnowsEnd seals ((D.state disk.old).content Sealed) }
    ensures sound { IfOk result (λ found. D.observable
        → IsSound ((D.state disk.old).content Journal) ((D.state disk.old).content Sealed)
        found.records found.seals) }
    ensures unsound { IfErr result (λ fault. D.observable
        → IsUnsound ((D.state disk.old).content Journal) ((D.state disk.old).content Sealed) fault) }
    ensures refusal { IfErr result IsScrubRefusal }
    ensures reads { OnlyReads (D.state disk.old) (D.state disk.new) }
    ensures faults { CountsFault (D.state disk.old).faults (D.state disk.new).faults
        (result ≡ Err Unsound.DiskFault) }
{
    let replayed = match Replayed::read(alloc, disk, &mut reader, &mut seals) {
        Ok(replayed) => replayed,
        Err(fault) => {
            drop(reader);
            drop(seals);
            return Err(Unsound::from(fault));
        }
    };
    let journal = reader.finish();
    let outcome = verdict(&replayed, &journal, &seals);
    drop(replayed);
    drop(journal);
    drop(seals);
    outcome
}

/// Returns the numbers of a store whose journal was read to its end, if it is sound.
///
/// Errors: `BadSeal` for its first wrong seal, then `SealCount`, then `OpenGate`.
fn verdict(replayed: &Replayed, journal: &Frames, seals: &Log) -> Result<Sound, Unsound>
    requires unspent { (journal.now.spent ≡ false) × (seals.now.spent ≡ false) }
    ensures sound { IfOk result (λ found. IsClear replayed.now journal.now seals.now found.records found.seals) }
    ensures unsound { IfErr result (IsVerdict replayed.now journal.now seals.now) }
{
    if let Some(index) = replayed.wrong_seal() {
        return Err(Unsound::BadSeal { index });
    }
    let records = replayed.operations();
    let found = seals.len();
    if !replayed.may_have_seals(found) {
        return Err(Unsound::SealCount {
            records,
            seals: found,
        });
    }
    if !journal.is_whole() {
        return Err(Unsound::OpenGate {
            area: Area::Journal,
            at: journal.size() - 1,
        });
    }
    if !seals.is_whole() {
        return Err(Unsound::OpenGate {
            area: Area::Sealed,
            at: seals.size() - 1,
        });
    }
    Ok(Sound {
        records,
        seals: found,
    })
}
