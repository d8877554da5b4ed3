ghost use Rattle.std.specs.Prelude.{◌≡◌, ◌⊎◌, ℕ, false, List, None, IfOk, IfErr, OnOk};
ghost use Rattle.atom_values.specs.Counts.{CountsFault};
ghost use Rattle.feed_disk.specs.Moments.{LeavesAlone};
ghost use Rattle.feed_disk.specs.declared.area.Area.{Area as AreaValue};
ghost use Rattle.feed_disk.specs.declared.area.Area.TheVariants.{Journal, Sealed, Mirror};
ghost use Rattle.feed_journal.specs.Log.{IsListed, IsLog, MakesCalls, MakesSome};
ghost use Rattle.feed_journal.specs.Records.{records, Begins, IsClosed};
ghost use Rattle.feed_recovery.specs.Faults.{IsLoadFault};
ghost use Rattle.feed_recovery.specs.Loading.{FailsBy, IsAtFirst, IsReadable, IsSealFault, OnlyReads, calls_of};
ghost use Rattle.feed_recovery.specs.Opening.{IsSealCount, Opens};
ghost use Rattle.feed_recovery.specs.Refused.{IsRefusal};
ghost use Rattle.feed_recovery.specs.Settled.{AlwaysLeavesBoth, AreWhole, IsSettled, KeepsPayloads, OpensPast};
ghost use Rattle.feed_recovery.specs.Settled.{Settled};
ghost use Rattle.feed_recovery.specs.Store.{StandsFor, call_count, is_spent};
ghost use Rattle.member_rules.specs.Head.{HeadValue};
ghost use Rattle.member_rules.specs.declared.operation.Op.{Op as Operation};

use crate::fault::LoadFault;
use crate::replayed::Replayed;
use crate::store::Store;
use feed_disk::{Area, Disk};
use feed_journal::{FrameReader, Log, begun_images_are_whole};
use std::alloc::Global;

impl Store {
    /// Reopens the store of a disk in one pass over the journal. When a window is full, its seal is compared with its
    /// archive. The journal's faults come before those of the seals all the same. It syncs both areas first, so that a
    /// crash can't change what it reads.
    ///
    /// Errors: the first of [`LoadFault`] that fits. `DiskFault` if the disk's count of faults rose. `NoMemory`,
    /// which hides no failed device call.
    ///
    /// Cost: the journal is read once, in buffers of 65,536 bytes. The headers of the seals are read in buffers of 4,096,
    /// and each seal is one more read. Each operation is looked at once, and each archive is made once. Beside the store
    /// it takes the memory of one archive.
    pub fn load<D: Disk>(alloc: Global, disk: &mut D) -> Result<Store, LoadFault>
        ensures opens { IfOk result (λ store. D.observable → StandsFor (D.state disk.new) store) }
        ensures fresh { IfOk result (λ store. is_spent store ≡ false) }
        // The sizes of the two logs are those of their payloads.
        ensures logs { IfOk result (λ store. IsLog store.journal × IsLog store.seals) }
        // A disk that opens is loaded, unless a device call fails or memory runs out.
        ensures only { D.observable → (head : HeadValue) (history : List Operation) (seals : ℕ)
            → Opens ((D.state disk.old).content Journal) ((D.state disk.old).content Sealed)
            head history seals
            → IfErr result (λ fault. (fault ≡ LoadFault.DiskFault) ⊎ (fault ≡ LoadFault.NoMemory)) }
        ensures refused { IfErr result (λ fault. D.observable
            → IsLoadFault (records ((D.state disk.old).content Journal))
            (records ((D.state disk.old).content Sealed)) fault) }
        // With any disk, the refusal is one of two logs.
        ensures refusal { IfErr result IsRefusal }
        ensures same { OnOk result (D.observable → (a : AreaValue)
            → records ((D.state disk.new).content a) ≡ records ((D.state disk.old).content a)) }

        // A crash leaves what it could leave before, on a disk that isn't settled too. After `Ok` it leaves the
        // store that was loaded, with its whole history, whatever wasn't synced before. The content of a settled
        // disk is whole.
        ensures payloads { D.observable → KeepsPayloads (D.state disk.old) (D.state disk.new) }
        ensures moments { D.observable → (head : HeadValue) (operations : List Operation) (least : ℕ)
            → Settled (D.state disk.old) head operations least
            → AlwaysLeavesBoth (D.state disk.old) (D.state disk.new) (OpensPast head operations least) }
        ensures settled { IfOk result (λ store. D.observable → AreWhole (D.state disk.old)
            → IsSettled (D.state disk.new) store) }
        ensures mirror { LeavesAlone (D.state disk.old) (D.state disk.new) Mirror }

        ensures calls { IfOk result (λ store. (n : ℕ)
            × MakesCalls (D.state disk.old) (D.state disk.new) 0 (call_count store) n) }
        ensures faults { CountsFault (D.state disk.old).faults (D.state disk.new).faults
            (result ≡ Err LoadFault.DiskFault) }
    {
        begun_images_are_whole();
        let journal = FrameReader::open(alloc, disk, Area::Journal)?;
        let seals = Log::load(alloc, disk, Area::Sealed)?;
        let store = reopen(alloc, disk, journal, seals)?;
        Ok(store)
    }
}

/// Reads the frames of the journal and the seals, and returns their store.
fn reopen<D: Disk>(
    alloc: Global,
    disk: &mut D,
    mut reader: FrameReader,
    mut seals: Log,
) -> Result<Store, LoadFault>
    requires journal { IsAtFirst D.observable (D.state disk.old) reader }
    requires seals { IsReadable D.observable (D.state disk.old) Sealed seals }
    requires listed { D.observable → IsListed seals ((D.state disk.old).content Sealed) }
    ensures stands { IfOk result (λ store. D.observable → StandsFor (D.state disk.new) store) }
    ensures begins { OnOk result (D.observable → IsClosed ((D.state disk.new).content Journal)
        → Begins (records ((D.state disk.new).content Journal)) ((D.state disk.new).content Journal)) }
    ensures fresh { IfOk result (λ store. is_spent store ≡ false) }
    ensures logs { IfOk result (λ store. IsLog store.journal × IsLog store.seals) }
    ensures calls { IfOk result (λ store. MakesSome (D.state disk.old) (D.state disk.new)
        (calls_of reader.log seals) (call_count store)) }
    ensures worked { OnOk result ((D.state disk.new).faults ≡ (D.state disk.old).faults) }
    ensures reads { OnlyReads (D.state disk.old) (D.state disk.new) }
    ensures fault { IfErr result (FailsBy D.observable (D.state disk.old) (D.state disk.new)) }
    ensures refused { IfErr result IsRefusal }
{
    let replayed = Replayed::read(alloc, disk, &mut reader, &mut seals)?;
    if let Err(fault) = check(&replayed, seals.len()) {
        drop(replayed);
        return Err(fault);
    }
    Ok(Store {
        alloc,
        head: replayed.head,
        members: replayed.members,
        window: replayed.window,
        places: replayed.places,
        journal: reader.finish(),
        seals,
        spent: false,
        newest: None,
    })
}

/// Refuses a number of seals that the operations can't have, and then a wrong seal.
fn check(replayed: &Replayed, found: u32) -> Result<(), LoadFault>
    ensures counted { OnOk result (IsSealCount replayed.now.head replayed.now.history found) }
    ensures right { OnOk result (replayed.now.wrong ≡ None) }
    ensures refused { IfErr result
        (IsSealFault replayed.now.head replayed.now.history replayed.now.wrong found) }
{
    if !replayed.may_have_seals(found) {
        return Err(LoadFault::SealCount {
            records: replayed.operations(),
            seals: found,
        });
    }
    match replayed.wrong_seal() {
        Some(index) => Err(LoadFault::BadSeal { index }),
        None => Ok(()),
    }
}
