ghost use Rattle.std.specs.Prelude.{◌≡◌, ◌∷◌, ◌++◌, ◌+◌, ◌<◌, ◌≢◌, [], false, true, IfOk, OnOk, OnErr, length};
ghost use Rattle.atom_values.specs.Counts.{HasCause};
ghost use Rattle.feed_disk.specs.Moments.{AlwaysLeaves, LeavesAlone};
ghost use Rattle.feed_disk.specs.declared.area.Area.{Area as AreaValue};
ghost use Rattle.feed_disk.specs.declared.area.Area.TheVariants.{Journal, Sealed, Mirror};
ghost use Rattle.feed_journal.specs.Log.{MakesOrFails, MakesUpTo};
ghost use Rattle.feed_journal.specs.Records.{records, IsStep};
ghost use Rattle.feed_recovery.specs.Commit.{HasCommitted, IsSealing, LeavesCommit, MakesSealCalls};
ghost use Rattle.feed_recovery.specs.Settled.{IsAtRest, IsSettled};
ghost use Rattle.feed_recovery.specs.Prepare.{Fits, HasRoom, IsDueSeal, MayCommit, SealFits, commit_calls};
ghost use Rattle.feed_recovery.specs.Store.{KeepsStore, StandsFor, call_count, is_spent, seal_count};
ghost use Rattle.atom_writer.specs.Pieced.{text_of};
ghost use Rattle.member_rules.specs.Coding.{operations};
ghost use Rattle.member_rules.specs.History.{IsLawful};
ghost use Rattle.member_rules.specs.Windows.{windows_of};

use crate::prepare::Ready;
use crate::store::Store;
use feed_disk::Disk;
use feed_journal::{DiskFault, Framed, begun_images_are_whole};
use member_rules::{
    archives_stay, operations_are_long, sealed_windows_are_full, windows_seal_in_turn,
};

impl Store {
    /// Appends the seal that is due and missing, and then the operation. Returns the new version. Takes no
    /// memory.
    ///
    /// A crash at any moment leaves a store that opens to the history before or with the operation, with each
    /// seal as it was. After `Ok` it has the operation.
    ///
    /// Error: `DiskFault` if the disk's count of faults rose. Then a crash leaves one of the two histories, and
    /// the store is spent.
    ///
    /// Cost: four device calls, and four more where a seal is due and missing.
    pub fn commit<D: Disk>(&mut self, disk: &mut D, ready: Ready) -> Result<u32, DiskFault>
        requires unspent { is_spent self.old ≡ false }
        requires prepared { MayCommit self.old ready }
        requires room { HasRoom self.old }
        requires stands { D.observable → StandsFor (D.state disk.old) self.old }
        ensures version { IfOk result (λ version. version ≡ length self.old.history + 1) }
        ensures committed { OnOk result (HasCommitted ready.operation self.old self.new) }
        ensures head { self.new.head ≡ self.old.head }
        ensures stands { OnOk result (D.observable → StandsFor (D.state disk.new) self.new) }
        ensures before { OnErr result ((self.new.history ≡ self.old.history) × (is_spent self.new ≡ true)) }

        // A crash leaves the history before or with the operation, and each seal as it was. After `Ok` it
        // leaves the operation. `Store::load` and each commit that worked leave the disk at rest.
        ensures leaves { D.observable → IsAtRest (D.state disk.old)
            → LeavesCommit ready.operation (D.state disk.old) (D.state disk.new) self.old }
        ensures settled { OnOk result (D.observable → IsAtRest (D.state disk.old)
            → IsSettled (D.state disk.new) self.new) }
        ensures mirror { LeavesAlone (D.state disk.old) (D.state disk.new) Mirror }

        ensures calls { MakesOrFails (D.state disk.old) (D.state disk.new)
            (call_count self.old) (call_count self.new) (commit_calls ready.seal) result }
        // A caller whose disk contracts cannot see knows the rules of the store from here.
        ensures rules { KeepsStore self.old }
    {
        // Laws, which do nothing.
        begun_images_are_whole();
        archives_stay();
        windows_seal_in_turn();
        if let Err(fault) = self.append_seal(disk, &ready.seal) {
            drop(ready);
            return Err(fault);
        }
        self.append_operation(disk, ready)
    }

    /// Appends the seal that is due and missing, if there is one. Then each full window has its seal.
    fn append_seal<D: Disk>(&mut self, disk: &mut D, seal: &Option<Framed>) -> Result<(), DiskFault>
        requires unspent { is_spent self.old ≡ false }
        requires due { IsDueSeal self.old seal.now }
        requires fits { SealFits self.old seal.now }
        requires room { 0 < self.old.seals.spare }
        requires stands { D.observable → StandsFor (D.state disk.old) self.old }
        ensures same { self.new ≡ record self.old { seals = self.new.seals } }
        ensures unspent { OnOk result (is_spent self.new ≡ false) }
        ensures spent { OnErr result (is_spent self.new ≡ true) }
        ensures full { OnOk result
            (seal_count self.new ≡ (windows_of self.old.head self.old.history).full) }
        ensures stands { OnOk result (D.observable → StandsFor (D.state disk.new) self.new) }
        ensures moments { D.observable → IsAtRest (D.state disk.old)
            → AlwaysLeaves (D.state disk.old) (D.state disk.new) Sealed
            (IsSealing self.old.head self.old.history (records ((D.state disk.old).content Sealed))) }
        ensures rests { OnOk result (D.observable → IsAtRest (D.state disk.old) → IsAtRest (D.state disk.new)) }
        ensures others { (a : AreaValue) → a ≢ Sealed → LeavesAlone (D.state disk.old) (D.state disk.new) a }
        ensures calls { OnOk result (MakesSealCalls seal.now (D.state disk.old) (D.state disk.new)
            self.old.seals.calls self.new.seals.calls) }
        ensures most { OnErr result (MakesUpTo (D.state disk.old) (D.state disk.new)
            self.old.seals.calls self.new.seals.calls 4) }
        ensures cause { HasCause (D.state disk.old).faults (D.state disk.new).faults result }
        ensures rules { KeepsStore self.old }
    {
        begun_images_are_whole();
        sealed_windows_are_full();
        // Borrowed before the early return, so that the store's rules are known there too.
        let log = &mut self.seals;
        let Some(seal) = seal else {
            return Ok(());
        };
        if let Err(fault) = log.append(disk, seal) {
            self.spent = true;
            return Err(fault);
        }
        Ok(())
    }

    /// Appends the operation to the journal, and then to the history. Each full window has its seal.
    fn append_operation<D: Disk>(&mut self, disk: &mut D, ready: Ready) -> Result<u32, DiskFault>
        requires unspent { is_spent self.old ≡ false }
        requires version { ready.version ≡ length self.old.history + 1 }
        requires lawful { IsLawful self.old.head (self.old.history ++ ready.operation ∷ []) }
        requires fits { Fits self.old.journal (text_of operations ready.operation) self.old.head.capacity }
        requires full { seal_count self.old ≡ (windows_of self.old.head self.old.history).full }
        requires room { (0 < self.old.spare) × (0 < self.old.members.spare) × (0 < self.old.journal.spare) }
        requires stands { D.observable → StandsFor (D.state disk.old) self.old }
        ensures version { IfOk result (λ version. version ≡ length self.old.history + 1) }
        ensures committed { OnOk result (HasCommitted ready.operation self.old self.new) }
        ensures head { self.new.head ≡ self.old.head }
        ensures seals { self.new.seals ≡ self.old.seals }
        ensures stands { OnOk result (D.observable → StandsFor (D.state disk.new) self.new) }
        ensures before { OnErr result ((self.new.history ≡ self.old.history) × (is_spent self.new ≡ true)) }
        ensures moments { D.observable → IsAtRest (D.state disk.old)
            → AlwaysLeaves (D.state disk.old) (D.state disk.new) Journal
            (IsStep (records ((D.state disk.old).content Journal)) (text_of operations ready.operation)) }
        ensures rests { OnOk result (D.observable → IsAtRest (D.state disk.old) → IsAtRest (D.state disk.new)) }
        ensures others { (a : AreaValue) → a ≢ Journal → LeavesAlone (D.state disk.old) (D.state disk.new) a }
        ensures calls { MakesOrFails (D.state disk.old) (D.state disk.new)
            self.old.journal.calls self.new.journal.calls 4 result }
    {
        archives_stay();
        operations_are_long();
        windows_seal_in_turn();
        let Ready {
            operation,
            version,
            payload,
            ..
        } = ready;
        let place = match self.journal.append(disk, &payload) {
            Ok(place) => place,
            Err(fault) => {
                self.spent = true;
                drop(operation);
                return Err(fault);
            }
        };
        self.newest = None;
        self.places.commit(&operation, place);
        self.members.commit(&operation);
        self.window.commit(operation);
        Ok(version)
    }
}
