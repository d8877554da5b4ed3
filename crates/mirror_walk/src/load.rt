ghost use Rattle.std.specs.Prelude.{◌≡◌, ◌≢◌, ◌⊎◌, ◌↔◌, ◌≤◌, ◌<◌, true, false, List, length, take};
ghost use Rattle.std.specs.Prelude.{slice_get, IfOk, IfErr, IsTrue, OnOk, Some};
ghost use Rattle.atom_values.specs.Counts.{CountsFault};
ghost use Rattle.atom_writer.specs.Pieces.{text};
ghost use Rattle.feed_disk.specs.Moments.{AlwaysLeaves, LeavesAlone};
ghost use Rattle.feed_disk.specs.declared.area.Area.{Area as AreaValue};
ghost use Rattle.feed_disk.specs.declared.area.Area.TheVariants.{Mirror as MirrorArea};
ghost use Rattle.feed_journal.specs.Limits.{area_limit};
ghost use Rattle.feed_journal.specs.Log.{payload_lengths};
ghost use Rattle.feed_journal.specs.Records.{records, IsWhole, StandsFor as ImageStandsFor};
ghost use Rattle.mirror_walk.specs.Accept.{IsKeptOf};
ghost use Rattle.mirror_walk.specs.Checks.{IsNew};
ghost use Rattle.mirror_walk.specs.Holding.{KeptValue, payloads_of};
ghost use Rattle.mirror_walk.specs.Loaded.{IsLoadedOf, IsMirrorFault};
ghost use Rattle.mirror_walk.specs.Loading.{FailsBy, IsNext, IsReadable, IsUnfit, OnlyReads, Worked};
ghost use Rattle.mirror_walk.specs.Mirror.{IsAtRest, IsNewlyLoaded, KeepsDocuments, StandsFor};
ghost use Rattle.mirror_walk.specs.Refused.{IsRefusal, Refuses, RefusesAt};

use crate::answer::Offered;
use crate::documents::Documents;
use crate::kept::{Given, read_given};
use crate::mirror::Mirror;
use crate::mirror_fault::MirrorFault;
use atom_grammar::ReadFault;
use atom_values::{Copies, NoMemory};
use chain_links::Base;
use feed_disk::{Area, Disk};
use feed_journal::Log;
use std::alloc::Global;

impl Mirror {
    /// Loads the mirror of the feed below this base from the mirror area of a disk: takes the area's payloads
    /// in order, each under its own address. It syncs the area first, so that a crash can't change what it
    /// reads. `capacity` is the greatest size of the area in bytes, which only `offer` looks at.
    ///
    /// Errors: the first of [`MirrorFault`] that fits. `DiskFault` if the disk's count of faults rose.
    /// `NoMemory`, which hides no failed device call.
    ///
    /// Cost: one read of each header and one of each payload, which is digested once.
    pub fn load<D: Disk>(
        alloc: Global,
        disk: &mut D,
        base: Base,
        capacity: u64,
    ) -> Result<Mirror, MirrorFault>
        requires { capacity ≤ area_limit }
        ensures begins { IfOk result (IsNewlyLoaded base capacity) }
        ensures loaded { IfOk result (λ mirror. D.observable
            → IsLoadedOf base (records ((D.state disk.old).content MirrorArea)) mirror.kept) }
        // On any disk, each document held was taken after those before it.
        ensures taken { IfOk result (λ mirror. IsLoadedOf base (payloads_of mirror.kept) mirror.kept) }
        ensures stands { IfOk result (λ mirror. D.observable → StandsFor (D.state disk.new) mirror) }
        // An area whose payloads are taken in order is loaded, unless a device call fails or memory runs out.
        ensures only { D.observable → (kept : List KeptValue)
            → IsLoadedOf base (records ((D.state disk.old).content MirrorArea)) kept
            → IfErr result (λ fault. (fault ≡ MirrorFault.DiskFault) ⊎ (fault ≡ MirrorFault.NoMemory)) }
        ensures refused { IfErr result (λ fault. D.observable
            → IsMirrorFault base (records ((D.state disk.old).content MirrorArea)) fault) }
        // On any disk, the fault is one of a load of some log: a payload that is read short is a bad record
        // of its own index at 0.
        ensures refusal { IfErr result (IsRefusal base) }
        ensures same { OnOk result (D.observable → (a : AreaValue)
            → records ((D.state disk.new).content a) ≡ records ((D.state disk.old).content a)) }

        // A crash at any moment of the load, whatever it returns, leaves the payloads of an image that a
        // crash before it could leave. After `Ok` of a whole area it leaves the documents that are held.
        ensures moments { D.observable → AlwaysLeaves (D.state disk.old) (D.state disk.new) MirrorArea
            (ImageStandsFor ((D.state disk.old).image_now MirrorArea)) }
        ensures rests { IfOk result (λ mirror. D.observable → IsWhole ((D.state disk.old).content MirrorArea)
            → IsAtRest (D.state disk.new) mirror.kept) }
        ensures others { (a : AreaValue) → a ≢ MirrorArea
            → LeavesAlone (D.state disk.old) (D.state disk.new) a }

        ensures faults { CountsFault (D.state disk.old).faults (D.state disk.new).faults
            (result ≡ Err MirrorFault.DiskFault) }
    {
        let log = Log::load(alloc, disk, Area::Mirror)?;
        let mirror = reopen(alloc, disk, log, base, capacity)?;
        Ok(mirror)
    }
}

/// Takes the payloads of the log, and returns their mirror.
fn reopen<D: Disk>(
    alloc: Global,
    disk: &mut D,
    mut log: Log,
    base: Base,
    capacity: u64,
) -> Result<Mirror, MirrorFault>
    requires log { IsReadable D.observable (D.state disk.old) log }
    requires capacity { capacity ≤ area_limit }
    ensures begins { IfOk result (IsNewlyLoaded base capacity) }
    ensures taken { IfOk result (λ mirror. IsLoadedOf base (payloads_of mirror.kept) mirror.kept) }
    ensures stands { IfOk result (λ mirror. D.observable → StandsFor (D.state disk.new) mirror) }
    ensures worked { OnOk result ((D.state disk.new).faults ≡ (D.state disk.old).faults) }
    ensures reads { OnlyReads (D.state disk.old) (D.state disk.new) }
    ensures fault { IfErr result (FailsBy D.observable base (D.state disk.old) (D.state disk.new)) }
    ensures refused { IfErr result (Refuses base log.extents) }
{
    let documents = held_of(alloc, disk, &mut log, base)?;
    Ok(Mirror {
        alloc,
        documents,
        log,
        capacity,
    })
}

/// Takes the payloads of the log in order, each under its own address.
fn held_of<D: Disk>(
    alloc: Global,
    disk: &mut D,
    log: &mut Log,
    base: Base,
) -> Result<Documents, MirrorFault>
    requires { IsReadable D.observable (D.state disk.old) log.old }
    ensures base { IfOk result (λ held. held.base ≡ base) }
    ensures unlisted { IfOk result (λ held. held.listed ≡ false) }
    ensures documents { IfOk result (λ held. KeepsDocuments base held.kept log.new) }
    ensures payloads { IfOk result (λ held. D.observable
        → records ((D.state disk.old).content MirrorArea) ≡ payloads_of held.kept) }
    ensures worked { OnOk result (Worked (D.state disk.old) (D.state disk.new) log.old log.new) }
    ensures reads { OnlyReads (D.state disk.old) (D.state disk.new) }
    ensures fault { IfErr result (FailsBy D.observable base (D.state disk.old) (D.state disk.new)) }
    ensures refused { IfErr result (Refuses base log.old.extents) }
{
    let mut held = Documents::new(alloc, base);
    for index in 0..log.len() {
        let given = document_of(alloc, disk, log, &held, index)?;
        held.take(given)?;
    }
    Ok(held)
}

/// Reads the document of an index, which the mirror has to take after those before it.
fn document_of<D: Disk>(
    alloc: Global,
    disk: &mut D,
    log: &mut Log,
    held: &Documents,
    index: u32,
) -> Result<Given, MirrorFault>
    requires log { IsReadable D.observable (D.state disk.old) log.old }
    requires within { index < length log.old.extents }
    requires count { length held.now.kept ≡ index }
    requires loaded { IsLoadedOf held.now.base (payloads_of held.now.kept) held.now.kept }
    requires before { D.observable
        → take index (records ((D.state disk.old).content MirrorArea)) ≡ payloads_of held.now.kept }
    ensures document { IfOk result (λ given. IsKeptOf (text given.kept.document) given.kept) }
    ensures name { IfOk result (λ given. given.name ≡ given.kept.document.name) }
    ensures next { IfOk result (λ given. IsNext held.now.base held.now.kept given.kept) }
    ensures new { IfOk result (λ given. IsNew held.now.kept given.kept.document) }
    ensures payload { IfOk result (λ given. D.observable
        → slice_get (records ((D.state disk.old).content MirrorArea)) index ≡ Some (text given.kept.document)) }
    ensures length { IfOk result (λ given.
        slice_get (payload_lengths log.old.extents) index ≡ Some (length (text given.kept.document))) }
    ensures worked { OnOk result (Worked (D.state disk.old) (D.state disk.new) log.old log.new) }
    ensures reads { OnlyReads (D.state disk.old) (D.state disk.new) }
    ensures fault { IfErr result (FailsBy D.observable held.now.base (D.state disk.old) (D.state disk.new)) }
    ensures refused { IfErr result (RefusesAt held.now.base held.now.kept log.old.extents index) }
{
    let payload = log.read(disk, index)?;
    match read_given(alloc, payload.as_slice()) {
        Ok(given) => held.admit(given, index, payload.len()),
        Err(ReadFault::NotADocument { at }) => Err(MirrorFault::BadRecord { index, at }),
        Err(ReadFault::NoMemory) => Err(MirrorFault::NoMemory),
    }
}

impl Documents {
    /// Returns the document of the payload with this index and length, if it is taken under its own address.
    #[tactic(auto, using(crate::proofs::FirstLemmas::first_differs))]
    fn admit(&self, given: Given, index: u32, size: usize) -> Result<Given, MirrorFault>
        requires document { IsKeptOf (text given.kept.document) given.kept }
        requires name { given.name ≡ given.kept.document.name }
        requires count { length self.now.kept ≡ index }
        ensures same { IfOk result (λ admitted. admitted ≡ given) }
        ensures next { OnOk result (IsNext self.now.base self.now.kept given.kept) }
        ensures new { OnOk result (IsNew self.now.kept given.kept.document) }
        ensures fault { IfErr result (IsUnfit self.now.base self.now.kept index given.kept size) }
    {
        if self.is_next(&given)? {
            Ok(given)
        } else if index == 0 {
            // Only another base keeps the first document out.
            Err(MirrorFault::OtherBase {
                kept: given.name.base.copy(self.alloc)?,
            })
        } else {
            Err(MirrorFault::BadRecord { index, at: size })
        }
    }

    /// Whether the mirror takes the document under its own address.
    fn is_next(&self, given: &Given) -> Result<bool, NoMemory>
        requires { given.now.name ≡ given.now.kept.document.name }
        ensures next { IfOk result (λ next. IsTrue next ↔ IsNext self.now.base self.now.kept given.now.kept) }
        ensures new { result ≡ Ok true → IsNew self.now.kept given.now.kept.document }
    {
        let own = given.kept.kind().address();
        let address = given.name.base.print(self.alloc, own)?;
        match self.check(address.as_slice(), &given.name, &given.kept) {
            Ok(None) => Ok(true),
            Ok(Some(_)) => Ok(false),
            Err(Offered::NoMemory) => Err(NoMemory),
            Err(_) => Ok(false),
        }
    }
}
