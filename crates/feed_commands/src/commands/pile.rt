ghost use Rattle.std.specs.Prelude.{◌≡◌, ◌≢◌, ◌⊎◌, ◌++◌, ℕ, List, [], false, Ok, Err, IfOk, IfErr, OnOk};
ghost use Rattle.atom_values.specs.Counts.{CountsFault, HasCause, HasRisen};
ghost use Rattle.doc_source.specs.Fetch.{FetchState};
ghost use Rattle.doc_source.specs.Outside.{SourceState, TakesPrefix};
ghost use Rattle.doc_source.specs.Pile.{offer_text};
ghost use Rattle.doc_source.specs.declared.offer.Offer.{Offer as OfferValue};
ghost use Rattle.feed_disk.specs.Moments.{LeavesAlone};
ghost use Rattle.feed_disk.specs.declared.area.Area.{Area as AreaValue};
ghost use Rattle.feed_disk.specs.declared.area.Area.TheVariants.{Mirror};
ghost use Rattle.feed_recovery.specs.Documents.{IsSealed};
ghost use Rattle.feed_recovery.specs.Settled.{KeepsPayloads};
ghost use Rattle.feed_recovery.specs.Store.{StandsFor, is_spent};
ghost use Rattle.feed_recovery.specs.Stored.{OpensTo, Stored, stored_of};
ghost use Rattle.command_ends.specs.declared.fault.Fault.{Fault as FaultValue};
ghost use Rattle.command_ends.specs.declared.status.Status.TheVariants as status;
ghost use Rattle.command_ends.specs.Fault.{fault_answer, IsRefusal};
ghost use Rattle.feed_commands.specs.Outside.{outside_of};
ghost use Rattle.feed_commands.specs.Pile.{EndsCut, IsFrontOf, MayEndPile, TakesFront, offer_of, offers_of, pile_of};
ghost use Rattle.feed_commands.specs.Run.{EndsWith};
ghost use Rattle.command_ends.specs.Ends.{CountsOutput, IsAnswered};
ghost use Rattle.command_ends.specs.Status.{code_of};
ghost use Rattle.store_commands.specs.Stored.{IsBadStore};
ghost use Rattle.member_rules.specs.Documents.{archive, subscription};
ghost use Rattle.tool_words.specs.declared.command.Command.TheVariants.{Show as ShowOf};
ghost use Rattle.tool_words.specs.declared.command.Show.TheVariants.{Pile};

use atom_values::{Bytes, Failed};
use chain_links::Address;
use command_ends::{Fault, Status, print_fault};
use doc_source::{Offer, Sink, write_offer, write_pile_head};
use feed_disk::Disk;
use feed_recovery::{LoadFault, Store};
use std::alloc::Global;

/// Why a pile isn't printed whole.
#[derive(Clone, Copy)]
pub enum PrintFault {
    /// A call on the output failed.
    Output,
    /// The store or the memory ended it.
    Other(Fault),
}

impl From<Failed> for PrintFault {
    ghost use Rattle.std.specs.Prelude.{◌≡◌};
    ghost use Rattle.feed_commands.specs.declared.commands.pile.PrintFault.TheVariants.{Output};

    ghost from_gives = { λ _ e. e ≡ Output };

    fn from(_error: Failed) -> PrintFault {
        PrintFault::Output
    }
}

impl From<Fault> for PrintFault {
    ghost use Rattle.std.specs.Prelude.{◌≡◌};
    ghost use Rattle.feed_commands.specs.declared.commands.pile.PrintFault.TheVariants.{Other};

    ghost from_gives = { λ fault e. e ≡ Other fault };

    fn from(fault: Fault) -> PrintFault {
        PrintFault::Other(fault)
    }
}

impl From<LoadFault> for PrintFault {
    ghost use Rattle.std.specs.Prelude.{◌≡◌};
    ghost use Rattle.feed_commands.specs.declared.commands.pile.PrintFault.TheVariants.{Other};
    ghost use Rattle.command_ends.specs.StoreFaults.{load_fault};

    ghost from_gives = { λ fault e. e ≡ Other (load_fault fault) };

    fn from(fault: LoadFault) -> PrintFault {
        PrintFault::Other(Fault::from(fault))
    }
}

/// Prints the documents of the store as a pile: the subscription document and all sealed archives, newest first. Each
/// is printed as soon as it is made, so one document at a time is in memory beside the store. If a fault ends the pile,
/// the fault's line comes after the documents that were printed before.
pub fn show_pile<D: Disk, O: Sink>(alloc: Global, disk: &mut D, output: &mut O) -> Status
    ensures answered { D.observable → IsAnswered (code_of result)
        → (moments : ℕ → ℕ) (input : SourceState) (source : FetchState)
        → EndsWith (ShowOf Pile) (outside_of moments input (D.state disk.old) source) O.observable
        (O.state output.old) (O.state output.new) (code_of result) }
    ensures cut { O.observable → code_of result ≢ code_of status.Done → code_of result ≢ code_of status.OutputFault
        → EndsCut (D.state disk.old).content D.observable (O.state output.old) (O.state output.new) (code_of result) }
    ensures complete { D.observable → (stored : Stored) → OpensTo (D.state disk.old).content stored
        → ¬ HasRisen (D.state disk.old).faults (D.state disk.new).faults
        → ¬ HasRisen (O.state output.old).faults (O.state output.new).faults
        → (code_of result ≡ code_of status.Done) ⊎ (code_of result ≡ code_of status.NoMemory) }
    ensures statuses { (code_of result ≡ code_of status.Done) ⊎ (code_of result ≡ code_of status.DiskFault)
        ⊎ (code_of result ≡ code_of status.NoMemory) ⊎ (code_of result ≡ code_of status.BadStore)
        ⊎ (code_of result ≡ code_of status.OutputFault) }
    ensures disk_faults { CountsFault (D.state disk.old).faults (D.state disk.new).faults
        (code_of result ≡ code_of status.DiskFault) }
    ensures output_faults { CountsOutput (O.state output.old).faults (O.state output.new).faults (code_of result) }
    ensures safe { D.observable → KeepsPayloads (D.state disk.old) (D.state disk.new) }
    ensures mirror { LeavesAlone (D.state disk.old) (D.state disk.new) Mirror }
{
    match print_pile(alloc, disk, output) {
        Ok(()) => Status::Done,
        Err(PrintFault::Output) => Status::OutputFault,
        Err(PrintFault::Other(fault)) => print_fault(output, fault),
    }
}

/// Loads the store of a disk and prints its documents.
fn print_pile<D: Disk, O: Sink>(
    alloc: Global,
    disk: &mut D,
    output: &mut O,
) -> Result<(), PrintFault>
    ensures whole { OnOk result (D.observable → (stored : Stored) × OpensTo (D.state disk.old).content stored
        × (O.observable → (O.state output.new).taken ≡ (O.state output.old).taken ++ pile_of stored)) }
    ensures prefix { result ≡ Err PrintFault.Output → D.observable
        → (stored : Stored) × OpensTo (D.state disk.old).content stored
        × (O.observable → TakesPrefix (O.state output.old) (O.state output.new) (pile_of stored)) }
    ensures cut { (fault : FaultValue) → result ≡ Err (PrintFault.Other fault) → O.observable → (front : List ℕ)
        × ((O.state output.new).taken ≡ (O.state output.old).taken ++ front)
        × (D.observable → (front ≡ []) ⊎ IsFrontOf (D.state disk.old).content front) }
    ensures refused { (fault : FaultValue) → result ≡ Err (PrintFault.Other fault) → IsRefusal fault → D.observable
        → IsBadStore (D.state disk.old).content (fault_answer fault) × (output.new ≡ output.old) }
    ensures opened { (fault : FaultValue) → result ≡ Err (PrintFault.Other fault) → D.observable
        → (stored : Stored) → OpensTo (D.state disk.old).content stored → ¬ IsRefusal fault }
    ensures faults { (fault : FaultValue) → result ≡ Err (PrintFault.Other fault) → MayEndPile fault }
    ensures safe { D.observable → KeepsPayloads (D.state disk.old) (D.state disk.new) }
    ensures mirror { LeavesAlone (D.state disk.old) (D.state disk.new) Mirror }
    ensures disk_faults { CountsFault (D.state disk.old).faults (D.state disk.new).faults
        (result ≡ Err (PrintFault.Other Fault.Disk)) }
    ensures output_faults { CountsFault (O.state output.old).faults (O.state output.new).faults
        (result ≡ Err PrintFault.Output) }
{
    let mut store = Store::load(alloc, disk)?;
    let printed = print_documents(alloc, &mut store, disk, output);
    drop(store);
    printed
}

/// Prints the documents of a store that was loaded.
fn print_documents<D: Disk, O: Sink>(
    alloc: Global,
    store: &mut Store,
    disk: &mut D,
    output: &mut O,
) -> Result<(), PrintFault>
    requires unspent { is_spent store.old ≡ false }
    requires stands { D.observable → StandsFor (D.state disk.old) store.old }
    ensures whole { OnOk result (D.observable → O.observable
        → (O.state output.new).taken ≡ (O.state output.old).taken ++ pile_of (stored_of store.old)) }
    ensures prefix { result ≡ Err PrintFault.Output → D.observable → O.observable
        → TakesPrefix (O.state output.old) (O.state output.new) (pile_of (stored_of store.old)) }
    ensures cut { (fault : FaultValue) → result ≡ Err (PrintFault.Other fault) → O.observable
        → (left : List OfferValue)
        × TakesFront D.observable (offers_of (stored_of store.old)) left (O.state output.old) (O.state output.new) }
    ensures opened { (fault : FaultValue) → result ≡ Err (PrintFault.Other fault) → D.observable
        → ¬ IsRefusal fault }
    ensures faults { (fault : FaultValue) → result ≡ Err (PrintFault.Other fault) → MayEndPile fault }
    ensures areas { (a : AreaValue) → LeavesAlone (D.state disk.old) (D.state disk.new) a }
    ensures disk_faults { CountsFault (D.state disk.old).faults (D.state disk.new).faults
        (result ≡ Err (PrintFault.Other Fault.Disk)) }
    ensures output_faults { CountsFault (O.state output.old).faults (O.state output.new).faults
        (result ≡ Err PrintFault.Output) }
{
    write_pile_head(output)?;
    print_offer(output, feed_offer(alloc, store)?)?;
    let mut number = store.sealed();
    while number > 0 {
        print_offer(output, archive_offer(alloc, store, disk, number)?)?;
        number -= 1;
    }
    Ok(())
}

/// Prints an offer of a pile, and drops it.
fn print_offer<O: Sink>(output: &mut O, offer: Offer) -> Result<(), Failed>
    ensures prefix { O.observable → TakesPrefix (O.state output.old) (O.state output.new) (offer_text offer) }
    ensures whole { OnOk result (O.observable
        → (O.state output.new).taken ≡ (O.state output.old).taken ++ offer_text offer) }
    ensures counts { HasCause (O.state output.old).faults (O.state output.new).faults result }
{
    let printed = write_offer(output, offer.address.slice(), offer.bytes.slice());
    drop(offer);
    printed
}

/// Makes the subscription document of the store, at its address.
fn feed_offer(alloc: Global, store: &mut Store) -> Result<Offer, Fault>
    requires { is_spent store.old ≡ false }
    ensures offer { IfOk result (λ offer.
        offer ≡ offer_of (subscription store.old.head store.old.history)) }
    ensures same { store.new ≡ store.old }
    ensures fault { IfErr result (λ fault. fault ≡ Fault.NoMemory) }
{
    let address = store.head().name.base.print(alloc, Address::Feed)?;
    let bytes = store.subscription()?;
    Ok(Offer {
        address: Bytes::from_vec(address),
        bytes: Bytes::from_vec(bytes),
    })
}

/// Reads a sealed archive of the store, at its address.
fn archive_offer<D: Disk>(
    alloc: Global,
    store: &mut Store,
    disk: &mut D,
    number: u32,
) -> Result<Offer, Fault>
    requires unspent { is_spent store.old ≡ false }
    requires stands { D.observable → StandsFor (D.state disk.old) store.old }
    requires sealed { IsSealed store.old number }
    ensures offer { IfOk result (λ offer. D.observable
        → offer ≡ offer_of (archive store.old.head store.old.history number)) }
    ensures head { store.new.head ≡ store.old.head }
    ensures history { store.new.history ≡ store.old.history }
    ensures unspent { OnOk result (is_spent store.new ≡ false) }
    ensures stands { OnOk result (D.observable → StandsFor (D.state disk.new) store.new) }
    ensures opened { IfErr result (λ fault. D.observable → ¬ IsRefusal fault) }
    ensures faults { IfErr result MayEndPile }
    ensures areas { (a : AreaValue) → LeavesAlone (D.state disk.old) (D.state disk.new) a }
    ensures disk_faults { CountsFault (D.state disk.old).faults (D.state disk.new).faults
        (result ≡ Err Fault.Disk) }
{
    let address = store
        .head()
        .name
        .base
        .print(alloc, Address::Archive(number))?;
    let bytes = store.archive(disk, number)?;
    Ok(Offer {
        address: Bytes::from_vec(address),
        bytes: Bytes::from_vec(bytes),
    })
}
