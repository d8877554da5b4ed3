ghost use Rattle.std.specs.Prelude.{◌≡◌, ◌≢◌, ◌+◌, ◌<◌, ◌≤◌, false, ◌∷◌, [], ◌++◌, length, Some, None, Ok, Err, IfOk, IfErr};
ghost use Rattle.std.specs.Prelude.{OnOk, OnErr};
ghost use Rattle.atom_values.specs.Counts.{CountsFault, counter_limit};
ghost use Rattle.feed_disk.specs.Moments.{LeavesAlone};
ghost use Rattle.feed_disk.specs.declared.area.Area.TheVariants.{Mirror};
ghost use Rattle.feed_recovery.specs.Settled.{AlwaysLeavesBoth, IsAtRest, IsSettled, KeepsPayloads, OpensPast, Settled};
ghost use Rattle.feed_recovery.specs.Store.{StandsFor, is_spent};
ghost use Rattle.feed_recovery.specs.Stored.{OpensTo, Stored, stored_of};
ghost use Rattle.command_ends.specs.declared.status.Status.TheVariants as status;
ghost use Rattle.store_commands.specs.Applied.{IsUnrefused};
ghost use Rattle.store_commands.specs.Crash.{EndsAfterLoad, EndsApplying};
ghost use Rattle.command_ends.specs.Fault.{fault_answer, HasAnswer, IsRefusal};
ghost use Rattle.store_commands.specs.Lines.{input_limit};
ghost use Rattle.store_commands.specs.Loaded.{LeavesLines, line_made};
ghost use Rattle.feed_disk.specs.Raised.{RisesAtMost};
ghost use Rattle.store_commands.specs.Stored.{IsAnswerOn, applied_store, apply_answer, archive_answer};
ghost use Rattle.store_commands.specs.Stored.{feed_answer, member_answer, stored_step, with_operation};
ghost use Rattle.member_rules.specs.declared.operation.Op.{Op};

use crate::line::line_ask;
use crate::lines::Lines;
use command_ends::{Fault, Refusal};
use doc_source::Source;
use document_server::Clock;
use feed_disk::Disk;
use feed_recovery::{Store, stores_open_in_one_way};
use std::alloc::Global;

/// `apply`: applies the lines of the input to the store, each with one moment of the clock, and returns the text of the
/// subscription document (RFC 5005 section 3). The lines before a fault stay applied.
///
/// Errors: `BadStore` if the disk has no store that opens; `Refused` with the first line that can't be applied, or if
/// the input has more than 1,073,741,824 bytes; `Full` if a file has no room for the next operation; `Disk` and `Input`
/// if a call failed; `NoMemory`.
pub fn apply<D: Disk, C: Clock, I: Source>(
    alloc: Global,
    disk: &mut D,
    clock: &mut C,
    input: &mut I,
) -> Result<Vec<u8>, Fault>
    ensures answer { IfOk result (λ written. D.observable → C.observable → I.observable → IsAnswerOn (D.state disk.old).content
        (apply_answer (C.coming clock.old) (I.state input.old).left)
        record { status = status.Done; printed = written.items }) }
    ensures refused { IfErr result (λ fault. IsRefusal fault → D.observable → C.observable → I.observable
        → IsAnswerOn (D.state disk.old).content (apply_answer (C.coming clock.old) (I.state input.old).left)
        (fault_answer fault)) }
    ensures applied { D.observable → EndsApplying (D.state disk.old) (D.state disk.new) (C.coming clock.old)
        (I.state input.old) (I.state input.new) C.observable I.observable
        (result ≡ Err Fault.Disk) (result ≡ Err Fault.Input) (EndsAfterLoad result) (HasAnswer result) }
    ensures mirror { LeavesAlone (D.state disk.old) (D.state disk.new) Mirror }
    ensures disk_faults { CountsFault (D.state disk.old).faults (D.state disk.new).faults
        (result ≡ Err Fault.Disk) }
    ensures input_faults { CountsFault (I.state input.old).faults (I.state input.new).faults
        (result ≡ Err Fault.Input) }
    ensures unrefused { result ≡ Err Fault.Input → D.observable → C.observable → I.observable → (stored : Stored)
        × OpensTo (D.state disk.old).content stored
        × IsUnrefused (stored_step (C.coming clock.old)) stored (I.state input.old) (I.state input.new) }
    ensures read { RisesAtMost (input_limit + 1) (I.state input.old).bytes_read (I.state input.new).bytes_read }
{
    stores_open_in_one_way();
    let mut store = Store::load(alloc, disk)?;
    match apply_lines(alloc, &mut store, disk, clock, input) {
        Ok(()) => {
            let text = store.subscription();
            drop(store);
            Ok(text?)
        }
        Err(fault) => {
            drop(store);
            Err(fault)
        }
    }
}

/// Applies the lines of the input to the store that was loaded.
fn apply_lines<D: Disk, C: Clock, I: Source>(
    alloc: Global,
    store: &mut Store,
    disk: &mut D,
    clock: &mut C,
    input: &mut I,
) -> Result<(), Fault>
    requires unspent { is_spent store.old ≡ false }
    requires stands { D.observable → StandsFor (D.state disk.old) store.old }
    ensures made { OnOk result (D.observable → C.observable → I.observable
        → applied_store (C.coming clock.old) (stored_of store.old) (I.state input.old).left
        ≡ record { feed = stored_of store.new; fault = None }) }
    ensures refused { IfErr result (λ fault. IsRefusal fault → D.observable → C.observable → I.observable
        → applied_store (C.coming clock.old) (stored_of store.old) (I.state input.old).left
        ≡ record { feed = stored_of store.new; fault = Some fault }) }
    ensures unspent { OnOk result (is_spent store.new ≡ false) }
    ensures stands { result ≢ Err Fault.Disk → D.observable → StandsFor (D.state disk.new) store.new }
    ensures leaves { D.observable → IsAtRest (D.state disk.old)
        → Settled (D.state disk.old) store.old.head store.old.history (length store.old.history)
        → LeavesLines (D.state disk.old) (D.state disk.new) (C.coming clock.old) (I.state input.old)
        (I.state input.new) (C.observable × I.observable) (stored_of store.old)
        (result ≡ Err Fault.Disk) (result ≡ Err Fault.Input) }
    ensures mirror { LeavesAlone (D.state disk.old) (D.state disk.new) Mirror }
    ensures disk_faults { CountsFault (D.state disk.old).faults (D.state disk.new).faults
        (result ≡ Err Fault.Disk) }
    ensures input_faults { CountsFault (I.state input.old).faults (I.state input.new).faults
        (result ≡ Err Fault.Input) }
    ensures unrefused { result ≡ Err Fault.Input → D.observable → C.observable → I.observable
        → IsUnrefused (stored_step (C.coming clock.old)) (stored_of store.old) (I.state input.old)
        (I.state input.new) }
    ensures read { RisesAtMost (input_limit + 1) (I.state input.old).bytes_read (I.state input.new).bytes_read }
{
    let mut lines = Lines::new(alloc)?;
    let opened = store.version();
    while lines.next(input)? {
        let number = u64::from(store.version() - opened) + 1;
        apply_line(alloc, store, disk, number, clock.now(), lines.line())?;
    }
    Ok(())
}

/// Applies a line to the store, at a moment of the clock. `line` may be the prefix that `Lines` keeps of a longer line.
fn apply_line<D: Disk>(
    alloc: Global,
    store: &mut Store,
    disk: &mut D,
    number: u64,
    now: u64,
    line: &[u8],
) -> Result<(), Fault>
    requires unspent { is_spent store.old ≡ false }
    requires stands { D.observable → StandsFor (D.state disk.old) store.old }
    ensures made { OnOk result (D.observable → line_made store.old number now line.now ≡ Ok (stored_of store.new)) }
    ensures refused { IfErr result (λ fault. IsRefusal fault → D.observable
        → line_made store.old number now line.now ≡ Err fault) }
    ensures head { store.new.head ≡ store.old.head }
    ensures grows { OnOk result (length store.new.history ≡ length store.old.history + 1) }
    ensures unspent { OnOk result (is_spent store.new ≡ false) }
    ensures stands { OnOk result (D.observable → StandsFor (D.state disk.new) store.new) }
    ensures same { result ≢ Err Fault.Disk → OnErr result ((stored_of store.new ≡ stored_of store.old)
        × (D.observable → StandsFor (D.state disk.new) store.new)) }
    ensures untouched { result ≢ Err Fault.Disk → OnErr result (disk.new ≡ disk.old) }

    // A crash leaves the history before or with the operation of the line, which took four device calls or more.
    ensures leaves { OnOk result (D.observable → IsAtRest (D.state disk.old) → (operation : Op)
        × (store.new.history ≡ store.old.history ++ operation ∷ [])
        × AlwaysLeavesBoth (D.state disk.old) (D.state disk.new)
        (OpensPast store.old.head (store.old.history ++ operation ∷ []) (length store.old.history))) }
    ensures settled { OnOk result (D.observable → IsAtRest (D.state disk.old) → IsSettled (D.state disk.new) store.new) }
    ensures calls { OnOk result ((D.state disk.new).clock < counter_limit
        → (D.state disk.old).clock + 4 ≤ (D.state disk.new).clock) }
    ensures failed { result ≡ Err Fault.Disk → D.observable → IsAtRest (D.state disk.old) → (operation : Op)
        × (line_made store.old number now line.now ≡ Ok (with_operation (stored_of store.old) operation))
        × (store.new.history ≡ store.old.history)
        × AlwaysLeavesBoth (D.state disk.old) (D.state disk.new)
        (OpensPast store.old.head (store.old.history ++ operation ∷ []) (length store.old.history)) }
    ensures mirror { LeavesAlone (D.state disk.old) (D.state disk.new) Mirror }
    ensures disk_faults { CountsFault (D.state disk.old).faults (D.state disk.new).faults
        (result ≡ Err Fault.Disk) }
    ensures only_errors { result ≢ Err Fault.Input }
{
    let Some(ask) = line_ask(alloc, line)? else {
        return Err(Fault::Refused(Refusal::BadLine { line: number }));
    };
    match store.prepare(ask, now) {
        Ok(ready) => {
            store.commit(disk, ready)?;
            Ok(())
        }
        Err(fault) => Err(Fault::of_prepare(number, fault)),
    }
}

/// `show feed`: returns the text of the store's subscription document.
///
/// Errors: `BadStore` if the disk has no store that opens; `Disk` if a device call failed; `NoMemory`.
pub fn show_feed<D: Disk>(alloc: Global, disk: &mut D) -> Result<Vec<u8>, Fault>
    ensures answer { IfOk result (λ written. D.observable → IsAnswerOn (D.state disk.old).content feed_answer
        record { status = status.Done; printed = written.items }) }
    ensures refused { IfErr result (λ fault. IsRefusal fault → D.observable
        → IsAnswerOn (D.state disk.old).content feed_answer (fault_answer fault)) }
    ensures safe { D.observable → KeepsPayloads (D.state disk.old) (D.state disk.new) }
    ensures mirror { LeavesAlone (D.state disk.old) (D.state disk.new) Mirror }
    ensures disk_faults { CountsFault (D.state disk.old).faults (D.state disk.new).faults
        (result ≡ Err Fault.Disk) }
    ensures only_errors { result ≢ Err Fault.Input }
{
    stores_open_in_one_way();
    let mut store = Store::load(alloc, disk)?;
    let text = store.subscription();
    drop(store);
    Ok(text?)
}

/// `show archive J`: returns the text of an archive of the store (RFC 5005 section 4).
///
/// Errors: `Refused` if that archive isn't sealed, and those of [`show_feed`].
pub fn show_archive<D: Disk>(alloc: Global, number: u32, disk: &mut D) -> Result<Vec<u8>, Fault>
    ensures answer { IfOk result (λ written. D.observable → IsAnswerOn (D.state disk.old).content
        (archive_answer number)
        record { status = status.Done; printed = written.items }) }
    ensures refused { IfErr result (λ fault. IsRefusal fault → D.observable
        → IsAnswerOn (D.state disk.old).content (archive_answer number) (fault_answer fault)) }
    ensures safe { D.observable → KeepsPayloads (D.state disk.old) (D.state disk.new) }
    ensures mirror { LeavesAlone (D.state disk.old) (D.state disk.new) Mirror }
    ensures disk_faults { CountsFault (D.state disk.old).faults (D.state disk.new).faults
        (result ≡ Err Fault.Disk) }
    ensures only_errors { result ≢ Err Fault.Input }
{
    stores_open_in_one_way();
    let mut store = Store::load(alloc, disk)?;
    let text = store.archive(disk, number);
    drop(store);
    Ok(text?)
}

/// `show member N`: returns the document of a live member of the store (RFC 5023 section 9).
///
/// Errors: `Refused` if the member was never made or was deleted, and those of [`show_feed`].
pub fn show_member<D: Disk>(alloc: Global, number: u32, disk: &mut D) -> Result<Vec<u8>, Fault>
    ensures answer { IfOk result (λ written. D.observable → IsAnswerOn (D.state disk.old).content
        (member_answer number)
        record { status = status.Done; printed = written.items }) }
    ensures refused { IfErr result (λ fault. IsRefusal fault → D.observable
        → IsAnswerOn (D.state disk.old).content (member_answer number) (fault_answer fault)) }
    ensures safe { D.observable → KeepsPayloads (D.state disk.old) (D.state disk.new) }
    ensures mirror { LeavesAlone (D.state disk.old) (D.state disk.new) Mirror }
    ensures disk_faults { CountsFault (D.state disk.old).faults (D.state disk.new).faults
        (result ≡ Err Fault.Disk) }
    ensures only_errors { result ≢ Err Fault.Input }
{
    stores_open_in_one_way();
    let mut store = Store::load(alloc, disk)?;
    let text = store.member(disk, number);
    drop(store);
    Ok(text?)
}
