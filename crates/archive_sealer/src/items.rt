ghost use Rattle.std.specs.Prelude.{◌≡◌, ◌≤◌, [], ◌∷◌, ◌++◌, length, IfOk, IfSome, OnOk};
ghost use Rattle.member_rules.specs.Head.{window_limit};
ghost use Rattle.member_rules.specs.Items.{items_of};
ghost use Rattle.member_rules.specs.Operation as operations;

use atom_values::{Copies, Many, NoMemory};
use atom_writer::MAX_ITEMS;
use deleted_entries::Item;
use member_rules::Op;
use std::alloc::Global;
use std::collections::BTreeSet;

/// The items of the operations: for each member that they name, the item of the member's last operation, newest
/// operation first. It reads each operation once.
pub(crate) fn items(alloc: Global, span: &[Op]) -> Result<Many<Item, MAX_ITEMS>, NoMemory>
    requires { length span.now ≤ window_limit }
    ensures { IfOk result (λ items. items.items ≡ items_of span.now) }
{
    let mut items = Many::new(alloc);
    items.reserve(span.len())?;
    let mut met = BTreeSet::new(alloc);
    for operation in span.iter().rev() {
        let Some(number) = operation.member() else {
            continue;
        };
        if !met.insert(number)? {
            continue;
        }
        push_item(alloc, &mut items, operation)?;
    }
    Ok(items)
}

/// Adds the item that the operation leaves of its member.
fn push_item(
    alloc: Global,
    items: &mut Many<Item, MAX_ITEMS>,
    operation: &Op,
) -> Result<(), NoMemory>
    ensures { OnOk result (IfSome (operations.item_of operation.now) (λ item. items.new.items ≡ items.old.items ++ item ∷ [])) }
{
    let item = match operation {
        Op::Add(entry) | Op::Change(entry) => Item::Kept(entry.copy(alloc)?),
        Op::Remove(removal) => Item::Gone(removal.tombstone),
        Op::Set { .. } => return Ok(()),
    };
    items.push(item).map_err(|_| NoMemory)
}
