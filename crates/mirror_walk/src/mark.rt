ghost use Rattle.std.specs.Prelude.{◌≡◌, IfOk, map};
ghost use Rattle.mirror_walk.specs.Marks.{AreFromOne, mark_of, marked_number};

use atom_values::NoMemory;
use deleted_entries::Item;
use std::alloc::Global;

/// An item of a document without its content: the number of its member, from 1, and whether it is an entry or
/// a tombstone.
#[derive(Clone, Copy, Debug, PartialEq, Eq)]
pub enum ItemMark {
    /// The item is an entry.
    Live(u32),
    /// The item is a tombstone.
    Gone(u32),
}

impl ItemMark {
    ghost use Rattle.std.specs.Prelude.{◌≤◌};

    /// The mark of this item.
    pub(crate) fn of(item: &Item) -> ItemMark
        ensures mark { result ≡ mark_of item.now }
        ensures from_one { 1 ≤ marked_number result }
    {
        let number = item.number();
        match item {
            Item::Kept(_) => ItemMark::Live(number),
            Item::Gone(_) => ItemMark::Gone(number),
        }
    }

    /// The number of the item's member.
    pub fn number(self) -> u32
        ensures { result ≡ marked_number self }
    {
        match self {
            ItemMark::Live(number) | ItemMark::Gone(number) => number,
        }
    }
}

/// The marks of these items, in order. `NoMemory` if there is no memory for them.
pub(crate) fn marks(alloc: Global, items: &[Item]) -> Result<Vec<ItemMark>, NoMemory>
    ensures marks { IfOk result (λ marks. marks.items ≡ map mark_of items.now) }
    ensures from_one { IfOk result (λ marks. AreFromOne marks.items) }
{
    let mut marks = Vec::with_capacity(alloc, items.len())?;
    for item in items {
        marks.push(ItemMark::of(item))?;
    }
    Ok(marks)
}
