ghost use Rattle.std.specs.Prelude.{◌≡◌, [], IfOk, OnOk, map, nat_eq};
ghost use Rattle.std.specs.BTreeMap.{Updates};
ghost use Rattle.std.specs.List.{IsDistinct};
ghost use Rattle.std.specs.Ordering.{nat_cmp};
ghost use Rattle.mirror_walk.specs.Index.{LaysOver, replaced_in, replaced_number, replaced_place};

use crate::documents::EntryPlace;
use crate::mark::ItemMark;
use atom_values::NoMemory;
use std::alloc::Global;
use std::collections::BTreeMap;

/// What an item of the subscription document replaced in a [`BaseMap`]: the place of its member's entry, if
/// there was one.
#[derive(Clone, Copy, Debug)]
pub(crate) struct Replaced {
    pub(crate) number: u32,
    pub(crate) place: Option<EntryPlace>,
}

/// The places of entries, by the members' numbers: those that the archives from 1 up to `last` show. The best
/// subscription document may be laid over them.
///
/// An archive never changes, so the map of archives only grows. The best subscription document does change, so
/// the map notes what its items replaced, and a later list puts that back.
#[derive(Drop)]
pub(crate) struct BaseMap {
    /// The number of the last archive, or 0 if there is none.
    pub(crate) last: u32,
    pub(crate) entries: BTreeMap<u32, EntryPlace>,
    /// What each item of the subscription document replaced. Empty if none is laid.
    pub(crate) replaced: Vec<Replaced>,
}

impl BaseMap {
    /// A map of no archives. Takes no memory.
    pub(crate) fn new(alloc: Global) -> BaseMap
        ensures last { result.last ≡ 0 }
        ensures empty { result.entries.entries ≡ [] }
        ensures bare { result.replaced.items ≡ [] }
    {
        BaseMap {
            last: 0,
            entries: BTreeMap::new(alloc),
            replaced: Vec::new(alloc),
        }
    }

    /// The map without its subscription document: puts back each place that was replaced. `NoMemory` if there
    /// is no memory for the places of entries that the document deleted.
    pub(crate) fn lifted(self) -> Result<BaseMap, NoMemory>
        requires { IsDistinct nat_eq (map replaced_number self.replaced.items) }
        ensures last { IfOk result (λ lifted. lifted.last ≡ self.last) }
        ensures restored { IfOk result (λ lifted. LaysOver replaced_number replaced_place
            self.replaced.items self.entries lifted.entries) }
        ensures bare { IfOk result (λ lifted. lifted.replaced.items ≡ []) }
    {
        let BaseMap {
            last,
            mut entries,
            mut replaced,
        } = self;
        restore(&mut entries, replaced.as_slice())?;
        replaced.clear();
        Ok(BaseMap {
            last,
            entries,
            replaced,
        })
    }
}

/// Puts back what the items of a document replaced.
fn restore(entries: &mut BTreeMap<u32, EntryPlace>, replaced: &[Replaced]) -> Result<(), NoMemory>
    requires { IsDistinct nat_eq (map replaced_number replaced.now) }
    ensures { OnOk result
        (LaysOver replaced_number replaced_place replaced.now entries.old entries.new) }
{
    for before in replaced {
        put_back(entries, *before)?;
    }
    Ok(())
}

/// Puts back what one item replaced. If its member had no place, its place is removed.
fn put_back(entries: &mut BTreeMap<u32, EntryPlace>, replaced: Replaced) -> Result<(), NoMemory>
    ensures { OnOk result (Updates nat_cmp entries.old entries.new replaced.number replaced.place) }
{
    match replaced.place {
        Some(place) => {
            entries.insert(replaced.number, place)?;
        }
        None => {
            entries.remove(&replaced.number);
        }
    }
    Ok(())
}

/// What each of these items will replace once they are laid over these entries. `NoMemory` if there is no
/// memory for it.
pub(crate) fn replaced_by(
    alloc: Global,
    entries: &BTreeMap<u32, EntryPlace>,
    items: &[ItemMark],
) -> Result<Vec<Replaced>, NoMemory>
    ensures { IfOk result (λ replaced. replaced.items ≡ map (replaced_in entries.now) items.now) }
{
    let mut replaced = Vec::with_capacity(alloc, items.len())?;
    for item in items {
        let number = item.number();
        let place = entries.get(&number).copied();
        replaced.push(Replaced { number, place })?;
    }
    Ok(replaced)
}
