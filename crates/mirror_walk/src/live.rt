ghost use Rattle.std.specs.Prelude.{◌≡◌, ◌≤◌, ◌<◌, ◌^◌, ℕ, ◌∷◌, List, IsTrue, IsSome, IfOk, IfSome, OnOk};
ghost use Rattle.std.specs.Prelude.{OnErr};
ghost use Rattle.std.specs.Prelude.{None, Some, length, map, nat_eq, slice_get};
ghost use Rattle.std.specs.BTreeMap.{Updates};
ghost use Rattle.std.specs.Ordering.{nat_cmp};
ghost use Rattle.member_rules.specs.Head.{HeadValue};
ghost use Rattle.member_rules.specs.declared.operation.Op.{Op};
ghost use Rattle.member_rules.specs.Shows.{live_count_of};
ghost use Rattle.std.specs.List.{IsDistinct};
ghost use Rattle.mirror_walk.specs.Holding.{KeptValue, archive_at, archives_from, best_of, chain_of};
ghost use Rattle.mirror_walk.specs.Holding.{first_missing};
ghost use Rattle.mirror_walk.specs.Index.{AreMembers, HasEntries, HasEntryAt, IsBare, IsBaseMap, IsListing};
ghost use Rattle.mirror_walk.specs.Index.{LaysOver, entry_place};
ghost use Rattle.mirror_walk.specs.Laws.{ShowsServed};
ghost use Rattle.mirror_walk.specs.Offers.{AreServed, AreTakenOf, Offering};
ghost use Rattle.mirror_walk.specs.Marks.{AreFromOne, marked_number, marks_of};
ghost use Rattle.mirror_walk.specs.Listing.{HasAddress, IsLastLive, IsNextLive, IsShownAt, is_complete};
ghost use Rattle.mirror_walk.specs.Listing.{live_at, outcome_of};

use crate::answer::Outcome;
use crate::base_map::{BaseMap, replaced_by};
use crate::documents::{Documents, EntryPlace};
use crate::mark::ItemMark;
use atom_values::NoMemory;
use std::collections::BTreeMap;
use std::mem;
use std::ops::Bound;

/// Lists an item over those of older documents: the place of its entry, and nothing if it is a tombstone.
fn list_item(
    live: &mut BTreeMap<u32, EntryPlace>,
    document: u32,
    at: u32,
    item: ItemMark,
) -> Result<(), NoMemory>
    ensures updates { OnOk result
        (Updates nat_cmp live.old live.new (marked_number item) (entry_place document at item)) }
    ensures small { marked_number item < 2 ^ 32 }
{
    let number = item.number();
    match item {
        ItemMark::Live(_) => {
            live.insert(number, EntryPlace { document, item: at })?;
        }
        ItemMark::Gone(_) => {
            live.remove(&number);
        }
    }
    Ok(())
}

/// Lists the items of a document over those of older documents. `document` is its index among those taken.
fn list_items(
    live: &mut BTreeMap<u32, EntryPlace>,
    document: u32,
    items: &[ItemMark],
) -> Result<(), NoMemory>
    requires distinct { IsDistinct nat_eq (map marked_number items.now) }
    requires from_one { AreFromOne items.now }
    requires few { length items.now < 2 ^ 32 }
    ensures items { OnOk result
        (LaysOver marked_number (entry_place document) items.now live.old live.new) }
    ensures members { OnOk result (AreMembers live.old → AreMembers live.new) }
{
    for (at, item) in items.iter().enumerate() {
        list_item(live, document, at as u32, *item)?;
    }
    Ok(())
}

impl Documents {
    /// Returns the first missing document, as `wanted` does, or else the version and the number of live
    /// entries. Archives that the best subscription document doesn't need are not used.
    ///
    /// If none is missing, the live entries are listed afterwards, for `next_live` and `entry_place`.
    /// `NoMemory` if there is no memory for the list, and then the next call makes it from nothing.
    ///
    /// Cost: the first list takes one pass over the items of the needed documents. A later one passes over
    /// those of the archives that are new in the chain, of the best subscription document, and of the one that
    /// was the best when the last list was made. If the best subscription document needs fewer archives than
    /// are listed, the list is made from nothing. Without a new document, a call makes no list.
    pub(crate) fn outcome(&mut self) -> Result<Outcome, NoMemory>
        ensures outcome { IfOk result (λ outcome. outcome ≡ outcome_of self.old.kept) }
        ensures address { IfOk result HasAddress }
        ensures listed { IfOk result (λ outcome. IsTrue (is_complete outcome) → IsTrue self.new.listed) }
        ensures base { self.new.base ≡ self.old.base }
        ensures kept { self.new.kept ≡ self.old.kept }
        ensures err { OnErr result (self.new ≡ self.old) }
        // If one feed served all documents held, the result is that of the feed at this version.
        ensures served { (head : HeadValue) (history : List Op) (offers : List Offering)
            → self.old.base ≡ head.name.base → AreServed head history offers
            → AreTakenOf self.old.base offers self.old.kept
            → ShowsServed head history offers self.old.kept (best_of self.old.kept) }
    {
        if let Some(address) = self.wanted() {
            return Ok(Outcome::Missing { address });
        }
        self.list()?;
        // No document is missing, so there is a best subscription document.
        Ok(Outcome::Complete {
            version: self.best_kept().unwrap().span().last,
            live: self.live_count(),
        })
    }

    /// Lists the live entries, unless they are listed.
    fn list(&mut self) -> Result<(), NoMemory>
        requires { first_missing self.old.kept ≡ None }
        ensures listed { OnOk result (IsTrue self.new.listed) }
        ensures base { self.new.base ≡ self.old.base }
        ensures kept { self.new.kept ≡ self.old.kept }
        ensures err { OnErr result (self.new ≡ self.old) }
    {
        if self.listed {
            return Ok(());
        }
        // If memory runs out, the empty map stays.
        let map = mem::replace(&mut self.map, BaseMap::new(self.alloc));
        self.map = self.laid(map)?;
        self.listed = true;
        Ok(())
    }

    /// Lays the archives that the best subscription document needs over those of the map, and then that
    /// document.
    fn laid(&self, map: BaseMap) -> Result<BaseMap, NoMemory>
        requires whole { first_missing self.now.kept ≡ None }
        requires base { IsBaseMap self.now.kept map }
        ensures base { IfOk result (IsBaseMap self.now.kept) }
        ensures listing { IfOk result (λ laid. IsListing self.now.kept laid.entries) }
    {
        // No document is missing, so there is a best subscription document.
        let best = self.best.unwrap();
        let prev = self.kept[best.at as usize].prev();
        let mut map = self.below_best(map, prev)?;
        self.lay_archives(&mut map, prev)?;
        self.lay_best(&mut map, best.at)?;
        Ok(map)
    }

    /// The map without its subscription document, or an empty map if it has archives past `prev`.
    fn below_best(&self, map: BaseMap, prev: u32) -> Result<BaseMap, NoMemory>
        requires { IsBaseMap self.now.kept map }
        ensures bare { IfOk result (IsBare self.now.kept) }
        ensures last { IfOk result (λ below. below.last ≤ prev) }
    {
        if map.last <= prev {
            map.lifted()
        } else {
            Ok(BaseMap::new(self.alloc))
        }
    }

    /// Lays the archives up to `prev` over those of the map, oldest first.
    fn lay_archives(&self, map: &mut BaseMap, prev: u32) -> Result<(), NoMemory>
        requires held { (number : ℕ) → 1 ≤ number → number ≤ prev
            → IsSome (archive_at self.now.kept number) }
        requires bare { IsBare self.now.kept map.old }
        requires last { map.old.last ≤ prev }
        ensures bare { OnOk result (IsBare self.now.kept map.new) }
        ensures last { OnOk result (map.new.last ≡ prev) }
    {
        for before in map.last..prev {
            // The call requires all archives up to `prev`.
            let at = *self.archives.get(&(before + 1)).unwrap();
            self.list_document(at, &mut map.entries)?;
            map.last = before + 1;
        }
        Ok(())
    }

    /// Lays the subscription document of this index over the archives, and notes what its items replace.
    fn lay_best(&self, map: &mut BaseMap, at: u32) -> Result<(), NoMemory>
        requires within { at < length self.now.kept }
        requires bare { IsBare self.now.kept map.old }
        ensures base { OnOk result (IsBaseMap self.now.kept map.new) }
        ensures entries { OnOk result ((found : KeptValue) → slice_get self.now.kept at ≡ Some found
            → HasEntries self.now.kept (found.document ∷ archives_from self.now.kept map.old.last)
            map.new.entries) }
        ensures members { OnOk result (AreMembers map.new.entries) }
    {
        map.replaced = replaced_by(self.alloc, &map.entries, self.kept[at as usize].items())?;
        self.list_document(at, &mut map.entries)
    }

    /// Lists the items of the document with this index over those of older documents.
    fn list_document(&self, at: u32, live: &mut BTreeMap<u32, EntryPlace>) -> Result<(), NoMemory>
        requires { at < length self.now.kept }
        ensures laid { OnOk result ((found : KeptValue) → slice_get self.now.kept at ≡ Some found
            → LaysOver marked_number (entry_place at) (marks_of found.document) live.old live.new) }
        ensures members { OnOk result (AreMembers live.old → AreMembers live.new) }
    {
        list_items(live, at, self.kept[at as usize].items())
    }

    /// How many live entries are listed.
    fn live_count(&self) -> u32
        requires { IsTrue self.now.listed }
        ensures { result ≡ live_count_of (chain_of self.now.kept) }
    {
        // The count fits: each key is a number from 1 in 32 bits.
        self.map.entries.len() as u32
    }

    /// The least number after this one of a live member. `None` if there is none. `outcome` has listed the
    /// live entries, and no document was taken since. Takes no memory.
    pub(crate) fn next_live(&self, after: u32) -> Option<u32>
        requires { IsTrue self.now.listed }
        ensures found { IfSome result (IsNextLive self.now.kept after) }
        ensures last { result ≡ None → IsLastLive self.now.kept after }
        ensures whole { first_missing self.now.kept ≡ None }
    {
        let (number, _) = self
            .map
            .entries
            .range((Bound::Excluded(after), Bound::Unbounded))
            .next()?;
        Some(*number)
    }

    /// The place of a live member's entry. `outcome` has listed the live entries, and no document was taken
    /// since. Takes no memory.
    pub(crate) fn entry_place(&self, number: u32) -> EntryPlace
        requires listed { IsTrue self.now.listed }
        requires live { IsSome (live_at self.now.kept number) }
        ensures place { IfSome (live_at self.now.kept number) (HasEntryAt self.now.kept result) }
        ensures shown { IsShownAt self.now.kept number result.document }
        ensures whole { first_missing self.now.kept ≡ None }
    {
        // The call requires that the entries are listed and that the member is live.
        *self.map.entries.get(&number).unwrap()
    }
}
