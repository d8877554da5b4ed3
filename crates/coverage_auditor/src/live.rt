ghost use Rattle.std.specs.Prelude.{◌≡◌, ◌<◌, ◌^◌, ◌∷◌, List, IfOk, OnOk, MatchOption, length, map, nat_eq};
ghost use Rattle.std.specs.BTreeMap.{Updates};
ghost use Rattle.std.specs.List.{IsDistinct};
ghost use Rattle.std.specs.Ordering.{nat_cmp};
ghost use Rattle.atom_values.specs.Entry.{EntryValue};
ghost use Rattle.atom_writer.specs.Doc.{DocValue};
ghost use Rattle.member_rules.specs.Shows.{live_count_of};
ghost use Rattle.mirror_walk.specs.Index.{AreMembers, LaysOver};
ghost use Rattle.mirror_walk.specs.Marks.{AreFromOne, marked_number};
ghost use Rattle.coverage_auditor.specs.Checks.{Checks};
ghost use Rattle.coverage_auditor.specs.Links.{digest_by, live_differs};
ghost use Rattle.coverage_auditor.specs.LiveList.{HasEntries, HasEntryAt, IsLastLive, IsNextPlace, entry_place};

use crate::chain::Chain;
use crate::halt::Halt;
use crate::verdict::Verdict;
use atom_values::{Entry, NoMemory};
use atom_writer::write_member;
use coverage_certificate::Certificate;
use mirror_walk::ItemMark;
use sha2::{Digest, Sha256};
use std::alloc::Global;
use std::collections::BTreeMap;
use std::ops::Bound;

/// The place of an entry: the index of the line of its document, and the index of the item in it.
#[derive(Clone, Copy, Debug)]
pub(crate) struct EntryPlace {
    document: usize,
    item: usize,
}

/// Lists an item over those of older documents: the place of its entry, and nothing if it is a tombstone.
fn list_item(
    live: &mut BTreeMap<u32, EntryPlace>,
    document: usize,
    at: usize,
    item: ItemMark,
) -> Result<(), NoMemory>
    ensures updates { OnOk result
        (Updates nat_cmp live.old live.new (marked_number item) (entry_place document at item)) }
    ensures small { marked_number item < 2 ^ 32 }
{
    let number = item.number();
    match item {
        ItemMark::Live(_) => {
            live.insert(number, EntryPlace { document, item: at })?;
        }
        ItemMark::Gone(_) => {
            live.remove(&number);
        }
    }
    Ok(())
}

/// Lists the items of a document over those of older documents. `document` is the index of its line.
fn list_items(
    live: &mut BTreeMap<u32, EntryPlace>,
    document: usize,
    items: &[ItemMark],
) -> Result<(), NoMemory>
    requires distinct { IsDistinct nat_eq (map marked_number items.now) }
    requires from_one { AreFromOne items.now }
    ensures items { OnOk result
        (LaysOver marked_number (entry_place document) items.now live.old live.new) }
    ensures members { OnOk result (AreMembers live.old → AreMembers live.new) }
{
    for (at, item) in items.iter().enumerate() {
        list_item(live, document, at, *item)?;
    }
    Ok(())
}

/// The places of the live entries that the documents show, by the numbers of their members.
fn live_places(alloc: Global, chain: &Chain<'_>) -> Result<BTreeMap<u32, EntryPlace>, NoMemory>
    ensures entries { IfOk result (HasEntries chain.now chain.now) }
    ensures members { IfOk result AreMembers }
{
    let mut live = BTreeMap::new(alloc);
    let count = chain.len();
    for older in 0..count {
        let at = count - 1 - older;
        list_items(&mut live, at, chain.document(at).items())?;
    }
    Ok(live)
}

/// The member and the place of the first live entry after this number. `None` if there is none.
fn next_live(live: &BTreeMap<u32, EntryPlace>, after: u32) -> Option<(u32, EntryPlace)>
    ensures { (documents : List DocValue) → HasEntries documents documents live.now
        → MatchOption result (IsLastLive documents after)
        (λ found. IsNextPlace documents after found.0 found.1) }
{
    let (number, place) = live
        .range((Bound::Excluded(after), Bound::Unbounded))
        .next()?;
    Some((*number, *place))
}

/// The entry at a place, read from its piece of the pile. `NoMemory` if there is no memory for it.
fn entry_at(alloc: Global, chain: &Chain<'_>, place: EntryPlace) -> Result<Entry, NoMemory>
    requires { (entry : EntryValue) × HasEntryAt chain.now place entry }
    ensures { IfOk result (HasEntryAt chain.now place) }
{
    chain
        .document(place.document)
        .entry(alloc, chain.name(), place.item)
}

/// The SHA-256 digest of the member documents of the live entries, joined in order of number, with the name
/// in the newest document. One entry and its member document are in memory at a time.
fn live_digest(
    alloc: Global,
    chain: &Chain<'_>,
    live: &BTreeMap<u32, EntryPlace>,
) -> Result<[u8; 32], NoMemory>
    requires some { 0 < length chain.now }
    requires entries { HasEntries chain.now chain.now live.now }
    ensures { IfOk result (λ digest. (newest : DocValue) (others : List DocValue)
        → chain.now ≡ newest ∷ others → digest ≡ digest_by newest chain.now) }
{
    let name = chain.name();
    let mut hasher = Sha256::new();
    let mut after = 0;
    'members: while let Some((number, place)) = next_live(live, after) {
        let entry = entry_at(alloc, chain, place)?;
        let text = write_member(alloc, name, &entry);
        drop(entry);
        hasher.update(text?.as_slice());
        after = number;
    }
    Ok(hasher.finalize())
}

/// `LiveDiffers` unless the number and the digest of the live entries are the certificate's.
pub(crate) fn check_live(
    alloc: Global,
    certificate: &Certificate,
    chain: &Chain<'_>,
) -> Result<(), Halt>
    requires { 0 < length chain.now }
    ensures { (newest : DocValue) (others : List DocValue) → chain.now ≡ newest ∷ others
        → Checks (live_differs certificate.now newest chain.now) result }
{
    let live = live_places(alloc, chain)?;
    // The count fits: each key is a number from 1 in 32 bits.
    let count = live.len() as u32;
    let found = live_digest(alloc, chain, &live)?;
    if count == certificate.live_count && found == certificate.live_digest {
        Ok(())
    } else {
        Err(Halt::Refused(Verdict::LiveDiffers { count, found }))
    }
}
