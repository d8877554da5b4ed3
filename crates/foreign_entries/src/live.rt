ghost use Rattle.std.specs.Prelude.{◌≡◌, List, [], ◌∷◌, ◌++◌, IfOk, OnOk, Decides, option_to_list};
ghost use Rattle.feed_reader.specs.Feed.{DocumentValue};
ghost use Rattle.foreign_entries.specs.Live.{IsForeignLive};
ghost use Rattle.foreign_entries.specs.Added.{live_entry, AddsEntry, AddsEntries, AddsTombstone, AddsTombstones, OffersEntry, OffersTombstone, IsNewerKept, no_member};
ghost use Rattle.foreign_entries.specs.Tally.{Tallies};

use atom_values::{Many, NoMemory, Stamp};
use feed_reader::{ForeignDoc, ForeignEntry, ForeignGone};
use std::alloc::Global;
use std::collections::BTreeMap;

/// The greatest number of live entries.
pub const MAX_LIVE: u32 = 4_294_967_295;

/// The live entries of a feed's documents, which are added newest first.
///
/// For each identifier it keeps a copy of the identifier, one entry and one timestamp, whatever the number of documents.
#[derive(Drop)]
pub struct LiveEntries {
    /// The members, by the bytes of their identifiers.
    members: BTreeMap<Vec<u8>, Member>,
    alloc: Global,
}

/// The newest entry and the latest tombstone of an identifier. At least one of the two is present, except
/// while the first is added.
#[derive(Drop)]
struct Member {
    /// The entry that is live unless a tombstone removes it.
    kept: Option<Kept>,
    /// The latest `when` of the identifier's tombstones.
    gone: Option<Stamp>,
}

/// An entry, with the `updated` of its document.
#[derive(Drop)]
struct Kept {
    entry: ForeignEntry,
    document_updated: Stamp,
}

impl Kept {
    /// Whether the entry's `updated` is later, or is the same with a later `updated` of its document.
    fn is_newer(&self, other: &Kept) -> bool
        ensures { Decides result (IsNewerKept self.now other.now) }
    {
        let updated = self.entry.updated.millis();
        let other_updated = other.entry.updated.millis();
        other_updated < updated
            || other_updated == updated
                && other.document_updated.millis() < self.document_updated.millis()
    }
}

impl Member {
    /// A member before its first entry or tombstone.
    fn new() -> Member
        ensures { result ≡ no_member }
    {
        Member {
            kept: None,
            gone: None,
        }
    }

    /// Keeps the entry if it is newer than the kept one. Of equal entries the first one stays.
    fn offer(&mut self, kept: Kept)
        ensures { OffersEntry kept self.old self.new }
    {
        let replaces = match &self.kept {
            Some(before) => kept.is_newer(before),
            None => true,
        };
        if replaces {
            self.kept = Some(kept);
        }
    }

    /// Keeps the `when` of a tombstone if it is the latest one.
    fn remove(&mut self, when: Stamp)
        ensures { OffersTombstone when self.old self.new }
    {
        let replaces = match &self.gone {
            Some(before) => before.millis() < when.millis(),
            None => true,
        };
        if replaces {
            self.gone = Some(when);
        }
    }

    /// The entry. `None` if there is no entry or if a tombstone removes it.
    fn into_live(self) -> Option<ForeignEntry>
        ensures { result ≡ live_entry self }
    {
        let kept = self.kept?;
        match self.gone {
            Some(when) if kept.entry.updated.millis() <= when.millis() => None,
            _ => Some(kept.entry),
        }
    }
}

impl LiveEntries {
    /// The live entries before any document is added, which are none. Takes no memory.
    pub fn new(alloc: Global) -> LiveEntries
        ensures { Tallies [] result }
    {
        LiveEntries {
            members: BTreeMap::new(alloc),
            alloc,
        }
    }

    /// Adds the next older document. `NoMemory` if memory runs out. After that the documents that are added are
    /// unspecified.
    ///
    /// Takes n log m steps for the n entries and tombstones of the document, where m is the number of identifiers.
    pub fn add(&mut self, document: ForeignDoc) -> Result<(), NoMemory>
        ensures { (documents : List DocumentValue) → Tallies documents self.old
            → OnOk result (Tallies (documents ++ document ∷ []) self.new) }
    {
        let ForeignDoc {
            updated,
            entries,
            gone,
            ..
        } = document;
        self.add_entries(entries.into_vec(), updated)?;
        self.add_tombstones(gone.into_vec())
    }

    /// Adds the entries of a document with this `updated`.
    fn add_entries(
        &mut self,
        entries: Vec<ForeignEntry>,
        document_updated: Stamp,
    ) -> Result<(), NoMemory>
        ensures { OnOk result (AddsEntries entries.items document_updated self.old self.new) }
    {
        for entry in entries {
            self.add_entry(Kept {
                entry,
                document_updated,
            })?;
        }
        Ok(())
    }

    /// Adds an entry to the member of its identifier. One look-up serves old and new identifiers.
    fn add_entry(&mut self, kept: Kept) -> Result<(), NoMemory>
        ensures { OnOk result (AddsEntry kept self.old self.new) }
    {
        let key = Vec::from_slice(self.alloc, kept.entry.id.bytes())?;
        let member = self.members.entry(key)?.or_insert(Member::new());
        member.offer(kept);
        Ok(())
    }

    /// Adds the tombstones of a document.
    fn add_tombstones(&mut self, gone: Vec<ForeignGone>) -> Result<(), NoMemory>
        ensures { OnOk result (AddsTombstones gone.items self.old self.new) }
    {
        for gone in gone {
            self.add_tombstone(&gone)?;
        }
        Ok(())
    }

    /// Adds a tombstone to the member of its identifier.
    fn add_tombstone(&mut self, gone: &ForeignGone) -> Result<(), NoMemory>
        ensures { OnOk result (AddsTombstone gone.now self.old self.new) }
    {
        let key = Vec::from_slice(self.alloc, gone.id.bytes())?;
        let member = self.members.entry(key)?.or_insert(Member::new());
        member.remove(gone.when);
        Ok(())
    }

    /// The live entries of the documents, in the order of their identifiers' bytes. `NoMemory` if memory runs out, or
    /// if there are more than [`MAX_LIVE`].
    pub fn into_live(self, alloc: Global) -> Result<Many<ForeignEntry, MAX_LIVE>, NoMemory>
        ensures { (documents : List DocumentValue) → Tallies documents self
            → IfOk result (λ live. IsForeignLive documents live.items) }
    {
        let mut live = Many::new(alloc);
        for (_, member) in self.members {
            push_live(&mut live, member)?;
        }
        Ok(live)
    }
}

/// Appends the member's live entry, if it has one.
fn push_live(live: &mut Many<ForeignEntry, MAX_LIVE>, member: Member) -> Result<(), NoMemory>
    ensures { OnOk result (live.new.items ≡ live.old.items ++ option_to_list (live_entry member)) }
{
    let Some(entry) = member.into_live() else {
        return Ok(());
    };
    match live.push(entry) {
        Ok(()) => Ok(()),
        Err(_) => Err(NoMemory),
    }
}
