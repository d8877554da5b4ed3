ghost use Rattle.std.specs.Prelude.{◌≡◌, ◌≢◌, [], false, IfSome, None, Some, option_map, option_copied};
ghost use Rattle.atom_grammar.specs.Places.{HasPiece};
ghost use Rattle.atom_values.specs.Entry.{EntryValue};
ghost use Rattle.atom_writer.specs.Pieces.{text};
ghost use Rattle.chain_links.specs.Address.{IsAddress};
ghost use Rattle.chain_links.specs.declared.address.Address.{Address};
ghost use Rattle.deleted_entries.specs.declared.item.Item.TheVariants.{Kept as KeptItem};
ghost use Rattle.member_rules.specs.Chain.{place_of};
ghost use Rattle.mirror_walk.specs.Index.{HasEntryAt, HasPlace};
ghost use Rattle.mirror_walk.specs.Holding.{archive_at, best_of, digest_at, document_at, first_missing};
ghost use Rattle.mirror_walk.specs.Holding.{name_of_best};

use crate::base_map::BaseMap;
use crate::kept::Kept;
use atom_grammar::PiecePlace;
use atom_writer::FeedName;
use chain_links::{Address, Base, Place};
use deleted_entries::FeedId;
use std::alloc::Global;
use std::collections::BTreeMap;
use std::marker::Model;

/// The best subscription document: its index among the documents taken, and the greatest archive that it
/// needs and that isn't held, or 0.
#[derive(Clone, Copy, Debug)]
pub(crate) struct Best {
    pub(crate) at: u32,
    pub(crate) missing: u32,
}

/// The place of a live member's entry.
#[derive(Clone, Copy, Debug)]
pub struct EntryPlace {
    /// The index of the entry's document among those taken, from 0.
    pub document: u32,
    /// The index of the entry among the document's items, from 0.
    pub item: u32,
}

/// The documents that a mirror took, and what finds them.
///
/// Contracts see the base, the documents taken with their digests, in order, and whether the live entries are
/// listed. Memory holds no entry of a document, only the parts that the checks of later offers need. The index
/// of each archive and of the best subscription document is kept too, so that an offer looks at no other
/// document.
#[derive(Drop)]
pub(crate) struct Documents {
    pub(crate) alloc: Global,
    pub(crate) base: Base,
    /// The identifier of the feed whose documents are held, if any is.
    pub(crate) feed: Option<FeedId>,
    /// The feed's name as the best subscription document states it.
    pub(crate) name: Option<FeedName>,
    pub(crate) kept: Vec<Kept>,
    /// The index among the documents taken of each archive, by its number.
    pub(crate) archives: BTreeMap<u32, u32>,
    pub(crate) best: Option<Best>,
    /// The places of the live entries by the members' numbers, if they are listed. Else the map of the last
    /// list, from which the next one is made.
    pub(crate) map: BaseMap,
    /// Whether the live entries are listed: no document was taken since the last list.
    pub(crate) listed: bool,
}

impl Model for Documents {
    ghost use Rattle.mirror_walk.specs.Holding.{HeldValue};
    ghost use Rattle.mirror_walk.specs.Index.{IsIndexed};

    ghost Value = { HeldValue };

    ghost view = { λ h. record { base = h.base; kept = h.kept.items; listed = h.listed } };

    ghost invariant = { λ h. IsIndexed h.kept.items h.archives h.best h.map h.listed h.feed h.name };
}

impl Documents {
    /// No documents yet, of the feed below this base. Takes no memory.
    pub(crate) fn new(alloc: Global, base: Base) -> Documents
        ensures base { result.base ≡ base }
        ensures empty { result.kept ≡ [] }
        ensures unlisted { result.listed ≡ false }
    {
        Documents {
            alloc,
            base,
            feed: None,
            name: None,
            kept: Vec::new(alloc),
            archives: BTreeMap::new(alloc),
            best: None,
            map: BaseMap::new(alloc),
            listed: false,
        }
    }

    /// The held archive of this number.
    pub(crate) fn archive(&self, number: u32) -> Option<&Kept>
        ensures { option_copied result ≡ archive_at self.now.kept number }
    {
        self.kept.get(*self.archives.get(&number)? as usize)
    }

    /// The held subscription document with the greatest `last`.
    pub(crate) fn best_kept(&self) -> Option<&Kept>
        ensures { option_copied result ≡ best_of self.now.kept }
    {
        self.kept.get(self.best?.at as usize)
    }

    /// The place of the best subscription document in the chain. `None` if no subscription document is held.
    /// Takes no memory.
    pub(crate) fn best(&self) -> Option<Place>
        ensures { result ≡ option_map (λ kept. place_of kept.document) (best_of self.now.kept) }
    {
        Some(self.best_kept()?.place())
    }

    /// The feed's name as the best subscription document states it. `None` if no subscription document is
    /// held.
    pub(crate) fn name(&self) -> Option<&FeedName>
        ensures { option_copied result ≡ name_of_best self.now.kept }
    {
        self.name.as_ref()
    }

    /// The SHA-256 digest of the bytes of the best subscription document for `Feed`, and of the held archive
    /// for an archive. `None` for a document that isn't held, and for a member. Takes no memory.
    pub(crate) fn digest(&self, address: Address) -> Option<[u8; 32]>
        ensures { result ≡ digest_at self.now.kept address }
    {
        let kept = match address {
            Address::Feed => self.best_kept()?,
            Address::Archive(number) => self.archive(number)?,
            Address::Member(_) => return None,
        };
        Some(kept.digest())
    }

    /// The index among the documents taken of the one held at an address: for `Feed` the best subscription
    /// document. `None` if none is held there, and for a member. Takes no memory.
    pub(crate) fn index(&self, address: Address) -> Option<u32>
        ensures { HasPlace self.now.kept result (document_at self.now.kept address) }
    {
        match address {
            Address::Feed => Some(self.best?.at),
            Address::Archive(number) => self.archives.get(&number).copied(),
            Address::Member(_) => None,
        }
    }

    /// Where the piece of the entry at this place is in the text of its document.
    pub(crate) fn piece_place(&self, at: EntryPlace) -> PiecePlace
        requires { (entry : EntryValue) × HasEntryAt self.now.kept at entry }
        ensures { (entry : EntryValue) (held : HasEntryAt self.now.kept at entry)
            → HasPiece (text held.document.document) held.document.document.name (KeptItem entry) result }
    {
        self.kept[at.document as usize].piece(at.item as usize)
    }

    /// The first missing document: the subscription document if none is held, else the greatest archive that
    /// the best one needs, from its `prev` down to 1, and that isn't held. `None` if none is missing.
    ///
    /// Takes no memory, and the same time however many documents are held.
    pub(crate) fn wanted(&self) -> Option<Address>
        ensures missing { result ≡ first_missing self.now.kept }
        ensures address { IfSome result IsAddress }
    {
        match self.best {
            None => Some(Address::Feed),
            Some(best) => archive_address(best.missing),
        }
    }
}

/// The address of the archive with this number. `None` for 0.
fn archive_address(number: u32) -> Option<Address>
    ensures none { number ≡ 0 → result ≡ None }
    ensures some { number ≢ 0 → result ≡ Some (Address.Archive number) }
    ensures address { IfSome result IsAddress }
{
    if number == 0 {
        None
    } else {
        Some(Address::Archive(number))
    }
}
