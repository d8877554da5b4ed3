ghost use Rattle.std.specs.Prelude.{◌≡◌, false, IfOk, IfSome, IsTrue, None, OnErr, option_copied, option_map};
ghost use Rattle.std.specs.Prelude.{List};
ghost use Rattle.chain_links.specs.Address.{IsAddress};
ghost use Rattle.member_rules.specs.Chain.{place_of};
ghost use Rattle.member_rules.specs.Head.{HeadValue};
ghost use Rattle.member_rules.specs.declared.operation.Op.{Op};
ghost use Rattle.mirror_walk.specs.Holding.{best_of, chain_of, digest_at, first_missing, name_of_best};
ghost use Rattle.mirror_walk.specs.Holding.{payloads_of};
ghost use Rattle.mirror_walk.specs.Loaded.{IsLoadedOf};
ghost use Rattle.mirror_walk.specs.Laws.{ShowsServed};
ghost use Rattle.mirror_walk.specs.Listing.{HasAddress, IsLastLive, IsNextLive, is_complete, outcome_of};
ghost use Rattle.mirror_walk.specs.Mirror.{KeepsMirror, is_spent};
ghost use Rattle.mirror_walk.specs.Offers.{AreServed, AreTakenOf, Offering};
ghost use Rattle.mirror_walk.specs.Published.{HoldsServed, IsNextCounted};

use crate::answer::Outcome;
use crate::documents::Documents;
use atom_values::NoMemory;
use atom_writer::FeedName;
use chain_links::{Address, Place};
use feed_journal::Log;
use std::alloc::Global;
use std::marker::Model;

/// A mirror of one feed: the documents that it took of those offered to it, each a payload of the mirror area
/// of a disk.
///
/// It doesn't hold its disk, which is lent to each call that reaches it. In memory it has what the checks of
/// the next offers need, and of each item its member's number and where it is on the disk. After `DiskFault` it
/// is spent: drop it and load it again.
#[derive(Drop)]
pub struct Mirror {
    pub(crate) alloc: Global,
    pub(crate) documents: Documents,
    pub(crate) log: Log,
    /// The greatest size of the area, in bytes.
    pub(crate) capacity: u64,
}

impl Model for Mirror {
    ghost use Rattle.mirror_walk.specs.Mirror.{MirrorValue, KeepsMirror};

    ghost Value = { MirrorValue };

    ghost view = { λ m. record {
      base = m.documents.base;
      kept = m.documents.kept;
      listed = m.documents.listed;
      capacity = m.capacity;
      log = m.log;
    } };

    ghost invariant = { λ m. KeepsMirror record {
      base = m.documents.base;
      kept = m.documents.kept;
      listed = m.documents.listed;
      capacity = m.capacity;
      log = m.log;
    } };
}

impl Mirror {
    /// The first missing document: the subscription document if none is held, else the greatest archive that
    /// the best one needs, from its `prev` down to 1, and that isn't held. `None` if none is missing.
    ///
    /// Takes no memory, and the same time however many documents are held.
    pub fn wanted(&self) -> Option<Address>
        requires { is_spent self.now ≡ false }
        ensures missing { result ≡ first_missing self.now.kept }
        ensures address { IfSome result IsAddress }
    {
        self.documents.wanted()
    }

    /// The place of the best subscription document in the chain: the one with the greatest `last`. `None` if
    /// no subscription document is held. Takes no memory.
    pub fn best(&self) -> Option<Place>
        requires { is_spent self.now ≡ false }
        ensures { result ≡ option_map (λ kept. place_of kept.document) (best_of self.now.kept) }
    {
        self.documents.best()
    }

    /// The feed's name as the best subscription document states it. `None` if no subscription document is
    /// held.
    pub fn name(&self) -> Option<&FeedName>
        requires { is_spent self.now ≡ false }
        ensures { option_copied result ≡ name_of_best self.now.kept }
    {
        self.documents.name()
    }

    /// The SHA-256 digest of the bytes of the best subscription document for `Feed`, and of the held archive
    /// for an archive. `None` for a document that isn't held, and for a member. Takes no memory.
    pub fn digest(&self, address: Address) -> Option<[u8; 32]>
        requires { is_spent self.now ≡ false }
        ensures { result ≡ digest_at self.now.kept address }
    {
        self.documents.digest(address)
    }

    /// Returns whether the mirror is spent. A spent mirror may be asked too.
    pub fn is_spent(&self) -> bool
        ensures spent { result ≡ is_spent self.now }
        ensures rules { KeepsMirror self.now }
    {
        self.log.is_spent()
    }

    /// Returns the first missing document, as `wanted` does, or else the version and the number of live
    /// entries. Archives that the best subscription document doesn't need are not used.
    ///
    /// If none is missing, the live entries are listed afterwards, for `next_live` and `entry`. No document is
    /// read back. `NoMemory` if there is no memory for the list, and then the next call makes it from nothing.
    ///
    /// Cost: the first list takes one pass over the marks of the needed documents' items. A later one passes
    /// over those of the archives that are new in the chain, of the best subscription document, and of the one
    /// that was the best when the last list was made. If the best subscription document needs fewer archives
    /// than are listed, the list is made from nothing. Without a new document, a call makes no list.
    pub fn outcome(&mut self) -> Result<Outcome, NoMemory>
        requires { is_spent self.old ≡ false }
        ensures outcome { IfOk result (λ outcome. outcome ≡ outcome_of self.old.kept) }
        ensures address { IfOk result HasAddress }
        ensures listed { IfOk result (λ outcome. IsTrue (is_complete outcome) → IsTrue self.new.listed) }
        ensures same { self.new ≡ record self.old { listed = self.new.listed } }
        ensures err { OnErr result (self.new ≡ self.old) }
        // If one feed served all documents held, the result is that of the feed at this version.
        ensures served { (head : HeadValue) (history : List Op) (offers : List Offering)
            → self.old.base ≡ head.name.base → AreServed head history offers
            → AreTakenOf self.old.base offers self.old.kept
            → ShowsServed head history offers self.old.kept (best_of self.old.kept) }
    {
        self.documents.outcome()
    }

    /// The least number after this one of a live member. `None` if there is none. `outcome` has listed the
    /// live entries, and no document was taken since. Takes no memory.
    ///
    /// If one feed served all documents held, the live members are those with an entry that counts by the
    /// published rule for duplicates, in the chain of the best subscription document.
    pub fn next_live(&self, after: u32) -> Option<u32>
        requires unspent { is_spent self.now ≡ false }
        requires listed { IsTrue self.now.listed }
        ensures found { IfSome result (IsNextLive self.now.kept after) }
        ensures last { result ≡ None → IsLastLive self.now.kept after }
        ensures published { (head : HeadValue) (history : List Op) → self.now.base ≡ head.name.base
            → HoldsServed head history self.now.kept
            → IsNextCounted (chain_of self.now.kept) after result }
        // No document is missing, and each document held was taken after those before it.
        ensures whole { first_missing self.now.kept ≡ None }
        ensures loaded { IsLoadedOf self.now.base (payloads_of self.now.kept) self.now.kept }
    {
        self.documents.next_live(after)
    }
}
