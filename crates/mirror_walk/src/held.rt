ghost use Rattle.std.specs.Prelude.{◌≡◌, ◌≢◌, ◌⊎◌, ◌≤◌, [], false, Err, Ok, OnErr, IfOk, IfSome, IsSome, IsTrue, None, length};
ghost use Rattle.std.specs.Prelude.{List, option_copied, option_map};
ghost use Rattle.chain_links.specs.Address.{IsAddress};
ghost use Rattle.member_rules.specs.Chain.{place_of};
ghost use Rattle.member_rules.specs.Head.{HeadValue};
ghost use Rattle.member_rules.specs.declared.operation.Op.{Op};
ghost use Rattle.mirror_walk.specs.Accept.{IsAnswer, IsKeptOf, accept};
ghost use Rattle.mirror_walk.specs.Holding.{KeptValue, best_of, digest_at, first_missing, name_of_best};
ghost use Rattle.mirror_walk.specs.Index.{HasEntryAt};
ghost use Rattle.mirror_walk.specs.Laws.{ShowsServed};
ghost use Rattle.mirror_walk.specs.Listing.{HasAddress, IsLastLive, IsNextLive, IsShownAt, is_complete, live_at};
ghost use Rattle.mirror_walk.specs.Listing.{outcome_of};
ghost use Rattle.mirror_walk.specs.Offers.{AreServed, AreTakenOf, Offering};

use crate::answer::{Accepted, Offered, Outcome};
use crate::documents::{Documents, EntryPlace};
use crate::kept::read_given;
use atom_grammar::MAX_DOCUMENT;
use atom_values::NoMemory;
use atom_writer::FeedName;
use chain_links::{Address, Base, Place};
use std::alloc::Global;
use std::marker::Model;

/// The plain form of [`crate::Mirror`]: what it holds, without a disk.
///
/// It answers offers as a mirror does whose area has room for each document, and has the mirror's other calls
/// that need no disk. Memory holds no entry of a document. So `entry_place` says where an entry is, and a
/// caller that keeps the documents finds it there.
///
/// Contracts see the base, the documents taken with their digests, in order, and whether the live entries are
/// listed.
///
/// ```
/// let mut held = Held::new(alloc, base);
/// for (address, bytes) in documents {
///     held.offer(address, bytes)?;
/// }
/// if let Some(address) = held.wanted() {
///     println!(rt; "no {address:?} yet")?;
/// }
/// ```
#[derive(Drop)]
pub struct Held {
    documents: Documents,
}

impl Model for Held {
    ghost use Rattle.mirror_walk.specs.Holding.{HeldValue};

    ghost Value = { HeldValue };

    ghost view = { λ h. h.documents };
}

impl Held {
    /// No documents yet, of the feed below this base. Takes no memory.
    pub fn new(alloc: Global, base: Base) -> Held
        ensures base { result.base ≡ base }
        ensures empty { result.kept ≡ [] }
        ensures unlisted { result.listed ≡ false }
    {
        Held {
            documents: Documents::new(alloc, base),
        }
    }

    /// Offers a document: bytes that were found at an address. Returns whether it is held from now on.
    ///
    /// The answer is that of [`crate::Mirror::offer`], but never `Full` or `DiskFault`, which come from the
    /// mirror's area and disk. `NoMemory` may come in place of any answer. Any answer but `Taken` leaves all
    /// as it was.
    ///
    /// Reads the bytes once and digests them once.
    pub fn offer(&mut self, address: &[u8], bytes: &[u8]) -> Result<Accepted, Offered>
        requires { length bytes.now ≤ MAX_DOCUMENT }
        // The answer, and what is held afterwards, unless memory runs out.
        ensures answer { (result ≡ Err Offered.NoMemory)
            ⊎ IsAnswer self.old.base self.old.kept address.now bytes.now result self.new.kept }
        // A document gets the first answer that fits it, unless memory runs out.
        ensures first_fit { (given : KeptValue) → IsKeptOf bytes.now given
            → (result ≡ accept self.old.base self.old.kept address.now given)
            ⊎ (result ≡ Err Offered.NoMemory) }
        ensures unchanged { result ≢ Ok Accepted.Taken → self.new ≡ self.old }
        ensures base { self.new.base ≡ self.old.base }
    {
        let given = read_given(self.documents.alloc, bytes)?;
        if let Some(accepted) = self.documents.check(address, &given.name, &given.kept)? {
            return Ok(accepted);
        }
        self.documents.take(given)?;
        Ok(Accepted::Taken)
    }

    /// The place of the best subscription document in the chain. `None` if no subscription document is held.
    /// Takes no memory.
    pub fn best(&self) -> Option<Place>
        ensures { result ≡ option_map (λ kept. place_of kept.document) (best_of self.now.kept) }
    {
        self.documents.best()
    }

    /// The feed's name as the best subscription document states it. `None` if no subscription document is
    /// held.
    pub fn name(&self) -> Option<&FeedName>
        ensures { option_copied result ≡ name_of_best self.now.kept }
    {
        self.documents.name()
    }

    /// The SHA-256 digest of the bytes of the best subscription document for `Feed`, and of the held archive
    /// for an archive. `None` for a document that isn't held, and for a member. Takes no memory.
    pub fn digest(&self, address: Address) -> Option<[u8; 32]>
        ensures { result ≡ digest_at self.now.kept address }
    {
        self.documents.digest(address)
    }

    /// The first missing document, as [`crate::Mirror::wanted`] says.
    pub fn wanted(&self) -> Option<Address>
        ensures missing { result ≡ first_missing self.now.kept }
        ensures address { IfSome result IsAddress }
    {
        self.documents.wanted()
    }

    /// Returns the first missing document, or else the version and the number of live entries, as
    /// [`crate::Mirror::outcome`] does. If none is missing, the live entries are listed afterwards, for
    /// `next_live` and `entry_place`. `NoMemory` if there is no memory for the list.
    pub fn outcome(&mut self) -> Result<Outcome, NoMemory>
        ensures outcome { IfOk result (λ outcome. outcome ≡ outcome_of self.old.kept) }
        ensures address { IfOk result HasAddress }
        ensures listed { IfOk result (λ outcome. IsTrue (is_complete outcome) → IsTrue self.new.listed) }
        ensures base { self.new.base ≡ self.old.base }
        ensures kept { self.new.kept ≡ self.old.kept }
        ensures err { OnErr result (self.new ≡ self.old) }
        // If one feed served all documents held, the result is that of the feed at this version.
        ensures served { (head : HeadValue) (history : List Op) (offers : List Offering)
            → self.old.base ≡ head.name.base → AreServed head history offers
            → AreTakenOf self.old.base offers self.old.kept
            → ShowsServed head history offers self.old.kept (best_of self.old.kept) }
    {
        self.documents.outcome()
    }

    /// The least number after this one of a live member. `None` if there is none. `outcome` has listed the
    /// live entries, and no document was taken since. Takes no memory.
    pub fn next_live(&self, after: u32) -> Option<u32>
        requires { IsTrue self.now.listed }
        ensures found { IfSome result (IsNextLive self.now.kept after) }
        ensures last { result ≡ None → IsLastLive self.now.kept after }
        ensures whole { first_missing self.now.kept ≡ None }
    {
        self.documents.next_live(after)
    }

    /// The place of a live member's entry. `outcome` has listed the live entries, and no document was taken
    /// since. Takes no memory.
    pub fn entry_place(&self, number: u32) -> EntryPlace
        requires listed { IsTrue self.now.listed }
        requires live { IsSome (live_at self.now.kept number) }
        ensures place { IfSome (live_at self.now.kept number) (HasEntryAt self.now.kept result) }
        ensures shown { IsShownAt self.now.kept number result.document }
        ensures whole { first_missing self.now.kept ≡ None }
    {
        self.documents.entry_place(number)
    }
}
