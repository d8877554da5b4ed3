ghost use Rattle.std.specs.Prelude.{◌≡◌, ◌≢◌, ◌⊎◌, ◌≤◌, ◌<◌, ◌++◌, ℕ, [], ◌∷◌, false, Err, Ok, OnOk, OnErr};
ghost use Rattle.std.specs.Prelude.{IsSome, MatchResult, None, Some, is_some, length, option_map};
ghost use Rattle.std.specs.Prelude.{option_copied, slice_get, unwrap_or};
ghost use Rattle.mirror_walk.specs.Accept.{IsAnswer, IsKeptOf, accept, break_of, break_after, broken};
ghost use Rattle.mirror_walk.specs.Accept.{conflict, counterpart, first_of, known, stale};
ghost use Rattle.mirror_walk.specs.Accept.{wrong_address, wrong_feed};
ghost use Rattle.mirror_walk.specs.Checks.{Checks, Compares, IsNew};
ghost use Rattle.mirror_walk.specs.Holding.{KeptValue, archive_at, gap_from};
ghost use Rattle.mirror_walk.specs.Index.{HasBestAfter};

use crate::answer::{Accepted, Offered};
use crate::documents::{Best, Documents};
use crate::kept::{Given, Kept};
use atom_values::{Bytes, NoMemory};
use atom_writer::{FeedName, Kind};

/// `Break` unless the span of `newer` begins right after that of `older` ends.
fn check_spans(older: &Kept, newer: &Kept) -> Result<(), Offered>
    ensures { Checks (break_of older.now.document newer.now.document) result }
{
    let (older_last, newer_first) = (older.span().last, newer.span().first);
    if u64::from(older_last) + 1 == u64::from(newer_first) {
        Ok(())
    } else {
        Err(Offered::Break {
            older_last,
            newer_first,
        })
    }
}

impl Documents {
    /// Checks a document that was offered under this address: `Known`, `Stale` or a refusal. `None` if the
    /// mirror is to take it.
    pub(crate) fn check(
        &self,
        address: &[u8],
        name: &FeedName,
        given: &Kept,
    ) -> Result<Option<Accepted>, Offered>
        requires { name.now ≡ given.now.document.name }
        ensures first_fit { let answer = accept self.now.base self.now.kept address.now given.now in
            MatchResult result (λ found. answer ≡ Ok (unwrap_or found Accepted.Taken))
            (λ refusal. (refusal ≡ Offered.NoMemory) ⊎ (answer ≡ Err refusal)) }
        ensures new { result ≡ Ok None → IsNew self.now.kept given.now.document }
        ensures not_taken { result ≢ Ok (Some Accepted.Taken) }
    {
        self.check_address(address, name, given)?;
        self.check_feed(name, given)?;
        if let Some(answer) = self.compare(given)? {
            return Ok(Some(answer));
        }
        self.check_neighbours(given)?;
        Ok(None)
    }

    /// `WrongAddress` unless the document's own address is the one given and has the mirror's base.
    fn check_address(&self, address: &[u8], name: &FeedName, given: &Kept) -> Result<(), Offered>
        requires { name.now ≡ given.now.document.name }
        ensures { Checks (wrong_address self.now.base address.now given.now.document) result }
    {
        let base = &name.base;
        let own = given.kind().address();
        if base.text() == self.base.text() && self.base.read(address) == Some(own) {
            return Ok(());
        }
        let says = base.print(self.alloc, own)?;
        Err(Offered::WrongAddress {
            says: Bytes::from_vec(says),
        })
    }

    /// `WrongFeed` if a document of another feed is held.
    #[tactic(auto, unfolding(crate::specs::Accept::wrong_feed))]
    fn check_feed(&self, name: &FeedName, given: &Kept) -> Result<(), Offered>
        requires { name.now ≡ given.now.document.name }
        ensures { Checks (wrong_feed self.now.kept given.now.document) result }
    {
        let given = name.id;
        match self.feed {
            Some(kept) if kept != given => Err(Offered::WrongFeed { kept, given }),
            _ => Ok(()),
        }
    }

    /// The held document with the same place in the chain: the archive with the same number, or the best
    /// subscription document if it has the same `last`. `None` if there is none.
    #[tactic(auto, unfolding(crate::specs::Accept::counterpart))]
    fn counterpart(&self, given: &Kept) -> Option<&Kept>
        ensures { option_copied result ≡ counterpart self.now.kept given.now.document }
    {
        match given.kind() {
            Kind::Archive(number) => self.archive(number),
            Kind::Subscription => {
                let best = self.best_kept()?;
                if best.span().last == given.span().last {
                    Some(best)
                } else {
                    None
                }
            }
        }
    }

    /// Whether the document is a subscription document with a lower `last` than the best one.
    #[tactic(auto, unfolding(crate::specs::Accept::stale))]
    fn is_stale(&self, given: &Kept) -> bool
        ensures { result ≡ is_some (stale self.now.kept given.now.document) }
    {
        match (given.kind(), self.best_kept()) {
            (Kind::Subscription, Some(best)) => given.span().last < best.span().last,
            _ => false,
        }
    }

    /// Compares the document with the held one that has the same place in the chain, by their digests: `Known`
    /// if they are equal, and the refusal `Conflict` if they differ.
    ///
    /// If no document is held in that place: `Stale` if the best subscription document has a greater `last`
    /// than this subscription document, else `None`.
    #[tactic(auto, unfolding(crate::specs::Accept::counterpart, crate::specs::Accept::known, crate::specs::Accept::stale, crate::specs::Accept::conflict))]
    fn compare(&self, given: &Kept) -> Result<Option<Accepted>, Offered>
        ensures answer { let kept = self.now.kept in Compares (first_of (known kept given.now
            ∷ stale kept given.now.document ∷ conflict kept given.now ∷ [])) result }
        ensures new { result ≡ Ok None → IsNew self.now.kept given.now.document }
        ensures not_taken { result ≢ Ok (Some Accepted.Taken) }
    {
        match self.counterpart(given) {
            Some(kept) if kept.digest() == given.digest() => Ok(Some(Accepted::Known)),
            Some(kept) => Err(Offered::Conflict {
                address: given.kind().address(),
                kept: kept.digest(),
                given: given.digest(),
            }),
            None if self.is_stale(given) => Ok(Some(Accepted::Stale)),
            None => Ok(None),
        }
    }

    /// `Break` if a held neighbour of the document doesn't adjoin it.
    #[tactic(auto, unfolding(crate::specs::Accept::broken, crate::specs::Accept::break_before, crate::specs::Accept::best_after))]
    fn check_neighbours(&self, given: &Kept) -> Result<(), Offered>
        ensures { Checks (broken self.now.kept given.now.document) result }
    {
        match given.kind() {
            Kind::Subscription => self.check_before(given.prev(), given),
            Kind::Archive(number) => {
                self.check_before(given.prev(), given)?;
                if let Some(newer) = self.archive(number + 1) {
                    check_spans(given, newer)?;
                }
                match self.best_kept() {
                    Some(best) if best.prev() == number => check_spans(given, best),
                    _ => Ok(()),
                }
            }
        }
    }

    /// `Break` if the archive of this number is held and doesn't end right before the document begins.
    #[tactic(auto, unfolding(crate::specs::Accept::break_after))]
    fn check_before(&self, number: u32, given: &Kept) -> Result<(), Offered>
        ensures { Checks (break_after given.now.document (archive_at self.now.kept number)) result }
    {
        match self.archive(number) {
            Some(older) => check_spans(older, given),
            None => Ok(()),
        }
    }

    /// Holds a new document. `NoMemory` leaves all as it was.
    pub(crate) fn take(&mut self, given: Given) -> Result<(), NoMemory>
        requires new { IsNew self.old.kept given.kept.document }
        requires name { given.name ≡ given.kept.document.name }
        ensures kept { OnOk result (self.new.kept ≡ self.old.kept ++ given.kept ∷ []) }
        ensures unlisted { OnOk result (self.new.listed ≡ false) }
        ensures base { self.new.base ≡ self.old.base }
        ensures err { OnErr result (self.new ≡ self.old) }
    {
        // A document's place takes 32 bits. No machine's memory holds 2^32 documents, so this never fails.
        let at = u32::try_from(self.kept.len()).map_err(|_| NoMemory)?;
        self.kept.reserve(1)?;
        let Given { name, kept } = given;
        let best = self.best_with(at, &kept);
        let feed = name.id;
        match kept.kind() {
            Kind::Archive(number) => {
                drop(name);
                self.archives.insert(number, at)?;
            }
            // It is the new best one, since it isn't stale.
            Kind::Subscription => self.name = Some(name),
        }
        self.best = best;
        if at == 0 {
            self.feed = Some(feed);
        }
        // `reserve` made room for it, so this doesn't fail.
        self.kept.push(kept).unwrap();
        self.listed = false;
        Ok(())
    }

    /// The best subscription document once this new document is held. `at` will be the new document's index
    /// among those taken.
    fn best_with(&self, at: u32, given: &Kept) -> Option<Best>
        requires new { IsNew self.now.kept given.now.document }
        requires end { at ≡ length self.now.kept }
        ensures { HasBestAfter self.now.kept given.now.document result }
    {
        match given.kind() {
            Kind::Subscription => {
                let missing = self.first_missing(given.prev());
                Some(Best { at, missing })
            }
            Kind::Archive(number) => {
                let Best { at, missing } = self.best?;
                if missing == number {
                    let missing = self.first_missing(number - 1);
                    Some(Best { at, missing })
                } else {
                    Some(Best { at, missing })
                }
            }
        }
    }

    /// The greatest number of an archive, from this one down to 1, that isn't held, or 0.
    ///
    /// Passes over the archives that the best subscription document needs and that are known to be held. So
    /// as the chain grows, each archive is looked at once.
    fn first_missing(&self, number: u32) -> u32
        ensures { result ≡ unwrap_or (gap_from self.now.kept number) 0 }
    {
        let mut at = number;
        while at > 0 && self.archives.contains_key(&at) {
            at = self.below(at);
        }
        at
    }

    /// The next archive to look at below this one: all archives between them are held.
    fn below(&self, number: u32) -> u32
        requires from_one { 1 ≤ number }
        requires held { IsSome (archive_at self.now.kept number) }
        ensures lower { result < number }
        ensures passed { (n : ℕ) → result < n → n ≤ number → IsSome (archive_at self.now.kept n) }
    {
        match (self.best, self.best_kept()) {
            (Some(Best { missing, .. }), Some(best)) if missing < number && number <= best.prev() =>
                { missing }
            _ => number - 1,
        }
    }
}
