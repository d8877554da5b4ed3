ghost use Rattle.std.specs.Prelude.{◌≡◌, ◌≢◌, ◌≤◌, ◌<◌, ◌+◌, ◌∷◌, ◌++◌, [], true, false, Some, Err, Ok};
ghost use Rattle.std.specs.Prelude.{IfOk, IfErr, IfSome, MatchOption, option_map, vec_len};
ghost use Rattle.atom_values.specs.Counts.{HasRisen, counted};
ghost use Rattle.atom_writer.specs.Pieces.{text};
ghost use Rattle.doc_source.specs.Pile.{offer_limit};
ghost use Rattle.feed_life.specs.StoreFetch.{Gets, store_answers};
ghost use Rattle.feed_recovery.specs.Documents.{IsSealed};
ghost use Rattle.feed_recovery.specs.Opening.{seal_of};
ghost use Rattle.feed_recovery.specs.Store.{StandsFor, is_spent};
ghost use Rattle.member_rules.specs.Documents as documents;

use atom_values::Bytes;
use chain_links::Address;
use doc_source::{Fetch, GetFault};
use feed_disk::Disk;
use feed_recovery::{ArchiveFault, Store};
use http_face::MAX_ANSWER;
use std::alloc::Global;
use std::marker::Model;

/// The documents of a store, each at its address: the subscription document and the sealed archives.
///
/// It has no document at any other address. It holds the store and the store's disk until [`StoreFetch::back`].
#[derive(Debug, Drop)]
pub struct StoreFetch<D: Disk> {
    store: Store,
    disk: D,
    asked: Vec<Bytes>,
    /// How many calls failed without a device call. It stays at the greatest u64.
    failures: u64,
}

impl<D: Disk> Model for StoreFetch<D> {
    ghost use Rattle.std.specs.Prelude.{◌≡◌, false};
    ghost use Rattle.feed_life.specs.StoreFetch.{StoreFetchValue};
    ghost use Rattle.feed_recovery.specs.Store.{StandsFor, is_spent};

    ghost Value = { StoreFetchValue D };

    ghost view = { λ f. record {
      store = f.store;
      disk = f.disk;
      asked = f.asked.items;
      failures = f.failures;
    } };

    ghost invariant = { λ f. is_spent f.store ≡ false → D.observable → StandsFor (D.state f.disk) f.store };
}

impl<D: Disk> StoreFetch<D> {
    /// Returns the fetch before its first call.
    pub fn new(alloc: Global, store: Store, disk: D) -> StoreFetch<D>
        requires { is_spent store ≡ false → D.observable → StandsFor (D.state disk) store }
        ensures { result ≡ record { store = store; disk = disk; asked = []; failures = 0 } }
    {
        StoreFetch {
            store,
            disk,
            asked: Vec::new(alloc),
            failures: 0,
        }
    }

    /// Returns the store and its disk.
    pub fn back(self) -> (Store, D)
        ensures store { result.0 ≡ self.store }
        ensures disk { result.1 ≡ self.disk }
        ensures stands { is_spent result.0 ≡ false → D.observable → StandsFor (D.state result.1) result.0 }
    {
        (self.store, self.disk)
    }

    /// Counts a call that failed without a device call.
    fn fail(&mut self) -> GetFault
        ensures fault { result ≡ GetFault.Failed }
        ensures failures { self.new ≡ record self.old { failures = counted self.old.failures } }
    {
        self.failures = self.failures.saturating_add(1);
        GetFault::Failed
    }

    /// Returns a document as an answer. One that is longer than an answer may be counts as a failure.
    fn within_limit(&mut self, written: Vec<u8>) -> Result<Option<Vec<u8>>, GetFault>
        ensures answer { IfOk result (λ found. found ≡ Some written) }
        ensures short { IfOk result (λ found. vec_len written ≤ offer_limit) }
        ensures same { IfOk result (λ found. self.new ≡ self.old) }
        ensures fault { IfErr result (λ fault. fault ≡ GetFault.Failed) }
        ensures long { IfErr result (λ fault. offer_limit < vec_len written) }
        ensures failures { IfErr result (λ fault.
            self.new ≡ record self.old { failures = counted self.old.failures }) }
    {
        if written.len() > MAX_ANSWER {
            drop(written);
            return Err(self.fail());
        }
        Ok(Some(written))
    }

    /// Returns the subscription document.
    fn subscription(&mut self) -> Result<Option<Vec<u8>>, GetFault>
        requires { is_spent self.old.store ≡ false }
        ensures answer { IfOk result (λ found. option_map (λ bytes. bytes.items) found
            ≡ Some (text (documents.subscription self.old.store.head self.old.store.history))) }
        ensures limit { IfOk result (λ found. IfSome found (λ bytes. vec_len bytes ≤ offer_limit)) }
        ensures asked { self.new.asked ≡ self.old.asked }
        ensures gets { Gets D.observable (D.state self.old.disk) (D.state self.new.disk) self.old self.new result }
    {
        let written = self.store.subscription()?;
        self.within_limit(written)
    }

    /// Returns the archive of this number, if it is sealed.
    fn archive(&mut self, number: u32) -> Result<Option<Vec<u8>>, GetFault>
        requires { is_spent self.old.store ≡ false }
        ensures answer { IfOk result (λ found. D.observable
            → MatchOption found (¬ IsSealed self.old.store number) (λ bytes. IsSealed self.old.store number
            × (bytes.items ≡ seal_of self.old.store.head self.old.store.history number))) }
        ensures limit { IfOk result (λ found. IfSome found (λ bytes. vec_len bytes ≤ offer_limit)) }
        ensures asked { self.new.asked ≡ self.old.asked }
        ensures gets { Gets D.observable (D.state self.old.disk) (D.state self.new.disk) self.old self.new result }
    {
        match self.store.archive(&mut self.disk, number) {
            Ok(written) => self.within_limit(written),
            Err(ArchiveFault::NotSealed { .. }) => Ok(None),
            Err(ArchiveFault::DiskFault) => Err(GetFault::Failed),
            Err(ArchiveFault::Changed { .. }) => Err(self.fail()),
            Err(ArchiveFault::NoMemory) => Err(GetFault::NoMemory),
        }
    }

    /// Returns the document of an address, if the store has one.
    fn answer(&mut self, address: &[u8]) -> Result<Option<Vec<u8>>, GetFault>
        ensures answer { IfOk result (λ found. D.observable → option_map (λ bytes. bytes.items) found
            ≡ store_answers self.old.store.head self.old.store.history address.now) }
        ensures limit { IfOk result (λ found. IfSome found (λ bytes. vec_len bytes ≤ offer_limit)) }
        ensures spent { is_spent self.old.store ≡ true → result ≡ Err GetFault.Failed }
        ensures asked { self.new.asked ≡ self.old.asked }
        ensures gets { Gets D.observable (D.state self.old.disk) (D.state self.new.disk) self.old self.new result }
    {
        if self.store.is_spent() {
            return Err(self.fail());
        }
        let Some(named) = self.store.head().name.base.read(address) else {
            return Ok(None);
        };
        match named {
            Address::Feed => self.subscription(),
            Address::Archive(number) => self.archive(number),
            Address::Member(_) => Ok(None),
        }
    }
}

impl<D: Disk> Fetch for StoreFetch<D> {
    ghost observable = { D.observable };

    ghost state = { λ f. record {
      asked = f.asked;
      answers = store_answers f.store.head f.store.history;
      faults = (D.state f.disk).faults + f.failures;
    } };

    fn get(&mut self, alloc: Global, address: &[u8]) -> Result<Option<Vec<u8>>, GetFault>
        // A spent store has no answer. An unspent one fails by a device call, or by other bytes than its own.
        ensures spent { is_spent self.old.store ≡ true → result ≢ Err GetFault.NoMemory
            → result ≡ Err GetFault.Failed }
        ensures gets { Gets D.observable (D.state self.old.disk) (D.state self.new.disk) self.old self.new result }

        // The clauses of the trait.
        ensures asked { result ≢ Err GetFault.NoMemory → D.observable
            → self.new.asked ≡ self.old.asked ++ address.now ∷ [] }
        ensures unasked { result ≡ Err GetFault.NoMemory → D.observable → self.new.asked ≡ self.old.asked }
        ensures answers { store_answers self.new.store.head self.new.store.history
            ≡ store_answers self.old.store.head self.old.store.history }
        ensures answer { IfOk result (λ found. D.observable → option_map (λ bytes. bytes.items) found
            ≡ store_answers self.old.store.head self.old.store.history address.now) }
        ensures limit { IfOk result (λ found. IfSome found (λ bytes. vec_len bytes ≤ offer_limit)) }
        ensures later { (D.state self.old.disk).faults + self.old.failures
            ≤ (D.state self.new.disk).faults + self.new.failures }
        ensures failed { result ≡ Err GetFault.Failed
            → HasRisen ((D.state self.old.disk).faults + self.old.failures)
            ((D.state self.new.disk).faults + self.new.failures) }
        ensures worked { result ≢ Err GetFault.Failed
            → (D.state self.new.disk).faults + self.new.failures
            ≡ (D.state self.old.disk).faults + self.old.failures }
    {
        self.asked.reserve(1)?;
        let asked = Bytes::of(alloc, address)?;
        // There is room, so the address is never handed back.
        let _ = self.asked.push(asked);
        let answer = self.answer(address);
        if let Err(GetFault::NoMemory) = answer {
            // A call that ran out of memory isn't counted as asked.
            drop(self.asked.pop());
        }
        answer
    }
}
