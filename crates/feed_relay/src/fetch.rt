ghost use Rattle.std.specs.Prelude.{◌≡◌, ◌≢◌, ◌≤◌, ◌+◌, ◌∷◌, ◌++◌, [], true, false, Err};
ghost use Rattle.std.specs.Prelude.{IfOk, IfSome, option_map, vec_len};
ghost use Rattle.atom_values.specs.Counts.{HasRisen, counted};
ghost use Rattle.doc_source.specs.Pile.{offer_limit};
ghost use Rattle.feed_relay.specs.Fetch.{Gets, relay_answers};
ghost use Rattle.mirror_walk.specs.Mirror.{StandsFor, is_spent};

use atom_values::Bytes;
use chain_links::Base;
use doc_source::{Fetch, GetFault};
use feed_disk::Disk;
use feed_journal::LogFault;
use mirror_walk::Mirror;
use std::alloc::Global;
use std::marker::Model;

/// The documents that a mirror holds, each at its address: the best subscription document and the held archives.
///
/// It has no document at any other address. It holds the mirror and the mirror's disk until [`RelayFetch::back`].
#[derive(Drop)]
pub struct RelayFetch<D: Disk> {
    mirror: Mirror,
    disk: D,
    base: Base,
    asked: Vec<Bytes>,
    /// How many calls failed without a device call. It stays at the greatest u64.
    failures: u64,
}

impl<D: Disk> Model for RelayFetch<D> {
    ghost use Rattle.std.specs.Prelude.{◌≡◌, false};
    ghost use Rattle.feed_relay.specs.Fetch.{RelayFetchValue};
    ghost use Rattle.mirror_walk.specs.Mirror.{StandsFor, is_spent};

    ghost Value = { RelayFetchValue D };

    ghost view = { λ f. record {
      mirror = f.mirror;
      disk = f.disk;
      base = f.base;
      asked = f.asked.items;
      failures = f.failures;
    } };

    ghost invariant = { λ f. (f.base ≡ f.mirror.base)
        × (is_spent f.mirror ≡ false → D.observable → StandsFor (D.state f.disk) f.mirror) };
}

impl<D: Disk> RelayFetch<D> {
    /// Returns the fetch before its first call. `base` is the mirror's.
    pub fn new(alloc: Global, mirror: Mirror, disk: D, base: Base) -> RelayFetch<D>
        requires base { base ≡ mirror.base }
        requires stands { is_spent mirror ≡ false → D.observable → StandsFor (D.state disk) mirror }
        ensures { result ≡ record { mirror = mirror; disk = disk; base = base; asked = []; failures = 0 } }
    {
        RelayFetch {
            mirror,
            disk,
            base,
            asked: Vec::new(alloc),
            failures: 0,
        }
    }

    /// Returns the mirror and its disk.
    pub fn back(self) -> (Mirror, D)
        ensures mirror { result.0 ≡ self.mirror }
        ensures disk { result.1 ≡ self.disk }
        ensures base { result.0.base ≡ self.base }
        ensures stands { is_spent result.0 ≡ false → D.observable → StandsFor (D.state result.1) result.0 }
    {
        (self.mirror, self.disk)
    }

    /// Counts a call that failed without a device call.
    fn fail(&mut self) -> GetFault
        ensures fault { result ≡ GetFault.Failed }
        ensures failures { self.new ≡ record self.old { failures = counted self.old.failures } }
    {
        self.failures = self.failures.saturating_add(1);
        GetFault::Failed
    }

    /// Returns the document of an address, if the mirror holds one.
    fn answer(&mut self, address: &[u8]) -> Result<Option<Vec<u8>>, GetFault>
        ensures answer { IfOk result (λ found. D.observable → option_map (λ bytes. bytes.items) found
            ≡ relay_answers self.old.base self.old.mirror.kept address.now) }
        ensures limit { IfOk result (λ found. IfSome found (λ bytes. vec_len bytes ≤ offer_limit)) }
        ensures spent { is_spent self.old.mirror ≡ true → result ≡ Err GetFault.Failed }
        ensures asked { self.new.asked ≡ self.old.asked }
        ensures gets { Gets D.observable (D.state self.old.disk) (D.state self.new.disk) self.old self.new result }
    {
        if self.mirror.is_spent() {
            return Err(self.fail());
        }
        let Some(named) = self.base.read(address) else {
            return Ok(None);
        };
        match self.mirror.document(&mut self.disk, named) {
            Ok(found) => Ok(found),
            Err(LogFault::DiskFault) => Err(GetFault::Failed),
            Err(LogFault::Changed { .. }) => Err(self.fail()),
            Err(LogFault::NoMemory) => Err(GetFault::NoMemory),
        }
    }
}

impl<D: Disk> Fetch for RelayFetch<D> {
    ghost observable = { D.observable };

    ghost state = { λ f. record {
      asked = f.asked;
      answers = relay_answers f.base f.mirror.kept;
      faults = (D.state f.disk).faults + f.failures;
    } };

    fn get(&mut self, alloc: Global, address: &[u8]) -> Result<Option<Vec<u8>>, GetFault>
        // A spent mirror has no answer. An unspent one fails by a device call, or by less bytes than it has.
        ensures spent { is_spent self.old.mirror ≡ true → result ≢ Err GetFault.NoMemory
            → result ≡ Err GetFault.Failed }
        ensures gets { Gets D.observable (D.state self.old.disk) (D.state self.new.disk) self.old self.new result }

        // The clauses of the trait.
        ensures asked { result ≢ Err GetFault.NoMemory → D.observable
            → self.new.asked ≡ self.old.asked ++ address.now ∷ [] }
        ensures unasked { result ≡ Err GetFault.NoMemory → D.observable → self.new.asked ≡ self.old.asked }
        ensures answers { relay_answers self.new.base self.new.mirror.kept
            ≡ relay_answers self.old.base self.old.mirror.kept }
        ensures answer { IfOk result (λ found. D.observable → option_map (λ bytes. bytes.items) found
            ≡ relay_answers self.old.base self.old.mirror.kept address.now) }
        ensures limit { IfOk result (λ found. IfSome found (λ bytes. vec_len bytes ≤ offer_limit)) }
        ensures later { (D.state self.old.disk).faults + self.old.failures
            ≤ (D.state self.new.disk).faults + self.new.failures }
        ensures failed { result ≡ Err GetFault.Failed
            → HasRisen ((D.state self.old.disk).faults + self.old.failures)
            ((D.state self.new.disk).faults + self.new.failures) }
        ensures worked { result ≢ Err GetFault.Failed
            → (D.state self.new.disk).faults + self.new.failures
            ≡ (D.state self.old.disk).faults + self.old.failures }
    {
        self.asked.reserve(1)?;
        let asked = Bytes::of(alloc, address)?;
        // There is room, so the address is never handed back.
        let _ = self.asked.push(asked);
        let answer = self.answer(address);
        if let Err(GetFault::NoMemory) = answer {
            // A call that ran out of memory isn't counted as asked.
            drop(self.asked.pop());
        }
        answer
    }
}
