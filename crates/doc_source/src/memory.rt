//! A source, a sink and a fetch in memory, for tests. Contracts can see their content, and listed calls of
//! them fail.

ghost use Rattle.std.specs.Prelude.{◌≡◌, ◌≢◌, ◌↔◌, ◌+◌, ◌-◌, ◌<◌, ◌≤◌, ◌∷◌, ◌++◌, [], length, take, drop, min, slice_index, All, Err, IfOk, IfSome, OnOk, OnErr, IsErr, IsTrue, map, option_map, vec_len};
ghost use Rattle.atom_values.specs.Counts.{HasCause, HasRisen, counted};
ghost use Rattle.atom_values.specs.ListedCalls.{after_call, next_call_fails};
ghost use Rattle.feed_disk.specs.Raised.{raised};
ghost use Rattle.doc_source.specs.Fetch.{answer_of};
ghost use Rattle.doc_source.specs.Outside.{SourceState, SinkState};
ghost use Rattle.doc_source.specs.Pile.{offer_limit};

use crate::fetch::{Fetch, GetFault};
use crate::offer::Offer;
use crate::outside::{Sink, Source};
use atom_values::{Bytes, Failed, ListedCalls, MAX_FAILING, Many};
use std::alloc::{AllocError, Global};

/// A source of given bytes, whose listed calls fail.
#[derive(Debug, Drop)]
pub struct ListSource {
    bytes: Bytes,
    at: usize,
    calls: ListedCalls,
    bytes_read: u64,
    ghost in_range: { at ≤ length bytes },
}

impl ListSource {
    /// The source before its first call. Calls are numbered from 1.
    pub fn new(bytes: Bytes, failing: Many<u64, MAX_FAILING>) -> ListSource
        ensures state { ⟦<ListSource as Source>⟧.state result
            ≡ record { left = bytes; faults = 0; bytes_read = 0 } }
        ensures calls { result.calls ≡ record { failing = failing.items; made = 0; faults = 0 } }
    {
        ListSource {
            bytes,
            at: 0,
            calls: ListedCalls::new(failing),
            bytes_read: 0,
        }
    }
}

impl Source for ListSource {
    ghost observable = { Unit {0} };

    ghost state = { λ s. record {
      left = drop s.at s.bytes;
      faults = s.calls.faults;
      bytes_read = s.bytes_read;
    } };

    fn read(&mut self, into: &mut [u8]) -> Result<usize, Failed>
        // It fails exactly the listed calls.
        ensures listed { IsErr result ↔ IsTrue (next_call_fails self.old.calls) }
        ensures calls { self.new.calls ≡ after_call self.old.calls }

        // The clauses of the trait.
        ensures within { IfOk result (λ count. count ≤ length into.old) }
        ensures bytes { IfOk result (λ count. Unit {0}
            → drop self.old.at self.old.bytes ≡ take count into.new ++ drop self.new.at self.new.bytes) }
        ensures end { IfOk result (λ count. Unit {0}
            → count ≡ 0 → 0 < length into.old → drop self.old.at self.old.bytes ≡ []) }
        ensures err { OnErr result (Unit {0}
            → drop self.new.at self.new.bytes ≡ drop self.old.at self.old.bytes) }
        ensures read { IfOk result (λ count. self.new.bytes_read ≡ raised self.old.bytes_read count) }
        ensures unread { OnErr result (self.new.bytes_read ≡ self.old.bytes_read) }
        ensures counts { HasCause self.old.calls.faults self.new.calls.faults result }
    {
        if self.calls.next_fails() {
            return Err(Failed);
        }
        let (_, left) = self.bytes.slice().split_at(self.at);
        let count = left.len().min(into.len());
        let (given, _) = left.split_at(count);
        into[..count].copy_from_slice(given);
        self.at += count;
        self.bytes_read = self.bytes_read.saturating_add(count as u64);
        Ok(count)
    }
}

/// A sink that keeps the bytes that it takes, and whose listed calls fail.
#[derive(Debug, Drop)]
pub struct ListSink {
    taken: Vec<u8>,
    calls: ListedCalls,
}

impl ListSink {
    /// The sink before its first call. Calls are numbered from 1.
    pub fn new(alloc: Global, failing: Many<u64, MAX_FAILING>) -> ListSink
        ensures state { ⟦<ListSink as Sink>⟧.state result ≡ record { taken = []; faults = 0 } }
        ensures calls { result.calls ≡ record { failing = failing.items; made = 0; faults = 0 } }
    {
        ListSink {
            taken: Vec::new(alloc),
            calls: ListedCalls::new(failing),
        }
    }

    /// The bytes that were taken.
    pub fn bytes(&self) -> &[u8]
        ensures { result.now ≡ (⟦<ListSink as Sink>⟧.state self.now).taken }
    {
        self.taken.as_slice()
    }
}

impl Sink for ListSink {
    ghost observable = { Unit {0} };

    ghost state = { λ s. record { taken = s.taken.items; faults = s.calls.faults } };

    // Out of memory is counted as a failed call, since the trait has no answer for it.
    fn write(&mut self, from: &[u8]) -> Result<usize, Failed>
        // It fails the listed calls, and others only if memory ran out. Each failure counts one fault.
        ensures listed { IsTrue (next_call_fails self.old.calls) → IsErr result }
        ensures calls { OnOk result (self.new.calls ≡ after_call self.old.calls) }
        ensures failed { OnErr result (self.new.calls
            ≡ record (after_call self.old.calls) { faults = counted self.old.calls.faults }) }

        // The clauses of the trait.
        ensures within { IfOk result (λ count. count ≤ length from.now) }
        ensures some { IfOk result (λ count. 0 < length from.now → 0 < count) }
        ensures bytes { IfOk result (λ count. Unit {0}
            → self.new.taken.items ≡ self.old.taken.items ++ take count from.now) }
        ensures err { OnErr result (Unit {0} → self.new.taken.items ≡ self.old.taken.items) }
        ensures counts { HasCause self.old.calls.faults self.new.calls.faults result }
    {
        if self.calls.next_fails() {
            return Err(Failed);
        }
        match self.taken.extend_from_slice(from) {
            Ok(()) => Ok(from.len()),
            Err(_) => {
                self.calls.count_failure();
                Err(Failed)
            }
        }
    }
}

/// The greatest number of offers of a fetch in memory.
pub const MAX_OFFERS: u32 = 100_000;

/// A fetch that answers from given offers, and whose listed calls fail.
#[derive(Debug, Drop)]
pub struct PileFetch {
    offers: Many<Offer, MAX_OFFERS>,
    asked: Vec<Bytes>,
    calls: ListedCalls,
    ghost short: { All (λ offer. length offer.bytes ≤ offer_limit) offers.items },
}

impl PileFetch {
    /// The fetch before its first call. Each of the offers has at most 67,108,864 bytes. Calls are numbered
    /// from 1, and those in `failing` fail.
    pub fn new(
        alloc: Global,
        offers: Many<Offer, MAX_OFFERS>,
        failing: Many<u64, MAX_FAILING>,
    ) -> PileFetch
        requires { All (λ offer. length offer.bytes ≤ offer_limit) offers.items }
        ensures state { ⟦<PileFetch as Fetch>⟧.state result
            ≡ record { asked = []; answers = answer_of offers.items; faults = 0 } }
        ensures calls { result.calls ≡ record { failing = failing.items; made = 0; faults = 0 } }
    {
        PileFetch {
            offers,
            asked: Vec::new(alloc),
            calls: ListedCalls::new(failing),
        }
    }

    /// The addresses that were asked, in order.
    pub fn asked(&self) -> &[Bytes]
        ensures { result.now ≡ (⟦<PileFetch as Fetch>⟧.state self.now).asked }
    {
        self.asked.as_slice()
    }

    /// The bytes of the first offer of this address.
    fn first_of(&self, address: &[u8]) -> Option<&[u8]>
        ensures answer { option_map (λ bytes. bytes.now) result
            ≡ answer_of self.now.offers.items address.now }
        ensures limit { IfSome result (λ bytes. length bytes.now ≤ offer_limit) }
    {
        let offers = self.offers.as_slice();
        let offer = offers
            .iter()
            .find(|offer| offer.address.slice() == address)?;
        Some(offer.bytes.slice())
    }

    /// A copy of the bytes of the first offer of this address.
    fn answer(&self, alloc: Global, address: &[u8]) -> Result<Option<Vec<u8>>, AllocError>
        ensures answer { IfOk result (λ found. option_map (λ bytes. bytes.items) found
            ≡ answer_of self.now.offers.items address.now) }
        ensures limit { IfOk result (λ found. IfSome found (λ bytes. vec_len bytes ≤ offer_limit)) }
    {
        match self.first_of(address) {
            Some(bytes) => Ok(Some(Vec::from_slice(alloc, bytes)?)),
            None => Ok(None),
        }
    }
}

impl Fetch for PileFetch {
    ghost observable = { Unit {0} };

    ghost state = { λ f. record {
      asked = f.asked.items;
      answers = answer_of f.offers.items;
      faults = f.calls.faults;
    } };

    fn get(&mut self, alloc: Global, address: &[u8]) -> Result<Option<Vec<u8>>, GetFault>
        // It fails the listed calls, unless memory runs out before, and no others.
        ensures listed { result ≡ Err GetFault.Failed → IsTrue (next_call_fails self.old.calls) }
        ensures fails { IsTrue (next_call_fails self.old.calls) → IsErr result }
        ensures calls { result ≢ Err GetFault.NoMemory → self.new.calls ≡ after_call self.old.calls }

        // The clauses of the trait.
        ensures asked { result ≢ Err GetFault.NoMemory → Unit {0}
            → self.new.asked.items ≡ self.old.asked.items ++ address.now ∷ [] }
        ensures unasked { result ≡ Err GetFault.NoMemory → Unit {0}
            → self.new.asked.items ≡ self.old.asked.items }
        ensures answers { answer_of self.new.offers.items ≡ answer_of self.old.offers.items }
        ensures answer { IfOk result (λ found. Unit {0} → option_map (λ bytes. bytes.items) found
            ≡ answer_of self.old.offers.items address.now) }
        ensures limit { IfOk result (λ found. IfSome found (λ bytes. vec_len bytes ≤ offer_limit)) }
        ensures later { self.old.calls.faults ≤ self.new.calls.faults }
        ensures failed { result ≡ Err GetFault.Failed → HasRisen self.old.calls.faults self.new.calls.faults }
        ensures worked { result ≢ Err GetFault.Failed → self.new.calls.faults ≡ self.old.calls.faults }
    {
        // All memory is taken before the call is counted.
        let asked = Bytes::of(alloc, address)?;
        self.asked.reserve(1)?;
        let answer = self.answer(alloc, address)?;
        let fails = self.calls.next_fails();
        // There is room, so the address is never handed back.
        let _ = self.asked.push(asked);
        if fails {
            return Err(GetFault::Failed);
        }
        Ok(answer)
    }
}
