ghost use Rattle.std.specs.Prelude.{◌≡◌, ◌<◌, ℕ, List, [], ◌∷◌, ◌++◌, Err, IfErr, IfOk, OnOk};
ghost use Rattle.atom_values.specs.Counts.{CountsFault};
ghost use Rattle.feed_reader.specs.Feed.{DocumentValue};
ghost use Rattle.foreign_mirror.specs.Walk.{HasWalked, IsForeign, IsStart, document_limit, is_http};
ghost use Rattle.foreign_mirror.specs.Walk.Ending.{over};
ghost use Rattle.foreign_mirror.specs.Steps.{HasRun, HasTaken, IsChecked, IsFound, IsJoined, IsTakenVisit, IsVisit, Keeps, Knows, refused};

use crate::fault::ForeignFault;
use atom_values::{AtomText, Bytes, Copies, Many, NoMemory};
use doc_source::Fetch;
use feed_reader::{FeedWhy, ForeignDoc, ForeignEntry, ForeignRead, read_feed};
use foreign_entries::{LiveEntries, MAX_LIVE};
use std::alloc::Global;
use std::collections::BTreeSet;

/// The greatest number of documents that a walk takes.
pub const MAX_DOCUMENTS: u32 = 10_000;

/// How the chain of a feed's documents ended.
#[derive(Debug, PartialEq, Eq, Drop)]
pub enum ChainEnd {
    /// The last document has no archive before it.
    Complete,
    /// The next address was asked before.
    Again {
        address: Bytes,
    },
    /// The scheme of the next address isn't `http`.
    NotHttp {
        address: Bytes,
    },
    /// [`MAX_DOCUMENTS`] were taken, and there is a next address.
    TooMany,
    /// The source has no document at the address.
    Missing {
        address: Bytes,
    },
    /// The document at the address is refused, at an offset in it.
    NotRead {
        address: Bytes,
        at: usize,
        why: FeedWhy,
    },
    /// The document at the address has another identifier than the first document.
    OtherFeed {
        address: Bytes,
    },
}

/// What a walk found.
#[derive(Debug, Drop)]
pub struct Foreign {
    /// The number of documents that were taken.
    pub docs: u32,
    /// The live entries of these documents, in the order of their identifiers' bytes.
    pub live: Many<ForeignEntry, MAX_LIVE>,
    pub end: ChainEnd,
}

/// A walk so far.
#[derive(Drop)]
struct Progress {
    alloc: Global,
    /// The addresses that were asked.
    asked: BTreeSet<Vec<u8>>,
    /// The identifier of the first document.
    feed: Option<AtomText>,
    entries: LiveEntries,
    /// The number of documents that were taken.
    docs: u32,
}

/// The outcome of asking an address.
#[derive(Drop)]
enum Visit {
    /// The document was taken. `prev` is the address of the archive before it.
    Taken { prev: Option<Bytes> },
    /// The walk ends, and no document was taken.
    Ended(ChainEnd),
}

/// Whether the scheme of the address is `http`.
fn is_http(address: &[u8]) -> bool
    ensures { result ≡ is_http address.now }
{
    address.starts_with(b"http:")
}

/// The outcome if the document at the address can't be read.
fn visit_refused(address: Bytes, fault: ForeignRead) -> Result<Visit, ForeignFault>
    ensures { result ≡ refused address fault }
{
    match fault {
        ForeignRead::NotRead { at, why } => Ok(Visit::Ended(ChainEnd::NotRead {
            address,
            at,
            why,
        })),
        ForeignRead::NoMemory => Err(ForeignFault::NoMemory),
    }
}

impl Progress {
    /// A walk before its first address.
    fn new(alloc: Global) -> Progress
        ensures { Keeps [] [] result }
    {
        Progress {
            alloc,
            asked: BTreeSet::new(alloc),
            feed: None,
            entries: LiveEntries::new(alloc),
            docs: 0,
        }
    }

    /// Walks to the end of the chain.
    fn run<F: Fetch>(&mut self, fetch: &mut F, from: &[u8]) -> Result<ChainEnd, ForeignFault>
        requires { Keeps [] [] self.old }
        ensures ran { F.observable
            → HasRun (F.state fetch.old) (F.state fetch.new) from.now self.new result }
        ensures answers { (F.state fetch.new).answers ≡ (F.state fetch.old).answers }
        ensures faults { CountsFault (F.state fetch.old).faults (F.state fetch.new).faults
            (result ≡ Err ForeignFault.FetchFault) }
    {
        let mut next = Some(Bytes::of(self.alloc, from)?);
        'addresses: loop {
            let address = match self.check(next) {
                Ok(address) => address,
                Err(end) => return Ok(end),
            };
            match self.visit(fetch, address)? {
                Visit::Taken { prev } => next = prev,
                Visit::Ended(end) => return Ok(end),
            }
        }
    }

    /// The next address if it is to be asked, or else the end of the walk.
    fn check(&self, next: Option<Bytes>) -> Result<Bytes, ChainEnd>
        ensures checked { (asked : List (List ℕ)) (documents : List DocumentValue)
            → Keeps asked documents self.now → IsChecked asked next result }
        ensures few { OnOk result (self.now.docs < document_limit) }
    {
        let Some(address) = next else {
            return Err(ChainEnd::Complete);
        };
        if self.asked.contains(address.slice()) {
            return Err(ChainEnd::Again { address });
        }
        if !is_http(address.slice()) {
            return Err(ChainEnd::NotHttp { address });
        }
        if self.docs >= MAX_DOCUMENTS {
            return Err(ChainEnd::TooMany);
        }
        Ok(address)
    }

    /// Asks the source for the document at the address, and takes it.
    fn visit<F: Fetch>(&mut self, fetch: &mut F, address: Bytes) -> Result<Visit, ForeignFault>
        requires few { self.old.docs < document_limit }
        ensures visited { (asked : List (List ℕ)) (documents : List DocumentValue)
            → Keeps asked documents self.old
            → IsVisit F.observable (F.state fetch.old) (F.state fetch.new) asked documents address
            self.new result }
        ensures answers { (F.state fetch.new).answers ≡ (F.state fetch.old).answers }
        ensures faults { CountsFault (F.state fetch.old).faults (F.state fetch.new).faults
            (result ≡ Err ForeignFault.FetchFault) }
    {
        self.mark(address.slice())?;
        let Some(bytes) = fetch.get(self.alloc, address.slice())? else {
            return Ok(Visit::Ended(ChainEnd::Missing { address }));
        };
        let read = read_feed(self.alloc, bytes.as_slice(), address.slice());
        drop(bytes);
        match read {
            Ok(document) => Ok(self.take(address, document)?),
            Err(fault) => visit_refused(address, fault),
        }
    }

    /// Counts the address as asked.
    fn mark(&mut self, address: &[u8]) -> Result<(), NoMemory>
        ensures knows { (asked : List (List ℕ)) → Knows asked self.old
            → OnOk result (Knows (asked ++ address.now ∷ []) self.new) }
        ensures taken { (documents : List DocumentValue) → HasTaken documents self.old
            → HasTaken documents self.new }
        ensures docs { self.new.docs ≡ self.old.docs }
    {
        let text = Vec::from_slice(self.alloc, address)?;
        self.asked.insert(text)?;
        Ok(())
    }

    /// Whether the document is of the feed. The first document decides which feed that is.
    fn joins(&mut self, document: &ForeignDoc) -> Result<bool, NoMemory>
        ensures { IfOk result (IsJoined self.old self.new document.now) }
    {
        match &self.feed {
            Some(id) => Ok(*id == document.id),
            None => {
                self.feed = Some(document.id.copy(self.alloc)?);
                Ok(true)
            }
        }
    }

    /// The outcome for the document at the address, which isn't counted yet.
    fn outcome(&mut self, address: Bytes, document: &ForeignDoc) -> Result<Visit, NoMemory>
        ensures { IfOk result (IsFound self.old self.new address document.now) }
    {
        if self.joins(document)? {
            let prev = document.prev.copy(self.alloc)?;
            Ok(Visit::Taken { prev })
        } else {
            Ok(Visit::Ended(ChainEnd::OtherFeed { address }))
        }
    }

    /// Takes the document at the address, unless it is of another feed than the first document.
    fn take(&mut self, address: Bytes, document: ForeignDoc) -> Result<Visit, NoMemory>
        requires few { self.old.docs < document_limit }
        ensures { (documents : List DocumentValue) → HasTaken documents self.old
            → IfOk result (IsTakenVisit documents address document self.old self.new) }
    {
        let Ok(visit) = self.outcome(address, &document) else {
            drop(document);
            return Err(NoMemory);
        };
        match visit {
            Visit::Taken { prev } => {
                self.entries.add(document)?;
                self.docs += 1;
                Ok(Visit::Taken { prev })
            }
            Visit::Ended(end) => {
                drop(document);
                Ok(Visit::Ended(end))
            }
        }
    }

    /// The result of a walk with this end.
    fn finish(self, end: ChainEnd) -> Result<Foreign, ForeignFault>
        ensures found { (documents : List DocumentValue) → HasTaken documents self
            → IfOk result (IsForeign documents (over end)) }
        ensures unfailed { IfErr result (λ fault. fault ≡ ForeignFault.NoMemory) }
    {
        let Progress {
            alloc,
            asked,
            feed,
            entries,
            docs,
        } = self;
        drop(asked);
        drop(feed);
        let live = entries.into_live(alloc)?;
        Ok(Foreign { docs, live, end })
    }
}

/// Walks the archived feed of any server: asks the source for the document at `from`, and then for the archive before
/// each document that was taken (RFC 5005 section 4). `from` is an `http` URL that the parser of the URL Standard leaves
/// as it is.
///
/// Each next address is checked in this order: `Again`, `NotHttp` and `TooMany` of [`ChainEnd`] end the walk before the
/// source is asked. Then `Missing`, `NotRead` and `OtherFeed` end it.
///
/// Errors:
///
/// - `FetchFault` if the source's count of faults rose.
/// - `NoMemory` if memory ran out.
///
/// Keeps one document at a time, and what [`LiveEntries`] keeps of those before.
pub fn foreign_walk<F: Fetch>(
    alloc: Global,
    fetch: &mut F,
    from: &[u8],
) -> Result<Foreign, ForeignFault>
    requires { IsStart from.now }
    // Over a source whose answers contracts can see: the addresses asked, and the result.
    ensures walked { F.observable
        → HasWalked (F.state fetch.old) (F.state fetch.new) from.now result }
    // The source's answers stay. Its count of faults rose exactly where a call failed.
    ensures answers { (F.state fetch.new).answers ≡ (F.state fetch.old).answers }
    ensures faults { CountsFault (F.state fetch.old).faults (F.state fetch.new).faults
        (result ≡ Err ForeignFault.FetchFault) }
{
    let mut walk = Progress::new(alloc);
    match walk.run(fetch, from) {
        Ok(end) => walk.finish(end),
        Err(fault) => {
            drop(walk);
            Err(fault)
        }
    }
}
