//! The documents of a store, and of a relay of a relay, as sources. The relays keep what they hold from turn to turn.

ghost use Rattle.std.specs.Prelude.{◌≡◌, false};
ghost use Rattle.mirror_walk.specs.Mirror.{StandsFor, is_spent};

use crate::events::{Does, NOW, bytes, head, request};
use crate::fold::{Doc, Fold};
use Does::{Delete, Make, Replace};
use atom_values::{Copies, Many};
use chain_links::Base;
use doc_source::{Fetch, GetFault};
use document_server::answer;
use feed_disk::{Disk, MemoryDisk};
use feed_life::StoreFetch;
use feed_recovery::Store;
use feed_relay::RelayFetch;
use mirror_walk::{Mirror, Outcome};
use std::alloc::Global;
use std::process::Abort;

/// The greatest size of an area.
const CAPACITY: u64 = 1_000_000;

/// An empty disk, of which this device call fails. 0 lists no call.
fn empty_disk(rt: &impl Abort, alloc: Global, failing: u64) -> MemoryDisk {
    let mut calls = Many::new(alloc);
    calls.push(failing).expect(rt, "memory");
    let (journal, sealed) = (bytes(rt, alloc, b""), bytes(rt, alloc, b""));
    MemoryDisk::new(alloc, journal, sealed, bytes(rt, alloc, b""), calls)
}

/// Such a disk with a store, whose windows have two operations.
fn store_disk(rt: &impl Abort, alloc: Global, failing: u64) -> MemoryDisk {
    let mut disk = empty_disk(rt, alloc, failing);
    let head = head(rt, alloc, 2, CAPACITY);
    Store::init(alloc, &mut disk, &head).expect(rt, "a store");
    drop(head);
    disk
}

/// Makes the requests of these changes of the store of a disk, and the same changes of the fold.
fn change(
    rt: &impl Abort,
    alloc: Global,
    disk: &mut MemoryDisk,
    fold: &mut Fold,
    changes: &[Does],
) {
    for &does in changes {
        let request = request(rt, alloc, does);
        let mut store = Store::load(alloc, disk).expect(rt, "a store");
        let reply = answer(alloc, &mut store, disk, &request, NOW);
        let status = fold.take(rt, does, None);
        assert!(rt; status == Some(reply.status) && (reply.status == 201 || reply.status == 200));
        drop((reply, request, store));
    }
}

/// The documents of the store of a disk as a source.
fn source(rt: &impl Abort, alloc: Global, disk: MemoryDisk) -> StoreFetch<MemoryDisk> {
    let mut kept = disk;
    let store = Store::load(alloc, &mut kept).expect(rt, "a store");
    StoreFetch::new(alloc, store, kept)
}

/// Addresses, and their documents.
static ADDRESSES: [(&str, Option<Doc>); 8] = [
    ("http://feed.example/feed", Some(Doc::Feed(3))),
    ("http://feed.example/archive/1", Some(Doc::Archive(1))),
    ("http://feed.example/archive/2", None),
    ("http://feed.example/archive/01", None),
    ("http://feed.example/member/1", None),
    ("http://other.example/feed", None),
    ("/feed", None),
    ("", None),
];

/// A store of three operations as a source. Its disk fails in this device call.
fn filled(rt: &impl Abort, alloc: Global, fold: &mut Fold, failing: u64) -> StoreFetch<MemoryDisk> {
    let mut disk = store_disk(rt, alloc, failing);
    change(rt, alloc, &mut disk, fold, &[Make(1), Make(2), Make(3)]);
    source(rt, alloc, disk)
}

#[test]
fn a_store_answers_its_addresses(rt: HostRuntime) {
    let alloc = rt.alloc();
    let mut fold = Fold::new(alloc, "a source", 2);
    let mut whole = filled(&rt, alloc, &mut fold, 0);
    for &(address, doc) in &ADDRESSES {
        let found = whole
            .get(alloc, address.as_bytes())
            .expect(&rt, "an answer");
        let wanted = match doc {
            Some(doc) => fold.text(&rt, alloc, doc),
            None => String::new(alloc),
        };
        let text = match &found {
            Some(found) => found.as_slice(),
            None => b"",
        };
        assert!(rt;
            found.is_some() == doc.is_some() && text == wanted.as_bytes(),
            "{address}"
        );
    }
    let (store, disk) = whole.back();
    assert!(rt; store.version() == 3 && !store.is_spent());
    drop((store, disk, fold));
}

#[test]
fn a_source_whose_disk_failed_answers_nothing(rt: HostRuntime) {
    let alloc = rt.alloc();
    let mut fold = Fold::new(alloc, "a failed source", 2);
    let (store, disk) = filled(&rt, alloc, &mut fold, 0).back();
    let calls = disk.calls();
    drop((store, disk));
    let mut failing = filled(&rt, alloc, &mut fold, calls.saturating_add(1));
    for address in ["http://feed.example/archive/1", "http://feed.example/feed"] {
        let found = failing.get(alloc, address.as_bytes());
        assert!(rt; matches!(&found, Err(GetFault::Failed)), "{address}");
    }
    let (store, disk) = failing.back();
    assert!(rt; store.is_spent());
    drop((store, disk, fold));
}

/// The mirror of a disk, and its base.
fn load<D: Disk>(rt: &impl Abort, alloc: Global, disk: &mut D) -> (Mirror, Base)
    ensures unspent { is_spent result.0 ≡ false }
    ensures stands { D.observable → StandsFor (D.state disk.new) result.0 }
    ensures base { result.1 ≡ result.0.base }
{
    let own = Base::parse(alloc, b"http://feed.example/").expect(rt, "a base");
    let given = own.copy(alloc).expect(rt, "memory");
    let mirror = Mirror::load(alloc, disk, given, CAPACITY).expect(rt, "a mirror");
    (mirror, own)
}

/// Walks from the mirror of a disk, and returns what the mirror then shows.
fn walk<D: Disk, F: Fetch>(rt: &impl Abort, alloc: Global, disk: &mut D, fetch: &mut F) -> Outcome {
    let (mut mirror, base) = load(rt, alloc, disk);
    drop(base);
    drop(mirror.walk(disk, fetch).expect(rt, "a walk"));
    let shown = mirror.outcome().expect(rt, "memory");
    drop(mirror);
    shown
}

/// Walks from the mirror of a disk, and returns the mirror's relay. What the mirror shows is compared.
fn relayed<F: Fetch>(
    rt: &impl Abort,
    alloc: Global,
    disk: MemoryDisk,
    fetch: &mut F,
    wanted: Outcome,
) -> RelayFetch<MemoryDisk> {
    let mut walked = disk;
    let shown = walk(rt, alloc, &mut walked, fetch);
    assert!(rt; shown == wanted, "{shown:?}");
    let (mirror, base) = load(rt, alloc, &mut walked);
    RelayFetch::new(alloc, mirror, walked, base)
}

/// The changes before each walk.
static TURNS: [&[Does]; 8] = [
    &[],
    &[Make(1)],
    &[Make(2), Make(3)],
    &[Replace(1, 4)],
    &[Delete(2), Make(5), Make(6), Replace(3, 7), Replace(3, 8)],
    &[],
    &[Make(9), Delete(1), Delete(4)],
    &[
        Make(10),
        Make(11),
        Make(12),
        Make(13),
        Delete(5),
        Delete(6),
        Make(14),
    ],
];

#[test]
fn a_relay_of_a_relay_shows_the_fold(rt: HostRuntime) {
    let alloc = rt.alloc();
    let mut fold = Fold::new(alloc, "a relay", 2);
    let mut feed = store_disk(&rt, alloc, 0);
    let (mut one, mut two, mut three) = (
        empty_disk(&rt, alloc, 0),
        empty_disk(&rt, alloc, 0),
        empty_disk(&rt, alloc, 0),
    );
    for changes in &TURNS {
        change(&rt, alloc, &mut feed, &mut fold, changes);
        fold.take(&rt, Does::Walk(0), None);
        let wanted = fold.outcome(0);
        let mut origin = source(&rt, alloc, feed);
        let mut first = relayed(&rt, alloc, one, &mut origin, wanted);
        let mut second = relayed(&rt, alloc, two, &mut first, wanted);
        let third = relayed(&rt, alloc, three, &mut second, wanted);
        feed = origin.back().1;
        one = first.back().1;
        two = second.back().1;
        three = third.back().1;
    }
    drop((fold, feed, one, two, three));
}
