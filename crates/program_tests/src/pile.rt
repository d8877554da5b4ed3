//! `show pile` of a store on a disk in memory.

use crate::scripts::expect_script;
use crate::text::{expanded, push_offer};
use atom_values::{Bytes, Many};
use doc_source::{ListSource, PileReader};
use std::str;

const SCRIPT: &str = "\
~ the pile has the documents of the store
$ init * --window 4 > 0 ready|
$ apply < add a|add b|add c|add d|add e|add f|add g|add h|add i|add j|add k|add l|add m| > 0 {letters,13}
$ show feed > 0 {letters,13}
$ show archive 3 > 0 {sealed,3}
$ show archive 2 > 0 {sealed,2}
$ show archive 1 > 0 {sealed,1}
$ show pile > 0 {pile,f13,3,2,1}
~ the pile of an empty store has one document
$ show pile > 6 not init|
$ init * > 0 ready|
$ show pile > 0 {pile,f0}
~ the pile ends where the output fails
$ init * --window 4 > 0 ready|
$ apply < add a|add b|add c|add d|add e|add f|add g|add h|add i|add j|add k|add l|add m| > 0 {letters,13}
$ show pile > 8 pile 1|http://feed.example/feed
! output 3
~ the pile ends where the disk fails: 95 96
`init` and `apply` make 83 device calls, and `show pile` 13. The last two read archives 2 and 1.
$ init * --window 4 > 0 ready|
$ apply < add a|add b|add c|add d|add e|add f|add g|add h|add i|add j|add k|add l|add m| > 0 {letters,13}
$ show pile > 4 {pile,f13,3}disk fault|
";

#[test]
fn has_the_documents_of_the_store(rt: HostRuntime) {
    expect_script(&rt, rt.alloc(), SCRIPT);
}

#[test]
fn is_read_offer_by_offer(rt: HostRuntime) {
    let alloc = rt.alloc();
    let pile = expanded(&rt, alloc, "{pile,f13,3,2,1}");
    let bytes = Bytes::of(alloc, pile.as_slice()).expect(&rt, "memory");
    let mut source = ListSource::new(bytes, Many::new(alloc));
    let mut reader = PileReader::new(alloc, 100_000).expect(&rt, "memory");
    let mut again = Vec::from_slice(alloc, b"pile 1\n").expect(&rt, "memory");
    for _ in 0..4 {
        let read = reader.next(&mut source).expect(&rt, "a pile");
        let offer = read.expect(&rt, "an offer");
        let address = str::from_utf8(offer.address.slice()).expect(&rt, "an address");
        push_offer(&rt, alloc, &mut again, address, offer.bytes.slice());
        drop(offer);
    }
    let more = reader.next(&mut source).expect(&rt, "a pile");
    assert!(rt; more.is_none() && again.as_slice() == pile.as_slice());
    drop((more, source, reader));
}
