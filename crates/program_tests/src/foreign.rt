//! `foreign` over sources in memory: other servers' feeds, and the documents of a store.

ghost use Rattle.std.specs.Prelude.{◌≤◌, All, None, length, []};
ghost use Rattle.doc_source.specs.Pile.{offer_limit};

use crate::generated::{empty, push_lines};
use crate::runs::{fetched, fresh, offer_of, ran};
use crate::scripts::expect_script;
use atom_values::Many;
use doc_source::{Fetch, GetFault, Offer, PileFetch};
use feed_disk::Disk;
use foreign_mirror::ForeignFault;
use std::alloc::Global;
use std::process::Abort;
use std::str;

const SCRIPT: &str = "\
~ foreign: unused
$ foreign --from http://a.example/f.xml > 0 entry x 2019-01-02T00:00:00Z New|complete 2 1|
+ http://a.example/f.xml {atom,2020-01-01T00:00:00Z}<link rel=\"prev-archive\" href=\"old.xml\"/><entry><id>x</id><title>New</title><updated>2019-01-02T00:00:00Z</updated></entry></feed>
+ http://a.example/old.xml {atom,2019-06-01T00:00:00Z}<entry><id>x</id><title>Old</title><updated>2019-01-01T00:00:00Z</updated><content type=\"xhtml\"><div xmlns=\"http://www.w3.org/1999/xhtml\">o</div></content></entry></feed>
? http://a.example/f.xml
? http://a.example/old.xml
$ foreign --from http://a.example/f.xml > 3 missing http://a.example/old.xml|
+ http://a.example/f.xml {atom,2020-01-01T00:00:00Z}<link rel=\"prev-archive\" href=\"old.xml\"/><entry><id>x</id><title>New</title><updated>2019-01-02T00:00:00Z</updated></entry></feed>
? http://a.example/f.xml
? http://a.example/old.xml
$ foreign --from http://a.example/f.xml > 3 missing http://a.example/f.xml|
+ http://a.example/old.xml {atom,2019-06-01T00:00:00Z}<entry><id>x</id><title>Old</title><updated>2019-01-01T00:00:00Z</updated><content type=\"xhtml\"><div xmlns=\"http://www.w3.org/1999/xhtml\">o</div></content></entry></feed>
? http://a.example/f.xml
$ foreign --from http://a.example/f.xml > 3 chain again http://a.example/f.xml|
+ http://a.example/f.xml {atom,2020-01-01T00:00:00Z}<link rel=\"prev-archive\" href=\"f.xml\"/></feed>
? http://a.example/f.xml
$ foreign --from http://a.example/f.xml > 3 chain again http://a.example/f.xml|
+ http://a.example/f.xml {atom,2020-01-01T00:00:00Z}<link rel=\"prev-archive\" href=\"old.xml\"/><entry><id>x</id><title>New</title><updated>2019-01-02T00:00:00Z</updated></entry></feed>
+ http://a.example/old.xml {atom,2019-06-01T00:00:00Z}<link rel=\"prev-archive\" href=\"/f.xml\"/></feed>
? http://a.example/f.xml
? http://a.example/old.xml
$ foreign --from http://a.example/f.xml > 3 not http https://a.example/old.xml|
+ http://a.example/f.xml {atom,2020-01-01T00:00:00Z}<link rel=\"prev-archive\" href=\"https://a.example/old.xml\"/></feed>
+ http://a.example/old.xml {atom,2019-06-01T00:00:00Z}<entry><id>x</id><title>Old</title><updated>2019-01-01T00:00:00Z</updated><content type=\"xhtml\"><div xmlns=\"http://www.w3.org/1999/xhtml\">o</div></content></entry></feed>
? http://a.example/f.xml
$ foreign --from http://a.example/f.xml > 3 other feed http://a.example/old.xml|
+ http://a.example/f.xml {atom,2020-01-01T00:00:00Z}<link rel=\"prev-archive\" href=\"old.xml\"/><entry><id>x</id><title>New</title><updated>2019-01-02T00:00:00Z</updated></entry></feed>
+ http://a.example/old.xml <feed xmlns=\"http://www.w3.org/2005/Atom\"><id>g</id><updated>2019-06-01T00:00:00Z</updated></feed>
? http://a.example/f.xml
? http://a.example/old.xml
$ foreign --from http://a.example/f.xml > 3 not read http://a.example/old.xml 0|
+ http://a.example/f.xml {atom,2020-01-01T00:00:00Z}<link rel=\"prev-archive\" href=\"old.xml\"/><entry><id>x</id><title>New</title><updated>2019-01-02T00:00:00Z</updated></entry></feed>
+ http://a.example/old.xml <rss version=\"2.0\"/>
? http://a.example/f.xml
? http://a.example/old.xml
$ foreign --from http://a.example/f.xml > 3 not read http://a.example/f.xml 15|
+ http://a.example/f.xml <!-- a page --><html/>
? http://a.example/f.xml
A relation is compared byte by byte.
$ foreign --from http://a.example/f.xml > 0 complete 1 0|
+ http://a.example/f.xml {atom,2020-01-01T00:00:00Z}<link rel=\"PREV-ARCHIVE\" href=\"old.xml\"/></feed>
+ http://a.example/old.xml {atom,2019-06-01T00:00:00Z}<entry><id>x</id><title>Old</title><updated>2019-01-01T00:00:00Z</updated><content type=\"xhtml\"><div xmlns=\"http://www.w3.org/1999/xhtml\">o</div></content></entry></feed>
? http://a.example/f.xml
$ foreign --from http://a.example/f.xml > 0 entry x 2019-01-01T00:00:00Z Old|complete 2 1|
+ http://a.example/f.xml {atom,2020-01-01T00:00:00Z}<link rel=\"http://www.iana.org/assignments/relation/prev-archive\" href=\"old.xml\"/></feed>
+ http://a.example/old.xml {atom,2019-06-01T00:00:00Z}<entry><id>x</id><title>Old</title><updated>2019-01-01T00:00:00Z</updated><content type=\"xhtml\"><div xmlns=\"http://www.w3.org/1999/xhtml\">o</div></content></entry></feed>
? http://a.example/f.xml
? http://a.example/old.xml
The first link counts, and `xml:base` isn't read.
$ foreign --from http://a.example/f.xml > 0 entry x 2019-01-01T00:00:00Z Old|complete 2 1|
+ http://a.example/f.xml {atom,2020-01-01T00:00:00Z}<link rel=\"prev-archive\" xml:base=\"http://b.example/\" href=\"old.xml\"/><link rel=\"prev-archive\" href=\"f.xml\"/></feed>
+ http://a.example/old.xml {atom,2019-06-01T00:00:00Z}<entry><id>x</id><title>Old</title><updated>2019-01-01T00:00:00Z</updated><content type=\"xhtml\"><div xmlns=\"http://www.w3.org/1999/xhtml\">o</div></content></entry></feed>
? http://a.example/f.xml
? http://a.example/old.xml
The entry with the latest date counts, in whichever document it is.
$ foreign --from http://a.example/f.xml > 0 entry x 2019-01-03T00:00:00Z Later|complete 2 1|
+ http://a.example/f.xml {atom,2020-01-01T00:00:00Z}<link rel=\"prev-archive\" href=\"old.xml\"/><entry><id>x</id><title>New</title><updated>2019-01-02T00:00:00Z</updated></entry></feed>
+ http://a.example/old.xml {atom,2019-06-01T00:00:00Z}<entry><id> x </id><title>Later</title><updated>2019-01-03T00:00:00Z</updated></entry></feed>
? http://a.example/f.xml
? http://a.example/old.xml
Of entries with the same date, that of the document with the latest date counts, and the first one in it.
$ foreign --from http://a.example/f.xml > 0 entry x 2019-01-02T00:00:00Z One|complete 2 1|
+ http://a.example/f.xml {atom,2020-01-01T00:00:00Z}<link rel=\"prev-archive\" href=\"old.xml\"/><entry><id>x</id><title>New</title><updated>2019-01-02T00:00:00Z</updated></entry></feed>
+ http://a.example/old.xml {atom,2021-01-01T00:00:00Z}<entry><id>x</id><title>One</title><updated>2019-01-02T01:00:00+01:00</updated></entry><entry><id>x</id><title>Two</title><updated>2019-01-02T00:00:00Z</updated></entry></feed>
? http://a.example/f.xml
? http://a.example/old.xml
$ foreign --from http://a.example/f.xml > 0 entry x 2019-01-02T00:00:00Z New|complete 2 1|
+ http://a.example/f.xml {atom,2020-01-01T00:00:00Z}<link rel=\"prev-archive\" href=\"old.xml\"/><entry><id>x</id><title>New</title><updated>2019-01-02T00:00:00Z</updated></entry></feed>
+ http://a.example/old.xml {atom,2020-01-01T00:00:00Z}<entry><id>x</id><title>Two</title><updated>2019-01-02T00:00:00Z</updated></entry></feed>
? http://a.example/f.xml
? http://a.example/old.xml
A tombstone removes the entries up to its date, in whichever document it is.
$ foreign --from http://a.example/f.xml > 0 entry c 2019-01-02T00:00:00Z C|complete 2 1|
+ http://a.example/f.xml {atom,2020-01-01T00:00:00Z}<entry><id>b</id><title>B</title><updated>2019-01-02T00:00:00Z</updated></entry><entry><id>a</id><title>A</title><updated>2019-01-02T00:00:00Z</updated></entry><entry><id>c</id><title>C</title><updated>2019-01-02T00:00:00Z</updated></entry><link rel=\"prev-archive\" href=\"old.xml\"/></feed>
+ http://a.example/old.xml {atom,2019-06-01T00:00:00Z}<at:deleted-entry ref=\"b\" when=\"2019-01-02T00:00:00Z\"/><at:deleted-entry ref=\"c\" when=\"2019-01-01T23:59:59.999Z\"/><at:deleted-entry ref=\"a\" when=\"2019-01-03T00:00:00Z\"/><at:deleted-entry ref=\"d\" when=\"2019-01-03T00:00:00Z\"/></feed>
? http://a.example/f.xml
? http://a.example/old.xml
Texts have all characters of inner elements, and are printed as in attributes, in the order of identifiers.
$ foreign --from http://a.example/f.xml > 0 entry a 2019-01-02T00:00:00Z |entry b&quot; 2019-01-02T00:00:00Z A &lt;b&#9;|complete 1 2|
+ http://a.example/f.xml {atom,2020-01-01T00:00:00Z}<entry><id>b\"</id><title type=\"xhtml\"><div xmlns=\"http://www.w3.org/1999/xhtml\">A &lt;<b>b</b>{09}</div></title><updated>2019-01-02T00:00:00Z</updated></entry><entry><id>a</id><updated>2019-01-02T00:00:00Z</updated></entry></feed>
? http://a.example/f.xml
A call of the source or of the output fails.
$ foreign --from http://a.example/f.xml > 7 fetch fault|
! source 1
+ http://a.example/f.xml {atom,2020-01-01T00:00:00Z}<link rel=\"prev-archive\" href=\"old.xml\"/><entry><id>x</id><title>New</title><updated>2019-01-02T00:00:00Z</updated></entry></feed>
+ http://a.example/old.xml {atom,2019-06-01T00:00:00Z}<entry><id>x</id><title>Old</title><updated>2019-01-01T00:00:00Z</updated><content type=\"xhtml\"><div xmlns=\"http://www.w3.org/1999/xhtml\">o</div></content></entry></feed>
? http://a.example/f.xml
$ foreign --from http://a.example/f.xml > 7 fetch fault|
! source 2
+ http://a.example/f.xml {atom,2020-01-01T00:00:00Z}<link rel=\"prev-archive\" href=\"old.xml\"/><entry><id>x</id><title>New</title><updated>2019-01-02T00:00:00Z</updated></entry></feed>
+ http://a.example/old.xml {atom,2019-06-01T00:00:00Z}<entry><id>x</id><title>Old</title><updated>2019-01-01T00:00:00Z</updated><content type=\"xhtml\"><div xmlns=\"http://www.w3.org/1999/xhtml\">o</div></content></entry></feed>
? http://a.example/f.xml
? http://a.example/old.xml
$ foreign --from http://a.example/f.xml > 7
! output 1
! source 2
+ http://a.example/f.xml {atom,2020-01-01T00:00:00Z}<link rel=\"prev-archive\" href=\"old.xml\"/><entry><id>x</id><title>New</title><updated>2019-01-02T00:00:00Z</updated></entry></feed>
+ http://a.example/old.xml {atom,2019-06-01T00:00:00Z}<entry><id>x</id><title>Old</title><updated>2019-01-01T00:00:00Z</updated><content type=\"xhtml\"><div xmlns=\"http://www.w3.org/1999/xhtml\">o</div></content></entry></feed>
? http://a.example/f.xml
? http://a.example/old.xml
$ foreign --from http://a.example/f.xml > 8
! output 1
+ http://a.example/f.xml {atom,2020-01-01T00:00:00Z}<link rel=\"prev-archive\" href=\"old.xml\"/><entry><id>x</id><title>New</title><updated>2019-01-02T00:00:00Z</updated></entry></feed>
+ http://a.example/old.xml {atom,2019-06-01T00:00:00Z}<entry><id>x</id><title>Old</title><updated>2019-01-01T00:00:00Z</updated><content type=\"xhtml\"><div xmlns=\"http://www.w3.org/1999/xhtml\">o</div></content></entry></feed>
? http://a.example/f.xml
? http://a.example/old.xml
The feed of a store after five operations.
$ foreign --from=http://feed.example/feed > 0 entry urn:uuid:6d1f0c5a-93be-8c27-8000-000000000001 2023-11-14T22:13:20.001Z a|entry urn:uuid:6d1f0c5a-93be-8c27-8000-000000000002 2023-11-14T22:13:20.002Z b|entry urn:uuid:6d1f0c5a-93be-8c27-8000-000000000003 2023-11-14T22:13:20.003Z c|entry urn:uuid:6d1f0c5a-93be-8c27-8000-000000000004 2023-11-14T22:13:20.004Z d|entry urn:uuid:6d1f0c5a-93be-8c27-8000-000000000005 2023-11-14T22:13:20.005Z e|complete 2 5|
+ http://feed.example/feed {letters,5}
+ http://feed.example/archive/1 {sealed,1}
? http://feed.example/feed
? http://feed.example/archive/1
";

#[test]
fn walks_end_as_the_chain_does(rt: HostRuntime) {
    expect_script(&rt, rt.alloc(), SCRIPT);
}

/// The offer of an archive of a store, or of the subscription document if `archive` is 0.
fn own_offer<D: Disk>(rt: &impl Abort, alloc: Global, store: &mut D, archive: u32) -> Offer
    ensures { length result.bytes ≤ offer_limit }
{
    let path = if archive == 0 {
        format!(in alloc; "feed")
    } else {
        format!(in alloc; "archive/{archive}")
    };
    let path = path.expect(rt, "memory");
    let shown = path.replace(alloc, '/', " ").expect(rt, "memory");
    let words = format!(in alloc; "show {shown}").expect(rt, "memory");
    let address = format!(in alloc; "http://feed.example/{path}").expect(rt, "memory");
    let text = ran(rt, alloc, store, words.as_str(), b"").text;
    offer_of(rt, alloc, address.as_str(), text)
}

/// A source of the documents of a store with this number of archives.
fn own_source<D: Disk>(rt: &impl Abort, alloc: Global, store: &mut D, archives: u32) -> PileFetch {
    let mut offers = Many::new(alloc);
    for archive in 0..=archives {
        let offer = own_offer(rt, alloc, store, archive);
        offers.push(offer).expect(rt, "memory");
    }
    PileFetch::new(alloc, offers, Many::new(alloc))
}

/// What a walk of a store prints of a live entry, by its line in the report of the store's own mirror: it has the
/// identifier in place of the number.
fn own_line(rt: &impl Abort, alloc: Global, entry: &str) -> String {
    let (number, rest) = entry.split_once(' ').expect(rt, "a number");
    let number = number.parse::<u32>().expect(rt, "a number");
    format!(in alloc; "entry urn:uuid:6d1f0c5a-93be-8c27-8000-{number:012x} {rest}\n").expect(
        rt, "memory",
    )
}

/// What a walk of a store prints, by the report of the store's own mirror: its lines of entries, and the number of
/// documents in place of the version.
fn by_report(rt: &impl Abort, alloc: Global, report: &str, documents: u32) -> String {
    let mut text = String::new(alloc);
    let mut live = 0u32;
    for line in report.split('\n') {
        if let Some(entry) = line.strip_prefix("entry ") {
            let line = own_line(rt, alloc, entry);
            text.push_str(line.as_str()).expect(rt, "memory");
            live = live.saturating_add(1);
        }
    }
    let last = format!(in alloc; "complete {documents} {live}\n").expect(rt, "memory");
    text.push_str(last.as_str()).expect(rt, "memory");
    text
}

/// The commands that walk the store's feed.
const FETCH: (&str, &[u8]) = ("mirror *base --fetch --report", b"");

const OWN: (&str, &[u8]) = ("foreign --from=http://feed.example/feed", b"");

/// Fetches the documents of a store with this number of archives into a mirror, walks them, and compares what is printed.
fn expect_same<D: Disk>(rt: &impl Abort, alloc: Global, store: &mut D, archives: u32) {
    let mut source = own_source(rt, alloc, store, archives);
    let report = fetched(rt, alloc, store, &mut source, FETCH);
    let walked = fetched(rt, alloc, store, &mut source, OWN);
    let text = str::from_utf8(report.text.as_slice()).expect(rt, "a report");
    let wanted = by_report(rt, alloc, text, archives.saturating_add(1));
    assert!(rt; report.status == 0 && walked.is(0, wanted.as_bytes()));
    drop((source, report, walked, wanted));
}

#[test]
fn a_walk_agrees_with_the_mirror(rt: HostRuntime) {
    let alloc = rt.alloc();
    let mut disk = fresh(&rt, alloc, 0);
    let mut fold = empty(alloc);
    push_lines(&rt, alloc, &mut fold, 13, 300);
    ran(&rt, alloc, &mut disk, "init * --window 4", b"");
    ran(&rt, alloc, &mut disk, "apply", fold.lines.as_bytes());
    expect_same(&rt, alloc, &mut disk, fold.sealed);
    assert!(rt; fold.sealed > 40 && fold.live.len() > 10);
    drop((disk, fold));
}

/// A source each of whose documents has another one before it.
#[derive(Drop)]
struct Endless {
    asked: u64,
}

impl Fetch for Endless {
    ghost observable = { ⊥ };

    ghost state = { λ f. record { asked = []; answers = λ _. None; faults = 0 } };

    fn get(&mut self, alloc: Global, _address: &[u8]) -> Result<Option<Vec<u8>>, GetFault> {
        self.asked = self.asked.saturating_add(1);
        let number = self.asked;
        let rest = format!(in alloc; "<link rel=\"prev-archive\" href=\"{number}\"/></feed>")?;
        let mut text = Vec::from_slice(alloc, UNDATED)?;
        text.extend_from_slice(rest.as_bytes())?;
        if text.len() > 67_108_864 {
            return Err(GetFault::NoMemory);
        }
        Ok(Some(text))
    }
}

/// The beginning of a document of `Endless`.
const UNDATED: &[u8] =
    b"<feed xmlns=\"http://www.w3.org/2005/Atom\"><id>f</id><updated>2020-01-01T00:00:00Z</updated>";

#[test]
fn a_walk_takes_10_000_documents(rt: HostRuntime) {
    let alloc = rt.alloc();
    let mut disk = fresh(&rt, alloc, 0);
    let mut source = Endless { asked: 0 };
    let command = ("foreign --from http://a.example/f.xml", b"".as_slice());
    let end = fetched(&rt, alloc, &mut disk, &mut source, command);
    assert!(rt; end.is(3, b"too many documents\n") && source.asked == 10_000);
    drop((disk, source, end));
}

#[test]
fn a_fault_of_a_walk_has_a_sentence(rt: HostRuntime) {
    let (fetch, memory) = (ForeignFault::FetchFault, ForeignFault::NoMemory);
    let sentences = format!(in rt.alloc(); "{fetch}, {memory}").expect(&rt, "memory");
    assert_eq!(rt; sentences.as_str(), "fetch fault, out of memory");
}
