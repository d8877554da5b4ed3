//! Piles that are read from a source: whole ones, others, and those of a source that fails and goes on.

use atom_values::{Bytes, Copies, Failed, Many};
use doc_source::{
    ListSink, ListSource, Offer, PileFault, PileReader, Source, write_offer, write_pile_head,
};
use std::alloc::Global;
use std::process::Abort;

/// A source that gives at most `most` bytes a call.
#[derive(Drop)]
struct Trickle {
    inner: ListSource,
    most: usize,
}

impl Source for Trickle {
    ghost use Rattle.std.specs.Prelude.{◌≡◌, []};
    ghost use Rattle.doc_source.specs.Outside.{SourceState};

    ghost observable = { ⊥ };

    ghost state = { λ s. record {
      left = [];
      faults = (⟦<ListSource as Source>⟧.state s.inner).faults;
      bytes_read = (⟦<ListSource as Source>⟧.state s.inner).bytes_read;
    } };

    fn read(&mut self, into: &mut [u8]) -> Result<usize, Failed> {
        let room = into.len().min(self.most);
        self.inner.read(&mut into[..room])
    }
}

/// A source of these bytes, of which three calls fail from this one on, if it isn't 0.
fn source_of(rt: &impl Abort, alloc: Global, bytes: &[u8], failing: u64, most: usize) -> Trickle {
    let mut calls = Many::new(alloc);
    if failing > 0 && failing < 1000 {
        for call in [failing, failing + 1, failing + 3] {
            calls.push(call).expect(rt, "memory");
        }
    }
    let bytes = Bytes::of(alloc, bytes).expect(rt, "memory");
    Trickle {
        inner: ListSource::new(bytes, calls),
        most,
    }
}

/// An answer in short. A failed call has none. A `;` comes after the answers that end the pile.
fn answer_text(
    rt: &impl Abort,
    alloc: Global,
    answer: &Result<Option<Offer>, PileFault>,
) -> String {
    let text = match answer {
        Ok(Some(offer)) => {
            let address = str::from_utf8(offer.address.slice()).expect(rt, "text");
            let bytes = str::from_utf8(offer.bytes.slice()).expect(rt, "text");
            format!(in alloc; "({address}:{bytes})")
        }
        Ok(None) => format!(in alloc; "end;"),
        Err(PileFault::SourceFault) => format!(in alloc; ""),
        Err(fault) => format!(in alloc; "{fault};"),
    };
    text.expect(rt, "memory")
}

/// All answers, and the one after the last.
fn answers(rt: &impl Abort, alloc: Global, source: &mut Trickle, limit: u64) -> String {
    let mut reader = PileReader::new(alloc, limit).expect(rt, "memory");
    let mut text = String::new(alloc);
    let mut ends = 0u8;
    for _ in 0..1000 {
        let answer = reader.next(source);
        let line = answer_text(rt, alloc, &answer);
        drop(answer);
        text.push_str(line.as_str()).expect(rt, "memory");
        if line.as_str().ends_with(";") {
            ends = ends.saturating_add(1);
        }
        if ends == 2 {
            break;
        }
    }
    drop(reader);
    text
}

/// Reads the bytes in pieces of several sizes, and compares the answers.
fn expect(rt: &impl Abort, alloc: Global, bytes: &[u8], failing: u64, limit: u64, wanted: &str) {
    for most in [1, 7, 100_000] {
        let mut source = source_of(rt, alloc, bytes, failing, most);
        let text = answers(rt, alloc, &mut source, limit);
        drop(source);
        assert!(rt;
            text.as_str() == wanted,
            "{limit} {failing} {wanted} {text}"
        );
    }
}

const TWO: &[u8] = b"pile 1\na 3\nxyz\nbb 0\n\n";

const BAD_HEAD: &str = "bad pile at offset 0;bad pile at offset 0;";

const BAD: &str = "bad pile at offset 7;bad pile at offset 7;";

const BAD_SECOND: &str = "(a:xyz)bad pile at offset 15;bad pile at offset 15;";

/// Bytes, the limit, and all answers.
static READ: [(&[u8], u64, &str); 21] = [
    (b"pile 1\n", 1000, "end;end;"),
    (TWO, 1000, "(a:xyz)(bb:)end;end;"),
    (TWO, 21, "(a:xyz)(bb:)end;end;"),
    (
        b"pile 1\na 3\nx\nz\nb 1\n\n\n",
        1000,
        "(a:x\nz)(b:\n)end;end;",
    ),
    (b"pile 2\n", 1000, BAD_HEAD),
    (b"pile 1\na 03\nxyz\n", 1000, BAD),
    (b"pile 1\na +3\nxyz\n", 1000, BAD),
    (b"pile 1\na \nxyz\n", 1000, BAD),
    (b"pile 1\na 67108865\nxyz\n", 1000, BAD),
    (b"pile 1\na 67108864\nxyz\n", 1000, BAD),
    (b"pile 1\na b 3\nxyz\n", 1000, BAD),
    (b"pile 1\n 3\nxyz\n", 1000, BAD),
    (b"pile 1\na 3\nxyzw\n", 1000, BAD),
    (b"pile 1\na 3\nxyz!", 15, BAD),
    (b"pile 1\na 03\nxyz\n", 11, BAD),
    (
        b"pile 1\na 3\nxyz!",
        14,
        "the pile has more than 14 bytes;the pile has more than 14 bytes;",
    ),
    (
        b"pile 1\na 67108865\nxyz\n",
        16,
        "the pile has more than 16 bytes;the pile has more than 16 bytes;",
    ),
    (
        b"pile 1\na 3\nxyz\nbb 0\n\nz",
        21,
        "(a:xyz)(bb:)the pile has more than 21 bytes;the pile has more than 21 bytes;",
    ),
    (
        b"pilf 1\na",
        3,
        "the pile has more than 3 bytes;the pile has more than 3 bytes;",
    ),
    (b"pilf 1\na", 4, BAD_HEAD),
    (b"", 0, BAD_HEAD),
];

/// The answers to the first bytes of `TWO`: to none, to one, and so on. A pile that is cut is refused at its last offer.
static CUT: [&str; 22] = [
    BAD_HEAD,
    BAD_HEAD,
    BAD_HEAD,
    BAD_HEAD,
    BAD_HEAD,
    BAD_HEAD,
    BAD_HEAD,
    "end;end;",
    BAD,
    BAD,
    BAD,
    BAD,
    BAD,
    BAD,
    BAD,
    "(a:xyz)end;end;",
    BAD_SECOND,
    BAD_SECOND,
    BAD_SECOND,
    BAD_SECOND,
    BAD_SECOND,
    "(a:xyz)(bb:)end;end;",
];

#[test]
fn a_pile_is_read_or_refused(rt: HostRuntime) {
    let alloc = rt.alloc();
    for (bytes, limit, wanted) in &READ {
        expect(&rt, alloc, bytes, 0, *limit, wanted);
    }
    for (len, wanted) in CUT.iter().enumerate() {
        let bytes = TWO.get(..len).expect(&rt, "bytes");
        expect(&rt, alloc, bytes, 0, 1000, wanted);
    }
    // After a failed call a pile is read on.
    for call in 1..30 {
        expect(&rt, alloc, TWO, call, 1000, "(a:xyz)(bb:)end;end;");
    }
}

/// Writes a pile of one offer.
fn write(sink: &mut ListSink, offer: &Offer) -> Result<(), Failed> {
    write_pile_head(sink)?;
    write_offer(sink, offer.address.slice(), offer.bytes.slice())
}

#[test]
fn an_offer_is_copied_and_written(rt: HostRuntime) {
    let alloc = rt.alloc();
    let offer = Offer {
        address: Bytes::of(alloc, b"a").expect(&rt, "memory"),
        bytes: Bytes::of(alloc, b"x\nz").expect(&rt, "memory"),
    };
    let copied = offer.copy(alloc).expect(&rt, "memory");
    assert!(rt; copied == offer);
    drop(offer);
    let mut sink = ListSink::new(alloc, Many::new(alloc));
    assert!(rt; write(&mut sink, &copied).is_ok());
    assert!(rt; sink.bytes() == b"pile 1\na 3\nx\nz\n".as_slice());
    drop(copied);
    drop(sink);
}
