//! Runs of the program with objects in memory.
//!
//! `whole_end` alone owns the words, the clock, the input and the output of a run. All functions but `fresh` borrow the
//! disk.

ghost use Rattle.std.specs.Prelude.{◌≤◌, length};
ghost use Rattle.doc_source.specs.Pile.{offer_limit};

use crate::text::expanded;
use crate::words::spelled;
use atom_values::{Bytes, MAX_FAILING, Many};
use doc_source::{Fetch, ListSink, ListSource, Offer, PileFetch};
use document_server::{Door, ScriptDoor, SetClock};
use feed_commands::{Ended, run};
use feed_disk::{Disk, MemoryDisk};
use http_face::ScriptConn;
use std::alloc::Global;
use std::process::Abort;

/// The clock of a run, and the calls of its objects that fail, one of each. They are numbered from 1; 0 means none.
#[derive(Clone, Copy)]
pub struct Setting {
    /// The first moment of the clock, and all later ones.
    pub moments: (u64, u64),
    pub input: u64,
    pub output: u64,
    /// The call of each client's connection.
    pub client: u64,
    pub door: u64,
    pub source: u64,
}

/// A clock that stands still at 2023-11-14T22:13:20Z, and no failing call.
pub const SETTING: Setting = Setting {
    moments: (1_700_000_000_000, 1_700_000_000_000),
    input: 0,
    output: 0,
    client: 0,
    door: 0,
    source: 0,
};

/// How a run ends: the exit status, and all that is printed.
#[derive(Drop)]
pub struct Printed {
    pub status: u8,
    pub text: Vec<u8>,
}

impl Printed {
    /// Whether a run ends with this status, and prints exactly these bytes.
    pub fn is(&self, status: u8, text: &[u8]) -> bool {
        self.status == status && self.text.as_slice() == text
    }
}

/// A list of one failing call, or of none if `call` is 0.
fn listed(rt: &impl Abort, alloc: Global, call: u64) -> Many<u64, MAX_FAILING> {
    let mut calls = Many::new(alloc);
    if call != 0 {
        calls.push(call).expect(rt, "memory");
    }
    calls
}

fn clock_of(rt: &impl Abort, alloc: Global, moments: (u64, u64)) -> SetClock {
    let mut list = Many::new(alloc);
    list.push(moments.0).expect(rt, "memory");
    list.push(moments.1).expect(rt, "memory");
    SetClock::new(list)
}

fn bytes_of(rt: &impl Abort, alloc: Global, bytes: &[u8]) -> Bytes {
    Bytes::of(alloc, bytes).expect(rt, "memory")
}

/// An empty disk, one of whose calls fails. They are numbered from 1; 0 means none.
pub fn fresh(rt: &impl Abort, alloc: Global, failing: u64) -> MemoryDisk {
    MemoryDisk::new(
        alloc,
        bytes_of(rt, alloc, b""),
        bytes_of(rt, alloc, b""),
        bytes_of(rt, alloc, b""),
        listed(rt, alloc, failing),
    )
}

/// A door at which the clients of a step come in.
pub fn door_of(rt: &impl Abort, alloc: Global, step: &str, setting: &Setting) -> ScriptDoor {
    let mut links = Many::new(alloc);
    for line in step.split('\n') {
        if let Some(client) = line.strip_prefix("@ ") {
            let bytes = Bytes::from_vec(expanded(rt, alloc, client));
            let link = ScriptConn::new(alloc, bytes, listed(rt, alloc, setting.client));
            links.push(link).expect(rt, "memory");
        }
    }
    ScriptDoor::new(alloc, links, listed(rt, alloc, setting.door)).expect(rt, "memory")
}

/// The offer of a text at an address.
pub fn offer_of(rt: &impl Abort, alloc: Global, address: &str, text: Vec<u8>) -> Offer
    ensures { length result.bytes ≤ offer_limit }
{
    assert!(rt; text.len() <= 67_108_864);
    Offer {
        address: bytes_of(rt, alloc, address.as_bytes()),
        bytes: Bytes::from_vec(text),
    }
}

/// A source of the documents of a step.
pub fn source_of(rt: &impl Abort, alloc: Global, step: &str, setting: &Setting) -> PileFetch {
    let mut offers = Many::new(alloc);
    for line in step.split('\n') {
        if let Some(document) = line.strip_prefix("+ ") {
            let (address, part) = document.split_once(' ').expect(rt, "a document");
            let text = expanded(rt, alloc, part);
            let offer = offer_of(rt, alloc, address, text);
            offers.push(offer).expect(rt, "memory");
        }
    }
    PileFetch::new(alloc, offers, listed(rt, alloc, setting.source))
}

/// Runs the program at a door, with a source of documents. Returns what `run` returns, and all that is printed.
pub fn whole_end<D: Disk, L: Door, F: Fetch>(
    rt: &impl Abort,
    alloc: Global,
    disk: &mut D,
    door: &mut L,
    fetch: &mut F,
    (words, bytes): (&str, &[u8]),
    setting: &Setting,
) -> (Ended, Vec<u8>) {
    let words = spelled(rt, alloc, words);
    let mut clock = clock_of(rt, alloc, setting.moments);
    let bytes = bytes_of(rt, alloc, bytes);
    let mut input = ListSource::new(bytes, listed(rt, alloc, setting.input));
    let mut output = ListSink::new(alloc, listed(rt, alloc, setting.output));
    let ended = run(
        alloc,
        words.as_slice(),
        disk,
        &mut clock,
        door,
        fetch,
        &mut input,
        &mut output,
    );
    let printed = Vec::from_slice(alloc, output.bytes()).expect(rt, "memory");
    drop((words, clock, input, output));
    (ended, printed)
}

/// Runs a command of an input at a door at which nobody comes in, with a source of documents.
pub fn fetched<D: Disk, F: Fetch>(
    rt: &impl Abort,
    alloc: Global,
    disk: &mut D,
    fetch: &mut F,
    command: (&str, &[u8]),
) -> Printed {
    let mut door = door_of(rt, alloc, "", &SETTING);
    let (ended, text) = whole_end(rt, alloc, disk, &mut door, fetch, command, &SETTING);
    let status = ended.status;
    drop((ended, door));
    Printed { status, text }
}

/// Runs a command of an input at a door at which nobody comes in, with a source without documents.
pub fn ran<D: Disk>(
    rt: &impl Abort,
    alloc: Global,
    disk: &mut D,
    words: &str,
    input: &[u8],
) -> Printed {
    let mut fetch = source_of(rt, alloc, "", &SETTING);
    let printed = fetched(rt, alloc, disk, &mut fetch, (words, input));
    drop(fetch);
    printed
}
