//! The calls of a mirror, each with its answer as text.
//!
//! After a failed device call a mirror is spent, and only a mirror that isn't stands for its disk.

ghost use Rattle.std.specs.Prelude.{◌≡◌, false};
ghost use Rattle.mirror_walk.specs.Mirror.{StandsFor, is_spent};

use atom_grammar::MAX_DOCUMENT;
use atom_values::Entry;
use atom_writer::{FeedName, write_member};
use chain_links::Address;
use doc_source::Fetch;
use feed_disk::Disk;
use mirror_walk::{Accepted, Mirror, MirrorFault, Offered, Outcome, WalkFault, Walked};
use std::alloc::Global;
use std::process::Abort;

/// The first four bytes of a digest.
fn front(digest: &[u8; 32]) -> u32 {
    u32::from_be_bytes([digest[0], digest[1], digest[2], digest[3]])
}

/// The refusal's name and its fields: the first four bytes of a digest, and the first byte of an identifier.
fn refusal_text(rt: &impl Abort, alloc: Global, refusal: &Offered) -> String {
    let text = match refusal {
        Offered::NotADocument { at } => format!(in alloc; "NotADocument {at}"),
        Offered::WrongAddress { says } => {
            let says = str::from_utf8(says.slice()).expect(rt, "an address");
            format!(in alloc; "WrongAddress {says}")
        }
        Offered::WrongFeed { kept, given } => {
            let (kept, given) = (kept.bytes()[0], given.bytes()[0]);
            format!(in alloc; "WrongFeed {kept:02x} {given:02x}")
        }
        Offered::Conflict {
            address,
            kept,
            given,
        } => {
            let (kept, given) = (front(kept), front(given));
            format!(in alloc; "Conflict {address:?} {kept:08x} {given:08x}")
        }
        Offered::Break {
            older_last,
            newer_first,
        } => format!(in alloc; "Break {older_last} {newer_first}"),
        Offered::Full {
            size,
            needed,
            capacity,
        } => format!(in alloc; "Full {size} {needed} {capacity}"),
        Offered::DiskFault => format!(in alloc; "DiskFault"),
        Offered::NoMemory => format!(in alloc; "NoMemory"),
    };
    text.expect(rt, "memory")
}

/// The name of the answer to an offer, and its fields.
pub fn answer_text(rt: &impl Abort, alloc: Global, answer: &Result<Accepted, Offered>) -> String {
    match answer {
        Ok(accepted) => format!(in alloc; "{accepted:?}").expect(rt, "memory"),
        Err(refusal) => refusal_text(rt, alloc, refusal),
    }
}

/// The fault of a load.
pub fn fault_text(rt: &impl Abort, alloc: Global, fault: &MirrorFault) -> String {
    let text = match fault {
        MirrorFault::OtherBase { kept } => {
            let kept = str::from_utf8(kept.text()).expect(rt, "a base");
            format!(in alloc; "load: OtherBase {kept}")
        }
        _ => format!(in alloc; "load: {fault}"),
    };
    text.expect(rt, "memory")
}

/// The answer to an offer.
pub fn offer<D: Disk>(
    rt: &impl Abort,
    alloc: Global,
    mirror: &mut Mirror,
    disk: &mut D,
    address: &str,
    bytes: &[u8],
) -> String
    requires unspent { is_spent mirror.old ≡ false }
    requires stands { D.observable → StandsFor (D.state disk.old) mirror.old }
    ensures { is_spent mirror.new ≡ false → D.observable → StandsFor (D.state disk.new) mirror.new }
{
    assert!(rt; bytes.len() <= MAX_DOCUMENT);
    let answer = mirror.offer(disk, address.as_bytes(), bytes);
    let text = answer_text(rt, alloc, &answer);
    drop(answer);
    text
}

/// The outcome's name and its fields: the version and the number of live entries, or the first missing
/// document.
pub fn outcome_text(rt: &impl Abort, alloc: Global, outcome: Outcome) -> String {
    let text = match outcome {
        Outcome::Complete { version, live } => format!(in alloc; "Complete {version} {live}"),
        Outcome::Missing { address } => format!(in alloc; "Missing {address:?}"),
    };
    text.expect(rt, "memory")
}

/// The outcome as text.
pub fn outcome(rt: &impl Abort, alloc: Global, mirror: &mut Mirror) -> String
    requires { is_spent mirror.old ≡ false }
    ensures { mirror.new ≡ record mirror.old { listed = mirror.new.listed } }
{
    let outcome = mirror.outcome().expect(rt, "memory");
    outcome_text(rt, alloc, outcome)
}

/// Appends the title of an entry, or the entry's document in a feed of this name.
pub fn append_entry(
    rt: &impl Abort,
    alloc: Global,
    text: &mut String,
    entry: &Entry,
    name: Option<&FeedName>,
) {
    match name {
        Some(name) => {
            let bytes = write_member(alloc, name, entry).expect(rt, "memory");
            let document = str::from_utf8(&bytes).expect(rt, "text");
            text.push_str(document).expect(rt, "memory");
        }
        None => {
            let title = str::from_utf8(entry.title.value.bytes()).expect(rt, "a title");
            text.push_str(title).expect(rt, "memory");
        }
    }
}

/// The titles of the live entries in order of number, or their documents in a feed of this name. Nothing if a
/// document is missing. Ends with the fault of a read that fails.
pub fn entries<D: Disk>(
    rt: &impl Abort,
    alloc: Global,
    mirror: &mut Mirror,
    disk: &mut D,
    name: Option<&FeedName>,
) -> String
    requires unspent { is_spent mirror.old ≡ false }
    requires stands { D.observable → StandsFor (D.state disk.old) mirror.old }
    ensures { is_spent mirror.new ≡ false → D.observable → StandsFor (D.state disk.new) mirror.new }
{
    let mut text = String::new(alloc);
    let outcome = mirror.outcome().expect(rt, "memory");
    if let Outcome::Complete { live, .. } = outcome {
        let mut after = 0;
        // One more than there are.
        for _ in 0..=live {
            let Some(number) = mirror.next_live(after) else {
                return text;
            };
            match mirror.entry(disk, number) {
                Ok(entry) => {
                    append_entry(rt, alloc, &mut text, &entry, name);
                    drop(entry);
                }
                Err(fault) => {
                    return format!(in alloc; "{text}|{fault}").expect(rt, "memory");
                }
            }
            after = number;
        }
    }
    text
}

/// The documents whose digests are told.
static DIGESTED: [Address; 4] = [
    Address::Feed,
    Address::Archive(1),
    Address::Archive(2),
    Address::Member(1),
];

/// The first missing document; the first and the last operation and the `prev` of the best subscription
/// document; the feed's title; and the first bytes of digests.
pub fn told(rt: &impl Abort, alloc: Global, mirror: &Mirror) -> String
    requires { is_spent mirror.now ≡ false }
{
    let wanted = mirror.wanted();
    let best = match mirror.best() {
        Some(place) => Some((place.span.first, place.span.last, place.prev)),
        None => None,
    };
    let title = match mirror.name() {
        Some(name) => str::from_utf8(name.title.bytes()).expect(rt, "text"),
        None => "-",
    };
    let mut text = format!(in alloc; "{wanted:?} {best:?} {title}").expect(rt, "memory");
    for address in &DIGESTED {
        let digest = match mirror.digest(*address) {
            Some(digest) => format!(in alloc; " {:08x}", front(&digest)),
            None => format!(in alloc; " -"),
        };
        text.push_str(digest.expect(rt, "memory").as_str())
            .expect(rt, "memory");
    }
    text
}

/// A walk's counts, its refusal and its outcome, or its fault.
fn walked_text(rt: &impl Abort, alloc: Global, walk: &Result<Walked, WalkFault>) -> String {
    let walked = match walk {
        Ok(walked) => walked,
        Err(fault) => return format!(in alloc; "{fault}").expect(rt, "memory"),
    };
    let (asked, taken) = (walked.asked, walked.taken);
    let (known, stale) = (walked.known, walked.stale);
    let outcome = outcome_text(rt, alloc, walked.outcome);
    let text = match &walked.refused {
        Some(refusal) => {
            let (address, why) = (refusal.address, refusal_text(rt, alloc, &refusal.why));
            format!(in alloc; "{asked} {taken} {known} {stale} {address:?} {why} {outcome}")
        }
        None => format!(in alloc; "{asked} {taken} {known} {stale} {outcome}"),
    };
    text.expect(rt, "memory")
}

/// The walk over a source.
pub fn walk<D: Disk, F: Fetch>(
    rt: &impl Abort,
    alloc: Global,
    mirror: &mut Mirror,
    disk: &mut D,
    fetch: &mut F,
) -> String
    requires unspent { is_spent mirror.old ≡ false }
    requires stands { D.observable → StandsFor (D.state disk.old) mirror.old }
    ensures { is_spent mirror.new ≡ false → D.observable → StandsFor (D.state disk.new) mirror.new }
{
    let walked = mirror.walk(disk, fetch);
    let text = walked_text(rt, alloc, &walked);
    drop(walked);
    text
}
