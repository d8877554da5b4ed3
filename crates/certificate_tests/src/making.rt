//! The certificate of a mirror.

ghost use Rattle.std.specs.Prelude.{◌≡◌, false};
ghost use Rattle.mirror_walk.specs.Mirror.{StandsFor, is_spent};

use crate::texts::{EMPTY, EMPTY_DOCUMENT, FEED, prints};
use atom_grammar::MAX_DOCUMENT;
use atom_values::{Bytes, Many};
use chain_links::Base;
use coverage_certificate::Certificate;
use feed_disk::{Disk, MemoryDisk};
use mirror_walk::{Accepted, Mirror, Outcome};
use std::alloc::Global;
use std::process::Abort;

/// A disk with empty areas.
fn empty_disk(rt: &impl Abort, alloc: Global) -> MemoryDisk {
    MemoryDisk::new(
        alloc,
        Bytes::of(alloc, b"").expect(rt, "memory"),
        Bytes::of(alloc, b"").expect(rt, "memory"),
        Bytes::of(alloc, b"").expect(rt, "memory"),
        Many::new(alloc),
    )
}

/// The mirror of a disk after it took the document of a feed without operations.
fn mirror_of<D: Disk>(rt: &impl Abort, alloc: Global, disk: &mut D) -> Mirror
    ensures unspent { is_spent result ≡ false }
    ensures stands { D.observable → StandsFor (D.state disk.new) result }
{
    let base = Base::parse(alloc, b"http://feed.example/").expect(rt, "a base");
    let mut mirror = Mirror::load(alloc, disk, base, 1_000_000).expect(rt, "a mirror");
    let bytes = EMPTY_DOCUMENT.as_bytes();
    assert!(rt; bytes.len() <= MAX_DOCUMENT);
    let accepted = mirror
        .offer(disk, FEED.as_bytes(), bytes)
        .expect(rt, "an answer");
    assert!(rt; accepted == Accepted::Taken);
    mirror
}

/// The certificate of what the mirror of a disk holds.
fn certificate_of<D: Disk>(rt: &impl Abort, alloc: Global, disk: &mut D) -> Certificate {
    let mut mirror = mirror_of(rt, alloc, disk);
    let outcome = mirror.outcome().expect(rt, "memory");
    assert!(rt;
        outcome
            == Outcome::Complete {
                version: 0,
                live: 0
            }
    );
    assert!(rt; mirror.best().is_some());
    let certificate = Certificate::of(alloc, &mut mirror, disk).expect(rt, "a certificate");
    drop(mirror);
    certificate
}

#[test]
fn a_mirror_makes_its_certificate(rt: HostRuntime) {
    let mut disk = empty_disk(&rt, rt.alloc());
    let certificate = certificate_of(&rt, rt.alloc(), &mut disk);
    assert!(rt; prints(&rt, rt.alloc(), &certificate, EMPTY));
    drop(certificate);
    drop(disk);
}
