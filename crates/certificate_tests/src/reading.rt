//! Certificates that are read and printed.

use crate::texts::{EMPTY, THREE, prints, read};
use atom_values::Copies;
use std::alloc::Global;
use std::process::Abort;

/// A certificate with the greatest numbers.
const GREATEST: &str = "\
coverage 1\n\
feed 6d1f0c5a-93be-4c27-8d10-2b7f9e4a5c36 http://feed.example:8443/a/\n\
version 4294967295\n\
document http://feed.example:8443/a/feed e3b0c44298fc1c149afbf4c8996fb92427ae41e4649b934ca495991b7852b855\n\
document http://feed.example:8443/a/archive/4294967295 2d711642b726b04401627ca9fbac32f5c8530fb1903cc4db02258717921a4881\n\
live 4294967295 2d711642b726b04401627ca9fbac32f5c8530fb1903cc4db02258717921a4881\n\
end\n\
";

/// Reads a text, and compares what the certificate and its copy print.
fn expect(rt: &impl Abort, alloc: Global, text: &str) {
    let certificate = read(rt, alloc, text).expect(rt, "a certificate");
    let copied = certificate.copy(alloc).expect(rt, "memory");
    assert!(rt; prints(rt, alloc, &certificate, text));
    assert!(rt; prints(rt, alloc, &copied, text));
    drop((certificate, copied));
}

#[test]
fn certificates_are_read_and_printed(rt: HostRuntime) {
    for text in [EMPTY, THREE, GREATEST] {
        expect(&rt, rt.alloc(), text);
    }
}
