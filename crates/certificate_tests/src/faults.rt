//! Texts that are no certificate's.

use crate::texts::read;
use coverage_certificate::CertificateFault;
use std::alloc::Global;
use std::process::Abort;

/// The lines of a certificate.
static LINES: [&str; 6] = [
    "coverage 1\n",
    "feed 6d1f0c5a-93be-4c27-8d10-2b7f9e4a5c36 http://feed.example/\n",
    "version 0\n",
    "document http://feed.example/feed 15274cd480d4f5912b72a9e367cfa0787b65186678523d0760146c2140c99d58\n",
    "live 0 e3b0c44298fc1c149afbf4c8996fb92427ae41e4649b934ca495991b7852b855\n",
    "end\n",
];

/// How many lines of the certificate are kept, what follows them, and the number of the line that is refused.
static BAD: [(usize, &str, u32); 12] = [
    (0, "", 1),
    (0, "coverage 2\n", 1),
    (
        1,
        "feed 6d1f0c5a-93be-4c27-8d10-2b7f9e4a5c3 http://feed.example/\n",
        2,
    ),
    (
        1,
        "feed 6d1f0c5a-93be-4c27-8d10-2b7f9e4a5c36 feed.example\n",
        2,
    ),
    (2, "version 01\n", 3),
    (
        3,
        "document http://feed.example/archive/1 15274cd480d4f5912b72a9e367cfa0787b65186678523d0760146c2140c99d58\n",
        4,
    ),
    (
        3,
        "document http://feed.example/feed 15274CD480D4F5912B72A9E367CFA0787B65186678523D0760146C2140C99D58\n",
        4,
    ),
    (
        3,
        "document http://feed.example/feed 15274cd480d4f5912b72a9e367cfa0787b65186678523d0760146c2140c99d5\n",
        4,
    ),
    (
        4,
        "document http://feed.example/feed 15274cd480d4f5912b72a9e367cfa0787b65186678523d0760146c2140c99d58\n",
        5,
    ),
    (5, "", 6),
    (5, "end", 6),
    (6, "x", 7),
];

/// The first lines of the certificate, and other bytes.
fn text_of(rt: &impl Abort, alloc: Global, kept: usize, others: &str) -> String {
    let mut text = String::new(alloc);
    for line in LINES.iter().take(kept) {
        text.push_str(line).expect(rt, "memory");
    }
    text.push_str(others).expect(rt, "memory");
    text
}

/// Reads a text, and compares the fault.
fn expect(rt: &impl Abort, alloc: Global, text: &str, line: u32) {
    let fault = read(rt, alloc, text).err();
    let wanted = Some(CertificateFault::BadCertificate { line });
    assert!(rt; fault == wanted, "{fault:?}: {text}");
}

#[test]
fn bad_lines_are_named(rt: HostRuntime) {
    for &(kept, others, line) in &BAD {
        let text = text_of(&rt, rt.alloc(), kept, others);
        expect(&rt, rt.alloc(), text.as_str(), line);
    }
}

/// The certificate of a feed without operations that was made at 2023-11-14T22:13:20Z.
const CERTIFICATE: &str = "\
coverage 1\n\
feed 6d1f0c5a-93be-4c27-8d10-2b7f9e4a5c36 http://feed.example/\n\
version 0\n\
document http://feed.example/feed 27b4e081164403fce1e7c6bf0c163f04e8b32fd268534b0f58ac65bc1e41f4ed\n\
live 0 e3b0c44298fc1c149afbf4c8996fb92427ae41e4649b934ca495991b7852b855\n\
end\n\
";

#[test]
fn a_certificate_that_is_cut_is_refused_at_its_last_line(rt: HostRuntime) {
    for length in 0..CERTIFICATE.len() {
        let (text, _) = CERTIFICATE.split_at_checked(length).expect(&rt, "a length");
        let line = u32::try_from(text.split('\n').count()).expect(&rt, "a few lines");
        expect(&rt, rt.alloc(), text, line);
    }
}

#[test]
fn a_fault_has_its_sentence(rt: HostRuntime) {
    for (fault, wanted) in [
        (
            CertificateFault::BadCertificate { line: 7 },
            "not a certificate: bad line 7",
        ),
        (CertificateFault::NoMemory, "out of memory"),
    ] {
        let text = format!(in rt.alloc(); "{fault}").expect(&rt, "memory");
        assert_eq!(rt; text.as_str(), wanted);
    }
}
