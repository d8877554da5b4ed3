//! Certificates and documents, for the other modules. `sha256sum` computed the digests.

use atom_values::Many;
use coverage_certificate::{Certificate, CertificateFault, MAX_CERTIFICATE};
use doc_source::ListSink;
use std::alloc::Global;
use std::process::Abort;

/// The address of a subscription document.
pub const FEED: &str = "http://feed.example/feed";

/// The document of a feed without operations.
pub const EMPTY_DOCUMENT: &str = r#"<?xml version="1.0" encoding="utf-8"?>
<feed xmlns="http://www.w3.org/2005/Atom" xmlns:fh="http://purl.org/syndication/history/1.0" xmlns:at="http://purl.org/atompub/tombstones/1.0" xmlns:app="http://www.w3.org/2007/app" xmlns:sp="urn:archived-feed:span:1">
<id>urn:uuid:6d1f0c5a-93be-4c27-8d10-2b7f9e4a5c36</id>
<title>Feed</title>
<updated>1970-01-01T00:00:00Z</updated>
<author><name>Editor</name></author>
<link rel="self" href="http://feed.example/feed"/>
<sp:span first="1" last="0"/>
</feed>
"#;

/// The certificate of a feed without operations.
pub const EMPTY: &str = "\
coverage 1\n\
feed 6d1f0c5a-93be-4c27-8d10-2b7f9e4a5c36 http://feed.example/\n\
version 0\n\
document http://feed.example/feed 15274cd480d4f5912b72a9e367cfa0787b65186678523d0760146c2140c99d58\n\
live 0 e3b0c44298fc1c149afbf4c8996fb92427ae41e4649b934ca495991b7852b855\n\
end\n\
";

/// The certificate of a feed of three operations, each in a document of its own. `feed_tool` printed the
/// documents, and the member documents of the live entries.
pub const THREE: &str = "\
coverage 1\n\
feed 6d1f0c5a-93be-4c27-8d10-2b7f9e4a5c36 http://feed.example/\n\
version 3\n\
document http://feed.example/feed 6627bbe313c43794c335bcba46a3365cebfe28a91bdde22d824c65a223680ac7\n\
document http://feed.example/archive/2 cb2352b163a23171140590fbf71e5c229b3dc1ab644b598b75de857c2ed8c82e\n\
document http://feed.example/archive/1 1283c13f07594da0184fbb40c975a7e0711c5af269e2e475aadaaaf7b74e53f3\n\
live 3 97e340a34e473a06d3e588433364a3860f42e1cd81f6077a8ce22051c2704d5c\n\
end\n\
";

/// Reads a text of at most `MAX_CERTIFICATE` bytes as a certificate.
pub fn read(rt: &impl Abort, alloc: Global, text: &str) -> Result<Certificate, CertificateFault> {
    assert!(rt; text.len() <= MAX_CERTIFICATE);
    Certificate::read(alloc, text.as_bytes())
}

/// Whether the certificate is printed as this text.
pub fn prints(rt: &impl Abort, alloc: Global, certificate: &Certificate, text: &str) -> bool {
    let mut sink = ListSink::new(alloc, Many::new(alloc));
    certificate
        .print(&mut sink)
        .expect(rt, "a call of the sink");
    let same = sink.bytes() == text.as_bytes();
    drop(sink);
    same
}
