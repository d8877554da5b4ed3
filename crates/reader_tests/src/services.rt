//! Service documents, and their collections.

use service_reader::{Collection, MAX_SERVICE, read_service};
use std::alloc::Global;
use std::process::Abort;

/// The address of each document.
static ADDRESS: &[u8] = b"http://feed.example/b/service";

/// Each row has a document, and its collections as [`shown`] shows them.
static SERVICES: [(&str, &str); 14] = [
    (
        "<?xml version=\"1.0\" encoding=\"utf-8\"?>\n<service xmlns=\"http://www.w3.org/2007/app\" \
xmlns:atom=\"http://www.w3.org/2005/Atom\"><workspace><atom:title>Feed</atom:title>\
<collection href=\"http://feed.example/feed\"><atom:title>Feed</atom:title>\
<accept>application/atom+xml;type=entry</accept></collection></workspace></service>",
        "entries http://feed.example/feed\n",
    ),
    // Two workspaces, and references that aren't whole addresses.
    (
        "<service xmlns=\"http://www.w3.org/2007/app\"><workspace><collection href=\"a/c\"/>\
<collection href=\"../d?e=1&amp;f\"/></workspace><workspace/><workspace><collection href=\"/g\"/>\
<collection href=\"//other.example/h\"/><collection href=\"HTTPS://Other.example:443/%7e#i\"/>\
<collection href=\"\"/></workspace></service>",
        "entries http://feed.example/b/a/c\nentries http://feed.example/d?e=1&f\n\
entries http://feed.example/g\nentries http://other.example/h\nentries https://other.example/%7e#i\n\
entries http://feed.example/b/service\n",
    ),
    // A collection without `accept` takes entries, and one with an empty `accept` takes nothing.
    (
        "<service xmlns=\"http://www.w3.org/2007/app\"><workspace><collection href=\"a\"/>\
<collection href=\"b\"><accept>application/atom+xml;type=entry</accept></collection>\
<collection href=\"c\"><accept>application/atom+xml</accept></collection>\
<collection href=\"d\"><accept>image/png</accept></collection>\
<collection href=\"e\"><accept/></collection>\
<collection href=\"f\"><accept> </accept></collection></workspace></service>",
        "entries http://feed.example/b/a\nentries http://feed.example/b/b\nentries http://feed.example/b/c\n\
media http://feed.example/b/d\nmedia http://feed.example/b/e\nmedia http://feed.example/b/f\n",
    ),
    // One `accept` with the type of entries is enough, wherever it is.
    (
        "<service xmlns=\"http://www.w3.org/2007/app\"><workspace>\
<collection href=\"a\"><accept>image/png</accept><accept>application/atom+xml;type=entry</accept></collection>\
<collection href=\"b\"><accept>application/atom+xml</accept><accept>image/png</accept><accept/></collection>\
<collection href=\"c\"><accept>image/png</accept><accept>image/jpeg</accept></collection>\
</workspace></service>",
        "entries http://feed.example/b/a\nentries http://feed.example/b/b\nmedia http://feed.example/b/c\n",
    ),
    // White space is cut at both ends, and not between the parts of a type.
    (
        "<service xmlns=\"http://www.w3.org/2007/app\"><workspace>\
<collection href=\"a\"><accept>\r\n\tapplication/atom+xml;type=entry&#32;</accept></collection>\
<collection href=\"b\"><accept> application/atom+xml </accept></collection>\
<collection href=\"c\"><accept>application/atom+xml; type=entry</accept></collection>\
<collection href=\"d\"><accept>application/atom+xml application/atom+xml</accept></collection>\
</workspace></service>",
        "entries http://feed.example/b/a\nentries http://feed.example/b/b\nmedia http://feed.example/b/c\n\
media http://feed.example/b/d\n",
    ),
    // Other types.
    (
        "<service xmlns=\"http://www.w3.org/2007/app\"><workspace>\
<collection href=\"a\"><accept>application/atom+xml;type=feed</accept></collection>\
<collection href=\"b\"><accept>Application/Atom+xml</accept></collection>\
<collection href=\"c\"><accept>application/atom+xml;type=\"entry\"</accept></collection>\
<collection href=\"d\"><accept>*/*</accept></collection></workspace></service>",
        "media http://feed.example/b/a\nmedia http://feed.example/b/b\nmedia http://feed.example/b/c\n\
media http://feed.example/b/d\n",
    ),
    // Prefixes. An `accept` of another namespace says nothing.
    (
        "<a:service xmlns:a='http://www.w3.org/2007/app'><a:workspace><a:collection href='a'>\
<accept>image/png</accept></a:collection><a:collection a:href='no' href='b'><a:accept>image/png</a:accept>\
</a:collection><p:collection xmlns:p='http://www.w3.org/2007/app' href='c'/><collection/>\
</a:workspace></a:service>",
        "entries http://feed.example/b/a\nmedia http://feed.example/b/b\nentries http://feed.example/b/c\n",
    ),
    // Comments, instructions, CDATA sections and references in an `accept`.
    (
        "<!-- a --><service xmlns=\"http://www.w3.org/2007/app\"><!-- <workspace> --><?p q?><workspace>\
<collection href=\"a\"><accept><![CDATA[application/]]><!-- c -->&#97;tom<?p q?>+xml</accept></collection>\
<collection href=\"b\"><accept><![CDATA[ application/atom+xml;type=entry ]]></accept></collection>\
<collection href=\"c\"><accept><!-- application/atom+xml --></accept></collection>\
<!-- <collection/> --><![CDATA[<collection/>]]></workspace></service><!-- d -->",
        "entries http://feed.example/b/a\nentries http://feed.example/b/b\nmedia http://feed.example/b/c\n",
    ),
    // All characters of an `accept` count, those of inner elements too.
    (
        "<service xmlns=\"http://www.w3.org/2007/app\"><workspace><collection href=\"a\"><accept>application/\
<x>atom<y>+</y></x>xml</accept></collection><collection href=\"b\"><accept>application/atom+xml<x>;</x></accept>\
</collection></workspace></service>",
        "entries http://feed.example/b/a\nmedia http://feed.example/b/b\n",
    ),
    // Collections outside a workspace, and elements deeper in one, are skipped.
    (
        "<service xmlns=\"http://www.w3.org/2007/app\"><collection href=\"no\"/><collection/><x><workspace>\
<collection href=\"no\"/></workspace></x><workspace><workspace><collection href=\"no\"/></workspace>\
<x><collection/></x><collection href=\"a\"><collection href=\"no\"/><x><accept>no</accept></x>\
<categories><accept/></categories></collection></workspace><service><workspace><collection href=\"no\"/>\
</workspace></service></service>",
        "entries http://feed.example/b/a\n",
    ),
    // Names of other namespaces, and names in another case.
    (
        "<service xmlns=\"http://www.w3.org/2007/app\"><workspace xmlns=\"\"><collection xmlns=\"\
http://www.w3.org/2007/app\" href=\"no\"/></workspace><Workspace><collection href=\"no\"/></Workspace>\
<workspace><collection xmlns=\"http://www.w3.org/2005/Atom\"/><Collection/><collection href=\"a\"/></workspace>\
</service>",
        "entries http://feed.example/b/a\n",
    ),
    ("<service xmlns='http://www.w3.org/2007/app'/>", ""),
    (
        "\u{FEFF}<service xmlns='http://www.w3.org/2007/app' ><workspace ></workspace ></service >\n",
        "",
    ),
    // An address with other characters.
    (
        "<service xmlns='http://www.w3.org/2007/app'><workspace><collection href='\u{E9}\n&#x20AC;'/>\
<collection href='mailto:a@b.example'/></workspace></service>",
        "entries http://feed.example/b/%C3%A9%20%E2%82%AC\nentries mailto:a@b.example\n",
    ),
];

/// The collections as text, with a line for each.
fn shown(rt: &impl Abort, alloc: Global, collections: &[Collection]) -> Vec<u8> {
    let mut out = Vec::new(alloc);
    for collection in collections {
        let kind: &[u8] = if collection.entries {
            b"entries "
        } else {
            b"media "
        };
        for piece in [kind, collection.href.slice(), b"\n"] {
            out.extend_from_slice(piece).expect(rt, "memory");
        }
    }
    out
}

/// Compares the collections of a document with `want`.
fn compare(rt: &impl Abort, alloc: Global, document: &str, want: &str) {
    assert!(rt; document.len() <= MAX_SERVICE);
    match read_service(alloc, document.as_bytes(), ADDRESS) {
        Ok(read) => {
            let found = shown(rt, alloc, read.as_slice());
            let same = found.as_slice() == want.as_bytes();
            drop(read);
            assert!(rt; same, "{document}: {found:?}");
        }
        Err(fault) => panic!(rt; "{fault}: {document}"),
    }
}

#[test]
fn reads_services(rt: HostRuntime) {
    for (document, want) in &SERVICES {
        compare(&rt, rt.alloc(), document, want);
    }
}
