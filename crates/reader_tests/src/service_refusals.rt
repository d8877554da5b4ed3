//! Bytes that aren't read as a service document, with the offset and the reason.

use service_reader::{MAX_SERVICE, ServiceRead, ServiceWhy, read_service};
use std::alloc::Global;
use std::process::Abort;
use xml_tokens::TokenWhy;

static ADDRESS: &[u8] = b"http://a.example/service";

/// The beginning of a workspace.
static OPENING: &[u8] =
    b"<service xmlns=\"http://www.w3.org/2007/app\" xmlns:a=\"http://www.w3.org/2007/app\"><workspace>";

/// The refusal of the bytes in the document of an address. `None` if they are read.
fn refusal(rt: &impl Abort, alloc: Global, bytes: &[u8], address: &[u8]) -> Option<ServiceRead> {
    assert!(rt; bytes.len() <= MAX_SERVICE);
    read_service(alloc, bytes, address).err()
}

/// Appends copies of a text.
fn push(rt: &impl Abort, out: &mut Vec<u8>, text: &[u8], copies: usize) {
    for _ in 0..copies {
        out.extend_from_slice(text).expect(rt, "memory");
    }
}

/// Documents by their parts before the place of the refusal and from it on.
static DOCUMENTS: [(&[u8], &[u8], ServiceWhy); 19] = [
    (b"", b"<service/>", ServiceWhy::NotAService),
    (
        b"",
        b"<service xmlns=\"http://www.w3.org/2005/Atom\"/>",
        ServiceWhy::NotAService,
    ),
    (
        b"",
        b"<Service xmlns=\"http://www.w3.org/2007/app\"/>",
        ServiceWhy::NotAService,
    ),
    (
        b"",
        b"<workspace xmlns=\"http://www.w3.org/2007/app\"><collection/></workspace>",
        ServiceWhy::NotAService,
    ),
    (
        b"\xEF\xBB\xBF<?xml version=\"1.0\"?>\n<!-- c -->",
        b"<x><service xmlns=\"http://www.w3.org/2007/app\"/></x>",
        ServiceWhy::NotAService,
    ),
    // A root that isn't a service is refused before any collection in it.
    (
        b" ",
        b"<categories xmlns=\"http://www.w3.org/2007/app\"><workspace><collection/></workspace></categories>",
        ServiceWhy::NotAService,
    ),
    // A token that isn't allowed comes before all that elements are refused for.
    (b"", b"", ServiceWhy::Token(TokenWhy::NotWellFormed)),
    (b"<service", b"", ServiceWhy::Token(TokenWhy::NotWellFormed)),
    (
        b"<x>",
        b"</y></x>",
        ServiceWhy::Token(TokenWhy::NotWellFormed),
    ),
    (
        b"<service xmlns=\"http://www.w3.org/2007/app\"><workspace><collection/>",
        b"</service>",
        ServiceWhy::Token(TokenWhy::NotWellFormed),
    ),
    (
        b"<service xmlns=\"http://www.w3.org/2007/app\"><workspace><collection/></workspace>",
        b"",
        ServiceWhy::Token(TokenWhy::NotWellFormed),
    ),
    (
        b"<service xmlns=\"http://www.w3.org/2007/app\"><workspace><collection/><collection><accept>",
        b"&x;</accept></collection></workspace></service>",
        ServiceWhy::Token(TokenWhy::NotWellFormed),
    ),
    (
        b"<service xmlns=\"http://www.w3.org/2007/app\"><workspace><collection><x>",
        b"<y:z/></x></collection></workspace></service>",
        ServiceWhy::Token(TokenWhy::NotWellFormed),
    ),
    (
        b"<service xmlns=\"http://www.w3.org/2007/app\"/>",
        b"<x/>",
        ServiceWhy::Token(TokenWhy::NotWellFormed),
    ),
    (
        b"",
        b"<!DOCTYPE service><service/>",
        ServiceWhy::Token(TokenWhy::Doctype),
    ),
    (
        b"<service xmlns=\"http://www.w3.org/2007/app\"><workspace>",
        b"<!DOCTYPE",
        ServiceWhy::Token(TokenWhy::Doctype),
    ),
    (
        b"<service>\xC3\xA9",
        b"\xE9</service>",
        ServiceWhy::Token(TokenWhy::NotUtf8),
    ),
    (
        b"<service><!DOCTYPE>",
        b"\xFF",
        ServiceWhy::Token(TokenWhy::NotUtf8),
    ),
    (
        b"",
        b"<?xml version='1.0' encoding='latin1'?><service/>",
        ServiceWhy::Token(TokenWhy::NotUtf8),
    ),
];

#[test]
fn refuses_documents(rt: HostRuntime) {
    for (before, behind, why) in &DOCUMENTS {
        let mut bytes = Vec::new(rt.alloc());
        push(&rt, &mut bytes, before, 1);
        let at = bytes.len();
        push(&rt, &mut bytes, behind, 1);
        let found = refusal(&rt, rt.alloc(), bytes.as_slice(), ADDRESS);
        assert!(rt;
            found == Some(ServiceRead::NotRead { at, why: *why }),
            "{found:?}: {at} {why:?}"
        );
    }
}

/// What a workspace holds: some copies of a part, and an ending, with whose first tag it is refused if it is.
struct Workspace {
    part: &'static [u8],
    copies: usize,
    ending: &'static [u8],
    refused: Option<ServiceWhy>,
}

static WORKSPACES: [Workspace; 22] = [
    Workspace {
        part: b"",
        copies: 0,
        ending: b"<collection/>",
        refused: Some(ServiceWhy::BadLink),
    },
    Workspace {
        part: b"<collection href='a'/>",
        copies: 1,
        ending: b"<collection HREF='a'>b</collection>",
        refused: Some(ServiceWhy::BadLink),
    },
    Workspace {
        part: b"",
        copies: 0,
        ending: b"<a:collection a:href='a'/>",
        refused: Some(ServiceWhy::BadLink),
    },
    Workspace {
        part: b"",
        copies: 0,
        ending: b"<collection><href>a</href><accept>image/png</accept></collection>",
        refused: Some(ServiceWhy::BadLink),
    },
    Workspace {
        part: b"",
        copies: 0,
        ending: b"<collection href='http://['/>",
        refused: Some(ServiceWhy::BadLink),
    },
    Workspace {
        part: b"",
        copies: 0,
        ending: b"<collection href='//'/>",
        refused: Some(ServiceWhy::BadLink),
    },
    Workspace {
        part: b"",
        copies: 0,
        ending: b"<collection href='http://a:99999/'/>",
        refused: Some(ServiceWhy::BadLink),
    },
    // The first collection that is refused counts.
    Workspace {
        part: b"<collection href='a'/>",
        copies: 3,
        ending: b"<collection href='http://['/><collection/><collection href='a'/>",
        refused: Some(ServiceWhy::BadLink),
    },
    Workspace {
        part: b"<collection href='a'/></workspace><workspace>",
        copies: 3,
        ending: b"<collection/></workspace><workspace><collection/>",
        refused: Some(ServiceWhy::BadLink),
    },
    // Elements that are skipped aren't refused.
    Workspace {
        part: b"<x><collection/></x>",
        copies: 1,
        ending: b"<collection/>",
        refused: Some(ServiceWhy::BadLink),
    },
    Workspace {
        part: b"<collection xmlns='urn:x'/><workspace><collection/></workspace>",
        copies: 1,
        ending: b"<collection/>",
        refused: Some(ServiceWhy::BadLink),
    },
    Workspace {
        part: b"<collection href='a'><collection/></collection>",
        copies: 1,
        ending: b"<collection/>",
        refused: Some(ServiceWhy::BadLink),
    },
    Workspace {
        part: b"</workspace><collection/><workspace>",
        copies: 1,
        ending: b"<collection/>",
        refused: Some(ServiceWhy::BadLink),
    },
    // 64 collections, and one more.
    Workspace {
        part: b"<collection href='a'/>",
        copies: 64,
        ending: b"<collection xmlns=''/>",
        refused: None,
    },
    Workspace {
        part: b"<collection href='a'/>",
        copies: 64,
        ending: b"<collection href='a'/>",
        refused: Some(ServiceWhy::TooMany),
    },
    Workspace {
        part: b"<collection href='a'/>",
        copies: 64,
        ending: b"<collection href='a'><accept>image/png</accept></collection><collection/>",
        refused: Some(ServiceWhy::TooMany),
    },
    // The collections of all workspaces are counted.
    Workspace {
        part: b"<collection href='a'/><collection href='b'/></workspace><workspace>",
        copies: 32,
        ending: b"",
        refused: None,
    },
    Workspace {
        part: b"<collection href='a'/><collection href='b'/></workspace><workspace>",
        copies: 32,
        ending: b"<collection href='a'/>",
        refused: Some(ServiceWhy::TooMany),
    },
    // One too many without an address is refused for that.
    Workspace {
        part: b"<collection href='a'/>",
        copies: 64,
        ending: b"<collection/>",
        refused: Some(ServiceWhy::BadLink),
    },
    // Collections that are skipped aren't counted.
    Workspace {
        part: b"<x><collection href='a'/></x>",
        copies: 65,
        ending: b"<collection href='a'/>",
        refused: None,
    },
    Workspace {
        part: b"</workspace><collection href='a'/><workspace>",
        copies: 65,
        ending: b"<collection href='a'/>",
        refused: None,
    },
    Workspace {
        part: b"<x>",
        copies: 254,
        ending: b"<x/>",
        refused: Some(ServiceWhy::Token(TokenWhy::TooDeep)),
    },
];

/// Compares the refusal of a document with a workspace.
fn compare(rt: &impl Abort, alloc: Global, workspace: &Workspace) {
    let mut bytes = Vec::new(alloc);
    push(rt, &mut bytes, OPENING, 1);
    push(rt, &mut bytes, workspace.part, workspace.copies);
    let at = bytes.len();
    push(rt, &mut bytes, workspace.ending, 1);
    push(rt, &mut bytes, b"</workspace></service>", 1);
    let want = workspace
        .refused
        .map(|why| ServiceRead::NotRead { at, why });
    let found = refusal(rt, alloc, bytes.as_slice(), ADDRESS);
    assert!(rt; found == want, "{found:?} {want:?}");
}

#[test]
fn refuses_workspaces(rt: HostRuntime) {
    for workspace in &WORKSPACES {
        compare(&rt, rt.alloc(), workspace);
    }
}

/// Compares the refusal of a collection in the documents of addresses that are no URLs.
#[test]
fn joins_to_urls_alone(rt: HostRuntime) {
    let mut bytes = Vec::new(rt.alloc());
    push(&rt, &mut bytes, OPENING, 1);
    let at = bytes.len();
    push(
        &rt,
        &mut bytes,
        b"<collection href='http://a.example/'/></workspace></service>",
        1,
    );
    let why = ServiceWhy::BadLink;
    let addresses: [&[u8]; 4] = [b"", b"service", b"http://a.example/\xFF", b"http://"];
    for address in addresses {
        let found = refusal(&rt, rt.alloc(), bytes.as_slice(), address);
        assert!(rt;
            found == Some(ServiceRead::NotRead { at, why }),
            "{found:?}"
        );
    }
    let found = refusal(&rt, rt.alloc(), bytes.as_slice(), ADDRESS);
    assert!(rt; found.is_none(), "{found:?}");
}

#[test]
fn says_where_and_why(rt: HostRuntime) {
    let fault = ServiceRead::NotRead {
        at: 7,
        why: ServiceWhy::Token(TokenWhy::TooDeep),
    };
    let sentence = format!(in rt.alloc(); "{fault}").expect(&rt, "memory");
    assert!(rt;
        sentence.as_str() == "not read as a service document: Token(TooDeep) at byte 7",
        "{sentence}"
    );
}
