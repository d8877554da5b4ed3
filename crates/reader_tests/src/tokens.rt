//! The elements of documents, as they are told one after another.

use std::alloc::Global;
use std::process::Abort;
use xml_tokens::{Elements, Event, TokenFault, TokenWhy};

/// A tombstone with elements in it.
static TOMBSTONE: &str =
    "<t:gone xmlns:t='http://purl.org/atompub/tombstones/1.0' ref='x&amp;y'>1<p>2<b/>\
&#51;</p>4</t:gone>";

#[test]
fn tells_all_characters_of_an_element(rt: HostRuntime) {
    let alloc = rt.alloc();
    let mut elements = Elements::new(alloc, 3, TOMBSTONE.as_bytes()).expect(&rt, "UTF-8");
    let Some(Event::Begin(root)) = elements.next().expect(&rt, "a tag") else {
        panic!(rt; "no root");
    };
    assert!(rt; root.is_tombstone(b"gone"));
    assert!(rt; !root.is_atom(b"gone"));
    let Some(reference) = root.attribute(alloc, b"ref").expect(&rt, "memory") else {
        panic!(rt; "no attribute");
    };
    assert_eq!(rt; reference.as_slice(), b"x&y".as_slice());
    let content = elements.whole_content().expect(&rt, "a content");
    assert_eq!(rt; content.text.as_slice(), b"1234".as_slice());
    assert_eq!(rt; content.inner, TOMBSTONE.find("<p>"));
    assert!(rt; elements.drain().is_ok());
}

#[test]
fn refuses_elements_past_the_depth(rt: HostRuntime) {
    let document = b"<a><b/><b><c/></b></a>";
    let mut shallow = Elements::new(rt.alloc(), 2, document).expect(&rt, "UTF-8");
    let found = shallow.drain().err();
    let want = TokenFault::NotRead {
        at: 10,
        why: TokenWhy::TooDeep,
    };
    assert!(rt; found == Some(want), "{found:?}");
    let mut deep = Elements::new(rt.alloc(), 3, document).expect(&rt, "UTF-8");
    assert!(rt; deep.drain().is_ok());
}

/// Compares the sentence of a fault.
fn expect_sentence(rt: &impl Abort, alloc: Global, fault: TokenFault, want: &str) {
    let sentence = format!(in alloc; "{fault}").expect(rt, "memory");
    assert!(rt; sentence.as_str() == want, "{sentence}");
}

#[test]
fn says_where_and_why_of_a_token(rt: HostRuntime) {
    let Err(fault) = Elements::new(rt.alloc(), 1, b"<a>\xFF") else {
        panic!(rt; "read");
    };
    expect_sentence(&rt, rt.alloc(), fault, "not read: NotUtf8 at byte 3");
    expect_sentence(&rt, rt.alloc(), TokenFault::NoMemory, "out of memory");
}
