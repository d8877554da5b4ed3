//! Requests and inputs that no honest client or server makes, and their refusals.
//!
//! The opening of a document has 313 bytes, its lines up to the span 148, that of the span 32 and that of a tombstone 100.

use crate::scripts::expect_script;

const SCRIPT: &str = "\
~ hostile bytes
$ init * > 0 ready|
A NUL in a target.
$ serve --listen here --requests 6 > 0 400 0|
@ GET /{00} HTTP/1.1^|^|
= ^|^|bad head|
: 400 0
A head of 16,385 bytes.
$ serve --listen here --requests 6 > 0 431 0|
@ GET /feed HTTP/1.1^|a: {times,16358,b}^|^|
= ^|^|head too large|
: 431 0
65 fields.
$ serve --listen here --requests 6 > 0 431 0|
@ GET /feed HTTP/1.1^|{times,65,a: b^|}^|
= ^|^|head too large|
: 431 0
A length of 31 digits.
$ serve --listen here --requests 6 > 0 400 0|
@ POST /feed HTTP/1.1^|Content-Length: 1{times,30,0}^|^|
= ^|^|bad head|
: 400 0
33 nested elements.
$ serve --listen here --requests 6 > 0 400 0|
@ POST /feed HTTP/1.1^|Content-Length: 283^|^|<entry xmlns=\"http://www.w3.org/2005/Atom\"><title/>{times,32,<x>}{times,32,</x>}</entry>
= ^|^|entry 144 TooDeep|
: 400 0
A reference to U+0.
$ serve --listen here --requests 6 > 0 400 0|
@ POST /feed HTTP/1.1^|Content-Length: 70^|^|<entry xmlns=\"http://www.w3.org/2005/Atom\"><title>&#0;</title></entry>
= ^|^|entry 50 NotWellFormed|
: 400 0
An offer of more bytes than a document may have.
$ mirror --base http://feed.example/ < pile 1|http://feed.example/feed 67108865| > 10 bad pile 7|
A document whose first operation is 0. It has a link to an archive before, as each document whose first operation
isn't 1. The link's line has 64 bytes.
$ show < {opening}<title>Feed</title>|<updated>2023-11-14T22:13:20Z</updated>|<author><name>Editor</name></author>|<link rel=\"self\" href=\"http://feed.example/feed\"/>|<link rel=\"prev-archive\" href=\"http://feed.example/archive/1\"/>|<sp:span first=\"0\" last=\"3\"/>|</feed>| > 10 bad document 525|
A document with 101 items of 100 operations. The span's line has 32 bytes.
$ show < {opening}<title>Feed</title>|<updated>2023-11-14T22:13:20Z</updated>|<author><name>Editor</name></author>|<link rel=\"self\" href=\"http://feed.example/feed\"/>|<sp:span first=\"1\" last=\"100\"/>|{times,101,<at:deleted-entry ref=\"urn:uuid:6d1f0c5a-93be-8c27-8000-*\" when=\"1970-01-01T00:00:00Z\"/>|}</feed>| > 10 bad document 10493|
A document with 101 items of 101 operations.
$ show < {opening}<title>Feed</title>|<updated>2023-11-14T22:13:20Z</updated>|<author><name>Editor</name></author>|<link rel=\"self\" href=\"http://feed.example/feed\"/>|<sp:span first=\"1\" last=\"101\"/>|{times,101,<at:deleted-entry ref=\"urn:uuid:6d1f0c5a-93be-8c27-8000-*\" when=\"1970-01-01T00:00:00Z\"/>|}</feed>| > 10 bad document 461|
A digest with a digit in upper case.
$ audit < coverage 1|feed 6d1f0c5a-93be-4c27-8d10-2b7f9e4a5c36 http://feed.example/|version 0|document http://feed.example/feed 27B4e081164403fce1e7c6bf0c163f04e8b32fd268534b0f58ac65bc1e41f4ed|live 0 e3b0c44298fc1c149afbf4c8996fb92427ae41e4649b934ca495991b7852b855|end|pile 1| > 10 bad certificate 4|
";

#[test]
fn hostile_bytes_are_refused(rt: HostRuntime) {
    expect_script(&rt, rt.alloc(), SCRIPT);
}
