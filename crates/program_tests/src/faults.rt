//! Words that name no command, and failing calls of the door, the input and the output.

use crate::scripts::{expect_script, expect_turns};
use atom_values::Many;
use doc_source::ListSink;
use feed_commands::{Fault, print_fault};

const SCRIPT: &str = "\
~ words that name no command, and calls that fail
$  > 2 usage: feed_tool init, apply, show, serve, mirror, audit, drill, foreign, discover, relay, scrub|
$ apply 4 4 > 2 usage: feed_tool init, apply, show, serve, mirror, audit, drill, foreign, discover, relay, scrub|
$ apply  > 2 usage: feed_tool init, apply, show, serve, mirror, audit, drill, foreign, discover, relay, scrub|
$ apply 0 > 2 usage: feed_tool init, apply, show, serve, mirror, audit, drill, foreign, discover, relay, scrub|
$ apply 101 > 2 usage: feed_tool init, apply, show, serve, mirror, audit, drill, foreign, discover, relay, scrub|
$ apply 4294967300 > 2 usage: feed_tool init, apply, show, serve, mirror, audit, drill, foreign, discover, relay, scrub|
$ apply +4 > 2 usage: feed_tool init, apply, show, serve, mirror, audit, drill, foreign, discover, relay, scrub|
$ apply 4_ > 2 usage: feed_tool init, apply, show, serve, mirror, audit, drill, foreign, discover, relay, scrub|
$ Apply 4 > 2 usage: feed_tool init, apply, show, serve, mirror, audit, drill, foreign, discover, relay, scrub|
$ 4 apply > 2 usage: feed_tool init, apply, show, serve, mirror, audit, drill, foreign, discover, relay, scrub|
$ drill 7 > 2 usage: feed_tool init, apply, show, serve, mirror, audit, drill, foreign, discover, relay, scrub|
$ Show > 2 usage: feed_tool init, apply, show, serve, mirror, audit, drill, foreign, discover, relay, scrub|
$ show_ > 2 usage: feed_tool init, apply, show, serve, mirror, audit, drill, foreign, discover, relay, scrub|
$ show  > 2 usage: feed_tool init, apply, show, serve, mirror, audit, drill, foreign, discover, relay, scrub|
$ show 4 > 2 usage: feed_tool init, apply, show, serve, mirror, audit, drill, foreign, discover, relay, scrub|
$ apply show > 2 usage: feed_tool init, apply, show, serve, mirror, audit, drill, foreign, discover, relay, scrub|
$ apply 4 < add a| > 9 input fault|
! input 1
$ apply 4 < add a| > 9 input fault|
! input 2
$ apply 4 < subtract| > 10 bad line 1|
! input 2
$ apply 4 < add a| > 9
! input 1
! output 1
$ apply 4 < add a| > 8
! output 1
$ apply 4 < add| > 10
! output 1
$ apply 4 < add| > 10 bad line 1|
! output 2
$ show < <feed> > 9 input fault|
! input 1
$ show < <feed> > 9 input fault|
! input 2
$ show < <feed> > 10
! input 3
! output 1
The second call comes only for bytes with which a pile can go on.
$ mirror --base http://feed.example/ < pile 1| > 9 input fault|
! input 2
$ mirror --base http://feed.example/ < pale > 10 bad pile 0|
! input 2
$ mirror --base http://feed.example/ < pile 1|feed x1 > 10 bad pile 7|
! input 2
$ mirror --base http://feed.example/ < pile 1|feed 67108864| > 9 input fault|
! input 2
$ mirror --base http://feed.example/ < pile 1|feed 67108865| > 10 bad pile 7|
! input 2
";

#[test]
fn reports_each_failing_call(rt: HostRuntime) {
    expect_script(&rt, rt.alloc(), SCRIPT);
}

/// Commands on a store without operations of which each call of an object may fail.
const IN_TURN: &str = "\
$ serve --listen here --requests 6 > 7 then 0
! each door 0
@ POST /feed HTTP/1.1^|Content-Length: 67^|^|<entry xmlns=\"http://www.w3.org/2005/Atom\"><title>a</title></entry>
@ DELETE /member/1 HTTP/1.1^|^|
@ DELETE /member/1 HTTP/1.1^|^|
@ GET /member/1 HTTP/1.1^|^|
@ PUT /member/1 HTTP/1.1^|Content-Length: 0^|^|
@ GET /member/2 HTTP/1.1^|^|
$ serve --listen here --requests 6 > 8 then 0
! each output 0
@ POST /feed HTTP/1.1^|Content-Length: 67^|^|<entry xmlns=\"http://www.w3.org/2005/Atom\"><title>a</title></entry>
@ DELETE /member/1 HTTP/1.1^|^|
@ DELETE /member/1 HTTP/1.1^|^|
@ GET /member/1 HTTP/1.1^|^|
@ PUT /member/1 HTTP/1.1^|Content-Length: 0^|^|
@ GET /member/2 HTTP/1.1^|^|
$ apply < add a|add b| > 9 then 0
! each input 0
$ apply < add a|add b| > 8 then 0
! each output 0
$ apply 4 < add a|add b| > 9 then 0
! each input 0
$ apply 4 < add a|add b| > 8 then 0
! each output 0
$ show < <feed> > 9 then 10
! each input 0
$ show feed > 8 then 0
! each output 0
$ show pile > 8 then 0
! each output 0
$ mirror --base http://feed.example/ < pile 1| > 9 then 3
! each input 0
$ mirror --base http://feed.example/ < pile 1| > 8 then 3
! each output 0
$ drill 7 1 > 8 then 0
! each output 0
";

#[test]
fn each_call_may_fail(rt: HostRuntime) {
    expect_turns(&rt, rt.alloc(), IN_TURN);
}

#[test]
fn a_lack_of_memory_is_reported(rt: HostRuntime) {
    let mut output = ListSink::new(rt.alloc(), Many::new(rt.alloc()));
    let status = print_fault(&mut output, Fault::NoMemory);
    assert!(rt; (status.code(), output.bytes()) == (5, b"no memory\n".as_slice()));
}
