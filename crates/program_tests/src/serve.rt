//! `serve` on a store on a disk in memory, with connections in memory.

use crate::scripts::{expect_script, expect_turns};

const SCRIPT: &str = "\
~ a line for each connection
$ init * > 0 ready|
$ serve --listen here --requests 6 > 0 201 1|200 2|410 2|410 2|410 2|404 2|
@ POST /feed HTTP/1.1^|Content-Length: 67^|^|<entry xmlns=\"http://www.w3.org/2005/Atom\"><title>a</title></entry>
@ DELETE /member/1 HTTP/1.1^|^|
@ DELETE /member/1 HTTP/1.1^|^|
@ GET /member/1 HTTP/1.1^|^|
@ PUT /member/1 HTTP/1.1^|Content-Length: 0^|^|
@ GET /member/2 HTTP/1.1^|^|
: 201 1
: 200 2
: 410 2
: 410 2
: 410 2
: 404 2
~ the first call of the door fails
$ init * > 0 ready|
$ serve --listen here --requests 6 > 7 door fault|
! door 1
@ POST /feed HTTP/1.1^|Content-Length: 67^|^|<entry xmlns=\"http://www.w3.org/2005/Atom\"><title>a</title></entry>
@ DELETE /member/1 HTTP/1.1^|^|
@ DELETE /member/1 HTTP/1.1^|^|
@ GET /member/1 HTTP/1.1^|^|
@ PUT /member/1 HTTP/1.1^|Content-Length: 0^|^|
@ GET /member/2 HTTP/1.1^|^|
~ the fourth call of the door fails
$ init * > 0 ready|
$ serve --listen here --requests 6 > 7 201 1|200 2|door fault|
! door 4
@ POST /feed HTTP/1.1^|Content-Length: 67^|^|<entry xmlns=\"http://www.w3.org/2005/Atom\"><title>a</title></entry>
@ DELETE /member/1 HTTP/1.1^|^|
@ DELETE /member/1 HTTP/1.1^|^|
@ GET /member/1 HTTP/1.1^|^|
@ PUT /member/1 HTTP/1.1^|Content-Length: 0^|^|
@ GET /member/2 HTTP/1.1^|^|
: 201 1
: 200 2
~ the third call of the output fails
$ init * > 0 ready|
$ serve --listen here --requests 6 > 8 201 1|200 2|
! output 3
@ POST /feed HTTP/1.1^|Content-Length: 67^|^|<entry xmlns=\"http://www.w3.org/2005/Atom\"><title>a</title></entry>
@ DELETE /member/1 HTTP/1.1^|^|
@ DELETE /member/1 HTTP/1.1^|^|
@ GET /member/1 HTTP/1.1^|^|
@ PUT /member/1 HTTP/1.1^|Content-Length: 0^|^|
@ GET /member/2 HTTP/1.1^|^|
: 201 1
: 200 2
: 410 2
: 410 2
: 410 2
: 404 2
~ the door and the output fail
$ init * > 0 ready|
$ serve --listen here --requests 6 > 7 201 1|
! output 2
! door 4
@ POST /feed HTTP/1.1^|Content-Length: 67^|^|<entry xmlns=\"http://www.w3.org/2005/Atom\"><title>a</title></entry>
@ DELETE /member/1 HTTP/1.1^|^|
@ DELETE /member/1 HTTP/1.1^|^|
@ GET /member/1 HTTP/1.1^|^|
@ PUT /member/1 HTTP/1.1^|Content-Length: 0^|^|
@ GET /member/2 HTTP/1.1^|^|
: 201 1
: 200 2
~ a device call of the first client fails: 21 22
$ init * > 0 ready|
$ serve --listen here --requests 6 > 4 500 0|disk fault|
@ POST /feed HTTP/1.1^|Content-Length: 67^|^|<entry xmlns=\"http://www.w3.org/2005/Atom\"><title>a</title></entry>
@ DELETE /member/1 HTTP/1.1^|^|
@ DELETE /member/1 HTTP/1.1^|^|
@ GET /member/1 HTTP/1.1^|^|
@ PUT /member/1 HTTP/1.1^|Content-Length: 0^|^|
@ GET /member/2 HTTP/1.1^|^|
: 500 0
~ five clients post
$ init * --window 4 > 0 ready|
$ serve --listen here --requests 6 > 0 201 1|201 2|201 3|201 4|201 5|
@ POST /feed HTTP/1.1^|Content-Length: 67^|^|<entry xmlns=\"http://www.w3.org/2005/Atom\"><title>a</title></entry>
@ POST /feed HTTP/1.1^|Content-Length: 67^|^|<entry xmlns=\"http://www.w3.org/2005/Atom\"><title>a</title></entry>
@ POST /feed HTTP/1.1^|Content-Length: 67^|^|<entry xmlns=\"http://www.w3.org/2005/Atom\"><title>a</title></entry>
@ POST /feed HTTP/1.1^|Content-Length: 67^|^|<entry xmlns=\"http://www.w3.org/2005/Atom\"><title>a</title></entry>
@ POST /feed HTTP/1.1^|Content-Length: 67^|^|<entry xmlns=\"http://www.w3.org/2005/Atom\"><title>a</title></entry>
: 201 1
: 201 2
: 201 3
: 201 4
: 201 5
$ serve --listen here --requests 6 > 0 200 5|
@ GET /feed HTTP/1.1^|^|
: 200 5
~ a device call of the fifth POST fails: 36 43
`init` makes 12 device calls, `serve` 7 to load the store, and each of four POSTs 4. The fifth POST makes 8: the
seal's write, its sync, the write of the gate and its sync, and the same four for the operation.
$ init * --window 4 > 0 ready|
$ serve --listen here --requests 6 > 4 201 1|201 2|201 3|201 4|500 4|disk fault|
@ POST /feed HTTP/1.1^|Content-Length: 67^|^|<entry xmlns=\"http://www.w3.org/2005/Atom\"><title>a</title></entry>
@ POST /feed HTTP/1.1^|Content-Length: 67^|^|<entry xmlns=\"http://www.w3.org/2005/Atom\"><title>a</title></entry>
@ POST /feed HTTP/1.1^|Content-Length: 67^|^|<entry xmlns=\"http://www.w3.org/2005/Atom\"><title>a</title></entry>
@ POST /feed HTTP/1.1^|Content-Length: 67^|^|<entry xmlns=\"http://www.w3.org/2005/Atom\"><title>a</title></entry>
@ POST /feed HTTP/1.1^|Content-Length: 67^|^|<entry xmlns=\"http://www.w3.org/2005/Atom\"><title>a</title></entry>
: 201 1
: 201 2
: 201 3
: 201 4
: 500 4
$ serve --listen here --requests 6 > 0 200 4|
@ GET /feed HTTP/1.1^|^|
: 200 4
~ the last device call of the fifth POST fails: 43 44
$ init * --window 4 > 0 ready|
$ serve --listen here --requests 6 > 4 201 1|201 2|201 3|201 4|500 4|disk fault|
@ POST /feed HTTP/1.1^|Content-Length: 67^|^|<entry xmlns=\"http://www.w3.org/2005/Atom\"><title>a</title></entry>
@ POST /feed HTTP/1.1^|Content-Length: 67^|^|<entry xmlns=\"http://www.w3.org/2005/Atom\"><title>a</title></entry>
@ POST /feed HTTP/1.1^|Content-Length: 67^|^|<entry xmlns=\"http://www.w3.org/2005/Atom\"><title>a</title></entry>
@ POST /feed HTTP/1.1^|Content-Length: 67^|^|<entry xmlns=\"http://www.w3.org/2005/Atom\"><title>a</title></entry>
@ POST /feed HTTP/1.1^|Content-Length: 67^|^|<entry xmlns=\"http://www.w3.org/2005/Atom\"><title>a</title></entry>
: 201 1
: 201 2
: 201 3
: 201 4
: 500 4
$ serve --listen here --requests 6 > 0 200 5|
@ GET /feed HTTP/1.1^|^|
: 200 5
";

#[test]
fn prints_a_line_for_each_connection(rt: HostRuntime) {
    expect_script(&rt, rt.alloc(), SCRIPT);
}

/// Clients each of whose calls fails in turn.
const CUT: &str = "\
$ serve --listen here --requests 6 > 0 0 0|:0 0 cut| then 0 200 0|:200 0 cut| then 0 200 0|:200 0|
! each client 0
@ GET /feed HTTP/1.1^|^|
$ serve --listen here --requests 6 > 0 0 0|:0 0 cut| then 0 201 1|:201 1 cut| then 0 201 1|:201 1|
! each client 0
@ POST /feed HTTP/1.1^|Content-Length: 67^|^|<entry xmlns=\"http://www.w3.org/2005/Atom\"><title>a</title></entry>
The head isn't whole, so the connection is read twice.
$ serve --listen here --requests 6 > 0 0 0|:0 0 cut| then 0 400 0|:400 0 cut| then 0 400 0|:400 0|
! each client 0
@ GET /feed HTTP/1.1^|
";

#[test]
fn a_connection_that_fails_ends_alone(rt: HostRuntime) {
    expect_turns(&rt, rt.alloc(), CUT);
}
