//! `relay` of a mirror on a disk in memory, at a door in memory.

use crate::scripts::expect_script;

const SCRIPT: &str = "\
~ a relay of what the mirror holds
$ mirror --base http://feed.example/ < {pile,1,2,3,f5} > 0 {any}
$ relay --base http://feed.example/ --listen here --requests 5 > 0 200 5|200 5|404 5|404 5|405 5|
@ GET /feed HTTP/1.1^|^|
@ GET /archive/3 HTTP/1.1^|^|
@ GET /archive/4 HTTP/1.1^|^|
@ GET /member/1 HTTP/1.1^|^|
@ POST /feed HTTP/1.1^|Content-Length: 0^|^|
= {letters,5}
= {sealed,3}
= ^|^|not found|
= ^|^|not found|
= ^|Allow: GET^|Connection: close^|^|not allowed|
~ a relay ends as its calls do
@ GET /feed HTTP/1.1^|^|
@ GET /archive/3 HTTP/1.1^|^|
@ GET /archive/4 HTTP/1.1^|^|
@ GET /member/1 HTTP/1.1^|^|
@ POST /feed HTTP/1.1^|Content-Length: 0^|^|
$ mirror --base http://feed.example/ < {pile,f0} > 0 {any}
$ relay --base http://feed.example/ --listen here --requests 5 > 0 200 0|404 0|404 0|404 0|405 0|
$ relay --base=http://other.example/ --listen=here --requests=5 --capacity=4096 > 12 other base http://feed.example/|
$ relay --base=http://other.example/ --listen=here --requests=5 --capacity=4096 > 12
! output 1
$ relay --base http://feed.example/ --listen here --requests 5 > 0 0 0|0 0|0 0|0 0|0 0|
! client 1
$ relay --base http://feed.example/ --listen here --requests 5 > 7 door fault|
! door 1
$ relay --base http://feed.example/ --listen here --requests 5 > 7 200 0|door fault|
! door 3
$ relay --base http://feed.example/ --listen here --requests 5 > 8
! output 1
~ a relay of a bad area
An area whose first payload is no document.
$ write mirror 0 < {01}{00}{00}{00}{02}oo{00}
$ relay --base http://feed.example/ --listen here --requests 5 > 6 bad store mirror 0 0|
@ GET /feed HTTP/1.1^|^|
@ GET /archive/3 HTTP/1.1^|^|
@ GET /archive/4 HTTP/1.1^|^|
@ GET /member/1 HTTP/1.1^|^|
@ POST /feed HTTP/1.1^|Content-Length: 0^|^|
~ a relay of an empty area
$ relay --base http://feed.example/ --listen here --requests 5 > 0 404 0|404 0|404 0|404 0|405 0|
@ GET /feed HTTP/1.1^|^|
@ GET /archive/3 HTTP/1.1^|^|
@ GET /archive/4 HTTP/1.1^|^|
@ GET /member/1 HTTP/1.1^|^|
@ POST /feed HTTP/1.1^|Content-Length: 0^|^|
~ a relay whose disk fails: 1 2
$ relay --base http://feed.example/ --listen here --requests 5 > 4 disk fault|
@ GET /feed HTTP/1.1^|^|
@ GET /archive/3 HTTP/1.1^|^|
@ GET /archive/4 HTTP/1.1^|^|
@ GET /member/1 HTTP/1.1^|^|
@ POST /feed HTTP/1.1^|Content-Length: 0^|^|
";

#[test]
fn relays_what_the_mirror_holds(rt: HostRuntime) {
    expect_script(&rt, rt.alloc(), SCRIPT);
}
