//! `mirror` of the pile of a store on a disk in memory, and of other inputs.

use crate::scripts::expect_script;

const SCRIPT: &str = "\
~ a report
$ mirror --base http://feed.example/ --report < {pile,f13,3,2,1} > 0 offers 4 0 0 0|{live,13}complete 13 13|
~ a report
$ mirror --base http://feed.example/ --report < {pile,1,2,3,f13,f13,3,2,1} > 0 offers 4 4 0 0|{live,13}complete 13 13|
~ a report
$ mirror --base http://feed.example/ --report < {pile,f13,3,1} > 3 offers 3 0 0 0|missing http://feed.example/archive/2|
~ a report
$ mirror --base http://feed.example/ --report < {pile,3,2,1} > 3 offers 3 0 0 0|missing http://feed.example/feed|
~ a report
$ mirror --base http://feed.example/ --report < pile 1| > 3 offers 0 0 0 0|missing http://feed.example/feed|
~ a report
$ mirror --base http://feed.example/ --report < pile 1| > 3 offers 0 0 0 0|missing http://feed.example/feed|
~ a report
$ mirror --base http://feed.example/ --report < pile 1|x 1|y| > 3 refused x NotADocument|offers 0 0 0 1|missing http://feed.example/feed|
~ a report
$ mirror --base http://feed.example/ --report > 10 bad pile 0|
~ a report
$ mirror --base http://feed.example/ --report < pile 1 > 10 bad pile 0|
~ a report
$ mirror --base http://feed.example/ --report < pile 1|x > 10 bad pile 7|
~ a report
$ mirror --base http://feed.example/ --report < pile 1|x 1 > 10 bad pile 7|
~ a report
$ mirror --base http://feed.example/ --report < pile 1|x 1| > 10 bad pile 7|
~ a report
$ mirror --base http://feed.example/ --report < pile 1|x 1|y > 10 bad pile 7|
~ a report
$ mirror --base http://feed.example/ --report < pile 1|x 1|y|x > 10 bad pile 13|
~ a report
$ mirror --base http://feed.example/ --report < pile 1| > 9 input fault|
! input 1
~ a report
$ mirror --base http://feed.example/ --report < pile 1|x 1|y| > 9 input fault|
! input 2
~ a report
$ mirror --base http://feed.example/ --report < pile 1| > 8
! output 1
~ a report
$ mirror --base http://feed.example/ --report > 10
! output 1
~ a mirror of an empty store is complete
$ mirror --base http://feed.example/ --report < {pile,f0} > 0 offers 1 0 0 0|complete 0 0|
~ a mirror on the disk of its store
$ init * > 0 ready|
$ mirror --report --base=http://other.example/ < {pile,f0} > 3 refused http://feed.example/feed WrongAddress|offers 0 0 0 1|missing http://other.example/feed|
$ mirror --base http://feed.example/ --report < {pile,f0} > 0 offers 1 0 0 0|complete 0 0|
$ mirror --report --base=http://other.example/ < pile 1| > 12 other base http://feed.example/|
~ a mirror keeps what it took
$ mirror --base http://feed.example/ --report < pile 1| > 3 offers 0 0 0 0|missing http://feed.example/feed|
The subscription document has 821 bytes, archive 3 has 1,712 and archive 1 has 1,644.
$ mirror --base http://feed.example/ --report --capacity 4096 < {pile,f13,3,1} > 11 full mirror 2544 1649 4096|
$ mirror --base http://feed.example/ --report --capacity 4096 < pile 1| > 3 offers 0 0 0 0|missing http://feed.example/archive/2|
$ mirror --base http://feed.example/ --report < {pile,f13,3,1} > 3 offers 1 2 0 0|missing http://feed.example/archive/2|
$ mirror --report --base=http://other.example/ < pile 1| > 12 other base http://feed.example/|
$ mirror --base http://feed.example/ --report < {pile,2} > 0 offers 1 0 0 0|{live,13}complete 13 13|
$ mirror --base http://feed.example/ --report < pile 1| > 0 offers 0 0 0 0|{live,13}complete 13 13|
$ mirror --base http://feed.example/ --report --capacity 4096 < {pile,f13,3,2,1} > 0 offers 0 4 0 0|{live,13}complete 13 13|
$ mirror --report --base=http://other.example/ < {pile,f13} > 12 other base http://feed.example/|
$ mirror --base http://feed.example/ --report < {pile,1,f13} > 0 offers 0 2 0 0|{live,13}complete 13 13|
~ a call of the first mirror fails: 1 34
An empty area is opened with 4 calls, each of four documents is appended with 4, and each of 13 entries is read with
one. The second run loads the area with the next calls.
$ mirror --base http://feed.example/ --report < {pile,f13,3,2,1} > 4 disk fault|
$ mirror --base http://feed.example/ --report < {pile,f13,3,2,1} > 0 {any}
$ mirror --base http://feed.example/ --report < {pile,f13,3,2,1} > 0 offers 0 4 0 0|{live,13}complete 13 13|
~ a call of the second mirror fails: 34 36
$ mirror --base http://feed.example/ --report < {pile,f13,3,2,1} > 0 offers 4 0 0 0|{live,13}complete 13 13|
$ mirror --base http://feed.example/ --report < {pile,f13,3,2,1} > 4 disk fault|
$ mirror --base http://feed.example/ --report < {pile,f13,3,2,1} > 0 offers 0 4 0 0|{live,13}complete 13 13|
~ a payload that is no document
A frame of the area has a gate and a length of four bytes before its payload. A closed gate comes after the last one.
$ write mirror 0 < {01}{00}{00}{00}{01}x{00}
$ mirror --base http://feed.example/ --report < pile 1| > 6 bad store mirror 0 0|
~ a document twice
A document that is held already isn't taken again. The offset is its length.
$ write mirror 0 < {01}{00}{00}{03}5{letters,13}{01}{00}{00}{03}5{letters,13}{00}
$ mirror --base http://feed.example/ --report < pile 1| > 6 bad store mirror 1 821|
~ an empty payload
$ write mirror 0 < {01}{00}{00}{03}5{letters,13}{01}{00}{00}{00}{00}{00}
$ mirror --base http://feed.example/ --report < pile 1| > 6 bad store mirror 1 0|
";

#[test]
fn reports_what_it_took(rt: HostRuntime) {
    expect_script(&rt, rt.alloc(), SCRIPT);
}
