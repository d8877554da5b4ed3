//! `mirror --fetch` over a source in memory. Twenty-one operations fill five windows of four that are sealed. Mirrors fetch
//! twice, and the second run finds all documents.

use crate::scripts::expect_script;

const SCRIPT: &str = "\
~ the documents of the store
$ init * --window 4 > 0 ready|
$ apply < add a|add b|add c|add d|add e|add f|add g|add h|add i|add j|add k|add l|add m|add n|add o|add p|add q|add r|add s|add t|add u| > 0 {letters,21}
$ show feed > 0 {letters,21}
$ show archive 1 > 0 {sealed,1}
$ show archive 2 > 0 {sealed,2}
$ show archive 3 > 0 {sealed,3}
$ show archive 4 > 0 {sealed,4}
$ show archive 5 > 0 {sealed,5}
~ no call fails
+ http://feed.example/feed {letters,21}
+ http://feed.example/archive/1 {sealed,1}
+ http://feed.example/archive/2 {sealed,2}
+ http://feed.example/archive/3 {sealed,3}
+ http://feed.example/archive/4 {sealed,4}
+ http://feed.example/archive/5 {sealed,5}
$ mirror --base http://feed.example/ --fetch --report > 0 offers 6 0 0 0|{live,21}complete 21 21|
? http://feed.example/feed
? http://feed.example/archive/5
? http://feed.example/archive/4
? http://feed.example/archive/3
? http://feed.example/archive/2
? http://feed.example/archive/1
$ mirror --base http://feed.example/ --fetch --report > 0 offers 0 1 0 0|{live,21}complete 21 21|
? http://feed.example/feed
~ call 4 fails
+ http://feed.example/feed {letters,21}
+ http://feed.example/archive/1 {sealed,1}
+ http://feed.example/archive/2 {sealed,2}
+ http://feed.example/archive/3 {sealed,3}
+ http://feed.example/archive/4 {sealed,4}
+ http://feed.example/archive/5 {sealed,5}
$ mirror --base http://feed.example/ --fetch --report > 7 fetch fault|
! source 4
? http://feed.example/feed
? http://feed.example/archive/5
? http://feed.example/archive/4
? http://feed.example/archive/3
$ mirror --base http://feed.example/ --fetch --report > 0 offers 3 1 0 0|{live,21}complete 21 21|
? http://feed.example/feed
? http://feed.example/archive/3
? http://feed.example/archive/2
? http://feed.example/archive/1
~ call 2 fails
+ http://feed.example/feed {letters,21}
+ http://feed.example/archive/1 {sealed,1}
+ http://feed.example/archive/2 {sealed,2}
+ http://feed.example/archive/3 {sealed,3}
+ http://feed.example/archive/4 {sealed,4}
+ http://feed.example/archive/5 {sealed,5}
$ mirror --base http://feed.example/ --fetch --report > 7 fetch fault|
! source 2
? http://feed.example/feed
? http://feed.example/archive/5
$ mirror --base http://feed.example/ --fetch --report > 0 offers 5 1 0 0|{live,21}complete 21 21|
? http://feed.example/feed
? http://feed.example/archive/5
? http://feed.example/archive/4
? http://feed.example/archive/3
? http://feed.example/archive/2
? http://feed.example/archive/1
~ call 3 fails
+ http://feed.example/feed {letters,21}
+ http://feed.example/archive/1 {sealed,1}
+ http://feed.example/archive/2 {sealed,2}
+ http://feed.example/archive/3 {sealed,3}
+ http://feed.example/archive/4 {sealed,4}
+ http://feed.example/archive/5 {sealed,5}
$ mirror --base http://feed.example/ --fetch --report > 7 fetch fault|
! source 3
? http://feed.example/feed
? http://feed.example/archive/5
? http://feed.example/archive/4
$ mirror --base http://feed.example/ --fetch --report > 0 offers 4 1 0 0|{live,21}complete 21 21|
? http://feed.example/feed
? http://feed.example/archive/4
? http://feed.example/archive/3
? http://feed.example/archive/2
? http://feed.example/archive/1
~ call 5 fails
+ http://feed.example/feed {letters,21}
+ http://feed.example/archive/1 {sealed,1}
+ http://feed.example/archive/2 {sealed,2}
+ http://feed.example/archive/3 {sealed,3}
+ http://feed.example/archive/4 {sealed,4}
+ http://feed.example/archive/5 {sealed,5}
$ mirror --base http://feed.example/ --fetch --report > 7 fetch fault|
! source 5
? http://feed.example/feed
? http://feed.example/archive/5
? http://feed.example/archive/4
? http://feed.example/archive/3
? http://feed.example/archive/2
$ mirror --base http://feed.example/ --fetch --report > 0 offers 2 1 0 0|{live,21}complete 21 21|
? http://feed.example/feed
? http://feed.example/archive/2
? http://feed.example/archive/1
~ call 1 fails
+ http://feed.example/feed {letters,21}
+ http://feed.example/archive/1 {sealed,1}
+ http://feed.example/archive/2 {sealed,2}
+ http://feed.example/archive/3 {sealed,3}
+ http://feed.example/archive/4 {sealed,4}
+ http://feed.example/archive/5 {sealed,5}
$ mirror --base http://feed.example/ --fetch --report > 7 fetch fault|
! source 1
? http://feed.example/feed
$ mirror --base http://feed.example/ --fetch --report > 0 offers 6 0 0 0|{live,21}complete 21 21|
? http://feed.example/feed
? http://feed.example/archive/5
? http://feed.example/archive/4
? http://feed.example/archive/3
? http://feed.example/archive/2
? http://feed.example/archive/1
~ call 6 fails
+ http://feed.example/feed {letters,21}
+ http://feed.example/archive/1 {sealed,1}
+ http://feed.example/archive/2 {sealed,2}
+ http://feed.example/archive/3 {sealed,3}
+ http://feed.example/archive/4 {sealed,4}
+ http://feed.example/archive/5 {sealed,5}
$ mirror --base http://feed.example/ --fetch --report > 7 fetch fault|
! source 6
? http://feed.example/feed
? http://feed.example/archive/5
? http://feed.example/archive/4
? http://feed.example/archive/3
? http://feed.example/archive/2
? http://feed.example/archive/1
$ mirror --base http://feed.example/ --fetch --report > 0 offers 1 1 0 0|{live,21}complete 21 21|
? http://feed.example/feed
? http://feed.example/archive/1
~ call 7 fails
+ http://feed.example/feed {letters,21}
+ http://feed.example/archive/1 {sealed,1}
+ http://feed.example/archive/2 {sealed,2}
+ http://feed.example/archive/3 {sealed,3}
+ http://feed.example/archive/4 {sealed,4}
+ http://feed.example/archive/5 {sealed,5}
$ mirror --base http://feed.example/ --fetch --report > 0 offers 6 0 0 0|{live,21}complete 21 21|
! source 7
? http://feed.example/feed
? http://feed.example/archive/5
? http://feed.example/archive/4
? http://feed.example/archive/3
? http://feed.example/archive/2
? http://feed.example/archive/1
$ mirror --base http://feed.example/ --fetch --report > 0 offers 0 1 0 0|{live,21}complete 21 21|
? http://feed.example/feed
~ two archives are missing
$ mirror --base http://feed.example/ --fetch --report > 3 offers 4 0 0 0|missing http://feed.example/archive/2|
+ http://feed.example/feed {letters,21}
+ http://feed.example/archive/3 {sealed,3}
+ http://feed.example/archive/4 {sealed,4}
+ http://feed.example/archive/5 {sealed,5}
? http://feed.example/feed
? http://feed.example/archive/5
? http://feed.example/archive/4
? http://feed.example/archive/3
? http://feed.example/archive/2
$ mirror --base http://feed.example/ --fetch --report > 0 offers 2 1 0 0|{live,21}complete 21 21|
+ http://feed.example/feed {letters,21}
+ http://feed.example/archive/1 {sealed,1}
+ http://feed.example/archive/2 {sealed,2}
+ http://feed.example/archive/3 {sealed,3}
+ http://feed.example/archive/4 {sealed,4}
+ http://feed.example/archive/5 {sealed,5}
? http://feed.example/feed
? http://feed.example/archive/2
? http://feed.example/archive/1
~ an address answers another archive
$ mirror --base http://feed.example/ --fetch --report > 3 refused http://feed.example/archive/4 WrongAddress|offers 2 0 0 1|missing http://feed.example/archive/4|
+ http://feed.example/feed {letters,21}
+ http://feed.example/archive/5 {sealed,5}
+ http://feed.example/archive/4 {sealed,3}
+ http://feed.example/archive/3 {sealed,3}
? http://feed.example/feed
? http://feed.example/archive/5
? http://feed.example/archive/4
$ mirror --base http://feed.example/ --fetch --report > 0 offers 4 1 0 0|{live,21}complete 21 21|
+ http://feed.example/feed {letters,21}
+ http://feed.example/archive/1 {sealed,1}
+ http://feed.example/archive/2 {sealed,2}
+ http://feed.example/archive/3 {sealed,3}
+ http://feed.example/archive/4 {sealed,4}
+ http://feed.example/archive/5 {sealed,5}
? http://feed.example/feed
? http://feed.example/archive/4
? http://feed.example/archive/3
? http://feed.example/archive/2
? http://feed.example/archive/1
~ no document is there
$ mirror --base http://feed.example/ --fetch --report > 3 offers 0 0 0 0|missing http://feed.example/feed|
? http://feed.example/feed
$ mirror --base http://feed.example/ --fetch --report > 0 offers 6 0 0 0|{live,21}complete 21 21|
+ http://feed.example/feed {letters,21}
+ http://feed.example/archive/1 {sealed,1}
+ http://feed.example/archive/2 {sealed,2}
+ http://feed.example/archive/3 {sealed,3}
+ http://feed.example/archive/4 {sealed,4}
+ http://feed.example/archive/5 {sealed,5}
? http://feed.example/feed
? http://feed.example/archive/5
? http://feed.example/archive/4
? http://feed.example/archive/3
? http://feed.example/archive/2
? http://feed.example/archive/1
";

#[test]
fn a_walk_asks_for_what_is_missing(rt: HostRuntime) {
    expect_script(&rt, rt.alloc(), SCRIPT);
}
