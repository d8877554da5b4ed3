//! `init`, and `apply` and `show` of a store, on a disk in memory.

use crate::scripts::{Crash, Filling, expect_crashes, expect_script};

const SCRIPT: &str = "\
~ a store keeps its operations
$ init * --window 4 > 0 ready|
$ apply < add a|add b|add c|add d| > 0 {letters,4}
$ show archive 1 > 12 archive 1 not sealed 0|
$ apply < add e > 0 {letters,5}
$ show archive 1 > 0 {sealed,1}
$ show archive 2 > 12 archive 2 not sealed 1|
$ show member 6 > 12 member 6 not found|
$ apply < remove 5|add f|subtract|add g| > 10 bad line 3|
$ show member 5 > 12 member 5 deleted|
$ apply < change 6 F|remove 5| > 12 line 2 deleted 5|
$ apply < change 7 g| > 12 line 1 not found 7|
$ show feed > 0 {feed,Feed,8,1,5,8}{entry,6,F,8}{gone,5,6}{end}
$ init * > 6 already init|
$ show archive 0002 > 12 archive 2 not sealed 1|
$ apply > 0 {feed,Feed,8,1,5,8}{entry,6,F,8}{gone,5,6}{end}
~ documents of a store have one text
$ init * --window 1 > 0 ready|
$ apply < add a|add b|add c| > 0 {feed,Feed,3,2,3,3}{entry,3,c,3}{end}
$ show archive 2 > 0 {opening}<title>Feed</title>|<updated>2023-11-14T22:13:20.002Z</updated>|<author><name>Editor</name></author>|<link rel=\"self\" href=\"http://feed.example/archive/2\"/>|<link rel=\"current\" href=\"http://feed.example/feed\"/>|<link rel=\"prev-archive\" href=\"http://feed.example/archive/1\"/>|<link rel=\"next-archive\" href=\"http://feed.example/archive/3\"/>|<fh:archive/>|<sp:span first=\"2\" last=\"2\"/>|<entry><id>urn:uuid:6d1f0c5a-93be-8c27-8000-000000000002</id><title>b</title><updated>2023-11-14T22:13:20.002Z</updated><app:edited>2023-11-14T22:13:20.002Z</app:edited><link rel=\"edit\" href=\"http://feed.example/member/2\"/><content></content></entry>|</feed>|
$ show member 2 > 0 <?xml version=\"1.0\" encoding=\"utf-8\"?>|<entry xmlns=\"http://www.w3.org/2005/Atom\" xmlns:app=\"http://www.w3.org/2007/app\"><id>urn:uuid:6d1f0c5a-93be-8c27-8000-000000000002</id><title>b</title><updated>2023-11-14T22:13:20.002Z</updated><app:edited>2023-11-14T22:13:20.002Z</app:edited><author><name>Editor</name></author><link rel=\"edit\" href=\"http://feed.example/member/2\"/><content></content></entry>|
~ an archive keeps its title
$ init * --window 4 > 0 ready|
$ apply < add a|add b|title New|add c|add d| > 0 {feed,New,5,1,5,5}{entry,4,d,5}{end}
$ show archive 1 > 0 {archive,1,New,4,1,4}{entry,3,c,4}{entry,2,b,2}{entry,1,a,1}{end}
$ apply < title Next| > 0 {feed,Next,6,1,5,6}{entry,4,d,5}{end}
$ show archive 1 > 0 {archive,1,New,4,1,4}{entry,3,c,4}{entry,2,b,2}{entry,1,a,1}{end}
~ windows of two get another size
$ init * --window 2 > 0 ready|
$ apply < add a|window 3|add b|add c|add d|add e| > 0 {feed,Feed,6,2,6,6}{entry,5,e,6}{end}
$ show archive 1 > 0 {archive,1,Feed,2,1,2}{entry,1,a,1}{end}
$ show archive 2 > 0 {archive,2,Feed,5,3,5}{entry,4,d,5}{entry,3,c,4}{entry,2,b,3}{end}
$ apply < window 1|add f| > 0 {feed,Feed,8,2,6,8}{entry,6,f,8}{entry,5,e,6}{end}
$ show archive 1 > 0 {archive,1,Feed,2,1,2}{entry,1,a,1}{end}
~ windows of four get another size
A size doesn't end the open window.
$ init * --window 4 > 0 ready|
$ apply < add a|window 1|add b| > 0 {feed,Feed,3,0,1,3}{entry,2,b,3}{entry,1,a,1}{end}
$ show archive 1 > 12 archive 1 not sealed 0|
$ apply < add c|add d|add e| > 0 {feed,Feed,6,2,6,6}{entry,5,e,6}{end}
$ show archive 1 > 0 {archive,1,Feed,4,1,4}{entry,3,c,4}{entry,2,b,3}{entry,1,a,1}{end}
$ show archive 2 > 0 {archive,2,Feed,5,5,5}{entry,4,d,5}{end}
$ apply < window 0| > 10 bad line 1|
$ apply < window 101| > 10 bad line 1|
$ show archive 1 > 0 {archive,1,Feed,4,1,4}{entry,3,c,4}{entry,2,b,3}{entry,1,a,1}{end}
~ a store of format 1 takes settings
The head's first byte comes after a gate and a length.
$ init * --window 4 > 0 ready|
$ write journal 5 < {01}
$ apply < title New| > 0 {feed,New,1,0,1,1}{end}
$ apply < window 1| > 0 {feed,New,2,0,1,2}{end}
~ a store of format 2 takes settings
$ init * --window 4 > 0 ready|
$ write journal 5 < {02}
$ apply < title New| > 0 {feed,New,1,0,1,1}{end}
$ apply < window 1| > 0 {feed,New,2,0,1,2}{end}
~ a store of format 3 takes settings
$ init * --window 4 > 0 ready|
$ write journal 5 < {03}
$ apply < title New| > 0 {feed,New,1,0,1,1}{end}
$ apply < window 1| > 0 {feed,New,2,0,1,2}{end}
~ a store without room for the fifth seal
$ init * --capacity 4096 --window=1 > 0 ready|
$ apply < add Hello|add Hello|add Hello|add Hello|add Hello|add Hello|add Hello|add Hello|add Hello|add Hello| > 11 full sealed 3793 964 4096|
$ show archive 5 > 12 archive 5 not sealed 4|
$ show feed > 0 {feed,Feed,5,4,5,5}{entry,5,Hello,5}{end}
~ a store without room for a fourth title of a member
$ init * --capacity=4096 > 0 ready|
$ apply < add longest|add longest|add longest|add longest| > 11 full journal 3289 1068 4096|
$ show feed > 0 {feed,Feed,3,0,1,3}{entry,3,longest,3}{entry,2,longest,2}{entry,1,longest,1}{end}
~ a store without room for a fourth title of the feed
$ init * --capacity=4096 > 0 ready|
$ apply < title longest|title longest|title longest|title longest| > 11 full journal 3214 1043 4096|
$ show feed > 0 {feed,longest,3,0,1,3}{end}
~ a bad store is refused
The head's frame has 84 bytes and that of the first operation 45. Then come a gate and a length.
$ apply > 6 not init|
$ serve --listen here --requests 1 > 6 not init|
$ init * > 0 ready|
$ apply < add a|add b| > 0 {letters,2}
$ write journal 134 < {09}
$ apply < add c| > 6 bad store journal 2 0|
$ serve --listen here --requests 1 < add c| > 6 bad store journal 2 0|
$ show feed < add c| > 6 bad store journal 2 0|
$ show member 1 < add c| > 6 bad store journal 2 0|
$ init * < add c| > 6 already init|
~ a seal too few
Byte 0 of an area is the gate of its first payload, and byte 5 the payload's first byte.
$ init * --window 1 > 0 ready|
$ apply < add a|add b| > 0 {feed,Feed,2,1,2,2}{entry,2,b,2}{end}
$ write sealed 0 < {00}
$ show feed > 6 seal count 2 0|
~ a bad seal
$ init * --window 1 > 0 ready|
$ apply < add a|add b| > 0 {feed,Feed,2,1,2,2}{entry,2,b,2}{end}
$ write sealed 7 < X
$ show feed > 6 bad seal 1|
~ format 0
$ init * --window 1 > 0 ready|
$ apply < add a|add b| > 0 {feed,Feed,2,1,2,2}{entry,2,b,2}{end}
$ write journal 5 < {00}
$ show feed > 6 bad store journal 0 0|
~ format 4
$ init * --window 1 > 0 ready|
$ apply < add a|add b| > 0 {feed,Feed,2,1,2,2}{entry,2,b,2}{end}
$ write journal 5 < {04}
$ show feed > 6 bad store journal 0 0|
~ format 9
$ init * --window 1 > 0 ready|
$ apply < add a|add b| > 0 {feed,Feed,2,1,2,2}{entry,2,b,2}{end}
$ write journal 5 < {09}
$ show feed > 6 bad store journal 0 0|
~ no head
$ init * --window 1 > 0 ready|
$ apply < add a|add b| > 0 {feed,Feed,2,1,2,2}{entry,2,b,2}{end}
$ write journal 0 < {00}
$ show feed > 6 not init|
~ a call of init fails: 1 12
`init` makes 12 calls: it opens two empty areas, with 4 calls each, and appends the head with 4. If one of them
fails, a store was made or wasn't, and the next `init` says so.
$ init * > 4 disk fault|
$ init * > 0 ready|
$ apply < add Hello| > 0 {feed,Feed,1,0,1,1}{entry,1,Hello,1}{end}
$ show feed > 0 {feed,Feed,1,0,1,1}{entry,1,Hello,1}{end}
~ the last call of init fails: 12 13
$ init * > 4 disk fault|
$ init * > 6 already init|
$ apply < add Hello| > 0 {feed,Feed,1,0,1,1}{entry,1,Hello,1}{end}
$ show feed > 0 {feed,Feed,1,0,1,1}{entry,1,Hello,1}{end}
~ a call of apply fails: 13 23
`apply` makes 7 calls to load the store: 3 for the journal, of which one reads the head, and 4 for the sealed area,
which is empty. It makes 4 more to append the operation. Only the last of these leaves the operation.
$ init * > 0 ready|
$ apply < add Hello| > 4 disk fault|
$ show feed > 0 {letters,0}
~ the last call of apply fails: 23 24
$ init * > 0 ready|
$ apply < add Hello| > 4 disk fault|
$ show feed > 0 {feed,Feed,1,0,1,1}{entry,1,Hello,1}{end}
~ no call of apply fails: 24 25
$ init * > 0 ready|
$ apply < add Hello| > 0 {feed,Feed,1,0,1,1}{entry,1,Hello,1}{end}
";

#[test]
fn a_store_keeps_its_operations(rt: HostRuntime) {
    expect_script(&rt, rt.alloc(), SCRIPT);
}

const BEFORE: &str = "\
$ init * --window 1 > 0 ready|
$ apply < add a| > 0 {letters,1}
";

const WITHIN: &str = "\
$ apply < add b| > 0 {feed,Feed,2,1,2,2}{entry,2,b,2}{end}
";

/// What goes on if a crash left one operation, and if it left two.
const ONE_LEFT: &str = "\
$ show feed > 0 {letters,1}
$ apply < add c| > 0 {feed,Feed,2,1,2,2}{entry,2,c,2}{end}
$ show archive 1 > 0 {archive,1,Feed,1,1,1}{entry,1,a,1}{end}
";

const TWO_LEFT: &str = "\
$ show feed > 0 {feed,Feed,2,1,2,2}{entry,2,b,2}{end}
$ apply < add c| > 0 {feed,Feed,3,2,3,3}{entry,3,c,3}{end}
$ show archive 1 > 0 {archive,1,Feed,1,1,1}{entry,1,a,1}{end}
";

/// An `apply` that seals an archive. Its last two calls are a write of the gate and its sync.
static CRASH: Crash = Crash {
    before: BEFORE,
    within: WITHIN,
    least: 10,
    left: &[
        (Filling::Old, ONE_LEFT, ONE_LEFT),
        (Filling::New, TWO_LEFT, ONE_LEFT),
        (Filling::Byte, ONE_LEFT, ONE_LEFT),
    ],
};

#[test]
fn a_crash_leaves_a_store_that_goes_on(rt: HostRuntime) {
    expect_crashes(&rt, rt.alloc(), &CRASH);
}
