//! `scrub` and `scrub --repair` of a store of thirteen operations on a disk in memory, which is changed in one place.
//!
//! Its journal has 670 bytes, of which the frame of the head takes 84. Its seals have 1,644, 1,708 and 1,712 bytes, and
//! their frames begin at 0, 1,649 and 3,362. The title of the second seal is at byte 1,974: a gate and a length of 5 bytes
//! are before the seal, and 313 bytes and a tag of 7 before its title.

use crate::scripts::{Crash, Filling, expect_crashes, expect_script};

/// `init` makes 12 device calls and `apply` 71, so the first call of `scrub` is 84. A store with windows of 100 operations
/// becomes one with windows of 4 that lacks its seals if the size of windows is changed. Its head has this size at byte 64
/// of the journal, and the capacity after that. The second `scrub` finds what the first one found.
const SCRIPT: &str = "\
~ nothing
$ init * --window 4 > 0 ready|
$ apply < add a|add b|add c|add d|add e|add f|add g|add h|add i|add j|add k|add l|add m| > 0 {letters,13}
$ scrub > 0 sound 13 3|
$ scrub > 0 sound 13 3|
$ scrub --repair > 0 repaired 3 0|
$ scrub > 0 sound 13 3|
~ the title in the second seal
$ init * --window 4 > 0 ready|
$ apply < add a|add b|add c|add d|add e|add f|add g|add h|add i|add j|add k|add l|add m| > 0 {letters,13}
$ write sealed 1974 < f
$ scrub > 6 bad seal 2|
$ scrub > 6 bad seal 2|
$ scrub --repair > 0 repaired 1 2|
$ scrub > 0 sound 13 3|
~ no seal
$ init * --window 100 > 0 ready|
$ apply < add a|add b|add c|add d|add e|add f|add g|add h|add i|add j|add k|add l|add m| > 0 {feed,Feed,13,0,1,13}{entry,13,m,13}{entry,12,l,12}{entry,11,k,11}{entry,10,j,10}{entry,9,i,9}{entry,8,h,8}{entry,7,g,7}{entry,6,f,6}{entry,5,e,5}{entry,4,d,4}{entry,3,c,3}{entry,2,b,2}{entry,1,a,1}{end}
$ write journal 64 < {00}{00}{00}{04}
$ scrub > 6 seal count 13 0|
$ scrub > 6 seal count 13 0|
$ scrub --repair > 0 repaired 0 3|
$ scrub > 0 sound 13 3|
~ the last gate of the journal
$ init * --window 4 > 0 ready|
$ apply < add a|add b|add c|add d|add e|add f|add g|add h|add i|add j|add k|add l|add m| > 0 {letters,13}
$ write journal 669 < {01}
$ scrub > 6 open gate journal 669|
$ scrub > 6 open gate journal 669|
$ scrub --repair > 0 repaired 3 0|
$ scrub > 0 sound 13 3|
~ the last gate of the seals
$ init * --window 4 > 0 ready|
$ apply < add a|add b|add c|add d|add e|add f|add g|add h|add i|add j|add k|add l|add m| > 0 {letters,13}
$ write sealed 5079 < {01}
$ scrub > 6 open gate sealed 5079|
$ scrub > 6 open gate sealed 5079|
$ scrub --repair > 0 repaired 3 0|
$ scrub > 0 sound 13 3|
~ a seal
$ init * --window 4 > 0 ready|
$ apply < add a|add b|add c|add d|add e|add f|add g|add h|add i|add j|add k|add l|add m| > 0 {letters,13}
$ write sealed 5 < {00}
$ scrub > 6 bad seal 1|
$ scrub > 6 bad seal 1|
$ scrub --repair > 0 repaired 0 3|
$ scrub > 0 sound 13 3|
~ the gate of a seal
$ init * --window 4 > 0 ready|
$ apply < add a|add b|add c|add d|add e|add f|add g|add h|add i|add j|add k|add l|add m| > 0 {letters,13}
$ write sealed 3362 < {00}
$ scrub > 6 seal count 13 2|
$ scrub > 6 seal count 13 2|
$ scrub --repair > 0 repaired 2 1|
$ scrub > 0 sound 13 3|
~ the kind of the first operation
The kind of the first operation.
$ init * --window 4 > 0 ready|
$ apply < add a|add b|add c|add d|add e|add f|add g|add h|add i|add j|add k|add l|add m| > 0 {letters,13}
$ write journal 89 < {09}
$ scrub > 6 bad store journal 1 0|
$ scrub > 6 bad store journal 1 0|
$ scrub --repair > 6 bad store journal 1 0|
$ scrub > 6 bad store journal 1 0|
~ the gate byte of the last operation
The gate byte of the last operation, which is then lost. The third archive stays, as one that was sealed before
the operation was written.
$ init * --window 4 > 0 ready|
$ apply < add a|add b|add c|add d|add e|add f|add g|add h|add i|add j|add k|add l|add m| > 0 {letters,13}
$ write journal 624 < {00}
$ scrub > 0 sound 12 3|
$ scrub > 0 sound 12 3|
$ scrub --repair > 0 repaired 3 0|
$ scrub > 0 sound 12 3|
~ no seal and no room
Two seals take 3,363 bytes with their last gate, and the third one needs 1,717 more.
$ init * --window 100 > 0 ready|
$ apply < add a|add b|add c|add d|add e|add f|add g|add h|add i|add j|add k|add l|add m| > 0 {feed,Feed,13,0,1,13}{entry,13,m,13}{entry,12,l,12}{entry,11,k,11}{entry,10,j,10}{entry,9,i,9}{entry,8,h,8}{entry,7,g,7}{entry,6,f,6}{entry,5,e,5}{entry,4,d,4}{entry,3,c,3}{entry,2,b,2}{entry,1,a,1}{end}
$ write journal 64 < {00}{00}{00}{04}{00}{00}{00}{00}{00}{00}{10}{00}
$ scrub > 6 seal count 13 0|
$ scrub > 6 seal count 13 0|
$ scrub --repair > 11 full sealed 3363 1717 4096|
$ scrub > 6 seal count 13 2|
~ no store
$ scrub > 6 not init|
$ scrub > 6 not init|
$ scrub --repair > 6 not init|
$ scrub > 6 not init|
~ a repair makes the same archive
$ init * --window 4 > 0 ready|
$ apply < add a|add b|add c|add d|add e|add f|add g|add h|add i|add j|add k|add l|add m| > 0 {letters,13}
$ write sealed 1974 < f
$ scrub --repair > 0 repaired 1 2|
$ show archive 2 > 0 {sealed,2}
~ scrub fails: 84 85
$ init * --window 4 > 0 ready|
$ apply < add a|add b|add c|add d|add e|add f|add g|add h|add i|add j|add k|add l|add m| > 0 {letters,13}
$ scrub > 4 disk fault|
~ scrub fails: 85 86
$ init * --window 4 > 0 ready|
$ apply < add a|add b|add c|add d|add e|add f|add g|add h|add i|add j|add k|add l|add m| > 0 {letters,13}
$ scrub > 4 disk fault|
~ scrub fails: 84 85
$ init * --window 4 > 0 ready|
$ apply < add a|add b|add c|add d|add e|add f|add g|add h|add i|add j|add k|add l|add m| > 0 {letters,13}
$ scrub > 4
! output 1
~ scrub fails
$ init * --window 4 > 0 ready|
$ apply < add a|add b|add c|add d|add e|add f|add g|add h|add i|add j|add k|add l|add m| > 0 {letters,13}
$ scrub > 8
! output 1
~ scrub --repair fails: 84 85
The two syncs.
$ init * --window 4 > 0 ready|
$ apply < add a|add b|add c|add d|add e|add f|add g|add h|add i|add j|add k|add l|add m| > 0 {letters,13}
$ scrub --repair > 4 disk fault|
~ scrub --repair fails: 85 86
$ init * --window 4 > 0 ready|
$ apply < add a|add b|add c|add d|add e|add f|add g|add h|add i|add j|add k|add l|add m| > 0 {letters,13}
$ scrub --repair > 4 disk fault|
~ scrub --repair fails: 84 85
$ init * --window 4 > 0 ready|
$ apply < add a|add b|add c|add d|add e|add f|add g|add h|add i|add j|add k|add l|add m| > 0 {letters,13}
$ scrub --repair > 4
! output 1
~ scrub --repair fails
$ init * --window 4 > 0 ready|
$ apply < add a|add b|add c|add d|add e|add f|add g|add h|add i|add j|add k|add l|add m| > 0 {letters,13}
$ scrub --repair > 8
! output 1
~ scrub scrub fails
$ init * --window 4 > 0 ready|
$ apply < add a|add b|add c|add d|add e|add f|add g|add h|add i|add j|add k|add l|add m| > 0 {letters,13}
$ scrub scrub > 2
! output 1
~ scrub --repair --repair fails
$ init * --window 4 > 0 ready|
$ apply < add a|add b|add c|add d|add e|add f|add g|add h|add i|add j|add k|add l|add m| > 0 {letters,13}
$ scrub --repair --repair > 2
! output 1
";

#[test]
fn names_what_differs_and_brings_it_back(rt: HostRuntime) {
    expect_script(&rt, rt.alloc(), SCRIPT);
}

const BEFORE: &str = "\
$ init * --window 4 > 0 ready|
$ apply < add a|add b|add c|add d|add e|add f|add g|add h|add i|add j|add k|add l|add m| > 0 {letters,13}
$ write sealed 1974 < f
";

const WITHIN: &str = "\
$ scrub --repair > 0 repaired 1 2|
";

/// A second repair, after which the store is sound.
const AGAIN: &str = "\
$ scrub --repair > 0 {any}
$ scrub > 0 sound 13 3|
";

/// A repair makes two syncs, a write and a sync for the gate, and four calls for each of two appends.
static CRASH: Crash = Crash {
    before: BEFORE,
    within: WITHIN,
    least: 12,
    left: &[
        (Filling::Old, AGAIN, AGAIN),
        (Filling::New, AGAIN, AGAIN),
        (Filling::Byte, AGAIN, AGAIN),
    ],
};

#[test]
fn a_repair_goes_on_after_a_crash(rt: HostRuntime) {
    expect_crashes(&rt, rt.alloc(), &CRASH);
}
