//! `apply W`: the documents that it prints, and the lines that it refuses.

use crate::scripts::expect_script;

const SCRIPT: &str = "\
~ documents
$ apply 4 > 0 {feed,Feed,1970-01-01T00:00:00Z,0,1,0}{end}
$ apply 4 < add Hello| > 0 {feed,Feed,0,0,1,1}{entry,1,Hello,0}{end}
$ apply 4 < add Hello > 0 {feed,Feed,0,0,1,1}{entry,1,Hello,0}{end}
$ apply 4 < add a&b<c>d\"e^{F4}{8F}{BF}{BF}| > 0 {feed,Feed,0,0,1,1}{entry,1,a&amp;b&lt;c&gt;d\"e&#13;\u{10FFFF},0}{end}
Operations that name a member again, in one window of ten.
$ apply 10 < add a|change 1 b|change 1 c|remove 1| > 0 {feed,Feed,3,0,1,4}{gone,1,3}{end}
$ apply 4 < add a|add b|change 1 c d| > 0 {feed,Feed,2,0,1,3}{entry,1,c d,2}{entry,2,b,1}{end}
$ apply 4 < add a|add b|remove 1|change 2  > 0 {feed,Feed,3,0,1,4}{entry,2,,3}{gone,1,2}{end}
Settings hold from their lines on.
$ apply 4 < title | > 0 {feed,,0,0,1,1}{end}
$ apply 4 < add a|title a&b<c>d\"e^{F4}{8F}{BF}{BF} > 0 {feed,a&amp;b&lt;c&gt;d\"e&#13;\u{10FFFF},1,0,1,2}{entry,1,a,0}{end}
$ apply 1 < title x|title y| > 0 {feed,y,1,1,2,2}{end}
$ apply 4 < add a|add b|title New|add c|add d| > 0 {feed,New,4,1,5,5}{entry,4,d,4}{end}
$ apply 4 < add a|add b|title New|add c|add d|title Next| > 0 {feed,Next,5,1,5,6}{entry,4,d,4}{end}
A member that was made before the title is changed after it.
$ apply 100 < add a|title New|window 3|remove 1| > 0 {feed,New,3,0,1,4}{gone,1,3}{end}
$ apply 2 < add a|window 3|add b|add c|add d|add e| > 0 {feed,Feed,5,2,6,6}{entry,5,e,5}{end}
A size doesn't end the open window.
$ apply 4 < add a|window 1|add b| > 0 {feed,Feed,2,0,1,3}{entry,2,b,2}{entry,1,a,0}{end}
$ apply 4 < add a|window 1|add b|add c|add d|add e| > 0 {feed,Feed,5,2,6,6}{entry,5,e,5}{end}
The last size of a window counts.
$ apply 2 < window 1|window 100|add a|add b|add c|add d| > 0 {feed,Feed,5,1,3,6}{entry,4,d,5}{entry,3,c,4}{entry,2,b,3}{entry,1,a,2}{end}
A size in a window of one operation holds from the next one on.
$ apply 1 < window 2|add a|add b| > 0 {feed,Feed,2,1,2,3}{entry,2,b,2}{entry,1,a,1}{end}
$ apply 1 < window 2|add a|window 1|add b|add c| > 0 {feed,Feed,4,3,5,5}{entry,3,c,4}{end}
The windows cut the history.
$ apply 1 < add a|add b|add c|add d|add e| > 0 {feed,Feed,4,4,5,5}{entry,5,e,4}{end}
$ apply 2 < add a|add b|add c|add d|add e| > 0 {feed,Feed,4,2,5,5}{entry,5,e,4}{end}
$ apply 3 < add a|add b|add c|add d|add e| > 0 {feed,Feed,4,1,4,5}{entry,5,e,4}{entry,4,d,3}{end}
$ apply 4 < add a|add b|add c|add d|add e| > 0 {feed,Feed,4,1,5,5}{entry,5,e,4}{end}
$ apply 5 < add a|add b|add c|add d|add e| > 0 {feed,Feed,4,0,1,5}{entry,5,e,4}{entry,4,d,3}{entry,3,c,2}{entry,2,b,1}{entry,1,a,0}{end}
$ apply 007 < add a|add b|add c|add d|add e| > 0 {feed,Feed,4,0,1,5}{entry,5,e,4}{entry,4,d,3}{entry,3,c,2}{entry,2,b,1}{entry,1,a,0}{end}
$ apply 100 < add a|add b|add c|add d|add e| > 0 {feed,Feed,4,0,1,5}{entry,5,e,4}{entry,4,d,3}{entry,3,c,2}{entry,2,b,1}{entry,1,a,0}{end}
Moments rise, whatever the clock says.
$ apply 4 < add a|add b| > 0 {feed,Feed,2023-11-14T22:13:21Z,0,1,2}{entry,2,b,2023-11-14T22:13:21Z}{entry,1,a,0}{end}
! clock 1700000000000 1700000001000
$ apply 4 < add a|add b| > 0 {feed,Feed,1,0,1,2}{entry,2,b,1}{entry,1,a,0}{end}
$ apply 4 < add a|add b| > 0 {feed,Feed,1,0,1,2}{entry,2,b,1}{entry,1,a,0}{end}
! clock 1700000000000 1699996400000
$ apply 4 < add a|add b| > 0 {feed,Feed,9999-12-31T23:59:59.999Z,0,1,2}{entry,2,b,9999-12-31T23:59:59.999Z}{entry,1,a,0}{end}
! clock 1700000000000 253402300799999
Titles of 1,024 bytes.
$ apply 4 < add longest| > 0 {feed,Feed,0,0,1,1}{entry,1,longest,0}{end}
$ apply 4 < title longest| > 0 {feed,longest,0,0,1,1}{end}
~ lines that are refused
A moment after the last one.
$ apply 4 < add a|add b| > 12 line 2 clock|
! clock 253402300799999 253402300799999
$ apply 4 < add a| > 12 line 1 clock|
! clock 253402300800000 1700000000000
$ apply 4 < add a|add b| > 12 line 2 clock|
! clock 1700000000000 18446744073709551615
$ apply 4 < add a|add| > 10 bad line 2|
! clock 253402300799999 253402300799999
$ apply 4 < add a|title b| > 12 line 2 clock|
! clock 253402300799999 253402300799999
$ apply 4 < title b|window 4| > 12 line 2 clock|
! clock 253402300799999 253402300799999
$ apply 4 < window 4| > 12 line 1 clock|
! clock 253402300800000 1700000000000
A line in another form, or of a member that is not there.
$ apply 4 < | > 10 bad line 1|
$ apply 4 < add| > 10 bad line 1|
$ apply 4 < Add a| > 10 bad line 1|
$ apply 4 < add{09}a| > 10 bad line 1|
$ apply 4 < adda| > 10 bad line 1|
$ apply 4 < add a||add b| > 10 bad line 2|
$ apply 4 < add a|add b| add c > 10 bad line 3|
$ apply 4 < add {0B}|add| > 10 bad line 1|
$ apply 4 < add a|add {FF}| > 10 bad line 2|
$ apply 4 < add a|add a{C3} > 10 bad line 2|
$ apply 4 < add a|change 1 > 10 bad line 2|
$ apply 4 < add a|change  1 x > 10 bad line 2|
$ apply 4 < add a|change 0 x > 10 bad line 2|
$ apply 4 < add a|change 01 x > 10 bad line 2|
$ apply 4 < add a|change +1 x > 10 bad line 2|
$ apply 4 < add a|change 4294967296 x > 10 bad line 2|
$ apply 4 < add a|change x 1 > 10 bad line 2|
$ apply 4 < add a|change 1 {0B} > 10 bad line 2|
$ apply 4 < add a|remove > 10 bad line 2|
$ apply 4 < add a|remove  > 10 bad line 2|
$ apply 4 < add a|remove 1  > 10 bad line 2|
$ apply 4 < add a|remove 01| > 10 bad line 2|
$ apply 4 < add a|Remove 1| > 10 bad line 2|
$ apply 4 < add a|window| > 10 bad line 2|
$ apply 4 < add a|window | > 10 bad line 2|
$ apply 4 < add a|window 0| > 10 bad line 2|
$ apply 4 < add a|window 101| > 10 bad line 2|
$ apply 4 < add a|window 01| > 10 bad line 2|
$ apply 4 < add a|window +4| > 10 bad line 2|
$ apply 4 < add a|window 4 | > 10 bad line 2|
$ apply 4 < add a|window  4| > 10 bad line 2|
$ apply 4 < add a|window 4294967297| > 10 bad line 2|
$ apply 4 < add a|window 4 x| > 10 bad line 2|
$ apply 4 < add a|window x| > 10 bad line 2|
$ apply 4 < add a|Window 4| > 10 bad line 2|
$ apply 4 < add a|title| > 10 bad line 2|
$ apply 4 < add a|Title x| > 10 bad line 2|
$ apply 4 < add a|titlex| > 10 bad line 2|
$ apply 4 < add a|title{09}x| > 10 bad line 2|
$ apply 4 < add a|title {0B}| > 10 bad line 2|
$ apply 4 < add a|title a{C3}| > 10 bad line 2|
$ apply 4 < title x|window 100|window 0 > 10 bad line 3|
$ apply 4 < title x|remove 1| > 12 line 2 not found 1|
$ apply 4 < add a|remove 1|window 1|remove 1| > 12 line 4 deleted 1|
$ apply 4 < remove 1| > 12 line 1 not found 1|
$ apply 4 < change 1 x > 12 line 1 not found 1|
$ apply 4 < add a|remove 4294967295| > 12 line 2 not found 4294967295|
$ apply 4 < add a|remove 1|remove 1| > 12 line 3 deleted 1|
$ apply 4 < add a|remove 1|change 1 b| > 12 line 3 deleted 1|
$ apply 4 < add a|remove 1|add b|remove 3| > 12 line 4 not found 3|
$ apply 4 < add a|remove 1|remove 1|add| > 12 line 3 deleted 1|
$ apply 4 < add a|change 1 b|change 1 c|remove 1|remove 1| > 12 line 5 deleted 1|
A title may have 1,024 bytes. Member 4294967295 was never made.
$ apply 4 < change 4294967295 longest > 12 line 1 not found 4294967295|
$ apply 4 < change 4294967295 longesta > 10 bad line 1|
$ apply 4 < change 4294967295 {times,512,é} > 12 line 1 not found 4294967295|
$ apply 4 < change 4294967295 {times,512,é}a > 10 bad line 1|
$ apply 4 < change 4294967295 {times,513,é} > 10 bad line 1|
$ apply 4 < change 4294967295 {times,256,😀} > 12 line 1 not found 4294967295|
$ apply 4 < change 4294967295 {times,256,😀}a > 10 bad line 1|
$ apply 4 < title longesta| > 10 bad line 1|
The ends of seven buffers of 65,536 bytes meet a line of 7 bytes at each of its bytes.
$ apply 4 < {times,65537,add ab|}remove 65537|remove 65539 > 12 line 65539 not found 65539|
";

#[test]
fn prints_documents_and_names_refused_lines(rt: HostRuntime) {
    expect_script(&rt, rt.alloc(), SCRIPT);
}
