//! `drill`. A program in Python computed the summaries from the rules of a drill.

use crate::runs::{SETTING, door_of, fresh, source_of, whole_end};
use crate::scripts::expect_script;
use feed_life::Life;

const SCRIPT: &str = "\
~ summaries
$ drill 0 1 > 0 operations 1|version 1|archives 0|stops 0|mirror stops 0|complete 1 1|live 5fa094a926c9a685f0f41fd7a4b7e10c64c1a00d8be3a06016db5cea897a38b6|
$ drill 7 60 > 0 operations 60|version 60|archives 3|stops 8|mirror stops 4|complete 60 21|live 9099b24004db0dcdc4726d7ffba01b8c185473b99a8b23b92461b71a5ffe4f60|
$ drill 18446744073709551615 35 > 0 operations 35|version 35|archives 2|stops 5|mirror stops 2|complete 35 15|live 219fc9f450c60b5f9fd9888fe813dd374381a0e283a3a3ca807ef4d852adb1cc|
$ drill 007 0060 > 0 operations 60|version 60|archives 3|stops 8|mirror stops 4|complete 60 21|live 9099b24004db0dcdc4726d7ffba01b8c185473b99a8b23b92461b71a5ffe4f60|
$ drill 7 1000 > 0 operations 1000|version 1000|archives 62|stops 142|mirror stops 66|complete 1000 253|live b95f954e46e0fa7b5a90c593265cf1314a870918bdd5cb3af1022db69e038114|
~ the output of a drill fails at once: 1 2
$ drill 0 1 > 8
! output 1
~ the output of a drill fails
$ drill 7 60 > 8
! output 1
~ no drill
$ drill 7 > 2 usage: feed_tool init, apply, show, serve, mirror, audit, drill, foreign, discover, relay, scrub|
~ another command
$ apply 4 > 0 {feed,Feed,1970-01-01T00:00:00Z,0,1,0}{end}
";

#[test]
fn a_drill_prints_its_summary(rt: HostRuntime) {
    expect_script(&rt, rt.alloc(), SCRIPT);
}

/// Whether a life sent a document after each fifth operation, up to this number of them.
fn is_sent(life: &Life, count: usize) -> bool {
    let mut version = 0u32;
    for sent in life.sent() {
        version = version.saturating_add(5);
        if sent.version != version {
            return false;
        }
    }
    life.sent().len() == count
}

/// The life of `drill 7 60`. It asks for the feed after each fifth turn, and a turn is one operation.
#[test]
fn a_drill_returns_its_life(rt: HostRuntime) {
    let alloc = rt.alloc();
    let mut disk = fresh(&rt, alloc, 0);
    let mut door = door_of(&rt, alloc, "", &SETTING);
    let mut fetch = source_of(&rt, alloc, "", &SETTING);
    let (ended, text) = whole_end(
        &rt,
        alloc,
        &mut disk,
        &mut door,
        &mut fetch,
        ("drill 7 60", b"".as_slice()),
        &SETTING,
    );
    assert!(rt; ended.status == 0 && ended.lines.as_slice().is_empty());
    let life = ended.life.as_ref().expect(&rt, "a life");
    assert!(rt; (life.version(), life.sealed()) == (60, 3) && is_sent(life, 12));
    assert!(rt; (life.stops(), life.mirror_stops()) == (8, 4));
    drop((ended, text, disk, door, fetch));
}
