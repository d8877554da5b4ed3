ghost use Rattle.std.specs.Prelude.{◌≡◌, ◌≤◌, All, IfOk, OnOk, ℕ, suc};
ghost use Rattle.feed_drill.specs.Drilled.{IsDrilled, operations};
ghost use Rattle.feed_drill.specs.Effects.{IsLived, IsReached, IsWalked};
ghost use Rattle.feed_drill.specs.Summary.{summary_of};
ghost use Rattle.member_rules.specs.Head.{HeadValue};

use crate::course::Course;
use crate::offer::feed_mirror;
use crate::summary::{Drill, Summary};
use crate::turn::have_turn;
use atom_values::NoMemory;
use feed_life::{Event, Life};
use member_rules::Head;
use std::alloc::Global;

/// A turn: its request, and after each fifth one an offer of the feed's document.
fn have_whole_turn(
    alloc: Global,
    life: &mut Life,
    course: &mut Course,
    head: &Head,
    turn: u32,
) -> Result<(), NoMemory>
    requires { All (λ number. 1 ≤ number) course.old.live }
    ensures { OnOk result ((seed count : ℕ) → IsReached head.now seed count life.old course.old
        → suc count ≡ turn → IsReached head.now seed turn life.new course.new) }
{
    have_turn(alloc, life, course, head, turn)?;
    if turn % 5 != 0 {
        return Ok(());
    }
    feed_mirror(alloc, life, head, turn)
}

/// Has the turns of a drill up to the number `count`.
fn have_turns(
    alloc: Global,
    life: &mut Life,
    head: &Head,
    seed: u64,
    count: u32,
) -> Result<(), NoMemory>
    requires { IsLived head.now seed 0 life.old }
    ensures { OnOk result (IsLived head.now seed count life.new) }
{
    let mut course = Course::new(alloc, seed);
    for before in 0..count {
        let Ok(()) = have_whole_turn(alloc, life, &mut course, head, before + 1) else {
            drop(course);
            return Err(NoMemory);
        };
    }
    drop(course);
    Ok(())
}

/// The mirror walks over the documents of the store.
fn walk(life: &mut Life) -> Result<(), NoMemory>
    ensures { OnOk result ((head : HeadValue) (seed count : ℕ) → IsLived head seed count life.old
        → IsWalked head seed count life.new) }
{
    life.step(Event::Walk {
        mirror: 0,
        stop: None,
    })?;
    Ok(())
}

/// The summary of a life that had `count` turns. Its values are those of the life and of its mirror's certificate.
fn summarize(life: &mut Life, head: &Head, seed: u64, count: u32) -> Result<Summary, NoMemory>
    requires { IsWalked head.now seed count life.old }
    ensures drilled { OnOk result (IsDrilled head.now seed count life.new) }
    ensures summary { IfOk result (λ summary.
        summary ≡ summary_of head.now (operations head.now seed count) count) }
{
    // A mirror that walked over the documents is complete, if its area isn't full.
    let Some(certificate) = life.certificate(0)? else {
        return Err(NoMemory);
    };
    let complete = certificate.version;
    let live_count = certificate.live_count;
    let live_digest = certificate.live_digest;
    drop(certificate);
    if complete != count {
        return Err(NoMemory);
    }
    Ok(Summary {
        operations: count,
        version: life.version(),
        archives: life.sealed(),
        stops: life.stops(),
        mirror_stops: life.mirror_stops(),
        complete,
        live_count,
        live_digest,
    })
}

/// Has a drill: a life of a feed with this head and of one mirror, with the turns 1 to `count` that the seed gives. The
/// mirror then walks. The life goes through the events of `drill_events`, in order.
///
/// `NoMemory`: memory ran out, or an area of a disk is full. No clause says that there is no other cause.
pub fn drill(alloc: Global, head: &Head, seed: u64, count: u32) -> Result<Drill, NoMemory>
    ensures drilled { IfOk result (λ drill. IsDrilled head.now seed count drill.life) }
    ensures summary { IfOk result (λ drill.
        drill.summary ≡ summary_of head.now (operations head.now seed count) count) }
{
    let mut life = Life::new(alloc, head, 1)?;
    let Ok(()) = have_turns(alloc, &mut life, head, seed, count) else {
        drop(life);
        return Err(NoMemory);
    };
    let Ok(()) = walk(&mut life) else {
        drop(life);
        return Err(NoMemory);
    };
    let Ok(summary) = summarize(&mut life, head, seed, count) else {
        drop(life);
        return Err(NoMemory);
    };
    Ok(Drill { life, summary })
}
