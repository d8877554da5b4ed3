ghost use Rattle.std.specs.Prelude.{◌≡◌, ◌≤◌, suc, All, List, None, OnOk, length};
ghost use Rattle.feed_drill.specs.Drilled.{Drilled};
ghost use Rattle.feed_drill.specs.Effects.{IsCrashed, IsDone, IsTurned, IsWish, ask_of, course_of};
ghost use Rattle.feed_drill.specs.Turn.{clock_at};
ghost use Rattle.feed_life.specs.Life.{Lives};
ghost use Rattle.member_rules.specs.declared.operation.Op.{Op as Operation};
ghost use Rattle.mirror_walk.specs.Holding.{KeptValue};

use crate::course::Course;
use crate::request::wish_request;
use crate::wish::{Wish, draw_stop, draw_wish};
use atom_values::NoMemory;
use feed_life::{Event, Life, Stop};
use member_rules::Head;
use std::alloc::Global;

/// The clock of a turn, in milliseconds since 1970.
pub(crate) fn clock(turn: u32) -> u64
    ensures { result ≡ clock_at turn }
{
    1_700_000_000_000 + 1_000 * u64::from(turn)
}

/// Makes the request of a turn, which gains its operation.
fn ask(alloc: Global, life: &mut Life, head: &Head, turn: u32, wish: Wish) -> Result<(), NoMemory>
    requires { IsWish wish }
    ensures { OnOk result ((history : List Operation) (held : List (List KeptValue))
        → Lives life.old history held → life.old.head ≡ head.now → suc (length history) ≡ turn
        → IsDone life.old life.new turn (ask_of turn wish) (clock_at turn) None history held) }
{
    let request = wish_request(alloc, &head.name.base, turn, wish)?;
    life.step(Event::Ask {
        request,
        now: clock(turn),
        stop: None,
    })?;
    // Each request of a drill is accepted, if the disk has room.
    if life.version() != turn {
        return Err(NoMemory);
    }
    Ok(())
}

/// Makes the request of a turn with a crash.
fn crash(
    alloc: Global,
    life: &mut Life,
    head: &Head,
    turn: u32,
    wish: Wish,
    stop: Stop,
) -> Result<(), NoMemory>
    requires { IsWish wish }
    ensures { OnOk result ((history : List Operation) (held : List (List KeptValue))
        → Lives life.old history held → life.old.head ≡ head.now
        → IsCrashed life.old life.new turn (ask_of turn wish) (clock_at turn) stop history held) }
{
    let request = wish_request(alloc, &head.name.base, turn, wish)?;
    life.step(Event::Ask {
        request,
        now: clock(turn),
        stop: Some(stop),
    })?;
    Ok(())
}

/// Makes the request of a turn with its crash, if it has one. If the crash left the history without the operation, the
/// request is made again.
fn make(
    alloc: Global,
    life: &mut Life,
    head: &Head,
    turn: u32,
    wish: Wish,
    stop: Option<Stop>,
) -> Result<(), NoMemory>
    requires { IsWish wish }
    ensures { OnOk result ((history : List Operation) (held : List (List KeptValue))
        → Lives life.old history held → life.old.head ≡ head.now → suc (length history) ≡ turn
        → IsDone life.old life.new turn (ask_of turn wish) (clock_at turn) stop history held) }
{
    if let Some(stop) = stop {
        crash(alloc, life, head, turn, wish, stop)?;
        if life.version() == turn {
            return Ok(());
        }
    }
    ask(alloc, life, head, turn, wish)
}

/// Draws a turn and makes its request.
pub(crate) fn have_turn(
    alloc: Global,
    life: &mut Life,
    course: &mut Course,
    head: &Head,
    turn: u32,
) -> Result<(), NoMemory>
    requires { All (λ number. 1 ≤ number) course.old.live }
    ensures { OnOk result ((before : Drilled) (held : List (List KeptValue))
        → Lives life.old before.history held → life.old.head ≡ head.now → course.old ≡ course_of before
        → suc (length before.history) ≡ turn
        → IsTurned life.old life.new course.new head.now turn before held) }
{
    let wish = draw_wish(&mut course.draws, course.live.as_slice());
    let stop = if turn % 7 == 0 {
        Some(draw_stop(&mut course.draws))
    } else {
        None
    };
    make(alloc, life, head, turn, wish, stop)?;
    course.note(wish)
}
