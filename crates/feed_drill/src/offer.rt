ghost use Rattle.std.specs.Prelude.{◌≡◌, ◌<◌, ◌∷◌, [], suc, List, IfOk, None, OnOk, Some, length};
ghost use Rattle.atom_values.specs.Counts.{counted};
ghost use Rattle.feed_drill.specs.Effects.{IsFed, IsOffered, IsShownFeed};
ghost use Rattle.feed_drill.specs.Requests.{offer_crash};
ghost use Rattle.feed_drill.specs.Turn.{clock_at};
ghost use Rattle.feed_life.specs.Events.{with_stop};
ghost use Rattle.feed_life.specs.Life.{Lives};
ghost use Rattle.feed_life.specs.declared.event.Event.TheVariants.{Give};
ghost use Rattle.member_rules.specs.declared.operation.Op.{Op as Operation};
ghost use Rattle.mirror_walk.specs.Holding.{KeptValue};

use crate::request::show_request;
use crate::turn::clock;
use atom_values::NoMemory;
use feed_disk::Choice;
use feed_life::{Event, Life, Stop};
use member_rules::Head;
use std::alloc::Global;

/// Asks for the feed's document.
fn show(alloc: Global, life: &mut Life, head: &Head, turn: u32) -> Result<(), NoMemory>
    ensures { OnOk result ((history : List Operation) (held : List (List KeptValue))
        → Lives life.old history held → life.old.head ≡ head.now
        → IsShownFeed life.old life.new (clock_at turn) history held) }
{
    let request = show_request(alloc, &head.name.base)?;
    life.step(Event::Ask {
        request,
        now: clock(turn),
        stop: None,
    })?;
    Ok(())
}

/// Offers a document that was sent to the mirror.
fn offer(life: &mut Life, sent: u32, stop: Option<Stop>) -> Result<(), NoMemory>
    ensures { OnOk result ((history : List Operation) (kept : List KeptValue)
        → Lives life.old history (kept ∷ []) → sent < length life.old.sent
        → IsOffered life.old life.new history kept (with_stop stop life.old.mirror_stops)
        (Give 0 sent stop ∷ [])) }
{
    life.step(Event::Give {
        mirror: 0,
        sent,
        stop,
    })?;
    Ok(())
}

/// The place of the document that was sent last.
fn last_sent(life: &Life) -> Result<u32, NoMemory>
    ensures { IfOk result (λ sent. suc sent ≡ length life.now.sent) }
{
    let Some(last) = life.sent().len().checked_sub(1) else {
        return Err(NoMemory);
    };
    // Fewer documents than 2^32 were sent.
    u32::try_from(last).map_err(|_| NoMemory)
}

/// Offers a document with a crash within the first device call, and again.
fn offer_again(life: &mut Life, sent: u32) -> Result<(), NoMemory>
    ensures { OnOk result ((history : List Operation) (kept : List KeptValue)
        → Lives life.old history (kept ∷ []) → sent < length life.old.sent
        → IsOffered life.old life.new history kept (counted life.old.mirror_stops)
        (Give 0 sent (Some offer_crash) ∷ Give 0 sent None ∷ [])) }
{
    let stop = Stop {
        call: 1,
        choice: Choice::Old,
    };
    offer(life, sent, Some(stop))?;
    offer(life, sent, None)
}

/// Asks for the feed's document, and offers it to the mirror. Each third offer has a crash, and is made again.
pub(crate) fn feed_mirror(
    alloc: Global,
    life: &mut Life,
    head: &Head,
    turn: u32,
) -> Result<(), NoMemory>
    ensures { OnOk result ((history : List Operation) (kept : List KeptValue)
        → Lives life.old history (kept ∷ []) → life.old.head ≡ head.now
        → IsFed life.old life.new turn history kept) }
{
    show(alloc, life, head, turn)?;
    let last = last_sent(life)?;
    if turn % 15 == 0 {
        offer_again(life, last)
    } else {
        offer(life, last, None)
    }
}
