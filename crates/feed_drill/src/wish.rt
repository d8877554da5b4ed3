ghost use Rattle.std.specs.Prelude.{◌≡◌, ◌≤◌, ℕ, All};
ghost use Rattle.feed_drill.specs.Draws.{drawn};
ghost use Rattle.feed_drill.specs.Effects.{IsWish, ask_of};
ghost use Rattle.feed_drill.specs.Turn.{asked, crash_after};

use crate::draws::Draws;
use feed_disk::Choice;
use feed_life::Stop;

/// The change that a turn asks for. The title of an entry is that of the turn.
#[derive(Clone, Copy, Debug)]
pub(crate) enum Wish {
    /// A new member.
    Create,
    /// Another entry for the member with this number.
    Replace(u32),
    /// The deletion of the member with this number.
    Delete(u32),
}

/// Draws the change that a turn asks for, by the live members.
pub(crate) fn draw_wish(draws: &mut Draws, live: &[u32]) -> Wish
    ensures asked { (turn : ℕ) → asked live.now turn draws.old
        ≡ record { ask = ask_of turn result; state = draws.new } }
    ensures member { All (λ number. 1 ≤ number) live.now → IsWish result }
{
    let first = draws.draw();
    if live.is_empty() || first % 4 < 2 {
        return Wish::Create;
    }
    let place = draws.draw() as usize % live.len();
    let member = live[place];
    if first % 4 == 2 {
        Wish::Replace(member)
    } else {
        Wish::Delete(member)
    }
}

/// Draws the crash within a turn's request.
pub(crate) fn draw_stop(draws: &mut Draws) -> Stop
    ensures stop { result ≡ crash_after draws.old }
    ensures next { draws.new ≡ drawn (drawn draws.old) }
{
    let call = 1 + draws.draw() % 4;
    let choice = match draws.draw() % 3 {
        0 => Choice::Old,
        1 => Choice::New,
        _ => Choice::Fill(165),
    };
    Stop {
        call: u64::from(call),
        choice,
    }
}
