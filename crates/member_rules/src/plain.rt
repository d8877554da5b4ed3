ghost use Rattle.std.specs.Prelude.{◌≡◌, ◌≤◌, length};
ghost use Rattle.member_rules.specs.Fold.{Fold, after_operation, fold_of, made, last_moment, last_naming};
ghost use Rattle.member_rules.specs.Fold.{live_count, state_of, updated_of};
ghost use Rattle.member_rules.specs.History.{history_limit};

use crate::operation::Op;
use crate::state::State;
use atom_values::Stamp;

/// The state of the member with this number after the operations. It reads each of them, so it is a plain form that
/// [`crate::Members::state`] is tested against.
#[tactic(auto, unfolding(crate::specs::Fold::state_of))]
pub fn plain_state(history: &[Op], number: u32) -> State
    requires { length history.now ≤ history_limit }
    ensures { result ≡ state_of history.now number }
{
    match (plain_gone(history, number), plain_live(history, number)) {
        (Some(when), _) => State::Gone { when },
        (None, Some(updated)) => State::Live {
            updated,
            version: plain_version(history, number),
        },
        (None, None) => State::Never,
    }
}

/// The `updated` of the member's entry, if it has one.
fn plain_live(history: &[Op], number: u32) -> Option<Stamp>
    ensures { result ≡ updated_of ((fold_of history.now).live number) }
{
    let mut live = None;
    for operation in history {
        live = live_after(live, operation, number);
    }
    live
}

/// The `updated` after one more operation.
fn live_after(live: Option<Stamp>, operation: &Op, number: u32) -> Option<Stamp>
    ensures { (members : Fold) → live ≡ updated_of (members.live number)
        → result ≡ updated_of ((after_operation members operation.now).live number) }
{
    if operation.member() != Some(number) {
        return live;
    }
    match operation {
        Op::Add(entry) | Op::Change(entry) => Some(entry.updated),
        Op::Remove(_) => None,
        Op::Set { .. } => live,
    }
}

/// The moment when the member was deleted, if it was.
fn plain_gone(history: &[Op], number: u32) -> Option<Stamp>
    ensures { result ≡ (fold_of history.now).gone number }
{
    let mut gone = None;
    for operation in history {
        gone = gone_after(gone, operation, number);
    }
    gone
}

/// The moment of deletion after one more operation.
fn gone_after(gone: Option<Stamp>, operation: &Op, number: u32) -> Option<Stamp>
    ensures { (members : Fold) → gone ≡ members.gone number
        → result ≡ (after_operation members operation.now).gone number }
{
    match operation {
        Op::Remove(removal) if removal.tombstone.number == number => Some(removal.tombstone.when),
        Op::Add(_) | Op::Change(_) | Op::Remove(_) | Op::Set { .. } => gone,
    }
}

/// The operation, counted from 1, that last named the member, or 0.
fn plain_version(history: &[Op], number: u32) -> u32
    requires { length history.now ≤ history_limit }
    ensures { result ≡ last_naming number history.now }
{
    let mut version = 0;
    for (at, operation) in history.iter().enumerate() {
        if operation.member() == Some(number) {
            version = at as u32 + 1;
        }
    }
    version
}

/// How many members the operations make.
pub fn plain_count(history: &[Op]) -> u32
    requires { length history.now ≤ history_limit }
    ensures { result ≡ made history.now }
{
    let mut count = 0;
    for operation in history {
        if let Op::Add(_) = operation {
            count += 1;
        }
    }
    count
}

/// How many members are live after the operations.
pub fn plain_live_count(history: &[Op]) -> u32
    requires { length history.now ≤ history_limit }
    ensures { result ≡ live_count history.now }
{
    let mut live = 0;
    for before in 0..plain_count(history) {
        if plain_live(history, before + 1).is_some() {
            live += 1;
        }
    }
    live
}

/// The moment of the last operation, or the one when the feed was made if there is none.
pub fn plain_last_moment(created: Stamp, history: &[Op]) -> Stamp
    ensures { result ≡ last_moment created history.now }
{
    match history.last() {
        Some(operation) => operation.moment(),
        None => created,
    }
}
