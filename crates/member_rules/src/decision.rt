ghost use Rattle.std.specs.Prelude.{◌≡◌, ℕ, ◌<◌, ◌≤◌, [], ◌∷◌, ◌++◌, List, ℤ, length, nat_lt, int_lt};
ghost use Rattle.std.specs.Prelude.{if◌then◌else◌, IfOk, OnOk, IsOkAnd, MatchResult};
ghost use Rattle.atom_writer.specs.declared.doc.FeedName.{FeedName};
ghost use Rattle.atom_values.specs.Entry.{IsEntry};
ghost use Rattle.atom_writer.specs.Pieces.{entry_piece};
ghost use Rattle.member_rules.specs.declared.operation.Op.{Op};
ghost use Rattle.member_rules.specs.Head.{HeadValue};
ghost use Rattle.member_rules.specs.Operation.{KeepsEntry};
ghost use Rattle.member_rules.specs.Setting.{IsSetting};
ghost use Rattle.member_rules.specs.History.{IsLawful, MayFollow, entry_limit, history_limit};
ghost use Rattle.member_rules.specs.Decide as decision;
ghost use Rattle.member_rules.specs.Table.{IsTableOf};

use crate::ask::Ask;
use crate::fault::RuleFault;
use crate::members::Members;
use crate::operation::{Op, Removal};
use crate::setting::Setting;
use crate::state::State;
use atom_values::{AtomText, Draft, Entry, Stamp};
use atom_writer::{FeedName, entry_len};
use deleted_entries::{Tombstone, id_of};

/// The most bytes that an entry's piece of a document may have.
pub const ENTRY_LIMIT: u64 = 394_240;

/// The operation that the ask becomes, with the clock at `now` milliseconds since 1970 (RFC 5023 sections 9.2 to 9.4).
/// Its moment is the clock's, but always later than the last operation's. It takes no memory. A change of a setting is
/// refused by `ClockSpent` alone.
///
/// The error is the first of these that fits:
///
/// - `NotFound`: no member with that number was made.
/// - `Deleted`: the member is deleted.
/// - `OtherId`: the draft that replaces the member's entry has another identifier than the member.
/// - `ClockSpent`: the moment would be past the greatest stamp.
/// - `TooLarge`: the entry's piece of a document would have more than [`ENTRY_LIMIT`] bytes.
pub fn decide(members: &Members, name: &FeedName, ask: Ask, now: u64) -> Result<Op, RuleFault>
    requires { members.now.operations < history_limit }
    // The answer, or the first refusal that fits, with its numbers.
    ensures decision { (created : ℤ) (history : List Op) → IsTableOf members.now created history
        → result ≡ decision.decide name.now created history ask now }
    // The operation may follow the history, which stays lawful with it.
    ensures follows { IfOk result (λ operation. (created : ℤ) (history : List Op)
        → IsTableOf members.now created history → MayFollow created history operation) }
    ensures lawful { IfOk result (λ operation. (head : HeadValue) (history : List Op) → head.name ≡ name.now
        → IsTableOf members.now head.created history → IsLawful head history
        → IsLawful head (history ++ operation ∷ [])) }
{
    match ask {
        Ask::Create(draft) => create(members, name, draft, now),
        Ask::Replace { number, draft } => replace(members, name, number, draft, now),
        Ask::Delete { number } => delete(members, number, now),
        Ask::Change(setting) => change(members, setting, now),
    }
}

/// The operation that makes the next member.
fn create(members: &Members, name: &FeedName, draft: Draft, now: u64) -> Result<Op, RuleFault>
    requires { members.now.operations < history_limit }
    ensures decision { (created : ℤ) (history : List Op) → IsTableOf members.now created history
        → result ≡ decision.decide name.now created history (Ask.Create draft) now }
    ensures entry { IfOk result KeepsEntry }
{
    let moment = next_moment(members.last_moment(), now)?;
    let entry = draft.normal(members.count() + 1, moment, None);
    refuse_large(name, &entry).and(Ok(Op::Add(entry)))
}

/// The operation that replaces the member's entry.
fn replace(
    members: &Members,
    name: &FeedName,
    number: u32,
    mut draft: Draft,
    now: u64,
) -> Result<Op, RuleFault>
    ensures decision { (created : ℤ) (history : List Op) → IsTableOf members.now created history
        → result ≡ decision.decide name.now created history (Ask.Replace number draft) now }
    ensures entry { IfOk result KeepsEntry }
{
    let (stored, moment) = moments(members, name, number, draft.id.take(), now)?;
    let entry = draft.normal(number, moment, Some(stored));
    refuse_large(name, &entry).and(Ok(Op::Change(entry)))
}

/// The `updated` of the member's entry, and the moment of the operation that replaces it by a draft with this
/// identifier.
fn moments(
    members: &Members,
    name: &FeedName,
    number: u32,
    id: Option<AtomText>,
    now: u64,
) -> Result<(Stamp, Stamp), RuleFault>
    ensures moments { (created : ℤ) (history : List Op) → IsTableOf members.now created history
        → result ≡ decision.moments name.now created history number id now }
    ensures counted { OnOk result (1 ≤ number) }
{
    let stored = live_updated(members, number)?;
    refuse_other(name, number, id)?;
    let moment = next_moment(members.last_moment(), now)?;
    Ok((stored, moment))
}

/// The operation that removes the member.
fn delete(members: &Members, number: u32, now: u64) -> Result<Op, RuleFault>
    ensures decision { (name : FeedName) (created : ℤ) (history : List Op)
        → IsTableOf members.now created history
        → result ≡ decision.decide name created history (Ask.Delete number) now }
    ensures entry { IfOk result KeepsEntry }
{
    let stored = live_updated(members, number)?;
    let moment = next_moment(members.last_moment(), now)?;
    let when = moment.max(stored);
    let tombstone = Tombstone { number, when };
    Ok(Op::Remove(Removal { tombstone, moment }))
}

/// The operation that changes the setting.
fn change(members: &Members, setting: Setting, now: u64) -> Result<Op, RuleFault>
    ensures decision { (name : FeedName) (created : ℤ) (history : List Op)
        → IsTableOf members.now created history
        → result ≡ decision.decide name created history (Ask.Change setting) now }
    ensures entry { IfOk result KeepsEntry }
{
    show_rules(&setting);
    let moment = next_moment(members.last_moment(), now)?;
    Ok(Op::Set { setting, moment })
}

/// Shows that the setting keeps the rules of its types, which the calls here state. It changes nothing.
fn show_rules(setting: &Setting)
    ensures { IsSetting setting.now }
{
    match setting {
        Setting::Title(title) => {
            let _text = title.text();
        }
        Setting::Window(size) => {
            let _operations = size.get();
        }
    }
}

/// The `updated` of the member's entry. It refuses by `NotFound` a member that was never made, and by `Deleted` one
/// that is deleted.
fn live_updated(members: &Members, number: u32) -> Result<Stamp, RuleFault>
    ensures entry { (created : ℤ) (history : List Op) → IsTableOf members.now created history
        → let entry = decision.live_entry history number in
        MatchResult result (λ updated. IsOkAnd entry (λ stored. stored.updated ≡ updated))
        (λ fault. entry ≡ Err fault) }
    ensures counted { OnOk result (1 ≤ number) }
{
    match members.state(number) {
        State::Never => Err(RuleFault::NotFound { number }),
        State::Live { updated, .. } => Ok(updated),
        State::Gone { when } => Err(RuleFault::Deleted { number, when }),
    }
}

/// Refuses by `OtherId` a draft's identifier that isn't the member's.
fn refuse_other(name: &FeedName, number: u32, id: Option<AtomText>) -> Result<(), RuleFault>
    requires { 1 ≤ number }
    ensures { result ≡ decision.unless_other name.now number id }
{
    let Some(given) = id else {
        return Ok(());
    };
    if given.bytes() == id_of(&name.id, number).as_slice() {
        Ok(())
    } else {
        Err(RuleFault::OtherId { number, given })
    }
}

/// The moment of the next operation: the clock's, but always later than the last one. It refuses by `ClockSpent`.
fn next_moment(last: Stamp, now: u64) -> Result<Stamp, RuleFault>
    ensures { result ≡ (if int_lt decision.greatest_moment (decision.later_moment last now)
        then Err (RuleFault.ClockSpent last now) else Ok (decision.later_moment last now)) }
{
    let after = last.millis() + 1;
    let clock = i64::try_from(now).unwrap_or(i64::MAX);
    match Stamp::new(clock.max(after)) {
        Some(moment) => Ok(moment),
        None => Err(RuleFault::ClockSpent { last, now }),
    }
}

/// Refuses by `TooLarge` an entry whose piece of a document is too long.
fn refuse_large(name: &FeedName, entry: &Entry) -> Result<(), RuleFault>
    ensures size { let size = length (entry_piece name.now entry.now) in
        result ≡ (if nat_lt entry_limit size then Err (RuleFault.TooLarge size) else Ok tt) }
    // `entry_len` walks the entry, and so knows what its type keeps.
    ensures rules { IsEntry entry.now }
{
    let length = entry_len(name, entry);
    if length > ENTRY_LIMIT {
        Err(RuleFault::TooLarge { length })
    } else {
        Ok(())
    }
}
