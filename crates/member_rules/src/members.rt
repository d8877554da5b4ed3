ghost use Rattle.std.specs.Prelude.{◌≡◌, ◌≢◌, ◌↔◌, ◌⊎◌, ℕ, ◌+◌, ◌<◌, ◌≤◌, [], ◌∷◌, ◌++◌, List, ℤ, IsTrue, OnOk};
ghost use Rattle.std.specs.Prelude.{IfSome, MatchOption, length, option_map};
ghost use Rattle.member_rules.specs.declared.members.Member.TheVariants.{Live};
ghost use Rattle.member_rules.specs.declared.operation.Op.{Op};
ghost use Rattle.atom_values.specs.Entry.{EntryValue};
ghost use Rattle.recency_list.specs.Recency.{first_of, older_than, touched};
ghost use Rattle.member_rules.specs.Fold.{fold_of, made, last_moment, live_count, state_of};
ghost use Rattle.member_rules.specs.History.{Fits, MayFollow, history_limit};
ghost use Rattle.member_rules.specs.Member.{state_kept, edited_kept};
ghost use Rattle.member_rules.specs.Recent.{recent_members};
ghost use Rattle.member_rules.specs.Table.{HasMember, IsTableOf, MayCommit};

use crate::operation::Op;
use crate::state::State;
use atom_values::{Entry, NoMemory, Stamp};
use recency_list::{Recency, Steps};
use std::alloc::Global;
use std::marker::{Brand, Model};

/// The most operations of a history.
pub const HISTORY_LIMIT: u32 = 4_294_967_294;

/// The table of all members after a list of operations, and the moment of the last one. It is changed in place.
/// Members are numbered from 1, in the order in which they were made.
///
/// The table keeps no operations. So its contracts speak of each history that it is the table of.
#[derive(Debug, Drop)]
pub struct Members {
    members: Vec<Member>,
    /// The members by their last operations. A member's slot is its number, so slot 0 is never listed.
    order: Recency,
    last: Stamp,
    live: u32,
    operations: u32,
}

/// What the table keeps of a member.
#[derive(Clone, Copy, Debug)]
enum Member {
    /// It has an entry, which the operation `version` set.
    Live {
        // The first field, so that it takes the place behind the variant's tag and a member has 24 bytes.
        version: u32,
        updated: Stamp,
        edited: Stamp,
    },
    /// It was deleted at this moment.
    Gone {
        when: Stamp,
    },
}

impl Member {
    /// The member whose entry the operation `version` set.
    fn live(version: u32, entry: &Entry) -> Member
        ensures { result ≡ Live version entry.now.updated entry.now.edited }
    {
        Member::Live {
            version,
            updated: entry.updated,
            edited: entry.edited,
        }
    }

    /// Its state.
    fn state(self) -> State
        ensures { result ≡ state_kept self }
    {
        match self {
            Member::Live {
                version,
                updated,
                ..
            } => State::Live { updated, version },
            Member::Gone { when } => State::Gone { when },
        }
    }

    /// The `edited` of its entry, if it is live.
    fn edited(self) -> Option<Stamp>
        ensures { result ≡ edited_kept self }
    {
        match self {
            Member::Live { edited, .. } => Some(edited),
            Member::Gone { .. } => None,
        }
    }
}

impl Model for Members {
    ghost use Rattle.std.specs.Prelude.{◌-◌, map, min, vec_len, vec_capacity};
    ghost use Rattle.member_rules.specs.Member.{state_kept, edited_kept};
    ghost use Rattle.member_rules.specs.Table.{Table, AreCounts, AreOrdered};

    ghost Value = { Table };

    ghost view = { λ m. record {
      states = map state_kept m.members.items;
      edited = map edited_kept m.members.items;
      recent = m.order.list;
      last = m.last;
      live = m.live;
      operations = m.operations;
      spare = min (vec_capacity m.members - vec_len m.members) (m.order.slots - 1 - vec_len m.members);
    } };

    ghost invariant = { λ m. AreCounts (vec_len m.members) m.live m.operations
        × AreOrdered (vec_len m.members) m.order };
}

impl Members {
    /// The table of the empty history of a feed that was made at this moment. It takes no memory.
    pub fn new(alloc: Global, created: Stamp) -> Members
        ensures table { IsTableOf result created [] }
        ensures empty { result.operations ≡ 0 }
    {
        Members {
            members: Vec::new(alloc),
            order: Recency::new(alloc),
            last: created,
            live: 0,
            operations: 0,
        }
    }

    /// The state of the member with this number.
    pub fn state(&self, number: u32) -> State
        ensures state { (created : ℤ) (history : List Op) → IsTableOf self.now created history
            → result ≡ state_of history number }
        ensures from_one { result ≢ State.Never → 1 ≤ number }
    {
        match self.member(number) {
            Some(member) => member.state(),
            None => State::Never,
        }
    }

    /// What the table keeps of the member with this number, if that was made.
    fn member(&self, number: u32) -> Option<Member>
        ensures { MatchOption result ((number ≡ 0) ⊎ (length self.now.states < number))
            (λ member. HasMember self.now number (state_kept member) (edited_kept member)) }
    {
        let at = number.checked_sub(1)?;
        self.members.get(at as usize).copied()
    }

    /// The `edited` of the entry of the member with this number, if it is live.
    pub fn edited(&self, number: u32) -> Option<Stamp>
        ensures { (created : ℤ) (history : List Op) → IsTableOf self.now created history
            → result ≡ option_map (λ (entry : EntryValue). entry.edited) ((fold_of history).live number) }
    {
        self.member(number)?.edited()
    }

    /// The member whose last operation is the newest, or `None` if no member was made.
    pub fn newest(&self) -> Option<u32>
        ensures { (created : ℤ) (history : List Op) → IsTableOf self.now created history
            → result ≡ first_of (recent_members history) }
    {
        self.order.front()
    }

    /// The member whose last operation comes next before that of the member with this number. `None` after the oldest
    /// one, and for a number that no member has. So `newest` and `before` give all members.
    pub fn before(&self, number: u32) -> Option<u32>
        ensures { (created : ℤ) (history : List Op) → IsTableOf self.now created history
            → result ≡ older_than number (recent_members history) }
    {
        if number == 0 || number as usize > self.members.len() {
            return None;
        }
        self.order.older(number)
    }

    /// The moment of the last operation, or the one when the feed was made if there is none.
    pub fn last_moment(&self) -> Stamp
        ensures last { (created : ℤ) (history : List Op) → IsTableOf self.now created history
            → result ≡ last_moment created history }
        ensures value { result ≡ self.now.last }
    {
        self.last
    }

    /// How many members were made, those that are deleted included.
    pub fn count(&self) -> u32
        ensures made { (created : ℤ) (history : List Op) → IsTableOf self.now created history
            → result ≡ made history }
        ensures few { result ≤ self.now.operations }
    {
        self.members.len() as u32
    }

    /// How many members are live.
    pub fn live_count(&self) -> u32
        ensures { (created : ℤ) (history : List Op) → IsTableOf self.now created history
            → result ≡ live_count history }
    {
        self.live
    }

    /// Whether the operation may follow the history, which `commit` requires. It may where it is later than the last
    /// operation and its member is as it has to be: a new member has the next number, a changed one is live and its
    /// `updated` doesn't go back, and a removed one is live and its tombstone has the later of the moment and its
    /// `updated`. A change of a setting names no member.
    pub fn may_follow(&self, operation: &Op) -> bool
        ensures exact { (created : ℤ) (history : List Op) → IsTableOf self.now created history
            → (IsTrue result ↔ MayFollow created history operation.now) }
        ensures commits { IsTrue result → (created : ℤ) (history : List Op)
            → IsTableOf self.now created history → MayCommit self.now operation.now }
    {
        operation.moment() > self.last && self.fits(operation)
    }

    /// Whether the operation's member is as it has to be. Moments are left to `may_follow`.
    fn fits(&self, operation: &Op) -> bool
        ensures { (created : ℤ) (history : List Op) → IsTableOf self.now created history
            → (IsTrue result ↔ Fits history operation.now) }
    {
        match operation {
            Op::Add(entry) => entry.number - 1 == self.count(),
            Op::Change(entry) => match self.state(entry.number) {
                State::Live { updated, .. } => updated <= entry.updated,
                State::Never | State::Gone { .. } => false,
            },
            Op::Remove(removal) => match self.state(removal.tombstone.number) {
                State::Live { updated, .. } => removal.tombstone.when
                    == removal.moment.max(updated),
                State::Never | State::Gone { .. } => false,
            },
            Op::Set { .. } => true,
        }
    }

    /// Makes room for one more operation. It answers `NoMemory` where memory ran out, and where no number is left for a
    /// member. Then nothing changed but the room.
    pub fn prepare(&mut self) -> Result<(), NoMemory>
        ensures room { OnOk result (1 ≤ self.new.spare) }
        ensures same { self.new ≡ record self.old { spare = self.new.spare } }
        ensures spare { self.old.spare ≤ self.new.spare }
    {
        let slots = (self.members.len() as u32).checked_add(2).ok_or(NoMemory)?;
        self.members.reserve(1)?;
        self.order.reserve(slots)
    }

    /// Adds an operation to the table, in the room that `prepare` made. It takes no memory, and the same time however
    /// many members there are.
    pub fn commit(&mut self, operation: &Op)
        requires room { 1 ≤ self.old.spare }
        requires few { self.old.operations < history_limit }
        requires follows { MayCommit self.old operation.now }
        ensures table { (created : ℤ) (history : List Op) → IsTableOf self.old created history
            → IsTableOf self.new created (history ++ operation.now ∷ []) }
        ensures counted { self.new.operations ≡ self.old.operations + 1 }
    {
        self.last = operation.moment();
        self.operations += 1;
        move_to_front(&mut self.order, operation.member());
        let version = self.operations;
        match operation {
            Op::Add(entry) => {
                self.live += 1;
                self.members.push(Member::live(version, entry)).unwrap();
            }
            Op::Change(entry) => {
                self.members[entry.number as usize - 1] = Member::live(version, entry);
            }
            Op::Remove(removal) => {
                self.live -= 1;
                let when = removal.tombstone.when;
                self.members[removal.tombstone.number as usize - 1] = Member::Gone { when };
            }
            Op::Set { .. } => {}
        }
    }
}

/// Moves the member to the front of the order, if there is one.
fn move_to_front(order: &mut Recency, member: Option<u32>)
    requires { IfSome member (λ number. number < order.old.slots) }
    ensures { MatchOption member (order.new ≡ order.old)
        (λ number. order.new ≡ record order.old { list = touched number order.old.list }) }
{
    if let Some(number) = member {
        let mut steps = Steps::<Brand>::new();
        order.touch(number, &mut steps);
    }
}
