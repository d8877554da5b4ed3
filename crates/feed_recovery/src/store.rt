ghost use Rattle.std.specs.Prelude.{◌≡◌, ◌↔◌, false, length, IsTrue};
ghost use Rattle.feed_journal.specs.Log.{IsLog};
ghost use Rattle.feed_recovery.specs.Documents.{sealed_count};
ghost use Rattle.feed_recovery.specs.Prepare.{IsMissing};
ghost use Rattle.feed_recovery.specs.Store.{call_count, is_spent};
ghost use Rattle.member_rules.specs.Documents.{name_of};
ghost use Rattle.member_rules.specs.Fold.{state_of};
ghost use Rattle.member_rules.specs.Table.{IsTableOf};

use crate::places::Places;
use archive_sealer::Window;
use atom_values::{AtomText, Bytes};
use feed_journal::{Frames, Log};
use member_rules::{Head, Members, State};
use std::alloc::Global;
use std::marker::Model;

/// A feed's store: the head, the table of its members, the open window, and the logs of the journal and of the seals.
/// It holds neither its disk, which is lent to each call that reaches it, nor the operations, which are in the journal.
/// So it takes about 56 bytes for each member that was ever made, and 16 for each seal.
#[derive(Debug, Drop)]
pub struct Store {
    pub(crate) alloc: Global,
    pub(crate) head: Head,
    pub(crate) members: Members,
    pub(crate) window: Window,
    pub(crate) places: Places,
    pub(crate) journal: Frames,
    pub(crate) seals: Log,
    /// Whether a device call failed.
    pub(crate) spent: bool,
    /// The text of the subscription document, once it was asked for, until the next operation. A reader asks for it
    /// far more often than it changes.
    pub(crate) newest: Option<Bytes>,
}

impl Model for Store {
    ghost use Rattle.std.specs.Prelude.{◌≡◌, min};
    ghost use Rattle.archive_sealer.specs.Window.{IsOfFeed};
    ghost use Rattle.feed_recovery.specs.Places.{ArePlaces};
    ghost use Rattle.feed_recovery.specs.Store.{StoreValue, KeepsStore, KeepsNewest, is_spent};

    ghost Value = { StoreValue };

    ghost view = { λ s. record {
      head = s.head;
      history = s.window.history;
      members = s.members;
      journal = s.journal;
      seals = s.seals;
      spare = min s.window.spare s.places.spare;
    } };

    ghost invariant = { λ s.
        let store : StoreValue = record {
          head = s.head;
          history = s.window.history;
          members = s.members;
          journal = s.journal;
          seals = s.seals;
          spare = min s.window.spare s.places.spare;
        } in
        KeepsStore store × IsOfFeed s.window s.head × (s.spent ≡ is_spent store)
        × KeepsNewest store s.newest × ArePlaces s.places.extents s.window.history s.journal.extents };
}

impl Store {
    /// Returns the version, the number of operations. On a spent store it is that before the call that failed.
    pub fn version(&self) -> u32
        ensures { result ≡ length self.now.history }
    {
        self.window.operations()
    }

    /// Returns the table of the members, by which they are listed, newest operation first.
    pub fn members(&self) -> &Members
        requires { is_spent self.now ≡ false }
        ensures members { result.now ≡ self.now.members }
        ensures table { IsTableOf self.now.members self.now.head.created self.now.history }
    {
        &self.members
    }

    /// Returns the feed's title after the last operation.
    pub fn title(&self) -> &AtomText
        requires { is_spent self.now ≡ false }
        ensures { result.now ≡ (name_of self.now.head self.now.history).title }
    {
        self.window.title()
    }

    /// Returns how many archives are sealed. Each has a number from 1 to this one.
    pub fn sealed(&self) -> u32
        requires { is_spent self.now ≡ false }
        ensures { result ≡ sealed_count self.now }
    {
        self.window.sealed()
    }

    /// Returns how many device calls the store's two logs have made since the load began, failed ones
    /// included. It stays at the greatest u64.
    pub fn calls(&self) -> u64
        ensures calls { result ≡ call_count self.now }
        // The sizes of the two logs are those of their payloads.
        ensures logs { IsLog self.now.journal × IsLog self.now.seals }
    {
        self.journal.calls().saturating_add(self.seals.calls())
    }

    /// Returns the head, which was chosen when the store was made.
    pub fn head(&self) -> &Head
        requires { is_spent self.now ≡ false }
        ensures { result.now ≡ self.now.head }
    {
        &self.head
    }

    /// Returns whether a device call of the store failed. Then it has to be loaded again.
    pub fn is_spent(&self) -> bool
        ensures { result ≡ is_spent self.now }
    {
        self.spent
    }

    /// Returns the state of a member, without a device call.
    pub fn state(&self, number: u32) -> State
        requires { is_spent self.now ≡ false }
        ensures { result ≡ state_of self.now.history number }
    {
        self.members.state(number)
    }

    /// Returns whether the next operation needs a seal before it: the open window is full, and its seal isn't
    /// there.
    pub(crate) fn is_seal_missing(&self) -> bool
        requires { is_spent self.now ≡ false }
        ensures { IsTrue result ↔ IsMissing self.now }
    {
        self.window.is_full() && self.seals.len() == self.window.sealed()
    }
}
