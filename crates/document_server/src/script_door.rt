//! A clock and a door in memory, for tests. Contracts can see their content, and listed calls of the door fail.

ghost use Rattle.std.specs.Prelude.{◌≡◌, ◌↔◌, ℕ, ◌+◌, ◌-◌, ◌<◌, ◌≤◌, List, [], None, map, reverse, length, vec_len};
ghost use Rattle.std.specs.Prelude.{vec_capacity, min, slice_index, All, IfOk, IfSome, OnOk, OnErr, IsErr, IsTrue, option_map};
ghost use Rattle.atom_values.specs.Counts.{HasCause};
ghost use Rattle.atom_values.specs.ListedCalls.{after_call, next_call_fails};
ghost use Rattle.document_server.specs.Door.{SameLinks, Gives};

use crate::clock::Clock;
use crate::door::Door;
use crate::session::MAX_CONNECTIONS;
use atom_values::{Failed, ListedCalls, MAX_FAILING, Many, NoMemory};
use http_face::{Conn, ScriptConn};
use std::alloc::Global;

/// A clock that returns the given moments, and then the last one again and again.
#[derive(Debug, Drop)]
pub struct SetClock {
    moments: Many<u64, MAX_CONNECTIONS>,
    given: usize,
    ghost in_range: { given < length moments.items },
}

impl SetClock {
    /// A clock of at least one moment.
    pub fn new(moments: Many<u64, MAX_CONNECTIONS>) -> SetClock
        requires { 0 < length moments.items }
        ensures { ⟦<SetClock as Clock>⟧.coming result
            ≡ λ k. slice_index moments.items (min (0 + k) (length moments.items - 1)) }
    {
        SetClock { moments, given: 0 }
    }
}

impl Clock for SetClock {
    ghost observable = { Unit {0} };

    ghost coming = { λ c k. slice_index c.moments.items (min (c.given + k) (length c.moments.items - 1)) };

    fn now(&mut self) -> u64 {
        let moment = self.moments.as_slice()[self.given];
        if self.given + 1 < self.moments.len() {
            self.given += 1;
        }
        moment
    }
}

/// A door in memory. It gives connections in memory, and keeps those that are given back.
#[derive(Debug, Drop)]
pub struct ScriptDoor {
    // The connections to come, the next one last.
    links: Vec<ScriptConn>,
    given: Vec<ScriptConn>,
    // How many connections were given out and not given back. `given` has room for them and for those to come.
    out: usize,
    calls: ListedCalls,
    ghost room: { vec_len given + out + vec_len links ≤ vec_capacity given },
    ghost unbegun: { All (λ link. link.begun ≡ None) links.items },
}

impl ScriptDoor {
    /// The door before its first call, which will give these connections in order. On none of them a reply was begun.
    /// The calls of `listen` and `next` are numbered together from 1, and those in `failing` fail. Takes the memory for
    /// all that will be given back.
    pub fn new(
        alloc: Global,
        links: Many<ScriptConn, MAX_CONNECTIONS>,
        failing: Many<u64, MAX_FAILING>,
    ) -> Result<ScriptDoor, NoMemory>
        requires { All (λ link. (⟦<ScriptConn as Conn>⟧.state link).begun ≡ None) links.items }
        ensures { IfOk result (λ door. ⟦<ScriptDoor as Door>⟧.state door ≡ record {
          left = map ⟦<ScriptConn as Conn>⟧.state links.items;
          back = [];
          out = 0;
          faults = 0;
        }) }
    {
        let mut links = links.into_vec();
        links.reverse();
        let given = Vec::with_capacity(alloc, links.len())?;
        Ok(ScriptDoor {
            links,
            given,
            out: 0,
            calls: ListedCalls::new(failing),
        })
    }

    /// The connections that were given back, in order.
    pub fn given(&self) -> &[ScriptConn]
        ensures { map ⟦<ScriptConn as Conn>⟧.state result.now ≡ (⟦<ScriptDoor as Door>⟧.state self.now).back }
    {
        self.given.as_slice()
    }
}

impl Door for ScriptDoor {
    type Link = ScriptConn;

    ghost observable = { Unit {0} };

    ghost state = { λ d. record {
      left = map ⟦<ScriptConn as Conn>⟧.state (reverse d.links.items);
      back = map ⟦<ScriptConn as Conn>⟧.state d.given.items;
      out = d.out;
      faults = d.calls.faults;
    } };

    // In memory all addresses are alike.
    ghost listens = { λ _ _. Unit {0} };

    ghost only_at = { λ _ _. Unit {0} };

    fn listen(&mut self, _at: &[u8]) -> Result<(), Failed>
        // It fails exactly the listed calls.
        ensures listed { IsErr result ↔ IsTrue (next_call_fails self.old.calls) }
        ensures calls { self.new.calls ≡ after_call self.old.calls }

        // The clauses of the trait.
        ensures at { OnOk result (Unit {0}) }
        ensures only { (at : List ℕ) → Unit {0} → Unit {0} }
        ensures same { Unit {0} → SameLinks (⟦<ScriptDoor as Door>⟧.state self.old)
            (⟦<ScriptDoor as Door>⟧.state self.new) }
        ensures counts { HasCause self.old.calls.faults self.new.calls.faults result }
    {
        if self.calls.next_fails() {
            return Err(Failed);
        }
        Ok(())
    }

    fn next(&mut self) -> Result<Option<ScriptConn>, Failed>
        // It fails exactly the listed calls.
        ensures listed { IsErr result ↔ IsTrue (next_call_fails self.old.calls) }
        ensures calls { self.new.calls ≡ after_call self.old.calls }

        // The clauses of the trait.
        ensures at { (at : List ℕ) → Unit {0} → Unit {0} }
        ensures only { (at : List ℕ) → Unit {0} → Unit {0} → Unit {0} }
        ensures given { IfOk result (λ given. Unit {0}
            → Gives (option_map ⟦<ScriptConn as Conn>⟧.state given) (⟦<ScriptDoor as Door>⟧.state self.old)
            (⟦<ScriptDoor as Door>⟧.state self.new)) }
        ensures unbegun { IfOk result (λ given. IfSome given (λ link.
            (⟦<ScriptConn as Conn>⟧.state link).begun ≡ None)) }
        ensures err { OnErr result (Unit {0} → SameLinks (⟦<ScriptDoor as Door>⟧.state self.old)
            (⟦<ScriptDoor as Door>⟧.state self.new)) }
        ensures counts { HasCause self.old.calls.faults self.new.calls.faults result }
    {
        if self.calls.next_fails() {
            return Err(Failed);
        }
        let link = self.links.pop();
        if link.is_some() {
            self.out += 1;
        }
        Ok(link)
    }

    fn back(&mut self, link: ScriptConn) {
        self.out -= 1;
        // `given` has the room, so this takes no memory.
        let kept = self.given.push(link);
        prove!(kept.is_ok());
    }

    ghost tells = { λ observable. observable };
}
