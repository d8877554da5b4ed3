ghost use Rattle.std.specs.Prelude.{◌≡◌, ◌≤◌, ◌<◌, false, true, length, slice_get, List, IfOk, IsErr, OnErr};
ghost use Rattle.std.specs.Prelude.{◌++◌, OnOk, None, Some};
ghost use Rattle.feed_life.specs.Events.{IsLifeOf, IsStep, with_stop};
ghost use Rattle.feed_life.specs.Headline.{KeepsAll};
ghost use Rattle.feed_life.specs.Life.{IsMirrorOf, IsSentBy, IsStoreOf, Lives, mirror_limit};
ghost use Rattle.feed_life.specs.Mirrors.{IsCertified, IsShown, LeavesGiven, LeavesWalked};
ghost use Rattle.feed_life.specs.declared.event.Event.{Event as EventValue};
ghost use Rattle.member_rules.specs.declared.operation.Op.{Op as Operation};
ghost use Rattle.mirror_walk.specs.Holding.{KeptValue};

use crate::event::{Event, Stop};
use crate::lives::Life;
use crate::mirrors::{certify, give, give_into, show};
use crate::sent::SentDoc;
use crate::walks::{walk, walk_into};
use atom_values::NoMemory;
use coverage_certificate::Certificate;
use document_server::Line;
use feed_disk::MemoryDisk;
use http_face::Request;
use member_rules::{Head, Setting, archives_stay};
use mirror_walk::{Outcome, served_documents_show_the_fold};
use std::alloc::Global;
use std::mem::replace;

/// Begins a life with this head and this number of mirrors, and makes a step by each of the events.
///
/// After a crash before or within any disk write, the feed reopens as the fold of a prefix of its accepted operations
/// that holds every acknowledged one, each sealed archive unchanged. From documents that it served at whatever moments,
/// in any order, lost or repeated, a mirror is complete exactly when it holds each archive of the newest subscription
/// document's chain, and then it equals the fold at that document's version. The clause `headline` says so of each way
/// to cut the events in two: what the first of them made, the rest keep.
///
/// `NoMemory` if memory runs out. Costs as much as [`Life::step`] for each event.
pub fn life(alloc: Global, head: &Head, mirrors: u32, events: &[Event]) -> Result<Life, NoMemory>
    requires { mirrors ≤ mirror_limit }
    ensures lived { IfOk result (IsLifeOf head.now mirrors events.now) }
    ensures headline { IfOk result (λ life. (first rest : List EventValue) → events.now ≡ first ++ rest
        → KeepsAll head.now mirrors first rest life) }
{
    // Laws, which do nothing.
    archives_stay();
    served_documents_show_the_fold();
    let mut life = Life::new(alloc, head, mirrors)?;
    for event in events {
        // The line of a request isn't part of a life.
        let Ok(_) = life.step_by(event) else {
            drop(life);
            return Err(NoMemory);
        };
    }
    Ok(life)
}

impl Life {
    /// Makes a step by an event. Returns the line of a request that was answered, and else `None`.
    ///
    /// An event that names no mirror or no document of the life changes nothing. `NoMemory` if memory ran out, now or
    /// in an earlier call: the life is of no use then.
    ///
    /// A request loads the store, and a gift the mirror, so the step costs as much as is on that disk. A walk copies
    /// the store's disk and loads both.
    pub fn step(&mut self, event: Event) -> Result<Option<Line>, NoMemory>
        ensures stepped { IfOk result (λ line. (history : List Operation) (held : List (List KeptValue))
            → Lives self.old history held → IsStep self.old self.new event history held line) }
        ensures alive { OnOk result (self.new.lost ≡ false) }
        ensures lost { OnErr result (self.new.lost ≡ true) }
        ensures spent { self.old.lost ≡ true → IsErr result }
    {
        let line = self.step_by(&event);
        drop(event);
        line
    }

    /// Makes a step by an event, which the caller keeps.
    pub(crate) fn step_by(&mut self, event: &Event) -> Result<Option<Line>, NoMemory>
        ensures stepped { IfOk result (λ line. (history : List Operation) (held : List (List KeptValue))
            → Lives self.old history held → IsStep self.old self.new event.now history held line) }
        ensures alive { OnOk result (self.new.lost ≡ false) }
        ensures lost { OnErr result (self.new.lost ≡ true) }
        ensures spent { self.old.lost ≡ true → IsErr result }
    {
        if self.lost {
            return Err(NoMemory);
        }
        match event {
            Event::Ask { request, now, stop } => self.ask(request, *now, stop),
            Event::Give { mirror, sent, stop } => {
                self.give(*mirror, *sent, stop)?;
                Ok(None)
            }
            Event::Walk { mirror, stop } => {
                self.walk(*mirror, stop)?;
                Ok(None)
            }
            Event::Set { setting, now, stop } => {
                self.set(setting, *now, stop)?;
                Ok(None)
            }
        }
    }

    /// Answers a request, and crashes within it if there is a stop.
    fn ask(
        &mut self,
        request: &Request,
        now: u64,
        stop: &Option<Stop>,
    ) -> Result<Option<Line>, NoMemory>
        requires { self.old.lost ≡ false }
        ensures stepped { IfOk result (λ line. (history : List Operation) (held : List (List KeptValue))
            → Lives self.old history held
            → IsStep self.old self.new (Event.Ask request.now now stop.now) history held line) }
        ensures alive { OnOk result (self.new.lost ≡ false) }
        ensures lost { OnErr result (self.new.lost ≡ true) }
    {
        match stop {
            None => {
                let line = self.answer(request, now)?;
                Ok(Some(line))
            }
            Some(stop) => {
                self.answer_into(request, now, stop)?;
                Ok(None)
            }
        }
    }

    /// Changes a setting of the feed, and crashes within that if there is a stop.
    fn set(&mut self, setting: &Setting, now: u64, stop: &Option<Stop>) -> Result<(), NoMemory>
        requires { self.old.lost ≡ false }
        ensures stepped { OnOk result ((history : List Operation) (held : List (List KeptValue))
            → Lives self.old history held
            → IsStep self.old self.new (Event.Set setting.now now stop.now) history held None) }
        ensures alive { OnOk result (self.new.lost ≡ false) }
        ensures lost { OnErr result (self.new.lost ≡ true) }
    {
        match stop {
            None => self.change(setting, now),
            Some(stop) => self.answer_into(setting, now, stop),
        }
    }

    /// Offers a document that was sent to a mirror, and crashes within that if there is a stop.
    fn give(&mut self, mirror: u32, sent: u32, stop: &Option<Stop>) -> Result<(), NoMemory>
        requires { self.old.lost ≡ false }
        ensures stepped { OnOk result ((history : List Operation) (held : List (List KeptValue))
            → Lives self.old history held
            → IsStep self.old self.new (Event.Give mirror sent stop.now) history held None) }
        ensures alive { OnOk result (self.new.lost ≡ false) }
        ensures lost { OnErr result (self.new.lost ≡ true) }
    {
        let mirror = mirror as usize;
        let sent = sent as usize;
        if self.sent.len() <= sent || self.mirrors.len() <= mirror {
            return Ok(());
        }
        self.lost = true;
        give_or_crash(
            self.alloc,
            &self.head,
            &mut self.mirrors[mirror],
            &self.sent[sent],
            stop,
        )?;
        self.mirror_stops = with_stop(stop, self.mirror_stops);
        self.lost = false;
        Ok(())
    }

    /// A mirror walks over the documents of the store, and crashes within that if there is a stop.
    fn walk(&mut self, mirror: u32, stop: &Option<Stop>) -> Result<(), NoMemory>
        requires { self.old.lost ≡ false }
        ensures stepped { OnOk result ((history : List Operation) (held : List (List KeptValue))
            → Lives self.old history held
            → IsStep self.old self.new (Event.Walk mirror stop.now) history held None) }
        ensures alive { OnOk result (self.new.lost ≡ false) }
        ensures lost { OnErr result (self.new.lost ≡ true) }
    {
        let mirror = mirror as usize;
        if self.mirrors.len() <= mirror {
            return Ok(());
        }
        self.lost = true;
        walk_or_crash(
            self.alloc,
            &self.head,
            &mut self.disk,
            &mut self.mirrors[mirror],
            stop,
        )?;
        self.mirror_stops = with_stop(stop, self.mirror_stops);
        self.lost = false;
        Ok(())
    }

    /// Returns what a mirror shows: a feed at one of its versions, or which document it lacks.
    ///
    /// From documents that the feed served at whatever moments, in any order, lost or repeated, a mirror is complete
    /// exactly when it holds each archive of the newest subscription document's chain, and then it equals the fold at
    /// that document's version.
    ///
    /// `NoMemory` if memory ran out, now or in an earlier call. Loads the mirror, so it costs as much as is on its
    /// disk.
    pub fn outcome(&mut self, mirror: u32) -> Result<Outcome, NoMemory>
        requires { mirror < length self.old.mirrors }
        ensures shown { IfOk result (λ outcome. (history : List Operation) (held : List (List KeptValue))
            (kept : List KeptValue) → Lives self.old history held → slice_get held mirror ≡ Some kept
            → IsShown self.old.head history kept outcome) }
        ensures lives { OnOk result ((history : List Operation) (held : List (List KeptValue))
            → Lives self.old history held → Lives self.new history held) }
        ensures same { OnOk result (self.new ≡ record self.old { mirrors = self.new.mirrors }) }
        ensures lost { OnErr result (self.new.lost ≡ true) }
        ensures spent { self.old.lost ≡ true → IsErr result }
    {
        if self.lost {
            return Err(NoMemory);
        }
        self.lost = true;
        let outcome = show(self.alloc, &self.head, &mut self.mirrors[mirror as usize])?;
        self.lost = false;
        Ok(outcome)
    }

    /// Returns the certificate of a mirror, or `None` while it lacks a document.
    ///
    /// `NoMemory` if memory ran out, now or in an earlier call. Loads the mirror, so it costs as much as is on its
    /// disk.
    pub fn certificate(&mut self, mirror: u32) -> Result<Option<Certificate>, NoMemory>
        requires { mirror < length self.old.mirrors }
        ensures certified { IfOk result (λ made. (history : List Operation) (held : List (List KeptValue))
            (kept : List KeptValue) → Lives self.old history held → slice_get held mirror ≡ Some kept
            → IsCertified self.old.head history kept made) }
        ensures lives { OnOk result ((history : List Operation) (held : List (List KeptValue))
            → Lives self.old history held → Lives self.new history held) }
        ensures same { OnOk result (self.new ≡ record self.old { mirrors = self.new.mirrors }) }
        ensures lost { OnErr result (self.new.lost ≡ true) }
        ensures spent { self.old.lost ≡ true → IsErr result }
    {
        if self.lost {
            return Err(NoMemory);
        }
        self.lost = true;
        let made = certify(self.alloc, &self.head, &mut self.mirrors[mirror as usize])?;
        self.lost = false;
        Ok(made)
    }
}

/// Offers a document to the mirror of a disk, and crashes within that if there is a stop.
fn give_or_crash(
    alloc: Global,
    head: &Head,
    disk: &mut MemoryDisk,
    doc: &SentDoc,
    stop: &Option<Stop>,
) -> Result<(), NoMemory>
    ensures { OnOk result ((history : List Operation) (kept : List KeptValue)
        → IsSentBy head.now history doc.now
        → IsMirrorOf head.now history disk.old kept
        → LeavesGiven head.now history doc.now stop.now kept disk.old disk.new) }
{
    match stop {
        None => give(alloc, head, disk, doc),
        Some(stop) => {
            let left = give_into(alloc, head, disk, doc, stop)?;
            drop(replace(disk, left));
            Ok(())
        }
    }
}

/// The mirror of a disk walks over the documents of a store, and crashes within that if there is a stop.
fn walk_or_crash(
    alloc: Global,
    head: &Head,
    store_disk: &mut MemoryDisk,
    disk: &mut MemoryDisk,
    stop: &Option<Stop>,
) -> Result<(), NoMemory>
    ensures walked { OnOk result ((history : List Operation) (kept : List KeptValue)
        → IsStoreOf head.now history store_disk.old
        → IsMirrorOf head.now history disk.old kept
        → LeavesWalked head.now history stop.now kept disk.old disk.new) }
    ensures store { OnOk result ((history : List Operation)
        → IsStoreOf head.now history store_disk.old → IsStoreOf head.now history store_disk.new) }
{
    match stop {
        None => walk(alloc, head, store_disk, disk),
        Some(stop) => {
            let left = walk_into(alloc, head, store_disk, disk, stop)?;
            drop(replace(disk, left));
            Ok(())
        }
    }
}

/// The number of stops after an event.
fn with_stop(stop: &Option<Stop>, stops: u64) -> u64
    ensures { result ≡ with_stop stop.now stops }
{
    match stop {
        None => stops,
        Some(_) => stops.saturating_add(1),
    }
}
