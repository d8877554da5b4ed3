ghost use Rattle.std.specs.Prelude.{◌≡◌, ◌≤◌, List, [], false, true, length, map, All, IfOk, OnErr, OnOk};
ghost use Rattle.std.specs.Prelude.{◌++◌};
ghost use Rattle.atom_values.specs.Counts.{counted};
ghost use Rattle.feed_life.specs.Life.{IsStoreOf, Lives, empty_disk, mirror_limit};
ghost use Rattle.feed_life.specs.Asks.{IsAsked, IsHalted, IsSet, docs_of};
ghost use Rattle.member_rules.specs.Head.{IsHead};
ghost use Rattle.member_rules.specs.declared.operation.Op.{Op as Operation};
ghost use Rattle.mirror_walk.specs.Holding.{KeptValue};

use crate::ask::{ask, doc_of};
use crate::crash::{ask_into, load_numbers};
use crate::event::Stop;
use crate::sent::SentDoc;
use crate::turn::Turn;
use atom_values::{Bytes, Copies, Many, NoMemory};
use document_server::Line;
use feed_disk::MemoryDisk;
use feed_recovery::Store;
use http_face::Request;
use member_rules::{Head, Setting, sealed_windows_are_full};
use std::alloc::Global;
use std::marker::Model;
use std::mem::replace;

/// A store and its mirrors on disks in memory, and what the store sent.
///
/// Each step loads the store or the mirror that it uses, so a crash of its disk loses nothing else. Until memory runs
/// out, the store's disk has its whole history, and each document that was sent or that a mirror holds is one that the
/// feed serves.
#[derive(Debug, Drop)]
pub struct Life {
    pub(crate) alloc: Global,
    pub(crate) head: Head,
    pub(crate) disk: MemoryDisk,
    pub(crate) mirrors: Vec<MemoryDisk>,
    pub(crate) sent: Vec<SentDoc>,
    pub(crate) version: u32,
    pub(crate) sealed: u32,
    pub(crate) stops: u64,
    pub(crate) mirror_stops: u64,
    /// Whether memory ran out.
    pub(crate) lost: bool,
}

impl Model for Life {
    ghost use Rattle.feed_life.specs.Life.{KeepsLife, LifeValue};

    ghost Value = { LifeValue };

    ghost view = { λ l. record {
      head = l.head;
      disk = l.disk;
      mirrors = l.mirrors.items;
      sent = l.sent.items;
      version = l.version;
      sealed = l.sealed;
      stops = l.stops;
      mirror_stops = l.mirror_stops;
      lost = l.lost;
    } };

    ghost invariant = { λ l. KeepsLife record {
      head = l.head;
      disk = l.disk;
      mirrors = l.mirrors.items;
      sent = l.sent.items;
      version = l.version;
      sealed = l.sealed;
      stops = l.stops;
      mirror_stops = l.mirror_stops;
      lost = l.lost;
    } };
}

impl Life {
    /// Returns a life whose store has this head and no operation, and whose mirrors hold nothing.
    pub fn new(alloc: Global, head: &Head, mirrors: u32) -> Result<Life, NoMemory>
        requires { mirrors ≤ mirror_limit }
        ensures head { IfOk result (λ life. life.head ≡ head.now) }
        ensures mirrors { IfOk result (λ life. length life.mirrors ≡ mirrors) }
        ensures lives { IfOk result (λ life. Lives life [] (map (λ _. []) life.mirrors)) }
        ensures sent { IfOk result (λ life. life.sent ≡ []) }
        ensures stops { IfOk result (λ life. (life.stops ≡ 0) × (life.mirror_stops ≡ 0)) }
        ensures lost { IfOk result (λ life. life.lost ≡ false) }
    {
        // A law, which does nothing.
        sealed_windows_are_full();
        let head = head.copy(alloc)?;
        let Ok(disk) = store_disk(alloc, &head) else {
            drop(head);
            return Err(NoMemory);
        };
        let Ok(mirrors) = empty_disks(alloc, mirrors) else {
            drop(head);
            drop(disk);
            return Err(NoMemory);
        };
        Ok(Life {
            alloc,
            head,
            disk,
            mirrors,
            sent: Vec::new(alloc),
            version: 0,
            sealed: 0,
            stops: 0,
            mirror_stops: 0,
            lost: false,
        })
    }

    /// Answers a request, and keeps the document that the reply sends.
    pub(crate) fn answer(&mut self, request: &Request, now: u64) -> Result<Line, NoMemory>
        requires { self.old.lost ≡ false }
        ensures asked { IfOk result (λ line. (history : List Operation) (held : List (List KeptValue))
            → Lives self.old history held → IsAsked self.old self.new request.now now history held line) }
        ensures stays { IfOk result (λ line. self.new ≡ record self.old {
          disk = self.new.disk;
          sent = self.new.sent;
          version = self.new.version;
          sealed = self.new.sealed;
        }) }
        ensures lost { OnErr result (self.new.lost ≡ true) }
    {
        self.lost = true;
        let answered = ask(self.alloc, &mut self.disk, request, now)?;
        let line = answered.line;
        let found = doc_of(
            self.alloc,
            &self.head,
            request,
            answered.reply,
            line.version,
        )?;
        keep(&mut self.sent, found)?;
        self.version = line.version;
        self.sealed = answered.sealed;
        self.lost = false;
        Ok(line)
    }

    /// Changes a setting of the feed, unless it is refused. Nothing is sent.
    pub(crate) fn change(&mut self, setting: &Setting, now: u64) -> Result<(), NoMemory>
        requires { self.old.lost ≡ false }
        ensures is_set { OnOk result ((history : List Operation) (held : List (List KeptValue))
            → Lives self.old history held → IsSet self.old self.new setting.now now history held) }
        ensures stays { OnOk result (self.new ≡ record self.old {
          disk = self.new.disk;
          version = self.new.version;
          sealed = self.new.sealed;
        }) }
        ensures lost { OnErr result (self.new.lost ≡ true) }
    {
        self.lost = true;
        let answered = ask(self.alloc, &mut self.disk, setting, now)?;
        self.version = answered.line.version;
        self.sealed = answered.sealed;
        drop(answered);
        self.lost = false;
        Ok(())
    }

    /// Makes a turn, and crashes within one of its device calls. Nothing is sent.
    pub(crate) fn answer_into<T: Turn>(
        &mut self,
        turn: &T,
        now: u64,
        stop: &Stop,
    ) -> Result<(), NoMemory>
        requires { self.old.lost ≡ false }
        ensures halted { OnOk result ((history : List Operation) (held : List (List KeptValue))
            → Lives self.old history held
            → IsHalted self.old self.new (T.outcomes turn.now now) stop.now history held) }
        ensures stays { OnOk result (self.new ≡ record self.old {
          disk = self.new.disk;
          version = self.new.version;
          sealed = self.new.sealed;
          stops = counted self.old.stops;
        }) }
        ensures lost { OnErr result (self.new.lost ≡ true) }
    {
        self.lost = true;
        let left = ask_into(self.alloc, &mut self.disk, turn, now, stop)?;
        drop(replace(&mut self.disk, left));
        let numbers = load_numbers(self.alloc, &mut self.disk)?;
        self.version = numbers.version;
        self.sealed = numbers.sealed;
        self.stops = self.stops.saturating_add(1);
        self.lost = false;
        Ok(())
    }

    /// Returns the number of operations of the store's history.
    pub fn version(&self) -> u32
        ensures { result ≡ self.now.version }
    {
        self.version
    }

    /// Returns how many archives the store has sealed.
    pub fn sealed(&self) -> u32
        ensures { result ≡ self.now.sealed }
    {
        self.sealed
    }

    /// Returns how many mirrors the life has.
    pub fn mirrors(&self) -> usize
        ensures { result ≡ length self.now.mirrors }
    {
        self.mirrors.len()
    }

    /// Returns the documents of the replies 200 to a GET of the feed or of an archive, in order.
    pub fn sent(&self) -> &[SentDoc]
        ensures { result.now ≡ self.now.sent }
    {
        self.sent.as_slice()
    }

    /// Returns how many requests and changes of a setting had a stop.
    pub fn stops(&self) -> u64
        ensures { result ≡ self.now.stops }
    {
        self.stops
    }

    /// Returns how many gifts and walks had a stop, of those whose mirror and document exist.
    pub fn mirror_stops(&self) -> u64
        ensures { result ≡ self.now.mirror_stops }
    {
        self.mirror_stops
    }
}

/// Puts a document that was sent, if there is one, after the others.
fn keep(sent: &mut Vec<SentDoc>, found: Option<SentDoc>) -> Result<(), NoMemory>
    ensures { OnOk result (sent.new.items ≡ sent.old.items ++ docs_of found) }
{
    if let Some(doc) = found {
        sent.push(doc)?;
    }
    Ok(())
}

/// A disk without content.
fn new_disk(alloc: Global) -> MemoryDisk
    ensures { result ≡ empty_disk }
{
    MemoryDisk::new(
        alloc,
        Bytes::from_vec(Vec::new(alloc)),
        Bytes::from_vec(Vec::new(alloc)),
        Bytes::from_vec(Vec::new(alloc)),
        Many::new(alloc),
    )
}

/// A disk with a store that has this head and no operation.
fn store_disk(alloc: Global, head: &Head) -> Result<MemoryDisk, NoMemory>
    ensures store { IfOk result (IsStoreOf head.now []) }
    ensures head { IfOk result (λ disk. IsHead head.now) }
{
    let mut disk = new_disk(alloc);
    match Store::init(alloc, &mut disk, head) {
        Ok(()) => Ok(disk),
        // A call of a disk without listed calls fails only if memory runs out.
        Err(_) => {
            drop(disk);
            Err(NoMemory)
        }
    }
}

/// Disks without content.
fn empty_disks(alloc: Global, count: u32) -> Result<Vec<MemoryDisk>, NoMemory>
    ensures count { IfOk result (λ disks. length disks.items ≡ count) }
    ensures empty { IfOk result (λ disks. All (λ disk. disk ≡ empty_disk) disks.items) }
{
    let mut disks = Vec::new(alloc);
    for _index in 0..count {
        let Ok(()) = disks.push(new_disk(alloc)) else {
            drop(disks);
            return Err(NoMemory);
        };
    }
    Ok(disks)
}
