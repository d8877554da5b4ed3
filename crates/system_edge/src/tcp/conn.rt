//! A connection with a client over TCP.

ghost use Rattle.std.specs.Prelude.{◌≡◌, ◌≤◌, [], None, IfSome, vec_len};

use super::client::Client;
use super::ended::EndedConn;
use super::look::{has_empty_line, stated_length};
use super::written::Written;
use crate::log::Line;
use atom_values::Failed;
use feed_disk::Disk;
use http_face::{Conn, RequestFault, read_request};
use mio::Poll;
use std::alloc::Global;
use std::io::{Read, Write};
use std::mem;
use std::net::OpenStream;
use std::os::fd::AsRawFd;
use std::time::Instant;

/// How many parts are received before the other clients have their turn.
const TURN_PARTS: u32 = 4;

/// For how many bytes of a request there is room at first. Most requests have fewer, and a lack of memory seldom hits so
/// few. The room is doubled when it is full.
const ROOM: usize = 4_096;

/// The most bytes of a head. A longer one is refused.
const MAX_HEAD: usize = 16_384;

/// A connection with a client over TCP, no call on which waits for the client.
///
/// The door gives it once its request has arrived, and reads take it from memory. A write for which the system has no
/// room is kept in memory. The door sends it after the connection was given back.
#[derive(Drop)]
pub struct TcpConn<S> {
    pub(super) client: Client<S>,
    /// The bytes that have arrived.
    arrived: Vec<u8>,
    /// How many of them were read.
    taken: usize,
    /// Whether the client has ended its bytes. If it hasn't, a read behind those that have arrived fails.
    has_ended: bool,
    /// How many bytes have to arrive until the next look, if no empty line comes before.
    next_look: usize,
    /// The stated length of the request, once its head has arrived.
    length: Option<usize>,
    /// Whether memory ran out. What lacked it is tried again after a pause.
    is_short: bool,
    /// The part of the reply for which the system had no room.
    pub(super) rest: Vec<u8>,
    written: Written,
    pub(super) begun: Option<u64>,
    pub(super) faults: u64,
    bytes_read: u64,
    reads: u64,
    ghost in_range: { taken ≤ vec_len arrived },
}

impl<S: OpenStream + Read + Write + AsRawFd + Drop> TcpConn<S> {
    /// A connection before its first byte has arrived.
    pub(super) fn new(alloc: Global, client: Client<S>) -> TcpConn<S> {
        TcpConn {
            client,
            arrived: Vec::new(alloc),
            taken: 0,
            has_ended: false,
            next_look: 0,
            length: None,
            is_short: false,
            rest: Vec::new(alloc),
            written: Written::new(),
            begun: None,
            faults: 0,
            bytes_read: 0,
            reads: 0,
        }
    }

    /// Whether no byte has arrived.
    pub(super) fn is_silent(&self) -> bool {
        self.arrived.is_empty()
    }

    /// Whether a call is to be made: the client may have sent bytes, or memory ran out before.
    pub(super) fn is_to_try(&self) -> bool {
        self.client.is_to_try() || self.is_short
    }

    /// Whether a call may have something to do at once.
    pub(super) fn is_ready(&self) -> bool {
        self.client.is_ready && !self.is_short
    }

    /// Has the system report the client. Returns whether the next call can wait for the report.
    pub(super) fn watch(&mut self, poll: &Poll) -> bool {
        self.client.watch(poll) && !self.is_short
    }

    /// Receives what has arrived, a part of at most the length of `part` at a time. Returns whether that decides how the
    /// request is read, or no more will arrive: the client has ended, or the connection failed.
    pub(super) fn receive(&mut self, alloc: Global, part: &mut [u8]) -> bool {
        if mem::take(&mut self.is_short) && !self.is_silent() && self.is_whole(alloc) {
            return true;
        }
        for _ in 0..TURN_PARTS {
            // Without memory for them, the bytes stay unread in the system's buffer.
            let Some(room) = self.room(part.len()) else {
                return false;
            };
            match self.client.receive(&mut part[..room]) {
                Ok(None) => return false,
                Ok(Some(0)) => {
                    self.has_ended = true;
                    return true;
                }
                Ok(Some(count)) => {
                    // There is room for them.
                    let _ = self.arrived.extend_from_slice(&part[..count]);
                    if self.is_to_look(count) && self.is_whole(alloc) {
                        return true;
                    }
                }
                Err(Failed) => return true,
            }
        }
        false
    }

    /// Returns for how many bytes of at most `most` there is room, at least one. `None` if memory ran out.
    fn room(&mut self, most: usize) -> Option<usize>
        ensures { IfSome result (λ room. room ≤ most) }
    {
        let is_full = self.arrived.len() == self.arrived.capacity();
        // While a request can't be read for lack of memory, it takes no more.
        if is_full && (self.is_short || self.arrived.reserve(ROOM).is_err()) {
            self.is_short = true;
            return None;
        }
        Some((self.arrived.capacity() - self.arrived.len()).min(most))
    }

    /// Whether the last `count` bytes may decide how the request is read.
    ///
    /// Until the head has arrived, each look parses all of its bytes. So a look is due only after an empty line, with
    /// which a head ends, or once the bytes have grown by an eighth, since they may be refused before. The looks of the
    /// second kind parse nine times the bytes of the head at most, however small the parts are.
    fn is_to_look(&self, count: usize) -> bool {
        let arrived = self.arrived.len();
        if let Some(length) = self.length {
            return length <= arrived;
        }
        // An empty line may begin with the last bytes of the part before.
        let new = &self.arrived[arrived.saturating_sub(count).saturating_sub(2)..];
        self.next_look.min(MAX_HEAD) <= arrived || has_empty_line(new)
    }

    /// Whether reading the request needs no byte that hasn't arrived. If the stated length doesn't show it, the request
    /// is read.
    fn is_whole(&mut self, alloc: Global) -> bool {
        let arrived = self.arrived.len();
        self.next_look = arrived.saturating_add(arrived / 8 + 1);
        self.length = stated_length(&self.arrived);
        if matches!(self.length, Some(length) if length <= arrived) {
            return true;
        }
        self.restart();
        match read_request(alloc, self) {
            Err(RequestFault::ConnFault) => false,
            Err(RequestFault::NoMemory) => {
                self.is_short = true;
                false
            }
            _ => true,
        }
    }

    /// Has the request be read from its beginning, as on a connection on which no call was made.
    pub(super) fn restart(&mut self)
        ensures begun { self.new.begun ≡ None }
    {
        self.taken = 0;
        self.begun = None;
        self.faults = 0;
        self.bytes_read = 0;
        self.reads = 0;
    }

    /// Why the connection ends without a whole reply. `None` if its reply was written whole.
    pub(super) fn end(&self) -> Option<&'static str> {
        if self.begun.is_some() && self.faults == 0 {
            None
        } else if self.client.has_failed {
            Some("failed")
        } else if self.begun.is_some() || self.is_short {
            // The rest of the reply, or of the request, found no memory.
            Some("no-memory")
        } else {
            Some("late")
        }
    }

    /// The log's line for the connection when it ends.
    pub(super) fn line(&self, now: Instant, end: Option<&str>) -> Line {
        EndedConn {
            peer: self.client.peer,
            request: &self.arrived,
            status: self.written.status,
            bytes: self.written.bytes,
            time: now.duration_since(self.client.accepted),
            end,
        }
        .line()
    }
}

impl<S: OpenStream + Read + Write + AsRawFd + Drop> Conn for TcpConn<S> {
    ghost observable = { ⊥ };

    ghost state = { λ s. record {
      left = [];
      sent = [];
      faults = s.faults;
      begun = s.begun;
      bytes_read = s.bytes_read;
      reads = s.reads;
      before_read = [];
    } };

    fn read(&mut self, into: &mut [u8]) -> Result<usize, Failed> {
        self.reads = self.reads.saturating_add(1);
        let count = into.len().min(self.arrived.len() - self.taken);
        if count == 0 && !into.is_empty() && !self.has_ended {
            self.faults = self.faults.saturating_add(1);
            return Err(Failed);
        }
        let end = self.taken + count;
        into[..count].copy_from_slice(&self.arrived[self.taken..end]);
        self.taken = end;
        self.bytes_read = self.bytes_read.saturating_add(count as u64);
        Ok(count)
    }

    fn begin<D: Disk>(&mut self, disk: &D) {
        self.begun = Some(disk.calls());
    }

    fn write(&mut self, from: &[u8]) -> Result<usize, Failed> {
        if from.is_empty() {
            return Ok(0);
        }
        // Once a part of the reply is kept, all that follows is kept behind it.
        if self.rest.is_empty() {
            match self.client.send(from) {
                Ok(0) => {}
                Ok(count) => {
                    self.written.count(from, count);
                    return Ok(count);
                }
                Err(Failed) => {
                    self.faults = self.faults.saturating_add(1);
                    return Err(Failed);
                }
            }
        }
        match self.rest.extend_from_slice(from) {
            Ok(()) => {
                self.written.count(from, from.len());
                Ok(from.len())
            }
            Err(_) => {
                self.faults = self.faults.saturating_add(1);
                Err(Failed)
            }
        }
    }
}
