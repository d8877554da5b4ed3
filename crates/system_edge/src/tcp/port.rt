//! A port that listens, and the clients that have connected.

use super::arriving::Arriving;
use super::client::Client;
use super::closing::{Closing, DRAIN_SECONDS};
use super::conn::TcpConn;
use super::listening::{Accepted, Listening};
use super::replying::{Replying, Turn};
use crate::log::Log;
use atom_values::Failed;
use mio::{Events, Poll, Token};
use std::alloc::Global;
use std::collections::VecDeque;
use std::net::{Net, OpenStream, Shutdown, SocketAddr, TcpListener};
use std::time::{Duration, Instant};
use std::{mem, rt, str, thread};

/// How long a client may take for its whole request.
const REQUEST_SECONDS: u64 = 10;

/// How long a client may take to receive its whole reply. It is longer than the time for a request, since a reply may
/// be large.
const REPLY_SECONDS: u64 = 30;

/// How many requests may be arriving. Together with the other two limits it is below the number of descriptors that a
/// process has by default.
const MAX_ARRIVING: usize = 512;

/// How many replies may be taken at a time.
const MAX_REPLYING: usize = 128;

/// How many clients that have their replies may still be sending. If one more comes, the oldest of them is cut off.
const MAX_CLOSING: usize = 256;

/// How many bytes of replies are kept. It is twice the length of the longest document.
const MAX_KEPT: usize = 134_217_728;

/// The greatest memory of a reply that is kept for the next one.
const MAX_SPARE: usize = 16_777_216;

/// How many bytes are received at a time.
const PART: usize = 65_536;

/// How many clients are accepted before the others have their turn.
const MAX_ACCEPTED: u32 = 64;

/// The pause after a lack of memory or descriptors, so that the loop doesn't spin.
const PAUSE_MILLIS: u64 = 10;

/// How long the lines of connections are kept, so that they are written together.
const LOG_MILLIS: u64 = 100;

/// How many reports the system gives at a time. No more sockets than this are watched.
const MAX_REPORTS: usize = 1024;

/// The system's report that clients wait to connect. A client has a greater number.
const CALLS: Token = Token(0);

/// A port that listens. No call on it but `next` and `finish` waits.
#[derive(Drop)]
pub(super) struct Port<'a, R: Net + rt::Clock + Eprint> {
    alloc: Global,
    log: &'a Log,
    /// The room for what a client sends.
    part: Vec<u8>,
    /// The memory of an earlier reply, for the next one: the system takes long to give new memory.
    spare: Vec<u8>,
    listening: Listening<R::Listener>,
    poll: Poll,
    reports: Events,
    /// How many clients were accepted.
    accepted: usize,
    /// In the order in which they were accepted.
    arriving: VecDeque<Arriving<R::Stream>>,
    /// In the order in which they were served.
    replying: VecDeque<Replying<R::Stream>>,
    /// In the order in which their replies ended.
    closing: VecDeque<Closing<R::Stream>>,
    /// When the kept lines of the log are to be written.
    log_deadline: Option<Instant>,
}

impl<'a, R: Net + rt::Clock + Eprint> Port<'a, R> {
    /// Binds a port, or returns `None`. std sets SO_REUSEADDR, so after a restart the port can be bound at once, while
    /// the system still keeps the connections of the last run.
    pub(super) fn bind(alloc: Global, runtime: &R, log: &'a Log, at: &[u8]) -> Option<Port<'a, R>> {
        let listener = TcpListener::bind(runtime, str::from_utf8(at).ok()?).ok()?;
        let poll = Poll::new(runtime).ok()?;
        let listening = Listening::new(listener, &poll, CALLS)?;
        let reports = Events::with_capacity(alloc, MAX_REPORTS).ok()?;
        let mut port = Port {
            alloc,
            log,
            part: Vec::new(alloc),
            spare: Vec::new(alloc),
            listening,
            poll,
            reports,
            accepted: 0,
            arriving: VecDeque::new(alloc),
            replying: VecDeque::new(alloc),
            closing: VecDeque::new(alloc),
            log_deadline: None,
        };
        if port.reserve() { Some(port) } else { None }
    }

    /// Takes the memory of the parts and of the queues. Returns whether there was enough.
    fn reserve(&mut self) -> bool {
        self.part.resize(PART, 0).is_ok()
            && self.arriving.reserve(MAX_ARRIVING).is_ok()
            && self.replying.reserve(MAX_REPLYING).is_ok()
            && self.closing.reserve(MAX_CLOSING).is_ok()
    }

    /// The address at which the port listens.
    pub(super) fn address(&self) -> Option<SocketAddr> {
        self.listening.address()
    }

    /// Returns the next client whose request has arrived, or whose time is over. `Failed` if the clock can't be read,
    /// the system can't report, or `accept` failed for good or too many times in a row.
    pub(super) fn next(&mut self, runtime: &R) -> Result<TcpConn<R::Stream>, Failed> {
        self.gather(Some(Duration::ZERO))?;
        for _ in 0..u64::MAX {
            let now = Instant::now(runtime).map_err(|_| Failed)?;
            self.serve_others(now);
            let is_short = self.accept_all(now)?;
            self.receive_all(now);
            let due = self.arriving.iter().position(|client| client.is_due);
            if let Some(mut client) = due.and_then(|at| self.arriving.remove(at)) {
                client.conn.rest = mem::replace(&mut self.spare, Vec::new(self.alloc));
                return Ok(client.conn);
            }
            if is_short {
                self.listening.count_failure()?;
                thread::sleep(runtime, Duration::from_millis(PAUSE_MILLIS));
            } else {
                self.wait(now)?;
            }
        }
        Err(Failed)
    }

    /// Waits until each client that was served has its reply, or has had its time.
    pub(super) fn finish(&mut self, runtime: &R) -> Result<(), Failed> {
        self.log_unserved(runtime);
        self.arriving.clear();
        for _ in 0..u64::MAX {
            let now = Instant::now(runtime).map_err(|_| Failed)?;
            self.serve_others(now);
            if self.replying.is_empty() && self.closing.is_empty() {
                return Ok(());
            }
            // Nobody is accepted any more.
            self.listening.is_called = false;
            self.wait(now)?;
        }
        Err(Failed)
    }

    /// Takes back a connection whose reply was written.
    pub(super) fn back(&mut self, runtime: &R, conn: TcpConn<R::Stream>) {
        // Without a clock the connection is dropped, which closes it.
        let Ok(now) = Instant::now(runtime) else {
            return;
        };
        if conn.rest.is_empty() {
            self.keep_spare(conn.rest);
            self.close(conn.client, now);
        } else if let Some(deadline) = now.checked_add(Duration::from_secs(REPLY_SECONDS)) {
            self.make_room(conn.rest.len());
            // The queue was made with room for MAX_REPLYING clients.
            let reply = Replying::new(conn.client, conn.rest, now, deadline);
            let _ = self.replying.push_back(reply);
        }
    }

    /// Sends what it can of the replies, and drops what clients send after theirs.
    fn serve_others(&mut self, now: Instant) {
        for _ in 0..self.replying.len() {
            let Some(mut reply) = self.replying.pop_front() else {
                break;
            };
            match reply.send(now) {
                Turn::Unsent => {
                    // The place that it had is free.
                    let _ = self.replying.push_back(reply);
                }
                Turn::Sent => {
                    self.log_rest(&reply, "sent");
                    self.keep_spare(reply.rest);
                    self.close(reply.client, now);
                }
                Turn::Lost => {
                    self.log_rest(&reply, "lost");
                    self.keep_spare(reply.rest);
                }
            }
        }
        let part = &mut self.part;
        self.closing.retain_mut(|link| !link.drain(now, part));
    }

    /// Accepts the clients that wait to connect. Returns whether memory or descriptors ran out although the port has no
    /// client.
    fn accept_all(&mut self, now: Instant) -> Result<bool, Failed> {
        for _ in 0..MAX_ACCEPTED {
            if !self.listening.is_called {
                break;
            }
            if self.arriving.len() >= MAX_ARRIVING {
                self.receive_all(now);
                // If all requests are whole or about to be sent, further clients wait to connect.
                if !self.cut_arriving(now) {
                    break;
                }
            }
            match self.listening.accept()? {
                Accepted::Client(stream, peer) => self.admit(stream, peer, now),
                Accepted::Nobody => {}
                Accepted::Shortage => {
                    self.receive_all(now);
                    if self.cut_one(now) {
                        continue;
                    }
                    // If a request is whole, its answer frees a descriptor.
                    return Ok(self.arriving.is_empty());
                }
            }
        }
        Ok(false)
    }

    /// Has a client send its request. A client whose socket fails is closed, and so is one for which there is no
    /// memory.
    fn admit(&mut self, stream: R::Stream, peer: SocketAddr, now: Instant) {
        // Sends the end of a reply at once, and not when the client has acknowledged the rest.
        if stream.set_nodelay(true).is_err() || stream.set_nonblocking(true).is_err() {
            return;
        }
        let Some(deadline) = now.checked_add(Duration::from_secs(REQUEST_SECONDS)) else {
            return;
        };
        self.accepted = self.accepted.saturating_add(1);
        let client = Client::new(stream, peer, now, Token(self.accepted));
        // The queue was made with room for MAX_ARRIVING clients.
        let _ = self.arriving.push_back(Arriving {
            conn: TcpConn::new(self.alloc, client),
            deadline,
            is_due: false,
        });
    }

    /// Receives what has arrived of the requests.
    fn receive_all(&mut self, now: Instant) {
        for client in self.arriving.iter_mut() {
            client.receive(self.alloc, &mut self.part, now);
        }
    }

    /// Closes a connection whose reply was sent whole, once its client has stopped sending.
    fn close(&mut self, client: Client<R::Stream>, now: Instant) {
        // A client that has gone is closed at once.
        if client.stream.shutdown(Shutdown::Write).is_err() {
            return;
        }
        let Some(deadline) = now.checked_add(Duration::from_secs(DRAIN_SECONDS)) else {
            return;
        };
        if self.closing.len() >= MAX_CLOSING {
            // Its socket is closed when it is dropped.
            let _ = self.closing.pop_front();
        }
        // The queue was made with room for MAX_CLOSING clients.
        let _ = self.closing.push_back(Closing::new(client, deadline));
    }

    /// Closes a client to free its descriptor: one that has its reply, or else one that is silent or has sent a part of
    /// its request. If no request is whole either, it closes the oldest client that has just connected, or else the
    /// slowest reader. Returns whether there was one.
    fn cut_one(&mut self, now: Instant) -> bool {
        self.closing.pop_front().is_some()
            || self.cut_arriving(now)
            || !self.arriving.iter().any(|client| client.is_due)
                && (self.cut_at(Some(0), now) || self.cut_slowest())
    }

    /// Closes the oldest client that is silent, or else the oldest that has sent a part of its request. Returns whether
    /// there was one.
    fn cut_arriving(&mut self, now: Instant) -> bool {
        let silent = (self.arriving.iter()).position(|client| client.is_silent(now));
        let cut = match silent {
            Some(at) => Some(at),
            None => self.arriving.iter().position(|client| client.is_partial()),
        };
        self.cut_at(cut, now)
    }

    /// Closes the client at this place among those whose requests are arriving. Returns whether there was one.
    fn cut_at(&mut self, cut: Option<usize>, now: Instant) -> bool {
        let Some(client) = cut.and_then(|at| self.arriving.remove(at)) else {
            return false;
        };
        if self.log.is_on() {
            self.log.keep(client.conn.line(now, Some("cut")));
        }
        true
    }

    /// Closes the client that has taken nothing of its reply for the longest time. Returns whether there was one.
    fn cut_slowest(&mut self) -> bool {
        let slowest = (self.replying.iter().enumerate()).min_by_key(|(_, reply)| reply.last_taken);
        let cut = slowest.map(|(at, _)| at);
        let Some(reply) = cut.and_then(|at| self.replying.remove(at)) else {
            return false;
        };
        self.log_rest(&reply, "cut");
        self.keep_spare(reply.rest);
        true
    }

    /// Keeps the memory of a reply for the next one, if it isn't too much.
    fn keep_spare(&mut self, mut rest: Vec<u8>) {
        if rest.capacity() <= MAX_SPARE && rest.capacity() > self.spare.capacity() {
            rest.clear();
            self.spare = rest;
        }
    }

    /// Closes the slowest readers until there is room for a further reply, of which `size` bytes are kept.
    fn make_room(&mut self, size: usize) {
        for _ in 0..MAX_REPLYING {
            let kept = (self.replying.iter()).fold(
                size,
                |sum, reply| sum.saturating_add(reply.size()),
            );
            if kept <= MAX_KEPT && self.replying.len() < MAX_REPLYING {
                return;
            }
            self.cut_slowest();
        }
    }

    /// Logs how the rest of a reply ended.
    fn log_rest(&self, reply: &Replying<R::Stream>, end: &str) {
        if self.log.is_on() {
            self.log.keep(reply.line(end));
        }
    }

    /// Logs the clients whose requests won't be served.
    fn log_unserved(&self, runtime: &R) {
        if !self.log.is_on() {
            return;
        }
        let Ok(now) = Instant::now(runtime) else {
            return;
        };
        for client in self.arriving.iter() {
            self.log.keep(client.conn.line(now, Some("stopped")));
        }
    }

    /// Writes the kept lines of the log once their time is over.
    fn tend_log(&mut self, now: Instant) {
        if !self.log.has_kept() {
            self.log_deadline = None;
        } else if self.log_deadline.is_none() {
            self.log_deadline = now.checked_add(Duration::from_millis(LOG_MILLIS));
        } else if self.log_deadline.is_some_and(|deadline| deadline <= now) {
            self.log.flush();
            self.log_deadline = None;
        }
    }

    /// Waits until somebody connects, a client can be served further, or a client's time is over.
    fn wait(&mut self, now: Instant) -> Result<(), Failed> {
        self.tend_log(now);
        let mut all_watched = true;
        for client in self.arriving.iter_mut() {
            all_watched = client.conn.watch(&self.poll) && all_watched;
        }
        for reply in self.replying.iter_mut() {
            all_watched = reply.client.watch(&self.poll) && all_watched;
        }
        for link in self.closing.iter_mut() {
            all_watched = link.client.watch(&self.poll) && all_watched;
        }
        let timeout = if self.has_more_to_do() {
            Some(Duration::ZERO)
        } else if all_watched && !self.listening.is_called {
            self.next_deadline()
                .map(|deadline| deadline.duration_since(now))
        } else {
            Some(Duration::from_millis(PAUSE_MILLIS))
        };
        self.gather(timeout)
    }

    /// Whether a turn left something that needs no report of the system.
    fn has_more_to_do(&self) -> bool {
        self.listening.is_called && self.arriving.len() < MAX_ARRIVING
            || self.arriving.iter().any(|client| client.conn.is_ready())
            || self.replying.iter().any(|reply| reply.client.is_ready)
    }

    /// When the next client's time is over, or that of the kept lines. The first client of each queue is the next one,
    /// since all clients of a queue have the same time.
    fn next_deadline(&self) -> Option<Instant> {
        let arriving = self.arriving.front().map(|client| client.deadline);
        let replying = self.replying.front().map(|reply| reply.deadline);
        let closing = self.closing.front().map(|link| link.deadline);
        earlier(
            earlier(arriving, replying),
            earlier(closing, self.log_deadline),
        )
    }

    /// Waits at most for the time, and takes the system's reports.
    fn gather(&mut self, timeout: Option<Duration>) -> Result<(), Failed> {
        self.poll
            .poll(&mut self.reports, timeout)
            .map_err(|_| Failed)?;
        if self.reports.is_empty() {
            return Ok(());
        }
        let reports = &self.reports;
        let is_called = reports.iter().any(|report| report.token() == CALLS);
        self.listening.is_called = self.listening.is_called || is_called;
        for client in self.arriving.iter_mut() {
            client.conn.client.note(reports);
        }
        for reply in self.replying.iter_mut() {
            reply.client.note(reports);
        }
        for link in self.closing.iter_mut() {
            link.client.note(reports);
        }
        Ok(())
    }
}

/// The earlier of two times, or the one that there is.
fn earlier(one: Option<Instant>, other: Option<Instant>) -> Option<Instant> {
    match (one, other) {
        (Some(one), Some(other)) => Some(one.min(other)),
        (one, None) => one,
        (None, other) => other,
    }
}
