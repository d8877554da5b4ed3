//! A client that is taking its reply.

ghost use Rattle.std.specs.Prelude.{◌≤◌, vec_len};

use super::client::Client;
use crate::log::Line;
use atom_values::Failed;
use std::io::{Read, Write};
use std::net::OpenStream;
use std::os::fd::AsRawFd;
use std::time::Instant;

/// How many bytes of a reply are sent before the other clients have their turn.
const TURN_BYTES: usize = 256 * 1024;

/// What a turn has left of a reply.
#[derive(Clone, Copy, Debug, PartialEq, Eq)]
pub(super) enum Turn {
    /// Some of it has still to be sent.
    Unsent,
    /// The system has taken all of it.
    Sent,
    /// The client has gone, or its time is over.
    Lost,
}

/// A connection whose reply was too long for the system's room for it. The rest is sent beside other work.
#[derive(Drop)]
pub(super) struct Replying<S> {
    pub(super) client: Client<S>,
    pub(super) rest: Vec<u8>,
    /// How many bytes of the rest were sent.
    sent: usize,
    /// When the client's time for its reply ends.
    pub(super) deadline: Instant,
    /// When the client last made room for bytes.
    pub(super) last_taken: Instant,
    ghost in_range: { sent ≤ vec_len rest },
}

impl<S: OpenStream + Read + Write + AsRawFd> Replying<S> {
    pub(super) fn new(
        client: Client<S>,
        rest: Vec<u8>,
        now: Instant,
        deadline: Instant,
    ) -> Replying<S> {
        Replying {
            client,
            rest,
            sent: 0,
            deadline,
            last_taken: now,
        }
    }

    /// How many bytes of memory the rest takes.
    pub(super) fn size(&self) -> usize {
        self.rest.len()
    }

    /// The log's line for the rest of the reply when it ends.
    pub(super) fn line(&self, end: &str) -> Line {
        let mut line = Line::new("reply");
        line.address("peer", self.client.peer);
        line.number("sent", self.sent as u64);
        line.number("kept", self.rest.len() as u64);
        line.word("end", end);
        line
    }

    /// Sends a part of the rest.
    pub(super) fn send(&mut self, now: Instant) -> Turn {
        if self.deadline <= now {
            return Turn::Lost;
        }
        if !self.client.is_to_try() {
            return Turn::Unsent;
        }
        let end = self.sent.saturating_add(TURN_BYTES).min(self.rest.len());
        match self.client.send(&self.rest[self.sent..end]) {
            Err(Failed) => return Turn::Lost,
            Ok(0) => {}
            Ok(count) => {
                self.sent += count;
                self.last_taken = now;
            }
        }
        if self.sent < self.rest.len() {
            Turn::Unsent
        } else {
            Turn::Sent
        }
    }
}
