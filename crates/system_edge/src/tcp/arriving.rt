//! A client whose request is arriving.

use super::conn::TcpConn;
use std::alloc::Global;
use std::io::{Read, Write};
use std::net::OpenStream;
use std::os::fd::AsRawFd;
use std::time::{Duration, Instant};

/// How long a client has to send its first byte before it counts as silent.
const SILENT_SECONDS: u64 = 1;

/// A connection whose request is arriving.
#[derive(Drop)]
pub(super) struct Arriving<S> {
    pub(super) conn: TcpConn<S>,
    /// When the client's time for its request ends.
    pub(super) deadline: Instant,
    /// Whether the connection is to be served: its request is whole, no more of it will arrive, or its time is over.
    pub(super) is_due: bool,
}

impl<S: OpenStream + Read + Write + AsRawFd + Drop> Arriving<S> {
    /// Whether the client has had a second to send its first byte, and has sent nothing.
    pub(super) fn is_silent(&self, now: Instant) -> bool {
        !self.is_due
            && self.conn.is_silent()
            && now.duration_since(self.conn.client.accepted) >= Duration::from_secs(SILENT_SECONDS)
    }

    /// Whether the client has sent a part of its request.
    pub(super) fn is_partial(&self) -> bool {
        !self.is_due && !self.conn.is_silent()
    }

    /// Receives what has arrived, a part of the length of `part` at a time.
    pub(super) fn receive(&mut self, alloc: Global, part: &mut [u8], now: Instant) {
        if self.is_due {
            return;
        }
        // What arrived in time counts, also if the server was busy when the time ended.
        let is_late = self.deadline <= now;
        if self.conn.is_to_try() || is_late {
            self.is_due = self.conn.receive(alloc, part) || is_late;
        }
    }
}
