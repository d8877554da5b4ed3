//! A client that has its reply.

use super::client::Client;
use atom_values::Failed;
use std::io::{Read, Write};
use std::net::OpenStream;
use std::os::fd::AsRawFd;
use std::time::Instant;

/// How long a client may go on sending after its reply.
pub(super) const DRAIN_SECONDS: u64 = 1;

/// How many bytes a client may go on sending after its reply.
const DRAIN_BYTES: usize = 256 * 1024;

/// A connection whose reply was sent whole. Its client may still be sending a request that was refused unread.
///
/// To close a socket with unread bytes resets the connection, and a reset can overtake the reply. So the socket stays
/// open, and what arrives is dropped, until the client closes the connection or has had its time or its bytes.
#[derive(Drop)]
pub(super) struct Closing<S> {
    pub(super) client: Client<S>,
    pub(super) deadline: Instant,
    /// How many bytes the client may still send.
    room: usize,
}

impl<S: OpenStream + Read + Write + AsRawFd> Closing<S> {
    pub(super) fn new(client: Client<S>, deadline: Instant) -> Closing<S> {
        Closing {
            client,
            deadline,
            room: DRAIN_BYTES,
        }
    }

    /// Drops what has arrived, which is received into `part`. Returns whether the socket may be closed.
    pub(super) fn drain(&mut self, now: Instant, part: &mut [u8]) -> bool {
        if !self.client.is_to_try() {
            return self.deadline <= now;
        }
        while self.room > 0 {
            let most = self.room.min(part.len());
            match self.client.receive(&mut part[..most]) {
                Ok(None) => return self.deadline <= now,
                Ok(Some(0)) | Err(Failed) => return true,
                Ok(Some(count)) => self.room -= count,
            }
        }
        true
    }
}
