//! The socket of a client, no call on which waits.

ghost use Rattle.std.specs.Prelude.{◌≤◌, length, IfOk, IfSome};

use atom_values::Failed;
use mio::event::Events;
use mio::unix::SourceFd;
use mio::{Interest, Poll, Token};
use std::io::{ErrorKind, Read, Write};
use std::net::{OpenStream, SocketAddr};
use std::os::fd::AsRawFd;
use std::time::Instant;

/// The socket of a client. It doesn't wait: a call that has nothing to do returns at once.
#[derive(Drop)]
pub(super) struct Client<S> {
    pub(super) stream: S,
    pub(super) peer: SocketAddr,
    /// When the client had connected.
    pub(super) accepted: Instant,
    /// The name by which the system reports the socket.
    token: Token,
    /// Whether the system reports the socket when a call on it has something to do.
    is_watched: bool,
    /// Whether a call may have something to do. The system reports this once, so it holds until a call had nothing to
    /// do.
    pub(super) is_ready: bool,
    /// Whether a call on the socket has failed.
    pub(super) has_failed: bool,
}

impl<S: OpenStream + Read + Write + AsRawFd> Client<S> {
    pub(super) fn new(stream: S, peer: SocketAddr, accepted: Instant, token: Token) -> Client<S> {
        Client {
            stream,
            peer,
            accepted,
            token,
            is_watched: false,
            is_ready: true,
            has_failed: false,
        }
    }

    /// Whether a call is to be made: it may have something to do, or the system wouldn't report it.
    pub(super) fn is_to_try(&self) -> bool {
        self.is_ready || !self.is_watched
    }

    /// Has the system report the socket from now on, and also what has happened before. Returns whether it will.
    pub(super) fn watch(&mut self, poll: &Poll) -> bool {
        if !self.is_watched {
            let both = Interest::READABLE | Interest::WRITABLE;
            let mut source = SourceFd(&self.stream.as_raw_fd());
            self.is_watched = (poll.registry().register(&mut source, self.token, both)).is_ok();
        }
        self.is_watched
    }

    /// Notes whether the system has reported the socket.
    pub(super) fn note(&mut self, reports: &Events) {
        self.is_ready = self.is_ready || reports.iter().any(|report| report.token() == self.token);
    }

    /// Receives bytes into the start of `into`, and returns how many: 0 at the end of the bytes, `None` if none have
    /// arrived yet. `Failed` if the connection failed.
    pub(super) fn receive(&mut self, into: &mut [u8]) -> Result<Option<usize>, Failed>
        ensures within { IfOk result (λ received. IfSome received (λ count. count ≤ length into.old)) }
    {
        // A call that a signal interrupted took no byte, and is made again.
        for _ in 0..u64::MAX {
            match self.stream.read(into) {
                Ok(count) => return Ok(Some(count)),
                Err(error) if error.kind() == ErrorKind::Interrupted => {}
                Err(error) if error.kind() == ErrorKind::WouldBlock => {
                    self.is_ready = false;
                    return Ok(None);
                }
                Err(_) => break,
            }
        }
        self.has_failed = true;
        Err(Failed)
    }

    /// Sends bytes from the start of `from`, which isn't empty, and returns how many the system has taken: 0 while it
    /// has no room. `Failed` if the connection failed.
    ///
    /// A send to a client that has gone fails and raises no SIGPIPE, since std sends with MSG_NOSIGNAL.
    pub(super) fn send(&mut self, from: &[u8]) -> Result<usize, Failed>
        ensures within { IfOk result (λ count. count ≤ length from.now) }
    {
        for _ in 0..u64::MAX {
            match self.stream.write(from) {
                Ok(count) if count > 0 => return Ok(count),
                Err(error) if error.kind() == ErrorKind::Interrupted => {}
                Err(error) if error.kind() == ErrorKind::WouldBlock => {
                    self.is_ready = false;
                    return Ok(0);
                }
                // A call that takes no byte of some could be made again for ever.
                _ => break,
            }
        }
        self.has_failed = true;
        Err(Failed)
    }
}
