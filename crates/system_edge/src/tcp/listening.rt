//! A socket that listens.

use atom_values::Failed;
use mio::unix::SourceFd;
use mio::{Interest, Poll, Token};
use std::io::{Error, ErrorKind};
use std::net::{OpenListener, SocketAddr};
use std::os::fd::AsRawFd;

/// How many times in a row `accept` may fail. With the pauses between the calls that is about a second.
const MAX_FAILURES: u32 = 100;

/// The result of an `accept`.
pub(super) enum Accepted<S> {
    Client(S, SocketAddr),
    /// Nobody waits to connect, or the client has gone.
    Nobody,
    /// Memory or descriptors ran out.
    Shortage,
}

/// Whether a failure of `accept` is a lack of memory or of descriptors, which may be free again soon: ENOMEM, ENFILE,
/// EMFILE and ENOBUFS.
fn is_shortage(error: &Error) -> bool {
    matches!(error.raw_os_error(), Some(12 | 23 | 24 | 105))
}

/// Whether a failure of `accept` concerns its client alone. EPERM is the refusal of a firewall. ENONET, EPROTO,
/// ENOPROTOOPT, EOPNOTSUPP, ENETDOWN, ENETUNREACH, ECONNABORTED, ECONNRESET, ETIMEDOUT, EHOSTDOWN and EHOSTUNREACH are
/// network errors of the accepted connection, which Linux returns here.
fn is_of_client(error: &Error) -> bool {
    matches!(
        error.raw_os_error(),
        Some(1 | 64 | 71 | 92 | 95 | 100 | 101 | 103 | 104 | 110 | 112 | 113)
    )
}

/// A socket that listens, no call on which waits.
#[derive(Drop)]
pub(super) struct Listening<L> {
    listener: L,
    /// Whether clients may wait to connect. The system reports them once, so this holds until `accept` finds nobody.
    pub(super) is_called: bool,
    /// How many times in a row `accept` failed.
    failures: u32,
}

impl<L: OpenListener + AsRawFd + Drop> Listening<L> {
    /// Has the system report clients under `token`. `None` if it can't.
    pub(super) fn new(listener: L, poll: &Poll, token: Token) -> Option<Listening<L>> {
        listener.set_nonblocking(true).ok()?;
        let mut source = SourceFd(&listener.as_raw_fd());
        (poll
            .registry()
            .register(&mut source, token, Interest::READABLE))
        .ok()?;
        Some(Listening {
            listener,
            is_called: true,
            failures: 0,
        })
    }

    /// The address at which the socket listens. At port 0 the system chose the port.
    pub(super) fn address(&self) -> Option<SocketAddr> {
        self.listener.local_addr().ok()
    }

    /// Accepts a client. `Failed` if `accept` failed for good, or `MAX_FAILURES` times in a row.
    pub(super) fn accept(&mut self) -> Result<Accepted<L::Stream>, Failed> {
        match self.listener.accept() {
            Ok((stream, peer)) => {
                self.failures = 0;
                Ok(Accepted::Client(stream, peer))
            }
            Err(error) if error.kind() == ErrorKind::WouldBlock => {
                self.is_called = false;
                Ok(Accepted::Nobody)
            }
            Err(error) if error.kind() == ErrorKind::Interrupted => Ok(Accepted::Nobody),
            Err(error) if is_shortage(&error) => Ok(Accepted::Shortage),
            Err(error) if is_of_client(&error) => {
                self.count_failure()?;
                Ok(Accepted::Nobody)
            }
            Err(_) => Err(Failed),
        }
    }

    /// Counts a failure of `accept`. `Failed` if there were `MAX_FAILURES` in a row.
    pub(super) fn count_failure(&mut self) -> Result<(), Failed> {
        self.failures = self.failures.saturating_add(1);
        if self.failures < MAX_FAILURES {
            Ok(())
        } else {
            Err(Failed)
        }
    }
}
