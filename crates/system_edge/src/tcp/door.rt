//! The door of the system: a TCP port.

ghost use Rattle.std.specs.Prelude.{[]};

use super::conn::TcpConn;
use super::port::Port;
use crate::log::{Line, Log};
use crate::progress::Progress;
use atom_values::Failed;
use document_server::Door;
use std::alloc::Global;
use std::net::{Net, SocketAddr};
use std::rt;
use std::time::Instant;

/// A TCP port, on which clients connect. It never runs out of connections.
///
/// It gives one connection at a time, each once its request has arrived or its time is over. A reply that a client
/// doesn't take at once is kept and sent beside other work. So a client that is silent or slow holds nobody up.
///
/// A connection that fails is its own fault, and never the door's.
#[derive(Drop)]
pub struct TcpDoor<'a, R: Net + rt::Clock + Eprint> {
    alloc: Global,
    runtime: &'a R,
    log: &'a Log,
    progress: &'a Progress<'a, R>,
    port: Option<Port<'a, R>>,
    faults: u64,
}

impl<'a, R: Net + rt::Clock + Eprint> TcpDoor<'a, R> {
    /// A door that doesn't listen yet.
    pub fn new(
        alloc: Global,
        runtime: &'a R,
        log: &'a Log,
        progress: &'a Progress<'a, R>,
    ) -> TcpDoor<'a, R> {
        TcpDoor {
            alloc,
            runtime,
            log,
            progress,
            port: None,
            faults: 0,
        }
    }

    /// The address at which the door listens.
    pub fn address(&self) -> Option<SocketAddr> {
        self.port.as_ref()?.address()
    }

    /// Sends the replies that clients haven't taken yet, and waits for these clients, 31 seconds at most. To be called
    /// before the program ends.
    pub fn finish(&mut self) {
        if let Some(port) = &mut self.port {
            // A failure leaves nothing to do: the program's end closes all connections.
            let _ = port.finish(self.runtime);
        }
        self.log.flush();
    }

    /// Logs the address at which the door listens.
    fn log_address(&self) {
        if let Some(address) = self.address() {
            let mut line = Line::new("listen");
            line.address("address", address);
            self.log.write(line);
        }
    }

    /// Logs a connection that was given back.
    fn log_connection(&self, link: &TcpConn<R::Stream>) {
        if let Ok(now) = Instant::now(self.runtime) {
            self.log.keep(link.line(now, link.end()));
        }
    }
}

impl<'a, R: Net + rt::Clock + Eprint> Door for TcpDoor<'a, R> {
    type Link = TcpConn<R::Stream>;

    ghost observable = { ⊥ };

    ghost state = { λ d. record { left = []; back = []; out = 0; faults = d.faults } };

    // Contracts can't see at which address the system listens.
    ghost listens = { λ _ _. Unit {0} };

    ghost only_at = { λ _ _. Unit {0} };

    fn listen(&mut self, at: &[u8]) -> Result<(), Failed> {
        // The load is over.
        self.progress.end();
        self.port = Port::bind(self.alloc, self.runtime, self.log, at);
        if self.port.is_none() {
            self.faults = self.faults.saturating_add(1);
            return Err(Failed);
        }
        if self.log.is_on() {
            self.log_address();
        }
        Ok(())
    }

    fn next(&mut self) -> Result<Option<TcpConn<R::Stream>>, Failed> {
        let conn = match &mut self.port {
            Some(port) => port.next(self.runtime),
            None => Err(Failed),
        };
        match conn {
            Ok(mut conn) => {
                conn.restart();
                Ok(Some(conn))
            }
            Err(Failed) => {
                self.faults = self.faults.saturating_add(1);
                Err(Failed)
            }
        }
    }

    // A connection that failed, before its reply or within it, closes at once.
    fn back(&mut self, link: TcpConn<R::Stream>) {
        if self.log.is_on() {
            self.log_connection(&link);
        }
        if link.begun.is_none() || link.faults > 0 {
            return;
        }
        if let Some(port) = &mut self.port {
            port.back(self.runtime, link);
        }
    }

    ghost tells = { λ none. none };
}
