//! Documents over HTTP: a thin adapter, of which contracts know the request, the limit and the count of
//! faults alone.

ghost use Rattle.std.specs.Prelude.{◌≡◌, ◌≤◌, [], None, IfOk, IfSome, vec_len};
ghost use Rattle.doc_source.specs.Pile.{offer_limit};

use crate::document::read_document;
use crate::fetch::{Fetch, GetFault};
use crate::target::Target;
use atom_values::Failed;
use feed_disk::Disk;
use http_face::Conn;
use std::alloc::Global;
use std::io::{ErrorKind, Read, Write};
use std::net::{Net, OpenStream, TcpStream, ToSocketAddrs};
use std::str;
use std::time::Duration;

/// How long each address of a host has to accept the connection.
const CONNECT_SECONDS: u64 = 10;

/// How long a server may send or take no byte.
const SILENT_SECONDS: u64 = 30;

/// The port of an address that states none (RFC 9110 section 4.2.1).
const PORT: u16 = 80;

/// A connection to a server. Its calls fail if the server is silent for `SILENT_SECONDS`.
#[derive(Drop)]
struct Link<R: Net> {
    stream: R::Stream,
    begun: Option<u64>,
    faults: u64,
    bytes_read: u64,
    reads: u64,
}

impl<R: Net> Conn for Link<R> {
    ghost observable = { ⊥ };

    ghost state = { λ s. record {
      left = [];
      sent = [];
      faults = s.faults;
      begun = s.begun;
      bytes_read = s.bytes_read;
      reads = s.reads;
      before_read = [];
    } };

    fn read(&mut self, into: &mut [u8]) -> Result<usize, Failed> {
        self.reads = self.reads.saturating_add(1);
        // A read that a signal interrupted took no byte, and is made again.
        for _ in 0..u64::MAX {
            match self.stream.read(into) {
                Ok(count) => {
                    self.bytes_read = self.bytes_read.saturating_add(count as u64);
                    return Ok(count);
                }
                Err(error) if error.kind() == ErrorKind::Interrupted => {}
                Err(_) => break,
            }
        }
        self.faults = self.faults.saturating_add(1);
        Err(Failed)
    }

    fn begin<D: Disk>(&mut self, disk: &D) {
        self.begun = Some(disk.calls());
    }

    // No reply is written on a connection to a server.
    fn write(&mut self, _from: &[u8]) -> Result<usize, Failed> {
        self.faults = self.faults.saturating_add(1);
        Err(Failed)
    }
}

/// The documents of HTTP servers, over TCP. Each get makes a connection of its own.
///
/// An address is `http://HOST/..` or `http://HOST:PORT/..`. Each address of the host is tried in turn, for at
/// most 10 seconds. A get fails if the server sends or takes no byte for 30 seconds. Redirects are failures.
#[derive(Drop)]
pub struct HttpFetch<'a, R: Net> {
    runtime: &'a R,
    faults: u64,
}

impl<'a, R: Net> HttpFetch<'a, R> {
    /// A fetch before its first call.
    pub fn new(runtime: &'a R) -> HttpFetch<'a, R>
        ensures { (⟦<HttpFetch<'a, R> as Fetch>⟧.state result).faults ≡ 0 }
    {
        HttpFetch { runtime, faults: 0 }
    }

    /// How many calls failed. The count stays at the greatest `u64`.
    pub fn faults(&self) -> u64
        ensures { result ≡ (⟦<HttpFetch<'a, R> as Fetch>⟧.state self.now).faults }
    {
        self.faults
    }

    /// Connects to a host, at each of its addresses in turn. `None` if none accepts.
    fn connect(&self, authority: &[u8]) -> Option<R::Stream> {
        let text = str::from_utf8(authority).ok()?;
        let addresses = if text.contains(':') {
            text.to_socket_addrs(self.runtime).ok()?
        } else {
            (text, PORT).to_socket_addrs(self.runtime).ok()?
        };
        for address in addresses {
            let timeout = Duration::from_secs(CONNECT_SECONDS);
            if let Ok(stream) = TcpStream::connect_timeout(self.runtime, &address, timeout) {
                return Some(stream);
            }
        }
        None
    }

    /// Sends the request to its host, and returns the connection. `None` if a call failed.
    fn send(&self, authority: &[u8], request: &[u8]) -> Option<Link<R>> {
        let mut stream = self.connect(authority)?;
        let silent = Some(Duration::from_secs(SILENT_SECONDS));
        stream.set_read_timeout(silent).ok()?;
        stream.set_write_timeout(silent).ok()?;
        stream.write_all(request).ok()?;
        Some(Link {
            stream,
            begun: None,
            faults: 0,
            bytes_read: 0,
            reads: 0,
        })
    }

    /// Makes a get without counting its failure.
    fn ask(&self, alloc: Global, address: &[u8]) -> Result<Option<Vec<u8>>, GetFault>
        ensures limit { IfOk result (λ found. IfSome found (λ bytes. vec_len bytes ≤ offer_limit)) }
    {
        let Some(target) = Target::of(address) else {
            return Err(GetFault::Failed);
        };
        let request = target.request(alloc)?;
        let Some(mut link) = self.send(target.authority, &request) else {
            return Err(GetFault::Failed);
        };
        read_document(alloc, &mut link)
    }
}

impl<R: Net> Fetch for HttpFetch<'_, R> {
    ghost observable = { ⊥ };

    ghost state = { λ f. record { asked = []; answers = λ _. None; faults = f.faults } };

    fn get(&mut self, alloc: Global, address: &[u8]) -> Result<Option<Vec<u8>>, GetFault> {
        match self.ask(alloc, address) {
            Ok(found) => Ok(found),
            Err(GetFault::NoMemory) => Err(GetFault::NoMemory),
            Err(GetFault::Failed) => {
                self.faults = self.faults.saturating_add(1);
                Err(GetFault::Failed)
            }
        }
    }
}
