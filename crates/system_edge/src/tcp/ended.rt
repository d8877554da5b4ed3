//! The log's line of a connection.

use crate::log::Line;
use std::net::SocketAddr;
use std::time::Duration;

/// A connection that has ended, as the log knows it.
#[derive(Drop)]
pub struct EndedConn<'a> {
    pub peer: SocketAddr,
    /// The bytes that the client has sent.
    pub request: &'a [u8],
    /// The status that the reply began with, if one was begun.
    pub status: Option<u16>,
    /// How many bytes of a reply were written.
    pub bytes: u64,
    /// The time since the client had connected.
    pub time: Duration,
    /// Why the connection ended without a whole reply, if it did.
    pub end: Option<&'a str>,
}

impl EndedConn<'_> {
    pub fn line(&self) -> Line {
        let mut line = Line::new("connection");
        line.address("peer", self.peer);
        let (method, target) = request_words(self.request);
        line.bytes("method", method);
        line.bytes("target", target);
        if let Some(status) = self.status {
            line.number("status", u64::from(status));
        }
        line.number("bytes", self.bytes);
        line.millis("ms", self.time);
        if let Some(end) = self.end {
            line.word("end", end);
        }
        line
    }
}

/// The method and the target of a request as they came, each as far as it has arrived.
fn request_words(bytes: &[u8]) -> (&[u8], &[u8]) {
    let line = bytes.split(|byte| matches!(byte, b'\r' | b'\n')).next();
    let mut words = line.unwrap_or(&[]).split(|byte| *byte == b' ');
    let method = words.next().unwrap_or(&[]);
    (method, words.next().unwrap_or(&[]))
}
