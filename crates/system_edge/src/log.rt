//! The log: a line of `key=value` pairs on standard error for each event, if the environment asks for it.

use arrayvec::ArrayString;
use itoa::Buffer;
use std::cell::RefCell;
use std::fmt::Write;
use std::net::SocketAddr;
use std::rt::{Env, Stderr};
use std::time::Duration;

/// The most bytes of a value that came from outside, as it is written.
const MAX_VALUE: usize = 200;

/// The room of a line with its LF. A line with three values of `MAX_VALUE` bytes fits.
const MAX_LINE: usize = 1_024;

/// The room for lines that are kept. Some eighty lines of connections fit.
const MAX_KEPT: usize = 8_192;

/// Where events are written: to standard error or nowhere.
///
/// A line is written at once, or kept and written with others, since a call of the system costs more than the rest of a
/// line. Lines are written in the order in which they came.
#[derive(Drop)]
pub struct Log {
    to: Option<Stderr>,
    /// Whole lines that aren't written yet.
    kept: RefCell<ArrayString<MAX_KEPT>>,
}

impl Log {
    /// The log that the environment asks for: standard error if `FEED_LOG` is `stderr`, and nowhere if not.
    pub fn new(environment: &impl Env, stderr: Stderr) -> Log {
        let mut word = [0u8; 8];
        let is_asked = match environment.var("FEED_LOG", &mut word) {
            Ok(length) => word.get(..length) == Some(b"stderr".as_slice()),
            Err(_) => false,
        };
        Log {
            to: if is_asked { Some(stderr) } else { None },
            kept: RefCell::new(ArrayString::new()),
        }
    }

    /// Whether events are written. If they aren't, callers build no line.
    pub fn is_on(&self) -> bool {
        self.to.is_some()
    }

    /// Writes a line with those that are kept.
    pub fn write(&self, line: Line) {
        self.keep(line);
        self.flush();
    }

    /// Keeps a line until the next `flush`. If there is no room for it, those that are kept are written first.
    pub fn keep(&self, mut line: Line) {
        line.end();
        if !self.push(line.as_str()) {
            self.flush();
            // A line is shorter than the room for all.
            self.push(line.as_str());
        }
    }

    /// Adds a text to what is kept. Returns whether there was room for it.
    fn push(&self, text: &str) -> bool {
        match self.kept.try_borrow_mut() {
            Ok(mut kept) => kept.try_push_str(text).is_ok(),
            Err(_) => false,
        }
    }

    /// Whether a line is kept.
    pub fn has_kept(&self) -> bool {
        match self.kept.try_borrow() {
            Ok(kept) => !kept.as_str().is_empty(),
            Err(_) => false,
        }
    }

    /// Writes the lines that are kept in one call of the system. A failure loses them and changes nothing else, since
    /// nothing depends on the log.
    pub fn flush(&self) {
        if let Some(stderr) = self.to {
            if let Ok(mut kept) = self.kept.try_borrow_mut() {
                if !kept.as_str().is_empty() {
                    let _ = stderr.write_all(kept.as_str().as_bytes());
                    kept.clear();
                }
            }
        }
    }
}

/// The line of an event, without its LF. It takes no memory, and a pair for which there is no room is cut.
///
/// Each pair but the first follows a space. No value has a space, a control character or a byte that isn't ASCII.
#[derive(Drop)]
pub struct Line {
    text: ArrayString<MAX_LINE>,
}

impl Line {
    /// The line of an event, which has no further pair yet.
    pub fn new(event: &str) -> Line {
        let mut line = Line {
            text: ArrayString::new(),
        };
        line.push("event=");
        line.push(event);
        line
    }

    pub fn as_str(&self) -> &str {
        self.text.as_str()
    }

    /// Adds a text, if there is room for it.
    fn push(&mut self, text: &str) {
        let _ = self.text.try_push_str(text);
    }

    /// Begins a pair.
    fn key(&mut self, key: &str) {
        self.push(" ");
        self.push(key);
        self.push("=");
    }

    /// Adds a word, which has no space.
    pub fn word(&mut self, key: &str, word: &str) {
        self.key(key);
        self.push(word);
    }

    /// Adds the digits of a number.
    fn digits(&mut self, number: u64) {
        self.push(Buffer::new().format(number));
    }

    /// Adds a number.
    pub fn number(&mut self, key: &str, number: u64) {
        self.key(key);
        self.digits(number);
    }

    /// Adds the address of a socket.
    pub fn address(&mut self, key: &str, address: SocketAddr) {
        self.key(key);
        let SocketAddr::V4(address) = address else {
            let _ = write!(self.text, "{address}");
            return;
        };
        let octets = address.ip().octets();
        let mut mark = "";
        for octet in &octets {
            self.push(mark);
            self.digits(u64::from(*octet));
            mark = ".";
        }
        self.push(":");
        self.digits(u64::from(address.port()));
    }

    /// Adds a time in milliseconds, with three digits after the point.
    pub fn millis(&mut self, key: &str, time: Duration) {
        let micros = time.subsec_micros() % 1_000;
        self.key(key);
        self.digits(u64::try_from(time.as_millis()).unwrap_or(u64::MAX));
        self.push(match micros {
            0..=9 => ".00",
            10..=99 => ".0",
            _ => ".",
        });
        self.digits(u64::from(micros));
    }

    /// Adds bytes that came from outside. A backslash, and each byte that isn't a printable ASCII character, is written
    /// as `\xNN`. If that takes more than 200 bytes, the value ends before the first byte that doesn't fit whole.
    pub fn bytes(&mut self, key: &str, bytes: &[u8]) {
        self.key(key);
        let mut room = MAX_VALUE;
        for &byte in bytes {
            let is_plain = byte.is_ascii_graphic() && byte != b'\\';
            let length = if is_plain { 1 } else { 4 };
            if room < length {
                break;
            }
            room -= length;
            if is_plain {
                let _ = self.text.try_push(char::from(byte));
            } else {
                let _ = write!(self.text, "\\x{byte:02x}");
            }
        }
    }

    /// Ends the line by its LF, which takes the place of the last character if there is no room.
    fn end(&mut self) {
        if self.text.try_push('\n').is_err() {
            self.text.pop();
            self.push("\n");
        }
    }
}
