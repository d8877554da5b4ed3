//! What was written of a reply.

use std::str;

/// What was written of a reply. Only the log reads it.
#[derive(Drop)]
pub(super) struct Written {
    /// The status that the reply begins with.
    pub(super) status: Option<u16>,
    pub(super) bytes: u64,
}

impl Written {
    pub(super) fn new() -> Written {
        Written {
            status: None,
            bytes: 0,
        }
    }

    /// Counts the first `count` bytes of `part`.
    pub(super) fn count(&mut self, part: &[u8], count: usize) {
        if self.bytes == 0 {
            self.status = status_of(part);
        }
        self.bytes = self.bytes.saturating_add(count as u64);
    }
}

/// The status of a reply, which follows `HTTP/1.1` and a space.
fn status_of(reply: &[u8]) -> Option<u16> {
    str::from_utf8(reply.get(9..12)?).ok()?.parse::<u16>().ok()
}
