//! The line of progress: on a terminal, a long reading shows how far it is.

use crate::meter::Meter;
use feed_disk::Area;
use std::cell::Cell;
use std::env::FillError;
use std::fs;
use std::rt::{self, Env, Files};
use std::time::Instant;

/// Erases the line that the cursor is in.
const ERASED: &str = "\r\x1b[K";

/// The line of progress on standard error. The adapters count what is read, and it is drawn at most ten times a second,
/// not before the first half second, and erased at the end.
///
/// It takes no memory. A failure to draw it changes nothing.
#[derive(Drop)]
pub struct Progress<'a, R: rt::Clock + Eprint> {
    runtime: &'a R,
    /// `None` if nothing is drawn, or nothing more.
    meter: Cell<Option<Meter>>,
}

impl<'a, R: rt::Clock + Eprint + Env> Progress<'a, R> {
    /// The line of a command that begins now. It is drawn if standard error is a terminal and the environment has no
    /// `FEED_LOG`.
    pub fn new(runtime: &'a R, is_terminal: bool) -> Progress<'a, R> {
        let is_shown = is_terminal
            && matches!(runtime.var("FEED_LOG", &mut []), Err(FillError::NotPresent));
        let meter = if is_shown {
            Instant::now(runtime).ok().map(Meter::new)
        } else {
            None
        };
        Progress {
            runtime,
            meter: Cell::new(meter),
        }
    }
}

impl<R: rt::Clock + Eprint> Progress<'_, R> {
    /// Whether a line may still be drawn.
    pub fn is_on(&self) -> bool {
        self.meter.get().is_some()
    }

    /// Notes what is known of the input: whether it is typed at a terminal, and else how many bytes it has.
    pub fn expect_input(&self, is_typed: bool, size: Option<u64>) {
        if let Some(mut meter) = self.meter.get() {
            meter.expect_input(is_typed, size);
            self.meter.set(Some(meter));
        }
    }

    /// Ends the line if the input is typed, since a terminal shows what is typed in the same line. To be called before a
    /// read of the input.
    pub fn await_input(&self) {
        if self.meter.get().is_some_and(|meter| meter.is_typed) {
            self.end();
        }
    }

    /// Notes how many bytes an area's file has.
    pub fn note_size(&self, area: Area, size: u64) {
        if let Some(mut meter) = self.meter.get() {
            meter.note_size(area, size);
            self.look(meter);
        }
    }

    /// Counts a read of an area's file.
    pub fn count_file(&self, area: Area, at: u64, count: usize) {
        if let Some(mut meter) = self.meter.get() {
            meter.count_file(area, at, count as u64);
            self.look(meter);
        }
    }

    /// Counts a read of the input, which was asked for `room` bytes.
    pub fn count_input(&self, room: usize, count: usize) {
        if let Some(mut meter) = self.meter.get() {
            if meter.count_input(room, count) {
                self.look(meter);
            } else {
                self.meter.set(Some(meter));
            }
        }
    }

    /// Counts a document of a server.
    pub fn count_document(&self, count: usize) {
        if let Some(mut meter) = self.meter.get() {
            meter.count_document(count as u64);
            self.look(meter);
        }
    }

    /// Draws the line, if it is time to. To be called after a call that may have taken long.
    pub fn tick(&self) {
        if let Some(meter) = self.meter.get() {
            self.look(meter);
        }
    }

    /// Erases the line, and draws none from now on.
    pub fn end(&self) {
        if let Some(meter) = self.meter.replace(None) {
            if meter.is_drawn {
                let _ = self.runtime.eprint(ERASED);
            }
        }
    }

    /// Keeps the meter, and draws the line if it is time to.
    fn look(&self, mut meter: Meter) {
        if let Ok(now) = Instant::now(self.runtime) {
            if meter.look(now) {
                let _ = self.runtime.eprint(meter.line(now).as_str());
            }
        }
        self.meter.set(Some(meter));
    }
}

/// The number of bytes of the input, if it is a file. This opens nothing.
pub fn input_size<R: Files>(runtime: &R) -> Option<u64> {
    let input = fs::metadata(runtime, "/dev/stdin").ok()?;
    input.is_file().then(|| input.len())
}
