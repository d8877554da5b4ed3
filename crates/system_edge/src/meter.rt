//! What the line of progress says: how much was read, of how much in all, and how fast.

use arrayvec::ArrayString;
use feed_disk::Area;
use std::fmt::Write;
use std::time::{Duration, Instant};

/// The room of a line. The longest one, with three numbers of 16 bytes, fits.
const MAX_LINE: usize = 128;

/// The time before the first drawing. A command that ends earlier draws nothing.
const FIRST_MILLIS: u64 = 500;

/// The least time between two drawings.
const PAUSE_MILLIS: u64 = 100;

/// The fewest bytes of short reads of the input after which the clock is looked at. A certificate is read byte by byte.
const LOOK_BYTES: usize = 4_096;

/// What is being read.
#[derive(Clone, Copy, PartialEq, Eq)]
enum Reading {
    /// The files of the disk, from their beginning to their end.
    Files,
    /// The program's input.
    Input,
    /// Documents of a server.
    Documents,
    /// Parts of the files, after the input or the documents.
    Parts,
}

/// How far a file was read.
#[derive(Clone, Copy)]
struct Place {
    size: u64,
    /// The offset at which the last read began.
    start: u64,
    /// The offset at which it ended.
    end: u64,
}

impl Place {
    /// The beginning of a file of no bytes.
    fn new() -> Place {
        Place {
            size: 0,
            start: 0,
            end: 0,
        }
    }

    /// Goes to where a read ended. Returns whether it began before the last one.
    fn go(&mut self, at: u64, count: u64) -> bool {
        let is_back = at < self.start;
        self.start = at;
        self.end = at.saturating_add(count);
        is_back
    }
}

/// Counts what is read: the files, then the input or the documents of a server, and then parts of the files.
#[derive(Clone, Copy)]
pub(crate) struct Meter {
    reading: Reading,
    /// The time of the first look at what is being read. The rate is that since then.
    since: Option<Instant>,
    journal: Place,
    sealed: Place,
    mirror: Place,
    /// How many bytes were read, of anything but `Reading::Files`.
    done: u64,
    /// How many bytes the input has, if that is known.
    input_size: Option<u64>,
    /// Whether the input is typed at a terminal.
    pub(crate) is_typed: bool,
    is_input_over: bool,
    /// How many bytes of the input were read since the last look at the clock.
    unseen: usize,
    /// The earliest time of the next drawing.
    next: Option<Instant>,
    pub(crate) is_drawn: bool,
}

impl Meter {
    /// Nothing is read yet, and the command began at `now`.
    pub(crate) fn new(now: Instant) -> Meter {
        Meter {
            reading: Reading::Files,
            since: None,
            journal: Place::new(),
            sealed: Place::new(),
            mirror: Place::new(),
            done: 0,
            input_size: None,
            is_typed: false,
            is_input_over: false,
            unseen: 0,
            next: now.checked_add(Duration::from_millis(FIRST_MILLIS)),
            is_drawn: false,
        }
    }

    /// Notes what is known of the input: whether it is typed at a terminal, and else how many bytes it has.
    pub(crate) fn expect_input(&mut self, is_typed: bool, size: Option<u64>) {
        self.is_typed = is_typed;
        self.input_size = size;
    }

    /// The place in an area's file.
    fn place(&mut self, area: Area) -> &mut Place {
        match area {
            Area::Journal => &mut self.journal,
            Area::Sealed => &mut self.sealed,
            Area::Mirror => &mut self.mirror,
        }
    }

    /// Notes how many bytes an area's file has.
    pub(crate) fn note_size(&mut self, area: Area, size: u64) {
        self.place(area).size = size;
    }

    /// Counts a read of an area's file. One before the last one begins a new pass over the file, and a new rate.
    ///
    /// Between the reads of the input, reads of files go anywhere, and don't count.
    pub(crate) fn count_file(&mut self, area: Area, at: u64, count: u64) {
        match self.reading {
            Reading::Files => {
                if self.place(area).go(at, count) {
                    self.since = None;
                }
            }
            Reading::Input if !self.is_input_over => {}
            Reading::Input | Reading::Documents | Reading::Parts => {
                self.turn_to(Reading::Parts);
                self.done = self.done.saturating_add(count);
            }
        }
    }

    /// Counts a read of the input, which was asked for `room` bytes. Returns whether the clock is to be looked at.
    pub(crate) fn count_input(&mut self, room: usize, count: usize) -> bool {
        self.turn_to(Reading::Input);
        self.done = self.done.saturating_add(count as u64);
        self.is_input_over = room > 0 && count == 0;
        self.unseen = self.unseen.saturating_add(count);
        room >= LOOK_BYTES || self.unseen >= LOOK_BYTES
    }

    /// Counts a document of a server.
    pub(crate) fn count_document(&mut self, count: u64) {
        self.turn_to(Reading::Documents);
        self.done = self.done.saturating_add(count);
    }

    /// Begins to count what is read from now on, if it is something else than before.
    fn turn_to(&mut self, reading: Reading) {
        if self.reading != reading {
            self.reading = reading;
            self.since = None;
            self.done = 0;
        }
    }

    /// Looks at the clock. Returns whether the line is to be drawn now.
    pub(crate) fn look(&mut self, now: Instant) -> bool {
        self.unseen = 0;
        if self.since.is_none() {
            self.since = Some(now);
        }
        let is_due = self.next.is_some_and(|next| next <= now);
        if is_due {
            self.next = now.checked_add(Duration::from_millis(PAUSE_MILLIS));
            self.is_drawn = true;
        }
        is_due
    }

    /// How many bytes were read.
    fn bytes_done(&self) -> u64 {
        match self.reading {
            Reading::Files => self
                .journal
                .end
                .saturating_add(self.sealed.end)
                .saturating_add(self.mirror.end),
            Reading::Input | Reading::Documents | Reading::Parts => self.done,
        }
    }

    /// How many bytes there are in all. `None` if that isn't known.
    fn bytes_in_all(&self) -> Option<u64> {
        match self.reading {
            Reading::Files => Some(
                self.journal
                    .size
                    .saturating_add(self.sealed.size)
                    .saturating_add(self.mirror.size),
            ),
            Reading::Input => self.input_size,
            Reading::Documents | Reading::Parts => None,
        }
    }

    /// How many bytes were read in a second, on the average. `None` if no time has passed.
    fn rate(&self, now: Instant) -> Option<u64> {
        let millis = now.duration_since(self.since?).as_millis();
        if millis == 0 {
            return None;
        }
        u64::try_from(u128::from(self.bytes_done()) * 1_000 / millis).ok()
    }

    /// The line, as it is drawn over an earlier one.
    pub(crate) fn line(&self, now: Instant) -> ArrayString<MAX_LINE> {
        let mut line = ArrayString::new();
        let what = match self.reading {
            Reading::Files | Reading::Parts => "reading files",
            Reading::Input => "reading input",
            Reading::Documents => "fetching",
        };
        // What has no room is cut.
        let _ = write!(line, "\r{what}: ");
        write_megabytes(&mut line, self.bytes_done());
        if let Some(all) = self.bytes_in_all() {
            let _ = write!(line, " of ");
            write_megabytes(&mut line, all);
        }
        if let Some(rate) = self.rate(now) {
            let _ = write!(line, ", ");
            write_megabytes(&mut line, rate);
            let _ = write!(line, "/s");
        }
        let _ = write!(line, "\x1b[K");
        line
    }
}

/// Writes a number of bytes in megabytes, with one digit after the point.
fn write_megabytes(line: &mut ArrayString<MAX_LINE>, bytes: u64) {
    let tenths = bytes / 100_000;
    let (whole, tenth) = (tenths / 10, tenths % 10);
    let _ = write!(line, "{whole}.{tenth} MB");
}
