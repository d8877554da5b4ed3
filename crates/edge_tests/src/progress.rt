//! The line of progress: when it is drawn, and what it says.

ghost use Rattle.std.specs.Prelude.{◌≤◌};

use feed_disk::Area;
use std::alloc::Global;
use std::cell::Cell;
use std::env::FillError;
use std::fmt::Display;
use std::io::{self, Error, ErrorKind};
use std::rt::{self, Env};
use std::time::Duration;
use system_edge::Progress;

/// A system with a clock, a variable of the environment and a terminal.
#[derive(Drop)]
struct Terminal {
    alloc: Global,
    millis: Cell<u64>,
    /// The value of `FEED_LOG`.
    variable: Option<&'static [u8]>,
    /// Whether the terminal takes what is written.
    works: bool,
    /// How many times something was written, and the last of it.
    writes: Cell<u64>,
    last: Cell<Option<String>>,
}

impl Terminal {
    fn new(alloc: Global) -> Terminal {
        Terminal {
            alloc,
            millis: Cell::new(7_000),
            variable: None,
            works: true,
            writes: Cell::new(0),
            last: Cell::new(None),
        }
    }

    /// Lets time pass.
    fn wait(&self, millis: u64) {
        self.millis.set(self.millis.get().saturating_add(millis));
    }

    /// Whether something was written since the last call, and the last of it was this text.
    fn has(&self, text: &str) -> bool {
        match self.last.replace(None) {
            Some(last) => last.as_str() == text,
            None => false,
        }
    }
}

impl rt::Clock for Terminal {
    fn monotonic(&self) -> io::Result<Duration> {
        Ok(Duration::from_millis(self.millis.get()))
    }

    fn since_1970(&self) -> io::Result<Duration> {
        self.monotonic()
    }
}

impl Env for Terminal {
    fn arg(&self, _at: usize, _into: &mut [u8]) -> Result<usize, FillError> {
        Err(FillError::NotPresent)
    }

    fn var(&self, name: &str, into: &mut [u8]) -> Result<usize, FillError> {
        let Some(value) = self.variable else {
            return Err(FillError::NotPresent);
        };
        if name != "FEED_LOG" {
            return Err(FillError::NotPresent);
        }
        match into.get_mut(..value.len()) {
            Some(front) => front.copy_from_slice(value),
            None => return Err(FillError::TooLong),
        }
        Ok(value.len())
    }

    fn var_at(&self, _at: usize, _into: &mut [u8]) -> Result<usize, FillError> {
        Err(FillError::NotPresent)
    }
}

impl Eprint for Terminal {
    fn eprint<D: Display + Drop>(&self, value: D) -> io::Result<()> {
        self.writes.set(self.writes.get().saturating_add(1));
        if !self.works {
            return Err(Error::from(ErrorKind::BrokenPipe));
        }
        self.last.set(format!(in self.alloc; "{value}").ok());
        Ok(())
    }

    fn eprintln<D: Display + Drop>(&self, value: D) -> io::Result<()> {
        self.eprint(value)
    }
}

static VALUES: [(Option<&[u8]>, bool, bool); 6] = [
    (None, true, true),
    (None, false, false),
    (Some(b""), true, false),
    (Some(b"stderr"), true, false),
    (Some(b"other"), true, false),
    (Some(b"other"), false, false),
];

#[test]
fn is_on_at_a_terminal_without_a_log(rt: HostRuntime) {
    for &(variable, is_terminal, wanted) in &VALUES {
        let mut terminal = Terminal::new(rt.alloc());
        terminal.variable = variable;
        let progress = Progress::new(&terminal, is_terminal);
        assert!(rt; progress.is_on() == wanted, "{variable:?}");
        terminal.wait(1_000);
        progress.note_size(Area::Journal, 9);
        progress.end();
        assert!(rt; (terminal.writes.get() > 0) == wanted, "{variable:?}");
    }
}

#[test]
fn draws_after_half_a_second_and_ten_times_a_second(rt: HostRuntime) {
    let terminal = Terminal::new(rt.alloc());
    let progress = Progress::new(&terminal, true);
    progress.note_size(Area::Journal, 50_000_000);
    for at in 1..=2_000u64 {
        terminal.wait(1);
        progress.count_file(Area::Journal, at * 4_096, 4_096);
        let wanted = if at < 500 { 0 } else { at / 100 - 4 };
        assert!(rt; terminal.writes.get() == wanted, "{at}");
    }
    // A long pause isn't made up for.
    terminal.wait(1_000_000);
    progress.tick();
    progress.tick();
    assert_eq!(rt; terminal.writes.get(), 17);
}

#[test]
fn erases_what_it_has_drawn(rt: HostRuntime) {
    let terminal = Terminal::new(rt.alloc());
    let progress = Progress::new(&terminal, true);
    terminal.wait(499);
    progress.tick();
    progress.end();
    assert!(rt; !progress.is_on());
    assert_eq!(rt; terminal.writes.get(), 0);

    let progress = Progress::new(&terminal, true);
    terminal.wait(500);
    progress.tick();
    assert!(rt; terminal.has("\rreading files: 0.0 MB of 0.0 MB\x1b[K"));
    progress.end();
    assert!(rt; terminal.has("\r\x1b[K"));
    terminal.wait(500);
    progress.tick();
    progress.count_document(1);
    progress.end();
    assert_eq!(rt; terminal.writes.get(), 2);
}

#[test]
fn counts_both_files_of_a_store_and_begins_again(rt: HostRuntime) {
    let terminal = Terminal::new(rt.alloc());
    let progress = Progress::new(&terminal, true);
    progress.note_size(Area::Sealed, 30_000_000);
    progress.count_file(Area::Sealed, 0, 29_900_000);
    terminal.wait(1_000);
    progress.count_file(Area::Sealed, 29_900_000, 100_000);
    assert!(rt; terminal.has("\rreading files: 30.0 MB of 30.0 MB, 30.0 MB/s\x1b[K"));
    terminal.wait(1_000);
    progress.note_size(Area::Journal, 12_345_678);
    assert!(rt; terminal.has("\rreading files: 30.0 MB of 42.3 MB, 15.0 MB/s\x1b[K"));
    terminal.wait(1_000);
    progress.count_file(Area::Journal, 0, 3_000_000);
    assert!(rt; terminal.has("\rreading files: 33.0 MB of 42.3 MB, 11.0 MB/s\x1b[K"));
    // A second pass over one of them, in turns with the first one over the other.
    progress.count_file(Area::Sealed, 16, 1_999_984);
    terminal.wait(500);
    progress.count_file(Area::Journal, 2_999_990, 3_000_010);
    assert!(rt; terminal.has("\rreading files: 8.0 MB of 42.3 MB, 16.0 MB/s\x1b[K"));
    terminal.wait(500);
    progress.count_file(Area::Sealed, 2_000_000, 7_000_000);
    assert!(rt; terminal.has("\rreading files: 15.0 MB of 42.3 MB, 15.0 MB/s\x1b[K"));
}

#[test]
fn counts_the_input_after_the_files(rt: HostRuntime) {
    let terminal = Terminal::new(rt.alloc());
    let progress = Progress::new(&terminal, true);
    progress.expect_input(false, Some(2_000_000));
    progress.note_size(Area::Mirror, 1_000_000);
    terminal.wait(500);
    progress.count_file(Area::Mirror, 0, 1_000_000);
    assert!(rt; terminal.has("\rreading files: 1.0 MB of 1.0 MB, 2.0 MB/s\x1b[K"));
    terminal.wait(100);
    progress.await_input();
    progress.count_input(65_536, 50_000);
    assert!(rt; terminal.has("\rreading input: 0.0 MB of 2.0 MB\x1b[K"));
    // A file that is read meanwhile doesn't count.
    terminal.wait(100);
    progress.count_file(Area::Mirror, 0, 999);
    assert!(rt; terminal.has("\rreading input: 0.0 MB of 2.0 MB, 0.5 MB/s\x1b[K"));
    terminal.wait(900);
    progress.count_input(65_536, 1_950_000);
    assert!(rt; terminal.has("\rreading input: 2.0 MB of 2.0 MB, 2.0 MB/s\x1b[K"));
    terminal.wait(1_000);
    progress.count_input(65_536, 0);
    assert!(rt; terminal.has("\rreading input: 2.0 MB of 2.0 MB, 1.0 MB/s\x1b[K"));
    // The report of a mirror reads the file again, from its end.
    progress.count_file(Area::Mirror, 900_000, 100_000);
    terminal.wait(1_000);
    progress.count_file(Area::Mirror, 800_000, 100_000);
    assert!(rt; terminal.has("\rreading files: 0.2 MB, 0.2 MB/s\x1b[K"));
}

#[test]
fn looks_at_the_clock_once_for_many_short_reads(rt: HostRuntime) {
    let terminal = Terminal::new(rt.alloc());
    let progress = Progress::new(&terminal, true);
    terminal.wait(1_000);
    for at in 1..=4_096u64 {
        progress.count_input(1, 1);
        assert!(rt; terminal.writes.get() == at / 4_096, "{at}");
    }
    assert!(rt; terminal.has("\rreading input: 0.0 MB\x1b[K"));
}

#[test]
fn ends_before_typed_input(rt: HostRuntime) {
    let terminal = Terminal::new(rt.alloc());
    let progress = Progress::new(&terminal, true);
    progress.expect_input(true, None);
    terminal.wait(1_000);
    progress.note_size(Area::Journal, 1_000_000);
    assert!(rt; terminal.has("\rreading files: 0.0 MB of 1.0 MB\x1b[K"));
    progress.await_input();
    assert!(rt; terminal.has("\r\x1b[K"));
    assert!(rt; !progress.is_on());
}

#[test]
fn counts_documents(rt: HostRuntime) {
    let terminal = Terminal::new(rt.alloc());
    let progress = Progress::new(&terminal, true);
    progress.count_document(400_000);
    terminal.wait(2_000);
    progress.count_document(600_000);
    assert!(rt; terminal.has("\rfetching: 1.0 MB, 0.5 MB/s\x1b[K"));
    terminal.wait(2_000);
    progress.count_file(Area::Mirror, 5, 400_000);
    assert!(rt; terminal.has("\rreading files: 0.4 MB\x1b[K"));
}

#[test]
fn goes_on_if_the_terminal_fails(rt: HostRuntime) {
    let mut terminal = Terminal::new(rt.alloc());
    terminal.works = false;
    let progress = Progress::new(&terminal, true);
    for _ in 0..3 {
        terminal.wait(1_000);
        progress.tick();
    }
    progress.end();
    assert_eq!(rt; terminal.writes.get(), 4);
}

#[test]
fn fits_the_largest_numbers(rt: HostRuntime) {
    let terminal = Terminal::new(rt.alloc());
    let progress = Progress::new(&terminal, true);
    for area in [Area::Journal, Area::Sealed, Area::Mirror] {
        progress.note_size(area, u64::MAX);
        progress.count_file(area, u64::MAX, usize::MAX);
    }
    terminal.wait(1_000);
    progress.tick();
    assert!(rt;
        terminal.has(
            "\rreading files: 18446744073709.5 MB of 18446744073709.5 MB, 18446744073709.5 MB/s\x1b[K"
        )
    );
}
