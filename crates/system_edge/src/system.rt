//! The clock, the input and the output of the system: thin adapters, of which contracts know the counts of faults
//! alone.

ghost use Rattle.std.specs.Prelude.{[]};

use crate::progress::Progress;
use atom_values::Failed;
use doc_source::{Sink, Source};
use document_server::Clock;
use std::io::{ErrorKind, Read, Write};
use std::rt;
use std::time::{SystemTime, UNIX_EPOCH};

/// The system's clock. If it can't be read or is before 1970, it returns 0.
#[derive(Drop)]
pub struct SystemClock<'a, R: rt::Clock> {
    pub runtime: &'a R,
}

impl<R: rt::Clock> Clock for SystemClock<'_, R> {
    ghost observable = { ⊥ };

    ghost coming = { λ _ _. 0 };

    fn now(&mut self) -> u64 {
        match SystemTime::now(self.runtime) {
            Ok(now) => match now.duration_since(UNIX_EPOCH) {
                Ok(since) => u64::try_from(since.as_millis()).unwrap_or(u64::MAX),
                Err(_) => 0,
            },
            Err(_) => 0,
        }
    }
}

/// The program's input, whose reads are counted for the line of progress.
#[derive(Drop)]
pub struct InputSource<'a, I: Read + Drop, R: rt::Clock + Eprint> {
    pub reader: I,
    pub progress: &'a Progress<'a, R>,
    pub faults: u64,
    pub bytes_read: u64,
}

impl<I: Read + Drop, R: rt::Clock + Eprint> Source for InputSource<'_, I, R> {
    ghost observable = { ⊥ };

    ghost state = { λ s. record { left = []; faults = s.faults; bytes_read = s.bytes_read } };

    fn read(&mut self, into: &mut [u8]) -> Result<usize, Failed> {
        self.progress.await_input();
        // A read that a signal interrupted took no byte, and is made again.
        for _ in 0..u64::MAX {
            match self.reader.read(into) {
                Ok(count) => {
                    self.progress.count_input(into.len(), count);
                    self.bytes_read = self.bytes_read.saturating_add(count as u64);
                    return Ok(count);
                }
                Err(error) if error.kind() == ErrorKind::Interrupted => {}
                Err(_) => break,
            }
        }
        self.faults = self.faults.saturating_add(1);
        Err(Failed)
    }
}

/// The program's output. Its first write ends the line of progress, since both may go to one terminal.
#[derive(Drop)]
pub struct OutputSink<'a, W: Write + Drop, R: rt::Clock + Eprint> {
    pub writer: W,
    pub progress: &'a Progress<'a, R>,
    pub faults: u64,
}

impl<W: Write + Drop, R: rt::Clock + Eprint> Sink for OutputSink<'_, W, R> {
    ghost observable = { ⊥ };

    ghost state = { λ s. record { taken = []; faults = s.faults } };

    fn write(&mut self, from: &[u8]) -> Result<usize, Failed> {
        self.progress.end();
        // A write that a signal interrupted took no byte, and is made again. One that takes no byte of some is a
        // failure, since it could be made again for ever.
        for _ in 0..u64::MAX {
            match self.writer.write(from) {
                Ok(count) if count > 0 || from.is_empty() => return Ok(count),
                Err(error) if error.kind() == ErrorKind::Interrupted => {}
                _ => break,
            }
        }
        self.faults = self.faults.saturating_add(1);
        Err(Failed)
    }
}
