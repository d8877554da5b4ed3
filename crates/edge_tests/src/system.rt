//! The adapters to the system, over a clock, a reader and a writer in memory.

ghost use Rattle.std.specs.Prelude.{◌≤◌, IfOk};

use atom_values::Failed;
use doc_source::{Sink, Source};
use document_server::Clock;
use std::io::{self, Error, ErrorKind, Read, Write};
use std::rt::Clock as RuntimeClock;
use std::time::Duration;
use system_edge::{InputSource, OutputSink, Progress, SystemClock};

/// A reader and writer of which a signal interrupts the first two calls. The third call moves one byte, and all later
/// calls fail.
#[derive(Drop)]
struct Interrupted {
    calls: u8,
}

impl Interrupted {
    fn next(&mut self) -> io::Result<usize>
        ensures { IfOk result (λ count. count ≤ 1) }
    {
        self.calls = self.calls.saturating_add(1);
        match self.calls {
            1 | 2 => Err(Error::from(ErrorKind::Interrupted)),
            3 => Ok(1),
            _ => Err(Error::from(ErrorKind::BrokenPipe)),
        }
    }
}

impl Read for Interrupted {
    fn read(&mut self, into: &mut [u8]) -> io::Result<usize> {
        if into.is_empty() {
            return Ok(0);
        }
        self.next()
    }
}

impl Write for Interrupted {
    fn write(&mut self, from: &[u8]) -> io::Result<usize> {
        if from.is_empty() {
            return Ok(0);
        }
        self.next()
    }

    fn flush(&mut self) -> io::Result<()> {
        Ok(())
    }
}

#[test]
fn makes_an_interrupted_call_again(rt: HostRuntime) {
    let progress = Progress::new(&rt, false);
    let mut input = InputSource {
        reader: Interrupted { calls: 0 },
        progress: &progress,
        faults: 0,
        bytes_read: 0,
    };
    let reads = (input.read(&mut [0u8; 4]), input.read(&mut [0u8; 4]));
    assert_eq!(rt;
        (reads, input.faults, input.bytes_read),
        ((Ok(1), Err(Failed)), 1, 1)
    );
    let mut output = OutputSink {
        writer: Interrupted { calls: 0 },
        progress: &progress,
        faults: 0,
    };
    let writes = (output.write(b"abcd"), output.write(b"abcd"));
    assert_eq!(rt; (writes, output.faults), ((Ok(1), Err(Failed)), 1));
}

/// A system whose clock tells this number of microseconds since 1970, or can't tell the time.
#[derive(Drop)]
struct FixedTime {
    micros: Option<u64>,
}

impl RuntimeClock for FixedTime {
    fn monotonic(&self) -> io::Result<Duration> {
        self.since_1970()
    }

    fn since_1970(&self) -> io::Result<Duration> {
        match self.micros {
            Some(micros) => Ok(Duration::from_micros(micros)),
            None => Err(Error::from(ErrorKind::InvalidData)),
        }
    }
}

/// The time of the system's clock, and the milliseconds that `SystemClock` returns. A system can't tell a time before
/// 1970.
static TIMES: [(Option<u64>, u64); 6] = [
    (None, 0),
    (Some(0), 0),
    (Some(999), 0),
    (Some(1_000), 1),
    (Some(1_999), 1),
    (Some(1_700_000_000_001_000), 1_700_000_000_001),
];

#[test]
fn tells_the_milliseconds_since_1970(rt: HostRuntime) {
    for &(micros, millis) in &TIMES {
        let runtime = FixedTime { micros };
        let mut clock = SystemClock { runtime: &runtime };
        assert!(rt; clock.now() == millis, "{micros:?}");
    }
}
