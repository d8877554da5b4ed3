//! The program `feed_tool`: one command for each thing that a feed needs.
//!
//! `feed_commands::run` does all the work. `main` lends it the words of the command line, the files of the folder, the
//! documents of HTTP servers, and the clock, the input, the output and the TCP of the system.
//!
//! The contract of `run` says which exit status the program ends with and which bytes it prints, as far as contracts
//! see the content of what it is lent. They see the words, and of the system's objects only counts.
//!
//! With `FEED_LOG=stderr` in the environment, the adapters write a line to standard error for each event. Without the
//! variable, and if standard error is a terminal, a long command shows there how much it has read.
//!
//! `system_edge` has these as thin adapters. The traits that they implement are in the crates below, with objects in
//! memory for tests.
#![tactic(auto)]

use doc_source::HttpFetch;
use feed_commands::{Fault, print_fault, run};
use feed_disk::FileDisk;
use std::io::{self, BufReader, IsTerminal};
use std::process::ExitCode;
use system_edge::{
    InputSource, Log, LoggedDisk, LoggedFetch, OutputSink, Progress, SystemClock, TcpDoor,
    given_words, input_size,
};

/// How many bytes the program reads of its input at a time. A caller that asks for fewer gets them from this buffer.
const INPUT_BUFFER: usize = 65_536;

fn main(rt: HostRuntime) -> ExitCode {
    let mut clock = SystemClock { runtime: &rt };
    let log = Log::new(&rt, rt.stderr());
    let progress = Progress::new(&rt, rt.stderr().is_terminal());
    if progress.is_on() {
        progress.expect_input(rt.stdin().is_terminal(), input_size(&rt));
    }
    let mut door = TcpDoor::new(rt.alloc(), &rt, &log, &progress);
    let mut fetch = LoggedFetch {
        fetch: HttpFetch::new(&rt),
        runtime: &rt,
        log: &log,
        progress: &progress,
    };
    let mut output = OutputSink {
        writer: io::writer(&rt),
        progress: &progress,
        faults: 0,
    };
    let words = given_words(&rt);
    let disk = FileDisk::new(rt.alloc(), &rt, ".");
    let reader = BufReader::with_capacity(rt.alloc(), INPUT_BUFFER, rt.reader());
    let status = match (words, disk, reader) {
        (Ok(words), Ok(disk), Ok(reader)) => run(
            rt.alloc(),
            words.as_slice(),
            &mut LoggedDisk {
                disk,
                runtime: &rt,
                log: &log,
                progress: &progress,
            },
            &mut clock,
            &mut door,
            &mut fetch,
            &mut InputSource {
                reader,
                progress: &progress,
                faults: 0,
                bytes_read: 0,
            },
            &mut output,
        )
        .status,
        (Err(error), _, _) | (_, Err(error), _) => {
            print_fault(&mut output, Fault::from(error)).code()
        }
        // `BufReader` fails only if there is no memory for its buffer.
        (_, _, Err(_)) => print_fault(&mut output, Fault::NoMemory).code(),
    };
    progress.end();
    // Some clients of `serve` may still be taking their replies.
    door.finish();
    ExitCode::from(status)
}
