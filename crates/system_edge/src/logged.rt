//! A disk and a fetch whose calls are logged and counted for the line of progress. To contracts they are the disk and the
//! fetch that they hold.

use crate::log::{Line, Log};
use crate::progress::Progress;
use atom_values::Failed;
use doc_source::{Fetch, GetFault};
use feed_disk::{Area, Disk};
use std::alloc::Global;
use std::rt;
use std::time::{Duration, Instant};

/// How long a sync may take before it is logged.
const LONG_SYNC_MILLIS: u64 = 100;

/// When a call began. `None` if it isn't logged or the clock can't be read.
fn began<R: rt::Clock + Eprint>(runtime: &R, log: &Log) -> Option<Instant> {
    if log.is_on() {
        Instant::now(runtime).ok()
    } else {
        None
    }
}

/// How long a call took that began at `began`. `None` if the clock can't be read.
fn taken<R: rt::Clock>(runtime: &R, began: Instant) -> Option<Duration> {
    Some(Instant::now(runtime).ok()?.duration_since(began))
}

/// The name of an area's file.
fn area_name(area: Area) -> &'static str {
    match area {
        Area::Journal => "journal",
        Area::Sealed => "sealed",
        Area::Mirror => "mirror",
    }
}

/// A fetch that logs and counts each document that it is asked for.
#[derive(Drop)]
pub struct LoggedFetch<'a, F: Fetch + Drop, R: rt::Clock + Eprint> {
    pub fetch: F,
    pub runtime: &'a R,
    pub log: &'a Log,
    pub progress: &'a Progress<'a, R>,
}

impl<F: Fetch + Drop, R: rt::Clock + Eprint> LoggedFetch<'_, F, R> {
    /// Logs a get that began at `began`.
    fn log_get(&self, address: &[u8], began: Instant, found: &Result<Option<Vec<u8>>, GetFault>) {
        let mut line = Line::new("fetch");
        line.bytes("address", address);
        if let Some(time) = taken(self.runtime, began) {
            line.millis("ms", time);
        }
        match found {
            Ok(Some(bytes)) => {
                line.word("answer", "found");
                line.number("bytes", bytes.len() as u64);
            }
            Ok(None) => line.word("answer", "none"),
            Err(GetFault::Failed) => line.word("answer", "failed"),
            Err(GetFault::NoMemory) => line.word("answer", "no-memory"),
        }
        self.log.write(line);
    }
}

impl<F: Fetch + Drop, R: rt::Clock + Eprint> Fetch for LoggedFetch<'_, F, R> {
    ghost observable = { F.observable };

    ghost state = { λ f. F.state f.fetch };

    fn get(&mut self, alloc: Global, address: &[u8]) -> Result<Option<Vec<u8>>, GetFault> {
        let began = began(self.runtime, self.log);
        let found = self.fetch.get(alloc, address);
        if let Some(began) = began {
            self.log_get(address, began, &found);
        }
        if let Ok(Some(bytes)) = &found {
            self.progress.count_document(bytes.len());
        }
        found
    }
}

/// A disk that logs each sync that took longer than 100 ms, and each call that failed, and counts each read.
#[derive(Drop)]
pub struct LoggedDisk<'a, D: Disk + Drop, R: rt::Clock + Eprint> {
    pub disk: D,
    pub runtime: &'a R,
    pub log: &'a Log,
    pub progress: &'a Progress<'a, R>,
}

impl<D: Disk + Drop, R: rt::Clock + Eprint> LoggedDisk<'_, D, R> {
    /// Logs a call that has just failed, with the number of the system's last error.
    fn log_fault(&self, call: &str, area: Area) {
        if self.log.is_on() {
            let error = os::errno();
            let mut line = Line::new("disk-fault");
            line.word("call", call);
            line.word("area", area_name(area));
            line.number("error", u64::try_from(error).unwrap_or(0));
            self.log.write(line);
        }
    }

    /// Logs a sync that began at `began`, if it took long.
    fn log_sync(&self, area: Area, began: Instant) {
        if let Some(time) = taken(self.runtime, began) {
            if time > Duration::from_millis(LONG_SYNC_MILLIS) {
                let mut line = Line::new("sync");
                line.word("area", area_name(area));
                line.millis("ms", time);
                self.log.write(line);
            }
        }
    }
}

impl<D: Disk + Drop, R: rt::Clock + Eprint> Disk for LoggedDisk<'_, D, R> {
    ghost observable = { D.observable };

    ghost state = { λ d. D.state d.disk };

    fn size(&mut self, area: Area) -> Result<u64, Failed> {
        let size = self.disk.size(area);
        match size {
            Ok(bytes) => self.progress.note_size(area, bytes),
            Err(Failed) => self.log_fault("size", area),
        }
        size
    }

    fn read(&mut self, area: Area, at: u64, into: &mut [u8]) -> Result<usize, Failed> {
        let count = self.disk.read(area, at, into);
        match count {
            Ok(bytes) => self.progress.count_file(area, at, bytes),
            Err(Failed) => self.log_fault("read", area),
        }
        count
    }

    fn write(&mut self, area: Area, at: u64, from: &[u8]) -> Result<(), Failed> {
        let written = self.disk.write(area, at, from);
        if written.is_err() {
            self.log_fault("write", area);
        }
        self.progress.tick();
        written
    }

    fn sync(&mut self, area: Area) -> Result<(), Failed> {
        let began = began(self.runtime, self.log);
        let synced = self.disk.sync(area);
        if synced.is_err() {
            self.log_fault("sync", area);
        }
        if let Some(began) = began {
            self.log_sync(area, began);
        }
        self.progress.tick();
        synced
    }

    fn calls(&self) -> u64 {
        self.disk.calls()
    }

    ghost is_disk = { λ d. D.is_disk d.disk };
}
