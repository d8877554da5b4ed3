//! A disk and a connection whose calls are counted together, and the order of a commit and its reply: the first byte of a
//! 201 is sent after the last sync of the commit returned.
//!
//! Contracts see neither the content of this disk nor the bytes of this connection, so that no proof of the server can
//! rest on them. The test compares the order in which the server calls them.

ghost use Rattle.std.specs.Prelude.{◌≡◌, ◌≤◌, [], false, length, IfOk};
ghost use Rattle.atom_values.specs.Counts.{counted};
ghost use Rattle.feed_disk.specs.FileState.{file_state, files_are_disk};

use crate::conns::disk_of;
use crate::sessions::served;
use crate::stores::{CAPACITY, NOW, init};
use atom_values::Failed;
use document_server::{Door, End};
use feed_disk::{Area, Disk, MemoryDisk};
use http_face::Conn;
use std::cell::Cell;

/// The calls on the disk and on the connection, numbered together from 1, and the numbers of some. 0 is no call.
#[derive(Drop)]
pub struct Events {
    count: Cell<u64>,
    /// The last `read` of the connection.
    asked: Cell<u64>,
    /// The last `sync` of the disk, when it returned.
    synced: Cell<u64>,
    /// The `write` that took the first byte of the reply.
    replied: Cell<u64>,
    /// Whether the bytes of that `write` begin with the line of 201.
    is_created: Cell<bool>,
}

impl Events {
    pub fn new() -> Events {
        Events {
            count: Cell::new(0),
            asked: Cell::new(0),
            synced: Cell::new(0),
            replied: Cell::new(0),
            is_created: Cell::new(false),
        }
    }

    /// Counts an event, and returns its number.
    fn next(&self) -> u64 {
        let number = self.count.get().saturating_add(1);
        self.count.set(number);
        number
    }
}

/// A disk that passes its calls to one in memory. Contracts see its counts alone, as those of a disk of files.
#[derive(Drop)]
pub struct WatchedDisk<'a> {
    memory: MemoryDisk,
    events: &'a Events,
    clock: u64,
    faults: u64,
}

impl<'a> WatchedDisk<'a> {
    pub fn new(memory: MemoryDisk, events: &'a Events) -> WatchedDisk<'a> {
        WatchedDisk {
            memory,
            events,
            clock: 0,
            faults: 0,
        }
    }

    /// Counts a device call.
    fn count(&mut self)
        ensures clock { self.new.clock ≡ counted self.old.clock }
        ensures later { self.old.clock ≤ self.new.clock }
        ensures faults { self.new.faults ≡ self.old.faults }
    {
        self.clock = self.clock.saturating_add(1);
    }

    /// Counts the failure of a device call.
    fn fail(&mut self) -> Failed
        ensures clock { self.new.clock ≡ self.old.clock }
        ensures faults { self.new.faults ≡ counted self.old.faults }
        ensures later { self.old.faults ≤ self.new.faults }
    {
        self.faults = self.faults.saturating_add(1);
        Failed
    }
}

/// Reads from the disk. From past the area's end it reads no byte.
fn read_within<D: Disk>(disk: &mut D, area: Area, at: u64, into: &mut [u8]) -> Result<usize, Failed>
    ensures { IfOk result (λ count. count ≤ length into.old) }
{
    if disk.size(area)? < at {
        return Ok(0);
    }
    disk.read(area, at, into)
}

/// Writes to the disk, unless the offset is past the area's end.
fn write_within<D: Disk>(disk: &mut D, area: Area, at: u64, from: &[u8]) -> Result<(), Failed> {
    if disk.size(area)? < at {
        return Err(Failed);
    }
    disk.write(area, at, from)
}

impl Disk for WatchedDisk<'_> {
    ghost observable = { ⊥ };

    // No proof reads the number of bytes read, so it is the greatest one, which stays.
    ghost state = { λ d. file_state (record {
      clock = d.clock;
      faults = d.faults;
      bytes_read = 18446744073709551615;
      sync_failed = false;
    }) };

    fn size(&mut self, area: Area) -> Result<u64, Failed> {
        self.count();
        self.events.next();
        match self.memory.size(area) {
            Ok(size) => Ok(size),
            Err(_) => Err(self.fail()),
        }
    }

    fn read(&mut self, area: Area, at: u64, into: &mut [u8]) -> Result<usize, Failed> {
        self.count();
        self.events.next();
        match read_within(&mut self.memory, area, at, into) {
            Ok(count) => Ok(count),
            Err(_) => Err(self.fail()),
        }
    }

    fn write(&mut self, area: Area, at: u64, from: &[u8]) -> Result<(), Failed> {
        self.count();
        self.events.next();
        match write_within(&mut self.memory, area, at, from) {
            Ok(()) => Ok(()),
            Err(_) => Err(self.fail()),
        }
    }

    fn sync(&mut self, area: Area) -> Result<(), Failed> {
        self.count();
        let synced = self.memory.sync(area);
        self.events.synced.set(self.events.next());
        match synced {
            Ok(()) => Ok(()),
            Err(_) => Err(self.fail()),
        }
    }

    fn calls(&self) -> u64 {
        self.clock
    }

    ghost is_disk = { λ d. files_are_disk (record {
      clock = d.clock;
      faults = d.faults;
      bytes_read = 18446744073709551615;
      sync_failed = false;
    }) };
}

/// A connection whose client sends a request. No call of it fails.
#[derive(Drop)]
struct WatchedConn<'a> {
    left: &'a [u8],
    events: &'a Events,
    begun: Option<u64>,
}

impl Conn for WatchedConn<'_> {
    ghost observable = { ⊥ };

    // Counters at their limit stay, so the connection needn't keep them.
    ghost state = { λ s. record {
      left = [];
      sent = [];
      faults = 0;
      begun = s.begun;
      bytes_read = 18446744073709551615;
      reads = 18446744073709551615;
      before_read = [];
    } };

    fn read(&mut self, into: &mut [u8]) -> Result<usize, Failed> {
        self.events.asked.set(self.events.next());
        let count = self.left.len().min(into.len());
        let (given, left) = self.left.split_at(count);
        into[..count].copy_from_slice(given);
        self.left = left;
        Ok(count)
    }

    fn begin<D: Disk>(&mut self, disk: &D) {
        self.begun = Some(disk.calls());
    }

    fn write(&mut self, from: &[u8]) -> Result<usize, Failed> {
        let number = self.events.next();
        if self.events.replied.get() == 0 && !from.is_empty() {
            self.events.replied.set(number);
            self.events
                .is_created
                .set(from.starts_with(b"HTTP/1.1 201 Created\r\n"));
        }
        Ok(from.len())
    }
}

/// A door that gives one connection, whose client sends `request`. No call of it fails.
#[derive(Drop)]
struct WatchedDoor<'a> {
    request: Option<&'a [u8]>,
    events: &'a Events,
}

impl<'a> Door for WatchedDoor<'a> {
    type Link = WatchedConn<'a>;

    ghost observable = { ⊥ };

    ghost state = { λ _. record { left = []; back = []; out = 0; faults = 0 } };

    ghost listens = { λ _ _. Unit {0} };

    ghost only_at = { λ _ _. Unit {0} };

    fn listen(&mut self, _at: &[u8]) -> Result<(), Failed> {
        Ok(())
    }

    fn next(&mut self) -> Result<Option<WatchedConn<'a>>, Failed> {
        match self.request.take() {
            Some(left) => Ok(Some(WatchedConn {
                left,
                events: self.events,
                begun: None,
            })),
            None => Ok(None),
        }
    }

    fn back(&mut self, _link: WatchedConn<'a>) {}

    ghost tells = { λ none. none };
}

const POST: &[u8] =
    b"POST /feed HTTP/1.1\r\nContent-Length: 67\r\n\r\n<entry xmlns=\"http://www.w3.org/2005/Atom\"><title>a</title></entry>";

#[test]
fn reply_after_commit(rt: HostRuntime) {
    let alloc = rt.alloc();
    let events = Events::new();
    let mut disk = WatchedDisk::new(disk_of(&rt, alloc, b"", 0), &events);
    init(&rt, alloc, &mut disk, 4, CAPACITY);
    let mut door = WatchedDoor {
        request: Some(POST),
        events: &events,
    };
    let session = served(&rt, alloc, &mut disk, &mut door, NOW, 1, false);
    assert!(rt; session.end == End::Done && events.is_created.get());
    // The commit syncs after the last byte of the request, and the reply begins after the last sync.
    let (asked, synced) = (events.asked.get(), events.synced.get());
    assert!(rt; 0 < asked && asked < synced && synced < events.replied.get());
    drop((session, door, disk));
}
