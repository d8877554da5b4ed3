//! `FileDisk`: its files, its locks, and a `Log` over it.
//!
//! Each course has a folder of its own in the system's temporary folder, which is removed before it is compared.

use crate::disks::append;
use crate::logs::{append_payload, show_log};
use feed_disk::{Area, Disk, FileDisk};
use std::alloc::{AllocGlobal, Global};
use std::fs::{File, OpenOptions};
use std::os::unix::fs::symlink;
use std::process::Abort;
use std::rt::{Env, Files};
use std::{env, fs, process};

/// Makes an empty folder for a course, and returns its path.
fn new_folder<R: System + Env>(rt: &R, course: usize, process: u32) -> String {
    let temporary = env::temp_dir(rt).expect(rt, "a folder");
    let folder = format!(in rt.alloc();
        "{}/file_disk_{course}_{process}",
        temporary.as_str()
    ).expect(rt, "memory");
    // A test that was stopped leaves its folder.
    if fs::exists(rt, folder.as_str()).expect(rt, "a system call") {
        fs::remove_dir_all(rt, folder.as_str()).expect(rt, "a system call");
    }
    fs::create_dir(rt, folder.as_str()).expect(rt, "a system call");
    folder
}

/// The parts of the system that the functions below use. They end the test where a call fails, which is cheaper to prove
/// than `?` where a disk is owned.
trait System: Abort + AllocGlobal + Files<File = File> {}

impl<R: Abort + AllocGlobal + Files<File = File>> System for R {}

/// A step of a disk. It shows some bytes.
enum DiskStep {
    /// Writes `abcd` to the journal, and syncs it. Shows nothing.
    Write,
    /// Opens the mirror's area. Shows nothing.
    Mirror,
    /// Shows the sizes of the three areas, if their calls work, the calls made, and `/`.
    Sizes,
    /// Appends `ab` and `c` to the journal. Shows `++`.
    Append,
    /// Shows the payloads that a load of the journal finds, and a space.
    Payloads,
}

/// Appends the sizes of the three areas.
fn append_sizes<D: Disk>(rt: &impl Abort, alloc: Global, all: &mut Vec<u8>, disk: &mut D) {
    let journal = disk.size(Area::Journal).ok();
    let sealed = disk.size(Area::Sealed).ok();
    let mirror = disk.size(Area::Mirror).ok();
    let text = format!(in alloc; "{journal:?} {sealed:?} {mirror:?} {}/", disk.calls());
    append(rt, all, text.expect(rt, "memory").as_bytes());
}

/// Takes a step, and appends what it shows.
fn take<D: Disk>(rt: &impl Abort, alloc: Global, all: &mut Vec<u8>, disk: &mut D, step: &DiskStep) {
    match step {
        DiskStep::Write => {
            disk.write(Area::Journal, 0, b"abcd")
                .expect(rt, "a device call");
            disk.sync(Area::Journal).expect(rt, "a device call");
        }
        DiskStep::Mirror => {
            disk.size(Area::Mirror).expect(rt, "a device call");
        }
        DiskStep::Sizes => append_sizes(rt, alloc, all, disk),
        DiskStep::Append => {
            let first = append_payload(rt, alloc, disk, b"ab");
            append(rt, all, first);
            let second = append_payload(rt, alloc, disk, b"c");
            append(rt, all, second);
        }
        DiskStep::Payloads => {
            let log = show_log(alloc, disk).expect(rt, "a log");
            append(rt, all, &log.payloads);
            append(rt, all, b" ");
            drop(log);
        }
    }
}

/// Offsets of the journal, and how many bytes are read from there. The third read goes past the end. The last two begin at
/// the end and past it, which other disks don't allow.
static READS: [(u64, usize); 5] = [(0, 4), (1, 2), (2, 8), (4, 8), (9, 8)];

/// Appends what each of these reads gives, and `/`.
fn append_reads<R: System>(rt: &R, all: &mut Vec<u8>, disk: &mut FileDisk<'_, R>) {
    for &(offset, room) in &READS {
        let mut bytes = [0u8; 8];
        let count = disk
            .read(Area::Journal, offset, &mut bytes[..room.min(8)])
            .expect(rt, "a device call");
        append(rt, all, &bytes[..count]);
        append(rt, all, b"/");
    }
}

/// A step on a path.
enum PathStep {
    /// Makes a link to the name `target`.
    Link,
    /// Makes a folder.
    Folder,
    /// Cuts the file to this size.
    Cut(u64),
    /// Shows whether a file is there, and `/`.
    Exists,
}

/// Takes a step on a path, and appends what it shows.
fn take_on_path<R: System>(rt: &R, all: &mut Vec<u8>, path: &str, step: &PathStep) {
    match step {
        PathStep::Link => symlink(rt, "target", path).expect(rt, "a system call"),
        PathStep::Folder => fs::create_dir(rt, path).expect(rt, "a system call"),
        PathStep::Cut(size) => {
            let file = OpenOptions::new()
                .write(true)
                .open(rt, path)
                .expect(rt, "a system call");
            file.set_len(*size).expect(rt, "a system call");
            drop(file);
        }
        PathStep::Exists => {
            let exists = fs::exists(rt, path).expect(rt, "a system call");
            append(rt, all, if exists { b"true/" } else { b"false/" });
        }
    }
}

/// A step in a folder.
enum Step {
    /// A disk takes a step.
    Disk(DiskStep),
    /// Shows what the reads of a disk give.
    Reads,
    /// A disk writes `abcd`, and a second one shows its sizes while the first one is there, and after that.
    TwoDisks,
    /// A step on the path of this name.
    Path(&'static str, PathStep),
}

/// Takes a step with a disk of its own, or shows what the reads give, and appends what that shows.
fn take_on_disk<R: System>(rt: &R, all: &mut Vec<u8>, folder: &str, step: Option<&DiskStep>) {
    let mut disk = FileDisk::new(rt.alloc(), rt, folder).expect(rt, "memory");
    match step {
        Some(step) => take(rt, rt.alloc(), all, &mut disk, step),
        None => append_reads(rt, all, &mut disk),
    }
    drop(disk);
}

/// Shows what a second disk finds while a first one has the journal open, and after that.
fn append_second<R: System>(rt: &R, all: &mut Vec<u8>, folder: &str) {
    let alloc = rt.alloc();
    let mut first = FileDisk::new(alloc, rt, folder).expect(rt, "memory");
    let mut second = FileDisk::new(alloc, rt, folder).expect(rt, "memory");
    take(rt, alloc, all, &mut first, &DiskStep::Write);
    append_sizes(rt, alloc, all, &mut second);
    drop(first);
    append_sizes(rt, alloc, all, &mut second);
    drop(second);
}

/// Takes a step in a folder, and appends what it shows.
fn go<R: System>(rt: &R, all: &mut Vec<u8>, folder: &str, step: &Step) {
    match step {
        Step::Disk(step) => take_on_disk(rt, all, folder, Some(step)),
        Step::Reads => take_on_disk(rt, all, folder, None),
        Step::TwoDisks => append_second(rt, all, folder),
        Step::Path(name, step) => {
            let path = format!(in rt.alloc(); "{folder}/{name}").expect(rt, "memory");
            take_on_path(rt, all, path.as_str(), step);
        }
    }
}

/// The steps of a course, and what they show.
static COURSES: [(&[Step], &str); 5] = [
    // Synced bytes are read by the next disk.
    (&[Step::Disk(DiskStep::Write), Step::Reads], "abcd/bc/cd///"),
    // A file has one disk at a time.
    (
        &[Step::TwoDisks],
        "None Some(0) Some(0) 3/Some(4) Some(0) Some(0) 6/",
    ),
    // Nothing but a regular file is opened, and the file that the link leads to isn't made.
    (
        &[
            Step::Path("journal", PathStep::Link),
            Step::Path("sealed", PathStep::Folder),
            Step::Disk(DiskStep::Sizes),
            Step::Path("target", PathStep::Exists),
        ],
        "None None Some(0) 3/false/",
    ),
    // A call opens the file of its area.
    (
        &[
            Step::Disk(DiskStep::Mirror),
            Step::Path("journal", PathStep::Exists),
            Step::Path("sealed", PathStep::Exists),
            Step::Path("mirror", PathStep::Exists),
        ],
        "false/false/true/",
    ),
    // The log has 14 bytes. It is cut within the second frame, after that frame's gate, within the first frame, and to
    // nothing.
    (
        &[
            Step::Disk(DiskStep::Append),
            Step::Path("journal", PathStep::Cut(14)),
            Step::Disk(DiskStep::Payloads),
            Step::Path("journal", PathStep::Cut(12)),
            Step::Disk(DiskStep::Payloads),
            Step::Path("journal", PathStep::Cut(8)),
            Step::Disk(DiskStep::Payloads),
            Step::Path("journal", PathStep::Cut(6)),
            Step::Disk(DiskStep::Payloads),
            Step::Path("journal", PathStep::Cut(0)),
            Step::Disk(DiskStep::Payloads),
        ],
        "++ab/c/ ab/ ab/   ",
    ),
];

#[test]
fn a_disk_of_files_goes_through_each_course(rt: HostRuntime) {
    for (row, (steps, wanted)) in COURSES.iter().enumerate() {
        let folder = new_folder(&rt, row, process::id(rt.process()));
        let mut shown = Vec::new(rt.alloc());
        for step in *steps {
            go(&rt, &mut shown, folder.as_str(), step);
        }
        fs::remove_dir_all(&rt, folder.as_str()).expect(&rt, "a system call");
        assert!(rt; shown.as_slice() == wanted.as_bytes(), "row {row}");
    }
}
