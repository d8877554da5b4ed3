ghost use Rattle.std.specs.Prelude.{◌≤◌, IfOk, length};

use std::fs::{self, File, OpenOptions};
use std::io::{self, ErrorKind};
use std::os::fd::AsRawFd;
use std::os::unix::fs::{FileExt, MetadataExt};
use std::rt::Files;

/// The error of a call on a file.
#[derive(Clone, Copy, Debug, PartialEq, Eq)]
pub enum FileFault {
    /// The call failed, and a later call may work.
    Call,
    /// A sync failed. What the device has is unknown.
    Sync,
}

impl From<io::Error> for FileFault {
    fn from(_error: io::Error) -> FileFault {
        FileFault::Call
    }
}

/// The file of one area. It is opened at the first call, and then stays open and locked.
#[derive(Drop)]
pub struct AreaFile {
    path: String,
    file: Option<File>,
}

impl AreaFile {
    /// Returns the file at a path, which isn't open yet.
    pub fn new(path: String) -> AreaFile {
        AreaFile { path, file: None }
    }

    /// Returns the open file. If it can't be opened or locked, the next call tries again.
    pub fn opened<R: Files<File = File>>(
        &mut self,
        runtime: &R,
        folder: &str,
    ) -> Result<&File, FileFault> {
        if self.file.is_none() {
            self.file = Some(open_locked(runtime, folder, self.path.as_str())?);
        }
        self.file.as_ref().ok_or(FileFault::Call)
    }
}

/// Opens and locks the file at a path in a folder, or makes it, and syncs the folder.
fn open_locked<R: Files<File = File>>(
    runtime: &R,
    folder: &str,
    path: &str,
) -> Result<File, FileFault> {
    let mut file = open_or_make(runtime, path)?;
    // A file gets the number of a standard stream that was closed before the program began. Then what is
    // printed would go into the file. A clone gets a higher number.
    if file.as_raw_fd() <= 2 {
        file = file.try_clone()?;
    }
    // Two writers would mix their frames. The system frees the lock when the file is closed, so none is left
    // by a process that was killed.
    if file.try_lock().is_err() {
        return Err(FileFault::Call);
    }
    // The path may have got something else before the lock was taken.
    let (found, named) = (file.metadata()?, fs::symlink_metadata(runtime, path)?);
    if !found.is_file() || found.dev() != named.dev() || found.ino() != named.ino() {
        return Err(FileFault::Call);
    }
    sync_folder(runtime, folder)?;
    Ok(file)
}

/// Opens the regular file at a path, or makes it.
///
/// Error: anything but a regular file is at the path, as a link or a device. It isn't opened.
fn open_or_make<R: Files<File = File>>(runtime: &R, path: &str) -> io::Result<File> {
    match File::create_new(runtime, path) {
        Err(error) if error.kind() == ErrorKind::AlreadyExists => {}
        made => return made,
    }
    // To open a device may change it, and to open a pipe may wait for ever.
    if !fs::symlink_metadata(runtime, path)?.is_file() {
        return Err(ErrorKind::Unsupported.into());
    }
    OpenOptions::new()
        .read(true)
        .write(true)
        .open(runtime, path)
}

/// Syncs the names in a folder. A crash could lose the name of a new file, and with it the bytes that were
/// synced. A file that was there may be new too: the process that made it may have been killed before it
/// came to this call.
fn sync_folder<R: Files<File = File>>(runtime: &R, folder: &str) -> Result<(), FileFault> {
    let folder = File::open(runtime, folder)?;
    folder.sync_all().map_err(|_| FileFault::Sync)
}

/// Reads the bytes of a file from offset `at` on, until `into` is full or the file ends, and returns their
/// number.
pub fn read_full(file: &File, at: u64, into: &mut [u8]) -> Result<usize, FileFault>
    ensures most { IfOk result (λ n. n ≤ length into.old) }
{
    let mut count = 0;
    // The system may read less than it was asked for. A read that a signal interrupted is made again.
    for _ in 0..u64::MAX {
        if count >= into.len() {
            break;
        }
        match file.read_at(&mut into[count..], at.saturating_add(count as u64)) {
            Ok(0) => break,
            Ok(more) => count += more,
            Err(error) if error.kind() == ErrorKind::Interrupted => {}
            Err(_) => return Err(FileFault::Call),
        }
    }
    Ok(count)
}
