ghost use Rattle.std.specs.Prelude.{◌≤◌, IfOk, length};

use crate::area::Area;
use crate::area_file::{AreaFile, FileFault, read_full};
use atom_values::NoMemory;
use std::alloc::Global;
use std::fs::File;
use std::os::unix::fs::FileExt;
use std::rt::Files;

/// The files of the areas, by name `journal`, `sealed` and `mirror`, in a folder.
#[derive(Drop)]
pub struct Folder<'a, R: Files<File = File>> {
    runtime: &'a R,
    path: String,
    journal: AreaFile,
    sealed: AreaFile,
    mirror: AreaFile,
}

impl<'a, R: Files<File = File>> Folder<'a, R> {
    /// Returns the files of a folder. It opens none of them.
    pub fn new(alloc: Global, runtime: &'a R, path: &str) -> Result<Folder<'a, R>, NoMemory> {
        // The paths are made here, so that no device call takes memory.
        Ok(Folder {
            runtime,
            path: String::from_str(alloc, path)?,
            journal: AreaFile::new(format!(in alloc; "{path}/journal")?),
            sealed: AreaFile::new(format!(in alloc; "{path}/sealed")?),
            mirror: AreaFile::new(format!(in alloc; "{path}/mirror")?),
        })
    }

    /// Returns the file of an area, and opens no other one.
    fn file(&mut self, area: Area) -> Result<&File, FileFault> {
        let (runtime, path) = (self.runtime, self.path.as_str());
        match area {
            Area::Journal => self.journal.opened(runtime, path),
            Area::Sealed => self.sealed.opened(runtime, path),
            Area::Mirror => self.mirror.opened(runtime, path),
        }
    }

    /// Returns the number of bytes of an area's file.
    pub fn size(&mut self, area: Area) -> Result<u64, FileFault> {
        Ok(self.file(area)?.metadata()?.len())
    }

    /// Reads the bytes from offset `at` on, until `into` is full or the file ends, and returns their number.
    pub fn read(&mut self, area: Area, at: u64, into: &mut [u8]) -> Result<usize, FileFault>
        ensures most { IfOk result (λ n. n ≤ length into.old) }
    {
        read_full(self.file(area)?, at, into)
    }

    /// Writes all bytes of `from` from offset `at` on.
    pub fn write(&mut self, area: Area, at: u64, from: &[u8]) -> Result<(), FileFault> {
        Ok(self.file(area)?.write_all_at(from, at)?)
    }

    /// Syncs the bytes of an area's file, and its size.
    pub fn sync(&mut self, area: Area) -> Result<(), FileFault> {
        self.file(area)?.sync_data().map_err(|_| FileFault::Sync)
    }
}
