// A plant over real files. It tells the content of neither file nor shelf.
ghost use Rattle.std.specs.Prelude.{◌≡◌, ◌≤◌, length, IfOk};
ghost use Rattle.port_io.specs.Causes.{Rose};

use crate::file_shelf::FileShelf;
use crate::folder::{parent_of, sync_folder};
use crate::{Plant, ShelfFault};
use mail_names::{Bytes, ItemName, Key, NoMemory};
use port_io::Failed;
use std::alloc::{AllocError, Global};
use std::fs::{self, OpenFile, OpenOptions};
use std::io::{self, Read, Seek, SeekFrom, Write};
use std::rt::Files;

/// Why a plant over files can't be made.
#[derive(Clone, Copy, Debug, PartialEq, Eq)]
pub enum FilePlantFault {
    /// The folder or the log file was refused.
    Failed { kind: io::ErrorKind },
    NoMemory,
}

impl From<io::Error> for FilePlantFault {
    ghost use Rattle.std.specs.IoError.{error_kind};
    ghost use Rattle.plant_dev.specs.declared.file.FilePlantFault.TheVariants as faults;

    ghost from_gives = { λ e fault. fault ≡ faults.Failed (error_kind e) };

    fn from(error: io::Error) -> Self {
        FilePlantFault::Failed { kind: error.kind() }
    }
}

impl From<NoMemory> for FilePlantFault {
    ghost use Rattle.plant_dev.specs.declared.file.FilePlantFault.TheVariants as faults;

    ghost from_gives = { λ _ fault. fault ≡ faults.NoMemory };

    fn from(_: NoMemory) -> Self {
        FilePlantFault::NoMemory
    }
}

impl From<AllocError> for FilePlantFault {
    ghost use Rattle.plant_dev.specs.declared.file.FilePlantFault.TheVariants as faults;

    ghost from_gives = { λ _ fault. fault ≡ faults.NoMemory };

    fn from(_: AllocError) -> Self {
        FilePlantFault::NoMemory
    }
}

/// A plant in a folder: the log file `queue.log`, and an item in `shelf/<key>/<name>.eml`.
#[derive(Drop)]
pub struct FilePlant<R: Files + Drop> {
    alloc: Global,
    log: R::File,
    shelf: FileShelf<R>,
    disk_faults: u64,
    shelf_faults: u64,
}

fn read_there<F: Read + Seek>(file: &mut F, at: u64, into: &mut [u8]) -> io::Result<usize>
    ensures { IfOk result (λ n. n ≤ length into.new) }
{
    file.seek(SeekFrom::Start(at))?;
    file.read(into)
}

fn write_there<F: Write + Seek>(file: &mut F, at: u64, bytes: &[u8]) -> io::Result<()> {
    file.seek(SeekFrom::Start(at))?;
    file.write_all(bytes)
}

impl<R: Files + Drop> FilePlant<R> {
    /// The plant in this folder. Folder and log file are made where they aren't there, and outlive a crash.
    ///
    /// `Failed` comes only where making the folder or opening the log file failed, with std's kind of error.
    pub fn new(rt: R, alloc: Global, folder: &str) -> Result<FilePlant<R>, FilePlantFault>
        ensures disk_faults { IfOk result (λ p. (⟦<FilePlant<R> as Plant>⟧.state p).disk_faults ≡ 0) }
        ensures shelf_faults { IfOk result (λ p. (⟦<FilePlant<R> as Plant>⟧.state p).shelf_faults ≡ 0) }
    {
        let path = format!(in alloc; "{folder}/queue.log")?;
        if !fs::exists(&rt, folder)? {
            fs::create_dir_all(&rt, folder)?;
        }
        // Also where the folder is there: what made it may have been cut off before it was synced.
        sync_folder(&rt, parent_of(folder))?;
        let mut how = OpenOptions::new();
        how.read(true).write(true).create(true);
        let log = how.open(&rt, path.as_str())?;
        sync_folder(&rt, folder)?;
        Ok(FilePlant {
            alloc,
            log,
            shelf: FileShelf::new(alloc, rt, folder)?,
            disk_faults: 0,
            shelf_faults: 0,
        })
    }

    fn disk_fault(&mut self) -> Failed
        ensures disk { Rose self.old.disk_faults self.new.disk_faults }
        ensures later { self.old.disk_faults ≤ self.new.disk_faults }
        ensures shelf { self.new.shelf_faults ≡ self.old.shelf_faults }
    {
        self.disk_faults = self.disk_faults.saturating_add(1);
        Failed
    }

    // A failure of the shelf is counted.
    fn counted(&mut self, fault: ShelfFault) -> ShelfFault
        ensures same { result ≡ fault }
        ensures cause { fault ≡ ShelfFault.Failed → Rose self.old.shelf_faults self.new.shelf_faults }
        ensures later { self.old.shelf_faults ≤ self.new.shelf_faults }
        ensures disk { self.new.disk_faults ≡ self.old.disk_faults }
    {
        if fault == ShelfFault::Failed {
            self.shelf_faults = self.shelf_faults.saturating_add(1);
        }
        fault
    }
}

impl<R: Files + Drop> Plant for FilePlant<R> {
    ghost use Rattle.plant_dev.specs.Silent.{silent_state, silent_no_name_twice};

    ghost state = { λ p. silent_state p.disk_faults p.shelf_faults };

    ghost is_image = { λ p. tt };

    ghost counts_now = { λ p t c le now. tt };

    ghost no_name_twice = { λ p honest c left. silent_no_name_twice p.disk_faults p.shelf_faults honest c };

    ghost tells_truth = { λ p. tt };

    fn length(&mut self) -> Result<u64, Failed> {
        match self.log.metadata() {
            Ok(metadata) => Ok(metadata.len()),
            Err(_) => Err(self.disk_fault()),
        }
    }

    fn read(&mut self, at: u64, into: &mut [u8]) -> Result<usize, Failed> {
        match read_there(&mut self.log, at, into) {
            Ok(count) => Ok(count),
            Err(_) => Err(self.disk_fault()),
        }
    }

    fn write_at(&mut self, at: u64, bytes: &[u8]) -> Result<(), Failed> {
        match write_there(&mut self.log, at, bytes) {
            Ok(()) => Ok(()),
            Err(_) => Err(self.disk_fault()),
        }
    }

    fn sync(&mut self) -> Result<(), Failed> {
        match self.log.sync_all() {
            Ok(()) => Ok(()),
            Err(_) => Err(self.disk_fault()),
        }
    }

    fn put(
        &mut self,
        alloc: Global,
        folder: &Key,
        name: &ItemName,
        bytes: &[u8],
    ) -> Result<(), ShelfFault> {
        match self.shelf.put(alloc, folder, name, bytes) {
            Ok(()) => Ok(()),
            Err(fault) => Err(self.counted(fault)),
        }
    }

    fn has(&mut self, folder: &Key, name: &ItemName) -> Result<bool, ShelfFault> {
        match self.shelf.has(self.alloc, folder, name) {
            Ok(yes) => Ok(yes),
            Err(fault) => Err(self.counted(fault)),
        }
    }

    fn fetch(
        &mut self,
        alloc: Global,
        folder: &Key,
        name: &ItemName,
    ) -> Result<Option<Bytes>, ShelfFault> {
        match self.shelf.fetch(alloc, folder, name) {
            Ok(found) => Ok(found),
            Err(fault) => Err(self.counted(fault)),
        }
    }

    fn list(&mut self, alloc: Global, folder: &Key) -> Result<Vec<ItemName>, ShelfFault> {
        match self.shelf.list(alloc, folder) {
            Ok(names) => Ok(names),
            Err(fault) => Err(self.counted(fault)),
        }
    }
}
