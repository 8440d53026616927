// A pickup folder over real files. It tells none of them.
ghost use Rattle.std.specs.Prelude.{◌≡◌, ◌+◌, ◌≤◌, length, IfOk};
ghost use Rattle.port_io.specs.Causes.{Rose};
ghost use Rattle.pickup_box.specs.Folder.{IsAscending};

use crate::folder::{DirFault, PickupDir};
use crate::listing::sort_names;
use mail_names::{Bytes, NoMemory};
use std::alloc::Global;
use std::fs::{self, DirEntry, OpenFile};
use std::io::{self, ErrorKind, Read};
use std::rt::Files;
use std::str;

/// The files of a real folder, those in its own folders left out.
#[derive(Drop)]
pub struct FileDir<R: Files + Drop> {
    rt: R,
    alloc: Global,
    folder: String,
    faults: u64,
}

fn fault_of(error: io::Error) -> DirFault {
    match error.kind() {
        ErrorKind::OutOfMemory => DirFault::NoMemory,
        _ => DirFault::Failed,
    }
}

// Where the file of this name is. A name that is no UTF-8 is none of a file that can be opened.
fn path_of(alloc: Global, folder: &str, name: &[u8]) -> Result<String, DirFault> {
    match str::from_utf8(name) {
        Ok(name) => Ok(format!(in alloc; "{folder}/{name}")?),
        Err(_) => Err(DirFault::Failed),
    }
}

// Whether this is a file. One that has gone in the meantime isn't.
fn is_file<R: Files>(entry: &DirEntry<R, Global>) -> Result<bool, DirFault> {
    match entry.file_type() {
        Ok(kind) => Ok(kind.is_file()),
        Err(error) => match error.kind() {
            ErrorKind::NotFound => Ok(false),
            _ => Err(fault_of(error)),
        },
    }
}

// Adds the name of an entry, if it is a file whose name is UTF-8.
fn add_entry<R: Files + Drop>(
    alloc: Global,
    names: &mut Vec<Bytes>,
    entry: io::Result<DirEntry<R, Global>>,
) -> Result<(), DirFault> {
    match entry {
        Ok(entry) => {
            if is_file(&entry)? {
                names.push(Bytes::of(alloc, entry.file_name().as_bytes())?)?;
            }
            Ok(())
        }
        Err(error) => match error.kind() {
            ErrorKind::InvalidFilename => Ok(()),
            _ => Err(fault_of(error)),
        },
    }
}

fn names_in<R: Files + Drop>(rt: &R, alloc: Global, folder: &str) -> Result<Vec<Bytes>, DirFault>
    ensures { IfOk result (λ names. IsAscending names.items) }
{
    let mut names = Vec::new(alloc);
    let rt = (rt, alloc);
    for entry in fs::read_dir(&rt, folder).map_err(fault_of)? {
        add_entry(alloc, &mut names, entry)?;
    }
    sort_names(&mut names)?;
    Ok(names)
}

// The first `most + 1` octets of a file, or all where it has fewer.
fn read_front<R: Files>(rt: &R, alloc: Global, path: &str, most: usize) -> Result<Bytes, DirFault>
    ensures { IfOk result (λ bytes. length bytes ≤ most + 1) }
{
    let room = most.saturating_add(1);
    let mut bytes = Vec::new(alloc);
    fs::open(rt, path)
        .map_err(fault_of)?
        .take(room as u64)
        .read_to_end(&mut bytes)
        .map_err(fault_of)?;
    bytes.truncate(room);
    Ok(Bytes::from_vec(bytes))
}

impl<R: Files + Drop> FileDir<R> {
    /// The pickup folder at this path. It opens nothing yet.
    pub fn new(rt: R, alloc: Global, folder: &str) -> Result<FileDir<R>, NoMemory>
        ensures { IfOk result (λ d. (⟦<FileDir<R> as PickupDir>⟧.state d).faults ≡ 0) }
    {
        Ok(FileDir {
            rt,
            alloc,
            folder: String::from_str(alloc, folder)?,
            faults: 0,
        })
    }

    // A failure is counted.
    fn counted(&mut self, fault: DirFault) -> DirFault
        ensures same { result ≡ fault }
        ensures cause { fault ≡ DirFault.Failed → Rose self.old.faults self.new.faults }
        ensures later { self.old.faults ≤ self.new.faults }
    {
        if fault == DirFault::Failed {
            self.faults = self.faults.saturating_add(1);
        }
        fault
    }

    // Renames a file so that a crash leaves it renamed.
    fn rename_there(&self, from: &[u8], to: &[u8]) -> Result<(), DirFault> {
        let folder = self.folder.as_str();
        let from = path_of(self.alloc, folder, from)?;
        let to = path_of(self.alloc, folder, to)?;
        fs::rename(&self.rt, from.as_str(), to.as_str()).map_err(|_| DirFault::Failed)?;
        sync_folder(&self.rt, folder).map_err(|_| DirFault::Failed)
    }

    fn remove_there(&self, name: &[u8]) -> Result<(), DirFault> {
        let path = path_of(self.alloc, self.folder.as_str(), name)?;
        fs::remove_file(&self.rt, path.as_str()).map_err(fault_of)
    }

    fn read_there(&self, name: &[u8], most: usize) -> Result<Bytes, DirFault>
        ensures { IfOk result (λ bytes. length bytes ≤ most + 1) }
    {
        let path = path_of(self.alloc, self.folder.as_str(), name)?;
        read_front(&self.rt, self.alloc, path.as_str(), most)
    }
}

fn sync_folder<R: Files>(rt: &R, folder: &str) -> io::Result<()> {
    fs::open(rt, folder)?.sync_all()
}

impl<R: Files + Drop> PickupDir for FileDir<R> {
    ghost use Rattle.pickup_box.specs.FileDir.{silent_state, silent_no_name_twice};

    ghost state = { λ d. silent_state d.faults };

    ghost no_name_twice = { λ d told. silent_no_name_twice d.faults told };

    fn list(&mut self) -> Result<Vec<Bytes>, DirFault> {
        match names_in(&self.rt, self.alloc, self.folder.as_str()) {
            Ok(names) => Ok(names),
            Err(fault) => Err(self.counted(fault)),
        }
    }

    fn read(&mut self, name: &[u8], most: usize) -> Result<Bytes, DirFault> {
        match self.read_there(name, most) {
            Ok(bytes) => Ok(bytes),
            Err(fault) => Err(self.counted(fault)),
        }
    }

    fn rename(&mut self, from: &[u8], to: &[u8]) -> Result<(), DirFault> {
        match self.rename_there(from, to) {
            Ok(()) => Ok(()),
            Err(fault) => Err(self.counted(fault)),
        }
    }

    fn remove(&mut self, name: &[u8]) -> Result<(), DirFault> {
        match self.remove_there(name) {
            Ok(()) => Ok(()),
            Err(fault) => Err(self.counted(fault)),
        }
    }
}
