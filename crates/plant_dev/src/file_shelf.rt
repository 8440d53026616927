// A shelf in a folder: `shelf/<key>/<name>.eml`.
ghost use Rattle.std.specs.Prelude.{◌≡◌, IfErr};

use crate::ShelfFault;
use crate::folder::sync_folder;
use mail_names::{Bytes, ItemName, Key, Mark, NoMemory};
use std::alloc::Global;
use std::fs::{self, OpenFile};
use std::io::{self, ErrorKind, Read, Write};
use std::rt::Files;
use std::str;

#[derive(Drop)]
pub struct FileShelf<R: Files + Drop> {
    rt: R,
    root: String,
    // whether the folders on the shelf are known to outlive a crash
    is_synced: bool,
}

fn fault_of(error: io::Error) -> ShelfFault {
    match error.kind() {
        ErrorKind::OutOfMemory => ShelfFault::NoMemory,
        _ => ShelfFault::Failed,
    }
}

fn item_path(
    alloc: Global,
    folder: &str,
    name: &ItemName,
    ending: &str,
) -> Result<String, ShelfFault> {
    let name = name.text(alloc)?;
    match str::from_utf8(name.as_slice()) {
        Ok(name) => Ok(format!(in alloc; "{folder}/{name}.{ending}")?),
        Err(_) => Err(ShelfFault::Failed),
    }
}

fn write_new<R: Files>(rt: &R, path: &str, bytes: &[u8]) -> io::Result<()> {
    let mut file = fs::create(rt, path)?;
    file.write_all(bytes)?;
    file.sync_all()
}

// The name whose item this file holds.
fn name_of(alloc: Global, file_name: &str) -> Result<Option<ItemName>, NoMemory> {
    let Some(text) = file_name.strip_suffix(".eml") else {
        return Ok(None);
    };
    let Some(name) = read_name(text) else {
        return Ok(None);
    };
    // no sign and no leading zero
    let is_its_text = name.text(alloc)?.as_slice() == text.as_bytes();
    Ok(is_its_text.then_some(name))
}

fn read_name(text: &str) -> Option<ItemName> {
    let mut parts = text.split('-');
    Some(ItemName {
        submission: parts.next()?.parse().ok()?,
        release: parts.next()?.parse().ok()?,
        place: parts.next()?.parse().ok()?,
        mark: match parts.next() {
            None => Mark::Plain,
            Some("g") => Mark::Gate,
            Some("d") => Mark::Delay,
            Some("u") => Mark::Failure,
            Some(_) => return None,
        },
    })
}

impl<R: Files + Drop> FileShelf<R> {
    pub fn new(alloc: Global, rt: R, root: &str) -> Result<FileShelf<R>, NoMemory> {
        Ok(FileShelf {
            rt,
            root: String::from_str(alloc, root)?,
            is_synced: false,
        })
    }

    // The folder of a key's items. No key has a slash, or is `.` or `..`.
    fn folder(&self, alloc: Global, folder: &Key) -> Result<String, ShelfFault> {
        let root = self.root.as_str();
        match str::from_utf8(folder.bytes()) {
            Ok(key) => Ok(format!(in alloc; "{root}/shelf/{key}")?),
            Err(_) => Err(ShelfFault::Failed),
        }
    }

    // The folder of all folders of items.
    fn shelf(&self, alloc: Global) -> Result<String, ShelfFault> {
        let root = self.root.as_str();
        Ok(format!(in alloc; "{root}/shelf")?)
    }

    /// Puts an item that isn't there yet, whole: it is written aside, synced and renamed. Want of memory comes
    /// before the renaming alone, so that nothing was put then.
    pub fn put(
        &mut self,
        alloc: Global,
        folder: &Key,
        name: &ItemName,
        bytes: &[u8],
    ) -> Result<(), ShelfFault> {
        let shelf = self.shelf(alloc)?;
        let folder = self.folder(alloc, folder)?;
        let path = item_path(alloc, folder.as_str(), name, "eml")?;
        let aside = item_path(alloc, folder.as_str(), name, "part")?;
        if !fs::exists(&self.rt, path.as_str()).map_err(fault_of)? {
            if !fs::exists(&self.rt, folder.as_str()).map_err(fault_of)? {
                self.is_synced = false;
                fs::create_dir_all(&self.rt, folder.as_str()).map_err(fault_of)?;
            }
            write_new(&self.rt, aside.as_str(), bytes).map_err(fault_of)?;
            fs::rename(&self.rt, aside.as_str(), path.as_str()).map_err(|_| ShelfFault::Failed)?;
        }
        self.sync(shelf.as_str(), folder.as_str())
    }

    // From here on a crash leaves the items of this folder.
    fn sync(&mut self, shelf: &str, folder: &str) -> Result<(), ShelfFault>
        ensures { IfErr result (λ fault. fault ≡ ShelfFault.Failed) }
    {
        if !self.is_synced {
            sync_folder(&self.rt, self.root.as_str()).map_err(|_| ShelfFault::Failed)?;
            sync_folder(&self.rt, shelf).map_err(|_| ShelfFault::Failed)?;
            self.is_synced = true;
        }
        sync_folder(&self.rt, folder).map_err(|_| ShelfFault::Failed)
    }

    /// Whether the item is there, so that a crash leaves it.
    pub fn has(
        &mut self,
        alloc: Global,
        folder: &Key,
        name: &ItemName,
    ) -> Result<bool, ShelfFault> {
        let shelf = self.shelf(alloc)?;
        let folder = self.folder(alloc, folder)?;
        let path = item_path(alloc, folder.as_str(), name, "eml")?;
        if !fs::exists(&self.rt, path.as_str()).map_err(fault_of)? {
            return Ok(false);
        }
        self.sync(shelf.as_str(), folder.as_str())?;
        Ok(true)
    }

    pub fn fetch(
        &self,
        alloc: Global,
        folder: &Key,
        name: &ItemName,
    ) -> Result<Option<Bytes>, ShelfFault> {
        let folder = self.folder(alloc, folder)?;
        let path = item_path(alloc, folder.as_str(), name, "eml")?;
        if !fs::exists(&self.rt, path.as_str()).map_err(fault_of)? {
            return Ok(None);
        }
        let mut bytes = Vec::new(alloc);
        fs::open(&self.rt, path.as_str())
            .map_err(fault_of)?
            .read_to_end(&mut bytes)
            .map_err(fault_of)?;
        Ok(Some(Bytes::from_vec(bytes)))
    }

    /// The names of the folder's items, ascending. Other files are passed over.
    pub fn list(&self, alloc: Global, folder: &Key) -> Result<Vec<ItemName>, ShelfFault> {
        let folder = self.folder(alloc, folder)?;
        let mut names = Vec::new(alloc);
        if !fs::exists(&self.rt, folder.as_str()).map_err(fault_of)? {
            return Ok(names);
        }
        let rt = (&self.rt, alloc);
        for entry in fs::read_dir(&rt, folder.as_str()).map_err(fault_of)? {
            let entry = entry.map_err(fault_of)?;
            if let Some(name) = name_of(alloc, entry.file_name())? {
                names.push(name)?;
            }
        }
        names.sort()?;
        Ok(names)
    }
}
