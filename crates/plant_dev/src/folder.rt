// Folders of a file system whose changes survive a crash.
use std::fs::{self, OpenFile};
use std::io;
use std::rt::Files;

/// Makes what was made, renamed or removed in this folder durable.
pub fn sync_folder<R: Files>(rt: &R, folder: &str) -> io::Result<()> {
    fs::open(rt, folder)?.sync_all()
}

/// The folder in which this one is.
pub fn parent_of(folder: &str) -> &str {
    match folder.rsplit_once('/') {
        None => ".",
        Some(("", _)) => "/",
        Some((parent, _)) => parent,
    }
}
