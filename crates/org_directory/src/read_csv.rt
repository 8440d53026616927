// A directory from its text.
ghost use Rattle.org_directory.specs.Reading.{register_of, Gives};

use crate::directory::Directory;
use crate::fault::DirectoryFault;
use crate::first_pass::first_pass;
use crate::second_pass::both_passes;
use std::alloc::Global;

impl Directory {
    /// The directory that a text in CSV reads to, or its first fault: BadRow, TooMany and DoubleKey are looked for in
    /// a first pass over the records, UnknownMember and NoModerators in a second. A text of more than 16,777,216 bytes
    /// or without a record is a BadRow at row 1.
    pub fn read_csv(alloc: Global, text: &[u8]) -> Result<Directory, DirectoryFault>
        ensures { Gives result (register_of text.now) }
    {
        if text.len() > 16_777_216 {
            return Err(DirectoryFault::BadRow { row: 1 });
        }
        match first_pass(alloc, text) {
            Err(fault) => Err(fault),
            Ok(drafts) => both_passes(alloc, drafts),
        }
    }
}
