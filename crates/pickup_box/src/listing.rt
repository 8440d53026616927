// Names in the order of their bytes.
ghost use Rattle.std.specs.Prelude.{◌≡◌, IsPermutation, IfOk, OnOk};
ghost use Rattle.pickup_box.specs.Folder.{names_of, IsAscending};

use mail_names::{Bytes, NoMemory};
use std::alloc::{AllocError, Global};

/// Puts names in the order of their bytes.
pub fn sort_names(names: &mut Vec<Bytes>) -> Result<(), AllocError>
    ensures same { IsPermutation names.old.items names.new.items }
    ensures ascending { OnOk result (IsAscending names.new.items) }
{
    names.sort_by(|a, b| a.as_slice().cmp(b.as_slice()))?;
    Ok(())
}

/// The names of these files.
pub fn names_of(alloc: Global, files: &[(Bytes, Bytes)]) -> Result<Vec<Bytes>, NoMemory>
    ensures { IfOk result (λ names. names.items ≡ names_of files.now) }
{
    let mut names = Vec::new(alloc);
    for (name, _) in files {
        names.push(Bytes::of(alloc, name.as_slice())?)?;
    }
    Ok(names)
}
