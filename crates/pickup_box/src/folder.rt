// The pickup folder.
ghost use Rattle.std.specs.Prelude.{◌≡◌, ◌+◌, ◌≤◌, length, IfOk, IsErrOf, IsTrue};
ghost use Rattle.port_io.specs.Causes.{Rose};
ghost use Rattle.pickup_box.specs.Folder.{Folder, HasNoNameTwice, IsAscending, Has, ListAnswer, ReadAnswer, Removes, Renames, ChangedBy, Tells, Stays};

use mail_names::{Bytes, NoMemory};
use std::alloc::{AllocError, AllocFailed};

/// Why a call on the pickup folder was refused.
#[derive(Clone, Copy, Debug, PartialEq, Eq)]
pub enum DirFault {
    /// The folder failed, and the count of its faults rose.
    Failed,
    NoMemory,
}

impl From<NoMemory> for DirFault {
    ghost use Rattle.std.specs.Prelude.{◌≡◌};
    ghost use Rattle.pickup_box.specs.declared.folder.DirFault.TheVariants as faults;

    ghost from_gives = { λ _ e. e ≡ faults.NoMemory };

    fn from(_: NoMemory) -> Self {
        DirFault::NoMemory
    }
}

impl From<AllocError> for DirFault {
    ghost use Rattle.std.specs.Prelude.{◌≡◌};
    ghost use Rattle.pickup_box.specs.declared.folder.DirFault.TheVariants as faults;

    ghost from_gives = { λ _ e. e ≡ faults.NoMemory };

    fn from(_: AllocError) -> Self {
        DirFault::NoMemory
    }
}

impl<T: Drop> From<AllocFailed<T>> for DirFault {
    ghost use Rattle.std.specs.Prelude.{◌≡◌};
    ghost use Rattle.pickup_box.specs.declared.folder.DirFault.TheVariants as faults;

    ghost from_gives = { λ _ e. e ≡ faults.NoMemory };

    fn from(_: AllocFailed<T>) -> Self {
        DirFault::NoMemory
    }
}

/// A folder of files, which may tell them. Then each call answers and does just what its clauses say of the files,
/// and after a refusal they are as before.
///
/// A call answers `Failed` only where the count of faults rose.
pub trait PickupDir {
    /// The files, where the folder tells them, and its count of faults.
    ghost state: { Self → Folder };

    /// The names of all files, in the order of their bytes.
    fn list(&mut self) -> Result<Vec<Bytes>, DirFault>
        ensures told { Tells Stays (state self.old) (state self.new) }
        ensures later { (state self.old).faults ≤ (state self.new).faults }
        ensures cause { IsErrOf result DirFault.Failed → Rose (state self.old).faults (state self.new).faults }
        ensures ascending { IfOk result (λ names. IsAscending names.items) }
        ensures answer { IsTrue (state self.old).told → ListAnswer result (state self.old).files };

    /// The first `most + 1` octets of a file, or all where it has fewer.
    fn read(&mut self, name: &[u8], most: usize) -> Result<Bytes, DirFault>
        requires { Has name.now (state self.old) }
        ensures told { Tells Stays (state self.old) (state self.new) }
        ensures later { (state self.old).faults ≤ (state self.new).faults }
        ensures cause { IsErrOf result DirFault.Failed → Rose (state self.old).faults (state self.new).faults }
        ensures short { IfOk result (λ bytes. length bytes ≤ most + 1) }
        ensures answer { IsTrue (state self.old).told → ReadAnswer name.now most result (state self.old).files };

    /// Gives a file another name, in the place of one that had it.
    fn rename(&mut self, from: &[u8], to: &[u8]) -> Result<(), DirFault>
        requires { Has from.now (state self.old) }
        ensures told { Tells (ChangedBy result (Renames from.now to.now)) (state self.old) (state self.new) }
        ensures later { (state self.old).faults ≤ (state self.new).faults }
        ensures cause { IsErrOf result DirFault.Failed → Rose (state self.old).faults (state self.new).faults };

    fn remove(&mut self, name: &[u8]) -> Result<(), DirFault>
        requires { Has name.now (state self.old) }
        ensures told { Tells (ChangedBy result (Removes name.now)) (state self.old) (state self.new) }
        ensures later { (state self.old).faults ≤ (state self.new).faults }
        ensures cause { IsErrOf result DirFault.Failed → Rose (state self.old).faults (state self.new).faults };

    /// No told file has the name of another.
    ghost no_name_twice: { (d : Self) → IsTrue (state d).told → HasNoNameTwice (state d).files };
}
