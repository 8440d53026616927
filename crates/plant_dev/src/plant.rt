// A plant: the log file and the shelf.
ghost use Rattle.std.specs.Prelude.{◌≡◌, ◌≤◌, ◌<◌, ◌+◌, ◌^◌, ℕ, length, IfOk, OnOk, OnErr, IsTrue, IsErrOf};
ghost use Rattle.port_io.specs.Causes.{Rose};
ghost use Rattle.plant_dev.specs.Disk.{State, Image, images, Stays, Reads, Writes, Holds, Gives, Durable, Shelves, Settles};
ghost use Rattle.plant_dev.specs.Shelf.{PutBy, item_of, Tells, IsTold, HasAnswer, FetchAnswer, ListAnswer, HasNoNameTwice};

use mail_names::{Bytes, ItemName, Key, NoMemory};
use port_io::Failed;
use std::alloc::{AllocError, AllocFailed, Global};

/// An item on the shelf.
#[derive(Drop)]
pub struct Stored {
    pub folder: Key,
    pub name: ItemName,
    pub bytes: Bytes,
}

impl Stored {
    ghost use Rattle.plant_dev.specs.Shelf.{item_of};

    /// The item of this folder and name with these bytes.
    pub fn of(
        alloc: Global,
        folder: &Key,
        name: &ItemName,
        bytes: &[u8],
    ) -> Result<Stored, NoMemory>
        ensures { IfOk result (λ i. i ≡ item_of folder.now name.now bytes.now) }
    {
        Ok(Stored {
            folder: folder.copy(alloc)?,
            name: *name,
            bytes: Bytes::of(alloc, bytes)?,
        })
    }

    pub fn copy(&self, alloc: Global) -> Result<Stored, NoMemory>
        ensures { IfOk result (λ i. i ≡ self.now) }
    {
        Stored::of(alloc, &self.folder, &self.name, self.bytes.as_slice())
    }
}

/// Why a call on the shelf was refused.
#[derive(Clone, Copy, Debug, PartialEq, Eq)]
pub enum ShelfFault {
    /// The shelf failed, and the count of shelf faults rose.
    Failed,
    /// Want of memory; nothing was put.
    NoMemory,
}

impl From<NoMemory> for ShelfFault {
    ghost use Rattle.plant_dev.specs.declared.plant.ShelfFault.TheVariants as faults;

    ghost from_gives = { λ _ e. e ≡ faults.NoMemory };

    fn from(_: NoMemory) -> Self {
        ShelfFault::NoMemory
    }
}

impl From<AllocError> for ShelfFault {
    ghost use Rattle.plant_dev.specs.declared.plant.ShelfFault.TheVariants as faults;

    ghost from_gives = { λ _ e. e ≡ faults.NoMemory };

    fn from(_: AllocError) -> Self {
        ShelfFault::NoMemory
    }
}

impl<T: Drop> From<AllocFailed<T>> for ShelfFault {
    ghost use Rattle.plant_dev.specs.declared.plant.ShelfFault.TheVariants as faults;

    ghost from_gives = { λ _ e. e ≡ faults.NoMemory };

    fn from(_: AllocFailed<T>) -> Self {
        ShelfFault::NoMemory
    }
}

/// The hub's log file, whose places and lengths are in octets, and its shelf of items.
///
/// A call on the file answers `Failed` only where the count of disk faults rose. Contracts say of an honest
/// plant what a crash may leave, at each moment of a call and between two.
pub trait Plant {
    /// What it reads as, what a crash may leave, and its counts of faults.
    ghost state: { Self → State };

    /// The length of the file.
    fn length(&mut self) -> Result<u64, Failed>
        ensures stays { Stays (state self.old) (state self.new) }
        ensures told { (state self.new).told_shelf ≡ (state self.old).told_shelf }
        ensures cause { OnErr result (Rose (state self.old).disk_faults (state self.new).disk_faults) }
        ensures reads { IsTrue (state self.old).honest → Reads (state self.old) (state self.new) }
        ensures answer { IsTrue (state self.old).honest → IfOk result (λ n. n ≡ length (state self.old).image.file) };

    /// Reads some bytes from this place on, and gives their count; 0 is the end of the file.
    fn read(&mut self, at: u64, into: &mut [u8]) -> Result<usize, Failed>
        requires { 0 < length into.old }
        ensures stays { Stays (state self.old) (state self.new) }
        ensures told { (state self.new).told_shelf ≡ (state self.old).told_shelf }
        ensures cause { OnErr result (Rose (state self.old).disk_faults (state self.new).disk_faults) }
        ensures count { IfOk result (λ n. n ≤ length into.new) }
        ensures reads { IsTrue (state self.old).honest → Reads (state self.old) (state self.new) }
        ensures answer { IsTrue (state self.old).honest → IfOk result (Gives (state self.old).image.file at into.new) };

    /// Writes the bytes at this place. Past the length it makes the file longer, with any bytes between.
    fn write_at(&mut self, at: u64, bytes: &[u8]) -> Result<(), Failed>
        requires { at + length bytes.now < 2 ^ 64 }
        ensures stays { Stays (state self.old) (state self.new) }
        ensures told { (state self.new).told_shelf ≡ (state self.old).told_shelf }
        ensures cause { OnErr result (Rose (state self.old).disk_faults (state self.new).disk_faults) }
        ensures writes { IsTrue (state self.old).honest → Writes at bytes.now (state self.old) (state self.new) }
        ensures written { IsTrue (state self.old).honest → OnOk result (Holds at bytes.now (state self.new).image.file) };

    /// Makes the file durable: from then on a crash leaves what is read.
    fn sync(&mut self) -> Result<(), Failed>
        ensures stays { Stays (state self.old) (state self.new) }
        ensures told { (state self.new).told_shelf ≡ (state self.old).told_shelf }
        ensures cause { OnErr result (Rose (state self.old).disk_faults (state self.new).disk_faults) }
        ensures reads { IsTrue (state self.old).honest → Reads (state self.old) (state self.new) }
        ensures durable { IsTrue (state self.old).honest → OnOk result (Durable (state self.new)) };

    /// Puts an item, whole and durable. One of its folder and name that is there stays as it is, which is no
    /// refusal. After `Failed` the item is there whole, or isn't there.
    fn put(
        &mut self,
        alloc: Global,
        folder: &Key,
        name: &ItemName,
        bytes: &[u8],
    ) -> Result<(), ShelfFault>
        ensures stays { Stays (state self.old) (state self.new) }
        ensures told { Tells (PutBy result (item_of folder.now name.now bytes.now)) (state self.old).told_shelf (state self.new).told_shelf }
        ensures cause { IsErrOf result ShelfFault.Failed → Rose (state self.old).shelf_faults (state self.new).shelf_faults }
        ensures puts { IsTrue (state self.old).honest → Shelves (PutBy result (item_of folder.now name.now bytes.now)) (state self.old) (state self.new) };

    /// Whether the item is there. The answer settles a put that failed: after yes a crash leaves the item,
    /// after no it leaves none.
    fn has(&mut self, folder: &Key, name: &ItemName) -> Result<bool, ShelfFault>
        ensures stays { Stays (state self.old) (state self.new) }
        ensures told { (state self.new).told_shelf ≡ (state self.old).told_shelf }
        ensures told_answer { IsTold (HasAnswer folder.now name.now result) (state self.old).told_shelf }
        ensures cause { IsErrOf result ShelfFault.Failed → Rose (state self.old).shelf_faults (state self.new).shelf_faults }
        ensures reads { IsTrue (state self.old).honest → Reads (state self.old) (state self.new) }
        ensures answer { IsTrue (state self.old).honest → HasAnswer folder.now name.now result (state self.old).image.shelf }
        ensures settles { IsTrue (state self.old).honest → OnOk result (Settles folder.now name.now (state self.new)) };

    /// The item's bytes, or `None` where it isn't there.
    fn fetch(
        &mut self,
        alloc: Global,
        folder: &Key,
        name: &ItemName,
    ) -> Result<Option<Bytes>, ShelfFault>
        ensures stays { Stays (state self.old) (state self.new) }
        ensures told { (state self.new).told_shelf ≡ (state self.old).told_shelf }
        ensures told_answer { IsTold (FetchAnswer folder.now name.now result) (state self.old).told_shelf }
        ensures cause { IsErrOf result ShelfFault.Failed → Rose (state self.old).shelf_faults (state self.new).shelf_faults }
        ensures reads { IsTrue (state self.old).honest → Reads (state self.old) (state self.new) }
        ensures answer { IsTrue (state self.old).honest → FetchAnswer folder.now name.now result (state self.old).image.shelf };

    /// The names of the folder's items, ascending.
    fn list(&mut self, alloc: Global, folder: &Key) -> Result<Vec<ItemName>, ShelfFault>
        ensures stays { Stays (state self.old) (state self.new) }
        ensures told { (state self.new).told_shelf ≡ (state self.old).told_shelf }
        ensures told_answer { IsTold (ListAnswer ⟦<ItemName as Ord>⟧.cmp folder.now result) (state self.old).told_shelf }
        ensures cause { IsErrOf result ShelfFault.Failed → Rose (state self.old).shelf_faults (state self.new).shelf_faults }
        ensures reads { IsTrue (state self.old).honest → Reads (state self.old) (state self.new) }
        ensures answer { IsTrue (state self.old).honest → ListAnswer ⟦<ItemName as Ord>⟧.cmp folder.now result (state self.old).image.shelf };

    /// What it reads as is one of its images.
    ghost is_image: { (p : Self) → images (state p) (state p).image };

    /// This moment is one of those since an earlier one.
    ghost counts_now: { (p : Self) (t : ℕ) (c : Image) → t ≤ (state p).moment → images (state p) c → (state p).left_since t c };

    /// No folder of an image has a name twice.
    ghost no_name_twice: { (p : Self) → IsTrue (state p).honest → (c : Image) → images (state p) c → HasNoNameTwice c.shelf };

    /// A told shelf is the one that is read.
    ghost tells_truth: { (p : Self) → IsTold (λ shelf. shelf ≡ (state p).image.shelf) (state p).told_shelf };
}
