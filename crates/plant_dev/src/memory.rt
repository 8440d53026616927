// A plant in memory.
use crate::failures::{Failing, Failures};
use crate::history::History;
use crate::{Plant, ShelfFault};
use mail_names::{Bytes, ItemName, Key, NoMemory};
use port_io::{Failed, PlannedCalls};
use std::alloc::Global;

/// A plant in memory, which keeps the disk model, tells its shelf, and keeps a record of its calls for the
/// images that a crash may leave.
#[derive(Drop)]
pub struct MemoryPlant {
    alloc: Global,
    history: History,
    failures: Failures,
    disk_faults: u64,
    shelf_faults: u64,
    starved: u64,
}

impl MemoryPlant {
    ghost use Rattle.std.specs.Prelude.{◌≡◌, ◌∷◌, [], IfOk, OnOk, OnErr};
    ghost use Rattle.plant_dev.specs.Disk.{Image, images, Same};
    ghost use Rattle.plant_dev.specs.Memory.{IsFresh};
    ghost use Rattle.plant_dev.specs.MemoryState.{state_of, starved_of, calls_ahead, folder_plans};

    /// A plant with this file and an empty shelf, on which no call or folder fails. It takes no memory.
    pub fn new(alloc: Global, file: Bytes) -> MemoryPlant
        ensures image { (state_of result).image ≡ record { file = file; shelf = [] } }
        ensures fresh { IsFresh (state_of result) }
        ensures starved { starved_of result ≡ 0 }
        ensures calls { calls_ahead result ≡ [] }
        ensures folders { folder_plans result ≡ [] }
    {
        MemoryPlant::over(alloc, History::new(alloc, file.into_vec(), Vec::new(alloc)))
    }

    /// The plant that a crash leaves, with one of the images and else as a new one. Two bits of `pick` for each
    /// write, sync and put so far, the first call's the lowest, say what is left of a write that wasn't synced:
    /// 0 nothing, 1 its first half, 2 or 3 the whole. After 32 such calls the bits begin anew.
    pub fn crash(&self, pick: u64) -> Result<MemoryPlant, NoMemory>
        ensures image { IfOk result (λ p. images (state_of self.now) (state_of p).image) }
        ensures fresh { IfOk result (λ p. IsFresh (state_of p)) }
        ensures starved { IfOk result (λ p. starved_of p ≡ 0) }
        ensures calls { IfOk result (λ p. calls_ahead p ≡ []) }
        ensures folders { IfOk result (λ p. folder_plans p ≡ []) }
    {
        Ok(MemoryPlant::over(self.alloc, self.history.crash(self.alloc, pick)?))
    }

    fn over(alloc: Global, history: History) -> MemoryPlant
        ensures history { result.history ≡ history }
        ensures disk_faults { result.disk_faults ≡ 0 }
        ensures shelf_faults { result.shelf_faults ≡ 0 }
        ensures starved { result.starved ≡ 0 }
        ensures calls { calls_ahead result ≡ [] }
        ensures folders { folder_plans result ≡ [] }
    {
        MemoryPlant {
            alloc,
            history,
            failures: Failures::none(alloc),
            disk_faults: 0,
            shelf_faults: 0,
            starved: 0,
        }
    }

    /// Call k from now on fails where byte k is 1. This replaces what was planned for calls before.
    pub fn fail_calls(&mut self, fails: Bytes)
        ensures same { Same (state_of self.old) (state_of self.new) }
        ensures starved { starved_of self.new ≡ starved_of self.old }
        ensures calls { calls_ahead self.new ≡ fails }
        ensures folders { folder_plans self.new ≡ folder_plans self.old }
    {
        self.failures.calls = PlannedCalls::of(fails);
    }

    /// From now on puts into this folder fail so.
    pub fn fail_folder(&mut self, folder: &Key, how: Failing) -> Result<(), NoMemory>
        ensures same { Same (state_of self.old) (state_of self.new) }
        ensures starved { starved_of self.new ≡ starved_of self.old }
        ensures calls { calls_ahead self.new ≡ calls_ahead self.old }
        ensures ok { OnOk result (folder_plans self.new ≡ record { folder = folder.now; how = how } ∷ folder_plans self.old) }
        ensures err { OnErr result (folder_plans self.new ≡ folder_plans self.old) }
    {
        self.failures.plan_folder(self.alloc, folder, how)
    }

    /// How many of the disk faults were want of memory.
    pub fn starved(&self) -> u64
        ensures { result ≡ starved_of self.now }
    {
        self.starved
    }
}

impl Plant for MemoryPlant {
    ghost use Rattle.std.specs.Prelude.{◌≡◌, ◌≤◌, ◌<◌, ◌+◌, ◌^◌, length, refl, false, IsTrue, IsErr, IsErrOf, IfOk, OnOk, OnErr};
    ghost use Rattle.port_io.specs.Causes.{Rose};
    ghost use Rattle.port_io.specs.Planned.{next_fails};
    ghost use Rattle.plant_dev.specs.Disk.{Stays, Reads, Writes, Holds, Gives, Durable, Shelves, Settles};
    ghost use Rattle.plant_dev.specs.Shelf.{PutBy, item_of, Tells, IsTold, HasAnswer, FetchAnswer, ListAnswer};
    ghost use Rattle.plant_dev.specs.Failures.{failing_by};
    ghost use Rattle.plant_dev.specs.History.{first_of, image_of, past_of};
    ghost use Rattle.plant_dev.specs.MemoryLaws.{memory_is_image, memory_counts_now, memory_no_name_twice};
    ghost use Rattle.plant_dev.specs.MemoryState.{state_of, calls_ahead, folder_plans};
    ghost use Rattle.plant_dev.specs.MemoryFailures.{FileFailsAsPlanned, ShelfFailsAsPlanned, PutsAsPlanned};

    ghost state = { state_of };

    ghost is_image = { λ p. memory_is_image (first_of p.history) (image_of p.history) (past_of p.history) p.history.file_kept p.history.shelf_kept };

    ghost counts_now = { λ p. memory_counts_now (first_of p.history) (past_of p.history) };

    ghost no_name_twice = { λ p honest. memory_no_name_twice (first_of p.history) (image_of p.history) (past_of p.history) p.history.no_name_twice p.history.shelf_kept };

    ghost tells_truth = { λ p. refl };

    fn length(&mut self) -> Result<u64, Failed>
        ensures stays { Stays (state_of self.old) (state_of self.new) }
        ensures told { (state_of self.new).told_shelf ≡ (state_of self.old).told_shelf }
        ensures cause { OnErr result (Rose (state_of self.old).disk_faults (state_of self.new).disk_faults) }
        ensures reads { IsTrue (state_of self.old).honest → Reads (state_of self.old) (state_of self.new) }
        ensures answer { IsTrue (state_of self.old).honest → IfOk result (λ n. n ≡ length (state_of self.old).image.file) }

        ensures as_planned { FileFailsAsPlanned self.old self.new result }
        ensures planned_only { IsErr result → IsTrue (next_fails (calls_ahead self.old)) }
    {
        if self.failures.calls.next() {
            self.disk_faults = self.disk_faults.saturating_add(1);
            return Err(Failed);
        }
        Ok(self.history.file.len() as u64)
    }

    fn read(&mut self, at: u64, into: &mut [u8]) -> Result<usize, Failed>
        requires { 0 < length into.old }
        ensures stays { Stays (state_of self.old) (state_of self.new) }
        ensures told { (state_of self.new).told_shelf ≡ (state_of self.old).told_shelf }
        ensures cause { OnErr result (Rose (state_of self.old).disk_faults (state_of self.new).disk_faults) }
        ensures count { IfOk result (λ n. n ≤ length into.new) }
        ensures reads { IsTrue (state_of self.old).honest → Reads (state_of self.old) (state_of self.new) }
        ensures answer { IsTrue (state_of self.old).honest → IfOk result (Gives (state_of self.old).image.file at into.new) }

        ensures as_planned { FileFailsAsPlanned self.old self.new result }
        ensures planned_only { IsErr result → IsTrue (next_fails (calls_ahead self.old)) }
    {
        if self.failures.calls.next() {
            self.disk_faults = self.disk_faults.saturating_add(1);
            return Err(Failed);
        }
        let at = at as usize;
        if at >= self.history.file.len() {
            return Ok(0);
        }
        let rest = &self.history.file[at..];
        let count = into.len().min(rest.len());
        into[..count].copy_from_slice(&rest[..count]);
        Ok(count)
    }

    fn write_at(&mut self, at: u64, bytes: &[u8]) -> Result<(), Failed>
        requires { at + length bytes.now < 2 ^ 64 }
        ensures stays { Stays (state_of self.old) (state_of self.new) }
        ensures told { (state_of self.new).told_shelf ≡ (state_of self.old).told_shelf }
        ensures cause { OnErr result (Rose (state_of self.old).disk_faults (state_of self.new).disk_faults) }
        ensures writes { IsTrue (state_of self.old).honest → Writes at bytes.now (state_of self.old) (state_of self.new) }
        ensures written { IsTrue (state_of self.old).honest → OnOk result (Holds at bytes.now (state_of self.new).image.file) }

        ensures as_planned { FileFailsAsPlanned self.old self.new result }
        ensures refused { OnErr result (Reads (state_of self.old) (state_of self.new)) }
    {
        let planned = self.failures.calls.next();
        if !planned {
            match self.history.write(self.alloc, at, bytes) {
                Ok(()) => return Ok(()),
                Err(NoMemory) => self.starved = self.starved.saturating_add(1),
            }
        }
        self.disk_faults = self.disk_faults.saturating_add(1);
        Err(Failed)
    }

    fn sync(&mut self) -> Result<(), Failed>
        ensures stays { Stays (state_of self.old) (state_of self.new) }
        ensures told { (state_of self.new).told_shelf ≡ (state_of self.old).told_shelf }
        ensures cause { OnErr result (Rose (state_of self.old).disk_faults (state_of self.new).disk_faults) }
        ensures reads { IsTrue (state_of self.old).honest → Reads (state_of self.old) (state_of self.new) }
        ensures durable { IsTrue (state_of self.old).honest → OnOk result (Durable (state_of self.new)) }

        ensures as_planned { FileFailsAsPlanned self.old self.new result }
    {
        if !self.failures.calls.next() {
            match self.history.sync() {
                Ok(()) => return Ok(()),
                Err(NoMemory) => self.starved = self.starved.saturating_add(1),
            }
        }
        self.disk_faults = self.disk_faults.saturating_add(1);
        Err(Failed)
    }

    fn put(
        &mut self,
        alloc: Global,
        folder: &Key,
        name: &ItemName,
        bytes: &[u8],
    ) -> Result<(), ShelfFault>
        ensures stays { Stays (state_of self.old) (state_of self.new) }
        ensures told { Tells (PutBy result (item_of folder.now name.now bytes.now)) (state_of self.old).told_shelf (state_of self.new).told_shelf }
        ensures cause { IsErrOf result ShelfFault.Failed → Rose (state_of self.old).shelf_faults (state_of self.new).shelf_faults }
        ensures puts { IsTrue (state_of self.old).honest → Shelves (PutBy result (item_of folder.now name.now bytes.now)) (state_of self.old) (state_of self.new) }

        ensures as_planned { ShelfFailsAsPlanned self.old self.new result }
        ensures refused { IsTrue (next_fails (calls_ahead self.old)) → Reads (state_of self.old) (state_of self.new) }
        ensures by_folder { next_fails (calls_ahead self.old) ≡ false → PutsAsPlanned (failing_by (folder_plans self.old) folder.now) (item_of folder.now name.now bytes.now) result (state_of self.old) (state_of self.new) }
    {
        let planned = self.failures.calls.next();
        if planned {
            self.shelf_faults = self.shelf_faults.saturating_add(1);
            return Err(ShelfFault::Failed);
        }
        match self.failures.how(folder) {
            Failing::Never => match self.history.put(alloc, folder, name, bytes) {
                Ok(()) => Ok(()),
                Err(NoMemory) => Err(ShelfFault::NoMemory),
            },
            Failing::Stored => match self.history.put(alloc, folder, name, bytes) {
                Ok(()) => {
                    self.shelf_faults = self.shelf_faults.saturating_add(1);
                    Err(ShelfFault::Failed)
                }
                Err(NoMemory) => Err(ShelfFault::NoMemory),
            },
            Failing::Absent => {
                self.shelf_faults = self.shelf_faults.saturating_add(1);
                Err(ShelfFault::Failed)
            }
        }
    }

    fn has(&mut self, folder: &Key, name: &ItemName) -> Result<bool, ShelfFault>
        ensures stays { Stays (state_of self.old) (state_of self.new) }
        ensures told { (state_of self.new).told_shelf ≡ (state_of self.old).told_shelf }
        ensures told_answer { IsTold (HasAnswer folder.now name.now result) (state_of self.old).told_shelf }
        ensures cause { IsErrOf result ShelfFault.Failed → Rose (state_of self.old).shelf_faults (state_of self.new).shelf_faults }
        ensures reads { IsTrue (state_of self.old).honest → Reads (state_of self.old) (state_of self.new) }
        ensures answer { IsTrue (state_of self.old).honest → HasAnswer folder.now name.now result (state_of self.old).image.shelf }
        ensures settles { IsTrue (state_of self.old).honest → OnOk result (Settles folder.now name.now (state_of self.new)) }

        ensures as_planned { ShelfFailsAsPlanned self.old self.new result }
        ensures planned_only { IsErr result → IsTrue (next_fails (calls_ahead self.old)) }
    {
        if self.failures.calls.next() {
            self.shelf_faults = self.shelf_faults.saturating_add(1);
            return Err(ShelfFault::Failed);
        }
        Ok(self.history.has(folder, name))
    }

    fn fetch(
        &mut self,
        alloc: Global,
        folder: &Key,
        name: &ItemName,
    ) -> Result<Option<Bytes>, ShelfFault>
        ensures stays { Stays (state_of self.old) (state_of self.new) }
        ensures told { (state_of self.new).told_shelf ≡ (state_of self.old).told_shelf }
        ensures told_answer { IsTold (FetchAnswer folder.now name.now result) (state_of self.old).told_shelf }
        ensures cause { IsErrOf result ShelfFault.Failed → Rose (state_of self.old).shelf_faults (state_of self.new).shelf_faults }
        ensures reads { IsTrue (state_of self.old).honest → Reads (state_of self.old) (state_of self.new) }
        ensures answer { IsTrue (state_of self.old).honest → FetchAnswer folder.now name.now result (state_of self.old).image.shelf }

        ensures as_planned { ShelfFailsAsPlanned self.old self.new result }
        ensures planned_only { IsErrOf result ShelfFault.Failed → IsTrue (next_fails (calls_ahead self.old)) }
    {
        if self.failures.calls.next() {
            self.shelf_faults = self.shelf_faults.saturating_add(1);
            return Err(ShelfFault::Failed);
        }
        match self.history.find(folder, name) {
            None => Ok(None),
            Some(bytes) => match Bytes::of(alloc, bytes) {
                Ok(bytes) => Ok(Some(bytes)),
                Err(NoMemory) => Err(ShelfFault::NoMemory),
            },
        }
    }

    fn list(&mut self, alloc: Global, folder: &Key) -> Result<Vec<ItemName>, ShelfFault>
        ensures stays { Stays (state_of self.old) (state_of self.new) }
        ensures told { (state_of self.new).told_shelf ≡ (state_of self.old).told_shelf }
        ensures told_answer { IsTold (ListAnswer ⟦<ItemName as Ord>⟧.cmp folder.now result) (state_of self.old).told_shelf }
        ensures cause { IsErrOf result ShelfFault.Failed → Rose (state_of self.old).shelf_faults (state_of self.new).shelf_faults }
        ensures reads { IsTrue (state_of self.old).honest → Reads (state_of self.old) (state_of self.new) }
        ensures answer { IsTrue (state_of self.old).honest → ListAnswer ⟦<ItemName as Ord>⟧.cmp folder.now result (state_of self.old).image.shelf }

        ensures as_planned { ShelfFailsAsPlanned self.old self.new result }
        ensures planned_only { IsErrOf result ShelfFault.Failed → IsTrue (next_fails (calls_ahead self.old)) }
    {
        if self.failures.calls.next() {
            self.shelf_faults = self.shelf_faults.saturating_add(1);
            return Err(ShelfFault::Failed);
        }
        match self.history.names(alloc, folder) {
            Ok(names) => Ok(names),
            Err(NoMemory) => Err(ShelfFault::NoMemory),
        }
    }
}
