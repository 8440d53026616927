// The failures that are planned for a plant in memory.
ghost use Rattle.std.specs.Prelude.{◌≡◌, ◌∷◌, [], reverse, OnOk, OnErr};
ghost use Rattle.plant_dev.specs.Failures.{failing_by};

use mail_names::{Key, NoMemory};
use port_io::PlannedCalls;
use std::alloc::Global;

/// How puts into a folder fail.
#[derive(Clone, Copy, Debug, PartialEq, Eq)]
pub enum Failing {
    /// They don't.
    Never,
    /// They fail, and nothing is put.
    Absent,
    /// They fail, and the item is put.
    Stored,
}

#[derive(Drop)]
pub struct FolderPlan {
    pub folder: Key,
    pub how: Failing,
}

#[derive(Drop)]
pub struct Failures {
    pub calls: PlannedCalls,
    // of two for a folder the newest counts
    pub folders: Vec<FolderPlan>,
}

impl Failures {
    pub fn none(alloc: Global) -> Failures
        ensures calls { result.calls ≡ [] }
        ensures folders { result.folders.items ≡ [] }
    {
        Failures {
            calls: PlannedCalls::none(alloc),
            folders: Vec::new(alloc),
        }
    }

    pub fn plan_folder(&mut self, alloc: Global, folder: &Key, how: Failing) -> Result<(), NoMemory>
        ensures ok { OnOk result (reverse self.new.folders.items ≡ record { folder = folder.now; how = how } ∷ reverse self.old.folders.items) }
        ensures err { OnErr result (self.new.folders.items ≡ self.old.folders.items) }
        ensures calls { self.new.calls ≡ self.old.calls }
    {
        let folder = folder.copy(alloc)?;
        self.folders.push(FolderPlan { folder, how })?;
        Ok(())
    }

    /// How a put into this folder fails.
    pub fn how(&self, folder: &Key) -> Failing
        ensures { result ≡ failing_by (reverse self.now.folders.items) folder.now }
    {
        let mut how = Failing::Never;
        for plan in &self.folders {
            if plan.folder == *folder {
                how = plan.how;
            }
        }
        how
    }
}
