// One of the images that a crash may leave of a plant in memory.
ghost use Rattle.std.specs.Prelude.{◌≡◌, ◌+◌, ◌^◌, ◌<◌, ◌∷◌, List, length, reverse, take, All, IsTrue, IfOk, OnOk};
ghost use Rattle.plant_dev.specs.Disk.{Image, Torn};
ghost use Rattle.plant_dev.specs.Memory.{fits};
ghost use Rattle.plant_dev.specs.Replay.{HasReplayed};

use crate::Stored;
use crate::step::{Step, write_into};
use mail_names::NoMemory;
use std::alloc::Global;

/// The file as it is read, and file and shelf as a crash leaves them.
#[derive(Drop)]
pub struct Replay {
    pub read: Vec<u8>,
    pub left: Vec<u8>,
    pub shelf: Vec<Stored>,
}

// What a crash leaves of a write: nothing, its first half, or the whole.
fn cut_short(file: &mut Vec<u8>, at: u64, bytes: &[u8], choice: u64) -> Result<(), NoMemory>
    requires { at + length bytes.now < 2 ^ 64 }
    ensures { OnOk result (Torn at (length bytes.now) file.old.items file.new.items) }
{
    match choice {
        0 => Ok(()),
        1 => write_into(file, at, &bytes[..bytes.len() / 2]),
        _ => write_into(file, at, bytes),
    }
}

impl Replay {
    ghost use Rattle.plant_dev.specs.declared.step.Step.{Step};

    /// Goes through one step more.
    pub fn go_on(&mut self, alloc: Global, step: &Step, choice: u64) -> Result<(), NoMemory>
        requires { IsTrue (fits step.now) }
        ensures { (first : Image) (past : List Step) → HasReplayed first past self.old → OnOk result (HasReplayed first (step.now ∷ past) self.new) }
    {
        match step {
            Step::Write { at, bytes } => {
                cut_short(&mut self.left, *at, bytes.as_slice(), choice)?;
                write_into(&mut self.read, *at, bytes.as_slice())?;
            }
            Step::Sync => self.left = Vec::from_slice(alloc, &self.read)?,
            Step::Put { item } => self.shelf.push(item.copy(alloc)?)?,
        }
        Ok(())
    }
}

/// What a crash may leave after these steps. Two bits of the number for each step say what.
pub fn replayed(
    alloc: Global,
    file: &[u8],
    shelf: &[Stored],
    steps: &[Step],
    pick: u64,
) -> Result<Replay, NoMemory>
    requires { All (λ s. IsTrue (fits s)) steps.now }
    ensures { IfOk result (HasReplayed (record { file = file.now; shelf = shelf.now }) (reverse steps.now)) }
{
    let mut replay = Replay {
        read: Vec::from_slice(alloc, file)?,
        left: Vec::from_slice(alloc, file)?,
        shelf: copies(alloc, shelf)?,
    };
    let mut choices = pick;
    for step in steps {
        replay.go_on(alloc, step, choices & 3)?;
        choices = choices.rotate_right(2);
    }
    Ok(replay)
}

fn copies(alloc: Global, shelf: &[Stored]) -> Result<Vec<Stored>, NoMemory>
    ensures { IfOk result (λ v. v.items ≡ shelf.now) }
{
    let mut copies = Vec::new(alloc);
    for item in shelf {
        copies.push(item.copy(alloc)?)?;
    }
    Ok(copies)
}
