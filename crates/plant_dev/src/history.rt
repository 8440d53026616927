// What a plant in memory keeps: what it began with, its steps since, and what it reads as.
ghost use Rattle.std.specs.Prelude.{◌≡◌, ◌+◌, ◌++◌, ◌<◌, ◌≤◌, ◌^◌, ◌∷◌, [], List, length, take, reverse, All, IsPermutation, IsSorted, IfOk, OnOk, OnErr, IsTrue, IsSome, IfNone, IfSome, ◌↔◌};
ghost use Rattle.plant_dev.specs.declared.step.Step.TheVariants as steps_as;
ghost use Rattle.plant_dev.specs.Shelf.{Has, HasBytes, HasNoNameTwice, NamesIn, item_of};
ghost use Rattle.plant_dev.specs.Memory.{put_at, file_after, shelf_after, first_file_of, fits, IsImage, IsAdded};

use crate::Stored;
use crate::replay::{Replay, replayed};
use crate::step::{Step, write_into};
use mail_names::{Bytes, ItemName, Key, NoMemory};
use std::alloc::Global;

#[derive(Drop)]
pub struct History {
    // the first file, from the first write on
    pub first_file: Option<Vec<u8>>,
    // how many of the items it began with
    pub first_items: usize,
    pub file: Vec<u8>,
    pub shelf: Vec<Stored>,
    pub steps: Vec<Step>,
    ghost begun: { first_items ≤ length shelf.items },
    ghost all_fit: { All (λ s. IsTrue (fits s)) steps.items },
    ghost file_kept: { file.items ≡ file_after (first_file_of first_file file) (reverse steps.items) },
    ghost no_name_twice: { HasNoNameTwice shelf.items },
    ghost shelf_kept: { shelf.items ≡ shelf_after (take first_items shelf.items) (reverse steps.items) },
}

impl History {
    ghost use Rattle.plant_dev.specs.History.{first_of, image_of, past_of};

    pub fn new(alloc: Global, file: Vec<u8>, shelf: Vec<Stored>) -> History
        requires { HasNoNameTwice shelf.items }
        ensures image { image_of result ≡ record { file = file.items; shelf = shelf.items } }
        ensures first { first_of result ≡ image_of result }
        ensures past { past_of result ≡ [] }
    {
        History {
            first_file: None,
            first_items: shelf.len(),
            file,
            shelf,
            steps: Vec::new(alloc),
        }
    }

    // Keeps a copy of the first file, if none is kept yet.
    fn keep_first(&mut self, alloc: Global) -> Result<(), NoMemory>
        ensures first { first_of self.new ≡ first_of self.old }
        ensures image { image_of self.new ≡ image_of self.old }
        ensures past { past_of self.new ≡ past_of self.old }
        ensures kept { OnOk result (IsSome self.new.first_file) }
    {
        if self.first_file.is_none() {
            self.first_file = Some(Vec::from_slice(alloc, &self.file)?);
        }
        Ok(())
    }

    pub fn sync(&mut self) -> Result<(), NoMemory>
        ensures first { first_of self.new ≡ first_of self.old }
        ensures image { image_of self.new ≡ image_of self.old }
        ensures past { OnOk result (past_of self.new ≡ steps_as.Sync ∷ past_of self.old) }
        ensures err_past { OnErr result (past_of self.new ≡ past_of self.old) }
    {
        self.steps.push(Step::Sync)?;
        Ok(())
    }

    pub fn write(&mut self, alloc: Global, at: u64, bytes: &[u8]) -> Result<(), NoMemory>
        requires { at + length bytes.now < 2 ^ 64 }
        ensures first { first_of self.new ≡ first_of self.old }
        ensures image { OnOk result (image_of self.new ≡ record { file = put_at at bytes.now (image_of self.old).file; shelf = (image_of self.old).shelf }) }
        ensures past { OnOk result (past_of self.new ≡ steps_as.Write at bytes.now ∷ past_of self.old) }
        ensures err { OnErr result (image_of self.new ≡ image_of self.old) }
        ensures err_past { OnErr result (past_of self.new ≡ past_of self.old) }
    {
        self.keep_first(alloc)?;
        let step = Step::Write {
            at,
            bytes: Bytes::of(alloc, bytes)?,
        };
        self.steps.try_reserve(1)?;
        write_into(&mut self.file, at, bytes)?;
        self.steps.push(step)?;
        Ok(())
    }

    /// Puts an item that isn't there yet. One that is there stays as it is.
    pub fn put(
        &mut self,
        alloc: Global,
        folder: &Key,
        name: &ItemName,
        bytes: &[u8],
    ) -> Result<(), NoMemory>
        ensures first { first_of self.new ≡ first_of self.old }
        ensures added { OnOk result (IsAdded (item_of folder.now name.now bytes.now) (image_of self.old) (image_of self.new) (past_of self.old) (past_of self.new)) }
        ensures err { OnErr result (image_of self.new ≡ image_of self.old) }
        ensures err_past { OnErr result (past_of self.new ≡ past_of self.old) }
    {
        if self.has(folder, name) {
            return Ok(());
        }
        self.add(alloc, folder, name, bytes)
    }

    // Puts an item that isn't there.
    fn add(
        &mut self,
        alloc: Global,
        folder: &Key,
        name: &ItemName,
        bytes: &[u8],
    ) -> Result<(), NoMemory>
        requires { Has folder.now name.now (image_of self.old).shelf → ⊥ }
        ensures first { first_of self.new ≡ first_of self.old }
        ensures image { OnOk result (image_of self.new ≡ record { file = (image_of self.old).file; shelf = (image_of self.old).shelf ++ item_of folder.now name.now bytes.now ∷ [] }) }
        ensures past { OnOk result (past_of self.new ≡ steps_as.Put (item_of folder.now name.now bytes.now) ∷ past_of self.old) }
        ensures err { OnErr result (image_of self.new ≡ image_of self.old) }
        ensures err_past { OnErr result (past_of self.new ≡ past_of self.old) }
    {
        let item = Stored::of(alloc, folder, name, bytes)?;
        let again = Stored::of(alloc, folder, name, bytes)?;
        self.shelf.try_reserve(1)?;
        self.steps.push(Step::Put { item: again })?;
        self.shelf.push(item)?;
        Ok(())
    }

    pub fn has(&self, folder: &Key, name: &ItemName) -> bool
        ensures { IsTrue result ↔ Has folder.now name.now (image_of self.now).shelf }
    {
        self.shelf
            .iter()
            .any(|item| item.folder.same(folder) && item.name == *name)
    }

    pub fn find(&self, folder: &Key, name: &ItemName) -> Option<&[u8]>
        ensures none { IfNone result (Has folder.now name.now (image_of self.now).shelf → ⊥) }
        ensures some { IfSome result (λ b. HasBytes folder.now name.now b.now (image_of self.now).shelf) }
    {
        for item in &self.shelf {
            if item.folder.same(folder) && item.name == *name {
                return Some(item.bytes.as_slice());
            }
        }
        None
    }

    /// The names of a folder's items, ascending.
    pub fn names(&self, alloc: Global, folder: &Key) -> Result<Vec<ItemName>, NoMemory>
        ensures { IfOk result (λ names. (found : List ItemName) × NamesIn folder.now (image_of self.now).shelf found × IsPermutation found names.items × IsSorted ⟦<ItemName as Ord>⟧.cmp names.items) }
    {
        let mut names = names_of(alloc, &self.shelf, folder)?;
        names.sort()?;
        Ok(names)
    }

    /// One of the images that a crash may leave, as a history of its own.
    pub fn crash(&self, alloc: Global, pick: u64) -> Result<History, NoMemory>
        ensures image { IfOk result (λ h. IsImage (first_of self.now) (past_of self.now) (image_of h)) }
        ensures first { IfOk result (λ h. first_of h ≡ image_of h) }
        ensures past { IfOk result (λ h. past_of h ≡ []) }
    {
        let first_file = match &self.first_file {
            Some(first) => first,
            None => &self.file,
        };
        let Replay {
            read: _,
            left,
            shelf,
        } = replayed(
            alloc,
            first_file,
            &self.shelf[..self.first_items],
            &self.steps,
            pick,
        )?;
        Ok(History::new(alloc, left, shelf))
    }
}

// The names of a folder's items, in the order of the shelf.
fn names_of(alloc: Global, shelf: &[Stored], folder: &Key) -> Result<Vec<ItemName>, NoMemory>
    ensures { IfOk result (λ names. NamesIn folder.now shelf.now names.items) }
{
    let mut names = Vec::new(alloc);
    for item in shelf {
        if item.folder.same(folder) {
            names.push(item.name)?;
        }
    }
    Ok(names)
}
