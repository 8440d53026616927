// A pickup folder in memory.
ghost use Rattle.std.specs.Prelude.{◌≡◌, ◌+◌, ◌≤◌, not, take, bytes_eq, option_copied, vec_len, vec_capacity, is_some, IsSome, IsTrue, IsPermutation, IfOk, OnOk, OnErr};
ghost use Rattle.pickup_box.specs.Folder.{bytes_in, without, names_of, HasNoNameTwice, IsAscending, Removes, Renames};

use crate::folder::{DirFault, PickupDir};
use crate::listing::{names_of, sort_names};
use mail_names::{Bytes, NoMemory};
use port_io::PlannedCalls;
use std::alloc::Global;

/// A pickup folder in memory, which tells its files. Its calls fail as planned and nowhere else.
#[derive(Drop)]
pub struct MemoryDir {
    alloc: Global,
    files: Vec<(Bytes, Bytes)>,
    calls: PlannedCalls,
    faults: u64,
    ghost no_name_twice: { HasNoNameTwice files.items },
}

// The bytes of the file of this name.
fn bytes_in<'a>(files: &'a [(Bytes, Bytes)], name: &[u8]) -> Option<&'a [u8]>
    ensures { option_copied result ≡ bytes_in files.now name.now }
{
    for (other, bytes) in files {
        if name == other.as_slice() {
            return Some(bytes.as_slice());
        }
    }
    None
}

fn has_file(files: &[(Bytes, Bytes)], name: &[u8]) -> bool
    ensures { result ≡ is_some (bytes_in files.now name.now) }
{
    bytes_in(files, name).is_some()
}

/// Whether each of these files has a name of its own, as a `MemoryDir` wants it.
pub fn have_own_names(files: &[(Bytes, Bytes)]) -> bool
    ensures { IsTrue result → HasNoNameTwice files.now }
{
    let mut i = 0;
    while i < files.len() {
        if has_file(&files[i + 1..], files[i].0.as_slice()) {
            return false;
        }
        i += 1;
    }
    true
}

// Takes away the files of this name. The room stays.
fn take_away(files: &mut Vec<(Bytes, Bytes)>, name: &[u8])
    ensures files { files.new.items ≡ without name.now files.old.items }
    ensures removes { Removes name.now files.old.items files.new.items }
    ensures distinct { HasNoNameTwice files.old.items → HasNoNameTwice files.new.items }
    ensures shorter { vec_len files.new ≤ vec_len files.old }
    ensures room { vec_capacity files.new ≡ vec_capacity files.old }
{
    files.retain(
        |file| -> bool
            ensures { result ≡ not (bytes_eq file.now.0 name.entry.now) }
        { file.0.as_slice() != name },
    );
}

// Gives the file of a name another one, in the place of what had it.
fn rename_in(
    alloc: Global,
    files: &mut Vec<(Bytes, Bytes)>,
    from: &[u8],
    to: &[u8],
) -> Result<(), NoMemory>
    requires { IsSome (bytes_in files.old.items from.now) }
    ensures ok { OnOk result (Renames from.now to.now files.old.items files.new.items) }
    ensures distinct { HasNoNameTwice files.old.items → HasNoNameTwice files.new.items }
    ensures err { OnErr result (files.new.items ≡ files.old.items) }
{
    let bytes = Bytes::of(alloc, bytes_in(files.as_slice(), from).unwrap())?;
    let name = Bytes::of(alloc, to)?;
    // With room made before, nothing fails behind the removals.
    files.reserve(1)?;
    take_away(files, from);
    take_away(files, to);
    files.push((name, bytes))?;
    Ok(())
}

// The names of these files, in the order of their bytes.
fn sorted_names(alloc: Global, files: &[(Bytes, Bytes)]) -> Result<Vec<Bytes>, NoMemory>
    ensures all { IfOk result (λ names. IsPermutation (names_of files.now) names.items) }
    ensures ascending { IfOk result (λ names. IsAscending names.items) }
{
    let mut names = names_of(alloc, files)?;
    sort_names(&mut names)?;
    Ok(names)
}

// The first `most + 1` of these bytes, or all where there are fewer.
fn front_of(alloc: Global, bytes: &[u8], most: usize) -> Result<Bytes, NoMemory>
    ensures { IfOk result (λ front. front ≡ take (most + 1) bytes.now) }
{
    if bytes.len() > most {
        Bytes::of(alloc, &bytes[..most + 1])
    } else {
        Bytes::of(alloc, bytes)
    }
}

impl MemoryDir {
    ghost use Rattle.std.specs.Prelude.{◌≡◌, ◌+◌, ◌-◌, ◌^◌, ◌≤◌, min, if◌then◌else◌, drop};
    ghost use Rattle.port_io.specs.Planned.{next_fails};
    ghost use Rattle.pickup_box.specs.Folder.{HasNoNameTwice};
    ghost use Rattle.pickup_box.specs.MemoryDir.{state_of, calls_ahead};

    /// A folder of these files, of which no two have one name. Call k fails where byte k of `fails` is 1. It takes no
    /// memory.
    pub fn new(alloc: Global, files: Vec<(Bytes, Bytes)>, fails: Bytes) -> MemoryDir
        requires { HasNoNameTwice files.items }
        ensures files { (state_of result).files ≡ files.items }
        ensures faults { (state_of result).faults ≡ 0 }
        ensures calls { calls_ahead result ≡ fails }
    {
        MemoryDir {
            alloc,
            files,
            calls: PlannedCalls::of(fails),
            faults: 0,
        }
    }

    /// The files, in no told order.
    pub fn files(&self) -> &[(Bytes, Bytes)]
        ensures { result.now ≡ (state_of self.now).files }
    {
        self.files.as_slice()
    }

    /// How often a call failed, counted up to 2^64 - 1.
    pub fn faults(&self) -> u64
        ensures { result ≡ (state_of self.now).faults }
    {
        self.faults
    }

    // Whether the next call fails, which is counted then.
    fn fails_next(&mut self) -> bool
        ensures planned { result ≡ next_fails (calls_ahead self.old) }
        ensures calls { calls_ahead self.new ≡ drop 1 (calls_ahead self.old) }
        ensures files { (state_of self.new).files ≡ (state_of self.old).files }
        ensures later { (state_of self.old).faults ≤ (state_of self.new).faults }
        ensures faults { (state_of self.new).faults ≡ (if result then min ((state_of self.old).faults + 1) (2 ^ 64 - 1) else (state_of self.old).faults) }
    {
        let fails = self.calls.next();
        if fails {
            self.faults = self.faults.saturating_add(1);
        }
        fails
    }
}

impl PickupDir for MemoryDir {
    ghost use Rattle.std.specs.Prelude.{◌≡◌, ◌+◌, ◌≤◌, length, IfOk, IsErrOf, IsTrue};
    ghost use Rattle.port_io.specs.Causes.{Rose};
    ghost use Rattle.pickup_box.specs.Folder.{Folder, HasNoNameTwice, IsAscending, Has, ListAnswer, ReadAnswer, Removes, Renames, ChangedBy, Tells, Stays};
    ghost use Rattle.pickup_box.specs.MemoryDir.{state_of, FailsAsPlanned};

    ghost state = { state_of };

    ghost no_name_twice = { λ d told. d.no_name_twice };

    fn list(&mut self) -> Result<Vec<Bytes>, DirFault>
        ensures told { Tells Stays (state_of self.old) (state_of self.new) }
        ensures later { (state_of self.old).faults ≤ (state_of self.new).faults }
        ensures cause { IsErrOf result DirFault.Failed → Rose (state_of self.old).faults (state_of self.new).faults }
        ensures ascending { IfOk result (λ names. IsAscending names.items) }
        ensures answer { IsTrue (state_of self.old).told → ListAnswer result (state_of self.old).files }

        ensures as_planned { FailsAsPlanned self.old self.new result }
    {
        if self.fails_next() {
            return Err(DirFault::Failed);
        }
        match sorted_names(self.alloc, self.files.as_slice()) {
            Ok(names) => Ok(names),
            Err(NoMemory) => Err(DirFault::NoMemory),
        }
    }

    fn read(&mut self, name: &[u8], most: usize) -> Result<Bytes, DirFault>
        requires { Has name.now (state_of self.old) }
        ensures told { Tells Stays (state_of self.old) (state_of self.new) }
        ensures later { (state_of self.old).faults ≤ (state_of self.new).faults }
        ensures cause { IsErrOf result DirFault.Failed → Rose (state_of self.old).faults (state_of self.new).faults }
        ensures short { IfOk result (λ bytes. length bytes ≤ most + 1) }
        ensures answer { IsTrue (state_of self.old).told → ReadAnswer name.now most result (state_of self.old).files }

        ensures as_planned { FailsAsPlanned self.old self.new result }
    {
        if self.fails_next() {
            return Err(DirFault::Failed);
        }
        let bytes = bytes_in(self.files.as_slice(), name).unwrap();
        match front_of(self.alloc, bytes, most) {
            Ok(front) => Ok(front),
            Err(NoMemory) => Err(DirFault::NoMemory),
        }
    }

    fn rename(&mut self, from: &[u8], to: &[u8]) -> Result<(), DirFault>
        requires { Has from.now (state_of self.old) }
        ensures told { Tells (ChangedBy result (Renames from.now to.now)) (state_of self.old) (state_of self.new) }
        ensures later { (state_of self.old).faults ≤ (state_of self.new).faults }
        ensures cause { IsErrOf result DirFault.Failed → Rose (state_of self.old).faults (state_of self.new).faults }

        ensures as_planned { FailsAsPlanned self.old self.new result }
    {
        if self.fails_next() {
            return Err(DirFault::Failed);
        }
        match rename_in(self.alloc, &mut self.files, from, to) {
            Ok(()) => Ok(()),
            Err(NoMemory) => Err(DirFault::NoMemory),
        }
    }

    fn remove(&mut self, name: &[u8]) -> Result<(), DirFault>
        requires { Has name.now (state_of self.old) }
        ensures told { Tells (ChangedBy result (Removes name.now)) (state_of self.old) (state_of self.new) }
        ensures later { (state_of self.old).faults ≤ (state_of self.new).faults }
        ensures cause { IsErrOf result DirFault.Failed → Rose (state_of self.old).faults (state_of self.new).faults }

        ensures as_planned { FailsAsPlanned self.old self.new result }
        ensures memory { IsErrOf result DirFault.NoMemory → ⊥ }
    {
        if self.fails_next() {
            return Err(DirFault::Failed);
        }
        take_away(&mut self.files, name);
        Ok(())
    }
}
