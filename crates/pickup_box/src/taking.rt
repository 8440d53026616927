// The work on a pickup folder.
ghost use Rattle.std.specs.Prelude.{◌≡◌, ◌+◌, ◌<◌, ◌≤◌, ◌^◌, Err, None, Some, [], unwrap_or};
ghost use Rattle.port_io.specs.Causes.{Rose};
ghost use Rattle.mail_submission.specs.Submission.{Submitted};
ghost use Rattle.pickup_box.specs.declared.taking.PickupFault.{PickupFault};
ghost use Rattle.pickup_box.specs.FileNames.{begun_stem, new_stem, begun_name, bad_name};
ghost use Rattle.pickup_box.specs.Folder.{Has};
ghost use Rattle.pickup_box.specs.Works.{halt_of, number_halt, moved, fate_of, IsOwn, counted, ended};
ghost use Rattle.pickup_box.specs.Taking.{InOrder, Goes, Taken};
ghost use Rattle.pickup_box.specs.Parts.{Does, Marks, Begins, Stands, Given, Handed, Took};

use crate::file_names::{bad_name, begun_name, begun_stem, new_stem, order_of};
use crate::folder::{DirFault, PickupDir};
use crate::pickup::{PickupBad, pickup_of};
use mail_message::MOST_OCTETS;
use mail_names::{Bytes, NoMemory};
use mail_submission::{Accepted, Intake, IntakeFault, NumberFault, Submission};
use port_io::Clock;
use std::alloc::Global;

/// What the work on a pickup folder came to.
#[derive(Clone, Copy, Debug, PartialEq, Eq)]
pub struct PickupEnd {
    /// New submissions. One that was accepted before doesn't count.
    pub accepted: u64,
    /// Files that were renamed `STEM.bad`.
    pub bad: u64,
    /// Whether the work ended since the intake's queue was full.
    pub full: bool,
}

/// Why the work on a pickup folder ended early.
#[derive(Clone, Copy, Debug, PartialEq, Eq)]
pub enum PickupFault {
    /// The folder failed, and the count of its faults rose.
    Folder,
    NoMemory,
    /// The intake refused by its `DiskFault`, `LogFull`, `NotALog` or `DeskFull`.
    Intake { fault: IntakeFault },
}

/// How the work ends at a file.
#[derive(Clone, Copy)]
pub enum Halt {
    /// The queue is full.
    Full,
    Fault { fault: PickupFault },
}

/// What became of a file.
#[derive(Clone, Copy, PartialEq, Eq)]
pub enum Fate {
    Bad,
    New,
    Repeat,
}

impl From<NoMemory> for PickupFault {
    ghost use Rattle.std.specs.Prelude.{◌≡◌};
    ghost use Rattle.pickup_box.specs.declared.taking.PickupFault.TheVariants as causes;

    ghost from_gives = { λ _ e. e ≡ causes.NoMemory };

    fn from(_: NoMemory) -> Self {
        PickupFault::NoMemory
    }
}

fn own_fault(fault: DirFault) -> PickupFault
    ensures own { IsOwn (Halt.Fault result) }
    ensures cause { result ≡ PickupFault.Folder → fault ≡ DirFault.Failed }
{
    match fault {
        DirFault::Failed => PickupFault::Folder,
        DirFault::NoMemory => PickupFault::NoMemory,
    }
}

fn halt_of(fault: IntakeFault) -> Halt
    ensures value { result ≡ halt_of fault }
    ensures folder { result ≡ Halt.Fault PickupFault.Folder → ⊥ }
    ensures disk { result ≡ Halt.Fault (PickupFault.Intake IntakeFault.DiskFault) → fault ≡ IntakeFault.DiskFault }
{
    match fault {
        IntakeFault::QueueFull { .. } => Halt::Full,
        IntakeFault::NoMemory => Halt::Fault {
            fault: PickupFault::NoMemory,
        },
        fault => Halt::Fault {
            fault: PickupFault::Intake { fault },
        },
    }
}

fn number_halt(fault: NumberFault) -> Halt
    ensures value { result ≡ number_halt fault }
    ensures folder { result ≡ Halt.Fault PickupFault.Folder → ⊥ }
    ensures disk { result ≡ Halt.Fault (PickupFault.Intake IntakeFault.DiskFault) → fault ≡ NumberFault.DiskFault }
{
    let fault = match fault {
        NumberFault::DiskFault => PickupFault::Intake {
            fault: IntakeFault::DiskFault,
        },
        NumberFault::NoMemory => PickupFault::NoMemory,
        NumberFault::NotALog { at } => PickupFault::Intake {
            fault: IntakeFault::NotALog { at },
        },
        NumberFault::DeskFull { calls } => PickupFault::Intake {
            fault: IntakeFault::DeskFull { calls },
        },
    };
    Halt::Fault { fault }
}

fn fate_of(accepted: Accepted) -> Fate
    ensures { (s : Submitted) → result ≡ fate_of (Some s) accepted }
{
    if accepted.repeat {
        Fate::Repeat
    } else {
        Fate::New
    }
}

// Gives a new file the name under which it is begun, and answers that.
fn rename_begun<B: PickupDir>(
    alloc: Global,
    dir: &mut B,
    name: &[u8],
    stem: &[u8],
    number: u64,
) -> Result<Bytes, PickupFault>
    requires { Has name.now (B.state dir.old) }
    ensures marks { Marks (B.state dir.old) (B.state dir.new) name.now (begun_name stem.now number) result }
    ensures later { (B.state dir.old).faults ≤ (B.state dir.new).faults }
    ensures cause { result ≡ Err PickupFault.Folder → Rose (B.state dir.old).faults (B.state dir.new).faults }
{
    let mark = begun_name(alloc, stem, number)?;
    match dir.rename(name, mark.as_slice()) {
        Ok(()) => Ok(mark),
        Err(fault) => Err(own_fault(fault)),
    }
}

// Gives a bad file its name.
fn put_aside<B: PickupDir>(
    alloc: Global,
    dir: &mut B,
    mark: &[u8],
    stem: &[u8],
) -> Result<(), PickupFault>
    requires { Has mark.now (B.state dir.old) }
    ensures does { Does (moved mark.now (bad_name stem.now)) (B.state dir.old) (B.state dir.new) result }
    ensures later { (B.state dir.old).faults ≤ (B.state dir.new).faults }
    ensures cause { result ≡ Err PickupFault.Folder → Rose (B.state dir.old).faults (B.state dir.new).faults }
{
    let bad = bad_name(alloc, stem)?;
    match dir.rename(mark, bad.as_slice()) {
        Ok(()) => Ok(()),
        Err(fault) => Err(own_fault(fault)),
    }
}

// The submission of a file that has its mark's name, unless it is bad.
fn submission_in<B: PickupDir>(
    alloc: Global,
    dir: &mut B,
    mark: &[u8],
) -> Result<Option<Submission>, PickupFault>
    requires { Has mark.now (B.state dir.old) }
    ensures stands { Stands (B.state dir.old) (B.state dir.new) mark.now result }
    ensures later { (B.state dir.old).faults ≤ (B.state dir.new).faults }
    ensures cause { result ≡ Err PickupFault.Folder → Rose (B.state dir.old).faults (B.state dir.new).faults }
{
    let label = Bytes::of(alloc, mark)?;
    let bytes = match dir.read(mark, MOST_OCTETS) {
        Ok(bytes) => bytes,
        Err(fault) => return Err(own_fault(fault)),
    };
    match pickup_of(alloc, label, bytes.as_slice()) {
        Ok(submission) => Ok(Some(submission)),
        Err(PickupBad::Bad) => Ok(None),
        Err(PickupBad::NoMemory) => Err(PickupFault::NoMemory),
    }
}

// Gives a new file its number and its mark's name, and answers that.
fn begin<B: PickupDir, I: Intake>(
    alloc: Global,
    dir: &mut B,
    intake: &mut I,
    name: &[u8],
    stem: &[u8],
) -> Result<Bytes, Halt>
    requires { Has name.now (B.state dir.old) }
    ensures begins { Begins I.gives intake.old intake.new (B.state dir.old) (B.state dir.new) name.now stem.now result }
    ensures folders { (B.state dir.old).faults ≤ (B.state dir.new).faults }
    ensures disks { I.disk_faults intake.old ≤ I.disk_faults intake.new }
    ensures folder { result ≡ Err (Halt.Fault PickupFault.Folder) → Rose (B.state dir.old).faults (B.state dir.new).faults }
    ensures disk { result ≡ Err (Halt.Fault (PickupFault.Intake IntakeFault.DiskFault)) → Rose (I.disk_faults intake.old) (I.disk_faults intake.new) }
{
    let number = match intake.next_number() {
        Ok(number) => number,
        Err(fault) => return Err(number_halt(fault)),
    };
    match rename_begun(alloc, dir, name, stem, number) {
        Ok(mark) => Ok(mark),
        Err(fault) => Err(Halt::Fault { fault }),
    }
}

// Submits a file, and removes it.
fn give<B: PickupDir, I: Intake, C: Clock>(
    dir: &mut B,
    intake: &mut I,
    clock: &mut C,
    mark: &[u8],
    submission: Submission,
) -> Result<Fate, Halt>
    requires { Has mark.now (B.state dir.old) }
    ensures given { Given I.gives intake.old intake.new (C.moments clock.old) (C.moments clock.new) (B.state dir.old) (B.state dir.new) mark.now submission result }
    ensures folders { (B.state dir.old).faults ≤ (B.state dir.new).faults }
    ensures disks { I.disk_faults intake.old ≤ I.disk_faults intake.new }
    ensures folder { result ≡ Err (Halt.Fault PickupFault.Folder) → Rose (B.state dir.old).faults (B.state dir.new).faults }
    ensures disk { result ≡ Err (Halt.Fault (PickupFault.Intake IntakeFault.DiskFault)) → Rose (I.disk_faults intake.old) (I.disk_faults intake.new) }
{
    let moment = clock.now();
    let accepted = match intake.submit(submission, moment) {
        Ok(accepted) => accepted,
        Err(fault) => return Err(halt_of(fault)),
    };
    match dir.remove(mark) {
        Ok(()) => Ok(fate_of(accepted)),
        Err(fault) => Err(Halt::Fault {
            fault: own_fault(fault),
        }),
    }
}

// Submits a file that has its mark's name, and removes it. A bad one gets its bad name.
fn hand_in<B: PickupDir, I: Intake, C: Clock>(
    alloc: Global,
    dir: &mut B,
    intake: &mut I,
    clock: &mut C,
    mark: &[u8],
    stem: &[u8],
) -> Result<Fate, Halt>
    requires { Has mark.now (B.state dir.old) }
    ensures handed { Handed I.gives intake.old intake.new (C.moments clock.old) (C.moments clock.new) (B.state dir.old) (B.state dir.new) mark.now stem.now result }
    ensures folders { (B.state dir.old).faults ≤ (B.state dir.new).faults }
    ensures disks { I.disk_faults intake.old ≤ I.disk_faults intake.new }
    ensures folder { result ≡ Err (Halt.Fault PickupFault.Folder) → Rose (B.state dir.old).faults (B.state dir.new).faults }
    ensures disk { result ≡ Err (Halt.Fault (PickupFault.Intake IntakeFault.DiskFault)) → Rose (I.disk_faults intake.old) (I.disk_faults intake.new) }
{
    match submission_in(alloc, dir, mark) {
        Ok(Some(submission)) => give(dir, intake, clock, mark, submission),
        Ok(None) => match put_aside(alloc, dir, mark, stem) {
            Ok(()) => Ok(Fate::Bad),
            Err(fault) => Err(Halt::Fault { fault }),
        },
        Err(fault) => Err(Halt::Fault { fault }),
    }
}

// The stem of a new file.
fn stem_of(name: &[u8]) -> &[u8]
    ensures { result.now ≡ unwrap_or (new_stem name.now) [] }
{
    match new_stem(name) {
        Some(stem) => stem,
        None => b"",
    }
}

// Does the work on a new file.
fn take_new<B: PickupDir, I: Intake, C: Clock>(
    alloc: Global,
    dir: &mut B,
    intake: &mut I,
    clock: &mut C,
    name: &[u8],
) -> Result<Fate, Halt>
    requires new { begun_stem name.now ≡ None }
    requires there { Has name.now (B.state dir.old) }
    ensures took { Took I.gives intake.old intake.new (C.moments clock.old) (C.moments clock.new) (B.state dir.old) (B.state dir.new) name.now result }
    ensures folders { (B.state dir.old).faults ≤ (B.state dir.new).faults }
    ensures disks { I.disk_faults intake.old ≤ I.disk_faults intake.new }
    ensures folder { result ≡ Err (Halt.Fault PickupFault.Folder) → Rose (B.state dir.old).faults (B.state dir.new).faults }
    ensures disk { result ≡ Err (Halt.Fault (PickupFault.Intake IntakeFault.DiskFault)) → Rose (I.disk_faults intake.old) (I.disk_faults intake.new) }
{
    let stem = stem_of(name);
    match begin(alloc, dir, intake, name, stem) {
        Ok(mark) => hand_in(alloc, dir, intake, clock, mark.as_slice(), stem),
        Err(halt) => Err(halt),
    }
}

// Does the work on one file.
fn take_file<B: PickupDir, I: Intake, C: Clock>(
    alloc: Global,
    dir: &mut B,
    intake: &mut I,
    clock: &mut C,
    name: &[u8],
) -> Result<Fate, Halt>
    requires { Has name.now (B.state dir.old) }
    ensures took { Took I.gives intake.old intake.new (C.moments clock.old) (C.moments clock.new) (B.state dir.old) (B.state dir.new) name.now result }
    ensures folders { (B.state dir.old).faults ≤ (B.state dir.new).faults }
    ensures disks { I.disk_faults intake.old ≤ I.disk_faults intake.new }
    ensures folder { result ≡ Err (Halt.Fault PickupFault.Folder) → Rose (B.state dir.old).faults (B.state dir.new).faults }
    ensures disk { result ≡ Err (Halt.Fault (PickupFault.Intake IntakeFault.DiskFault)) → Rose (I.disk_faults intake.old) (I.disk_faults intake.new) }
{
    match begun_stem(name) {
        Some(stem) => hand_in(alloc, dir, intake, clock, name, stem),
        None => take_new(alloc, dir, intake, clock, name),
    }
}

// Counts what became of a file.
fn counted(end: PickupEnd, fate: Fate) -> PickupEnd
    requires accepted { end.accepted + 1 < 2 ^ 64 }
    requires bad { end.bad + 1 < 2 ^ 64 }
    ensures { result ≡ counted end fate }
{
    let mut end = end;
    match fate {
        Fate::Bad => end.bad += 1,
        Fate::New => end.accepted += 1,
        Fate::Repeat => {}
    }
    end
}

// What the work comes to that ends so, once so many files are done.
fn ended(end: PickupEnd, halt: Halt) -> Result<PickupEnd, PickupFault>
    ensures value { result ≡ ended end halt }
    ensures fault { (fault : PickupFault) → result ≡ Err fault → halt ≡ Halt.Fault fault }
{
    match halt {
        Halt::Full => Ok(PickupEnd { full: true, ..end }),
        Halt::Fault { fault } => Err(fault),
    }
}

// Does the work on the files of these names, one after another.
fn take_all<B: PickupDir, I: Intake, C: Clock>(
    alloc: Global,
    dir: &mut B,
    intake: &mut I,
    clock: &mut C,
    names: &[Bytes],
) -> Result<PickupEnd, PickupFault>
    requires { InOrder (B.state dir.old) names.now }
    ensures goes { Goes I.gives intake.old intake.new (C.moments clock.old) (C.moments clock.new) (B.state dir.old) (B.state dir.new) names.now result }
    ensures folders { (B.state dir.old).faults ≤ (B.state dir.new).faults }
    ensures disks { I.disk_faults intake.old ≤ I.disk_faults intake.new }
    ensures folder { result ≡ Err PickupFault.Folder → Rose (B.state dir.old).faults (B.state dir.new).faults }
    ensures disk { result ≡ Err (PickupFault.Intake IntakeFault.DiskFault) → Rose (I.disk_faults intake.old) (I.disk_faults intake.new) }
{
    let mut end = PickupEnd {
        accepted: 0,
        bad: 0,
        full: false,
    };
    for name in names {
        match take_file(alloc, dir, intake, clock, name.as_slice()) {
            Ok(fate) => end = counted(end, fate),
            Err(halt) => return ended(end, halt),
        }
    }
    Ok(end)
}

/// Takes the files of a pickup folder: first those that were begun, `STEM.N.tmp`, then the new ones, `STEM.eml`, each in
/// the order of their bytes. Others are left alone.
///
/// A new file is renamed `STEM.N.tmp`, N being the number that the next new submission gets. The name is then the
/// mark of its submission, so that a file that a crash left behind its submission is a repeat, and no second one. Each
/// file is submitted at a moment of the clock, in seconds since 1970-01-01T00:00:00Z, and removed; a bad one is renamed
/// `STEM.bad`. A full queue ends the work, and the file stays.
///
/// `Taken` says what was done of which files, which steps the intake made at which moments, and what the folder has
/// then, where it tells it.
///
/// A fault ends the work, and its file stays, under its name or its mark's: the next call goes on with it, and finds a
/// repeat where it was submitted. It is the folder's, for which the count of its faults rose, want of memory, or a
/// refusal of the intake other than a full queue.
pub fn take_files<B: PickupDir, I: Intake, C: Clock>(
    alloc: Global,
    dir: &mut B,
    intake: &mut I,
    clock: &mut C,
) -> Result<PickupEnd, PickupFault>
    ensures taken { Taken I.gives intake.old intake.new (C.moments clock.old) (C.moments clock.new) (B.state dir.old) (B.state dir.new) result }

    // The count of an end rose where it ended the work, and none falls.
    ensures folders { (B.state dir.old).faults ≤ (B.state dir.new).faults }
    ensures disks { I.disk_faults intake.old ≤ I.disk_faults intake.new }
    ensures folder { result ≡ Err PickupFault.Folder → Rose (B.state dir.old).faults (B.state dir.new).faults }
    ensures disk { result ≡ Err (PickupFault.Intake IntakeFault.DiskFault) → Rose (I.disk_faults intake.old) (I.disk_faults intake.new) }
{
    let names = match dir.list() {
        Ok(names) => names,
        Err(fault) => return Err(own_fault(fault)),
    };
    let order = order_of(alloc, names.as_slice())?;
    take_all(alloc, dir, intake, clock, order.as_slice())
}
