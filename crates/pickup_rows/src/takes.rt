// The work on whole folders, over an intake that keeps what it was asked.
use crate::desk::{Desk, refusals_of};
use crate::octets::Answer;
use crate::row::{Fault, Row, number};
use mail_names::Bytes;
use mail_submission::IntakeFault;
use pickup_box::{FileDir, MemoryDir, PickupEnd, PickupFault, have_own_names, take_files};
use port_io::MemoryClock;
use std::alloc::Global;
use std::rt::Files;
use std::str;

// From how many calls on none is planned to fail.
const MOST_CALLS: usize = 40;

// The files that a row's arguments name from this place on, each with its octets behind it.
fn files_of(alloc: Global, args: &[Bytes]) -> Result<Vec<(Bytes, Bytes)>, Fault> {
    let mut files = Vec::new(alloc);
    for file in args.chunks(2) {
        if let [name, bytes] = file {
            files.push((
                Bytes::of(alloc, name.as_slice())?,
                Bytes::of(alloc, bytes.as_slice())?,
            ))?;
        }
    }
    Ok(files)
}

// A byte for each call of the folder that a text of 0 and 1 has.
fn plan_of(alloc: Global, text: &[u8]) -> Result<Bytes, Fault> {
    let mut plan = Vec::new(alloc);
    for b in text {
        plan.push(u8::from(*b == b'1'))?;
    }
    Ok(Bytes::from_vec(plan))
}

fn clock_of(alloc: Global) -> Result<MemoryClock, Fault> {
    let mut moments = Vec::new(alloc);
    for moment in 100..120 {
        moments.push(moment)?;
    }
    Ok(MemoryClock::new(moments))
}

fn fault_text(fault: PickupFault) -> &'static str {
    match fault {
        PickupFault::Folder => "Folder",
        PickupFault::NoMemory => "NoMemory",
        PickupFault::Intake { fault } => match fault {
            IntakeFault::DiskFault => "DiskFault",
            IntakeFault::LogFull { .. } => "LogFull",
            IntakeFault::NotALog { .. } => "NotALog",
            IntakeFault::DeskFull { .. } => "DeskFull",
            IntakeFault::NoMemory | IntakeFault::QueueFull { .. } => "another fault",
        },
    }
}

// How the work ended.
fn end_text(alloc: Global, end: Result<PickupEnd, PickupFault>) -> Result<Bytes, Fault> {
    let mut text = Bytes::new(alloc);
    match end {
        Ok(end) => {
            let counts = format!(in alloc; "{} accepted, {} bad", end.accepted, end.bad)?;
            text.add(counts.as_bytes())?;
            if end.full {
                text.add(b", full")?;
            }
        }
        Err(fault) => text.add(fault_text(fault).as_bytes())?,
    }
    Ok(text)
}

// How the work ended, and the names that are left.
fn end_line(
    alloc: Global,
    end: Result<PickupEnd, PickupFault>,
    dir: &MemoryDir,
) -> Result<Bytes, Fault> {
    let mut line = end_text(alloc, end)?;
    line.add(b"; left:")?;
    for (name, _) in dir.files() {
        line.add(b" ")?;
        line.add(name.as_slice())?;
    }
    Ok(line)
}

// Whether all of the folder was done.
fn is_whole(end: Result<PickupEnd, PickupFault>) -> bool {
    match end {
        Ok(end) => !end.full,
        Err(_) => false,
    }
}

// Takes the files, and after an early end once more.
fn take_twice(
    alloc: Global,
    dir: &mut MemoryDir,
    desk: &mut Desk,
    out: &mut Answer,
) -> Result<bool, Fault> {
    let mut clock = clock_of(alloc)?;
    let first = take_files(alloc, dir, desk, &mut clock);
    out.given(end_line(alloc, first, dir)?.as_slice())?;
    if is_whole(first) {
        return Ok(true);
    }
    let second = take_files(alloc, dir, desk, &mut clock);
    out.given(end_line(alloc, second, dir)?.as_slice())?;
    Ok(false)
}

// The folder of these files, if each has a name of its own.
fn folder_of(alloc: Global, files: Vec<(Bytes, Bytes)>, plan: Bytes) -> Result<MemoryDir, Fault> {
    if !have_own_names(files.as_slice()) {
        return Err(Fault::BadRow);
    }
    Ok(MemoryDir::new(alloc, files, plan))
}

/// What is done of the files behind the first two arguments: which calls of the folder fail, as 0 and 1, and how the
/// intake refuses, a word for each call of it. Behind an early end the files are taken once more.
pub fn take(alloc: Global, row: &Row<'_>, out: &mut Answer) -> Result<(), Fault> {
    let [plan, words, files @ ..] = row.args() else {
        return Err(Fault::BadRow);
    };
    let plan = plan_of(alloc, plan.as_slice())?;
    let mut dir = folder_of(alloc, files_of(alloc, files)?, plan)?;
    let mut desk = Desk::new(alloc, refusals_of(alloc, words.as_slice())?);
    take_twice(alloc, &mut dir, &mut desk, out)?;
    for line in &desk.lines {
        out.given(line.as_slice())?;
    }
    Ok(())
}

// A plan by which the call of this number fails, counted from 0, and no other.
fn failing_at(alloc: Global, call: usize) -> Result<Bytes, Fault> {
    let mut plan = Vec::new(alloc);
    for _ in 0..call {
        plan.push(0)?;
    }
    plan.push(1)?;
    Ok(Bytes::from_vec(plan))
}

/// The same of these files, for each call of the folder that fails.
pub fn take_failing(alloc: Global, row: &Row<'_>, out: &mut Answer) -> Result<(), Fault> {
    for call in 0..MOST_CALLS {
        let files = files_of(alloc, row.args())?;
        let mut dir = folder_of(alloc, files, failing_at(alloc, call)?)?;
        let mut desk = Desk::new(alloc, Vec::new(alloc));
        if take_twice(alloc, &mut dir, &mut desk, out)? {
            return Ok(());
        }
    }
    out.refused("more calls")
}

/// What is done of a file with so many recipients.
pub fn take_many(alloc: Global, row: &Row<'_>, out: &mut Answer) -> Result<(), Fault> {
    let mut bytes = Bytes::of(alloc, b"From: a@b\nTo: c@d")?;
    for _ in 1..number(row.arg(0)) {
        bytes.add(b",c@d")?;
    }
    bytes.add(b"\n\n")?;
    let mut files = Vec::new(alloc);
    files.push((Bytes::of(alloc, b"a.eml")?, bytes))?;
    let mut dir = folder_of(alloc, files, Bytes::new(alloc))?;
    let mut desk = Desk::new(alloc, Vec::new(alloc));
    take_twice(alloc, &mut dir, &mut desk, out)?;
    Ok(())
}

/// What is done of the files of the real folder of the first argument.
pub fn take_real(
    rt: &impl Files,
    alloc: Global,
    row: &Row<'_>,
    out: &mut Answer,
) -> Result<(), Fault> {
    let Ok(path) = str::from_utf8(row.arg(0)) else {
        return Err(Fault::BadRow);
    };
    let mut dir = FileDir::new(rt, alloc, path)?;
    let mut desk = Desk::new(alloc, Vec::new(alloc));
    let end = take_files(alloc, &mut dir, &mut desk, &mut clock_of(alloc)?);
    out.given(end_text(alloc, end)?.as_slice())?;
    for line in &desk.lines {
        out.given(line.as_slice())?;
    }
    Ok(())
}
