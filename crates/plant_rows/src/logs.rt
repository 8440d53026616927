// Logs over a plant in memory.
use crate::octets::answer;
use log_entry::Entry;
use mail_names::{Bytes, ItemName, NoMemory};
use plant_dev::MemoryPlant;
use queue_disk::{Log, LogFault, open_log, read_all};
use std::alloc::Global;

/// The most octets of a log that has room.
const MOST: u64 = 1 << 40;

// A record of an entry that a turn began at the moment 7, behind its open gate.
const TURN: &[u8] = b"\x01\x09\0\0\0\0\0\0\0\x05\x07\0\0\0\0\0\0\0";

/// A plant over a log of so many turns.
pub fn records(alloc: Global, count: u64) -> Result<MemoryPlant, NoMemory> {
    let mut file = Bytes::of(alloc, b"MAILHUB1")?;
    for _ in 0..count {
        file.add(TURN)?;
    }
    file.add(b"\0")?;
    Ok(MemoryPlant::new(alloc, file))
}

// How many entries a log has that this plant keeps.
fn entries_of(alloc: Global, plant: &mut MemoryPlant) -> Result<usize, LogFault> {
    let mut log = open_log(plant, MOST)?;
    Ok(read_all(alloc, plant, &mut log)?.len())
}

fn append(
    alloc: Global,
    plant: &mut MemoryPlant,
    log: &mut Log,
    entry: &Entry,
    out: &mut Bytes,
) -> Result<(), NoMemory> {
    let line = format!(in alloc; "{:?}", log.append(alloc, plant, entry))?;
    answer(out, line.as_str())
}

fn next(
    alloc: Global,
    plant: &mut MemoryPlant,
    log: &mut Log,
    out: &mut Bytes,
) -> Result<(), NoMemory> {
    match log.next(alloc, plant) {
        Ok(Some(Entry::Moment { moment })) => {
            let line = format!(in alloc; "moment {moment}, gate {}", log.gate())?;
            answer(out, line.as_str())
        }
        Ok(Some(Entry::Delivered { name })) => {
            let line = format!(in alloc; "{name:?}, gate {}", log.gate())?;
            answer(out, line.as_str())
        }
        Ok(Some(_)) => answer(out, "another entry"),
        Ok(None) => {
            let line = format!(in alloc; "no more, gate {}", log.gate())?;
            answer(out, line.as_str())
        }
        Err(fault) => {
            let line = format!(in alloc; "{fault:?}")?;
            answer(out, line.as_str())
        }
    }
}

/// Follows a call of an open log, where the word is one.
pub fn on_log(
    alloc: Global,
    plant: &mut MemoryPlant,
    log: &mut Log,
    word: &str,
    rest: &str,
    out: &mut Bytes,
) -> Result<bool, NoMemory> {
    match (word, rest.parse::<u64>(), ItemName::read(rest.as_bytes())) {
        ("append", Ok(moment), _) => {
            append(alloc, plant, log, &Entry::Moment { moment }, out)?;
        }
        ("deliver", _, Some(name)) => {
            append(alloc, plant, log, &Entry::Delivered { name }, out)?;
        }
        ("next", _, _) => next(alloc, plant, log, out)?,
        _ => return Ok(false),
    }
    Ok(true)
}

/// Opens a log, and says what was refused.
pub fn open(
    alloc: Global,
    plant: &mut MemoryPlant,
    most: &str,
    out: &mut Bytes,
) -> Result<Option<Log>, NoMemory> {
    match open_log(plant, most.parse::<u64>().unwrap_or(MOST)) {
        Ok(log) => {
            let line = format!(in alloc; "gate {}", log.gate())?;
            answer(out, line.as_str())?;
            Ok(Some(log))
        }
        Err(fault) => {
            let line = format!(in alloc; "{fault:?}")?;
            answer(out, line.as_str())?;
            Ok(None)
        }
    }
}

/// Counts the entries of the log that a plant keeps.
pub fn entries(alloc: Global, plant: &mut MemoryPlant, out: &mut Bytes) -> Result<(), NoMemory> {
    let line = format!(in alloc; "{:?}", entries_of(alloc, plant))?;
    answer(out, line.as_str())
}

/// Says which numbers of entries images of a crash have: 64 picks, shifted past the calls before.
pub fn images(
    alloc: Global,
    plant: &MemoryPlant,
    shift: u32,
    out: &mut Bytes,
) -> Result<(), NoMemory> {
    let (mut one, mut two, mut other) = (false, false, false);
    for pick in 0..64u64 {
        let mut image = plant.crash(pick.wrapping_shl(shift))?;
        match entries_of(alloc, &mut image) {
            Ok(1) => one = true,
            Ok(2) => two = true,
            _ => other = true,
        }
    }
    let line = format!(in alloc; "one {one}, two {two}, other {other}")?;
    answer(out, line.as_str())
}

// Adds what is read of these parts of a log.
fn add_damaged(
    alloc: Global,
    what: &str,
    at: usize,
    parts: [&[u8]; 3],
    out: &mut Bytes,
) -> Result<(), NoMemory> {
    let mut file = Bytes::new(alloc);
    for part in parts {
        file.add(part)?;
    }
    let read = entries_of(alloc, &mut MemoryPlant::new(alloc, file));
    let line = format!(in alloc; "{what} {at}: {read:?}")?;
    answer(out, line.as_str())
}

/// Says what is read of a log that is changed at each octet, and cut at each.
pub fn damage(alloc: Global, log: &[u8], out: &mut Bytes) -> Result<(), NoMemory> {
    for (at, octet) in log.iter().enumerate() {
        let changed = [octet ^ 255];
        let parts = [&log[..at], changed.as_slice(), &log[at..][1..]];
        add_damaged(alloc, "changed", at, parts, out)?;
    }
    for at in 0..log.len() {
        add_damaged(alloc, "cut", at, [&log[..at], b"", b""], out)?;
    }
    Ok(())
}
