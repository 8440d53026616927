// Calls of any plant.
use crate::octets::{answer, answer_octets, cut, read_octets};
use mail_names::{Bytes, ItemName, Key, NoMemory};
use plant_dev::Plant;
use std::alloc::Global;

fn read<P: Plant>(
    alloc: Global,
    plant: &mut P,
    rest: &str,
    out: &mut Bytes,
) -> Result<(), NoMemory> {
    let mut into = [0; 64];
    let at = rest.parse::<u64>().unwrap_or(0);
    match plant.read(at, &mut into) {
        Ok(count) => answer_octets(out, &into[..count])?,
        Err(_) => answer(out, "failed")?,
    }
    let line = format!(in alloc; "{:?} octets", plant.length())?;
    answer(out, line.as_str())
}

// A place has 32 bits, so that no write ends past the last place of a file.
fn write<P: Plant>(
    alloc: Global,
    plant: &mut P,
    rest: &str,
    out: &mut Bytes,
) -> Result<(), NoMemory> {
    let (at, text) = cut(rest);
    let octets = read_octets(alloc, text)?;
    let at = at.parse::<u32>().unwrap_or(0);
    let written = plant.write_at(at as u64, octets.as_slice());
    let line = format!(in alloc; "{written:?}")?;
    answer(out, line.as_str())
}

// Calls on the log file.
fn on_file<P: Plant>(
    alloc: Global,
    plant: &mut P,
    word: &str,
    rest: &str,
    out: &mut Bytes,
) -> Result<bool, NoMemory> {
    match word {
        "read" => {
            read(alloc, plant, rest, out)?;
            return Ok(true);
        }
        "write" => write(alloc, plant, rest, out)?,
        "sync" => {
            let line = format!(in alloc; "{:?}", plant.sync())?;
            answer(out, line.as_str())?;
        }
        _ => return Ok(false),
    }
    Ok(true)
}

fn list<P: Plant>(
    alloc: Global,
    plant: &mut P,
    folder: &Key,
    out: &mut Bytes,
) -> Result<(), NoMemory> {
    let Ok(names) = plant.list(alloc, folder) else {
        return answer(out, "failed");
    };
    let line = format!(in alloc; "{} items", names.len())?;
    answer(out, line.as_str())?;
    for name in names.as_slice() {
        answer_octets(out, name.text(alloc)?.as_slice())?;
    }
    Ok(())
}

fn fetch<P: Plant>(
    alloc: Global,
    plant: &mut P,
    folder: &Key,
    name: &ItemName,
    out: &mut Bytes,
) -> Result<(), NoMemory> {
    match plant.fetch(alloc, folder, name) {
        Ok(Some(item)) => answer_octets(out, item.as_slice()),
        Ok(None) => answer(out, "none"),
        Err(_) => answer(out, "failed"),
    }
}

fn put<P: Plant>(
    alloc: Global,
    plant: &mut P,
    folder: &Key,
    name: &ItemName,
    text: &str,
    out: &mut Bytes,
) -> Result<(), NoMemory> {
    let octets = read_octets(alloc, text)?;
    let put = plant.put(alloc, folder, name, octets.as_slice());
    let line = format!(in alloc; "{put:?}")?;
    answer(out, line.as_str())
}

// Calls on an item, or on a folder where there is no name.
fn on_shelf<P: Plant>(
    alloc: Global,
    plant: &mut P,
    word: &str,
    folder: &Key,
    rest: &str,
    out: &mut Bytes,
) -> Result<(), NoMemory> {
    let (name, text) = cut(rest);
    match (word, ItemName::read(name.as_bytes())) {
        ("list", None) => list(alloc, plant, folder, out),
        ("put", Some(name)) => put(alloc, plant, folder, &name, text, out),
        ("fetch", Some(name)) => fetch(alloc, plant, folder, &name, out),
        ("has", Some(name)) => {
            let line = format!(in alloc; "{:?}", plant.has(folder, &name))?;
            answer(out, line.as_str())
        }
        _ => answer(out, "no row"),
    }
}

/// Follows a call of a plant.
pub fn follow<P: Plant>(
    alloc: Global,
    plant: &mut P,
    line: &str,
    out: &mut Bytes,
) -> Result<(), NoMemory> {
    let (word, rest) = cut(line);
    if on_file(alloc, plant, word, rest, out)? {
        return Ok(());
    }
    let (key, rest) = cut(rest);
    match Key::read(alloc, key.as_bytes()) {
        Ok(folder) => on_shelf(alloc, plant, word, &folder, rest, out),
        Err(_) => answer(out, "no row"),
    }
}
