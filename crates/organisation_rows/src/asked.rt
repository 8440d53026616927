// The words of a row.
use crate::wrong::Wrong;
use mail_names::{Gate, Items, Key, NameFault};
use std::alloc::Global;

/// The first word of a row, and the rest.
pub fn first(row: &str) -> (&str, &str) {
    match row.split_once(' ') {
        Some((word, rest)) => (word, rest),
        None => (row, ""),
    }
}

pub fn key(alloc: Global, text: &str) -> Result<Key, Wrong> {
    match Key::read(alloc, text.as_bytes()) {
        Ok(key) => Ok(key),
        Err(NameFault::NoMemory) => Err(Wrong::NoMemory),
        Err(_) => Err(Wrong::NoKey),
    }
}

/// The key of a sender, where `-` is the null sender.
pub fn sender(alloc: Global, text: &str) -> Result<Option<Key>, Wrong> {
    if text == "-" {
        return Ok(None);
    }
    Ok(Some(key(alloc, text)?))
}

/// The keys of a list.
pub fn keys(alloc: Global, text: &str) -> Result<Items<Key>, Wrong> {
    let mut keys = Items::new(alloc);
    if text != "-" {
        for part in text.split(',') {
            keys.push(key(alloc, part)?)?;
        }
    }
    Ok(keys)
}

fn gate(alloc: Global, text: &str) -> Result<Gate, Wrong> {
    match text.parse::<u32>() {
        Ok(place) => Ok(Gate::Rule { place }),
        Err(_) => Ok(Gate::Object {
            key: key(alloc, text)?,
        }),
    }
}

fn gates(alloc: Global, text: &str) -> Result<Items<Gate>, Wrong> {
    let mut gates = Items::new(alloc);
    if text != "-" {
        for part in text.split(',') {
            gates.push(gate(alloc, part)?)?;
        }
    }
    Ok(gates)
}

/// Who sends to whom, with which gates opened.
#[derive(Drop)]
pub struct Asked {
    pub sender: Option<Key>,
    pub opened: Items<Gate>,
    pub targets: Items<Key>,
}

/// What a row of `SENDER OPENED TARGETS` says.
pub fn read_asked(alloc: Global, row: &str) -> Result<Asked, Wrong> {
    let (from, row) = first(row);
    let (opened, to) = first(row);
    Ok(Asked {
        sender: sender(alloc, from)?,
        opened: gates(alloc, opened)?,
        targets: keys(alloc, to)?,
    })
}
