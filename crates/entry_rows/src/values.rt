// The values that stand at a place.
use crate::octets::{add_number, add_octets, add_written, octets};
use crate::releases::{add_gate, add_keys, add_release};
use log_entry::{
    get_approval_name, get_bytes, get_gate, get_item_name, get_key, get_key_option, get_keys,
    get_origin, get_release, get_why, put_approval_name, put_bytes, put_gate, put_item_name,
    put_key, put_key_option, put_keys, put_origin, put_release, put_why,
};
use mail_names::{Bytes, NoMemory};
use mail_submission::Origin;
use std::alloc::Global;

// The place behind a value, and what it is written as.
fn add_end(
    alloc: Global,
    out: &mut Bytes,
    bytes: &[u8],
    at: usize,
    end: usize,
    written: &Bytes,
) -> Result<(), NoMemory> {
    out.add(b"; up to ")?;
    add_number(alloc, out, end as u64)?;
    let read = bytes.get(at..end).unwrap_or(&[]);
    add_written(alloc, out, written.as_slice(), read)
}

fn add_bytes_at(alloc: Global, out: &mut Bytes, bytes: &[u8], at: usize) -> Result<(), NoMemory> {
    let Some((value, end)) = get_bytes(alloc, bytes, at)? else {
        return out.add(b"none");
    };
    add_octets(alloc, out, value.as_slice())?;
    let mut written = Bytes::new(alloc);
    put_bytes(&mut written, &value)?;
    add_end(alloc, out, bytes, at, end, &written)
}

fn add_key_at(alloc: Global, out: &mut Bytes, bytes: &[u8], at: usize) -> Result<(), NoMemory> {
    let Some((value, end)) = get_key(alloc, bytes, at)? else {
        return out.add(b"none");
    };
    out.add(value.bytes())?;
    let mut written = Bytes::new(alloc);
    put_key(&mut written, &value)?;
    add_end(alloc, out, bytes, at, end, &written)
}

fn add_option_at(alloc: Global, out: &mut Bytes, bytes: &[u8], at: usize) -> Result<(), NoMemory> {
    let Some((value, end)) = get_key_option(alloc, bytes, at)? else {
        return out.add(b"none");
    };
    match &value {
        None => out.add(b"no key")?,
        Some(key) => out.add(key.bytes())?,
    }
    let mut written = Bytes::new(alloc);
    put_key_option(&mut written, &value)?;
    add_end(alloc, out, bytes, at, end, &written)
}

fn add_keys_at(alloc: Global, out: &mut Bytes, bytes: &[u8], at: usize) -> Result<(), NoMemory> {
    let Some((value, end)) = get_keys(alloc, bytes, at)? else {
        return out.add(b"none");
    };
    add_keys(out, value.as_slice())?;
    let mut written = Bytes::new(alloc);
    put_keys(&mut written, value.as_slice())?;
    add_end(alloc, out, bytes, at, end, &written)
}

/// Appends an origin.
pub fn add_origin(alloc: Global, out: &mut Bytes, origin: &Origin) -> Result<(), NoMemory> {
    match origin {
        Origin::Smtp => out.add(b"smtp"),
        Origin::Pickup { mark } => {
            out.add(b"pickup ")?;
            add_octets(alloc, out, mark.as_slice())
        }
    }
}

fn add_origin_at(alloc: Global, out: &mut Bytes, bytes: &[u8], at: usize) -> Result<(), NoMemory> {
    let Some((value, end)) = get_origin(alloc, bytes, at)? else {
        return out.add(b"none");
    };
    add_origin(alloc, out, &value)?;
    let mut written = Bytes::new(alloc);
    put_origin(&mut written, &value)?;
    add_end(alloc, out, bytes, at, end, &written)
}

fn add_name_at(alloc: Global, out: &mut Bytes, bytes: &[u8], at: usize) -> Result<(), NoMemory> {
    let Some((value, end)) = get_item_name(bytes, at)? else {
        return out.add(b"none");
    };
    out.add(value.text(alloc)?.as_slice())?;
    let mut written = Bytes::new(alloc);
    put_item_name(&mut written, &value)?;
    add_end(alloc, out, bytes, at, end, &written)
}

fn add_approval_at(
    alloc: Global,
    out: &mut Bytes,
    bytes: &[u8],
    at: usize,
) -> Result<(), NoMemory> {
    let Some((value, end)) = get_approval_name(bytes, at)? else {
        return out.add(b"none");
    };
    out.add(value.text(alloc)?.as_slice())?;
    let mut written = Bytes::new(alloc);
    put_approval_name(&mut written, &value)?;
    add_end(alloc, out, bytes, at, end, &written)
}

fn add_gate_at(alloc: Global, out: &mut Bytes, bytes: &[u8], at: usize) -> Result<(), NoMemory> {
    let Some((value, end)) = get_gate(alloc, bytes, at)? else {
        return out.add(b"none");
    };
    add_gate(alloc, out, &value)?;
    let mut written = Bytes::new(alloc);
    put_gate(&mut written, &value)?;
    add_end(alloc, out, bytes, at, end, &written)
}

fn add_why_at(alloc: Global, out: &mut Bytes, bytes: &[u8], at: usize) -> Result<(), NoMemory> {
    let Some((value, end)) = get_why(alloc, bytes, at)? else {
        return out.add(b"none");
    };
    out.add(b"sent")?;
    out.add(value.text(alloc)?.as_slice())?;
    let mut written = Bytes::new(alloc);
    put_why(&mut written, &value)?;
    add_end(alloc, out, bytes, at, end, &written)
}

fn add_release_at(alloc: Global, out: &mut Bytes, bytes: &[u8], at: usize) -> Result<(), NoMemory> {
    let Some((value, end)) = get_release(alloc, bytes, at)? else {
        return out.add(b"none");
    };
    add_release(alloc, out, &value)?;
    let mut written = Bytes::new(alloc);
    put_release(&mut written, &value)?;
    add_end(alloc, out, bytes, at, end, &written)
}

// Appends the value of a kind that stands at a place.
fn add_value(
    alloc: Global,
    out: &mut Bytes,
    kind: &str,
    bytes: &[u8],
    at: usize,
) -> Result<(), NoMemory> {
    match kind {
        "bytes" => add_bytes_at(alloc, out, bytes, at),
        "key" => add_key_at(alloc, out, bytes, at),
        "option" => add_option_at(alloc, out, bytes, at),
        "keys" => add_keys_at(alloc, out, bytes, at),
        "origin" => add_origin_at(alloc, out, bytes, at),
        "name" => add_name_at(alloc, out, bytes, at),
        "approval" => add_approval_at(alloc, out, bytes, at),
        "gate" => add_gate_at(alloc, out, bytes, at),
        "why" => add_why_at(alloc, out, bytes, at),
        "release" => add_release_at(alloc, out, bytes, at),
        _ => out.add(b"no kind"),
    }
}

/// Appends the value at a place: these words are the place, the kind and the octets.
pub fn add_value_row(alloc: Global, out: &mut Bytes, words: &str) -> Result<(), NoMemory> {
    let (place, rest) = words.split_once(' ').unwrap_or((words, ""));
    let (kind, text) = rest.split_once(' ').unwrap_or((rest, ""));
    let found = octets(alloc, text)?;
    match place.parse::<usize>() {
        Ok(place) => add_value(alloc, out, kind, found.as_slice(), place),
        Err(_) => out.add(b"no place"),
    }
}
