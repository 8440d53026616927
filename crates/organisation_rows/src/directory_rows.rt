// Rows that ask of the directory.
ghost use Rattle.std.specs.Prelude.{◌≡◌, ◌<◌};

use crate::asked::{first, key, sender};
use crate::escapes::{add_answer, add_count};
use crate::wrong::Wrong;
use group_expand::needs_approval;
use mail_names::{Key, Steps};
use org_directory::Directory;
use std::alloc::Global;
use std::marker::Brand;
use std::sync::ledger::{Blank, Ledger};

fn add_place(out: &mut String, place: Option<u32>) -> Result<(), Wrong> {
    match place {
        Some(place) => add_count(out, u64::from(place)),
        None => {
            out.push_str(" -")?;
            Ok(())
        }
    }
}

/// The row `find KEY`.
pub fn find(
    alloc: Global,
    directory: &Directory,
    row: &str,
    out: &mut String,
) -> Result<(), Wrong> {
    let key = key(alloc, row)?;
    let inside = directory.is_inside(&key);
    let deliverable = directory.deliverable(&key);
    add_place(out, directory.find(&key))?;
    out.push_str(if inside { " inside" } else { " outside" })?;
    out.push_str(if deliverable {
        " deliverable"
    } else {
        " undeliverable"
    })?;
    Ok(())
}

fn place_of(alloc: Global, directory: &Directory, text: &str) -> Result<u32, Wrong> {
    let key = key(alloc, text)?;
    directory.find(&key).ok_or(Wrong::NoObject)
}

fn is_in(alloc: Global, directory: &Directory, place: u32, key: &Key) -> Result<bool, Wrong> {
    if place as usize >= directory.len() {
        return Err(Wrong::NoGroup);
    }
    Ok(directory.in_group(alloc, place, key)?)
}

/// The row `in-group GROUP KEY`.
pub fn in_group(
    alloc: Global,
    directory: &Directory,
    row: &str,
    out: &mut String,
) -> Result<(), Wrong> {
    let (group, member) = first(row);
    let place = place_of(alloc, directory, group)?;
    let member = key(alloc, member)?;
    add_answer(out, is_in(alloc, directory, place, &member)?)
}

// Adds the member of this number, or answers false past the last.
fn add_member<L: Ledger>(
    directory: &Directory,
    place: u32,
    k: u32,
    steps: &mut Steps<L>,
    out: &mut String,
) -> Result<bool, Wrong> {
    if place as usize >= directory.len() {
        return Ok(false);
    }
    match directory.member_at(place, k, steps) {
        None => Ok(false),
        Some(member) => {
            add_count(out, u64::from(member))?;
            Ok(true)
        }
    }
}

fn add_members<L: Ledger>(
    directory: &Directory,
    place: u32,
    blank: Blank,
    out: &mut String,
) -> Result<(), Wrong>
    requires name { blank.name ≡ L.name }
    requires parts { blank.parts ≡ L.parts }
    requires some { 0 < blank.parts }
{
    let (book, share) = blank.open::<L>();
    let mut steps = Steps::of(book, share);
    for k in 0..200_000u32 {
        if !add_member(directory, place, k, &mut steps, out)? {
            break;
        }
    }
    Ok(())
}

/// The row `members GROUP`.
pub fn members(
    alloc: Global,
    directory: &Directory,
    row: &str,
    out: &mut String,
) -> Result<(), Wrong> {
    let place = place_of(alloc, directory, row)?;
    add_members::<Brand>(directory, place, Blank::new(1), out)
}

fn asks(
    alloc: Global,
    directory: &Directory,
    place: u32,
    sender: Option<&Key>,
) -> Result<bool, Wrong> {
    if place as usize >= directory.len() {
        return Err(Wrong::NoObject);
    }
    Ok(needs_approval(alloc, directory, place, sender)?)
}

/// The row `needs-approval OBJECT SENDER`.
pub fn approval(
    alloc: Global,
    directory: &Directory,
    row: &str,
    out: &mut String,
) -> Result<(), Wrong> {
    let (object, from) = first(row);
    let place = place_of(alloc, directory, object)?;
    let from = sender(alloc, from)?;
    add_answer(out, asks(alloc, directory, place, from.as_ref())?)
}
