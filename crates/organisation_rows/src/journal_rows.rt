// Rows that ask who is journaled.
use crate::asked::{first, key, keys, sender};
use crate::desk::Desk;
use crate::escapes::{add_count, add_escaped};
use crate::wrong::Wrong;
use journal_rules::{Taken, mailboxes, takes};
use mail_names::{Items, Key};
use std::alloc::Global;

fn add_takes(
    alloc: Global,
    desk: &Desk,
    sender: Option<&Key>,
    target: &Key,
    out: &mut String,
) -> Result<(), Wrong> {
    for journal in desk.book.journals() {
        let taken = takes(alloc, journal, &desk.directory, sender, target)?;
        out.push(if taken { 'y' } else { 'n' })?;
    }
    Ok(())
}

/// The row `takes SENDER TARGET`.
pub fn taken(alloc: Global, desk: &Desk, row: &str, out: &mut String) -> Result<(), Wrong> {
    let (from, to) = first(row);
    let from = sender(alloc, from)?;
    let to = key(alloc, to)?;
    out.push(' ')?;
    add_takes(alloc, desk, from.as_ref(), &to, out)
}

fn add_taken(out: &mut String, taken: &Taken) -> Result<(), Wrong> {
    out.push(' ')?;
    add_escaped(out, taken.mailbox.bytes())?;
    for place in taken.targets.as_slice() {
        add_count(out, u64::from(*place))?;
    }
    out.push(';')?;
    Ok(())
}

fn all_taken(
    alloc: Global,
    desk: &Desk,
    sender: Option<&Key>,
    targets: &Items<Key>,
) -> Result<Vec<Taken>, Wrong> {
    let targets = targets.as_slice();
    if targets.len() > 99 {
        return Err(Wrong::TooManyTargets);
    }
    Ok(mailboxes(alloc, &desk.book, &desk.directory, sender, targets)?)
}

/// The row `journaled SENDER TARGETS`.
pub fn journaled(alloc: Global, desk: &Desk, row: &str, out: &mut String) -> Result<(), Wrong> {
    let (from, to) = first(row);
    let from = sender(alloc, from)?;
    let to = keys(alloc, to)?;
    for taken in &all_taken(alloc, desk, from.as_ref(), &to)? {
        add_taken(out, taken)?;
    }
    Ok(())
}
