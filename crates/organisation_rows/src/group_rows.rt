// Rows that ask for an expansion.
ghost use Rattle.std.specs.Prelude.{◌≡◌, ◌<◌};

use crate::asked::{Asked, read_asked};
use crate::escapes::{add_count, add_escaped};
use crate::wrong::Wrong;
use group_expand::{ExpandFault, Expansion, expand, expand_plainly};
use mail_names::{How, Key, Step, Steps};
use org_directory::Directory;
use std::alloc::Global;
use std::marker::Brand;
use std::sync::ledger::{Blank, Ledger};

// An end, and its route.
fn add_way(out: &mut String, mark: &str, key: &Key, route: &[Step]) -> Result<(), Wrong> {
    out.push_str(mark)?;
    add_escaped(out, key.bytes())?;
    for step in route {
        out.push_str(match step.how {
            How::Expanded => "<",
            How::Forwarded => "<<",
        })?;
        add_escaped(out, step.key.bytes())?;
    }
    Ok(())
}

fn add_expansion(out: &mut String, expansion: &Expansion) -> Result<(), Wrong> {
    for leaf in expansion.leaves.as_slice() {
        add_way(out, " ", &leaf.key, leaf.route.as_slice())?;
    }
    for closed in expansion.closed.as_slice() {
        add_way(out, " !", &closed.key, closed.route.as_slice())?;
    }
    for key in expansion.unknown.as_slice() {
        add_way(out, " ?", key, &[])?;
    }
    Ok(())
}

fn add_fault(out: &mut String, fault: ExpandFault) -> Result<(), Wrong> {
    write!(out, " {fault:?}")?;
    Ok(())
}

fn add_given(out: &mut String, given: &Result<Expansion, ExpandFault>) -> Result<(), Wrong> {
    match given {
        Ok(expansion) => add_expansion(out, expansion),
        Err(fault) => add_fault(out, *fault),
    }
}

fn walked<L: Ledger>(
    alloc: Global,
    directory: &Directory,
    asked: &Asked,
    blank: Blank,
) -> Result<Expansion, ExpandFault>
    requires name { blank.name ≡ L.name }
    requires parts { blank.parts ≡ L.parts }
    requires some { 0 < blank.parts }
{
    let (book, share) = blank.open::<L>();
    let mut steps = Steps::of(book, share);
    expand(
        alloc,
        directory,
        asked.targets.as_slice(),
        asked.sender.as_ref(),
        asked.opened.as_slice(),
        &mut steps,
    )
}

fn walk_of(alloc: Global, directory: &Directory, asked: &Asked) -> Result<Expansion, ExpandFault> {
    walked::<Brand>(alloc, directory, asked, Blank::new(1))
}

/// The row `walk SENDER OPENED ROOTS`.
pub fn walk(
    alloc: Global,
    directory: &Directory,
    row: &str,
    out: &mut String,
) -> Result<(), Wrong> {
    let asked = read_asked(alloc, row)?;
    let given = walk_of(alloc, directory, &asked);
    add_given(out, &given)
}

fn listed(
    alloc: Global,
    directory: &Directory,
    asked: &Asked,
    out: &mut String,
) -> Result<(), Wrong> {
    let given = expand_plainly(
        alloc,
        directory,
        asked.targets.as_slice(),
        asked.sender.as_ref(),
        asked.opened.as_slice(),
    );
    add_given(out, &given)
}

// Adds the answer that both gave, or both.
fn add_both(out: &mut String, walked: &str, listed: &str) -> Result<(), Wrong> {
    out.push_str(walked)?;
    if walked != listed {
        out.push_str(" BUT LISTED")?;
        out.push_str(listed)?;
    }
    Ok(())
}

/// The row `expand SENDER OPENED ROOTS`.
pub fn expanded(
    alloc: Global,
    directory: &Directory,
    row: &str,
    out: &mut String,
) -> Result<(), Wrong> {
    let asked = read_asked(alloc, row)?;
    let given = walk_of(alloc, directory, &asked);
    let mut walked = String::new(alloc);
    add_given(&mut walked, &given)?;
    let mut all = String::new(alloc);
    listed(alloc, directory, &asked, &mut all)?;
    add_both(out, walked.as_str(), all.as_str())
}

/// The row `depths SENDER OPENED ROOTS`.
pub fn depths(
    alloc: Global,
    directory: &Directory,
    row: &str,
    out: &mut String,
) -> Result<(), Wrong> {
    let asked = read_asked(alloc, row)?;
    match walk_of(alloc, directory, &asked) {
        Err(fault) => add_fault(out, fault),
        Ok(expansion) => {
            for leaf in expansion.leaves.as_slice() {
                add_way(out, " ", &leaf.key, &[])?;
                add_count(out, leaf.route.len() as u64)?;
            }
            Ok(())
        }
    }
}
