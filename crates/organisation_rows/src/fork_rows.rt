// Rows that ask which leaves share which edits.
use crate::asked::read_asked;
use crate::desk::Desk;
use crate::escapes::add_escaped;
use crate::rule_rows::message;
use crate::run_rows::leaves;
use crate::wrong::Wrong;
use mail_message::Message;
use rule_engine::{EditAt, Fork, forks, render};
use std::alloc::Global;

fn add_edit(out: &mut String, at: &EditAt) -> Result<(), Wrong> {
    write!(out, " {}.{}", at.rule, at.action)?;
    Ok(())
}

fn add_place(out: &mut String, place: u32) -> Result<(), Wrong> {
    write!(out, " {place}")?;
    Ok(())
}

fn add_fork(
    alloc: Global,
    desk: &Desk,
    message: &Message,
    fork: &Fork,
    out: &mut String,
) -> Result<(), Wrong> {
    out.push_str("\n ")?;
    for at in fork.edits.as_slice() {
        add_edit(out, at)?;
    }
    out.push_str(" for")?;
    for place in fork.leaves.as_slice() {
        add_place(out, *place)?;
    }
    out.push_str(": ")?;
    let text = render(alloc, &desk.book, message, fork.edits.as_slice())?;
    add_escaped(out, text.as_slice())
}

/// The row `forks SENDER OPENED RECIPIENTS`.
pub fn forked(alloc: Global, desk: &Desk, row: &str, out: &mut String) -> Result<(), Wrong> {
    let asked = read_asked(alloc, row)?;
    let message = message(alloc, &desk.mail)?;
    let leaves = leaves(alloc, asked.targets.as_slice())?;
    if leaves.len() > 2000 {
        return Err(Wrong::TooManyRecipients);
    }
    let forks = forks(
        alloc,
        &desk.book,
        &desk.directory,
        asked.sender.as_ref(),
        leaves.as_slice(),
        &message,
        0,
        asked.opened.as_slice(),
    )?;
    for fork in forks.as_slice() {
        add_fork(alloc, desk, &message, fork, out)?;
    }
    Ok(())
}
