// Rows that ask what the rules make of a message.
use crate::asked::{Asked, read_asked};
use crate::desk::Desk;
use crate::escapes::{add_count, add_escaped};
use crate::rule_rows::message;
use crate::wrong::Wrong;
use group_expand::Leaf;
use mail_message::Message;
use mail_names::{Bytes, Items, Key};
use rule_engine::{Fate, Run, SideCopy, Texts, run_rules};
use std::alloc::Global;

// A longer text is told by its length.
const SHOWN: usize = 4096;

/// Leaves of these keys.
pub fn leaves(alloc: Global, keys: &[Key]) -> Result<Items<Leaf>, Wrong> {
    let mut leaves = Items::new(alloc);
    for key in keys {
        let key = key.copy(alloc)?;
        let route = Items::new(alloc);
        leaves.push(Leaf { key, route })?;
    }
    Ok(leaves)
}

fn run_of(
    alloc: Global,
    desk: &Desk,
    asked: &Asked,
    message: &Message,
    leaves: &[Leaf],
) -> Result<Run, Wrong> {
    if leaves.len() > 2000 {
        return Err(Wrong::TooManyRecipients);
    }
    Ok(run_rules(
        alloc,
        &desk.book,
        &desk.directory,
        asked.sender.as_ref(),
        leaves,
        message,
        0,
        asked.opened.as_slice(),
    )?)
}

/// Adds the target of a redirect or a copy, and the place of the text that it gets.
pub fn add_redirect(out: &mut String, target: &Key, text: u32, rule: u32) -> Result<(), Wrong> {
    out.push(' ')?;
    add_escaped(out, target.bytes())?;
    write!(out, " gets {text} by {rule};")?;
    Ok(())
}

/// Adds a rejection.
pub fn add_reject(out: &mut String, rule: u32, code: u32, words: &Bytes) -> Result<(), Wrong> {
    out.push(' ')?;
    add_escaped(out, words.as_slice())?;
    write!(out, " 5.7.{code} by {rule};")?;
    Ok(())
}

/// Adds the place of the text that a recipient gets.
pub fn add_kept(out: &mut String, text: u32) -> Result<(), Wrong> {
    write!(out, " keep {text};")?;
    Ok(())
}

/// Adds the rule that holds the message.
pub fn add_held(out: &mut String, rule: u32) -> Result<(), Wrong> {
    write!(out, " held by {rule};")?;
    Ok(())
}

fn add_fate(out: &mut String, fate: &Fate) -> Result<(), Wrong> {
    match fate {
        Fate::Keep { text } => add_kept(out, *text),
        Fate::Redirect { target, text, rule } => add_redirect(out, target, *text, *rule),
        Fate::Reject { rule, code, words } => add_reject(out, *rule, *code, words),
        Fate::Held { rule } => add_held(out, *rule),
    }
}

fn add_copy(out: &mut String, copied: &SideCopy) -> Result<(), Wrong> {
    write!(out, " for {}", copied.leaf)?;
    add_redirect(out, &copied.target, copied.text, copied.rule)
}

// Adds a text on a line of its own.
fn add_shown(out: &mut String, text: &[u8]) -> Result<(), Wrong> {
    out.push_str("\n  ")?;
    if text.len() > SHOWN {
        write!(out, "{} octets", text.len())?;
        return Ok(());
    }
    add_escaped(out, text)
}

/// Adds the texts of a run.
pub fn add_shown_texts(out: &mut String, texts: &[Bytes]) -> Result<(), Wrong> {
    for text in texts {
        add_shown(out, text.as_slice())?;
    }
    Ok(())
}

fn add_run(out: &mut String, run: &Run) -> Result<(), Wrong> {
    for fate in run.fates.as_slice() {
        add_fate(out, fate)?;
    }
    for copied in run.copies.as_slice() {
        add_copy(out, copied)?;
    }
    add_shown_texts(out, run.texts.as_slice())
}

/// The row `run SENDER OPENED RECIPIENTS`.
pub fn fates(alloc: Global, desk: &Desk, row: &str, out: &mut String) -> Result<(), Wrong> {
    let asked = read_asked(alloc, row)?;
    let message = message(alloc, &desk.mail)?;
    let leaves = leaves(alloc, asked.targets.as_slice())?;
    let run = run_of(alloc, desk, &asked, &message, leaves.as_slice())?;
    add_run(out, &run)
}

fn add_text(alloc: Global, texts: &mut Texts, word: &str, out: &mut String) -> Result<(), Wrong> {
    let text = Bytes::of(alloc, word.as_bytes())?;
    let place = texts.place(alloc, &text)?;
    add_count(out, u64::from(place))
}

/// The row `texts WORDS`.
pub fn texts(alloc: Global, row: &str, out: &mut String) -> Result<(), Wrong> {
    let mut texts = Texts::new(alloc);
    for word in row.split(' ') {
        add_text(alloc, &mut texts, word, out)?;
    }
    out.push_str(" of")?;
    add_count(out, texts.into_items().len() as u64)
}
