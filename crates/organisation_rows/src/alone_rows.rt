// Rows that ask what the rules make of a message where each recipient is judged alone, and nothing is shared.
use crate::asked::{Asked, read_asked};
use crate::desk::Desk;
use crate::rule_rows::message;
use crate::run_rows::{add_held, add_kept, add_redirect, add_reject, add_shown_texts};
use crate::wrong::Wrong;
use mail_message::Message;
use mail_names::Key;
use rule_engine::{End, MadeCopy, RuleOutcome, Texts, judge};
use std::alloc::Global;

fn judged(
    alloc: Global,
    desk: &Desk,
    asked: &Asked,
    message: &Message,
    recipient: &Key,
) -> Result<RuleOutcome, Wrong> {
    Ok(judge(
        alloc,
        desk.book.rules(),
        &desk.directory,
        asked.sender.as_ref(),
        0,
        asked.opened.as_slice(),
        message,
        recipient,
    )?)
}

fn add_copy(
    alloc: Global,
    texts: &mut Texts,
    place: usize,
    copied: &MadeCopy,
    out: &mut String,
) -> Result<(), Wrong> {
    write!(out, " for {place}")?;
    let text = texts.place(alloc, copied.text.bytes())?;
    add_redirect(out, &copied.target, text, copied.rule)
}

// Adds the copies that were made for the recipient at this place.
fn add_copies(
    alloc: Global,
    texts: &mut Texts,
    place: usize,
    copies: &[MadeCopy],
    out: &mut String,
) -> Result<(), Wrong> {
    for copied in copies {
        add_copy(alloc, texts, place, copied, out)?;
    }
    Ok(())
}

fn add_end(alloc: Global, texts: &mut Texts, end: &End, out: &mut String) -> Result<(), Wrong> {
    match end {
        End::Keep { text } => add_kept(out, texts.place(alloc, text.bytes())?),
        End::Redirect { target, text, rule } => {
            let text = texts.place(alloc, text.bytes())?;
            add_redirect(out, target, text, *rule)
        }
        End::Reject { rule, code, words } => add_reject(out, *rule, *code, words),
        End::Held { rule } => add_held(out, *rule),
    }
}

/// The row `run-alone SENDER OPENED RECIPIENTS`.
pub fn fates(alloc: Global, desk: &Desk, row: &str, out: &mut String) -> Result<(), Wrong> {
    let asked = read_asked(alloc, row)?;
    let message = message(alloc, &desk.mail)?;
    let mut texts = Texts::new(alloc);
    let mut copies = String::new(alloc);
    for (i, recipient) in asked.targets.as_slice().iter().enumerate() {
        let outcome = judged(alloc, desk, &asked, &message, recipient)?;
        let made = outcome.copies.as_slice();
        add_copies(alloc, &mut texts, i, made, &mut copies)?;
        add_end(alloc, &mut texts, &outcome.end, out)?;
    }
    out.push_str(copies.as_str())?;
    add_shown_texts(out, texts.into_items().as_slice())
}
