// Rows that ask whether a rule applies.
ghost use Rattle.std.specs.Prelude.{◌≡◌, true};
ghost use Rattle.rule_terms.specs.Forms.{is_rule};

use crate::asked::{first, key, sender};
use crate::desk::Desk;
use crate::escapes::{add_answer, unescaped};
use crate::wrong::Wrong;
use mail_message::{Message, MessageFault};
use mail_names::{Bytes, Key};
use rule_match::applies;
use rule_terms::{Rule, RuleBook, RuleFault, read_rules};
use std::alloc::Global;

/// The beginning of a rule.
pub const RULE: &str = "[[rule]]\nname = 'r'\n";

const DOING: &str = "[[rule]]\nname = 'r'\ndo = [{act = 'remove-field', field = 'X'}]\n";

pub fn message(alloc: Global, text: &Bytes) -> Result<Message, Wrong> {
    match Message::read(alloc, text.as_slice()) {
        Ok(message) => Ok(message),
        Err(MessageFault::NoMemory) => Err(Wrong::NoMemory),
        Err(_) => Err(Wrong::NoMessage),
    }
}

/// A message on its way.
#[derive(Drop)]
pub struct Sent {
    pub sender: Option<Key>,
    pub recipient: Key,
    pub message: Message,
}

fn sent_from(alloc: Global, mail: &Bytes, from: &str, to: &str) -> Result<Sent, Wrong> {
    Ok(Sent {
        sender: sender(alloc, from)?,
        recipient: key(alloc, to)?,
        message: message(alloc, mail)?,
    })
}

fn book(alloc: Global, desk: &Desk, text: &Bytes) -> Result<RuleBook, Wrong> {
    match read_rules(alloc, text.as_slice(), &desk.directory) {
        Ok(book) => Ok(book),
        Err(RuleFault::NoMemory) => Err(Wrong::NoMemory),
        Err(_) => Err(Wrong::NoRule),
    }
}

fn rule_applies(
    alloc: Global,
    desk: &Desk,
    rule: &Rule,
    sent: &Sent,
    moment: u64,
) -> Result<bool, Wrong>
    requires { is_rule rule.now ≡ true }
{
    let sender = sent.sender.as_ref();
    let recipient = &sent.recipient;
    Ok(applies(
        alloc,
        rule,
        &desk.directory,
        sender,
        recipient,
        &sent.message,
        moment,
    )?)
}

// Whether the first rule applies.
fn first_applies(
    alloc: Global,
    desk: &Desk,
    book: &RuleBook,
    sent: &Sent,
    moment: u64,
) -> Result<bool, Wrong> {
    match book.rules() {
        [rule, ..] => rule_applies(alloc, desk, rule, sent, moment),
        [] => Err(Wrong::NoRule),
    }
}

// The rule book of one rule with these keys.
fn book_of_keys(alloc: Global, desk: &Desk, keys: &str) -> Result<RuleBook, Wrong> {
    let text = unescaped(alloc, DOING, keys)?;
    book(alloc, desk, &text)
}

// Whether a term holds.
fn term_holds(alloc: Global, desk: &Desk, term: &str, sent: &Sent) -> Result<bool, Wrong> {
    let keys = format!(in alloc; "when = [{term}]")?;
    let book = book_of_keys(alloc, desk, keys.as_str())?;
    first_applies(alloc, desk, &book, sent, 0)
}

/// The row `word WORD TEXT`.
pub fn word(alloc: Global, desk: &Desk, row: &str, out: &mut String) -> Result<(), Wrong> {
    let (word, text) = first(row);
    let mail = unescaped(alloc, "\r\n", text)?;
    let sent = sent_from(alloc, &mail, "-", "ann@e")?;
    let term = format!(in alloc; "{{test = 'subject-or-body-words', values = ['{word}']}}")?;
    add_answer(out, term_holds(alloc, desk, term.as_str(), &sent)?)
}

/// The row `holds SENDER RECIPIENT TERM`.
pub fn holds(alloc: Global, desk: &Desk, row: &str, out: &mut String) -> Result<(), Wrong> {
    let (from, row) = first(row);
    let (to, term) = first(row);
    let sent = sent_from(alloc, &desk.mail, from, to)?;
    add_answer(out, term_holds(alloc, desk, term, &sent)?)
}

/// The row `applies SENDER RECIPIENT MOMENT KEYS`.
pub fn rule(alloc: Global, desk: &Desk, row: &str, out: &mut String) -> Result<(), Wrong> {
    let (from, row) = first(row);
    let (to, row) = first(row);
    let (moment, keys) = first(row);
    let moment = moment.parse::<u64>().ok().ok_or(Wrong::NoMoment)?;
    let sent = sent_from(alloc, &desk.mail, from, to)?;
    let book = book_of_keys(alloc, desk, keys)?;
    add_answer(out, first_applies(alloc, desk, &book, &sent, moment)?)
}
