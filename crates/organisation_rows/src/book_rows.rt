// The row `book`: what a rule book has, a line a part.
use crate::escapes::{add_count, add_escaped};
use crate::wrong::Wrong;
use mail_names::{Bytes, Key};
use rule_terms::{Action, Fallback, JournalRule, Rule, RuleBook, Scope, Side, Term};

fn add_word(out: &mut String, word: &str) -> Result<(), Wrong> {
    out.push(' ')?;
    out.push_str(word)?;
    Ok(())
}

fn add_bytes(out: &mut String, bytes: &[u8]) -> Result<(), Wrong> {
    out.push(' ')?;
    add_escaped(out, bytes)
}

fn add_keys(out: &mut String, name: &str, keys: &[Key]) -> Result<(), Wrong> {
    out.push_str(name)?;
    for key in keys {
        add_bytes(out, key.bytes())?;
    }
    Ok(())
}

fn add_texts(out: &mut String, name: &str, texts: &[Bytes]) -> Result<(), Wrong> {
    out.push_str(name)?;
    for text in texts {
        add_bytes(out, text.as_slice())?;
    }
    Ok(())
}

fn add_places(out: &mut String, name: &str, places: &[u32]) -> Result<(), Wrong> {
    out.push_str(name)?;
    for place in places {
        add_count(out, u64::from(*place))?;
    }
    Ok(())
}

fn side_word(side: Side) -> &'static str {
    match side {
        Side::Inside => "inside",
        Side::Outside => "outside",
    }
}

fn add_sides(out: &mut String, name: &str, sides: &[Side]) -> Result<(), Wrong> {
    out.push_str(name)?;
    for side in sides {
        add_word(out, side_word(*side))?;
    }
    Ok(())
}

fn add_field(out: &mut String, field: &Bytes, words: &[Bytes]) -> Result<(), Wrong> {
    out.push_str("field")?;
    add_bytes(out, field.as_slice())?;
    add_texts(out, "", words)
}

fn add_size(out: &mut String, bytes: u64) -> Result<(), Wrong> {
    out.push_str("size")?;
    add_count(out, bytes)
}

fn add_one(out: &mut String, name: &str, text: &[u8]) -> Result<(), Wrong> {
    out.push_str(name)?;
    add_bytes(out, text)
}

fn add_term(out: &mut String, term: &Term) -> Result<(), Wrong> {
    match term {
        Term::SenderIs { keys } => add_keys(out, "sender", keys.as_slice()),
        Term::RecipientIs { keys } => add_keys(out, "recipient", keys.as_slice()),
        Term::SenderIn { groups } => add_places(out, "sender in", groups.as_slice()),
        Term::RecipientIn { groups } => add_places(out, "recipient in", groups.as_slice()),
        Term::SenderScope { sides } => add_sides(out, "sender on", sides.as_slice()),
        Term::RecipientScope { sides } => add_sides(out, "recipient on", sides.as_slice()),
        Term::SenderDomain { domains } => add_texts(out, "sender at", domains.as_slice()),
        Term::RecipientDomain { domains } => add_texts(out, "recipient at", domains.as_slice()),
        Term::SubjectWords { words } => add_texts(out, "subject", words.as_slice()),
        Term::TextWords { words } => add_texts(out, "text", words.as_slice()),
        Term::FieldWords { field, words } => add_field(out, field, words.as_slice()),
        Term::FieldPresent { field } => add_one(out, "has", field.as_slice()),
        Term::SizeAtLeast { bytes } => add_size(out, *bytes),
    }
}

fn add_pair(out: &mut String, name: &str, first: &[u8], second: &[u8]) -> Result<(), Wrong> {
    add_one(out, name, first)?;
    add_bytes(out, second)
}

fn fallback_word(fallback: Fallback) -> &'static str {
    match fallback {
        Fallback::Wrap => "wrap",
        Fallback::Ignore => "ignore",
        Fallback::Reject => "reject",
    }
}

fn add_disclaimer(
    out: &mut String,
    before: bool,
    text: &Bytes,
    fallback: Fallback,
) -> Result<(), Wrong> {
    out.push_str(if before { "before" } else { "after" })?;
    add_word(out, fallback_word(fallback))?;
    add_bytes(out, text.as_slice())
}

fn add_reject(out: &mut String, code: u32, words: &Bytes) -> Result<(), Wrong> {
    out.push_str("reject")?;
    add_count(out, u64::from(code))?;
    add_bytes(out, words.as_slice())
}

fn add_action(out: &mut String, action: &Action) -> Result<(), Wrong> {
    match action {
        Action::Prepend { text } => add_one(out, "prepend", text.as_slice()),
        Action::SetField { field, text } => add_pair(out, "set", field.as_slice(), text.as_slice()),
        Action::RemoveField { field } => add_one(out, "remove", field.as_slice()),
        Action::CopyTo { target } => add_one(out, "copy", target.bytes()),
        Action::RedirectTo { target } => add_one(out, "redirect", target.bytes()),
        Action::Disclaimer {
            before,
            text,
            fallback,
        } => add_disclaimer(out, *before, text, *fallback),
        Action::Reject { code, words } => add_reject(out, *code, words),
        Action::Approve { by } => add_keys(out, "approve", by.as_slice()),
    }
}

fn add_moment(out: &mut String, moment: Option<u64>) -> Result<(), Wrong> {
    match moment {
        Some(moment) => add_count(out, moment),
        None => add_word(out, "-"),
    }
}

fn flag_word(flag: bool) -> &'static str {
    if flag { "true" } else { "false" }
}

fn add_terms(out: &mut String, terms: &[Term]) -> Result<(), Wrong> {
    for term in terms {
        out.push_str("\n  ")?;
        add_term(out, term)?;
    }
    Ok(())
}

fn add_actions(out: &mut String, actions: &[Action]) -> Result<(), Wrong> {
    for action in actions {
        out.push_str("\n  ")?;
        add_action(out, action)?;
    }
    Ok(())
}

fn add_head(out: &mut String, rule: &Rule) -> Result<(), Wrong> {
    out.push_str("\nrule")?;
    add_bytes(out, rule.name.as_slice())?;
    add_word(out, flag_word(rule.enabled))?;
    add_moment(out, rule.from)?;
    add_moment(out, rule.until)?;
    add_word(out, flag_word(rule.stop))
}

fn add_rule(out: &mut String, rule: &Rule) -> Result<(), Wrong> {
    add_head(out, rule)?;
    add_terms(out, rule.when.as_slice())?;
    out.push_str("\n unless")?;
    add_terms(out, rule.unless.as_slice())?;
    out.push_str("\n do")?;
    add_actions(out, rule.actions.as_slice())
}

fn scope_word(scope: Scope) -> &'static str {
    match scope {
        Scope::Internal => "internal",
        Scope::External => "external",
        Scope::Global => "global",
    }
}

fn add_recipient(out: &mut String, recipient: Option<u32>) -> Result<(), Wrong> {
    match recipient {
        Some(place) => add_count(out, u64::from(place)),
        None => add_word(out, "-"),
    }
}

fn add_journal(out: &mut String, journal: &JournalRule) -> Result<(), Wrong> {
    add_one(out, "\njournal", journal.name.as_slice())?;
    add_word(out, scope_word(journal.scope))?;
    add_recipient(out, journal.recipient)?;
    add_bytes(out, journal.mailbox.bytes())
}

/// The row `book`.
pub fn shown(out: &mut String, book: &RuleBook) -> Result<(), Wrong> {
    for rule in book.rules() {
        add_rule(out, rule)?;
    }
    for journal in book.journals() {
        add_journal(out, journal)?;
    }
    Ok(())
}
