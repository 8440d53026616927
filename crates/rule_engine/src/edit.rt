// Edits of a message, each named by its place in the book.
ghost use Rattle.std.specs.Prelude.{◌≡◌, true, IfOk, OnOk, Option, slice_get};
ghost use Rattle.rule_terms.specs.Forms.{is_action, are_rules};
ghost use Rattle.rule_terms.specs.declared.action.Action.{Action};
ghost use Rattle.rule_engine.specs.Fate.{act, disclaim};
ghost use Rattle.rule_engine.specs.Edits.{wraps, is_edit, left_by, with_action, action_at, edited, rendered};

use crate::recipient::side;
use mail_message::Message;
use mail_names::{Bytes, NoMemory};
use rule_terms::{Action, Fallback, Rule, RuleBook};
use std::alloc::Global;

/// An action that edits a message: the place of its rule in the book, and its place in the rule.
#[derive(Clone, Copy, Debug, PartialEq, Eq)]
pub struct EditAt {
    pub rule: u32,
    pub action: u32,
}

fn wraps(fallback: Fallback) -> bool
    ensures { result ≡ wraps fallback }
{
    match fallback {
        Fallback::Wrap => true,
        Fallback::Ignore => false,
        Fallback::Reject => false,
    }
}

/// Whether an action edits this message. A disclaimer edits it where it adds its text or wraps it.
pub fn is_edit(alloc: Global, action: &Action, message: &Message) -> Result<bool, NoMemory>
    ensures { IfOk result (λ edits. edits ≡ is_edit action.now message.now) }
{
    match action {
        Action::Prepend { .. } => Ok(true),
        Action::SetField { .. } => Ok(true),
        Action::RemoveField { .. } => Ok(true),
        Action::CopyTo { .. } => Ok(false),
        Action::RedirectTo { .. } => Ok(false),
        Action::Disclaimer { fallback, .. } => Ok(message.is_plain(alloc)? || wraps(*fallback)),
        Action::Reject { .. } => Ok(false),
        Action::Approve { .. } => Ok(false),
    }
}

// Adds a disclaimer, or wraps the message where the fallback says so.
fn disclaim(
    alloc: Global,
    before: bool,
    text: &Bytes,
    fallback: Fallback,
    message: &mut Message,
) -> Result<(), NoMemory>
    ensures { OnOk result (message.new ≡ left_by (disclaim before text.now fallback message.old) message.old) }
{
    if message.is_plain(alloc)? {
        message.add_text(alloc, side(before), text.as_slice())?;
        return Ok(());
    }
    match fallback {
        Fallback::Wrap => {
            message.wrap(alloc, text.as_slice())?;
            Ok(())
        }
        Fallback::Ignore => Ok(()),
        Fallback::Reject => Ok(()),
    }
}

// Does an action as an edit of the message.
fn edit(alloc: Global, action: &Action, message: &mut Message) -> Result<(), NoMemory>
    requires { is_action action.now ≡ true }
    ensures { OnOk result (message.new ≡ left_by (act action.now message.old) message.old) }
{
    match action {
        Action::Prepend { text } => {
            message.prepend_subject(alloc, text.as_slice())?;
            Ok(())
        }
        Action::SetField { field, text } => {
            message.set_field(alloc, field.as_slice(), text.as_slice())?;
            Ok(())
        }
        Action::RemoveField { field } => {
            message.remove_field(field.as_slice())?;
            Ok(())
        }
        Action::Disclaimer {
            before,
            text,
            fallback,
        } => disclaim(alloc, *before, text, *fallback, message),
        Action::CopyTo { .. } => Ok(()),
        Action::RedirectTo { .. } => Ok(()),
        Action::Reject { .. } => Ok(()),
        Action::Approve { .. } => Ok(()),
    }
}

// Does the action that is named, where there is one.
fn edit_at(
    alloc: Global,
    rules: &[Rule],
    at: &EditAt,
    message: &mut Message,
) -> Result<(), NoMemory>
    requires { are_rules rules.now ≡ true }
    ensures { OnOk result (message.new ≡ with_action (action_at rules.now at.now) message.old) }
{
    let Some(rule) = rules.get(at.rule as usize) else {
        return Ok(());
    };
    let Some(action) = rule.actions.as_slice().get(at.action as usize) else {
        return Ok(());
    };
    edit(alloc, action, message)
}

/// The text of a message after these edits in order. A disclaimer on a message that isn't plain wraps it where its fallback
/// is to wrap, and else leaves it. What names no action of the book, or one that edits nothing, leaves the message too.
pub fn render(
    alloc: Global,
    book: &RuleBook,
    message: &Message,
    edits: &[EditAt],
) -> Result<Bytes, NoMemory>
    ensures { IfOk result (λ text. text ≡ rendered book.now.rules message.now edits.now) }
{
    let rules = book.rules();
    let mut message = message.copy(alloc)?;
    for at in edits {
        edit_at(alloc, rules, at, &mut message)?;
    }
    Ok(message.bytes(alloc)?)
}
