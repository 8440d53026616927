// Whether a rule applies.
ghost use Rattle.std.specs.Prelude.{◌≡◌, ◌&&◌, ℕ, true, not, IfOk, option_copied};
ghost use Rattle.std.specs.List.{list_all, list_any};
ghost use Rattle.rule_terms.specs.Forms.{is_term};
ghost use Rattle.rule_match.specs.Applies.{Setting, applies, has_begun, has_ended, holds};

use crate::term::holds;
use mail_message::Message;
use mail_names::{Key, NoMemory};
use org_directory::Directory;
use rule_terms::{Rule, Term};
use std::alloc::Global;

fn has_begun(from: Option<u64>, moment: u64) -> bool
    ensures { result ≡ has_begun from moment }
{
    match from {
        None => true,
        Some(from) => from <= moment,
    }
}

fn has_ended(until: Option<u64>, moment: u64) -> bool
    ensures { result ≡ has_ended until moment }
{
    match until {
        None => false,
        Some(until) => until <= moment,
    }
}

fn all_hold(
    alloc: Global,
    terms: &[Term],
    directory: &Directory,
    sender: Option<&Key>,
    recipient: &Key,
    message: &Message,
) -> Result<bool, NoMemory>
    requires { list_all is_term terms.now ≡ true }
    ensures { (moment : ℕ) → IfOk result (λ b. b ≡
        list_all (holds (record { directory = directory.now; sender = option_copied sender.entry; moment = moment }) recipient.now message.now) terms.now) }
{
    for term in terms {
        if !holds(alloc, term, directory, sender, recipient, message)? {
            return Ok(false);
        }
    }
    Ok(true)
}

fn one_holds(
    alloc: Global,
    terms: &[Term],
    directory: &Directory,
    sender: Option<&Key>,
    recipient: &Key,
    message: &Message,
) -> Result<bool, NoMemory>
    requires { list_all is_term terms.now ≡ true }
    ensures { (moment : ℕ) → IfOk result (λ b. b ≡
        list_any (holds (record { directory = directory.now; sender = option_copied sender.entry; moment = moment }) recipient.now message.now) terms.now) }
{
    for term in terms {
        if holds(alloc, term, directory, sender, recipient, message)? {
            return Ok(true);
        }
    }
    Ok(false)
}

/// Whether a rule applies, at a moment in seconds since 1970-01-01T00:00:00Z, to a message from a sender, where None is the
/// null sender, to a recipient: it is enabled and in force, every condition holds, and no exception does.
pub fn applies(
    alloc: Global,
    rule: &Rule,
    directory: &Directory,
    sender: Option<&Key>,
    recipient: &Key,
    message: &Message,
    moment: u64,
) -> Result<bool, NoMemory>
    requires when { list_all is_term rule.now.when ≡ true }
    requires unless { list_all is_term rule.now.unless ≡ true }
    ensures { IfOk result (λ b. b ≡
        applies (record { directory = directory.now; sender = option_copied sender.entry; moment = moment }) recipient.now message.now rule.now) }
{
    if !rule.enabled || !has_begun(rule.from, moment) || has_ended(rule.until, moment) {
        return Ok(false);
    }
    if !all_hold(
        alloc,
        rule.when.as_slice(),
        directory,
        sender,
        recipient,
        message,
    )? {
        return Ok(false);
    }
    let kept = one_holds(
        alloc,
        rule.unless.as_slice(),
        directory,
        sender,
        recipient,
        message,
    )?;
    Ok(!kept)
}
