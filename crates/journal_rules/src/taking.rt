// Which mailboxes get reports, and of which targets.
ghost use Rattle.std.specs.Prelude.{◌≡◌, ◌<◌, ◌^◌, ◌++◌, [], ◌∷◌, length, IfOk, OnOk, option_copied, map, fold, filter};
ghost use Rattle.std.specs.List.{list_any};
ghost use Rattle.std.specs.Str.{bytes_eq};
ghost use Rattle.org_directory.specs.Register.{among};
ghost use Rattle.journal_rules.specs.Taking.{is_taken, one_more, named, places, taken_by, takings, has_some};

use crate::scope::takes;
use mail_names::{Items, Key, NoMemory};
use org_directory::Directory;
use rule_terms::{JournalRule, RuleBook};
use std::alloc::Global;

/// A journaling mailbox, and the places of the targets that it takes, ascending.
#[derive(Drop)]
pub struct Taken {
    /// Who gets the report.
    pub mailbox: Key,
    /// Where the targets stand.
    pub targets: Items<u32>,
}

fn is_among(key: &Key, keys: &[Key]) -> bool
    ensures { result ≡ among key.now keys.now }
{
    keys.iter().any(|other| *key == *other)
}

// The mailboxes of the rules, each once, in the order in which they are first named.
fn named(alloc: Global, journals: &[JournalRule]) -> Result<Vec<Key>, NoMemory>
    ensures { IfOk result (λ mailboxes. mailboxes.items ≡ named journals.now) }
{
    let mut mailboxes = Vec::new(alloc);
    for rule in journals {
        if !is_among(&rule.mailbox, mailboxes.as_slice()) {
            mailboxes.push(rule.mailbox.copy(alloc)?)?;
        }
    }
    Ok(mailboxes)
}

// Whether a rule with this mailbox takes the target.
fn is_taken(
    alloc: Global,
    journals: &[JournalRule],
    directory: &Directory,
    sender: Option<&Key>,
    mailbox: &Key,
    target: &Key,
) -> Result<bool, NoMemory>
    ensures { IfOk result (λ b. b ≡ is_taken directory.now (option_copied sender.entry) journals.now mailbox.now target.now) }
{
    for rule in journals {
        if *mailbox == rule.mailbox && takes(alloc, rule, directory, sender, target)? {
            return Ok(true);
        }
    }
    Ok(false)
}

// All that a mailbox takes.
fn taken_by(
    alloc: Global,
    journals: &[JournalRule],
    directory: &Directory,
    sender: Option<&Key>,
    targets: &[Key],
    mailbox: &Key,
) -> Result<Taken, NoMemory>
    requires { length targets.now < 2 ^ 32 }
    ensures { IfOk result (λ taken. taken ≡ taken_by directory.now (option_copied sender.entry) journals.now targets.now mailbox.now) }
{
    let mut places = Items::new(alloc);
    for (place, target) in targets.iter().enumerate() {
        if is_taken(alloc, journals, directory, sender, mailbox, target)? {
            places.push(place as u32)?;
        }
    }
    Ok(Taken {
        mailbox: mailbox.copy(alloc)?,
        targets: places,
    })
}

/// The mailboxes that take a target of a sender, where None is the null sender, each with all that its rules take. They
/// stand in the order in which journal rules first name them.
pub fn mailboxes(
    alloc: Global,
    book: &RuleBook,
    directory: &Directory,
    sender: Option<&Key>,
    targets: &[Key],
) -> Result<Vec<Taken>, NoMemory>
    requires { length targets.now < 2 ^ 32 }
    ensures { IfOk result (λ all. all.items ≡ takings directory.now (option_copied sender.entry) book.now.journals targets.now) }
{
    let journals = book.journals();
    let names = named(alloc, journals)?;
    let mut all = Vec::new(alloc);
    for mailbox in &names {
        let taken = taken_by(alloc, journals, directory, sender, targets, mailbox)?;
        if taken.targets.len() > 0 {
            all.push(taken)?;
        }
    }
    Ok(all)
}
