// Journal rules, as a rules file writes them.
ghost use Rattle.std.specs.Prelude.{◌≡◌, ◌≤◌, codes, length, option_and_then, IfOk, Some};
ghost use Rattle.toml.specs.View.{items_view, table_view, view};
ghost use Rattle.rule_terms.specs.Lists.{each_from};
ghost use Rattle.rule_terms.specs.Parts.{text_at};
ghost use Rattle.rule_terms.specs.Rules.{journal_in, journal_of, known, place_if, scope_in};

use crate::fault::RuleFault;
use crate::flaw::Judged;
use crate::form::Form;
use crate::parts::{formed_at, key_at, optional_key_at, text_at};
use crate::rule::{JournalRule, Scope};
use crate::shape::{Shape, has_only, is};
use mail_names::{Bytes, Items, Key};
use org_directory::Directory;
use std::alloc::Global;
use toml::{Table, Value};

fn scope_in(word: &[u8]) -> Option<Scope>
    ensures { result ≡ scope_in word.now }
{
    if is(word, b"internal") {
        return Some(Scope::Internal);
    }
    if is(word, b"external") {
        return Some(Scope::External);
    }
    if is(word, b"global") {
        return Some(Scope::Global);
    }
    None
}

fn read_scope(table: &Table) -> Option<Scope>
    ensures { result ≡ option_and_then scope_in (text_at (codes "scope") (table_view table.now)) }
{
    match text_at(table, "scope") {
        Some(word) => scope_in(word.as_bytes()),
        None => None,
    }
}

/// The place of an object, where a key is given, or None where it is no object's.
fn place_if(directory: &Directory, key: Option<Key>) -> Option<Option<u32>>
    ensures { result ≡ place_if directory.now key }
{
    match key {
        None => Some(None),
        Some(key) => match directory.find(&key) {
            Some(place) => Some(Some(place)),
            None => None,
        },
    }
}

fn known(
    directory: &Directory,
    rule: u32,
    name: Bytes,
    scope: Scope,
    recipient: Option<Key>,
    mailbox: Key,
) -> Result<JournalRule, RuleFault>
    ensures { result ≡ known directory.now rule name scope (place_if directory.now recipient) mailbox }
{
    let Some(recipient) = place_if(directory, recipient) else {
        return Err(RuleFault::UnknownKey { rule });
    };
    if !directory.deliverable(&mailbox) {
        return Err(RuleFault::UnknownKey { rule });
    }
    Ok(JournalRule {
        name,
        scope,
        recipient,
        mailbox,
    })
}

fn read_in(alloc: Global, rule: u32, table: &Table, directory: &Directory) -> Judged<JournalRule>
    ensures { IfOk result (λ read. read ≡ journal_in directory.now rule (Some (table_view table.now))) }
{
    if !has_only(table, Shape::Journal) {
        return Ok(Err(RuleFault::BadAction { rule }));
    }
    let Some(name) = formed_at(alloc, Form::Name, table, "name")? else {
        return Ok(Err(RuleFault::BadAction { rule }));
    };
    let Some(scope) = read_scope(table) else {
        return Ok(Err(RuleFault::BadAction { rule }));
    };
    let Some(recipient) = optional_key_at(alloc, table, "recipient")? else {
        return Ok(Err(RuleFault::BadAction { rule }));
    };
    let Some(mailbox) = key_at(alloc, table, "mailbox")? else {
        return Ok(Err(RuleFault::BadAction { rule }));
    };
    Ok(known(directory, rule, name, scope, recipient, mailbox))
}

/// The journal rule that a value reads to, or its first fault.
#[tactic(auto, unfolding(crate::specs::Rules::journal_of))]
fn read_journal(
    alloc: Global,
    rule: u32,
    value: &Value,
    directory: &Directory,
) -> Judged<JournalRule>
    ensures { IfOk result (λ read. read ≡ journal_of directory.now rule (view value.now)) }
{
    match value.as_table() {
        Some(table) => read_in(alloc, rule, table, directory),
        None => Ok(Err(RuleFault::NotToml)),
    }
}

/// The journal rules that the values read to, counted from a number on, or the first fault.
pub fn read_journals(
    alloc: Global,
    first: u32,
    values: &[Value],
    directory: &Directory,
) -> Judged<Items<JournalRule>>
    requires first { first ≤ 100 }
    requires few { length values.now ≤ 100 }
    ensures { IfOk result (λ read. read ≡ each_from (journal_of directory.now) first (items_view values.now)) }
{
    let mut journals = Items::new(alloc);
    for (i, value) in values.iter().enumerate() {
        match read_journal(alloc, first + i as u32, value, directory)? {
            Ok(journal) => journals.push(journal)?,
            Err(fault) => return Ok(Err(fault)),
        }
    }
    Ok(Ok(journals))
}
