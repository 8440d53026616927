// The rule book from its text.
ghost use Rattle.std.specs.Prelude.{◌≡◌, ◌≤◌, ◌||◌, codes, length, nat_lt, option_map, IfOk, Some};
ghost use Rattle.toml.specs.View.{items_view, table_view};
ghost use Rattle.rule_terms.specs.Lists.{count};
ghost use Rattle.rule_terms.specs.Reading.{all_of, are_tables, book_in, book_of, book_with, table_of, tables_at, Gives};

use crate::book::RuleBook;
use crate::fault::RuleFault;
use crate::flaw::Judged;
use crate::parts::{count, items_of, value_at};
use crate::read_journal::read_journals;
use crate::read_rule::read_all;
use crate::shape::{Shape, has_only};
use mail_names::NoMemory;
use org_directory::Directory;
use std::alloc::Global;
use toml::{Table, Value};

/// The table of a text, or None where it is too long or no TOML.
fn table_of(alloc: Global, text: &[u8]) -> Result<Option<Table>, NoMemory>
    ensures { IfOk result (λ table. option_map table_view table ≡ table_of text.now) }
{
    if text.len() > 1_048_576 {
        return Ok(None);
    }
    match toml::table_from_slice(alloc, text) {
        Ok(table) => Ok(Some(table)),
        Err(error) => {
            if error.is_memory() {
                Err(NoMemory)
            } else {
                Ok(None)
            }
        }
    }
}

fn are_tables(items: &[Value]) -> bool
    ensures { result ≡ are_tables (items_view items.now) }
{
    for item in items {
        if item.as_table().is_none() {
            return false;
        }
    }
    true
}

/// The items of a key that holds an array of tables, of which there are none where it is missing.
fn tables_at<'a>(table: &'a Table, key: &str) -> Option<&'a [Value]>
    ensures { option_map (λ vs. items_view vs.now) result ≡ tables_at key.now (table_view table.now) }
{
    let Some(value) = value_at(table, key) else {
        return Some(&[]);
    };
    let Some(items) = items_of(value) else {
        return None;
    };
    if are_tables(items) { Some(items) } else { None }
}

fn are_too_many(rules: &[Value], journals: &[Value]) -> bool
    ensures { result ≡ (nat_lt 100 (count (items_view rules.now)) || nat_lt 100 (count (items_view journals.now))) }
{
    count(rules) > 100 || count(journals) > 100
}

/// The book of these rules and journal rules, or the first fault in them.
fn read_both(
    alloc: Global,
    rules: &[Value],
    journals: &[Value],
    directory: &Directory,
) -> Judged<RuleBook>
    requires rules { length rules.now ≤ 100 }
    requires journals { length journals.now ≤ 100 }
    ensures { IfOk result (λ read. read ≡ all_of directory.now (items_view rules.now) (items_view journals.now)) }
{
    let read = match read_all(alloc, rules, directory)? {
        Ok(read) => read,
        Err(fault) => return Ok(Err(fault)),
    };
    match read_journals(alloc, rules.len() as u32, journals, directory)? {
        Ok(journals) => Ok(Ok(RuleBook::of(read, journals))),
        Err(fault) => Ok(Err(fault)),
    }
}

fn read_table(alloc: Global, table: &Table, directory: &Directory) -> Judged<RuleBook>
    ensures { IfOk result (λ read. read ≡ book_in directory.now (Some (table_view table.now))) }
{
    if !has_only(table, Shape::Top) {
        return Ok(Err(RuleFault::NotToml));
    }
    let Some(rules) = tables_at(table, "rule") else {
        return Ok(Err(RuleFault::NotToml));
    };
    let Some(journals) = tables_at(table, "journal") else {
        return Ok(Err(RuleFault::NotToml));
    };
    if are_too_many(rules, journals) {
        return Ok(Err(RuleFault::TooMany));
    }
    read_both(alloc, rules, journals, directory)
}

#[tactic(auto, unfolding(crate::specs::Reading::book_of))]
fn read_text(alloc: Global, text: &[u8], directory: &Directory) -> Judged<RuleBook>
    ensures { IfOk result (λ read. read ≡ book_of text.now directory.now) }
{
    match table_of(alloc, text)? {
        Some(table) => read_table(alloc, &table, directory),
        None => Ok(Err(RuleFault::NotToml)),
    }
}

/// The rule book that a text in TOML reads to, or its first fault. A text of more than 1,048,576 octets is NotToml.
///
/// NotToml and TooMany are told first, and then the faults of the rules in their order, and those of the journal rules
/// behind them. In one rule come BadDate, then the terms of `when` and of `unless` in order, then the rule's other keys,
/// then its actions in order, and then whether these go together. In a journal rule BadAction comes before UnknownKey.
pub fn read_rules(alloc: Global, text: &[u8], directory: &Directory) -> Result<RuleBook, RuleFault>
    ensures { Gives result (book_of text.now directory.now) }
{
    match read_text(alloc, text, directory) {
        Ok(read) => read,
        Err(NoMemory) => Err(RuleFault::NoMemory),
    }
}
