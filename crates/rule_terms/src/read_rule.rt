// Rules, as a rules file writes them.
ghost use Rattle.std.specs.Prelude.{◌≡◌, ◌≤◌, codes, length, option_map, IfOk};
ghost use Rattle.toml.specs.View.{items_view, table_view, view};
ghost use Rattle.rule_terms.specs.Actions.{action_of};
ghost use Rattle.rule_terms.specs.Lists.{each, each_from};
ghost use Rattle.rule_terms.specs.Parts.{items_at};
ghost use Rattle.rule_terms.specs.Rules.{conditions_in, head_in, if_some_actions, rest_of, rule_of, rule_of_parts, together};

use crate::action::Action;
use crate::fault::RuleFault;
use crate::flaw::{Judged, action_fault, term_fault};
use crate::form::Form;
use crate::parts::{count, flag_at, formed_at, items_at, moment_at};
use crate::read_action::read_actions;
use crate::read_term::terms_at;
use crate::rule::Rule;
use crate::shape::{Shape, has_only};
use crate::term::Term;
use crate::together::go_together;
use mail_names::{Bytes, Items, NoMemory};
use org_directory::Directory;
use std::alloc::Global;
use toml::{Table, Value};

/// When a rule applies.
#[derive(Drop)]
pub struct Conditions {
    pub from: Option<u64>,
    pub until: Option<u64>,
    pub when: Items<Term>,
    pub unless: Items<Term>,
}

/// What a rule is called, and its flags.
#[derive(Drop)]
pub struct Head {
    pub name: Bytes,
    pub enabled: bool,
    pub stop: bool,
}

/// The conditions of a rule, or the first fault in them.
fn read_conditions(
    alloc: Global,
    rule: u32,
    table: &Table,
    directory: &Directory,
) -> Judged<Conditions>
    ensures { IfOk result (λ read. read ≡ conditions_in directory.now rule (table_view table.now)) }
{
    let Some(from) = moment_at(table, "from") else {
        return Ok(Err(RuleFault::BadDate { rule }));
    };
    let Some(until) = moment_at(table, "until") else {
        return Ok(Err(RuleFault::BadDate { rule }));
    };
    let when = match terms_at(alloc, table, "when", directory)? {
        Ok(when) => when,
        Err(flaw) => return Ok(Err(term_fault(rule, flaw))),
    };
    match terms_at(alloc, table, "unless", directory)? {
        Ok(unless) => Ok(Ok(Conditions {
            from,
            until,
            when,
            unless,
        })),
        Err(flaw) => Ok(Err(term_fault(rule, flaw))),
    }
}

fn read_head(alloc: Global, table: &Table) -> Result<Option<Head>, NoMemory>
    ensures { IfOk result (λ head. head ≡ head_in (table_view table.now)) }
{
    if !has_only(table, Shape::Rule) {
        return Ok(None);
    }
    let Some(name) = formed_at(alloc, Form::Name, table, "name")? else {
        return Ok(None);
    };
    let Some(enabled) = flag_at(table, "enabled", true) else {
        return Ok(None);
    };
    let Some(stop) = flag_at(table, "stop", false) else {
        return Ok(None);
    };
    Ok(Some(Head {
        name,
        enabled,
        stop,
    }))
}

/// The items of `do`, if there are 1 to 16.
fn action_items(table: &Table) -> Option<&[Value]>
    ensures { option_map (λ vs. items_view vs.now) result ≡ if_some_actions (items_at (codes "do") (table_view table.now)) }
{
    let Some(items) = items_at(table, "do") else {
        return None;
    };
    if 1 <= count(items) && count(items) <= 16 {
        Some(items)
    } else {
        None
    }
}

/// The actions of a rule, or the first fault in them.
fn read_deeds(
    alloc: Global,
    rule: u32,
    values: &[Value],
    directory: &Directory,
) -> Judged<Items<Action>>
    ensures { IfOk result (λ read. read ≡ together rule (each (action_of directory.now) (items_view values.now))) }
{
    match read_actions(alloc, values, directory)? {
        Ok(actions) => {
            if go_together(actions.as_slice()) {
                Ok(Ok(actions))
            } else {
                Ok(Err(RuleFault::BadAction { rule }))
            }
        }
        Err(flaw) => Ok(Err(action_fault(rule, flaw))),
    }
}

fn rule_of_parts(conditions: Conditions, head: Head, actions: Items<Action>) -> Rule
    ensures { result ≡ rule_of_parts conditions head actions }
{
    let Conditions {
        from,
        until,
        when,
        unless,
    } = conditions;
    let Head {
        name,
        enabled,
        stop,
    } = head;
    Rule {
        name,
        enabled,
        from,
        until,
        stop,
        when,
        unless,
        actions,
    }
}

/// The rule of these conditions, or the first fault in its other parts.
fn read_rest(
    alloc: Global,
    rule: u32,
    conditions: Conditions,
    table: &Table,
    directory: &Directory,
) -> Judged<Rule>
    ensures { IfOk result (λ read. read ≡ rest_of directory.now rule conditions (head_in (table_view table.now)) (if_some_actions (items_at (codes "do") (table_view table.now)))) }
{
    let Some(head) = read_head(alloc, table)? else {
        return Ok(Err(RuleFault::BadAction { rule }));
    };
    let Some(items) = action_items(table) else {
        return Ok(Err(RuleFault::BadAction { rule }));
    };
    match read_deeds(alloc, rule, items, directory)? {
        Ok(actions) => Ok(Ok(rule_of_parts(conditions, head, actions))),
        Err(fault) => Ok(Err(fault)),
    }
}

/// The rule that a value reads to, or its first fault.
#[tactic(auto, unfolding(crate::specs::Rules::rule_of))]
fn read_rule(alloc: Global, rule: u32, value: &Value, directory: &Directory) -> Judged<Rule>
    ensures { IfOk result (λ read. read ≡ rule_of directory.now rule (view value.now)) }
{
    let Some(table) = value.as_table() else {
        return Ok(Err(RuleFault::NotToml));
    };
    match read_conditions(alloc, rule, table, directory)? {
        Ok(conditions) => read_rest(alloc, rule, conditions, table, directory),
        Err(fault) => Ok(Err(fault)),
    }
}

/// The rules that the values read to, counted from 0, or the first fault.
pub fn read_all(alloc: Global, values: &[Value], directory: &Directory) -> Judged<Items<Rule>>
    requires { length values.now ≤ 100 }
    ensures { IfOk result (λ read. read ≡ each_from (rule_of directory.now) 0 (items_view values.now)) }
{
    let mut rules = Items::new(alloc);
    for (i, value) in values.iter().enumerate() {
        match read_rule(alloc, i as u32, value, directory)? {
            Ok(rule) => rules.push(rule)?,
            Err(fault) => return Ok(Err(fault)),
        }
    }
    Ok(Ok(rules))
}
