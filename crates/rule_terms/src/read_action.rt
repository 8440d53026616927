// Actions, as a rules file writes them.
ghost use Rattle.std.specs.Prelude.{◌≡◌, ◌∷◌, [], codes, option_and_then, IfOk};
ghost use Rattle.std.specs.List.{list_all, list_any};
ghost use Rattle.std.specs.Str.{bytes_eq};
ghost use Rattle.toml.specs.View.{items_view, table_view, view};
ghost use Rattle.org_directory.specs.Register.{is_deliverable};
ghost use Rattle.rule_terms.specs.Forms.{are_distinct};
ghost use Rattle.rule_terms.specs.Lists.{and_then, each, made, or_bad};
ghost use Rattle.rule_terms.specs.Parts.{as_key, formed_at, items_at, key_at, text_at};
ghost use Rattle.rule_terms.specs.Actions.{act_of, action_by, action_of, approve, code_in, disclaimer, fallback_in, is_high_code, keys_in, place_in, reject, set_field, shape_of, target_of, with_code};
ghost use Rattle.rule_terms.specs.declared.action.Action.TheVariants as actions;
ghost use Rattle.rule_terms.specs.declared.form.Form.TheVariants as forms;

use crate::action::{Action, Fallback};
use crate::flaw::{Flaw, Read};
use crate::form::Form;
use crate::parts::{formed_at, items_at, key_at, text_at};
use crate::shape::{Shape, has_only, is};
use crate::values::read_keys;
use mail_names::{Items, Key};
use org_directory::Directory;
use std::alloc::Global;
use toml::{Table, Value};

/// What an action does.
#[derive(Clone, Copy)]
pub enum Act {
    Prepend,
    SetField,
    RemoveField,
    CopyTo,
    RedirectTo,
    Disclaimer,
    Reject,
    Approve,
}

fn act_of(word: &[u8]) -> Option<Act>
    ensures { result ≡ act_of word.now }
{
    if is(word, b"prepend-subject") {
        return Some(Act::Prepend);
    }
    if is(word, b"set-field") {
        return Some(Act::SetField);
    }
    if is(word, b"remove-field") {
        return Some(Act::RemoveField);
    }
    if is(word, b"copy") {
        return Some(Act::CopyTo);
    }
    if is(word, b"redirect") {
        return Some(Act::RedirectTo);
    }
    if is(word, b"disclaimer") {
        return Some(Act::Disclaimer);
    }
    if is(word, b"reject") {
        return Some(Act::Reject);
    }
    if is(word, b"approve") {
        return Some(Act::Approve);
    }
    None
}

fn read_act(table: &Table) -> Option<Act>
    ensures { result ≡ option_and_then act_of (text_at (codes "act") (table_view table.now)) }
{
    match text_at(table, "act") {
        Some(word) => act_of(word.as_bytes()),
        None => None,
    }
}

fn shape_of(act: Act) -> Shape
    ensures { result ≡ shape_of act }
{
    match act {
        Act::Prepend => Shape::Text,
        Act::SetField => Shape::FieldText,
        Act::RemoveField => Shape::Removal,
        Act::CopyTo | Act::RedirectTo => Shape::Target,
        Act::Disclaimer => Shape::Disclaimer,
        Act::Reject => Shape::Rejection,
        Act::Approve => Shape::Approval,
    }
}

fn read_prepend(alloc: Global, table: &Table) -> Read<Action>
    ensures { IfOk result (λ action. action ≡ made (λ text. actions.Prepend text) (or_bad (formed_at forms.Line (codes "text") (table_view table.now)))) }
{
    match formed_at(alloc, Form::Line, table, "text")? {
        Some(text) => Ok(Ok(Action::Prepend { text })),
        None => Ok(Err(Flaw::Bad)),
    }
}

fn read_set_field(alloc: Global, table: &Table) -> Read<Action>
    ensures { IfOk result (λ action. action ≡ set_field (formed_at forms.Field (codes "field") (table_view table.now)) (formed_at forms.Line (codes "text") (table_view table.now))) }
{
    let Some(field) = formed_at(alloc, Form::Field, table, "field")? else {
        return Ok(Err(Flaw::Bad));
    };
    let Some(text) = formed_at(alloc, Form::Line, table, "text")? else {
        return Ok(Err(Flaw::Bad));
    };
    Ok(Ok(Action::SetField { field, text }))
}

fn read_removal(alloc: Global, table: &Table) -> Read<Action>
    ensures { IfOk result (λ action. action ≡ made (λ field. actions.RemoveField field) (or_bad (formed_at forms.Field (codes "field") (table_view table.now)))) }
{
    match formed_at(alloc, Form::Field, table, "field")? {
        Some(field) => Ok(Ok(Action::RemoveField { field })),
        None => Ok(Err(Flaw::Bad)),
    }
}

/// The key to which mail goes.
fn read_target(alloc: Global, table: &Table, directory: &Directory) -> Read<Key>
    ensures { IfOk result (λ target. target ≡ target_of directory.now (key_at (codes "to") (table_view table.now))) }
{
    let Some(target) = key_at(alloc, table, "to")? else {
        return Ok(Err(Flaw::Bad));
    };
    if !directory.deliverable(&target) {
        return Ok(Err(Flaw::Unknown));
    }
    Ok(Ok(target))
}

fn read_copy(alloc: Global, table: &Table, directory: &Directory) -> Read<Action>
    ensures { IfOk result (λ action. action ≡ made (λ target. actions.CopyTo target) (target_of directory.now (key_at (codes "to") (table_view table.now)))) }
{
    match read_target(alloc, table, directory)? {
        Ok(target) => Ok(Ok(Action::CopyTo { target })),
        Err(flaw) => Ok(Err(flaw)),
    }
}

fn read_redirect(alloc: Global, table: &Table, directory: &Directory) -> Read<Action>
    ensures { IfOk result (λ action. action ≡ made (λ target. actions.RedirectTo target) (target_of directory.now (key_at (codes "to") (table_view table.now)))) }
{
    match read_target(alloc, table, directory)? {
        Ok(target) => Ok(Ok(Action::RedirectTo { target })),
        Err(flaw) => Ok(Err(flaw)),
    }
}

/// Whether a disclaimer goes before the body.
fn place_in(word: &[u8]) -> Option<bool>
    ensures { result ≡ place_in word.now }
{
    if is(word, b"before") {
        return Some(true);
    }
    if is(word, b"after") {
        return Some(false);
    }
    None
}

fn read_place(table: &Table) -> Option<bool>
    ensures { result ≡ option_and_then place_in (text_at (codes "place") (table_view table.now)) }
{
    match text_at(table, "place") {
        Some(word) => place_in(word.as_bytes()),
        None => None,
    }
}

fn fallback_in(word: &[u8]) -> Option<Fallback>
    ensures { result ≡ fallback_in word.now }
{
    if is(word, b"wrap") {
        return Some(Fallback::Wrap);
    }
    if is(word, b"ignore") {
        return Some(Fallback::Ignore);
    }
    if is(word, b"reject") {
        return Some(Fallback::Reject);
    }
    None
}

fn read_fallback(table: &Table) -> Option<Fallback>
    ensures { result ≡ option_and_then fallback_in (text_at (codes "fallback") (table_view table.now)) }
{
    match text_at(table, "fallback") {
        Some(word) => fallback_in(word.as_bytes()),
        None => None,
    }
}

fn read_disclaimer(alloc: Global, table: &Table) -> Read<Action>
    ensures { IfOk result (λ action. action ≡ disclaimer (option_and_then place_in (text_at (codes "place") (table_view table.now))) (formed_at forms.Note (codes "text") (table_view table.now)) (option_and_then fallback_in (text_at (codes "fallback") (table_view table.now)))) }
{
    let Some(before) = read_place(table) else {
        return Ok(Err(Flaw::Bad));
    };
    let Some(text) = formed_at(alloc, Form::Note, table, "text")? else {
        return Ok(Err(Flaw::Bad));
    };
    let Some(fallback) = read_fallback(table) else {
        return Ok(Err(Flaw::Bad));
    };
    Ok(Ok(Action::Disclaimer {
        before,
        text,
        fallback,
    }))
}

fn is_high_code(text: &[u8]) -> bool
    ensures { result ≡ is_high_code text.now }
{
    text.len() == 7
        && is(&text[..5], b"5.7.9")
        && text[5].is_ascii_digit()
        && text[6].is_ascii_digit()
}

fn code_in(text: &[u8]) -> Option<u32>
    ensures { result ≡ code_in text.now }
{
    if is(text, b"5.7.1") {
        return Some(1);
    }
    if !is_high_code(text) {
        return None;
    }
    Some(900 + (10 * u32::from(text[5] - b'0') + u32::from(text[6] - b'0')))
}

fn read_reject(alloc: Global, table: &Table) -> Read<Action>
    ensures { IfOk result (λ action. action ≡ reject (text_at (codes "code") (table_view table.now)) (formed_at forms.Line (codes "text") (table_view table.now))) }
{
    let Some(code) = text_at(table, "code") else {
        return Ok(Err(Flaw::Bad));
    };
    let Some(words) = formed_at(alloc, Form::Line, table, "text")? else {
        return Ok(Err(Flaw::Bad));
    };
    match code_in(code.as_bytes()) {
        Some(code) => Ok(Ok(Action::Reject { code, words })),
        None => Ok(Err(Flaw::BadCode)),
    }
}

fn is_among(key: &Key, keys: &[Key]) -> bool
    ensures { result ≡ list_any (bytes_eq key.now) keys.now }
{
    keys.iter().any(|other| is(key.bytes(), other.bytes()))
}

/// Whether each key stands once.
fn are_distinct(keys: &[Key]) -> bool
    ensures { result ≡ are_distinct keys.now }
{
    for (i, key) in keys.iter().enumerate() {
        if is_among(key, &keys[i + 1..]) {
            return false;
        }
    }
    true
}

fn are_deliverable(directory: &Directory, keys: &[Key]) -> bool
    ensures { result ≡ list_all (is_deliverable directory.now) keys.now }
{
    keys.iter().all(|key| directory.deliverable(key))
}

fn approve(directory: &Directory, keys: Items<Key>) -> Result<Action, Flaw>
    ensures { result ≡ approve directory.now keys }
{
    if keys.len() < 1 || keys.len() > 10 || !are_distinct(keys.as_slice()) {
        return Err(Flaw::Bad);
    }
    if !are_deliverable(directory, keys.as_slice()) {
        return Err(Flaw::Unknown);
    }
    Ok(Action::Approve { by: keys })
}

fn read_approval(alloc: Global, table: &Table, directory: &Directory) -> Read<Action>
    ensures { IfOk result (λ action. action ≡ and_then (keys_in (items_at (codes "by") (table_view table.now))) (approve directory.now)) }
{
    let Some(values) = items_at(table, "by") else {
        return Ok(Err(Flaw::Bad));
    };
    match read_keys(alloc, values)? {
        Ok(keys) => Ok(approve(directory, keys)),
        Err(flaw) => Ok(Err(flaw)),
    }
}

fn read_by(alloc: Global, act: Act, table: &Table, directory: &Directory) -> Read<Action>
    ensures { IfOk result (λ action. action ≡ action_by directory.now (table_view table.now) act) }
{
    match act {
        Act::Prepend => read_prepend(alloc, table),
        Act::SetField => read_set_field(alloc, table),
        Act::RemoveField => read_removal(alloc, table),
        Act::CopyTo => read_copy(alloc, table, directory),
        Act::RedirectTo => read_redirect(alloc, table, directory),
        Act::Disclaimer => read_disclaimer(alloc, table),
        Act::Reject => read_reject(alloc, table),
        Act::Approve => read_approval(alloc, table, directory),
    }
}

/// The action that a value reads to.
#[tactic(auto, unfolding(crate::specs::Actions::action_of))]
fn read_action(alloc: Global, value: &Value, directory: &Directory) -> Read<Action>
    ensures { IfOk result (λ action. action ≡ action_of directory.now (view value.now)) }
{
    let Some(table) = value.as_table() else {
        return Ok(Err(Flaw::Bad));
    };
    let Some(act) = read_act(table) else {
        return Ok(Err(Flaw::Bad));
    };
    if !has_only(table, shape_of(act)) {
        return Ok(Err(Flaw::Bad));
    }
    read_by(alloc, act, table, directory)
}

/// The actions that the values read to, or the flaw of the first that has one.
pub fn read_actions(alloc: Global, values: &[Value], directory: &Directory) -> Read<Items<Action>>
    ensures { IfOk result (λ actions. actions ≡ each (action_of directory.now) (items_view values.now)) }
{
    let mut actions = Items::new(alloc);
    for value in values {
        match read_action(alloc, value, directory)? {
            Ok(action) => actions.push(action)?,
            Err(flaw) => return Ok(Err(flaw)),
        }
    }
    Ok(Ok(actions))
}
