// What the keys of a table hold, where they hold what is asked for.
ghost use Rattle.std.specs.Prelude.{◌≡◌, option_map, IfOk, Option};
ghost use Rattle.toml.specs.Data.{as_array, get_member};
ghost use Rattle.toml.specs.View.{items_view, table_view, view};
ghost use Rattle.org_directory.specs.Lines.{key_in};
ghost use Rattle.rule_terms.specs.Lists.{count};
ghost use Rattle.rule_terms.specs.Parts.{as_formed, as_key, as_moment, flag_at, formed_at, items_at, key_at, moment_at, number_at, optional, seconds, text_at};
ghost use Rattle.jiff.specs.Words.{parse_timestamp};

use crate::form::{Form, formed};
use jiff::Timestamp;
use mail_names::{Bytes, Key, NameFault, NoMemory};
use std::alloc::Global;
use toml::{Table, Value};

/// The value of a key.
pub fn value_at<'a>(table: &'a Table, key: &str) -> Option<&'a Value>
    ensures { option_map (λ v. view v.now) result ≡ get_member key.now (table_view table.now) }
{
    table.get(key)
}

/// The text of a key.
pub fn text_at<'a>(table: &'a Table, key: &str) -> Option<&'a str>
    ensures { option_map (λ s. s.now) result ≡ text_at key.now (table_view table.now) }
{
    match value_at(table, key) {
        Some(value) => value.as_str(),
        None => None,
    }
}

/// The items of an array.
pub fn items_of(value: &Value) -> Option<&[Value]>
    ensures { option_map (λ vs. items_view vs.now) result ≡ as_array (view value.now) }
{
    match value.as_array() {
        Some(items) => Some(items.as_slice()),
        None => None,
    }
}

/// How many items there are.
pub fn count(items: &[Value]) -> usize
    ensures { result ≡ count (items_view items.now) }
{
    items.len()
}

/// The items of a key that holds an array.
pub fn items_at<'a>(table: &'a Table, key: &str) -> Option<&'a [Value]>
    ensures { option_map (λ vs. items_view vs.now) result ≡ items_at key.now (table_view table.now) }
{
    match value_at(table, key) {
        Some(value) => items_of(value),
        None => None,
    }
}

/// The flag of a key, or the usual one where it is missing.
pub fn flag_at(table: &Table, key: &str, usual: bool) -> Option<bool>
    ensures { result ≡ flag_at key.now usual (table_view table.now) }
{
    match value_at(table, key) {
        Some(value) => value.as_bool(),
        None => Some(usual),
    }
}

/// The whole number from 0 of a key.
pub fn number_at(table: &Table, key: &str) -> Option<u64>
    ensures { result ≡ number_at key.now (table_view table.now) }
{
    let value = value_at(table, key)?;
    let n = value.as_integer()?;
    if n >= 0 { Some(n as u64) } else { None }
}

/// The seconds since 1970-01-01T00:00:00Z of an instant in text.
fn moment_in(text: &str) -> Option<u64>
    ensures { result ≡ seconds (parse_timestamp text.now) }
{
    match text.parse::<Timestamp>() {
        Ok(instant) => {
            // A fraction of a second before 1970 would be rounded up to 1970.
            if instant.as_nanosecond() >= 0 {
                Some(instant.as_second() as u64)
            } else {
                None
            }
        }
        Err(_) => None,
    }
}

fn as_moment(value: &Value) -> Option<u64>
    ensures { result ≡ as_moment (view value.now) }
{
    match value.as_str() {
        Some(text) => moment_in(text),
        None => None,
    }
}

/// The moment of a key, which may be missing.
pub fn moment_at(table: &Table, key: &str) -> Option<Option<u64>>
    ensures { result ≡ moment_at key.now (table_view table.now) }
{
    match value_at(table, key) {
        None => Some(None),
        Some(value) => match as_moment(value) {
            Some(moment) => Some(Some(moment)),
            None => None,
        },
    }
}

fn key_in(alloc: Global, text: &str) -> Result<Option<Key>, NoMemory>
    ensures { IfOk result (λ key. key ≡ key_in text.now) }
{
    match Key::read(alloc, text.as_bytes()) {
        Ok(key) => Ok(Some(key)),
        Err(NameFault::NoMemory) => Err(NoMemory),
        Err(_) => Ok(None),
    }
}

/// The key that a value is.
pub fn as_key(alloc: Global, value: &Value) -> Result<Option<Key>, NoMemory>
    ensures { IfOk result (λ key. key ≡ as_key (view value.now)) }
{
    match value.as_str() {
        Some(text) => key_in(alloc, text),
        None => Ok(None),
    }
}

/// The key that a key of the table holds.
pub fn key_at(alloc: Global, table: &Table, key: &str) -> Result<Option<Key>, NoMemory>
    ensures { IfOk result (λ found. found ≡ key_at key.now (table_view table.now)) }
{
    match value_at(table, key) {
        Some(value) => as_key(alloc, value),
        None => Ok(None),
    }
}

/// The key that a key of the table holds, which may be missing.
pub fn optional_key_at(
    alloc: Global,
    table: &Table,
    key: &str,
) -> Result<Option<Option<Key>>, NoMemory>
    ensures { IfOk result (λ found. found ≡ optional as_key (get_member key.now (table_view table.now))) }
{
    let Some(value) = value_at(table, key) else {
        return Ok(Some(None));
    };
    match as_key(alloc, value)? {
        Some(found) => Ok(Some(Some(found))),
        None => Ok(None),
    }
}

/// The text of a form that a value is, as it is kept.
pub fn as_formed(alloc: Global, form: Form, value: &Value) -> Result<Option<Bytes>, NoMemory>
    ensures { IfOk result (λ bytes. bytes ≡ as_formed form (view value.now)) }
{
    match value.as_str() {
        Some(text) => formed(alloc, form, text),
        None => Ok(None),
    }
}

/// The text of a form that a key holds, as it is kept.
pub fn formed_at(
    alloc: Global,
    form: Form,
    table: &Table,
    key: &str,
) -> Result<Option<Bytes>, NoMemory>
    ensures { IfOk result (λ bytes. bytes ≡ formed_at form key.now (table_view table.now)) }
{
    match value_at(table, key) {
        Some(value) => as_formed(alloc, form, value),
        None => Ok(None),
    }
}
