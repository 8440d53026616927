// The values of a term.
ghost use Rattle.std.specs.Prelude.{◌≡◌, codes, IfOk};
ghost use Rattle.toml.specs.Data.{Items, Data};
ghost use Rattle.toml.specs.View.{items_view, table_view, view};
ghost use Rattle.rule_terms.specs.Lists.{each, or_bad};
ghost use Rattle.rule_terms.specs.Parts.{as_formed, as_key};
ghost use Rattle.rule_terms.specs.Terms.{as_side, few, side_in, values_at};

use crate::flaw::{Flaw, Read};
use crate::form::Form;
use crate::parts::{as_formed, as_key, items_at};
use crate::shape::is;
use crate::term::Side;
use mail_names::{Bytes, Items, Key};
use std::alloc::Global;
use toml::{Table, Value};

/// The keys that the values are.
pub fn read_keys(alloc: Global, values: &[Value]) -> Read<Items<Key>>
    ensures { IfOk result (λ keys. keys ≡ each (λ d. or_bad (as_key d)) (items_view values.now)) }
{
    let mut keys = Items::new(alloc);
    for value in values {
        let Some(key) = as_key(alloc, value)? else {
            return Ok(Err(Flaw::Bad));
        };
        keys.push(key)?;
    }
    Ok(Ok(keys))
}

fn read_texts(alloc: Global, form: Form, values: &[Value]) -> Read<Items<Bytes>>
    ensures { IfOk result (λ texts. texts ≡ each (λ d. or_bad (as_formed form d)) (items_view values.now)) }
{
    let mut texts = Items::new(alloc);
    for value in values {
        let Some(text) = as_formed(alloc, form, value)? else {
            return Ok(Err(Flaw::Bad));
        };
        texts.push(text)?;
    }
    Ok(Ok(texts))
}

fn side_in(word: &[u8]) -> Option<Side>
    ensures { result ≡ side_in word.now }
{
    if is(word, b"inside") {
        return Some(Side::Inside);
    }
    if is(word, b"outside") {
        return Some(Side::Outside);
    }
    None
}

fn as_side(value: &Value) -> Option<Side>
    ensures { result ≡ as_side (view value.now) }
{
    match value.as_str() {
        Some(word) => side_in(word.as_bytes()),
        None => None,
    }
}

fn read_sides(alloc: Global, values: &[Value]) -> Read<Items<Side>>
    ensures { IfOk result (λ sides. sides ≡ each (λ d. or_bad (as_side d)) (items_view values.now)) }
{
    let mut sides = Items::new(alloc);
    for value in values {
        let Some(side) = as_side(value) else {
            return Ok(Err(Flaw::Bad));
        };
        sides.push(side)?;
    }
    Ok(Ok(sides))
}

/// The values, if there are 1 to 100.
fn few<T: Drop>(values: Result<Items<T>, Flaw>) -> Result<Items<T>, Flaw>
    ensures { result ≡ few values }
{
    match values {
        Ok(values) => {
            if 1 <= values.len() && values.len() <= 100 {
                Ok(values)
            } else {
                Err(Flaw::Bad)
            }
        }
        Err(flaw) => Err(flaw),
    }
}

/// The values of a term that are keys.
pub fn key_values(alloc: Global, table: &Table) -> Read<Items<Key>>
    ensures { IfOk result (λ keys. keys ≡ values_at as_key (table_view table.now)) }
{
    match items_at(table, "values") {
        Some(values) => Ok(few(read_keys(alloc, values)?)),
        None => Ok(Err(Flaw::Bad)),
    }
}

/// The values of a term that are texts of a form, as they are kept.
pub fn text_values(alloc: Global, form: Form, table: &Table) -> Read<Items<Bytes>>
    ensures { IfOk result (λ texts. texts ≡ values_at (as_formed form) (table_view table.now)) }
{
    match items_at(table, "values") {
        Some(values) => Ok(few(read_texts(alloc, form, values)?)),
        None => Ok(Err(Flaw::Bad)),
    }
}

/// The values of a term that are sides.
pub fn side_values(alloc: Global, table: &Table) -> Read<Items<Side>>
    ensures { IfOk result (λ sides. sides ≡ values_at as_side (table_view table.now)) }
{
    match items_at(table, "values") {
        Some(values) => Ok(few(read_sides(alloc, values)?)),
        None => Ok(Err(Flaw::Bad)),
    }
}
