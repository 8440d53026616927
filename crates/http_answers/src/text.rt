// Texts and lists as JSON.
ghost use Rattle.std.specs.Prelude.{◌≡◌, IfOk, map};
ghost use Rattle.mail_names.specs.Names.{name_text, approval_text};
ghost use Rattle.serde_json.specs.Data.{string};
ghost use Rattle.serde_json.specs.View.{view};
ghost use Rattle.http_answers.specs.Data.{item_data};

use mail_names::{ApprovalName, ItemName, Key, NoMemory};
use serde_json::Value;
use std::alloc::Global;

/// Octets as a string. Those that are no UTF-8 are answered as want of memory: keys, labels and causes are ASCII.
pub fn text_value(alloc: Global, text: &[u8]) -> Result<Value, NoMemory>
    ensures { IfOk result (λ value. view value ≡ string text.now) }
{
    match std::str::from_utf8(text) {
        Ok(text) => Ok(Value::try_from_str(alloc, text)?),
        Err(_) => Err(NoMemory),
    }
}

/// The name of an item.
pub fn name_value(alloc: Global, name: &ItemName) -> Result<Value, NoMemory>
    ensures { IfOk result (λ value. view value ≡ string (name_text name.now)) }
{
    let text = name.text(alloc)?;
    text_value(alloc, text.as_slice())
}

/// The name of an approval.
pub fn approval_value(alloc: Global, name: &ApprovalName) -> Result<Value, NoMemory>
    ensures { IfOk result (λ value. view value ≡ string (approval_text name.now)) }
{
    let text = name.text(alloc)?;
    text_value(alloc, text.as_slice())
}

/// A string for each key.
pub fn key_values(alloc: Global, keys: &[Key]) -> Result<Vec<Value>, NoMemory>
    ensures { IfOk result (λ values. map view values.items ≡ map string keys.now) }
{
    let mut values = Vec::new(alloc);
    for key in keys {
        let value = text_value(alloc, key.bytes())?;
        values.push(value)?;
    }
    Ok(values)
}

/// A string for each name of an item.
pub fn name_values(alloc: Global, names: &[ItemName]) -> Result<Vec<Value>, NoMemory>
    ensures { IfOk result (λ values. map view values.items ≡ map item_data names.now) }
{
    let mut values = Vec::new(alloc);
    for name in names {
        let value = name_value(alloc, name)?;
        values.push(value)?;
    }
    Ok(values)
}
