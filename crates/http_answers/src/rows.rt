// Rows as JSON.
ghost use Rattle.std.specs.Prelude.{◌≡◌, ◌≤◌, length, IfOk, map, drop};
ghost use Rattle.journal_report.specs.Why.{why_text};
ghost use Rattle.serde_json.specs.Data.{string};
ghost use Rattle.serde_json.specs.View.{view};
ghost use Rattle.http_answers.specs.Data.{task_data, kind_word, waiting_data, sender_text, approval_data, end_data};

use crate::text::{approval_value, key_values, name_value, text_value};
use hub_calls::{ApprovalRow, EndRow, TaskName, WaitingRow};
use journal_report::Why;
use mail_names::{Key, NoMemory};
use mail_plan::ItemKind;
use serde_json::{Map, Value, json};
use std::alloc::Global;

fn task_value(alloc: Global, task: &TaskName) -> Result<Value, NoMemory>
    ensures { IfOk result (λ value. view value ≡ task_data task.now) }
{
    let release = task.release;
    let submission = task.submission;
    Ok(json!(in alloc; {"release": release, "submission": submission})?)
}

/// A value for each release that isn't categorised.
pub fn task_values(alloc: Global, tasks: &[TaskName]) -> Result<Vec<Value>, NoMemory>
    ensures { IfOk result (λ values. map view values.items ≡ map task_data tasks.now) }
{
    let mut values = Vec::new(alloc);
    for task in tasks {
        let value = task_value(alloc, task)?;
        values.push(value)?;
    }
    Ok(values)
}

fn kind_word(kind: ItemKind) -> &'static str
    ensures { result.now ≡ kind_word kind }
{
    match kind {
        ItemKind::Version => "version",
        ItemKind::Report => "report",
        ItemKind::Request => "request",
        ItemKind::Notice => "notice",
    }
}

// Why a message goes, without the space in front.
fn why_value(alloc: Global, why: &Why) -> Result<Value, NoMemory>
    ensures { IfOk result (λ value. view value ≡ string (drop 1 (why_text why.now))) }
{
    let text = why.text(alloc)?;
    match text.as_slice() {
        [] => text_value(alloc, b""),
        [_, rest @ ..] => text_value(alloc, rest),
    }
}

fn waiting_value(alloc: Global, row: &WaitingRow) -> Result<Value, NoMemory>
    ensures { IfOk result (λ value. view value ≡ waiting_data row.now) }
{
    let folder = text_value(alloc, row.folder.bytes())?;
    let kind = Value::try_from_str(alloc, kind_word(row.kind))?;
    let name = name_value(alloc, &row.name)?;
    let why = why_value(alloc, &row.why)?;
    let mut map = Map::new(alloc);
    serde_json::put(&mut map, alloc, "folder", folder)?;
    serde_json::put(&mut map, alloc, "kind", kind)?;
    serde_json::put(&mut map, alloc, "name", name)?;
    serde_json::put(&mut map, alloc, "why", why)?;
    Ok(Value::Object(map))
}

/// A value for each item that waits.
pub fn waiting_values(alloc: Global, rows: &[WaitingRow]) -> Result<Vec<Value>, NoMemory>
    ensures { IfOk result (λ values. map view values.items ≡ map waiting_data rows.now) }
{
    let mut values = Vec::new(alloc);
    for row in rows {
        let value = waiting_value(alloc, row)?;
        values.push(value)?;
    }
    Ok(values)
}

fn sender_value(alloc: Global, sender: &Option<Key>) -> Result<Value, NoMemory>
    ensures { IfOk result (λ value. view value ≡ string (sender_text sender.now)) }
{
    match sender {
        None => text_value(alloc, b"<>"),
        Some(key) => text_value(alloc, key.bytes()),
    }
}

fn approval_row_value(alloc: Global, row: &ApprovalRow) -> Result<Value, NoMemory>
    ensures { IfOk result (λ value. view value ≡ approval_data row.now) }
{
    let deadline = row.deadline;
    let gate = text_value(alloc, row.label.as_slice())?;
    let moderators = Value::Array(key_values(alloc, row.moderators.as_slice())?);
    let name = approval_value(alloc, &row.name)?;
    let sender = sender_value(alloc, &row.sender)?;
    let mut map = Map::new(alloc);
    serde_json::put(&mut map, alloc, "deadline", Value::from(deadline))?;
    serde_json::put(&mut map, alloc, "gate", gate)?;
    serde_json::put(&mut map, alloc, "moderators", moderators)?;
    serde_json::put(&mut map, alloc, "name", name)?;
    serde_json::put(&mut map, alloc, "sender", sender)?;
    Ok(Value::Object(map))
}

/// A value for each approval that pends.
pub fn approval_values(alloc: Global, rows: &[ApprovalRow]) -> Result<Vec<Value>, NoMemory>
    ensures { IfOk result (λ values. map view values.items ≡ map approval_data rows.now) }
{
    let mut values = Vec::new(alloc);
    for row in rows {
        let value = approval_row_value(alloc, row)?;
        values.push(value)?;
    }
    Ok(values)
}

fn end_value(alloc: Global, row: &EndRow) -> Result<Value, NoMemory>
    ensures { IfOk result (λ value. view value ≡ end_data row.now) }
{
    let cause = text_value(alloc, row.cause.as_slice())?;
    let name = text_value(alloc, row.name.as_slice())?;
    Ok(json!(in alloc; {"cause": cause, "name": name})?)
}

/// A value for each end.
pub fn end_values(alloc: Global, rows: &[EndRow]) -> Result<Vec<Value>, NoMemory>
    ensures { IfOk result (λ values. map view values.items ≡ map end_data rows.now) }
{
    let mut values = Vec::new(alloc);
    for row in rows {
        let value = end_value(alloc, row)?;
        values.push(value)?;
    }
    Ok(values)
}
