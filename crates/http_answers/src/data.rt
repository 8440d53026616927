// Whole bodies as JSON.
ghost use Rattle.std.specs.Prelude.{◌≡◌, ◌++◌, codes, decimal, IfOk};
ghost use Rattle.serde_json.specs.Data.{string};
ghost use Rattle.serde_json.specs.View.{view};
ghost use Rattle.http_answers.specs.Data.{queue_data, approvals_data, ended_data, items_data, epoch_data, turn_data, already_data, expired_data, fault_data, taken_data, stop_data, verdict_word, key_text};

use crate::rows::{approval_values, end_values, task_values, waiting_values};
use crate::text::{name_values, text_value};
use hub_calls::{ApprovalRow, EndRow, QueueView, TurnEnd};
use mail_names::{ItemName, Key, NoMemory};
use moderation::Verdict;
use serde_json::{Map, Value, json};
use std::alloc::Global;

/// Why a request isn't done.
pub fn fault_value(alloc: Global, words: &str) -> Result<Value, NoMemory>
    ensures { IfOk result (λ value. view value ≡ fault_data words.now) }
{
    Ok(json!(in alloc; {"fault": words})?)
}

/// What waits, and how much is live.
pub fn queue_value(alloc: Global, queue: &QueueView) -> Result<Value, NoMemory>
    ensures { IfOk result (λ value. view value ≡ queue_data queue.now) }
{
    let tasks = Value::Array(task_values(alloc, queue.tasks.as_slice())?);
    let waiting = Value::Array(waiting_values(alloc, queue.waiting.as_slice())?);
    let bytes = queue.bytes;
    let live = queue.live;
    let moment = queue.moment;
    let mut map = Map::new(alloc);
    serde_json::put(&mut map, alloc, "bytes", Value::from(bytes))?;
    serde_json::put(&mut map, alloc, "live", Value::from(live))?;
    serde_json::put(&mut map, alloc, "moment", Value::from(moment))?;
    serde_json::put(&mut map, alloc, "tasks", tasks)?;
    serde_json::put(&mut map, alloc, "waiting", waiting)?;
    Ok(Value::Object(map))
}

/// The approvals that pend.
pub fn approvals_value(alloc: Global, rows: &[ApprovalRow]) -> Result<Value, NoMemory>
    ensures { IfOk result (λ value. view value ≡ approvals_data rows.now) }
{
    let approvals = Value::Array(approval_values(alloc, rows)?);
    Ok(json!(in alloc; {"approvals": approvals})?)
}

/// What ended.
pub fn ended_value(alloc: Global, rows: &[EndRow]) -> Result<Value, NoMemory>
    ensures { IfOk result (λ value. view value ≡ ended_data rows.now) }
{
    let ended = Value::Array(end_values(alloc, rows)?);
    Ok(json!(in alloc; {"ended": ended})?)
}

/// The items of a folder.
pub fn items_value(alloc: Global, names: &[ItemName]) -> Result<Value, NoMemory>
    ensures { IfOk result (λ value. view value ≡ items_data names.now) }
{
    let items = Value::Array(name_values(alloc, names)?);
    Ok(json!(in alloc; {"items": items})?)
}

/// The number of an organisation.
pub fn epoch_value(alloc: Global, epoch: u32) -> Result<Value, NoMemory>
    ensures { IfOk result (λ value. view value ≡ epoch_data epoch) }
{
    Ok(json!(in alloc; {"epoch": epoch})?)
}

/// What a turn did.
pub fn turn_value(alloc: Global, end: &TurnEnd) -> Result<Value, NoMemory>
    ensures { IfOk result (λ value. view value ≡ turn_data end.now) }
{
    let delivered = end.delivered;
    let ended = end.ended;
    let moment = end.moment;
    let waiting = end.waiting;
    Ok(
        json!(in alloc; {"delivered": delivered, "ended": ended, "moment": moment, "waiting": waiting})?,
    )
}

fn verdict_word(verdict: Verdict) -> &'static str
    ensures { result.now ≡ verdict_word verdict }
{
    match verdict {
        Verdict::Approve => "approve",
        Verdict::Reject => "reject",
    }
}

fn key_value(alloc: Global, key: &Option<Key>) -> Result<Value, NoMemory>
    ensures { IfOk result (λ value. view value ≡ string (key_text key.now)) }
{
    match key {
        None => text_value(alloc, b""),
        Some(key) => text_value(alloc, key.bytes()),
    }
}

/// Who decided an approval before, and what.
pub fn already_value(alloc: Global, verdict: Verdict, by: &Option<Key>) -> Result<Value, NoMemory>
    ensures { IfOk result (λ value. view value ≡ already_data by.now verdict) }
{
    let by = key_value(alloc, by)?;
    let verdict = verdict_word(verdict);
    Ok(json!(in alloc; {"by": by, "fault": "already decided", "verdict": verdict})?)
}

/// From when on an approval may not be decided.
pub fn expired_value(alloc: Global, deadline: u64) -> Result<Value, NoMemory>
    ensures { IfOk result (λ value. view value ≡ expired_data deadline) }
{
    Ok(json!(in alloc; {"deadline": deadline, "fault": "expired"})?)
}

/// A decision counts.
pub fn taken_value(alloc: Global) -> Result<Value, NoMemory>
    ensures { IfOk result (λ value. view value ≡ taken_data) }
{
    Ok(json!(in alloc; {"decision": "taken"})?)
}

/// A serving program stops.
pub fn stop_value(alloc: Global) -> Result<Value, NoMemory>
    ensures { IfOk result (λ value. view value ≡ stop_data) }
{
    Ok(json!(in alloc; {"stop": true})?)
}
