// The response to each call of an office.
ghost use Rattle.std.specs.Prelude.{◌≡◌, IfOk};
ghost use Rattle.http_answers.specs.Responses.{queue_response, approvals_response, ended_response, items_response, item_response, epoch_response, turn_response, taken_response, expired_response, already_response, stop_response, org_response, fault_response, decide_response, answered};

use crate::data::{
    already_value, approvals_value, ended_value, epoch_value, expired_value, fault_value,
    items_value, queue_value, stop_value, taken_value, turn_value,
};
use crate::refusal::{Refusal, refusal_response};
use crate::response::{Media, Response, json_response};
use hub_calls::{ApprovalRow, EndRow, HubFault, QueueView, TurnEnd};
use mail_names::{Bytes, ItemName, Items, Key, NoMemory};
use mail_plan::OrgFault;
use moderation::{Decision, Verdict};
use std::alloc::Global;

fn queue_response(alloc: Global, queue: &QueueView) -> Result<Response, NoMemory>
    ensures { IfOk result (λ response. response ≡ queue_response queue.now) }
{
    json_response(alloc, 200, &queue_value(alloc, queue)?)
}

fn approvals_response(alloc: Global, rows: &[ApprovalRow]) -> Result<Response, NoMemory>
    ensures { IfOk result (λ response. response ≡ approvals_response rows.now) }
{
    json_response(alloc, 200, &approvals_value(alloc, rows)?)
}

fn ended_response(alloc: Global, rows: &[EndRow]) -> Result<Response, NoMemory>
    ensures { IfOk result (λ response. response ≡ ended_response rows.now) }
{
    json_response(alloc, 200, &ended_value(alloc, rows)?)
}

fn items_response(alloc: Global, names: &[ItemName]) -> Result<Response, NoMemory>
    ensures { IfOk result (λ response. response ≡ items_response names.now) }
{
    json_response(alloc, 200, &items_value(alloc, names)?)
}

// An item's octets as they are. It takes no memory.
fn item_response(bytes: Bytes) -> Response
    ensures { result ≡ item_response bytes }
{
    Response {
        status: 200,
        media: Media::Message,
        body: bytes,
    }
}

fn epoch_response(alloc: Global, epoch: u32) -> Result<Response, NoMemory>
    ensures { IfOk result (λ response. response ≡ epoch_response epoch) }
{
    json_response(alloc, 200, &epoch_value(alloc, epoch)?)
}

fn turn_response(alloc: Global, end: &TurnEnd) -> Result<Response, NoMemory>
    ensures { IfOk result (λ response. response ≡ turn_response end.now) }
{
    json_response(alloc, 200, &turn_value(alloc, end)?)
}

fn taken_response(alloc: Global) -> Result<Response, NoMemory>
    ensures { IfOk result (λ response. response ≡ taken_response) }
{
    json_response(alloc, 200, &taken_value(alloc)?)
}

fn expired_response(alloc: Global, deadline: u64) -> Result<Response, NoMemory>
    ensures { IfOk result (λ response. response ≡ expired_response deadline) }
{
    json_response(alloc, 410, &expired_value(alloc, deadline)?)
}

// Where an approval was decided before, by this key.
fn already_response(alloc: Global, verdict: Verdict, by: &Option<Key>) -> Result<Response, NoMemory>
    ensures { IfOk result (λ response. response ≡ already_response verdict by.now) }
{
    json_response(alloc, 409, &already_value(alloc, verdict, by)?)
}

// Where an approval was decided before, the key isn't known yet: `already_answer` has it.
fn decide_response(alloc: Global, decision: Decision) -> Result<Response, NoMemory>
    ensures { IfOk result (λ response. response ≡ decide_response decision) }
{
    match decision {
        Decision::Taken => taken_response(alloc),
        Decision::NotModerator => refusal_response(alloc, Refusal::NotModerator),
        Decision::Expired { deadline } => expired_response(alloc, deadline),
        Decision::Already { verdict, .. } => already_response(alloc, verdict, &None),
    }
}

/// The 200 response to a request that stops a serving program.
pub fn stop_response(alloc: Global) -> Result<Response, NoMemory>
    ensures { IfOk result (λ response. response ≡ stop_response) }
{
    json_response(alloc, 200, &stop_value(alloc)?)
}

fn org_response(alloc: Global, fault: OrgFault) -> Result<Response, NoMemory>
    ensures { IfOk result (λ response. response ≡ org_response fault) }
{
    match fault {
        OrgFault::Directory { number, row } => {
            let words = format!(in alloc; "directory fault {number} at {row}")?;
            json_response(alloc, 422, &fault_value(alloc, &words)?)
        }
        OrgFault::Rules { number, rule } => {
            let words = format!(in alloc; "rules fault {number} at {rule}")?;
            json_response(alloc, 422, &fault_value(alloc, &words)?)
        }
        OrgFault::NoMemory => refusal_response(alloc, Refusal::Memory),
    }
}

// The response to a call that was refused.
fn fault_response(alloc: Global, fault: HubFault) -> Result<Response, NoMemory>
    ensures { IfOk result (λ response. response ≡ fault_response fault) }
{
    match fault {
        HubFault::Org { fault } => org_response(alloc, fault),
        HubFault::DiskFault => refusal_response(alloc, Refusal::Disk),
        HubFault::ShelfFault => refusal_response(alloc, Refusal::Shelf),
        HubFault::NoMemory | HubFault::QueueFull { .. } => refusal_response(alloc, Refusal::Memory),
        HubFault::NoSuchApproval | HubFault::NoSuchItem => refusal_response(
            alloc,
            Refusal::NotFound,
        ),
        HubFault::LogFull { .. } => refusal_response(alloc, Refusal::LogFull),
        HubFault::NotALog { .. } => refusal_response(alloc, Refusal::LogDamaged),
        HubFault::EpochsFull { .. } => refusal_response(alloc, Refusal::EpochsFull),
        HubFault::DeskFull { .. } => refusal_response(alloc, Refusal::DeskFull),
    }
}

/// The response to what `queue` answers: the view as JSON, or the refusal.
pub fn queue_answer(
    alloc: Global,
    answer: Result<QueueView, HubFault>,
) -> Result<Response, NoMemory>
    ensures { IfOk result (λ response. response ≡ answered queue_response answer) }
{
    match answer {
        Ok(queue) => queue_response(alloc, &queue),
        Err(fault) => fault_response(alloc, fault),
    }
}

/// The response to what `approvals` answers: the rows as JSON, or the refusal.
pub fn approvals_answer(
    alloc: Global,
    answer: Result<Items<ApprovalRow>, HubFault>,
) -> Result<Response, NoMemory>
    ensures { IfOk result (λ response. response ≡ answered approvals_response answer) }
{
    match answer {
        Ok(rows) => approvals_response(alloc, rows.as_slice()),
        Err(fault) => fault_response(alloc, fault),
    }
}

/// The response to what `ended` answers: the rows as JSON, or the refusal.
pub fn ended_answer(
    alloc: Global,
    answer: Result<Items<EndRow>, HubFault>,
) -> Result<Response, NoMemory>
    ensures { IfOk result (λ response. response ≡ answered ended_response answer) }
{
    match answer {
        Ok(rows) => ended_response(alloc, rows.as_slice()),
        Err(fault) => fault_response(alloc, fault),
    }
}

/// The response to what `list` answers: the names as JSON, or the refusal.
pub fn items_answer(
    alloc: Global,
    answer: Result<Items<ItemName>, HubFault>,
) -> Result<Response, NoMemory>
    ensures { IfOk result (λ response. response ≡ answered items_response answer) }
{
    match answer {
        Ok(names) => items_response(alloc, names.as_slice()),
        Err(fault) => fault_response(alloc, fault),
    }
}

/// The response to what `fetch` answers: the item's octets as `message/rfc822`, which takes no memory, or the refusal.
pub fn item_answer(alloc: Global, answer: Result<Bytes, HubFault>) -> Result<Response, NoMemory>
    ensures { IfOk result (λ response. response ≡ answered item_response answer) }
{
    match answer {
        Ok(bytes) => Ok(item_response(bytes)),
        Err(fault) => fault_response(alloc, fault),
    }
}

/// The response to what `organise` answers: the organisation's number as JSON, or the refusal.
pub fn epoch_answer(alloc: Global, answer: Result<u32, HubFault>) -> Result<Response, NoMemory>
    ensures { IfOk result (λ response. response ≡ answered epoch_response answer) }
{
    match answer {
        Ok(epoch) => epoch_response(alloc, epoch),
        Err(fault) => fault_response(alloc, fault),
    }
}

/// The response to what `turn` answers: its numbers as JSON, or the refusal.
pub fn turn_answer(alloc: Global, answer: Result<TurnEnd, HubFault>) -> Result<Response, NoMemory>
    ensures { IfOk result (λ response. response ≡ answered turn_response answer) }
{
    match answer {
        Ok(end) => turn_response(alloc, &end),
        Err(fault) => fault_response(alloc, fault),
    }
}

/// The response to what `decide` answers: 200, 403 or 410, or the refusal.
///
/// Where the approval was decided before, it is the 409 with no key; `already_answer` has the one with the key.
pub fn decide_answer(
    alloc: Global,
    answer: Result<Decision, HubFault>,
) -> Result<Response, NoMemory>
    ensures { IfOk result (λ response. response ≡ answered decide_response answer) }
{
    match answer {
        Ok(decision) => decide_response(alloc, decision),
        Err(fault) => fault_response(alloc, fault),
    }
}

/// The response where an approval was decided before, with this verdict, to what `moderator` answers: the 409 with the key,
/// or with the empty text where there is none, or the refusal of that call.
pub fn already_answer(
    alloc: Global,
    verdict: Verdict,
    answer: Result<Option<Key>, HubFault>,
) -> Result<Response, NoMemory>
    ensures { IfOk result (λ response. response ≡ answered (already_response verdict) answer) }
{
    match answer {
        Ok(by) => already_response(alloc, verdict, &by),
        Err(fault) => fault_response(alloc, fault),
    }
}
