// What a plan has and the one before it has not.
ghost use Rattle.std.specs.Prelude.{◌≡◌, [], not, IfOk, filter};
ghost use Rattle.mail_plan.specs.Planning.{is_gate_among};
ghost use Rattle.categorizer.specs.declared.parts.Rejection.{Rejection};
ghost use Rattle.categorizer.specs.declared.parts.Send.{Send};
ghost use Rattle.categorizer.specs.Plan.{is_target, is_rejected, is_new_gate, difference};

use crate::copies::{copied_rejection, copied_send};
use crate::parts::{Plan, Rejection, Send};
use crate::sends::is_target;
use mail_names::{Gate, Items, Key, NoMemory, copied_gate, same_gate};
use std::alloc::Global;

fn is_among(gate: &Gate, gates: &[Gate]) -> bool
    ensures { result ≡ is_gate_among gate.now gates.now }
{
    gates.iter().any(|other| same_gate(gate, other))
}

fn is_rejected(rejections: &[Rejection], key: &Key) -> bool
    ensures { result ≡ is_rejected rejections.now key.now }
{
    rejections.iter().any(|rejection| *key == rejection.key)
}

fn new_sends(alloc: Global, before: &[Send], now: &[Send]) -> Result<Items<Send>, NoMemory>
    ensures { IfOk result (λ new. new ≡ filter (λ (send : Send). not (is_target before.now send.target)) now.now) }
{
    let mut new = Items::new(alloc);
    for send in now {
        if !is_target(before, &send.target) {
            new.push(copied_send(alloc, send)?)?;
        }
    }
    Ok(new)
}

fn new_rejections(
    alloc: Global,
    before: &[Rejection],
    now: &[Rejection],
) -> Result<Items<Rejection>, NoMemory>
    ensures { IfOk result (λ new. new ≡ filter (λ (rejection : Rejection). not (is_rejected before.now rejection.key)) now.now) }
{
    let mut new = Items::new(alloc);
    for rejection in now {
        if !is_rejected(before, &rejection.key) {
            new.push(copied_rejection(alloc, rejection)?)?;
        }
    }
    Ok(new)
}

fn is_new_gate(opened_before: &[Gate], before: &Plan, gate: &Gate) -> bool
    ensures { result ≡ is_new_gate opened_before.now before.now gate.now }
{
    !is_among(gate, before.met.as_slice()) && !is_among(gate, opened_before)
}

fn new_gates(
    alloc: Global,
    opened_before: &[Gate],
    before: &Plan,
    now: &[Gate],
) -> Result<Items<Gate>, NoMemory>
    ensures { IfOk result (λ new. new ≡ filter (is_new_gate opened_before.now before.now) now.now) }
{
    let mut new = Items::new(alloc);
    for gate in now {
        if is_new_gate(opened_before, before, gate) {
            new.push(copied_gate(alloc, gate)?)?;
        }
    }
    Ok(new)
}

/// What is new in a plan.
pub fn difference(
    alloc: Global,
    opened_before: &[Gate],
    before: &Plan,
    now: &Plan,
) -> Result<Plan, NoMemory>
    ensures { IfOk result (λ new. new ≡ difference opened_before.now before.now now.now) }
{
    Ok(Plan {
        sent: new_sends(alloc, before.sent.as_slice(), now.sent.as_slice())?,
        refused: new_rejections(alloc, before.refused.as_slice(), now.refused.as_slice())?,
        met: new_gates(alloc, opened_before, before, now.met.as_slice())?,
    })
}

/// The plan that has nothing.
pub fn no_plan(alloc: Global) -> Plan
    ensures { result ≡ record { sent = []; refused = []; met = [] } }
{
    Plan {
        sent: Items::new(alloc),
        refused: Items::new(alloc),
        met: Items::new(alloc),
    }
}
