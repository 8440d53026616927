// The sends of judged leaves.
ghost use Rattle.std.specs.Prelude.{◌≡◌, IfOk, OnOk, fold, map};
ghost use Rattle.categorizer.specs.Plan.{is_target, with_send, route_why, kept_at, redirected, copy_send, beside_of, kept, beside, sends};

use crate::parts::{Judged, Send};
use group_expand::Leaf;
use journal_report::Why;
use mail_names::{Items, Key, NoMemory, Step, copied_steps, has_forward, keys_of_steps};
use rule_engine::{End, MadeCopy, RuleOutcome};
use std::alloc::Global;

/// Whether the target is one of these.
pub fn is_target(sends: &[Send], target: &Key) -> bool
    ensures { result ≡ is_target sends.now target.now }
{
    sends.iter().any(|send| *target == send.target)
}

// Adds a send, unless its target has one.
fn add_send(sends: &mut Items<Send>, send: Send) -> Result<(), NoMemory>
    ensures { OnOk result (sends.new ≡ with_send sends.old send) }
{
    if !is_target(sends.as_slice(), &send.target) {
        sends.push(send)?;
    }
    Ok(())
}

fn route_why(alloc: Global, route: &[Step]) -> Result<Why, NoMemory>
    ensures { IfOk result (λ why. why ≡ route_why route.now) }
{
    if route.is_empty() {
        return Ok(Why::Direct);
    }
    if has_forward(route) {
        let steps = copied_steps(alloc, route)?;
        return Ok(Why::Through { steps });
    }
    let groups = keys_of_steps(alloc, route)?;
    Ok(Why::Via { groups })
}

// Adds the send of a leaf that is kept.
fn add_kept(alloc: Global, sends: &mut Items<Send>, leaf: &Leaf, end: &End) -> Result<(), NoMemory>
    ensures { OnOk result (sends.new ≡ fold with_send sends.old (kept_at leaf.now end.now)) }
{
    if let End::Keep { text } = end {
        let send = Send {
            target: leaf.key.copy(alloc)?,
            why: route_why(alloc, leaf.route.as_slice())?,
            text: text.share()?,
        };
        add_send(sends, send)?;
    }
    Ok(())
}

fn add_copies(alloc: Global, sends: &mut Items<Send>, copies: &[MadeCopy]) -> Result<(), NoMemory>
    ensures { OnOk result (sends.new ≡ fold with_send sends.old (map copy_send copies.now)) }
{
    for copied in copies {
        let send = Send {
            target: copied.target.copy(alloc)?,
            why: Why::Copied { rule: copied.rule },
            text: copied.text.share()?,
        };
        add_send(sends, send)?;
    }
    Ok(())
}

fn add_redirect(alloc: Global, sends: &mut Items<Send>, end: &End) -> Result<(), NoMemory>
    ensures { OnOk result (sends.new ≡ fold with_send sends.old (redirected end.now)) }
{
    if let End::Redirect { target, text, rule } = end {
        let send = Send {
            target: target.copy(alloc)?,
            why: Why::Redirected { rule: *rule },
            text: text.share()?,
        };
        add_send(sends, send)?;
    }
    Ok(())
}

// Adds the copies made for a leaf, and then its redirect.
fn add_beside(alloc: Global, sends: &mut Items<Send>, outcome: &RuleOutcome) -> Result<(), NoMemory>
    ensures { OnOk result (sends.new ≡ fold with_send sends.old (beside_of outcome.now)) }
{
    add_copies(alloc, sends, outcome.copies.as_slice())?;
    add_redirect(alloc, sends, &outcome.end)
}

fn add_all_kept(alloc: Global, sent: &mut Items<Send>, all: &[Judged]) -> Result<(), NoMemory>
    ensures { OnOk result (sent.new ≡ fold with_send sent.old (kept all.now)) }
{
    for one in all {
        add_kept(alloc, sent, &one.leaf, &one.outcome.end)?;
    }
    Ok(())
}

fn add_all_beside(alloc: Global, sent: &mut Items<Send>, all: &[Judged]) -> Result<(), NoMemory>
    ensures { OnOk result (sent.new ≡ fold with_send sent.old (beside all.now)) }
{
    for one in all {
        add_beside(alloc, sent, &one.outcome)?;
    }
    Ok(())
}

/// What is sent: the kept leaves, and beside them the copies and the redirect of each leaf. Of each target the first
/// counts alone.
pub fn all_sends(alloc: Global, all: &[Judged]) -> Result<Items<Send>, NoMemory>
    ensures { IfOk result (λ sent. sent ≡ sends all.now) }
{
    let mut sent = Items::new(alloc);
    add_all_kept(alloc, &mut sent, all)?;
    add_all_beside(alloc, &mut sent, all)?;
    Ok(sent)
}
