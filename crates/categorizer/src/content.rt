// What a release has.
ghost use Rattle.std.specs.Prelude.{◌≡◌, ◌<◌, if◌then◌else◌, Some, None, [], IfOk};
ghost use Rattle.group_expand.specs.Expansion.{expansion};
ghost use Rattle.group_expand.specs.Routes.{too_many};
ghost use Rattle.categorizer.specs.Plan.{plan, plan_of, judged, news};
ghost use Rattle.categorizer.specs.Releasing.{case_of, unknown_now, content_of, too_many_content, content};

use crate::HubOrg;
use crate::copies::copied_sends;
use crate::holds::holds_of;
use crate::losses::losses_of;
use crate::news::{difference, no_plan};
use crate::parts::{Content, Loss, Plan};
use crate::planning::plan_for;
use group_expand::{ExpandFault, Expansion, expand};
use mail_message::Message;
use mail_names::{Gate, Items, Key, NoMemory, Steps};
use mail_plan::ReleaseInput;
use std::alloc::Global;
use std::marker::Brand;
use std::sync::ledger::{Blank, Ledger};

fn expanded<L: Ledger>(
    alloc: Global,
    org: &HubOrg,
    input: &ReleaseInput,
    opened: &[Gate],
    blank: Blank,
) -> Result<Option<Expansion>, NoMemory>
    requires name { blank.name ≡ L.name }
    requires parts { blank.parts ≡ L.parts }
    requires some { 0 < blank.parts }
    ensures { IfOk result (λ found. found ≡
        if too_many org.now.register input.now.submission.recipients then None
        else Some (expansion org.now.register input.now.submission.recipients input.now.submission.reverse opened.now)) }
{
    let (book, share) = blank.open::<L>();
    let mut steps = Steps::of(book, share);
    let submission = input.submission();
    let roots = submission.recipients();
    let sender = submission.reverse();
    match expand(alloc, org.directory(), roots, sender, opened, &mut steps) {
        Ok(found) => Ok(Some(found)),
        Err(ExpandFault::TooManyLeaves) => Ok(None),
        Err(ExpandFault::NoMemory) => Err(NoMemory),
    }
}

// What the roots expand to with these gates opened; None where there are too many leaves.
fn expansion_of(
    alloc: Global,
    org: &HubOrg,
    input: &ReleaseInput,
    opened: &[Gate],
) -> Result<Option<Expansion>, NoMemory>
    ensures { IfOk result (λ found. found ≡
        if too_many org.now.register input.now.submission.recipients then None
        else Some (expansion org.now.register input.now.submission.recipients input.now.submission.reverse opened.now)) }
{
    expanded::<Brand>(alloc, org, input, opened, Blank::new(1))
}

// The plan with these gates opened. Where there are too many leaves, it finds no memory.
fn plan_before(
    alloc: Global,
    org: &HubOrg,
    input: &ReleaseInput,
    message: &Message,
    opened: &[Gate],
) -> Result<Plan, NoMemory>
    ensures { IfOk result (λ made. made ≡ plan (case_of org.now input.now message.now) opened.now) }
{
    match expansion_of(alloc, org, input, opened)? {
        None => Err(NoMemory),
        Some(found) => plan_for(alloc, org, input, message, opened, &found),
    }
}

// What is new, where this is planned now.
fn news(
    alloc: Global,
    org: &HubOrg,
    input: &ReleaseInput,
    message: &Message,
    now: &Plan,
) -> Result<Plan, NoMemory>
    requires { now.now ≡ plan (case_of org.now input.now message.now) input.now.opened }
    ensures { IfOk result (λ new. new ≡ news (case_of org.now input.now message.now) input.now.before input.now.opened) }
{
    match input.before() {
        None => difference(alloc, &[], &no_plan(alloc), now),
        Some(opened) => {
            let before = plan_before(alloc, org, input, message, opened.as_slice())?;
            difference(alloc, opened.as_slice(), &before, now)
        }
    }
}

fn content_with(
    alloc: Global,
    org: &HubOrg,
    new: &Plan,
    unknown: &[Key],
) -> Result<Content, NoMemory>
    ensures { IfOk result (λ made. made ≡ content_of org.now.register org.now.book.rules new.now unknown.now) }
{
    let rules = org.book().rules();
    let holds = holds_of(alloc, org.directory(), rules, new.met.as_slice())?;
    let losses = losses_of(alloc, rules, new.refused.as_slice(), unknown)?;
    Ok(Content {
        sent: copied_sends(alloc, new.sent.as_slice())?,
        holds,
        losses,
    })
}

fn too_many_content(alloc: Global, before: &Option<Items<Gate>>) -> Result<Content, NoMemory>
    ensures { IfOk result (λ made. made ≡ too_many_content before.now) }
{
    let mut losses = Items::new(alloc);
    if before.is_none() {
        losses.push(Loss::TooMany)?;
    }
    Ok(Content {
        sent: Items::new(alloc),
        holds: Items::new(alloc),
        losses,
    })
}

// What a release has where there aren't too many leaves.
fn few_content(
    alloc: Global,
    org: &HubOrg,
    input: &ReleaseInput,
    message: &Message,
    found: &Expansion,
) -> Result<Content, NoMemory>
    requires { found.now ≡ expansion org.now.register input.now.submission.recipients input.now.submission.reverse input.now.opened }
    ensures { IfOk result (λ made. made ≡ content_of org.now.register org.now.book.rules
        (news (case_of org.now input.now message.now) input.now.before input.now.opened)
        (unknown_now (case_of org.now input.now message.now) input.now.before input.now.opened)) }
{
    let now = plan_for(alloc, org, input, message, input.opened(), found)?;
    let new = news(alloc, org, input, message, &now)?;
    match input.before() {
        None => content_with(alloc, org, &new, found.unknown.as_slice()),
        Some(_) => content_with(alloc, org, &new, &[]),
    }
}

/// What a release has: what the plan with the gates opened has and the one before has not.
pub fn content_of(
    alloc: Global,
    org: &HubOrg,
    input: &ReleaseInput,
    message: &Message,
) -> Result<Content, NoMemory>
    ensures { IfOk result (λ made. made ≡ content (case_of org.now input.now message.now) input.now.before input.now.opened) }
{
    match expansion_of(alloc, org, input, input.opened())? {
        None => too_many_content(alloc, input.before()),
        Some(found) => few_content(alloc, org, input, message, &found),
    }
}
