// The plan of a submission, where some gates are opened.
ghost use Rattle.std.specs.Prelude.{◌≡◌, ◌≤◌, ◌++◌, ◌∷◌, [], List, true, length, IfOk, OnOk, option_copied};
ghost use Rattle.std.specs.List.{list_all};
ghost use Rattle.rule_terms.specs.Forms.{is_rule};
ghost use Rattle.rule_engine.specs.declared.recipient.RuleOutcome.{RuleOutcome};
ghost use Rattle.categorizer.specs.Plan.{is_held_by, holds_leaf, held_rules, closed_gates, rejected_at, rejections, judged, plan_of};
ghost use Rattle.categorizer.specs.Releasing.{case_of};
ghost use Rattle.categorizer.specs.Plan.{judged_in};

use crate::HubOrg;
use crate::copies::copied_leaf;
use crate::parts::{Judged, Plan, Rejection};
use crate::sends::all_sends;
use group_expand::{Closed, Expansion, Leaf};
use mail_message::Message;
use mail_names::{Bytes, Gate, Items, Key, NoMemory};
use mail_plan::ReleaseInput;
use org_directory::Directory;
use rule_engine::{End, RuleOutcome, outcomes};
use rule_terms::Rule;
use std::alloc::Global;
use std::collections::VecDeque;

// Adds a leaf with the next outcome, where there is one.
fn add_judged(
    alloc: Global,
    leaf: &Leaf,
    left: &mut VecDeque<RuleOutcome>,
    all: &mut Items<Judged>,
) -> Result<(), NoMemory>
    ensures { OnOk result ((outcome : RuleOutcome) (others : List RuleOutcome) → left.old.items ≡ outcome ∷ others →
        (left.new.items ≡ others) × (all.new ≡ all.old ++ record { leaf = leaf.now; outcome = outcome } ∷ [])) }
{
    if let Some(outcome) = left.pop_front() {
        let leaf = copied_leaf(alloc, leaf)?;
        all.push(Judged { leaf, outcome })?;
    }
    Ok(())
}

// What the rules make of each leaf.
fn judged(
    alloc: Global,
    rules: &[Rule],
    directory: &Directory,
    sender: Option<&Key>,
    moment: u64,
    opened: &[Gate],
    message: &Message,
    leaves: &[Leaf],
) -> Result<Items<Judged>, NoMemory>
    requires few { length rules.now ≤ 100 }
    requires form { list_all is_rule rules.now ≡ true }
    ensures { IfOk result (λ all. all ≡
        judged rules.now (record { directory = directory.now; sender = option_copied sender.entry; moment = moment }) message.now opened.now leaves.now) }
{
    let found = outcomes(
        alloc, rules, directory, sender, moment, opened, message, leaves,
    )?;
    let mut left = VecDeque::from_vec(found.into_vec());
    let mut all = Items::new(alloc);
    for leaf in leaves {
        add_judged(alloc, leaf, &mut left, &mut all)?;
    }
    Ok(all)
}

fn closed_gates(alloc: Global, closed: &[Closed]) -> Result<Items<Gate>, NoMemory>
    ensures { IfOk result (λ gates. gates ≡ closed_gates closed.now) }
{
    let mut gates = Items::new(alloc);
    for object in closed {
        gates.push(Gate::Object {
            key: object.key.copy(alloc)?,
        })?;
    }
    Ok(gates)
}

fn is_held_by(rule: u32, end: &End) -> bool
    ensures { result ≡ is_held_by rule end.now }
{
    match end {
        End::Held { rule: place } => *place == rule,
        _ => false,
    }
}

fn holds_leaf(rule: u32, all: &[Judged]) -> bool
    ensures { result ≡ holds_leaf rule all.now }
{
    all.iter().any(|one| is_held_by(rule, &one.outcome.end))
}

// Adds the gates of the rules that hold a leaf, in rule order.
fn add_held_rules(all: &[Judged], rules: &[Rule], gates: &mut Items<Gate>) -> Result<(), NoMemory>
    requires { length rules.now ≤ 100 }
    ensures { OnOk result (gates.new ≡ gates.old ++ held_rules all.now 0 rules.now) }
{
    for (i, _rule) in rules.iter().enumerate() {
        let place = i as u32;
        if holds_leaf(place, all) {
            gates.push(Gate::Rule { place })?;
        }
    }
    Ok(())
}

fn add_rejected(
    alloc: Global,
    key: &Key,
    end: &End,
    rejections: &mut Items<Rejection>,
) -> Result<(), NoMemory>
    ensures { OnOk result (rejections.new ≡ rejections.old ++ rejected_at key.now end.now) }
{
    if let End::Reject { rule, code, words } = end {
        let words = Bytes::of(alloc, words.as_slice())?;
        rejections.push(Rejection {
            key: key.copy(alloc)?,
            rule: *rule,
            code: *code,
            words,
        })?;
    }
    Ok(())
}

fn rejections(alloc: Global, all: &[Judged]) -> Result<Items<Rejection>, NoMemory>
    ensures { IfOk result (λ refused. refused ≡ rejections all.now) }
{
    let mut refused = Items::new(alloc);
    for one in all {
        add_rejected(alloc, &one.leaf.key, &one.outcome.end, &mut refused)?;
    }
    Ok(refused)
}

fn plan_of(
    alloc: Global,
    rules: &[Rule],
    closed: &[Closed],
    all: &[Judged],
) -> Result<Plan, NoMemory>
    requires { length rules.now ≤ 100 }
    ensures { IfOk result (λ made. made ≡ plan_of rules.now closed.now all.now) }
{
    let sent = all_sends(alloc, all)?;
    let refused = rejections(alloc, all)?;
    let mut met = closed_gates(alloc, closed)?;
    add_held_rules(all, rules, &mut met)?;
    Ok(Plan { sent, refused, met })
}

/// The plan for what the roots expand to with these gates opened.
pub fn plan_for(
    alloc: Global,
    org: &HubOrg,
    input: &ReleaseInput,
    message: &Message,
    opened: &[Gate],
    found: &Expansion,
) -> Result<Plan, NoMemory>
    ensures { IfOk result (λ made. made ≡ plan_of org.now.book.rules found.now.closed
        (judged org.now.book.rules (case_of org.now input.now message.now).setting message.now opened.now found.now.leaves)) }
{
    let rules = org.book().rules();
    let all = judged(
        alloc,
        rules,
        org.directory(),
        input.submission().reverse(),
        input.accepted_at(),
        opened,
        message,
        found.leaves.as_slice(),
    )?;
    plan_of(alloc, rules, found.closed.as_slice(), all.as_slice())
}
