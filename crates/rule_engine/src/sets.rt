// The fold of the rules for sets of recipients. A set shares one message, and is split where a rule applies to some of it.
ghost use Rattle.std.specs.Prelude.{◌≡◌, ◌+◌, ◌≤◌, ◌++◌, ◌∷◌, Bool, List, ℕ, true, length, map, option_copied, IfOk, OnOk};
ghost use Rattle.std.specs.List.{list_all};
ghost use Rattle.group_expand.specs.declared.outcome.Leaf.{Leaf};
ghost use Rattle.rule_terms.specs.Forms.{is_rule};
ghost use Rattle.rule_engine.specs.Fate.{stage, and_then, after_actions, after_stop, outcome_at};
ghost use Rattle.rule_engine.specs.Run.{outcomes};
ghost use Rattle.rule_engine.specs.Sets.{marks_of, chosen_of, others_of, merged, set_outcomes};

use crate::recipient::{End, Progress, RuleOutcome, do_applied, text_now};
use crate::sharing::shared_progress;
use group_expand::Leaf;
use mail_message::Message;
use mail_names::{Gate, Items, Key, NoMemory};
use org_directory::Directory;
use rule_match::applies;
use rule_terms::Rule;
use std::alloc::Global;
use std::collections::VecDeque;

// A set, split by a rule.
#[derive(Drop)]
struct Halves {
    // For each recipient of the set whether the rule applies.
    marks: Items<bool>,
    // Those to which it applies.
    chosen: Items<Key>,
    others: Items<Key>,
}

fn split(
    alloc: Global,
    rule: &Rule,
    directory: &Directory,
    sender: Option<&Key>,
    moment: u64,
    message: &Message,
    set: Items<Key>,
) -> Result<Halves, NoMemory>
    requires { is_rule rule.now ≡ true }
    ensures marks { IfOk result (λ split. split.marks ≡
        marks_of (record { directory = directory.now; sender = option_copied sender.entry; moment = moment }) message.now rule.now set) }
    ensures chosen { IfOk result (λ split. split.chosen ≡
        chosen_of (record { directory = directory.now; sender = option_copied sender.entry; moment = moment }) message.now rule.now set) }
    ensures others { IfOk result (λ split. split.others ≡
        others_of (record { directory = directory.now; sender = option_copied sender.entry; moment = moment }) message.now rule.now set) }
{
    let mut marks = Items::new(alloc);
    let mut chosen = Items::new(alloc);
    let mut others = Items::new(alloc);
    for key in set.into_vec() {
        let mark = applies(alloc, rule, directory, sender, &key, message, moment)?;
        marks.push(mark)?;
        if mark {
            chosen.push(key)?;
        } else {
            others.push(key)?;
        }
    }
    Ok(Halves {
        marks,
        chosen,
        others,
    })
}

// Adds the next outcome of one half.
fn add_next(
    mark: bool,
    firsts: &mut VecDeque<RuleOutcome>,
    seconds: &mut VecDeque<RuleOutcome>,
    all: &mut Items<RuleOutcome>,
) -> Result<(), NoMemory>
    ensures { OnOk result ((marks : List Bool) →
        all.new ++ merged marks firsts.new.items seconds.new.items ≡ all.old ++ merged (mark ∷ marks) firsts.old.items seconds.old.items) }
{
    if mark {
        if let Some(outcome) = firsts.pop_front() {
            all.push(outcome)?;
        }
        return Ok(());
    }
    if let Some(outcome) = seconds.pop_front() {
        all.push(outcome)?;
    }
    Ok(())
}

// Puts the outcomes of the two halves of a set in the order of its recipients.
fn merged(
    alloc: Global,
    marks: &[bool],
    firsts: Items<RuleOutcome>,
    seconds: Items<RuleOutcome>,
) -> Result<Items<RuleOutcome>, NoMemory>
    ensures { IfOk result (λ all. all ≡ merged marks.now firsts seconds) }
{
    let mut firsts = VecDeque::from_vec(firsts.into_vec());
    let mut seconds = VecDeque::from_vec(seconds.into_vec());
    let mut all = Items::new(alloc);
    for mark in marks {
        add_next(*mark, &mut firsts, &mut seconds, &mut all)?;
    }
    Ok(all)
}

// The same outcome for each recipient of a set.
fn for_each(
    alloc: Global,
    outcome: &RuleOutcome,
    set: &[Key],
) -> Result<Items<RuleOutcome>, NoMemory>
    ensures { IfOk result (λ all. all ≡ map (λ (recipient : List ℕ). outcome.now) set.now) }
{
    let mut all = Items::new(alloc);
    for _recipient in set {
        all.push(outcome.share(alloc)?)?;
    }
    Ok(all)
}

// The outcome of a fold that has come past the last rule, or has ended before it.
fn outcome_at(alloc: Global, progress: Progress, end: Option<End>) -> Result<RuleOutcome, NoMemory>
    ensures { IfOk result (λ outcome. outcome ≡ outcome_at progress end) }
{
    match end {
        Some(end) => {
            let Progress { message: _, copies } = progress;
            Ok(RuleOutcome { copies, end })
        }
        None => {
            let text = text_now(alloc, &progress)?;
            let end = End::Keep { text };
            let Progress { message: _, copies } = progress;
            Ok(RuleOutcome { copies, end })
        }
    }
}

fn all_ended(
    alloc: Global,
    progress: Progress,
    end: Option<End>,
    set: &[Key],
) -> Result<Items<RuleOutcome>, NoMemory>
    ensures { IfOk result (λ all. all ≡ map (λ (recipient : List ℕ). outcome_at progress end) set.now) }
{
    let outcome = outcome_at(alloc, progress, end)?;
    for_each(alloc, &outcome, set)
}

// How far a set has come, and how its fold ended where it did.
#[derive(Drop)]
struct Standing {
    progress: Progress,
    end: Option<End>,
}

// Does a rule for those of a set to which it applies.
fn done_for_set(
    alloc: Global,
    sender: Option<&Key>,
    opened: &[Gate],
    place: u32,
    rule: &Rule,
    progress: Progress,
) -> Result<Standing, NoMemory>
    requires { is_rule rule.now ≡ true }
    ensures { IfOk result (λ standing. stage standing.progress standing.end ≡
        and_then (after_actions (option_copied sender.entry) opened.now place rule.now.actions progress) (after_stop rule.now.stop)) }
{
    let mut progress = progress;
    let mut edits = Items::new(alloc);
    let end = do_applied(
        alloc,
        sender,
        opened,
        place,
        rule,
        &mut progress,
        &mut edits,
    )?;
    Ok(Standing { progress, end })
}

// What becomes of a set that has come to this stage, where these rules are left, the first of which has this place.
fn set_outcomes(
    alloc: Global,
    directory: &Directory,
    sender: Option<&Key>,
    moment: u64,
    opened: &[Gate],
    place: u32,
    rules: &[Rule],
    progress: Progress,
    end: Option<End>,
    set: Items<Key>,
) -> Result<Items<RuleOutcome>, NoMemory>
    requires few { place + length rules.now ≤ 100 }
    requires form { list_all is_rule rules.now ≡ true }
    ensures { IfOk result (λ all. all ≡
        set_outcomes (record { directory = directory.now; sender = option_copied sender.entry; moment = moment }) opened.now place rules.now (stage progress end) set) }
{
    if end.is_some() {
        return all_ended(alloc, progress, end, set.as_slice());
    }
    let [rule, later @ ..] = rules else {
        return all_ended(alloc, progress, None, set.as_slice());
    };
    let next = place + 1;
    let message = &progress.message;
    let Halves {
        marks,
        chosen,
        others,
    } = split(alloc, rule, directory, sender, moment, message, set)?;
    if chosen.len() == 0 {
        let passed = set_outcomes(
            alloc, directory, sender, moment, opened, next, later, progress, None, others,
        )?;
        return Ok(passed);
    }
    if others.len() == 0 {
        let Standing { progress, end } = done_for_set(
            alloc, sender, opened, place, rule, progress,
        )?;
        let taken = set_outcomes(
            alloc, directory, sender, moment, opened, next, later, progress, end, chosen,
        )?;
        return Ok(taken);
    }
    let copied = shared_progress(alloc, &progress)?;
    let seconds = set_outcomes(
        alloc, directory, sender, moment, opened, next, later, copied, None, others,
    )?;
    let Standing { progress, end } = done_for_set(alloc, sender, opened, place, rule, progress)?;
    let firsts = set_outcomes(
        alloc, directory, sender, moment, opened, next, later, progress, end, chosen,
    )?;
    let all = merged(alloc, marks.as_slice(), firsts, seconds)?;
    Ok(all)
}

fn keys_of(alloc: Global, leaves: &[Leaf]) -> Result<Items<Key>, NoMemory>
    ensures { IfOk result (λ keys. keys ≡ map (λ (leaf : Leaf). leaf.key) leaves.now) }
{
    let mut keys = Items::new(alloc);
    for leaf in leaves {
        keys.push(leaf.key.copy(alloc)?)?;
    }
    Ok(keys)
}

/// What becomes of each leaf. Leaves for which the same is done share one message on the way, and the texts that come of it.
pub fn outcomes(
    alloc: Global,
    rules: &[Rule],
    directory: &Directory,
    sender: Option<&Key>,
    moment: u64,
    opened: &[Gate],
    message: &Message,
    leaves: &[Leaf],
) -> Result<Items<RuleOutcome>, NoMemory>
    requires few { length rules.now ≤ 100 }
    requires form { list_all is_rule rules.now ≡ true }
    ensures number { IfOk result (λ all. length all ≡ length leaves.now) }
    ensures all { IfOk result (λ all. all ≡
        outcomes rules.now (record { directory = directory.now; sender = option_copied sender.entry; moment = moment }) message.now opened.now leaves.now) }
{
    let progress = Progress {
        message: message.copy(alloc)?,
        copies: Items::new(alloc),
    };
    let set = keys_of(alloc, leaves)?;
    let all = set_outcomes(
        alloc, directory, sender, moment, opened, 0, rules, progress, None, set,
    )?;
    Ok(all)
}
