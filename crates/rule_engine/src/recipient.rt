// What becomes of one recipient.
ghost use Rattle.std.specs.Prelude.{◌≡◌, ◌≤◌, ◌++◌, ℕ, List, Option, true, length, IfOk, OnOk, option_copied};
ghost use Rattle.std.specs.List.{list_all};
ghost use Rattle.org_directory.specs.Register.{among};
ghost use Rattle.mail_names.specs.declared.gate.Gate.{Gate};
ghost use Rattle.rule_terms.specs.Forms.{is_action, is_rule};
ghost use Rattle.rule_engine.specs.Gates.{opens, is_opened};
ghost use Rattle.rule_engine.specs.Edits.{is_edit, edit_if, action_edits, rule_edits, edits};
ghost use Rattle.rule_engine.specs.Fate.{stage, and_then, after_stop, side, is_one_of, now, with_copy, after_effect, disclaim, act, after_actions, after_rule, fate};

use crate::edit::{EditAt, is_edit};
use mail_message::{Message, Place};
use mail_names::{Bytes, Gate, Items, Key, NoMemory, SharedBytes};
use org_directory::Directory;
use rule_match::applies;
use rule_terms::{Action, Fallback, Rule};
use std::alloc::Global;

/// A copy that a rule made: its target, the text as it was by then, and the place of the rule.
#[derive(Drop)]
pub struct MadeCopy {
    pub target: Key,
    pub text: SharedBytes,
    pub rule: u32,
}

/// How the fold of the rules ends for a recipient.
#[derive(Drop)]
pub enum End {
    /// It gets the text.
    Keep {
        text: SharedBytes,
    },
    /// The target gets the text.
    Redirect {
        target: Key,
        text: SharedBytes,
        rule: u32,
    },
    /// It is rejected with the code `5.7.CODE` and these words.
    Reject {
        rule: u32,
        code: u32,
        words: Bytes,
    },
    /// It waits for the gate of this rule.
    Held {
        rule: u32,
    },
}

/// What the fold carries from rule to rule.
#[derive(Drop)]
pub struct Progress {
    pub message: Message,
    pub copies: Items<MadeCopy>,
}

/// What becomes of a recipient: the copies that rules made for it, and how its fold ends.
#[derive(Drop)]
pub struct RuleOutcome {
    pub copies: Items<MadeCopy>,
    pub end: End,
}

/// What becomes of a recipient, and the edits that are done for it, in order.
#[derive(Drop)]
pub struct Traced {
    pub outcome: RuleOutcome,
    pub edits: Items<EditAt>,
}

fn is_gate_of(rule: u32, gate: &Gate) -> bool
    ensures { result ≡ opens rule gate.now }
{
    match gate {
        Gate::Object { .. } => false,
        Gate::Rule { place } => rule == *place,
    }
}

fn is_opened(opened: &[Gate], rule: u32) -> bool
    ensures { result ≡ is_opened opened.now rule }
{
    opened.iter().any(|gate| is_gate_of(rule, gate))
}

fn is_among(sender: &Key, keys: &[Key]) -> bool
    ensures { result ≡ among sender.now keys.now }
{
    keys.iter().any(|key| *sender == *key)
}

fn is_one_of(sender: Option<&Key>, keys: &[Key]) -> bool
    ensures { result ≡ is_one_of (option_copied sender.entry) keys.now }
{
    match sender {
        None => false,
        Some(sender) => is_among(sender, keys),
    }
}

pub fn side(before: bool) -> Place
    ensures { result ≡ side before }
{
    if before { Place::Before } else { Place::After }
}

// The text at this point.
pub fn text_now(alloc: Global, progress: &Progress) -> Result<SharedBytes, NoMemory>
    ensures { IfOk result (λ text. text ≡ now progress.now) }
{
    SharedBytes::new(alloc, progress.message.bytes(alloc)?)
}

fn add_copy(alloc: Global, rule: u32, target: &Key, progress: &mut Progress) -> Result<(), NoMemory>
    ensures { OnOk result (progress.new ≡ with_copy rule target.now progress.old) }
{
    let text = text_now(alloc, progress)?;
    let target = target.copy(alloc)?;
    progress.copies.push(MadeCopy { target, text, rule })?;
    Ok(())
}

fn redirected(alloc: Global, rule: u32, target: &Key, progress: &Progress) -> Result<End, NoMemory>
    ensures { IfOk result (λ end. end ≡ End.Redirect target.now (now progress.now) rule) }
{
    let text = text_now(alloc, progress)?;
    let target = target.copy(alloc)?;
    Ok(End::Redirect { target, text, rule })
}

fn rejected(alloc: Global, rule: u32, code: u32, words: &[u8]) -> Result<End, NoMemory>
    ensures { IfOk result (λ end. end ≡ End.Reject rule code words.now) }
{
    let words = Bytes::of(alloc, words)?;
    Ok(End::Reject { rule, code, words })
}

// Adds a disclaimer, or does what its fallback says. Nobody's approval matters.
fn add_disclaimer(
    alloc: Global,
    rule: u32,
    before: bool,
    text: &Bytes,
    fallback: Fallback,
    progress: &mut Progress,
) -> Result<Option<End>, NoMemory>
    ensures { IfOk result (λ end. (sender : Option (List ℕ)) → (opened : List Gate) → stage progress.new end ≡
        after_effect sender opened rule (disclaim before text.now fallback progress.old.message) progress.old) }
{
    if progress.message.is_plain(alloc)? {
        progress
            .message
            .add_text(alloc, side(before), text.as_slice())?;
        return Ok(None);
    }
    match fallback {
        Fallback::Wrap => {
            progress.message.wrap(alloc, text.as_slice())?;
            Ok(None)
        }
        Fallback::Ignore => Ok(None),
        Fallback::Reject => {
            let end = rejected(alloc, rule, 1, b"Disclaimer can't be added.")?;
            Ok(Some(end))
        }
    }
}

// Does one action.
fn do_action(
    alloc: Global,
    sender: Option<&Key>,
    opened: &[Gate],
    rule: u32,
    action: &Action,
    progress: &mut Progress,
) -> Result<Option<End>, NoMemory>
    requires { is_action action.now ≡ true }
    ensures { IfOk result (λ end. stage progress.new end ≡
        after_effect (option_copied sender.entry) opened.now rule (act action.now progress.old.message) progress.old) }
{
    match action {
        Action::Prepend { text } => {
            progress.message.prepend_subject(alloc, text.as_slice())?;
            Ok(None)
        }
        Action::SetField { field, text } => {
            progress
                .message
                .set_field(alloc, field.as_slice(), text.as_slice())?;
            Ok(None)
        }
        Action::RemoveField { field } => {
            progress.message.remove_field(field.as_slice())?;
            Ok(None)
        }
        Action::CopyTo { target } => {
            add_copy(alloc, rule, target, progress)?;
            Ok(None)
        }
        Action::Disclaimer {
            before,
            text,
            fallback,
        } => add_disclaimer(alloc, rule, *before, text, *fallback, progress),
        Action::RedirectTo { target } => {
            let end = redirected(alloc, rule, target, progress)?;
            Ok(Some(end))
        }
        Action::Reject { code, words } => {
            let end = rejected(alloc, rule, *code, words.as_slice())?;
            Ok(Some(end))
        }
        Action::Approve { by } => {
            if is_opened(opened, rule) || is_one_of(sender, by.as_slice()) {
                return Ok(None);
            }
            Ok(Some(End::Held { rule }))
        }
    }
}

// Notes an action where it is an edit of this message.
fn note_edit(
    alloc: Global,
    rule: u32,
    place: u32,
    action: &Action,
    message: &Message,
    edits: &mut Items<EditAt>,
) -> Result<(), NoMemory>
    ensures { OnOk result (edits.new ≡ edits.old ++ edit_if (is_edit action.now message.now) rule place) }
{
    if is_edit(alloc, action, message)? {
        edits.push(EditAt {
            rule,
            action: place,
        })?;
    }
    Ok(())
}

// Does the actions of a rule, and notes which of them are edits.
fn do_actions(
    alloc: Global,
    sender: Option<&Key>,
    opened: &[Gate],
    rule: u32,
    actions: &[Action],
    progress: &mut Progress,
    edits: &mut Items<EditAt>,
) -> Result<Option<End>, NoMemory>
    requires few { length actions.now ≤ 16 }
    requires form { list_all is_action actions.now ≡ true }
    ensures stage { IfOk result (λ end. stage progress.new end ≡
        after_actions (option_copied sender.entry) opened.now rule actions.now progress.old) }
    ensures edits { OnOk result (edits.new ≡
        edits.old ++ action_edits (option_copied sender.entry) opened.now rule 0 actions.now progress.old) }
{
    for (i, action) in actions.iter().enumerate() {
        note_edit(alloc, rule, i as u32, action, &progress.message, edits)?;
        if let Some(end) = do_action(alloc, sender, opened, rule, action, progress)? {
            return Ok(Some(end));
        }
    }
    Ok(None)
}

// Does a rule that applies.
pub fn do_applied(
    alloc: Global,
    sender: Option<&Key>,
    opened: &[Gate],
    place: u32,
    rule: &Rule,
    progress: &mut Progress,
    edits: &mut Items<EditAt>,
) -> Result<Option<End>, NoMemory>
    requires { is_rule rule.now ≡ true }
    ensures stage { IfOk result (λ end. stage progress.new end ≡
        and_then (after_actions (option_copied sender.entry) opened.now place rule.now.actions progress.old) (after_stop rule.now.stop)) }
    ensures edits { OnOk result (edits.new ≡
        edits.old ++ action_edits (option_copied sender.entry) opened.now place 0 rule.now.actions progress.old) }
{
    let actions = rule.actions.as_slice();
    if let Some(end) = do_actions(alloc, sender, opened, place, actions, progress, edits)? {
        return Ok(Some(end));
    }
    if rule.stop {
        let text = text_now(alloc, progress)?;
        return Ok(Some(End::Keep { text }));
    }
    Ok(None)
}

// Does one rule, where it applies.
fn do_rule(
    alloc: Global,
    directory: &Directory,
    sender: Option<&Key>,
    moment: u64,
    opened: &[Gate],
    recipient: &Key,
    place: u32,
    rule: &Rule,
    progress: &mut Progress,
    edits: &mut Items<EditAt>,
) -> Result<Option<End>, NoMemory>
    requires { is_rule rule.now ≡ true }
    ensures stage { IfOk result (λ end. stage progress.new end ≡
        after_rule (record { directory = directory.now; sender = option_copied sender.entry; moment = moment }) opened.now recipient.now place rule.now progress.old) }
    ensures edits { OnOk result (edits.new ≡ edits.old ++
        rule_edits (record { directory = directory.now; sender = option_copied sender.entry; moment = moment }) opened.now recipient.now place rule.now progress.old) }
{
    if !applies(
        alloc,
        rule,
        directory,
        sender,
        recipient,
        &progress.message,
        moment,
    )? {
        return Ok(None);
    }
    do_applied(alloc, sender, opened, place, rule, progress, edits)
}

/// What becomes of one recipient, and which edits are done for it. A rule applies, or doesn't, by the message as the earlier
/// rules left it for this recipient.
pub fn trace(
    alloc: Global,
    rules: &[Rule],
    directory: &Directory,
    sender: Option<&Key>,
    moment: u64,
    opened: &[Gate],
    message: &Message,
    recipient: &Key,
) -> Result<Traced, NoMemory>
    requires few { length rules.now ≤ 100 }
    requires form { list_all is_rule rules.now ≡ true }
    ensures outcome { IfOk result (λ traced. traced.outcome ≡
        fate rules.now (record { directory = directory.now; sender = option_copied sender.entry; moment = moment }) message.now opened.now recipient.now) }
    ensures edits { IfOk result (λ traced. traced.edits ≡
        edits rules.now (record { directory = directory.now; sender = option_copied sender.entry; moment = moment }) message.now opened.now recipient.now) }
{
    let mut progress = Progress {
        message: message.copy(alloc)?,
        copies: Items::new(alloc),
    };
    let mut edits = Items::new(alloc);
    for (i, rule) in rules.iter().enumerate() {
        if let Some(end) = do_rule(
            alloc,
            directory,
            sender,
            moment,
            opened,
            recipient,
            i as u32,
            rule,
            &mut progress,
            &mut edits,
        )? {
            let Progress { message: _, copies } = progress;
            let outcome = RuleOutcome { copies, end };
            return Ok(Traced { outcome, edits });
        }
    }
    let text = text_now(alloc, &progress)?;
    let Progress { message: _, copies } = progress;
    let outcome = RuleOutcome {
        copies,
        end: End::Keep { text },
    };
    Ok(Traced { outcome, edits })
}

/// What becomes of one recipient.
pub fn judge(
    alloc: Global,
    rules: &[Rule],
    directory: &Directory,
    sender: Option<&Key>,
    moment: u64,
    opened: &[Gate],
    message: &Message,
    recipient: &Key,
) -> Result<RuleOutcome, NoMemory>
    requires few { length rules.now ≤ 100 }
    requires form { list_all is_rule rules.now ≡ true }
    ensures { IfOk result (λ outcome. outcome ≡
        fate rules.now (record { directory = directory.now; sender = option_copied sender.entry; moment = moment }) message.now opened.now recipient.now) }
{
    let traced = trace(
        alloc, rules, directory, sender, moment, opened, message, recipient,
    )?;
    Ok(traced.outcome)
}
