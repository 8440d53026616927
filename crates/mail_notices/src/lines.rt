// The lines of a notice.
ghost use Rattle.std.specs.Prelude.{◌≡◌, ◌++◌, ◌∷◌, [], IfOk, OnOk, map, decimal};
ghost use Rattle.std.specs.List.{flat_map};
ghost use Rattle.mail_names.specs.Names.{approval_text};
ghost use Rattle.mail_notices.specs.Text.{subject_of, recipient_line, rejected_line, asked_line, refused_line, ran_out_line, moment_line, target_line, lines_of};

use crate::kinds::Notice;
use journal_report::Why;
use mail_names::{ApprovalName, Bytes, Items, Key, NoMemory};
use std::alloc::Global;

/// The parts one behind another.
pub fn joined(alloc: Global, parts: &[&[u8]]) -> Result<Bytes, NoMemory>
    ensures { IfOk result (λ text. text ≡ flat_map (λ part. part.now) parts.now) }
{
    let mut text = Bytes::new(alloc);
    for part in parts {
        text.add(part)?;
    }
    Ok(text)
}

/// The two parts as one.
pub fn two(alloc: Global, a: &[u8], b: &[u8]) -> Result<Bytes, NoMemory>
    ensures { IfOk result (λ text. text ≡ a.now ++ b.now) }
{
    let mut text = Bytes::of(alloc, a)?;
    text.add(b)?;
    Ok(text)
}

/// A number in decimal.
pub fn number(alloc: Global, n: u64) -> Result<Bytes, NoMemory>
    ensures { IfOk result (λ text. text ≡ decimal n) }
{
    let text = format!(in alloc; "{n}")?;
    Bytes::of(alloc, text.as_bytes())
}

#[tactic(auto, unfolding(crate::specs::Text::recipient_line))]
fn recipient_line(alloc: Global, key: &Key) -> Result<Bytes, NoMemory>
    ensures { IfOk result (λ line. line ≡ recipient_line key.now) }
{
    two(alloc, b"Recipient: ", key.bytes())
}

#[tactic(auto, unfolding(crate::specs::Text::rejected_line))]
fn rejected_line(
    alloc: Global,
    rule: u32,
    name: &Bytes,
    code: u32,
    words: &Bytes,
) -> Result<Bytes, NoMemory>
    ensures { IfOk result (λ line. line ≡ rejected_line rule name.now code words.now) }
{
    let rule = number(alloc, rule as u64)?;
    let code = number(alloc, code as u64)?;
    joined(
        alloc,
        &[
            b"Rejected by rule ",
            rule.as_slice(),
            b" (",
            name.as_slice(),
            b"): 5.7.",
            code.as_slice(),
            b" ",
            words.as_slice(),
        ],
    )
}

#[tactic(auto, unfolding(crate::specs::Text::asked_line))]
fn asked_line(alloc: Global, approval: &ApprovalName, gate: &Bytes) -> Result<Bytes, NoMemory>
    ensures { IfOk result (λ line. line ≡ asked_line approval.now gate.now) }
{
    let approval = approval.text(alloc)?;
    joined(
        alloc,
        &[
            b"Approval ",
            approval.as_slice(),
            b" is asked for ",
            gate.as_slice(),
            b".",
        ],
    )
}

#[tactic(auto, unfolding(crate::specs::Text::refused_line))]
fn refused_line(
    alloc: Global,
    approval: &ApprovalName,
    gate: &Bytes,
    by: &Key,
) -> Result<Bytes, NoMemory>
    ensures { IfOk result (λ line. line ≡ refused_line approval.now gate.now by.now) }
{
    let approval = approval.text(alloc)?;
    joined(
        alloc,
        &[
            b"Approval ",
            approval.as_slice(),
            b" for ",
            gate.as_slice(),
            b" was refused by ",
            by.bytes(),
            b".",
        ],
    )
}

#[tactic(auto, unfolding(crate::specs::Text::ran_out_line))]
fn ran_out_line(
    alloc: Global,
    approval: &ApprovalName,
    gate: &Bytes,
    deadline: u64,
) -> Result<Bytes, NoMemory>
    ensures { IfOk result (λ line. line ≡ ran_out_line approval.now gate.now deadline) }
{
    let approval = approval.text(alloc)?;
    let deadline = number(alloc, deadline)?;
    joined(
        alloc,
        &[
            b"Approval ",
            approval.as_slice(),
            b" for ",
            gate.as_slice(),
            b" ran out at ",
            deadline.as_slice(),
            b".",
        ],
    )
}

// Words, a moment and a full stop.
#[tactic(auto, unfolding(crate::specs::Text::moment_line))]
fn moment_line(alloc: Global, words: &[u8], moment: u64) -> Result<Bytes, NoMemory>
    ensures { IfOk result (λ line. line ≡ moment_line words.now moment) }
{
    let moment = number(alloc, moment)?;
    joined(alloc, &[words, moment.as_slice(), b"."])
}

// Words, a target with why the message goes to it, and a full stop.
#[tactic(auto, unfolding(crate::specs::Text::target_line))]
fn target_line(alloc: Global, words: &[u8], target: &Key, why: &Why) -> Result<Bytes, NoMemory>
    ensures { IfOk result (λ line. line ≡ target_line words.now target.now why.now) }
{
    let why = why.text(alloc)?;
    joined(alloc, &[words, target.bytes(), why.as_slice(), b"."])
}

// A line, and one for each recipient.
fn with_recipients(alloc: Global, first: Bytes, keys: &[Key]) -> Result<Items<Bytes>, NoMemory>
    ensures { IfOk result (λ lines. lines ≡ first ∷ map recipient_line keys.now) }
{
    let mut lines = Items::new(alloc);
    lines.push(first)?;
    for key in keys {
        lines.push(recipient_line(alloc, key)?)?;
    }
    Ok(lines)
}

fn one_line(alloc: Global, line: Bytes) -> Result<Items<Bytes>, NoMemory>
    ensures { IfOk result (λ lines. lines ≡ line ∷ []) }
{
    let mut lines = Items::new(alloc);
    lines.push(line)?;
    Ok(lines)
}

fn two_lines(alloc: Global, first: Bytes, second: Bytes) -> Result<Items<Bytes>, NoMemory>
    ensures { IfOk result (λ lines. lines ≡ first ∷ second ∷ []) }
{
    let mut lines = Items::new(alloc);
    lines.push(first)?;
    lines.push(second)?;
    Ok(lines)
}

const NO_MESSAGE: &[u8] = b"Recipients behind it get no message.";

// What a notice says behind the lines on its submission.
pub fn lines_of(alloc: Global, what: &Notice) -> Result<Items<Bytes>, NoMemory>
    ensures { IfOk result (λ lines. lines ≡ lines_of what.now) }
{
    match what {
        Notice::Rejected {
            rule,
            name,
            code,
            words,
            keys,
        } => {
            let first = rejected_line(alloc, *rule, name, *code, words)?;
            with_recipients(alloc, first, keys.as_slice())
        }
        Notice::Unknown { keys } => {
            let first = Bytes::of(alloc, b"Unknown recipients:")?;
            with_recipients(alloc, first, keys.as_slice())
        }
        Notice::TooMany => one_line(
            alloc,
            Bytes::of(
                alloc,
                b"The message expands to more than 2000 recipients and was sent to nobody.",
            )?,
        ),
        Notice::Asked {
            approval,
            gate,
            deadline,
        } => two_lines(
            alloc,
            asked_line(alloc, approval, gate)?,
            moment_line(alloc, b"Decide before ", *deadline)?,
        ),
        Notice::Refused { approval, gate, by } => two_lines(
            alloc,
            refused_line(alloc, approval, gate, by)?,
            Bytes::of(alloc, NO_MESSAGE)?,
        ),
        Notice::RanOut {
            approval,
            gate,
            deadline,
        } => two_lines(
            alloc,
            ran_out_line(alloc, approval, gate, *deadline)?,
            Bytes::of(alloc, NO_MESSAGE)?,
        ),
        Notice::Delayed { target, why, until } => two_lines(
            alloc,
            target_line(alloc, b"Delayed: ", target, why)?,
            moment_line(alloc, b"Tries go on until ", *until)?,
        ),
        Notice::Undeliverable { target, why, ended } => two_lines(
            alloc,
            target_line(alloc, b"Undeliverable: ", target, why)?,
            moment_line(alloc, b"Tries ended at ", *ended)?,
        ),
    }
}

/// What stands behind `Subject: `.
pub fn subject_of(alloc: Global, what: &Notice) -> Result<Bytes, NoMemory>
    ensures { IfOk result (λ subject. subject ≡ subject_of what.now) }
{
    match what {
        Notice::Rejected { .. } => Bytes::of(alloc, b"Message rejected"),
        Notice::Unknown { .. } => Bytes::of(alloc, b"Unknown recipients"),
        Notice::TooMany => Bytes::of(alloc, b"Too many recipients"),
        Notice::Asked { approval, .. } => approval_subject(alloc, b"Approval asked ", approval),
        Notice::Refused { approval, .. } => approval_subject(alloc, b"Approval refused ", approval),
        Notice::RanOut { approval, .. } => approval_subject(alloc, b"Approval ran out ", approval),
        Notice::Delayed { .. } => Bytes::of(alloc, b"Message delayed"),
        Notice::Undeliverable { .. } => Bytes::of(alloc, b"Message undeliverable"),
    }
}

fn approval_subject(alloc: Global, words: &[u8], approval: &ApprovalName) -> Result<Bytes, NoMemory>
    ensures { IfOk result (λ subject. subject ≡ words.now ++ approval_text approval.now) }
{
    let approval = approval.text(alloc)?;
    two(alloc, words, approval.as_slice())
}
