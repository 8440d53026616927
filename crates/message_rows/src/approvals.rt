// Approvals and what happens to them.
use crate::octets::Answer;
use crate::row::{Fault, Row, cut, moment, small};
use mail_names::{Bytes, Gate, Key};
use moderation::{Approval, Verdict};
use std::alloc::Global;

/// Makes an approval, and answers each event in order.
pub fn decisions(alloc: Global, row: &Row<'_>, out: &mut Answer) -> Result<(), Fault> {
    let mut approval = asked(alloc, row)?;
    for event in row.args() {
        happens(alloc, &mut approval, event.as_slice(), out)?;
    }
    Ok(())
}

fn asked(alloc: Global, row: &Row<'_>) -> Result<Approval, Fault> {
    let gate = Gate::Rule {
        place: small(row.named(b"rule")),
    };
    let made = moment(row.named(b"made"))?;
    let moderators = row.keys(alloc, b"moderator")?.into_vec();
    if moderators.is_empty() || moderators.len() > 10 {
        return Err(Fault::BadRow);
    }
    Ok(Approval::new(gate, moderators, made))
}

fn happens(
    alloc: Global,
    approval: &mut Approval,
    event: &[u8],
    out: &mut Answer,
) -> Result<(), Fault> {
    let answer = answer_to(alloc, approval, event)?;
    if answer.is_empty() {
        return Ok(());
    }
    let mut line = Bytes::of(alloc, event)?;
    line.add(b": ")?;
    line.add(answer.as_bytes())?;
    out.given(line.as_slice())
}

// Nothing for what is no event.
fn answer_to(alloc: Global, approval: &mut Approval, event: &[u8]) -> Result<String, Fault> {
    let (name, rest) = cut(event);
    match name {
        b"told" => told(alloc, approval),
        b"state" => state(alloc, approval),
        b"ask" => ask(alloc, approval, rest),
        b"approve" => decide(alloc, approval, Verdict::Approve, rest),
        b"reject" => decide(alloc, approval, Verdict::Reject, rest),
        b"expire" => expire(alloc, approval, rest),
        _ => Ok(String::new(alloc)),
    }
}

fn told(alloc: Global, approval: &Approval) -> Result<String, Fault> {
    let rule = match approval.gate() {
        Gate::Rule { place } => *place,
        Gate::Object { .. } => return Err(Fault::BadRow),
    };
    let count = approval.moderators().len();
    let (made, deadline) = (approval.made(), approval.deadline());
    let text = format!(in alloc;
        "rule {rule}, moderators {count}, made {made}, deadline {deadline}"
    )?;
    Ok(text)
}

fn state(alloc: Global, approval: &Approval) -> Result<String, Fault> {
    let state = approval.state();
    Ok(format!(in alloc; "{state:?}")?)
}

// What a decision by a key at a moment would come to.
fn ask(alloc: Global, approval: &Approval, rest: &[u8]) -> Result<String, Fault> {
    let (at, by) = cut(rest);
    let by = Key::read(alloc, by)?;
    let answer = approval.answer(&by, moment(at)?);
    Ok(format!(in alloc; "{answer:?}")?)
}

fn decide(
    alloc: Global,
    approval: &mut Approval,
    verdict: Verdict,
    rest: &[u8],
) -> Result<String, Fault> {
    let (at, by) = cut(rest);
    let by = Key::read(alloc, by)?;
    let answer = approval.decide(&by, verdict, moment(at)?);
    Ok(format!(in alloc; "{answer:?}")?)
}

fn expire(alloc: Global, approval: &mut Approval, at: &[u8]) -> Result<String, Fault> {
    let ends = approval.expire(moment(at)?);
    Ok(format!(in alloc; "{ends}")?)
}
