// Reasons and journal reports.
use crate::octets::Answer;
use crate::row::{Fault, Row, cut, item_name, moment, small};
use journal_report::{
    Line, Report, ReportFault, ReportHead, Why, add_why_text, read_report, report,
};
use mail_names::{Bytes, How, Items, Key, LAST_MOMENT, Step};
use std::alloc::Global;

/// The reason that a text writes: nothing, `via KEY KEY ..`, `copied RULE`, `redirected RULE`, or `through STEP STEP ..`, where
/// a step is the key of a group, or `>` and the key of a mailbox that forwards.
pub fn read_why(alloc: Global, text: &[u8]) -> Result<Why, Fault> {
    let (kind, rest) = cut(text);
    match kind {
        b"" => Ok(Why::Direct),
        b"via" => via(alloc, rest),
        b"copied" => Ok(Why::Copied { rule: small(rest) }),
        b"redirected" => Ok(Why::Redirected { rule: small(rest) }),
        b"through" => through(alloc, rest),
        _ => Err(Fault::BadRow),
    }
}

fn via(alloc: Global, text: &[u8]) -> Result<Why, Fault> {
    let mut groups = Items::new(alloc);
    for key in text.split(|b| *b == b' ') {
        groups.push(Key::read(alloc, key)?)?;
    }
    Ok(Why::Via { groups })
}

fn step(alloc: Global, text: &[u8]) -> Result<Step, Fault> {
    match text {
        [b'>', key @ ..] => Ok(Step {
            key: Key::read(alloc, key)?,
            how: How::Forwarded,
        }),
        key => Ok(Step {
            key: Key::read(alloc, key)?,
            how: How::Expanded,
        }),
    }
}

fn through(alloc: Global, text: &[u8]) -> Result<Why, Fault> {
    let mut steps = Items::new(alloc);
    for part in text.split(|b| *b == b' ') {
        steps.push(step(alloc, part)?)?;
    }
    Ok(Why::Through { steps })
}

/// The text of a reason behind a key, and whether a copy of the reason is the same.
pub fn why_row(alloc: Global, row: &Row<'_>, out: &mut Answer) -> Result<(), Fault> {
    let (key, why) = cut(row.arg(0));
    let why = read_why(alloc, why)?;
    let mut line = Bytes::of(alloc, key)?;
    add_why_text(alloc, &mut line, &why)?;
    if why.copy(alloc)? != why {
        out.refused("the copy is another reason")?;
    }
    out.given(line.as_slice())
}

fn sender(alloc: Global, text: &[u8]) -> Result<Option<Key>, Fault> {
    if text.is_empty() {
        return Ok(None);
    }
    Ok(Some(Key::read(alloc, text)?))
}

fn head(alloc: Global, row: &Row<'_>) -> Result<ReportHead, Fault> {
    Ok(ReportHead {
        name: item_name(row.named(b"name"))?,
        moment: moment(row.named(b"made"))?,
        mailbox: Key::read(alloc, row.named(b"mailbox"))?,
        sender: sender(alloc, row.named(b"sender"))?,
        message_id: Bytes::of(alloc, row.named(b"id"))?,
        subject: Bytes::of(alloc, row.named(b"subject"))?,
    })
}

fn line(alloc: Global, text: &[u8]) -> Result<Line, Fault> {
    let (target, why) = cut(text);
    Ok(Line {
        target: Key::read(alloc, target)?,
        why: read_why(alloc, why)?,
    })
}

fn lines(alloc: Global, row: &Row<'_>) -> Result<Items<Line>, Fault> {
    let mut lines = Items::new(alloc);
    for arg in row.args() {
        let (name, rest) = cut(arg.as_slice());
        if name == b"target".as_slice() {
            lines.push(line(alloc, rest)?)?;
        }
    }
    Ok(lines)
}

/// The report of these, and what it reads to.
pub fn report_row(alloc: Global, row: &Row<'_>, out: &mut Answer) -> Result<(), Fault> {
    let head = head(alloc, row)?;
    let lines = lines(alloc, row)?;
    if head.moment > LAST_MOMENT {
        return Err(Fault::BadRow);
    }
    let text = report(alloc, &head, lines.as_slice(), row.named(b"original"))?;
    out.given(text.as_slice())?;
    read_told(alloc, text.as_slice(), out)
}

/// What bytes read to, or with `/` at a place what they read to then.
pub fn read_report_row(alloc: Global, row: &Row<'_>, out: &mut Answer) -> Result<(), Fault> {
    read_told(alloc, row.arg(0), out)?;
    for at in 0..small(row.named(b"spoilt")) {
        spoilt(alloc, row.arg(0), at as usize, out)?;
    }
    Ok(())
}

fn spoilt(alloc: Global, bytes: &[u8], at: usize, out: &mut Answer) -> Result<(), Fault> {
    let mut changed = Vec::from_slice(alloc, bytes)?;
    match changed.get_mut(at) {
        Some(b) => *b = b'/',
        None => return Err(Fault::BadRow),
    }
    read_told(alloc, changed.as_slice(), out)
}

fn read_told(alloc: Global, bytes: &[u8], out: &mut Answer) -> Result<(), Fault> {
    match read_report(alloc, bytes) {
        Ok(report) => told(alloc, &report, out),
        Err(fault) => out.refused(format!(in alloc; "{fault:?}")?.as_str()),
    }
}

fn told(alloc: Global, report: &Report, out: &mut Answer) -> Result<(), Fault> {
    let moment = report.head.moment;
    let count = report.lines.len();
    let sender: &[u8] = match &report.head.sender {
        None => b"<>",
        Some(key) => key.bytes(),
    };
    let text = format!(in alloc; "made {moment}, targets {count}, from ")?;
    let mut line = Bytes::of(alloc, text.as_bytes())?;
    line.add(sender)?;
    out.given(line.as_slice())?;
    out.given(report.original.as_slice())
}
