// Journal reports, written.
ghost use Rattle.std.specs.Prelude.{◌≡◌, ◌++◌, ◌≤◌, IfOk, length};
ghost use Rattle.std.specs.List.{flat_map};
ghost use Rattle.mail_message.specs.Lines.{ended};
ghost use Rattle.journal_report.specs.Report.{report_line, to_line, date_line, id_line, subject_line, head_lines, sender_line, original_id_line, original_subject_line, count_line, about_lines, target_line, next, list_text, report_text};

use crate::{Line, ReportHead};
use mail_message::enclose;
use mail_names::{Bytes, ItemName, Key, LAST_MOMENT, NoMemory, date_text};
use std::alloc::Global;

// The two parts as one.
fn two(alloc: Global, a: &[u8], b: &[u8]) -> Result<Bytes, NoMemory>
    ensures { IfOk result (λ all. all ≡ a.now ++ b.now) }
{
    let mut all = Bytes::of(alloc, a)?;
    all.add(b)?;
    Ok(all)
}

// The three parts as one.
fn three(alloc: Global, a: &[u8], b: &[u8], c: &[u8]) -> Result<Bytes, NoMemory>
    ensures { IfOk result (λ all. all ≡ a.now ++ (b.now ++ c.now)) }
{
    let mut all = Bytes::of(alloc, a)?;
    all.add(b)?;
    all.add(c)?;
    Ok(all)
}

// Lines and their ends.
fn ended_lines(alloc: Global, lines: &[&[u8]]) -> Result<Bytes, NoMemory>
    ensures { IfOk result (λ text. text ≡ flat_map (λ line. ended line.now) lines.now) }
{
    let mut text = Bytes::new(alloc);
    for line in lines {
        text.add_line(line)?;
    }
    Ok(text)
}

// Lines, each behind a CRLF.
fn next_lines(alloc: Global, lines: &[&[u8]]) -> Result<Bytes, NoMemory>
    ensures { IfOk result (λ text. text ≡ flat_map (λ line. next line.now) lines.now) }
{
    let mut text = Bytes::new(alloc);
    for line in lines {
        text.add(b"\r\n")?;
        text.add(line)?;
    }
    Ok(text)
}

#[tactic(auto, unfolding(crate::specs::Report::report_line))]
fn report_line(alloc: Global, name: &ItemName, moment: u64) -> Result<Bytes, NoMemory>
    ensures { IfOk result (λ line. line ≡ report_line name.now moment) }
{
    let name = name.text(alloc)?;
    let moment = format!(in alloc; " {moment}")?;
    three(
        alloc,
        b"X-Hub-Journal-Report: ",
        name.as_slice(),
        moment.as_bytes(),
    )
}

#[tactic(auto, unfolding(crate::specs::Report::to_line))]
fn to_line(alloc: Global, mailbox: &Key) -> Result<Bytes, NoMemory>
    ensures { IfOk result (λ line. line ≡ to_line mailbox.now) }
{
    three(alloc, b"To: <", mailbox.bytes(), b">")
}

#[tactic(auto, unfolding(crate::specs::Report::date_line))]
fn date_line(alloc: Global, moment: u64) -> Result<Bytes, NoMemory>
    requires { moment ≤ LAST_MOMENT }
    ensures { IfOk result (λ line. line ≡ date_line moment) }
{
    let date = date_text(alloc, moment)?;
    two(alloc, b"Date: ", date.as_slice())
}

#[tactic(auto, unfolding(crate::specs::Report::id_line))]
fn id_line(alloc: Global, name: &ItemName) -> Result<Bytes, NoMemory>
    ensures { IfOk result (λ line. line ≡ id_line name.now) }
{
    let name = name.text(alloc)?;
    three(alloc, b"Message-Id: <", name.as_slice(), b"@hub.invalid>")
}

#[tactic(auto, unfolding(crate::specs::Report::subject_line))]
fn subject_line(alloc: Global, name: &ItemName) -> Result<Bytes, NoMemory>
    ensures { IfOk result (λ line. line ≡ subject_line name.now) }
{
    let name = name.text(alloc)?;
    two(alloc, b"Subject: Journal report ", name.as_slice())
}

// The header.
fn head_text(alloc: Global, head: &ReportHead) -> Result<Bytes, NoMemory>
    requires { head.now.moment ≤ LAST_MOMENT }
    ensures { IfOk result (λ text. text ≡ flat_map ended (head_lines head.now)) }
{
    let report = report_line(alloc, &head.name, head.moment)?;
    let to = to_line(alloc, &head.mailbox)?;
    let date = date_line(alloc, head.moment)?;
    let id = id_line(alloc, &head.name)?;
    let subject = subject_line(alloc, &head.name)?;
    ended_lines(
        alloc,
        &[
            report.as_slice(),
            b"From: <mailhub@hub.invalid>",
            to.as_slice(),
            date.as_slice(),
            id.as_slice(),
            subject.as_slice(),
        ],
    )
}

#[tactic(auto, unfolding(crate::specs::Report::sender_line))]
fn sender_line(alloc: Global, sender: &Option<Key>) -> Result<Bytes, NoMemory>
    ensures { IfOk result (λ line. line ≡ sender_line sender.now) }
{
    match sender {
        None => Bytes::of(alloc, b"Sender: <>"),
        Some(key) => two(alloc, b"Sender: ", key.bytes()),
    }
}

#[tactic(auto, unfolding(crate::specs::Report::original_id_line))]
fn original_id_line(alloc: Global, id: &Bytes) -> Result<Bytes, NoMemory>
    ensures { IfOk result (λ line. line ≡ original_id_line id.now) }
{
    two(alloc, b"Original-Id: ", id.as_slice())
}

#[tactic(auto, unfolding(crate::specs::Report::original_subject_line))]
fn original_subject_line(alloc: Global, subject: &Bytes) -> Result<Bytes, NoMemory>
    ensures { IfOk result (λ line. line ≡ original_subject_line subject.now) }
{
    two(alloc, b"Original-Subject: ", subject.as_slice())
}

#[tactic(auto, unfolding(crate::specs::Report::count_line))]
fn count_line(alloc: Global, count: usize) -> Result<Bytes, NoMemory>
    ensures { IfOk result (λ line. line ≡ count_line count) }
{
    let text = format!(in alloc; "Recipients: {count}")?;
    Bytes::of(alloc, text.as_bytes())
}

fn about_text(alloc: Global, head: &ReportHead, count: usize) -> Result<Bytes, NoMemory>
    ensures { IfOk result (λ text. text ≡ flat_map next (about_lines head.now count)) }
{
    let id = original_id_line(alloc, &head.message_id)?;
    let subject = original_subject_line(alloc, &head.subject)?;
    let count = count_line(alloc, count)?;
    next_lines(
        alloc,
        &[id.as_slice(), subject.as_slice(), count.as_slice()],
    )
}

#[tactic(auto, unfolding(crate::specs::Report::target_line))]
fn target_line(alloc: Global, line: &Line) -> Result<Bytes, NoMemory>
    ensures { IfOk result (λ text. text ≡ target_line line.now) }
{
    let why = line.why.text(alloc)?;
    three(alloc, b"Recipient: ", line.target.bytes(), why.as_slice())
}

fn targets_text(alloc: Global, lines: &[Line]) -> Result<Bytes, NoMemory>
    ensures { IfOk result (λ text. text ≡ flat_map (λ line. next (target_line line)) lines.now) }
{
    let mut text = Bytes::new(alloc);
    for line in lines {
        let target = target_line(alloc, line)?;
        text.add(b"\r\n")?;
        text.add(target.as_slice())?;
    }
    Ok(text)
}

#[tactic(auto, unfolding(crate::specs::Report::list_text))]
fn list_text(alloc: Global, head: &ReportHead, lines: &[Line]) -> Result<Bytes, NoMemory>
    ensures { IfOk result (λ text. text ≡ list_text head.now lines.now) }
{
    let sender = sender_line(alloc, &head.sender)?;
    let about = about_text(alloc, head, lines.len())?;
    let targets = targets_text(alloc, lines)?;
    three(
        alloc,
        sender.as_slice(),
        about.as_slice(),
        targets.as_slice(),
    )
}

/// The bytes of a report: a message that encloses the original with the list of its targets.
#[tactic(auto, unfolding(crate::specs::Report::report_text))]
pub fn report(
    alloc: Global,
    head: &ReportHead,
    lines: &[Line],
    original: &[u8],
) -> Result<Bytes, NoMemory>
    requires { head.now.moment ≤ LAST_MOMENT }
    ensures { IfOk result (λ text. text ≡ report_text head.now lines.now original.now) }
{
    let above = head_text(alloc, head)?;
    let list = list_text(alloc, head, lines)?;
    enclose(alloc, above.as_slice(), list.as_slice(), original)
}
