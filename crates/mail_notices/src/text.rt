// The bytes of a notice.
ghost use Rattle.std.specs.Prelude.{◌≡◌, ◌++◌, ◌∷◌, ◌≤◌, [], IfOk, OnOk};
ghost use Rattle.std.specs.List.{flat_map};
ghost use Rattle.mail_message.specs.Lines.{ended};
ghost use Rattle.mail_notices.specs.Text.{submission_line, original_id_line, original_subject_line, later_lines, further, addresses, to_line, date_line, id_line, subject_line, head_text, plain_text, is_enclosing, with_original, next, body_text, notice_text};

use crate::kinds::{About, Notice};
use crate::lines::{joined, lines_of, number, subject_of, two};
use mail_message::enclose;
use mail_names::{Bytes, ItemName, Key, LAST_MOMENT, NoMemory, date_text};
use std::alloc::Global;

// Lines and their ends.
fn ended_lines(alloc: Global, lines: &[&[u8]]) -> Result<Bytes, NoMemory>
    ensures { IfOk result (λ text. text ≡ flat_map (λ line. ended line.now) lines.now) }
{
    let mut text = Bytes::new(alloc);
    for line in lines {
        text.add_line(line)?;
    }
    Ok(text)
}

// Adds a line behind those that stand there.
fn add_next(text: &mut Bytes, line: &[u8]) -> Result<(), NoMemory>
    ensures { OnOk result (text.new ≡ text.old ++ next line.now) }
{
    text.add(b"\r\n")?;
    text.add(line)
}

fn add_all(text: &mut Bytes, lines: &[Bytes]) -> Result<(), NoMemory>
    ensures { OnOk result (text.new ≡ text.old ++ flat_map next lines.now) }
{
    for line in lines {
        add_next(text, line.as_slice())?;
    }
    Ok(())
}

fn add_further(text: &mut Bytes, keys: &[Key]) -> Result<(), NoMemory>
    ensures { OnOk result (text.new ≡ text.old ++ flat_map further keys.now) }
{
    for key in keys {
        text.add(b", <")?;
        text.add(key.bytes())?;
        text.add(b">")?;
    }
    Ok(())
}

// The keys in angle brackets.
fn addresses(alloc: Global, to: &[Key]) -> Result<Bytes, NoMemory>
    ensures { IfOk result (λ text. text ≡ addresses to.now) }
{
    match to {
        [] => Ok(Bytes::new(alloc)),
        [first, rest @ ..] => {
            let mut text = joined(alloc, &[b"<", first.bytes(), b">"])?;
            add_further(&mut text, rest)?;
            Ok(text)
        }
    }
}

#[tactic(auto, unfolding(crate::specs::Text::to_line))]
fn to_line(alloc: Global, to: &[Key]) -> Result<Bytes, NoMemory>
    ensures { IfOk result (λ line. line ≡ to_line to.now) }
{
    let to = addresses(alloc, to)?;
    two(alloc, b"To: ", to.as_slice())
}

#[tactic(auto, unfolding(crate::specs::Text::date_line))]
fn date_line(alloc: Global, moment: u64) -> Result<Bytes, NoMemory>
    requires { moment ≤ LAST_MOMENT }
    ensures { IfOk result (λ line. line ≡ date_line moment) }
{
    let date = date_text(alloc, moment)?;
    two(alloc, b"Date: ", date.as_slice())
}

#[tactic(auto, unfolding(crate::specs::Text::id_line))]
fn id_line(alloc: Global, name: &ItemName) -> Result<Bytes, NoMemory>
    ensures { IfOk result (λ line. line ≡ id_line name.now) }
{
    let name = name.text(alloc)?;
    joined(
        alloc,
        &[b"Message-Id: <", name.as_slice(), b"@hub.invalid>"],
    )
}

#[tactic(auto, unfolding(crate::specs::Text::subject_line))]
fn subject_line(alloc: Global, subject: &Bytes) -> Result<Bytes, NoMemory>
    ensures { IfOk result (λ line. line ≡ subject_line subject.now) }
{
    two(alloc, b"Subject: ", subject.as_slice())
}

// The header that every notice has.
#[tactic(auto, unfolding(crate::specs::Text::head_text))]
fn head_text(
    alloc: Global,
    name: &ItemName,
    to: &[Key],
    moment: u64,
    subject: &Bytes,
) -> Result<Bytes, NoMemory>
    requires { moment ≤ LAST_MOMENT }
    ensures { IfOk result (λ text. text ≡ head_text name.now to.now moment subject.now) }
{
    let to = to_line(alloc, to)?;
    let date = date_line(alloc, moment)?;
    let id = id_line(alloc, name)?;
    let subject = subject_line(alloc, subject)?;
    ended_lines(
        alloc,
        &[
            b"From: <mailhub@hub.invalid>",
            to.as_slice(),
            date.as_slice(),
            id.as_slice(),
            subject.as_slice(),
            b"Auto-Submitted: auto-replied",
        ],
    )
}

#[tactic(auto, unfolding(crate::specs::Text::submission_line))]
fn submission_line(alloc: Global, n: u64) -> Result<Bytes, NoMemory>
    ensures { IfOk result (λ line. line ≡ submission_line n) }
{
    let n = number(alloc, n)?;
    two(alloc, b"Submission: ", n.as_slice())
}

#[tactic(auto, unfolding(crate::specs::Text::original_id_line))]
fn original_id_line(alloc: Global, id: &Bytes) -> Result<Bytes, NoMemory>
    ensures { IfOk result (λ line. line ≡ original_id_line id.now) }
{
    two(alloc, b"Original-Id: ", id.as_slice())
}

#[tactic(auto, unfolding(crate::specs::Text::original_subject_line))]
fn original_subject_line(alloc: Global, subject: &Bytes) -> Result<Bytes, NoMemory>
    ensures { IfOk result (λ line. line ≡ original_subject_line subject.now) }
{
    two(alloc, b"Original-Subject: ", subject.as_slice())
}

// The text, without the end of its last line.
#[tactic(auto, unfolding(crate::specs::Text::body_text))]
fn body_text(alloc: Global, about: &About, what: &Notice) -> Result<Bytes, NoMemory>
    ensures { IfOk result (λ text. text ≡ body_text about.now what.now) }
{
    let id = original_id_line(alloc, &about.message_id)?;
    let subject = original_subject_line(alloc, &about.subject)?;
    let lines = lines_of(alloc, what)?;
    let mut text = submission_line(alloc, about.number)?;
    add_next(&mut text, id.as_slice())?;
    add_next(&mut text, subject.as_slice())?;
    add_all(&mut text, lines.as_slice())?;
    Ok(text)
}

// The rest of the header of one that encloses nothing, and the empty line behind it.
#[tactic(auto, unfolding(crate::specs::Text::plain_text))]
fn plain_text(alloc: Global) -> Result<Bytes, NoMemory>
    ensures { IfOk result (λ text. text ≡ plain_text) }
{
    ended_lines(
        alloc,
        &[
            b"MIME-Version: 1.0",
            b"Content-Type: text/plain; charset=utf-8",
            b"Content-Transfer-Encoding: 8bit",
            b"",
        ],
    )
}

// A notice that encloses nothing.
fn plain(alloc: Global, head: &Bytes, body: &Bytes) -> Result<Bytes, NoMemory>
    ensures { IfOk result (λ text. text ≡ head.now ++ (plain_text ++ ended body.now)) }
{
    let mut text = plain_text(alloc)?;
    text.add_line(body.as_slice())?;
    two(alloc, head.as_slice(), text.as_slice())
}

// A notice that encloses the message.
#[tactic(auto, unfolding(crate::specs::Text::with_original))]
fn with_original(
    alloc: Global,
    head: &[u8],
    body: &[u8],
    original: &[u8],
) -> Result<Bytes, NoMemory>
    ensures { IfOk result (λ text. text ≡ with_original head.now body.now original.now) }
{
    enclose(alloc, head, body, original)
}

fn is_enclosing(what: &Notice) -> bool
    ensures { result ≡ is_enclosing what.now }
{
    matches!(what, Notice::Asked { .. })
}

/// The bytes of a notice of this name that was made at a moment, in seconds since 1970-01-01T00:00:00Z. It goes to the
/// sender, or, where an approval is asked for, to all moderators, and that one encloses the message.
pub fn notice(
    alloc: Global,
    name: &ItemName,
    to: &[Key],
    moment: u64,
    about: &About,
    what: &Notice,
) -> Result<Bytes, NoMemory>
    requires { moment ≤ LAST_MOMENT }
    ensures { IfOk result (λ text. text ≡ notice_text name.now to.now moment about.now what.now) }
{
    let subject = subject_of(alloc, what)?;
    let head = head_text(alloc, name, to, moment, &subject)?;
    let body = body_text(alloc, about, what)?;
    if is_enclosing(what) {
        let original = about.original.as_slice();
        return with_original(alloc, head.as_slice(), body.as_slice(), original);
    }
    plain(alloc, &head, &body)
}
