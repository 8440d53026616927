// The parts of a report's bytes.
ghost use Rattle.std.specs.Prelude.{◌≡◌, ◌≤◌, ◌==◌, ◌-◌, length, drop, take};
ghost use Rattle.std.specs.List.{position_or_len};
ghost use Rattle.journal_report.specs.Reading.{before_space, from_space, behind_step, is_forwarded, line_of, behind_line, skip, line_at, name_part, moment_part, mailbox_part, sender_part, id_part, subject_part, original_part, is_target};

use mail_names::How;

/// The parts that its lines tell of a report's head.
#[derive(Clone, Copy)]
pub struct Parts<'a> {
    pub name: &'a [u8],
    pub moment: &'a [u8],
    pub mailbox: &'a [u8],
    pub sender: &'a [u8],
    pub id: &'a [u8],
    pub subject: &'a [u8],
}

/// How many bytes stand before the first one that is this.
pub fn place(bytes: &[u8], byte: u8) -> usize
    ensures value { result ≡ position_or_len (λ x. x == byte) bytes.now }
    ensures within { result ≤ length bytes.now }
{
    for (i, b) in bytes.iter().enumerate() {
        if *b == byte {
            return i;
        }
    }
    bytes.len()
}

/// What stands behind so many bytes.
pub fn behind(bytes: &[u8], count: usize) -> &[u8]
    ensures { result.now ≡ drop count bytes.now }
{
    if count <= bytes.len() {
        &bytes[count..]
    } else {
        &[]
    }
}

/// What stands before the first space.
pub fn before_space(text: &[u8]) -> &[u8]
    ensures { result.now ≡ before_space text.now }
{
    &text[..place(text, b' ')]
}

/// The first space and what stands behind it.
pub fn from_space(text: &[u8]) -> &[u8]
    ensures { result.now ≡ from_space text.now }
{
    &text[place(text, b' ')..]
}

/// Whether a mailbox forwarded at the step whose key stands before this.
pub fn is_forwarded(text: &[u8]) -> bool
    ensures { result ≡ is_forwarded text.now }
{
    text.starts_with(b" (forwarded)")
}

/// What stands behind a step and the mark between steps, from what stands behind the step's key.
pub fn behind_step(how: How, text: &[u8]) -> &[u8]
    ensures { result.now ≡ behind_step how text.now }
{
    match how {
        How::Expanded => behind(text, 3),
        How::Forwarded => behind(text, 15),
    }
}

/// The first line.
#[tactic(auto, unfolding(crate::specs::Reading::line_of))]
pub fn line_of(bytes: &[u8]) -> &[u8]
    ensures { result.now ≡ line_of bytes.now }
{
    &bytes[..place(bytes, b'\r')]
}

/// What stands behind the first line.
#[tactic(auto, unfolding(crate::specs::Reading::behind_line))]
pub fn behind_line(bytes: &[u8]) -> &[u8]
    ensures { result.now ≡ behind_line bytes.now }
{
    behind(bytes, place(bytes, b'\r') + 2)
}

// What stands behind so many lines.
#[tactic(auto, unfolding(crate::specs::Reading::skip))]
fn skip(bytes: &[u8], lines: usize) -> &[u8]
    ensures { result.now ≡ skip lines bytes.now }
{
    let mut rest = bytes;
    for line in 0..lines {
        rest = behind_line(rest);
    }
    rest
}

#[tactic(auto, unfolding(crate::specs::Reading::line_at))]
fn line_at(bytes: &[u8], place: usize) -> &[u8]
    ensures { result.now ≡ line_at place bytes.now }
{
    line_of(skip(bytes, place))
}

#[tactic(auto, unfolding(crate::specs::Reading::name_part))]
fn name_part(bytes: &[u8]) -> &[u8]
    ensures { result.now ≡ name_part bytes.now }
{
    before_space(behind(line_at(bytes, 0), 22))
}

#[tactic(auto, unfolding(crate::specs::Reading::moment_part))]
fn moment_part(bytes: &[u8]) -> &[u8]
    ensures { result.now ≡ moment_part bytes.now }
{
    let text = behind(line_at(bytes, 0), 22);
    behind(text, place(text, b' ') + 1)
}

#[tactic(auto, unfolding(crate::specs::Reading::mailbox_part))]
fn mailbox_part(bytes: &[u8]) -> &[u8]
    ensures { result.now ≡ mailbox_part bytes.now }
{
    let text = behind(line_at(bytes, 2), 5);
    &text[..text.len().saturating_sub(1)]
}

#[tactic(auto, unfolding(crate::specs::Reading::sender_part))]
fn sender_part(bytes: &[u8]) -> &[u8]
    ensures { result.now ≡ sender_part bytes.now }
{
    behind(line_at(bytes, 14), 8)
}

#[tactic(auto, unfolding(crate::specs::Reading::id_part))]
fn id_part(bytes: &[u8]) -> &[u8]
    ensures { result.now ≡ id_part bytes.now }
{
    behind(line_at(bytes, 15), 13)
}

#[tactic(auto, unfolding(crate::specs::Reading::subject_part))]
fn subject_part(bytes: &[u8]) -> &[u8]
    ensures { result.now ≡ subject_part bytes.now }
{
    behind(line_at(bytes, 16), 18)
}

/// The parts of a report's head.
pub fn parts_of(bytes: &[u8]) -> Parts<'_>
    ensures name { result.name.now ≡ name_part bytes.now }
    ensures moment { result.moment.now ≡ moment_part bytes.now }
    ensures mailbox { result.mailbox.now ≡ mailbox_part bytes.now }
    ensures sender { result.sender.now ≡ sender_part bytes.now }
    ensures id { result.id.now ≡ id_part bytes.now }
    ensures subject { result.subject.now ≡ subject_part bytes.now }
{
    Parts {
        name: name_part(bytes),
        moment: moment_part(bytes),
        mailbox: mailbox_part(bytes),
        sender: sender_part(bytes),
        id: id_part(bytes),
        subject: subject_part(bytes),
    }
}

/// Where the targets begin.
pub fn targets_part(bytes: &[u8]) -> &[u8]
    ensures { result.now ≡ skip 18 bytes.now }
{
    skip(bytes, 18)
}

/// The message that is enclosed, of what stands behind the targets.
#[tactic(auto, unfolding(crate::specs::Reading::original_part))]
pub fn original_part<'a>(bytes: &[u8], rest: &'a [u8]) -> &'a [u8]
    ensures { result.now ≡ original_part bytes.now rest.now }
{
    let text = skip(rest, 4);
    let end = line_at(bytes, 10).len() + 6;
    &text[..text.len().saturating_sub(end)]
}

/// Whether a target comes next.
#[tactic(auto, unfolding(crate::specs::Reading::is_target))]
pub fn is_target(rest: &[u8]) -> bool
    ensures { result ≡ is_target rest.now }
{
    rest.starts_with(b"Recipient: ")
}
