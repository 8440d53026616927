// The submissions of the load.
ghost use Rattle.std.specs.Prelude.{◌≡◌, ◌∷◌, ◌++◌, [], decimal, IfOk};
ghost use Rattle.mail_names.specs.Key.{IsKey};
ghost use Rattle.make_load.specs.Load.{id_line, message_at, mia, recipients_at, reverse_at, submission_at};

use mail_names::{Bytes, Items, Key, NameFault, NoMemory};
use mail_submission::{Origin, Submission, SubmissionFault};
use std::alloc::Global;

/// When all is submitted and the first turn is made: 2026-03-01T00:00:00Z, in seconds since 1970-01-01T00:00:00Z. Decisions
/// and the second turn come a second later.
pub const MOMENT: u64 = 1_772_323_200;

// The key of this text.
fn key(alloc: Global, text: &[u8]) -> Result<Key, NoMemory>
    requires { IsKey text.now }
    ensures { IfOk result (λ key. key ≡ text.now) }
{
    match Key::read(alloc, text) {
        Ok(key) => Ok(key),
        Err(NameFault::NoMemory) => Err(NoMemory),
        Err(_) => unreachable!(),
    }
}

/// The moderator, who approves all that pends.
pub fn moderator(alloc: Global) -> Result<Key, NoMemory>
    ensures { IfOk result (λ key. key ≡ mia) }
{
    key(alloc, b"mia@example.com")
}

fn reverse(alloc: Global, i: u32) -> Result<Key, NoMemory>
    ensures { IfOk result (λ key. key ≡ reverse_at i) }
{
    if i % 2 == 0 {
        key(alloc, b"ann@example.com")
    } else {
        key(alloc, b"eve@example.net")
    }
}

fn one(alloc: Global, text: &[u8]) -> Result<Items<Key>, NoMemory>
    requires { IsKey text.now }
    ensures { IfOk result (λ keys. keys ≡ text.now ∷ []) }
{
    let mut keys = Vec::new(alloc);
    keys.push(key(alloc, text)?)?;
    Ok(Items::from_vec(keys))
}

fn two(alloc: Global, first: &[u8], second: &[u8]) -> Result<Items<Key>, NoMemory>
    requires first { IsKey first.now }
    requires second { IsKey second.now }
    ensures { IfOk result (λ keys. keys ≡ first.now ∷ second.now ∷ []) }
{
    let mut keys = Vec::new(alloc);
    keys.push(key(alloc, first)?)?;
    keys.push(key(alloc, second)?)?;
    Ok(Items::from_vec(keys))
}

fn recipients(alloc: Global, i: u32) -> Result<Items<Key>, NoMemory>
    ensures { IfOk result (λ keys. keys ≡ recipients_at i) }
{
    match i % 4 {
        0 => one(alloc, b"staff@example.com"),
        1 => two(alloc, b"bob@example.com", b"zed@example.net"),
        2 => one(alloc, b"board@example.com"),
        _ => two(alloc, b"bob@example.com", b"staff@example.com"),
    }
}

fn id_line(alloc: Global, i: u32) -> Result<Bytes, NoMemory>
    ensures { IfOk result (λ line. line ≡ id_line i) }
{
    let line = format!(in alloc; "Message-Id: <g{i}@example.com>")?;
    Bytes::of(alloc, line.as_bytes())
}

fn numbered(alloc: Global, words: &str, i: u32) -> Result<Bytes, NoMemory>
    ensures { IfOk result (λ line. line ≡ words.now ++ decimal i) }
{
    let line = format!(in alloc; "{words}{i}")?;
    Bytes::of(alloc, line.as_bytes())
}

fn message(alloc: Global, i: u32) -> Result<Bytes, NoMemory>
    ensures { IfOk result (λ bytes. bytes ≡ message_at i) }
{
    let id = id_line(alloc, i)?;
    let subject = numbered(alloc, "Subject: Load ", i)?;
    let body = numbered(alloc, "Line ", i)?;
    let mut text = Bytes::new(alloc);
    text.add_line(id.as_slice())?;
    text.add_line(subject.as_slice())?;
    text.add_line(b"")?;
    text.add_line(body.as_slice())?;
    Ok(text)
}

/// Submission `i` of the load, counted from 0.
#[tactic(auto, using(crate::proofs::Made::made))]
pub fn submission(alloc: Global, i: u32) -> Result<Submission, NoMemory>
    ensures { IfOk result (λ submission. submission ≡ submission_at i) }
{
    let reverse = Some(reverse(alloc, i)?);
    let recipients = recipients(alloc, i)?;
    let bytes = message(alloc, i)?;
    match Submission::new(alloc, Origin::Smtp, reverse, recipients, bytes) {
        Ok(submission) => Ok(submission),
        Err(SubmissionFault::NoMemory) => Err(NoMemory),
        Err(SubmissionFault::NoRecipients) => unreachable!(),
        Err(SubmissionFault::TooManyRecipients) => unreachable!(),
        Err(SubmissionFault::Unreadable { .. }) => unreachable!(),
    }
}
