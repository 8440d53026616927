// The words of rows.
use hub_core::{Reply, StepFault};
use mail_names::{ApprovalName, Bytes, Items, Key, NoMemory};
use mail_submission::{Origin, Submission};
use moderation::{Tell, Verdict};
use std::alloc::Global;

/// The first word, and the rest.
pub fn cut(text: &str) -> (&str, &str) {
    text.split_once(' ').unwrap_or((text, ""))
}

/// A number. Another word is answered as want of memory, as it is below.
pub fn number(word: &str) -> Result<u64, NoMemory> {
    word.parse::<u64>().map_err(|_| NoMemory)
}

pub fn small(word: &str) -> Result<u32, NoMemory> {
    word.parse::<u32>().map_err(|_| NoMemory)
}

pub fn key(alloc: Global, word: &str) -> Result<Key, NoMemory> {
    Key::read(alloc, word.as_bytes()).map_err(|_| NoMemory)
}

pub fn approval(word: &str) -> Result<ApprovalName, NoMemory> {
    ApprovalName::read(word.as_bytes()).ok_or(NoMemory)
}

pub fn verdict(word: &str) -> Result<Verdict, NoMemory> {
    match word {
        "approve" => Ok(Verdict::Approve),
        "reject" => Ok(Verdict::Reject),
        _ => Err(NoMemory),
    }
}

pub fn tell(word: &str) -> Result<Tell, NoMemory> {
    match word {
        "always" => Ok(Tell::Always),
        "internal" => Ok(Tell::Internal),
        "never" => Ok(Tell::Never),
        _ => Err(NoMemory),
    }
}

pub fn keys(alloc: Global, words: &str) -> Result<Items<Key>, NoMemory> {
    let mut keys = Items::new(alloc);
    for word in words.split(',') {
        keys.push(key(alloc, word)?)?;
    }
    Ok(keys)
}

// The octets of a text, in which `\` ends a line.
fn octets(alloc: Global, text: &str) -> Result<Bytes, NoMemory> {
    let (first, rest) = text.split_once('\\').unwrap_or((text, ""));
    let mut octets = Bytes::new(alloc);
    octets.add_line(first.as_bytes())?;
    for line in rest.split_terminator('\\') {
        octets.add_line(line.as_bytes())?;
    }
    Ok(octets)
}

fn origin(alloc: Global, mark: &str) -> Result<Origin, NoMemory> {
    match mark {
        "-" => Ok(Origin::Smtp),
        _ => Ok(Origin::Pickup {
            mark: Bytes::of(alloc, mark.as_bytes())?,
        }),
    }
}

fn reverse(alloc: Global, sender: &str) -> Result<Option<Key>, NoMemory> {
    match sender {
        "-" => Ok(None),
        _ => Ok(Some(key(alloc, sender)?)),
    }
}

/// A submission.
pub fn submission(
    alloc: Global,
    mark: &str,
    sender: &str,
    recipients: &str,
    text: &str,
) -> Result<Submission, NoMemory> {
    let origin = origin(alloc, mark)?;
    let reverse = reverse(alloc, sender)?;
    let keys = keys(alloc, recipients)?;
    let bytes = octets(alloc, text)?;
    Submission::new(alloc, origin, reverse, keys, bytes).map_err(|_| NoMemory)
}

fn applied_text(applied: Result<(), StepFault>) -> &'static [u8] {
    match applied {
        Ok(()) => b"applied",
        Err(StepFault::NotLawful) => b"not lawful",
        Err(StepFault::NoMemory) => b"no memory",
    }
}

/// Whether an entry was applied.
pub fn applied(alloc: Global, applied: Result<(), StepFault>) -> Result<Bytes, NoMemory> {
    Bytes::of(alloc, applied_text(applied))
}

/// A reply.
pub fn reply(alloc: Global, reply: Reply) -> Result<Bytes, NoMemory> {
    let text = format!(in alloc; "{reply:?}")?;
    Bytes::of(alloc, text.as_bytes())
}

/// A reply, and whether the entry was applied.
pub fn both(
    alloc: Global,
    reply: Reply,
    applied: Result<(), StepFault>,
) -> Result<Bytes, NoMemory> {
    let text = format!(in alloc; "{reply:?}; ")?;
    let mut out = Bytes::of(alloc, text.as_bytes())?;
    out.add(applied_text(applied))?;
    Ok(out)
}
