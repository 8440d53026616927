// Entries, printed.
use crate::octets::{add_number, add_octets, add_written};
use crate::releases::{add_keys, add_release};
use crate::values::add_origin;
use log_entry::Entry;
use mail_names::{ApprovalName, Bytes, ItemName, Key, NoMemory};
use mail_plan::Release;
use mail_submission::Submission;
use moderation::Verdict;
use std::alloc::Global;

fn add_organised(
    alloc: Global,
    out: &mut Bytes,
    directory: &Bytes,
    rules: &Bytes,
) -> Result<(), NoMemory> {
    out.add(b"organised: directory ")?;
    add_octets(alloc, out, directory.as_slice())?;
    out.add(b"; rules ")?;
    add_octets(alloc, out, rules.as_slice())
}

fn add_accepted(
    alloc: Global,
    out: &mut Bytes,
    moment: u64,
    submission: &Submission,
) -> Result<(), NoMemory> {
    out.add(b"accepted at ")?;
    add_number(alloc, out, moment)?;
    out.add(b": ")?;
    add_origin(alloc, out, submission.origin())?;
    add_submission(alloc, out, submission)
}

fn add_submission(alloc: Global, out: &mut Bytes, submission: &Submission) -> Result<(), NoMemory> {
    out.add(b"; from ")?;
    match submission.reverse() {
        None => out.add(b"nobody")?,
        Some(key) => out.add(key.bytes())?,
    }
    out.add(b"; to")?;
    add_keys(out, submission.recipients())?;
    out.add(b"; ")?;
    add_octets(alloc, out, submission.bytes())
}

fn add_categorised(
    alloc: Global,
    out: &mut Bytes,
    number: u64,
    release: u32,
    plan: &Release,
) -> Result<(), NoMemory> {
    let text = format!(in alloc; "categorised {number}-{release}: ")?;
    out.add(text.as_bytes())?;
    add_release(alloc, out, plan)
}

fn add_decided(
    alloc: Global,
    out: &mut Bytes,
    approval: &ApprovalName,
    by: &Key,
    verdict: Verdict,
    moment: u64,
) -> Result<(), NoMemory> {
    match verdict {
        Verdict::Approve => out.add(b"approved ")?,
        Verdict::Reject => out.add(b"rejected ")?,
    }
    out.add(approval.text(alloc)?.as_slice())?;
    out.add(b" by ")?;
    out.add(by.bytes())?;
    out.add(b" at ")?;
    add_number(alloc, out, moment)
}

fn add_moment(alloc: Global, out: &mut Bytes, moment: u64) -> Result<(), NoMemory> {
    out.add(b"moment ")?;
    add_number(alloc, out, moment)
}

// What happened to an item: this word, and the item's name.
fn add_named(alloc: Global, out: &mut Bytes, word: &[u8], name: &ItemName) -> Result<(), NoMemory> {
    out.add(word)?;
    out.add(name.text(alloc)?.as_slice())
}

fn add_forgot(alloc: Global, out: &mut Bytes, number: u64) -> Result<(), NoMemory> {
    out.add(b"forgot ")?;
    add_number(alloc, out, number)
}

fn add_entry(alloc: Global, out: &mut Bytes, entry: &Entry) -> Result<(), NoMemory> {
    match entry {
        Entry::Organised { directory, rules } => add_organised(alloc, out, directory, rules),
        Entry::Accepted { moment, submission } => add_accepted(alloc, out, *moment, submission),
        Entry::Categorised {
            number,
            release,
            plan,
        } => add_categorised(alloc, out, *number, *release, plan),
        Entry::Decided {
            approval,
            by,
            verdict,
            moment,
        } => add_decided(alloc, out, approval, by, *verdict, *moment),
        Entry::Moment { moment } => add_moment(alloc, out, *moment),
        Entry::Delivered { name } => add_named(alloc, out, b"delivered ", name),
        Entry::Delayed { name } => add_named(alloc, out, b"delayed ", name),
        Entry::Ended { name } => add_named(alloc, out, b"ended ", name),
        Entry::Forgot { number } => add_forgot(alloc, out, *number),
    }
}

// What is read without the last octet.
fn add_cut(alloc: Global, out: &mut Bytes, bytes: &[u8]) -> Result<(), NoMemory> {
    let front = match bytes {
        [front @ .., _] => front,
        [] => bytes,
    };
    match Entry::read(alloc, front)? {
        None => out.add(b"; cut no entry"),
        Some(_) => out.add(b"; cut an entry"),
    }
}

/// Appends the entry that these octets are, what it is written as, and what is read without the last octet.
pub fn add_entry_row(alloc: Global, out: &mut Bytes, bytes: &[u8]) -> Result<(), NoMemory> {
    match Entry::read(alloc, bytes)? {
        None => out.add(b"no entry"),
        Some(entry) => {
            add_entry(alloc, out, &entry)?;
            let text = entry.text(alloc)?;
            add_written(alloc, out, text.as_slice(), bytes)?;
            add_cut(alloc, out, bytes)
        }
    }
}
