// The bytes of entries in the log, read.
ghost use Rattle.std.specs.Prelude.{◌≡◌};
ghost use Rattle.mail_names.specs.Key.{IsKey};
ghost use Rattle.mail_names.specs.Names.{IsApprovalName};
ghost use Rattle.log_entry.specs.EntryText.{form_bytes, form_key_option, form_all, form_name, form_approval, form_gate, form_why, form_release, form_origin, form_organised, form_accepted, form_categorised, form_decided, entry_text};
ghost use Rattle.mail_submission.specs.Fits.{IsBytes, IsKeyOption, IsListOf, IsOrigin};
ghost use Rattle.mail_plan.specs.Fits.{IsName, IsGate, IsWhy, IsRelease};
ghost use Rattle.log_entry.specs.Entries.{IsOrganised, IsAccepted, IsCategorised, IsDecided, IsEntry};
ghost use Rattle.log_entry.specs.Reading.{Reads, Finds, ReadsAll, found_of};

use crate::Entry;
use crate::fields::{
    approval_name_at, bytes_at, gate_at, key_at, key_option_at, list_at, name_at, origin_at,
    release_at, submission_at, verdict_at, why_at,
};
use crate::places::{Miss, byte_at, u32_at, u64_at};
use journal_report::Why;
use mail_names::{ApprovalName, Bytes, Gate, ItemName, Items, Key, NoMemory};
use mail_plan::Release;
use mail_submission::{Origin, Submission};
use moderation::Verdict;
use std::alloc::Global;

// None where no such form stands.
fn found<T: Drop>(read: Result<T, Miss>) -> Result<Option<T>, NoMemory>
    ensures { result ≡ found_of read }
{
    match read {
        Ok(value) => Ok(Some(value)),
        Err(Miss::NoForm) => Ok(None),
        Err(Miss::NoMemory) => Err(NoMemory),
    }
}

/// The bytes that stand at a place behind their count, and the place behind them. None where there is none.
pub fn get_bytes(alloc: Global, bytes: &[u8], at: usize) -> Result<Option<(Bytes, usize)>, NoMemory>
    ensures { Finds IsBytes form_bytes bytes.now at result }
{
    found(bytes_at(alloc, bytes, at))
}

/// The key that stands at a place as its bytes, in lower case, and the place behind it. None where there is none.
pub fn get_key(alloc: Global, bytes: &[u8], at: usize) -> Result<Option<(Key, usize)>, NoMemory>
    ensures { Finds IsKey form_bytes bytes.now at result }
{
    found(key_at(alloc, bytes, at))
}

/// The option that stands at a place: 0, or 1 and a key, and the place behind it. None where there is none.
pub fn get_key_option(
    alloc: Global,
    bytes: &[u8],
    at: usize,
) -> Result<Option<(Option<Key>, usize)>, NoMemory>
    ensures { Finds IsKeyOption form_key_option bytes.now at result }
{
    found(key_option_at(alloc, bytes, at))
}

/// The keys that stand at a place behind their count, and the place behind them. None where there is none.
pub fn get_keys(
    alloc: Global,
    bytes: &[u8],
    at: usize,
) -> Result<Option<(Items<Key>, usize)>, NoMemory>
    ensures { Finds (IsListOf IsKey) (form_all form_bytes) bytes.now at result }
{
    found(list_at(alloc, bytes, at))
}

/// The origin that stands at a place: 0 for SMTP, or 1 and the mark of a pickup file, and the place behind it. None where there is none.
pub fn get_origin(
    alloc: Global,
    bytes: &[u8],
    at: usize,
) -> Result<Option<(Origin, usize)>, NoMemory>
    ensures { Finds IsOrigin form_origin bytes.now at result }
{
    found(origin_at(alloc, bytes, at))
}

/// The name that stands at a place: its three numbers and its mark, and the place behind it. None where there is none.
pub fn get_item_name(bytes: &[u8], at: usize) -> Result<Option<(ItemName, usize)>, NoMemory>
    ensures { Finds IsName form_name bytes.now at result }
{
    found(name_at(bytes, at))
}

/// The name of an approval that stands at a place: its three numbers, and the place behind it. None where there is none.
pub fn get_approval_name(bytes: &[u8], at: usize) -> Result<Option<(ApprovalName, usize)>, NoMemory>
    ensures { Finds IsApprovalName form_approval bytes.now at result }
{
    found(approval_name_at(bytes, at))
}

/// The gate that stands at a place: 0 and the key of an object, or 1 and the place of a rule, and the place behind it.
/// None where there is none.
pub fn get_gate(alloc: Global, bytes: &[u8], at: usize) -> Result<Option<(Gate, usize)>, NoMemory>
    ensures { Finds IsGate form_gate bytes.now at result }
{
    found(gate_at(alloc, bytes, at))
}

/// The reason that stands at a place: 0 where the envelope names the target, 1 and the groups, or 2 or 3 and the
/// place of the rule that copies or redirects, and the place behind it. None where there is none.
pub fn get_why(alloc: Global, bytes: &[u8], at: usize) -> Result<Option<(Why, usize)>, NoMemory>
    ensures { Finds IsWhy form_why bytes.now at result }
{
    found(why_at(alloc, bytes, at))
}

/// The release that stands at a place: its texts, its items, its holds and its ends, and the place behind it. None where there is none.
pub fn get_release(
    alloc: Global,
    bytes: &[u8],
    at: usize,
) -> Result<Option<(Release, usize)>, NoMemory>
    ensures { Finds IsRelease form_release bytes.now at result }
{
    found(release_at(alloc, bytes, at))
}

// The texts of a directory and of rules.
fn organised_at(alloc: Global, bytes: &[u8], at: usize) -> Result<((Bytes, Bytes), usize), Miss>
    ensures { Reads IsOrganised form_organised bytes.now at result }
{
    let (directory, at_rules) = bytes_at(alloc, bytes, at)?;
    let (rules, end) = bytes_at(alloc, bytes, at_rules)?;
    Ok(((directory, rules), end))
}

// A moment and a submission.
fn accepted_at(alloc: Global, bytes: &[u8], at: usize) -> Result<((u64, Submission), usize), Miss>
    ensures { Reads IsAccepted form_accepted bytes.now at result }
{
    let (moment, at_submission) = u64_at(bytes, at)?;
    let (submission, end) = submission_at(alloc, bytes, at_submission)?;
    Ok(((moment, submission), end))
}

// A submission's number, the number of its release, and the release.
fn categorised_at(
    alloc: Global,
    bytes: &[u8],
    at: usize,
) -> Result<((u64, u32, Release), usize), Miss>
    ensures { Reads IsCategorised form_categorised bytes.now at result }
{
    let (number, at_release) = u64_at(bytes, at)?;
    let (release, at_plan) = u32_at(bytes, at_release)?;
    let (plan, end) = release_at(alloc, bytes, at_plan)?;
    Ok(((number, release, plan), end))
}

// An approval's name, the key of who decided, the verdict and the moment.
fn decided_at(
    alloc: Global,
    bytes: &[u8],
    at: usize,
) -> Result<((ApprovalName, Key, Verdict, u64), usize), Miss>
    ensures { Reads IsDecided form_decided bytes.now at result }
{
    let (approval, at_key) = approval_name_at(bytes, at)?;
    let (by, at_verdict) = key_at(alloc, bytes, at_key)?;
    let (verdict, at_moment) = verdict_at(bytes, at_verdict)?;
    let (moment, end) = u64_at(bytes, at_moment)?;
    Ok(((approval, by, verdict, moment), end))
}

fn entry_at(alloc: Global, bytes: &[u8], at: usize) -> Result<(Entry, usize), Miss>
    ensures { Reads IsEntry entry_text bytes.now at result }
{
    let (kind, start) = byte_at(bytes, at)?;
    match kind {
        1 => {
            let ((directory, rules), end) = organised_at(alloc, bytes, start)?;
            Ok((Entry::Organised { directory, rules }, end))
        }
        2 => {
            let ((moment, submission), end) = accepted_at(alloc, bytes, start)?;
            Ok((Entry::Accepted { moment, submission }, end))
        }
        3 => {
            let ((number, release, plan), end) = categorised_at(alloc, bytes, start)?;
            let entry = Entry::Categorised {
                number,
                release,
                plan,
            };
            Ok((entry, end))
        }
        4 => {
            let ((approval, by, verdict, moment), end) = decided_at(alloc, bytes, start)?;
            let entry = Entry::Decided {
                approval,
                by,
                verdict,
                moment,
            };
            Ok((entry, end))
        }
        5 => {
            let (moment, end) = u64_at(bytes, start)?;
            Ok((Entry::Moment { moment }, end))
        }
        6 => {
            let (name, end) = name_at(bytes, start)?;
            Ok((Entry::Delivered { name }, end))
        }
        7 => {
            let (name, end) = name_at(bytes, start)?;
            Ok((Entry::Delayed { name }, end))
        }
        8 => {
            let (name, end) = name_at(bytes, start)?;
            Ok((Entry::Ended { name }, end))
        }
        9 => {
            let (number, end) = u64_at(bytes, start)?;
            Ok((Entry::Forgot { number }, end))
        }
        _ => Err(Miss::NoForm),
    }
}

impl Entry {
    /// The entry that these bytes are, all of them, or none where they are no entry's.
    ///
    /// A key of an entry is in lower case, and its submission one that `Submission::new` takes.
    pub fn read(alloc: Global, payload: &[u8]) -> Result<Option<Entry>, NoMemory>
        ensures { ReadsAll IsEntry entry_text payload.now result }
    {
        match entry_at(alloc, payload, 0) {
            Ok((entry, end)) => {
                if end < payload.len() {
                    Ok(None)
                } else {
                    Ok(Some(entry))
                }
            }
            Err(Miss::NoForm) => Ok(None),
            Err(Miss::NoMemory) => Err(NoMemory),
        }
    }
}
