// Reading the fields of entries.
ghost use Rattle.std.specs.Prelude.{◌≡◌, ⊤, ℕ, ◌≤◌, List, length, flat_map, IfOk, IsErrOf, Ok};
ghost use Rattle.std.specs.List.{AllByRecursion};
ghost use Rattle.mail_names.specs.Key.{IsKey};
ghost use Rattle.mail_names.specs.Names.{IsApprovalName};
ghost use Rattle.log_entry.specs.EntryText.{form_bytes, form_key_option, form_all, form_mark, form_name, form_approval, form_gate, form_kind, form_how, form_step, form_why, form_item, form_release, form_origin, form_submission, form_verdict};
ghost use Rattle.mail_submission.specs.Fits.{IsBytes, IsKeyOption, IsListOf, IsOrigin, IsSubmission};
ghost use Rattle.mail_plan.specs.Fits.{IsName, IsGate, IsStep, IsWhy, IsItem, IsRelease};
ghost use Rattle.log_entry.specs.Reading.{Reads, OneForm};
ghost use Rattle.mail_submission.specs.Submission.{Submitted, submission_of};

use crate::places::{Miss, byte_at, slice_at, u32_at, u64_at};
use journal_report::Why;
use mail_names::{ApprovalName, Bytes, Gate, How, ItemName, Items, Key, Mark, NameFault, Step};
use mail_plan::{Item, ItemKind, Release};
use mail_submission::{Origin, Submission, SubmissionFault};
use moderation::Verdict;
use std::alloc::Global;

/// A value with a form, of which lists are made.
pub trait Field: Drop {
    /// Which values have a form.
    ghost is: { Self → Type 0 };

    ghost form: { Self → List ℕ };

    /// The value that stands at a place, and the place behind it.
    fn read_at(alloc: Global, bytes: &[u8], at: usize) -> Result<(Self, usize), Miss>
        ensures { Reads is form bytes.now at result };
}

pub fn bytes_at(alloc: Global, bytes: &[u8], at: usize) -> Result<(Bytes, usize), Miss>
    ensures { Reads IsBytes form_bytes bytes.now at result }
{
    let (text, end) = slice_at(bytes, at)?;
    Ok((Bytes::of(alloc, text)?, end))
}

// The key that these bytes are.
fn read_key(alloc: Global, text: &[u8]) -> Result<Key, Miss>
    ensures key { IfOk result (λ key. (key ≡ text.now) × IsKey key) }
    ensures none { IsErrOf result Miss.NoForm → IsKey text.now → ⊥ }
{
    match Key::read(alloc, text) {
        Ok(key) => {
            if key.bytes() == text {
                Ok(key)
            } else {
                Err(Miss::NoForm)
            }
        }
        Err(NameFault::NoMemory) => Err(Miss::NoMemory),
        Err(_) => Err(Miss::NoForm),
    }
}

pub fn key_at(alloc: Global, bytes: &[u8], at: usize) -> Result<(Key, usize), Miss>
    ensures { Reads IsKey form_bytes bytes.now at result }
{
    let (text, end) = slice_at(bytes, at)?;
    let key = read_key(alloc, text)?;
    Ok((key, end))
}

pub fn key_option_at(alloc: Global, bytes: &[u8], at: usize) -> Result<(Option<Key>, usize), Miss>
    ensures { Reads IsKeyOption form_key_option bytes.now at result }
{
    let (tag, start) = byte_at(bytes, at)?;
    match tag {
        0 => Ok((None, start)),
        1 => {
            let (key, end) = key_at(alloc, bytes, start)?;
            Ok((Some(key), end))
        }
        _ => Err(Miss::NoForm),
    }
}

pub fn origin_at(alloc: Global, bytes: &[u8], at: usize) -> Result<(Origin, usize), Miss>
    ensures { Reads IsOrigin form_origin bytes.now at result }
{
    let (tag, start) = byte_at(bytes, at)?;
    match tag {
        0 => Ok((Origin::Smtp, start)),
        1 => {
            let (mark, end) = bytes_at(alloc, bytes, start)?;
            Ok((Origin::Pickup { mark }, end))
        }
        _ => Err(Miss::NoForm),
    }
}

fn mark_at(bytes: &[u8], at: usize) -> Result<(Mark, usize), Miss>
    ensures { Reads (λ m. ⊤) form_mark bytes.now at result }
{
    let (number, end) = byte_at(bytes, at)?;
    match number {
        0 => Ok((Mark::Plain, end)),
        1 => Ok((Mark::Gate, end)),
        2 => Ok((Mark::Delay, end)),
        3 => Ok((Mark::Failure, end)),
        _ => Err(Miss::NoForm),
    }
}

pub fn name_at(bytes: &[u8], at: usize) -> Result<(ItemName, usize), Miss>
    ensures { Reads IsName form_name bytes.now at result }
{
    let (submission, at_release) = u64_at(bytes, at)?;
    let (release, at_place) = u32_at(bytes, at_release)?;
    let (place, at_mark) = u32_at(bytes, at_place)?;
    let (mark, end) = mark_at(bytes, at_mark)?;
    let name = ItemName {
        submission,
        release,
        place,
        mark,
    };
    Ok((name, end))
}

pub fn approval_name_at(bytes: &[u8], at: usize) -> Result<(ApprovalName, usize), Miss>
    ensures { Reads IsApprovalName form_approval bytes.now at result }
{
    let (submission, at_release) = u64_at(bytes, at)?;
    let (release, at_gate) = u32_at(bytes, at_release)?;
    let (gate, end) = u32_at(bytes, at_gate)?;
    let name = ApprovalName {
        submission,
        release,
        gate,
    };
    Ok((name, end))
}

pub fn verdict_at(bytes: &[u8], at: usize) -> Result<(Verdict, usize), Miss>
    ensures { Reads (λ v. ⊤) form_verdict bytes.now at result }
{
    let (number, end) = byte_at(bytes, at)?;
    match number {
        0 => Ok((Verdict::Approve, end)),
        1 => Ok((Verdict::Reject, end)),
        _ => Err(Miss::NoForm),
    }
}

pub fn gate_at(alloc: Global, bytes: &[u8], at: usize) -> Result<(Gate, usize), Miss>
    ensures { Reads IsGate form_gate bytes.now at result }
{
    let (tag, start) = byte_at(bytes, at)?;
    match tag {
        0 => {
            let (key, end) = key_at(alloc, bytes, start)?;
            Ok((Gate::Object { key }, end))
        }
        1 => {
            let (place, end) = u32_at(bytes, start)?;
            Ok((Gate::Rule { place }, end))
        }
        _ => Err(Miss::NoForm),
    }
}

fn kind_at(bytes: &[u8], at: usize) -> Result<(ItemKind, usize), Miss>
    ensures { Reads (λ k. ⊤) form_kind bytes.now at result }
{
    let (number, end) = byte_at(bytes, at)?;
    match number {
        0 => Ok((ItemKind::Version, end)),
        1 => Ok((ItemKind::Report, end)),
        2 => Ok((ItemKind::Request, end)),
        3 => Ok((ItemKind::Notice, end)),
        _ => Err(Miss::NoForm),
    }
}

fn how_at(bytes: &[u8], at: usize) -> Result<(How, usize), Miss>
    ensures { Reads (λ h. ⊤) form_how bytes.now at result }
{
    let (number, end) = byte_at(bytes, at)?;
    match number {
        0 => Ok((How::Expanded, end)),
        1 => Ok((How::Forwarded, end)),
        _ => Err(Miss::NoForm),
    }
}

fn step_at(alloc: Global, bytes: &[u8], at: usize) -> Result<(Step, usize), Miss>
    ensures { Reads IsStep form_step bytes.now at result }
{
    let (key, at_how) = key_at(alloc, bytes, at)?;
    let (how, end) = how_at(bytes, at_how)?;
    Ok((Step { key, how }, end))
}

pub fn why_at(alloc: Global, bytes: &[u8], at: usize) -> Result<(Why, usize), Miss>
    ensures { Reads IsWhy form_why bytes.now at result }
{
    let (tag, start) = byte_at(bytes, at)?;
    match tag {
        0 => Ok((Why::Direct, start)),
        1 => {
            let (groups, end) = list_at(alloc, bytes, start)?;
            Ok((Why::Via { groups }, end))
        }
        2 => {
            let (rule, end) = u32_at(bytes, start)?;
            Ok((Why::Copied { rule }, end))
        }
        3 => {
            let (rule, end) = u32_at(bytes, start)?;
            Ok((Why::Redirected { rule }, end))
        }
        4 => {
            let (steps, end) = list_at(alloc, bytes, start)?;
            Ok((Why::Through { steps }, end))
        }
        _ => Err(Miss::NoForm),
    }
}

fn item_at(alloc: Global, bytes: &[u8], at: usize) -> Result<(Item, usize), Miss>
    ensures { Reads IsItem form_item bytes.now at result }
{
    let (name, at_folder) = name_at(bytes, at)?;
    let (folder, at_kind) = key_at(alloc, bytes, at_folder)?;
    let (kind, at_why) = kind_at(bytes, at_kind)?;
    let (why, at_text) = why_at(alloc, bytes, at_why)?;
    let (text, end) = u32_at(bytes, at_text)?;
    let item = Item {
        name,
        folder,
        kind,
        why,
        text,
    };
    Ok((item, end))
}

impl Field for Bytes {
    ghost use Rattle.log_entry.specs.EntryText.{form_bytes};
    ghost use Rattle.mail_submission.specs.Fits.{IsBytes};

    ghost is = { IsBytes };

    ghost form = { form_bytes };

    fn read_at(alloc: Global, bytes: &[u8], at: usize) -> Result<(Bytes, usize), Miss> {
        bytes_at(alloc, bytes, at)
    }
}

impl Field for Key {
    ghost use Rattle.mail_names.specs.Key.{IsKey};
    ghost use Rattle.log_entry.specs.EntryText.{form_bytes};

    ghost is = { IsKey };

    ghost form = { form_bytes };

    fn read_at(alloc: Global, bytes: &[u8], at: usize) -> Result<(Key, usize), Miss> {
        key_at(alloc, bytes, at)
    }
}

impl Field for Step {
    ghost use Rattle.log_entry.specs.EntryText.{form_step};
    ghost use Rattle.mail_plan.specs.Fits.{IsStep};

    ghost is = { IsStep };

    ghost form = { form_step };

    fn read_at(alloc: Global, bytes: &[u8], at: usize) -> Result<(Step, usize), Miss> {
        step_at(alloc, bytes, at)
    }
}

impl Field for Item {
    ghost use Rattle.log_entry.specs.EntryText.{form_item};
    ghost use Rattle.mail_plan.specs.Fits.{IsItem};

    ghost is = { IsItem };

    ghost form = { form_item };

    fn read_at(alloc: Global, bytes: &[u8], at: usize) -> Result<(Item, usize), Miss> {
        item_at(alloc, bytes, at)
    }
}

// So many values, one behind another.
fn row_at<F: Field>(
    alloc: Global,
    count: u32,
    bytes: &[u8],
    start: usize,
) -> Result<(Items<F>, usize), Miss>
    requires one_form { OneForm F.is F.form }
    requires within { start ≤ length bytes.now }
    ensures { Reads (λ values. (length values ≡ count) × AllByRecursion F.is values) (flat_map F.form) bytes.now start result }
{
    let mut values = Items::new(alloc);
    let mut at = start;
    for _ in 0..count {
        let (value, end) = F::read_at(alloc, bytes, at)?;
        values.push(value)?;
        at = end;
    }
    Ok((values, at))
}

// Values behind their count.
pub fn list_at<F: Field>(alloc: Global, bytes: &[u8], at: usize) -> Result<(Items<F>, usize), Miss>
    requires { OneForm F.is F.form }
    ensures { Reads (IsListOf F.is) (form_all F.form) bytes.now at result }
{
    let (count, start) = u32_at(bytes, at)?;
    let (values, end) = row_at(alloc, count, bytes, start)?;
    Ok((values, end))
}

pub fn release_at(alloc: Global, bytes: &[u8], at: usize) -> Result<(Release, usize), Miss>
    ensures { Reads IsRelease form_release bytes.now at result }
{
    let (texts, at_items) = list_at(alloc, bytes, at)?;
    let (items, at_holds) = list_at(alloc, bytes, at_items)?;
    let (holds, at_ends) = list_at(alloc, bytes, at_holds)?;
    let (ends, end) = list_at(alloc, bytes, at_ends)?;
    let release = Release {
        texts,
        items,
        holds,
        ends,
    };
    Ok((release, end))
}

// The submission of these parts.
fn make_submission(
    alloc: Global,
    origin: Origin,
    reverse: Option<Key>,
    recipients: Items<Key>,
    bytes: Bytes,
) -> Result<Submission, Miss>
    ensures some { IfOk result (λ s. submission_of origin reverse recipients bytes ≡ Ok s) }
    ensures none { IsErrOf result Miss.NoForm → (s : Submitted) → submission_of origin reverse recipients bytes ≡ Ok s → ⊥ }
{
    match Submission::new(alloc, origin, reverse, recipients, bytes) {
        Ok(submission) => Ok(submission),
        Err(SubmissionFault::NoMemory) => Err(Miss::NoMemory),
        Err(_) => Err(Miss::NoForm),
    }
}

pub fn submission_at(alloc: Global, bytes: &[u8], at: usize) -> Result<(Submission, usize), Miss>
    ensures { Reads IsSubmission form_submission bytes.now at result }
{
    let (origin, at_reverse) = origin_at(alloc, bytes, at)?;
    let (reverse, at_recipients) = key_option_at(alloc, bytes, at_reverse)?;
    let (recipients, at_bytes) = list_at(alloc, bytes, at_recipients)?;
    let (message, end) = bytes_at(alloc, bytes, at_bytes)?;
    let submission = make_submission(alloc, origin, reverse, recipients, message)?;
    Ok((submission, end))
}
