// The bytes of entries in the log, written.
ghost use Rattle.std.specs.Prelude.{◌≡◌, ◌++◌, OnOk, IfOk, option_copied};
ghost use Rattle.mail_names.specs.Key.{IsKey};
ghost use Rattle.mail_names.specs.Names.{IsApprovalName};
ghost use Rattle.mail_submission.specs.Fits.{IsU32, IsBytes, IsKeyOption, IsListOf, IsOrigin, IsSubmission};
ghost use Rattle.mail_plan.specs.Fits.{IsName, IsGate, IsStep, IsWhy, IsItem, IsHold, IsEnd, IsRelease};
ghost use Rattle.log_entry.specs.Entries.{IsDecided, IsEntry};
ghost use Rattle.log_entry.specs.EntryText.{le32, le64, form_bytes, form_key_option, form_all, form_mark, form_name, form_approval, form_gate, form_kind, form_how, form_step, form_why, form_item, form_tell, form_hold, form_end, form_release, form_origin, form_submission, form_verdict, form_decided, entry_text};

use crate::Entry;
use journal_report::Why;
use mail_names::{ApprovalName, Bytes, Gate, How, ItemName, Key, Mark, NoMemory, Step};
use mail_plan::{End, Hold, Item, ItemKind, Release};
use mail_submission::{Origin, Submission};
use moderation::{Tell, Verdict};
use std::alloc::Global;

#[tactic(auto, unfolding(crate::specs::EntryText::le64))]
fn put_u64(into: &mut Bytes, value: u64) -> Result<(), NoMemory>
    ensures { OnOk result (into.new ≡ into.old ++ le64 value) }
{
    into.add(&value.to_le_bytes())
}

#[tactic(auto, unfolding(crate::specs::EntryText::le32))]
fn put_u32(into: &mut Bytes, value: u32) -> Result<(), NoMemory>
    ensures { OnOk result (into.new ≡ into.old ++ le32 value) }
{
    into.add(&value.to_le_bytes())
}

// A list of 2^32 elements or more has no form.
fn put_count(into: &mut Bytes, count: usize) -> Result<(), NoMemory>
    ensures text { OnOk result (into.new ≡ into.old ++ le32 count) }
    ensures fits { OnOk result (IsU32 count) }
{
    let count = u32::try_from(count).map_err(|_| NoMemory)?;
    put_u32(into, count)
}

fn put_slice(into: &mut Bytes, value: &[u8]) -> Result<(), NoMemory>
    ensures text { OnOk result (into.new ≡ into.old ++ form_bytes value.now) }
    ensures fits { OnOk result (IsBytes value.now) }
{
    put_u64(into, value.len() as u64)?;
    into.add(value)
}

/// Appends bytes: their count as a u64, and they.
pub fn put_bytes(into: &mut Bytes, value: &Bytes) -> Result<(), NoMemory>
    ensures text { OnOk result (into.new ≡ into.old ++ form_bytes value.now) }
    ensures fits { OnOk result (IsBytes value.now) }
{
    put_slice(into, value.as_slice())
}

/// Appends a key, as its bytes.
pub fn put_key(into: &mut Bytes, value: &Key) -> Result<(), NoMemory>
    ensures text { OnOk result (into.new ≡ into.old ++ form_bytes value.now) }
    ensures fits { OnOk result (IsKey value.now) }
{
    put_slice(into, value.bytes())
}

/// Appends 0, or 1 and the key.
pub fn put_key_option(into: &mut Bytes, value: &Option<Key>) -> Result<(), NoMemory>
    ensures text { OnOk result (into.new ≡ into.old ++ form_key_option value.now) }
    ensures fits { OnOk result (IsKeyOption value.now) }
{
    match value {
        None => into.add(&[0]),
        Some(key) => {
            into.add(&[1])?;
            put_key(into, key)
        }
    }
}

/// Appends the count of the keys as a u32, and the keys.
pub fn put_keys(into: &mut Bytes, values: &[Key]) -> Result<(), NoMemory>
    ensures text { OnOk result (into.new ≡ into.old ++ form_all form_bytes values.now) }
    ensures fits { OnOk result (IsListOf IsKey values.now) }
{
    put_count(into, values.len())?;
    for value in values {
        put_key(into, value)?;
    }
    Ok(())
}

/// Appends 0 for SMTP, or 1 and the mark of the pickup file.
pub fn put_origin(into: &mut Bytes, value: &Origin) -> Result<(), NoMemory>
    ensures text { OnOk result (into.new ≡ into.old ++ form_origin value.now) }
    ensures fits { OnOk result (IsOrigin value.now) }
{
    match value {
        Origin::Smtp => into.add(&[0]),
        Origin::Pickup { mark } => {
            into.add(&[1])?;
            put_bytes(into, mark)
        }
    }
}

fn put_mark(into: &mut Bytes, value: Mark) -> Result<(), NoMemory>
    ensures { OnOk result (into.new ≡ into.old ++ form_mark value) }
{
    match value {
        Mark::Plain => into.add(&[0]),
        Mark::Gate => into.add(&[1]),
        Mark::Delay => into.add(&[2]),
        Mark::Failure => into.add(&[3]),
    }
}

/// Appends the three numbers of the name and its mark.
pub fn put_item_name(into: &mut Bytes, value: &ItemName) -> Result<(), NoMemory>
    ensures text { OnOk result (into.new ≡ into.old ++ form_name value.now) }
    ensures fits { OnOk result (IsName value.now) }
{
    put_u64(into, value.submission)?;
    put_u32(into, value.release)?;
    put_u32(into, value.place)?;
    put_mark(into, value.mark)
}

/// Appends the three numbers of the name.
pub fn put_approval_name(into: &mut Bytes, value: &ApprovalName) -> Result<(), NoMemory>
    ensures text { OnOk result (into.new ≡ into.old ++ form_approval value.now) }
    ensures fits { OnOk result (IsApprovalName value.now) }
{
    put_u64(into, value.submission)?;
    put_u32(into, value.release)?;
    put_u32(into, value.gate)
}

/// Appends 0 and the key of an object, or 1 and the place of a rule.
pub fn put_gate(into: &mut Bytes, value: &Gate) -> Result<(), NoMemory>
    ensures text { OnOk result (into.new ≡ into.old ++ form_gate value.now) }
    ensures fits { OnOk result (IsGate value.now) }
{
    match value {
        Gate::Object { key } => {
            into.add(&[0])?;
            put_key(into, key)
        }
        Gate::Rule { place } => {
            into.add(&[1])?;
            put_u32(into, *place)
        }
    }
}

fn put_kind(into: &mut Bytes, value: ItemKind) -> Result<(), NoMemory>
    ensures { OnOk result (into.new ≡ into.old ++ form_kind value) }
{
    match value {
        ItemKind::Version => into.add(&[0]),
        ItemKind::Report => into.add(&[1]),
        ItemKind::Request => into.add(&[2]),
        ItemKind::Notice => into.add(&[3]),
    }
}

fn put_how(into: &mut Bytes, value: How) -> Result<(), NoMemory>
    ensures { OnOk result (into.new ≡ into.old ++ form_how value) }
{
    match value {
        How::Expanded => into.add(&[0]),
        How::Forwarded => into.add(&[1]),
    }
}

fn put_step(into: &mut Bytes, value: &Step) -> Result<(), NoMemory>
    ensures text { OnOk result (into.new ≡ into.old ++ form_step value.now) }
    ensures fits { OnOk result (IsStep value.now) }
{
    put_key(into, &value.key)?;
    put_how(into, value.how)
}

fn put_steps(into: &mut Bytes, values: &[Step]) -> Result<(), NoMemory>
    ensures text { OnOk result (into.new ≡ into.old ++ form_all form_step values.now) }
    ensures fits { OnOk result (IsListOf IsStep values.now) }
{
    put_count(into, values.len())?;
    for value in values {
        put_step(into, value)?;
    }
    Ok(())
}

/// Appends 0 where the envelope names the target, 1 and the groups, 2 or 3 and the place of the rule that copies or
/// redirects, or 4 and the steps.
pub fn put_why(into: &mut Bytes, value: &Why) -> Result<(), NoMemory>
    ensures text { OnOk result (into.new ≡ into.old ++ form_why value.now) }
    ensures fits { OnOk result (IsWhy value.now) }
{
    match value {
        Why::Direct => into.add(&[0]),
        Why::Via { groups } => {
            into.add(&[1])?;
            put_keys(into, groups.as_slice())
        }
        Why::Copied { rule } => {
            into.add(&[2])?;
            put_u32(into, *rule)
        }
        Why::Redirected { rule } => {
            into.add(&[3])?;
            put_u32(into, *rule)
        }
        Why::Through { steps } => {
            into.add(&[4])?;
            put_steps(into, steps.as_slice())
        }
    }
}

fn put_item(into: &mut Bytes, value: &Item) -> Result<(), NoMemory>
    ensures text { OnOk result (into.new ≡ into.old ++ form_item value.now) }
    ensures fits { OnOk result (IsItem value.now) }
{
    put_item_name(into, &value.name)?;
    put_key(into, &value.folder)?;
    put_kind(into, value.kind)?;
    put_why(into, &value.why)?;
    put_u32(into, value.text)
}

fn put_texts(into: &mut Bytes, values: &[Bytes]) -> Result<(), NoMemory>
    ensures text { OnOk result (into.new ≡ into.old ++ form_all form_bytes values.now) }
    ensures fits { OnOk result (IsListOf IsBytes values.now) }
{
    put_count(into, values.len())?;
    for value in values {
        put_bytes(into, value)?;
    }
    Ok(())
}

fn put_items(into: &mut Bytes, values: &[Item]) -> Result<(), NoMemory>
    ensures text { OnOk result (into.new ≡ into.old ++ form_all form_item values.now) }
    ensures fits { OnOk result (IsListOf IsItem values.now) }
{
    put_count(into, values.len())?;
    for value in values {
        put_item(into, value)?;
    }
    Ok(())
}

fn put_tell(into: &mut Bytes, value: Tell) -> Result<(), NoMemory>
    ensures { OnOk result (into.new ≡ into.old ++ form_tell value) }
{
    match value {
        Tell::Always => into.add(&[0]),
        Tell::Internal => into.add(&[1]),
        Tell::Never => into.add(&[2]),
    }
}

fn put_hold(into: &mut Bytes, value: &Hold) -> Result<(), NoMemory>
    ensures text { OnOk result (into.new ≡ into.old ++ form_hold value.now) }
    ensures fits { OnOk result (IsHold value.now) }
{
    put_gate(into, &value.gate)?;
    put_bytes(into, &value.label)?;
    put_keys(into, value.moderators.as_slice())?;
    put_tell(into, value.tell)
}

fn put_end(into: &mut Bytes, value: &End) -> Result<(), NoMemory>
    ensures text { OnOk result (into.new ≡ into.old ++ form_end value.now) }
    ensures fits { OnOk result (IsEnd value.now) }
{
    match value {
        End::Rejected { rule, keys } => {
            into.add(&[0])?;
            put_u32(into, *rule)?;
            put_keys(into, keys.as_slice())
        }
        End::Unknown { keys } => {
            into.add(&[1])?;
            put_keys(into, keys.as_slice())
        }
        End::TooMany => into.add(&[2]),
    }
}

fn put_holds(into: &mut Bytes, values: &[Hold]) -> Result<(), NoMemory>
    ensures text { OnOk result (into.new ≡ into.old ++ form_all form_hold values.now) }
    ensures fits { OnOk result (IsListOf IsHold values.now) }
{
    put_count(into, values.len())?;
    for value in values {
        put_hold(into, value)?;
    }
    Ok(())
}

fn put_ends(into: &mut Bytes, values: &[End]) -> Result<(), NoMemory>
    ensures text { OnOk result (into.new ≡ into.old ++ form_all form_end values.now) }
    ensures fits { OnOk result (IsListOf IsEnd values.now) }
{
    put_count(into, values.len())?;
    for value in values {
        put_end(into, value)?;
    }
    Ok(())
}

/// Appends a release: its texts, its items, its holds and its ends.
pub fn put_release(into: &mut Bytes, value: &Release) -> Result<(), NoMemory>
    ensures text { OnOk result (into.new ≡ into.old ++ form_release value.now) }
    ensures fits { OnOk result (IsRelease value.now) }
{
    put_texts(into, value.texts.as_slice())?;
    put_items(into, value.items.as_slice())?;
    put_holds(into, value.holds.as_slice())?;
    put_ends(into, value.ends.as_slice())
}

fn put_reverse(into: &mut Bytes, value: Option<&Key>) -> Result<(), NoMemory>
    ensures text { OnOk result (into.new ≡ into.old ++ form_key_option (option_copied value.entry)) }
    ensures fits { OnOk result (IsKeyOption (option_copied value.entry)) }
{
    match value {
        None => into.add(&[0]),
        Some(key) => {
            into.add(&[1])?;
            put_key(into, key)
        }
    }
}

fn put_submission(into: &mut Bytes, value: &Submission) -> Result<(), NoMemory>
    ensures text { OnOk result (into.new ≡ into.old ++ form_submission value.now) }
    ensures fits { OnOk result (IsSubmission value.now) }
{
    put_origin(into, value.origin())?;
    put_reverse(into, value.reverse())?;
    put_keys(into, value.recipients())?;
    put_slice(into, value.bytes())
}

fn put_verdict(into: &mut Bytes, value: Verdict) -> Result<(), NoMemory>
    ensures { OnOk result (into.new ≡ into.old ++ form_verdict value) }
{
    match value {
        Verdict::Approve => into.add(&[0]),
        Verdict::Reject => into.add(&[1]),
    }
}

fn put_decided(
    into: &mut Bytes,
    approval: &ApprovalName,
    by: &Key,
    verdict: Verdict,
    moment: u64,
) -> Result<(), NoMemory>
    ensures text { OnOk result (into.new ≡ into.old ++ form_decided (approval.now, by.now, verdict, moment)) }
    ensures fits { OnOk result (IsDecided (approval.now, by.now, verdict, moment)) }
{
    put_approval_name(into, approval)?;
    put_key(into, by)?;
    put_verdict(into, verdict)?;
    put_u64(into, moment)
}

fn put_entry(into: &mut Bytes, entry: &Entry) -> Result<(), NoMemory>
    ensures text { OnOk result (into.new ≡ into.old ++ entry_text entry.now) }
    ensures fits { OnOk result (IsEntry entry.now) }
{
    match entry {
        Entry::Organised { directory, rules } => {
            into.add(&[1])?;
            put_bytes(into, directory)?;
            put_bytes(into, rules)
        }
        Entry::Accepted { moment, submission } => {
            into.add(&[2])?;
            put_u64(into, *moment)?;
            put_submission(into, submission)
        }
        Entry::Categorised {
            number,
            release,
            plan,
        } => {
            into.add(&[3])?;
            put_u64(into, *number)?;
            put_u32(into, *release)?;
            put_release(into, plan)
        }
        Entry::Decided {
            approval,
            by,
            verdict,
            moment,
        } => {
            into.add(&[4])?;
            put_decided(into, approval, by, *verdict, *moment)
        }
        Entry::Moment { moment } => {
            into.add(&[5])?;
            put_u64(into, *moment)
        }
        Entry::Delivered { name } => {
            into.add(&[6])?;
            put_item_name(into, name)
        }
        Entry::Delayed { name } => {
            into.add(&[7])?;
            put_item_name(into, name)
        }
        Entry::Ended { name } => {
            into.add(&[8])?;
            put_item_name(into, name)
        }
        Entry::Forgot { number } => {
            into.add(&[9])?;
            put_u64(into, *number)
        }
    }
}

impl Entry {
    /// The bytes of the entry in the log: its kind, and its fields in order.
    ///
    /// An entry with a list of 2^32 elements or more has none, and is answered with want of memory.
    pub fn text(&self, alloc: Global) -> Result<Bytes, NoMemory>
        ensures text { IfOk result (λ text. text ≡ entry_text self.now) }
        ensures entry { OnOk result (IsEntry self.now) }
    {
        let mut text = Bytes::new(alloc);
        put_entry(&mut text, self)?;
        Ok(text)
    }
}
