// What entries are made of, written behind what is there: whole, or not at all.
ghost use Rattle.std.specs.Prelude.{◌≡◌, ◌++◌, OnOk, OnErr};
ghost use Rattle.mail_names.specs.Key.{IsKey};
ghost use Rattle.mail_names.specs.Names.{IsApprovalName};
ghost use Rattle.mail_submission.specs.Fits.{IsBytes, IsKeyOption, IsListOf, IsOrigin};
ghost use Rattle.mail_plan.specs.Fits.{IsName, IsGate, IsWhy, IsRelease};
ghost use Rattle.log_entry.specs.EntryText.{form_bytes, form_key_option, form_all, form_name, form_approval, form_gate, form_why, form_release, form_origin};

use crate::text;
use journal_report::Why;
use mail_names::{ApprovalName, Bytes, Gate, ItemName, Key, NoMemory};
use mail_plan::Release;
use mail_submission::Origin;

/// Appends bytes: their count as a u64, and they.
pub fn put_bytes(into: &mut Bytes, value: &Bytes) -> Result<(), NoMemory>
    ensures text { OnOk result (into.new ≡ into.old ++ form_bytes value.now) }
    ensures fits { OnOk result (IsBytes value.now) }
    ensures err { OnErr result (into.new ≡ into.old) }
{
    let mut written = into.fresh();
    text::put_bytes(&mut written, value)?;
    into.add(written.as_slice())
}

/// Appends a key, as its bytes.
pub fn put_key(into: &mut Bytes, value: &Key) -> Result<(), NoMemory>
    ensures text { OnOk result (into.new ≡ into.old ++ form_bytes value.now) }
    ensures fits { OnOk result (IsKey value.now) }
    ensures err { OnErr result (into.new ≡ into.old) }
{
    let mut written = into.fresh();
    text::put_key(&mut written, value)?;
    into.add(written.as_slice())
}

/// Appends 0, or 1 and the key.
pub fn put_key_option(into: &mut Bytes, value: &Option<Key>) -> Result<(), NoMemory>
    ensures text { OnOk result (into.new ≡ into.old ++ form_key_option value.now) }
    ensures fits { OnOk result (IsKeyOption value.now) }
    ensures err { OnErr result (into.new ≡ into.old) }
{
    let mut written = into.fresh();
    text::put_key_option(&mut written, value)?;
    into.add(written.as_slice())
}

/// Appends the count of the keys as a u32, and the keys.
pub fn put_keys(into: &mut Bytes, values: &[Key]) -> Result<(), NoMemory>
    ensures text { OnOk result (into.new ≡ into.old ++ form_all form_bytes values.now) }
    ensures fits { OnOk result (IsListOf IsKey values.now) }
    ensures err { OnErr result (into.new ≡ into.old) }
{
    let mut written = into.fresh();
    text::put_keys(&mut written, values)?;
    into.add(written.as_slice())
}

/// Appends 0 for SMTP, or 1 and the mark of the pickup file.
pub fn put_origin(into: &mut Bytes, value: &Origin) -> Result<(), NoMemory>
    ensures text { OnOk result (into.new ≡ into.old ++ form_origin value.now) }
    ensures fits { OnOk result (IsOrigin value.now) }
    ensures err { OnErr result (into.new ≡ into.old) }
{
    let mut written = into.fresh();
    text::put_origin(&mut written, value)?;
    into.add(written.as_slice())
}

/// Appends the three numbers of the name and its mark.
pub fn put_item_name(into: &mut Bytes, value: &ItemName) -> Result<(), NoMemory>
    ensures text { OnOk result (into.new ≡ into.old ++ form_name value.now) }
    ensures fits { OnOk result (IsName value.now) }
    ensures err { OnErr result (into.new ≡ into.old) }
{
    let mut written = into.fresh();
    text::put_item_name(&mut written, value)?;
    into.add(written.as_slice())
}

/// Appends the three numbers of the name.
pub fn put_approval_name(into: &mut Bytes, value: &ApprovalName) -> Result<(), NoMemory>
    ensures text { OnOk result (into.new ≡ into.old ++ form_approval value.now) }
    ensures fits { OnOk result (IsApprovalName value.now) }
    ensures err { OnErr result (into.new ≡ into.old) }
{
    let mut written = into.fresh();
    text::put_approval_name(&mut written, value)?;
    into.add(written.as_slice())
}

/// Appends 0 and the key of an object, or 1 and the place of a rule.
pub fn put_gate(into: &mut Bytes, value: &Gate) -> Result<(), NoMemory>
    ensures text { OnOk result (into.new ≡ into.old ++ form_gate value.now) }
    ensures fits { OnOk result (IsGate value.now) }
    ensures err { OnErr result (into.new ≡ into.old) }
{
    let mut written = into.fresh();
    text::put_gate(&mut written, value)?;
    into.add(written.as_slice())
}

/// Appends 0 where the envelope names the target, 1 and the groups, or 2 or 3 and the place of the rule that
/// copies or redirects.
pub fn put_why(into: &mut Bytes, value: &Why) -> Result<(), NoMemory>
    ensures text { OnOk result (into.new ≡ into.old ++ form_why value.now) }
    ensures fits { OnOk result (IsWhy value.now) }
    ensures err { OnErr result (into.new ≡ into.old) }
{
    let mut written = into.fresh();
    text::put_why(&mut written, value)?;
    into.add(written.as_slice())
}

/// Appends a release: its texts, its items, its holds and its ends.
pub fn put_release(into: &mut Bytes, value: &Release) -> Result<(), NoMemory>
    ensures text { OnOk result (into.new ≡ into.old ++ form_release value.now) }
    ensures fits { OnOk result (IsRelease value.now) }
    ensures err { OnErr result (into.new ≡ into.old) }
{
    let mut written = into.fresh();
    text::put_release(&mut written, value)?;
    into.add(written.as_slice())
}
