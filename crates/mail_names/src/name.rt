// The names of items.
ghost use Rattle.std.specs.Prelude.{◌≡◌, ◌≢◌, ◌++◌, IfOk, OnOk, IfSome, IfNone};
ghost use Rattle.mail_names.specs.Names.{mark_text, mark_number, same_name, numbers_text, name_text, approval_text, IsItemName, IsApprovalName};
ghost use Rattle.mail_names.specs.declared.name.ApprovalName.{ApprovalName};
ghost use Rattle.mail_names.specs.declared.name.ItemName.{ItemName};
ghost use Rattle.mail_names.specs.declared.name.Mark.{Mark};

use crate::decimal::{Numbers, read_numbers};
use crate::{Bytes, NoMemory};
use std::alloc::Global;

/// Which item of a name this is: the one of its release, or a notice about it.
#[derive(Clone, Copy, Debug, PartialEq, Eq, PartialOrd, Ord)]
pub enum Mark {
    /// An item of a release.
    Plain,
    /// The notice of a gate that was refused or ran out.
    Gate,
    /// The notice of a delay.
    Delay,
    /// The notice of a failure.
    Failure,
}

/// The name of an item: its submission, the release of it, its place there, and its mark.
///
/// Names are ordered by these four, the marks in the order of `Mark`.
#[derive(Clone, Copy, Debug, PartialEq, Eq, PartialOrd, Ord)]
pub struct ItemName {
    pub submission: u64,
    pub release: u32,
    pub place: u32,
    pub mark: Mark,
}

/// The name of an approval: its submission, its release, and the place of its gate there.
///
/// Names are ordered by these three.
#[derive(Clone, Copy, Debug, PartialEq, Eq, PartialOrd, Ord)]
pub struct ApprovalName {
    pub submission: u64,
    pub release: u32,
    pub gate: u32,
}

impl Mark {
    // The mark that stands behind the numbers.
    fn read(text: &[u8]) -> Option<Mark>
        ensures some { IfSome result (λ mark. mark_text mark ≡ text.now) }
        ensures none { IfNone result ((mark : Mark) → mark_text mark ≢ text.now) }
    {
        match text {
            b"" => Some(Mark::Plain),
            b"-g" => Some(Mark::Gate),
            b"-d" => Some(Mark::Delay),
            b"-u" => Some(Mark::Failure),
            _ => None,
        }
    }

    // What stands behind the numbers.
    fn text(self) -> &'static [u8]
        ensures { result.now ≡ mark_text self }
    {
        match self {
            Mark::Plain => b"",
            Mark::Gate => b"-g",
            Mark::Delay => b"-d",
            Mark::Failure => b"-u",
        }
    }
}

/// The place of a mark among marks.
pub fn mark_number(mark: Mark) -> u8
    ensures { result ≡ mark_number mark }
{
    match mark {
        Mark::Plain => 0,
        Mark::Gate => 1,
        Mark::Delay => 2,
        Mark::Failure => 3,
    }
}

/// Whether these are one name.
pub fn same_name(a: &ItemName, b: &ItemName) -> bool
    ensures { result ≡ same_name a.now b.now }
{
    a.submission == b.submission
        && a.release == b.release
        && a.place == b.place
        && mark_number(a.mark) == mark_number(b.mark)
}

// Three numbers in decimal.
fn numbers_text(alloc: Global, submission: u64, release: u32, place: u32) -> Result<Bytes, NoMemory>
    ensures { IfOk result (λ text. text ≡ numbers_text submission release place) }
{
    let text = format!(in alloc; "{submission}-{release}-{place}")?;
    Bytes::of(alloc, text.as_bytes())
}

impl ItemName {
    /// The name as text: `submission-release-place` in decimal, with `-g`, `-d` or `-u` for a notice.
    pub fn text(&self, alloc: Global) -> Result<Bytes, NoMemory>
        ensures { IfOk result (λ text. text ≡ name_text self.now) }
    {
        let mut text = numbers_text(alloc, self.submission, self.release, self.place)?;
        text.add(self.mark.text())?;
        Ok(text)
    }

    /// The name that this text is. It takes no memory.
    ///
    /// Numbers have no leading zeros and fit their types.
    pub fn read(text: &[u8]) -> Option<ItemName>
        ensures some { IfSome result (λ name. name_text name ≡ text.now) }
        ensures none { IfNone result ((name : ItemName) → IsItemName name → name_text name ≢ text.now) }
    {
        let Numbers {
            submission,
            release,
            place,
            rest,
        } = read_numbers(text)?;
        let mark = Mark::read(rest)?;
        Some(ItemName {
            submission,
            release,
            place,
            mark,
        })
    }
}

impl ApprovalName {
    /// The name as text: `submission-release-gate` in decimal.
    pub fn text(&self, alloc: Global) -> Result<Bytes, NoMemory>
        ensures { IfOk result (λ text. text ≡ approval_text self.now) }
    {
        numbers_text(alloc, self.submission, self.release, self.gate)
    }

    /// The name that this text is. It takes no memory.
    ///
    /// Numbers have no leading zeros and fit their types.
    pub fn read(text: &[u8]) -> Option<ApprovalName>
        ensures some { IfSome result (λ name. approval_text name ≡ text.now) }
        ensures none { IfNone result ((name : ApprovalName) → IsApprovalName name → approval_text name ≢ text.now) }
    {
        let Numbers {
            submission,
            release,
            place,
            rest,
        } = read_numbers(text)?;
        if !rest.is_empty() {
            return None;
        }
        Some(ApprovalName {
            submission,
            release,
            gate: place,
        })
    }
}
