// Outcomes and progress for one recipient more, which share the texts.
ghost use Rattle.std.specs.Prelude.{◌≡◌, IfOk};

use crate::recipient::{End, MadeCopy, Progress, RuleOutcome};
use mail_names::{Bytes, Items, NoMemory};
use std::alloc::Global;

fn shared_copy(alloc: Global, copied: &MadeCopy) -> Result<MadeCopy, NoMemory>
    ensures { IfOk result (λ shared. shared ≡ copied.now) }
{
    Ok(MadeCopy {
        target: copied.target.copy(alloc)?,
        text: copied.text.share()?,
        rule: copied.rule,
    })
}

fn shared_copies(alloc: Global, copies: &[MadeCopy]) -> Result<Items<MadeCopy>, NoMemory>
    ensures { IfOk result (λ shared. shared ≡ copies.now) }
{
    let mut shared = Items::new(alloc);
    for copied in copies {
        shared.push(shared_copy(alloc, copied)?)?;
    }
    Ok(shared)
}

fn shared_end(alloc: Global, end: &End) -> Result<End, NoMemory>
    ensures { IfOk result (λ shared. shared ≡ end.now) }
{
    match end {
        End::Keep { text } => Ok(End::Keep {
            text: text.share()?,
        }),
        End::Redirect { target, text, rule } => Ok(End::Redirect {
            target: target.copy(alloc)?,
            text: text.share()?,
            rule: *rule,
        }),
        End::Reject { rule, code, words } => Ok(End::Reject {
            rule: *rule,
            code: *code,
            words: Bytes::of(alloc, words.as_slice())?,
        }),
        End::Held { rule } => Ok(End::Held { rule: *rule }),
    }
}

impl RuleOutcome {
    /// The same outcome, for one recipient more. It shares the texts.
    pub fn share(&self, alloc: Global) -> Result<RuleOutcome, NoMemory>
        ensures { IfOk result (λ shared. shared ≡ self.now) }
    {
        Ok(RuleOutcome {
            copies: shared_copies(alloc, self.copies.as_slice())?,
            end: shared_end(alloc, &self.end)?,
        })
    }
}

/// The same progress, for a set of recipients that goes its own way from here on. It copies the message, and shares the texts
/// of the copies.
pub fn shared_progress(alloc: Global, progress: &Progress) -> Result<Progress, NoMemory>
    ensures { IfOk result (λ shared. shared ≡ progress.now) }
{
    Ok(Progress {
        message: progress.message.copy(alloc)?,
        copies: shared_copies(alloc, progress.copies.as_slice())?,
    })
}
