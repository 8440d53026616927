// Releases.
ghost use Rattle.std.specs.Prelude.{◌≡◌, map, IfOk};
ghost use Rattle.categorizer.specs.Releasing.{end_of, release_from, release_of, hub_release};

use crate::HubOrg;
use crate::content::content_of;
use crate::drafts::drafts_of;
use crate::letter::letter_of;
use crate::numbering::numbered;
use crate::parts::{Content, Draft, Loss};
use crate::reports::journaled;
use mail_message::Message;
use mail_names::{Items, NoMemory, copied_keys};
use mail_plan::{End, Release, ReleaseInput};
use std::alloc::Global;

fn end_of(alloc: Global, loss: &Loss) -> Result<End, NoMemory>
    ensures { IfOk result (λ end. end ≡ end_of loss.now) }
{
    match loss {
        Loss::Rejected { rule, keys, .. } => Ok(End::Rejected {
            rule: *rule,
            keys: copied_keys(alloc, keys.as_slice())?,
        }),
        Loss::Unknown { keys } => Ok(End::Unknown {
            keys: copied_keys(alloc, keys.as_slice())?,
        }),
        Loss::TooMany => Ok(End::TooMany),
    }
}

fn ends_of(alloc: Global, losses: &[Loss]) -> Result<Items<End>, NoMemory>
    ensures { IfOk result (λ ends. ends ≡ map end_of losses.now) }
{
    let mut ends = Items::new(alloc);
    for loss in losses {
        ends.push(end_of(alloc, loss)?)?;
    }
    Ok(ends)
}

fn release_from(
    alloc: Global,
    number: u64,
    release: u32,
    drafts: &[Draft],
    content: Content,
) -> Result<Release, NoMemory>
    ensures { IfOk result (λ made. made ≡ release_from number release drafts.now content) }
{
    let Content {
        sent: _,
        holds,
        losses,
    } = content;
    let (texts, items) = numbered(alloc, number, release, drafts)?;
    let ends = ends_of(alloc, losses.as_slice())?;
    Ok(Release {
        texts,
        items,
        holds,
        ends,
    })
}

fn release_of(
    alloc: Global,
    org: &HubOrg,
    input: &ReleaseInput,
    message: &Message,
) -> Result<Release, NoMemory>
    ensures { IfOk result (λ made. made ≡ release_of org.now input.now message.now) }
{
    let letter = letter_of(alloc, input, message)?;
    let content = content_of(alloc, org, input, message)?;
    let sender = input.submission().reverse();
    let taken = journaled(alloc, org, sender, content.sent.as_slice())?;
    let drafts = drafts_of(alloc, &letter, sender, taken.as_slice(), &content)?;
    release_from(
        alloc,
        input.number(),
        input.release(),
        drafts.as_slice(),
        content,
    )
}

/// What the organisation prescribes for a release of a submission: the versions, requests and notices that are new with
/// the gates opened, reports of these versions to the mailboxes that take them, the gates that are newly met, and who
/// gets nothing.
pub fn release(alloc: Global, org: &HubOrg, input: &ReleaseInput) -> Result<Release, NoMemory>
    ensures { IfOk result (λ made. made ≡ hub_release org.now input.now) }
{
    let submission = input.submission();
    let message = submission.base_message(alloc, input.number())?;
    release_of(alloc, org, input, &message)
}
