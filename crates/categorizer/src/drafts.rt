// The items of a release before they have names: versions, reports, requests, notices.
ghost use Rattle.std.specs.Prelude.{◌≡◌, ◌≤◌, ◌++◌, ◌∷◌, [], length, map, option_copied, IfOk, OnOk};
ghost use Rattle.categorizer.specs.Releasing.{name_at, text_at, version_of, request_to, asked, with_request, with_requests, notice_of, with_notice, with_notices, with_told, drafts_of};

use crate::parts::{Content, Draft, Letter, Loss, Send};
use crate::reports::add_reports;
use journal_report::Why;
use journal_rules::Taken;
use mail_names::{
    ApprovalName, Bytes, ItemName, Items, Key, LAST_MOMENT, Mark, NoMemory, SharedBytes,
    copied_keys, short_count,
};
use mail_notices::{Notice, notice};
use mail_plan::{Hold, ItemKind};
use moderation::APPROVAL_TIME;
use std::alloc::Global;

/// The name of an item of a release.
pub fn name_at(number: u64, release: u32, place: u32) -> ItemName
    ensures { result ≡ name_at number release place }
{
    ItemName {
        submission: number,
        release,
        place,
        mark: Mark::Plain,
    }
}

// The text of a request or notice that stands behind so many items.
fn text_at(
    alloc: Global,
    letter: &Letter,
    place: usize,
    to: &[Key],
    what: &Notice,
) -> Result<SharedBytes, NoMemory>
    requires { letter.now.made ≤ LAST_MOMENT }
    ensures { IfOk result (λ text. text ≡ text_at letter.now place to.now what.now) }
{
    let place = short_count(place)?;
    let name = name_at(letter.about.number, letter.release, place);
    let text = notice(alloc, &name, to, letter.made, &letter.about, what)?;
    SharedBytes::new(alloc, text)
}

fn versions(alloc: Global, sends: &[Send]) -> Result<Items<Draft>, NoMemory>
    ensures { IfOk result (λ drafts. drafts ≡ map version_of sends.now) }
{
    let mut drafts = Items::new(alloc);
    for send in sends {
        drafts.push(Draft {
            folder: send.target.copy(alloc)?,
            kind: ItemKind::Version,
            why: send.why.copy(alloc)?,
            text: send.text.share()?,
        })?;
    }
    Ok(drafts)
}

fn asked(alloc: Global, letter: &Letter, gate: u32, hold: &Hold) -> Result<Notice, NoMemory>
    requires { letter.now.made ≤ LAST_MOMENT }
    ensures { IfOk result (λ what. what ≡ asked letter.now gate hold.now) }
{
    Ok(Notice::Asked {
        approval: ApprovalName {
            submission: letter.about.number,
            release: letter.release,
            gate,
        },
        gate: Bytes::of(alloc, hold.label.as_slice())?,
        deadline: letter.made + APPROVAL_TIME,
    })
}

// Adds the request for each moderator.
fn add_asked(
    alloc: Global,
    text: &SharedBytes,
    moderators: &[Key],
    drafts: &mut Items<Draft>,
) -> Result<(), NoMemory>
    ensures { OnOk result (drafts.new ≡ drafts.old ++ map (request_to text.now) moderators.now) }
{
    for moderator in moderators {
        drafts.push(Draft {
            folder: moderator.copy(alloc)?,
            kind: ItemKind::Request,
            why: Why::Direct,
            text: text.share()?,
        })?;
    }
    Ok(())
}

fn add_request(
    alloc: Global,
    letter: &Letter,
    drafts: &mut Items<Draft>,
    gate: u32,
    hold: &Hold,
) -> Result<(), NoMemory>
    requires { letter.now.made ≤ LAST_MOMENT }
    ensures { OnOk result (drafts.new ≡ with_request letter.now drafts.old gate hold.now) }
{
    let what = asked(alloc, letter, gate, hold)?;
    let moderators = hold.moderators.as_slice();
    let text = text_at(alloc, letter, drafts.len(), moderators, &what)?;
    add_asked(alloc, &text, moderators, drafts)
}

fn add_requests(
    alloc: Global,
    letter: &Letter,
    drafts: &mut Items<Draft>,
    holds: &[Hold],
) -> Result<(), NoMemory>
    requires { letter.now.made ≤ LAST_MOMENT }
    ensures { OnOk result (drafts.new ≡ with_requests letter.now drafts.old 0 holds.now) }
{
    for (i, hold) in holds.iter().enumerate() {
        let gate = short_count(i)?;
        add_request(alloc, letter, drafts, gate, hold)?;
    }
    Ok(())
}

fn notice_of(alloc: Global, loss: &Loss) -> Result<Notice, NoMemory>
    ensures { IfOk result (λ what. what ≡ notice_of loss.now) }
{
    match loss {
        Loss::Rejected {
            rule,
            name,
            code,
            words,
            keys,
        } => Ok(Notice::Rejected {
            rule: *rule,
            name: Bytes::of(alloc, name.as_slice())?,
            code: *code,
            words: Bytes::of(alloc, words.as_slice())?,
            keys: copied_keys(alloc, keys.as_slice())?,
        }),
        Loss::Unknown { keys } => Ok(Notice::Unknown {
            keys: copied_keys(alloc, keys.as_slice())?,
        }),
        Loss::TooMany => Ok(Notice::TooMany),
    }
}

fn add_notice(
    alloc: Global,
    letter: &Letter,
    to: &Key,
    drafts: &mut Items<Draft>,
    loss: &Loss,
) -> Result<(), NoMemory>
    requires { letter.now.made ≤ LAST_MOMENT }
    ensures { OnOk result (drafts.new ≡ with_notice letter.now to.now drafts.old loss.now) }
{
    let what = notice_of(alloc, loss)?;
    let mut one = Items::new(alloc);
    one.push(to.copy(alloc)?)?;
    let text = text_at(alloc, letter, drafts.len(), one.as_slice(), &what)?;
    drafts.push(Draft {
        folder: to.copy(alloc)?,
        kind: ItemKind::Notice,
        why: Why::Direct,
        text,
    })?;
    Ok(())
}

fn add_notices(
    alloc: Global,
    letter: &Letter,
    to: &Key,
    drafts: &mut Items<Draft>,
    losses: &[Loss],
) -> Result<(), NoMemory>
    requires { letter.now.made ≤ LAST_MOMENT }
    ensures { OnOk result (drafts.new ≡ with_notices letter.now to.now drafts.old losses.now) }
{
    for loss in losses {
        add_notice(alloc, letter, to, drafts, loss)?;
    }
    Ok(())
}

fn add_told(
    alloc: Global,
    letter: &Letter,
    sender: Option<&Key>,
    drafts: &mut Items<Draft>,
    losses: &[Loss],
) -> Result<(), NoMemory>
    requires { letter.now.made ≤ LAST_MOMENT }
    ensures { OnOk result (drafts.new ≡ with_told letter.now (option_copied sender.entry) drafts.old losses.now) }
{
    match sender {
        None => Ok(()),
        Some(to) => add_notices(alloc, letter, to, drafts, losses),
    }
}

/// The items of a release, in order, with a report to each of these mailboxes.
pub fn drafts_of(
    alloc: Global,
    letter: &Letter,
    sender: Option<&Key>,
    taken: &[Taken],
    content: &Content,
) -> Result<Items<Draft>, NoMemory>
    requires { letter.now.made ≤ LAST_MOMENT }
    ensures { IfOk result (λ drafts. drafts ≡ drafts_of letter.now (option_copied sender.entry) taken.now content.now) }
{
    let sends = content.sent.as_slice();
    let mut drafts = versions(alloc, sends)?;
    add_reports(alloc, letter, sender, sends, &mut drafts, taken)?;
    add_requests(alloc, letter, &mut drafts, content.holds.as_slice())?;
    add_told(
        alloc,
        letter,
        sender,
        &mut drafts,
        content.losses.as_slice(),
    )?;
    Ok(drafts)
}
