// Reports to journaling mailboxes.
ghost use Rattle.std.specs.Prelude.{◌≡◌, ◌≤◌, ◌++◌, ◌∷◌, [], length, map, slice_get, option_copied, Some, IfOk, OnOk};
ghost use Rattle.categorizer.specs.Releasing.{line_at, lines_at, head_at, report_at, with_reports, journaled};

use crate::HubOrg;
use crate::drafts::name_at;
use crate::parts::{Draft, Letter, Send};
use journal_report::{Line, ReportHead, Why, report};
use journal_rules::{Taken, mailboxes};
use mail_names::{Bytes, Items, Key, LAST_MOMENT, NoMemory, SharedBytes, short_count};
use mail_plan::ItemKind;
use std::alloc::Global;

fn targets_of(alloc: Global, sends: &[Send]) -> Result<Items<Key>, NoMemory>
    ensures { IfOk result (λ targets. targets ≡ map (λ send. send.target) sends.now) }
{
    let mut targets = Items::new(alloc);
    for send in sends {
        targets.push(send.target.copy(alloc)?)?;
    }
    Ok(targets)
}

/// The mailboxes that take some of these versions for a sender, each with the places of all that it takes.
pub fn journaled(
    alloc: Global,
    org: &HubOrg,
    sender: Option<&Key>,
    sends: &[Send],
) -> Result<Vec<Taken>, NoMemory>
    ensures { IfOk result (λ all. all.items ≡ journaled org.now (option_copied sender.entry) sends.now) }
{
    let targets = targets_of(alloc, sends)?;
    let targets = targets.as_slice();
    let _count = short_count(targets.len())?;
    mailboxes(alloc, org.book(), org.directory(), sender, targets)
}

fn add_send(alloc: Global, send: &Send, lines: &mut Items<Line>) -> Result<(), NoMemory>
    ensures { OnOk result (lines.new ≡ lines.old ++ line_at (Some send.now)) }
{
    let target = send.target.copy(alloc)?;
    let why = send.why.copy(alloc)?;
    Ok(lines.push(Line { target, why })?)
}

// Adds the line of the version at a place.
fn add_line(
    alloc: Global,
    sends: &[Send],
    place: u32,
    lines: &mut Items<Line>,
) -> Result<(), NoMemory>
    ensures { OnOk result (lines.new ≡ lines.old ++ line_at (slice_get sends.now place)) }
{
    match sends.get(place as usize) {
        None => Ok(()),
        Some(send) => add_send(alloc, send, lines),
    }
}

fn lines_at(alloc: Global, sends: &[Send], places: &[u32]) -> Result<Items<Line>, NoMemory>
    ensures { IfOk result (λ lines. lines ≡ lines_at sends.now places.now) }
{
    let mut lines = Items::new(alloc);
    for place in places {
        add_line(alloc, sends, *place, &mut lines)?;
    }
    Ok(lines)
}

fn copied_sender(alloc: Global, sender: Option<&Key>) -> Result<Option<Key>, NoMemory>
    ensures { IfOk result (λ copied. copied ≡ option_copied sender.entry) }
{
    match sender {
        None => Ok(None),
        Some(key) => Ok(Some(key.copy(alloc)?)),
    }
}

fn head_at(
    alloc: Global,
    letter: &Letter,
    sender: Option<&Key>,
    place: u32,
    mailbox: &Key,
) -> Result<ReportHead, NoMemory>
    ensures { IfOk result (λ head. head ≡ head_at letter.now (option_copied sender.entry) place mailbox.now) }
{
    Ok(ReportHead {
        name: name_at(letter.about.number, letter.release, place),
        moment: letter.made,
        mailbox: mailbox.copy(alloc)?,
        sender: copied_sender(alloc, sender)?,
        message_id: Bytes::of(alloc, letter.about.message_id.as_slice())?,
        subject: Bytes::of(alloc, letter.about.subject.as_slice())?,
    })
}

// The report that stands behind so many items.
fn report_at(
    alloc: Global,
    letter: &Letter,
    sender: Option<&Key>,
    sends: &[Send],
    place: usize,
    taken: &Taken,
) -> Result<Draft, NoMemory>
    requires { letter.now.made ≤ LAST_MOMENT }
    ensures { IfOk result (λ draft. draft ≡ report_at letter.now (option_copied sender.entry) sends.now place taken.now) }
{
    let head = head_at(alloc, letter, sender, short_count(place)?, &taken.mailbox)?;
    let lines = lines_at(alloc, sends, taken.targets.as_slice())?;
    let original = letter.about.original.as_slice();
    let text = SharedBytes::new(alloc, report(alloc, &head, lines.as_slice(), original)?)?;
    Ok(Draft {
        folder: taken.mailbox.copy(alloc)?,
        kind: ItemKind::Report,
        why: Why::Direct,
        text,
    })
}

/// Adds a report to each of these mailboxes.
pub fn add_reports(
    alloc: Global,
    letter: &Letter,
    sender: Option<&Key>,
    sends: &[Send],
    drafts: &mut Items<Draft>,
    all: &[Taken],
) -> Result<(), NoMemory>
    requires { letter.now.made ≤ LAST_MOMENT }
    ensures { OnOk result (drafts.new ≡ with_reports letter.now (option_copied sender.entry) sends.now drafts.old all.now) }
{
    for taken in all {
        let draft = report_at(alloc, letter, sender, sends, drafts.len(), taken)?;
        drafts.push(draft)?;
    }
    Ok(())
}
