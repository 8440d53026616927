// What the sender is told of a version that isn't in its folder.
ghost use Rattle.std.specs.Prelude.{◌≡◌, ◌≤◌, true, IfOk, option_copied};
ghost use Rattle.hub_core.specs.Delivery.{delay_name, delay_told, failure_name, failure_told, has_sender, is_expired, is_late, may_delay, may_end, to_sender};

use crate::ending::sender_notice;
use crate::live::Live;
use crate::queue::QueuedItem;
use crate::waiting::WaitingItem;
use delivery_times::{Age, age_of, tried_until};
use mail_names::{ItemName, LAST_MOMENT, Mark, NoMemory};
use mail_notices::Notice;
use mail_plan::Planner;
use mail_submission::Submission;
use std::alloc::Global;
use std::collections::VecDeque;

// The name of the notice that an item is late.
fn delay_name(name: &ItemName) -> ItemName
    ensures { result ≡ delay_name name.now }
{
    ItemName {
        submission: name.submission,
        release: name.release,
        place: name.place,
        mark: Mark::Delay,
    }
}

// The name of the notice that an item was given up.
fn failure_name(name: &ItemName) -> ItemName
    ensures { result ≡ failure_name name.now }
{
    ItemName {
        submission: name.submission,
        release: name.release,
        place: name.place,
        mark: Mark::Failure,
    }
}

// A notice to the sender, if there is one.
fn to_sender(
    alloc: Global,
    own: ItemName,
    moment: u64,
    what: &Notice,
    submission: &Submission,
) -> Result<VecDeque<QueuedItem>, NoMemory>
    requires { moment ≤ LAST_MOMENT }
    ensures { IfOk result (λ told. told.items ≡ to_sender own moment what.now submission.now submission.now.reverse) }
{
    let mut told = VecDeque::new(alloc);
    if let Some(sender) = submission.reverse() {
        told.push_back(sender_notice(alloc, own, submission, sender, moment, what)?)?;
    }
    Ok(told)
}

/// What the sender is told, once, of a version that is late.
pub fn delay_told<T: Planner>(
    alloc: Global,
    live: Option<&Live<T>>,
    waiting: &WaitingItem,
    moment: u64,
) -> Result<VecDeque<QueuedItem>, NoMemory>
    requires made { waiting.now.made ≤ LAST_MOMENT }
    requires moment { moment ≤ LAST_MOMENT }
    ensures { IfOk result (λ told. told.items ≡ delay_told moment (option_copied live.entry) waiting.now) }
{
    if waiting.told {
        return Ok(VecDeque::new(alloc));
    }
    let Some(live) = live else {
        return Ok(VecDeque::new(alloc));
    };
    let Some(why) = &waiting.version else {
        return Ok(VecDeque::new(alloc));
    };
    let what = Notice::Delayed {
        target: waiting.item.folder.copy(alloc)?,
        why: why.copy(alloc)?,
        until: tried_until(waiting.made),
    };
    let own = delay_name(&waiting.item.name);
    to_sender(alloc, own, moment, &what, live.submission())
}

/// What the sender is told of a version that is given up.
pub fn failure_told<T: Planner>(
    alloc: Global,
    live: Option<&Live<T>>,
    waiting: &WaitingItem,
    moment: u64,
) -> Result<VecDeque<QueuedItem>, NoMemory>
    requires { moment ≤ LAST_MOMENT }
    ensures { IfOk result (λ told. told.items ≡ failure_told moment (option_copied live.entry) waiting.now) }
{
    let Some(live) = live else {
        return Ok(VecDeque::new(alloc));
    };
    let Some(why) = &waiting.version else {
        return Ok(VecDeque::new(alloc));
    };
    let what = Notice::Undeliverable {
        target: waiting.item.folder.copy(alloc)?,
        why: why.copy(alloc)?,
        ended: moment,
    };
    let own = failure_name(&waiting.item.name);
    to_sender(alloc, own, moment, &what, live.submission())
}

fn has_sender<T: Planner>(live: Option<&Live<T>>) -> bool
    ensures { result ≡ has_sender (option_copied live.entry) }
{
    match live {
        None => false,
        Some(live) => live.submission().reverse().is_some(),
    }
}

fn is_late(age: Age) -> bool
    ensures { result ≡ is_late age }
{
    match age {
        Age::Late => true,
        Age::Fresh => false,
        Age::Expired => false,
    }
}

/// Whether the sender of an item can be told at this moment that it is late, and wasn't.
pub fn may_delay<T: Planner>(live: Option<&Live<T>>, waiting: &WaitingItem, moment: u64) -> bool
    ensures value { result ≡ may_delay moment (option_copied live.entry) waiting.now }
    ensures made { result ≡ true → waiting.now.made ≤ moment }
{
    waiting.version.is_some()
        && has_sender(live)
        && !waiting.told
        && is_late(age_of(moment.saturating_sub(waiting.made)))
}

/// Whether an item may be given up at this moment.
pub fn may_end(waiting: &WaitingItem, moment: u64) -> bool
    ensures { result ≡ may_end moment waiting.now }
{
    match age_of(moment.saturating_sub(waiting.made)) {
        Age::Expired => true,
        Age::Fresh => false,
        Age::Late => false,
    }
}
