// What the sender is told of approvals that are refused or run out.
ghost use Rattle.std.specs.Prelude.{◌≡◌, ◌≤◌, ◌++◌, true, slice_get, IfOk, OnOk};
ghost use Rattle.moderation.specs.declared.approval.Verdict.TheVariants as verdicts;
ghost use Rattle.moderation.specs.Approval.{runs_out};
ghost use Rattle.mail_notices.specs.About.{about_of};
ghost use Rattle.mail_submission.specs.Base.{base_message, base_text};
ghost use Rattle.hub_core.specs.declared.limits.Limits.{Limits};
ghost use Rattle.hub_core.specs.Setup.{setup_of};
ghost use Rattle.hub_core.specs.Mail.{asking_at, decision_in, is_taken};
ghost use Rattle.hub_core.specs.Ending.{end_name, sender_notice, end_told, run_out_told, asks_told, stages_told, all_told};
ghost use Rattle.hub_core.specs.Standing.{refused_told, decided_told};

use crate::asking::Asking;
use crate::live::Live;
use crate::queue::QueuedItem;
use crate::stage::Stage;
use mail_names::{ApprovalName, Bytes, ItemName, Key, LAST_MOMENT, Mark, NoMemory, SharedBytes};
use mail_notices::{About, Notice, notice};
use mail_plan::Planner;
use mail_submission::Submission;
use moderation::{Approval, ApprovalState};
use std::alloc::Global;
use std::collections::VecDeque;

// The name of the notice that an approval's end gives.
fn end_name(name: &ApprovalName) -> ItemName
    ensures { result ≡ end_name name.now }
{
    ItemName {
        submission: name.submission,
        release: name.release,
        place: name.gate,
        mark: Mark::Gate,
    }
}

// What notices say of a submission of this number.
fn about(alloc: Global, number: u64, submission: &Submission) -> Result<About, NoMemory>
    ensures { IfOk result (λ about. about ≡ about_of number (base_message number submission.now.bytes) (base_text number submission.now.bytes)) }
{
    let message = submission.base_message(alloc, number)?;
    let original = submission.base_text(alloc, number)?;
    About::of(alloc, number, &message, original)
}

/// A notice of this name on a submission, to its sender.
pub fn sender_notice(
    alloc: Global,
    own: ItemName,
    submission: &Submission,
    sender: &Key,
    moment: u64,
    what: &Notice,
) -> Result<QueuedItem, NoMemory>
    requires { moment ≤ LAST_MOMENT }
    ensures { IfOk result (λ item. item ≡ sender_notice own submission.now sender.now moment what.now) }
{
    let about = about(alloc, own.submission, submission)?;
    let to = std::slice::from_ref(sender);
    let text = notice(alloc, &own, to, moment, &about, what)?;
    Ok(QueuedItem {
        name: own,
        folder: sender.copy(alloc)?,
        text: SharedBytes::new(alloc, text)?,
    })
}

// Adds what the end of an approval of a submission tells. After an error nothing is added.
fn tell<T: Planner>(
    alloc: Global,
    told: &mut VecDeque<QueuedItem>,
    name: &ApprovalName,
    live: &Live<T>,
    asking: &Asking,
    moment: u64,
    what: &Notice,
) -> Result<(), NoMemory>
    requires { moment ≤ LAST_MOMENT }
    ensures { OnOk result ((limits : Limits) → told.new.items ≡ told.old.items ++ end_told (setup_of T.means limits) name.now live.now asking.now moment what.now) }
{
    let submission = live.submission();
    let Some(sender) = submission.reverse() else {
        return Ok(());
    };
    if live.is_told(sender, asking.tell) {
        let own = end_name(name);
        told.push_back(sender_notice(alloc, own, submission, sender, moment, what)?)?;
    }
    Ok(())
}

// Adds what the refusal of an approval of a submission tells.
fn tell_refusal<T: Planner>(
    alloc: Global,
    told: &mut VecDeque<QueuedItem>,
    name: &ApprovalName,
    live: &Live<T>,
    by: &Key,
    moment: u64,
) -> Result<(), NoMemory>
    requires { moment ≤ LAST_MOMENT }
    ensures { OnOk result ((limits : Limits) → told.new.items ≡ told.old.items ++ refused_told (setup_of T.means limits) name.now by.now moment live.now (asking_at live.now name.now)) }
{
    let Some(asking) = live.asking(name) else {
        return Ok(());
    };
    let what = Notice::Refused {
        approval: *name,
        gate: Bytes::of(alloc, asking.label.as_slice())?,
        by: by.copy(alloc)?,
    };
    tell(alloc, told, name, live, asking, moment, &what)
}

/// What a refusal that is taken tells, of an approval of the submission at this place.
pub fn refused_told<T: Planner>(
    alloc: Global,
    lives: &[Live<T>],
    place: usize,
    name: &ApprovalName,
    by: &Key,
    moment: u64,
) -> Result<VecDeque<QueuedItem>, NoMemory>
    requires taken { is_taken (decision_in (slice_get lives.now place) name.now by.now verdicts.Reject moment) ≡ true }
    requires moment { moment ≤ LAST_MOMENT }
    ensures { IfOk result (λ told. (limits : Limits) → told.items ≡ decided_told (setup_of T.means limits) name.now by.now moment (slice_get lives.now place)) }
{
    let mut told = VecDeque::new(alloc);
    if let Some(live) = lives.get(place) {
        tell_refusal(alloc, &mut told, name, live, by, moment)?;
    }
    Ok(told)
}

// Whether an approval pends whose deadline has come.
fn runs_out(approval: &Approval, moment: u64) -> bool
    ensures { result ≡ runs_out approval.now moment }
{
    approval.state() == ApprovalState::Pending && moment >= approval.deadline()
}

// Adds what an approval tells that runs out at a moment.
fn tell_run_out<T: Planner>(
    alloc: Global,
    told: &mut VecDeque<QueuedItem>,
    name: &ApprovalName,
    live: &Live<T>,
    asking: &Asking,
    moment: u64,
) -> Result<(), NoMemory>
    requires { moment ≤ LAST_MOMENT }
    ensures { OnOk result ((limits : Limits) → told.new.items ≡ told.old.items ++ run_out_told (setup_of T.means limits) name.now live.now asking.now moment) }
{
    if !runs_out(&asking.approval, moment) {
        return Ok(());
    }
    let what = Notice::RanOut {
        approval: *name,
        gate: Bytes::of(alloc, asking.label.as_slice())?,
        deadline: asking.approval.deadline(),
    };
    tell(alloc, told, name, live, asking, moment, &what)
}

// Adds what the approvals of a release tell that run out at a moment.
fn tell_asks<T: Planner>(
    alloc: Global,
    told: &mut VecDeque<QueuedItem>,
    live: &Live<T>,
    asks: &[Asking],
    moment: u64,
    submission: u64,
    release: u32,
) -> Result<(), NoMemory>
    requires moment { moment ≤ LAST_MOMENT }
    ensures { OnOk result ((limits : Limits) → told.new.items ≡ told.old.items ++ asks_told (setup_of T.means limits) live.now moment submission release 0 asks.now) }
{
    for (gate, asking) in asks.iter().enumerate() {
        // So many approvals would take more memory than there is.
        let Ok(gate) = u32::try_from(gate) else {
            return Err(NoMemory);
        };
        let name = ApprovalName {
            submission,
            release,
            gate,
        };
        tell_run_out(alloc, told, &name, live, asking, moment)?;
    }
    Ok(())
}

// Adds what the approvals of a submission tell that run out at a moment.
fn tell_stages<T: Planner>(
    alloc: Global,
    told: &mut VecDeque<QueuedItem>,
    live: &Live<T>,
    moment: u64,
    submission: u64,
) -> Result<(), NoMemory>
    requires { moment ≤ LAST_MOMENT }
    ensures { OnOk result ((limits : Limits) → told.new.items ≡ told.old.items ++ stages_told (setup_of T.means limits) live.now moment submission 0 live.now.stages) }
{
    for (release, stage) in live.stages().iter().enumerate() {
        tell_asks(
            alloc,
            told,
            live,
            stage.asks(),
            moment,
            submission,
            release as u32,
        )?;
    }
    Ok(())
}

/// What the approvals tell that run out at a moment, in the order of their names.
pub fn all_told<T: Planner>(
    alloc: Global,
    lives: &[Live<T>],
    moment: u64,
) -> Result<VecDeque<QueuedItem>, NoMemory>
    requires { moment ≤ LAST_MOMENT }
    ensures { IfOk result (λ told. (limits : Limits) → told.items ≡ all_told (setup_of T.means limits) moment 1 lives.now) }
{
    let mut told = VecDeque::new(alloc);
    for (place, live) in lives.iter().enumerate() {
        tell_stages(alloc, &mut told, live, moment, place as u64 + 1)?;
    }
    Ok(told)
}
