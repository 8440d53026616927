// The submissions that the hub remembers.
ghost use Rattle.std.specs.Prelude.{◌≡◌, ◌≤◌, ◌<◌, ◌++◌, length, true, if◌then◌else◌, None, Some, IfOk, IfSome, OnOk, OnErr, is_some, slice_get, option_copied, position, map};
ghost use Rattle.std.specs.List.{list_any};
ghost use Rattle.std.specs.Arc.{arc_value};
ghost use Rattle.moderation.specs.declared.approval.Verdict.TheVariants as verdicts;
ghost use Rattle.mail_plan.specs.Planning.{made_at};
ghost use Rattle.mail_submission.specs.Submission.{same_submission};
ghost use Rattle.hub_core.specs.declared.limits.Limits.{Limits};
ghost use Rattle.hub_core.specs.Setup.{texts_of, setup_of};
ghost use Rattle.hub_core.specs.Approvals.{stage_waits, stage_open, expired_stage, asking_in};
ghost use Rattle.hub_core.specs.Mail.{IsTask, new_mail, first_waiting, waits, waits_in, is_uncategorised, asking_at, asking_for, with_asks, decision_in, is_taken, decided_mail, expired_mail, mail_pends, can_decide};
ghost use Rattle.hub_core.specs.Ending.{is_told};
ghost use Rattle.hub_core.specs.Differing.{first_difference};
ghost use Rattle.hub_core.specs.Standing.{place_of_same, first_task, waiting_from, tasks_from};
ghost use Rattle.hub_core.specs.Replies.{reply_input, reply_stage};

use crate::Reply;
use crate::asking::Asking;
use crate::part::{Difference, first_difference};
use crate::stage::Stage;
use mail_names::{ApprovalName, Key, LAST_MOMENT, NoMemory};
use mail_plan::{Opening, Outcome, Planner, ReleaseInput, Task};
use mail_submission::Submission;
use moderation::{Tell, Verdict};
use std::alloc::Global;
use std::marker::Model;
use std::sync::Arc;

/// A release of a submission.
#[derive(Clone, Copy, Debug, PartialEq, Eq)]
pub struct TaskName {
    pub submission: u64,
    pub release: u32,
}

/// A submission that was accepted, with the gates that were opened for it and its releases: the first, and one for each
/// gate. It keeps the organisation that plans it as long as a release waits to be categorised or an approval pends.
#[derive(Drop)]
pub struct Live<T: Planner> {
    submission: Arc<Submission>,
    accepted_at: u64,
    epoch: u32,
    org: Option<Arc<T::Org>>,
    opened: Vec<Opening>,
    stages: Vec<Stage>,
}

impl<T: Planner> Model for Live<T> {
    ghost use Rattle.std.specs.Prelude.{option_map};
    ghost use Rattle.std.specs.Arc.{arc_value};
    ghost use Rattle.hub_core.specs.Setup.{texts_of};
    ghost use Rattle.hub_core.specs.Mail.{LiveMail, IsLive};

    ghost Value = { LiveMail };

    ghost view = { λ l. record { submission = arc_value l.submission; accepted_at = l.accepted_at; epoch = l.epoch; org = option_map (λ org. texts_of T.means (arc_value org)) l.org; opened = l.opened.items; stages = l.stages.items } };

    ghost invariant = { λ l. IsLive (record { submission = arc_value l.submission; accepted_at = l.accepted_at; epoch = l.epoch; org = option_map (λ org. texts_of T.means (arc_value org)) l.org; opened = l.opened.items; stages = l.stages.items }) };
}

impl<T: Planner> Live<T> {
    /// A submission that was accepted at this moment, when this organisation stood.
    pub fn new(
        alloc: Global,
        submission: Submission,
        accepted_at: u64,
        epoch: u32,
        org: Arc<T::Org>,
    ) -> Result<Live<T>, NoMemory>
        requires { accepted_at ≤ LAST_MOMENT }
        ensures { IfOk result (λ live. live ≡ new_mail submission accepted_at epoch (texts_of T.means (arc_value org))) }
    {
        let submission = Arc::new(alloc, submission)?;
        let mut stages = Vec::new(alloc);
        stages.push(Stage::waiting())?;
        Ok(Live {
            submission,
            accepted_at,
            epoch,
            org: Some(org),
            opened: Vec::new(alloc),
            stages,
        })
    }

    pub fn submission(&self) -> &Submission
        ensures { result.now ≡ self.now.submission }
    {
        &self.submission
    }

    /// The epoch of the organisation that stood when it was accepted.
    pub fn epoch(&self) -> u32
        ensures { result ≡ self.now.epoch }
    {
        self.epoch
    }

    /// Whether a release waits to be categorised or an approval pends.
    pub fn is_open(&self) -> bool
        ensures { result ≡ is_some self.now.org }
    {
        self.org.is_some()
    }

    /// Whether an approval pends.
    pub fn pends(&self) -> bool
        ensures { result ≡ mail_pends self.now }
    {
        self.stages.iter().any(|stage| stage.pends())
    }

    /// Its releases, in order.
    pub fn stages(&self) -> &[Stage]
        ensures value { result.now ≡ self.now.stages }
        ensures few { length result.now ≤ 4294967295 }
    {
        &self.stages
    }

    /// The first release that waits to be categorised.
    pub fn first_waiting(&self) -> Option<u32>
        ensures { result ≡ first_waiting self.now }
    {
        match place_waiting(&self.stages) {
            None => None,
            Some(release) => Some(release as u32),
        }
    }

    /// Whether it has this release, which waits to be categorised.
    pub fn waits(&self, release: u32) -> bool
        ensures { result ≡ waits self.now release }
    {
        release_waits(&self.stages, release)
    }

    /// The moment of a release: that of acceptance, or of the decision that made it.
    pub fn made(&self, release: u32) -> u64
        ensures value { result ≡ made_at self.now.accepted_at self.now.opened release }
        ensures moment { result ≤ LAST_MOMENT }
    {
        mail_plan::made_at(self.accepted_at, &self.opened, release)
    }

    /// The task of making a release, if it waits to be categorised.
    pub fn task(
        &self,
        alloc: Global,
        number: u64,
        release: u32,
    ) -> Result<Option<Task<T>>, NoMemory>
        ensures waits { IfOk result (λ task. is_some task ≡ waits self.now release) }
        ensures release { IfOk result (λ task. IfSome task (λ t. t.input.release ≡ release)) }
        ensures made { IfOk result (λ task. IfSome task (λ t. IsTask number self.now t.input (texts_of T.means (arc_value t.org)))) }
    {
        if !self.waits(release) {
            return Ok(None);
        }
        match &self.org {
            // What waits has its organisation.
            None => Ok(None),
            Some(org) => {
                let org = org.clone()?;
                let submission = self.submission.clone()?;
                let input = ReleaseInput::at(
                    alloc,
                    number,
                    self.epoch,
                    self.accepted_at,
                    submission,
                    &self.opened,
                    release,
                )?;
                Ok(Some(Task { org, input }))
            }
        }
    }

    /// What is answered to an outcome for one of its releases, where it has this number.
    pub fn judge(&self, alloc: Global, number: u64, outcome: &Outcome<T>) -> Result<Reply, NoMemory>
        ensures { IfOk result (λ reply. reply ≡ reply_stage number self.now outcome.now.input (texts_of T.means outcome.now.org) (slice_get self.now.stages outcome.now.input.release)) }
    {
        let release = outcome.input().release();
        match self.stages.get(release as usize) {
            None => Ok(Reply::Unknown),
            Some(stage) => {
                if !stage.waits() {
                    return Ok(Reply::Already);
                }
                match self.task(alloc, number, release)? {
                    None => Ok(Reply::Unknown),
                    Some(task) => Ok(compared(&task, outcome)),
                }
            }
        }
    }

    /// The approval of this name, if a release that is categorised asks for it.
    pub fn asking(&self, name: &ApprovalName) -> Option<&Asking>
        ensures { option_copied result ≡ asking_at self.now name.now }
    {
        asking_at(&self.stages, name)
    }

    /// Whether the numbers of releases leave room for what a decision makes.
    pub fn can_decide(&self, verdict: Verdict) -> bool
        ensures { result ≡ can_decide verdict self.now }
    {
        match verdict {
            Verdict::Approve => self.stages.len() < u32::MAX as usize,
            Verdict::Reject => true,
        }
    }

    /// Whether the sender of this key is told of an approval's end.
    pub fn is_told(&self, sender: &Key, tell: Tell) -> bool
        ensures { (limits : Limits) → result ≡ is_told (setup_of T.means limits) self.now.org sender.now tell }
    {
        match tell {
            Tell::Always => true,
            Tell::Never => false,
            Tell::Internal => match &self.org {
                None => false,
                Some(org) => is_inside::<T>(org, sender),
            },
        }
    }

    /// A release that waits is categorised, and asks for these approvals.
    pub fn categorise(&mut self, release: u32, asks: Vec<Asking>)
        requires { waits self.old release ≡ true }
        ensures { self.new ≡ with_asks release asks.items self.old }
    {
        self.stages[release as usize].categorise(asks);
        free(&mut self.org, &self.stages);
    }

    /// A decision opens the gate of the approval of this name, and makes a release. After an error nothing has changed.
    pub fn approve(
        &mut self,
        alloc: Global,
        name: &ApprovalName,
        by: &Key,
        moment: u64,
    ) -> Result<(), NoMemory>
        requires taken { is_taken (decision_in (Some self.old) name.now by.now verdicts.Approve moment) ≡ true }
        requires moment { moment ≤ LAST_MOMENT }
        ensures ok { OnOk result (self.new ≡ decided_mail name.now by.now verdicts.Approve moment self.old) }
        ensures err { OnErr result (self.new ≡ self.old) }
    {
        let opening = match self.asking(name) {
            None => return Ok(()),
            Some(asking) => Opening::of(alloc, asking.approval.gate(), moment)?,
        };
        self.opened.push(opening)?;
        if self.stages.push(Stage::waiting()).is_err() {
            self.opened.pop();
            return Err(NoMemory);
        }
        self.stages[name.release as usize].decide(name.gate, by, Verdict::Approve, moment);
        Ok(())
    }

    /// A decision refuses the approval of this name.
    pub fn refuse(&mut self, name: &ApprovalName, by: &Key, moment: u64)
        requires { is_taken (decision_in (Some self.old) name.now by.now verdicts.Reject moment) ≡ true }
        ensures { self.new ≡ decided_mail name.now by.now verdicts.Reject moment self.old }
    {
        self.stages[name.release as usize].decide(name.gate, by, Verdict::Reject, moment);
        free(&mut self.org, &self.stages);
    }

    /// Ends the approvals that run out at a moment.
    pub fn expire(&mut self, moment: u64)
        ensures { self.new ≡ expired_mail moment self.old }
    {
        expire_stages(&mut self.stages, moment);
        free(&mut self.org, &self.stages);
    }
}

fn expire_stages(stages: &mut Vec<Stage>, moment: u64)
    ensures { stages.new.items ≡ map (expired_stage moment) stages.old.items }
{
    for stage in stages.iter_mut() {
        stage.expire(moment);
    }
}

// Gives the organisation up where no release waits and no approval pends.
fn free<Org: Drop>(org: &mut Option<Arc<Org>>, stages: &[Stage])
    ensures { org.new ≡ if list_any stage_open stages.now then org.old else None }
{
    if !any_open(stages) {
        *org = None;
    }
}

// Whether a release waits to be categorised or an approval pends.
fn any_open(stages: &[Stage]) -> bool
    ensures { result ≡ list_any stage_open stages.now }
{
    stages.iter().any(|stage| stage.is_open())
}

// The place of the first release that waits to be categorised.
fn place_waiting(stages: &[Stage]) -> Option<usize>
    ensures value { result ≡ position stage_waits stages.now }
    ensures within { IfSome result (λ place. place < length stages.now) }
{
    stages.iter().position(|stage| stage.waits())
}

fn release_waits(stages: &[Stage], release: u32) -> bool
    ensures { result ≡ waits_in (slice_get stages.now release) }
{
    match stages.get(release as usize) {
        None => false,
        Some(stage) => stage.waits(),
    }
}

fn asking_at<'a>(stages: &'a [Stage], name: &ApprovalName) -> Option<&'a Asking>
    ensures { option_copied result ≡ asking_in (slice_get stages.now name.now.release) name.now.gate }
{
    match stages.get(name.release as usize) {
        None => None,
        Some(stage) => stage.asking(name.gate),
    }
}

/// Whether the submission at this place has this release, which waits to be categorised.
pub fn is_uncategorised<T: Planner>(lives: &[Live<T>], place: usize, release: u32) -> bool
    ensures { result ≡ is_uncategorised (slice_get lives.now place) release }
{
    match lives.get(place) {
        None => false,
        Some(live) => live.waits(release),
    }
}

/// The moment of a release of the submission at this place; 0 where there is none.
pub fn made_at<T: Planner>(lives: &[Live<T>], place: usize, release: u32) -> u64
    ensures value { IfSome (slice_get lives.now place) (λ mail. result ≡ made_at mail.accepted_at mail.opened release) }
    ensures moment { result ≤ LAST_MOMENT }
{
    match lives.get(place) {
        None => 0,
        Some(live) => live.made(release),
    }
}

/// The approval of this name of the submission at this place, if such a decision can be made on it.
pub fn asking_for<'a, T: Planner>(
    lives: &'a [Live<T>],
    place: usize,
    name: &ApprovalName,
    verdict: Verdict,
) -> Option<&'a Asking>
    ensures { option_copied result ≡ asking_for (slice_get lives.now place) name.now verdict }
{
    match lives.get(place) {
        Some(live) if live.can_decide(verdict) => live.asking(name),
        _ => None,
    }
}

fn is_inside<T: Planner>(org: &T::Org, sender: &Key) -> bool
    ensures { (limits : Limits) → result ≡ (setup_of T.means limits).inside (texts_of T.means org.now) sender.now }
{
    let _texts = T::texts(org);
    T::is_inside(org, sender)
}

// What is answered to an outcome for a task.
fn compared<T: Planner>(task: &Task<T>, outcome: &Outcome<T>) -> Reply
    ensures { result ≡ reply_input (first_difference task.now.input (texts_of T.means (arc_value task.now.org)) outcome.now.input (texts_of T.means outcome.now.org)) }
{
    match first_difference::<T>(&task.input, &task.org, outcome) {
        None => Reply::Committed,
        Some(Difference { part, at }) => Reply::NotItsInput { part, at },
    }
}

// Adds the releases of a submission that wait to be categorised.
fn add_releases(
    names: &mut Vec<TaskName>,
    submission: u64,
    stages: &[Stage],
) -> Result<(), NoMemory>
    requires { length stages.now ≤ 4294967295 }
    ensures { OnOk result (names.new.items ≡ names.old.items ++ waiting_from submission 0 stages.now) }
{
    for (release, stage) in stages.iter().enumerate() {
        if stage.waits() {
            names.push(TaskName {
                submission,
                release: release as u32,
            })?;
        }
    }
    Ok(())
}

/// The releases that wait to be categorised, by submission and release.
pub fn uncategorised<T: Planner>(
    alloc: Global,
    lives: &[Live<T>],
) -> Result<Vec<TaskName>, NoMemory>
    ensures { IfOk result (λ names. names.items ≡ tasks_from 1 lives.now) }
{
    let mut names = Vec::new(alloc);
    for (place, live) in lives.iter().enumerate() {
        add_releases(&mut names, place as u64 + 1, live.stages())?;
    }
    Ok(names)
}

/// Whether the submission is this one, sent again.
pub fn is_repeat<T: Planner>(live: &Live<T>, submission: &Submission) -> bool
    ensures { result ≡ same_submission live.now.submission submission.now }
{
    live.submission().same(submission)
}

/// The place of the first submission that this one repeats, by a look at each of them.
///
/// It is what the definition says, step by step. `Remembered::place_of_same` answers the same by its index.
pub fn place_of_same<T: Planner>(lives: &[Live<T>], submission: &Submission) -> Option<usize>
    ensures { result ≡ place_of_same submission.now lives.now }
{
    lives.iter().position(|live| is_repeat(live, submission))
}

/// The first release that waits to be categorised, by submission and release, of the submissions whose number leaves this
/// residue.
pub fn first_task<T: Planner>(lives: &[Live<T>], residue: u32, workers: u32) -> Option<TaskName>
    requires { residue < workers }
    ensures { result ≡ first_task residue workers 1 lives.now }
{
    for (place, live) in lives.iter().enumerate() {
        let submission = place as u64 + 1;
        if submission % workers as u64 == residue as u64 {
            if let Some(release) = live.first_waiting() {
                return Some(TaskName {
                    submission,
                    release,
                });
            }
        }
    }
    None
}
