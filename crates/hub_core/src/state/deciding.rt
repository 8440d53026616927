// Decisions on approvals, and the moments that end them.
ghost use Rattle.std.specs.Prelude.{◌≡◌, true, option_copied};
ghost use Rattle.hub_core.specs.Setup.{setup_of};
ghost use Rattle.hub_core.specs.Mail.{asking_for, is_taken};
ghost use Rattle.hub_core.specs.Standing.{Applies, is_moment, mail_of, decision_of};
ghost use Rattle.hub_core.specs.Replies.{reply_decide};

use super::State;
use crate::asking::Asking;
use crate::ending::{all_told, refused_told};
use crate::live::asking_for;
use crate::waiting::{Due, meet_all, noticed_all};
use crate::{Reply, StepFault};
use log_entry::Entry;
use mail_names::{ApprovalName, Key};
use mail_plan::Planner;
use moderation::{Decision, Verdict};
use std::alloc::Global;

impl<T: Planner> State<T> {
    // The approval of this name, if a release that is categorised asks for it and the numbers of releases leave room for what
    // such a decision makes.
    fn asking(&self, name: &ApprovalName, verdict: Verdict) -> Option<&Asking>
        ensures { option_copied result ≡ asking_for (mail_of self.now name.now.submission) name.now verdict }
    {
        if name.submission == 0 {
            return None;
        }
        asking_for(
            self.live.as_slice(),
            (name.submission - 1) as usize,
            name,
            verdict,
        )
    }

    /// What is answered to a decision by a key at this clock. It takes no memory.
    pub fn judge_decide(&self, name: &ApprovalName, by: &Key, verdict: Verdict, clock: u64) -> Reply
        ensures { result ≡ reply_decide self.now name.now by.now verdict clock }
    {
        match self.asking(name, verdict) {
            None => Reply::NoSuchApproval,
            Some(asking) => Reply::Decided {
                decision: asking.approval.answer(by, self.now(clock)),
            },
        }
    }

    // A moderator decided.
    pub(super) fn decide(
        &mut self,
        alloc: Global,
        name: &ApprovalName,
        by: &Key,
        verdict: Verdict,
        moment: u64,
    ) -> Result<(), StepFault>
        ensures { Applies (setup_of T.means self.old.limits) self.old (Entry.Decided name.now by.now verdict moment) result self.new }
    {
        if !self.is_moment(moment) || !self.takes(name, by, verdict, moment) {
            return Err(StepFault::NotLawful);
        }
        match verdict {
            Verdict::Approve => self.approve(alloc, name, by, moment),
            Verdict::Reject => self.refuse(alloc, name, by, moment),
        }
    }

    // Whether a decision is taken.
    fn takes(&self, name: &ApprovalName, by: &Key, verdict: Verdict, moment: u64) -> bool
        ensures { result ≡ is_taken (decision_of self.now name.now by.now verdict moment) }
    {
        match self.asking(name, verdict) {
            None => false,
            Some(asking) => asking.approval.answer(by, moment) == Decision::Taken,
        }
    }

    // A decision that is taken opens a gate.
    fn approve(
        &mut self,
        alloc: Global,
        name: &ApprovalName,
        by: &Key,
        moment: u64,
    ) -> Result<(), StepFault>
        requires taken { is_taken (decision_of self.old name.now by.now Verdict.Approve moment) ≡ true }
        requires moment { is_moment self.old moment ≡ true }
        ensures { Applies (setup_of T.means self.old.limits) self.old (Entry.Decided name.now by.now Verdict.Approve moment) result self.new }
    {
        let place = (name.submission - 1) as usize;
        self.live
            .approve(alloc, place, name, by, moment)
            .map_err(|_| StepFault::NoMemory)?;
        self.moment = moment;
        Ok(())
    }

    // A decision that is taken refuses an approval.
    fn refuse(
        &mut self,
        alloc: Global,
        name: &ApprovalName,
        by: &Key,
        moment: u64,
    ) -> Result<(), StepFault>
        requires taken { is_taken (decision_of self.old name.now by.now Verdict.Reject moment) ≡ true }
        requires moment { is_moment self.old moment ≡ true }
        ensures { Applies (setup_of T.means self.old.limits) self.old (Entry.Decided name.now by.now Verdict.Reject moment) result self.new }
    {
        let place = (name.submission - 1) as usize;
        let told = refused_told(alloc, self.live.as_slice(), place, name, by, moment).map_err(
            |_| StepFault::NoMemory,
        )?;
        let mut told = noticed_all(alloc, told, moment, Due::First).map_err(
            |_| StepFault::NoMemory,
        )?;
        self.waiting
            .append(&mut told)
            .map_err(|_| StepFault::NoMemory)?;
        self.live.refuse(place, name, by, moment);
        self.moment = moment;
        Ok(())
    }

    // A turn began: approvals at or past their deadline end, and items become due.
    pub(super) fn turn(&mut self, alloc: Global, moment: u64) -> Result<(), StepFault>
        ensures { Applies (setup_of T.means self.old.limits) self.old (Entry.Moment moment) result self.new }
    {
        if !self.is_moment(moment) {
            return Err(StepFault::NotLawful);
        }
        let told = all_told(alloc, self.live.as_slice(), moment).map_err(|_| StepFault::NoMemory)?;
        let mut told = noticed_all(alloc, told, moment, Due::Fresh).map_err(
            |_| StepFault::NoMemory,
        )?;
        self.waiting
            .append(&mut told)
            .map_err(|_| StepFault::NoMemory)?;
        meet_all(&mut self.waiting, moment);
        self.live.expire(moment);
        self.moment = moment;
        Ok(())
    }
}
