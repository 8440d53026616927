// Decisions on approvals.
ghost use Rattle.std.specs.Prelude.{◌≡◌, ◌⊎◌, List, [], ◌∷◌, ◌++◌, true, false, Some, IsTrue, IsOk, IfOk, IfErr, OnOk, IsErrOf};
ghost use Rattle.port_io.specs.Causes.{Rose};
ghost use Rattle.log_entry.specs.declared.entry.Entry.{Entry};
ghost use Rattle.log_entry.specs.declared.entry.Entry.TheVariants as entries;
ghost use Rattle.plant_dev.specs.Disk.{Stays, LeavesOnly};
ghost use Rattle.hub_core.specs.declared.limits.Limits.{Limits};
ghost use Rattle.hub_core.specs.Setup.{setup_of};
ghost use Rattle.hub_core.specs.Mail.{is_taken};
ghost use Rattle.hub_core.specs.Standing.{Standing, now_of, decision_of};
ghost use Rattle.queue_store.specs.Stands.{MayStand};
ghost use Rattle.queue_store.specs.Ready.{IsReady, HubStands, Adds, Fails, FailsBy};
ghost use Rattle.queue_store.specs.Turning.{Leads};
ghost use Rattle.queue_store.specs.Calls.{entries_decide};
ghost use Rattle.queue_store.specs.Deciding.{IsDecision, IsDecisionReply, AnswersDecision};

use super::Hub;
use crate::HubFault;
use hub_core::Reply;
use log_entry::Entry;
use mail_names::{ApprovalName, Key, NoMemory};
use mail_plan::Planner;
use moderation::{Decision, Verdict};
use plant_dev::Plant;
use std::alloc::Global;

impl<T: Planner> Hub<T> {
    ghost use Rattle.queue_store.specs.Deciding.{RefusedDecision};

    // Decides on an approval, where the log is open.
    fn decide_open<P: Plant>(
        &mut self,
        alloc: Global,
        plant: &mut P,
        approval: &ApprovalName,
        by: &Key,
        verdict: Verdict,
        clock: u64,
    ) -> Result<Decision, HubFault>
        ensures decision { IfOk result (IsDecision self.old.state approval.now by.now verdict clock) }
        ensures adds { (limits : Limits) (h t : List Entry) → IsReady (setup_of T.means limits) (P.state plant.old) self.old h t →
            OnOk result (Adds (setup_of T.means limits) (P.state plant.old) (P.state plant.new) self.new h t (entries_decide self.old.state approval.now by.now verdict clock)) }
        ensures fails { (limits : Limits) (h t : List Entry) → IsReady (setup_of T.means limits) (P.state plant.old) self.old h t →
            IfErr result (FailsBy (setup_of T.means limits) (P.state plant.old) (P.state plant.new) self.new h t (RefusedDecision (setup_of T.means limits) self.old.state approval.now by.now verdict clock (h ++ t))) }
        ensures open { self.old.broken ≡ false → IsOk result → self.new.broken ≡ false }
        ensures shelf { IsTrue (P.state plant.old).honest → (P.state plant.new).image.shelf ≡ (P.state plant.old).image.shelf }
        ensures opening { self.new.opening ≡ self.old.opening }
        ensures stays { Stays (P.state plant.old) (P.state plant.new) }
        ensures cause { IsErrOf result HubFault.DiskFault → Rose (P.state plant.old).disk_faults (P.state plant.new).disk_faults }
    {
        match decision_of(self.state.judge_decide(approval, by, verdict, clock)) {
            Err(fault) => Err(fault),
            Ok(decision) => {
                if !counts(decision) {
                    return Ok(decision);
                }
                match self.add_decision(alloc, plant, approval, by, verdict, clock) {
                    Ok(()) => Ok(decision),
                    Err(fault) => Err(fault),
                }
            }
        }
    }

    // Adds a decision that is taken.
    fn add_decision<P: Plant>(
        &mut self,
        alloc: Global,
        plant: &mut P,
        approval: &ApprovalName,
        by: &Key,
        verdict: Verdict,
        clock: u64,
    ) -> Result<(), HubFault>
        requires { is_taken (decision_of self.old.state approval.now by.now verdict (now_of self.old.state clock)) ≡ true }
        ensures adds { (limits : Limits) (h t : List Entry) → IsReady (setup_of T.means limits) (P.state plant.old) self.old h t →
            OnOk result (Adds (setup_of T.means limits) (P.state plant.old) (P.state plant.new) self.new h t (entries.Decided approval.now by.now verdict (now_of self.old.state clock) ∷ [])) }
        ensures fails { (limits : Limits) (h t : List Entry) → IsReady (setup_of T.means limits) (P.state plant.old) self.old h t →
            IfErr result (Fails (setup_of T.means limits) (P.state plant.old) (P.state plant.new) self.new h t (entries.Decided approval.now by.now verdict (now_of self.old.state clock) ∷ [])) }
        ensures open { self.old.broken ≡ false → IsOk result → self.new.broken ≡ false }
        ensures shelf { IsTrue (P.state plant.old).honest → (P.state plant.new).image.shelf ≡ (P.state plant.old).image.shelf }
        ensures opening { self.new.opening ≡ self.old.opening }
        ensures stays { Stays (P.state plant.old) (P.state plant.new) }
        ensures cause { IsErrOf result HubFault.DiskFault → Rose (P.state plant.old).disk_faults (P.state plant.new).disk_faults }
    {
        let Ok(by) = by.copy(alloc) else {
            return Err(HubFault::NoMemory);
        };
        let moment = self.state.now(clock);
        let entry = Entry::Decided {
            approval: *approval,
            by,
            verdict,
            moment,
        };
        self.append(alloc, plant, entry)
    }

    /// Decides on an approval at this clock (seconds since 1970-01-01T00:00:00Z). The first decision by a moderator before the
    /// deadline counts: it is `Taken`, and where it approves, it makes the release that the gate held back; where it refuses,
    /// the sender is told, if the gate tells. Every other decision is answered and changes nothing.
    ///
    /// `NoSuchApproval` comes where no release that is categorised asks for that approval.
    pub fn decide<P: Plant>(
        &mut self,
        alloc: Global,
        plant: &mut P,
        approval: &ApprovalName,
        by: &Key,
        verdict: Verdict,
        clock: u64,
    ) -> Result<Decision, HubFault>
        ensures adds { (mid : Standing) × (self.old.broken ≡ false → mid ≡ self.old.state) × IfOk result (IsDecision mid approval.now by.now verdict clock)
            × ((limits : Limits) (h t : List Entry) → HubStands (setup_of T.means limits) (P.state plant.old) self.old h t →
            Leads (setup_of T.means limits) self.old.broken (P.state plant.old) (P.state plant.new) self.new h t mid (entries_decide mid approval.now by.now verdict clock)
            (RefusedDecision (setup_of T.means limits) mid approval.now by.now verdict clock) result) }
        ensures any_moment { (limits : Limits) (h t : List Entry) → HubStands (setup_of T.means limits) (P.state plant.old) self.old h t →
            LeavesOnly (P.state plant.old) (P.state plant.new) (MayStand (setup_of T.means limits) h t) }
        ensures open { IsOk result → self.new.broken ≡ false }
        ensures shelf { IsTrue (P.state plant.old).honest → (P.state plant.new).image.shelf ≡ (P.state plant.old).image.shelf }
        ensures opening { self.old.broken ≡ false → self.new.opening ≡ self.old.opening }
        ensures stays { Stays (P.state plant.old) (P.state plant.new) }
        ensures cause { IsErrOf result HubFault.DiskFault → Rose (P.state plant.old).disk_faults (P.state plant.new).disk_faults }
    {
        match self.mend(alloc, plant) {
            Err(fault) => Err(fault),
            Ok(()) => self.decide_open(alloc, plant, approval, by, verdict, clock),
        }
    }
}

// Whether a decision counts.
fn counts(decision: Decision) -> bool
    ensures { result ≡ is_taken (Some decision) }
{
    match decision {
        Decision::Taken => true,
        Decision::NotModerator => false,
        Decision::Already { .. } => false,
        Decision::Expired { .. } => false,
    }
}

// What a reply to a decision says of it, or why it says nothing.
fn decision_of(reply: Reply) -> Result<Decision, HubFault>
    requires { IsDecisionReply reply }
    ensures { AnswersDecision reply result }
{
    match reply {
        Reply::Decided { decision } => Ok(decision),
        Reply::NoSuchApproval => Err(HubFault::NoSuchApproval),
        Reply::Organised { .. } => unreachable!(),
        Reply::EpochsFull { .. } => unreachable!(),
        Reply::Org { .. } => unreachable!(),
        Reply::Accepted { .. } => unreachable!(),
        Reply::QueueFull { .. } => unreachable!(),
        Reply::Committed => unreachable!(),
        Reply::Already => unreachable!(),
        Reply::Unknown => unreachable!(),
        Reply::NotItsInput { .. } => unreachable!(),
        Reply::Done => unreachable!(),
        Reply::NotNow => unreachable!(),
    }
}
