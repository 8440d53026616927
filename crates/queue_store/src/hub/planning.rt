// Organisations that come into force, and releases that are made for the hub.
ghost use Rattle.std.specs.Prelude.{◌≡◌, ◌<◌, ◌++◌, List, false, IsTrue, IsOk, IfOk, IfErr, IfSome, OnOk, IsErrOf, option_map, unwrap_or};
ghost use Rattle.std.specs.Arc.{arc_value};
ghost use Rattle.port_io.specs.Causes.{Rose};
ghost use Rattle.log_entry.specs.declared.entry.Entry.{Entry};
ghost use Rattle.plant_dev.specs.Disk.{Stays, LeavesOnly};
ghost use Rattle.hub_core.specs.declared.limits.Limits.{Limits};
ghost use Rattle.hub_core.specs.Setup.{Setup, setup_of, texts_of};
ghost use Rattle.hub_core.specs.Journal.{IsJournaled};
ghost use Rattle.hub_core.specs.Mail.{IsTask};
ghost use Rattle.hub_core.specs.Standing.{Standing, mail_of, task_name, first_task};
ghost use Rattle.hub_core.specs.Replies.{reply_commit};
ghost use Rattle.queue_store.specs.Stands.{MayStand};
ghost use Rattle.queue_store.specs.Ready.{IsReady, HubStands, StandsYet, Adds, Fails, FailsBy, Leaves};
ghost use Rattle.queue_store.specs.Turning.{Leads};
ghost use Rattle.queue_store.specs.Planning.{IsOrgReply, AnswersOrg, IsCommitReply, reply_of_end};

use super::Hub;
use crate::{CommitEnd, HubFault};
use hub_core::Reply;
use log_entry::Entry;
use mail_names::{Bytes, NoMemory};
use mail_plan::{Outcome, Planner, Task};
use plant_dev::Plant;
use std::alloc::Global;

impl<T: Planner> Hub<T> {
    ghost use Rattle.queue_store.specs.Planning.{IsInForce, texts_asked, entries_organise, entries_commit};
    ghost use Rattle.queue_store.specs.Refusals.{RefusedOrg};

    // The organisation of these texts comes into force, where the log is open.
    fn change<P: Plant>(
        &mut self,
        alloc: Global,
        plant: &mut P,
        directory: Bytes,
        rules: Bytes,
    ) -> Result<u32, HubFault>
        ensures epoch { IfOk result (IsInForce (setup_of T.means self.old.state.limits) self.old.state (record { directory = directory; rules = rules })) }
        ensures adds { (limits : Limits) (h t : List Entry) → IsReady (setup_of T.means limits) (P.state plant.old) self.old h t →
            OnOk result (Adds (setup_of T.means limits) (P.state plant.old) (P.state plant.new) self.new h t (entries_organise (setup_of T.means limits) self.old.state (record { directory = directory; rules = rules }))) }
        ensures fails { (limits : Limits) (h t : List Entry) → IsReady (setup_of T.means limits) (P.state plant.old) self.old h t →
            IfErr result (FailsBy (setup_of T.means limits) (P.state plant.old) (P.state plant.new) self.new h t (RefusedOrg (setup_of T.means limits) self.old.state (record { directory = directory; rules = rules }) (h ++ t))) }
        ensures open { self.old.broken ≡ false → IsOk result → self.new.broken ≡ false }
        ensures shelf { IsTrue (P.state plant.old).honest → (P.state plant.new).image.shelf ≡ (P.state plant.old).image.shelf }
        ensures opening { self.new.opening ≡ self.old.opening }
        ensures stays { Stays (P.state plant.old) (P.state plant.new) }
        ensures cause { IsErrOf result HubFault.DiskFault → Rose (P.state plant.old).disk_faults (P.state plant.new).disk_faults }
    {
        let reply = match self
            .state
            .judge_organise(alloc, directory.as_slice(), rules.as_slice())
        {
            Ok(reply) => reply,
            Err(NoMemory) => return Err(HubFault::NoMemory),
        };
        match epoch_of(reply) {
            Err(fault) => Err(fault),
            Ok(epoch) => {
                if epoch == self.state.epoch() {
                    return Ok(epoch);
                }
                match self.append(alloc, plant, Entry::Organised { directory, rules }) {
                    Ok(()) => Ok(epoch),
                    Err(fault) => Err(fault),
                }
            }
        }
    }

    // The organisation of these texts, or of the newest where one isn't given, comes into force, where the log is open.
    fn change_given<P: Plant>(
        &mut self,
        alloc: Global,
        plant: &mut P,
        directory: Option<Bytes>,
        rules: Option<Bytes>,
    ) -> Result<u32, HubFault>
        ensures epoch { IfOk result (IsInForce (setup_of T.means self.old.state.limits) self.old.state (texts_asked self.old.state directory rules)) }
        ensures adds { (limits : Limits) (h t : List Entry) → IsReady (setup_of T.means limits) (P.state plant.old) self.old h t →
            OnOk result (Adds (setup_of T.means limits) (P.state plant.old) (P.state plant.new) self.new h t (entries_organise (setup_of T.means limits) self.old.state (texts_asked self.old.state directory rules))) }
        ensures fails { (limits : Limits) (h t : List Entry) → IsReady (setup_of T.means limits) (P.state plant.old) self.old h t →
            IfErr result (FailsBy (setup_of T.means limits) (P.state plant.old) (P.state plant.new) self.new h t (RefusedOrg (setup_of T.means limits) self.old.state (texts_asked self.old.state directory rules) (h ++ t))) }
        ensures open { self.old.broken ≡ false → IsOk result → self.new.broken ≡ false }
        ensures shelf { IsTrue (P.state plant.old).honest → (P.state plant.new).image.shelf ≡ (P.state plant.old).image.shelf }
        ensures opening { self.new.opening ≡ self.old.opening }
        ensures stays { Stays (P.state plant.old) (P.state plant.new) }
        ensures cause { IsErrOf result HubFault.DiskFault → Rose (P.state plant.old).disk_faults (P.state plant.new).disk_faults }
    {
        let (newest_directory, newest_rules) = self.state.texts();
        let directory = match text_or(alloc, directory, newest_directory) {
            Ok(directory) => directory,
            Err(NoMemory) => return Err(HubFault::NoMemory),
        };
        let rules = match text_or(alloc, rules, newest_rules) {
            Ok(rules) => rules,
            Err(NoMemory) => return Err(HubFault::NoMemory),
        };
        self.change(alloc, plant, directory, rules)
    }

    /// The organisation of these texts comes into force; None keeps the newest text. Its epoch is answered, which is the
    /// newest one's where that has these texts.
    ///
    /// `Org` names the first fault, and `EpochsFull` comes where the limits leave no room.
    pub fn organise<P: Plant>(
        &mut self,
        alloc: Global,
        plant: &mut P,
        directory: Option<Bytes>,
        rules: Option<Bytes>,
    ) -> Result<u32, HubFault>
        ensures adds { (mid : Standing) × (self.old.broken ≡ false → mid ≡ self.old.state) × IfOk result (IsInForce (setup_of T.means mid.limits) mid (texts_asked mid directory rules))
            × ((limits : Limits) (h t : List Entry) → HubStands (setup_of T.means limits) (P.state plant.old) self.old h t →
            Leads (setup_of T.means limits) self.old.broken (P.state plant.old) (P.state plant.new) self.new h t mid (entries_organise (setup_of T.means limits) mid (texts_asked mid directory rules)) (RefusedOrg (setup_of T.means limits) mid (texts_asked mid directory rules)) result) }
        ensures any_moment { (limits : Limits) (h t : List Entry) → HubStands (setup_of T.means limits) (P.state plant.old) self.old h t →
            LeavesOnly (P.state plant.old) (P.state plant.new) (MayStand (setup_of T.means limits) h t) }
        ensures open { IsOk result → self.new.broken ≡ false }
        ensures shelf { IsTrue (P.state plant.old).honest → (P.state plant.new).image.shelf ≡ (P.state plant.old).image.shelf }
        ensures opening { self.old.broken ≡ false → self.new.opening ≡ self.old.opening }
        ensures stays { Stays (P.state plant.old) (P.state plant.new) }
        ensures cause { IsErrOf result HubFault.DiskFault → Rose (P.state plant.old).disk_faults (P.state plant.new).disk_faults }
    {
        match self.mend(alloc, plant) {
            Err(fault) => Err(fault),
            Ok(()) => self.change_given(alloc, plant, directory, rules),
        }
    }

    /// The task of the first release, by submission and release, that isn't categorised and whose submission's number leaves
    /// this residue. None where there is none.
    pub fn take<P: Plant>(
        &mut self,
        alloc: Global,
        plant: &mut P,
        residue: u32,
        workers: u32,
    ) -> Result<Option<Task<T>>, HubFault>
        requires { residue < workers }
        ensures first { self.old.broken ≡ false → IfOk result (λ task. option_map (λ (t : _). task_name t.input) task ≡ first_task residue workers 1 self.old.state.live) }
        ensures made { self.old.broken ≡ false → IfOk result (λ task. IfSome task (λ t. IfSome (mail_of self.old.state t.input.number)
            (λ mail. IsTask t.input.number mail t.input (texts_of T.means (arc_value t.org))))) }
        ensures kept { (limits : Limits) (h t : List Entry) → HubStands (setup_of T.means limits) (P.state plant.old) self.old h t → StandsYet (setup_of T.means limits) self.old.broken (P.state plant.new) self.new h t }
        ensures any_moment { (limits : Limits) (h t : List Entry) → HubStands (setup_of T.means limits) (P.state plant.old) self.old h t →
            LeavesOnly (P.state plant.old) (P.state plant.new) (MayStand (setup_of T.means limits) h t) }
        ensures refused { self.old.broken ≡ false → IfErr result (λ e. e ≡ HubFault.NoMemory) }
        ensures open { IsOk result → self.new.broken ≡ false }
        ensures opening { self.old.broken ≡ false → self.new.opening ≡ self.old.opening }
        ensures stays { Stays (P.state plant.old) (P.state plant.new) }
        ensures cause { IsErrOf result HubFault.DiskFault → Rose (P.state plant.old).disk_faults (P.state plant.new).disk_faults }
    {
        self.mend(alloc, plant)?;
        match self.state.task(alloc, residue, workers) {
            Ok(task) => Ok(task),
            Err(NoMemory) => Err(HubFault::NoMemory),
        }
    }

    // Categorises by an outcome, where the log is open.
    fn commit_outcome<P: Plant>(
        &mut self,
        alloc: Global,
        plant: &mut P,
        outcome: Outcome<T>,
    ) -> Result<CommitEnd, HubFault>
        ensures end { IfOk result (λ end. reply_of_end end ≡ reply_commit self.old.state outcome.input (texts_of T.means outcome.org)) }
        ensures adds { (limits : Limits) (h t : List Entry) → IsReady (setup_of T.means limits) (P.state plant.old) self.old h t →
            OnOk result (Adds (setup_of T.means limits) (P.state plant.old) (P.state plant.new) self.new h t (entries_commit self.old.state outcome.input (texts_of T.means outcome.org) outcome.release)) }
        ensures fails { (limits : Limits) (h t : List Entry) → IsReady (setup_of T.means limits) (P.state plant.old) self.old h t →
            IfErr result (Fails (setup_of T.means limits) (P.state plant.old) (P.state plant.new) self.new h t (entries_commit self.old.state outcome.input (texts_of T.means outcome.org) outcome.release)) }
        ensures open { self.old.broken ≡ false → IsOk result → self.new.broken ≡ false }
        ensures shelf { IsTrue (P.state plant.old).honest → (P.state plant.new).image.shelf ≡ (P.state plant.old).image.shelf }
        ensures opening { self.new.opening ≡ self.old.opening }
        ensures stays { Stays (P.state plant.old) (P.state plant.new) }
        ensures cause { IsErrOf result HubFault.DiskFault → Rose (P.state plant.old).disk_faults (P.state plant.new).disk_faults }
    {
        let reply = match self.state.judge_commit(alloc, &outcome) {
            Ok(reply) => reply,
            Err(NoMemory) => return Err(HubFault::NoMemory),
        };
        match end_of(reply) {
            CommitEnd::Committed => match self.add_release(alloc, plant, outcome) {
                Ok(()) => Ok(CommitEnd::Committed),
                Err(fault) => Err(fault),
            },
            CommitEnd::Already => Ok(CommitEnd::Already),
            CommitEnd::Unknown => Ok(CommitEnd::Unknown),
            CommitEnd::NotItsInput { part, at } => Ok(CommitEnd::NotItsInput { part, at }),
        }
    }

    /// Categorises by an outcome: its release is added where it was made from the input of a release that waits, and by
    /// its organisation. Behind it the reports of each submission list what each mailbox takes of all that was sent.
    pub fn commit<P: Plant>(
        &mut self,
        alloc: Global,
        plant: &mut P,
        outcome: Outcome<T>,
    ) -> Result<CommitEnd, HubFault>
        ensures adds { (mid : Standing) × (self.old.broken ≡ false → mid ≡ self.old.state)
            × IfOk result (λ end. reply_of_end end ≡ reply_commit mid outcome.input (texts_of T.means outcome.org))
            × ((limits : Limits) (h t : List Entry) → HubStands (setup_of T.means limits) (P.state plant.old) self.old h t →
            Leads (setup_of T.means limits) self.old.broken (P.state plant.old) (P.state plant.new) self.new h t mid (entries_commit mid outcome.input (texts_of T.means outcome.org) outcome.release) (λ g. Leaves limits.log g (entries_commit mid outcome.input (texts_of T.means outcome.org) outcome.release)) result) }
        ensures any_moment { (limits : Limits) (h t : List Entry) → HubStands (setup_of T.means limits) (P.state plant.old) self.old h t →
            LeavesOnly (P.state plant.old) (P.state plant.new) (MayStand (setup_of T.means limits) h t) }
        ensures journal { (limits : Limits) (h t : List Entry) → IsReady (setup_of T.means limits) (P.state plant.old) self.old h t →
            OnOk result (IsJournaled (setup_of T.means limits) (h ++ (t ++ entries_commit self.old.state outcome.input (texts_of T.means outcome.org) outcome.release))) }
        ensures open { IsOk result → self.new.broken ≡ false }
        ensures shelf { IsTrue (P.state plant.old).honest → (P.state plant.new).image.shelf ≡ (P.state plant.old).image.shelf }
        ensures opening { self.old.broken ≡ false → self.new.opening ≡ self.old.opening }
        ensures stays { Stays (P.state plant.old) (P.state plant.new) }
        ensures cause { IsErrOf result HubFault.DiskFault → Rose (P.state plant.old).disk_faults (P.state plant.new).disk_faults }
    {
        hub_core::laws::reports_list_what_is_sent::<T>();
        match self.mend(alloc, plant) {
            Err(fault) => Err(fault),
            Ok(()) => self.commit_outcome(alloc, plant, outcome),
        }
    }
}

// A text, or a copy of the newest where none is given.
fn text_or(alloc: Global, text: Option<Bytes>, newest: &[u8]) -> Result<Bytes, NoMemory>
    ensures { IfOk result (λ made. made ≡ unwrap_or text newest.now) }
{
    match text {
        Some(text) => Ok(text),
        None => Bytes::of(alloc, newest),
    }
}

// The epoch that a reply to an organisation gives, or why there is none.
fn epoch_of(reply: Reply) -> Result<u32, HubFault>
    requires { IsOrgReply reply }
    ensures { AnswersOrg reply result }
{
    match reply {
        Reply::Organised { epoch } => Ok(epoch),
        Reply::EpochsFull { live } => Err(HubFault::EpochsFull { live }),
        Reply::Org { fault } => Err(HubFault::Org { fault }),
        Reply::Accepted { .. } => unreachable!(),
        Reply::QueueFull { .. } => unreachable!(),
        Reply::Committed => unreachable!(),
        Reply::Already => unreachable!(),
        Reply::Unknown => unreachable!(),
        Reply::NotItsInput { .. } => unreachable!(),
        Reply::NoSuchApproval => unreachable!(),
        Reply::Decided { .. } => unreachable!(),
        Reply::Done => unreachable!(),
        Reply::NotNow => unreachable!(),
    }
}

// What a reply to an outcome says of it.
fn end_of(reply: Reply) -> CommitEnd
    requires { IsCommitReply reply }
    ensures { reply_of_end result ≡ reply }
{
    match reply {
        Reply::Committed => CommitEnd::Committed,
        Reply::Already => CommitEnd::Already,
        Reply::Unknown => CommitEnd::Unknown,
        Reply::NotItsInput { part, at } => CommitEnd::NotItsInput { part, at },
        Reply::Organised { .. } => unreachable!(),
        Reply::EpochsFull { .. } => unreachable!(),
        Reply::Org { .. } => unreachable!(),
        Reply::Accepted { .. } => unreachable!(),
        Reply::QueueFull { .. } => unreachable!(),
        Reply::NoSuchApproval => unreachable!(),
        Reply::Decided { .. } => unreachable!(),
        Reply::Done => unreachable!(),
        Reply::NotNow => unreachable!(),
    }
}
