// The state of the hub, as far as its history matters.
ghost use Rattle.std.specs.Prelude.{◌≡◌, ◌+◌, ◌<◌, ◌≤◌, ◌^◌, ℕ, List, Ok, true, nat_lt, length, map, fold, IfOk, IfSome, OnOk, IsSome, is_some, find, slice_get, option_copied, option_map, ◌-◌};
ghost use Rattle.std.specs.Arc.{arc_value};
ghost use Rattle.hub_core.specs.declared.limits.Limits.{Limits};
ghost use Rattle.hub_core.specs.Setup.{setup_of, texts_of, first_org};
ghost use Rattle.hub_core.specs.Mail.{IsTask, is_uncategorised};
ghost use Rattle.hub_core.specs.Waiting.{is_named, name_in, names_made, AreDue};
ghost use Rattle.hub_core.specs.Standing.{Applies, start, has_room, has_epoch, live_bytes, live_epochs, with_epoch, with_mail, with_item, same_texts, is_lawful, is_moment, mail_of, any_pends, number_at, now_of, place_of_same, task_name, first_task, tasks_of};
ghost use Rattle.hub_core.specs.Replies.{reply_organise, reply_other, reply_submit, reply_commit, reply_done, reply_to};

mod deciding;
mod delivering;

use crate::asking::asks_of;
use crate::limits::Limits;
use crate::live::{Live, TaskName, first_task, is_uncategorised, made_at, uncategorised};
use crate::remembered::Remembered;
use crate::waiting::{WaitingItem, find, is_waiting, names_due, names_made, names_of, waiting_all};
use crate::{Command, Reply, StepFault};
use log_entry::Entry;
use mail_names::{ItemName, LAST_MOMENT, NoMemory};
use mail_plan::{FIRST_DIRECTORY, OrgFault, Outcome, Planner, Release, Task};
use mail_submission::Submission;
use std::alloc::Global;
use std::collections::VecDeque;
use std::marker::Model;
use std::sync::Arc;

/// The state of the hub: its limits, its last moment, the newest organisation with its epoch, the submissions that it
/// remembers with the octets of their messages, and the items that wait.
#[derive(Drop)]
pub struct State<T: Planner> {
    limits: Limits,
    moment: u64,
    epoch: u32,
    newest: Arc<T::Org>,
    live: Remembered<T>,
    bytes: u64,
    waiting: VecDeque<WaitingItem>,
}

impl<T: Planner> Model for State<T> {
    ghost use Rattle.std.specs.Prelude.{◌≡◌, ◌≤◌};
    ghost use Rattle.std.specs.Arc.{arc_value};
    ghost use Rattle.mail_names.specs.Dates.{last_moment};
    ghost use Rattle.hub_core.specs.Setup.{texts_of};
    ghost use Rattle.hub_core.specs.Standing.{Standing, live_bytes};

    ghost Value = { Standing };

    ghost view = { λ s. record { limits = s.limits; moment = s.moment; epoch = s.epoch; newest = texts_of T.means (arc_value s.newest); live = s.live; waiting = s.waiting.items } };

    ghost invariant = { λ s. (s.moment ≤ last_moment) × (s.bytes ≡ live_bytes s.live) };
}

// The organisation that stands before any other.
fn first_org<T: Planner>(alloc: Global) -> Result<T::Org, NoMemory>
    ensures { IfOk result (λ org. texts_of T.means org ≡ first_org) }
{
    match T::read_org(alloc, FIRST_DIRECTORY, &[]) {
        Ok(org) => Ok(org),
        Err(OrgFault::NoMemory) => Err(NoMemory),
        Err(OrgFault::Directory { .. }) => unreachable!(),
        Err(OrgFault::Rules { .. }) => unreachable!(),
    }
}

impl<T: Planner> State<T> {
    /// The state of the empty history under these limits.
    pub fn start(alloc: Global, limits: Limits) -> Result<State<T>, NoMemory>
        ensures { IfOk result (λ state. state ≡ start (setup_of T.means limits)) }
    {
        let newest = Arc::new(alloc, first_org::<T>(alloc)?)?;
        Ok(State {
            limits,
            moment: 0,
            epoch: 0,
            newest,
            live: Remembered::new(alloc),
            bytes: 0,
            waiting: VecDeque::new(alloc),
        })
    }

    /// The epoch of the newest organisation: the count of those that came into force.
    pub fn epoch(&self) -> u32
        ensures { result ≡ self.now.epoch }
    {
        self.epoch
    }

    /// The texts of the newest organisation: of its directory, and of its rules. It takes no memory.
    pub fn texts(&self) -> (&[u8], &[u8])
        ensures directory { result.0.now ≡ self.now.newest.directory }
        ensures rules { result.1.now ≡ self.now.newest.rules }
    {
        T::texts(&self.newest)
    }

    /// The greatest moment of the history.
    pub fn moment(&self) -> u64
        ensures { result ≡ self.now.moment }
    {
        self.moment
    }

    /// The moment that a command has at this clock.
    pub fn now(&self, clock: u64) -> u64
        ensures value { result ≡ now_of self.now clock }
        ensures later { self.now.moment ≤ result }
        ensures last { result ≤ LAST_MOMENT }
    {
        clock.max(self.moment).min(LAST_MOMENT)
    }

    /// The submissions that were accepted, in the order of their numbers.
    pub fn live(&self) -> &[Live<T>]
        ensures { result.now ≡ self.now.live }
    {
        self.live.as_slice()
    }

    /// The limits that the hub is held to.
    pub fn limits(&self) -> Limits
        ensures { result ≡ self.now.limits }
    {
        self.limits
    }

    /// The octets of the messages that are remembered.
    pub fn bytes(&self) -> u64
        ensures { result ≡ live_bytes self.now.live }
    {
        self.bytes
    }

    /// The number that the next new submission gets.
    pub fn next_number(&self) -> u64
        ensures { result ≡ length self.now.live + 1 }
    {
        self.live.as_slice().len() as u64 + 1
    }

    /// The number of the submission that this one repeats, if it repeats one.
    pub fn repeat_of(&self, submission: &Submission) -> Option<u64>
        ensures { result ≡ number_at (place_of_same submission.now self.now.live) }
    {
        match self.live.place_of_same(submission) {
            Some(place) => Some(place as u64 + 1),
            None => None,
        }
    }

    /// Whether an item waits.
    pub fn is_waiting(&self) -> bool
        ensures { result ≡ nat_lt 0 (length self.now.waiting) }
    {
        !self.waiting.is_empty()
    }

    /// The names of the items that wait, in the order in which they came to.
    pub fn waiting_names(&self, alloc: Global) -> Result<Vec<ItemName>, NoMemory>
        ensures { IfOk result (λ names. names.items ≡ map name_in self.now.waiting) }
    {
        names_of(alloc, &self.waiting)
    }

    /// The names of the waiting items that the last turn made due and didn't make, in their order.
    pub fn due(&self, alloc: Global) -> Result<Vec<ItemName>, NoMemory>
        ensures { IfOk result (λ names. AreDue names.items self.now.waiting) }
    {
        names_due(alloc, &self.waiting)
    }

    /// The names of the waiting items that the last turn made, in the order in which it did.
    pub fn made(&self, alloc: Global) -> Result<Vec<ItemName>, NoMemory>
        ensures { IfOk result (λ names. names.items ≡ names_made self.now.waiting) }
    {
        names_made(alloc, &self.waiting)
    }

    /// The item of this name, if it waits.
    pub fn item(&self, name: &ItemName) -> Option<&WaitingItem>
        ensures value { option_copied result ≡ find (is_named name.now) self.now.waiting }
        ensures waits { IsSome result → is_lawful (setup_of T.means self.now.limits) self.now (Entry.Delivered name.now) ≡ true }
    {
        find(&self.waiting, name)
    }

    /// Whether an approval pends.
    pub fn pends(&self) -> bool
        ensures { result ≡ any_pends self.now }
    {
        self.live.as_slice().iter().any(|live| live.pends())
    }

    /// The task of making a release, if the submission of this number has it and it waits to be categorised.
    pub fn task_of(&self, alloc: Global, name: &TaskName) -> Result<Option<Task<T>>, NoMemory>
        ensures waits { IfOk result (λ task. is_some task ≡ is_uncategorised (mail_of self.now name.now.submission) name.now.release) }
        ensures release { IfOk result (λ task. IfSome task (λ t. t.input.release ≡ name.now.release)) }
        ensures made { IfOk result (λ task. IfSome task (λ t. IfSome (mail_of self.now name.now.submission) (λ mail. IsTask name.now.submission mail t.input (texts_of T.means (arc_value t.org))))) }
    {
        if name.submission == 0 {
            return Ok(None);
        }
        match self.live.as_slice().get((name.submission - 1) as usize) {
            None => Ok(None),
            Some(live) => live.task(alloc, name.submission, name.release),
        }
    }

    /// The releases that wait to be categorised, by submission and release.
    pub fn uncategorised(&self, alloc: Global) -> Result<Vec<TaskName>, NoMemory>
        ensures { IfOk result (λ names. names.items ≡ tasks_of self.now) }
    {
        uncategorised(alloc, self.live.as_slice())
    }

    /// The name of the first release, by submission and release, that waits to be categorised, of the submissions whose number
    /// leaves this residue. None where there is none.
    pub fn first_task(&self, residue: u32, workers: u32) -> Option<TaskName>
        requires { residue < workers }
        ensures { result ≡ first_task residue workers 1 self.now.live }
    {
        first_task(self.live.as_slice(), residue, workers)
    }

    /// The task of that release.
    pub fn task(
        &self,
        alloc: Global,
        residue: u32,
        workers: u32,
    ) -> Result<Option<Task<T>>, NoMemory>
        requires { residue < workers }
        ensures first { IfOk result (λ task. option_map (λ (t : _). task_name t.input) task ≡ first_task residue workers 1 self.now.live) }
        ensures made { IfOk result (λ task. IfSome task (λ t. IfSome (mail_of self.now t.input.number) (λ mail. IsTask t.input.number mail t.input (texts_of T.means (arc_value t.org))))) }
    {
        match self.first_task(residue, workers) {
            None => Ok(None),
            Some(name) => self.task_of(alloc, &name),
        }
    }

    /// What is answered to a command.
    pub fn judge(&self, alloc: Global, command: &Command<T>) -> Result<Reply, NoMemory>
        ensures { IfOk result (λ reply. reply ≡ reply_to (texts_of T.means) (setup_of T.means self.now.limits) self.now command.now) }
    {
        match command {
            Command::Organise { directory, rules } => {
                self.judge_organise(alloc, directory.as_slice(), rules.as_slice())
            }
            Command::Submit { submission, .. } => Ok(self.judge_submit(submission)),
            Command::Commit { outcome } => self.judge_commit(alloc, outcome),
            Command::Decide {
                approval,
                by,
                verdict,
                clock,
            } => Ok(self.judge_decide(approval, by, *verdict, *clock)),
            Command::Moment { .. } => Ok(Reply::Done),
            Command::Delivered { name } => Ok(done_or_not(is_waiting(&self.waiting, name))),
            Command::Delayed { name } => Ok(done_or_not(self.delays(name))),
            Command::Ended { name } => Ok(done_or_not(self.ends(name))),
        }
    }

    /// What is answered to the texts of an organisation.
    pub fn judge_organise(
        &self,
        alloc: Global,
        directory: &[u8],
        rules: &[u8],
    ) -> Result<Reply, NoMemory>
        ensures { IfOk result (λ reply. reply ≡ reply_organise (setup_of T.means self.now.limits) self.now (record { directory = directory.now; rules = rules.now })) }
    {
        match T::read_org(alloc, directory, rules) {
            Err(OrgFault::NoMemory) => Err(NoMemory),
            Err(OrgFault::Directory { number, row }) => Ok(Reply::Org {
                fault: OrgFault::Directory { number, row },
            }),
            Err(OrgFault::Rules { number, rule }) => Ok(Reply::Org {
                fault: OrgFault::Rules { number, rule },
            }),
            Ok(_) if self.is_newest(directory, rules) => Ok(Reply::Organised { epoch: self.epoch }),
            Ok(_) => self.judge_other(alloc),
        }
    }

    // What is answered to an organisation that isn't the newest.
    fn judge_other(&self, alloc: Global) -> Result<Reply, NoMemory>
        ensures { IfOk result (λ reply. reply ≡ reply_other self.now) }
    {
        let live = self.live_epochs(alloc)?;
        if self.has_epoch(live) {
            Ok(Reply::Organised {
                epoch: self.epoch + 1,
            })
        } else {
            Ok(Reply::EpochsFull { live })
        }
    }

    // Whether there is room for one organisation more, where so many are live.
    fn has_epoch(&self, live: u64) -> bool
        ensures value { live ≡ length (live_epochs self.now) → result ≡ has_epoch self.now }
        ensures small { result ≡ true → self.now.epoch < 4294967295 }
    {
        self.epoch < u32::MAX && live < self.limits.epochs
    }

    // Whether the newest organisation has these texts.
    fn is_newest(&self, directory: &[u8], rules: &[u8]) -> bool
        ensures { result ≡ same_texts (record { directory = directory.now; rules = rules.now }) self.now.newest }
    {
        let (newest_directory, newest_rules) = T::texts(&self.newest);
        directory == newest_directory && rules == newest_rules
    }

    // How many organisations are live.
    fn live_epochs(&self, alloc: Global) -> Result<u64, NoMemory>
        ensures { IfOk result (λ count. count ≡ length (live_epochs self.now)) }
    {
        let mut epochs = Vec::new(alloc);
        epochs.push(self.epoch)?;
        add_waiting(&mut epochs, self.live.as_slice())?;
        add_items(&mut epochs, self.live.as_slice(), &self.waiting)?;
        Ok(epochs.len() as u64)
    }

    /// What is answered to a submission.
    pub fn judge_submit(&self, submission: &Submission) -> Reply
        ensures { result ≡ reply_submit self.now submission.now }
    {
        match self.live.place_of_same(submission) {
            Some(place) => Reply::Accepted {
                number: place as u64 + 1,
                repeat: true,
            },
            None if self.has_room(submission) => Reply::Accepted {
                number: self.next_number(),
                repeat: false,
            },
            None => Reply::QueueFull {
                live: self.live.as_slice().len() as u64,
                bytes: self.bytes,
            },
        }
    }

    /// Whether the limits leave room for this submission, if it repeats none.
    pub fn has_room(&self, submission: &Submission) -> bool
        ensures { result ≡ has_room self.now submission.now }
    {
        let live = self.live.as_slice().len() as u64;
        let size = submission.bytes().len() as u64;
        live < self.limits.live
            && self.bytes <= self.limits.bytes
            && size <= self.limits.bytes - self.bytes
            && live + 1 < u64::MAX
    }

    /// What is answered to an outcome: it is taken where it was made from the input of a release that waits to be
    /// categorised, and by its organisation.
    pub fn judge_commit(&self, alloc: Global, outcome: &Outcome<T>) -> Result<Reply, NoMemory>
        ensures { IfOk result (λ reply. reply ≡ reply_commit self.now outcome.now.input (texts_of T.means outcome.now.org)) }
    {
        let number = outcome.input().number();
        if number == 0 {
            return Ok(Reply::Unknown);
        }
        match self.live.as_slice().get((number - 1) as usize) {
            None => Ok(Reply::Unknown),
            Some(live) => live.judge(alloc, number, outcome),
        }
    }

    /// Goes on by an entry, if it can stand behind those before it.
    ///
    /// After a refusal the state is as it was.
    pub fn apply(&mut self, alloc: Global, entry: Entry) -> Result<(), StepFault>
        ensures { Applies (setup_of T.means self.old.limits) self.old entry result self.new }
    {
        match entry {
            Entry::Organised { directory, rules } => {
                self.organise(alloc, directory.as_slice(), rules.as_slice())
            }
            Entry::Accepted { moment, submission } => self.accept(alloc, moment, submission),
            Entry::Categorised {
                number,
                release,
                plan,
            } => self.categorise(alloc, number, release, plan),
            Entry::Decided {
                approval,
                by,
                verdict,
                moment,
            } => self.decide(alloc, &approval, &by, verdict, moment),
            Entry::Moment { moment } => self.turn(alloc, moment),
            Entry::Delivered { name } => self.deliver(&name),
            Entry::Delayed { name } => self.delay(alloc, &name),
            Entry::Ended { name } => self.end(alloc, &name),
            // Nothing is forgotten yet.
            Entry::Forgot { .. } => Err(StepFault::NotLawful),
        }
    }

    // An organisation comes into force, if these are the texts of one.
    fn organise(&mut self, alloc: Global, directory: &[u8], rules: &[u8]) -> Result<(), StepFault>
        ensures { Applies (setup_of T.means self.old.limits) self.old (Entry.Organised directory.now rules.now) result self.new }
    {
        match T::read_org(alloc, directory, rules) {
            Ok(org) => self.change(alloc, org),
            Err(OrgFault::NoMemory) => Err(StepFault::NoMemory),
            Err(OrgFault::Directory { .. }) => Err(StepFault::NotLawful),
            Err(OrgFault::Rules { .. }) => Err(StepFault::NotLawful),
        }
    }

    // This organisation comes into force, if it is another one and there is room for it.
    fn change(&mut self, alloc: Global, org: T::Org) -> Result<(), StepFault>
        ensures { (directory rules : List ℕ) → T.means.reads directory rules ≡ Ok org → Applies (setup_of T.means self.old.limits) self.old (Entry.Organised directory rules) result self.new }
    {
        let (directory, rules) = T::texts(&org);
        if self.is_newest(directory, rules) {
            return Err(StepFault::NotLawful);
        }
        let Ok(live) = self.live_epochs(alloc) else {
            return Err(StepFault::NoMemory);
        };
        if !self.has_epoch(live) {
            return Err(StepFault::NotLawful);
        }
        let Ok(newest) = Arc::new(alloc, org) else {
            return Err(StepFault::NoMemory);
        };
        self.newest = newest;
        self.epoch += 1;
        Ok(())
    }

    // Whether a moment can stand behind the last.
    fn is_moment(&self, moment: u64) -> bool
        ensures value { result ≡ is_moment self.now moment }
        ensures last { result ≡ true → moment ≤ LAST_MOMENT }
    {
        self.moment <= moment && moment <= LAST_MOMENT
    }

    // A submission was accepted.
    fn accept(
        &mut self,
        alloc: Global,
        moment: u64,
        submission: Submission,
    ) -> Result<(), StepFault>
        ensures { Applies (setup_of T.means self.old.limits) self.old (Entry.Accepted moment submission) result self.new }
    {
        if !self.is_moment(moment)
            || self.live.place_of_same(&submission).is_some()
            || !self.has_room(&submission)
        {
            return Err(StepFault::NotLawful);
        }
        let size = submission.bytes().len() as u64;
        let org = self.newest.clone().map_err(|_| StepFault::NoMemory)?;
        let live = Live::new(alloc, submission, moment, self.epoch, org).map_err(
            |_| StepFault::NoMemory,
        )?;
        self.live.push(live).map_err(|_| StepFault::NoMemory)?;
        self.bytes += size;
        self.moment = moment;
        Ok(())
    }

    // A release was made.
    fn categorise(
        &mut self,
        alloc: Global,
        number: u64,
        release: u32,
        plan: Release,
    ) -> Result<(), StepFault>
        ensures { Applies (setup_of T.means self.old.limits) self.old (Entry.Categorised number release plan) result self.new }
    {
        if number == 0
            || !is_uncategorised(self.live.as_slice(), (number - 1) as usize, release)
            || !plan.is_release(number, release)
        {
            return Err(StepFault::NotLawful);
        }
        let place = (number - 1) as usize;
        let made = made_at(self.live.as_slice(), place, release);
        let Release {
            texts,
            items,
            holds,
            ends: _,
        } = plan;
        let asks = asks_of(alloc, holds.into_vec(), made).map_err(|_| StepFault::NoMemory)?;
        let mut items = waiting_all(alloc, texts, made, items).map_err(|_| StepFault::NoMemory)?;
        self.waiting
            .append(&mut items)
            .map_err(|_| StepFault::NoMemory)?;
        self.live.categorise(place, release, asks);
        Ok(())
    }
}

// What is answered where an item is in the state that a command asks for, or isn't.
fn done_or_not(now: bool) -> Reply
    ensures { result ≡ reply_done now }
{
    if now { Reply::Done } else { Reply::NotNow }
}

// Adds an epoch, unless it is there.
fn add_epoch(epochs: &mut Vec<u32>, epoch: u32) -> Result<(), NoMemory>
    ensures { OnOk result (epochs.new.items ≡ with_epoch epochs.old.items epoch) }
{
    if !epochs.contains(&epoch) {
        epochs.push(epoch)?;
    }
    Ok(())
}

// Adds the epochs of the submissions that keep their organisation.
fn add_waiting<T: Planner>(epochs: &mut Vec<u32>, lives: &[Live<T>]) -> Result<(), NoMemory>
    ensures { OnOk result (epochs.new.items ≡ fold with_mail epochs.old.items lives.now) }
{
    for live in lives {
        if live.is_open() {
            add_epoch(epochs, live.epoch())?;
        }
    }
    Ok(())
}

// Adds the epoch of the submission of an item.
fn add_item<T: Planner>(
    epochs: &mut Vec<u32>,
    lives: &[Live<T>],
    item: &WaitingItem,
) -> Result<(), NoMemory>
    ensures { OnOk result (epochs.new.items ≡ with_item lives.now epochs.old.items item.now) }
{
    match lives.get(item.item.name.submission.saturating_sub(1) as usize) {
        None => Ok(()),
        Some(live) => add_epoch(epochs, live.epoch()),
    }
}

// Adds the epochs of the submissions that have an item waiting.
fn add_items<T: Planner>(
    epochs: &mut Vec<u32>,
    lives: &[Live<T>],
    waiting: &VecDeque<WaitingItem>,
) -> Result<(), NoMemory>
    ensures { OnOk result (epochs.new.items ≡ fold (with_item lives.now) epochs.old.items waiting.now.items) }
{
    for item in waiting.iter() {
        add_item(epochs, lives, item)?;
    }
    Ok(())
}
