// The hub: the state of its history, kept in step with the log.
ghost use Rattle.std.specs.Prelude.{◌≡◌, ◌≢◌, ◌⊎◌, ◌+◌, List, [], ◌∷◌, ◌++◌, true, false, IsTrue, IsOk, IsOkAnd, length, IfOk, IfErr, OnOk, OnErr, IsErrOf, None};
ghost use Rattle.port_io.specs.Causes.{Rose};
ghost use Rattle.log_entry.specs.declared.entry.Entry.TheVariants as entries;
ghost use Rattle.log_entry.specs.declared.entry.Entry.{Entry};
ghost use Rattle.plant_dev.specs.Disk.{Stays, LeavesOnly};
ghost use Rattle.hub_core.specs.declared.limits.Limits.{Limits};
ghost use Rattle.hub_core.specs.Setup.{Setup, setup_of, texts_of};
ghost use Rattle.hub_core.specs.Standing.{Standing, is_lawful, state_after, has_room, now_of, place_of_same};
ghost use Rattle.mail_plan.specs.Planning.{is_release};

mod deciding;
mod delivery;
mod opening;
mod planning;

use crate::HubFault;
use hub_core::{State, StepFault};
use log_entry::Entry;
use mail_plan::{Outcome, Planner};
use mail_submission::{Accepted, Submission};
use plant_dev::Plant;
use port_io::Failed;
use queue_disk::Log;
use std::alloc::Global;
use std::marker::Model;

/// The hub over a plant, which is handed to each call.
///
/// Calls add their entries to the log, where they are pending: a crash loses all of them or none, until `settle` makes them
/// durable, all at once. After a `DiskFault` the next call that adds entries first opens the log again: then its `opening` is
/// another one, and what was pending in the one before may be lost.
#[derive(Drop)]
pub struct Hub<T: Planner> {
    state: State<T>,
    log: Log,
    broken: bool,
    opening: u64,
}

impl<T: Planner> Model for Hub<T> {
    ghost use Rattle.queue_store.specs.Ready.{Kept};

    ghost Value = { Kept };

    ghost view = { λ h. record { state = h.state; log = h.log; broken = h.broken; opening = h.opening } };
}

impl<T: Planner> Hub<T> {
    ghost use Rattle.queue_store.specs.Stands.{MayStand};
    ghost use Rattle.queue_store.specs.Ready.{IsReady, HubStands, Mended, Before, Follows, Adds, FailsBy, Fails, IsBroken, Turns, FailsSettling, SettlesRest};
    ghost use Rattle.queue_store.specs.Turning.{NotOpened, Leads, LeadsSettled};
    ghost use Rattle.queue_store.specs.Calls.{entries_submit, IsAccepted};
    ghost use Rattle.queue_store.specs.Planning.{IsWaiting};
    ghost use Rattle.queue_store.specs.Refusals.{RefusedBy};

    // Opens the log again where a disk fault broke it off.
    fn mend<P: Plant>(&mut self, alloc: Global, plant: &mut P) -> Result<(), HubFault>
        ensures whole { self.old.broken ≡ false → IsOk result × (self.new ≡ self.old) × (plant.new ≡ plant.old) }
        ensures open { IsOk result → self.new.broken ≡ false }
        ensures anew { self.old.broken ≡ true → IsOk result → self.new.opening ≢ self.old.opening }
        ensures stays { Stays (P.state plant.old) (P.state plant.new) }
        ensures shelf { IsTrue (P.state plant.old).honest → (P.state plant.new).image.shelf ≡ (P.state plant.old).image.shelf }
        ensures cause { IsErrOf result HubFault.DiskFault → Rose (P.state plant.old).disk_faults (P.state plant.new).disk_faults }

        // The log is open for one of the two that its images stood for, or all is as it was.
        ensures any_moment { (limits : Limits) (h t : List Entry) → HubStands (setup_of T.means limits) (P.state plant.old) self.old h t →
            LeavesOnly (P.state plant.old) (P.state plant.new) (Before (setup_of T.means limits) self.old.broken h t) }
        ensures mended { (limits : Limits) (h t : List Entry) → HubStands (setup_of T.means limits) (P.state plant.old) self.old h t →
            OnOk result (Mended (setup_of T.means limits) self.old.broken (P.state plant.new) self.new h t) }
        ensures failed { (limits : Limits) (h t : List Entry) → HubStands (setup_of T.means limits) (P.state plant.old) self.old h t →
            IfErr result (NotOpened (setup_of T.means limits) self.old.broken (P.state plant.old) (P.state plant.new) self.new h t) }
    {
        if !self.broken {
            return Ok(());
        }
        let hub = Hub::<T>::open_as(alloc, plant, self.state.limits(), another(self.opening))?;
        *self = hub;
        Ok(())
    }

    // Adds an entry to the log and to the state.
    fn append<P: Plant>(
        &mut self,
        alloc: Global,
        plant: &mut P,
        entry: Entry,
    ) -> Result<(), HubFault>
        requires { is_lawful (setup_of T.means self.old.state.limits) self.old.state entry ≡ true }
        ensures adds { (setup : Setup) (h t : List Entry) → IsReady setup (P.state plant.old) self.old h t → Follows setup (P.state plant.old) (h ++ t) entry →
            state_after setup self.old.state entry ≡ state_after (setup_of T.means self.old.state.limits) self.old.state entry →
            OnOk result (Adds setup (P.state plant.old) (P.state plant.new) self.new h t (entry ∷ [])) }
        ensures fails { (setup : Setup) (h t : List Entry) → IsReady setup (P.state plant.old) self.old h t →
            IfErr result (Fails setup (P.state plant.old) (P.state plant.new) self.new h t (entry ∷ [])) }
        ensures open { self.old.broken ≡ false → IsOk result → self.new.broken ≡ false }
        ensures shelf { IsTrue (P.state plant.old).honest → (P.state plant.new).image.shelf ≡ (P.state plant.old).image.shelf }
        ensures opening { self.new.opening ≡ self.old.opening }
        ensures stays { Stays (P.state plant.old) (P.state plant.new) }
        ensures cause { IsErrOf result HubFault.DiskFault → Rose (P.state plant.old).disk_faults (P.state plant.new).disk_faults }
    {
        let framed = self.log.framed(alloc, &entry)?;
        match self.state.apply(alloc, entry) {
            Ok(()) => {}
            Err(StepFault::NoMemory) => return Err(HubFault::NoMemory),
            Err(StepFault::NotLawful) => unreachable!(),
        }
        match self.log.add(plant, &framed) {
            Ok(()) => Ok(()),
            Err(Failed) => {
                self.broken = true;
                Err(HubFault::DiskFault)
            }
        }
    }

    // Adds the release of an outcome, which was made from what its submission waits with.
    fn add_release<P: Plant>(
        &mut self,
        alloc: Global,
        plant: &mut P,
        outcome: Outcome<T>,
    ) -> Result<(), HubFault>
        requires { IsWaiting self.old.state outcome.input (texts_of T.means outcome.org) }
        ensures prescribed { (limits : Limits) → outcome.release ≡ (setup_of T.means limits).release_of (texts_of T.means outcome.org) outcome.input }
        ensures adds { (limits : Limits) (h t : List Entry) → IsReady (setup_of T.means limits) (P.state plant.old) self.old h t →
            OnOk result (Adds (setup_of T.means limits) (P.state plant.old) (P.state plant.new) self.new h t (entries.Categorised outcome.input.number outcome.input.release outcome.release ∷ [])) }
        ensures fails { (limits : Limits) (h t : List Entry) → IsReady (setup_of T.means limits) (P.state plant.old) self.old h t →
            IfErr result (Fails (setup_of T.means limits) (P.state plant.old) (P.state plant.new) self.new h t (entries.Categorised outcome.input.number outcome.input.release outcome.release ∷ [])) }
        ensures open { self.old.broken ≡ false → IsOk result → self.new.broken ≡ false }
        ensures shelf { IsTrue (P.state plant.old).honest → (P.state plant.new).image.shelf ≡ (P.state plant.old).image.shelf }
        ensures opening { self.new.opening ≡ self.old.opening }
        ensures stays { Stays (P.state plant.old) (P.state plant.new) }
        ensures cause { IsErrOf result HubFault.DiskFault → Rose (P.state plant.old).disk_faults (P.state plant.new).disk_faults }
    {
        prescribed_release(&outcome);
        let number = outcome.input().number();
        let release = outcome.input().release();
        let plan = outcome.into_release();
        let entry = Entry::Categorised {
            number,
            release,
            plan,
        };
        self.append(alloc, plant, entry)
    }

    // Accepts a submission that repeats none.
    fn accept<P: Plant>(
        &mut self,
        alloc: Global,
        plant: &mut P,
        submission: Submission,
        clock: u64,
    ) -> Result<Accepted, HubFault>
        requires repeats_none { place_of_same submission self.old.state.live ≡ None }
        requires room { has_room self.old.state submission ≡ true }
        ensures accepted { IfOk result (λ accepted. accepted ≡ record { number = length self.old.state.live + 1; repeat = false }) }
        ensures adds { (setup : Setup) (h t : List Entry) → IsReady setup (P.state plant.old) self.old h t →
            OnOk result (Adds setup (P.state plant.old) (P.state plant.new) self.new h t (entries.Accepted (now_of self.old.state clock) submission ∷ [])) }
        ensures fails { (setup : Setup) (h t : List Entry) → IsReady setup (P.state plant.old) self.old h t →
            IfErr result (Fails setup (P.state plant.old) (P.state plant.new) self.new h t (entries.Accepted (now_of self.old.state clock) submission ∷ [])) }
        ensures open { self.old.broken ≡ false → IsOk result → self.new.broken ≡ false }
        ensures shelf { IsTrue (P.state plant.old).honest → (P.state plant.new).image.shelf ≡ (P.state plant.old).image.shelf }
        ensures opening { self.new.opening ≡ self.old.opening }
        ensures stays { Stays (P.state plant.old) (P.state plant.new) }
        ensures cause { IsErrOf result HubFault.DiskFault → Rose (P.state plant.old).disk_faults (P.state plant.new).disk_faults }
    {
        let number = self.state.next_number();
        let moment = self.state.now(clock);
        self.append(alloc, plant, Entry::Accepted { moment, submission })?;
        Ok(Accepted {
            number,
            repeat: false,
        })
    }

    // Accepts a submission, unless it repeats one, where the log is open.
    fn submit_open<P: Plant>(
        &mut self,
        alloc: Global,
        plant: &mut P,
        submission: Submission,
        clock: u64,
    ) -> Result<Accepted, HubFault>
        ensures accepted { IfOk result (IsAccepted self.old.state submission) }
        ensures adds { (setup : Setup) (h t : List Entry) → IsReady setup (P.state plant.old) self.old h t →
            OnOk result (Adds setup (P.state plant.old) (P.state plant.new) self.new h t (entries_submit self.old.state clock submission)) }
        ensures fails { (setup : Setup) (h t : List Entry) → IsReady setup (P.state plant.old) self.old h t →
            IfErr result (FailsBy setup (P.state plant.old) (P.state plant.new) self.new h t (RefusedBy setup self.old.state submission clock (h ++ t))) }
        ensures open { self.old.broken ≡ false → IsOk result → self.new.broken ≡ false }
        ensures shelf { IsTrue (P.state plant.old).honest → (P.state plant.new).image.shelf ≡ (P.state plant.old).image.shelf }
        ensures opening { self.new.opening ≡ self.old.opening }
        ensures stays { Stays (P.state plant.old) (P.state plant.new) }
        ensures cause { IsErrOf result HubFault.DiskFault → Rose (P.state plant.old).disk_faults (P.state plant.new).disk_faults }
    {
        if let Some(number) = self.state.repeat_of(&submission) {
            return Ok(Accepted {
                number,
                repeat: true,
            });
        }
        if !self.state.has_room(&submission) {
            return Err(HubFault::QueueFull {
                live: self.state.live().len() as u64,
                bytes: self.state.bytes(),
            });
        }
        self.accept(alloc, plant, submission, clock)
    }

    /// Accepts a submission at this clock (seconds since 1970-01-01T00:00:00Z), unless it repeats one. Its entry is pending: it is
    /// told as accepted only once it is settled in the opening that the hub has behind this call.
    ///
    /// `QueueFull` comes where the limits leave no room for it, after a repeat is known.
    pub fn submit<P: Plant>(
        &mut self,
        alloc: Global,
        plant: &mut P,
        submission: Submission,
        clock: u64,
    ) -> Result<Accepted, HubFault>
        // The state decides that the open log was in, which is the one before unless a fault had broken the log off.
        ensures adds { (mid : Standing) × (self.old.broken ≡ false → mid ≡ self.old.state) × IfOk result (IsAccepted mid submission)
            × ((limits : Limits) (h t : List Entry) → HubStands (setup_of T.means limits) (P.state plant.old) self.old h t →
            Leads (setup_of T.means limits) self.old.broken (P.state plant.old) (P.state plant.new) self.new h t mid (entries_submit mid clock submission)
            (RefusedBy (setup_of T.means limits) mid submission clock) result) }
        // A crash at any moment of the call leaves what was settled, or what a fault had left open with it.
        ensures any_moment { (limits : Limits) (h t : List Entry) → HubStands (setup_of T.means limits) (P.state plant.old) self.old h t →
            LeavesOnly (P.state plant.old) (P.state plant.new) (MayStand (setup_of T.means limits) h t) }
        // A log that a disk fault broke off was opened again.
        ensures open { IsOk result → self.new.broken ≡ false }
        ensures shelf { IsTrue (P.state plant.old).honest → (P.state plant.new).image.shelf ≡ (P.state plant.old).image.shelf }
        ensures opening { self.old.broken ≡ false → self.new.opening ≡ self.old.opening }
        ensures stays { Stays (P.state plant.old) (P.state plant.new) }
        ensures cause { IsErrOf result HubFault.DiskFault → Rose (P.state plant.old).disk_faults (P.state plant.new).disk_faults }
    {
        match self.mend(alloc, plant) {
            Err(fault) => Err(fault),
            Ok(()) => self.submit_open(alloc, plant, submission, clock),
        }
    }

    // Accepts a submission and settles it, where the log is open.
    fn submit_durable<P: Plant>(
        &mut self,
        alloc: Global,
        plant: &mut P,
        submission: Submission,
        clock: u64,
    ) -> Result<Accepted, HubFault>
        ensures accepted { IfOk result (IsAccepted self.old.state submission) }
        ensures adds { (setup : Setup) (h t : List Entry) → IsReady setup (P.state plant.old) self.old h t →
            OnOk result (Turns setup (P.state plant.old) (P.state plant.new) self.new h t (entries_submit self.old.state clock submission)) }
        ensures fails { (setup : Setup) (h t : List Entry) → IsReady setup (P.state plant.old) self.old h t →
            IfErr result (FailsSettling setup (P.state plant.old) (P.state plant.new) self.new h t (entries_submit self.old.state clock submission) (RefusedBy setup self.old.state submission clock (h ++ t))) }
        ensures open { self.old.broken ≡ false → IsOk result → self.new.broken ≡ false }
        ensures shelf { IsTrue (P.state plant.old).honest → (P.state plant.new).image.shelf ≡ (P.state plant.old).image.shelf }
        ensures opening { self.new.opening ≡ self.old.opening }
        ensures stays { Stays (P.state plant.old) (P.state plant.new) }
        ensures cause { IsErrOf result HubFault.DiskFault → Rose (P.state plant.old).disk_faults (P.state plant.new).disk_faults }
    {
        match self.submit_open(alloc, plant, submission, clock) {
            Err(fault) => Err(fault),
            Ok(accepted) => match self.settle_open(plant) {
                Ok(()) => Ok(accepted),
                Err(fault) => Err(fault),
            },
        }
    }

    /// Accepts a submission at this clock, unless it repeats one, and settles it with all that is pending: what is answered is
    /// durable.
    pub fn submit_settled<P: Plant>(
        &mut self,
        alloc: Global,
        plant: &mut P,
        submission: Submission,
        clock: u64,
    ) -> Result<Accepted, HubFault>
        ensures settled { (mid : Standing) × (self.old.broken ≡ false → mid ≡ self.old.state) × IfOk result (IsAccepted mid submission)
            × ((limits : Limits) (h t : List Entry) → HubStands (setup_of T.means limits) (P.state plant.old) self.old h t →
            LeadsSettled (setup_of T.means limits) self.old.broken (P.state plant.old) (P.state plant.new) self.new h t mid (entries_submit mid clock submission)
            (RefusedBy (setup_of T.means limits) mid submission clock) result) }
        ensures open { IsOk result → self.new.broken ≡ false }
        ensures shelf { IsTrue (P.state plant.old).honest → (P.state plant.new).image.shelf ≡ (P.state plant.old).image.shelf }
        ensures opening { self.old.broken ≡ false → self.new.opening ≡ self.old.opening }
        ensures stays { Stays (P.state plant.old) (P.state plant.new) }
        ensures cause { IsErrOf result HubFault.DiskFault → Rose (P.state plant.old).disk_faults (P.state plant.new).disk_faults }
    {
        match self.mend(alloc, plant) {
            Err(fault) => Err(fault),
            Ok(()) => self.submit_durable(alloc, plant, submission, clock),
        }
    }

    // Settles all that is pending, where the log is open.
    fn settle_open<P: Plant>(&mut self, plant: &mut P) -> Result<(), HubFault>
        ensures settles { (setup : Setup) (h t : List Entry) → IsReady setup (P.state plant.old) self.old h t →
            OnOk result (IsReady setup (P.state plant.new) self.new (h ++ t) []) }
        ensures failed { (setup : Setup) (h t : List Entry) → IsReady setup (P.state plant.old) self.old h t →
            OnErr result (IsBroken setup (P.state plant.new) self.new h t) }
        ensures any_moment { (setup : Setup) (h t : List Entry) → IsReady setup (P.state plant.old) self.old h t →
            LeavesOnly (P.state plant.old) (P.state plant.new) (MayStand setup h t) }
        ensures state { self.new.state ≡ self.old.state }
        ensures open { self.old.broken ≡ false → IsOk result → self.new.broken ≡ false }
        ensures disk { IfErr result (λ e. e ≡ HubFault.DiskFault) }
        ensures shelf { IsTrue (P.state plant.old).honest → (P.state plant.new).image.shelf ≡ (P.state plant.old).image.shelf }
        ensures opening { self.new.opening ≡ self.old.opening }
        ensures stays { Stays (P.state plant.old) (P.state plant.new) }
        ensures cause { IsErrOf result HubFault.DiskFault → Rose (P.state plant.old).disk_faults (P.state plant.new).disk_faults }
    {
        match self.log.settle(plant) {
            Ok(()) => Ok(()),
            Err(Failed) => {
                self.broken = true;
                Err(HubFault::DiskFault)
            }
        }
    }

    // Settles what is pending where a call stopped with a fault, and gives the fault to answer.
    fn settle_rest<P: Plant>(&mut self, plant: &mut P, fault: HubFault) -> HubFault
        ensures broken { self.old.broken ≡ true → (result ≡ fault) × (self.new ≡ self.old) × (plant.new ≡ plant.old) }
        ensures settles { (setup : Setup) (h t : List Entry) → IsReady setup (P.state plant.old) self.old h t →
            SettlesRest setup (P.state plant.new) self.new h t fault result }
        ensures any_moment { (setup : Setup) (h t : List Entry) → IsReady setup (P.state plant.old) self.old h t →
            LeavesOnly (P.state plant.old) (P.state plant.new) (MayStand setup h t) }
        ensures opening { self.new.opening ≡ self.old.opening }
        ensures stays { Stays (P.state plant.old) (P.state plant.new) }
        ensures cause { result ≡ HubFault.DiskFault → (fault ≡ HubFault.DiskFault) ⊎ Rose (P.state plant.old).disk_faults (P.state plant.new).disk_faults }
    {
        if self.broken {
            return fault;
        }
        match self.settle_open(plant) {
            Ok(()) => fault,
            Err(disk) => disk,
        }
    }

    /// Which opening of the log this is. It is another one once the log was opened again after a disk fault.
    pub fn opening(&self) -> u64
        ensures { result ≡ self.now.opening }
    {
        self.opening
    }

    /// Settles all that is pending in this opening of the log, by two syncs, or none where nothing is pending: no crash loses it
    /// from then on.
    ///
    /// After `DiskFault` all of it stands or nothing does. Where a fault broke the log off before, or it is open in another
    /// opening by now, nothing is done and what was pending in this one is told so.
    pub fn settle<P: Plant>(&mut self, plant: &mut P, opening: u64) -> Result<(), HubFault>
        ensures settles { (setup : Setup) (h t : List Entry) → HubStands setup (P.state plant.old) self.old h t →
            OnOk result (IsReady setup (P.state plant.new) self.new (h ++ t) []) }
        ensures failed { (setup : Setup) (h t : List Entry) → self.old.opening ≡ opening → HubStands setup (P.state plant.old) self.old h t →
            OnErr result (IsBroken setup (P.state plant.new) self.new h t) }
        ensures same { IsOk result → self.old.opening ≡ opening }
        ensures other { self.old.opening ≢ opening → (self.new ≡ self.old) × (plant.new ≡ plant.old) }
        ensures any_moment { (setup : Setup) (h t : List Entry) → HubStands setup (P.state plant.old) self.old h t →
            LeavesOnly (P.state plant.old) (P.state plant.new) (MayStand setup h t) }
        ensures state { (self.new.state ≡ self.old.state) × (self.new.opening ≡ self.old.opening) }
        ensures open { IsOk result → self.new.broken ≡ false }
        ensures disk { IfErr result (λ e. e ≡ HubFault.DiskFault) }
        ensures shelf { IsTrue (P.state plant.old).honest → (P.state plant.new).image.shelf ≡ (P.state plant.old).image.shelf }
        ensures stays { Stays (P.state plant.old) (P.state plant.new) }
        ensures cause { self.old.broken ≡ false → self.old.opening ≡ opening → IsErrOf result HubFault.DiskFault → Rose (P.state plant.old).disk_faults (P.state plant.new).disk_faults }
    {
        if self.broken || self.opening != opening {
            return Err(HubFault::DiskFault);
        }
        self.settle_open(plant)
    }

    /// The number that the next new submission gets.
    pub fn next_number<P: Plant>(&mut self, alloc: Global, plant: &mut P) -> Result<u64, HubFault>
        ensures open { IsOk result → self.new.broken ≡ false }
        ensures number { IfOk result (λ number. number ≡ length self.new.state.live + 1) }
        // The log is open behind it. It fails only where a disk fault had broken it off and it can't be opened again.
        ensures opened { (limits : Limits) (h t : List Entry) → HubStands (setup_of T.means limits) (P.state plant.old) self.old h t →
            OnOk result (Mended (setup_of T.means limits) self.old.broken (P.state plant.new) self.new h t) }
        ensures failed { (limits : Limits) (h t : List Entry) → HubStands (setup_of T.means limits) (P.state plant.old) self.old h t →
            IfErr result (NotOpened (setup_of T.means limits) self.old.broken (P.state plant.old) (P.state plant.new) self.new h t) }
        ensures any_moment { (limits : Limits) (h t : List Entry) → HubStands (setup_of T.means limits) (P.state plant.old) self.old h t →
            LeavesOnly (P.state plant.old) (P.state plant.new) (MayStand (setup_of T.means limits) h t) }
        ensures opening { self.old.broken ≡ false → self.new.opening ≡ self.old.opening }
        ensures stays { Stays (P.state plant.old) (P.state plant.new) }
        ensures cause { IsErrOf result HubFault.DiskFault → Rose (P.state plant.old).disk_faults (P.state plant.new).disk_faults }
    {
        self.mend(alloc, plant)?;
        Ok(self.state.next_number())
    }
}

// The number of another opening. They go round after 2^64 of them.
fn another(opening: u64) -> u64
    ensures { result ≢ opening }
{
    match opening {
        u64::MAX => 0,
        opening => opening + 1,
    }
}

// The release of an outcome is the one that is prescribed for its input, by its organisation's texts. The call does nothing.
fn prescribed_release<T: Planner>(outcome: &Outcome<T>)
    ensures value { (limits : Limits) → outcome.now.release ≡ (setup_of T.means limits).release_of (texts_of T.means outcome.now.org) outcome.now.input }
    ensures form { is_release outcome.now.input.number outcome.now.input.release outcome.now.release ≡ true }
{
    let _texts = T::texts(outcome.org());
    let _release = outcome.release();
}
