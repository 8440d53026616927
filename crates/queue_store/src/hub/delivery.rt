// Categorising what was accepted, and turns in which what waits is tried.
ghost use Rattle.std.specs.Prelude.{◌≡◌, ◌≤◌, ◌||◌, nat_lt, length, List, [], ◌∷◌, false, Bool, IsTrue, IfOk, IfErr, OnOk, IsErrOf, Ok, true};
ghost use Rattle.port_io.specs.Causes.{Rose, RoseBy};
ghost use Rattle.log_entry.specs.declared.entry.Entry.{Entry};
ghost use Rattle.plant_dev.specs.Disk.{Stays, LeavesOnly};
ghost use Rattle.hub_core.specs.Items.{items, Among};
ghost use Rattle.hub_core.specs.declared.limits.Limits.{Limits};
ghost use Rattle.hub_core.specs.Setup.{Setup, setup_of};
ghost use Rattle.hub_core.specs.Standing.{Standing, any_pends};
ghost use Rattle.std.specs.List.{AllByRecursion};
ghost use Rattle.log_entry.specs.declared.entry.Entry.TheVariants as entries;
ghost use Rattle.queue_store.specs.Stands.{Stands};
ghost use Rattle.queue_store.specs.Ready.{Kept, IsReady, HubStands, Adds, Fails, FailsLater, Turns, TurnStops, EachHas};
ghost use Rattle.queue_store.specs.Turning.{LeadsOn, LeadsTurn};

use super::Hub;
use crate::HubFault;
use hub_core::{QueuedItem, TaskName};
use log_entry::Entry;
use mail_names::{ItemName, NoMemory};
use mail_plan::{Planner, plan};
use plant_dev::{Plant, ShelfFault};
use std::alloc::Global;

impl<T: Planner> Hub<T> {
    ghost use Rattle.queue_store.specs.Calls.{count_tried, entries_at, entries_all, entries_categorise, entries_try, entries_tries, entries_trying, entries_turn, misses, names_waiting, EachTried, IsDelivery};

    // Categorises a release, where it waits.
    fn categorise<P: Plant>(
        &mut self,
        alloc: Global,
        plant: &mut P,
        name: &TaskName,
    ) -> Result<(), HubFault>
        ensures adds { (limits : Limits) (h t : List Entry) → IsReady (setup_of T.means limits) (P.state plant.old) self.old h t →
            OnOk result (Adds (setup_of T.means limits) (P.state plant.old) (P.state plant.new) self.new h t (entries_at (setup_of T.means limits) self.old.state name.now)) }
        ensures fails { (limits : Limits) (h t : List Entry) → IsReady (setup_of T.means limits) (P.state plant.old) self.old h t →
            IfErr result (Fails (setup_of T.means limits) (P.state plant.old) (P.state plant.new) self.new h t (entries_at (setup_of T.means limits) self.old.state name.now)) }
        ensures opening { self.new.opening ≡ self.old.opening }
        ensures stays { Stays (P.state plant.old) (P.state plant.new) }
        ensures cause { IsErrOf result HubFault.DiskFault → Rose (P.state plant.old).disk_faults (P.state plant.new).disk_faults }
    {
        match self.state.task_of(alloc, name) {
            Err(NoMemory) => Err(HubFault::NoMemory),
            Ok(None) => Ok(()),
            Ok(Some(task)) => match plan(alloc, task) {
                Err(NoMemory) => Err(HubFault::NoMemory),
                Ok(outcome) => self.add_release(alloc, plant, outcome),
            },
        }
    }

    // Tries to put an item that waits. The answer is false where the shelf failed.
    fn try_item<P: Plant>(
        &mut self,
        alloc: Global,
        plant: &mut P,
        name: ItemName,
    ) -> Result<bool, HubFault>
        // An item is put only where nothing but deliveries is pending, so that its release is settled.
        ensures adds { (setup : Setup) (h t : List Entry) → AllByRecursion IsDelivery t → IsReady setup (P.state plant.old) self.old h t →
            IfOk result (λ put. Adds setup (P.state plant.old) (P.state plant.new) self.new h t (entries_try self.old.state name put)) }
        ensures fails { (setup : Setup) (h t : List Entry) → AllByRecursion IsDelivery t → IsReady setup (P.state plant.old) self.old h t →
            IfErr result (Fails setup (P.state plant.old) (P.state plant.new) self.new h t (entries_try self.old.state name true)) }
        ensures missed { result ≡ Ok false → Rose (P.state plant.old).shelf_faults (P.state plant.new).shelf_faults }
        ensures opening { self.new.opening ≡ self.old.opening }
        ensures stays { Stays (P.state plant.old) (P.state plant.new) }
        ensures cause { IsErrOf result HubFault.DiskFault → Rose (P.state plant.old).disk_faults (P.state plant.new).disk_faults }
    {
        match self.state.item(&name) {
            None => Ok(true),
            Some(item) => match shelve(alloc, plant, &item.item) {
                Err(fault) => Err(fault),
                Ok(false) => Ok(false),
                Ok(true) => match self.append(alloc, plant, Entry::Delivered { name }) {
                    Ok(()) => Ok(true),
                    Err(fault) => Err(fault),
                },
            },
        }
    }

    // Categorises each of these releases that waits, in order.
    fn categorise_each<P: Plant>(
        &mut self,
        alloc: Global,
        plant: &mut P,
        names: &[TaskName],
    ) -> Result<(), HubFault>
        ensures adds { (limits : Limits) (h t : List Entry) → IsReady (setup_of T.means limits) (P.state plant.old) self.old h t →
            OnOk result (Adds (setup_of T.means limits) (P.state plant.old) (P.state plant.new) self.new h t (entries_all (setup_of T.means limits) self.old.state names.now)) }
        ensures stops { (limits : Limits) (h t : List Entry) → IsReady (setup_of T.means limits) (P.state plant.old) self.old h t →
            IfErr result (FailsLater (setup_of T.means limits) (P.state plant.old) (P.state plant.new) self.new h t (entries_all (setup_of T.means limits) self.old.state names.now)) }
        ensures opening { self.new.opening ≡ self.old.opening }
        ensures stays { Stays (P.state plant.old) (P.state plant.new) }
        ensures cause { IsErrOf result HubFault.DiskFault → Rose (P.state plant.old).disk_faults (P.state plant.new).disk_faults }
    {
        for name in names {
            match self.categorise(alloc, plant, name) {
                Ok(()) => {}
                Err(fault) => return Err(fault),
            }
        }
        Ok(())
    }

    // Categorises each release that waits, in order.
    fn categorise_waiting<P: Plant>(&mut self, alloc: Global, plant: &mut P) -> Result<(), HubFault>
        ensures adds { (limits : Limits) (h t : List Entry) → IsReady (setup_of T.means limits) (P.state plant.old) self.old h t →
            OnOk result (Adds (setup_of T.means limits) (P.state plant.old) (P.state plant.new) self.new h t (entries_categorise (setup_of T.means limits) self.old.state)) }
        ensures stops { (limits : Limits) (h t : List Entry) → IsReady (setup_of T.means limits) (P.state plant.old) self.old h t →
            IfErr result (FailsLater (setup_of T.means limits) (P.state plant.old) (P.state plant.new) self.new h t (entries_categorise (setup_of T.means limits) self.old.state)) }
        ensures opening { self.new.opening ≡ self.old.opening }
        ensures stays { Stays (P.state plant.old) (P.state plant.new) }
        ensures cause { IsErrOf result HubFault.DiskFault → Rose (P.state plant.old).disk_faults (P.state plant.new).disk_faults }
    {
        let names = match self.state.uncategorised(alloc) {
            Ok(names) => names,
            Err(NoMemory) => return Err(HubFault::NoMemory),
        };
        self.categorise_each(alloc, plant, &names)
    }

    // Categorises each release that waits, where the log is open. Where it stops among them, those before are settled.
    fn categorise_open<P: Plant>(&mut self, alloc: Global, plant: &mut P) -> Result<(), HubFault>
        ensures adds { (limits : Limits) (h t : List Entry) → IsReady (setup_of T.means limits) (P.state plant.old) self.old h t →
            OnOk result (Adds (setup_of T.means limits) (P.state plant.old) (P.state plant.new) self.new h t (entries_categorise (setup_of T.means limits) self.old.state)) }
        ensures stops { (limits : Limits) (h t : List Entry) → IsReady (setup_of T.means limits) (P.state plant.old) self.old h t →
            IfErr result (TurnStops (setup_of T.means limits) (P.state plant.old) (P.state plant.new) self.new h t (entries_categorise (setup_of T.means limits) self.old.state)) }
        ensures opening { self.new.opening ≡ self.old.opening }
        ensures stays { Stays (P.state plant.old) (P.state plant.new) }
        ensures cause { IsErrOf result HubFault.DiskFault → Rose (P.state plant.old).disk_faults (P.state plant.new).disk_faults }
    {
        match self.categorise_waiting(alloc, plant) {
            Ok(()) => Ok(()),
            Err(fault) => Err(self.settle_rest(plant, fault)),
        }
    }

    /// Categorises each release that waits, by submission and release. The releases are pending; where the log's room or memory
    /// ends among them, those before are settled.
    pub fn categorise_all<P: Plant>(&mut self, alloc: Global, plant: &mut P) -> Result<(), HubFault>
        ensures adds { (mid : Standing) × (self.old.broken ≡ false → mid ≡ self.old.state)
            × ((limits : Limits) (h t : List Entry) → HubStands (setup_of T.means limits) (P.state plant.old) self.old h t →
            LeadsOn (setup_of T.means limits) self.old.broken (P.state plant.old) (P.state plant.new) self.new h t mid (entries_categorise (setup_of T.means limits) mid) result) }
        ensures opening { self.old.broken ≡ false → self.new.opening ≡ self.old.opening }
        ensures stays { Stays (P.state plant.old) (P.state plant.new) }
        ensures cause { IsErrOf result HubFault.DiskFault → Rose (P.state plant.old).disk_faults (P.state plant.new).disk_faults }
    {
        match self.mend(alloc, plant) {
            Err(fault) => Err(fault),
            Ok(()) => self.categorise_open(alloc, plant),
        }
    }

    // Tries each of these items once, in order.
    fn try_all<P: Plant>(
        &mut self,
        alloc: Global,
        plant: &mut P,
        names: &[ItemName],
    ) -> Result<(), HubFault>
        ensures adds { (setup : Setup) (h t : List Entry) → AllByRecursion IsDelivery t → IsReady setup (P.state plant.old) self.old h t → OnOk result ((puts : List Bool)
            × Adds setup (P.state plant.old) (P.state plant.new) self.new h t (entries_tries setup self.old.state names.now puts)
            × EachTried (length names.now) puts (P.state plant.old).shelf_faults (P.state plant.new).shelf_faults) }
        ensures stops { (setup : Setup) (h t : List Entry) → AllByRecursion IsDelivery t → IsReady setup (P.state plant.old) self.old h t →
            IfErr result (λ e. (puts : List Bool)
            × FailsLater setup (P.state plant.old) (P.state plant.new) self.new h t (entries_tries setup self.old.state names.now puts) e
            × RoseBy (misses puts) (P.state plant.old).shelf_faults (P.state plant.new).shelf_faults) }
        ensures opening { self.new.opening ≡ self.old.opening }
        ensures stays { Stays (P.state plant.old) (P.state plant.new) }
        ensures cause { IsErrOf result HubFault.DiskFault → Rose (P.state plant.old).disk_faults (P.state plant.new).disk_faults }
    {
        for name in names {
            match self.try_item(alloc, plant, *name) {
                Ok(_) => {}
                Err(fault) => return Err(fault),
            }
        }
        Ok(())
    }

    // Tries each item that waits once, in order.
    fn try_waiting<P: Plant>(&mut self, alloc: Global, plant: &mut P) -> Result<(), HubFault>
        ensures adds { (setup : Setup) (h t : List Entry) → AllByRecursion IsDelivery t → IsReady setup (P.state plant.old) self.old h t → OnOk result ((puts : List Bool)
            × Adds setup (P.state plant.old) (P.state plant.new) self.new h t (entries_trying setup self.old.state puts)
            × EachTried (length (names_waiting self.old.state)) puts (P.state plant.old).shelf_faults (P.state plant.new).shelf_faults) }
        ensures stops { (setup : Setup) (h t : List Entry) → AllByRecursion IsDelivery t → IsReady setup (P.state plant.old) self.old h t →
            IfErr result (λ e. (puts : List Bool)
            × FailsLater setup (P.state plant.old) (P.state plant.new) self.new h t (entries_trying setup self.old.state puts) e
            × RoseBy (misses puts) (P.state plant.old).shelf_faults (P.state plant.new).shelf_faults) }
        ensures opening { self.new.opening ≡ self.old.opening }
        ensures stays { Stays (P.state plant.old) (P.state plant.new) }
        ensures cause { IsErrOf result HubFault.DiskFault → Rose (P.state plant.old).disk_faults (P.state plant.new).disk_faults }
    {
        let names = match self.state.waiting_names(alloc) {
            Ok(names) => names,
            Err(NoMemory) => return Err(HubFault::NoMemory),
        };
        self.try_all(alloc, plant, &names)
    }

    // Tries each item that waits once, and settles what is told of them.
    fn try_settled<P: Plant>(&mut self, alloc: Global, plant: &mut P) -> Result<(), HubFault>
        ensures turns { (setup : Setup) (h : List Entry) → IsReady setup (P.state plant.old) self.old h [] → OnOk result ((puts : List Bool)
            × Turns setup (P.state plant.old) (P.state plant.new) self.new h [] (entries_trying setup self.old.state puts)
            × EachTried (length (names_waiting self.old.state)) puts (P.state plant.old).shelf_faults (P.state plant.new).shelf_faults) }
        ensures stops { (setup : Setup) (h : List Entry) → IsReady setup (P.state plant.old) self.old h [] →
            IfErr result (λ e. (puts : List Bool)
            × TurnStops setup (P.state plant.old) (P.state plant.new) self.new h [] (entries_trying setup self.old.state puts) e
            × RoseBy (misses puts) (P.state plant.old).shelf_faults (P.state plant.new).shelf_faults) }
        ensures opening { self.new.opening ≡ self.old.opening }
        ensures stays { Stays (P.state plant.old) (P.state plant.new) }
        ensures cause { IsErrOf result HubFault.DiskFault → Rose (P.state plant.old).disk_faults (P.state plant.new).disk_faults }
    {
        match self.try_waiting(alloc, plant) {
            Ok(()) => self.settle_open(plant),
            Err(fault) => Err(self.settle_rest(plant, fault)),
        }
    }

    // Adds a turn's moment, and settles it with all that is pending.
    fn begin_turn<P: Plant>(
        &mut self,
        alloc: Global,
        plant: &mut P,
        moment: u64,
    ) -> Result<(), HubFault>
        requires later { self.old.state.moment ≤ moment }
        requires last { moment ≤ 253402300799 }
        ensures turns { (limits : Limits) (h t : List Entry) → IsReady (setup_of T.means limits) (P.state plant.old) self.old h t →
            OnOk result (Turns (setup_of T.means limits) (P.state plant.old) (P.state plant.new) self.new h t (entries.Moment moment ∷ [])) }
        ensures stops { (limits : Limits) (h t : List Entry) → IsReady (setup_of T.means limits) (P.state plant.old) self.old h t →
            IfErr result (TurnStops (setup_of T.means limits) (P.state plant.old) (P.state plant.new) self.new h t (entries.Moment moment ∷ [])) }
        ensures opening { self.new.opening ≡ self.old.opening }
        ensures stays { Stays (P.state plant.old) (P.state plant.new) }
        ensures cause { IsErrOf result HubFault.DiskFault → Rose (P.state plant.old).disk_faults (P.state plant.new).disk_faults }
    {
        match self.append(alloc, plant, Entry::Moment { moment }) {
            Ok(()) => self.settle_open(plant),
            Err(fault) => Err(self.settle_rest(plant, fault)),
        }
    }

    // A turn where an item waits or an approval pends, and the log is open.
    fn turn_over<P: Plant>(
        &mut self,
        alloc: Global,
        plant: &mut P,
        clock: u64,
    ) -> Result<(), HubFault>
        requires { (nat_lt 0 (length self.old.state.waiting) || any_pends self.old.state) ≡ true }
        ensures turns { (limits : Limits) (h t : List Entry) → IsReady (setup_of T.means limits) (P.state plant.old) self.old h t → OnOk result ((puts : List Bool)
            × Turns (setup_of T.means limits) (P.state plant.old) (P.state plant.new) self.new h t (entries_turn (setup_of T.means limits) self.old.state clock puts)
            × EachTried (count_tried (setup_of T.means limits) self.old.state clock) puts (P.state plant.old).shelf_faults (P.state plant.new).shelf_faults) }
        ensures stops { (limits : Limits) (h t : List Entry) → IsReady (setup_of T.means limits) (P.state plant.old) self.old h t →
            IfErr result (λ e. (puts : List Bool)
            × TurnStops (setup_of T.means limits) (P.state plant.old) (P.state plant.new) self.new h t (entries_turn (setup_of T.means limits) self.old.state clock puts) e
            × RoseBy (misses puts) (P.state plant.old).shelf_faults (P.state plant.new).shelf_faults) }
        ensures opening { self.new.opening ≡ self.old.opening }
        ensures stays { Stays (P.state plant.old) (P.state plant.new) }
        ensures cause { IsErrOf result HubFault.DiskFault → Rose (P.state plant.old).disk_faults (P.state plant.new).disk_faults }
    {
        let moment = self.state.now(clock);
        match self.begin_turn(alloc, plant, moment) {
            Ok(()) => self.try_settled(alloc, plant),
            Err(fault) => Err(fault),
        }
    }

    // A turn where the log is open.
    fn turn_open<P: Plant>(
        &mut self,
        alloc: Global,
        plant: &mut P,
        clock: u64,
    ) -> Result<(), HubFault>
        ensures turns { (limits : Limits) (h t : List Entry) → IsReady (setup_of T.means limits) (P.state plant.old) self.old h t → OnOk result ((puts : List Bool)
            × Turns (setup_of T.means limits) (P.state plant.old) (P.state plant.new) self.new h t (entries_turn (setup_of T.means limits) self.old.state clock puts)
            × EachTried (count_tried (setup_of T.means limits) self.old.state clock) puts (P.state plant.old).shelf_faults (P.state plant.new).shelf_faults) }
        ensures stops { (limits : Limits) (h t : List Entry) → IsReady (setup_of T.means limits) (P.state plant.old) self.old h t →
            IfErr result (λ e. (puts : List Bool)
            × TurnStops (setup_of T.means limits) (P.state plant.old) (P.state plant.new) self.new h t (entries_turn (setup_of T.means limits) self.old.state clock puts) e
            × RoseBy (misses puts) (P.state plant.old).shelf_faults (P.state plant.new).shelf_faults) }
        ensures opening { self.new.opening ≡ self.old.opening }
        ensures stays { Stays (P.state plant.old) (P.state plant.new) }
        ensures cause { IsErrOf result HubFault.DiskFault → Rose (P.state plant.old).disk_faults (P.state plant.new).disk_faults }
    {
        if !self.state.is_waiting() && !self.state.pends() {
            return self.settle_open(plant);
        }
        self.turn_over(alloc, plant, clock)
    }

    /// A turn at this clock (seconds since 1970-01-01T00:00:00Z): the approvals whose deadline has come run out, and then each
    /// item that waits is tried once, in order. Where no item waits and no approval pends nothing is added. Behind it all is
    /// settled, also where the log's room or memory ends within it: two syncs for the moment with all that was pending before,
    /// and two for all deliveries.
    pub fn turn<P: Plant>(
        &mut self,
        alloc: Global,
        plant: &mut P,
        clock: u64,
    ) -> Result<(), HubFault>
        ensures turns { (mid : Standing) × (self.old.broken ≡ false → mid ≡ self.old.state)
            × ((limits : Limits) (h t : List Entry) → HubStands (setup_of T.means limits) (P.state plant.old) self.old h t →
            LeadsTurn (setup_of T.means limits) self.old.broken (P.state plant.old) (P.state plant.new) self.new h t mid clock result) }
        ensures opening { self.old.broken ≡ false → self.new.opening ≡ self.old.opening }
        ensures stays { Stays (P.state plant.old) (P.state plant.new) }
        ensures cause { IsErrOf result HubFault.DiskFault → Rose (P.state plant.old).disk_faults (P.state plant.new).disk_faults }
    {
        match self.mend(alloc, plant) {
            Err(fault) => Err(fault),
            Ok(()) => self.turn_open(alloc, plant, clock),
        }
    }
}

// Puts an item into its folder. The answer is false where the shelf failed.
fn shelve<P: Plant>(alloc: Global, plant: &mut P, item: &QueuedItem) -> Result<bool, HubFault>
    ensures ready { (setup : Setup) (h t : List Entry) (hub : Kept) → IsReady setup (P.state plant.old) hub h t → Among item.now (items setup h) →
        IsReady setup (P.state plant.new) hub h t × LeavesOnly (P.state plant.old) (P.state plant.new) (λ c. Stands setup c h) }
    ensures there { IsTrue (P.state plant.old).honest → result ≡ Ok true → EachHas item.now.folder item.now.name (P.state plant.new) }
    ensures missed { result ≡ Ok false → Rose (P.state plant.old).shelf_faults (P.state plant.new).shelf_faults }
    ensures only { IfErr result (λ e. e ≡ HubFault.NoMemory) }
    ensures stays { Stays (P.state plant.old) (P.state plant.new) }
{
    match plant.put(alloc, &item.folder, &item.name, item.text.as_slice()) {
        Ok(()) => Ok(true),
        Err(ShelfFault::Failed) => Ok(false),
        Err(ShelfFault::NoMemory) => Err(HubFault::NoMemory),
    }
}
