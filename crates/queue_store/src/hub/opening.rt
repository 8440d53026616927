// Opening: the state that the entries of a log leave.
ghost use Rattle.std.specs.Prelude.{◌≡◌, ◌⊎◌, [], List, length, true, false, IsTrue, IfOk, IfErr, OnOk, IsErrOf};
ghost use Rattle.port_io.specs.Causes.{Rose};
ghost use Rattle.log_entry.specs.declared.entry.Entry.{Entry};
ghost use Rattle.plant_dev.specs.Disk.{Stays, Reads, LeavesOnly};
ghost use Rattle.queue_disk.specs.Log.{FileOf, log_of};
ghost use Rattle.queue_disk.specs.Reading.{IsHeld, IsRead, Begins};
ghost use Rattle.hub_core.specs.declared.limits.Limits.{Limits};
ghost use Rattle.hub_core.specs.Setup.{setup_of};
ghost use Rattle.hub_core.specs.Standing.{standing, state_after, is_lawful};
ghost use Rattle.hub_core.specs.Items.{IsHistory};
ghost use Rattle.queue_store.specs.Opening.{IsLogOf, OpenFault};

use super::Hub;
use crate::HubFault;
use hub_core::{Limits, State, StepFault};
use log_entry::Entry;
use mail_plan::Planner;
use plant_dev::Plant;
use queue_disk::{Log, open_log};
use std::alloc::Global;

impl<T: Planner> Hub<T> {
    ghost use Rattle.queue_store.specs.Stands.{Stands, MayStand, Settled, IsOneOf};
    ghost use Rattle.queue_store.specs.Ready.{IsReady};

    /// Opens the hub under these limits: its state is that of the log's entries. A file of at most nine octets becomes a new log.
    ///
    /// `NotALog` names the first octet at which the file is no log, or the gate of the first entry that can't stand
    /// behind those before it. What lies behind the first closed gate is ignored.
    pub fn open_hub<P: Plant>(
        alloc: Global,
        plant: &mut P,
        limits: Limits,
    ) -> Result<Hub<T>, HubFault>
        // The hub is that of what the plant reads as, with nothing open. Each image of a moment in the call stands for what it
        // stood for.
        ensures ready { (h t : List Entry) → IsTrue (P.state plant.old).honest → Settled (setup_of T.means limits) (P.state plant.old) h t →
            IfOk result (λ hub. (found : List Entry) × IsOneOf h t found × Stands (setup_of T.means limits) (P.state plant.old).image found
            × IsReady (setup_of T.means limits) (P.state plant.new) hub found []) }
        ensures any_moment { (h t : List Entry) → IsTrue (P.state plant.old).honest → Settled (setup_of T.means limits) (P.state plant.old) h t →
            LeavesOnly (P.state plant.old) (P.state plant.new) (MayStand (setup_of T.means limits) h t) }
        ensures never { (h : List Entry) → IsTrue (P.state plant.old).honest → IsHistory (setup_of T.means limits) h → FileOf (P.state plant.old).image.file h →
            IfErr result (λ e. (e ≡ HubFault.DiskFault) ⊎ (e ≡ HubFault.NoMemory)) }
        ensures settled { (h t : List Entry) → IsTrue (P.state plant.old).honest → Settled (setup_of T.means limits) (P.state plant.old) h t →
            IfErr result (λ e. ((e ≡ HubFault.DiskFault) ⊎ (e ≡ HubFault.NoMemory)) × Settled (setup_of T.means limits) (P.state plant.new) h t) }
        ensures bad { IsTrue (P.state plant.old).honest → IfErr result (λ e. OpenFault (setup_of T.means limits) (P.state plant.old).image.file e) }
        // Of any file that is opened: it is the log of the entries that left the hub's state.
        ensures found { IsTrue (P.state plant.old).honest → IfOk result (λ hub. IsLogOf (setup_of T.means limits) (P.state plant.old).image.file hub.state) }
        ensures open { IfOk result (λ hub. hub.broken ≡ false) }
        ensures shelf { IsTrue (P.state plant.old).honest → (P.state plant.new).image.shelf ≡ (P.state plant.old).image.shelf }
        ensures stays { Stays (P.state plant.old) (P.state plant.new) }
        ensures cause { IsErrOf result HubFault.DiskFault → Rose (P.state plant.old).disk_faults (P.state plant.new).disk_faults }
    {
        Hub::open_as(alloc, plant, limits, 0)
    }

    // Opens it under this number of the opening.
    pub(super) fn open_as<P: Plant>(
        alloc: Global,
        plant: &mut P,
        limits: Limits,
        opening: u64,
    ) -> Result<Hub<T>, HubFault>
        ensures ready { (h t : List Entry) → IsTrue (P.state plant.old).honest → Settled (setup_of T.means limits) (P.state plant.old) h t →
            IfOk result (λ hub. (found : List Entry) × IsOneOf h t found × Stands (setup_of T.means limits) (P.state plant.old).image found
            × IsReady (setup_of T.means limits) (P.state plant.new) hub found []) }
        ensures any_moment { (h t : List Entry) → IsTrue (P.state plant.old).honest → Settled (setup_of T.means limits) (P.state plant.old) h t →
            LeavesOnly (P.state plant.old) (P.state plant.new) (MayStand (setup_of T.means limits) h t) }
        ensures never { (h : List Entry) → IsTrue (P.state plant.old).honest → IsHistory (setup_of T.means limits) h → FileOf (P.state plant.old).image.file h →
            IfErr result (λ e. (e ≡ HubFault.DiskFault) ⊎ (e ≡ HubFault.NoMemory)) }
        ensures settled { (h t : List Entry) → IsTrue (P.state plant.old).honest → Settled (setup_of T.means limits) (P.state plant.old) h t →
            IfErr result (λ e. ((e ≡ HubFault.DiskFault) ⊎ (e ≡ HubFault.NoMemory)) × Settled (setup_of T.means limits) (P.state plant.new) h t) }
        ensures bad { IsTrue (P.state plant.old).honest → IfErr result (λ e. OpenFault (setup_of T.means limits) (P.state plant.old).image.file e) }
        ensures found { IsTrue (P.state plant.old).honest → IfOk result (λ hub. IsLogOf (setup_of T.means limits) (P.state plant.old).image.file hub.state) }
        ensures open { IfOk result (λ hub. hub.broken ≡ false) }
        ensures shelf { IsTrue (P.state plant.old).honest → (P.state plant.new).image.shelf ≡ (P.state plant.old).image.shelf }
        ensures stays { Stays (P.state plant.old) (P.state plant.new) }
        ensures cause { IsErrOf result HubFault.DiskFault → Rose (P.state plant.old).disk_faults (P.state plant.new).disk_faults }
        ensures opening { IfOk result (λ hub. hub.opening ≡ opening) }
    {
        let mut log = open_log(plant, limits.log)?;
        let state = replay(alloc, plant, limits, &mut log)?;
        Ok(Hub {
            state,
            log,
            broken: false,
            opening,
        })
    }
}

// Goes on by an entry that was read behind the gate at this place.
fn go_on<T: Planner>(
    alloc: Global,
    state: &mut State<T>,
    entry: Entry,
    gate: u64,
) -> Result<(), HubFault>
    ensures goes { OnOk result (state.new ≡ state_after (setup_of T.means state.old.limits) state.old entry) }
    ensures lawful_alone { (limits : Limits) → OnOk result (is_lawful (setup_of T.means limits) state.old entry ≡ true) }
    ensures lawful { (limits : Limits) → is_lawful (setup_of T.means limits) state.old entry ≡ true → IfErr result (λ e. e ≡ HubFault.NoMemory) }
    ensures only { IfErr result (λ e. (e ≡ HubFault.NoMemory) ⊎ (e ≡ HubFault.NotALog gate)) }
{
    match state.apply(alloc, entry) {
        Ok(()) => Ok(()),
        Err(StepFault::NoMemory) => Err(HubFault::NoMemory),
        Err(StepFault::NotLawful) => Err(HubFault::NotALog { at: gate }),
    }
}

// Reads the log to its closed gate, and gives the state of its entries.
fn replay<P: Plant, T: Planner>(
    alloc: Global,
    plant: &mut P,
    limits: Limits,
    log: &mut Log,
) -> Result<State<T>, HubFault>
    ensures stays { Stays (P.state plant.old) (P.state plant.new) }
    ensures cause { IsErrOf result HubFault.DiskFault → Rose (P.state plant.old).disk_faults (P.state plant.new).disk_faults }
    ensures reads { IsTrue (P.state plant.old).honest → Reads (P.state plant.old) (P.state plant.new) }
    ensures most { log.new.most ≡ log.old.most }
    ensures pending { log.new.pending ≡ log.old.pending }
    ensures state { (h : List Entry) → IsTrue (P.state plant.old).honest → IsRead (P.state plant.old).image.file h [] log.old →
        IfOk result (λ state. state ≡ standing (setup_of T.means limits) h) }
    ensures end { (h : List Entry) → IsTrue (P.state plant.old).honest → IsRead (P.state plant.old).image.file h [] log.old →
        OnOk result (log.new.place ≡ length (log_of h)) }
    ensures never { (h : List Entry) → IsTrue (P.state plant.old).honest → IsHistory (setup_of T.means limits) h → IsRead (P.state plant.old).image.file h [] log.old →
        IfErr result (λ e. (e ≡ HubFault.DiskFault) ⊎ (e ≡ HubFault.NoMemory)) }
    ensures bad { IsTrue (P.state plant.old).honest → IsHeld (P.state plant.old).image.file log.old → Begins (P.state plant.old).image.file [] log.old.place →
        IfErr result (λ e. OpenFault (setup_of T.means limits) (P.state plant.old).image.file e) }
    ensures whole { IsTrue (P.state plant.old).honest → IsHeld (P.state plant.old).image.file log.old → Begins (P.state plant.old).image.file [] log.old.place →
        IfOk result (λ state. IsLogOf (setup_of T.means limits) (P.state plant.old).image.file state) }
{
    let mut state = State::start(alloc, limits)?;
    while let Some(entry) = log.next(alloc, plant)? {
        go_on(alloc, &mut state, entry, log.gate())?;
    }
    Ok(state)
}
