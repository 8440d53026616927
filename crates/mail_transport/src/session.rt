// The command `session` over any source, sink, plant and clock.
ghost use Rattle.std.specs.Prelude.{◌≡◌, ◌⊎◌, map, IsTrue};
ghost use Rattle.port_io.specs.Causes.{Rose};
ghost use Rattle.plant_dev.specs.Disk.{Stays};
ghost use Rattle.smtp_front.specs.Sessions.{Spoke};
ghost use Rattle.mail_transport.specs.Points.{Point, Trace, StandsAt, RunsAt, RunsOn, IsSettledAt};
ghost use Rattle.mail_transport.specs.Answers.{RunGives};
ghost use Rattle.mail_transport.specs.Run.{Ends, Finishes, IsLog, Leaves, NotBegunOn, NotOpened, Ran, is_session};

use crate::status::{Status, ended, fault_status};
use hub_core::Limits;
use hub_planner::HubPlanner;
use plant_dev::Plant;
use port_io::{Clock, Sink, Source};
use queue_store::{Hub, LocalOffice};
use smtp_front::{SessionEnd, session};
use std::alloc::Global;

// A session on a hub and a plant that are lent.
fn speak<P: Plant, S: Source, K: Sink, C: Clock>(
    alloc: Global,
    office: &mut LocalOffice<'_, P, HubPlanner>,
    source: &mut S,
    sink: &mut K,
    clock: &mut C,
) -> SessionEnd
    ensures same { (office.new.hub.ghost_name ≡ office.old.hub.ghost_name) × (office.new.plant.ghost_name ≡ office.old.plant.ghost_name) }
    ensures spoke { (t : Trace) → RunsAt (P.state office.old.plant.now) (P.state office.old.plant.now) office.old.hub.now t →
        (t' : Trace) × Spoke RunGives t t' (C.moments clock.old) (C.moments clock.new) (K.taken sink.old) (K.taken sink.new) (S.left source.old) (S.left source.new) result
        × RunsOn (P.state office.old.plant.now) (P.state office.new.plant.now) office.new.hub.now t t' }
    ensures stays { Stays (P.state office.old.plant.now) (P.state office.new.plant.now) }
    ensures source { result ≡ SessionEnd.SourceFault → Rose (S.faults source.old) (S.faults source.new) }
    ensures sink { result ≡ SessionEnd.SinkFault → Rose (K.faults sink.old) (K.faults sink.new) }
{
    session(alloc, office, source, sink, clock)
}

// A session on the hub.
fn converse<P: Plant, S: Source, K: Sink, C: Clock>(
    alloc: Global,
    hub: &mut Hub<HubPlanner>,
    plant: &mut P,
    source: &mut S,
    sink: &mut K,
    clock: &mut C,
) -> SessionEnd
    ensures spoke { (t : Trace) → RunsAt (P.state plant.old) (P.state plant.old) hub.old t →
        (t' : Trace) × Spoke RunGives t t' (C.moments clock.old) (C.moments clock.new) (K.taken sink.old) (K.taken sink.new) (S.left source.old) (S.left source.new) result
        × RunsOn (P.state plant.old) (P.state plant.new) hub.new t t' }
    ensures stays { Stays (P.state plant.old) (P.state plant.new) }
    ensures source { result ≡ SessionEnd.SourceFault → Rose (S.faults source.old) (S.faults source.new) }
    ensures sink { result ≡ SessionEnd.SinkFault → Rose (K.faults sink.old) (K.faults sink.new) }
{
    let mut office = LocalOffice { alloc, hub, plant };
    speak(alloc, &mut office, source, sink, clock)
}

// Categorises all, and makes a turn.
fn finish<P: Plant, C: Clock>(
    alloc: Global,
    hub: &mut Hub<HubPlanner>,
    plant: &mut P,
    clock: &mut C,
) -> Status
    ensures finishes { (p : Point) → StandsAt (P.state plant.old) hub.old p → (p' : Point)
        × Finishes p p' (C.moments clock.old) (C.moments clock.new) (P.state plant.old).shelf_faults (P.state plant.new).shelf_faults result
        × Leaves p p' (P.state plant.old) (P.state plant.new) result }
    ensures stays { Stays (P.state plant.old) (P.state plant.new) }
    ensures disk { result ≡ Status.DiskFault → Rose (P.state plant.old).disk_faults (P.state plant.new).disk_faults }
    ensures source { result ≡ Status.SourceFault → ⊥ }
    ensures sink { result ≡ Status.SinkFault → ⊥ }
    ensures usage { result ≡ Status.Usage → ⊥ }
{
    match hub.categorise_all(alloc, plant) {
        Ok(()) => {}
        Err(fault) => return fault_status(fault),
    }
    let turn = clock.now();
    match hub.turn(alloc, plant, turn) {
        Ok(()) => Status::Done,
        Err(fault) => fault_status(fault),
    }
}

// What follows a session that ended so.
fn follow<P: Plant, C: Clock>(
    alloc: Global,
    hub: &mut Hub<HubPlanner>,
    plant: &mut P,
    clock: &mut C,
    end: SessionEnd,
) -> Status
    ensures ends { (p : Point) → StandsAt (P.state plant.old) hub.old p → (p' : Point)
        × Ends end p p' (C.moments clock.old) (C.moments clock.new) (P.state plant.old).shelf_faults (P.state plant.new).shelf_faults result
        × Leaves p p' (P.state plant.old) (P.state plant.new) result }
    ensures stays { Stays (P.state plant.old) (P.state plant.new) }
    ensures disk { result ≡ Status.DiskFault → Rose (P.state plant.old).disk_faults (P.state plant.new).disk_faults }
    ensures source { result ≡ Status.SourceFault → end ≡ SessionEnd.SourceFault }
    ensures sink { result ≡ Status.SinkFault → end ≡ SessionEnd.SinkFault }
    ensures usage { result ≡ Status.Usage → ⊥ }
{
    match end {
        SessionEnd::Quit => finish(alloc, hub, plant, clock),
        SessionEnd::EndOfInput => finish(alloc, hub, plant, clock),
        end => ended(end),
    }
}

/// Opens the hub, runs a session, and then tries what waits.
pub fn run_session<P: Plant, S: Source, K: Sink, C: Clock>(
    alloc: Global,
    source: &mut S,
    sink: &mut K,
    plant: &mut P,
    clock: &mut C,
) -> Status
    ensures ran { (start : Point) → IsTrue (P.state plant.old).honest → IsSettledAt start (P.state plant.old) →
        NotOpened start (P.state plant.old) (P.state plant.new) (C.moments clock.old) (C.moments clock.new) (K.taken sink.old) (K.taken sink.new) (S.left source.old) (S.left source.new) result
        ⊎ Ran start (P.state plant.old) (P.state plant.new) (C.moments clock.old) (C.moments clock.new) (K.taken sink.old) (K.taken sink.new) (S.left source.old) (S.left source.new) result }
    ensures log { (start : Point) → IsTrue (P.state plant.old).honest → IsSettledAt start (P.state plant.old) → result ≡ Status.NotALog → ⊥ }
    ensures file { IsTrue (P.state plant.old).honest →
        IsLog (P.state plant.old).image.file
        ⊎ NotBegunOn (P.state plant.old).image.file (C.moments clock.old) (C.moments clock.new) (K.taken sink.old) (K.taken sink.new) (S.left source.old) (S.left source.new) result }
    ensures disk { result ≡ Status.DiskFault → Rose (P.state plant.old).disk_faults (P.state plant.new).disk_faults }
    ensures source { result ≡ Status.SourceFault → Rose (S.faults source.old) (S.faults source.new) }
    ensures sink { result ≡ Status.SinkFault → Rose (K.faults sink.old) (K.faults sink.new) }
    ensures usage { result ≡ Status.Usage → ⊥ }
{
    match Hub::<HubPlanner>::open_hub(alloc, plant, Limits::usual()) {
        Err(fault) => fault_status(fault),
        Ok(hub) => {
            let mut hub = hub;
            let end = converse(alloc, &mut hub, plant, source, sink, clock);
            follow(alloc, &mut hub, plant, clock, end)
        }
    }
}

/// Whether the words are the command `session`.
pub fn is_session(words: &[&str]) -> bool
    ensures { result ≡ is_session (map (λ word. word.now) words.now) }
{
    match words {
        [word] => *word == "session",
        _ => false,
    }
}
