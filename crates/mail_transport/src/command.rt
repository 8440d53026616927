// The whole program over any source, sink, plant and clock.
ghost use Rattle.std.specs.Prelude.{◌≡◌, ◌⊎◌, true, false, map, IsTrue};
ghost use Rattle.std.specs.Io.KnownBytes.{Appends};
ghost use Rattle.port_io.specs.Causes.{Rose};
ghost use Rattle.mail_transport.specs.Points.{Point, IsSettledAt};
ghost use Rattle.mail_transport.specs.Run.{Checked, IsLog, NotBegunOn, NotOpened, Ran, is_check, is_session, usage_text};

use crate::check::{is_check, run_check};
use crate::session::{is_session, run_session};
use crate::status::Status;
use plant_dev::Plant;
use port_io::{Clock, Sink, Source, write_all_to};
use std::alloc::Global;

const USAGE: &[u8] =
    b"usage: transport_cli session|turn [--workers N]|admin|check|make N [--workers W]\n";

/// Runs a command. The words are without the program's name.
///
/// `session` opens the hub, runs one SMTP session from source to sink, and then categorises all that was accepted and
/// makes one turn. `check` reads an organisation from the source and prints `ok` or its first fault; it touches no plant.
/// Other words are no command yet, and are answered with the usage line.
pub fn transport<S: Source, K: Sink, P: Plant, C: Clock>(
    alloc: Global,
    words: &[&str],
    source: &mut S,
    sink: &mut K,
    plant: &mut P,
    clock: &mut C,
) -> Status
    // A session over an honest plant that stands for a history does what the definitions say from there, whatever the disk does:
    // what was acknowledged is settled, and whatever a crash leaves at any moment of the call stands for a point of the run. Or the
    // log could not be opened, and all is as it was.
    ensures session { (start : Point) → is_session (map (λ word. word.now) words.now) ≡ true → IsTrue (P.state plant.old).honest → IsSettledAt start (P.state plant.old) →
        NotOpened start (P.state plant.old) (P.state plant.new) (C.moments clock.old) (C.moments clock.new) (K.taken sink.old) (K.taken sink.new) (S.left source.old) (S.left source.new) result
        ⊎ Ran start (P.state plant.old) (P.state plant.new) (C.moments clock.old) (C.moments clock.new) (K.taken sink.old) (K.taken sink.new) (S.left source.old) (S.left source.new) result }
    // Nor is a log told as none where the plant stands for a history.
    ensures log { (start : Point) → IsTrue (P.state plant.old).honest → IsSettledAt start (P.state plant.old) → result ≡ Status.NotALog → ⊥ }
    // A session is begun on no file but a log, whatever the plant stood for before; one that is none is told so.
    ensures file { is_session (map (λ word. word.now) words.now) ≡ true → IsTrue (P.state plant.old).honest →
        IsLog (P.state plant.old).image.file
        ⊎ NotBegunOn (P.state plant.old).image.file (C.moments clock.old) (C.moments clock.new) (K.taken sink.old) (K.taken sink.new) (S.left source.old) (S.left source.new) result }
    // A check says what its definition says.
    ensures check { is_check (map (λ word. word.now) words.now) ≡ true →
        Checked (S.left source.old) (S.left source.new) (K.taken sink.old) (K.taken sink.new) result }
    // Other words touch no plant and no clock, and words that are no command read nothing.
    ensures untouched { is_session (map (λ word. word.now) words.now) ≡ false → (plant.new ≡ plant.old) × (clock.new ≡ clock.old) }
    ensures unread { is_session (map (λ word. word.now) words.now) ≡ false → is_check (map (λ word. word.now) words.now) ≡ false → source.new ≡ source.old }
    ensures usage { result ≡ Status.Usage → (is_session (map (λ word. word.now) words.now) ≡ false) × (is_check (map (λ word. word.now) words.now) ≡ false) }
    ensures usage_text { result ≡ Status.Usage → Appends (K.taken sink.old) (K.taken sink.new) usage_text }
    ensures other { is_session (map (λ word. word.now) words.now) ≡ false → is_check (map (λ word. word.now) words.now) ≡ false → (result ≡ Status.Usage) ⊎ (result ≡ Status.SinkFault) }

    // A fault of an end is answered only where its count rose.
    ensures disk { result ≡ Status.DiskFault → Rose (P.state plant.old).disk_faults (P.state plant.new).disk_faults }
    ensures source { result ≡ Status.SourceFault → Rose (S.faults source.old) (S.faults source.new) }
    ensures sink { result ≡ Status.SinkFault → Rose (K.faults sink.old) (K.faults sink.new) }
{
    if is_session(words) {
        return run_session(alloc, source, sink, plant, clock);
    }
    if is_check(words) {
        return run_check(alloc, source, sink);
    }
    match write_all_to(sink, USAGE) {
        Ok(()) => Status::Usage,
        Err(_) => Status::SinkFault,
    }
}
