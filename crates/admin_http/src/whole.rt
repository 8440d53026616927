// One exchange over any office.
ghost use Rattle.std.specs.Prelude.{◌≡◌, ◌≤◌};
ghost use Rattle.port_io.specs.Causes.{Rose};
ghost use Rattle.admin_http.specs.Exchange.{Exchanged, Tells};

use crate::answer::answer;
use crate::exchange_end::ExchangeEnd;
use crate::reply::{reply, starve};
use crate::request::{Taken, take_request};
use http_answers::refusal_response;
use hub_calls::Office;
use port_io::{Clock, Sink, Source};
use std::alloc::Global;

/// Reads one request (RFC 9112), does what it asks of the office, and writes the response.
///
/// `Exchanged` says for each end what was taken of the input, which calls the office answered and how, at which moments, and
/// what was written. A request that a check refuses is answered at once, and nothing is called. A response for which memory
/// is wanted is replaced by the 507, which takes none; what was done stays done.
pub fn exchange<O: Office, S: Source, K: Sink, C: Clock>(
    alloc: Global,
    office: &mut O,
    source: &mut S,
    sink: &mut K,
    clock: &mut C,
) -> ExchangeEnd
    ensures exchanged { Exchanged (Tells O.gives O.disk_faults O.shelf_faults) office.old office.new (C.moments clock.old) (C.moments clock.new) (K.taken sink.old) (K.taken sink.new) (S.left source.old) (S.left source.new) result }

    // The count of an end rose where it ended the exchange, and none falls.
    ensures source_fault { result ≡ ExchangeEnd.SourceFault → Rose (S.faults source.old) (S.faults source.new) }
    ensures sink_fault { result ≡ ExchangeEnd.SinkFault → Rose (K.faults sink.old) (K.faults sink.new) }
    ensures sources { S.faults source.old ≤ S.faults source.new }
    ensures sinks { K.faults sink.old ≤ K.faults sink.new }
    ensures disks { O.disk_faults office.old ≤ O.disk_faults office.new }
    ensures shelves { O.shelf_faults office.old ≤ O.shelf_faults office.new }
{
    match take_request(alloc, source) {
        Taken::Whole { deed, body } => {
            let outcome = answer(alloc, office, clock, deed, body);
            reply(alloc, sink, outcome.response, outcome.stop)
        }
        Taken::Refused { refusal } => reply(alloc, sink, refusal_response(alloc, refusal), false),
        Taken::Starved => starve(sink),
        Taken::Cut => ExchangeEnd::Cut,
        Taken::SourceFault => ExchangeEnd::SourceFault,
        Taken::NoMemory => ExchangeEnd::NoMemory,
    }
}
