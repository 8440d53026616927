// Doing a deed.
ghost use Rattle.std.specs.Prelude.{◌≡◌, ◌≤◌, false, Option, Some, None};
ghost use Rattle.admin_http.specs.Exchange.{Tells};
ghost use Rattle.admin_http.specs.Replies.{Done, Decided};

use http_answers::{
    Response, already_answer, approvals_answer, decide_answer, ended_answer, epoch_answer,
    item_answer, items_answer, queue_answer, stop_response, turn_answer,
};
use http_head::Deed;
use hub_calls::Office;
use mail_names::{ApprovalName, Bytes, Key, NoMemory};
use moderation::{Decision, Verdict};
use port_io::Clock;
use std::alloc::Global;

/// A response, if memory was found for it, and whether the server is to stop.
#[derive(Drop)]
pub struct Outcome {
    pub response: Result<Response, NoMemory>,
    pub stop: bool,
}

fn goes_on(response: Result<Response, NoMemory>) -> Outcome
    ensures response { result.response ≡ response }
    ensures stop { result.stop ≡ false }
{
    Outcome {
        response,
        stop: false,
    }
}

// Decides an approval, and asks who decided it before where somebody did.
fn decide<O: Office>(
    alloc: Global,
    office: &mut O,
    moment: u64,
    approval: &ApprovalName,
    verdict: Verdict,
    by: &Key,
) -> Result<Response, NoMemory>
    ensures decided { Decided (Tells O.gives O.disk_faults O.shelf_faults) office.old office.new approval.now verdict by.now moment result }
    ensures disks { O.disk_faults office.old ≤ O.disk_faults office.new }
    ensures shelves { O.shelf_faults office.old ≤ O.shelf_faults office.new }
{
    match office.decide(approval, by, verdict, moment) {
        Ok(
            Decision::Already {
                by: place,
                verdict: kept,
            },
        ) => already_answer(alloc, kept, office.moderator(approval, place)),
        Ok(Decision::Taken) => decide_answer(alloc, Ok(Decision::Taken)),
        Ok(Decision::NotModerator) => decide_answer(alloc, Ok(Decision::NotModerator)),
        Ok(Decision::Expired { deadline }) => {
            decide_answer(alloc, Ok(Decision::Expired { deadline }))
        }
        Err(fault) => decide_answer(alloc, Err(fault)),
    }
}

/// Does what a request asks, at the clock's next moment where it decides or turns.
pub fn answer<O: Office, C: Clock>(
    alloc: Global,
    office: &mut O,
    clock: &mut C,
    deed: Deed,
    body: Bytes,
) -> Outcome
    ensures done { Done (Tells O.gives O.disk_faults O.shelf_faults) office.old office.new (C.moments clock.old) (C.moments clock.new) deed body result.response result.stop }
    ensures disks { O.disk_faults office.old ≤ O.disk_faults office.new }
    ensures shelves { O.shelf_faults office.old ≤ O.shelf_faults office.new }
{
    match deed {
        Deed::Queue => goes_on(queue_answer(alloc, office.queue())),
        Deed::Approvals => goes_on(approvals_answer(alloc, office.approvals())),
        Deed::Ended => goes_on(ended_answer(alloc, office.ended())),
        Deed::Folder { folder } => goes_on(items_answer(alloc, office.list(&folder))),
        Deed::Item { folder, name } => goes_on(item_answer(alloc, office.fetch(&folder, &name))),
        Deed::Directory => goes_on(epoch_answer(alloc, office.organise(Some(body), None))),
        Deed::Rules => goes_on(epoch_answer(alloc, office.organise(None, Some(body)))),
        Deed::Decide {
            approval,
            verdict,
            by,
        } => {
            let moment = clock.now();
            goes_on(decide(alloc, office, moment, &approval, verdict, &by))
        }
        Deed::Turn => {
            let moment = clock.now();
            goes_on(turn_answer(alloc, office.turn(moment)))
        }
        Deed::Stop => Outcome {
            response: stop_response(alloc),
            stop: true,
        },
    }
}
