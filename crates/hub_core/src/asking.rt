// The approvals that releases ask for.
ghost use Rattle.std.specs.Prelude.{◌≡◌, ◌<◌, ◌≤◌, true, length, map, IfOk};
ghost use Rattle.mail_plan.specs.Planning.{have_moderators};
ghost use Rattle.hub_core.specs.Approvals.{asking_of};

use mail_names::{Bytes, LAST_MOMENT, NoMemory};
use mail_plan::Hold;
use moderation::{Approval, Tell};
use std::alloc::Global;

/// An approval of a release, what it is asked for in words, and which senders are told of its end.
#[derive(Drop)]
pub struct Asking {
    pub approval: Approval,
    pub label: Bytes,
    pub tell: Tell,
}

// The approval that is asked for a hold, by a release of this moment.
fn asking_of(hold: Hold, made: u64) -> Asking
    requires some { 0 < length hold.moderators }
    requires few { length hold.moderators ≤ 10 }
    requires moment { made ≤ LAST_MOMENT }
    ensures { result ≡ asking_of made hold }
{
    let Hold {
        gate,
        label,
        moderators,
        tell,
    } = hold;
    Asking {
        approval: Approval::new(gate, moderators.into_vec(), made),
        label,
        tell,
    }
}

/// The approvals that are asked for these holds, by a release of this moment.
pub fn asks_of(alloc: Global, holds: Vec<Hold>, made: u64) -> Result<Vec<Asking>, NoMemory>
    requires moderators { have_moderators holds.items ≡ true }
    requires moment { made ≤ LAST_MOMENT }
    ensures { IfOk result (λ asks. asks.items ≡ map (asking_of made) holds.items) }
{
    let mut asks = Vec::new(alloc);
    for hold in holds {
        asks.push(asking_of(hold, made))?;
    }
    Ok(asks)
}
