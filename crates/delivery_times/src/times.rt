// The times of deliveries.
ghost use Rattle.std.specs.Prelude.{◌≡◌, ◌<◌, ◌≤◌, ◌^◌};
ghost use Rattle.delivery_times.specs.Times.{slot, is_due_again, age_of, tried_until, is_old};

use mail_names::LAST_MOMENT;

/// The age at which the sender of an item that isn't delivered yet is told of its delay, in seconds.
pub const DELAY_TIME: u64 = 14_400;

/// How long tries to deliver an item go on, in seconds from the moment at which it is made.
pub const TRY_TIME: u64 = 172_800;

/// How long a submission is remembered at least, in seconds from the moment at which it is accepted.
pub const MEMORY_TIME: u64 = 691_200;

// For so long an item is tried every `FIRST_WAIT`, and then every `LATER_WAIT`, in seconds.
const FIRST_TIME: u64 = 1_800;

const FIRST_WAIT: u64 = 300;

const LATER_WAIT: u64 = 900;

/// What a failed try of an item comes to, by the item's age.
#[derive(Clone, Copy, Debug, PartialEq, Eq)]
pub enum Age {
    /// It waits for the next try, and nobody is told.
    Fresh,
    /// It waits for the next try, and the sender is told of the delay, once.
    Late,
    /// It is given up, unless it is in its folder all the same.
    Expired,
}

/// The slot of an age in seconds. A slot lasts 300 s in the first 1,800 s and 900 s from then on, and slots are counted
/// from 0.
pub fn slot(seconds: u64) -> u64
    ensures value { result ≡ slot seconds }
    // The slot of each moment's age is kept as u32.
    ensures small { seconds ≤ LAST_MOMENT → result < 2 ^ 32 }
{
    let first = seconds.min(FIRST_TIME);
    let later = seconds.max(FIRST_TIME) - FIRST_TIME;
    first / FIRST_WAIT + later / LATER_WAIT
}

/// Whether an item that was made at a moment, and was last due in this slot of its age, is due again. Moments are in seconds
/// since 1970-01-01T00:00:00Z. Before it is made an item has the age 0.
pub fn is_due_again(made: u64, last: u64, moment: u64) -> bool
    ensures { result ≡ is_due_again made last moment }
{
    slot(moment.saturating_sub(made)) > last
}

/// What a failed try of an item of this age, in seconds, comes to.
pub fn age_of(seconds: u64) -> Age
    ensures { result ≡ age_of seconds }
{
    if seconds >= TRY_TIME {
        Age::Expired
    } else if seconds >= DELAY_TIME {
        Age::Late
    } else {
        Age::Fresh
    }
}

/// The moment until which an item that was made at a moment is tried, both in seconds since 1970-01-01T00:00:00Z.
pub fn tried_until(made: u64) -> u64
    requires { made ≤ LAST_MOMENT }
    ensures { result ≡ tried_until made }
{
    made + TRY_TIME
}

/// Whether a submission that was accepted at a moment may be forgotten at a moment, both in seconds since
/// 1970-01-01T00:00:00Z, if nothing of it waits.
pub fn is_old(accepted_at: u64, moment: u64) -> bool
    ensures { result ≡ is_old accepted_at moment }
{
    moment.saturating_sub(accepted_at) >= MEMORY_TIME
}
