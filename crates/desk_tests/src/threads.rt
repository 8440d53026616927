// What threads do at a desk.
ghost use Rattle.std.specs.Prelude.{◌≡◌};
ghost use Rattle.desk_turns.specs.Desks.{IsOf};

use crate::calls::call;
use crate::deed::{Ask, Deed};
use crate::tray::Tray;
use desk_turns::{Desk, Seat};
use std::sync::Wait;
use std::thread::{Threads, join};

/// Asks in order, with one mark, as long as the desk has room, and keeps the tray for so many rounds each time.
pub fn serve<R: Wait>(
    rt: &R,
    desk: &Desk<Tray, Deed>,
    mut seat: Seat<Tray, Deed>,
    mark: u64,
    asks: &[Ask],
    rounds: u32,
) -> Seat<Tray, Deed>
    requires { IsOf desk.now seat.token }
    ensures own { IsOf desk.now result.token }
    ensures same { result.token.id ≡ seat.token.id }
{
    for ask in asks {
        let _ = call(rt, desk, &mut seat, mark, *ask, rounds);
    }
    seat
}

/// Two threads at one desk, with the marks 1 and 2. The first keeps the tray for so many rounds in each call.
pub fn serve_both<R: Threads + Wait + Sync>(
    rt: &R,
    desk: &Desk<Tray, Deed>,
    one: Seat<Tray, Deed>,
    two: Seat<Tray, Deed>,
    first: &[Ask],
    second: &[Ask],
    rounds: u32,
) -> (Seat<Tray, Deed>, Seat<Tray, Deed>)
    requires one { IsOf desk.now one.token }
    requires two { IsOf desk.now two.token }
    ensures one { IsOf desk.now result.0.token }
    ensures two { IsOf desk.now result.1.token }
{
    let (one, two) = join(
        rt,
        || -> Seat<Tray, Deed>
            requires { IsOf desk.now one.token }
            ensures { IsOf desk.entry.now result.token }
        { serve(rt, desk, one, 1, first, rounds) },
        || -> Seat<Tray, Deed>
            requires { IsOf desk.now two.token }
            ensures { IsOf desk.entry.now result.token }
        { serve(rt, desk, two, 2, second, 0) },
    );
    (one, two)
}
