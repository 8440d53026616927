// A call at a desk.
ghost use Rattle.std.specs.Prelude.{◌≡◌, IfOk, IfErr};
ghost use Rattle.desk_turns.specs.declared.view.Stage.TheVariants.{Idle};
ghost use Rattle.desk_turns.specs.Calls.{Called, CanEnd, Full, Made};
ghost use Rattle.desk_turns.specs.Desks.{IsHolding, IsIdle, IsOf};
ghost use Rattle.desk_tests.specs.Calls.{IsCall};
ghost use Rattle.desk_tests.specs.Tray.{Does};

use crate::deed::{Ask, Deed, Reply};
use crate::tray::Tray;
use desk_turns::{Desk, DeskFull, Naming, Seat, Token};
use std::marker::Brand;
use std::sync::Wait;
use std::thread;

/// Asks the tray, and keeps it for so many rounds before the call ends.
///
/// The call is one more of the seat's in the one history, and is answered as the history so far prescribes.
pub fn call<R: Wait>(
    rt: &R,
    desk: &Desk<Tray, Deed>,
    seat: &mut Seat<Tray, Deed>,
    mark: u64,
    ask: Ask,
    rounds: u32,
) -> Result<Reply, DeskFull>
    requires { IsOf desk.now seat.old.token }
    ensures own { IsOf desk.now seat.new.token × (seat.new.token.id ≡ seat.old.token.id) }
    ensures called { IfOk result (λ reply. Called Does (IsCall seat.old.token.id ask reply) seat.old.token.me.0 seat.new.token.me.0) }
    ensures full { IfErr result (λ f. (f.calls ≡ desk.now.calls) × Full Does seat.old.token.me seat.new.token.me) }
{
    call_with(rt, desk, &mut seat.token, mark, ask, rounds)
}

fn call_with<R: Wait>(
    rt: &R,
    desk: &Desk<Tray, Deed>,
    token: &mut Token<Tray, Deed>,
    mark: u64,
    ask: Ask,
    rounds: u32,
) -> Result<Reply, DeskFull>
    requires own { IsOf desk.now token.old }
    requires idle { IsIdle token.old }
    ensures own { IsOf desk.now token.new × (token.new.id ≡ token.old.id) }
    ensures idle { IsIdle token.new }
    ensures called { IfOk result (λ reply. Called Does (IsCall token.old.id ask reply) token.old.me.0 token.new.me.0) }
    ensures full { IfErr result (λ f. (f.calls ≡ desk.now.calls) × Full Does token.old.me token.new.me) }
{
    let mut tray = match desk.begin(rt, token) {
        Ok(tray) => tray,
        Err(full) => return Err(full),
    };
    let reply = tray.answer(mark, ask);
    linger(rounds);
    end_call(desk, token, tray, ask, reply);
    Ok(reply)
}

// Lets others run, so many times.
fn linger(rounds: u32) {
    for _round in 0..rounds {
        thread::yield_now();
    }
}

// Ends a call that was answered so.
fn end_call(
    desk: &Desk<Tray, Deed>,
    token: &mut Token<Tray, Deed>,
    tray: Tray,
    ask: Ask,
    reply: Reply,
)
    requires own { IsOf desk.now token.old }
    requires holding { IsHolding token.old }
    requires did { CanEnd Does (IsCall token.old.id ask reply) token.old.id token.old.me tray }
    ensures own { IsOf desk.now token.new × (token.new.id ≡ token.old.id) }
    ensures made { Made Does (IsCall token.old.id ask reply) tray Idle token.old.me token.new.me }
{
    end_named::<Brand>(desk, token, tray, ask, reply);
}

// The same, with the names of the deed picked by the caller from the arguments.
fn end_named<N: Naming<Deed>>(
    desk: &Desk<Tray, Deed>,
    token: &mut Token<Tray, Deed>,
    tray: Tray,
    ask: Ask,
    reply: Reply,
)
    requires own { IsOf desk.now token.old }
    requires holding { IsHolding token.old }
    requires did { CanEnd Does N.names token.old.id token.old.me tray }
    ensures own { IsOf desk.now token.new × (token.new.id ≡ token.old.id) }
    ensures made { Made Does N.names tray Idle token.old.me token.new.me }
{
    let _ = ask;
    let _ = reply;
    desk.end::<N>(token, tray);
}
