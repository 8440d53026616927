// Seats that are split and joined. Neither waits or takes memory.
ghost use Rattle.std.specs.Prelude.{◌≡◌};
ghost use Rattle.desk_turns.specs.Calls.{Unites};
ghost use Rattle.desk_turns.specs.Desks.{IsOf};
ghost use Rattle.desk_turns.specs.Plays.{fresh};

use crate::desk::Desk;
use crate::plays::{Cut, Glue, Settle};
use crate::rule::Deeds;
use crate::seat::Seat;

impl<C: Deeds<E> + Drop, E> Desk<C, E> {
    /// Two seats that have each seen what the first had. The first stays what it was, and the second has made no call.
    pub fn split(&self, seat: Seat<C, E>) -> (Seat<C, E>, Seat<C, E>)
        requires { IsOf self.now seat.token }
        ensures own { IsOf self.now result.0.token × IsOf self.now result.1.token }
        ensures first { (result.0.token.id ≡ seat.token.id) × (result.0.token.me ≡ seat.token.me) }
        ensures second { result.1.token.me.0 ≡ fresh seat.token.me.0 }
    {
        let Seat { mut token } = seat;
        let other = self.table.shared.split_seat::<Cut>(&mut token);
        (Seat { token }, Seat { token: other })
    }

    /// One seat, the first of the two, that has seen the longer of what they had seen. Its calls are those of both.
    pub fn join(&self, one: Seat<C, E>, other: Seat<C, E>) -> Seat<C, E>
        requires one { IsOf self.now one.token }
        requires other { IsOf self.now other.token }
        ensures own { IsOf self.now result.token × (result.token.id ≡ one.token.id) }
        ensures both { Unites C.does one.token.me.0 other.token.me.0 result.token.me.0 }
    {
        let Seat { mut token } = one;
        let Seat { token: other } = other;
        self.table.shared.join_seat::<Glue>(&mut token, other);
        self.table.shared.load::<Settle>(&mut token, 1);
        Seat { token }
    }
}
