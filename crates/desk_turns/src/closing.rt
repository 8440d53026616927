// How a desk ends.
ghost use Rattle.std.specs.Prelude.{◌≡◌, IfOk, IfErr};
ghost use Rattle.desk_turns.specs.Desks.{IsOf, first_of};
ghost use Rattle.desk_turns.specs.Ends.{Ended, StillOut};

use crate::desk::{Desk, SlotOut};
use crate::rule::Deeds;
use crate::seat::Seat;

impl<C: Deeds<E> + Drop, E> Desk<C, E> {
    /// The value after the whole history.
    ///
    /// Answers SlotOut exactly where a seat that wasn't joined is in mid-call. The value is then let go.
    pub fn close(self, seat: Seat<C, E>) -> Result<C, SlotOut>
        requires { IsOf self seat.token }
        ensures ok { IfOk result (λ value. Ended C.does self.calls (first_of self) seat.token.id seat.token.me.0 value) }
        ensures out { IfErr result (λ _. StillOut C.does self.calls (first_of self) seat.token.id seat.token.me.0) }
    {
        let Desk { table, .. } = self;
        let Seat { token } = seat;
        let mut closed = table.close_with(token);
        let out = closed.word(2);
        let value = closed.take(0);
        closed.free();
        if out != 0 {
            return Err(SlotOut);
        }
        match value {
            Some(value) => Ok(value),
            None => unreachable!(),
        }
    }
}
