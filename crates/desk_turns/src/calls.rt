// The two ends of a call, and the steps of which they are made.
ghost use Rattle.std.specs.Prelude.{◌≡◌, ◌∷◌, [], Some, None, IfOk, IfErr, MatchOption, length, ℕ};
ghost use Rattle.desk_turns.specs.declared.view.Stage.TheVariants.{Idle, Waiting, Next, Holding, Returned};
ghost use Rattle.desk_turns.specs.Calls.{Begun, CanEnd, Full, Made};
ghost use Rattle.desk_turns.specs.Desks.{IsHolding, IsIdle, IsOf};
ghost use Rattle.desk_turns.specs.Plays.{at_stage};

use crate::desk::{Desk, DeskFull};
use crate::plays::{DrawTicket, GiveBack, GiveHome, LookForEnd, LookForTurn, TakeOut};
use crate::rule::{Deeds, Naming};
use crate::seat::Token;
use std::hint;
use std::sync::Wait;

// The words of the table.
const DRAWN: usize = 0;

const SERVED: usize = 1;

const OUT: usize = 2;

// How often a waiting seat looks before it sleeps.
const LOOKS: u32 = 100;

impl<C: Deeds<E> + Drop, E> Desk<C, E> {
    /// Begins a call: waits for the seat's turn, and hands the value out. No other seat has it until [`Desk::end`].
    ///
    /// Answers DeskFull exactly where as many calls stand in the history as there may be. The seat has then seen them all.
    pub fn begin<R: Wait>(&self, rt: &R, token: &mut Token<C, E>) -> Result<C, DeskFull>
        requires own { IsOf self.now token.old }
        requires idle { IsIdle token.old }
        ensures own { IsOf self.now token.new × (token.new.id ≡ token.old.id) }
        ensures holding { IfOk result (λ _. IsHolding token.new) }
        ensures begun { IfOk result (λ value. Begun C.does token.old.me token.new.me value) }
        ensures full { IfErr result (λ f. (f.calls ≡ self.now.calls) × Full C.does token.old.me token.new.me) }
    {
        let Some(ticket) = self.draw_ticket(rt, token) else {
            self.wait_for_end(rt, token);
            return Err(DeskFull { calls: self.calls });
        };
        self.wait_for_turn(rt, token, ticket);
        Ok(self.take_out(token))
    }

    /// Ends a call, which left this value, and gives the turn back. What the call did then stands in the history.
    pub fn end<N: Naming<E>>(&self, token: &mut Token<C, E>, value: C)
        requires own { IsOf self.now token.old }
        requires holding { IsHolding token.old }
        requires made { CanEnd C.does N.names token.old.id token.old.me value }
        ensures own { IsOf self.now token.new × (token.new.id ≡ token.old.id) }
        ensures made { Made C.does N.names value Idle token.old.me token.new.me }
    {
        self.give_home::<N>(token, value);
        self.give_back(token);
    }

    // A ticket, until all are drawn.
    fn draw_ticket<R: Wait>(&self, rt: &R, token: &mut Token<C, E>) -> Option<u64>
        requires own { IsOf self.now token.old }
        requires idle { token.old.me.0.stage ≡ Idle }
        ensures own { (token.new.table_id ≡ token.old.table_id) × (token.new.id ≡ token.old.id) }
        ensures drawn { MatchOption result (token.new.me ≡ token.old.me) (λ t. token.new.me ≡ (at_stage token.old.me.0 (Waiting t), token.old.me.1)) }
    {
        for _ in rt.forever() {
            let drawn = self.table.shared.peek(DRAWN);
            if drawn >= self.calls {
                return None;
            }
            let found = self
                .table
                .shared
                .compare_exchange::<DrawTicket>(token, DRAWN, drawn, drawn + 1);
            if found == drawn {
                return Some(drawn);
            }
        }
        unreachable!()
    }

    // Waits until the turn of the ticket has come.
    fn wait_for_turn<R: Wait>(&self, rt: &R, token: &mut Token<C, E>, ticket: u64)
        requires own { IsOf self.now token.old }
        requires waiting { token.old.me.0.stage ≡ Waiting ticket }
        ensures own { (token.new.table_id ≡ token.old.table_id) × (token.new.id ≡ token.old.id) }
        ensures turn { token.new.me ≡ (at_stage token.old.me.0 (Next ticket), token.old.me.1) }
    {
        let mut looks = 0;
        for _ in rt.forever() {
            let served = self.table.shared.load::<LookForTurn>(token, SERVED);
            if served == ticket {
                return;
            }
            looks = self.pause(rt, served, looks);
        }
        unreachable!()
    }

    // Waits until all turns were given back.
    fn wait_for_end<R: Wait>(&self, rt: &R, token: &mut Token<C, E>)
        requires own { IsOf self.now token.old }
        requires idle { token.old.me.0.stage ≡ Idle }
        ensures own { (token.new.table_id ≡ token.old.table_id) × (token.new.id ≡ token.old.id) }
        ensures full { Full C.does token.old.me token.new.me }
    {
        let mut looks = 0;
        for _ in rt.forever() {
            let served = self.table.shared.load::<LookForEnd>(token, SERVED);
            if served == self.calls {
                return;
            }
            looks = self.pause(rt, served, looks);
        }
        unreachable!()
    }

    // Spins at first, and later sleeps while the turns given back are as many as `served`. Answers the looks so far.
    fn pause<R: Wait>(&self, rt: &R, served: u64, looks: u32) -> u32 {
        if looks < LOOKS {
            hint::spin_loop();
            return looks + 1;
        }
        self.table
            .shared
            .park(rt, SERVED, (served & 0xffff_ffff) as u32);
        looks
    }

    // Takes the value out.
    fn take_out(&self, token: &mut Token<C, E>) -> C
        requires own { IsOf self.now token.old }
        requires turn { (ticket : ℕ) × (token.old.me.0.stage ≡ Next ticket) }
        requires empty { token.old.me.1 ≡ [] }
        ensures own { (token.new.table_id ≡ token.old.table_id) × (token.new.id ≡ token.old.id) }
        ensures begun { Begun C.does token.old.me token.new.me result }
    {
        self.table.shared.swap::<TakeOut>(token, OUT, 1);
        match self.table.shared.exchange(token, 0, None) {
            Some(value) => value,
            None => unreachable!(),
        }
    }

    // Gives the value home, and adds the call to the history.
    fn give_home<N: Naming<E>>(&self, token: &mut Token<C, E>, value: C)
        requires own { IsOf self.now token.old }
        requires holding { IsHolding token.old }
        requires made { CanEnd C.does N.names token.old.id token.old.me value }
        ensures own { (token.new.table_id ≡ token.old.table_id) × (token.new.id ≡ token.old.id) }
        ensures made { Made C.does N.names value (Returned (length token.old.me.0.seen)) token.old.me token.new.me }
    {
        let None = self.table.shared.exchange(token, 0, Some(value)) else {
            unreachable!()
        };
        self.table.shared.store::<GiveHome<N>>(token, OUT, 0);
    }

    // Gives the turn back.
    fn give_back(&self, token: &mut Token<C, E>)
        requires own { token.old.table_id ≡ self.now.table.shared.table_id }
        requires returned { (ticket : ℕ) × (token.old.me.0.stage ≡ Returned ticket) }
        ensures own { (token.new.table_id ≡ token.old.table_id) × (token.new.id ≡ token.old.id) }
        ensures idle { token.new.me ≡ (at_stage token.old.me.0 Idle, token.old.me.1) }
    {
        self.table.shared.fetch_add::<GiveBack>(token, SERVED, 1);
        self.table.shared.wake_all(SERVED);
    }
}
