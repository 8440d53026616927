// How a desk begins.
ghost use Rattle.std.specs.Prelude.{◌≡◌, IfOk, IfErr};
ghost use Rattle.desk_turns.specs.Desks.{IsOf, first_of};
ghost use Rattle.desk_turns.specs.Rule.{newcomer};

use crate::desk::Desk;
use crate::rule::Deeds;
use crate::seat::Seat;
use crate::view::Start;
use atomic_table::{Refused, Table};
use std::alloc::Global;
use std::snapshot::Snapshot;

impl<C: Deeds<E> + Drop, E> Desk<C, E> {
    /// A desk with its value and its first seat, which has seen no call. There may be `calls` of them.
    ///
    /// Hands the value back for want of memory alone.
    pub fn open(alloc: Global, value: C, calls: u64) -> Result<(Desk<C, E>, Seat<C, E>), C>
        ensures desk { IfOk result (λ r. (r.0.calls ≡ calls) × (first_of r.0 ≡ value)) }
        ensures seat { IfOk result (λ r. IsOf r.0 r.1.token × (r.1.token.me.0 ≡ newcomer calls value)) }
        ensures err { IfErr result (λ v. v ≡ value) }
    {
        let key = Start {
            calls,
            first: Snapshot::of(&value),
        };
        let Ok(mut slots) = Vec::with_capacity(alloc, 1) else {
            return Err(value);
        };
        slots.push_reserved(Some(value));
        match Table::new(alloc, &[0, 0, 0], slots, &key) {
            Ok((table, token)) => Ok((Desk { table, calls }, Seat { token })),
            Err(Refused { mut slots }) => match slots.pop() {
                Some(Some(value)) => Err(value),
                _ => unreachable!(),
            },
        }
    }
}
