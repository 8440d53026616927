// The steps on a desk's table: what each tells its seat, and how seats are split and joined.
ghost use Rattle.desk_turns.specs.Plays.{drew, saw_full, came, took, gave, gave_back, united, spent, fresh, settled};

use crate::rule::{Deeds, Naming};
use crate::view::View;
use atomic_table::{Join, Play, Split};
use std::marker::PhantomData;

// A ticket is drawn.
pub(crate) struct DrawTicket;

impl<C, E> Play<Option<C>, View<C, E>> for DrawTicket {
    ghost then = { drew };
}

// A seat looks whether all turns were given back.
pub(crate) struct LookForEnd;

impl<C: Deeds<E>, E> Play<Option<C>, View<C, E>> for LookForEnd {
    ghost then = { saw_full C.does };
}

// A seat looks whether its turn has come.
pub(crate) struct LookForTurn;

impl<C, E> Play<Option<C>, View<C, E>> for LookForTurn {
    ghost then = { came };
}

// The value is taken out.
pub(crate) struct TakeOut;

impl<C: Deeds<E>, E> Play<Option<C>, View<C, E>> for TakeOut {
    ghost then = { took C.does };
}

// The value is given home. This is the step at which the call joins the history.
pub(crate) struct GiveHome<N> {
    marker: PhantomData<N>,
}

impl<C: Deeds<E>, E, N: Naming<E>> Play<Option<C>, View<C, E>> for GiveHome<N> {
    ghost then = { gave C.does N.names };
}

// The turn is given back.
pub(crate) struct GiveBack;

impl<C, E> Play<Option<C>, View<C, E>> for GiveBack {
    ghost then = { gave_back };
}

// A joined seat looks at the history, of which both its halves knew a beginning.
pub(crate) struct Settle;

impl<C: Deeds<E>, E> Play<Option<C>, View<C, E>> for Settle {
    ghost then = { settled C.does };
}

pub(crate) struct Cut;

impl<C, E> Split<View<C, E>> for Cut {
    ghost left = { λ v. v };

    ghost right = { fresh };
}

pub(crate) struct Glue;

impl<C, E> Join<View<C, E>> for Glue {
    ghost both = { united };

    ghost spent = { spent };
}
