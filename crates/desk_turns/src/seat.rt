// A seat between its calls.
ghost use Rattle.std.specs.Prelude.{◌≡◌, []};
ghost use Rattle.desk_turns.specs.declared.view.Stage.TheVariants.{Idle};

use crate::view::View;

/// What a call is made with: a seat of a desk, in a call or not.
pub type Token<C, E> = atomic_table::Seat<Option<C>, View<C, E>>;

/// A seat that is in no call: it has neither a ticket nor the value.
#[derive(Drop)]
pub struct Seat<C, E> {
    pub token: Token<C, E>,
    pub ghost idle: { token.me.0.stage ≡ Idle },
    pub ghost empty: { token.me.1 ≡ [] },
}
