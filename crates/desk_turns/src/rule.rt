// What a desk keeps of its value, and how the words of its table are to be read.
ghost use Rattle.std.specs.Prelude.{ℕ};
ghost use Rattle.desk_turns.specs.Rule.{Kept, newcomer};

use crate::view::{Start, View};
use atomic_table::TableRule;
use std::marker::Brand;

/// A value to which deeds are done. A deed is a call with its answer, as plain data.
pub trait Deeds<E> {
    /// The deed may lead from the one value to the other.
    ghost does: { Self → E → Self → Type 0 };
}

/// Which deeds of which seat a call may add to the history. Each call of [`Desk::end`](crate::Desk::end) picks it.
pub trait Naming<E> {
    ghost names: { ℕ → E → Type 0 };
}

impl<E> Naming<E> for Brand {
    ghost names = { λ _ _. Unit {0} };
}

/// The rule of a desk's table. Its words are the tickets drawn, the turns given back, and 1 while the value is out.
pub struct TurnRule;

impl<C: Deeds<E>, E> TableRule<Option<C>, View<C, E>, Start<C>> for TurnRule {
    ghost holds = { λ key s. Kept C.does key.calls key.first.value s };

    ghost first = { λ key. newcomer key.calls key.first.value };
}
