// The desk itself.
ghost use Rattle.std.specs.Prelude.{◌≡◌, ◌<◌, ◌^◌};

use crate::rule::{Deeds, TurnRule};
use crate::view::{Start, View};
use atomic_table::Table;
use std::alloc::Global;

/// A seat that wasn't joined is in mid-call: it has the value.
#[derive(Drop)]
pub struct SlotOut;

/// As many calls stand in the history as there may be.
#[derive(Clone, Copy, Debug, PartialEq, Eq)]
pub struct DeskFull {
    /// How many there may be.
    pub calls: u64,
}

/// A value that threads use in turns.
///
/// Threads share it by `&`, where the value may be sent. Each makes its calls with a seat of its own.
#[derive(Drop)]
pub struct Desk<C: Deeds<E> + Drop, E> {
    pub(crate) table: Table<Option<C>, View<C, E>, Start<C>, TurnRule, Global>,
    pub(crate) calls: u64,
    pub ghost sized: { (table.shared.table_id.words ≡ 3) × (table.shared.table_id.slots ≡ 1) },
    pub ghost calls_is: { calls ≡ table.shared.key.calls },
    pub ghost fit: { calls < 2 ^ 64 },
}

impl<C: Deeds<E> + Drop, E> Desk<C, E> {
    /// How many calls there may be.
    pub fn calls(&self) -> u64
        ensures { result ≡ self.now.calls }
    {
        self.calls
    }
}
