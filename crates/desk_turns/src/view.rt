// What a desk began with, and what its seats know. It exists for contracts: but for `Start`, no value of these is made.
use std::collections::LinkedList;
use std::snapshot::Snapshot;

/// How far a seat is in a call, with its ticket.
pub enum Stage {
    /// In no call.
    Idle,
    /// It has drawn a ticket.
    Waiting(u64),
    /// Its turn has come, and the value is home.
    Next(u64),
    /// It has the value: it is in mid-call.
    Holding(u64),
    /// It has given the value home, and the turn not yet back.
    Returned(u64),
    /// It was joined to another, and is none any more.
    Spent,
}

/// What was done to the value in one call, with its answer, and the number of the seat that made the call.
pub struct Element<E> {
    pub by: u64,
    pub deed: E,
}

/// What one of two seats knew that were joined.
pub struct Half<E> {
    pub seen: LinkedList<Element<E>>,
    pub numbers: LinkedList<u64>,
}

/// What a seat knows.
pub struct View<C, E> {
    /// The value at the start. A seat that was joined to another knows none.
    pub start: Option<C>,
    /// How many calls there may be.
    pub calls: u64,
    pub stage: Stage,
    /// How the history begins, as far as the seat has seen it.
    pub seen: LinkedList<Element<E>>,
    /// The numbers under which its own calls stand in the history.
    pub numbers: LinkedList<u64>,
    /// What the two seats knew of which it is joined, until it has looked at the history again.
    pub halves: LinkedList<Half<E>>,
}

/// The value at the start, and how many calls there may be.
#[derive(Drop)]
pub struct Start<C> {
    pub calls: u64,
    pub first: Snapshot<C>,
}
