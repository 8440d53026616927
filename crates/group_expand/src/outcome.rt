// What an expansion gives.
use mail_names::{Items, Key, NoMemory, Step};

/// The most leaves of an expansion.
pub const MOST_LEAVES: usize = 2000;

/// A mailbox, a contact or a key outside that mail goes to.
#[derive(Drop)]
pub struct Leaf {
    /// Its key.
    pub key: Key,
    /// The carriers of its first path, from the root down.
    pub route: Items<Step>,
}

/// An object that holds a message until a moderator approves it.
#[derive(Drop)]
pub struct Closed {
    /// Its key.
    pub key: Key,
    /// The carriers of the first path that meets it, from the root down.
    pub route: Items<Step>,
}

/// The leaves, the closed objects and the unknown roots, each once, in the order of their first paths.
#[derive(Drop)]
pub struct Expansion {
    pub leaves: Items<Leaf>,
    pub closed: Items<Closed>,
    /// The roots inside that are no object.
    pub unknown: Items<Key>,
}

/// Why there is no expansion.
#[derive(Clone, Copy, Debug, PartialEq, Eq)]
pub enum ExpandFault {
    /// There are more than `MOST_LEAVES` leaves with every gate taken as opened.
    TooManyLeaves,
    /// Want of memory.
    NoMemory,
}

impl From<NoMemory> for ExpandFault {
    ghost use Rattle.std.specs.Prelude.{◌≡◌};
    ghost use Rattle.group_expand.specs.declared.outcome.ExpandFault.TheVariants as faults;

    ghost from_gives = { λ _ e. e ≡ faults.NoMemory };

    fn from(_: NoMemory) -> Self {
        ExpandFault::NoMemory
    }
}
