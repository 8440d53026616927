// Ways to an end.
use mail_names::{Items, Key};

/// A way: the keys passed, from the root down, and the key at its end.
#[derive(Drop)]
pub struct Way {
    /// The keys before the end.
    pub route: Items<Key>,
    /// The end.
    pub key: Key,
}
