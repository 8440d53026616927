// Objects as their records name them, before each key has its place.
use crate::names::Names;
use crate::object::Kind;
use mail_names::{Bytes, Items, Key};
use moderation::Tell;

/// An object whose lists still name keys.
#[derive(Drop)]
pub struct Draft {
    /// The record that it stands in, from 1.
    pub row: usize,
    pub key: Key,
    pub kind: Kind,
    pub members: Names,
    pub owners: Names,
    pub moderated: bool,
    pub moderators: Names,
    pub bypass: Names,
    pub tell: Tell,
    /// The key that a mailbox forwards to, if it forwards.
    pub forward: Names,
    pub keep: bool,
}

/// What an object's record says by a word.
#[derive(Clone, Copy)]
pub struct Words {
    pub kind: Kind,
    pub moderated: bool,
    pub tell: Tell,
    pub keep: bool,
}

/// What an object's record says by a list of keys.
#[derive(Drop)]
pub struct Lists {
    pub members: Names,
    pub owners: Names,
    pub moderators: Names,
    pub bypass: Names,
    pub forward: Names,
}

/// What a record of the form says.
#[derive(Drop)]
pub enum Line {
    Domain { name: Bytes },
    Object { draft: Draft },
}

/// What the records so far say.
#[derive(Drop)]
pub struct Drafts {
    /// How many records were read.
    pub rows: usize,
    /// How many columns the header has, 8 in a file without forwards and 10 in one with them, or 0 where none was read.
    pub columns: usize,
    /// The accepted domains.
    pub domains: Names,
    /// The objects' keys.
    pub keys: Names,
    /// The objects.
    pub drafts: Items<Draft>,
    /// How many members and forwards they have.
    pub entries: usize,
}
