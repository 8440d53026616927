// What a submission sends.
use journal_report::Why;
use mail_names::{Bytes, Gate, ItemName, Items, Key};
use moderation::Tell;

/// What an item is.
#[derive(Clone, Copy, Debug, PartialEq, Eq)]
pub enum ItemKind {
    /// A version of the message that was submitted.
    Version,
    /// A report to a journal's mailbox.
    Report,
    /// A request for an approval, to a moderator.
    Request,
    /// A notice to the sender.
    Notice,
}

/// One text for one folder. `why` says how a version comes to go there, and is `Direct` for every other kind.
/// `text` is its place among the release's texts.
#[derive(Drop)]
pub struct Item {
    pub name: ItemName,
    pub folder: Key,
    pub kind: ItemKind,
    pub why: Why,
    pub text: u32,
}

/// A gate that holds recipients until it is opened: what the approval is asked for, in words too, of whom, and which
/// senders are told of a refusal. It has 1 to 10 moderators.
#[derive(Drop)]
pub struct Hold {
    pub gate: Gate,
    pub label: Bytes,
    pub moderators: Items<Key>,
    pub tell: Tell,
}

/// Recipients that get nothing, and why.
#[derive(Drop)]
pub enum End {
    /// The rule at this place, counted from 0, rejected the message for them.
    Rejected { rule: u32, keys: Items<Key> },
    /// They are inside and unknown.
    Unknown { keys: Items<Key> },
    /// The message expands to too many recipients, and nobody gets it.
    TooMany,
}

/// What acceptance or an approval makes: distinct texts, the items that have them, the gates that are met, and who gets
/// nothing.
#[derive(Drop)]
pub struct Release {
    pub texts: Items<Bytes>,
    pub items: Items<Item>,
    pub holds: Items<Hold>,
    pub ends: Items<End>,
}
