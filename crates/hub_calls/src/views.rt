// What a hub shows.
use journal_report::Why;
use mail_names::{ApprovalName, Bytes, ItemName, Items, Key};
use mail_plan::ItemKind;

/// A release that isn't categorised: that of this number, of this submission.
#[derive(Clone, Copy, Debug, PartialEq, Eq)]
pub struct TaskName {
    pub submission: u64,
    pub release: u32,
}

/// An item that waits to be put into its folder.
#[derive(Drop)]
pub struct WaitingRow {
    pub name: ItemName,
    pub folder: Key,
    pub kind: ItemKind,
    /// How a version comes to go there; `Direct` for every other kind.
    pub why: Why,
}

/// What waits, and how much is live.
#[derive(Drop)]
pub struct QueueView {
    /// How many submissions are live.
    pub live: u64,
    /// How many octets their messages have.
    pub bytes: u64,
    /// The last moment, in seconds since 1970-01-01T00:00:00Z.
    pub moment: u64,
    /// The releases that aren't categorised.
    pub tasks: Items<TaskName>,
    /// The items that wait.
    pub waiting: Items<WaitingRow>,
}

/// An approval that pends.
#[derive(Drop)]
pub struct ApprovalRow {
    pub name: ApprovalName,
    /// What it is asked for: the label of its gate.
    pub label: Bytes,
    /// Who sent the message; none for the null sender.
    pub sender: Option<Key>,
    /// Who may decide it.
    pub moderators: Items<Key>,
    /// From when on it may not be decided, in seconds since 1970-01-01T00:00:00Z.
    pub deadline: u64,
}

/// An end: what ended without being delivered, and why.
#[derive(Drop)]
pub struct EndRow {
    pub name: Bytes,
    pub cause: Bytes,
}

/// What a turn did.
#[derive(Clone, Copy, Debug, PartialEq, Eq)]
pub struct TurnEnd {
    /// The turn's moment, in seconds since 1970-01-01T00:00:00Z.
    pub moment: u64,
    /// How many items it marked as delivered.
    pub delivered: u64,
    /// How many items wait behind it.
    pub waiting: u64,
    /// How many items it ended.
    pub ended: u64,
}
