// What a report holds.
use crate::Why;
use mail_names::{Bytes, ItemName, Items, Key};

/// What a report says of itself and of the message that it encloses.
#[derive(Drop)]
pub struct ReportHead {
    /// The item that the report is.
    pub name: ItemName,
    /// When the release was made, in seconds since 1970-01-01T00:00:00Z.
    pub moment: u64,
    /// Who gets the report.
    pub mailbox: Key,
    /// The reverse path, which is none for the null sender.
    pub sender: Option<Key>,
    /// The message's id, with `?` for each control byte.
    pub message_id: Bytes,
    /// The message's subject, with `?` for each control byte.
    pub subject: Bytes,
}

/// A target of the message, and why it is one.
#[derive(Drop)]
pub struct Line {
    pub target: Key,
    pub why: Why,
}

/// A report: its head, the targets in order, and the message as it was before rules.
#[derive(Drop)]
pub struct Report {
    pub head: ReportHead,
    pub lines: Items<Line>,
    pub original: Bytes,
}
