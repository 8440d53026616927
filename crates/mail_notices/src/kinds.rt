// Notices, and the submissions that they are about.
use journal_report::Why;
use mail_names::{ApprovalName, Bytes, Items, Key};

/// The submission that a notice is about.
#[derive(Drop)]
pub struct About {
    /// Its number.
    pub number: u64,
    /// The message's id, with `?` for each control byte.
    pub message_id: Bytes,
    /// The message's subject, with `?` for each control byte.
    pub subject: Bytes,
    /// The message as it was before rules.
    pub original: Bytes,
}

/// What a notice tells. Moments are in seconds since 1970-01-01T00:00:00Z, and rules are counted from 0.
#[derive(Drop)]
pub enum Notice {
    /// A rule rejected the message for these recipients, with the code `5.7.CODE` and these words.
    Rejected {
        rule: u32,
        name: Bytes,
        code: u32,
        words: Bytes,
        keys: Items<Key>,
    },
    /// These recipients are inside and unknown.
    Unknown {
        keys: Items<Key>,
    },
    /// The message expands to too many recipients.
    TooMany,
    /// An approval is asked for. This notice encloses the message.
    Asked {
        approval: ApprovalName,
        gate: Bytes,
        deadline: u64,
    },
    /// A moderator refused an approval.
    Refused {
        approval: ApprovalName,
        gate: Bytes,
        by: Key,
    },
    /// Nobody decided an approval before its deadline.
    RanOut {
        approval: ApprovalName,
        gate: Bytes,
        deadline: u64,
    },
    /// An item is still on its way, and tries go on.
    Delayed {
        target: Key,
        why: Why,
        until: u64,
    },
    /// An item could not be put into its folder, and no more tries are made.
    Undeliverable {
        target: Key,
        why: Why,
        ended: u64,
    },
}
