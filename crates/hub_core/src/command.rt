// What the hub is asked, and what it answers.
use crate::part::Part;
use mail_names::{ApprovalName, Bytes, ItemName, Key};
use mail_plan::{OrgFault, Outcome, Planner};
use mail_submission::Submission;
use moderation::{Decision, Verdict};

/// What is asked. Clocks are seconds since 1970-01-01T00:00:00Z.
#[derive(Drop)]
pub enum Command<T: Planner> {
    Organise {
        directory: Bytes,
        rules: Bytes,
    },
    Submit {
        submission: Submission,
        clock: u64,
    },
    Commit {
        outcome: Outcome<T>,
    },
    Decide {
        approval: ApprovalName,
        by: Key,
        verdict: Verdict,
        clock: u64,
    },
    Moment {
        clock: u64,
    },
    Delivered {
        name: ItemName,
    },
    /// The sender of an item is told that it is late.
    Delayed {
        name: ItemName,
    },
    /// An item is given up.
    Ended {
        name: ItemName,
    },
}

/// What is answered.
#[derive(Clone, Copy, Debug, PartialEq, Eq)]
pub enum Reply {
    /// The epoch of the organisation, which is the newest one's where that has these texts.
    Organised { epoch: u32 },
    /// So many organisations are live, and the limits leave no room for one more.
    EpochsFull { live: u64 },
    /// The texts are no organisation's.
    Org { fault: OrgFault },
    Accepted { number: u64, repeat: bool },
    /// So many submissions, and so many octets of their messages, are remembered.
    QueueFull { live: u64, bytes: u64 },
    Committed,
    /// The release is categorised already.
    Already,
    /// No submission has that release.
    Unknown,
    /// The outcome was made from another input: the first part that differs, and the place in it.
    NotItsInput { part: Part, at: u64 },
    /// No release that is categorised asks for that approval, or the submission has as many releases as u32 numbers and the
    /// decision would make one more.
    NoSuchApproval,
    /// What became of a decision.
    Decided { decision: Decision },
    Done,
    /// No item of that name waits, or it isn't one of which that can be said now.
    NotNow,
}

/// Why an entry wasn't applied.
#[derive(Clone, Copy, Debug, PartialEq, Eq)]
pub enum StepFault {
    /// It can't stand behind the entries before it.
    NotLawful,
    NoMemory,
}
