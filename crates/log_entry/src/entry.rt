// The entries of a history.
use mail_names::{ApprovalName, Bytes, ItemName, Key};
use mail_plan::Release;
use mail_submission::Submission;
use moderation::Verdict;

/// What happened. Moments are seconds since 1970-01-01T00:00:00Z.
#[derive(Drop)]
pub enum Entry {
    /// An organisation came into force: the texts of its directory and of its rules.
    Organised {
        directory: Bytes,
        rules: Bytes,
    },
    /// A submission was accepted, and got the next number.
    Accepted {
        moment: u64,
        submission: Submission,
    },
    /// A release of the submission of this number was made.
    Categorised {
        number: u64,
        release: u32,
        plan: Release,
    },
    /// A moderator decided on an approval.
    Decided {
        approval: ApprovalName,
        by: Key,
        verdict: Verdict,
        moment: u64,
    },
    /// A turn began.
    Moment {
        moment: u64,
    },
    /// An item is in its folder.
    Delivered {
        name: ItemName,
    },
    /// The sender of an item was told that it is late.
    Delayed {
        name: ItemName,
    },
    /// An item that couldn't be put into its folder was given up.
    Ended {
        name: ItemName,
    },
    /// The submission of this number, of which nothing waited any more, was forgotten.
    Forgot {
        number: u64,
    },
}
