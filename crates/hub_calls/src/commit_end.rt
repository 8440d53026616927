// How an outcome ends at a hub.

/// A part of what a release is made from.
#[derive(Clone, Copy, Debug, PartialEq, Eq)]
pub enum Part {
    /// Which organisation stood when the submission was accepted.
    Epoch,
    /// The text of its directory.
    Directory,
    /// The text of its rules.
    Rules,
    /// The moment of acceptance.
    Accepted,
    /// The moment of the release.
    Made,
    /// The gates that were opened before it.
    Before,
    /// The gates that are opened with it.
    Opened,
    /// Where the submission came from.
    Origin,
    /// Its reverse path.
    Reverse,
    /// Its recipients.
    Recipients,
    /// Its message.
    Content,
}

/// What becomes of an outcome.
#[derive(Clone, Copy, Debug, PartialEq, Eq)]
pub enum CommitEnd {
    /// Its release was added.
    Committed,
    /// The release is categorised already.
    Already,
    /// No submission has that release.
    Unknown,
    /// It was made from another input: the first part that differs, and the least place at which its two lists differ or
    /// one of them ends. The place is 0 for a number, and where only one has a value.
    NotItsInput { part: Part, at: u64 },
}
