// Who is told how an approval ended.

/// Which senders are told that a moderator refused a message, or gave no answer in time.
#[derive(Clone, Copy, Debug, PartialEq, Eq)]
pub enum Tell {
    /// Every sender.
    Always,
    /// Senders inside alone.
    Internal,
    /// No sender.
    Never,
}
