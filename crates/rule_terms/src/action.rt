// Actions, which a rule that applies does in order.
use mail_names::{Bytes, Items, Key};

/// What becomes of a message that a disclaimer can't be added to, since its body isn't plain text.
#[derive(Clone, Copy, Debug, PartialEq, Eq)]
pub enum Fallback {
    /// It is wrapped in a new message with the disclaimer's text.
    Wrap,
    /// It goes on as it is.
    Ignore,
    /// It is rejected with 5.7.1.
    Reject,
}

/// What a rule does to one recipient's message.
#[derive(Drop)]
pub enum Action {
    /// Puts a text before the subject.
    Prepend {
        text: Bytes,
    },
    /// Sets a header field to a text.
    SetField {
        field: Bytes,
        text: Bytes,
    },
    /// Removes all header fields of a name.
    RemoveField {
        field: Bytes,
    },
    /// Sends the message, as it is by then, to another key too.
    CopyTo {
        target: Key,
    },
    /// Sends the message to another key instead. It is a rule's last action.
    RedirectTo {
        target: Key,
    },
    /// Adds a text before or behind the body, or does what the fallback says. Each line end of the text is CR LF. A rule has one at most.
    Disclaimer {
        before: bool,
        text: Bytes,
        fallback: Fallback,
    },
    /// Rejects the message with the code `5.7.CODE` and these words. It is a rule's last action.
    Reject {
        code: u32,
        words: Bytes,
    },
    /// Holds the message until one of these keys has approved. It is a rule's last action.
    Approve {
        by: Items<Key>,
    },
}
