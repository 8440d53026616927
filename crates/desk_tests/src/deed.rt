// What is asked of a tray, and what it answers.

/// What a caller asks.
#[derive(Clone, Copy, Debug, PartialEq, Eq)]
pub enum Ask {
    Post(u64),
    Take,
    Stop,
}

/// What is answered.
#[derive(Clone, Copy, Debug, PartialEq, Eq)]
pub enum Reply {
    /// It lies in the tray, in place of this item.
    Replaced(Option<u64>),
    /// This item lay in the tray.
    Took(Option<u64>),
    /// Nothing is taken any more.
    Stopped,
    /// It is stopped.
    Done,
    /// Nothing was done, for want of memory.
    NoMemory,
}

/// An element of the history: what was asked, and what was answered.
#[derive(Clone, Copy, Debug, PartialEq, Eq)]
pub struct Deed {
    pub ask: Ask,
    pub reply: Reply,
}

/// A deed as the tray itself notes it, with the mark of the caller.
#[derive(Clone, Copy, Debug, PartialEq, Eq)]
pub struct Note {
    pub mark: u64,
    pub deed: Deed,
}
