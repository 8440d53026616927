// What a release is made of.
use group_expand::Leaf;
use journal_report::Why;
use mail_names::{Bytes, Gate, Items, Key, SharedBytes};
use mail_notices::About;
use mail_plan::{Hold, ItemKind};
use rule_engine::RuleOutcome;

/// A leaf, and what the rules make of it.
#[derive(Drop)]
pub struct Judged {
    pub leaf: Leaf,
    pub outcome: RuleOutcome,
}

/// A target, why the message is sent to it, and the text that it gets.
#[derive(Drop)]
pub struct Send {
    pub target: Key,
    pub why: Why,
    pub text: SharedBytes,
}

/// A leaf that a rule rejects with the code `5.7.CODE` and these words.
#[derive(Drop)]
pub struct Rejection {
    pub key: Key,
    pub rule: u32,
    pub code: u32,
    pub words: Bytes,
}

/// What is sent, who is rejected and which gates hold.
#[derive(Drop)]
pub struct Plan {
    pub sent: Items<Send>,
    pub refused: Items<Rejection>,
    pub met: Items<Gate>,
}

/// Recipients that get nothing, and what the sender is told of them.
#[derive(Drop)]
pub enum Loss {
    /// The rule at this place, which has this name, rejects the message for them with the code `5.7.CODE` and these
    /// words.
    Rejected {
        rule: u32,
        name: Bytes,
        code: u32,
        words: Bytes,
        keys: Items<Key>,
    },
    /// They are inside and unknown.
    Unknown {
        keys: Items<Key>,
    },
    /// The message expands to too many recipients.
    TooMany,
}

/// What a release has, before its items have texts and names.
#[derive(Drop)]
pub struct Content {
    pub sent: Items<Send>,
    pub holds: Items<Hold>,
    pub losses: Items<Loss>,
}

/// What the reports, requests and notices of a release share: what they are about, the release, and the moment at which it is
/// made, in seconds since 1970-01-01T00:00:00Z.
#[derive(Drop)]
pub struct Letter {
    pub about: About,
    pub release: u32,
    pub made: u64,
}

/// An item that has no name yet.
#[derive(Drop)]
pub struct Draft {
    pub folder: Key,
    pub kind: ItemKind,
    pub why: Why,
    pub text: SharedBytes,
}
