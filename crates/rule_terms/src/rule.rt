// Rules.
use crate::action::Action;
use crate::term::Term;
use mail_names::{Bytes, Items, Key};

/// A mail flow rule.
#[derive(Drop)]
pub struct Rule {
    /// What it is called in notices.
    pub name: Bytes,
    /// Whether it may apply at all.
    pub enabled: bool,
    /// The first moment at which it is in force, in seconds since 1970-01-01T00:00:00Z; None is from the start.
    pub from: Option<u64>,
    /// The first moment at which it is in force no more, in seconds since 1970-01-01T00:00:00Z; None is never.
    pub until: Option<u64>,
    /// Whether no later rule is judged where this one applies.
    pub stop: bool,
    /// The conditions, all of which must hold.
    pub when: Items<Term>,
    /// The exceptions, any one of which keeps the rule from applying.
    pub unless: Items<Term>,
    /// What it does, in order.
    pub actions: Items<Action>,
}

/// Which mail a journal rule is for.
#[derive(Clone, Copy, Debug, PartialEq, Eq)]
pub enum Scope {
    /// Sender and recipient are inside.
    Internal,
    /// Sender or recipient is outside.
    External,
    /// All mail.
    Global,
}

/// A journal rule: of which mail a mailbox gets reports.
#[derive(Drop)]
pub struct JournalRule {
    /// What it is called.
    pub name: Bytes,
    /// Which mail it is for.
    pub scope: Scope,
    /// The place in the directory of the object whose mail it is for, sent or received; None is everyone's.
    pub recipient: Option<u32>,
    /// Who gets the reports.
    pub mailbox: Key,
}
