// Objects, which name each other by their places.
use mail_names::{Items, Key};
use moderation::Tell;

/// What an object is.
#[derive(Clone, Copy, Debug, PartialEq, Eq)]
pub enum Kind {
    /// A mailbox of the organisation.
    Mailbox,
    /// A person elsewhere.
    Contact,
    /// A list of objects.
    Group,
}

/// A mailbox, a contact or a group. It names other objects by their places in the directory.
#[derive(Drop)]
pub struct Object {
    /// The key by which it is addressed.
    pub key: Key,
    /// What it is.
    pub kind: Kind,
    /// The members of a group, in order.
    pub members: Items<u32>,
    /// Who may send to it unasked because it is theirs.
    pub owners: Items<u32>,
    /// Whether a message to it wants approval.
    pub moderated: bool,
    /// Who is asked for approval.
    pub moderators: Items<u32>,
    /// Who may send to it unasked; of a group, its members at any depth too.
    pub bypass: Items<u32>,
    /// Which senders are told of a refusal.
    pub tell: Tell,
    /// Where mail to a mailbox goes on to.
    pub forward: Option<u32>,
    /// Whether a mailbox that forwards gets its mail too.
    pub keep: bool,
}
