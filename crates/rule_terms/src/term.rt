// Terms, of which the conditions and exceptions of a rule are made.
use mail_names::{Bytes, Items, Key};

/// Where a key's domain stands.
#[derive(Clone, Copy, Debug, PartialEq, Eq)]
pub enum Side {
    /// Among the accepted domains.
    Inside,
    /// Not among them. The null sender is outside too.
    Outside,
}

/// A condition or an exception of a rule. One with several values holds where any of them matches.
#[derive(Drop)]
pub enum Term {
    /// The sender is one of these keys.
    SenderIs { keys: Items<Key> },
    /// The recipient is one of these keys.
    RecipientIs { keys: Items<Key> },
    /// The sender is a member, at any depth, of a group at one of these places in the directory.
    SenderIn { groups: Items<u32> },
    /// The recipient is a member, at any depth, of a group at one of these places in the directory.
    RecipientIn { groups: Items<u32> },
    /// The sender is on one of these sides.
    SenderScope { sides: Items<Side> },
    /// The recipient is on one of these sides.
    RecipientScope { sides: Items<Side> },
    /// The sender's domain is one of these, which are in lower case.
    SenderDomain { domains: Items<Bytes> },
    /// The recipient's domain is one of these, which are in lower case.
    RecipientDomain { domains: Items<Bytes> },
    /// One of these words stands in the value of the first Subject field.
    SubjectWords { words: Items<Bytes> },
    /// One of these words stands in the value of the first Subject field, or in the body of a plain message.
    TextWords { words: Items<Bytes> },
    /// One of these words stands in the value of the first field of this name.
    FieldWords { field: Bytes, words: Items<Bytes> },
    /// A field of this name stands in the message.
    FieldPresent { field: Bytes },
    /// The message's text has at least so many octets.
    SizeAtLeast { bytes: u64 },
}
