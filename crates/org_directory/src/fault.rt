// Why a text is no directory.
use mail_names::NoMemory;

/// Why a text is no directory. A `row` counts the records of the text from 1.
#[derive(Clone, Copy, Debug, PartialEq, Eq)]
pub enum DirectoryFault {
    /// The record hasn't the form, or the text is too long.
    BadRow { row: usize },
    /// The key or domain stood in an earlier record.
    DoubleKey { row: usize },
    /// A key is named that is no object, or a moderator is a group.
    UnknownMember { row: usize },
    /// The object is moderated and has no moderators.
    NoModerators { row: usize },
    /// There are too many objects or member entries.
    TooMany { row: usize },
    /// Want of memory.
    NoMemory,
}

impl From<NoMemory> for DirectoryFault {
    ghost use Rattle.std.specs.Prelude.{◌≡◌};
    ghost use Rattle.org_directory.specs.declared.fault.DirectoryFault.TheVariants as faults;

    ghost from_gives = { λ _ e. e ≡ faults.NoMemory };

    fn from(_: NoMemory) -> Self {
        DirectoryFault::NoMemory
    }
}
