// Why bytes are no message.
use mail_names::NoMemory;

/// Why bytes are no message.
#[derive(Clone, Copy, Debug, PartialEq, Eq)]
pub enum MessageFault {
    /// All whole lines are of a header, and none is empty.
    NoBlankLine,
    /// The line of this number, from 0, is the first that is none of a header's.
    BadField { line: u32 },
    /// There are more than 1,048,576 bytes. It is judged first.
    TooLarge,
    NoMemory,
}

impl From<NoMemory> for MessageFault {
    ghost use Rattle.std.specs.Prelude.{◌≡◌};
    ghost use Rattle.mail_message.specs.declared.fault.MessageFault.TheVariants as faults;

    ghost from_gives = { λ _ e. e ≡ faults.NoMemory };

    fn from(_: NoMemory) -> Self {
        MessageFault::NoMemory
    }
}
