// Why a row has no answer.
use mail_names::NoMemory;
use std::alloc::AllocError;

/// Why a row has no answer.
#[derive(Clone, Copy, Debug, PartialEq, Eq)]
pub enum Wrong {
    NoCount,
    NoEscape,
    NoGroup,
    NoKey,
    NoMessage,
    NoMoment,
    NoObject,
    NoOctet,
    NoRule,
    NoSuchRow,
    TooManyRecipients,
    TooManyTargets,
    NoMemory,
}

impl From<NoMemory> for Wrong {
    fn from(_: NoMemory) -> Self {
        Wrong::NoMemory
    }
}

impl From<AllocError> for Wrong {
    fn from(_: AllocError) -> Self {
        Wrong::NoMemory
    }
}
