// What words may mean.
ghost use Rattle.std.specs.Prelude.{◌≡◌};

use std::alloc::AllocError;

/// A command of the program.
#[derive(Clone, Copy, Debug, PartialEq, Eq)]
pub enum Command {
    /// One SMTP session, and what follows it.
    Session,
    /// Takes the pickup files, categorises all that waits with so many workers, and makes a turn.
    Turn { workers: u32 },
    /// One HTTP exchange.
    Admin,
    /// The check of an organisation.
    Check,
    /// A load of so many submissions, categorised with so many workers.
    Make { submissions: u32, workers: u32 },
}

/// Why words were read as no command.
#[derive(Clone, Copy, Debug, PartialEq, Eq)]
pub enum WordsFault {
    /// They are none.
    Usage,
    NoMemory,
}

impl From<AllocError> for WordsFault {
    ghost use Rattle.std.specs.Prelude.{◌≡◌};
    ghost use Rattle.command_words.specs.declared.command.WordsFault.TheVariants as faults;

    ghost from_gives = { λ _ e. e ≡ faults.NoMemory };

    fn from(_: AllocError) -> WordsFault {
        WordsFault::NoMemory
    }
}
