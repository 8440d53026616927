// Which command words are.
ghost use Rattle.std.specs.Prelude.{◌≡◌, Err, IfOk, map};
ghost use Rattle.command_words.specs.declared.command.Command.{Command};
ghost use Rattle.command_words.specs.Words.{Means};

use crate::command::{Command, WordsFault};
use crate::parser::{read_bare, read_make, read_turn};
use std::alloc::Global;

/// Reads the words behind the program's name.
///
/// The first word is a command's name. `turn` and `make` take the number of workers, from 1 to 16, in `--workers N` or
/// `--workers=N`, once at most; where it isn't given it is 1. `make` takes the number of submissions, from 1 to 10,000.
/// The mark `--` may end the options. Numbers are decimal digits, with a plus in front or without one. Any other words
/// are no command, and so are those that ask for help.
pub fn read(alloc: Global, words: &[&str]) -> Result<Command, WordsFault>
    ensures read { IfOk result (λ command. Means (map (λ word. word.now) words.now) command) }
    ensures only { IfOk result (λ command. (other : Command) → Means (map (λ word. word.now) words.now) other → command ≡ other) }
    ensures usage { result ≡ Err WordsFault.Usage → (command : Command) → Means (map (λ word. word.now) words.now) command → ⊥ }
{
    match words.first() {
        Some(&"session") => read_bare(alloc, "session", words).map(|()| Command::Session),
        Some(&"turn") => read_turn(alloc, words),
        Some(&"admin") => read_bare(alloc, "admin", words).map(|()| Command::Admin),
        Some(&"check") => read_bare(alloc, "check", words).map(|()| Command::Check),
        Some(&"make") => read_make(alloc, words),
        _ => Err(WordsFault::Usage),
    }
}
