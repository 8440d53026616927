// What words mean.
use crate::octets::Answer;
use command_words::{Command, WordsFault, read};
use mail_names::NoMemory;
use std::alloc::{AllocError, Global};

fn text_of(alloc: Global, command: Command) -> Result<String, AllocError> {
    match command {
        Command::Session => format!(in alloc; "session"),
        Command::Turn { workers } => format!(in alloc; "turn, workers {workers}"),
        Command::Admin => format!(in alloc; "admin"),
        Command::Check => format!(in alloc; "check"),
        Command::Make {
            submissions,
            workers,
        } => format!(in alloc; "make {submissions}, workers {workers}"),
    }
}

fn answer(alloc: Global, words: &[&str], out: &mut Answer) -> Result<(), NoMemory> {
    match read(alloc, words) {
        Ok(command) => {
            let text = text_of(alloc, command)?;
            out.given(text.as_bytes())
        }
        Err(WordsFault::Usage) => out.refused("usage"),
        Err(WordsFault::NoMemory) => Err(NoMemory),
    }
}

/// Answers no words.
pub fn read_none(alloc: Global, out: &mut Answer) -> Result<(), NoMemory> {
    answer(alloc, &[], out)
}

/// Answers the words that stand between `|`.
pub fn read_row(alloc: Global, row: &str, out: &mut Answer) -> Result<(), NoMemory> {
    let mut words = Vec::new(alloc);
    for word in row.split('|') {
        words.push(word)?;
    }
    answer(alloc, words.as_slice(), out)
}
