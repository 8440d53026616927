// An organisation and a message, and the releases that they make.
ghost use Rattle.std.specs.Prelude.{◌≤◌};

use categorizer::{HubOrg, release};
use mail_names::{Bytes, Gate, Items, Key, LAST_MOMENT, NoMemory};
use mail_plan::{Opening, Release, ReleaseInput};
use mail_submission::{Origin, Submission};
use std::alloc::Global;
use std::sync::Arc;

/// The texts of a directory, of rules and of a message.
#[derive(Drop)]
pub struct Case {
    directory: Bytes,
    rules: Bytes,
    message: Bytes,
}

// A line that ends with a line feed alone.
fn add_line(into: &mut Bytes, line: &str) -> Result<(), NoMemory> {
    into.add(line.as_bytes())?;
    into.add(b"\n")
}

impl Case {
    pub fn new(alloc: Global) -> Case {
        Case {
            directory: Bytes::new(alloc),
            rules: Bytes::new(alloc),
            message: Bytes::new(alloc),
        }
    }

    /// Takes the line of a text.
    pub fn take(&mut self, alloc: Global, word: &str, line: &str) -> Result<(), NoMemory> {
        match word {
            "directory" => add_line(&mut self.directory, line),
            "rule" => add_line(&mut self.rules, line),
            "message" => self.message.add_line(line.as_bytes()),
            _ => {
                *self = Case::new(alloc);
                Ok(())
            }
        }
    }
}

// A fault of the key is answered as want of memory.
fn key(alloc: Global, word: &str) -> Result<Key, NoMemory> {
    Key::read(alloc, word.as_bytes()).map_err(|_| NoMemory)
}

// The message from a sender to these recipients.
fn submission(
    alloc: Global,
    message: &Bytes,
    sender: &str,
    recipients: &str,
) -> Result<Option<Submission>, NoMemory> {
    let mut keys = Items::new(alloc);
    for word in recipients.split(',') {
        keys.push(key(alloc, word)?)?;
    }
    let sender = key(alloc, sender)?;
    let bytes = Bytes::of(alloc, message.as_slice())?;
    Ok(Submission::new(alloc, Origin::Smtp, Some(sender), keys, bytes).ok())
}

// The gate of a rule at a place, or of a key.
fn gate(alloc: Global, word: &str) -> Result<Gate, NoMemory> {
    match word.parse::<u32>() {
        Ok(place) => Ok(Gate::Rule { place }),
        Err(_) => Ok(Gate::Object {
            key: key(alloc, word)?,
        }),
    }
}

// Openings, from their moments and gates.
fn openings(alloc: Global, words: &str) -> Result<Vec<Opening>, NoMemory> {
    let mut opened = Vec::new(alloc);
    let mut at = None;
    for word in words.split_whitespace() {
        match at {
            Some(moment) if moment <= LAST_MOMENT => {
                opened.push(Opening::new(gate(alloc, word)?, moment))?;
                at = None;
            }
            _ => at = word.parse::<u64>().ok(),
        }
    }
    Ok(opened)
}

// The input of the release behind these openings.
fn input(
    alloc: Global,
    submission: Submission,
    accepted_at: u64,
    opened: &[Opening],
) -> Result<Option<ReleaseInput>, NoMemory> {
    let Ok(number) = u32::try_from(opened.len()) else {
        return Ok(None);
    };
    if accepted_at > LAST_MOMENT {
        return Ok(None);
    }
    let submission = Arc::new(alloc, submission)?;
    let input = ReleaseInput::at(alloc, 1, 0, accepted_at, submission, opened, number)?;
    Ok(Some(input))
}

// The release of a submission that was accepted at a moment, behind the openings that these words name.
fn made_of(
    alloc: Global,
    org: &HubOrg,
    submission: Submission,
    words: &str,
) -> Result<Option<Release>, NoMemory> {
    let (moment, rest) = words.split_once(' ').unwrap_or((words, ""));
    let opened = openings(alloc, rest)?;
    let accepted_at = moment.parse::<u64>().unwrap_or(0);
    match input(alloc, submission, accepted_at, opened.as_slice())? {
        None => Ok(None),
        Some(input) => Ok(Some(release(alloc, org, &input)?)),
    }
}

/// The release that these words name. None where a text or a word is bad.
pub fn made(alloc: Global, case: &Case, words: &str) -> Result<Option<Release>, NoMemory> {
    let Ok(org) = HubOrg::read(alloc, case.directory.as_slice(), case.rules.as_slice()) else {
        return Ok(None);
    };
    let (sender, rest) = words.split_once(' ').unwrap_or((words, ""));
    let (recipients, rest) = rest.split_once(' ').unwrap_or((rest, ""));
    match submission(alloc, &case.message, sender, recipients)? {
        None => Ok(None),
        Some(submission) => made_of(alloc, &org, submission, rest),
    }
}
