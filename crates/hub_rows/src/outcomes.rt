// Outcomes that are committed.
ghost use Rattle.std.specs.Prelude.{◌≤◌};

use crate::silent::{AnyOrg, Silent};
use crate::words::{cut, number, reply, small, submission};
use hub_core::State;
use mail_names::{Bytes, Gate, LAST_MOMENT, NoMemory};
use mail_plan::{FIRST_DIRECTORY, Opening, Outcome, ReleaseInput, Task, plan};
use mail_submission::Submission;
use std::alloc::Global;
use std::sync::Arc;

// Openings, from their moments and the places of their rules.
fn openings(alloc: Global, words: &str) -> Result<Vec<Opening>, NoMemory> {
    let mut opened = Vec::new(alloc);
    let mut at = None;
    for word in words.split_whitespace() {
        match at {
            Some(moment) if moment <= LAST_MOMENT => {
                let place = small(word)?;
                opened.push(Opening::new(Gate::Rule { place }, moment))?;
                at = None;
            }
            _ => at = Some(number(word)?),
        }
    }
    Ok(opened)
}

// The input of the release behind these openings.
fn input(
    alloc: Global,
    number: u64,
    epoch: u32,
    submission: Submission,
    opened: &[Opening],
) -> Result<ReleaseInput, NoMemory> {
    let Ok(release) = u32::try_from(opened.len()) else {
        return Err(NoMemory);
    };
    let submission = Arc::new(alloc, submission)?;
    ReleaseInput::at(alloc, number, epoch, 7, submission, opened, release)
}

// The directory of this word.
fn directory(word: &str) -> &'static [u8] {
    match word {
        "header" => b"key,kind,members,owners,moderated,moderators,bypass,tell",
        _ => FIRST_DIRECTORY,
    }
}

fn outcome(
    alloc: Global,
    directory: &[u8],
    input: ReleaseInput,
) -> Result<Outcome<Silent>, NoMemory> {
    let org = Arc::new(alloc, AnyOrg::without_rules(alloc, directory)?)?;
    plan(alloc, Task { org, input })
}

/// The outcome of a release of ann's message.
pub fn commit(alloc: Global, state: &State<Silent>, words: &str) -> Result<Bytes, NoMemory> {
    let (first, rest) = cut(words);
    let (epoch, rest) = cut(rest);
    let (org, rest) = cut(rest);
    let (recipients, rest) = cut(rest);
    let submission = submission(alloc, "-", "ann@a", recipients, "Message-Id: <1@a>\\\\Hi")?;
    let opened = openings(alloc, rest)?;
    let input = input(
        alloc,
        number(first)?,
        small(epoch)?,
        submission,
        opened.as_slice(),
    )?;
    let outcome = outcome(alloc, directory(org), input)?;
    reply(alloc, state.judge_commit(alloc, &outcome)?)
}
