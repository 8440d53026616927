// What releases are made from, and the messages that they send.
ghost use Rattle.std.specs.Prelude.{◌≤◌};

use crate::octets::octets;
use crate::releases::add_gate;
use mail_names::{Bytes, Gate, Items, Key, LAST_MOMENT, NoMemory};
use mail_plan::{Opening, ReleaseInput};
use mail_submission::{Origin, Submission};
use std::alloc::Global;
use std::sync::Arc;

// A submission of these octets to one key, or none.
fn submission(alloc: Global, bytes: Bytes) -> Result<Option<Submission>, NoMemory> {
    let mut recipients = Items::new(alloc);
    if let Ok(key) = Key::read(alloc, b"a@b") {
        recipients.push(key)?;
    }
    Ok(Submission::new(alloc, Origin::Smtp, None, recipients, bytes).ok())
}

// The gate of a key, or of a rule at a place.
fn gate(alloc: Global, word: &str) -> Result<Gate, NoMemory> {
    match word.parse::<u32>() {
        Ok(place) => Ok(Gate::Rule { place }),
        Err(_) => match Key::read(alloc, word.as_bytes()) {
            Ok(key) => Ok(Gate::Object { key }),
            Err(_) => Err(NoMemory),
        },
    }
}

// Openings, from their moments and gates.
fn openings(alloc: Global, words: &str) -> Result<Vec<Opening>, NoMemory> {
    let mut opened = Vec::new(alloc);
    let mut at = None;
    for word in words.split_whitespace() {
        match at {
            Some(moment) if moment <= LAST_MOMENT => {
                opened.push(Opening::new(gate(alloc, word)?, moment))?;
                at = None;
            }
            _ => at = word.parse::<u64>().ok(),
        }
    }
    Ok(opened)
}

fn add_gates(alloc: Global, out: &mut Bytes, gates: &[Gate]) -> Result<(), NoMemory> {
    for gate in gates {
        out.add(b" ")?;
        add_gate(alloc, out, gate)?;
    }
    Ok(())
}

fn add_made(alloc: Global, out: &mut Bytes, input: &ReleaseInput) -> Result<(), NoMemory> {
    let (release, made) = (input.release(), input.made());
    let text = format!(in alloc; "release {release} made at {made}; before:")?;
    out.add(text.as_bytes())?;
    match input.before() {
        None => out.add(b" none")?,
        Some(gates) => add_gates(alloc, out, gates.as_slice())?,
    }
    out.add(b"; opened:")?;
    add_gates(alloc, out, input.opened())
}

// The input of a release behind these openings.
fn add_input_at(
    alloc: Global,
    out: &mut Bytes,
    accepted_at: u64,
    opened: &[Opening],
    release: u32,
) -> Result<(), NoMemory> {
    let Some(sent) = submission(alloc, Bytes::of(alloc, b"A: b\r\n\r\n")?)? else {
        return out.add(b"no submission");
    };
    if accepted_at > LAST_MOMENT || release as usize > opened.len() {
        return out.add(b"no release");
    }
    let sent = Arc::new(alloc, sent)?;
    let input = ReleaseInput::at(alloc, 1, 5, accepted_at, sent, opened, release)?;
    add_made(alloc, out, &input)
}

/// Appends the input of a release.
pub fn add_input(alloc: Global, out: &mut Bytes, words: &str) -> Result<(), NoMemory> {
    let (accepted_at, rest) = words.split_once(' ').unwrap_or((words, ""));
    let (release, rest) = rest.split_once(' ').unwrap_or((rest, ""));
    let opened = openings(alloc, rest)?;
    match (accepted_at.parse::<u64>(), release.parse::<u32>()) {
        (Ok(moment), Ok(number)) => add_input_at(alloc, out, moment, opened.as_slice(), number),
        _ => out.add(b"no numbers"),
    }
}

// The Message-Id of a message that is sent, and whether this is its text.
fn add_id(
    alloc: Global,
    out: &mut Bytes,
    number: u64,
    submission: &Submission,
) -> Result<(), NoMemory> {
    let message = submission.base_message(alloc, number)?;
    match message.field(alloc, b"Message-Id")? {
        None => out.add(b"no id")?,
        Some(id) => out.add(id.as_slice())?,
    }
    let text = submission.base_text(alloc, number)?;
    if message.bytes(alloc)?.same(&text) {
        out.add(b"; text the same")
    } else {
        out.add(b"; another text")
    }
}

/// Appends the message that is sent for a submission: these words are its number and its octets.
pub fn add_base(alloc: Global, out: &mut Bytes, words: &str) -> Result<(), NoMemory> {
    let (number, text) = words.split_once(' ').unwrap_or((words, ""));
    let bytes = octets(alloc, text)?;
    match (number.parse::<u64>(), submission(alloc, bytes)?) {
        (Ok(number), Some(submission)) => add_id(alloc, out, number, &submission),
        _ => out.add(b"no submission"),
    }
}
