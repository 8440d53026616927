// The load and the summary lines.
use crate::octets::Answer;
use mail_names::{Bytes, Key, NoMemory};
use mail_submission::{Origin, Submission};
use make_load::{MOMENT, MakeSummary, TurnSummary};
use std::alloc::Global;

pub fn moderator(alloc: Global, out: &mut Answer) -> Result<(), NoMemory> {
    let key = make_load::moderator(alloc)?;
    out.given(key.bytes())
}

pub fn moment(alloc: Global, out: &mut Answer) -> Result<(), NoMemory> {
    let text = format!(in alloc; "{MOMENT}")?;
    out.given(text.as_bytes())
}

fn add_key(line: &mut Bytes, before: &[u8], key: &Key) -> Result<(), NoMemory> {
    line.add(before)?;
    line.add(key.bytes())
}

// How it came in, who sent it and to whom.
fn envelope(alloc: Global, submission: &Submission) -> Result<Bytes, NoMemory> {
    let mut line = Bytes::new(alloc);
    match submission.origin() {
        Origin::Smtp => line.add(b"smtp")?,
        Origin::Pickup { .. } => line.add(b"pickup")?,
    }
    match submission.reverse() {
        Some(key) => add_key(&mut line, b" from ", key)?,
        None => line.add(b" from nobody")?,
    }
    for key in submission.recipients() {
        add_key(&mut line, b" to ", key)?;
    }
    Ok(line)
}

pub fn submission(alloc: Global, row: &str, out: &mut Answer) -> Result<(), NoMemory> {
    let Ok(place) = row.parse::<u32>() else {
        return out.refused("no number");
    };
    let submission = make_load::submission(alloc, place)?;
    let line = envelope(alloc, &submission)?;
    out.given(line.as_slice())?;
    out.given(submission.bytes())
}

// The numbers of a row; what is no number is 0.
fn numbers(alloc: Global, row: &str) -> Result<Vec<u64>, NoMemory> {
    let mut numbers = Vec::new(alloc);
    for word in row.split(' ') {
        numbers.push(word.parse::<u64>().unwrap_or(0))?;
    }
    Ok(numbers)
}

pub fn make_summary(alloc: Global, row: &str, out: &mut Answer) -> Result<(), NoMemory> {
    let numbers = numbers(alloc, row)?;
    let &[
        asked,
        submissions,
        approvals,
        releases,
        delivered,
        waiting,
        ended,
    ] = numbers.as_slice()
    else {
        return out.refused("seven numbers are wanted");
    };
    let summary = MakeSummary {
        asked: u32::try_from(asked).unwrap_or(u32::MAX),
        submissions,
        approvals,
        releases,
        delivered,
        waiting,
        ended,
    };
    let text = summary.text(alloc)?;
    out.given(text.as_slice())
}

pub fn turn_summary(alloc: Global, row: &str, out: &mut Answer) -> Result<(), NoMemory> {
    let numbers = numbers(alloc, row)?;
    let &[moment, accepted, categorised, delivered, waiting, ended] = numbers.as_slice() else {
        return out.refused("six numbers are wanted");
    };
    let summary = TurnSummary {
        moment,
        accepted,
        categorised,
        delivered,
        waiting,
        ended,
    };
    let text = summary.text(alloc)?;
    out.given(text.as_slice())
}
