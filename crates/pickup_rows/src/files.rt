// Files, and what they stand for.
use crate::octets::Answer;
use crate::row::{Fault, Row, number};
use mail_names::{Bytes, Key};
use mail_submission::Submission;
use pickup_box::{PickupBad, bad_name, begun_name, begun_stem, new_stem, order_of, pickup_of};
use std::alloc::Global;

fn add_key(line: &mut Bytes, key: &Key) -> Result<(), Fault> {
    line.add(b" ")?;
    line.add(key.bytes())?;
    Ok(())
}

// From whom a submission is, and to whom, and then its octets.
fn sent(alloc: Global, submission: &Submission, out: &mut Answer) -> Result<(), Fault> {
    let mut line = Bytes::of(alloc, b"from")?;
    if let Some(sender) = submission.reverse() {
        add_key(&mut line, sender)?;
    }
    line.add(b" to")?;
    for key in submission.recipients() {
        add_key(&mut line, key)?;
    }
    out.given(line.as_slice())?;
    out.given(submission.bytes())
}

pub fn submission(alloc: Global, row: &Row<'_>, out: &mut Answer) -> Result<(), Fault> {
    match pickup_of(alloc, Bytes::of(alloc, b"a.1.tmp")?, row.arg(0)) {
        Ok(submission) => sent(alloc, &submission, out),
        Err(PickupBad::Bad) => out.refused("Bad"),
        Err(PickupBad::NoMemory) => Err(Fault::NoMemory),
    }
}

// How many octets the message of a file has.
pub fn size(alloc: Global, row: &Row<'_>, out: &mut Answer) -> Result<(), Fault> {
    match pickup_of(alloc, Bytes::of(alloc, b"a.1.tmp")?, row.arg(0)) {
        Ok(submission) => {
            let octets = submission.bytes().len();
            let keys = submission.recipients().len();
            out.given(format!(in alloc; "{octets} octets to {keys}")?.as_bytes())
        }
        Err(PickupBad::Bad) => out.refused("Bad"),
        Err(PickupBad::NoMemory) => Err(Fault::NoMemory),
    }
}

pub fn order(alloc: Global, row: &Row<'_>, out: &mut Answer) -> Result<(), Fault> {
    let names = order_of(alloc, row.args())?;
    for name in &names {
        out.given(name.as_slice())?;
    }
    if names.is_empty() {
        out.refused("none")?;
    }
    Ok(())
}

pub fn stem(row: &Row<'_>, out: &mut Answer) -> Result<(), Fault> {
    match begun_stem(row.arg(0)) {
        Some(stem) => out.given(stem),
        None => match new_stem(row.arg(0)) {
            Some(stem) => out.given(stem),
            None => out.refused("another name"),
        },
    }
}

pub fn later_names(alloc: Global, row: &Row<'_>, out: &mut Answer) -> Result<(), Fault> {
    out.given(begun_name(alloc, row.arg(0), number(row.arg(1)))?.as_slice())?;
    out.given(bad_name(alloc, row.arg(0))?.as_slice())
}
