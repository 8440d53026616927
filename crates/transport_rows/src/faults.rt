// Sessions that disk faults meet, and what crashes leave of them.
use crate::answer::{Answer, Fault, number};
use crate::mails::talk;
use mail_names::{Bytes, ItemName, Key};
use mail_transport::Status;
use plant_dev::{MemoryPlant, Plant};
use std::alloc::Global;
use std::str;

/// How many images of a crash are opened.
const IMAGES: u64 = 16;

/// More calls than a session makes.
const MANY: u64 = 4096;

/// A session whose messages go to each of these folders.
#[derive(Drop)]
pub struct Load {
    pub moment: u64,
    pub said: Bytes,
    pub folders: Vec<Key>,
}

/// What the session leaves where nothing fails.
#[derive(Drop)]
struct Whole {
    plant: MemoryPlant,
    replies: Answer,
}

/// What a crash left.
#[derive(Clone, Copy, PartialEq, Eq)]
enum Left {
    /// Each item once, when all is sent again.
    Once,
    NotOpened,
    /// A message that was told 250 isn't there once.
    NotKept,
    /// Not all is accepted when it is sent again.
    NotTaken,
    /// The folders have other items than those of a session without a fault.
    Other,
}

impl Left {
    fn text(self) -> &'static str {
        match self {
            Left::Once => "once",
            Left::NotOpened => "not opened",
            Left::NotKept => "not kept",
            Left::NotTaken => "not taken",
            Left::Other => "other items",
        }
    }
}

// Plans so many calls more.
fn plan(fails: &mut Bytes, count: u64, octet: u8) -> Result<(), Fault> {
    for _ in 0..count {
        fails.add(&[octet])?;
    }
    Ok(())
}

// This call fails, and all do from so many calls later on.
fn planned(alloc: Global, call: u64, gap: u64) -> Result<Bytes, Fault> {
    let mut fails = Bytes::new(alloc);
    plan(&mut fails, call, 0)?;
    plan(&mut fails, 1, 1)?;
    plan(&mut fails, gap.saturating_sub(1), 0)?;
    plan(&mut fails, MANY, 1)?;
    Ok(fails)
}

// Says this to the program, and gives what it is told.
fn say(
    alloc: Global,
    plant: &mut MemoryPlant,
    moment: u64,
    said: &[u8],
    replies: &mut Answer,
) -> Result<bool, Fault> {
    let said = Bytes::of(alloc, said)?;
    let status = talk(alloc, plant, moment, said, 4096, replies)?;
    Ok(status == Status::Done)
}

// The number that this reply accepts a message by.
fn number_of(reply: &str) -> Option<u64> {
    reply.strip_prefix("S: 250 Accepted ")?.parse::<u64>().ok()
}

fn text_of(replies: &Answer) -> &str {
    str::from_utf8(replies.as_slice()).unwrap_or("")
}

// How many messages these replies accept.
fn accepted(replies: &Answer) -> u64 {
    let mut count = 0u64;
    for reply in text_of(replies).split('\n') {
        if number_of(reply).is_some() {
            count = count.saturating_add(1);
        }
    }
    count
}

// Whether one of these items is of this submission, and no other is.
fn has_one(names: &[ItemName], number: u64) -> bool {
    let mut is_found = false;
    for name in names {
        if name.submission == number {
            if is_found {
                return false;
            }
            is_found = true;
        }
    }
    is_found
}

// Whether one of these items is of each submission that these replies accept, and no other is.
fn has_each(names: &[ItemName], replies: &Answer) -> bool {
    for reply in text_of(replies).split('\n') {
        if let Some(number) = number_of(reply) {
            if !has_one(names, number) {
                return false;
            }
        }
    }
    true
}

// Whether each folder has what these replies accept.
fn keeps(
    alloc: Global,
    plant: &mut MemoryPlant,
    folders: &[Key],
    replies: &Answer,
) -> Result<bool, Fault> {
    for folder in folders {
        let names = plant.list(alloc, folder)?;
        if !has_each(&names, replies) {
            return Ok(false);
        }
    }
    Ok(true)
}

// How many of these items have this text.
fn count_of(
    alloc: Global,
    plant: &mut MemoryPlant,
    folder: &Key,
    names: &[ItemName],
    text: &Bytes,
) -> Result<u64, Fault> {
    let mut count = 0u64;
    for name in names {
        let item = plant.fetch(alloc, folder, name)?.ok_or(Fault::NoRow)?;
        if item.same(text) {
            count = count.saturating_add(1);
        }
    }
    Ok(count)
}

// Whether a folder has the items of another plant's, each once and under any name, and no others.
fn is_same(
    alloc: Global,
    plant: &mut MemoryPlant,
    other: &mut MemoryPlant,
    folder: &Key,
) -> Result<bool, Fault> {
    let names = plant.list(alloc, folder)?;
    let wanted = other.list(alloc, folder)?;
    for name in &wanted {
        let text = other.fetch(alloc, folder, name)?.ok_or(Fault::NoRow)?;
        if count_of(alloc, plant, folder, &names, &text)? != 1 {
            return Ok(false);
        }
    }
    Ok(names.len() == wanted.len())
}

fn are_same(
    alloc: Global,
    plant: &mut MemoryPlant,
    other: &mut MemoryPlant,
    folders: &[Key],
) -> Result<bool, Fault> {
    for folder in folders {
        if !is_same(alloc, plant, other, folder)? {
            return Ok(false);
        }
    }
    Ok(true)
}

// Sends all again to what a crash left of a session that was told this.
fn sent_again(
    alloc: Global,
    load: &Load,
    told: &Answer,
    whole: &mut Whole,
    image: &mut MemoryPlant,
) -> Result<Left, Fault> {
    let mut replies = Answer::new(alloc);
    if !say(alloc, image, load.moment, b"QUIT\r\n", &mut replies)? {
        return Ok(Left::NotOpened);
    }
    if !keeps(alloc, image, &load.folders, told)? {
        return Ok(Left::NotKept);
    }
    let said = load.said.as_slice();
    let ended = say(alloc, image, load.moment, said, &mut replies)?;
    if !ended || accepted(&replies) != accepted(&whole.replies) {
        return Ok(Left::NotTaken);
    }
    if !are_same(alloc, image, &mut whole.plant, &load.folders)? {
        return Ok(Left::Other);
    }
    Ok(Left::Once)
}

// Runs the session over an empty plant with these failures, and opens what crashes leave.
fn crashed(alloc: Global, load: &Load, fails: Bytes, whole: &mut Whole) -> Result<Left, Fault> {
    let mut plant = MemoryPlant::new(alloc, Bytes::new(alloc));
    plant.fail_calls(fails);
    let mut told = Answer::new(alloc);
    say(
        alloc,
        &mut plant,
        load.moment,
        load.said.as_slice(),
        &mut told,
    )?;
    for image in 0..IMAGES {
        // the same two choices over and over: 0 nothing, 1 the first half, 2 or 3 the whole of a write
        let mut image = plant.crash(image.wrapping_mul(0x1111_1111_1111_1111))?;
        let left = sent_again(alloc, load, &told, whole, &mut image)?;
        if left != Left::Once {
            return Ok(left);
        }
    }
    Ok(Left::Once)
}

// Whether the session meets no fault where this call and those behind it fail.
fn is_past(alloc: Global, load: &Load, call: u64, whole: &mut Whole) -> Result<bool, Fault> {
    let mut plant = MemoryPlant::new(alloc, Bytes::new(alloc));
    plant.fail_calls(planned(alloc, call, 1)?);
    let mut told = Answer::new(alloc);
    let said = load.said.as_slice();
    let ended = say(alloc, &mut plant, load.moment, said, &mut told)?;
    if !ended || told.as_slice() != whole.replies.as_slice() {
        return Ok(false);
    }
    // what is left fails no call
    let mut left = plant.crash(0)?;
    are_same(alloc, &mut left, &mut whole.plant, &load.folders)
}

// The session where nothing fails.
fn whole_of(alloc: Global, load: &Load) -> Result<Whole, Fault> {
    let mut plant = MemoryPlant::new(alloc, Bytes::new(alloc));
    let mut replies = Answer::new(alloc);
    let said = load.said.as_slice();
    say(alloc, &mut plant, load.moment, said, &mut replies)?;
    Ok(Whole { plant, replies })
}

// Adds what the session leaves where nothing fails.
fn add_whole(
    alloc: Global,
    whole: &mut Whole,
    folders: &[Key],
    out: &mut Answer,
) -> Result<(), Fault> {
    let count = accepted(&whole.replies);
    let line = format!(in alloc; "{count} accepted")?;
    out.line(line.as_str())?;
    for folder in folders {
        let names = whole.plant.list(alloc, folder)?;
        let line = format!(in alloc; "{} items", names.len())?;
        out.line(line.as_str())?;
    }
    Ok(())
}

// Adds a line for each of so many calls: that call fails and, from a gap of calls later on, all do.
fn add_gap(
    alloc: Global,
    load: &Load,
    calls: u64,
    gap: u64,
    whole: &mut Whole,
    out: &mut Answer,
) -> Result<(), Fault> {
    let line = format!(in alloc; "gap {gap}")?;
    out.line(line.as_str())?;
    for call in 0..calls {
        let left = crashed(alloc, load, planned(alloc, call, gap)?, whole)?;
        let text = left.text();
        let line = format!(in alloc; "{call}: {text}")?;
        out.line(line.as_str())?;
    }
    Ok(())
}

/// Adds what becomes of a session over an empty plant: where nothing fails, and with failures from each of so many calls on.
pub fn add_faults(
    alloc: Global,
    load: &Load,
    calls: u64,
    gaps: &str,
    out: &mut Answer,
) -> Result<(), Fault> {
    let mut whole = whole_of(alloc, load)?;
    add_whole(alloc, &mut whole, &load.folders, out)?;
    for gap in gaps.split(',') {
        add_gap(alloc, load, calls, number(gap)?, &mut whole, out)?;
    }
    let past = is_past(alloc, load, calls, &mut whole)?;
    out.line(if past { "no more calls" } else { "more calls" })
}
