// What a session told.
ghost use Rattle.std.specs.Prelude.{◌<◌};

use crate::answers::Answers;
use crate::scene::Scene;
use mail_names::{Bytes, NoMemory};
use mail_submission::Submission;
use port_io::{MemoryClock, MemorySink, MemorySource};
use smtp_front::session;
use std::alloc::Global;
use std::str;

// The most octets that are printed of a message.
const SHOWN: usize = 100;

fn add_reply(alloc: Global, out: &mut Bytes, line: &str, count: u64) -> Result<(), NoMemory> {
    let text = match count {
        0 => return Ok(()),
        1 => format!(in alloc; "S: {line}\n")?,
        _ => format!(in alloc; "S: {line} ({count} times)\n")?,
    };
    out.add(text.as_bytes())
}

// Adds a line for each reply, or for as many that are the same.
fn add_replies(alloc: Global, out: &mut Bytes, replies: &[u8]) -> Result<(), NoMemory> {
    let replies = str::from_utf8(replies).unwrap_or("no UTF-8");
    let mut last = "";
    let mut count = 0u64;
    for line in replies.split_terminator("\r\n") {
        if line == last {
            count = count.saturating_add(1);
        } else {
            add_reply(alloc, out, last, count)?;
            last = line;
            count = 1;
        }
    }
    add_reply(alloc, out, last, count)
}

fn text_of(bytes: &[u8]) -> &str {
    str::from_utf8(bytes).unwrap_or("no UTF-8")
}

// Adds what a submission is.
fn add_submission(alloc: Global, out: &mut Bytes, last: &Submission) -> Result<(), NoMemory> {
    let sender = match last.reverse() {
        Some(key) => text_of(key.bytes()),
        None => "nobody",
    };
    let first = match last.recipients().first() {
        Some(key) => text_of(key.bytes()),
        None => "nobody",
    };
    let count = last.recipients().len();
    let size = last.bytes().len();
    let text = format!(in alloc;
        "the last from {sender} to {count}, first {first}: {size} octets\n"
    )?;
    out.add(text.as_bytes())?;
    if size <= SHOWN {
        let text = format!(in alloc; "{:?}\n", text_of(last.bytes()))?;
        out.add(text.as_bytes())?;
    }
    Ok(())
}

// What a session in pieces of this length tells.
fn told(alloc: Global, scene: &Scene, piece: usize) -> Result<Bytes, NoMemory>
    requires { 0 < piece }
{
    let said = Bytes::of(alloc, scene.said.as_slice())?;
    let fails = Bytes::of(alloc, scene.source.as_slice())?;
    let mut source = MemorySource::new(said, piece, fails);
    let mut sink = MemorySink::new(alloc, Bytes::of(alloc, scene.sink.as_slice())?);
    let mut clock = MemoryClock::new(Vec::new(alloc));
    let mut intake = Answers::read(alloc, text_of(scene.answers.as_slice()))?;
    let end = session(alloc, &mut intake, &mut source, &mut sink, &mut clock);
    let mut out = Bytes::new(alloc);
    add_replies(alloc, &mut out, sink.bytes())?;
    let text = format!(in alloc; "{end:?}, asked {}\n", intake.asked())?;
    out.add(text.as_bytes())?;
    if let Some(last) = intake.last() {
        add_submission(alloc, &mut out, last)?;
    }
    Ok(out)
}

// Adds a line where pieces of this length tell something else.
fn compare(
    alloc: Global,
    scene: &Scene,
    piece: usize,
    wanted: &Bytes,
    out: &mut Bytes,
) -> Result<(), NoMemory>
    requires { 0 < piece }
{
    if told(alloc, scene, piece)?.same(wanted) {
        return Ok(());
    }
    let text = format!(in alloc; "pieces of {piece} tell something else\n")?;
    out.add(text.as_bytes())
}

/// Adds what a session tells, in pieces of this length or of many.
pub fn tell(
    alloc: Global,
    scene: &Scene,
    piece: Option<usize>,
    out: &mut Bytes,
) -> Result<(), NoMemory> {
    let most = match piece {
        Some(piece) => piece.max(1),
        None => 4096,
    };
    let wanted = told(alloc, scene, most)?;
    out.add(wanted.as_slice())?;
    if piece.is_none() {
        for piece in 1..65 {
            compare(alloc, scene, piece, &wanted, out)?;
        }
    }
    Ok(())
}
