// What becomes of a head, as text.
ghost use Rattle.std.specs.Prelude.{◌<◌};

use crate::pieces::head_in_pieces;
use http_head::{Deed, Head, HeadFault, Routes, deed_of, read_head};
use mail_names::{Bytes, Key, NoMemory};
use moderation::Verdict;
use std::alloc::Global;
use std::str;

// How many octets may be read for each octet of a head.
const MOST_READ: u64 = 75;

fn status_of(fault: HeadFault) -> u16 {
    match fault {
        HeadFault::BadRequest => 400,
        HeadFault::NotFound => 404,
        HeadFault::WrongMethod => 405,
        HeadFault::NoLength => 411,
        HeadFault::TooLarge => 413,
    }
}

fn key_text(key: &Key) -> &str {
    str::from_utf8(key.bytes()).unwrap_or("no UTF-8")
}

// Adds what is asked, which the path tells.
fn add_deed(alloc: Global, out: &mut Bytes, deed: &Deed) -> Result<(), NoMemory> {
    let text = match deed {
        Deed::Queue => return out.add(b"show the queue"),
        Deed::Approvals => return out.add(b"show the approvals"),
        Deed::Ended => return out.add(b"show what ended"),
        Deed::Directory => return out.add(b"put a directory"),
        Deed::Rules => return out.add(b"put rules"),
        Deed::Turn => return out.add(b"turn"),
        Deed::Stop => return out.add(b"stop"),
        Deed::Folder { folder } => format!(in alloc; "list {}", key_text(folder))?,
        Deed::Item { folder, name } => {
            out.add(b"show ")?;
            out.add(name.text(alloc)?.as_slice())?;
            format!(in alloc; " of {}", key_text(folder))?
        }
        Deed::Decide {
            approval,
            verdict,
            by,
        } => {
            let word = match verdict {
                Verdict::Approve => "approve",
                Verdict::Reject => "reject",
            };
            out.add(approval.text(alloc)?.as_slice())?;
            format!(in alloc; ": {word} by {}", key_text(by))?
        }
    };
    out.add(text.as_bytes())
}

// Adds what becomes of a text's head.
fn add_head(alloc: Global, out: &mut Bytes, routes: &Routes, text: &[u8]) -> Result<(), NoMemory> {
    match read_head(routes, text) {
        Head::Open => out.add(b"open\n"),
        Head::Refused { fault } => {
            let text = format!(in alloc; "refused: {}\n", status_of(fault))?;
            out.add(text.as_bytes())
        }
        Head::Whole {
            routed,
            target_start,
            target_end,
            body_start,
        } => {
            match deed_of(alloc, routed.route, &text[target_start..target_end])? {
                Some(deed) => add_deed(alloc, out, &deed)?,
                None => return out.add(b"refused: 404\n"),
            }
            let length = routed.body_length;
            let behind = text.len().saturating_sub(body_start);
            let text = format!(in alloc; "; {length} octets of body, {behind} behind the head\n")?;
            out.add(text.as_bytes())
        }
    }
}

// Adds a line where pieces of this length give another answer, or cost too much.
fn compare(
    alloc: Global,
    out: &mut Bytes,
    routes: &Routes,
    text: &[u8],
    piece: usize,
) -> Result<(), NoMemory>
    requires { 0 < piece }
{
    let (head, octets) = head_in_pieces(routes, text, piece);
    if head != read_head(routes, text) {
        let text = format!(in alloc; "pieces of {piece} give {head:?}\n")?;
        out.add(text.as_bytes())?;
    }
    if octets > MOST_READ.saturating_mul(text.len() as u64) {
        let text = format!(in alloc; "pieces of {piece} take {octets} octets to read\n")?;
        out.add(text.as_bytes())?;
    }
    Ok(())
}

/// Adds what becomes of the head at the front of this text.
pub fn tell(alloc: Global, routes: &Routes, text: &[u8], out: &mut Bytes) -> Result<(), NoMemory> {
    add_head(alloc, out, routes, text)?;
    compare(alloc, out, routes, text, 1)?;
    compare(alloc, out, routes, text, 7)
}
