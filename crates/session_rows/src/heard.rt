// The events of a dialogue.
ghost use Rattle.std.specs.Prelude.{◌<◌};

use mail_names::{Bytes, NoMemory};
use smtp_front::{Dialog, Event};
use std::alloc::Global;
use std::str;

fn add_octets(alloc: Global, out: &mut Bytes, kind: &str, bytes: &[u8]) -> Result<(), NoMemory> {
    let octets = str::from_utf8(bytes).unwrap_or("no UTF-8");
    let text = format!(in alloc; "{kind} {octets:?}\n")?;
    out.add(text.as_bytes())
}

// Adds an event, and says whether a content is to follow.
fn add_event(alloc: Global, out: &mut Bytes, event: &Event) -> Result<bool, NoMemory> {
    match event {
        Event::Line { bytes } => {
            add_octets(alloc, out, "line", bytes.as_slice())?;
            Ok(bytes.as_slice() == b"DATA".as_slice())
        }
        Event::Content { bytes } => {
            add_octets(alloc, out, "content", bytes.as_slice())?;
            Ok(false)
        }
        _ => {
            out.add(b"something else\n")?;
            Ok(false)
        }
    }
}

// Adds the events that a dialogue holds.
fn drain(alloc: Global, dialog: &mut Dialog, out: &mut Bytes) -> Result<(), NoMemory> {
    for _ in 0..u64::MAX {
        let Some(event) = dialog.next(alloc)? else {
            return Ok(());
        };
        if add_event(alloc, out, &event)? {
            dialog.await_content();
        }
    }
    Ok(())
}

// What is heard of pieces of this length.
fn heard(alloc: Global, said: &[u8], piece: usize) -> Result<Bytes, NoMemory>
    requires { 0 < piece }
{
    let mut dialog = Dialog::new(alloc)?;
    let mut out = Bytes::new(alloc);
    for bytes in said.chunks(piece) {
        dialog.feed(bytes)?;
        drain(alloc, &mut dialog, &mut out)?;
    }
    Ok(out)
}

/// Adds the events, where they are the same in pieces of each length.
pub fn hear(alloc: Global, said: &[u8], out: &mut Bytes) -> Result<(), NoMemory> {
    let wanted = heard(alloc, said, 4096)?;
    out.add(wanted.as_slice())?;
    for piece in 1..65 {
        if !heard(alloc, said, piece)?.same(&wanted) {
            let text = format!(in alloc; "pieces of {piece} give other events\n")?;
            out.add(text.as_bytes())?;
        }
    }
    Ok(())
}
