// Messages, their fields and edits.
ghost use Rattle.std.specs.Prelude.{◌≡◌};
ghost use Rattle.mail_message.specs.Lines.{is_printable};

use crate::octets::Answer;
use crate::row::{Fault, Row, cut};
use mail_message::{Message, Place, boundary_for, enclose};
use mail_names::Bytes;
use std::alloc::Global;

fn message(alloc: Global, bytes: &[u8]) -> Result<Message, Fault> {
    Message::read(alloc, bytes).map_err(|_| Fault::BadRow)
}

pub fn read(alloc: Global, row: &Row<'_>, out: &mut Answer) -> Result<(), Fault> {
    match Message::read(alloc, row.arg(0)) {
        Ok(message) => out.given(message.bytes(alloc)?.as_slice()),
        Err(fault) => out.refused(format!(in alloc; "{fault:?}")?.as_str()),
    }
}

pub fn field(alloc: Global, row: &Row<'_>, out: &mut Answer) -> Result<(), Fault> {
    let message = message(alloc, row.arg(1))?;
    match message.field(alloc, row.arg(0))? {
        Some(value) => out.given(value.as_slice()),
        None => out.refused("no such field"),
    }
}

pub fn plain(alloc: Global, row: &Row<'_>, out: &mut Answer) -> Result<(), Fault> {
    let message = message(alloc, row.arg(0))?;
    let plain: &[u8] = if message.is_plain(alloc)? {
        b"true"
    } else {
        b"false"
    };
    out.given(plain)
}

pub fn enclosed(alloc: Global, row: &Row<'_>, out: &mut Answer) -> Result<(), Fault> {
    out.given(enclose(alloc, row.arg(0), row.arg(1), row.arg(2))?.as_slice())
}

pub fn boundary(alloc: Global, row: &Row<'_>, out: &mut Answer) -> Result<(), Fault> {
    out.given(boundary_for(alloc, row.arg(0), row.arg(1))?.as_slice())
}

/// Edits the message of the first argument as the others say.
pub fn edit(alloc: Global, row: &Row<'_>, out: &mut Answer) -> Result<(), Fault> {
    let mut message = message(alloc, row.arg(0))?;
    for edit in row.args().iter().skip(1) {
        edit_once(alloc, &mut message, edit.as_slice())?;
    }
    out.given(message.bytes(alloc)?.as_slice())
}

fn edit_once(alloc: Global, message: &mut Message, edit: &[u8]) -> Result<(), Fault> {
    let (name, text) = cut(edit);
    match name {
        b"prepend" => prepend(alloc, message, text),
        b"remove" => Ok(message.remove_field(text)?),
        b"set" => set(alloc, message, text),
        b"before" => add(alloc, message, Place::Before, text),
        b"after" => add(alloc, message, Place::After, text),
        b"wrap" => Ok(message.wrap(alloc, text)?),
        _ => Err(Fault::BadRow),
    }
}

fn is_printable(text: &[u8]) -> bool
    ensures { result ≡ is_printable text.now }
{
    text.iter().all(|b| 32 <= *b && *b <= 126)
}

fn prepend(alloc: Global, message: &mut Message, text: &[u8]) -> Result<(), Fault> {
    if !is_printable(text) {
        return Err(Fault::BadRow);
    }
    Ok(message.prepend_subject(alloc, text)?)
}

// Sets one of the fields that rows name.
fn set(alloc: Global, message: &mut Message, text: &[u8]) -> Result<(), Fault> {
    let (name, value) = cut(text);
    if !is_printable(value) {
        return Err(Fault::BadRow);
    }
    match name {
        b"subject" => Ok(message.set_field(alloc, b"subject", value)?),
        b"Message-Id" => Ok(message.set_field(alloc, b"Message-Id", value)?),
        _ => Err(Fault::BadRow),
    }
}

fn add(alloc: Global, message: &mut Message, place: Place, text: &[u8]) -> Result<(), Fault> {
    if !message.is_plain(alloc)? {
        return Err(Fault::BadRow);
    }
    Ok(message.add_text(alloc, place, text)?)
}
