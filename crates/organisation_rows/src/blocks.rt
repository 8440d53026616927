// Blocks, which have a directory or a rule book in lines.
use crate::asked::first;
use crate::desk::{Block, Desk};
use crate::escapes::{add_unescaped, unescaped};
use crate::reading_rows::{FORWARDS_HEADER, HEADER, add_directory_verdict, add_rules_verdict};
use crate::wrong::Wrong;
use mail_names::Bytes;
use org_directory::Directory;
use rule_terms::read_rules;
use std::alloc::Global;

/// Opens a block.
pub fn open(alloc: Global, desk: &mut Desk, block: Block) -> Result<(), Wrong> {
    let header = match block {
        Block::Directory => HEADER,
        Block::Forwards => FORWARDS_HEADER,
        Block::Rules => "",
    };
    desk.text = Bytes::of(alloc, header.as_bytes())?;
    desk.block = Some(block);
    Ok(())
}

fn has_number(part: &str) -> bool {
    part.contains("\\#") || part.contains("\\+")
}

fn repeat_same(alloc: Global, text: &mut Bytes, part: &str, count: u32) -> Result<(), Wrong> {
    let piece = unescaped(alloc, "", part)?;
    for _ in 0..count {
        text.add(piece.as_slice())?;
    }
    Ok(())
}

// Adds a text again and again.
fn repeat(alloc: Global, text: &mut Bytes, row: &str) -> Result<(), Wrong> {
    let (count, part) = first(row);
    let count = count.parse::<u32>().ok().ok_or(Wrong::NoCount)?;
    if !has_number(part) {
        return repeat_same(alloc, text, part, count);
    }
    for n in 0..count {
        add_unescaped(alloc, text, part, n)?;
    }
    Ok(())
}

/// Adds a line to the block.
pub fn add(alloc: Global, text: &mut Bytes, line: &str) -> Result<(), Wrong> {
    if let Some(row) = line.strip_prefix("repeat ") {
        return repeat(alloc, text, row);
    }
    add_unescaped(alloc, text, line, 0)?;
    text.add(b"\n")?;
    Ok(())
}

fn take_directory(alloc: Global, desk: &mut Desk, out: &mut String) -> Result<(), Wrong> {
    let read = Directory::read_csv(alloc, desk.text.as_slice());
    out.push_str("directory ->")?;
    add_directory_verdict(out, &read)?;
    if let Ok(directory) = read {
        desk.directory = directory;
    }
    Ok(())
}

fn take_rules(alloc: Global, desk: &mut Desk, out: &mut String) -> Result<(), Wrong> {
    let read = read_rules(alloc, desk.text.as_slice(), &desk.directory);
    out.push_str("rules ->")?;
    add_rules_verdict(out, &read)?;
    if let Ok(book) = read {
        desk.book = book;
    }
    Ok(())
}

/// Closes the block, and takes what its lines say.
pub fn close(alloc: Global, desk: &mut Desk, block: Block, out: &mut String) -> Result<(), Wrong> {
    desk.block = None;
    match block {
        Block::Directory | Block::Forwards => take_directory(alloc, desk, out)?,
        Block::Rules => take_rules(alloc, desk, out)?,
    }
    out.push('\n')?;
    Ok(())
}
