// Rows by their first word.
use crate::asked::first;
use crate::desk::{Block, Desk};
use crate::escapes::{add_count, unescaped};
use crate::reading_rows::{FORWARDS_HEADER, HEADER};
use crate::rule_rows::RULE;
use crate::wrong::Wrong;
use crate::{
    alone_rows, blocks, book_rows, directory_rows, fork_rows, group_rows, journal_rows,
    reading_rows, rule_rows, run_rows,
};
use org_directory::Directory;
use std::alloc::Global;

// Rows that ask of an object of the directory.
fn ask_object(
    alloc: Global,
    directory: &Directory,
    word: &str,
    row: &str,
    out: &mut String,
) -> Result<bool, Wrong> {
    match word {
        "size" => add_count(out, directory.len() as u64)?,
        "find" => directory_rows::find(alloc, directory, row, out)?,
        "members" => directory_rows::members(alloc, directory, row, out)?,
        "in-group" => directory_rows::in_group(alloc, directory, row, out)?,
        "needs-approval" => directory_rows::approval(alloc, directory, row, out)?,
        _ => return Ok(false),
    }
    Ok(true)
}

// Rows that ask for an expansion.
fn ask_expansion(
    alloc: Global,
    directory: &Directory,
    word: &str,
    row: &str,
    out: &mut String,
) -> Result<bool, Wrong> {
    match word {
        "expand" => group_rows::expanded(alloc, directory, row, out)?,
        "walk" => group_rows::walk(alloc, directory, row, out)?,
        "depths" => group_rows::depths(alloc, directory, row, out)?,
        _ => return Ok(false),
    }
    Ok(true)
}

// Rows that ask what a text reads to.
fn ask_text(
    alloc: Global,
    desk: &Desk,
    word: &str,
    row: &str,
    out: &mut String,
) -> Result<bool, Wrong> {
    let directory = &desk.directory;
    match word {
        "header" => reading_rows::records(alloc, "", row, out)?,
        "records" => reading_rows::records(alloc, HEADER, row, out)?,
        "forward-records" => reading_rows::records(alloc, FORWARDS_HEADER, row, out)?,
        "file" => reading_rows::file(alloc, directory, "", row, out)?,
        "rule" => reading_rows::file(alloc, directory, RULE, row, out)?,
        "check" => reading_rows::checked(alloc, HEADER, row, out)?,
        "check-forwards" => reading_rows::checked(alloc, FORWARDS_HEADER, row, out)?,
        "check-whole" => reading_rows::checked(alloc, "", row, out)?,
        _ => return Ok(false),
    }
    Ok(true)
}

// Rows that ask of rules.
fn ask_rules(
    alloc: Global,
    desk: &Desk,
    word: &str,
    row: &str,
    out: &mut String,
) -> Result<bool, Wrong> {
    match word {
        "word" => rule_rows::word(alloc, desk, row, out)?,
        "holds" => rule_rows::holds(alloc, desk, row, out)?,
        "applies" => rule_rows::rule(alloc, desk, row, out)?,
        "book" => book_rows::shown(out, &desk.book)?,
        "run" => run_rows::fates(alloc, desk, row, out)?,
        "run-alone" => alone_rows::fates(alloc, desk, row, out)?,
        "forks" => fork_rows::forked(alloc, desk, row, out)?,
        "texts" => run_rows::texts(alloc, row, out)?,
        "takes" => journal_rows::taken(alloc, desk, row, out)?,
        "journaled" => journal_rows::journaled(alloc, desk, row, out)?,
        _ => return Ok(false),
    }
    Ok(true)
}

fn ask(alloc: Global, desk: &Desk, word: &str, row: &str, out: &mut String) -> Result<bool, Wrong> {
    if ask_object(alloc, &desk.directory, word, row, out)? {
        return Ok(true);
    }
    if ask_expansion(alloc, &desk.directory, word, row, out)? {
        return Ok(true);
    }
    if ask_text(alloc, desk, word, row, out)? {
        return Ok(true);
    }
    ask_rules(alloc, desk, word, row, out)
}

// Adds a question with its answer.
fn add_answered(alloc: Global, desk: &Desk, line: &str, out: &mut String) -> Result<(), Wrong> {
    let (word, row) = first(line);
    out.push_str(line)?;
    out.push_str(" ->")?;
    if !ask(alloc, desk, word, row, out)? {
        return Err(Wrong::NoSuchRow);
    }
    out.push('\n')?;
    Ok(())
}

// Takes a row that isn't in a block.
fn take_row(alloc: Global, desk: &mut Desk, line: &str, out: &mut String) -> Result<(), Wrong> {
    if line == "directory" {
        return blocks::open(alloc, desk, Block::Directory);
    }
    if line == "forwards" {
        return blocks::open(alloc, desk, Block::Forwards);
    }
    if line == "rules" {
        return blocks::open(alloc, desk, Block::Rules);
    }
    if let Some(text) = line.strip_prefix("mail ") {
        desk.mail = unescaped(alloc, "", text)?;
        return Ok(());
    }
    if line.is_empty() || line.starts_with('#') {
        out.push_str(line)?;
        out.push('\n')?;
        return Ok(());
    }
    add_answered(alloc, desk, line, out)
}

fn take(alloc: Global, desk: &mut Desk, line: &str, out: &mut String) -> Result<(), Wrong> {
    match desk.block {
        None => take_row(alloc, desk, line, out),
        Some(block) if line == "end" => blocks::close(alloc, desk, block, out),
        Some(_) => blocks::add(alloc, &mut desk.text, line),
    }
}

/// What is printed of a line.
pub fn answer(alloc: Global, desk: &mut Desk, line: &str) -> Result<String, Wrong> {
    let mut out = String::new(alloc);
    match take(alloc, desk, line, &mut out) {
        Ok(()) => Ok(out),
        Err(Wrong::NoMemory) => Err(Wrong::NoMemory),
        Err(wrong) => {
            writeln!(out, " WRONG ROW: {wrong:?}")?;
            Ok(out)
        }
    }
}
