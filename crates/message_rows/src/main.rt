//! What the words, approvals, messages, journal reports and notices answer, row by row.
//!
//! A row on standard input names a call and its arguments, as `Key::read ab@` or `boundary_for x | --=_hub_0`. It is
//! printed back, and its answer behind it: `=` before what is given, `!` before a refusal. The files `stdin` and
//! `stdout` beside `src/` are the rows and what they must print.
//!
//! To add a row, write it into `stdin`, and with its answer into `stdout`. The answer is to come from the standard or
//! from what is meant, and not from a run.
//! - `|` stands between arguments, and spaces at their ends don't count. Many calls name an argument by its first word.
//! - A line that begins with a space goes on with the row above it.
//! - `\r`, `\n`, `\t` and `\xNN` are octets, and `\{N}x` is N times the octet behind it. Octets in an answer are written
//!   the same way, and it goes on in a new line behind each `\n`.
//! - A line that is empty or begins with `#` is only printed back.
#![tactic(auto)]

mod approvals;
mod messages;
mod names;
mod notices;
mod octets;
mod reports;
mod row;

use crate::octets::Answer;
use crate::row::{Fault, Row, read_row};
use std::alloc::Global;
use std::io::{self, BufRead, BufReader, Write};

fn answer(alloc: Global, row: &Row<'_>, out: &mut Answer) -> Result<(), Fault> {
    match row.call {
        "Key::read" => names::key(alloc, row, out),
        "ItemName::read" => names::read_item_name(alloc, row, out),
        "ApprovalName::read" => names::read_approval_name(alloc, row, out),
        "ItemName::cmp" => names::item_order(alloc, row, out),
        "ApprovalName::cmp" => names::approval_order(alloc, row, out),
        "date_text" => names::date(alloc, row, out),
        "Approval::decide" => approvals::decisions(alloc, row, out),
        "Message::read" => messages::read(alloc, row, out),
        "Message::field" => messages::field(alloc, row, out),
        "Message::is_plain" => messages::plain(alloc, row, out),
        "Message::edit" => messages::edit(alloc, row, out),
        "boundary_for" => messages::boundary(alloc, row, out),
        "enclose" => messages::enclosed(alloc, row, out),
        "why" => reports::why_row(alloc, row, out),
        "report" => reports::report_row(alloc, row, out),
        "read_report" => reports::read_report_row(alloc, row, out),
        "notice" => notices::notice_row(alloc, row, out),
        "About::of" => notices::about_row(alloc, row, out),
        _ => Err(Fault::BadRow),
    }
}

// The answer to a row as printed.
fn answered(alloc: Global, text: &str) -> Result<Answer, Fault> {
    let mut out = Answer::new(alloc);
    if text.is_empty() || text.starts_with('#') {
        return Ok(out);
    }
    let row = read_row(alloc, text)?;
    match answer(alloc, &row, &mut out) {
        Err(Fault::BadRow) => out.refused("this row can't be read")?,
        Err(Fault::NoMemory) => return Err(Fault::NoMemory),
        Ok(()) => {}
    }
    Ok(out)
}

fn print_answer(rt: &impl Print, alloc: Global, row: &str) -> io::Result<()> {
    match answered(alloc, row) {
        Ok(out) => io::writer(rt).write_all(out.as_slice()),
        Err(_) => println!(rt; "! no memory"),
    }
}

fn main(rt: HostRuntime) -> io::Result<()> {
    let alloc = rt.alloc();
    let mut row = String::new(alloc);
    for line in BufReader::new(alloc, rt.reader())?.lines(alloc) {
        let line = line?;
        if !line.starts_with(' ') {
            print_answer(&rt, alloc, row.as_str())?;
            row.clear();
        }
        println!(rt; "{line}")?;
        row.push_str(line.trim_start())?;
    }
    print_answer(&rt, alloc, row.as_str())
}
