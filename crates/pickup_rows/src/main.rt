//! What the pickup folder and its files answer, row by row.
//!
//! A row on standard input names a call and its arguments, as `order_of a.eml | b.1.tmp`. It is printed back, and its answer
//! behind it: `=` before what is given, `!` before a refusal. The files `stdin` and `stdout` beside `src/` are the rows and
//! what they must print, and `data/` has the folder that they are about.
//!
//! To add a row, write it into `stdin`, and with its answer into `stdout`. The answer is to come from what is meant, and not
//! from a run.
//! - `|` stands between arguments, and spaces at their ends don't count.
//! - A line that begins with a space goes on with the row above it.
//! - `\r`, `\n`, `\t` and `\xNN` are octets, and `\{N}x` is N times the octet behind it. Octets in an answer are written
//!   the same way, and it goes on in a new line behind each `\n`.
//! - A line that is empty or begins with `#` is only printed back.
#![tactic(auto)]

mod desk;
mod files;
mod folders;
mod octets;
mod row;
mod takes;

use crate::octets::Answer;
use crate::row::{Fault, Row, read_row};
use std::alloc::Global;
use std::io::{self, BufRead, BufReader, Write};
use std::rt::Files;

fn answer(rt: &impl Files, alloc: Global, row: &Row<'_>, out: &mut Answer) -> Result<(), Fault> {
    match row.call {
        "pickup_of" => files::submission(alloc, row, out),
        "size" => files::size(alloc, row, out),
        "order_of" => files::order(alloc, row, out),
        "stem" => files::stem(row, out),
        "later_names" => files::later_names(alloc, row, out),
        "take_files" => takes::take(alloc, row, out),
        "take_many" => takes::take_many(alloc, row, out),
        "take_failing" => takes::take_failing(alloc, row, out),
        "take_real" => takes::take_real(rt, alloc, row, out),
        "FileDir" => folders::folder(rt, alloc, row, out),
        _ => Err(Fault::BadRow),
    }
}

// The answer to a row as printed.
fn answered(rt: &impl Files, alloc: Global, text: &str) -> Result<Answer, Fault> {
    let mut out = Answer::new(alloc);
    if text.is_empty() || text.starts_with('#') {
        return Ok(out);
    }
    let row = read_row(alloc, text)?;
    match answer(rt, alloc, &row, &mut out) {
        Err(Fault::BadRow) => out.refused("this row can't be read")?,
        Err(Fault::NoMemory) => return Err(Fault::NoMemory),
        Ok(()) => {}
    }
    Ok(out)
}

fn print_answer(rt: &(impl Files + Print), alloc: Global, row: &str) -> io::Result<()> {
    match answered(rt, alloc, row) {
        Ok(out) => io::writer(rt).write_all(out.as_slice()),
        Err(_) => println!(rt; "! no memory"),
    }
}

fn main(rt: HostRuntime) -> io::Result<()> {
    let alloc = rt.alloc();
    let mut row = String::new(alloc);
    for line in BufReader::new(alloc, rt.reader())?.lines(alloc) {
        let line = line?;
        if !line.starts_with(' ') {
            print_answer(&rt, alloc, row.as_str())?;
            row.clear();
        }
        println!(rt; "{line}")?;
        row.push_str(line.trim_start())?;
    }
    print_answer(&rt, alloc, row.as_str())
}
