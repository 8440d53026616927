//! What words mean, and the load of `make` with the summary lines, row by row.
//!
//! A row on standard input is a call and its arguments. It is printed back, and its answer behind it: `=` before what is
//! given, `!` before a refusal. To add a row, write its answer from what is meant, and not from a run.
//!
//! - `read WORD|WORD` reads these words, and `read` alone reads none. A word is all that stands between two `|`.
//! - `directory`, `rules`, `moderator` and `moment` are the load's, and `submission I` is its submission I.
//! - `make ASKED SUBMISSIONS APPROVALS RELEASES DELIVERED WAITING ENDED` and `turn MOMENT ACCEPTED CATEGORISED DELIVERED
//!   WAITING ENDED` are summary lines.
//! - Octets of an answer are written as they are, or as `\r`, `\n` or `\xNN`, in a new line behind each `\n`.
//! - A line that is empty or begins with `#` is only printed back.
#![tactic(auto)]

mod load;
mod octets;
mod words;

use crate::octets::Answer;
use mail_names::NoMemory;
use std::alloc::Global;
use std::io::{self, Write};

fn answer(alloc: Global, call: &str, rest: &str, out: &mut Answer) -> Result<(), NoMemory> {
    match call {
        "read" => words::read_row(alloc, rest, out),
        "directory" => out.given(make_load::directory()),
        "rules" => out.given(make_load::rules()),
        "moderator" => load::moderator(alloc, out),
        "moment" => load::moment(alloc, out),
        "submission" => load::submission(alloc, rest, out),
        "make" => load::make_summary(alloc, rest, out),
        "turn" => load::turn_summary(alloc, rest, out),
        _ => out.refused("no such call"),
    }
}

fn answered(alloc: Global, line: &str) -> Result<Answer, NoMemory> {
    let mut out = Answer::new(alloc);
    if line.is_empty() || line.starts_with('#') {
        return Ok(out);
    }
    match line.split_once(' ') {
        Some((call, rest)) => answer(alloc, call, rest, &mut out)?,
        None if line == "read" => words::read_none(alloc, &mut out)?,
        None => answer(alloc, line, "", &mut out)?,
    }
    Ok(out)
}

fn main(rt: HostRuntime) -> io::Result<()> {
    let alloc = rt.alloc();
    for line in rt.lines(alloc) {
        let line = line?;
        println!(rt; "{line}")?;
        match answered(alloc, line.as_str()) {
            Ok(out) => io::writer(&rt).write_all(out.as_slice())?,
            Err(NoMemory) => println!(rt; "! no memory")?,
        }
    }
    Ok(())
}
