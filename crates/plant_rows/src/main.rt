//! Calls of a script on standard input over plants in memory and in real folders, their logs, and the real ends.
//!
//! The files `stdin` and `stdout` beside `src/` are the script and what it must print. To add a case, write its answers from
//! what is meant, and not from a run. A line is a word and what it needs, and is printed back with its answer behind it. An
//! octet stands for itself, or as `\` and its two hexadecimal digits, in small letters. Words that follow others:
//!
//! - `memory OCTETS` begins with a plant in memory over this file, `records N` with one over a log of so many turns at the
//!   moment 7, and `files FOLDER` with a real one.
//! - `fail DIGITS` plans which calls fail, `fail-folder KEY HOW` how puts do, and `crash PICK LINE` follows a line on what a
//!   crash leaves.
//! - `open MOST` opens a log of so many octets at most, `append MOMENT` and `deliver NAME` append entries, and `entries`
//!   counts the entries that a log has.
//! - `moments SECONDS SECONDS` asks a clock in memory that has these moments three times.
//! - `images SHIFT` says whether images of a crash have one entry, and two; `damage OCTETS` changes and cuts a log at each
//!   octet.
#![tactic(auto)]

mod logs;
mod octets;
mod plants;
mod real;
mod stage;

use crate::stage::Stage;
use mail_names::{Bytes, NoMemory};
use std::io::{self, BufRead, BufReader, Write};

fn main(rt: HostRuntime) -> io::Result<()> {
    let alloc = rt.alloc();
    let mut stage = Stage::new(alloc);
    for line in BufReader::new(alloc, rt.reader())?.lines(alloc) {
        let line = line?;
        println!(rt; "{line}")?;
        let mut out = Bytes::new(alloc);
        match stage.follow(&rt, line.as_str(), &mut out) {
            Ok(()) => io::writer(&rt).write_all(out.as_slice())?,
            Err(NoMemory) => println!(rt; "no memory")?,
        }
    }
    Ok(())
}
