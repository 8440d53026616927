//! Rows on standard input, each printed as what it is by the form of the hub's log.
//!
//! A row is a word and what it needs, and its answer stands at the same place in `stdout`:
//!
//! - `# WORDS` is printed as it is.
//! - `entry OCTETS`: the entry that the octets are, what it is written as, and what is read without its last octet.
//! - `at PLACE KIND OCTETS`: the value of a kind that stands at a place, the place behind it, and what it is written as.
//! - `input ACCEPTED RELEASE`, and for each opening its moment and its gate, the place of a rule or a key: the input of a
//!   release of a submission that was accepted at a moment.
//! - `base NUMBER OCTETS`: the Message-Id of the message that is sent for a submission, and whether its text is that message.
//!
//! An octet stands for itself, or as `\` and its two hexadecimal digits, in small letters. To add a row, write its answer from the
//! form of entries that `specs/EntryText.antt` of log_entry gives, and not from a run.
#![tactic(auto)]

mod entries;
mod inputs;
mod octets;
mod releases;
mod values;

use crate::entries::add_entry_row;
use crate::inputs::{add_base, add_input};
use crate::octets::octets;
use crate::values::add_value_row;
use mail_names::{Bytes, NoMemory};
use std::alloc::Global;
use std::io;
use std::io::Write;

// What a row prints.
fn add_row(alloc: Global, out: &mut Bytes, word: &str, rest: &str) -> Result<(), NoMemory> {
    match word {
        "#" => {
            out.add(b"# ")?;
            out.add(rest.as_bytes())
        }
        "entry" => {
            let found = octets(alloc, rest)?;
            add_entry_row(alloc, out, found.as_slice())
        }
        "at" => add_value_row(alloc, out, rest),
        "input" => add_input(alloc, out, rest),
        "base" => add_base(alloc, out, rest),
        _ => out.add(b"no row"),
    }
}

// The answer to a line.
fn answer(alloc: Global, line: &str) -> Result<Bytes, NoMemory> {
    let mut out = Bytes::new(alloc);
    let (word, rest) = line.split_once(' ').unwrap_or((line, ""));
    add_row(alloc, &mut out, word, rest)?;
    out.add(b"\n")?;
    Ok(out)
}

fn main(rt: HostRuntime) -> io::Result<()> {
    let alloc = rt.alloc();
    for line in rt.lines(alloc) {
        match answer(alloc, line?.as_str()) {
            Ok(text) => io::writer(&rt).write_all(text.as_slice())?,
            Err(NoMemory) => println!(rt; "no memory")?,
        }
    }
    Ok(())
}
