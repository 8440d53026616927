//! Organisations, messages and openings on standard input, each release printed with its items and, to the octet, its reports.
//!
//! A row is a word and what it needs:
//!
//! - `# WORDS` is printed as it is.
//! - `directory LINE`, `rule LINE` and `message LINE` add a line to the text of the directory, of the rules or of the message.
//!   `new` empties all three.
//! - `release SENDER RECIPIENT,RECIPIENT ACCEPTED`, and for each opening its moment and its gate, the place of a rule or a key:
//!   the release of that message behind these openings. It prints a line for each item: its name, its kind, its folder, and how it
//!   comes to go there. Behind a report stand its text, what is read of it, and what is read without its last octet.
//!
//! A line of a text is printed behind `|` where it ends as the lines of mail do, and behind `!` else. To add a row, write its answer
//! from the README's account of reports, and not from a run.
#![tactic(auto)]

mod case;
mod items;
mod reports;

use crate::case::{Case, made};
use crate::items::add_items;
use mail_names::{Bytes, NoMemory};
use std::alloc::Global;
use std::io;
use std::io::Write;

// The items of a release.
fn add_release(alloc: Global, out: &mut Bytes, case: &Case, words: &str) -> Result<(), NoMemory> {
    match made(alloc, case, words)? {
        None => out.add(b"no release\n"),
        Some(release) => add_items(alloc, out, &release),
    }
}

// What a row prints.
fn add_row(
    alloc: Global,
    out: &mut Bytes,
    case: &mut Case,
    word: &str,
    rest: &str,
) -> Result<(), NoMemory> {
    match word {
        "#" => {
            out.add(b"# ")?;
            out.add(rest.as_bytes())?;
            out.add(b"\n")
        }
        "release" => add_release(alloc, out, case, rest),
        _ => case.take(alloc, word, rest),
    }
}

// The answer to a line.
fn answer(alloc: Global, case: &mut Case, line: &str) -> Result<Bytes, NoMemory> {
    let mut out = Bytes::new(alloc);
    let (word, rest) = line.split_once(' ').unwrap_or((line, ""));
    add_row(alloc, &mut out, case, word, rest)?;
    Ok(out)
}

fn main(rt: HostRuntime) -> io::Result<()> {
    let alloc = rt.alloc();
    let mut case = Case::new(alloc);
    for line in rt.lines(alloc) {
        match answer(alloc, &mut case, line?.as_str()) {
            Ok(text) => io::writer(&rt).write_all(text.as_slice())?,
            Err(NoMemory) => println!(rt; "no memory, or no key")?,
        }
    }
    Ok(())
}
