//! Commands on standard input to a hub whose planner takes any texts and sends nothing, and what each answers and changes.
//!
//! A row is a word and what it needs, and its answer stands at the same place in `stdout`:
//!
//! - `# WORDS` prints the words.
//! - `start EPOCHS`: an empty history, with the most live organisations that it may have.
//! - `organise RULES`: the first directory with other rules.
//! - `submit MARK SENDER RECIPIENT,RECIPIENT TEXT`: a submission of the pickup file of a mark, or by SMTP where that is `-`, at 7.
//!   `-` is the null sender, and in the text `\` the end of a line.
//! - `categorise SUBMISSION RELEASE`, and for each hold the place of its rule, and whom it tells: a release with these holds, each
//!   with the moderators mia@a and max@a.
//! - `versions SUBMISSION RELEASE KEY,KEY`: a release with a version for each key.
//! - `decide APPROVAL KEY VERDICT MOMENT` and `moment MOMENT`.
//! - `delivered NAME`, `delayed NAME`, `ended NAME` and `forgot SUBMISSION`.
//! - `commit SUBMISSION EPOCH DIRECTORY RECIPIENT,RECIPIENT`, and for each opening its moment and its rule: the outcome of the release
//!   behind these openings of ann@a's message at 7, by the first directory, or by its header without the end of the line.
//! - `stand`, `due`, `item NAME` and `task RESIDUE WORKERS`: how the hub stands, which items the last turn made due and which it
//!   made, whether an item waits, and the first task of a worker.
//!
//! A command prints its reply, and whether its entry applies. To add a row, write its answer from the docs of `Reply`, and not from
//! a run.
#![tactic(auto)]

mod changing;
mod delivering;
mod outcomes;
mod silent;
mod standing;
mod words;

use crate::changing::{categorise, decide, moment, organise, start, submit};
use crate::delivering::{delayed, delivered, due, ended, forgot, versions};
use crate::outcomes::commit;
use crate::silent::Silent;
use crate::standing::{item, stand, task};
use hub_core::{Limits, State};
use mail_names::{Bytes, NoMemory};
use std::alloc::Global;
use std::io;
use std::io::Write;

// A row that changes nothing.
fn look(alloc: Global, state: &State<Silent>, word: &str, rest: &str) -> Result<Bytes, NoMemory> {
    match word {
        "commit" => commit(alloc, state, rest),
        "stand" => stand(alloc, state),
        "due" => due(alloc, state),
        "item" => item(alloc, state, rest),
        "task" => task(alloc, state, rest),
        "#" => Bytes::of(alloc, rest.as_bytes()),
        _ => Bytes::of(alloc, b"no row"),
    }
}

// A row on items that turns try, or one that changes nothing.
fn deliver(
    alloc: Global,
    state: &mut State<Silent>,
    word: &str,
    rest: &str,
) -> Result<Bytes, NoMemory> {
    match word {
        "versions" => versions(alloc, state, rest),
        "delivered" => delivered(alloc, state, rest),
        "delayed" => delayed(alloc, state, rest),
        "ended" => ended(alloc, state, rest),
        "forgot" => forgot(alloc, state, rest),
        _ => look(alloc, state, word, rest),
    }
}

fn answer(alloc: Global, state: &mut State<Silent>, line: &str) -> Result<Bytes, NoMemory> {
    let (word, rest) = line.split_once(' ').unwrap_or((line, ""));
    match word {
        "start" => start(alloc, state, rest),
        "organise" => organise(alloc, state, rest),
        "submit" => submit(alloc, state, rest),
        "categorise" => categorise(alloc, state, rest),
        "decide" => decide(alloc, state, rest),
        "moment" => moment(alloc, state, rest),
        _ => deliver(alloc, state, word, rest),
    }
}

fn main(rt: HostRuntime) -> io::Result<()> {
    let alloc = rt.alloc();
    let Ok(mut state) = State::<Silent>::start(alloc, Limits::usual()) else {
        return Ok(());
    };
    for line in rt.lines(alloc) {
        match answer(alloc, &mut state, line?.as_str()) {
            Ok(text) => io::writer(&rt).write_all(text.as_slice())?,
            Err(NoMemory) => print!(rt; "no memory, or a bad word")?,
        }
        println!(rt; "")?;
    }
    Ok(())
}
