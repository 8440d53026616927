//! Whole runs of a script on standard input: organisations, sessions, decisions and turns over a plant in memory.
//!
//! The files `stdin` and `stdout` beside `src/` are the script and what it must print. To add a case, write what it prints
//! from what is meant, and not from a run. A line of the script is a word and what follows it:
//!
//! - `plant` begins with an empty plant, the usual limits and the moment 2026-03-01T00:00:00Z, and `limits LIVE EPOCHS` and
//!   `moment SECONDS` set others.
//! - `D:`, `R:` and `C:` are lines of a directory, of rules, and of a client or a message, and `L:` is one that an LF alone
//!   ends. `crowd N` adds the lines of N mailboxes and of the group of them, all@example.com. The next command that needs
//!   lines takes them.
//! - `organise` lets an organisation come into force, and prints its number.
//! - `session PIECE` runs a session, and prints its replies and its status. `send SENDER RECIPIENT..` runs one that sends a
//!   message, and prints its status.
//! - `submit` hands a message to the hub, `commit` plans what waits by the organisation of the lines, `decide APPROVAL KEY
//!   VERDICT` decides, categorises and makes a turn, and `turn` makes one. Each prints its answer.
//! - `faults CALLS GAP,.. FOLDER..` runs the session of the lines over an empty plant, and prints how many messages were accepted
//!   and the items of each folder. Then it runs it over an empty plant once for each of so many calls, for each gap: that call
//!   fails, the next GAP - 1 don't, and then all do. What each of 16 crashes leaves is opened by a session without a message,
//!   and each message that was told 250 is in each folder once, under its number. Then the session is run there again, without
//!   a fault, and each folder has the items that it has where nothing failed, each once. It prints `once` for each call, or
//!   what is otherwise, and at last whether the session has more calls. Each message goes to each of the folders, and no two
//!   items have one text.
//! - `folder KEY` prints a folder's items. A line of an item stands behind `|`, without its CR LF.
//! - A line that is empty or begins with `#` is printed back.
#![tactic(auto)]

mod answer;
mod calls;
mod crowd;
mod faults;
mod mails;
mod stage;

use crate::answer::{Answer, Fault};
use crate::stage::Stage;
use std::io::{self, BufRead, BufReader, Write};

fn main(rt: HostRuntime) -> io::Result<()> {
    let alloc = rt.alloc();
    let mut stage = Stage::new(alloc);
    for line in BufReader::new(alloc, rt.reader())?.lines(alloc) {
        let line = line?;
        let mut out = Answer::new(alloc);
        match stage.follow(line.as_str(), &mut out) {
            Ok(()) => io::writer(&rt).write_all(out.as_slice())?,
            Err(Fault::NoMemory) => println!(rt; "no memory")?,
            Err(Fault::NoRow) => println!(rt; "no row: {line}")?,
        }
    }
    Ok(())
}
