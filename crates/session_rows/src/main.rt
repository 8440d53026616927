//! Sessions and events of a script on standard input, over an intake that gives the script's answers.
//!
//! The files `stdin` and `stdout` beside `src/` are the script and what it must print. To add a case, write its replies
//! from the standard or from what is meant, and not from a run. A line of the script is a word and what follows it:
//!
//! - `C:` is a line of the client's, `CR:` and `LF:` are lines that one octet alone ends, and `NO:` is a text without an end.
//! - `times N` says how often the next of these is said.
//! - `answers` lists what the intake answers: numbers that are accepted, or faults. Behind them it accepts 1.
//! - `source` and `sink` list the calls of an end, 1 for each that fails.
//! - `run` cuts what was said into pieces of each length from 1 to 64 and of 4,096 octets, and prints what is the same for
//!   all; `run N` cuts it into pieces of N. `events` prints the events of a dialogue, cut the same ways.
//! - A line that is empty or begins with `#` is printed back.
#![tactic(auto)]

mod answers;
mod heard;
mod scene;
mod told;

use crate::scene::Scene;
use mail_names::{Bytes, NoMemory};
use std::io::{self, BufRead, BufReader, Write};

fn main(rt: HostRuntime) -> io::Result<()> {
    let alloc = rt.alloc();
    let mut scene = Scene::new(alloc);
    for line in BufReader::new(alloc, rt.reader())?.lines(alloc) {
        let line = line?;
        let mut out = Bytes::new(alloc);
        match scene.follow(alloc, line.as_str(), &mut out) {
            Ok(()) => io::writer(&rt).write_all(out.as_slice())?,
            Err(NoMemory) => println!(rt; "no memory")?,
        }
    }
    Ok(())
}
