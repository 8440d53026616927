//! Requests of a script on standard input, over an office that gives the script's answers, and the responses.
//!
//! The files `stdin` and `stdout` beside `src/` are the script and what it must print. To add a case, write its response
//! from the standard or from what is meant, and not from a run. A line of the script is a word and what follows it:
//!
//! - `C:` is a line of the client's, `LF:` is a line that LF alone ends, and `NO:` is a text without an end.
//! - `octet N` is one octet, and `fill N` is N times the letter `a`.
//! - `times N` says how often the next of these is said.
//! - `refuse WORD` says what the office refuses: `disk`, `memory`, `damaged` and `desk` meet each call; `shelf` and
//!   `item` those of folders; `directory`, `rules` and `epochs` the organisation's; `approval` and `full` those that write.
//! - `decided WORD` says what becomes of a decision: `taken`, `not`, `expired` or `already`. With `nobody` in place of it
//!   the decision came before, and no key is known for it; with `refused` the call that asks for the key is refused.
//! - `source` and `sink` list the calls of an end, 1 for each that fails.
//! - `run` makes the exchange in pieces of 1, 7 and 4,096 octets, and prints what it writes, how it ends and what it asked
//!   the office, which is the same for all; `run N` makes it in pieces of N. Then all begins anew. The clock gives 7, 8, ..
//! - A line that is empty or begins with `#` is printed back.
#![tactic(auto)]

mod office;
mod scene;
mod told;
mod views;

use crate::scene::Scene;
use mail_names::{Bytes, NoMemory};
use std::io::{self, BufRead, BufReader, Write};

fn main(rt: HostRuntime) -> io::Result<()> {
    let alloc = rt.alloc();
    let mut scene = Scene::new(alloc);
    for line in BufReader::new(alloc, rt.reader())?.lines(alloc) {
        let line = line?;
        let mut out = Bytes::new(alloc);
        match scene.follow(alloc, line.as_str(), &mut out) {
            Ok(()) => io::writer(&rt).write_all(out.as_slice())?,
            Err(NoMemory) => println!(rt; "no memory")?,
        }
    }
    Ok(())
}
