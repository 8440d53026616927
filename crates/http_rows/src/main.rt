//! Heads of requests of a script on standard input, and what becomes of each.
//!
//! The files `stdin` and `stdout` beside `src/` are the script and what it must print. To add a case, write its answer
//! from the standard or from what is meant, and not from a run. A line of the script is a word and what follows it:
//!
//! - `C:` is a line of the client's, `LF:` is a line that LF alone ends, and `NO:` is a text without an end.
//! - `octet N` is one octet, and `fill N` is N times the letter `a`.
//! - `times N` says how often the next of these is said.
//! - `head` prints what becomes of the head, and begins anew. It is read from all at once, and from pieces of 1 and of 7
//!   octets; where these give another answer, or take more than 75 times the head's length to read it, that is printed too.
//! - A line that is empty or begins with `#` is printed back.
#![tactic(auto)]

mod pieces;
mod scene;
mod told;

use crate::scene::Scene;
use http_head::Routes;
use mail_names::{Bytes, NoMemory};
use std::io::{self, BufRead, BufReader, Write};

fn main(rt: HostRuntime) -> io::Result<()> {
    let alloc = rt.alloc();
    let Ok(routes) = Routes::new(alloc) else {
        return println!(rt; "no memory");
    };
    let mut scene = Scene::new(alloc);
    for line in BufReader::new(alloc, rt.reader())?.lines(alloc) {
        let line = line?;
        let mut out = Bytes::new(alloc);
        match scene.follow(alloc, &routes, line.as_str(), &mut out) {
            Ok(()) => io::writer(&rt).write_all(out.as_slice())?,
            Err(NoMemory) => println!(rt; "no memory")?,
        }
    }
    Ok(())
}
