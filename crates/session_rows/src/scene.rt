// What a script has said so far.
use crate::heard::hear;
use crate::told::tell;
use mail_names::{Bytes, NoMemory};
use std::alloc::Global;

/// A dialogue that is to be run.
#[derive(Drop)]
pub struct Scene {
    pub said: Bytes,
    pub answers: Bytes,
    pub source: Bytes,
    pub sink: Bytes,
    times: u64,
}

// Which calls fail: a digit for each.
fn read_calls(alloc: Global, digits: &str) -> Result<Bytes, NoMemory> {
    let mut calls = Bytes::new(alloc);
    for digit in digits.as_bytes() {
        calls.add(&[u8::from(*digit == b'1')])?;
    }
    Ok(calls)
}

impl Scene {
    pub fn new(alloc: Global) -> Scene {
        Scene {
            said: Bytes::new(alloc),
            answers: Bytes::new(alloc),
            source: Bytes::new(alloc),
            sink: Bytes::new(alloc),
            times: 1,
        }
    }

    fn say(&mut self, text: &str, end: &[u8]) -> Result<(), NoMemory> {
        for _ in 0..self.times {
            self.said.add(text.as_bytes())?;
            self.said.add(end)?;
        }
        self.times = 1;
        Ok(())
    }

    // Sets what the next run meets, where the word does.
    fn set(&mut self, alloc: Global, word: &str, rest: &str) -> Result<bool, NoMemory> {
        match word {
            "times" => self.times = rest.parse::<u64>().unwrap_or(1),
            "answers" => self.answers = Bytes::of(alloc, rest.as_bytes())?,
            "source" => self.source = read_calls(alloc, rest)?,
            "sink" => self.sink = read_calls(alloc, rest)?,
            _ => return Ok(false),
        }
        Ok(true)
    }

    // Runs what was said, where the word does, and begins anew.
    fn run(
        &mut self,
        alloc: Global,
        word: &str,
        rest: &str,
        out: &mut Bytes,
    ) -> Result<(), NoMemory> {
        match word {
            "run" => tell(alloc, self, rest.parse::<usize>().ok(), out)?,
            "events" => hear(alloc, self.said.as_slice(), out)?,
            _ => out.add(b"no row\n")?,
        }
        *self = Scene::new(alloc);
        Ok(())
    }

    /// Follows a line of the script, and adds what it prints.
    pub fn follow(&mut self, alloc: Global, line: &str, out: &mut Bytes) -> Result<(), NoMemory> {
        if line.is_empty() || line.starts_with('#') {
            out.add(line.as_bytes())?;
            return out.add(b"\n");
        }
        let (word, rest) = line.split_once(' ').unwrap_or((line, ""));
        match word {
            "C:" => self.say(rest, b"\r\n"),
            "CR:" => self.say(rest, b"\r"),
            "LF:" => self.say(rest, b"\n"),
            "NO:" => self.say(rest, b""),
            word => {
                if self.set(alloc, word, rest)? {
                    return Ok(());
                }
                self.run(alloc, word, rest, out)
            }
        }
    }
}
