// What a script has said so far.
use crate::told::tell;
use mail_names::{Bytes, NoMemory};
use std::alloc::Global;

/// An exchange that is to be made.
#[derive(Drop)]
pub struct Scene {
    pub said: Bytes,
    pub refused: Bytes,
    pub decided: Bytes,
    pub source: Bytes,
    pub sink: Bytes,
    times: u64,
}

// Which calls fail: a digit for each.
fn read_calls(alloc: Global, digits: &str) -> Result<Bytes, NoMemory> {
    let mut calls = Bytes::new(alloc);
    for digit in digits.as_bytes() {
        calls.add(&[u8::from(*digit == b'1')])?;
    }
    Ok(calls)
}

impl Scene {
    pub fn new(alloc: Global) -> Scene {
        Scene {
            said: Bytes::new(alloc),
            refused: Bytes::new(alloc),
            decided: Bytes::new(alloc),
            source: Bytes::new(alloc),
            sink: Bytes::new(alloc),
            times: 1,
        }
    }

    fn say(&mut self, text: &[u8], end: &[u8]) -> Result<(), NoMemory> {
        for _ in 0..self.times {
            self.said.add(text)?;
            self.said.add(end)?;
        }
        self.times = 1;
        Ok(())
    }

    fn fill(&mut self, count: u64) -> Result<(), NoMemory> {
        for _ in 0..count {
            self.said.add(b"a")?;
        }
        Ok(())
    }

    // Follows a word with a number, where it is one.
    fn count(&mut self, word: &str, number: u64) -> Result<bool, NoMemory> {
        match word {
            "times" => self.times = number,
            "fill" => self.fill(number)?,
            "octet" => self.say(&[number.min(255) as u8], b"")?,
            _ => return Ok(false),
        }
        Ok(true)
    }

    // Sets what the next exchange meets, where the word does.
    fn set(&mut self, alloc: Global, word: &str, rest: &str) -> Result<bool, NoMemory> {
        match word {
            "refuse" => self.refused = Bytes::of(alloc, rest.as_bytes())?,
            "decided" => self.decided = Bytes::of(alloc, rest.as_bytes())?,
            "source" => self.source = read_calls(alloc, rest)?,
            "sink" => self.sink = read_calls(alloc, rest)?,
            word => return self.count(word, rest.parse::<u64>().unwrap_or(1)),
        }
        Ok(true)
    }

    // Makes the exchange, where the word does, and begins anew.
    fn run(
        &mut self,
        alloc: Global,
        word: &str,
        rest: &str,
        out: &mut Bytes,
    ) -> Result<(), NoMemory> {
        match word {
            "run" => tell(alloc, self, rest.parse::<usize>().ok(), out)?,
            _ => out.add(b"no row\n")?,
        }
        *self = Scene::new(alloc);
        Ok(())
    }

    /// Follows a line of the script, and adds what it prints.
    pub fn follow(&mut self, alloc: Global, line: &str, out: &mut Bytes) -> Result<(), NoMemory> {
        if line.is_empty() || line.starts_with('#') {
            out.add(line.as_bytes())?;
            return out.add(b"\n");
        }
        let (word, rest) = line.split_once(' ').unwrap_or((line, ""));
        match word {
            "C:" => self.say(rest.as_bytes(), b"\r\n"),
            "LF:" => self.say(rest.as_bytes(), b"\n"),
            "NO:" => self.say(rest.as_bytes(), b""),
            word => {
                if self.set(alloc, word, rest)? {
                    return Ok(());
                }
                self.run(alloc, word, rest, out)
            }
        }
    }
}
