// What a script has said so far.
use crate::told::tell;
use http_head::Routes;
use mail_names::{Bytes, NoMemory};
use std::alloc::Global;

/// What has been said of a request.
#[derive(Drop)]
pub struct Scene {
    said: Bytes,
    times: u64,
}

impl Scene {
    pub fn new(alloc: Global) -> Scene {
        Scene {
            said: Bytes::new(alloc),
            times: 1,
        }
    }

    fn say(&mut self, text: &[u8], end: &[u8]) -> Result<(), NoMemory> {
        for _ in 0..self.times {
            self.said.add(text)?;
            self.said.add(end)?;
        }
        self.times = 1;
        Ok(())
    }

    fn fill(&mut self, count: u64) -> Result<(), NoMemory> {
        for _ in 0..count {
            self.said.add(b"a")?;
        }
        Ok(())
    }

    // Follows a word with a number.
    fn count(&mut self, word: &str, number: u64, out: &mut Bytes) -> Result<(), NoMemory> {
        match word {
            "times" => self.times = number,
            "fill" => self.fill(number)?,
            "octet" => self.say(&[number.min(255) as u8], b"")?,
            _ => out.add(b"no row\n")?,
        }
        Ok(())
    }

    /// Follows a line of the script, and adds what it prints.
    pub fn follow(
        &mut self,
        alloc: Global,
        routes: &Routes,
        line: &str,
        out: &mut Bytes,
    ) -> Result<(), NoMemory> {
        if line.is_empty() || line.starts_with('#') {
            out.add(line.as_bytes())?;
            return out.add(b"\n");
        }
        let (word, rest) = line.split_once(' ').unwrap_or((line, ""));
        match word {
            "C:" => self.say(rest.as_bytes(), b"\r\n"),
            "LF:" => self.say(rest.as_bytes(), b"\n"),
            "NO:" => self.say(rest.as_bytes(), b""),
            "head" => {
                tell(alloc, routes, self.said.as_slice(), out)?;
                *self = Scene::new(alloc);
                Ok(())
            }
            word => self.count(word, rest.parse::<u64>().unwrap_or(1), out),
        }
    }
}
