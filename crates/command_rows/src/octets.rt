// Answers, with octets as rows write them.
use mail_names::{Bytes, NoMemory};
use std::alloc::Global;

/// The lines that answer a row.
#[derive(Drop)]
pub struct Answer {
    alloc: Global,
    text: Bytes,
}

impl Answer {
    pub fn new(alloc: Global) -> Answer {
        Answer {
            alloc,
            text: Bytes::new(alloc),
        }
    }

    pub fn as_slice(&self) -> &[u8] {
        self.text.as_slice()
    }

    fn octet(&mut self, b: u8) -> Result<(), NoMemory> {
        match b {
            b'\r' => self.text.add(b"\\r"),
            b'\n' => self.text.add(b"\\n"),
            b' '..=b'~' => self.text.add(&[b]),
            _ => {
                let text = format!(in self.alloc; "\\x{b:02x}")?;
                self.text.add(text.as_bytes())
            }
        }
    }

    fn line(&mut self, octets: &[u8]) -> Result<(), NoMemory> {
        self.text.add(b"= ")?;
        for b in octets {
            self.octet(*b)?;
        }
        self.text.add(b"\n")
    }

    /// Adds octets that are given, in a line for each `\n`.
    pub fn given(&mut self, octets: &[u8]) -> Result<(), NoMemory> {
        for line in octets.split_inclusive(|b| *b == b'\n') {
            self.line(line)?;
        }
        Ok(())
    }

    /// Adds a line on what is refused.
    pub fn refused(&mut self, why: &str) -> Result<(), NoMemory> {
        self.text.add(b"! ")?;
        self.text.add(why.as_bytes())?;
        self.text.add(b"\n")
    }
}
