// Octets as rows write them.
use crate::row::Fault;
use mail_names::Bytes;
use std::alloc::Global;

// From how many on the same octets are written with their number.
const LONG: u64 = 100;

#[derive(Clone, Copy)]
enum Reading {
    Plain,
    Escape,
    High,
    Low { high: u8 },
    Count { count: u32 },
    Times { count: u32 },
}

fn hexadecimal(b: u8) -> u8 {
    match b {
        b'0'..=b'9' => b - b'0',
        b'a'..=b'f' => b - b'a' + 10,
        _ => 0,
    }
}

fn plain(octets: &mut Vec<u8>, b: u8) -> Result<Reading, Fault> {
    if b == b'\\' {
        return Ok(Reading::Escape);
    }
    octets.push(b)?;
    Ok(Reading::Plain)
}

fn escaped(octets: &mut Vec<u8>, b: u8) -> Result<Reading, Fault> {
    let octet = match b {
        b'r' => b'\r',
        b'n' => b'\n',
        b't' => b'\t',
        b'x' => return Ok(Reading::High),
        b'{' => return Ok(Reading::Count { count: 0 }),
        _ => return Err(Fault::BadRow),
    };
    octets.push(octet)?;
    Ok(Reading::Plain)
}

fn counted(count: u32, b: u8) -> Reading {
    if b == b'}' {
        return Reading::Times { count };
    }
    let digit = u32::from(b.wrapping_sub(b'0'));
    Reading::Count {
        count: count.saturating_mul(10).saturating_add(digit),
    }
}

fn read_one(octets: &mut Vec<u8>, reading: Reading, b: u8) -> Result<Reading, Fault> {
    match reading {
        Reading::Plain => plain(octets, b),
        Reading::Escape => escaped(octets, b),
        Reading::High => Ok(Reading::Low {
            high: hexadecimal(b),
        }),
        Reading::Low { high } => {
            octets.push(high << 4 | hexadecimal(b))?;
            Ok(Reading::Plain)
        }
        Reading::Count { count } => Ok(counted(count, b)),
        Reading::Times { count } => {
            for _ in 0..count {
                octets.push(b)?;
            }
            Ok(Reading::Plain)
        }
    }
}

/// The octets that a text writes.
pub fn read_octets(alloc: Global, text: &[u8]) -> Result<Bytes, Fault> {
    let mut octets = Vec::new(alloc);
    let mut reading = Reading::Plain;
    for b in text {
        reading = read_one(&mut octets, reading, *b)?;
    }
    Ok(Bytes::from_vec(octets))
}

/// The lines that answer a row.
#[derive(Drop)]
pub struct Answer {
    alloc: Global,
    text: Bytes,
}

impl Answer {
    pub fn new(alloc: Global) -> Answer {
        Answer {
            alloc,
            text: Bytes::new(alloc),
        }
    }

    pub fn as_slice(&self) -> &[u8] {
        self.text.as_slice()
    }

    fn hexadecimal(&mut self, b: u8) -> Result<(), Fault> {
        let text = format!(in self.alloc; "\\x{b:02x}")?;
        self.text.add(text.as_bytes())?;
        Ok(())
    }

    fn octet(&mut self, b: u8) -> Result<(), Fault> {
        match b {
            b'\r' => self.text.add(b"\\r")?,
            b'\n' => self.text.add(b"\\n")?,
            b'\t' => self.text.add(b"\\t")?,
            b' '..=b'~' => self.text.add(&[b])?,
            _ => self.hexadecimal(b)?,
        }
        Ok(())
    }

    // The same octet so many times.
    fn run(&mut self, b: u8, count: u64) -> Result<(), Fault> {
        if count < LONG {
            for _ in 0..count {
                self.octet(b)?;
            }
            return Ok(());
        }
        let text = format!(in self.alloc; "\\{{{count}}}")?;
        self.text.add(text.as_bytes())?;
        self.octet(b)
    }

    fn line(&mut self, octets: &[u8]) -> Result<(), Fault> {
        self.text.add(b"= ")?;
        let mut last = 0;
        let mut count = 0u64;
        for b in octets {
            if *b == last {
                count = count.saturating_add(1);
            } else {
                self.run(last, count)?;
                last = *b;
                count = 1;
            }
        }
        self.run(last, count)?;
        self.text.add(b"\n")?;
        Ok(())
    }

    /// Adds octets that are given, in a line for each `\n`.
    pub fn given(&mut self, octets: &[u8]) -> Result<(), Fault> {
        if octets.is_empty() {
            self.text.add(b"=\n")?;
            return Ok(());
        }
        for line in octets.split_inclusive(|b| *b == b'\n') {
            self.line(line)?;
        }
        Ok(())
    }

    /// Adds a line on what is refused.
    pub fn refused(&mut self, why: &str) -> Result<(), Fault> {
        self.text.add(b"! ")?;
        self.text.add(why.as_bytes())?;
        self.text.add(b"\n")?;
        Ok(())
    }
}
