// Octets as rows write them, and answers.
use mail_names::{Bytes, NoMemory};
use std::alloc::Global;
use std::str;

#[derive(Clone, Copy)]
enum Reading {
    Plain,
    High,
    Low { high: u8 },
}

fn hexadecimal(digit: u8) -> u8 {
    match digit {
        b'0'..=b'9' => digit - b'0',
        b'a'..=b'f' => digit - b'a' + 10,
        _ => 0,
    }
}

fn read_one(octets: &mut Bytes, reading: Reading, octet: u8) -> Result<Reading, NoMemory> {
    match reading {
        Reading::Plain if octet == b'\\' => Ok(Reading::High),
        Reading::Plain => {
            octets.add(&[octet])?;
            Ok(Reading::Plain)
        }
        Reading::High => Ok(Reading::Low {
            high: hexadecimal(octet),
        }),
        Reading::Low { high } => {
            octets.add(&[high << 4 | hexadecimal(octet)])?;
            Ok(Reading::Plain)
        }
    }
}

/// The octets that a text writes.
pub fn read_octets(alloc: Global, text: &str) -> Result<Bytes, NoMemory> {
    let mut octets = Bytes::new(alloc);
    let mut reading = Reading::Plain;
    for octet in text.as_bytes() {
        reading = read_one(&mut octets, reading, *octet)?;
    }
    Ok(octets)
}

/// The first word, and what stands behind it.
pub fn cut(text: &str) -> (&str, &str) {
    text.split_once(' ').unwrap_or((text, ""))
}

/// Adds a line of the answer.
pub fn answer(out: &mut Bytes, line: &str) -> Result<(), NoMemory> {
    out.add(b"= ")?;
    out.add(line.as_bytes())?;
    out.add(b"\n")
}

/// Adds octets of the answer.
pub fn answer_octets(out: &mut Bytes, octets: &[u8]) -> Result<(), NoMemory> {
    out.add(b"= ")?;
    for octet in octets {
        match octet {
            b' '..=b'~' => out.add(&[*octet])?,
            _ => {
                let digits = b"0123456789abcdef";
                let (high, low) = (usize::from(octet >> 4), usize::from(octet & 15));
                out.add(&[b'\\', digits[high], digits[low]])?;
            }
        }
    }
    out.add(b"\n")
}

/// The text of octets.
pub fn text_of(octets: &[u8]) -> &str {
    str::from_utf8(octets).unwrap_or("no UTF-8")
}
