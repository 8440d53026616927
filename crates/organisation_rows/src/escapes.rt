// Octets as rows write them.
use crate::wrong::Wrong;
use mail_names::Bytes;
use std::alloc::Global;

fn digit(b: u8) -> Option<u8> {
    match b {
        b'0'..=b'9' => Some(b - b'0'),
        b'a'..=b'f' => Some(b - b'a' + 10),
        _ => None,
    }
}

fn octet(high: u8, low: u8) -> Option<u8> {
    let high = digit(high)?;
    let low = digit(low)?;
    Some(high.wrapping_mul(16).wrapping_add(low))
}

fn add_octet(bytes: &mut Bytes, high: u8, low: u8) -> Result<(), Wrong> {
    let b = octet(high, low).ok_or(Wrong::NoOctet)?;
    bytes.add(&[b])?;
    Ok(())
}

fn add_number(alloc: Global, bytes: &mut Bytes, n: u32) -> Result<(), Wrong> {
    let text = format!(in alloc; "{n}")?;
    bytes.add(text.as_bytes())?;
    Ok(())
}

// Adds what an escape stands for, and the literal octets behind it.
fn add_escape(alloc: Global, bytes: &mut Bytes, part: &[u8], n: u32) -> Result<(), Wrong> {
    let rest = match part {
        [b'n', rest @ ..] => {
            bytes.add(b"\n")?;
            rest
        }
        [b'r', rest @ ..] => {
            bytes.add(b"\r")?;
            rest
        }
        [b'#', rest @ ..] => {
            add_number(alloc, bytes, n)?;
            rest
        }
        [b'+', rest @ ..] => {
            add_number(alloc, bytes, n.wrapping_add(1))?;
            rest
        }
        [b'x', high, low, rest @ ..] => {
            add_octet(bytes, *high, *low)?;
            rest
        }
        _ => return Err(Wrong::NoEscape),
    };
    bytes.add(rest)?;
    Ok(())
}

/// Adds the octets that a text with escapes stands for, in which `n` is the number of the repetition.
pub fn add_unescaped(alloc: Global, bytes: &mut Bytes, text: &str, n: u32) -> Result<(), Wrong> {
    let mut is_escape = false;
    for part in text.split('\\') {
        if is_escape {
            add_escape(alloc, bytes, part.as_bytes(), n)?;
        } else {
            bytes.add(part.as_bytes())?;
        }
        is_escape = true;
    }
    Ok(())
}

/// The octets that stand before a text with escapes, and those that it stands for.
pub fn unescaped(alloc: Global, before: &str, text: &str) -> Result<Bytes, Wrong> {
    let mut bytes = Bytes::of(alloc, before.as_bytes())?;
    add_unescaped(alloc, &mut bytes, text, 0)?;
    Ok(bytes)
}

fn add_escaped_byte(out: &mut String, b: u8) -> Result<(), Wrong> {
    match b {
        b'\n' => out.push_str("\\n")?,
        b'\r' => out.push_str("\\r")?,
        32..=126 => out.push(b as char)?,
        _ => write!(out, "\\x{b:02x}")?,
    }
    Ok(())
}

/// Adds octets, those that aren't printable as escapes.
pub fn add_escaped(out: &mut String, bytes: &[u8]) -> Result<(), Wrong> {
    for b in bytes {
        add_escaped_byte(out, *b)?;
    }
    Ok(())
}

/// Adds a number behind a space.
pub fn add_count(out: &mut String, n: u64) -> Result<(), Wrong> {
    write!(out, " {n}")?;
    Ok(())
}

/// Adds `yes` or `no`.
pub fn add_answer(out: &mut String, holds: bool) -> Result<(), Wrong> {
    out.push_str(if holds { " yes" } else { " no" })?;
    Ok(())
}
