// Octets, read and printed.
ghost use Rattle.std.specs.Prelude.{◌<◌};

use mail_names::{Bytes, NoMemory};
use std::alloc::Global;

// The value of a hexadecimal digit, and 0 for another octet.
fn digit(octet: u8) -> u8
    ensures { result < 16 }
{
    match octet {
        b'0'..=b'9' => octet - b'0',
        b'a'..=b'f' => octet - b'a' + 10,
        _ => 0,
    }
}

// What stands behind a `\`.
fn add_piece(into: &mut Bytes, piece: &[u8]) -> Result<(), NoMemory> {
    match piece {
        [high, low, rest @ ..] => {
            into.add(&[digit(*high) * 16 + digit(*low)])?;
            into.add(rest)
        }
        _ => into.add(piece),
    }
}

/// The octets that a text stands for.
pub fn octets(alloc: Global, text: &str) -> Result<Bytes, NoMemory> {
    let (first, rest) = text.split_once('\\').unwrap_or((text, ""));
    let mut found = Bytes::of(alloc, first.as_bytes())?;
    if !rest.is_empty() {
        for piece in rest.split('\\') {
            add_piece(&mut found, piece.as_bytes())?;
        }
    }
    Ok(found)
}

// Appends an octet: as itself, or as `\` and its two digits.
fn add_octet(alloc: Global, out: &mut Bytes, octet: u8) -> Result<(), NoMemory> {
    if octet < 32 || octet > 126 || octet == b'\\' {
        let text = format!(in alloc; "\\{octet:02x}")?;
        return out.add(text.as_bytes());
    }
    out.add(&[octet])
}

/// Appends octets, as rows have them.
pub fn add_octets(alloc: Global, out: &mut Bytes, octets: &[u8]) -> Result<(), NoMemory> {
    for octet in octets {
        add_octet(alloc, out, *octet)?;
    }
    Ok(())
}

/// Appends a number in decimal.
pub fn add_number(alloc: Global, out: &mut Bytes, number: u64) -> Result<(), NoMemory> {
    let text = format!(in alloc; "{number}")?;
    out.add(text.as_bytes())
}

/// Appends whether what was written is what was read, and else what it is.
pub fn add_written(
    alloc: Global,
    out: &mut Bytes,
    written: &[u8],
    read: &[u8],
) -> Result<(), NoMemory> {
    if written == read {
        return out.add(b"; written the same");
    }
    out.add(b"; written ")?;
    add_octets(alloc, out, written)
}
