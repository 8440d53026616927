// The addresses that stand in the value of a field.
ghost use Rattle.std.specs.Prelude.{◌≡◌, ◌==◌, ◌≤◌, ◌++◌, length, option_copied, OnOk};
ghost use Rattle.std.specs.List.{position_or_len};
ghost use Rattle.std.specs.Option.{option_to_list};
ghost use Rattle.pickup_box.specs.Addresses.{behind, is_nothing, is_quoted, closed, angled, address_in, addresses, first_len};

use crate::trims::trim;
use mail_names::{Bytes, NoMemory};
use std::alloc::Global;

/// Inside what a byte of a value stands.
#[derive(Clone, Copy, Debug, PartialEq, Eq)]
pub enum Inside {
    Nothing,
    Quotes,
    /// In quotes, behind a backslash.
    Escape,
    Angles,
    Parentheses,
}

impl Inside {
    /// Inside what the bytes behind this one stand.
    fn behind(self, b: u8) -> Inside
        ensures { result ≡ behind self b }
    {
        match (self, b) {
            (Inside::Nothing, b'"') | (Inside::Escape, _) => Inside::Quotes,
            (Inside::Nothing, b'<') => Inside::Angles,
            (Inside::Nothing, b'(') => Inside::Parentheses,
            (Inside::Quotes, b'\\') => Inside::Escape,
            (Inside::Quotes, b'"') | (Inside::Angles, b'>') | (Inside::Parentheses, b')') => {
                Inside::Nothing
            }
            _ => self,
        }
    }

    fn is_nothing(self) -> bool
        ensures { result ≡ is_nothing self }
    {
        matches!(self, Inside::Nothing)
    }

    fn is_quoted(self) -> bool
        ensures { result ≡ is_quoted self }
    {
        matches!(self, Inside::Quotes | Inside::Escape)
    }
}

// Where the first `>` stands, or how many bytes there are.
fn close_place(bytes: &[u8]) -> usize
    ensures value { result ≡ position_or_len (λ b. b == 62) bytes.now }
    ensures within { result ≤ length bytes.now }
{
    for (i, b) in bytes.iter().enumerate() {
        if *b == b'>' {
            return i;
        }
    }
    bytes.len()
}

// What stands before the first `>`, where there is one.
fn closed(bytes: &[u8]) -> Option<&[u8]>
    ensures { option_copied result ≡ closed bytes.now }
{
    let end = close_place(bytes);
    if end < bytes.len() {
        Some(&bytes[..end])
    } else {
        None
    }
}

// What stands between the first `<` outside quotes and the next `>`.
fn angled(piece: &[u8]) -> Option<&[u8]>
    ensures { option_copied result ≡ angled Inside.Nothing piece.now }
{
    let mut at = Inside::Nothing;
    for (i, b) in piece.iter().enumerate() {
        if *b == b'<' && !at.is_quoted() {
            return closed(&piece[i + 1..]);
        }
        at = at.behind(*b);
    }
    None
}

// The address of a piece, if it has one.
fn address_in(piece: &[u8]) -> Option<&[u8]>
    ensures { option_copied result ≡ address_in piece.now }
{
    let whole = trim(piece);
    if whole.is_empty() {
        return None;
    }
    Some(angled(piece).unwrap_or(whole))
}

// How many bytes stand before the first comma that stands inside nothing.
fn first_len(value: &[u8]) -> usize
    ensures value { result ≡ first_len Inside.Nothing value.now }
    ensures within { result ≤ length value.now }
{
    let mut at = Inside::Nothing;
    for (i, b) in value.iter().enumerate() {
        if *b == b',' && at.is_nothing() {
            return i;
        }
        at = at.behind(*b);
    }
    value.len()
}

// Adds the address of a piece, if it has one.
fn add_address(alloc: Global, texts: &mut Vec<Bytes>, piece: &[u8]) -> Result<(), NoMemory>
    ensures { OnOk result (texts.new.items ≡ texts.old.items ++ option_to_list (address_in piece.now)) }
{
    if let Some(address) = address_in(piece) {
        texts.push(Bytes::of(alloc, address)?)?;
    }
    Ok(())
}

/// Adds the addresses of a value, in order (RFC 5322 section 3.4 has the standard's own form of them).
pub fn add_addresses(alloc: Global, texts: &mut Vec<Bytes>, value: &[u8]) -> Result<(), NoMemory>
    ensures { OnOk result (texts.new.items ≡ texts.old.items ++ addresses value.now) }
{
    let mut rest = value;
    loop {
        let end = first_len(rest);
        add_address(alloc, texts, &rest[..end])?;
        if end >= rest.len() {
            return Ok(());
        }
        rest = &rest[end + 1..];
    }
}
