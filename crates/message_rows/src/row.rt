// Rows and their arguments.
ghost use Rattle.std.specs.Prelude.{◌≤◌, IfOk};

use crate::octets::read_octets;
use mail_names::{ApprovalName, Bytes, ItemName, Items, Key, LAST_MOMENT, NameFault, NoMemory};
use std::alloc::{AllocError, AllocFailed, Global};

/// Why a row has no answer.
#[derive(Clone, Copy)]
pub enum Fault {
    /// It isn't written as the call wants it.
    BadRow,
    NoMemory,
}

impl From<NoMemory> for Fault {
    fn from(_: NoMemory) -> Self {
        Fault::NoMemory
    }
}

impl From<AllocError> for Fault {
    fn from(_: AllocError) -> Self {
        Fault::NoMemory
    }
}

impl<T: Drop> From<AllocFailed<T>> for Fault {
    fn from(_: AllocFailed<T>) -> Self {
        Fault::NoMemory
    }
}

impl From<NameFault> for Fault {
    fn from(_: NameFault) -> Self {
        Fault::BadRow
    }
}

/// A call and its arguments.
#[derive(Drop)]
pub struct Row<'a> {
    pub call: &'a str,
    args: Vec<Bytes>,
}

/// The row that a text writes.
pub fn read_row(alloc: Global, text: &str) -> Result<Row<'_>, Fault> {
    let (call, rest) = text.split_once(' ').unwrap_or((text, ""));
    let mut args = Vec::new(alloc);
    for arg in rest.split('|') {
        args.push(read_octets(alloc, arg.trim().as_bytes())?)?;
    }
    Ok(Row { call, args })
}

/// The first word, and what stands behind the space behind it.
pub fn cut(text: &[u8]) -> (&[u8], &[u8]) {
    for (i, b) in text.iter().enumerate() {
        if *b == b' ' {
            return (&text[..i], &text[i + 1..]);
        }
    }
    (text, b"")
}

impl Row<'_> {
    pub fn args(&self) -> &[Bytes] {
        self.args.as_slice()
    }

    /// The argument at a place, counted from 0.
    pub fn arg(&self, place: usize) -> &[u8] {
        match self.args.get(place) {
            Some(arg) => arg.as_slice(),
            None => b"",
        }
    }

    /// What stands behind this word in the first argument that begins with it.
    pub fn named(&self, name: &[u8]) -> &[u8] {
        for arg in self.args.as_slice() {
            let (first, rest) = cut(arg.as_slice());
            if first == name {
                return rest;
            }
        }
        b""
    }

    /// The keys behind this word, one in each argument that begins with it.
    pub fn keys(&self, alloc: Global, name: &[u8]) -> Result<Items<Key>, Fault> {
        let mut keys = Items::new(alloc);
        for arg in self.args.as_slice() {
            let (first, rest) = cut(arg.as_slice());
            if first == name {
                keys.push(Key::read(alloc, rest)?)?;
            }
        }
        Ok(keys)
    }
}

/// The number that these digits write.
pub fn number(text: &[u8]) -> u64 {
    let mut number = 0u64;
    for b in text {
        let digit = u64::from(b.wrapping_sub(b'0'));
        number = number.saturating_mul(10).saturating_add(digit);
    }
    number
}

/// The number of a rule, a code or a gate that these digits write.
pub fn small(text: &[u8]) -> u32 {
    u32::try_from(number(text)).unwrap_or(0)
}

/// The moment that these digits write.
pub fn moment(text: &[u8]) -> Result<u64, Fault>
    ensures { IfOk result (λ moment. moment ≤ LAST_MOMENT) }
{
    let moment = number(text);
    if moment > LAST_MOMENT {
        return Err(Fault::BadRow);
    }
    Ok(moment)
}

pub fn item_name(text: &[u8]) -> Result<ItemName, Fault> {
    ItemName::read(text).ok_or(Fault::BadRow)
}

pub fn approval_name(text: &[u8]) -> Result<ApprovalName, Fault> {
    ApprovalName::read(text).ok_or(Fault::BadRow)
}
