// Rows and their arguments.
use crate::octets::read_octets;
use mail_names::{Bytes, NoMemory};
use std::alloc::{AllocError, AllocFailed, Global};

/// Why a row has no answer.
#[derive(Clone, Copy)]
pub enum Fault {
    /// It isn't written as the call wants it.
    BadRow,
    NoMemory,
}

impl From<NoMemory> for Fault {
    fn from(_: NoMemory) -> Self {
        Fault::NoMemory
    }
}

impl From<AllocError> for Fault {
    fn from(_: AllocError) -> Self {
        Fault::NoMemory
    }
}

impl<T: Drop> From<AllocFailed<T>> for Fault {
    fn from(_: AllocFailed<T>) -> Self {
        Fault::NoMemory
    }
}

/// A call and its arguments.
#[derive(Drop)]
pub struct Row<'a> {
    pub call: &'a str,
    args: Vec<Bytes>,
}

/// The row that a text writes.
pub fn read_row(alloc: Global, text: &str) -> Result<Row<'_>, Fault> {
    let (call, rest) = text.split_once(' ').unwrap_or((text, ""));
    let mut args = Vec::new(alloc);
    for arg in rest.split('|') {
        args.push(read_octets(alloc, arg.trim().as_bytes())?)?;
    }
    Ok(Row { call, args })
}

impl Row<'_> {
    pub fn args(&self) -> &[Bytes] {
        self.args.as_slice()
    }

    /// The argument at a place, counted from 0.
    pub fn arg(&self, place: usize) -> &[u8] {
        match self.args.get(place) {
            Some(arg) => arg.as_slice(),
            None => b"",
        }
    }
}

/// The number that these digits write.
pub fn number(text: &[u8]) -> u64 {
    let mut number = 0u64;
    for b in text {
        let digit = u64::from(b.wrapping_sub(b'0'));
        number = number.saturating_mul(10).saturating_add(digit);
    }
    number
}
