// What was looked at of a line that hasn't ended.
ghost use Rattle.std.specs.Prelude.{◌≡◌, ◌<◌, ◌++◌, ◌-◌, ◌==◌, ℕ, List, [], length, take, true, OnOk, OnErr, IfSome, IfNone};
ghost use Rattle.smtp_front.specs.Events.{is_dot, is_none};
ghost use Rattle.smtp_front.specs.Holds.{IsPart, ends_cr};

use mail_names::{Bytes, NoMemory};
use std::alloc::Global;

/// The most octets that are kept of a line: one more than a content may have.
const WIDEST: usize = 1_048_577;

/// The octets of a line, if they aren't too many to be kept, and the last of them.
#[derive(Drop)]
pub struct Part {
    bytes: Bytes,
    long: bool,
    last: u8,
}

impl Part {
    /// A line that hasn't begun.
    pub fn new(alloc: Global) -> Part
        ensures { IsPart result [] }
    {
        Part {
            bytes: Bytes::new(alloc),
            long: false,
            last: 0,
        }
    }

    /// Whether nothing of the line came.
    pub fn is_new(&self) -> bool
        ensures { (text : List ℕ) → IsPart self.now text → result ≡ is_none text }
    {
        !self.long && self.bytes.as_slice().is_empty()
    }

    /// Whether the last octet is CR.
    pub fn ends_cr(&self) -> bool
        ensures value { result ≡ (self.now.last == 13) }
        ensures text { (text : List ℕ) → IsPart self.now text → result ≡ ends_cr text }
    {
        self.last == b'\r'
    }

    /// Takes more of the line.
    pub fn add(&mut self, piece: &[u8]) -> Result<(), NoMemory>
        requires { 0 < length piece.now }
        ensures ok { OnOk result ((text : List ℕ) → IsPart self.old text → IsPart self.new (text ++ piece.now)) }
        ensures err { OnErr result (self.new ≡ self.old) }
    {
        let room = WIDEST.saturating_sub(self.bytes.as_slice().len());
        if self.long || piece.len() > room {
            self.long = true;
        } else {
            self.bytes.add(piece)?;
        }
        self.last = piece[piece.len() - 1];
        Ok(())
    }

    /// The line that an LF behind this part ends, if it isn't too long to be kept.
    pub fn line(&self) -> Option<&[u8]>
        ensures some { (text : List ℕ) → IsPart self.now text → ends_cr text ≡ true → IfSome result (λ line. line.now ≡ take (length text - 1) text) }
        ensures none { (text : List ℕ) → IsPart self.now text → ends_cr text ≡ true → IfNone result (1048577 < length text) }
    {
        let bytes = self.bytes.as_slice();
        if self.long || bytes.is_empty() {
            return None;
        }
        Some(&bytes[..bytes.len() - 1])
    }

    /// Whether the line that an LF behind this part ends is the dot.
    pub fn is_dot(&self) -> bool
        ensures { (text : List ℕ) → IsPart self.now text → ends_cr text ≡ true → result ≡ is_dot (take (length text - 1) text) }
    {
        match self.line() {
            Some(line) => line == b".".as_slice(),
            None => false,
        }
    }
}
