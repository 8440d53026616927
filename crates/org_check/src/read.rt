// The whole of a source.
ghost use Rattle.std.specs.Prelude.{◌≡◌, ◌<◌, ◌≤◌, List, ℕ, Ok, Err};
ghost use Rattle.std.specs.Io.KnownBytes.{Consumes};
ghost use Rattle.port_io.specs.Causes.{Rose};
ghost use Rattle.org_check.specs.Check.{ReadOf};

use mail_names::{Bytes, NoMemory};
use port_io::{Failed, Source, read_piece};
use std::alloc::Global;

/// Octets that are read at a time.
const PIECE: usize = 4096;

/// The most octets that are taken.
const LONGEST: usize = 33_554_432;

/// Why the whole of a source wasn't read.
#[derive(Clone, Copy, Debug, PartialEq, Eq)]
pub enum ReadEnd {
    /// The source failed, and its count of faults rose.
    Failed,
    NoMemory,
    /// So many octets were taken without an end: 33,554,432.
    TooLong,
}

/// All octets of a source, fewer than 33,554,432.
pub fn read_whole<S: Source>(alloc: Global, source: &mut S) -> Result<Bytes, ReadEnd>
    ensures read { (text : List ℕ) × Consumes (S.left source.old) (S.left source.new) text × ReadOf text (S.left source.new) result }
    ensures cause { result ≡ Err ReadEnd.Failed → Rose (S.faults source.old) (S.faults source.new) }
    ensures later { S.faults source.old ≤ S.faults source.new }
{
    let mut text = Bytes::new(alloc);
    let mut wire = [0u8; PIECE];
    let mut left = LONGEST;
    while left > 0 {
        let room = left.min(PIECE);
        let count = match read_piece(source, &mut wire, room) {
            Ok(0) => return Ok(text),
            Ok(count) => count,
            Err(Failed) => return Err(ReadEnd::Failed),
        };
        match text.add(&wire[..count]) {
            Ok(()) => {}
            Err(NoMemory) => return Err(ReadEnd::NoMemory),
        }
        left -= count;
    }
    Err(ReadEnd::TooLong)
}
