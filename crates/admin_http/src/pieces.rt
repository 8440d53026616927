// Reading from a source in pieces.
ghost use Rattle.std.specs.Prelude.{◌≡◌, ◌+◌, ◌≤◌, ◌<◌, ℕ, List, [], ◌++◌, take, length, IfOk, OnErr, Ok, Err};
ghost use Rattle.std.specs.Io.KnownBytes.{Consumes, Keeps, IsAtEnd};
ghost use Rattle.port_io.specs.Causes.{HasCause, Rose};
ghost use Rattle.admin_http.specs.Pieces.{Got, Filled};

use port_io::{Failed, Source};

/// The most octets of a piece.
pub const PIECE: usize = 4096;

/// Why no more octets came.
#[derive(Clone, Copy, Debug, PartialEq, Eq)]
pub enum Dry {
    /// The input has ended.
    End,
    /// The input failed, and the source's count of faults rose.
    Fault,
}

/// Reads a piece to a place of a buffer. The count is that of its octets, and 0 is the end. What stands before it stays.
pub fn read_piece<S: Source>(source: &mut S, buffer: &mut [u8], at: usize) -> Result<usize, Failed>
    requires { at + PIECE ≤ length buffer.old }
    ensures bound { IfOk result (λ count. count ≤ PIECE) }
    ensures got { IfOk result (λ count. Got (S.left source.old) (S.left source.new) buffer.old buffer.new at count) }
    ensures front { take at buffer.new ≡ take at buffer.old }
    ensures end { result ≡ Ok 0 → IsAtEnd (S.left source.new) }
    ensures kept { OnErr result (Keeps (S.left source.old) (S.left source.new)) }
    ensures cause { HasCause (S.faults source.old) (S.faults source.new) result }
{
    match source.read(&mut buffer[at..at + PIECE]) {
        Ok(count) => Ok(count),
        Err(failed) => Err(failed),
    }
}

/// Fills a buffer from a place on, unless the input ends or fails before.
pub fn fill<S: Source>(source: &mut S, buffer: &mut [u8], start: usize) -> Result<(), Dry>
    requires { start ≤ length buffer.old }
    ensures filled { Filled (S.left source.old) (S.left source.new) buffer.old buffer.new start result }
    ensures fault { result ≡ Err Dry.Fault → Rose (S.faults source.old) (S.faults source.new) }
    ensures later { S.faults source.old ≤ S.faults source.new }
{
    let mut at = start;
    while at < buffer.len() {
        match source.read(&mut buffer[at..]) {
            Ok(0) => return Err(Dry::End),
            Ok(count) => at += count,
            Err(Failed) => return Err(Dry::Fault),
        }
    }
    Ok(())
}
