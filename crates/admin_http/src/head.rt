// Taking a head from a source.
ghost use Rattle.std.specs.Prelude.{◌≡◌, ◌≤◌, ℕ, List, Err, ◌++◌, length, IfOk, IfErr, IfSome, IfNone};
ghost use Rattle.std.specs.Io.KnownBytes.{Consumes};
ghost use Rattle.port_io.specs.Causes.{Rose};
ghost use Rattle.http_head.specs.Heads.{ReadsHead, IsOpenHead};
ghost use Rattle.http_head.specs.Progress.{IsProgress};
ghost use Rattle.admin_http.specs.Takes.{IsTakenHead, TakesHead};

use crate::pieces::{Dry, PIECE, read_piece};
use http_head::{Head, HeadFault, MOST_HEAD_OCTETS, Progress, RoutedHead, Routes, read_head};
use port_io::{Failed, Source};

/// How many octets a head and a piece behind it have at most.
pub const BUFFER_SIZE: usize = MOST_HEAD_OCTETS + PIECE;

/// A head that is whole or refused.
#[derive(Clone, Copy)]
pub enum TakenHead {
    /// A check refuses it.
    Refused {
        fault: HeadFault,
    },
    /// No check refuses it. The places are those of `Head::Whole`, in so many octets at the front of the buffer.
    Whole {
        routed: RoutedHead,
        target_start: usize,
        target_end: usize,
        body_start: usize,
        count: usize,
    },
}

// What is taken by the head of a text of so many octets; nothing yet, where it is open.
fn taken_head(head: Head, count: usize) -> Option<TakenHead>
    ensures some { (text : List ℕ) → count ≡ length text → ReadsHead text head → IfSome result (IsTakenHead text) }
    ensures none { IfNone result (head ≡ Head.Open) }
{
    match head {
        Head::Open => None,
        Head::Refused { fault } => Some(TakenHead::Refused { fault }),
        Head::Whole {
            routed,
            target_start,
            target_end,
            body_start,
        } => Some(TakenHead::Whole {
            routed,
            target_start,
            target_end,
            body_start,
            count,
        }),
    }
}

// The head of what has come, as soon as it is whole or refused. What stands in a line that hasn't ended may be refused
// later, by `last_head`.
fn next_head(routes: &Routes, progress: &mut Progress, text: &[u8]) -> Option<TakenHead>
    requires { IsProgress progress.old text.now }
    ensures some { IfSome result (IsTakenHead text.now) }
    ensures goes_on { IfNone result ((more : List ℕ) → IsProgress progress.new (text.now ++ more)) }
    ensures short { IfNone result (length text.now ≤ MOST_HEAD_OCTETS) }
{
    match progress.read(routes, text) {
        None => None,
        Some(head) => taken_head(head, text.len()),
    }
}

// The head of what has come, where no more comes for this reason.
fn last_head(routes: &Routes, text: &[u8], dry: Dry) -> Result<TakenHead, Dry>
    ensures ok { IfOk result (IsTakenHead text.now) }
    ensures err { IfErr result (λ e. (e ≡ dry) × IsOpenHead text.now) }
{
    match taken_head(read_head(routes, text), text.len()) {
        Some(head) => Ok(head),
        None => Err(dry),
    }
}

/// Takes a head into the front of a buffer, with what stands behind it in the last piece.
///
/// Each piece costs what is new, and the head is read anew only where that may tell more, so the whole costs the length of
/// a head and not its square, however small the pieces are.
pub fn take_head<S: Source>(
    routes: &Routes,
    source: &mut S,
    buffer: &mut [u8],
) -> Result<TakenHead, Dry>
    requires { length buffer.old ≡ BUFFER_SIZE }
    ensures took { (text : List ℕ) × Consumes (S.left source.old) (S.left source.new) text × TakesHead text buffer.new (S.left source.new) result }
    ensures fault { result ≡ Err Dry.Fault → Rose (S.faults source.old) (S.faults source.new) }
    ensures later { S.faults source.old ≤ S.faults source.new }
{
    let mut progress = Progress::new();
    let mut count = 0;
    loop {
        if let Some(head) = next_head(routes, &mut progress, &buffer[..count]) {
            return Ok(head);
        }
        match read_piece(source, buffer, count) {
            Ok(0) => return last_head(routes, &buffer[..count], Dry::End),
            Ok(more) => count += more,
            Err(Failed) => return last_head(routes, &buffer[..count], Dry::Fault),
        }
    }
}
