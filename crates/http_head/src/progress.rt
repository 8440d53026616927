// A head that comes in pieces.
ghost use Rattle.std.specs.Prelude.{◌≡◌, ◌≤◌, ◌&&◌, ◌||◌, ℕ, List, true, false, not, length, IfSome, IfNone};
ghost use Rattle.std.specs.List.{list_any, list_all};
ghost use Rattle.http_head.specs.Paths.{is_byte};
ghost use Rattle.http_head.specs.Heads.{is_line_end, ReadsHead, HasNoHead};
ghost use Rattle.http_head.specs.Progress.{IsProgress, GoesOn};

use crate::limits::MOST_HEAD_OCTETS;
use crate::octets::{has_line_feed, is_blank};
use crate::{Head, Routes, read_head};

/// How far a head that comes in pieces was looked at.
///
/// It is kept from piece to piece, beside all that has come. So a head is read anew only where that may tell more: where
/// a line of it has ended, and where more than an eighth of what has come wasn't there at the last reading. A head within
/// the limits has at most 66 lines, so however small its pieces are, what is read for it is at most 75 times as long as it.
#[derive(Clone, Copy, Debug, PartialEq, Eq)]
pub struct Progress {
    /// How many octets were looked at.
    pub seen: usize,
    /// Whether one of them is neither CR nor LF.
    pub has_begun: bool,
    /// How many octets had come when the head was last read.
    pub last_read: usize,
}

// Whether one of the octets looked at is neither CR nor LF, these among them.
fn has_begun(before: bool, piece: &[u8]) -> bool
    ensures { result ≡ (before || not (list_all is_line_end piece.now)) }
{
    before || !is_blank(piece)
}

// Whether reading a text of this size may tell more, where these octets of it are new.
fn is_due(size: usize, last_read: usize, has_begun: bool, piece: &[u8]) -> bool
    ensures short { result ≡ false → size ≤ MOST_HEAD_OCTETS }
    ensures quiet { result ≡ false → (has_begun && list_any (is_byte 10) piece.now) ≡ false }
{
    size > MOST_HEAD_OCTETS
        || size.saturating_sub(last_read) > size / 8
        || has_begun && has_line_feed(piece)
}

impl Progress {
    /// Nothing was looked at.
    pub fn new() -> Progress
        ensures { (text : List ℕ) → IsProgress result text }
    {
        Progress {
            seen: 0,
            has_begun: false,
            last_read: 0,
        }
    }

    /// Reads the head at the front of all that has come of a request, where what was not yet looked at may tell more. It
    /// takes no memory.
    ///
    /// A head that is whole is told of as soon as its last octet has come. None says that none is whole, and that
    /// `read_head` is to be asked if no more comes.
    pub fn read(&mut self, routes: &Routes, text: &[u8]) -> Option<Head>
        requires { IsProgress self.old text.now }
        ensures head { IfSome result (ReadsHead text.now) }
        ensures none { IfNone result (HasNoHead text.now) }
        ensures short { IfNone result (length text.now ≤ MOST_HEAD_OCTETS) }
        ensures goes_on { GoesOn result self.new text.now }
    {
        let piece = &text[self.seen..];
        self.has_begun = has_begun(self.has_begun, piece);
        self.seen = text.len();
        if !is_due(text.len(), self.last_read, self.has_begun, piece) {
            return None;
        }
        self.last_read = text.len();
        Some(read_head(routes, text))
    }
}
