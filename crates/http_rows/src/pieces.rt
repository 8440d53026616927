// Heads that come in pieces.
ghost use Rattle.std.specs.Prelude.{◌<◌};

use http_head::{Head, Progress, Routes, read_head};

/// What becomes of a head that comes in pieces of this length, and how many octets were read for it.
pub fn head_in_pieces(routes: &Routes, text: &[u8], piece: usize) -> (Head, u64)
    requires { 0 < piece }
{
    let mut progress = Progress::new();
    let mut octets = 0u64;
    let mut end = 0;
    while end < text.len() {
        end = text.len().min(end.saturating_add(piece));
        match progress.read(routes, &text[..end]) {
            None => {}
            Some(Head::Open) => octets = octets.saturating_add(end as u64),
            Some(head) => return (head, octets.saturating_add(end as u64)),
        }
    }
    (read_head(routes, text), octets)
}
