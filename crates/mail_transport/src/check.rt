// The command `check` over any source and sink.
ghost use Rattle.std.specs.Prelude.{◌≡◌, map};
ghost use Rattle.port_io.specs.Causes.{Rose};
ghost use Rattle.mail_transport.specs.Run.{Checked, is_check};

use crate::status::{Status, checked};
use org_check::check;
use port_io::{Sink, Source};
use std::alloc::Global;

/// Whether the words are the command `check`.
pub fn is_check(words: &[&str]) -> bool
    ensures { result ≡ is_check (map (λ word. word.now) words.now) }
{
    match words {
        [word] => *word == "check",
        _ => false,
    }
}

/// Checks the organisation that the source has.
pub fn run_check<S: Source, K: Sink>(alloc: Global, source: &mut S, sink: &mut K) -> Status
    ensures checked { Checked (S.left source.old) (S.left source.new) (K.taken sink.old) (K.taken sink.new) result }
    ensures disk { result ≡ Status.DiskFault → ⊥ }
    ensures log { result ≡ Status.NotALog → ⊥ }
    ensures source { result ≡ Status.SourceFault → Rose (S.faults source.old) (S.faults source.new) }
    ensures sink { result ≡ Status.SinkFault → Rose (K.faults sink.old) (K.faults sink.new) }
    ensures usage { result ≡ Status.Usage → ⊥ }
{
    checked(check(alloc, source, sink))
}
