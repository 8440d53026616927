// The calls that are planned to fail.
ghost use Rattle.std.specs.Prelude.{◌≡◌, [], drop};
ghost use Rattle.port_io.specs.Planned.{next_fails};

use mail_names::Bytes;
use std::alloc::Global;
use std::marker::Model;

/// Which calls to come are planned to fail. Contracts see a byte for each: a call fails where its byte is 1, and
/// behind the last byte none does.
#[derive(Drop)]
pub struct PlannedCalls {
    fails: Bytes,
    next: usize,
}

impl Model for PlannedCalls {
    ghost use Rattle.std.specs.Prelude.{List, ℕ, drop};

    ghost Value = { List ℕ };

    ghost view = { λ p. drop p.next p.fails };
}

impl PlannedCalls {
    /// No call fails. It takes no memory.
    pub fn none(alloc: Global) -> PlannedCalls
        ensures { result ≡ [] }
    {
        PlannedCalls::of(Bytes::new(alloc))
    }

    /// Call k fails where byte k is 1. It takes no memory.
    pub fn of(fails: Bytes) -> PlannedCalls
        ensures { result ≡ fails }
    {
        PlannedCalls { fails, next: 0 }
    }

    /// Whether the next call fails. The one behind it is then the next.
    pub fn next(&mut self) -> bool
        ensures fails { result ≡ next_fails self.old }
        ensures ahead { self.new ≡ drop 1 self.old }
    {
        match self.fails.as_slice().get(self.next) {
            Some(byte) => {
                let fails = *byte == 1;
                self.next += 1;
                fails
            }
            None => false,
        }
    }
}
