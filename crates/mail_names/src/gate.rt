// Gates.
ghost use Rattle.std.specs.Prelude.{◌≡◌, IfOk};
ghost use Rattle.mail_names.specs.Gates.{same_gate};

use crate::{Key, NoMemory};
use std::alloc::Global;

/// What an approval is asked for: a moderated object, by its key, or a rule, by its place among the rules.
#[derive(Drop, PartialEq)]
pub enum Gate {
    Object { key: Key },
    Rule { place: u32 },
}

/// Whether these are one gate.
pub fn same_gate(a: &Gate, b: &Gate) -> bool
    ensures { result ≡ same_gate a.now b.now }
{
    match (a, b) {
        (Gate::Object { key }, Gate::Object { key: other }) => key.bytes() == other.bytes(),
        (Gate::Object { .. }, Gate::Rule { .. }) => false,
        (Gate::Rule { .. }, Gate::Object { .. }) => false,
        (Gate::Rule { place }, Gate::Rule { place: other }) => place == other,
    }
}

/// A copy of a gate.
pub fn copied_gate(alloc: Global, gate: &Gate) -> Result<Gate, NoMemory>
    ensures { IfOk result (λ copied. copied ≡ gate.now) }
{
    match gate {
        Gate::Object { key } => Ok(Gate::Object {
            key: key.copy(alloc)?,
        }),
        Gate::Rule { place } => Ok(Gate::Rule { place: *place }),
    }
}
