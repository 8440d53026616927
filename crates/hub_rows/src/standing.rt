// Rows that print how the hub stands.
ghost use Rattle.std.specs.Prelude.{◌<◌};

use crate::silent::Silent;
use crate::words::{cut, small};
use hub_core::State;
use mail_names::{Bytes, Gate, ItemName, NoMemory};
use mail_plan::ReleaseInput;
use std::alloc::Global;

/// How many submissions there are, whether an approval pends, how many items wait, the epoch, and the newest rules.
pub fn stand(alloc: Global, state: &State<Silent>) -> Result<Bytes, NoMemory> {
    let live = state.live().len();
    let pends = state.pends();
    let waiting = state.waiting_names(alloc)?.len();
    let epoch = state.epoch();
    let text = format!(in alloc;
        "live {live}; pends {pends}; waiting {waiting}; epoch {epoch}; rules "
    )?;
    let mut out = Bytes::of(alloc, text.as_bytes())?;
    out.add(state.texts().1)?;
    Ok(out)
}

/// Whether an item waits.
pub fn item(alloc: Global, state: &State<Silent>, word: &str) -> Result<Bytes, NoMemory> {
    match ItemName::read(word.as_bytes()) {
        None => Bytes::of(alloc, b"no name"),
        Some(name) => match state.item(&name) {
            None => Bytes::of(alloc, b"none"),
            Some(_) => Bytes::of(alloc, b"waits"),
        },
    }
}

fn add_gates(alloc: Global, out: &mut Bytes, gates: &[Gate]) -> Result<(), NoMemory> {
    for gate in gates {
        let text = match gate {
            Gate::Object { .. } => format!(in alloc; " an object")?,
            Gate::Rule { place } => format!(in alloc; " rule {place}")?,
        };
        out.add(text.as_bytes())?;
    }
    Ok(())
}

// What a release is made from.
fn made(alloc: Global, input: &ReleaseInput) -> Result<Bytes, NoMemory> {
    let (number, release, made) = (input.number(), input.release(), input.made());
    let text = format!(in alloc; "release {release} of {number} made at {made}; before:")?;
    let mut out = Bytes::of(alloc, text.as_bytes())?;
    match input.before() {
        None => out.add(b" none")?,
        Some(gates) => add_gates(alloc, &mut out, gates.as_slice())?,
    }
    out.add(b"; opened:")?;
    add_gates(alloc, &mut out, input.opened())?;
    Ok(out)
}

/// The first task of a worker.
pub fn task(alloc: Global, state: &State<Silent>, words: &str) -> Result<Bytes, NoMemory> {
    let (residue, workers) = cut(words);
    let (residue, workers) = (small(residue)?, small(workers)?);
    if residue >= workers {
        return Bytes::of(alloc, b"no worker");
    }
    match state.task(alloc, residue, workers)? {
        None => Bytes::of(alloc, b"none"),
        Some(task) => made(alloc, &task.input),
    }
}
