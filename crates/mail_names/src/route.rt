// Routes: the carriers that mail passes on its way to a leaf.
ghost use Rattle.std.specs.Prelude.{◌≡◌, IfOk, map};
ghost use Rattle.mail_names.specs.Steps.{has_forward, is_forward};

use crate::{Items, Key, NoMemory};
use std::alloc::Global;

/// How mail goes on from a carrier.
#[derive(Clone, Copy, Debug, PartialEq, Eq)]
pub enum How {
    /// To the members of a group.
    Expanded,
    /// By the forward of a mailbox.
    Forwarded,
}

/// A carrier that mail passes, a group or a mailbox with a forward, and how it goes on from there.
#[derive(Drop, PartialEq)]
pub struct Step {
    /// The carrier's key.
    pub key: Key,
    pub how: How,
}

fn copied_step(alloc: Global, step: &Step) -> Result<Step, NoMemory>
    ensures { IfOk result (λ copied. copied ≡ step.now) }
{
    Ok(Step {
        key: step.key.copy(alloc)?,
        how: step.how,
    })
}

/// A copy of a list of steps.
pub fn copied_steps(alloc: Global, steps: &[Step]) -> Result<Items<Step>, NoMemory>
    ensures { IfOk result (λ copied. copied ≡ steps.now) }
{
    let mut copied = Items::new(alloc);
    for step in steps {
        copied.push(copied_step(alloc, step)?)?;
    }
    Ok(copied)
}

/// The keys of steps, in order.
pub fn keys_of_steps(alloc: Global, steps: &[Step]) -> Result<Items<Key>, NoMemory>
    ensures { IfOk result (λ keys. keys ≡ map (λ s. s.key) steps.now) }
{
    let mut keys = Items::new(alloc);
    for step in steps {
        keys.push(step.key.copy(alloc)?)?;
    }
    Ok(keys)
}

fn is_forward(how: How) -> bool
    ensures { result ≡ is_forward how }
{
    matches!(how, How::Forwarded)
}

/// Whether a mailbox forwarded at one of these steps.
pub fn has_forward(steps: &[Step]) -> bool
    ensures { result ≡ has_forward steps.now }
{
    steps.iter().any(|step| is_forward(step.how))
}
