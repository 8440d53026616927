// Why a message goes to a target.
ghost use Rattle.std.specs.Prelude.{◌≡◌, ◌++◌, IfOk, OnOk, OnErr, codes};
ghost use Rattle.std.specs.List.{flat_map};
ghost use Rattle.journal_report.specs.Why.{hop, how_text, route_text, step_hop, step_text, steps_text, why_text};

use mail_names::{Bytes, How, Items, Key, NoMemory, Step, copied_keys, copied_steps};
use std::alloc::Global;

/// Why a message goes to a target.
#[derive(Drop, PartialEq)]
pub enum Why {
    /// The envelope names the target itself.
    Direct,
    /// As a member of these groups: the first is named in the envelope, each is a member of the one before, and
    /// the target is a member of the last.
    Via { groups: Items<Key> },
    /// The rule at this place, counted from 0, sends it a copy.
    Copied { rule: u32 },
    /// The rule at this place, counted from 0, sends it the message in place of another target.
    Redirected { rule: u32 },
    /// By these steps, from what the envelope names down: groups, and at least one mailbox that forwards.
    Through { steps: Items<Step> },
}

// Adds what stands between the keys of a route.
fn put_mark(into: &mut Bytes) -> Result<(), NoMemory>
    ensures { OnOk result (into.new ≡ into.old ++ codes " > ") }
{
    into.add(b" > ")
}

// Adds each key behind " > ".
fn put_hops(into: &mut Bytes, keys: &[Key]) -> Result<(), NoMemory>
    ensures { OnOk result (into.new ≡ into.old ++ flat_map hop keys.now) }
{
    for key in keys {
        put_mark(into)?;
        into.add(key.bytes())?;
    }
    Ok(())
}

fn put_route(into: &mut Bytes, groups: &[Key]) -> Result<(), NoMemory>
    ensures { OnOk result (into.new ≡ into.old ++ route_text groups.now) }
{
    match groups {
        [] => Ok(()),
        [first, rest @ ..] => {
            into.add(first.bytes())?;
            put_hops(into, rest)
        }
    }
}

fn put_how(into: &mut Bytes, how: How) -> Result<(), NoMemory>
    ensures { OnOk result (into.new ≡ into.old ++ how_text how) }
{
    match how {
        How::Expanded => Ok(()),
        How::Forwarded => into.add(b" (forwarded)"),
    }
}

fn put_step(into: &mut Bytes, step: &Step) -> Result<(), NoMemory>
    ensures { OnOk result (into.new ≡ into.old ++ step_text step.now) }
{
    into.add(step.key.bytes())?;
    put_how(into, step.how)
}

// Adds each step behind " > ".
fn put_step_hops(into: &mut Bytes, steps: &[Step]) -> Result<(), NoMemory>
    ensures { OnOk result (into.new ≡ into.old ++ flat_map step_hop steps.now) }
{
    for step in steps {
        put_mark(into)?;
        put_step(into, step)?;
    }
    Ok(())
}

fn put_steps(into: &mut Bytes, steps: &[Step]) -> Result<(), NoMemory>
    ensures { OnOk result (into.new ≡ into.old ++ steps_text steps.now) }
{
    match steps {
        [] => Ok(()),
        [first, rest @ ..] => {
            put_step(into, first)?;
            put_step_hops(into, rest)
        }
    }
}

impl Why {
    /// The same once more.
    pub fn copy(&self, alloc: Global) -> Result<Why, NoMemory>
        ensures { IfOk result (λ copy. copy ≡ self.now) }
    {
        match self {
            Why::Direct => Ok(Why::Direct),
            Why::Via { groups } => Ok(Why::Via {
                groups: copied_keys(alloc, groups.as_slice())?,
            }),
            Why::Copied { rule } => Ok(Why::Copied { rule: *rule }),
            Why::Redirected { rule } => Ok(Why::Redirected { rule: *rule }),
            Why::Through { steps } => Ok(Why::Through {
                steps: copied_steps(alloc, steps.as_slice())?,
            }),
        }
    }

    /// The text that says so right behind a key: nothing, ` via K > K` with the groups from the root,
    /// ` copied by rule I` or ` redirected by rule I`; or ` via K > K` with the keys of the steps, where ` (forwarded)`
    /// stands behind each that a mailbox forwarded.
    pub fn text(&self, alloc: Global) -> Result<Bytes, NoMemory>
        ensures { IfOk result (λ text. text ≡ why_text self.now) }
    {
        match self {
            Why::Direct => Ok(Bytes::new(alloc)),
            Why::Via { groups } => {
                let mut text = Bytes::of(alloc, b" via ")?;
                put_route(&mut text, groups.as_slice())?;
                Ok(text)
            }
            Why::Copied { rule } => {
                let text = format!(in alloc; " copied by rule {rule}")?;
                Bytes::of(alloc, text.as_bytes())
            }
            Why::Redirected { rule } => {
                let text = format!(in alloc; " redirected by rule {rule}")?;
                Bytes::of(alloc, text.as_bytes())
            }
            Why::Through { steps } => {
                let mut text = Bytes::of(alloc, b" via ")?;
                put_steps(&mut text, steps.as_slice())?;
                Ok(text)
            }
        }
    }
}

/// Appends the text of a reason, as `Why::text` has it. After want of memory nothing has changed.
pub fn add_why_text(alloc: Global, into: &mut Bytes, why: &Why) -> Result<(), NoMemory>
    ensures ok { OnOk result (into.new ≡ into.old ++ why_text why.now) }
    ensures err { OnErr result (into.new ≡ into.old) }
{
    let text = why.text(alloc)?;
    into.add(text.as_slice())
}
