// Calls of the hub, each on the hub that its plant stands for.
use crate::answer::{Answer, Fault};
use hub_core::Limits;
use hub_planner::HubPlanner;
use mail_names::{ApprovalName, Bytes, ItemName, Items, Key};
use mail_plan::{Planner, Task, plan};
use mail_submission::{Origin, Submission};
use moderation::Verdict;
use plant_dev::{MemoryPlant, Plant};
use queue_store::{CommitEnd, Hub};
use std::alloc::Global;
use std::str;
use std::sync::Arc;

fn open(alloc: Global, plant: &mut MemoryPlant, limits: Limits) -> Result<Hub<HubPlanner>, Fault> {
    Ok(Hub::<HubPlanner>::open_hub(alloc, plant, limits)?)
}

// A text that isn't there where it is empty.
fn some(text: Bytes) -> Option<Bytes> {
    if text.as_slice().is_empty() {
        None
    } else {
        Some(text)
    }
}

/// Lets an organisation of these texts come into force.
pub fn organise(
    alloc: Global,
    plant: &mut MemoryPlant,
    limits: Limits,
    texts: (Bytes, Bytes),
    out: &mut Answer,
) -> Result<(), Fault> {
    let mut hub = open(alloc, plant, limits)?;
    let (directory, rules) = texts;
    let answer = hub.organise(alloc, plant, some(directory), some(rules));
    let opening = hub.opening();
    hub.settle(plant, opening)?;
    let line = format!(in alloc; "{answer:?}")?;
    out.line(line.as_str())
}

/// Submits a message from nobody to bob.
pub fn submit(
    alloc: Global,
    plant: &mut MemoryPlant,
    limits: Limits,
    message: Bytes,
    out: &mut Answer,
) -> Result<(), Fault> {
    let mut hub = open(alloc, plant, limits)?;
    let mut keys = Items::new(alloc);
    keys.push(Key::read(alloc, b"bob@example.com")?)?;
    let Ok(submission) = Submission::new(alloc, Origin::Smtp, None, keys, message) else {
        return Err(Fault::NoRow);
    };
    let answer = hub.submit_settled(alloc, plant, submission, 7);
    let line = format!(in alloc; "{answer:?}")?;
    out.line(line.as_str())
}

// A task by an organisation of this directory, in the place of the task's own.
fn by_other(
    alloc: Global,
    task: Task<HubPlanner>,
    directory: &Bytes,
) -> Result<Task<HubPlanner>, Fault> {
    let Ok(org) = HubPlanner::read_org(alloc, directory.as_slice(), b"") else {
        return Err(Fault::NoRow);
    };
    let Task { org: _, input } = task;
    Ok(Task {
        org: Arc::new(alloc, org)?,
        input,
    })
}

fn commit_by(
    alloc: Global,
    hub: &mut Hub<HubPlanner>,
    plant: &mut MemoryPlant,
    task: Task<HubPlanner>,
    directory: &Bytes,
) -> Result<CommitEnd, Fault> {
    let task = by_other(alloc, task, directory)?;
    let outcome = plan(alloc, task)?;
    Ok(hub.commit(alloc, plant, outcome)?)
}

/// Plans the first release that waits by an organisation of this directory, and commits it.
pub fn commit(
    alloc: Global,
    plant: &mut MemoryPlant,
    limits: Limits,
    directory: &Bytes,
    out: &mut Answer,
) -> Result<(), Fault> {
    let mut hub = open(alloc, plant, limits)?;
    let Some(task) = hub.take(alloc, plant, 0, 1)? else {
        return out.line("nothing waits");
    };
    let end = commit_by(alloc, &mut hub, plant, task, directory)?;
    let opening = hub.opening();
    hub.settle(plant, opening)?;
    let line = format!(in alloc; "{end:?}")?;
    out.line(line.as_str())
}

fn read_verdict(word: &str) -> Result<Verdict, Fault> {
    match word {
        "approve" => Ok(Verdict::Approve),
        "reject" => Ok(Verdict::Reject),
        _ => Err(Fault::NoRow),
    }
}

// Decides on the approval that words name: its name, a key and a verdict.
fn decide_by(
    alloc: Global,
    hub: &mut Hub<HubPlanner>,
    plant: &mut MemoryPlant,
    words: &str,
    moment: u64,
    out: &mut Answer,
) -> Result<(), Fault> {
    let (name, rest) = words.split_once(' ').unwrap_or((words, ""));
    let (key, verdict) = rest.split_once(' ').unwrap_or((rest, ""));
    let name = ApprovalName::read(name.as_bytes()).ok_or(Fault::NoRow)?;
    let by = Key::read(alloc, key.as_bytes())?;
    let verdict = read_verdict(verdict)?;
    let answer = hub.decide(alloc, plant, &name, &by, verdict, moment);
    let line = format!(in alloc; "{answer:?}")?;
    out.line(line.as_str())
}

/// Decides, and then categorises all and makes a turn.
pub fn decide(
    alloc: Global,
    plant: &mut MemoryPlant,
    limits: Limits,
    words: &str,
    moment: u64,
    out: &mut Answer,
) -> Result<(), Fault> {
    let mut hub = open(alloc, plant, limits)?;
    decide_by(alloc, &mut hub, plant, words, moment, out)?;
    hub.categorise_all(alloc, plant)?;
    Ok(hub.turn(alloc, plant, moment)?)
}

/// Makes a turn.
pub fn turn(
    alloc: Global,
    plant: &mut MemoryPlant,
    limits: Limits,
    moment: u64,
    out: &mut Answer,
) -> Result<(), Fault> {
    let mut hub = open(alloc, plant, limits)?;
    let answer = hub.turn(alloc, plant, moment);
    let line = format!(in alloc; "{answer:?}")?;
    out.line(line.as_str())
}

// Adds an item's name and its lines.
fn add_item(
    alloc: Global,
    plant: &mut MemoryPlant,
    folder: &Key,
    name: &ItemName,
    out: &mut Answer,
) -> Result<(), Fault> {
    let text = name.text(alloc)?;
    out.line(str::from_utf8(text.as_slice()).unwrap_or("no name"))?;
    let item = plant.fetch(alloc, folder, name)?.ok_or(Fault::NoRow)?;
    out.lines("| ", item.as_slice())
}

/// Adds the items of a folder.
pub fn add_folder(
    alloc: Global,
    plant: &mut MemoryPlant,
    key: &str,
    out: &mut Answer,
) -> Result<(), Fault> {
    let folder = Key::read(alloc, key.as_bytes())?;
    let names = plant.list(alloc, &folder)?;
    let line = format!(in alloc; "{key} has {}", names.len())?;
    out.line(line.as_str())?;
    for name in names.as_slice() {
        add_item(alloc, plant, &folder, name, out)?;
    }
    Ok(())
}
