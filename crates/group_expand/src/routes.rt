// Expansion: leaves, closed objects and unknown roots, each by its first path.
ghost use Rattle.std.specs.Prelude.{◌≡◌, ◌≤◌, ◌+◌, ◌*◌, ◌++◌, false, not, IfOk, OnOk, Some, length, map, filter, option_copied};
ghost use Rattle.org_directory.specs.Register.{among, object_of, place_of, is_inside};
ghost use Rattle.group_expand.specs.Routes.{leaves, unknown, kept, closed_met, is_unknown, with_unknown};
ghost use Rattle.group_expand.specs.Gates.{AreReady, shuts};
ghost use Rattle.group_expand.specs.Places.{owed, no_marks, entries, carriers};
ghost use Rattle.group_expand.specs.Expansion.{is_closed, expanded, leaf_of, closed_of, how_in, step_of, Gives};

use crate::gates::Gates;
use crate::outcome::{Closed, ExpandFault, Expansion, Leaf, MOST_LEAVES};
use crate::walk::first_ways;
use crate::way::Way;
use mail_names::{Gate, How, Items, Key, NoMemory, Step, Steps};
use org_directory::{Directory, Object};
use std::alloc::Global;
use std::sync::ledger::Ledger;

/// How mail goes on from the object of this key: by its forward where it has one, and else to its members.
fn how(directory: &Directory, key: &Key) -> How
    ensures { result ≡ how_in (object_of directory.now key.now) }
{
    match directory.find(key) {
        Some(place) => how_from(directory.object(place)),
        None => How::Expanded,
    }
}

fn how_from(object: &Object) -> How
    ensures { result ≡ how_in (Some object.now) }
{
    match object.forward {
        Some(_) => How::Forwarded,
        None => How::Expanded,
    }
}

/// The steps of a route, given by the keys of its carriers.
fn steps_of(
    alloc: Global,
    directory: &Directory,
    route: Items<Key>,
) -> Result<Items<Step>, NoMemory>
    ensures { IfOk result (λ steps. steps ≡ map (step_of directory.now) route) }
{
    let mut steps = Items::new(alloc);
    for key in route.into_vec() {
        let how = how(directory, &key);
        steps.push(Step { key, how })?;
    }
    Ok(steps)
}

/// Puts a way among the closed objects or among the leaves.
pub fn put(
    alloc: Global,
    directory: &Directory,
    is_closed: bool,
    way: Way,
    leaves: &mut Items<Leaf>,
    closed: &mut Items<Closed>,
) -> Result<(), NoMemory>
    ensures leaves { OnOk result (leaves.new ≡ leaves.old ++ map (leaf_of directory.now) (kept (not is_closed) way)) }
    ensures closed { OnOk result (closed.new ≡ closed.old ++ map (closed_of directory.now) (kept is_closed way)) }
{
    let Way { route, key } = way;
    let route = steps_of(alloc, directory, route)?;
    if is_closed {
        closed.push(Closed { key, route })?;
        return Ok(());
    }
    leaves.push(Leaf { key, route })?;
    Ok(())
}

/// The ways in two parts: those to leaves, and those to closed objects.
fn parted(
    alloc: Global,
    directory: &Directory,
    gates: &mut Gates<'_>,
    ways: Vec<Way>,
) -> Result<(Items<Leaf>, Items<Closed>), NoMemory>
    requires { AreReady directory.now gates.old }
    ensures leaves { IfOk result (λ parts. parts.0 ≡ map (leaf_of directory.now) (filter (λ w. not (shuts directory.now gates.old w.key)) ways.items)) }
    ensures closed { IfOk result (λ parts. parts.1 ≡ map (closed_of directory.now) (filter (λ w. shuts directory.now gates.old w.key) ways.items)) }
{
    let mut leaves = Items::new(alloc);
    let mut closed = Items::new(alloc);
    for way in ways {
        let is_closed = gates.shuts(alloc, directory, &way.key)?;
        put(alloc, directory, is_closed, way, &mut leaves, &mut closed)?;
    }
    Ok((leaves, closed))
}

/// The leaves, and the closed objects that are met.
fn met<L: Ledger>(
    alloc: Global,
    directory: &Directory,
    roots: &[Key],
    sender: Option<&Key>,
    opened: &[Gate],
    steps: &mut Steps<L>,
) -> Result<(Items<Leaf>, Items<Closed>), NoMemory>
    ensures leaves { IfOk result (λ parts. parts.0 ≡ map (leaf_of directory.now) (leaves directory.now (is_closed directory.now (option_copied sender.entry) opened.now) roots.now)) }
    ensures closed { IfOk result (λ parts. parts.1 ≡ map (closed_of directory.now) (closed_met directory.now (is_closed directory.now (option_copied sender.entry) opened.now) roots.now)) }
    ensures cost { steps.new ≤ steps.old + owed directory.now.objects (no_marks directory.now.objects) }
{
    let mut gates = Gates::new(alloc, directory, sender, opened)?;
    let ways = first_ways(alloc, directory, &mut gates, roots, steps)?;
    parted(alloc, directory, &mut gates, ways.into_vec())
}

/// How many leaves there are with every gate taken as opened.
fn leaf_count<L: Ledger>(
    alloc: Global,
    directory: &Directory,
    roots: &[Key],
    steps: &mut Steps<L>,
) -> Result<usize, NoMemory>
    ensures count { IfOk result (λ n. n ≡ length (leaves directory.now (λ k. false) roots.now)) }
    ensures cost { steps.new ≤ steps.old + owed directory.now.objects (no_marks directory.now.objects) }
{
    let mut gates = Gates::all_open(alloc, directory)?;
    let ways = first_ways(alloc, directory, &mut gates, roots, steps)?;
    Ok(ways.len())
}

pub fn has_key(keys: &[Key], key: &[u8]) -> bool
    ensures { result ≡ among key.now keys.now }
{
    keys.iter().any(|k| key == k.bytes())
}

/// Adds a root that is unknown and isn't there.
fn add_unknown(
    alloc: Global,
    directory: &Directory,
    root: &Key,
    keys: &mut Items<Key>,
) -> Result<(), NoMemory>
    ensures { OnOk result (keys.new ≡ with_unknown (is_unknown (place_of directory.now root.now) (is_inside directory.now root.now)) (among root.now keys.old) keys.old root.now) }
{
    match directory.find(root) {
        Some(_) => Ok(()),
        None => {
            if !directory.is_inside(root) {
                return Ok(());
            }
            if has_key(keys.as_slice(), root.bytes()) {
                return Ok(());
            }
            keys.push(root.copy(alloc)?)?;
            Ok(())
        }
    }
}

/// The roots inside that are no object, each once.
pub fn unknown_roots(
    alloc: Global,
    directory: &Directory,
    roots: &[Key],
) -> Result<Items<Key>, NoMemory>
    ensures { IfOk result (λ keys. keys ≡ unknown directory.now roots.now) }
{
    let mut keys = Items::new(alloc);
    for root in roots {
        add_unknown(alloc, directory, root, &mut keys)?;
    }
    Ok(keys)
}

/// What the roots expand to for a sender, with these gates opened: the leaves, the closed objects and the unknown roots,
/// each once, by its first path. TooManyLeaves comes exactly where there are more than `MOST_LEAVES` leaves with every gate
/// taken as opened. Each member or forward that is read counts one step.
#[tactic(auto, using(crate::proofs::Steps::costs_of))]
pub fn expand<L: Ledger>(
    alloc: Global,
    directory: &Directory,
    roots: &[Key],
    sender: Option<&Key>,
    opened: &[Gate],
    steps: &mut Steps<L>,
) -> Result<Expansion, ExpandFault>
    ensures gives { Gives result (expanded directory.now roots.now (option_copied sender.entry) opened.now) }
    ensures cost { steps.new ≤ steps.old + 2 * (entries directory.now.objects + carriers directory.now.objects) }
{
    if leaf_count(alloc, directory, roots, steps)? > MOST_LEAVES {
        return Err(ExpandFault::TooManyLeaves);
    }
    let (leaves, closed) = met(alloc, directory, roots, sender, opened, steps)?;
    let unknown = unknown_roots(alloc, directory, roots)?;
    Ok(Expansion {
        leaves,
        closed,
        unknown,
    })
}
