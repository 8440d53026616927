// The marked walk: each object is met once, and members are taken through `member_at` alone.
ghost use Rattle.std.specs.Prelude.{◌≡◌, ◌+◌, ◌-◌, ◌<◌, ◌≤◌, ◌++◌, ◌||◌, ℕ, List, false, IfOk, OnOk, All, length, slice_get, slice_set, [], ◌∷◌, get_or, map, Some, None, Bool};
ghost use Rattle.std.specs.List.{list_any};
ghost use Rattle.std.specs.Str.{bytes_eq};
ghost use Rattle.org_directory.specs.Register.{among, IsSound, is_carrier, is_end, key_at, is_inside, place_of};
ghost use Rattle.group_expand.specs.Ways.{first_of_each, here};
ghost use Rattle.group_expand.specs.declared.way.Way.{Way};
ghost use Rattle.group_expand.specs.Routes.{all_ways};
ghost use Rattle.group_expand.specs.Gates.{AreReady, shuts, ShutsSame};
ghost use Rattle.group_expand.specs.Places.{places_of, is_end_in, is_no_carrier, entered, entry, all_owed, owed, no_marks, Ready, Holds, Faces, Took, with_stranger};

use crate::gates::Gates;
use crate::way::Way;
use mail_names::{Items, Key, NoMemory, Steps};
use org_directory::{Directory, Kind, Object};
use std::alloc::Global;
use std::sync::ledger::Ledger;

/// A carrier that was entered, and how many of its members were taken.
#[derive(Clone, Copy)]
pub struct Entered {
    pub place: u32,
    pub taken: u32,
}

/// The keys of the carriers entered, from the root down.
fn route(alloc: Global, directory: &Directory, stack: &[Entered]) -> Result<Items<Key>, NoMemory>
    requires { All (λ e. e.place < length directory.now.objects) stack.now }
    ensures { IfOk result (λ r. r ≡ places_of directory.now stack.now) }
{
    let mut keys = Items::new(alloc);
    for entered in stack {
        keys.push(directory.object(entered.place).key.copy(alloc)?)?;
    }
    Ok(keys)
}

fn way(alloc: Global, directory: &Directory, stack: &[Entered], place: u32) -> Result<Way, NoMemory>
    requires stack { All (λ e. e.place < length directory.now.objects) stack.now }
    requires place { place < length directory.now.objects }
    ensures { IfOk result (λ w. w ≡ record { route = places_of directory.now stack.now; key = key_at directory.now place }) }
{
    let route = route(alloc, directory, stack)?;
    let key = directory.object(place).key.copy(alloc)?;
    Ok(Way { route, key })
}

/// Whether mail stays with an object: a contact, or a mailbox that doesn't forward or keeps.
pub fn is_end(object: &Object) -> bool
    ensures { result ≡ is_end object.now }
{
    !matches!(object.kind, Kind::Group) && (object.forward.is_none() || object.keep)
}

fn is_carrier(object: &Object) -> bool
    ensures { result ≡ is_carrier object.now }
{
    matches!(object.kind, Kind::Group) || object.forward.is_some()
}

/// Whether a way ends at the object of a place.
fn ends(directory: &Directory, is_closed: bool, place: u32) -> bool
    requires { place < length directory.now.objects }
    ensures { result ≡ (is_closed || is_end_in (slice_get directory.now.objects place)) }
{
    is_closed || is_end(directory.object(place))
}

/// Whether no way goes on from the object of a place.
fn stops(directory: &Directory, is_closed: bool, place: u32) -> bool
    requires { place < length directory.now.objects }
    ensures { result ≡ (is_closed || is_no_carrier (slice_get directory.now.objects place)) }
{
    is_closed || !is_carrier(directory.object(place))
}

/// Meets an object that wasn't met before: its way is found where one ends there, and it is entered where one goes on.
fn meet(
    alloc: Global,
    directory: &Directory,
    ends: bool,
    stops: bool,
    place: u32,
    stack: &mut Vec<Entered>,
    found: &mut Items<Way>,
) -> Result<(), NoMemory>
    requires stack { All (λ e. e.place < length directory.now.objects) stack.old.items }
    requires place { place < length directory.now.objects }
    ensures entered { OnOk result (stack.new.items ≡ entered stops stack.old.items place) }
    ensures found { OnOk result (found.new ≡ found.old ++ here ends (places_of directory.now stack.old.items) (key_at directory.now place)) }
{
    if ends {
        let way = way(alloc, directory, stack.as_slice(), place)?;
        found.push(way)?;
    }
    if stops {
        return Ok(());
    }
    stack.push(Entered { place, taken: 0 })?;
    Ok(())
}

/// Marks an object, and meets it.
fn visit(
    alloc: Global,
    directory: &Directory,
    gates: &mut Gates<'_>,
    place: u32,
    marks: &mut [bool],
    stack: &mut Vec<Entered>,
    found: &mut Items<Way>,
) -> Result<(), NoMemory>
    requires gates { AreReady directory.now gates.old }
    requires place { place < length directory.now.objects }
    requires new { get_or marks.old place false ≡ false }
    requires ready { Ready directory.now marks.old stack.old.items }
    ensures ready { OnOk result (Ready directory.now marks.new stack.new.items) }
    ensures gates { OnOk result (ShutsSame directory.now gates.old gates.new) }
    ensures met { (whole : List Way) → (roots : List (List ℕ)) → OnOk result (Faces directory.now (shuts directory.now gates.old) whole roots marks.old stack.old.items (key_at directory.now place) found.old → Holds directory.now (shuts directory.now gates.old) whole roots marks.new stack.new.items found.new) }
    ensures owed { OnOk result (all_owed directory.now marks.new stack.new.items ≤ all_owed directory.now marks.old stack.old.items) }
{
    marks[place as usize] = true;
    let is_closed = gates.is_shut(alloc, directory, place)?;
    let ends = ends(directory, is_closed, place);
    let stops = stops(directory, is_closed, place);
    meet(alloc, directory, ends, stops, place, stack, found)?;
    Ok(())
}

/// Takes the next member of the carrier that was entered last, or leaves that carrier.
fn next_member<L: Ledger>(
    directory: &Directory,
    stack: &mut Vec<Entered>,
    steps: &mut Steps<L>,
) -> Result<Option<u32>, NoMemory>
    requires sound { IsSound directory.now }
    requires more { 0 < length stack.old.items }
    requires ready { (marks : List Bool) × Ready directory.now marks stack.old.items }
    ensures step { IfOk result (λ taken. Took directory.now taken stack.old.items stack.new.items) }
    ensures cost { steps.new ≡ steps.old + 1 }
{
    let Some(top) = stack.pop() else {
        unreachable!();
    };
    match directory.member_at(top.place, top.taken, steps) {
        None => Ok(None),
        Some(member) => {
            stack.push(Entered {
                place: top.place,
                taken: top.taken + 1,
            })?;
            Ok(Some(member))
        }
    }
}

/// Takes one step of the walk.
fn step<L: Ledger>(
    alloc: Global,
    directory: &Directory,
    gates: &mut Gates<'_>,
    marks: &mut [bool],
    stack: &mut Vec<Entered>,
    found: &mut Items<Way>,
    steps: &mut Steps<L>,
) -> Result<(), NoMemory>
    requires gates { AreReady directory.now gates.old }
    requires ready { Ready directory.now marks.old stack.old.items }
    requires more { 0 < length stack.old.items }
    ensures ready { OnOk result (Ready directory.now marks.new stack.new.items) }
    ensures gates { OnOk result (ShutsSame directory.now gates.old gates.new) }
    ensures holds { (whole : List Way) → (roots : List (List ℕ)) → OnOk result (Holds directory.now (shuts directory.now gates.old) whole roots marks.old stack.old.items found.old → Holds directory.now (shuts directory.now gates.old) whole roots marks.new stack.new.items found.new) }
    ensures owed { OnOk result (all_owed directory.now marks.new stack.new.items + 1 ≤ all_owed directory.now marks.old stack.old.items) }
    ensures cost { steps.new ≡ steps.old + 1 }
{
    match next_member(directory, stack, steps)? {
        None => Ok(()),
        Some(member) => {
            if marks[member as usize] {
                return Ok(());
            }
            visit(alloc, directory, gates, member, marks, stack, found)?;
            Ok(())
        }
    }
}

/// Walks until no carrier is entered.
fn run<L: Ledger>(
    alloc: Global,
    directory: &Directory,
    gates: &mut Gates<'_>,
    marks: &mut [bool],
    stack: &mut Vec<Entered>,
    found: &mut Items<Way>,
    steps: &mut Steps<L>,
) -> Result<(), NoMemory>
    requires gates { AreReady directory.now gates.old }
    requires ready { Ready directory.now marks.old stack.old.items }
    ensures ready { OnOk result (Ready directory.now marks.new stack.new.items) }
    ensures gates { OnOk result (ShutsSame directory.now gates.old gates.new) }
    ensures done { OnOk result (stack.new.items ≡ []) }
    ensures holds { (whole : List Way) → (roots : List (List ℕ)) → OnOk result (Holds directory.now (shuts directory.now gates.old) whole roots marks.old stack.old.items found.old → Holds directory.now (shuts directory.now gates.old) whole roots marks.new stack.new.items found.new) }
    ensures cost { OnOk result (steps.new + all_owed directory.now marks.new stack.new.items ≤ steps.old + all_owed directory.now marks.old stack.old.items) }
    ensures bound { steps.new ≤ steps.old + all_owed directory.now marks.old stack.old.items }
{
    while !stack.is_empty() {
        step(alloc, directory, gates, marks, stack, found, steps)?;
    }
    Ok(())
}

fn is_way_to(key: &[u8], way: &Way) -> bool
    ensures { result ≡ bytes_eq key.now way.now.key }
{
    key == way.key.bytes()
}

fn has_way(found: &[Way], key: &[u8]) -> bool
    ensures { result ≡ list_any (λ w. bytes_eq key.now w.key) found.now }
{
    found.iter().any(|way| is_way_to(key, way))
}

pub fn is_found(found: &[Way], key: &[u8]) -> bool
    ensures { result ≡ among key.now (map (λ w. w.key) found.now) }
{
    has_way(found, key)
}

/// Meets a root that is no object.
fn stranger(
    alloc: Global,
    directory: &Directory,
    root: &Key,
    found: &mut Items<Way>,
) -> Result<(), NoMemory>
    ensures { OnOk result (found.new ≡ with_stranger (is_inside directory.now root.now) (among root.now (map (λ w. w.key) found.old)) found.old root.now) }
{
    if directory.is_inside(root) {
        return Ok(());
    }
    if is_found(found.as_slice(), root.bytes()) {
        return Ok(());
    }
    found.push(Way {
        route: Items::new(alloc),
        key: root.copy(alloc)?,
    })?;
    Ok(())
}

/// Walks from one root.
fn root_step<L: Ledger>(
    alloc: Global,
    directory: &Directory,
    gates: &mut Gates<'_>,
    root: &Key,
    marks: &mut [bool],
    stack: &mut Vec<Entered>,
    found: &mut Items<Way>,
    steps: &mut Steps<L>,
) -> Result<(), NoMemory>
    requires gates { AreReady directory.now gates.old }
    requires ready { Ready directory.now marks.old stack.old.items }
    requires empty { stack.old.items ≡ [] }
    ensures ready { OnOk result (Ready directory.now marks.new stack.new.items) }
    ensures gates { OnOk result (ShutsSame directory.now gates.old gates.new) }
    ensures done { OnOk result (stack.new.items ≡ []) }
    ensures holds { (whole : List Way) → (roots : List (List ℕ)) → OnOk result (Holds directory.now (shuts directory.now gates.old) whole (root.now ∷ roots) marks.old [] found.old → Holds directory.now (shuts directory.now gates.old) whole roots marks.new [] found.new) }
    ensures cost { OnOk result (steps.new + all_owed directory.now marks.new [] ≤ steps.old + all_owed directory.now marks.old []) }
    ensures bound { steps.new ≤ steps.old + all_owed directory.now marks.old [] }
{
    match directory.find(root) {
        None => {
            stranger(alloc, directory, root, found)?;
            Ok(())
        }
        Some(place) => {
            if marks[place as usize] {
                return Ok(());
            }
            visit(alloc, directory, gates, place, marks, stack, found)?;
            run(alloc, directory, gates, marks, stack, found, steps)?;
            Ok(())
        }
    }
}

/// Walks from each root, with no mark at the start.
fn walk_roots<L: Ledger>(
    alloc: Global,
    directory: &Directory,
    gates: &mut Gates<'_>,
    roots: &[Key],
    marks: &mut [bool],
    steps: &mut Steps<L>,
) -> Result<Items<Way>, NoMemory>
    requires gates { AreReady directory.now gates.old }
    requires fresh { marks.old ≡ no_marks directory.now.objects }
    ensures ways { IfOk result (λ ws. ws ≡ first_of_each (all_ways directory.now (shuts directory.now gates.old) roots.now)) }
    ensures gates { OnOk result (ShutsSame directory.now gates.old gates.new) }
    ensures cost { steps.new ≤ steps.old + owed directory.now.objects (no_marks directory.now.objects) }
{
    directory.is_sound();
    let mut stack = Vec::new(alloc);
    let mut found = Items::new(alloc);
    for root in roots {
        root_step(
            alloc, directory, gates, root, marks, &mut stack, &mut found, steps,
        )?;
    }
    Ok(found)
}

/// Every way, the first to each end alone.
pub fn first_ways<L: Ledger>(
    alloc: Global,
    directory: &Directory,
    gates: &mut Gates<'_>,
    roots: &[Key],
    steps: &mut Steps<L>,
) -> Result<Items<Way>, NoMemory>
    requires gates { AreReady directory.now gates.old }
    ensures ways { IfOk result (λ ws. ws ≡ first_of_each (all_ways directory.now (shuts directory.now gates.old) roots.now)) }
    ensures gates { OnOk result (ShutsSame directory.now gates.old gates.new) }
    ensures cost { steps.new ≤ steps.old + owed directory.now.objects (no_marks directory.now.objects) }
{
    let mut marks = vec![in alloc; false; directory.len()]?;
    walk_roots(alloc, directory, gates, roots, &mut marks, steps)
}
