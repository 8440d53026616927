// Expansion by listing all paths, as the definition says it. It is slow, and the walk gives the same.
ghost use Rattle.std.specs.Prelude.{◌≡◌, ◌<◌, ◌++◌, [], ◌∷◌, false, not, All, IfOk, OnOk, length, map, filter, option_copied};
ghost use Rattle.org_directory.specs.Register.{among, key_at, keys_at, onward};
ghost use Rattle.group_expand.specs.Expansion.{closed_of, expanded, is_closed, leaf_of, Gives};
ghost use Rattle.group_expand.specs.Routes.{IsTable, all_ways, closed_met, kept, keys_of, leaves, shut_by, web_of};
ghost use Rattle.group_expand.specs.Ways.{first_of_each, here, ways};

use crate::approval::needs_approval;
use crate::gates::is_opened;
use crate::outcome::{Closed, ExpandFault, Expansion, Leaf, MOST_LEAVES};
use crate::routes::{has_key, put, unknown_roots};
use crate::walk::{is_end, is_found};
use crate::way::Way;
use mail_names::{Gate, Items, Key, NoMemory, copied_keys};
use org_directory::{Directory, Kind, Object};
use std::alloc::Global;

/// Whether the object at a place needs approval and its gate isn't opened.
fn is_shut(
    alloc: Global,
    directory: &Directory,
    id: u32,
    sender: Option<&Key>,
    opened: &[Gate],
) -> Result<bool, NoMemory>
    requires { id < length directory.now.objects }
    ensures { IfOk result (λ b. b ≡ is_closed directory.now (option_copied sender.entry) opened.now (key_at directory.now id)) }
{
    let needs = needs_approval(alloc, directory, id, sender)?;
    if !needs {
        return Ok(false);
    }
    let open = is_opened(&directory.object(id).key, opened);
    Ok(!open)
}

/// For each place whether its object is closed.
fn closed_table(
    alloc: Global,
    directory: &Directory,
    sender: Option<&Key>,
    opened: &[Gate],
) -> Result<Vec<bool>, NoMemory>
    ensures { IfOk result (λ t. IsTable directory.now (is_closed directory.now (option_copied sender.entry) opened.now) t.items) }
{
    directory.is_sound();
    let mut table = Vec::new(alloc);
    let count = directory.len() as u32;
    for id in 0..count {
        table.push(is_shut(alloc, directory, id, sender, opened)?)?;
    }
    Ok(table)
}

/// Whether the table says that the object of this key is closed.
fn is_shut_by(directory: &Directory, table: &[bool], key: &Key) -> bool
    requires { length table.now ≡ length directory.now.objects }
    ensures { result ≡ shut_by directory.now table.now key.now }
{
    match directory.find(key) {
        Some(place) => table[place as usize],
        None => false,
    }
}

/// The keys, and one more.
fn longer(alloc: Global, keys: &[Key], key: &Key) -> Result<Items<Key>, NoMemory>
    ensures { IfOk result (λ more. more ≡ keys.now ++ key.now ∷ []) }
{
    let mut more = copied_keys(alloc, keys)?;
    more.push(key.copy(alloc)?)?;
    Ok(more)
}

/// Whether a way may end at the key.
fn may_end(directory: &Directory, table: &[bool], key: &Key) -> bool
    requires { length table.now ≡ length directory.now.objects }
    ensures { result ≡ (web_of directory.now (shut_by directory.now table.now)).is_end key.now }
{
    if is_shut_by(directory, table, key) {
        return true;
    }
    match directory.find(key) {
        Some(place) => is_end(directory.object(place)),
        None => !directory.is_inside(key),
    }
}

/// Adds the way that ends at the key, if one may.
fn add_here(
    alloc: Global,
    is_end: bool,
    passed: &[Key],
    key: &Key,
    found: &mut Items<Way>,
) -> Result<(), NoMemory>
    ensures { OnOk result (found.new ≡ found.old ++ here is_end passed.now key.now) }
{
    if is_end {
        let route = copied_keys(alloc, passed)?;
        let key = key.copy(alloc)?;
        found.push(Way { route, key })?;
        return Ok(());
    }
    Ok(())
}

/// The places that mail to an object goes on to.
fn onward(alloc: Global, object: &Object) -> Result<Items<u32>, NoMemory>
    ensures { IfOk result (λ places. places ≡ onward object.now) }
{
    if matches!(object.kind, Kind::Group) {
        return Ok(Items::from_vec(Vec::from_slice(alloc, object.members.as_slice())?));
    }
    let mut places = Items::new(alloc);
    if let Some(forward) = object.forward {
        places.push(forward)?;
    }
    Ok(places)
}

/// The members, or the forward, that come next after the key.
fn next_members(
    alloc: Global,
    directory: &Directory,
    table: &[bool],
    key: &Key,
) -> Result<Items<u32>, NoMemory>
    requires { length table.now ≡ length directory.now.objects }
    ensures keys { IfOk result (λ places. keys_at directory.now places ≡ (web_of directory.now (shut_by directory.now table.now)).next key.now) }
    ensures range { IfOk result (λ places. All (λ p. p < length directory.now.objects) places) }
{
    directory.is_sound();
    if is_shut_by(directory, table, key) {
        return Ok(Items::new(alloc));
    }
    match directory.find(key) {
        Some(place) => onward(alloc, directory.object(place)),
        None => Ok(Items::new(alloc)),
    }
}

/// Adds every way from a key, behind the keys passed.
fn add_ways(
    alloc: Global,
    directory: &Directory,
    table: &[bool],
    room: usize,
    passed: &[Key],
    key: &Key,
    found: &mut Items<Way>,
) -> Result<(), NoMemory>
    requires { length table.now ≡ length directory.now.objects }
    ensures { OnOk result (found.new ≡ found.old ++ ways (web_of directory.now (shut_by directory.now table.now)) room passed.now key.now) }
{
    if room == 0 {
        return Ok(());
    }
    if has_key(passed, key.bytes()) {
        return Ok(());
    }
    add_here(alloc, may_end(directory, table, key), passed, key, found)?;
    let more = longer(alloc, passed, key)?;
    let behind = more.as_slice();
    let members = next_members(alloc, directory, table, key)?;
    for member in members.as_slice() {
        let next = &directory.object(*member).key;
        add_ways(alloc, directory, table, room - 1, behind, next, found)?;
    }
    Ok(())
}

/// Every way from each root.
fn all_ways(
    alloc: Global,
    directory: &Directory,
    table: &[bool],
    roots: &[Key],
) -> Result<Items<Way>, NoMemory>
    requires { length table.now ≡ length directory.now.objects }
    ensures { IfOk result (λ ws. ws ≡ all_ways directory.now (shut_by directory.now table.now) roots.now) }
{
    directory.is_sound();
    let mut found = Items::new(alloc);
    let room = directory.len() + 1;
    for root in roots {
        add_ways(alloc, directory, table, room, &[], root, &mut found)?;
    }
    Ok(found)
}

/// The first way to each end.
fn first_of_each(alloc: Global, ways: Vec<Way>) -> Result<Items<Way>, NoMemory>
    ensures { IfOk result (λ ws. ws ≡ first_of_each ways.items) }
{
    let mut first = Items::new(alloc);
    for way in ways {
        add_new(way, &mut first)?;
    }
    Ok(first)
}

/// Adds the way, unless one to its end is there.
fn add_new(way: Way, first: &mut Items<Way>) -> Result<(), NoMemory>
    ensures { OnOk result (first.new ≡ first.old ++ kept (not (among way.key (keys_of first.old))) way) }
{
    if is_found(first.as_slice(), way.key.bytes()) {
        return Ok(());
    }
    first.push(way)?;
    Ok(())
}

fn first_ways(
    alloc: Global,
    directory: &Directory,
    table: &[bool],
    roots: &[Key],
) -> Result<Items<Way>, NoMemory>
    requires { length table.now ≡ length directory.now.objects }
    ensures { IfOk result (λ ws. ws ≡ first_of_each (all_ways directory.now (shut_by directory.now table.now) roots.now)) }
{
    let ways = all_ways(alloc, directory, table, roots)?;
    first_of_each(alloc, ways.into_vec())
}

/// The ways in two parts: those to leaves, and those to closed objects.
fn parted(
    alloc: Global,
    directory: &Directory,
    table: &[bool],
    ways: Vec<Way>,
) -> Result<(Items<Leaf>, Items<Closed>), NoMemory>
    requires { length table.now ≡ length directory.now.objects }
    ensures leaves { IfOk result (λ parts. parts.0 ≡ map (leaf_of directory.now) (filter (λ w. not (shut_by directory.now table.now w.key)) ways.items)) }
    ensures closed { IfOk result (λ parts. parts.1 ≡ map (closed_of directory.now) (filter (λ w. shut_by directory.now table.now w.key) ways.items)) }
{
    let mut leaves = Items::new(alloc);
    let mut closed = Items::new(alloc);
    for way in ways {
        let is_closed = is_shut_by(directory, table, &way.key);
        put(alloc, directory, is_closed, way, &mut leaves, &mut closed)?;
    }
    Ok((leaves, closed))
}

fn leaf_count(alloc: Global, directory: &Directory, roots: &[Key]) -> Result<usize, NoMemory>
    ensures { IfOk result (λ n. n ≡ length (leaves directory.now (λ k. false) roots.now)) }
{
    let table = vec![in alloc; false; directory.len()]?;
    let ways = first_ways(alloc, directory, table.as_slice(), roots)?;
    Ok(ways.len())
}

fn met(
    alloc: Global,
    directory: &Directory,
    roots: &[Key],
    sender: Option<&Key>,
    opened: &[Gate],
) -> Result<(Items<Leaf>, Items<Closed>), NoMemory>
    ensures leaves { IfOk result (λ parts. parts.0 ≡ map (leaf_of directory.now) (leaves directory.now (is_closed directory.now (option_copied sender.entry) opened.now) roots.now)) }
    ensures closed { IfOk result (λ parts. parts.1 ≡ map (closed_of directory.now) (closed_met directory.now (is_closed directory.now (option_copied sender.entry) opened.now) roots.now)) }
{
    let table = closed_table(alloc, directory, sender, opened)?;
    let ways = first_ways(alloc, directory, table.as_slice(), roots)?;
    parted(alloc, directory, table.as_slice(), ways.into_vec())
}

/// What `expand` gives, by listing all paths. It can take time and memory for each path.
pub fn expand_plainly(
    alloc: Global,
    directory: &Directory,
    roots: &[Key],
    sender: Option<&Key>,
    opened: &[Gate],
) -> Result<Expansion, ExpandFault>
    ensures { Gives result (expanded directory.now roots.now (option_copied sender.entry) opened.now) }
{
    if leaf_count(alloc, directory, roots)? > MOST_LEAVES {
        return Err(ExpandFault::TooManyLeaves);
    }
    let (leaves, closed) = met(alloc, directory, roots, sender, opened)?;
    let unknown = unknown_roots(alloc, directory, roots)?;
    Ok(Expansion {
        leaves,
        closed,
        unknown,
    })
}
