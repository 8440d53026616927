// The second pass: each key gets its place, unless a record names what it may not.
ghost use Rattle.std.specs.Prelude.{◌≡◌, ◌<◌, ◌≤◌, IfOk, is_some, length, map};
ghost use Rattle.std.specs.List.{list_all, list_any};
ghost use Rattle.org_directory.specs.Reading.{are_known, fault_of, first_place, group_at, keys_of, names_group, names_well, place_in, place_or_0, placed, second_pass, Gives, both_passes};
ghost use Rattle.org_directory.specs.Drafts.{IsKept, taken_of};

use crate::directory::Directory;
use crate::draft::{Draft, Drafts};
use crate::fault::DirectoryFault;
use crate::names::Names;
use crate::object::{Kind, Object};
use mail_names::{Items, NoMemory};
use std::alloc::Global;

fn is_named(named: &Names, name: &[u8]) -> bool
    ensures { result ≡ is_some (place_in named.now name.now) }
{
    named.place(name).is_some()
}

/// Whether each key of the list is named.
fn are_known(named: &Names, list: &Names) -> bool
    ensures { result ≡ are_known named.now list.now }
{
    for i in 0..list.len() {
        if !is_named(named, list.name(i)) {
            return false;
        }
    }
    true
}

fn is_group_at(drafts: &[Draft], place: Option<usize>) -> bool
    ensures { result ≡ group_at drafts.now place }
{
    match place {
        None => false,
        Some(place) => match drafts.get(place) {
            None => false,
            Some(draft) => matches!(draft.kind, Kind::Group),
        },
    }
}

/// Whether the key is that of a group.
fn names_group(drafts: &Drafts, name: &[u8]) -> bool
    requires { drafts.now.keys ≡ keys_of drafts.now.drafts }
    ensures { result ≡ names_group drafts.now.drafts name.now }
{
    is_group_at(drafts.drafts.as_slice(), drafts.keys.place(name))
}

/// Whether a key of the list is that of a group.
fn name_a_group(drafts: &Drafts, list: &Names) -> bool
    requires { drafts.now.keys ≡ keys_of drafts.now.drafts }
    ensures { result ≡ list_any (names_group drafts.now.drafts) list.now }
{
    for i in 0..list.len() {
        if names_group(drafts, list.name(i)) {
            return true;
        }
    }
    false
}

fn names_well(drafts: &Drafts, draft: &Draft) -> bool
    requires { drafts.now.keys ≡ keys_of drafts.now.drafts }
    ensures { result ≡ names_well drafts.now.drafts draft.now }
{
    are_known(&drafts.keys, &draft.members)
        && are_known(&drafts.keys, &draft.owners)
        && are_known(&drafts.keys, &draft.moderators)
        && are_known(&drafts.keys, &draft.bypass)
        && !name_a_group(drafts, &draft.moderators)
        && are_known(&drafts.keys, &draft.forward)
}

fn fault_of(drafts: &Drafts, draft: &Draft) -> Option<DirectoryFault>
    requires { drafts.now.keys ≡ keys_of drafts.now.drafts }
    ensures { result ≡ fault_of drafts.now.drafts draft.now }
{
    if !names_well(drafts, draft) {
        return Some(DirectoryFault::UnknownMember { row: draft.row });
    }
    if draft.moderated && draft.moderators.len() == 0 {
        return Some(DirectoryFault::NoModerators { row: draft.row });
    }
    None
}

/// The first fault of the second pass.
fn second_pass(drafts: &Drafts) -> Option<DirectoryFault>
    requires { drafts.now.keys ≡ keys_of drafts.now.drafts }
    ensures { result ≡ second_pass drafts.now.drafts drafts.now.drafts }
{
    for draft in drafts.drafts.as_slice() {
        match fault_of(drafts, draft) {
            None => (),
            Some(fault) => return Some(fault),
        }
    }
    None
}

fn place_or_0(named: &Names, name: &[u8]) -> u32
    requires { length named.now ≤ 20000 }
    ensures { result ≡ place_or_0 named.now name.now }
{
    match named.place(name) {
        None => 0,
        Some(place) => place as u32,
    }
}

/// The places of the keys of a list.
fn places(alloc: Global, named: &Names, list: &Names) -> Result<Items<u32>, NoMemory>
    requires { length named.now ≤ 20000 }
    ensures { IfOk result (λ places. places ≡ map (place_or_0 named.now) list.now) }
{
    let mut places = Items::new(alloc);
    for i in 0..list.len() {
        places.push(place_or_0(named, list.name(i)))?;
    }
    Ok(places)
}

/// The place of the key that a mailbox forwards to, if there is one.
fn forward_place(named: &Names, forward: &Names) -> Option<u32>
    requires { length named.now ≤ 20000 }
    ensures { result ≡ first_place (map (place_or_0 named.now) forward.now) }
{
    if forward.len() == 0 {
        return None;
    }
    Some(place_or_0(named, forward.name(0)))
}

/// The object, with places for keys.
fn placed(alloc: Global, named: &Names, draft: Draft) -> Result<Object, NoMemory>
    requires { length named.now ≤ 20000 }
    ensures { IfOk result (λ object. object ≡ placed named.now draft) }
{
    let members = places(alloc, named, &draft.members)?;
    let owners = places(alloc, named, &draft.owners)?;
    let moderators = places(alloc, named, &draft.moderators)?;
    let bypass = places(alloc, named, &draft.bypass)?;
    Ok(Object {
        key: draft.key,
        kind: draft.kind,
        members,
        owners,
        moderated: draft.moderated,
        moderators,
        bypass,
        tell: draft.tell,
        forward: forward_place(named, &draft.forward),
        keep: draft.keep,
    })
}

fn all_placed(alloc: Global, named: &Names, drafts: Vec<Draft>) -> Result<Items<Object>, NoMemory>
    requires { length named.now ≤ 20000 }
    ensures { IfOk result (λ objects. objects ≡ map (placed named.now) drafts.items) }
{
    let mut objects = Items::new(alloc);
    for draft in drafts {
        objects.push(placed(alloc, named, draft)?)?;
    }
    Ok(objects)
}

/// The directory of what the first pass read, or the first fault of the second.
pub fn both_passes(alloc: Global, drafts: Drafts) -> Result<Directory, DirectoryFault>
    requires { IsKept drafts }
    ensures { Gives result (both_passes (taken_of drafts)) }
{
    match second_pass(&drafts) {
        Some(fault) => Err(fault),
        None => {
            let Drafts {
                domains,
                keys,
                drafts,
                ..
            } = drafts;
            let objects = all_placed(alloc, &keys, drafts.into_vec())?;
            Ok(Directory::of(domains, keys, objects))
        }
    }
}
