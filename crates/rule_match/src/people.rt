// What terms ask of a sender or a recipient.
ghost use Rattle.std.specs.Prelude.{◌≡◌, ◌<◌, IfOk, bytes_eq, length, slice_get};
ghost use Rattle.std.specs.List.{list_any};
ghost use Rattle.mail_names.specs.Key.{domain_of};
ghost use Rattle.org_directory.specs.Register.{among};
ghost use Rattle.rule_match.specs.Applies.{is_in_object, is_in_one, is_side};

use mail_names::{Bytes, Key, NoMemory};
use org_directory::Directory;
use rule_terms::Side;
use std::alloc::Global;

/// Whether the key is one of the list.
pub fn is_one(key: &Key, keys: &[Key]) -> bool
    ensures { result ≡ among key.now keys.now }
{
    keys.iter().any(|other| key == other)
}

fn is_same(a: &[u8], b: &[u8]) -> bool
    ensures { result ≡ bytes_eq a.now b.now }
{
    a == b
}

/// Whether the key's domain is one of the list.
pub fn is_of_one(key: &Key, domains: &[Bytes]) -> bool
    ensures { result ≡ among (domain_of key.now) domains.now }
{
    let domain = key.domain();
    domains
        .iter()
        .any(|other| is_same(domain, other.as_slice()))
}

// Whether the key is in the group at a place. A place that is no object's names nobody.
fn is_in_object(
    alloc: Global,
    directory: &Directory,
    place: u32,
    key: &Key,
) -> Result<bool, NoMemory>
    ensures { IfOk result (λ found. found ≡ is_in_object directory.now key.now (slice_get directory.now.objects place)) }
{
    if place as usize >= directory.len() {
        return Ok(false);
    }
    directory.in_group(alloc, place, key)
}

/// Whether the key is in a group at one of these places, at any depth.
pub fn is_in_one(
    alloc: Global,
    directory: &Directory,
    groups: &[u32],
    key: &Key,
) -> Result<bool, NoMemory>
    ensures { IfOk result (λ found. found ≡ is_in_one directory.now groups.now key.now) }
{
    for place in groups {
        if is_in_object(alloc, directory, *place, key)? {
            return Ok(true);
        }
    }
    Ok(false)
}

fn is_side(inside: bool, side: Side) -> bool
    ensures { result ≡ is_side inside side }
{
    match side {
        Side::Inside => inside,
        Side::Outside => !inside,
    }
}

/// Whether what is inside, or isn't, is on one of these sides.
pub fn is_on_one(inside: bool, sides: &[Side]) -> bool
    ensures { result ≡ list_any (is_side inside) sides.now }
{
    sides.iter().any(|side| is_side(inside, *side))
}
