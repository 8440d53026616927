// Which objects need approval.
ghost use Rattle.std.specs.Prelude.{◌≡◌, ◌<◌, All, IfOk, OnOk, length, option_copied, Some};
ghost use Rattle.std.specs.List.{list_any};
ghost use Rattle.org_directory.specs.Register.{key_at, keys_at, InRange};
ghost use Rattle.org_directory.specs.Membership.{is_in, is_cleared, needs_approval};
ghost use Rattle.group_expand.specs.Groups.{KnowsGroups};

use crate::groups::Groups;
use mail_names::{Key, NoMemory};
use org_directory::{Directory, Object};
use std::alloc::Global;

/// Whether the sender is in one of the groups.
fn is_in_some(
    alloc: Global,
    directory: &Directory,
    bypass: &[u32],
    sender: &Key,
    groups: &mut Groups,
) -> Result<bool, NoMemory>
    requires range { All (λ p. p < length directory.now.objects) bypass.now }
    requires groups { KnowsGroups directory.now (Some sender.now) groups.old }
    ensures answer { IfOk result (λ b. b ≡ list_any (λ g. is_in directory.now g sender.now) (keys_at directory.now bypass.now)) }
    ensures groups { OnOk result (KnowsGroups directory.now (Some sender.now) groups.new) }
{
    for place in bypass {
        if groups.has(alloc, directory, *place, sender)? {
            return Ok(true);
        }
    }
    Ok(false)
}

/// Whether the sender is a moderator, an owner, a bypass key or in a bypass group.
fn is_cleared(
    alloc: Global,
    directory: &Directory,
    object: &Object,
    sender: &Key,
    groups: &mut Groups,
) -> Result<bool, NoMemory>
    requires range { InRange (length directory.now.objects) object.now }
    requires groups { KnowsGroups directory.now (Some sender.now) groups.old }
    ensures answer { IfOk result (λ b. b ≡ is_cleared directory.now object.now (Some sender.now)) }
    ensures groups { OnOk result (KnowsGroups directory.now (Some sender.now) groups.new) }
{
    if directory.lists(object.moderators.as_slice(), sender) {
        return Ok(true);
    }
    if directory.lists(object.owners.as_slice(), sender) {
        return Ok(true);
    }
    if directory.lists(object.bypass.as_slice(), sender) {
        return Ok(true);
    }
    is_in_some(alloc, directory, object.bypass.as_slice(), sender, groups)
}

/// What `needs_approval` gives, by what is known of the sender's groups: it learns of each that it asks.
pub fn needs_approval_with(
    alloc: Global,
    directory: &Directory,
    id: u32,
    sender: Option<&Key>,
    groups: &mut Groups,
) -> Result<bool, NoMemory>
    requires place { id < length directory.now.objects }
    requires groups { KnowsGroups directory.now (option_copied sender) groups.old }
    ensures answer { IfOk result (λ b. b ≡ needs_approval directory.now (key_at directory.now id) (option_copied sender.entry)) }
    ensures groups { OnOk result (KnowsGroups directory.now (option_copied sender.entry) groups.new) }
{
    directory.is_sound();
    let object = directory.object(id);
    if !object.moderated {
        return Ok(false);
    }
    match sender {
        None => Ok(true),
        Some(sender) => {
            let cleared = is_cleared(alloc, directory, object, sender, groups)?;
            Ok(!cleared)
        }
    }
}

/// Whether the object at a place needs approval for a sender, where None is the null sender: it is moderated, and the
/// sender is none of its moderators, owners and bypass keys and in none of its bypass groups.
pub fn needs_approval(
    alloc: Global,
    directory: &Directory,
    id: u32,
    sender: Option<&Key>,
) -> Result<bool, NoMemory>
    requires { id < length directory.now.objects }
    ensures { IfOk result (λ b. b ≡ needs_approval directory.now (key_at directory.now id) (option_copied sender.entry)) }
{
    let mut groups = Groups::new(alloc);
    needs_approval_with(alloc, directory, id, sender, &mut groups)
}
