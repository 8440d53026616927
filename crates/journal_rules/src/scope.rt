// Which mail a journal rule takes.
ghost use Rattle.std.specs.Prelude.{◌≡◌, ◌<◌, ◌||◌, length, IfOk, Some, slice_get, option_copied};
ghost use Rattle.org_directory.specs.Register.{key_at};
ghost use Rattle.journal_rules.specs.Taking.{is_sender_inside, is_in_scope, is_or_has, is_about, is_recipient, takes};
ghost use Rattle.org_directory.specs.declared.object.Object.{Object};

use mail_names::{Key, NoMemory};
use org_directory::Directory;
use rule_terms::{JournalRule, Scope};
use std::alloc::Global;

fn is_sender_inside(directory: &Directory, sender: Option<&Key>) -> bool
    ensures { result ≡ is_sender_inside directory.now (option_copied sender.entry) }
{
    match sender {
        None => false,
        Some(sender) => directory.is_inside(sender),
    }
}

fn is_in_scope(scope: Scope, sender_inside: bool, target_inside: bool) -> bool
    ensures { result ≡ is_in_scope scope sender_inside target_inside }
{
    match scope {
        Scope::Internal => sender_inside && target_inside,
        Scope::External => !sender_inside || !target_inside,
        Scope::Global => true,
    }
}

// Whether the object at a place has this key, or is a group with it at any depth.
fn is_or_has(alloc: Global, directory: &Directory, place: u32, key: &Key) -> Result<bool, NoMemory>
    requires { place < length directory.now.objects }
    ensures { (o : Object) → slice_get directory.now.objects place ≡ Some o → IfOk result (λ b. b ≡ is_or_has directory.now key.now o) }
{
    if *key == directory.object(place).key {
        return Ok(true);
    }
    directory.in_group(alloc, place, key)
}

// Whether the object at a place is, or has, the sender or the target.
fn is_about(
    alloc: Global,
    directory: &Directory,
    place: u32,
    sender: Option<&Key>,
    target: &Key,
) -> Result<bool, NoMemory>
    ensures { IfOk result (λ b. b ≡ is_about directory.now (option_copied sender.entry) target.now (slice_get directory.now.objects place)) }
{
    if place as usize >= directory.len() {
        return Ok(false);
    }
    if let Some(sender) = sender {
        if is_or_has(alloc, directory, place, sender)? {
            return Ok(true);
        }
    }
    is_or_has(alloc, directory, place, target)
}

fn is_recipient(
    alloc: Global,
    directory: &Directory,
    recipient: Option<u32>,
    sender: Option<&Key>,
    target: &Key,
) -> Result<bool, NoMemory>
    ensures { IfOk result (λ b. b ≡ is_recipient directory.now (option_copied sender.entry) target.now recipient) }
{
    match recipient {
        None => Ok(true),
        Some(place) => is_about(alloc, directory, place, sender, target),
    }
}

/// Whether a journal rule takes mail of a sender, where None is the null sender, to a target: its scope holds, and its
/// journal recipient, where it has one, is the sender or the target, or is a group with one of them at any depth. A
/// recipient's place that is no object's names nobody.
pub fn takes(
    alloc: Global,
    rule: &JournalRule,
    directory: &Directory,
    sender: Option<&Key>,
    target: &Key,
) -> Result<bool, NoMemory>
    ensures { IfOk result (λ b. b ≡ takes directory.now (option_copied sender.entry) target.now rule.now) }
{
    let sender_inside = is_sender_inside(directory, sender);
    let target_inside = directory.is_inside(target);
    if !is_in_scope(rule.scope, sender_inside, target_inside) {
        return Ok(false);
    }
    is_recipient(alloc, directory, rule.recipient, sender, target)
}
