// The holds of gates.
ghost use Rattle.std.specs.Prelude.{◌≡◌, ◌<◌, All, length, slice_get, map, IfOk};
ghost use Rattle.org_directory.specs.Register.{object_of, keys_at, InRange};
ghost use Rattle.categorizer.specs.Releasing.{approvers, rule_approvers, rule_name, object_approvers, object_tell, object_label, rule_label, hold_of};

use mail_names::{Bytes, Gate, Items, Key, NoMemory, copied_gate, copied_keys};
use mail_plan::Hold;
use moderation::Tell;
use org_directory::{Directory, Object};
use rule_terms::{Action, Rule};
use std::alloc::Global;

fn approvers(alloc: Global, actions: &[Action]) -> Result<Items<Key>, NoMemory>
    ensures { IfOk result (λ by. by ≡ approvers actions.now) }
{
    for action in actions {
        if let Action::Approve { by } = action {
            return copied_keys(alloc, by.as_slice());
        }
    }
    Ok(Items::new(alloc))
}

// The keys of the objects at these places.
fn keys_at(alloc: Global, directory: &Directory, places: &[u32]) -> Result<Items<Key>, NoMemory>
    requires { All (λ p. p < length directory.now.objects) places.now }
    ensures { IfOk result (λ keys. keys ≡ keys_at directory.now places.now) }
{
    let mut keys = Items::new(alloc);
    for place in places {
        keys.push(directory.object(*place).key.copy(alloc)?)?;
    }
    Ok(keys)
}

#[tactic(auto, unfolding(crate::specs::Releasing::object_label))]
fn object_label(alloc: Global, key: &Key) -> Result<Bytes, NoMemory>
    ensures { IfOk result (λ label. label ≡ object_label key.now) }
{
    let mut label = Bytes::of(alloc, b"object ")?;
    label.add(key.bytes())?;
    Ok(label)
}

#[tactic(auto, unfolding(crate::specs::Releasing::rule_label))]
fn rule_label(alloc: Global, place: u32, name: &[u8]) -> Result<Bytes, NoMemory>
    ensures { IfOk result (λ label. label ≡ rule_label place name.now) }
{
    let number = format!(in alloc; "{place}")?;
    let mut label = Bytes::of(alloc, b"rule ")?;
    label.add(number.as_bytes())?;
    label.add(b" (")?;
    label.add(name)?;
    label.add(b"), for all recipients that this rule holds")?;
    Ok(label)
}

fn moderators(alloc: Global, directory: &Directory, object: &Object) -> Result<Items<Key>, NoMemory>
    requires { InRange (length directory.now.objects) object.now }
    ensures { IfOk result (λ keys. keys ≡ keys_at directory.now object.now.moderators) }
{
    keys_at(alloc, directory, object.moderators.as_slice())
}

fn object_approvers(alloc: Global, directory: &Directory, key: &Key) -> Result<Items<Key>, NoMemory>
    ensures { IfOk result (λ keys. keys ≡ object_approvers directory.now (object_of directory.now key.now)) }
{
    directory.is_sound();
    match directory.find(key) {
        Some(place) => moderators(alloc, directory, directory.object(place)),
        None => Ok(Items::new(alloc)),
    }
}

fn object_tell(directory: &Directory, key: &Key) -> Tell
    ensures { result ≡ object_tell (object_of directory.now key.now) }
{
    match directory.find(key) {
        Some(place) => directory.object(place).tell,
        None => Tell::Always,
    }
}

fn rule_approvers(alloc: Global, rules: &[Rule], place: u32) -> Result<Items<Key>, NoMemory>
    ensures { IfOk result (λ keys. keys ≡ rule_approvers (slice_get rules.now place)) }
{
    match rules.get(place as usize) {
        Some(rule) => approvers(alloc, rule.actions.as_slice()),
        None => Ok(Items::new(alloc)),
    }
}

fn rule_name(rules: &[Rule], place: u32) -> &[u8]
    ensures { result.now ≡ rule_name (slice_get rules.now place) }
{
    match rules.get(place as usize) {
        Some(rule) => rule.name.as_slice(),
        None => &[],
    }
}

fn hold_of(
    alloc: Global,
    directory: &Directory,
    rules: &[Rule],
    gate: &Gate,
) -> Result<Hold, NoMemory>
    ensures { IfOk result (λ hold. hold ≡ hold_of directory.now rules.now gate.now) }
{
    match gate {
        Gate::Object { key } => Ok(Hold {
            gate: copied_gate(alloc, gate)?,
            label: object_label(alloc, key)?,
            moderators: object_approvers(alloc, directory, key)?,
            tell: object_tell(directory, key),
        }),
        Gate::Rule { place } => Ok(Hold {
            gate: copied_gate(alloc, gate)?,
            label: rule_label(alloc, *place, rule_name(rules, *place))?,
            moderators: rule_approvers(alloc, rules, *place)?,
            tell: Tell::Always,
        }),
    }
}

/// The holds of gates that are newly met.
pub fn holds_of(
    alloc: Global,
    directory: &Directory,
    rules: &[Rule],
    met: &[Gate],
) -> Result<Items<Hold>, NoMemory>
    ensures { IfOk result (λ holds. holds ≡ map (hold_of directory.now rules.now) met.now) }
{
    let mut holds = Items::new(alloc);
    for gate in met {
        holds.push(hold_of(alloc, directory, rules, gate)?)?;
    }
    Ok(holds)
}
