// Recipients that get nothing.
ghost use Rattle.std.specs.Prelude.{◌≡◌, ◌≤◌, ◌++◌, ◌==◌, length, map, filter, IfOk, OnOk};
ghost use Rattle.categorizer.specs.declared.parts.Rejection.{Rejection};
ghost use Rattle.categorizer.specs.Releasing.{rejected_by, rule_losses, unknown_loss};

use crate::copies::copied_rejection;
use crate::parts::{Loss, Rejection};
use mail_names::{Bytes, Items, Key, NoMemory, copied_keys};
use rule_terms::Rule;
use std::alloc::Global;

fn keys_of(alloc: Global, rejections: &[Rejection]) -> Result<Items<Key>, NoMemory>
    ensures { IfOk result (λ keys. keys ≡ map (λ (rejection : Rejection). rejection.key) rejections.now) }
{
    let mut keys = Items::new(alloc);
    for rejection in rejections {
        keys.push(rejection.key.copy(alloc)?)?;
    }
    Ok(keys)
}

// The rejections by the rule at this place.
fn those_of(
    alloc: Global,
    rule: u32,
    rejections: &[Rejection],
) -> Result<Items<Rejection>, NoMemory>
    ensures { IfOk result (λ those. those ≡ filter (λ (rejection : Rejection). rejection.rule == rule) rejections.now) }
{
    let mut those = Items::new(alloc);
    for rejection in rejections {
        if rejection.rule == rule {
            those.push(copied_rejection(alloc, rejection)?)?;
        }
    }
    Ok(those)
}

fn add_rejected(
    alloc: Global,
    rule: u32,
    name: &[u8],
    rejections: &[Rejection],
    losses: &mut Items<Loss>,
) -> Result<(), NoMemory>
    ensures { OnOk result (losses.new ≡ losses.old ++ rejected_by rule name.now rejections.now) }
{
    if let [first, ..] = rejections {
        let name = Bytes::of(alloc, name)?;
        let words = Bytes::of(alloc, first.words.as_slice())?;
        let keys = keys_of(alloc, rejections)?;
        losses.push(Loss::Rejected {
            rule,
            name,
            code: first.code,
            words,
            keys,
        })?;
    }
    Ok(())
}

fn rule_losses(
    alloc: Global,
    rules: &[Rule],
    rejections: &[Rejection],
) -> Result<Items<Loss>, NoMemory>
    requires { length rules.now ≤ 100 }
    ensures { IfOk result (λ losses. losses ≡ rule_losses 0 rules.now rejections.now) }
{
    let mut losses = Items::new(alloc);
    for (i, rule) in rules.iter().enumerate() {
        let those = those_of(alloc, i as u32, rejections)?;
        add_rejected(
            alloc,
            i as u32,
            rule.name.as_slice(),
            those.as_slice(),
            &mut losses,
        )?;
    }
    Ok(losses)
}

fn add_unknown(alloc: Global, keys: &[Key], losses: &mut Items<Loss>) -> Result<(), NoMemory>
    ensures { OnOk result (losses.new ≡ losses.old ++ unknown_loss keys.now) }
{
    if let [_first, ..] = keys {
        let keys = copied_keys(alloc, keys)?;
        losses.push(Loss::Unknown { keys })?;
    }
    Ok(())
}

/// The losses of a release: those that rules newly reject, in rule order, and unknown roots.
pub fn losses_of(
    alloc: Global,
    rules: &[Rule],
    refused: &[Rejection],
    unknown: &[Key],
) -> Result<Items<Loss>, NoMemory>
    requires { length rules.now ≤ 100 }
    ensures { IfOk result (λ losses. losses ≡ rule_losses 0 rules.now refused.now ++ unknown_loss unknown.now) }
{
    let mut losses = rule_losses(alloc, rules, refused)?;
    add_unknown(alloc, unknown, &mut losses)?;
    Ok(losses)
}
