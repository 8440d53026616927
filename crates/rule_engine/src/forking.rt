// The leaves by the edits that are done for them.
ghost use Rattle.std.specs.Prelude.{◌≡◌, ◌≤◌, ◌+◌, length, fold, map, IfOk, option_copied};
ghost use Rattle.rule_match.specs.Applies.{Setting};
ghost use Rattle.rule_engine.specs.Forks.{all_edits, same_edits, is_kind, with_kind, kinds_of, places_of, fork_of, forks_of};

use crate::edit::EditAt;
use crate::recipient::trace;
use group_expand::{Leaf, MOST_LEAVES};
use mail_message::Message;
use mail_names::{Gate, Items, Key, NoMemory};
use org_directory::Directory;
use rule_terms::RuleBook;
use std::alloc::Global;

/// The leaves that have the same edits.
#[derive(Drop)]
pub struct Fork {
    /// The edits, in the order in which they are done.
    pub edits: Items<EditAt>,
    /// The places of the leaves, in order.
    pub leaves: Items<u32>,
}

fn same_edits(a: &[EditAt], b: &[EditAt]) -> bool
    ensures { result ≡ same_edits a.now b.now }
{
    a == b
}

fn is_kind(kinds: &[Items<EditAt>], edits: &Items<EditAt>) -> bool
    ensures { result ≡ is_kind kinds.now edits.now }
{
    kinds
        .iter()
        .any(|kind| same_edits(edits.as_slice(), kind.as_slice()))
}

fn copied(alloc: Global, edits: &[EditAt]) -> Result<Items<EditAt>, NoMemory>
    ensures { IfOk result (λ copied. copied ≡ edits.now) }
{
    let mut all = Vec::new(alloc);
    all.extend_from_slice(edits)?;
    Ok(Items::from_vec(all))
}

// The distinct lists, in the order in which they come first.
fn kinds_of(alloc: Global, all: &[Items<EditAt>]) -> Result<Items<Items<EditAt>>, NoMemory>
    ensures { IfOk result (λ kinds. kinds ≡ kinds_of all.now) }
{
    let mut kinds = Items::new(alloc);
    for edits in all {
        if !is_kind(kinds.as_slice(), edits) {
            kinds.push(copied(alloc, edits.as_slice())?)?;
        }
    }
    Ok(kinds)
}

// The places of those that are this list.
fn places_of(alloc: Global, kind: &[EditAt], all: &[Items<EditAt>]) -> Result<Items<u32>, NoMemory>
    requires { length all.now ≤ MOST_LEAVES }
    ensures { IfOk result (λ places. places ≡ places_of kind.now 0 all.now) }
{
    let mut places = Items::new(alloc);
    for (i, edits) in all.iter().enumerate() {
        if same_edits(kind, edits.as_slice()) {
            places.push(i as u32)?;
        }
    }
    Ok(places)
}

fn forks_of(alloc: Global, all: &[Items<EditAt>]) -> Result<Items<Fork>, NoMemory>
    requires { length all.now ≤ MOST_LEAVES }
    ensures { IfOk result (λ forks. forks ≡ forks_of all.now) }
{
    let kinds = kinds_of(alloc, all)?;
    let mut forks = Items::new(alloc);
    for kind in kinds.as_slice() {
        let leaves = places_of(alloc, kind.as_slice(), all)?;
        let edits = copied(alloc, kind.as_slice())?;
        forks.push(Fork { edits, leaves })?;
    }
    Ok(forks)
}

// The edits of each leaf.
fn all_edits(
    alloc: Global,
    book: &RuleBook,
    directory: &Directory,
    sender: Option<&Key>,
    leaves: &[Leaf],
    message: &Message,
    moment: u64,
    opened: &[Gate],
) -> Result<Items<Items<EditAt>>, NoMemory>
    ensures number { IfOk result (λ all. length all ≡ length leaves.now) }
    ensures all { IfOk result (λ all. all ≡
        all_edits book.now.rules (record { directory = directory.now; sender = option_copied sender.entry; moment = moment }) message.now opened.now leaves.now) }
{
    let rules = book.rules();
    let mut all = Items::new(alloc);
    for leaf in leaves {
        let traced = trace(
            alloc, rules, directory, sender, moment, opened, message, &leaf.key,
        )?;
        all.push(traced.edits)?;
    }
    Ok(all)
}

/// The leaves by the edits that the rules do for them: a fork for each list of edits, in the order of their first leaves.
pub fn forks(
    alloc: Global,
    book: &RuleBook,
    directory: &Directory,
    sender: Option<&Key>,
    leaves: &[Leaf],
    message: &Message,
    moment: u64,
    opened: &[Gate],
) -> Result<Items<Fork>, NoMemory>
    requires { length leaves.now ≤ MOST_LEAVES }
    ensures { IfOk result (λ forks. forks ≡
        forks_of (all_edits book.now.rules (record { directory = directory.now; sender = option_copied sender.entry; moment = moment }) message.now opened.now leaves.now)) }
{
    let all = all_edits(
        alloc, book, directory, sender, leaves, message, moment, opened,
    )?;
    Ok(forks_of(alloc, all.as_slice())?)
}
