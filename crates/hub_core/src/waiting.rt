// Items that wait to be put into their folders.
ghost use Rattle.std.specs.Prelude.{◌≡◌, ◌<◌, true, if◌then◌else◌, length, remove, slice_get, slice_set, Some, None, IfOk, find, map, option_copied};
ghost use Rattle.std.specs.List.{list_any, position_from};
ghost use Rattle.hub_core.specs.declared.waiting.WaitingItem.{WaitingItem};
ghost use Rattle.mail_plan.specs.Planning.{is_version};
ghost use Rattle.hub_core.specs.Standing.{waiting_of};
ghost use Rattle.hub_core.specs.Waiting.{due_again, due_at, is_made, is_named, is_now, met, name_in, names_made, names_now, noticed, with_told, without, AreDue};

use crate::queue::{QueuedItem, shared_texts, text_of};
use delivery_times::{is_due_again, slot};
use journal_report::Why;
use mail_names::{Bytes, ItemName, Items, NoMemory, SharedBytes, same_name};
use mail_plan::{Item, ItemKind};
use std::alloc::Global;
use std::collections::VecDeque;

/// Where an item stands in the turns that try it. A slot is that of the item's age when a turn last made it due.
#[derive(Clone, Copy, Debug, PartialEq, Eq)]
pub enum Due {
    /// No turn has come since it was made.
    First,
    /// The turn that begins makes it.
    Fresh,
    /// The last turn made it.
    Made,
    /// The last turn made it due.
    Now { slot: u64 },
    /// It will be due in a later slot than this one.
    Later { slot: u64 },
}

// What a turn makes of an item that was last due in this slot.
fn due_again(made: u64, last: u64, moment: u64) -> Due
    ensures { result ≡ due_again made last moment }
{
    if is_due_again(made, last, moment) {
        Due::Now {
            slot: slot(moment.saturating_sub(made)),
        }
    } else {
        Due::Later { slot: last }
    }
}

fn due_at(made: u64, moment: u64, due: Due) -> Due
    ensures { result ≡ due_at made moment due }
{
    match due {
        Due::First => Due::Now {
            slot: slot(moment.saturating_sub(made)),
        },
        Due::Fresh => Due::Made,
        Due::Made => due_again(made, 0, moment),
        Due::Now { slot } => due_again(made, slot, moment),
        Due::Later { slot } => due_again(made, slot, moment),
    }
}

/// An item that waits. Moments are in seconds since 1970-01-01T00:00:00Z.
#[derive(Drop)]
pub struct WaitingItem {
    pub item: QueuedItem,
    /// When it was made.
    pub made: u64,
    /// How a version comes to go to its folder; none of any other item.
    pub version: Option<Why>,
    /// Whether its sender was told that it is late.
    pub told: bool,
    pub due: Due,
}

impl WaitingItem {
    // A turn of this moment begins.
    fn meet(&mut self, moment: u64)
        ensures { self.new ≡ met moment self.old }
    {
        self.due = due_at(self.made, moment, self.due);
    }

    fn is_now(&self) -> bool
        ensures { result ≡ is_now self.now.due }
    {
        match self.due {
            Due::Now { .. } => true,
            Due::First => false,
            Due::Fresh => false,
            Due::Made => false,
            Due::Later { .. } => false,
        }
    }

    fn is_made(&self) -> bool
        ensures { result ≡ is_made self.now.due }
    {
        match self.due {
            Due::Made => true,
            Due::First => false,
            Due::Fresh => false,
            Due::Now { .. } => false,
            Due::Later { .. } => false,
        }
    }
}

fn is_named(item: &WaitingItem, name: &ItemName) -> bool
    ensures { result ≡ is_named name.now item.now }
{
    same_name(&item.item.name, name)
}

/// Whether an item of this name waits.
pub fn is_waiting(waiting: &VecDeque<WaitingItem>, name: &ItemName) -> bool
    ensures { result ≡ list_any (is_named name.now) waiting.now.items }
{
    waiting.iter().any(|item| is_named(item, name))
}

/// The first item of this name.
pub fn find<'a>(waiting: &'a VecDeque<WaitingItem>, name: &ItemName) -> Option<&'a WaitingItem>
    ensures { option_copied result ≡ find (is_named name.now) waiting.now.items }
{
    waiting.iter().find(|item| is_named(item, name))
}

fn place_of(waiting: &VecDeque<WaitingItem>, name: &ItemName) -> Option<usize>
    ensures { result ≡ position_from (is_named name.now) 0 waiting.now.items }
{
    waiting.iter().position(|item| is_named(item, name))
}

/// The names of these items, in order.
pub fn names_of(alloc: Global, waiting: &VecDeque<WaitingItem>) -> Result<Vec<ItemName>, NoMemory>
    ensures { IfOk result (λ names. names.items ≡ map name_in waiting.now.items) }
{
    let mut names = Vec::new(alloc);
    for item in waiting.iter() {
        names.push(item.item.name)?;
    }
    Ok(names)
}

fn remove_at(waiting: &mut VecDeque<WaitingItem>, place: usize)
    ensures { place < length waiting.old.items → waiting.new.items ≡ remove waiting.old.items place }
{
    match waiting.remove(place) {
        Some(_) => {}
        None => {}
    }
}

/// Takes the first item of this name out.
pub fn take_out(waiting: &mut VecDeque<WaitingItem>, name: &ItemName)
    ensures { waiting.new.items ≡ without name.now waiting.old.items }
{
    match place_of(waiting, name) {
        Some(place) => remove_at(waiting, place),
        None => {}
    }
}

fn tell_at(waiting: &mut VecDeque<WaitingItem>, place: usize)
    ensures { (w : WaitingItem) → slice_get waiting.old.items place ≡ Some w →
        waiting.new.items ≡ slice_set waiting.old.items place (record w { told = true }) }
{
    if let Some(item) = waiting.get_mut(place) {
        item.told = true;
    }
}

/// The sender of the first item of this name was told that it is late.
pub fn tell(waiting: &mut VecDeque<WaitingItem>, name: &ItemName)
    ensures { waiting.new.items ≡ with_told name.now waiting.old.items }
{
    match place_of(waiting, name) {
        Some(place) => tell_at(waiting, place),
        None => {}
    }
}

fn meet_at(waiting: &mut VecDeque<WaitingItem>, place: usize, moment: u64)
    ensures { (w : WaitingItem) → slice_get waiting.old.items place ≡ Some w →
        waiting.new.items ≡ slice_set waiting.old.items place (met moment w) }
{
    if let Some(item) = waiting.get_mut(place) {
        item.meet(moment);
    }
}

/// A turn of this moment begins.
pub fn meet_all(waiting: &mut VecDeque<WaitingItem>, moment: u64)
    ensures { waiting.new.items ≡ map (met moment) waiting.old.items }
{
    for place in 0..waiting.len() {
        meet_at(waiting, place, moment);
    }
}

fn names_now(alloc: Global, waiting: &VecDeque<WaitingItem>) -> Result<Vec<ItemName>, NoMemory>
    ensures { IfOk result (λ names. names.items ≡ names_now waiting.now.items) }
{
    let mut names = Vec::new(alloc);
    for item in waiting.iter() {
        if item.is_now() {
            names.push(item.item.name)?;
        }
    }
    Ok(names)
}

/// The names of the items that the last turn made, in the order in which it did.
pub fn names_made(alloc: Global, waiting: &VecDeque<WaitingItem>) -> Result<Vec<ItemName>, NoMemory>
    ensures { IfOk result (λ names. names.items ≡ names_made waiting.now.items) }
{
    let mut names = Vec::new(alloc);
    for item in waiting.iter() {
        if item.is_made() {
            names.push(item.item.name)?;
        }
    }
    Ok(names)
}

/// The names of the items that the last turn made due and didn't make, in their order.
pub fn names_due(alloc: Global, waiting: &VecDeque<WaitingItem>) -> Result<Vec<ItemName>, NoMemory>
    ensures { IfOk result (λ names. AreDue names.items waiting.now.items) }
{
    mail_names::laws::item_names_are_ordered();
    let mut names = names_now(alloc, waiting)?;
    names.sort()?;
    Ok(names)
}

// A notice of this moment, as it comes to wait.
fn noticed(item: QueuedItem, moment: u64, due: Due) -> WaitingItem
    ensures { result ≡ noticed moment due item }
{
    WaitingItem {
        item,
        made: moment,
        version: None,
        told: false,
        due,
    }
}

/// Notices of this moment, as they come to wait.
pub fn noticed_all(
    alloc: Global,
    items: VecDeque<QueuedItem>,
    moment: u64,
    due: Due,
) -> Result<VecDeque<WaitingItem>, NoMemory>
    ensures { IfOk result (λ made. made.items ≡ map (noticed moment due) items.items) }
{
    let mut made = VecDeque::new(alloc);
    for item in items {
        made.push_back(noticed(item, moment, due))?;
    }
    Ok(made)
}

// How a version comes to go where it goes.
fn version_of(kind: ItemKind, why: Why) -> Option<Why>
    ensures { result ≡ if is_version kind then Some why else None }
{
    match kind {
        ItemKind::Version => Some(why),
        ItemKind::Report => None,
        ItemKind::Request => None,
        ItemKind::Notice => None,
    }
}

// An item of a release of this moment, as it comes to wait.
fn waiting_of(
    alloc: Global,
    texts: &[SharedBytes],
    made: u64,
    item: Item,
) -> Result<WaitingItem, NoMemory>
    ensures { IfOk result (λ waiting. waiting ≡ waiting_of made texts.now item) }
{
    let Item {
        name,
        folder,
        kind,
        why,
        text,
    } = item;
    let text = text_of(texts, text, alloc)?;
    Ok(WaitingItem {
        item: QueuedItem { name, folder, text },
        made,
        version: version_of(kind, why),
        told: false,
        due: Due::First,
    })
}

fn waiting_each(
    alloc: Global,
    texts: &[SharedBytes],
    made: u64,
    items: Vec<Item>,
) -> Result<VecDeque<WaitingItem>, NoMemory>
    ensures { IfOk result (λ waiting. waiting.items ≡ map (waiting_of made texts.now) items.items) }
{
    let mut waiting = VecDeque::new(alloc);
    for item in items {
        waiting.push_back(waiting_of(alloc, texts, made, item)?)?;
    }
    Ok(waiting)
}

/// The items of a release of these texts and this moment, as they come to wait.
pub fn waiting_all(
    alloc: Global,
    texts: Items<Bytes>,
    made: u64,
    items: Items<Item>,
) -> Result<VecDeque<WaitingItem>, NoMemory>
    ensures { IfOk result (λ waiting. waiting.items ≡ map (waiting_of made texts) items) }
{
    let texts = shared_texts(alloc, texts.into_vec())?;
    waiting_each(alloc, &texts, made, items.into_vec())
}
