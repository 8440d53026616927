// Rows on items that turns try.
use crate::silent::Silent;
use crate::words::{applied, both, cut, keys, number, small};
use hub_core::{Command, State};
use journal_report::Why;
use log_entry::Entry;
use mail_names::{Bytes, ItemName, Items, Key, Mark, NoMemory};
use mail_plan::{Item, ItemKind, Release};
use std::alloc::Global;

// The versions of a release for these keys, which have one text.
fn items(
    alloc: Global,
    submission: u64,
    release: u32,
    keys: &[Key],
) -> Result<Items<Item>, NoMemory> {
    let mut items = Items::new(alloc);
    for (place, key) in keys.iter().enumerate() {
        let place = u32::try_from(place).map_err(|_| NoMemory)?;
        items.push(Item {
            name: ItemName {
                submission,
                release,
                place,
                mark: Mark::Plain,
            },
            folder: key.copy(alloc)?,
            kind: ItemKind::Version,
            why: Why::Direct,
            text: 0,
        })?;
    }
    Ok(items)
}

/// A release with a version for each key.
pub fn versions(alloc: Global, state: &mut State<Silent>, words: &str) -> Result<Bytes, NoMemory> {
    let (first, rest) = cut(words);
    let (second, rest) = cut(rest);
    let (number, release) = (number(first)?, small(second)?);
    let keys = keys(alloc, rest)?;
    let mut texts = Items::new(alloc);
    texts.push(Bytes::of(alloc, b"Hi")?)?;
    let plan = Release {
        texts,
        items: items(alloc, number, release, keys.as_slice())?,
        holds: Items::new(alloc),
        ends: Items::new(alloc),
    };
    let entry = Entry::Categorised {
        number,
        release,
        plan,
    };
    applied(alloc, state.apply(alloc, entry))
}

fn name(word: &str) -> Result<ItemName, NoMemory> {
    ItemName::read(word.as_bytes()).ok_or(NoMemory)
}

/// An item is in its folder.
pub fn delivered(alloc: Global, state: &mut State<Silent>, word: &str) -> Result<Bytes, NoMemory> {
    let name = name(word)?;
    let reply = state.judge(alloc, &Command::Delivered { name })?;
    both(alloc, reply, state.apply(alloc, Entry::Delivered { name }))
}

/// Its sender was told that it is late.
pub fn delayed(alloc: Global, state: &mut State<Silent>, word: &str) -> Result<Bytes, NoMemory> {
    let name = name(word)?;
    let reply = state.judge(alloc, &Command::Delayed { name })?;
    both(alloc, reply, state.apply(alloc, Entry::Delayed { name }))
}

/// It was given up.
pub fn ended(alloc: Global, state: &mut State<Silent>, word: &str) -> Result<Bytes, NoMemory> {
    let name = name(word)?;
    let reply = state.judge(alloc, &Command::Ended { name })?;
    both(alloc, reply, state.apply(alloc, Entry::Ended { name }))
}

/// A submission was forgotten.
pub fn forgot(alloc: Global, state: &mut State<Silent>, word: &str) -> Result<Bytes, NoMemory> {
    let number = number(word)?;
    applied(alloc, state.apply(alloc, Entry::Forgot { number }))
}

fn add_names(alloc: Global, out: &mut Bytes, names: &[ItemName]) -> Result<(), NoMemory> {
    for name in names {
        out.add(b" ")?;
        out.add(name.text(alloc)?.as_slice())?;
    }
    Ok(())
}

/// The items that the last turn made due, and those that it made.
pub fn due(alloc: Global, state: &State<Silent>) -> Result<Bytes, NoMemory> {
    let mut out = Bytes::of(alloc, b"due:")?;
    add_names(alloc, &mut out, &state.due(alloc)?)?;
    out.add(b"; made:")?;
    add_names(alloc, &mut out, &state.made(alloc)?)?;
    Ok(out)
}
