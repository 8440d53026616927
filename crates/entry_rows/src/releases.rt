// Releases, printed.
use crate::octets::{add_number, add_octets};
use mail_names::{Bytes, Gate, Key, NoMemory};
use mail_plan::{End, Hold, Item, ItemKind, Release};
use moderation::Tell;
use std::alloc::Global;

/// Appends keys, each behind a blank.
pub fn add_keys(out: &mut Bytes, keys: &[Key]) -> Result<(), NoMemory> {
    for key in keys {
        out.add(b" ")?;
        out.add(key.bytes())?;
    }
    Ok(())
}

/// Appends a gate.
pub fn add_gate(alloc: Global, out: &mut Bytes, gate: &Gate) -> Result<(), NoMemory> {
    match gate {
        Gate::Object { key } => out.add(key.bytes()),
        Gate::Rule { place } => {
            out.add(b"rule ")?;
            add_number(alloc, out, u64::from(*place))
        }
    }
}

fn kind_text(kind: ItemKind) -> &'static [u8] {
    match kind {
        ItemKind::Version => b" version",
        ItemKind::Report => b" report",
        ItemKind::Request => b" request",
        ItemKind::Notice => b" notice",
    }
}

fn tell_text(tell: Tell) -> &'static [u8] {
    match tell {
        Tell::Always => b" always",
        Tell::Internal => b" internal",
        Tell::Never => b" never",
    }
}

fn add_item(alloc: Global, out: &mut Bytes, item: &Item) -> Result<(), NoMemory> {
    out.add(b"; item ")?;
    out.add(item.name.text(alloc)?.as_slice())?;
    out.add(kind_text(item.kind))?;
    out.add(b" of text ")?;
    add_number(alloc, out, u64::from(item.text))?;
    out.add(b" to ")?;
    out.add(item.folder.bytes())?;
    out.add(item.why.text(alloc)?.as_slice())
}

fn add_hold(alloc: Global, out: &mut Bytes, hold: &Hold) -> Result<(), NoMemory> {
    out.add(b"; hold of ")?;
    add_gate(alloc, out, &hold.gate)?;
    out.add(b" labelled ")?;
    add_octets(alloc, out, hold.label.as_slice())?;
    out.add(b" told")?;
    out.add(tell_text(hold.tell))?;
    out.add(b" asks")?;
    add_keys(out, hold.moderators.as_slice())
}

fn add_end(alloc: Global, out: &mut Bytes, end: &End) -> Result<(), NoMemory> {
    match end {
        End::Rejected { rule, keys } => {
            out.add(b"; rejected by rule ")?;
            add_number(alloc, out, u64::from(*rule))?;
            add_keys(out, keys.as_slice())
        }
        End::Unknown { keys } => {
            out.add(b"; unknown")?;
            add_keys(out, keys.as_slice())
        }
        End::TooMany => out.add(b"; too many"),
    }
}

fn add_texts(alloc: Global, out: &mut Bytes, texts: &[Bytes]) -> Result<(), NoMemory> {
    for text in texts {
        out.add(b"; text ")?;
        add_octets(alloc, out, text.as_slice())?;
    }
    Ok(())
}

fn add_items(alloc: Global, out: &mut Bytes, items: &[Item]) -> Result<(), NoMemory> {
    for item in items {
        add_item(alloc, out, item)?;
    }
    Ok(())
}

fn add_holds(alloc: Global, out: &mut Bytes, holds: &[Hold]) -> Result<(), NoMemory> {
    for hold in holds {
        add_hold(alloc, out, hold)?;
    }
    Ok(())
}

fn add_ends(alloc: Global, out: &mut Bytes, ends: &[End]) -> Result<(), NoMemory> {
    for end in ends {
        add_end(alloc, out, end)?;
    }
    Ok(())
}

/// Appends a release: its texts, its items, its holds and its ends.
pub fn add_release(alloc: Global, out: &mut Bytes, release: &Release) -> Result<(), NoMemory> {
    out.add(b"release")?;
    add_texts(alloc, out, release.texts.as_slice())?;
    add_items(alloc, out, release.items.as_slice())?;
    add_holds(alloc, out, release.holds.as_slice())?;
    add_ends(alloc, out, release.ends.as_slice())
}
