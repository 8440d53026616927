// Items, printed.
use crate::reports::add_report;
use mail_names::{Bytes, NoMemory};
use mail_plan::{Item, ItemKind, Release};
use std::alloc::Global;

fn kind_text(kind: ItemKind) -> &'static [u8] {
    match kind {
        ItemKind::Version => b" version to ",
        ItemKind::Report => b" report to ",
        ItemKind::Request => b" request to ",
        ItemKind::Notice => b" notice to ",
    }
}

fn add_item(alloc: Global, out: &mut Bytes, item: &Item) -> Result<(), NoMemory> {
    out.add(item.name.text(alloc)?.as_slice())?;
    out.add(kind_text(item.kind))?;
    out.add(item.folder.bytes())?;
    out.add(item.why.text(alloc)?.as_slice())?;
    out.add(b"\n")
}

// The text of a report at a place.
fn add_text_of(
    alloc: Global,
    out: &mut Bytes,
    texts: &[Bytes],
    item: &Item,
) -> Result<(), NoMemory> {
    match texts.get(item.text as usize) {
        Some(text) if item.kind == ItemKind::Report => add_report(alloc, out, text.as_slice()),
        _ => Ok(()),
    }
}

/// Appends the items of a release, with the texts of its reports.
pub fn add_items(alloc: Global, out: &mut Bytes, release: &Release) -> Result<(), NoMemory> {
    for item in release.items.as_slice() {
        add_item(alloc, out, item)?;
        add_text_of(alloc, out, release.texts.as_slice(), item)?;
    }
    Ok(())
}
