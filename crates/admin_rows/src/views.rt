// What the script's office shows.
use hub_calls::{ApprovalRow, EndRow, QueueView, TaskName, WaitingRow};
use journal_report::Why;
use mail_names::{ApprovalName, Bytes, ItemName, Items, Key, Mark, NameFault, NoMemory};
use mail_plan::ItemKind;
use std::alloc::Global;

/// A key; want of memory where it is none.
pub fn key(alloc: Global, text: &[u8]) -> Result<Key, NoMemory> {
    match Key::read(alloc, text) {
        Ok(key) => Ok(key),
        Err(NameFault::NoMemory) => Err(NoMemory),
        Err(_) => Err(NoMemory),
    }
}

fn item(release: u32, place: u32, mark: Mark) -> ItemName {
    ItemName {
        submission: 1,
        release,
        place,
        mark,
    }
}

fn waiting(
    alloc: Global,
    name: ItemName,
    kind: ItemKind,
    why: Why,
) -> Result<WaitingRow, NoMemory> {
    Ok(WaitingRow {
        name,
        folder: key(alloc, b"ann@example.com")?,
        kind,
        why,
    })
}

// A way through two groups.
fn route(alloc: Global) -> Result<Why, NoMemory> {
    let mut groups = Items::new(alloc);
    groups.push(key(alloc, b"all@example.com")?)?;
    groups.push(key(alloc, b"staff@example.com")?)?;
    Ok(Why::Via { groups })
}

/// An item of each kind that waits, and one release that isn't categorised.
pub fn queue_view(alloc: Global) -> Result<QueueView, NoMemory> {
    let mut tasks = Items::new(alloc);
    tasks.push(TaskName {
        submission: 18_446_744_073_709_551_615,
        release: 4_294_967_295,
    })?;
    let mut rows = Items::new(alloc);
    let direct = item(0, 0, Mark::Plain);
    rows.push(waiting(alloc, direct, ItemKind::Version, Why::Direct)?)?;
    let via = item(0, 1, Mark::Plain);
    rows.push(waiting(alloc, via, ItemKind::Version, route(alloc)?)?)?;
    let copied = Why::Copied { rule: 7 };
    rows.push(waiting(alloc, item(0, 2, Mark::Plain), ItemKind::Version, copied)?)?;
    let redirected = Why::Redirected { rule: 0 };
    rows.push(waiting(
        alloc,
        item(0, 3, Mark::Plain),
        ItemKind::Version,
        redirected,
    )?)?;
    let report = item(0, 4, Mark::Plain);
    rows.push(waiting(alloc, report, ItemKind::Report, Why::Direct)?)?;
    let request = item(0, 5, Mark::Plain);
    rows.push(waiting(alloc, request, ItemKind::Request, Why::Direct)?)?;
    let notice = item(0, 6, Mark::Gate);
    rows.push(waiting(alloc, notice, ItemKind::Notice, Why::Direct)?)?;
    Ok(QueueView {
        live: 1,
        bytes: 52,
        moment: 1_772_323_200,
        tasks,
        waiting: rows,
    })
}

fn approval(
    alloc: Global,
    gate: u32,
    label: &[u8],
    sender: Option<Key>,
) -> Result<ApprovalRow, NoMemory> {
    let mut moderators = Items::new(alloc);
    moderators.push(key(alloc, b"mia@example.com")?)?;
    moderators.push(key(alloc, b"max@example.com")?)?;
    Ok(ApprovalRow {
        name: ApprovalName {
            submission: 1,
            release: 0,
            gate,
        },
        label: Bytes::of(alloc, label)?,
        sender,
        moderators,
        deadline: 172_800,
    })
}

/// An approval of the null sender's mail, and one whose label has octets that JSON escapes.
pub fn approval_rows(alloc: Global) -> Result<Items<ApprovalRow>, NoMemory> {
    let mut rows = Items::new(alloc);
    rows.push(approval(alloc, 0, b"list@example.com", None)?)?;
    let sender = Some(key(alloc, b"ann@example.com")?);
    rows.push(approval(alloc, 1, b"a\"b\\c\x01/d", sender)?)?;
    Ok(rows)
}

/// Two ends.
pub fn end_rows(alloc: Global) -> Result<Items<EndRow>, NoMemory> {
    let mut rows = Items::new(alloc);
    rows.push(EndRow {
        name: Bytes::of(alloc, b"1-0")?,
        cause: Bytes::of(alloc, b"unknown recipients")?,
    })?;
    rows.push(EndRow {
        name: Bytes::of(alloc, b"2-0-0")?,
        cause: Bytes::of(alloc, b"undeliverable to ann@example.com")?,
    })?;
    Ok(rows)
}

/// Two names of items.
pub fn item_names(alloc: Global) -> Result<Items<ItemName>, NoMemory> {
    let mut names = Items::new(alloc);
    names.push(item(0, 0, Mark::Plain))?;
    names.push(item(0, 1, Mark::Gate))?;
    Ok(names)
}
