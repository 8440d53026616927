// Keys, names and dates.
use crate::octets::Answer;
use crate::row::{Fault, Row, approval_name, item_name, moment};
use mail_names::{ApprovalName, Bytes, ItemName, Key, date_text};
use std::alloc::Global;
use std::cmp::Ordering;

pub fn key(alloc: Global, row: &Row<'_>, out: &mut Answer) -> Result<(), Fault> {
    match Key::read(alloc, row.arg(0)) {
        Ok(key) => told_key(alloc, &key, out),
        Err(fault) => out.refused(format!(in alloc; "{fault:?}")?.as_str()),
    }
}

fn told_key(alloc: Global, key: &Key, out: &mut Answer) -> Result<(), Fault> {
    let copy = key.copy(alloc)?;
    if !copy.same(key) {
        out.refused("the copy is another key")?;
    }
    let mut text = Bytes::of(alloc, key.bytes())?;
    text.add(b", domain ")?;
    text.add(key.domain())?;
    out.given(text.as_slice())
}

pub fn read_item_name(alloc: Global, row: &Row<'_>, out: &mut Answer) -> Result<(), Fault> {
    let Some(name) = ItemName::read(row.arg(0)) else {
        return out.refused("no name");
    };
    out.given(format!(in alloc; "{name:?}")?.as_bytes())?;
    out.given(name.text(alloc)?.as_slice())
}

pub fn read_approval_name(alloc: Global, row: &Row<'_>, out: &mut Answer) -> Result<(), Fault> {
    let Some(name) = ApprovalName::read(row.arg(0)) else {
        return out.refused("no name");
    };
    out.given(format!(in alloc; "{name:?}")?.as_bytes())?;
    out.given(name.text(alloc)?.as_slice())
}

fn sign(order: Ordering) -> &'static [u8] {
    match order {
        Ordering::Less => b" < ",
        Ordering::Equal => b" = ",
        Ordering::Greater => b" > ",
    }
}

/// Each name against the one before it.
pub fn item_order(alloc: Global, row: &Row<'_>, out: &mut Answer) -> Result<(), Fault> {
    let mut line = Bytes::new(alloc);
    let mut last: Option<ItemName> = None;
    for text in row.args() {
        let name = item_name(text.as_slice())?;
        if let Some(last) = last {
            line.add(sign(last.cmp(&name)))?;
        }
        line.add(text.as_slice())?;
        last = Some(name);
    }
    out.given(line.as_slice())
}

/// Each name against the one before it.
pub fn approval_order(alloc: Global, row: &Row<'_>, out: &mut Answer) -> Result<(), Fault> {
    let mut line = Bytes::new(alloc);
    let mut last: Option<ApprovalName> = None;
    for text in row.args() {
        let name = approval_name(text.as_slice())?;
        if let Some(last) = last {
            line.add(sign(last.cmp(&name)))?;
        }
        line.add(text.as_slice())?;
        last = Some(name);
    }
    out.given(line.as_slice())
}

pub fn date(alloc: Global, row: &Row<'_>, out: &mut Answer) -> Result<(), Fault> {
    let moment = moment(row.arg(0))?;
    out.given(date_text(alloc, moment)?.as_slice())
}
