// A large group.
use crate::answer::Fault;
use mail_names::Bytes;
use std::alloc::Global;

// The key of a member: three letters that count.
fn member(alloc: Global, place: u32) -> Result<Bytes, Fault> {
    let mut key = Bytes::of(alloc, b"m")?;
    key.add(&[
        b'a' + (place / 676 % 26) as u8,
        b'a' + (place / 26 % 26) as u8,
        b'a' + (place % 26) as u8,
    ])?;
    key.add(b"@example.com")?;
    Ok(key)
}

/// Adds the lines of so many mailboxes and of their group.
pub fn add_crowd(alloc: Global, rows: &mut Bytes, count: u32) -> Result<(), Fault> {
    let mut group = Bytes::of(alloc, b"all@example.com,group,")?;
    for place in 0..count {
        let key = member(alloc, place)?;
        if place > 0 {
            group.add(b" ")?;
        }
        group.add(key.as_slice())?;
        rows.add(key.as_slice())?;
        rows.add(b",mailbox,,,no,,,always\r\n")?;
    }
    rows.add(group.as_slice())?;
    rows.add(b",,no,,,always\r\n")?;
    Ok(())
}
