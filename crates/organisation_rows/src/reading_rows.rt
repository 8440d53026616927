// Rows that ask what a text reads to.
use crate::escapes::{add_escaped, unescaped};
use crate::wrong::Wrong;
use mail_names::Bytes;
use org_check::check;
use org_directory::{Directory, DirectoryFault};
use port_io::{MemorySink, MemorySource};
use rule_terms::{RuleBook, RuleFault, read_rules};
use std::alloc::Global;

/// The header of a directory.
pub const HEADER: &str = "key,kind,members,owners,moderated,moderators,bypass,tell\n";

/// The header of a directory with forwards.
pub const FORWARDS_HEADER: &str =
    "key,kind,members,owners,moderated,moderators,bypass,tell,forward,keep\n";

pub fn add_directory_verdict(
    out: &mut String,
    read: &Result<Directory, DirectoryFault>,
) -> Result<(), Wrong> {
    match read {
        Ok(_) => out.push_str(" ok")?,
        Err(fault) => write!(out, " {fault:?}")?,
    }
    Ok(())
}

pub fn add_rules_verdict(
    out: &mut String,
    read: &Result<RuleBook, RuleFault>,
) -> Result<(), Wrong> {
    match read {
        Ok(_) => out.push_str(" ok")?,
        Err(fault) => write!(out, " {fault:?}")?,
    }
    Ok(())
}

/// The rows `records TEXT` and `forward-records TEXT`, and `header TEXT` with no header before it.
pub fn records(alloc: Global, before: &str, row: &str, out: &mut String) -> Result<(), Wrong> {
    let text = unescaped(alloc, before, row)?;
    let read = Directory::read_csv(alloc, text.as_slice());
    add_directory_verdict(out, &read)
}

/// The row `file TEXT`, and `rule KEYS` with the beginning of a rule before it.
pub fn file(
    alloc: Global,
    directory: &Directory,
    before: &str,
    row: &str,
    out: &mut String,
) -> Result<(), Wrong> {
    let text = unescaped(alloc, before, row)?;
    let read = read_rules(alloc, text.as_slice(), directory);
    add_rules_verdict(out, &read)
}

/// The rows `check TEXT` and `check-forwards TEXT`, and `check-whole TEXT` with no header before it.
pub fn checked(alloc: Global, before: &str, row: &str, out: &mut String) -> Result<(), Wrong> {
    let text = unescaped(alloc, before, row)?;
    let mut source = MemorySource::new(text, 9, Bytes::new(alloc));
    let mut sink = MemorySink::new(alloc, Bytes::new(alloc));
    let end = check(alloc, &mut source, &mut sink);
    out.push(' ')?;
    add_escaped(out, sink.bytes())?;
    write!(out, " {end:?}")?;
    Ok(())
}
