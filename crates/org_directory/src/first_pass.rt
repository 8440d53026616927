// The first pass: the records in order, up to the first fault.
ghost use Rattle.std.specs.Prelude.{◌≡◌, ◌≤◌, ◌+◌, ◌||◌, nat_lt, false, length, IfOk, OnOk, Some, Option};
ghost use Rattle.csv.specs.Reading.{default_config, records, strip_bom};
ghost use Rattle.csv.specs.Records.{fields_of};
ghost use Rattle.org_directory.specs.Lines.{columns_of, line_of};
ghost use Rattle.org_directory.specs.Reading.{begun, entries_in, first_pass, none_taken, take_line, take_row};
ghost use Rattle.org_directory.specs.Drafts.{Fits, IsKept, Takes, TakesAll, taken_of};
ghost use Rattle.org_directory.specs.declared.draft.Line.TheVariants as lines;

use crate::draft::{Draft, Drafts, Line};
use crate::fault::DirectoryFault;
use crate::line::{columns_of, read_line};
use crate::names::Names;
use csv::{ByteRecord, ReaderBuilder};
use mail_names::Items;
use std::alloc::Global;

/// Nothing read yet. It takes no memory.
fn no_drafts(alloc: Global) -> Drafts
    ensures none { taken_of result ≡ none_taken }
    ensures kept { IsKept result }
{
    Drafts {
        rows: 0,
        columns: 0,
        domains: Names::new(alloc),
        keys: Names::new(alloc),
        drafts: Items::new(alloc),
        entries: 0,
    }
}

/// Whether one more object with so many members and forwards is past a limit.
fn is_too_many(objects: usize, entries: usize, members: usize, forwards: usize) -> bool
    requires { entries ≤ 200000 }
    ensures { result ≡ (nat_lt 20000 (objects + 1) || nat_lt 200000 (entries + (members + forwards))) }
{
    objects >= 20_000 || members > 200_000 - entries || forwards > 200_000 - entries - members
}

fn take_domain(
    alloc: Global,
    row: usize,
    name: &[u8],
    drafts: &mut Drafts,
) -> Result<(), DirectoryFault>
    requires { IsKept drafts.old }
    ensures takes { Takes result (take_line (taken_of drafts.old) row (Some (lines.Domain name.now))) (taken_of drafts.new) }
    ensures kept { OnOk result (IsKept drafts.new) }
{
    if drafts.domains.has(name) {
        return Err(DirectoryFault::DoubleKey { row });
    }
    drafts.domains.push(alloc, name)?;
    drafts.rows = row;
    Ok(())
}

fn take_object(
    alloc: Global,
    row: usize,
    draft: Draft,
    drafts: &mut Drafts,
) -> Result<(), DirectoryFault>
    requires kept { IsKept drafts.old }
    requires fits { Fits draft }
    ensures takes { Takes result (take_line (taken_of drafts.old) row (Some (lines.Object draft))) (taken_of drafts.new) }
    ensures kept { OnOk result (IsKept drafts.new) }
{
    let members = draft.members.len();
    let forwards = draft.forward.len();
    if is_too_many(drafts.drafts.len(), drafts.entries, members, forwards) {
        return Err(DirectoryFault::TooMany { row });
    }
    if drafts.keys.has(draft.key.bytes()) {
        return Err(DirectoryFault::DoubleKey { row });
    }
    drafts.keys.push(alloc, draft.key.bytes())?;
    drafts.drafts.push(draft)?;
    drafts.entries += members + forwards;
    drafts.rows = row;
    Ok(())
}

fn take_line(
    alloc: Global,
    row: usize,
    fields: &ByteRecord,
    drafts: &mut Drafts,
) -> Result<(), DirectoryFault>
    requires { IsKept drafts.old }
    ensures takes { Takes result (take_line (taken_of drafts.old) row (line_of drafts.old.columns row (fields_of fields.now))) (taken_of drafts.new) }
    ensures kept { OnOk result (IsKept drafts.new) }
{
    match read_line(alloc, drafts.columns, row, fields)? {
        None => Err(DirectoryFault::BadRow { row }),
        Some(Line::Domain { name }) => take_domain(alloc, row, name.as_slice(), drafts),
        Some(Line::Object { draft }) => take_object(alloc, row, draft, drafts),
    }
}

/// Takes the first record.
fn take_header(fields: &ByteRecord, drafts: &mut Drafts) -> Result<(), DirectoryFault>
    requires { IsKept drafts.old }
    ensures takes { Takes result (begun (taken_of drafts.old) (columns_of (fields_of fields.now))) (taken_of drafts.new) }
    ensures kept { OnOk result (IsKept drafts.new) }
{
    match columns_of(fields) {
        None => Err(DirectoryFault::BadRow { row: 1 }),
        Some(columns) => {
            drafts.rows = 1;
            drafts.columns = columns;
            Ok(())
        }
    }
}

/// Takes one record.
fn take_row(alloc: Global, fields: &ByteRecord, drafts: &mut Drafts) -> Result<(), DirectoryFault>
    requires { IsKept drafts.old }
    ensures takes { Takes result (take_row (taken_of drafts.old) (fields_of fields.now)) (taken_of drafts.new) }
    ensures kept { OnOk result (IsKept drafts.new) }
{
    if drafts.rows == 0 {
        return take_header(fields, drafts);
    }
    match drafts.rows.checked_add(1) {
        None => Err(DirectoryFault::NoMemory),
        Some(row) => take_line(alloc, row, fields, drafts),
    }
}

/// What the records of the text say, or the first fault of the first pass.
pub fn first_pass(alloc: Global, text: &[u8]) -> Result<Drafts, DirectoryFault>
    ensures takes { TakesAll result (first_pass none_taken (records default_config (strip_bom text.now))) }
    ensures kept { IfOk result IsKept }
{
    let rdr = ReaderBuilder::new()
        .has_headers(false)
        .flexible(true)
        .from_reader(alloc, text);
    let mut drafts = no_drafts(alloc);
    for item in rdr.into_byte_records() {
        let fields = match item {
            Ok(fields) => fields,
            Err(_) => return Err(DirectoryFault::NoMemory),
        };
        match take_row(alloc, &fields, &mut drafts) {
            Ok(()) => (),
            Err(fault) => return Err(fault),
        }
    }
    if drafts.rows == 0 {
        return Err(DirectoryFault::BadRow { row: 1 });
    }
    Ok(drafts)
}
