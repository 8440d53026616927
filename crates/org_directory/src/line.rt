// What a record says, where it has the form.
ghost use Rattle.std.specs.Prelude.{◌≡◌, ◌<◌, ◌==◌, ◌&&◌, not, IfOk, OnOk, Option, Some, None, false, codes, length, slice_get};
ghost use Rattle.std.specs.List.{list_all};
ghost use Rattle.std.specs.Str.{bytes_eq};
ghost use Rattle.csv.specs.Records.{fields_of};
ghost use Rattle.mail_names.specs.Key.{is_empty, is_key_byte};
ghost use Rattle.org_directory.specs.Register.{among};
ghost use Rattle.org_directory.specs.Lines.{answer_in, column, columns_of, domain_in, fits, has_none, is_domain_name, is_name_byte, keep_word, key_in, keys_in, kind_in, line_of, lists_of, may_forward, names_eight, names_ten, one_more, object_in, object_line, says_nothing, tell_in, words_of, Adds};

use crate::draft::{Draft, Line, Lists, Words};
use crate::names::Names;
use crate::object::Kind;
use csv::ByteRecord;
use mail_names::{Key, NameFault, NoMemory, lowered};
use moderation::Tell;
use std::alloc::Global;

/// The field at a place, or no bytes.
fn column(fields: &ByteRecord, place: usize) -> &[u8]
    ensures { result.now ≡ column (fields_of fields.now) place }
{
    match fields.get(place) {
        Some(field) => field,
        None => b"",
    }
}

/// The word that says whether mail is kept, which is `no` in a file that has no such column.
fn keep_word(fields: &ByteRecord) -> &[u8]
    ensures { result.now ≡ keep_word (fields_of fields.now) }
{
    match fields.get(9) {
        Some(field) => field,
        None => b"no",
    }
}

/// The key that the text reads to, if it reads to one.
fn read_key(alloc: Global, text: &[u8]) -> Result<Option<Key>, NoMemory>
    ensures { IfOk result (λ key. key ≡ key_in text.now) }
{
    match Key::read(alloc, text) {
        Ok(key) => Ok(Some(key)),
        Err(NameFault::NoMemory) => Err(NoMemory),
        Err(_) => Ok(None),
    }
}

/// Adds the key that the part reads to, or answers false where there is none or it is there.
fn add_part(alloc: Global, part: &[u8], keys: &mut Names) -> Result<bool, NoMemory>
    ensures { IfOk result (λ added. Adds added (one_more keys.old (key_in part.now)) keys.new) }
{
    match read_key(alloc, part)? {
        None => Ok(false),
        Some(key) => {
            if keys.has(key.bytes()) {
                return Ok(false);
            }
            keys.push(alloc, key.bytes())?;
            Ok(true)
        }
    }
}

/// The keys of a list.
fn read_keys(alloc: Global, text: &[u8]) -> Result<Option<Names>, NoMemory>
    ensures { IfOk result (λ keys. keys ≡ keys_in text.now) }
{
    let mut keys = Names::new(alloc);
    if text.is_empty() {
        return Ok(Some(keys));
    }
    let mut part = Vec::new(alloc);
    for b in text {
        if *b == b' ' {
            let added = add_part(alloc, part.as_slice(), &mut keys)?;
            if !added {
                return Ok(None);
            }
            part.clear();
        } else {
            part.push(*b)?;
        }
    }
    let added = add_part(alloc, part.as_slice(), &mut keys)?;
    if !added {
        return Ok(None);
    }
    Ok(Some(keys))
}

fn is(a: &[u8], b: &[u8]) -> bool
    ensures { result ≡ bytes_eq a.now b.now }
{
    a == b
}

fn read_kind(text: &[u8]) -> Option<Kind>
    ensures { result ≡ kind_in text.now }
{
    if is(text, b"mailbox") {
        return Some(Kind::Mailbox);
    }
    if is(text, b"contact") {
        return Some(Kind::Contact);
    }
    if is(text, b"group") {
        return Some(Kind::Group);
    }
    None
}

fn read_tell(text: &[u8]) -> Option<Tell>
    ensures { result ≡ tell_in text.now }
{
    if is(text, b"always") {
        return Some(Tell::Always);
    }
    if is(text, b"internal") {
        return Some(Tell::Internal);
    }
    if is(text, b"never") {
        return Some(Tell::Never);
    }
    None
}

fn read_answer(text: &[u8]) -> Option<bool>
    ensures { result ≡ answer_in text.now }
{
    if is(text, b"yes") {
        return Some(true);
    }
    if is(text, b"no") {
        return Some(false);
    }
    None
}

fn is_name_byte(b: u8) -> bool
    ensures { result ≡ is_name_byte b }
{
    b.is_ascii_lowercase()
        || b.is_ascii_uppercase()
        || b.is_ascii_digit()
        || matches!(
            b,
            b'!' | b'$' | b'&' | b'\'' | b'*' | b'+' | b'-' | b'=' | b'_' | b'~' | b'.'
        )
}

fn are_name_bytes(text: &[u8]) -> bool
    ensures { result ≡ list_all is_name_byte text.now }
{
    text.iter().all(|b| is_name_byte(*b))
}

fn is_domain_name(text: &[u8]) -> bool
    ensures { result ≡ is_domain_name text.now }
{
    !text.is_empty() && text.len() <= 252 && are_name_bytes(text)
}

/// Whether the last fields of a domain's record say nothing.
fn is_plain_behind(fields: &ByteRecord) -> bool
    ensures { result ≡ (is_empty (column (fields_of fields.now) 5) && (is_empty (column (fields_of fields.now) 6) && (bytes_eq (column (fields_of fields.now) 7) (codes "always")
        && (is_empty (column (fields_of fields.now) 8) && bytes_eq (keep_word (fields_of fields.now)) (codes "no"))))) }
{
    column(fields, 5).is_empty()
        && column(fields, 6).is_empty()
        && is(column(fields, 7), b"always")
        && column(fields, 8).is_empty()
        && is(keep_word(fields), b"no")
}

/// Whether the fields behind a domain's name say nothing.
fn is_plain(fields: &ByteRecord) -> bool
    ensures { result ≡ says_nothing (fields_of fields.now) }
{
    column(fields, 2).is_empty()
        && column(fields, 3).is_empty()
        && is(column(fields, 4), b"no")
        && is_plain_behind(fields)
}

fn read_domain(alloc: Global, fields: &ByteRecord) -> Result<Option<Line>, NoMemory>
    ensures { IfOk result (λ line. line ≡ domain_in (fields_of fields.now)) }
{
    if !is_domain_name(column(fields, 0)) {
        return Ok(None);
    }
    if !is_plain(fields) {
        return Ok(None);
    }
    let name = lowered(alloc, column(fields, 0))?;
    Ok(Some(Line::Domain { name }))
}

/// Whether an object of this kind may forward so: a mailbox alone, to one key, and what doesn't forward doesn't keep.
fn may_forward(kind: Kind, forward: &Names, keep: bool) -> bool
    ensures { result ≡ may_forward kind (length forward.now) keep }
{
    match forward.len() {
        0 => !keep,
        1 => matches!(kind, Kind::Mailbox),
        _ => false,
    }
}

fn fits(kind: Kind, members: &Names, moderators: &Names, forward: &Names, keep: bool) -> bool
    ensures { result ≡ fits kind members.now moderators.now forward.now keep }
{
    (matches!(kind, Kind::Group) || members.len() == 0)
        && moderators.len() <= 10
        && may_forward(kind, forward, keep)
}

fn read_words(fields: &ByteRecord) -> Option<Words>
    ensures { result ≡ words_of (kind_in (column (fields_of fields.now) 1)) (answer_in (column (fields_of fields.now) 4)) (tell_in (column (fields_of fields.now) 7))
        (answer_in (keep_word (fields_of fields.now))) }
{
    let kind = read_kind(column(fields, 1))?;
    let moderated = read_answer(column(fields, 4))?;
    let tell = read_tell(column(fields, 7))?;
    let keep = read_answer(keep_word(fields))?;
    Some(Words {
        kind,
        moderated,
        tell,
        keep,
    })
}

fn read_lists(alloc: Global, fields: &ByteRecord) -> Result<Option<Lists>, NoMemory>
    ensures { IfOk result (λ lists. lists ≡ lists_of (keys_in (column (fields_of fields.now) 2)) (keys_in (column (fields_of fields.now) 3))
        (keys_in (column (fields_of fields.now) 5)) (keys_in (column (fields_of fields.now) 6)) (keys_in (column (fields_of fields.now) 8))) }
{
    let Some(members) = read_keys(alloc, column(fields, 2))? else {
        return Ok(None);
    };
    let Some(owners) = read_keys(alloc, column(fields, 3))? else {
        return Ok(None);
    };
    let Some(moderators) = read_keys(alloc, column(fields, 5))? else {
        return Ok(None);
    };
    let Some(bypass) = read_keys(alloc, column(fields, 6))? else {
        return Ok(None);
    };
    let Some(forward) = read_keys(alloc, column(fields, 8))? else {
        return Ok(None);
    };
    Ok(Some(Lists {
        members,
        owners,
        moderators,
        bypass,
        forward,
    }))
}

// The object of a record, where its lists fit its kind.
fn object(row: usize, key: Key, words: Words, lists: Lists) -> Option<Line>
    ensures { result ≡ object_in row (Some key) (Some words) (Some lists) }
{
    let Lists {
        members,
        owners,
        moderators,
        bypass,
        forward,
    } = lists;
    if !fits(words.kind, &members, &moderators, &forward, words.keep) {
        return None;
    }
    Some(Line::Object {
        draft: Draft {
            row,
            key,
            kind: words.kind,
            members,
            owners,
            moderated: words.moderated,
            moderators,
            bypass,
            tell: words.tell,
            forward,
            keep: words.keep,
        },
    })
}

fn read_object(alloc: Global, row: usize, fields: &ByteRecord) -> Result<Option<Line>, NoMemory>
    ensures { IfOk result (λ line. line ≡ object_line row (fields_of fields.now)) }
{
    let Some(words) = read_words(fields) else {
        return Ok(None);
    };
    let Some(key) = read_key(alloc, column(fields, 0))? else {
        return Ok(None);
    };
    let Some(lists) = read_lists(alloc, fields)? else {
        return Ok(None);
    };
    Ok(object(row, key, words, lists))
}

/// What the record says, or None where it hasn't the form or not so many columns.
pub fn read_line(
    alloc: Global,
    columns: usize,
    row: usize,
    fields: &ByteRecord,
) -> Result<Option<Line>, NoMemory>
    ensures { IfOk result (λ line. line ≡ line_of columns row (fields_of fields.now)) }
{
    if fields.len() != columns {
        return Ok(None);
    }
    if is(column(fields, 1), b"domain") {
        return read_domain(alloc, fields);
    }
    read_object(alloc, row, fields)
}

/// Whether the record begins with the names of the eight columns that every file has.
fn names_eight(fields: &ByteRecord) -> bool
    ensures { result ≡ names_eight (fields_of fields.now) }
{
    is(column(fields, 0), b"key")
        && is(column(fields, 1), b"kind")
        && is(column(fields, 2), b"members")
        && is(column(fields, 3), b"owners")
        && is(column(fields, 4), b"moderated")
        && is(column(fields, 5), b"moderators")
        && is(column(fields, 6), b"bypass")
        && is(column(fields, 7), b"tell")
}

/// Whether the record has ten columns, of which the last two are those of forwards.
fn names_ten(fields: &ByteRecord) -> bool
    ensures { result ≡ names_ten (fields_of fields.now) }
{
    fields.len() == 10 && is(column(fields, 8), b"forward") && is(column(fields, 9), b"keep")
}

/// How many columns a file has that begins with this record, or None where none begins so.
pub fn columns_of(fields: &ByteRecord) -> Option<usize>
    ensures { result ≡ columns_of (fields_of fields.now) }
{
    if !names_eight(fields) {
        return None;
    }
    if fields.len() == 8 {
        return Some(8);
    }
    if names_ten(fields) {
        return Some(10);
    }
    None
}
