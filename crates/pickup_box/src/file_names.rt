// The names of the pickup folder's files.
ghost use Rattle.std.specs.Prelude.{◌≡◌, ◌≤◌, ◌++◌, length, filter, decimal, string_bytes, IfOk, OnOk, option_copied};
ghost use Rattle.std.specs.Char.{is_ascii_digit};
ghost use Rattle.std.specs.List.{list_all};
ghost use Rattle.mail_names.specs.Names.{is_short};
ghost use Rattle.pickup_box.specs.FileNames.{is_number, number_place, before_number, begun_stem, new_stem, is_begun, is_new, order_of, begun_name, bad_name};

use mail_names::{Bytes, NoMemory};
use std::alloc::{AllocError, Global};

// Whether there is a first byte, which is 0 only where it stands alone.
fn is_short(digits: &[u8]) -> bool
    ensures { result ≡ is_short digits.now }
{
    match digits {
        [] => false,
        [_] => true,
        [first, ..] => *first != b'0',
    }
}

fn are_digits(bytes: &[u8]) -> bool
    ensures { result ≡ list_all is_ascii_digit bytes.now }
{
    for b in bytes {
        if !b.is_ascii_digit() {
            return false;
        }
    }
    true
}

// Whether these bytes are a decimal number without leading zeros.
fn is_number(digits: &[u8]) -> bool
    ensures { result ≡ is_number digits.now }
{
    is_short(digits) && are_digits(digits)
}

// Where the bytes behind the last dot begin, or 0 where there is no dot.
fn number_place(front: &[u8]) -> usize
    ensures value { result ≡ number_place front.now }
    ensures within { result ≤ length front.now }
{
    let mut start = front.len();
    while start > 0 && front[start - 1] != b'.' {
        start -= 1;
    }
    start
}

// What stands before the last dot, where a number follows it.
fn before_number(front: &[u8]) -> Option<&[u8]>
    ensures { option_copied result ≡ before_number front.now }
{
    let start = number_place(front);
    if start > 0 && is_number(&front[start..]) {
        Some(&front[..start - 1])
    } else {
        None
    }
}

/// The stem of a file that was begun: `STEM.N.tmp` with a decimal number N without leading zeros.
pub fn begun_stem(name: &[u8]) -> Option<&[u8]>
    ensures { option_copied result ≡ begun_stem name.now }
{
    match name.strip_suffix(b".tmp") {
        None => None,
        Some(front) => before_number(front),
    }
}

/// The stem of a new file, `STEM.eml`.
pub fn new_stem(name: &[u8]) -> Option<&[u8]>
    ensures { option_copied result ≡ new_stem name.now }
{
    name.strip_suffix(b".eml")
}

fn is_begun(name: &[u8]) -> bool
    ensures { result ≡ is_begun name.now }
{
    begun_stem(name).is_some()
}

fn is_new(name: &[u8]) -> bool
    ensures { result ≡ is_new name.now }
{
    new_stem(name).is_some()
}

fn add_begun(alloc: Global, all: &mut Vec<Bytes>, names: &[Bytes]) -> Result<(), NoMemory>
    ensures { OnOk result (all.new.items ≡ all.old.items ++ filter is_begun names.now) }
{
    for name in names {
        if is_begun(name.as_slice()) {
            all.push(Bytes::of(alloc, name.as_slice())?)?;
        }
    }
    Ok(())
}

fn add_new(alloc: Global, all: &mut Vec<Bytes>, names: &[Bytes]) -> Result<(), NoMemory>
    ensures { OnOk result (all.new.items ≡ all.old.items ++ filter is_new names.now) }
{
    for name in names {
        if is_new(name.as_slice()) {
            all.push(Bytes::of(alloc, name.as_slice())?)?;
        }
    }
    Ok(())
}

/// Those of these names that are worked on, in order: files that were begun, then new ones.
pub fn order_of(alloc: Global, names: &[Bytes]) -> Result<Vec<Bytes>, NoMemory>
    ensures { IfOk result (λ all. all.items ≡ order_of names.now) }
{
    let mut all = Vec::new(alloc);
    add_begun(alloc, &mut all, names)?;
    add_new(alloc, &mut all, names)?;
    Ok(all)
}

/// The name under which a new file of this stem is begun, with the number of the next submission.
pub fn begun_name(alloc: Global, stem: &[u8], number: u64) -> Result<Bytes, NoMemory>
    ensures { IfOk result (λ name. name ≡ begun_name stem.now number) }
{
    let digits = decimal(alloc, number)?;
    let mut name = Bytes::of(alloc, stem)?;
    name.add(b".")?;
    name.add(digits.as_str().as_bytes())?;
    name.add(b".tmp")?;
    Ok(name)
}

fn decimal(alloc: Global, number: u64) -> Result<String, AllocError>
    ensures { IfOk result (λ text. string_bytes text ≡ decimal number) }
{
    number.to_string(alloc)
}

/// The name of a file of this stem that stands for no submission.
pub fn bad_name(alloc: Global, stem: &[u8]) -> Result<Bytes, NoMemory>
    ensures { IfOk result (λ name. name ≡ bad_name stem.now) }
{
    let mut name = Bytes::of(alloc, stem)?;
    name.add(b".bad")?;
    Ok(name)
}
