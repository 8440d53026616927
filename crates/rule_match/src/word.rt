// Whether a word stands in a text by itself.
ghost use Rattle.std.specs.Prelude.{◌≡◌, ◌+◌, ◌<◌, ◌≤◌, ◌&&◌, true, false, not, drop, length, IfOk};
ghost use Rattle.std.specs.List.{list_all, list_any};
ghost use Rattle.rule_terms.specs.Forms.{is_word};
ghost use Rattle.rule_match.specs.Words.{begins_in_word, folded, has_word, is_joined, is_word_byte, stands_in};
ghost use Rattle.rule_match.specs.Applies.{has_one};

use crate::folding::folded;
use mail_names::{Bytes, NoMemory};
use memchr::memmem::Finder;
use std::alloc::Global;

fn is_word_byte(b: u8) -> bool
    ensures { result ≡ is_word_byte b }
{
    b.is_ascii_alphanumeric() || b >= 128
}

// Whether a word byte stands before a place.
fn is_joined(text: &[u8], at: usize) -> bool
    requires { at ≤ length text.now }
    ensures { result ≡ is_joined text.now at }
{
    at > 0 && is_word_byte(text[at - 1])
}

fn begins_in_word(text: &[u8]) -> bool
    ensures { result ≡ begins_in_word text.now }
{
    match text {
        [] => false,
        [b, ..] => is_word_byte(*b),
    }
}

// Whether no word byte stands at either side of a part of a text.
fn is_alone(text: &[u8], start: usize, end: usize) -> bool
    requires start { start ≤ length text.now }
    requires end { end ≤ length text.now }
    ensures { result ≡ not (is_joined text.now start) && not (begins_in_word (drop end text.now)) }
{
    !is_joined(text, start) && !begins_in_word(&text[end..])
}

// Whether a word stands in a text by itself. Both are folded.
//
// A place that is good may overlap one that isn't, so each place is looked at.
fn stands_in(word: &[u8], text: &[u8]) -> bool
    requires { 0 < length word.now }
    ensures { result ≡ stands_in false word.now text.now }
{
    let finder = Finder::new(word);
    let mut from = 0;
    'places: while let Some(step) = finder.find(&text[from..]) {
        let place = from + step;
        if is_alone(text, place, place + word.len()) {
            return true;
        }
        from = place + 1;
    }
    false
}

/// Whether a word stands in a text by itself, with no letter, digit or byte of 128 and above at either side.
///
/// Word and text are compared without case: in default case folding (The Unicode Standard, section 3.13), a text that is
/// no UTF-8 with its ASCII letters lowered alone. The neighbours are those in the folded text.
pub fn word_in(alloc: Global, word: &[u8], text: &[u8]) -> Result<bool, NoMemory>
    requires { is_word word.now ≡ true }
    ensures { IfOk result (λ found. found ≡ has_word word.now text.now) }
{
    let text = folded(alloc, text)?;
    folded_word_in(alloc, word, text.as_slice())
}

// The same of a text that is folded.
fn folded_word_in(alloc: Global, word: &[u8], text: &[u8]) -> Result<bool, NoMemory>
    requires { is_word word.now ≡ true }
    ensures { IfOk result (λ found. found ≡ stands_in false (folded word.now) text.now) }
{
    let word = folded(alloc, word)?;
    Ok(stands_in(word.as_slice(), text))
}

// Whether one of the words stands in a text that is folded.
fn folded_has_one(alloc: Global, words: &[Bytes], text: &[u8]) -> Result<bool, NoMemory>
    requires { list_all is_word words.now ≡ true }
    ensures { IfOk result (λ found. found ≡ list_any (λ word. stands_in false (folded word) text.now) words.now) }
{
    for word in words {
        if folded_word_in(alloc, word.as_slice(), text)? {
            return Ok(true);
        }
    }
    Ok(false)
}

/// Whether one of the words stands in a text. The text is folded once for all of them.
pub fn has_one(alloc: Global, words: &[Bytes], text: &[u8]) -> Result<bool, NoMemory>
    requires { list_all is_word words.now ≡ true }
    ensures { IfOk result (λ found. found ≡ has_one words.now text.now) }
{
    let text = folded(alloc, text)?;
    folded_has_one(alloc, words, text.as_slice())
}
