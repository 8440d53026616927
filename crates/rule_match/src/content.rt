// What terms ask of a message.
ghost use Rattle.std.specs.Prelude.{◌≡◌, ◌+◌, ◌<◌, ◌==◌, ◌&&◌, ◌||◌, ℕ, nat_le, true, codes, is_some, length, slice_index, IfOk};
ghost use Rattle.std.specs.List.{list_all};
ghost use Rattle.mail_message.specs.Message.{Mail, Reads, field_of, text};
ghost use Rattle.mail_message.specs.Edits.{is_plain};
ghost use Rattle.rule_terms.specs.Forms.{is_word};
ghost use Rattle.rule_match.specs.Applies.{has_one, value_has_one};
ghost use Rattle.rule_match.specs.Header.{behind_blank};

use crate::word::has_one;
use mail_message::Message;
use mail_names::{Bytes, NoMemory};
use std::alloc::Global;

/// Whether one of the words stands in the value of the first field of this name.
pub fn field_has_one(
    alloc: Global,
    message: &Message,
    name: &[u8],
    words: &[Bytes],
) -> Result<bool, NoMemory>
    requires { list_all is_word words.now ≡ true }
    ensures { IfOk result (λ found. found ≡ value_has_one words.now (field_of name.now message.now)) }
{
    match message.field(alloc, name)? {
        None => Ok(false),
        Some(value) => has_one(alloc, words, value.as_slice()),
    }
}

/// Whether a field of this name is there.
pub fn has_field(alloc: Global, message: &Message, name: &[u8]) -> Result<bool, NoMemory>
    ensures { IfOk result (λ found. found ≡ is_some (field_of name.now message.now)) }
{
    let value = message.field(alloc, name)?;
    Ok(value.is_some())
}

// Whether CR and LF stand at a place.
fn is_crlf(text: &[u8], at: usize) -> bool
    requires { at + 1 < length text.now }
    ensures { result ≡ (slice_index text.now at == 13 && slice_index text.now (at + 1) == 10) }
{
    text[at] == b'\r' && text[at + 1] == b'\n'
}

// What stands behind the first empty line.
fn behind_blank(text: &[u8]) -> &[u8]
    ensures { result.now ≡ behind_blank true text.now }
{
    let mut starts = true;
    let mut at = 0;
    'bytes: while at + 1 < text.len() {
        if is_crlf(text, at) {
            if starts {
                return &text[at + 2..];
            }
            starts = true;
            at += 2;
        } else {
            starts = false;
            at += 1;
        }
    }
    &[]
}

// Whether one of the words stands in the body.
fn body_has_one(alloc: Global, message: &Message, words: &[Bytes]) -> Result<bool, NoMemory>
    requires { list_all is_word words.now ≡ true }
    ensures { IfOk result (λ found. found ≡ has_one words.now message.now.body) }
{
    let text = message.bytes(alloc)?;
    has_one(alloc, words, behind_blank(text.as_slice()))
}

// Whether the message is plain, and one of the words stands in its body.
fn plain_body_has_one(alloc: Global, message: &Message, words: &[Bytes]) -> Result<bool, NoMemory>
    requires { list_all is_word words.now ≡ true }
    ensures { IfOk result (λ found. found ≡ (is_plain message.now && has_one words.now message.now.body)) }
{
    if !message.is_plain(alloc)? {
        return Ok(false);
    }
    body_has_one(alloc, message, words)
}

/// Whether one of the words stands in the value of the first Subject, or in the body of a plain message.
pub fn text_has_one(alloc: Global, message: &Message, words: &[Bytes]) -> Result<bool, NoMemory>
    requires { list_all is_word words.now ≡ true }
    ensures { IfOk result (λ found. found ≡
        (value_has_one words.now (field_of (codes "Subject") message.now) || (is_plain message.now && has_one words.now message.now.body))) }
{
    if field_has_one(alloc, message, b"Subject", words)? {
        return Ok(true);
    }
    plain_body_has_one(alloc, message, words)
}

/// Whether the message's text has at least so many octets.
pub fn has_size(alloc: Global, message: &Message, bytes: u64) -> Result<bool, NoMemory>
    ensures { IfOk result (λ found. found ≡ nat_le bytes (length (text message.now))) }
{
    let text = message.bytes(alloc)?;
    Ok(bytes <= text.as_slice().len() as u64)
}
