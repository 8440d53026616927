// The forms of texts in a rules file.
ghost use Rattle.std.specs.Prelude.{◌≡◌, ◌++◌, ◌&&◌, ◌==◌, not, length, IfOk, OnOk};
ghost use Rattle.std.specs.List.{list_all};
ghost use Rattle.mail_message.specs.Lines.{is_field_name, is_name_byte, is_printable};
ghost use Rattle.mail_names.specs.Key.{is_key_byte};
ghost use Rattle.rule_terms.specs.Forms.{has_no_nul, is_domain, is_domain_byte, is_field, is_line, is_name, is_within, is_word};
ghost use Rattle.rule_terms.specs.Parts.{ended_byte, ended_from, formed, has_form, kept};

use mail_names::{Bytes, NoMemory, lowered};
use std::alloc::Global;

/// A form that a text may have.
#[derive(Clone, Copy)]
pub enum Form {
    /// A rule's name.
    Name,
    /// The text of an edit or of a rejection.
    Line,
    /// A field's name.
    Field,
    /// A word that is looked for.
    Word,
    Domain,
    /// The text of a disclaimer.
    Note,
}

fn is_within(low: usize, high: usize, n: usize) -> bool
    ensures { result ≡ is_within low high n }
{
    low <= n && n <= high
}

fn is_printable(text: &[u8]) -> bool
    ensures { result ≡ is_printable text.now }
{
    text.iter().all(|b| 32 <= *b && *b <= 126)
}

fn is_name_byte(b: u8) -> bool
    ensures { result ≡ is_name_byte b }
{
    33 <= b && b <= 126 && b != b':'
}

fn are_name_bytes(text: &[u8]) -> bool
    ensures { result ≡ list_all is_name_byte text.now }
{
    text.iter().all(|b| is_name_byte(*b))
}

fn is_field(text: &[u8]) -> bool
    ensures { result ≡ is_field text.now }
{
    is_within(1, 64, text.len()) && are_name_bytes(text)
}

fn is_domain_byte(b: u8) -> bool
    ensures { result ≡ is_domain_byte b }
{
    b.is_ascii_lowercase()
        || b.is_ascii_uppercase()
        || b.is_ascii_digit()
        || matches!(
            b,
            b'!' | b'$' | b'&' | b'\'' | b'*' | b'+' | b'-' | b'=' | b'_' | b'~' | b'.'
        )
}

fn are_domain_bytes(text: &[u8]) -> bool
    ensures { result ≡ list_all is_domain_byte text.now }
{
    text.iter().all(|b| is_domain_byte(*b))
}

fn is_domain(text: &[u8]) -> bool
    ensures { result ≡ is_domain text.now }
{
    is_within(1, 252, text.len()) && are_domain_bytes(text)
}

fn has_no_nul(text: &[u8]) -> bool
    ensures { result ≡ has_no_nul text.now }
{
    text.iter().all(|b| *b != 0)
}

fn is_word(text: &str) -> bool
    ensures { result ≡ is_word text.now }
{
    is_within(1, 256, text.len())
}

fn has_form(form: Form, text: &str) -> bool
    ensures { result ≡ has_form form text.now }
{
    let bytes = text.as_bytes();
    match form {
        Form::Name => is_within(1, 64, bytes.len()) && is_printable(bytes),
        Form::Line => is_within(1, 256, bytes.len()) && is_printable(bytes),
        Form::Field => is_field(bytes),
        Form::Word => is_word(text),
        Form::Domain => is_domain(bytes),
        Form::Note => is_within(1, 4096, bytes.len()) && has_no_nul(bytes),
    }
}

/// Appends a byte that follows another. A LF without a CR before it gets one.
fn push_ended(bytes: &mut Vec<u8>, before: u8, b: u8) -> Result<(), NoMemory>
    ensures { OnOk result (bytes.new.items ≡ bytes.old.items ++ ended_byte before b) }
{
    if b == b'\n' && before != b'\r' {
        bytes.extend_from_slice(b"\r\n")?;
    } else {
        bytes.push(b)?;
    }
    Ok(())
}

/// The text with CRLF at the end of each line.
fn ended(alloc: Global, text: &[u8]) -> Result<Bytes, NoMemory>
    ensures { IfOk result (λ bytes. bytes ≡ ended_from 0 text.now) }
{
    let mut bytes = Vec::new(alloc);
    let mut before = 0;
    for b in text {
        push_ended(&mut bytes, before, *b)?;
        before = *b;
    }
    Ok(Bytes::from_vec(bytes))
}

fn kept(alloc: Global, form: Form, text: &[u8]) -> Result<Bytes, NoMemory>
    ensures { IfOk result (λ bytes. bytes ≡ kept form text.now) }
{
    match form {
        Form::Domain => lowered(alloc, text),
        Form::Note => ended(alloc, text),
        Form::Name | Form::Line | Form::Field | Form::Word => Bytes::of(alloc, text),
    }
}

/// The text as it is kept, or None where it hasn't the form.
pub fn formed(alloc: Global, form: Form, text: &str) -> Result<Option<Bytes>, NoMemory>
    ensures { IfOk result (λ bytes. bytes ≡ formed form text.now) }
{
    if !has_form(form, text) {
        return Ok(None);
    }
    Ok(Some(kept(alloc, form, text.as_bytes())?))
}
