// The parameters of MAIL (RFC 1870, RFC 6152).
ghost use Rattle.std.specs.Prelude.{◌≡◌, ◌+◌, ◌≤◌, ◌-◌, ◌^◌, min, length};
ghost use Rattle.std.specs.List.{list_all};
ghost use Rattle.std.specs.Char.{is_ascii_digit};
ghost use Rattle.smtp_front.specs.Parameters.{words_of, number_of, is_size, size_refusal, body_refusal, parameter_refusal, first_refusal, any_refusal, refusal_of};

use crate::reply::Line;
use crate::texts::{before, beyond, front, is_same, unspaced};
use mail_message::MOST_OCTETS;

fn is_number(text: &[u8]) -> bool
    ensures { result ≡ list_all is_ascii_digit text.now }
{
    text.iter().all(|b| b.is_ascii_digit())
}

// Whether this is 1 to 20 digits.
fn is_size(value: &[u8]) -> bool
    ensures { result ≡ is_size value.now }
{
    0 < value.len() && value.len() <= 20 && is_number(value)
}

// The number that digits write in decimal, or the greatest that fits.
fn number_of(digits: &[u8]) -> u64
    ensures { result ≡ min (number_of digits.now) (2 ^ 64 - 1) }
{
    let mut number: u64 = 0;
    for b in digits {
        let digit = b.saturating_sub(b'0');
        number = number.saturating_mul(10).saturating_add(u64::from(digit));
    }
    number
}

fn size_refusal(value: &[u8]) -> Option<Line>
    ensures { result ≡ size_refusal value.now }
{
    if !is_size(value) {
        return Some(Line::BadArgument);
    }
    if number_of(value) > MOST_OCTETS as u64 {
        return Some(Line::TooLarge);
    }
    None
}

fn body_refusal(value: &[u8]) -> Option<Line>
    ensures { result ≡ body_refusal value.now }
{
    if is_same(value, b"7BIT") || is_same(value, b"8BITMIME") {
        None
    } else {
        Some(Line::BadArgument)
    }
}

// The line that refuses a parameter, if one does.
fn parameter_refusal(word: &[u8]) -> Option<Line>
    ensures { result ≡ parameter_refusal word.now }
{
    if is_same(front(word, 5), b"SIZE=") {
        size_refusal(beyond(word, 5))
    } else if is_same(front(word, 5), b"BODY=") {
        body_refusal(beyond(word, 5))
    } else {
        Some(Line::UnknownParameter)
    }
}

// The first refusal of these parameters.
fn first_refusal(text: &[u8]) -> Option<Line>
    ensures { result ≡ first_refusal (words_of text.now) }
{
    let mut rest = unspaced(text);
    while !rest.is_empty() {
        let word = before(rest, b' ');
        match parameter_refusal(word) {
            Some(line) => return Some(line),
            None => {}
        }
        rest = unspaced(beyond(rest, word.len()));
    }
    None
}

/// The line that refuses parameters where none is known, if there are any.
pub fn any_refusal(text: &[u8]) -> Option<Line>
    ensures { result ≡ any_refusal (words_of text.now) }
{
    if unspaced(text).is_empty() {
        None
    } else {
        Some(Line::UnknownParameter)
    }
}

/// The line that refuses parameters after EHLO (`extended`) or HELO, if one does.
pub fn refusal_of(extended: bool, text: &[u8]) -> Option<Line>
    ensures { result ≡ refusal_of extended text.now }
{
    if extended {
        first_refusal(text)
    } else {
        any_refusal(text)
    }
}
