// Fields by their names, and the length of a body.
ghost use Rattle.std.specs.Prelude.{◌≡◌, length, map, true, All, codes, bytes_eq, option_map};
ghost use Rattle.std.specs.List.{list_all};
ghost use Rattle.std.specs.Str.{all_ascii_digits};
ghost use Rattle.std.specs.Str.Parse.{digits_value};
ghost use Rattle.httparse.specs.Spans.{IsHeaderWithin, header_bytes};
ghost use Rattle.http_head.specs.Fields.{values_of, first_value, is_length_text, body_length};

use crate::octets::same_name;
use httparse::spans::HeaderSpan;

/// What the fields Content-Length say (RFC 9112 section 6.2).
#[derive(Clone, Copy, Debug, PartialEq, Eq)]
pub enum BodyLength {
    /// There is none.
    Absent,
    /// One isn't 1 to 9 digits, or two differ.
    Bad,
    /// All say this many octets.
    Known { octets: u64 },
}

/// The value of the first field with this name.
pub fn first_value<'a>(text: &'a [u8], headers: &[HeaderSpan], name: &[u8]) -> Option<&'a [u8]>
    requires { All (IsHeaderWithin (length text.now)) headers.now }
    ensures { option_map (λ v. v.now) result ≡ first_value (values_of name.now (map (header_bytes text.now) headers.now)) }
{
    match headers {
        [] => None,
        [header, rest @ ..] => {
            if same_name(header.name.of(text), name) {
                Some(header.value.of(text))
            } else {
                first_value(text, rest, name)
            }
        }
    }
}

// Whether all fields with this name have this value.
fn all_have(text: &[u8], headers: &[HeaderSpan], name: &[u8], value: &[u8]) -> bool
    requires { All (IsHeaderWithin (length text.now)) headers.now }
    ensures { result ≡ list_all (bytes_eq value.now) (values_of name.now (map (header_bytes text.now) headers.now)) }
{
    match headers {
        [] => true,
        [header, rest @ ..] => {
            if same_name(header.name.of(text), name) {
                value == header.value.of(text) && all_have(text, rest, name, value)
            } else {
                all_have(text, rest, name, value)
            }
        }
    }
}

fn all_digits(value: &[u8]) -> bool
    ensures { result ≡ all_ascii_digits value.now }
{
    match value {
        [] => true,
        [b, rest @ ..] => b.is_ascii_digit() && all_digits(rest),
    }
}

// Whether this is 1 to 9 digits.
fn is_length_text(value: &[u8]) -> bool
    ensures { result ≡ is_length_text value.now }
{
    !value.is_empty() && value.len() <= 9 && all_digits(value)
}

// The number that 1 to 9 digits write.
fn number_of(digits: &[u8]) -> u64
    requires { is_length_text digits.now ≡ true }
    ensures { result ≡ digits_value 10 digits.now }
{
    let mut number = 0u64;
    for digit in digits {
        number = number * 10 + u64::from(*digit - b'0');
    }
    number
}

/// What the fields Content-Length say.
pub fn body_length(text: &[u8], headers: &[HeaderSpan]) -> BodyLength
    requires { All (IsHeaderWithin (length text.now)) headers.now }
    ensures { result ≡ body_length (values_of (codes "content-length") (map (header_bytes text.now) headers.now)) }
{
    let name = b"content-length";
    match first_value(text, headers, name) {
        None => BodyLength::Absent,
        Some(value) => {
            if is_length_text(value) && all_have(text, headers, name, value) {
                BodyLength::Known {
                    octets: number_of(value),
                }
            } else {
                BodyLength::Bad
            }
        }
    }
}
