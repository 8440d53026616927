// The fields of a message, one by one.
ghost use Rattle.std.specs.Prelude.{◌≡◌, ◌+◌, ◌≤◌, true, length, map, IfOk};
ghost use Rattle.std.specs.List.{filter_map};
ghost use Rattle.mail_message.specs.Faults.{most_octets};
ghost use Rattle.mail_message.specs.Message.{IsField, Mail, text, starts_crlf, field_of};
ghost use Rattle.pickup_box.specs.Header.{alone, ends_field, field_len};

use crate::trims::is_blank;
use mail_message::Message;
use mail_names::{Bytes, NoMemory};
use std::alloc::Global;

// Whether a CRLF stands here that no space or tab follows.
fn ends_field(bytes: &[u8]) -> bool
    ensures value { result ≡ ends_field bytes.now }
    ensures within { result ≡ true → 2 ≤ length bytes.now }
{
    match bytes {
        [b'\r', b'\n', next, ..] => !is_blank(*next),
        [b'\r', b'\n'] => true,
        _ => false,
    }
}

// How many bytes the first field has.
fn field_len(bytes: &[u8]) -> usize
    ensures value { result ≡ field_len bytes.now }
    ensures within { result ≤ length bytes.now }
{
    for i in 0..bytes.len() {
        if ends_field(&bytes[i..]) {
            return i + 2;
        }
    }
    bytes.len()
}

// Whether an empty line stands here, so that the header ends.
fn is_header_end(bytes: &[u8]) -> bool
    ensures { result ≡ starts_crlf bytes.now }
{
    matches!(bytes, [b'\r', b'\n', ..])
}

// A field as a message of its own. It reads to itself, so that memory alone can be wanting.
fn alone(alloc: Global, raw: &[u8]) -> Result<Message, NoMemory>
    requires field { IsField raw.now }
    requires short { length raw.now + 2 ≤ most_octets }
    ensures { IfOk result (λ m. m ≡ alone raw.now) }
{
    let mut text = Bytes::of(alloc, raw)?;
    text.add(b"\r\n")?;
    match Message::read(alloc, text.as_slice()) {
        Ok(message) => Ok(message),
        Err(_) => Err(NoMemory),
    }
}

/// The fields of a message, each as a message of its own without a body, which knows its name and its value.
pub fn fields_of(alloc: Global, message: &Message) -> Result<Vec<Message>, NoMemory>
    requires { length (text message.now) ≤ most_octets }
    ensures { IfOk result (λ fields. fields.items ≡ map alone message.now.fields) }
{
    let text = message.bytes(alloc)?;
    let mut rest = text.as_slice();
    let mut fields = Vec::new(alloc);
    while !is_header_end(rest) {
        let len = field_len(rest);
        fields.push(alone(alloc, &rest[..len])?)?;
        rest = &rest[len..];
    }
    Ok(fields)
}
