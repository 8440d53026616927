// Responses.
ghost use Rattle.std.specs.Prelude.{◌≡◌, ◌≤◌, ◌<◌, false, IfOk, OnErr, length, unwrap_or, [], ◌++◌};
ghost use Rattle.http.specs.StatusCode.{reason_phrase, IsStatusCode};
ghost use Rattle.serde_json.specs.View.{view};
ghost use Rattle.serde_json.specs.Written.{compact_text, has_float};
ghost use Rattle.http_answers.specs.Responses.{json, media_text, status_line, fields_text, response_text, refusal_response};

use crate::refusal::Refusal;
use http::StatusCode;
use mail_names::{Bytes, NoMemory};
use serde_json::Value;
use std::alloc::Global;

/// What a body is (RFC 9110 section 8.3).
#[derive(Clone, Copy, Debug, PartialEq, Eq)]
pub enum Media {
    /// JSON (RFC 8259): `application/json`.
    Json,
    /// A message (RFC 5322): `message/rfc822`.
    Message,
}

/// A response: its status code, and its body with its media type. Its other fields follow from these.
#[derive(Drop)]
pub struct Response {
    pub status: u16,
    pub media: Media,
    pub body: Bytes,
}

impl Media {
    fn text(self) -> &'static str
        ensures { result.now ≡ media_text self }
    {
        match self {
            Media::Json => "application/json",
            Media::Message => "message/rfc822",
        }
    }
}

/// A response whose body is this value, without white space.
pub fn json_response(alloc: Global, status: u16, value: &Value) -> Result<Response, NoMemory>
    requires { has_float (view value.now) ≡ false }
    ensures { IfOk result (λ response. response ≡ json status (view value.now)) }
{
    let text = value.to_string(alloc)?;
    let body = Bytes::of(alloc, text.as_bytes())?;
    Ok(Response {
        status,
        media: Media::Json,
        body,
    })
}

// The phrase of a code, or nothing.
fn phrase_of(status: u16) -> &'static str
    requires { IsStatusCode status }
    ensures { result.now ≡ unwrap_or (reason_phrase status) [] }
{
    match StatusCode::from_u16(status) {
        Ok(code) => match code.canonical_reason() {
            Some(phrase) => phrase,
            None => "",
        },
        Err(_) => "",
    }
}

#[tactic(auto, unfolding(crate::specs::Responses::status_line))]
fn status_line(alloc: Global, status: u16) -> Result<Bytes, NoMemory>
    requires { IsStatusCode status }
    ensures { IfOk result (λ text. text ≡ status_line status) }
{
    let phrase = phrase_of(status);
    let line = format!(in alloc; "HTTP/1.1 {status} {phrase}\r\n")?;
    Bytes::of(alloc, line.as_bytes())
}

#[tactic(auto, unfolding(crate::specs::Responses::fields_text))]
fn fields_text(alloc: Global, media: Media, size: usize) -> Result<Bytes, NoMemory>
    ensures { IfOk result (λ text. text ≡ fields_text media size) }
{
    let media = media.text();
    let fields = format!(in alloc;
        "Content-Type: {media}\r\nContent-Length: {size}\r\nConnection: close\r\n\r\n"
    )?;
    Bytes::of(alloc, fields.as_bytes())
}

/// The octets of a response (RFC 9112 section 2.1): a status line of HTTP/1.1, `Content-Type`, `Content-Length`,
/// `Connection: close`, an empty line, and the body.
pub fn response_text(alloc: Global, response: &Response) -> Result<Bytes, NoMemory>
    requires { IsStatusCode response.now.status }
    ensures { IfOk result (λ text. text ≡ response_text response.now) }
{
    let size = response.body.as_slice().len();
    let mut text = status_line(alloc, response.status)?;
    let fields = fields_text(alloc, response.media, size)?;
    text.add(fields.as_slice())?;
    text.add(response.body.as_slice())?;
    Ok(text)
}

/// The octets of the response that says that memory is wanted. It takes none.
pub fn memory_text() -> &'static [u8]
    ensures { result.now ≡ response_text (refusal_response Refusal.Memory) }
{
    b"HTTP/1.1 507 Insufficient Storage\r\nContent-Type: application/json\r\nContent-Length: 18\r\nConnection: close\r\n\r\n{\"fault\":\"memory\"}"
}
