// Refusals.
ghost use Rattle.std.specs.Prelude.{◌≡◌, IfOk};
ghost use Rattle.http_answers.specs.Responses.{refusal_status, refusal_words, refusal_response};

use crate::data::fault_value;
use crate::response::{Response, json_response};
use mail_names::NoMemory;
use std::alloc::Global;

/// Why a request is refused, where the response has no more to say, with the status that says so (RFC 9110 section 15).
#[derive(Clone, Copy, Debug, PartialEq, Eq)]
pub enum Refusal {
    /// 400: the head is malformed or passes a limit, or Content-Length isn't one number of 1 to 9 digits.
    BadRequest,
    /// 403: the key isn't that of a moderator of the approval.
    NotModerator,
    /// 404: no route matches, a part of the path isn't what its place wants, or there is no such approval or item.
    NotFound,
    /// 405: the route has another method.
    WrongMethod,
    /// 411: a PUT has no Content-Length, or a request has Transfer-Encoding.
    NoLength,
    /// 413: the body has more than 16,777,216 octets.
    TooLarge,
    /// 422: as many organisations are live as may be.
    EpochsFull,
    /// 500: the log has no room for the entry.
    LogFull,
    /// 500: the log's file is no log.
    LogDamaged,
    /// 500: the desk takes no more calls.
    DeskFull,
    /// 503: the disk failed, and the count of its faults rose.
    Disk,
    /// 503: the shelf failed, and the count of its faults rose.
    Shelf,
    /// 507: memory is wanted.
    Memory,
}

impl Refusal {
    /// The status code.
    pub fn status(self) -> u16
        ensures { result ≡ refusal_status self }
    {
        match self {
            Refusal::BadRequest => 400,
            Refusal::NotModerator => 403,
            Refusal::NotFound => 404,
            Refusal::WrongMethod => 405,
            Refusal::NoLength => 411,
            Refusal::TooLarge => 413,
            Refusal::EpochsFull => 422,
            Refusal::LogFull => 500,
            Refusal::LogDamaged => 500,
            Refusal::DeskFull => 500,
            Refusal::Disk => 503,
            Refusal::Shelf => 503,
            Refusal::Memory => 507,
        }
    }

    /// The words of the body.
    pub fn words(self) -> &'static str
        ensures { result.now ≡ refusal_words self }
    {
        match self {
            Refusal::BadRequest => "bad request",
            Refusal::NotModerator => "not a moderator",
            Refusal::NotFound => "not found",
            Refusal::WrongMethod => "method",
            Refusal::NoLength => "length",
            Refusal::TooLarge => "too large",
            Refusal::EpochsFull => "too many live organisations",
            Refusal::LogFull => "log full",
            Refusal::LogDamaged => "log damaged",
            Refusal::DeskFull => "desk full",
            Refusal::Disk => "disk",
            Refusal::Shelf => "shelf",
            Refusal::Memory => "memory",
        }
    }
}

/// The response that says so.
pub fn refusal_response(alloc: Global, refusal: Refusal) -> Result<Response, NoMemory>
    ensures { IfOk result (λ response. response ≡ refusal_response refusal) }
{
    let value = fault_value(alloc, refusal.words())?;
    json_response(alloc, refusal.status(), &value)
}
