// Reading a head.
ghost use Rattle.std.specs.Prelude.{◌≡◌, ◌≢◌, ◌≤◌, ℕ, true, false, List, length};
ghost use Rattle.httparse.specs.Grammar.{RequestHead, ReadsRequest};
ghost use Rattle.httparse.specs.Spans.{IsRequestWithin, IsRequestOf, IsRequestAt};
ghost use Rattle.http_head.specs.Heads.{ReadsHead};

use crate::checks::head_checks;
use crate::limits::{MOST_FIELDS, MOST_HEAD_OCTETS, is_over_limits};
use crate::target::ends_in_target;
use crate::{HeadFault, RoutedHead, Routes};
use httparse::spans::{EMPTY_HEADER_SPAN, HeaderSpan, RequestSpans, parse_request};
use httparse::{Error, Status};

/// What has come of a head.
#[derive(Clone, Copy, Debug, PartialEq, Eq)]
pub enum Head {
    /// It isn't whole, and isn't refused: more of it may come.
    Open,
    /// A check refuses it, whatever follows.
    Refused {
        fault: HeadFault,
    },
    /// It is whole, and no check refuses it. These are places in the text: the target lies from `target_start` to
    /// `target_end`, and the body begins at `body_start`.
    Whole {
        routed: RoutedHead,
        target_start: usize,
        target_end: usize,
        body_start: usize,
    },
}

// What becomes of a head that has come whole, of which these are the spans.
fn whole_head(routes: &Routes, text: &[u8], headers: &[HeaderSpan], spans: &RequestSpans) -> Head
    requires within { IsRequestWithin text.now headers.now spans.now }
    requires some { IsRequestOf text.now headers.now spans.now }
    requires few { length headers.now ≤ MOST_FIELDS }
    requires only { (head : RequestHead) (rest : List ℕ) → ReadsRequest text.now head rest → length head.fields ≤ MOST_FIELDS → IsRequestAt text.now headers.now spans.now head }
    ensures { ReadsHead text.now result }
{
    if spans.len > MOST_HEAD_OCTETS {
        let fault = HeadFault::BadRequest;
        return Head::Refused { fault };
    }
    let method = spans.method.of(text);
    let target = spans.path.of(text);
    match head_checks(routes, method, target, text, &headers[..spans.headers]) {
        Ok(routed) => Head::Whole {
            routed,
            target_start: spans.path.start,
            target_end: spans.path.end,
            body_start: spans.len,
        },
        Err(fault) => Head::Refused { fault },
    }
}

fn is_too_many(error: Error) -> bool
    ensures yes { result ≡ true → error ≡ Error.TooManyHeaders }
    ensures no { result ≡ false → error ≢ Error.TooManyHeaders }
{
    matches!(error, Error::TooManyHeaders)
}

/// Reads the head at the front of all that has come of a request. It takes no memory.
///
/// The grammar is that of RFC 9112 sections 2, 3 and 5, as `httparse` reads it: empty lines may come before a head, and
/// LF may stand for CR LF. A head is refused as soon as no octets that can follow make it one, but that a target is
/// judged at its end; as soon as its 65th field is whole; and where it isn't whole within 16,384 octets. Octets behind
/// the head's end say nothing.
///
/// Where the input has ended and this is `Open`, the request was cut.
pub fn read_head(routes: &Routes, text: &[u8]) -> Head
    ensures { ReadsHead text.now result }
{
    let mut headers = [EMPTY_HEADER_SPAN; MOST_FIELDS];
    let fault = HeadFault::BadRequest;
    match parse_request(text, &mut headers) {
        Ok(Status::Complete(spans)) => whole_head(routes, text, &headers, &spans),
        Ok(Status::Partial) => {
            if is_over_limits(text) {
                Head::Refused { fault }
            } else {
                Head::Open
            }
        }
        Err(error) => {
            if is_too_many(error) {
                return Head::Refused { fault };
            }
            if is_over_limits(text) {
                return Head::Refused { fault };
            }
            if ends_in_target(text) {
                Head::Open
            } else {
                Head::Refused { fault }
            }
        }
    }
}
