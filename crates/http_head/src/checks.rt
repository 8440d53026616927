// The checks of a whole head, in their order.
ghost use Rattle.std.specs.Prelude.{◌≡◌, length, map, All, IsUtf8};
ghost use Rattle.httparse.specs.Spans.{IsHeaderWithin, header_bytes};
ghost use Rattle.http_head.specs.Checks.{size_check, length_check, head_checks};

use crate::fields::{BodyLength, body_length, first_value};
use crate::route::MOST_BODY_OCTETS;
use crate::{HeadFault, Route, RoutedHead, Routes};
use httparse::spans::HeaderSpan;
use std::str;

fn size_check(route: Route, length: BodyLength) -> Result<RoutedHead, HeadFault>
    ensures { result ≡ size_check route length }
{
    match length {
        BodyLength::Absent if route.is_put() => Err(HeadFault::NoLength),
        BodyLength::Absent => Ok(RoutedHead {
            route,
            body_length: 0,
        }),
        BodyLength::Bad => Err(HeadFault::BadRequest),
        BodyLength::Known { octets } if octets > MOST_BODY_OCTETS => Err(HeadFault::TooLarge),
        BodyLength::Known { octets } => Ok(RoutedHead {
            route,
            body_length: octets,
        }),
    }
}

fn length_check(route: Route, text: &[u8], headers: &[HeaderSpan]) -> Result<RoutedHead, HeadFault>
    requires { All (IsHeaderWithin (length text.now)) headers.now }
    ensures { result ≡ length_check route (map (header_bytes text.now) headers.now) }
{
    if first_value(text, headers, b"transfer-encoding").is_some() {
        return Err(HeadFault::NoLength);
    }
    size_check(route, body_length(text, headers))
}

/// What the checks say of a whole head with this method, target and fields, which are parts of this text.
pub fn head_checks(
    routes: &Routes,
    method: &[u8],
    target: &[u8],
    text: &[u8],
    headers: &[HeaderSpan],
) -> Result<RoutedHead, HeadFault>
    requires utf8 { IsUtf8 target.now }
    requires within { All (IsHeaderWithin (length text.now)) headers.now }
    ensures { result ≡ head_checks (record { method = method.now; target = target.now; fields = map (header_bytes text.now) headers.now }) }
{
    let Ok(path) = str::from_utf8(target) else {
        return Err(HeadFault::NotFound);
    };
    let Some(route) = routes.find(path) else {
        return Err(HeadFault::NotFound);
    };
    if method != route.method() {
        return Err(HeadFault::WrongMethod);
    }
    length_check(route, text, headers)
}
