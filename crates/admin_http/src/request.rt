// Taking a request from a source.
ghost use Rattle.std.specs.Prelude.{◌≡◌, ◌≤◌, ℕ, List, ◌++◌, take, length, Err, IfOk, IfErr};
ghost use Rattle.std.specs.Io.KnownBytes.{Consumes};
ghost use Rattle.port_io.specs.Causes.{Rose};
ghost use Rattle.http_head.specs.declared.route.RoutedHead.{RoutedHead};
ghost use Rattle.http_head.specs.Heads.{IsPassedHead};
ghost use Rattle.admin_http.specs.Requests.{refusal_of, Means};
ghost use Rattle.admin_http.specs.Pieces.{Filled};
ghost use Rattle.admin_http.specs.Takes.{Takes};

use crate::head::{BUFFER_SIZE, TakenHead, take_head};
use crate::pieces::{Dry, fill};
use http_answers::Refusal;
use http_head::{Deed, HeadFault, RoutedHead, Routes, deed_of};
use mail_names::{Bytes, NoMemory};
use port_io::Source;
use std::alloc::Global;

/// What was taken of a request.
#[derive(Drop)]
pub enum Taken {
    /// The request is whole: what it asks for, and its body.
    Whole { deed: Deed, body: Bytes },
    /// A check refuses it.
    Refused { refusal: Refusal },
    /// The request's octets have come, and memory was wanted.
    Starved,
    /// The input ended before the request was whole.
    Cut,
    /// The input failed before the request was whole.
    SourceFault,
    /// Memory was wanted before the request was whole.
    NoMemory,
}

fn refusal_of(fault: HeadFault) -> Refusal
    ensures { result ≡ refusal_of fault }
{
    match fault {
        HeadFault::BadRequest => Refusal::BadRequest,
        HeadFault::NotFound => Refusal::NotFound,
        HeadFault::WrongMethod => Refusal::WrongMethod,
        HeadFault::NoLength => Refusal::NoLength,
        HeadFault::TooLarge => Refusal::TooLarge,
    }
}

// A buffer of a size, with these octets in front.
fn room_for(alloc: Global, rest: &[u8], size: usize) -> Result<Vec<u8>, NoMemory>
    requires { length rest.now ≤ size }
    ensures size { IfOk result (λ body. length body.items ≡ size) }
    ensures front { IfOk result (λ body. take (length rest.now) body.items ≡ rest.now) }
{
    let mut body = Vec::from_slice(alloc, rest)?;
    body.resize(size, 0)?;
    Ok(body)
}

fn fill_vec<S: Source>(source: &mut S, body: &mut Vec<u8>, start: usize) -> Result<(), Dry>
    requires { start ≤ length body.old.items }
    ensures filled { Filled (S.left source.old) (S.left source.new) body.old.items body.new.items start result }
    ensures size { length body.new.items ≡ length body.old.items }
    ensures fault { result ≡ Err Dry.Fault → Rose (S.faults source.old) (S.faults source.new) }
    ensures later { S.faults source.old ≤ S.faults source.new }
{
    fill(source, body.as_mut_slice(), start)
}

// Takes the rest of a body, of which this much has come.
fn take_body<S: Source>(
    alloc: Global,
    source: &mut S,
    deed: Deed,
    rest: &[u8],
    size: usize,
) -> Taken
    ensures took { (text : List ℕ) (target : List ℕ) (routed : RoutedHead) → IsPassedHead text routed target rest.now → Means routed target deed → routed.body_length ≡ size →
        (more : List ℕ) × Consumes (S.left source.old) (S.left source.new) more × Takes (text ++ more) (S.left source.new) result }
    ensures fault { result ≡ Taken.SourceFault → Rose (S.faults source.old) (S.faults source.new) }
    ensures later { S.faults source.old ≤ S.faults source.new }
{
    if size <= rest.len() {
        return match Bytes::of(alloc, &rest[..size]) {
            Ok(body) => Taken::Whole { deed, body },
            Err(NoMemory) => Taken::Starved,
        };
    }
    let Ok(mut body) = room_for(alloc, rest, size) else {
        return Taken::NoMemory;
    };
    match fill_vec(source, &mut body, rest.len()) {
        Ok(()) => Taken::Whole {
            deed,
            body: Bytes::from_vec(body),
        },
        Err(Dry::End) => Taken::Cut,
        Err(Dry::Fault) => Taken::SourceFault,
    }
}

// Takes what a head that no check refused asks for.
fn take_rest<S: Source>(
    alloc: Global,
    source: &mut S,
    routed: RoutedHead,
    target: &[u8],
    rest: &[u8],
) -> Taken
    ensures took { (text : List ℕ) → IsPassedHead text routed target.now rest.now →
        (more : List ℕ) × Consumes (S.left source.old) (S.left source.new) more × Takes (text ++ more) (S.left source.new) result }
    ensures fault { result ≡ Taken.SourceFault → Rose (S.faults source.old) (S.faults source.new) }
    ensures later { S.faults source.old ≤ S.faults source.new }
{
    let size = routed.body_length as usize;
    match deed_of(alloc, routed.route, target) {
        Ok(Some(deed)) => take_body(alloc, source, deed, rest, size),
        Ok(None) => Taken::Refused {
            refusal: Refusal::NotFound,
        },
        Err(NoMemory) if size <= rest.len() => Taken::Starved,
        Err(NoMemory) => Taken::NoMemory,
    }
}

/// Takes one request from a source, and no more octets than a piece behind its head or its body.
pub fn take_request<S: Source>(alloc: Global, source: &mut S) -> Taken
    ensures took { (text : List ℕ) × Consumes (S.left source.old) (S.left source.new) text × Takes text (S.left source.new) result }
    ensures fault { result ≡ Taken.SourceFault → Rose (S.faults source.old) (S.faults source.new) }
    ensures later { S.faults source.old ≤ S.faults source.new }
{
    let Ok(routes) = Routes::new(alloc) else {
        return Taken::NoMemory;
    };
    let mut buffer = [0u8; BUFFER_SIZE];
    match take_head(&routes, source, &mut buffer) {
        Ok(TakenHead::Refused { fault }) => Taken::Refused {
            refusal: refusal_of(fault),
        },
        Ok(
            TakenHead::Whole {
                routed,
                target_start,
                target_end,
                body_start,
                count,
            },
        ) => {
            let text = &buffer[..count];
            let target = &text[target_start..target_end];
            take_rest(alloc, source, routed, target, &text[body_start..])
        }
        Err(Dry::End) => Taken::Cut,
        Err(Dry::Fault) => Taken::SourceFault,
    }
}
