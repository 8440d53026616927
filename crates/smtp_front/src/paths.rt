// The paths of MAIL and RCPT (RFC 5321 section 4.1.2).
ghost use Rattle.std.specs.Prelude.{◌≡◌, IfOk, MatchOption, Option, Some, None};
ghost use Rattle.smtp_front.specs.Commands.{bracketed, form_of, unrouted, mailbox_of};

use crate::texts::{before, behind, beyond, front, is_apart, is_same, unspaced};
use mail_names::{Key, NameFault, NoMemory};
use std::alloc::Global;

/// A path without its brackets, and what stands behind it.
#[derive(Clone, Copy)]
pub struct Form<'a> {
    pub path: &'a [u8],
    pub rest: &'a [u8],
}

// A path in brackets, and nothing or a space behind it.
fn bracketed(text: &[u8]) -> Option<Form<'_>>
    ensures { MatchOption result (bracketed text.now ≡ None) (λ form. bracketed text.now ≡ Some (record { path = form.path.now; rest = form.rest.now })) }
{
    let [b'<', inside @ ..] = text else {
        return None;
    };
    let rest = behind(inside, b'>');
    if !inside.contains(&b'>') || !is_apart(rest) {
        return None;
    }
    let path = before(inside, b'>');
    Some(Form { path, rest })
}

/// The path of an argument that begins with this word.
pub fn form_of<'a>(word: &[u8], argument: &'a [u8]) -> Option<Form<'a>>
    ensures { MatchOption result (form_of word.now argument.now ≡ None) (λ form. form_of word.now argument.now ≡ Some (record { path = form.path.now; rest = form.rest.now })) }
{
    if is_same(front(argument, word.len()), word) {
        bracketed(unspaced(beyond(argument, word.len())))
    } else {
        None
    }
}

/// The path without its source route.
pub fn unrouted(path: &[u8]) -> &[u8]
    ensures { result.now ≡ unrouted path.now }
{
    if path.first() == Some(&b'@') && path.contains(&b':') {
        behind(path, b':')
    } else {
        path
    }
}

/// The mailbox that a path names, if it names one.
pub fn mailbox_of(alloc: Global, path: &[u8]) -> Result<Option<Key>, NoMemory>
    ensures { IfOk result (λ mailbox. mailbox ≡ mailbox_of path.now) }
{
    let name: &[u8] = if is_same(path, b"postmaster") {
        b"postmaster@hub.invalid"
    } else {
        path
    };
    match Key::read(alloc, name) {
        Ok(key) => Ok(Some(key)),
        Err(NameFault::NoMemory) => Err(NoMemory),
        Err(_) => Ok(None),
    }
}
