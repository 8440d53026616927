// Notices.
use crate::octets::Answer;
use crate::reports::read_why;
use crate::row::{Fault, Row, approval_name, cut, item_name, moment, number, small};
use mail_message::Message;
use mail_names::{Bytes, Key};
use mail_notices::{About, Notice, notice};
use std::alloc::Global;

/// What notices say of a message.
pub fn about_row(alloc: Global, row: &Row<'_>, out: &mut Answer) -> Result<(), Fault> {
    let original = Bytes::of(alloc, row.arg(1))?;
    let message = match Message::read(alloc, original.as_slice()) {
        Ok(message) => message,
        Err(_) => return Err(Fault::BadRow),
    };
    let about = About::of(alloc, number(row.arg(0)), &message, original)?;
    told_about(alloc, &about, out)
}

fn told_about(alloc: Global, about: &About, out: &mut Answer) -> Result<(), Fault> {
    let number = about.number;
    out.given(format!(in alloc; "{number}")?.as_bytes())?;
    out.given(about.message_id.as_slice())?;
    out.given(about.subject.as_slice())?;
    out.given(about.original.as_slice())
}

fn about(alloc: Global, row: &Row<'_>) -> Result<About, Fault> {
    Ok(About {
        number: number(row.named(b"number")),
        message_id: Bytes::of(alloc, row.named(b"id"))?,
        subject: Bytes::of(alloc, row.named(b"subject"))?,
        original: Bytes::of(alloc, row.named(b"original"))?,
    })
}

/// The bytes of a notice.
pub fn notice_row(alloc: Global, row: &Row<'_>, out: &mut Answer) -> Result<(), Fault> {
    let name = item_name(row.named(b"name"))?;
    let to = row.keys(alloc, b"to")?;
    let about = about(alloc, row)?;
    let what = what(alloc, row)?;
    let made = moment(row.named(b"made"))?;
    let bytes = notice(alloc, &name, to.as_slice(), made, &about, &what)?;
    out.given(bytes.as_slice())
}

fn what(alloc: Global, row: &Row<'_>) -> Result<Notice, Fault> {
    match row.arg(0) {
        b"Rejected" => rejected(alloc, row),
        b"Unknown" => Ok(Notice::Unknown {
            keys: row.keys(alloc, b"recipient")?,
        }),
        b"TooMany" => Ok(Notice::TooMany),
        b"Asked" => asked(alloc, row),
        b"Refused" => refused(alloc, row),
        b"RanOut" => ran_out(alloc, row),
        b"Delayed" => delayed(alloc, row),
        b"Undeliverable" => undeliverable(alloc, row),
        _ => Err(Fault::BadRow),
    }
}

fn rejected(alloc: Global, row: &Row<'_>) -> Result<Notice, Fault> {
    let (rule, name) = cut(row.named(b"rule"));
    let (code, words) = cut(row.named(b"code"));
    Ok(Notice::Rejected {
        rule: small(rule),
        name: Bytes::of(alloc, name)?,
        code: small(code),
        words: Bytes::of(alloc, words)?,
        keys: row.keys(alloc, b"recipient")?,
    })
}

fn asked(alloc: Global, row: &Row<'_>) -> Result<Notice, Fault> {
    Ok(Notice::Asked {
        approval: approval_name(row.named(b"approval"))?,
        gate: Bytes::of(alloc, row.named(b"gate"))?,
        deadline: number(row.named(b"deadline")),
    })
}

fn refused(alloc: Global, row: &Row<'_>) -> Result<Notice, Fault> {
    Ok(Notice::Refused {
        approval: approval_name(row.named(b"approval"))?,
        gate: Bytes::of(alloc, row.named(b"gate"))?,
        by: Key::read(alloc, row.named(b"by"))?,
    })
}

fn ran_out(alloc: Global, row: &Row<'_>) -> Result<Notice, Fault> {
    Ok(Notice::RanOut {
        approval: approval_name(row.named(b"approval"))?,
        gate: Bytes::of(alloc, row.named(b"gate"))?,
        deadline: number(row.named(b"deadline")),
    })
}

fn delayed(alloc: Global, row: &Row<'_>) -> Result<Notice, Fault> {
    let (target, why) = cut(row.named(b"target"));
    Ok(Notice::Delayed {
        target: Key::read(alloc, target)?,
        why: read_why(alloc, why)?,
        until: number(row.named(b"until")),
    })
}

fn undeliverable(alloc: Global, row: &Row<'_>) -> Result<Notice, Fault> {
    let (target, why) = cut(row.named(b"target"));
    Ok(Notice::Undeliverable {
        target: Key::read(alloc, target)?,
        why: read_why(alloc, why)?,
        ended: number(row.named(b"ended")),
    })
}
