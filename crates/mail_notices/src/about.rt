// What notices say of a submission.
ghost use Rattle.std.specs.Prelude.{◌≡◌, map, codes, IfOk};
ghost use Rattle.mail_notices.specs.About.{clean_byte, clean, clean_value, about_of};

use crate::About;
use mail_message::Message;
use mail_names::{Bytes, NoMemory};
use std::alloc::Global;

fn clean_byte(b: u8) -> u8
    ensures { result ≡ clean_byte b }
{
    if b < 32 || b == 127 { b'?' } else { b }
}

fn clean(alloc: Global, text: &[u8]) -> Result<Bytes, NoMemory>
    ensures { IfOk result (λ cleaned. cleaned ≡ clean text.now) }
{
    let cleaned = text.iter().map(|b| clean_byte(*b)).collect(alloc)?;
    Ok(Bytes::from_vec(cleaned))
}

fn clean_value(alloc: Global, value: &Option<Bytes>) -> Result<Bytes, NoMemory>
    ensures { IfOk result (λ cleaned. cleaned ≡ clean_value value.now) }
{
    match value {
        None => Ok(Bytes::new(alloc)),
        Some(value) => clean(alloc, value.as_slice()),
    }
}

impl About {
    /// What notices say of a submission: its number, the message's id and subject, with `?` for each control byte and
    /// empty where there is none, and the message as it was before rules.
    pub fn of(
        alloc: Global,
        number: u64,
        message: &Message,
        original: Bytes,
    ) -> Result<About, NoMemory>
        ensures { IfOk result (λ about. about ≡ about_of number message.now original) }
    {
        let id = message.field(alloc, b"Message-Id")?;
        let subject = message.field(alloc, b"Subject")?;
        Ok(About {
            number,
            message_id: clean_value(alloc, &id)?,
            subject: clean_value(alloc, &subject)?,
            original,
        })
    }
}
