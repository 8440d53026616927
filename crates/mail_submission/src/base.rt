// The message that is sent for a submission.
ghost use Rattle.std.specs.Prelude.{◌≡◌, true, codes, IfOk, OnOk};
ghost use Rattle.mail_message.specs.Lines.{is_printable};
ghost use Rattle.mail_message.specs.ReadOf.{read_of};
ghost use Rattle.mail_submission.specs.Base.{id_text, text_with_id, base_text, with_id, base_message};
ghost use Rattle.mail_submission.specs.Submission.{has_id};

use crate::Submission;
use mail_message::Message;
use mail_names::{Bytes, NoMemory};
use std::alloc::Global;

#[tactic(auto, using(crate::proofs::Printable::id_printable))]
fn id_text(alloc: Global, number: u64) -> Result<Bytes, NoMemory>
    ensures value { IfOk result (λ text. text ≡ id_text number) }
    ensures printable { IfOk result (λ text. is_printable text ≡ true) }
{
    let text = format!(in alloc; "<{number}@hub.invalid>")?;
    Bytes::of(alloc, text.as_bytes())
}

fn text_with_id(alloc: Global, number: u64, bytes: &[u8]) -> Result<Bytes, NoMemory>
    ensures { IfOk result (λ text. text ≡ text_with_id number (read_of bytes.now)) }
{
    let id = id_text(alloc, number)?;
    match Message::read(alloc, bytes) {
        Ok(message) => {
            let mut message = message;
            message.set_field(alloc, b"Message-Id", id.as_slice())?;
            message.bytes(alloc)
        }
        // The bytes of a submission are readable, so this is want of memory.
        Err(_) => Err(NoMemory),
    }
}

fn with_id(alloc: Global, has: bool, number: u64, message: &mut Message) -> Result<(), NoMemory>
    ensures { OnOk result (message.new ≡ with_id has number message.old) }
{
    if has {
        return Ok(());
    }
    let id = id_text(alloc, number)?;
    message.set_field(alloc, b"Message-Id", id.as_slice())
}

impl Submission {
    /// The message that rules see and that is sent: the bytes as they are, or, where they have no Message-Id with
    /// a value, with `Message-Id: <N@hub.invalid>`, N being the submission's number.
    pub fn base_text(&self, alloc: Global, number: u64) -> Result<Bytes, NoMemory>
        ensures { IfOk result (λ text. text ≡ base_text number self.now.bytes) }
    {
        if self.has_message_id() {
            return Bytes::of(alloc, self.bytes());
        }
        text_with_id(alloc, number, self.bytes())
    }

    /// The message that rules see: as `base_text`, but as a message.
    pub fn base_message(&self, alloc: Global, number: u64) -> Result<Message, NoMemory>
        ensures { IfOk result (λ message. message ≡ base_message number self.now.bytes) }
    {
        match Message::read(alloc, self.bytes()) {
            Ok(message) => {
                let mut message = message;
                with_id(alloc, self.has_message_id(), number, &mut message)?;
                Ok(message)
            }
            // The bytes of a submission are readable, so this is want of memory.
            Err(_) => Err(NoMemory),
        }
    }
}
