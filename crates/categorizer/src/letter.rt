// What the requests and notices of a release share.
ghost use Rattle.std.specs.Prelude.{◌≡◌, ◌≤◌, IfOk};
ghost use Rattle.categorizer.specs.Releasing.{letter_of};

use crate::parts::Letter;
use mail_message::Message;
use mail_names::{LAST_MOMENT, NoMemory};
use mail_notices::About;
use mail_plan::ReleaseInput;
use std::alloc::Global;

/// What the requests and notices of a release share.
pub fn letter_of(alloc: Global, input: &ReleaseInput, message: &Message) -> Result<Letter, NoMemory>
    ensures value { IfOk result (λ letter. letter ≡ letter_of input.now message.now) }
    ensures moment { IfOk result (λ letter. letter.made ≤ LAST_MOMENT) }
{
    let number = input.number();
    let original = input.submission().base_text(alloc, number)?;
    Ok(Letter {
        about: About::of(alloc, number, message, original)?,
        release: input.release(),
        made: input.made(),
    })
}
