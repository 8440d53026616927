// What a file of the pickup folder stands for.
ghost use Rattle.std.specs.Prelude.{◌≡◌, ◌≤◌, ◌++◌, length, codes, OnOk, IfOk};
ghost use Rattle.std.specs.Result.{result_ok};
ghost use Rattle.mail_names.specs.Key.{key_of};
ghost use Rattle.mail_message.specs.Faults.{most_octets};
ghost use Rattle.mail_message.specs.Message.{text};
ghost use Rattle.mail_message.specs.ReadOf.{read_of};
ghost use Rattle.pickup_box.specs.Header.{first_addresses, all_addresses};
ghost use Rattle.pickup_box.specs.LineEnds.{with_crlf};
ghost use Rattle.pickup_box.specs.PickupOf.{keys_of, sent, submitted, pickup_of, Gives};

use crate::addresses::add_addresses;
use crate::header::fields_of;
use crate::line_ends::with_crlf;
use mail_message::{Message, MessageFault};
use mail_names::{Bytes, Items, Key, NameFault, NoMemory};
use mail_submission::{Origin, Submission, SubmissionFault};
use std::alloc::Global;

/// Why a file stands for no submission.
#[derive(Clone, Copy, Debug, PartialEq, Eq)]
pub enum PickupBad {
    /// Its text is no message of at most 1,048,576 octets, an address of its Sender, From, To, Cc and Bcc fields is no
    /// key, it has no sender or no recipient, or it has more than 1,000 recipients.
    Bad,
    NoMemory,
}

impl From<NoMemory> for PickupBad {
    ghost use Rattle.std.specs.Prelude.{◌≡◌};
    ghost use Rattle.pickup_box.specs.declared.pickup.PickupBad.TheVariants as bad;

    ghost from_gives = { λ _ e. e ≡ bad.NoMemory };

    fn from(_: NoMemory) -> Self {
        PickupBad::NoMemory
    }
}

// Adds the addresses in the first field of this name.
fn add_first(
    alloc: Global,
    texts: &mut Vec<Bytes>,
    field: &Message,
    name: &[u8],
) -> Result<(), NoMemory>
    ensures { OnOk result (texts.new.items ≡ texts.old.items ++ first_addresses name.now field.now) }
{
    if let Some(value) = field.field(alloc, name)? {
        add_addresses(alloc, texts, value.as_slice())?;
    }
    Ok(())
}

// Adds the addresses in those of these fields that have this name.
fn add_all(
    alloc: Global,
    texts: &mut Vec<Bytes>,
    fields: &[Message],
    name: &[u8],
) -> Result<(), NoMemory>
    ensures { OnOk result (texts.new.items ≡ texts.old.items ++ all_addresses name.now fields.now) }
{
    for field in fields {
        add_first(alloc, texts, field, name)?;
    }
    Ok(())
}

fn key_of(alloc: Global, text: &[u8]) -> Result<Key, PickupBad>
    ensures { Gives result (result_ok (key_of text.now)) }
{
    match Key::read(alloc, text) {
        Ok(key) => Ok(key),
        Err(NameFault::NoMemory) => Err(PickupBad::NoMemory),
        Err(_) => Err(PickupBad::Bad),
    }
}

fn keys_of(alloc: Global, texts: &[Bytes]) -> Result<Items<Key>, PickupBad>
    ensures { Gives result (keys_of texts.now) }
{
    let mut keys = Items::new(alloc);
    for text in texts {
        let key = key_of(alloc, text.as_slice())?;
        keys.push(key)?;
    }
    Ok(keys)
}

// Those from whom these fields say that the message comes.
fn senders_of(alloc: Global, fields: &[Message]) -> Result<Items<Key>, PickupBad>
    ensures { Gives result (keys_of (all_addresses (codes "Sender") fields.now ++ all_addresses (codes "From") fields.now)) }
{
    let mut texts = Vec::new(alloc);
    add_all(alloc, &mut texts, fields, b"Sender")?;
    add_all(alloc, &mut texts, fields, b"From")?;
    keys_of(alloc, texts.as_slice())
}

// Those to whom these fields say that the message goes.
fn recipients_of(alloc: Global, fields: &[Message]) -> Result<Items<Key>, PickupBad>
    ensures { Gives result (keys_of (all_addresses (codes "To") fields.now ++ (all_addresses (codes "Cc") fields.now ++ all_addresses (codes "Bcc") fields.now))) }
{
    let mut texts = Vec::new(alloc);
    add_all(alloc, &mut texts, fields, b"To")?;
    add_all(alloc, &mut texts, fields, b"Cc")?;
    add_all(alloc, &mut texts, fields, b"Bcc")?;
    keys_of(alloc, texts.as_slice())
}

// The submission from the first of these senders.
fn sent(
    alloc: Global,
    mark: Bytes,
    senders: Items<Key>,
    recipients: Items<Key>,
    bytes: Bytes,
) -> Result<Submission, PickupBad>
    ensures { Gives result (sent mark senders recipients bytes) }
{
    let sender = match senders.as_slice() {
        [] => return Err(PickupBad::Bad),
        [first, ..] => first.copy(alloc)?,
    };
    let origin = Origin::Pickup { mark };
    match Submission::new(alloc, origin, Some(sender), recipients, bytes) {
        Ok(submission) => Ok(submission),
        Err(SubmissionFault::NoMemory) => Err(PickupBad::NoMemory),
        Err(_) => Err(PickupBad::Bad),
    }
}

fn read_file(alloc: Global, file: &[u8]) -> Result<Message, PickupBad>
    ensures value { Gives result (result_ok (read_of (with_crlf file.now))) }
    ensures short { IfOk result (λ m. length (text m) ≤ most_octets) }
{
    let text = with_crlf(alloc, file)?;
    match Message::read(alloc, text.as_slice()) {
        Ok(message) => Ok(message),
        Err(MessageFault::NoMemory) => Err(PickupBad::NoMemory),
        Err(_) => Err(PickupBad::Bad),
    }
}

// The submission of a message that was read.
fn submitted(alloc: Global, mark: Bytes, mut message: Message) -> Result<Submission, PickupBad>
    requires { length (text message) ≤ most_octets }
    ensures { Gives result (submitted mark message) }
{
    let all = fields_of(alloc, &message)?;
    let fields = all.as_slice();
    let senders = match senders_of(alloc, fields) {
        Ok(senders) => senders,
        Err(bad) => return Err(bad),
    };
    let recipients = match recipients_of(alloc, fields) {
        Ok(recipients) => recipients,
        Err(bad) => return Err(bad),
    };
    message.remove_field(b"Bcc")?;
    let bytes = message.bytes(alloc)?;
    sent(alloc, mark, senders, recipients, bytes)
}

/// The submission that a file stands for, under its mark. Its header has the address fields of RFC 5322
/// section 3.6.3, read by few rules: no groups and no comments.
pub fn pickup_of(alloc: Global, mark: Bytes, file: &[u8]) -> Result<Submission, PickupBad>
    ensures { Gives result (pickup_of mark file.now) }
{
    let message = read_file(alloc, file)?;
    submitted(alloc, mark, message)
}
