// What is accepted.
ghost use Rattle.std.specs.Prelude.{◌≡◌, ◌<◌, ◌≤◌, true, length, IfOk, IfErr, Err, option_copied};
ghost use Rattle.mail_message.specs.ReadOf.{read_of};
ghost use Rattle.mail_submission.specs.Submission.{Submitted, is_some_text, has_id, option_eq, same_mark, same_submission, has_message_id, is_readable, unreadable, submission_read, submission_of, Fails, Gives};

use mail_message::{Message, MessageFault};
use mail_names::{Bytes, Items, Key, NoMemory};
use std::alloc::Global;
use std::marker::Model;

/// The most recipients of a submission (RFC 5321 section 4.5.3.1.8 asks for at least 100).
pub const MOST_RECIPIENTS: usize = 1000;

/// How a submission came in.
#[derive(Drop)]
pub enum Origin {
    Smtp,
    /// From the pickup folder, under the mark of its file.
    Pickup { mark: Bytes },
}

/// Why something isn't taken as a submission.
#[derive(Clone, Copy, Debug, PartialEq, Eq)]
pub enum SubmissionFault {
    NoRecipients,
    /// More than 1,000 recipients.
    TooManyRecipients,
    /// The bytes are no message: 1 where no empty line ends its header, 2 where `line`, counted from 0, is no
    /// line of a header, 3 where it has more than 1,048,576 octets.
    Unreadable { fault: u8, line: u32 },
    NoMemory,
}

impl From<NoMemory> for SubmissionFault {
    ghost use Rattle.std.specs.Prelude.{◌≡◌};
    ghost use Rattle.mail_submission.specs.declared.submission.SubmissionFault.TheVariants as faults;

    ghost from_gives = { λ _ e. e ≡ faults.NoMemory };

    fn from(_: NoMemory) -> Self {
        SubmissionFault::NoMemory
    }
}

/// A readable message of at most 1,048,576 octets, with its reverse path (none for the null sender), its 1 to
/// 1,000 recipients and how it came in.
#[derive(Drop)]
pub struct Submission {
    origin: Origin,
    reverse: Option<Key>,
    recipients: Items<Key>,
    bytes: Bytes,
    has_id: bool,
}

impl Model for Submission {
    ghost use Rattle.mail_submission.specs.Submission.{Submitted, has_message_id, is_readable};
    ghost use Rattle.std.specs.Prelude.{◌≡◌, ◌<◌, ◌≤◌, true, length};
    ghost use Rattle.mail_submission.specs.declared.submission.TheConstants.{MOST_RECIPIENTS};

    ghost Value = { Submitted };

    ghost view = { λ s. record { origin = s.origin; reverse = s.reverse; recipients = s.recipients; bytes = s.bytes } };

    ghost invariant = { λ s. (s.has_id ≡ has_message_id s.bytes) × (is_readable s.bytes ≡ true) × (0 < length s.recipients) × (length s.recipients ≤ MOST_RECIPIENTS) };
}

fn id_option(value: &Option<Bytes>) -> bool
    ensures { result ≡ is_some_text value.now }
{
    match value {
        None => false,
        Some(value) => !value.as_slice().is_empty(),
    }
}

// Whether the message has a Message-Id with a value.
fn has_id(alloc: Global, message: &Message) -> Result<bool, NoMemory>
    ensures { IfOk result (λ has. has ≡ has_id message.now) }
{
    let value = message.field(alloc, b"Message-Id")?;
    Ok(id_option(&value))
}

fn same_mark(a: &Origin, b: &Origin) -> bool
    ensures { result ≡ same_mark a.now b.now }
{
    match (a, b) {
        (Origin::Pickup { mark }, Origin::Pickup { mark: other }) => *mark == *other,
        _ => false,
    }
}

fn same_key(a: &Option<Key>, b: &Option<Key>) -> bool
    ensures { result ≡ option_eq a.now b.now }
{
    match (a, b) {
        (None, None) => true,
        (Some(a), Some(b)) => *a == *b,
        _ => false,
    }
}

// The fault of a submission whose bytes read to this fault.
fn unreadable(fault: MessageFault) -> SubmissionFault
    ensures { Fails result (Err (unreadable fault)) }
{
    match fault {
        MessageFault::NoBlankLine => SubmissionFault::Unreadable { fault: 1, line: 0 },
        MessageFault::BadField { line } => SubmissionFault::Unreadable { fault: 2, line },
        MessageFault::TooLarge => SubmissionFault::Unreadable { fault: 3, line: 0 },
        MessageFault::NoMemory => SubmissionFault::NoMemory,
    }
}

// Whether the message that these bytes are has a Message-Id with a value.
fn read_id(alloc: Global, bytes: &[u8]) -> Result<bool, SubmissionFault>
    ensures ok { IfOk result (λ has. (has ≡ has_message_id bytes.now) × (is_readable bytes.now ≡ true)) }
    ensures err { (s : Submitted) → IfErr result (λ e. Fails e (submission_read s (read_of bytes.now))) }
{
    match Message::read(alloc, bytes) {
        Ok(message) => match has_id(alloc, &message) {
            Ok(has) => Ok(has),
            Err(NoMemory) => Err(SubmissionFault::NoMemory),
        },
        Err(fault) => Err(unreadable(fault)),
    }
}

impl Submission {
    /// The submission of these parts.
    ///
    /// The faults are judged in the order of `SubmissionFault`; want of memory may come in the place of each.
    pub fn new(
        alloc: Global,
        origin: Origin,
        reverse: Option<Key>,
        recipients: Items<Key>,
        bytes: Bytes,
    ) -> Result<Submission, SubmissionFault>
        ensures { Gives result (submission_of origin reverse recipients bytes) }
    {
        if recipients.len() == 0 {
            return Err(SubmissionFault::NoRecipients);
        }
        if recipients.len() > MOST_RECIPIENTS {
            return Err(SubmissionFault::TooManyRecipients);
        }
        match read_id(alloc, bytes.as_slice()) {
            Ok(has_id) => Ok(Submission {
                origin,
                reverse,
                recipients,
                bytes,
                has_id,
            }),
            Err(fault) => Err(fault),
        }
    }

    pub fn origin(&self) -> &Origin
        ensures { result.now ≡ self.now.origin }
    {
        &self.origin
    }

    /// The reverse path, which is none for the null sender (RFC 5321 section 4.5.5).
    pub fn reverse(&self) -> Option<&Key>
        ensures { option_copied result ≡ self.now.reverse }
    {
        self.reverse.as_ref()
    }

    pub fn recipients(&self) -> &[Key]
        ensures value { result.now ≡ self.now.recipients }
        ensures some { 0 < length result.now }
        ensures most { length result.now ≤ MOST_RECIPIENTS }
    {
        self.recipients.as_slice()
    }

    pub fn bytes(&self) -> &[u8]
        ensures value { result.now ≡ self.now.bytes }
        ensures readable { is_readable result.now ≡ true }
    {
        self.bytes.as_slice()
    }

    /// Whether the message has a Message-Id with a value.
    pub fn has_message_id(&self) -> bool
        ensures { result ≡ has_message_id self.now.bytes }
    {
        self.has_id
    }

    /// Whether this is the other one, sent again.
    pub fn same(&self, other: &Submission) -> bool
        ensures { result ≡ same_submission self.now other.now }
    {
        same_key(&self.reverse, &other.reverse)
            && self.recipients == other.recipients
            && self.bytes == other.bytes
            && (self.has_id || same_mark(&self.origin, &other.origin))
    }
}
