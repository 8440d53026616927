// The replies of a session (RFC 5321 section 4.2).
ghost use Rattle.std.specs.Prelude.{◌≡◌, Result};
ghost use Rattle.smtp_front.specs.Replies.{line_text, answer_reply};

use mail_submission::{Accepted, IntakeFault};

/// A reply with a fixed text.
#[derive(Clone, Copy, Debug, PartialEq, Eq)]
pub enum Line {
    Greeting,
    Closing,
    Hello,
    /// The four lines behind EHLO (RFC 5321 section 4.1.1.1).
    Extensions,
    Okay,
    NotVerified,
    Start,
    NoMemory,
    LogFull,
    LogDamaged,
    DeskFull,
    InputTooLong,
    DiskFault,
    TooManyRecipients,
    QueueFull,
    LongLine,
    UnknownCommand,
    BadArgument,
    NotImplemented,
    BadSequence,
    TooLarge,
    BadPath,
    UnknownParameter,
}

/// A reply.
#[derive(Clone, Copy, Debug, PartialEq, Eq)]
pub enum Reply {
    Fixed { line: Line },
    /// The message has this number.
    Accepted { number: u64 },
    /// The content is no message, by the fault of this number.
    Unreadable { fault: u8 },
}

impl Line {
    /// The reply with its CRLF. It takes no memory.
    pub fn text(self) -> &'static [u8]
        ensures { result.now ≡ line_text self }
    {
        match self {
            Line::Greeting => b"220 hub.invalid mail hub ready\r\n",
            Line::Closing => b"221 hub.invalid closing\r\n",
            Line::Hello => b"250 hub.invalid\r\n",
            Line::Extensions => {
                b"250-hub.invalid\r\n250-SIZE 1048576\r\n250-8BITMIME\r\n250 PIPELINING\r\n"
            }
            Line::Okay => b"250 OK\r\n",
            Line::NotVerified => b"252 Not verified\r\n",
            Line::Start => b"354 End data with a dot line\r\n",
            Line::NoMemory => b"421 Closing: no memory\r\n",
            Line::LogFull => b"421 Closing: log full\r\n",
            Line::LogDamaged => b"421 Closing: log damaged\r\n",
            Line::DeskFull => b"421 Closing: desk full\r\n",
            Line::InputTooLong => b"421 Closing: input too long\r\n",
            Line::DiskFault => b"451 Disk fault, try again\r\n",
            Line::TooManyRecipients => b"452 Too many recipients\r\n",
            Line::QueueFull => b"452 Queue full\r\n",
            Line::LongLine => b"500 Line too long\r\n",
            Line::UnknownCommand => b"500 Unknown command\r\n",
            Line::BadArgument => b"501 Bad argument\r\n",
            Line::NotImplemented => b"502 Not implemented\r\n",
            Line::BadSequence => b"503 Bad sequence\r\n",
            Line::TooLarge => b"552 Message too large\r\n",
            Line::BadPath => b"553 Bad path\r\n",
            Line::UnknownParameter => b"555 Unknown parameter\r\n",
        }
    }
}

/// The reply to a submission, by the intake's answer.
pub fn answer_reply(answer: Result<Accepted, IntakeFault>) -> Reply
    ensures { result ≡ answer_reply answer }
{
    let line = match answer {
        Ok(accepted) => {
            return Reply::Accepted {
                number: accepted.number,
            };
        }
        Err(IntakeFault::DiskFault) => Line::DiskFault,
        Err(IntakeFault::NoMemory) => Line::NoMemory,
        Err(IntakeFault::QueueFull { .. }) => Line::QueueFull,
        Err(IntakeFault::LogFull { .. }) => Line::LogFull,
        Err(IntakeFault::NotALog { .. }) => Line::LogDamaged,
        Err(IntakeFault::DeskFull { .. }) => Line::DeskFull,
    };
    Reply::Fixed { line }
}
