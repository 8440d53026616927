// What an event does.
ghost use Rattle.std.specs.Prelude.{◌≡◌, IfOk};
ghost use Rattle.smtp_front.specs.React.{on_hello, sender_of, sender_at, on_mail, recipient_of, on_rcpt, has_recipient, on_data, dropped, on_vrfy, on_command, on_line, refusal_reply, on_content, react};
ghost use Rattle.smtp_front.specs.declared.reply.Line.{Line};

use crate::dialog::Event;
use crate::parameters::{any_refusal, refusal_of};
use crate::paths::{form_of, mailbox_of, unrouted};
use crate::reply::{Line, Reply};
use crate::texts::trimmed;
use crate::verb::{Verb, argument_of, verb_of, word_of};
use mail_names::{Bytes, Items, Key, NoMemory};
use mail_submission::{MOST_RECIPIENTS, Origin, Submission, SubmissionFault};
use std::alloc::Global;

/// How far a session is.
#[derive(Drop)]
pub enum Phase {
    /// No hello yet.
    New,
    /// After HELO, or EHLO (`extended`), and in no transaction.
    Greeted {
        extended: bool,
    },
    /// After MAIL. The null path is no reverse path (RFC 5321 section 4.5.5).
    Transaction {
        extended: bool,
        reverse: Option<Key>,
        recipients: Items<Key>,
    },
}

/// What an event is answered by.
#[derive(Drop)]
pub enum Deed {
    Say { reply: Reply },
    /// Asks for content.
    Start,
    /// Asks the intake to take a submission.
    Ask { submission: Submission },
    /// Ends the session.
    Quit,
}

/// What an event does.
#[derive(Drop)]
pub struct Reaction {
    pub phase: Phase,
    pub deed: Deed,
}

fn say(phase: Phase, line: Line) -> Reaction
    ensures { result ≡ record { phase = phase; deed = Deed.Say (Reply.Fixed line) } }
{
    let reply = Reply::Fixed { line };
    Reaction {
        phase,
        deed: Deed::Say { reply },
    }
}

fn on_hello(extended: bool, line: Line, phase: Phase, argument: &[u8]) -> Reaction
    ensures { result ≡ on_hello extended line phase argument.now }
{
    if argument.is_empty() {
        say(phase, Line::BadArgument)
    } else {
        say(Phase::Greeted { extended }, line)
    }
}

// The reverse path of a MAIL in this form.
fn sender_at(
    alloc: Global,
    extended: bool,
    rest: &[u8],
    path: &[u8],
) -> Result<Result<Option<Key>, Line>, NoMemory>
    ensures { IfOk result (λ sender. sender ≡ sender_at extended rest.now path.now) }
{
    let reverse = if path.is_empty() {
        None
    } else {
        match mailbox_of(alloc, path)? {
            Some(key) => Some(key),
            None => return Ok(Err(Line::BadPath)),
        }
    };
    match refusal_of(extended, rest) {
        Some(line) => Ok(Err(line)),
        None => Ok(Ok(reverse)),
    }
}

// The reverse path that MAIL names, or the line that refuses it.
fn sender_of(
    alloc: Global,
    extended: bool,
    argument: &[u8],
) -> Result<Result<Option<Key>, Line>, NoMemory>
    ensures { IfOk result (λ sender. sender ≡ sender_of extended argument.now) }
{
    match form_of(b"FROM:", argument) {
        Some(form) => sender_at(alloc, extended, form.rest, unrouted(form.path)),
        None => Ok(Err(Line::BadArgument)),
    }
}

fn on_mail(alloc: Global, phase: Phase, argument: &[u8]) -> Result<Reaction, NoMemory>
    ensures { IfOk result (λ reaction. reaction ≡ on_mail phase argument.now) }
{
    match phase {
        Phase::Greeted { extended } => match sender_of(alloc, extended, argument)? {
            Ok(reverse) => {
                let recipients = Items::new(alloc);
                let phase = Phase::Transaction {
                    extended,
                    reverse,
                    recipients,
                };
                Ok(say(phase, Line::Okay))
            }
            Err(line) => Ok(say(Phase::Greeted { extended }, line)),
        },
        phase => Ok(say(phase, Line::BadSequence)),
    }
}

// The recipient that RCPT names, or the line that refuses it.
fn recipient_of(alloc: Global, argument: &[u8]) -> Result<Result<Key, Line>, NoMemory>
    ensures { IfOk result (λ recipient. recipient ≡ recipient_of argument.now) }
{
    let Some(form) = form_of(b"TO:", argument) else {
        return Ok(Err(Line::BadArgument));
    };
    let Some(key) = mailbox_of(alloc, unrouted(form.path))? else {
        return Ok(Err(Line::BadPath));
    };
    match any_refusal(form.rest) {
        Some(line) => Ok(Err(line)),
        None => Ok(Ok(key)),
    }
}

fn on_rcpt(alloc: Global, phase: Phase, argument: &[u8]) -> Result<Reaction, NoMemory>
    ensures { IfOk result (λ reaction. reaction ≡ on_rcpt phase argument.now) }
{
    match phase {
        Phase::Transaction {
            extended,
            reverse,
            mut recipients,
        } => {
            let line = match recipient_of(alloc, argument)? {
                Ok(key) if recipients.len() < MOST_RECIPIENTS => {
                    recipients.push(key)?;
                    Line::Okay
                }
                Ok(_) => Line::TooManyRecipients,
                Err(line) => line,
            };
            let phase = Phase::Transaction {
                extended,
                reverse,
                recipients,
            };
            Ok(say(phase, line))
        }
        phase => Ok(say(phase, Line::BadSequence)),
    }
}

fn has_recipient(phase: &Phase) -> bool
    ensures { result ≡ has_recipient phase.now }
{
    match phase {
        Phase::Transaction { recipients, .. } => recipients.len() > 0,
        _ => false,
    }
}

fn on_data(phase: Phase, argument: &[u8]) -> Reaction
    ensures { result ≡ on_data phase argument.now }
{
    if !has_recipient(&phase) {
        return say(phase, Line::BadSequence);
    }
    if !argument.is_empty() {
        return say(phase, Line::BadArgument);
    }
    Reaction {
        phase,
        deed: Deed::Start,
    }
}

// The phase without its transaction.
fn dropped(phase: Phase) -> Phase
    ensures { result ≡ dropped phase }
{
    match phase {
        Phase::Transaction { extended, .. } => Phase::Greeted { extended },
        phase => phase,
    }
}

fn on_vrfy(phase: Phase, argument: &[u8]) -> Reaction
    ensures { result ≡ on_vrfy phase argument.now }
{
    if argument.is_empty() {
        say(phase, Line::BadArgument)
    } else {
        say(phase, Line::NotVerified)
    }
}

fn on_command(
    alloc: Global,
    verb: Verb,
    phase: Phase,
    argument: &[u8],
) -> Result<Reaction, NoMemory>
    ensures { IfOk result (λ reaction. reaction ≡ on_command verb phase argument.now) }
{
    match verb {
        Verb::Helo => Ok(on_hello(false, Line::Hello, phase, argument)),
        Verb::Ehlo => Ok(on_hello(true, Line::Extensions, phase, argument)),
        Verb::Mail => on_mail(alloc, phase, argument),
        Verb::Rcpt => on_rcpt(alloc, phase, argument),
        Verb::Data => Ok(on_data(phase, argument)),
        Verb::Rset => Ok(say(dropped(phase), Line::Okay)),
        Verb::Noop => Ok(say(phase, Line::Okay)),
        Verb::Vrfy => Ok(on_vrfy(phase, argument)),
        Verb::Quit => Ok(Reaction {
            phase,
            deed: Deed::Quit,
        }),
        Verb::NotOffered => Ok(say(phase, Line::NotImplemented)),
        Verb::Unknown => Ok(say(phase, Line::UnknownCommand)),
    }
}

// The reply to a content that isn't asked for.
fn refusal_reply(fault: SubmissionFault) -> Reply
    ensures { result ≡ refusal_reply fault }
{
    match fault {
        SubmissionFault::NoRecipients => Reply::Fixed {
            line: Line::BadSequence,
        },
        SubmissionFault::TooManyRecipients => Reply::Fixed {
            line: Line::TooManyRecipients,
        },
        SubmissionFault::Unreadable { fault, .. } => Reply::Unreadable { fault },
        SubmissionFault::NoMemory => Reply::Fixed {
            line: Line::NoMemory,
        },
    }
}

fn on_content(alloc: Global, phase: Phase, bytes: Bytes) -> Result<Reaction, NoMemory>
    ensures { IfOk result (λ reaction. reaction ≡ on_content phase bytes) }
{
    match phase {
        Phase::Transaction {
            extended,
            reverse,
            recipients,
        } => {
            let phase = Phase::Greeted { extended };
            match Submission::new(alloc, Origin::Smtp, reverse, recipients, bytes) {
                Ok(submission) => Ok(Reaction {
                    phase,
                    deed: Deed::Ask { submission },
                }),
                Err(SubmissionFault::NoMemory) => Err(NoMemory),
                Err(fault) => Ok(Reaction {
                    phase,
                    deed: Deed::Say {
                        reply: refusal_reply(fault),
                    },
                }),
            }
        }
        phase => Ok(say(phase, Line::BadSequence)),
    }
}

fn on_line(alloc: Global, phase: Phase, line: &[u8]) -> Result<Reaction, NoMemory>
    ensures { IfOk result (λ reaction. reaction ≡ on_line phase line.now) }
{
    on_command(alloc, verb_of(word_of(line)), phase, argument_of(line))
}

/// What an event does.
pub fn react(alloc: Global, phase: Phase, event: Event) -> Result<Reaction, NoMemory>
    ensures { IfOk result (λ reaction. reaction ≡ react phase event) }
{
    match event {
        Event::Line { bytes } => on_line(alloc, phase, trimmed(bytes.as_slice())),
        Event::LongLine => Ok(say(phase, Line::LongLine)),
        Event::Content { bytes } => on_content(alloc, phase, bytes),
        Event::TooLarge => Ok(say(dropped(phase), Line::TooLarge)),
    }
}
