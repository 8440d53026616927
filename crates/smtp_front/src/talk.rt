// One session over any intake.
ghost use Rattle.std.specs.Prelude.{◌≡◌, ◌≢◌, ◌<◌, ◌≤◌, ℕ, List, IfOk, IfErr, OnOk, Ok, Err, Option, None};
ghost use Rattle.std.specs.Io.KnownBytes.{Appends, Consumes};
ghost use Rattle.port_io.specs.Causes.{Rose};
ghost use Rattle.mail_submission.specs.declared.intake.Accepted.{Accepted};
ghost use Rattle.mail_submission.specs.declared.intake.IntakeFault.{IntakeFault};
ghost use Rattle.smtp_front.specs.declared.react.Phase.{Phase};
ghost use Rattle.smtp_front.specs.Events.{Held, nothing, next_of};
ghost use Rattle.smtp_front.specs.Holds.{Holds, unread};
ghost use Rattle.smtp_front.specs.Replies.{line_text, reply_text};
ghost use Rattle.smtp_front.specs.React.{react};
ghost use Rattle.smtp_front.specs.Turns.{answer_end, behind, end_at};
ghost use Rattle.smtp_front.specs.Sessions.{StaysOpen, WentOn, Spoke};
ghost use Rattle.smtp_front.specs.Drains.{Unsaid, Asked, Drains, Closed};

use crate::dialog::Dialog;
use crate::react::{Deed, Phase, react};
use crate::reply::{Line, Reply, answer_reply};
use crate::session_end::SessionEnd;
use mail_names::{Bytes, NoMemory};
use mail_submission::{Accepted, Intake, IntakeFault};
use port_io::{Clock, Failed, Sink, Source, read_piece, write_all_to};
use std::alloc::Global;

/// The most octets that a session takes.
const LONGEST: usize = 2_147_483_648;

/// The most octets of a piece.
const PIECE: usize = 4096;

/// Why a session can't go on, by itself.
#[derive(Clone, Copy)]
pub enum Halt {
    NoMemory,
    SinkFault,
}

/// A deed's reply, and how the session ends by the deed, if it does.
#[derive(Clone, Copy)]
pub struct DeedAnswer {
    pub reply: Reply,
    pub end: Option<SessionEnd>,
}

/// How far a session is once no whole event is held, or how it ended.
#[derive(Drop)]
pub enum Drained {
    Open { phase: Phase },
    Over { end: SessionEnd },
    Halted { halt: Halt },
}

fn answer_end(answer: Result<Accepted, IntakeFault>) -> Option<SessionEnd>
    ensures { result ≡ answer_end answer }
{
    match answer {
        Err(IntakeFault::NoMemory) => Some(SessionEnd::NoMemory),
        Err(IntakeFault::LogFull { .. }) => Some(SessionEnd::LogFull),
        Err(IntakeFault::NotALog { at }) => Some(SessionEnd::NotALog { at }),
        Err(IntakeFault::DeskFull { .. }) => Some(SessionEnd::DeskFull),
        Ok(_) | Err(IntakeFault::DiskFault) | Err(IntakeFault::QueueFull { .. }) => None,
    }
}

// Writes octets.
fn write<K: Sink>(sink: &mut K, bytes: &[u8]) -> Result<(), Halt>
    ensures ok { OnOk result (Appends (K.taken sink.old) (K.taken sink.new) bytes.now) }
    ensures err { IfErr result (Unsaid (K.taken sink.old) (K.taken sink.new) bytes.now) }
    ensures cause { result ≡ Err Halt.SinkFault → Rose (K.faults sink.old) (K.faults sink.new) }
    ensures later { K.faults sink.old ≤ K.faults sink.new }
{
    match write_all_to(sink, bytes) {
        Ok(()) => Ok(()),
        Err(Failed) => Err(Halt::SinkFault),
    }
}

// The octets of a reply.
fn text_of(alloc: Global, reply: Reply) -> Result<Bytes, NoMemory>
    ensures { IfOk result (λ text. text ≡ reply_text reply) }
{
    match reply {
        Reply::Fixed { line } => Bytes::of(alloc, line.text()),
        Reply::Accepted { number } => {
            let text = format!(in alloc; "250 Accepted {number}\r\n")?;
            Bytes::of(alloc, text.as_bytes())
        }
        Reply::Unreadable { fault } => {
            let text = format!(in alloc; "554 Message can't be read: fault {fault}\r\n")?;
            Bytes::of(alloc, text.as_bytes())
        }
    }
}

// Writes a reply. Only one with a number takes memory.
fn say<K: Sink>(alloc: Global, sink: &mut K, reply: Reply) -> Result<(), Halt>
    ensures ok { OnOk result (Appends (K.taken sink.old) (K.taken sink.new) (reply_text reply)) }
    ensures err { IfErr result (Unsaid (K.taken sink.old) (K.taken sink.new) (reply_text reply)) }
    ensures cause { result ≡ Err Halt.SinkFault → Rose (K.faults sink.old) (K.faults sink.new) }
    ensures later { K.faults sink.old ≤ K.faults sink.new }
{
    match reply {
        Reply::Fixed { line } => write(sink, line.text()),
        reply => match text_of(alloc, reply) {
            Ok(text) => write(sink, text.as_slice()),
            Err(NoMemory) => Err(Halt::NoMemory),
        },
    }
}

// Does a deed but for its reply.
fn ask<I: Intake, C: Clock>(intake: &mut I, clock: &mut C, deed: Deed) -> DeedAnswer
    ensures asked { Asked I.gives intake.old intake.new (C.moments clock.old) (C.moments clock.new) deed result.reply result.end }
    ensures disks { I.disk_faults intake.old ≤ I.disk_faults intake.new }
{
    match deed {
        Deed::Say { reply } => DeedAnswer { reply, end: None },
        Deed::Start => DeedAnswer {
            reply: Reply::Fixed { line: Line::Start },
            end: None,
        },
        Deed::Quit => DeedAnswer {
            reply: Reply::Fixed {
                line: Line::Closing,
            },
            end: Some(SessionEnd::Quit),
        },
        Deed::Ask { submission } => {
            let moment = clock.now();
            let answer = intake.submit(submission, moment);
            DeedAnswer {
                reply: answer_reply(answer),
                end: answer_end(answer),
            }
        }
    }
}

// Awaits content where a deed asks for it.
fn follow(dialog: &mut Dialog, deed: &Deed)
    ensures holds { (held : Held) → Holds dialog.old held → Holds dialog.new (behind deed.now held) }
    ensures same { unread dialog.new ≡ unread dialog.old }
{
    match deed {
        Deed::Start => dialog.await_content(),
        _ => {}
    }
}

// Does what the whole events that are held ask for.
fn drain<I: Intake, K: Sink, C: Clock>(
    alloc: Global,
    intake: &mut I,
    sink: &mut K,
    clock: &mut C,
    dialog: &mut Dialog,
    phase: Phase,
) -> Drained
    ensures drains { (first : Phase) (text : Held) (start : I) (began : ℕ → Option ℕ) (taken : Option (List ℕ)) →
        (so_far : StaysOpen I.gives first text start intake.old began (C.moments clock.old) taken (K.taken sink.old) phase) → Holds dialog.old so_far.after →
        Drains I.gives first text start intake.new began (C.moments clock.new) taken (K.taken sink.new) dialog.new result }
    ensures cause { result ≡ Drained.Halted Halt.SinkFault → Rose (K.faults sink.old) (K.faults sink.new) }
    ensures sinks { K.faults sink.old ≤ K.faults sink.new }
    ensures disks { I.disk_faults intake.old ≤ I.disk_faults intake.new }
{
    let mut phase = phase;
    loop {
        let event = match dialog.next(alloc) {
            Ok(Some(event)) => event,
            Ok(None) => return Drained::Open { phase },
            Err(NoMemory) => {
                let halt = Halt::NoMemory;
                return Drained::Halted { halt };
            }
        };
        let reaction = match react(alloc, phase, event) {
            Ok(reaction) => reaction,
            Err(NoMemory) => {
                let halt = Halt::NoMemory;
                return Drained::Halted { halt };
            }
        };
        phase = reaction.phase;
        follow(dialog, &reaction.deed);
        let outcome = ask(intake, clock, reaction.deed);
        match say(alloc, sink, outcome.reply) {
            Ok(()) => {}
            Err(halt) => return Drained::Halted { halt },
        }
        match outcome.end {
            Some(end) => return Drained::Over { end },
            None => {}
        }
    }
}

// Writes the session's own last line.
fn close<K: Sink>(sink: &mut K, line: Line, end: SessionEnd) -> SessionEnd
    ensures closed { Closed (K.taken sink.old) (K.taken sink.new) (line_text line) end result }
    ensures cause { end ≢ SessionEnd.SinkFault → result ≡ SessionEnd.SinkFault → Rose (K.faults sink.old) (K.faults sink.new) }
    ensures later { K.faults sink.old ≤ K.faults sink.new }
{
    match write_all_to(sink, line.text()) {
        Ok(()) => end,
        Err(Failed) => SessionEnd::SinkFault,
    }
}

// How a session ends where its text does.
fn end_at(dialog: &Dialog) -> SessionEnd
    ensures { (held : Held) → Holds dialog.now held → (next_of held).event ≡ None → result ≡ end_at held }
{
    if dialog.is_between() {
        SessionEnd::EndOfInput
    } else {
        SessionEnd::Cut
    }
}

// Runs a session behind its greeting.
fn converse<I: Intake, S: Source, K: Sink, C: Clock>(
    alloc: Global,
    intake: &mut I,
    source: &mut S,
    sink: &mut K,
    clock: &mut C,
    dialog: Dialog,
) -> SessionEnd
    requires { Holds dialog nothing }
    ensures went_on { (text : List ℕ) × Consumes (S.left source.old) (S.left source.new) text
        × WentOn I.gives intake.old intake.new (C.moments clock.old) (C.moments clock.new) (K.taken sink.old) (K.taken sink.new) text (S.left source.new) result }
    ensures source_fault { result ≡ SessionEnd.SourceFault → Rose (S.faults source.old) (S.faults source.new) }
    ensures sink_fault { result ≡ SessionEnd.SinkFault → Rose (K.faults sink.old) (K.faults sink.new) }
    ensures sources { S.faults source.old ≤ S.faults source.new }
    ensures sinks { K.faults sink.old ≤ K.faults sink.new }
    ensures disks { I.disk_faults intake.old ≤ I.disk_faults intake.new }
{
    let mut dialog = dialog;
    let mut phase = Phase::New;
    let mut wire = [0u8; PIECE];
    let mut left = LONGEST;
    while left > 0 {
        let room = left.min(PIECE);
        let count = match read_piece(source, &mut wire, room) {
            Ok(0) => return end_at(&dialog),
            Ok(count) => count,
            Err(Failed) => return SessionEnd::SourceFault,
        };
        match dialog.feed(&wire[..count]) {
            Ok(()) => {}
            Err(NoMemory) => return close(sink, Line::NoMemory, SessionEnd::NoMemory),
        }
        match drain(alloc, intake, sink, clock, &mut dialog, phase) {
            Drained::Open { phase: next } => phase = next,
            Drained::Over { end } => return end,
            Drained::Halted {
                halt: Halt::NoMemory,
            } => return close(sink, Line::NoMemory, SessionEnd::NoMemory),
            Drained::Halted {
                halt: Halt::SinkFault,
            } => return SessionEnd::SinkFault,
        }
        left -= count;
    }
    close(sink, Line::InputTooLong, SessionEnd::TooLong)
}

/// Runs one session over any intake: the greeting, and then a reply to each event of the input in order
/// (RFC 5321, with SIZE, 8BITMIME and PIPELINING of RFC 1870, RFC 6152 and RFC 2920).
///
/// `Spoke` says for each end what was done of the input, which steps the intake made at which moments, and what was
/// written. Want of memory comes in the place of any reply but the fixed line that says so.
pub fn session<I: Intake, S: Source, K: Sink, C: Clock>(
    alloc: Global,
    intake: &mut I,
    source: &mut S,
    sink: &mut K,
    clock: &mut C,
) -> SessionEnd
    ensures spoke { Spoke I.gives intake.old intake.new (C.moments clock.old) (C.moments clock.new) (K.taken sink.old) (K.taken sink.new) (S.left source.old) (S.left source.new) result }

    // The count of an end rose where it ended the session, and none falls.
    ensures source_fault { result ≡ SessionEnd.SourceFault → Rose (S.faults source.old) (S.faults source.new) }
    ensures sink_fault { result ≡ SessionEnd.SinkFault → Rose (K.faults sink.old) (K.faults sink.new) }
    ensures sources { S.faults source.old ≤ S.faults source.new }
    ensures sinks { K.faults sink.old ≤ K.faults sink.new }
    ensures disks { I.disk_faults intake.old ≤ I.disk_faults intake.new }
{
    match write_all_to(sink, Line::Greeting.text()) {
        Ok(()) => {}
        Err(Failed) => return SessionEnd::SinkFault,
    }
    match Dialog::new(alloc) {
        Ok(dialog) => converse(alloc, intake, source, sink, clock, dialog),
        Err(NoMemory) => close(sink, Line::NoMemory, SessionEnd::NoMemory),
    }
}
