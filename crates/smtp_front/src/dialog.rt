// A session's text as events, whatever pieces it comes in.
ghost use Rattle.std.specs.Prelude.{◌≡◌, ℕ, ◌<◌, ◌≤◌, ◌+◌, ◌-◌, ◌^◌, ◌++◌, ◌∷◌, List, [], length, take, slice_index, true, IfOk, OnOk, OnErr, OnSome, Option, Some, None, Ok};
ghost use Rattle.std.specs.List.{flat_map};
ghost use Rattle.smtp_front.specs.Events.{Held, nothing, fed, command, unstuffed, kept, content, next_of, is_between};
ghost use Rattle.smtp_front.specs.Holds.{ends_cr, IsPart, IsContent, Holds, Answers, Took, unread, kept_in};

use crate::part::Part;
use crate::texts::before;
use mail_message::MOST_OCTETS;
use mail_names::{Bytes, NoMemory};
use std::alloc::Global;
use std::mem;

/// The most octets of a command line, without its CRLF (RFC 5321 section 4.5.3.1.4 asks for 512 with it).
const LONGEST: usize = 1022;

/// What comes next in a session's text.
#[derive(Drop)]
pub enum Event {
    /// A command line without its CRLF.
    Line { bytes: Bytes },
    /// A command line of more than 1,024 octets.
    LongLine,
    /// A message's content: its lines, each with its CRLF, without the dots that were doubled.
    Content { bytes: Bytes },
    /// A content of more than 1,048,576 octets.
    TooLarge,
}

// The event of a command line that an LF behind this part ends.
fn command(alloc: Global, part: &Part) -> Result<Event, NoMemory>
    ensures { (text : List ℕ) → IsPart part.now text → ends_cr text ≡ true → IfOk result (λ event. event ≡ command (take (length text - 1) text)) }
{
    match part.line() {
        Some(line) if line.len() <= LONGEST => Ok(Event::Line {
            bytes: Bytes::of(alloc, line)?,
        }),
        _ => Ok(Event::LongLine),
    }
}

fn unstuffed(line: &[u8]) -> &[u8]
    ensures { result.now ≡ unstuffed line.now }
{
    if line.first() == Some(&b'.') {
        &line[1..]
    } else {
        line
    }
}

// Adds a line to a content, and says whether that is over the limit.
fn add_line(content: &mut Bytes, over: bool, part: &Part) -> Result<bool, NoMemory>
    ensures ok { (text : List ℕ) (lines : List (List ℕ)) → IsPart part.now text → ends_cr text ≡ true → IsContent over content.old lines →
        IfOk result (λ over. IsContent over content.new (lines ++ take (length text - 1) text ∷ [])) }
    ensures err { OnErr result (content.new ≡ content.old) }
{
    if over {
        return Ok(true);
    }
    match part.line() {
        Some(line) => {
            let line = unstuffed(line);
            let room = MOST_OCTETS.saturating_sub(content.as_slice().len());
            if line.len() + 2 > room {
                return Ok(true);
            }
            content.add_line(line)?;
            Ok(false)
        }
        None => Ok(true),
    }
}

// The event of a content.
fn ended(bytes: Bytes, over: bool) -> Event
    ensures { (lines : List (List ℕ)) → IsContent over bytes lines → result ≡ content (flat_map kept lines) }
{
    if over {
        Event::TooLarge
    } else {
        Event::Content { bytes }
    }
}

/// A session's text, as far as its events haven't been taken.
#[derive(Drop)]
pub struct Dialog {
    awaits: bool,
    held: Bytes,
    at: usize,
    part: Part,
    content: Bytes,
    over: bool,
}

impl Dialog {
    /// Nothing of a text.
    pub fn new(alloc: Global) -> Result<Dialog, NoMemory>
        ensures { IfOk result (λ dialog. Holds dialog nothing) }
    {
        Ok(Dialog {
            awaits: false,
            held: Bytes::new(alloc),
            at: 0,
            part: Part::new(alloc),
            content: Bytes::new(alloc),
            over: false,
        })
    }

    /// Takes the next piece of the text.
    pub fn feed(&mut self, piece: &[u8]) -> Result<(), NoMemory>
        ensures ok { OnOk result ((held : Held) → Holds self.old held → Holds self.new (fed held piece.now)) }
        ensures err { OnErr result (self.new ≡ self.old) }
    {
        self.held.add(piece)
    }

    // Looks at the next octets.
    fn step(&mut self, alloc: Global) -> Result<Option<Event>, NoMemory>
        requires { self.old.at < length self.old.held }
        ensures ok { (held : Held) → Holds self.old held → IfOk result (λ event. Took event self.new held) }
        ensures err { OnErr result (self.new ≡ self.old) }
        ensures later { IfOk result (λ event. (self.old.at < self.new.at) × (self.new.at ≤ length self.old.held) × (self.new.held ≡ self.old.held)) }
    {
        let run = before(&self.held.as_slice()[self.at..], b'\n');
        let count = run.len();
        if count > 0 {
            self.part.add(run)?;
            self.at += count;
            return Ok(None);
        }
        if self.part.ends_cr() {
            return self.end_line(alloc);
        }
        self.part.add(b"\n")?;
        self.at += 1;
        Ok(None)
    }

    // Ends the line at the LF that comes next, behind a CR.
    fn end_line(&mut self, alloc: Global) -> Result<Option<Event>, NoMemory>
        requires next { self.old.at < length self.old.held }
        requires fits { self.old.at + 1 < 2 ^ 64 }
        requires lf { slice_index self.old.held self.old.at ≡ 10 }
        requires cr { self.old.part.last ≡ 13 }
        ensures ok { (held : Held) → Holds self.old held → IfOk result (λ event. Took event self.new held) }
        ensures err { OnErr result (self.new ≡ self.old) }
        ensures later { IfOk result (λ event. (self.new.at ≡ self.old.at + 1) × (self.new.held ≡ self.old.held)) }
    {
        if !self.awaits {
            let event = command(alloc, &self.part)?;
            self.part = Part::new(alloc);
            self.at += 1;
            return Ok(Some(event));
        }
        if self.part.is_dot() {
            let content = mem::replace(&mut self.content, Bytes::new(alloc));
            let event = ended(content, self.over);
            self.awaits = false;
            self.over = false;
            self.part = Part::new(alloc);
            self.at += 1;
            return Ok(Some(event));
        }
        self.over = add_line(&mut self.content, self.over, &self.part)?;
        self.part = Part::new(alloc);
        self.at += 1;
        Ok(None)
    }

    /// The next event, or None where no whole event is held.
    pub fn next(&mut self, alloc: Global) -> Result<Option<Event>, NoMemory>
        ensures ok { (held : Held) → Holds self.old held → IfOk result (λ event. Answers event self.new held) }
        ensures err { (held : Held) → Holds self.old held → OnErr result (Holds self.new held) }
        ensures bound { (held : Held) → Holds self.old held → result ≡ Ok None → kept_in self.new ≤ 2097153 }
        ensures further { IfOk result (λ event. OnSome event (unread self.new < unread self.old)) }
    {
        while self.at < self.held.as_slice().len() {
            if let Some(event) = self.step(alloc)? {
                return Ok(Some(event));
            }
        }
        self.held = Bytes::new(alloc);
        self.at = 0;
        Ok(None)
    }

    // Whether the text ends neither inside a line nor where content is awaited.
    pub(crate) fn is_between(&self) -> bool
        ensures { (held : Held) → Holds self.now held → (next_of held).event ≡ None → result ≡ is_between held }
    {
        if self.awaits {
            return false;
        }
        if self.at < self.held.as_slice().len() {
            return false;
        }
        self.part.is_new()
    }

    /// What comes next is content. It is called behind the reply 354.
    pub fn await_content(&mut self)
        ensures same { unread self.new ≡ unread self.old }
        ensures holds { (held : Held) → Holds self.old held → Holds self.new (record held { awaits = true }) }
    {
        self.awaits = true;
    }
}
