// Messages, their reading and their bytes.
ghost use Rattle.std.specs.Prelude.{◌≡◌, ℕ, true, false, if◌then◌else◌, Result, IsOk, IfOk, OnOk, OnErr};
ghost use Rattle.std.specs.List.{flat_map};
ghost use Rattle.mail_message.specs.Lines.{ended, goes_on, is_field_name, is_printable};
ghost use Rattle.mail_message.specs.Message.{Mail, Reads, text, field_of};
ghost use Rattle.mail_message.specs.Edits.{set_field, remove_field, prepend_subject, add_text, is_plain};
ghost use Rattle.mail_message.specs.Enclose.{Wraps, wrap, wrapped};
ghost use Rattle.mail_message.specs.Reading.{extended, with_line};
ghost use Rattle.mail_message.specs.Faults.{Reading, Answers, Gives};
ghost use Rattle.mail_message.specs.ReadOf.{read_of};
ghost use Rattle.mail_message.specs.declared.fault.MessageFault.{MessageFault};

use crate::boundary::boundary_at;
use crate::edits::{
    Place, after_body, before_body, field_text, is_text_plain, is_unencoded, prepend_to_subject,
    remove_named, set_named,
};
use crate::fault::MessageFault;
use crate::fields::{first_named, value_of};
use crate::lines::{first_line, is_continuation, is_header};
use crate::wrapping::{add_inside, add_outer_fields, head_of};
use mail_names::{Bytes, NoMemory};
use std::alloc::Global;
use std::marker::Model;

/// The most octets of a message.
pub const MOST_OCTETS: usize = 1_048_576;

/// A message, which contracts see as its fields, each with its raw bytes, and its body.
#[derive(Drop)]
pub struct Message {
    fields: Vec<Bytes>,
    body: Bytes,
}

impl Model for Message {
    ghost use Rattle.mail_message.specs.Message.{Mail, AreFields};

    ghost Value = { Mail };

    ghost view = { λ m. record { fields = m.fields.items; body = m.body } };

    ghost invariant = { λ m. AreFields m.fields.items };
}

impl Message {
    /// The message that these bytes read to. Lines end with CRLF, a bare CR or LF being a byte as any other.
    ///
    /// It takes time linear in the bytes.
    pub fn read(alloc: Global, bytes: &[u8]) -> Result<Message, MessageFault>
        // What is answered is what the bytes read to.
        ensures found { Answers bytes.now result }
        // What the bytes read to is answered.
        ensures only { (r : Result Mail MessageFault) → Reading bytes.now r → Gives result r }
        // The same, told on the lines of the bytes.
        ensures value { Gives result (read_of bytes.now) }
    {
        Message::parsed(alloc, bytes)
    }

    fn parsed(alloc: Global, bytes: &[u8]) -> Result<Message, MessageFault>
        ensures { Answers bytes.now result }
    {
        if bytes.len() > MOST_OCTETS {
            return Err(MessageFault::TooLarge);
        }
        let mut fields = Vec::new(alloc);
        let mut count = 0u32;
        let mut rest = bytes;
        while let Some((line, behind)) = first_line(rest) {
            if line.is_empty() {
                return Ok(Message {
                    fields,
                    body: Bytes::of(alloc, behind)?,
                });
            }
            if !take_line(alloc, &mut fields, count > 0, line)? {
                return Err(MessageFault::BadField { line: count });
            }
            count += 1;
            rest = behind;
        }
        Err(MessageFault::NoBlankLine)
    }

    /// The value of the first field of this name, unfolded and without spaces and tabs at both ends.
    ///
    /// Names are compared without ASCII case.
    pub fn field(&self, alloc: Global, name: &[u8]) -> Result<Option<Bytes>, NoMemory>
        ensures { IfOk result (λ value. value ≡ field_of name.now self.now) }
    {
        match first_named(self.fields.as_slice(), name) {
            None => Ok(None),
            Some(raw) => Ok(Some(value_of(alloc, raw)?)),
        }
    }

    /// Makes the first field of this name `name: value`, and removes later ones. Where there is none,
    /// the new one stands at the end of the header.
    ///
    /// After want of memory nothing has changed.
    pub fn set_field(&mut self, alloc: Global, name: &[u8], value: &[u8]) -> Result<(), NoMemory>
        requires name { is_field_name name.now ≡ true }
        requires value { is_printable value.now ≡ true }
        ensures ok { OnOk result (self.new ≡ set_field name.now value.now self.old) }
        ensures err { OnErr result (self.new ≡ self.old) }
    {
        let raw = field_text(alloc, name, value)?;
        set_named(&mut self.fields, name, raw)?;
        Ok(())
    }

    /// Removes all fields of this name. It takes no memory.
    #[tactic(auto, using(crate::proofs::Keeping::fields_without))]
    pub fn remove_field(&mut self, name: &[u8]) -> Result<(), NoMemory>
        ensures ok { OnOk result (self.new ≡ remove_field name.now self.old) }
        ensures succeeds { IsOk result }
    {
        remove_named(&mut self.fields, name);
        Ok(())
    }

    /// Puts a text before the value of the first Subject. Where there is none, one with the text
    /// stands at the end of the header.
    ///
    /// After want of memory nothing has changed.
    pub fn prepend_subject(&mut self, alloc: Global, text: &[u8]) -> Result<(), NoMemory>
        requires { is_printable text.now ≡ true }
        ensures ok { OnOk result (self.new ≡ prepend_subject text.now self.old) }
        ensures err { OnErr result (self.new ≡ self.old) }
    {
        prepend_to_subject(alloc, &mut self.fields, text)?;
        Ok(())
    }

    /// Whether a text can be added to the body: its type is plain text, or it says none, and it isn't
    /// encoded.
    pub fn is_plain(&self, alloc: Global) -> Result<bool, NoMemory>
        ensures { IfOk result (λ plain. plain ≡ is_plain self.now) }
    {
        let kind = self.field(alloc, b"Content-Type")?;
        let encoding = self.field(alloc, b"Content-Transfer-Encoding")?;
        Ok(is_text_plain(&kind) && is_unencoded(&encoding))
    }

    /// Adds a text and a CRLF before the body, or behind it on a line of its own.
    ///
    /// After want of memory nothing has changed.
    pub fn add_text(&mut self, alloc: Global, place: Place, text: &[u8]) -> Result<(), NoMemory>
        requires { is_plain self.old ≡ true }
        ensures ok { OnOk result (self.new ≡ add_text place text.now self.old) }
        ensures err { OnErr result (self.new ≡ self.old) }
    {
        let body = match place {
            Place::Before => before_body(alloc, self.body.as_slice(), text)?,
            Place::After => after_body(alloc, self.body.as_slice(), text)?,
        };
        self.body = body;
        Ok(())
    }

    /// Encloses the message with a text before it, as a part of a new message that keeps From, To, Subject,
    /// Date and Message-Id.
    ///
    /// After want of memory nothing has changed.
    pub fn wrap(&mut self, alloc: Global, text: &[u8]) -> Result<(), NoMemory>
        ensures ok { OnOk result (self.new ≡ wrapped text.now self.old) }
        ensures least { OnOk result (Wraps text.now self.old self.new) }
        ensures err { OnErr result (self.new ≡ self.old) }
    {
        let wrapper = self.wrapper(alloc, text)?;
        *self = wrapper;
        Ok(())
    }

    fn wrapper(&self, alloc: Global, added: &[u8]) -> Result<Message, NoMemory>
        ensures value { IfOk result (λ m. m ≡ wrapped added.now self.now) }
        ensures least { IfOk result (λ m. Wraps added.now self.now m) }
    {
        let original = self.bytes(alloc)?;
        let mark = boundary_at(alloc, added, original.as_slice())?;
        let wrapper = self.wrapper_at(alloc, mark.as_slice(), added, original.as_slice())?;
        Ok(wrapper)
    }

    fn wrapper_at(
        &self,
        alloc: Global,
        mark: &[u8],
        added: &[u8],
        original: &[u8],
    ) -> Result<Message, NoMemory>
        requires original { original.now ≡ text self.now }
        requires mark { is_printable mark.now ≡ true }
        ensures { IfOk result (λ m. m ≡ wrap mark.now added.now self.now) }
    {
        let mut fields = head_of(alloc, self.fields.as_slice())?;
        add_outer_fields(alloc, &mut fields, mark)?;
        let mut body = Bytes::new(alloc);
        add_inside(alloc, &mut body, mark, added, original)?;
        Ok(Message { fields, body })
    }

    /// A copy of the message.
    pub fn copy(&self, alloc: Global) -> Result<Message, NoMemory>
        ensures { IfOk result (λ m. m ≡ self.now) }
    {
        let mut fields = Vec::new(alloc);
        for raw in self.fields.as_slice() {
            fields.push(Bytes::of(alloc, raw.as_slice())?)?;
        }
        Ok(Message {
            fields,
            body: Bytes::of(alloc, self.body.as_slice())?,
        })
    }

    /// The bytes of the message: what was read, as edited. They read to the message again.
    pub fn bytes(&self, alloc: Global) -> Result<Bytes, NoMemory>
        ensures text { IfOk result (λ bytes. bytes ≡ text self.now) }
        ensures reads { IfOk result (λ bytes. Reads bytes self.now) }
    {
        let mut all = joined(alloc, self.fields.as_slice())?;
        all.add(b"\r\n")?;
        all.add(self.body.as_slice())?;
        Ok(all)
    }
}

// The bytes of these in order.
fn joined(alloc: Global, parts: &[Bytes]) -> Result<Bytes, NoMemory>
    ensures { IfOk result (λ bytes. bytes ≡ flat_map (λ raw. raw) parts.now) }
{
    let mut all = Bytes::new(alloc);
    for part in parts {
        all.add(part.as_slice())?;
    }
    Ok(all)
}

// Adds a line and its end to the last field.
#[tactic(auto, using(crate::proofs::Grouping::extended_last))]
fn extend_last(alloc: Global, fields: &mut Vec<Bytes>, line: &[u8]) -> Result<(), NoMemory>
    ensures { OnOk result (fields.new.items ≡ extended fields.old.items (ended line.now)) }
{
    let mut raw = fields.pop().unwrap_or(Bytes::new(alloc));
    raw.add_line(line)?;
    fields.push(raw)?;
    Ok(())
}

// Adds a line to the fields, if it is of the header.
fn take_line(
    alloc: Global,
    fields: &mut Vec<Bytes>,
    later: bool,
    line: &[u8],
) -> Result<bool, NoMemory>
    ensures taken { IfOk result (λ taken. taken ≡ goes_on later line.now) }
    ensures fields { IfOk result (λ taken. taken ≡ true → fields.new.items ≡ with_line fields.old.items line.now) }
{
    if is_header(line) {
        let mut raw = Bytes::new(alloc);
        raw.add_line(line)?;
        fields.push(raw)?;
        return Ok(true);
    }
    if !later || !is_continuation(line) {
        return Ok(false);
    }
    extend_last(alloc, fields, line)?;
    Ok(true)
}
