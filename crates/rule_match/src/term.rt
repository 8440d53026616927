// Whether a term holds.
ghost use Rattle.std.specs.Prelude.{◌≡◌, ℕ, true, IfOk, option_copied};
ghost use Rattle.std.specs.List.{list_any};
ghost use Rattle.mail_names.specs.Key.{domain_of};
ghost use Rattle.org_directory.specs.Register.{among, is_inside};
ghost use Rattle.rule_terms.specs.Forms.{is_term};
ghost use Rattle.rule_match.specs.Applies.{Setting, holds, is_in_one, is_side, of_sender};

use crate::content::{field_has_one, has_field, has_size, text_has_one};
use crate::people::{is_in_one, is_of_one, is_on_one, is_one};
use mail_message::Message;
use mail_names::{Bytes, Key, NoMemory};
use org_directory::Directory;
use rule_terms::{Side, Term};
use std::alloc::Global;

fn sender_is_one(sender: Option<&Key>, keys: &[Key]) -> bool
    ensures { result ≡ of_sender (λ key. among key keys.now) (option_copied sender.entry) }
{
    sender.is_some_and(|sender| is_one(sender, keys))
}

fn sender_is_of_one(sender: Option<&Key>, domains: &[Bytes]) -> bool
    ensures { result ≡ of_sender (λ key. among (domain_of key) domains.now) (option_copied sender.entry) }
{
    sender.is_some_and(|sender| is_of_one(sender, domains))
}

fn sender_is_in_one(
    alloc: Global,
    directory: &Directory,
    groups: &[u32],
    sender: Option<&Key>,
) -> Result<bool, NoMemory>
    ensures { IfOk result (λ b. b ≡ of_sender (is_in_one directory.now groups.now) (option_copied sender.entry)) }
{
    match sender {
        None => Ok(false),
        Some(sender) => is_in_one(alloc, directory, groups, sender),
    }
}

// The null sender is outside.
fn sender_is_inside(directory: &Directory, sender: Option<&Key>) -> bool
    ensures { result ≡ of_sender (is_inside directory.now) (option_copied sender.entry) }
{
    sender.is_some_and(|sender| directory.is_inside(sender))
}

/// Whether a term holds for a message from a sender, where None is the null sender, to a recipient. It is read as
/// `Term` says.
pub fn holds(
    alloc: Global,
    term: &Term,
    directory: &Directory,
    sender: Option<&Key>,
    recipient: &Key,
    message: &Message,
) -> Result<bool, NoMemory>
    requires { is_term term.now ≡ true }
    ensures { (moment : ℕ) → IfOk result (λ b. b ≡
        holds (record { directory = directory.now; sender = option_copied sender.entry; moment = moment }) recipient.now message.now term.now) }
{
    match term {
        Term::SenderIs { keys } => Ok(sender_is_one(sender, keys.as_slice())),
        Term::RecipientIs { keys } => Ok(is_one(recipient, keys.as_slice())),
        Term::SenderIn { groups } => {
            sender_is_in_one(alloc, directory, groups.as_slice(), sender)
        }
        Term::RecipientIn { groups } => is_in_one(alloc, directory, groups.as_slice(), recipient),
        Term::SenderScope { sides } => {
            let inside = sender_is_inside(directory, sender);
            Ok(is_on_one(inside, sides.as_slice()))
        }
        Term::RecipientScope { sides } => {
            let inside = directory.is_inside(recipient);
            Ok(is_on_one(inside, sides.as_slice()))
        }
        Term::SenderDomain { domains } => Ok(sender_is_of_one(sender, domains.as_slice())),
        Term::RecipientDomain { domains } => Ok(is_of_one(recipient, domains.as_slice())),
        Term::SubjectWords { words } => {
            field_has_one(alloc, message, b"Subject", words.as_slice())
        }
        Term::TextWords { words } => text_has_one(alloc, message, words.as_slice()),
        Term::FieldWords { field, words } => {
            field_has_one(alloc, message, field.as_slice(), words.as_slice())
        }
        Term::FieldPresent { field } => has_field(alloc, message, field.as_slice()),
        Term::SizeAtLeast { bytes } => has_size(alloc, message, *bytes),
    }
}
