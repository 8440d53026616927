// Command lines: their verbs and arguments.
ghost use Rattle.std.specs.Prelude.{◌≡◌};
ghost use Rattle.smtp_front.specs.Commands.{verb_of, word_of, argument_of};

use crate::texts::{before, behind, is_same};

/// The verb of a command line.
#[derive(Clone, Copy, Debug, PartialEq, Eq)]
pub enum Verb {
    Helo,
    Ehlo,
    Mail,
    Rcpt,
    Data,
    Rset,
    Noop,
    Vrfy,
    Quit,
    /// EXPN, HELP, AUTH, STARTTLS and TURN.
    NotOffered,
    Unknown,
}

/// The verb that a word is.
pub fn verb_of(word: &[u8]) -> Verb
    ensures { result ≡ verb_of word.now }
{
    if is_same(word, b"HELO") {
        Verb::Helo
    } else if is_same(word, b"EHLO") {
        Verb::Ehlo
    } else if is_same(word, b"MAIL") {
        Verb::Mail
    } else if is_same(word, b"RCPT") {
        Verb::Rcpt
    } else if is_same(word, b"DATA") {
        Verb::Data
    } else if is_same(word, b"RSET") {
        Verb::Rset
    } else if is_same(word, b"NOOP") {
        Verb::Noop
    } else if is_same(word, b"VRFY") {
        Verb::Vrfy
    } else if is_same(word, b"QUIT") {
        Verb::Quit
    } else if is_same(word, b"EXPN")
        || is_same(word, b"HELP")
        || is_same(word, b"AUTH")
        || is_same(word, b"STARTTLS")
        || is_same(word, b"TURN")
    {
        Verb::NotOffered
    } else {
        Verb::Unknown
    }
}

/// What stands before a line's first space.
pub fn word_of(line: &[u8]) -> &[u8]
    ensures { result.now ≡ word_of line.now }
{
    before(line, b' ')
}

/// What stands behind a line's first space.
pub fn argument_of(line: &[u8]) -> &[u8]
    ensures { result.now ≡ argument_of line.now }
{
    behind(line, b' ')
}
