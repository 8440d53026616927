// What is wrong with a term or an action.
ghost use Rattle.std.specs.Prelude.{◌≡◌};
ghost use Rattle.rule_terms.specs.Rules.{action_fault, term_fault};

use crate::fault::RuleFault;
use mail_names::NoMemory;

/// Why a term or an action can't stand.
#[derive(Clone, Copy)]
pub enum Flaw {
    /// It hasn't the form.
    Bad,
    /// Its code isn't one of those allowed.
    BadCode,
    /// It names a key that can't stand there.
    Unknown,
}

/// What was read, or its flaw, unless memory ran out.
pub type Read<T> = Result<Result<T, Flaw>, NoMemory>;

/// What was read of a rules file, or the first fault in it, unless memory ran out.
pub type Judged<T> = Result<Result<T, RuleFault>, NoMemory>;

/// The fault of a rule one of whose terms has this flaw.
pub fn term_fault(rule: u32, flaw: Flaw) -> RuleFault
    ensures { result ≡ term_fault rule flaw }
{
    match flaw {
        Flaw::Bad | Flaw::BadCode => RuleFault::BadTerm { rule },
        Flaw::Unknown => RuleFault::UnknownKey { rule },
    }
}

/// The fault of a rule one of whose actions has this flaw.
pub fn action_fault(rule: u32, flaw: Flaw) -> RuleFault
    ensures { result ≡ action_fault rule flaw }
{
    match flaw {
        Flaw::Bad => RuleFault::BadAction { rule },
        Flaw::BadCode => RuleFault::BadCode { rule },
        Flaw::Unknown => RuleFault::UnknownKey { rule },
    }
}
