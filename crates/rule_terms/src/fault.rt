// Why a text is no rule book.
use mail_names::NoMemory;

/// Why a text is no rule book. A `rule` counts the rules from 0, and the journal rules behind them.
#[derive(Clone, Copy, Debug, PartialEq, Eq)]
pub enum RuleFault {
    /// The text is no TOML, is too long, or has something else than arrays of tables `rule` and `journal`.
    NotToml,
    /// A term hasn't the form, or a list of terms is too long.
    BadTerm { rule: u32 },
    /// An action or another part of the rule hasn't the form.
    BadAction { rule: u32 },
    /// A key is named that can't stand there: no group, no object, or nobody to whom mail can be delivered.
    UnknownKey { rule: u32 },
    /// A rejecting code is neither 5.7.1 nor one of 5.7.900 to 5.7.999.
    BadCode { rule: u32 },
    /// A date is no instant, or lies before 1970.
    BadDate { rule: u32 },
    /// There are more than 100 rules or more than 100 journal rules.
    TooMany,
    /// Want of memory.
    NoMemory,
}

impl From<NoMemory> for RuleFault {
    ghost use Rattle.std.specs.Prelude.{◌≡◌};
    ghost use Rattle.rule_terms.specs.declared.fault.RuleFault.TheVariants as faults;

    ghost from_gives = { λ _ e. e ≡ faults.NoMemory };

    fn from(_: NoMemory) -> Self {
        RuleFault::NoMemory
    }
}
