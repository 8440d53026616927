// The rule book.
ghost use Rattle.std.specs.Prelude.{◌≡◌, [], true};
ghost use Rattle.rule_terms.specs.Forms.{is_book, are_rules, are_journals};

use crate::rule::{JournalRule, Rule};
use mail_names::Items;
use std::alloc::Global;
use std::marker::Model;

/// The rules of an organisation, in the order in which they are judged, and its journal rules. Each has the form that a
/// rules file asks for, and there are at most 100 of each.
#[derive(Drop)]
pub struct RuleBook {
    rules: Items<Rule>,
    journals: Items<JournalRule>,
}

impl Model for RuleBook {
    ghost use Rattle.std.specs.Prelude.{◌≡◌, true};
    ghost use Rattle.rule_terms.specs.Forms.{Book, is_book};

    ghost Value = { Book };

    ghost view = { λ b. record { rules = b.rules; journals = b.journals } };

    ghost invariant = { λ b. is_book (record { rules = b.rules; journals = b.journals }) ≡ true };
}

impl RuleBook {
    /// The book with no rules. It takes no memory.
    pub fn empty(alloc: Global) -> RuleBook
        ensures { result ≡ record { rules = []; journals = [] } }
    {
        RuleBook {
            rules: Items::new(alloc),
            journals: Items::new(alloc),
        }
    }

    /// The book of these rules. It takes no memory.
    pub fn of(rules: Items<Rule>, journals: Items<JournalRule>) -> RuleBook
        requires { is_book (record { rules = rules; journals = journals }) ≡ true }
        ensures { result ≡ record { rules = rules; journals = journals } }
    {
        RuleBook { rules, journals }
    }

    /// The mail flow rules, in the order in which they are judged.
    pub fn rules(&self) -> &[Rule]
        ensures value { result.now ≡ self.now.rules }
        ensures form { are_rules result.now ≡ true }
    {
        self.rules.as_slice()
    }

    /// The journal rules, in order.
    pub fn journals(&self) -> &[JournalRule]
        ensures value { result.now ≡ self.now.journals }
        ensures form { are_journals result.now ≡ true }
    {
        self.journals.as_slice()
    }
}
