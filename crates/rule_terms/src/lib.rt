//! The rule book of an organisation: its mail flow rules and journal rules, and how they are read.
#![tactic(auto)]

mod action;
mod book;
mod fault;
mod flaw;
mod form;
mod parts;
mod read_action;
mod read_book;
mod read_journal;
mod read_rule;
mod read_term;
mod rule;
mod shape;
mod term;
mod together;
mod values;

pub use action::{Action, Fallback};
pub use book::RuleBook;
pub use fault::RuleFault;
pub use read_book::read_rules;
pub use rule::{JournalRule, Rule, Scope};
pub use term::{Side, Term};
