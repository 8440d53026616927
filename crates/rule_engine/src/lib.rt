//! The mail flow rules of an organisation, folded for each recipient of a message.
#![tactic(auto)]

mod edit;
mod forking;
pub mod laws;
mod leaves;
mod recipient;
mod sets;
mod sharing;
mod texts;

pub use edit::{EditAt, render};
pub use forking::{Fork, forks};
pub use leaves::{Fate, Run, SideCopy, run_rules};
pub use recipient::{End, MadeCopy, Progress, RuleOutcome, Traced, judge, trace};
pub use sets::outcomes;
pub use texts::Texts;
