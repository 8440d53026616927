//! When a rule applies: its conditions and exceptions, judged for one sender, one recipient and one message.
#![tactic(auto)]

mod content;
mod folding;
mod people;
mod rule;
mod term;
mod word;

pub use rule::applies;
pub use term::holds;
pub use word::word_in;
