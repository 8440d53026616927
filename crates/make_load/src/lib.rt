//! The load of the command `make` as data, and the summary lines of `make` and `turn`.
#![tactic(auto)]

mod organisation;
mod submissions;
mod summary;

pub use organisation::{directory, rules};
pub use submissions::{MOMENT, moderator, submission};
pub use summary::{MakeSummary, TurnSummary};
