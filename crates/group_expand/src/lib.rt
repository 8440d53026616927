//! Group expansion: who gets a message, each by the first of all paths, and what holds it.
#![tactic(auto)]

mod approval;
mod gates;
mod groups;
pub mod laws;
mod outcome;
mod plain;
mod routes;
mod walk;
mod way;

pub use approval::needs_approval;
pub use outcome::{Closed, ExpandFault, Expansion, Leaf, MOST_LEAVES};
pub use plain::expand_plainly;
pub use routes::expand;
