//! Reads an organisation's text and says what it is, without a hub.
#![tactic(auto)]

mod checking;
mod read;
mod split;

pub use checking::{CheckEnd, check};
