//! What the hub tells senders and moderators: the texts of its notices.
#![tactic(auto)]

mod about;
mod kinds;
mod lines;
mod text;

pub use kinds::{About, Notice};
pub use text::notice;
