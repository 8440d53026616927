//! Who is journaled: which mail a journal rule takes, and which mailboxes get reports of it.
#![tactic(auto)]

mod scope;
mod taking;

pub use scope::takes;
pub use taking::{Taken, mailboxes};
