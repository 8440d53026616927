//! The words behind the program's name, read as a command.
#![tactic(auto)]

mod command;
pub mod laws;
mod parser;
mod words;

pub use command::{Command, WordsFault};
pub use words::read;
