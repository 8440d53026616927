//! The directory of an organisation: its objects and accepted domains, how they are read, and who is in a group.
#![tactic(auto)]

mod directory;
mod draft;
mod fault;
mod first_pass;
pub mod laws;
mod line;
mod membership;
mod names;
mod object;
mod read_csv;
mod second_pass;

pub use directory::Directory;
pub use fault::DirectoryFault;
pub use object::{Kind, Object};
