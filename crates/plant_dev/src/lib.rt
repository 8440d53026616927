//! The hub's log file and its shelf of items, and what a crash may leave of them.
#![tactic(auto)]

mod failures;
mod file;
mod file_shelf;
mod folder;
mod history;
mod memory;
mod plant;
mod replay;
mod step;

pub use failures::Failing;
pub use file::{FilePlant, FilePlantFault};
pub use memory::MemoryPlant;
pub use plant::{Plant, ShelfFault, Stored};
