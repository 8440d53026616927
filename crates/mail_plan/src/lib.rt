//! What is sent: releases, what they are made from, and what plans them.
#![tactic(auto)]

mod form;
mod input;
pub mod laws;
mod outcome;
mod planner;
mod release;

pub use input::{Opening, ReleaseInput, made_at};
pub use outcome::{Outcome, Task, plan};
pub use planner::{FIRST_DIRECTORY, OrgFault, Planner};
pub use release::{End, Hold, Item, ItemKind, Release};
