//! What an administrator and a worker ask of a hub, and what it answers: the calls, what they show, and why a call is
//! refused.
//!
//! It stands below the hub, so that who asks it needn't know how it works.
#![tactic(auto)]

mod bench;
mod commit_end;
mod fault;
mod office;
mod views;

pub use bench::{BenchCall, BenchStep, Taking, TaskBench};
pub use commit_end::{CommitEnd, Part};
pub use fault::HubFault;
pub use office::{Office, OfficeCall, OfficeStep};
pub use views::{ApprovalRow, EndRow, QueueView, TaskName, TurnEnd, WaitingRow};
