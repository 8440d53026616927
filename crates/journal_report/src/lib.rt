//! Why a message goes to a target, and the reports that say so to a journal's mailbox.
#![tactic(auto)]

mod cuts;
pub mod laws;
mod parts;
mod reading;
mod why;
mod writing;

pub use parts::{Line, Report, ReportHead};
pub use reading::{ReportFault, read_report};
pub use why::{Why, add_why_text};
pub use writing::report;
