//! Approvals of moderated mail: who may decide, until when, and which decision counts.
#![tactic(auto)]

mod approval;
pub mod laws;
mod tell;

pub use approval::{APPROVAL_TIME, Approval, ApprovalState, Decision, Verdict};
pub use tell::Tell;
