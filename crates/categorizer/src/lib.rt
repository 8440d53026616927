//! The releases of a submission, by the directory and the rules of an organisation.
#![tactic(auto)]

mod content;
mod copies;
mod drafts;
mod holds;
pub mod laws;
mod letter;
mod losses;
mod making;
mod news;
mod numbering;
mod org;
mod parts;
mod planning;
mod reports;
mod sends;

pub use making::release;
pub use org::HubOrg;
