//! The hub's planner: the releases of an organisation's directory and rules meet the promises of planners.
#![tactic(auto)]

mod planner;

pub use planner::HubPlanner;
