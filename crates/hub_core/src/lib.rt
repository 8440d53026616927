//! The state machine of the hub: what it accepted, what waits, and what each entry of its history does.
#![tactic(auto)]

mod asking;
mod command;
mod delivery;
mod digest;
mod ending;
pub mod laws;
mod limits;
mod live;
mod part;
mod queue;
mod remembered;
mod stage;
mod state;
mod waiting;

pub use asking::Asking;
pub use command::{Command, Reply, StepFault};
pub use limits::Limits;
pub use live::{Live, TaskName};
pub use part::{Difference, Part};
pub use queue::QueuedItem;
pub use stage::Stage;
pub use state::State;
pub use waiting::{Due, WaitingItem};
