//! Planning by several workers: a list of tasks on several threads, and one worker at a bench.
#![tactic(auto)]

mod gate;
pub mod laws;
mod planning;
mod working;

pub use gate::{GateStep, PauseGate, WorkGate};
pub use planning::work_all;
pub use working::{WorkerEnd, worker};
