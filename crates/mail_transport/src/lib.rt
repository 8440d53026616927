//! The program's commands, over any source, sink, plant and clock.
#![tactic(auto)]

mod check;
mod command;
mod session;
mod status;

pub use command::transport;
pub use session::is_session;
pub use status::Status;
