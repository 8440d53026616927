//! The SMTP front of the hub (RFC 5321): a session's text as events, and a session over any intake.
#![tactic(auto)]

mod dialog;
mod laws;
mod parameters;
mod part;
mod paths;
mod react;
mod reply;
mod session_end;
mod talk;
mod texts;
mod verb;

pub use dialog::{Dialog, Event};
pub use laws::{cutting_is_free, events_are_settled, no_turn_is_left, turns_are_determined};
pub use session_end::SessionEnd;
pub use talk::session;
