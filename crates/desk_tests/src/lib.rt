//! A desk over a stand-in for the hub, with what threads do at it.
#![tactic(auto)]

mod calls;
mod deed;
#[cfg(test)]
mod tests;
mod threads;
mod tray;

pub use calls::call;
pub use deed::{Ask, Deed, Note, Reply};
pub use threads::{serve, serve_both};
pub use tray::Tray;
