//! A value that several threads use in turns, with one legal history of what they did to it.
//!
//! A [`Desk`] keeps the value, and each thread has a [`Seat`] of it. A call begins with [`Desk::begin`], which waits for the
//! seat's turn and hands the value out, and ends with [`Desk::end`], which takes it back with what the call did.
#![tactic(auto)]

mod calls;
mod closing;
mod desk;
mod opening;
mod plays;
mod rule;
mod seat;
mod seats;
mod view;

pub use desk::{Desk, DeskFull, SlotOut};
pub use rule::{Deeds, Naming, TurnRule};
pub use seat::{Seat, Token};
pub use view::{Element, Half, Stage, Start, View};
